// What a dataset's own files say of it, by its name.
ghost use Rattle.std.specs.Prelude.{◌≡◌, ◌≤◌, ◌+◌, Some, Ok, IfOk, IfErr, OnOk};
ghost use Rattle.lists_and_answers.specs.Answers.{Gives};
ghost use Rattle.outside.specs.Outside.{Files};
ghost use Rattle.outside.specs.Causes.{HasCause};
ghost use Rattle.catalog.specs.Outcomes.{IsOutside};
ghost use Rattle.catalog.specs.Dataset.{IsDatasetHead};
ghost use Rattle.catalog.specs.Drivers.{Fits, Dataset as Known};
ghost use Rattle.catalog.specs.OwnFiles.{content_kind, IsOfFile};
ghost use Rattle.catalog.specs.Readings.{calls_to_find, calls_to_open};
ghost use Rattle.catalog.specs.Heads.{kind_in, found_in, dataset_by, dataset_in, head_in, IsOfHead, RefusesUnknown};
ghost use Rattle.catalog.specs.Heads.{OwnsFaults};
ghost use Rattle.catalog.specs.Walk.{IsDataset};

use crate::dataset::Dataset;
use crate::driver::Found;
use crate::dted::find_cell;
use crate::grid::find_grid;
use crate::heads::content_head;
use crate::hgt::find_tile;
use crate::kind::kind_of;
use crate::mosaic::find_mosaic;
use crate::mosaic_head::names_within;
use crate::raw::find_raw;
use crate::{Head, Kind, WalkFault};
use outside::{Folder, Name};
use std::alloc::Global;

// Finds what the files of a dataset say, by the kind that its name tells.
#[tactic(auto, using(crate::proofs::Readings::raw_calls, crate::proofs::Readings::grid_calls, crate::proofs::Readings::mosaic_calls))]
fn find<F: Folder>(
    alloc: Global,
    folder: &mut F,
    kind: Kind,
    name: &Name,
    verify: bool,
) -> Result<Found, WalkFault>
    requires kind { kind_in name.now ≡ Ok kind }
    ensures told { (m : Files) → F.names folder.old ≡ Some m → Gives IsOutside (λ found. found) result
        (found_in kind m verify name.now) }
    ensures kind { IfOk result (λ found. content_kind found.content ≡ kind) }
    ensures fits { IfOk result (λ found. Fits name.now found.content found.length) }
    ensures names { F.names folder.new ≡ F.names folder.old }
    ensures reads { IfOk result (λ found. F.read_calls folder.new ≤ F.read_calls folder.old + calls_to_find verify
        found.content found.length) }
    ensures write_calls { F.write_calls folder.new ≡ F.write_calls folder.old }
    ensures cause { HasCause WalkFault.FolderFault (F.faults folder.old) (F.faults folder.new) result }
    ensures of_file { IfErr result IsOfFile }
{
    match kind {
        Kind::Raw => find_raw(alloc, folder, name),
        Kind::Dted => find_cell(alloc, folder, name, verify),
        Kind::Hgt => find_tile(folder, name),
        Kind::Ascii => find_grid(alloc, folder, name),
        Kind::Vrt => find_mosaic(alloc, folder, name),
    }
}

// Reads the dataset of a name whose kind is known, by its own files.
#[tactic(auto, using(crate::proofs::Headers::outside_fails, crate::proofs::Headers::memory_is_outside), unfolding(crate::specs::Heads::dataset_by))]
pub fn read_dataset<F: Folder>(
    alloc: Global,
    folder: &mut F,
    kind: Kind,
    name: &Name,
    verify: bool,
) -> Result<Dataset, WalkFault>
    requires kind { kind_in name.now ≡ Ok kind }
    ensures told { (m : Files) → F.names folder.old ≡ Some m → Gives IsOutside (λ d. d) result
        (dataset_by kind m verify name.now) }
    ensures valid { IfOk result IsDataset }
    ensures name { IfOk result (λ d. d.head.name ≡ name.now) }
    ensures names { F.names folder.new ≡ F.names folder.old }
    ensures reads { IfOk result (λ d. F.read_calls folder.new ≤ F.read_calls folder.old + calls_to_open verify d) }
    ensures write_calls { F.write_calls folder.new ≡ F.write_calls folder.old }
    ensures cause { HasCause WalkFault.FolderFault (F.faults folder.old) (F.faults folder.new) result }
    ensures of_file { IfErr result IsOfFile }
{
    let found = find(alloc, folder, kind, name, verify)?;
    match content_head(alloc, name, &found.content) {
        Ok(head) => Ok(Dataset {
            head,
            content: found.content,
            length: found.length,
        }),
        Err(fault) => {
            drop(found);
            Err(fault)
        }
    }
}

// The head of a dataset that is let go.
fn head_alone(dataset: Dataset) -> Head
    ensures head { result ≡ dataset.head }
{
    let Dataset { head, content, .. } = dataset;
    drop(content);
    head
}

/// The head of the dataset of a name: what its extension and its own files say. `verify` asks for the
/// sums of DTED records.
///
/// NotRecognized comes exactly where the extension is none of the list. For raw data Absent comes where
/// the data or the header isn't there, Malformed where the header is longer than 1,048,576 bytes or has
/// a fault, Short where the data are shorter than the header asks. For a DTED cell (MIL-PRF-89020B)
/// Malformed comes where its head has a fault, Short where it is shorter than its head asks, Malformed
/// with the first line from the west whose record has a wrong mark or sum where `verify` asks for it.
/// For a tile Malformed comes where the name, and then the length, isn't that of a tile; for a grid
/// where the scan of it, from the first byte to the last, has a fault. For a mosaic Malformed comes where
/// its document is longer than 67,108,864 bytes or has a fault, and then Limit with the kind Name where a
/// source's name is resolved from a text of more than 4,096 bytes, with the length of the first such
/// text; no source is opened. The checks are made in this order, and the first refusal counts. FolderFault
/// comes only where the folder's count rose, Memory freely, and never within Malformed. It takes memory
/// for the header, the front of the cell or the document, for one record or piece of 65,536 bytes, and
/// for the head.
///
/// Over a folder that tells its files it makes at most the reads that the dataset takes (`calls_to_open`).
#[tactic(auto, using(crate::proofs::Headers::outside_fails), unfolding(crate::specs::Heads::head_in, crate::specs::Heads::dataset_in))]
pub fn head_of<F: Folder>(
    alloc: Global,
    folder: &mut F,
    name: &Name,
    verify: bool,
) -> Result<Head, WalkFault>
    ensures told { (m : Files) → F.names folder.old ≡ Some m → Gives IsOutside (λ h. h) result
        (head_in m verify name.now) }
    ensures valid { IfOk result IsDatasetHead }
    ensures unknown { RefusesUnknown name.now result }
    ensures names { F.names folder.new ≡ F.names folder.old }
    ensures reads { OnOk result ((m : Files) (d : Known) → F.names folder.old ≡ Some m →
        dataset_in m verify name.now ≡ Ok d → F.read_calls folder.new ≤ F.read_calls folder.old + calls_to_open verify
        d) }
    ensures write_calls { F.write_calls folder.new ≡ F.write_calls folder.old }
    ensures cause { HasCause WalkFault.FolderFault (F.faults folder.old) (F.faults folder.new) result }
    ensures of_head { IfErr result IsOfHead }
    ensures own { OwnsFaults result }
{
    let kind = kind_of(name)?;
    let dataset = read_dataset(alloc, folder, kind, name, verify)?;
    match names_within(name, &dataset.content) {
        Ok(()) => Ok(head_alone(dataset)),
        Err(fault) => {
            drop(dataset);
            Err(fault)
        }
    }
}
