// Catalogs of datasets, and the walk that finds them.
ghost use Rattle.std.specs.Prelude.{◌≡◌, ◌<◌, ◌≤◌, ◌+◌, ◌++◌, List, [], length, slice_get, Some, Err, option_map};
ghost use Rattle.std.specs.Prelude.{option_and_then, IfOk, OnOk, OnErr, IsTrue, is_some};
ghost use Rattle.lists_and_answers.specs.Answers.{Gives};
ghost use Rattle.outside.specs.Outside.{Files};
ghost use Rattle.outside.specs.Causes.{HasCause};
ghost use Rattle.catalog.specs.Outcomes.{IsOutside};
ghost use Rattle.catalog.specs.Dataset.{most_nestings};
ghost use Rattle.catalog.specs.Drivers.{driver_of, document_of};
ghost use Rattle.catalog.specs.Heads.{OwnsFaults};
ghost use Rattle.catalog.specs.Drivers.{Dataset as Known};
ghost use Rattle.catalog.specs.Links.{source_at, member_at, height_of};
ghost use Rattle.catalog.specs.Readings.{calls_to_open_all};
ghost use Rattle.catalog.specs.Walk.{dataset_number_in, walked, WalksUnknown, IsCatalog, IsWalked};

use crate::dataset::Dataset;
use crate::driver::Content;
use crate::links::Met;
use crate::walk::visit;
use crate::{DriverHead, Head, WalkFault};
use outside::{Folder, Name};
use std::alloc::Global;
use std::marker::Model;
use vrt_profile::Document;

/// The most mosaics on a path.
const MOST_NESTINGS: u32 = 16;

/// Datasets by number, counted from 0 in the order in which they were met. No name stands twice, and of
/// each source of a mosaic the catalog has the dataset that it names.
#[derive(Drop)]
pub struct Catalog {
    met: Met,
}

impl Model for Catalog {
    ghost use Rattle.std.specs.Prelude.{List};
    ghost use Rattle.catalog.specs.Linked.{IsWholeWalk};
    ghost use Rattle.catalog.specs.Drivers.{Dataset as Known};

    ghost Value = { List Known };

    ghost view = { λ c. c.met.datasets };

    ghost invariant = { λ c. IsWholeWalk c.met };
}

impl Catalog {
    /// The empty catalog; it takes no memory.
    pub fn new(alloc: Global) -> Catalog
        ensures empty { result ≡ [] }
    {
        Catalog {
            met: Met::new(alloc),
        }
    }

    /// The number of datasets.
    pub fn count(&self) -> u32
        ensures count { result ≡ length self.now }
        ensures valid { IsCatalog self.now }
    {
        self.met.count()
    }

    /// The head of a dataset.
    pub fn head(&self, id: u32) -> &Head
        requires known { id < length self.now }
        ensures head { option_map (λ d. d.head) (slice_get self.now id) ≡ Some result.now }
        ensures valid { IsCatalog self.now }
    {
        &self.met.dataset(id).head
    }

    /// The head of a dataset's data, as the walk read it; None exactly where the dataset is a mosaic.
    pub fn driver(&self, id: u32) -> Option<&DriverHead>
        requires known { id < length self.now }
        ensures driver { option_and_then (λ d. driver_of d.content) (slice_get self.now id) ≡ option_map (λ r. r.now)
            result }
    {
        match &self.met.dataset(id).content {
            Content::File(driver) => Some(driver),
            Content::Mosaic(_) => None,
        }
    }

    /// The document of a mosaic; None exactly where there is no mosaic of this number.
    pub fn document(&self, id: u32) -> Option<&Document>
        ensures document { option_and_then (λ d. document_of d.content) (slice_get self.now id)
            ≡ option_map (λ r. r.now) result }
        ensures valid { IsCatalog self.now }
    {
        if id >= self.met.count() {
            return None;
        }
        match &self.met.dataset(id).content {
            Content::File(_) => None,
            Content::Mosaic(document) => Some(document),
        }
    }

    /// The length in bytes that the walk found of the file that has the dataset's name.
    pub fn length(&self, id: u32) -> u64
        requires known { id < length self.now }
        ensures length { option_map (λ d. d.length) (slice_get self.now id) ≡ Some result }
    {
        self.met.dataset(id).length
    }

    /// The number of the dataset that a source of a mosaic names, by its band and its number in the
    /// band, both counted from 0. It is nested less deep than the mosaic.
    pub fn member(&self, id: u32, band: u32, source: u32) -> u32
        requires there { IsTrue (is_some (option_and_then (λ d. source_at d band source) (slice_get self.now id))) }
        ensures member { option_and_then (λ d. member_at self.now d band source) (slice_get self.now id) ≡ Some result }
        ensures known { result < length self.now }
        ensures below { (d t : Known) → slice_get self.now id ≡ Some d → slice_get self.now result ≡ Some t →
            height_of self.now t < height_of self.now d }
    {
        let Some(link) = self.met.link(id) else {
            unreachable!();
        };
        *link.members.get(band as usize).get(source as usize)
    }

    /// How deep a dataset is nested: 0 for a file, 1 for a mosaic without sources, else one more than the
    /// greatest of what its sources name.
    pub fn height(&self, id: u32) -> u32
        requires known { id < length self.now }
        ensures height { option_map (λ d. height_of self.now d) (slice_get self.now id) ≡ Some result }
        ensures low { result ≤ most_nestings }
    {
        self.met.height(id)
    }
}

/// Walks from a name to all that it reaches, and gives the number of its dataset. What the walk meets
/// for the first time is read, as `head_of` says, and stands at the catalog's end, a mosaic before what
/// its sources name, in document order; a dataset that was met earlier isn't read again.
///
/// The refusals of a name come in this order: NotRecognized; Cycle where it stands on the path of
/// mosaics that leads to it; TooDeep where it is a mosaic and would be the seventeenth on its path;
/// Limit with the kind Files and the value 65537 where it would be one dataset too many; those of its own
/// files. Then for each source of a mosaic: Limit with the kind Sources and the value 262145, Limit with
/// the kind Name where the text of its name is longer than 4,096 bytes, the refusals of what it names,
/// SourceBand where that lacks the band, and Malformed with Unsupported where the source scales the band,
/// or has a table for it, and its samples have more than 32 bits. The first refusal counts, and after it
/// the catalog is as before. `verify` asks for the sums of DTED records.
///
/// Over every folder a walk that isn't refused makes at most the reads that its new datasets take, each of which is
/// read once (`calls_to_open_all`).
pub fn open_all<F: Folder>(
    alloc: Global,
    cat: &mut Catalog,
    folder: &mut F,
    name: &Name,
    verify: bool,
) -> Result<u32, WalkFault>
    ensures told { (m : Files) → F.names folder.old ≡ Some m → Gives IsOutside (λ id. cat.new) result
        (walked m verify cat.old name.now) }
    ensures number { IfOk result (λ id. dataset_number_in cat.new name.now ≡ Some id) }
    ensures refused { OnErr result (cat.new ≡ cat.old) }
    ensures kept { (more : List Known) × (cat.new ≡ cat.old ++ more) }
    ensures valid { IsCatalog cat.new }
    ensures walked { (m : Files) → F.names folder.old ≡ Some m → IsWalked m cat.old → IsWalked m cat.new }
    ensures again { IsTrue (is_some (dataset_number_in cat.old name.now)) →
        (F.read_calls folder.new ≡ F.read_calls folder.old) × (F.faults folder.new ≡ F.faults folder.old) }
    ensures reads { OnOk result ((more : List Known) → cat.new ≡ cat.old ++ more →
        F.read_calls folder.new ≤ F.read_calls folder.old + calls_to_open_all verify more) }
    ensures unknown { WalksUnknown name.now result }
    ensures names { F.names folder.new ≡ F.names folder.old }
    ensures write_calls { F.write_calls folder.new ≡ F.write_calls folder.old }
    ensures cause { HasCause WalkFault.FolderFault (F.faults folder.old) (F.faults folder.new) result }
    ensures own { OwnsFaults result }
{
    let count = cat.met.count();
    let sources = cat.met.sources();
    match visit(alloc, &mut cat.met, folder, verify, MOST_NESTINGS, name) {
        Ok(id) => Ok(id),
        Err(fault) => {
            cat.met.cut(count, sources);
            Err(fault)
        }
    }
}
