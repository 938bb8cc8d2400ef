// Single samples of files.
ghost use Rattle.std.specs.Prelude.{◌≡◌, ◌<◌, ◌≤◌, ◌+◌, length, slice_get, nat_eq, Some, IfOk, IfErr, IsSome, true};
ghost use Rattle.std.specs.Map.{lookup};
ghost use Rattle.outside.specs.Causes.{HasCause};
ghost use Rattle.outside.specs.Outside.{Files};
ghost use Rattle.outside.specs.Reading.{OnlyRead, WhereTold};
ghost use Rattle.catalog.specs.Drivers.{Dataset};
ghost use Rattle.catalog.specs.Pixels.{pixel_of};
ghost use Rattle.catalog.specs.Walk.{IsWalked};
ghost use Rattle.band_blocks.specs.Contents.{most_calls};
ghost use Rattle.band_blocks.specs.Keys.{IsPixelKey};
ghost use Rattle.band_blocks.specs.Open.{AreGood, TellsChangeOf, IsUnchanged};
ghost use Rattle.band_blocks.specs.Samples.{HasPlaces, IsDirect, IsOfType};

use crate::{Counter, LoadFault, OpenFiles, PixelKey};
use catalog::{Catalog, DriverHead};
use geotransform::Sample;
use outside::Folder;
use std::sync::ledger::Ledger;

// Whether the head of a file tells the place of each sample.
fn tells_places(driver: &DriverHead) -> bool
    ensures places { result ≡ true → HasPlaces driver.now }
{
    match driver {
        DriverHead::Raw(_) => true,
        DriverHead::Dted(_) => true,
        DriverHead::Hgt { .. } => true,
        DriverHead::Ascii(_) => false,
    }
}

/// Whether each sample of a dataset has a place in its file, which the file's head tells: not that of a grid,
/// whose values are words of any length, nor that of a mosaic, which has no samples of its own.
#[tactic(auto, using(crate::proofs::Samples::direct_known))]
pub fn has_places(cat: &Catalog, id: u32) -> bool
    requires known { id < length cat.now }
    ensures direct { result ≡ true → (d : Dataset) → slice_get cat.now id ≡ Some d → IsDirect d.content }
{
    match cat.driver(id) {
        Some(driver) => tells_places(driver),
        None => false,
    }
}

/// Reads one sample of a file (not of a grid or a mosaic, whose samples have no places) by itself, in one
/// short read. The file is opened where it isn't among the open ones. Each call ticks `loads` once, as that
/// of a block does.
///
/// FolderFault comes only where the folder's count rose, Memory freely. Changed comes only where a file
/// was opened again and had another length than the walk found, or was absent: never over a folder that
/// tells its names and over whose files the catalog was walked.
pub fn load_sample<F: Folder, L: Ledger>(
    cat: &Catalog,
    folder: &mut F,
    files: &mut OpenFiles<F>,
    pixel: PixelKey,
    loads: &mut Counter<L>,
) -> Result<Sample, LoadFault>
    requires pixel { IsPixelKey cat.now pixel }
    requires direct { (d : Dataset) → slice_get cat.now pixel.dataset ≡ Some d → IsDirect d.content }
    requires good { AreGood F.file_bytes F.file_len (F.names folder.old) cat.now files.old }
    ensures told { (m : Files) → F.names folder.old ≡ Some m → IsWalked m cat.now →
        IfOk result (λ v. v ≡ pixel_of m cat.now pixel.dataset pixel.band pixel.x pixel.y) }
    ensures typed { (d : Dataset) → slice_get cat.now pixel.dataset ≡ Some d → IfOk result (IsOfType d pixel.band) }
    ensures changed { (d : Dataset) → slice_get cat.now pixel.dataset ≡ Some d → IfErr result (TellsChangeOf d) }
    ensures never { WhereTold F.Folder folder.old (λ m. IsWalked m cat.now → IfErr result IsUnchanged) }
    ensures held { IsSome (lookup (nat_eq pixel.dataset) files.old) → IfErr result IsUnchanged }
    ensures good { AreGood F.file_bytes F.file_len (F.names folder.new) cat.now files.new }
    ensures loads { loads.new ≡ loads.old + 1 }
    ensures reads { F.read_calls folder.new ≤ F.read_calls folder.old + 1 }
    ensures most { F.read_calls folder.new ≤ F.read_calls folder.old + most_calls cat.now }
    ensures only_read { OnlyRead F.Folder folder.old folder.new }
    ensures cause { HasCause LoadFault.FolderFault (F.faults folder.old) (F.faults folder.new) result }
{
    loads.tick();
    // This call is made for the proof: it says what holds of every catalog.
    let _count = cat.count();
    let Some(driver) = cat.driver(pixel.dataset) else {
        unreachable!();
    };
    files.ensure_open(cat, folder, pixel.dataset)?;
    files.read_sample(folder, driver, pixel)
}
