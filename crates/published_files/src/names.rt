// Names that a run would publish, and the files of the datasets that it read.
ghost use Rattle.std.specs.Prelude.{◌≡◌, ◌<◌, IfOk, Some, length, slice_get};
ghost use Rattle.lists_and_answers.specs.Answers.{Gives};
ghost use Rattle.outside.specs.Names.{extension_of, is_raw};
ghost use Rattle.catalog.specs.Drivers.{Dataset};
ghost use Rattle.published_files.specs.Names.{is_own, is_read, unless_own};

use catalog::Catalog;
use error_lines::Fault;
use outside::{Ext, Name};
use std::alloc::{AllocError, Global};

// Whether a name is that of raw data.
fn is_raw(name: &Name) -> bool
    ensures { result ≡ is_raw (extension_of name.now) }
{
    match name.extension() {
        Some(Ext::Bil | Ext::Bip | Ext::Bsq) => true,
        Some(Ext::Dt0 | Ext::Dt1 | Ext::Dt2 | Ext::Hgt | Ext::Asc | Ext::Grd | Ext::Vrt) => false,
        None => false,
    }
}

// Whether a name is that of a dataset's own file: its own, or that of the header beside raw data.
fn is_own(alloc: Global, dataset: &Name, name: &Name) -> Result<bool, AllocError>
    ensures own { IfOk result (λ own. own ≡ is_own dataset.now name.now) }
{
    if dataset.is(name) {
        return Ok(true);
    }
    if !is_raw(dataset) {
        return Ok(false);
    }
    let header = dataset.header(alloc)?;
    Ok(header.is(name))
}

// Whether a name is that of a file of the dataset of this number, its header included.
fn is_own_at(alloc: Global, cat: &Catalog, id: u32, name: &Name) -> Result<bool, AllocError>
    requires known { id < length cat.now }
    ensures own { IfOk result (λ own. (d : Dataset) → slice_get cat.now id ≡ Some d →
        own ≡ is_own d.head.name name.now) }
{
    is_own(alloc, &cat.head(id).name, name)
}

// Whether a name is that of an own file of some dataset of the catalog.
fn is_read(alloc: Global, cat: &Catalog, name: &Name) -> Result<bool, AllocError>
    ensures read { IfOk result (λ read. read ≡ is_read cat.now name.now) }
{
    for id in 0..cat.count() {
        if is_own_at(alloc, cat, id, name)? {
            return Ok(true);
        }
    }
    Ok(false)
}

/// Refuses a name that is to be published and is that of an own file of a dataset of the catalog. A dataset's own files
/// are the file of its name, and beside raw data the header.
///
/// SameName comes exactly with such a name, Memory freely.
pub fn unless_own(alloc: Global, cat: &Catalog, name: &Name) -> Result<(), Fault>
    ensures gives { Gives (λ f. f ≡ Fault.Memory) (λ done. done) result (unless_own cat.now name.now) }
{
    if is_read(alloc, cat, name)? {
        return Err(Fault::SameName {
            name: name.try_clone()?,
        });
    }
    Ok(())
}
