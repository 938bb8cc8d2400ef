// The walks from the inputs of a mosaic.
ghost use Rattle.std.specs.Prelude.{◌≡◌, ◌++◌, ℕ, List, [], ◌∷◌, length, Some, IfOk, IfErr, OnOk};
ghost use Rattle.lists_and_answers.specs.Answers.{Gives};
ghost use Rattle.outside.specs.Outside.{Files};
ghost use Rattle.outside.specs.Causes.{HasCause};
ghost use Rattle.catalog.specs.Drivers.{Dataset};
ghost use Rattle.catalog.specs.Walk.{dataset_number_in, walked, IsWalked};
ghost use Rattle.error_lines.specs.Faults.{by_walk, IsOutside};
ghost use Rattle.mosaic_builds.specs.Ends.{IsOfMaking};
ghost use Rattle.mosaic_builds.specs.Walks.{walked_all, AreNumbers, AreKnown};

use catalog::{Catalog, open_all};
use error_lines::Fault;
use lists_and_answers::Items;
use outside::{Folder, Name};
use std::alloc::{AllocError, Global};

/// Numbers of datasets of a catalog.
pub type Numbers = Items<u32>;

// Walks from a name, with a fault of the run.
fn walk<F: Folder>(
    alloc: Global,
    cat: &mut Catalog,
    folder: &mut F,
    name: &Name,
    verify: bool,
) -> Result<u32, Fault>
    ensures told { (m : Files) → F.names folder.old ≡ Some m → Gives IsOutside (λ id. cat.new) result
        (by_walk (walked m verify cat.old name.now)) }
    ensures number { IfOk result (λ id. dataset_number_in cat.new name.now ≡ Some id) }
    ensures kept { (more : List Dataset) × (cat.new ≡ cat.old ++ more) }
    ensures walked { (m : Files) → F.names folder.old ≡ Some m → IsWalked m cat.old → IsWalked m cat.new }
    ensures names { F.names folder.new ≡ F.names folder.old }
    ensures writes { F.write_calls folder.new ≡ F.write_calls folder.old }
    ensures cause { HasCause Fault.FolderFault (F.faults folder.old) (F.faults folder.new) result }
    ensures faults { (out : List ℕ) → IfErr result (IsOfMaking out) }
{
    match open_all(alloc, cat, folder, name, verify) {
        Ok(id) => Ok(id),
        Err(fault) => Err(Fault::from(fault)),
    }
}

// Walks from a name, and adds the number of its dataset.
fn walk_next<F: Folder>(
    alloc: Global,
    cat: &mut Catalog,
    folder: &mut F,
    name: &Name,
    verify: bool,
    ids: &mut Numbers,
) -> Result<(), Fault>
    ensures told { (m : Files) → F.names folder.old ≡ Some m → Gives IsOutside (λ done. cat.new) result
        (by_walk (walked m verify cat.old name.now)) }
    ensures numbers { OnOk result ((names : List (List ℕ)) → AreNumbers cat.old names ids.old →
        AreNumbers cat.new (names ++ name.now ∷ []) ids.new) }
    ensures kept { (more : List Dataset) × (cat.new ≡ cat.old ++ more) }
    ensures walked { (m : Files) → F.names folder.old ≡ Some m → IsWalked m cat.old → IsWalked m cat.new }
    ensures names { F.names folder.new ≡ F.names folder.old }
    ensures writes { F.write_calls folder.new ≡ F.write_calls folder.old }
    ensures cause { HasCause Fault.FolderFault (F.faults folder.old) (F.faults folder.new) result }
    ensures faults { (out : List ℕ) → IfErr result (IsOfMaking out) }
{
    let id = match walk(alloc, cat, folder, name, verify) {
        Ok(id) => id,
        Err(fault) => return Err(fault),
    };
    match ids.push(id) {
        Ok(()) => Ok(()),
        Err(AllocError) => Err(Fault::Memory),
    }
}

/// Walks from these names in order into one catalog, and gives the numbers of their datasets. Each walk knows what the
/// earlier ones met.
///
/// The first refusal of a walk counts, in the order of `open_all`. FolderFault comes only where the count rose, Memory
/// freely.
pub fn walk_all<F: Folder>(
    alloc: Global,
    cat: &mut Catalog,
    folder: &mut F,
    names: &[Name],
    verify: bool,
) -> Result<Numbers, Fault>
    ensures told { (m : Files) → F.names folder.old ≡ Some m → Gives IsOutside (λ ids. cat.new) result
        (walked_all m verify cat.old names.now) }
    ensures numbers { IfOk result (λ ids. AreNumbers cat.new names.now ids) }
    ensures count { IfOk result (λ ids. length ids ≡ length names.now) }
    ensures known { IfOk result (λ ids. AreKnown cat.new ids) }
    ensures kept { (more : List Dataset) × (cat.new ≡ cat.old ++ more) }
    ensures walked { (m : Files) → F.names folder.old ≡ Some m → IsWalked m cat.old → IsWalked m cat.new }
    ensures names { F.names folder.new ≡ F.names folder.old }
    ensures writes { F.write_calls folder.new ≡ F.write_calls folder.old }
    ensures cause { HasCause Fault.FolderFault (F.faults folder.old) (F.faults folder.new) result }
    ensures faults { (out : List ℕ) → IfErr result (IsOfMaking out) }
{
    let mut ids = Items::new(alloc);
    for name in names {
        match walk_next(alloc, cat, folder, name, verify, &mut ids) {
            Ok(()) => (),
            Err(fault) => return Err(fault),
        }
    }
    Ok(ids)
}
