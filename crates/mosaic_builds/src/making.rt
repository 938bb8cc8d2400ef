// A mosaic, from the names of its inputs to what is to be published.
ghost use Rattle.std.specs.Prelude.{◌≡◌, ◌≤◌, ℕ, length, Some, IfOk, IfErr};
ghost use Rattle.lists_and_answers.specs.Answers.{Gives};
ghost use Rattle.outside.specs.Outside.{Files};
ghost use Rattle.outside.specs.Causes.{HasCause};
ghost use Rattle.error_lines.specs.Faults.{IsOutside};
ghost use Rattle.mosaic_builds.specs.Built.{built_of, built_in, built_by, IsMade};
ghost use Rattle.mosaic_builds.specs.Ends.{IsOfBuilding, IsOfMaking};
ghost use Rattle.mosaic_builds.specs.Walks.{heads_at, AreKnown};
ghost use Rattle.catalog.specs.Dataset.{most_datasets};

use crate::list::list_names;
use crate::mosaic::mosaic_of_walked;
use crate::walks::{Numbers, walk_all};
use buildvrt::{BuildOptions, SkipList};
use catalog::Catalog;
use error_lines::Fault;
use outside::{Folder, Name, Names};
use published_files::unless_own;
use std::alloc::Global;
use vrt_profile::Document;

/// How a mosaic is made.
#[derive(Clone, Copy)]
pub struct Building<'a> {
    /// The name of a list of further inputs.
    pub list: &'a Option<Name>,
    /// What the mosaic is asked for, and its name.
    pub options: &'a BuildOptions,
    /// Whether the sums of records are to be checked.
    pub verify: bool,
    /// Whether nothing is told of the work.
    pub quiet: bool,
}

/// A mosaic that is to be published: the datasets that were read, those of its inputs by number, the document, and the
/// inputs that are skipped.
#[derive(Drop)]
pub struct Made {
    pub cat: Catalog,
    pub ids: Numbers,
    pub document: Document,
    pub skipped: SkipList,
}

// The mosaic of walked inputs, whose name is none of a file that was read.
fn build(alloc: Global, cat: Catalog, ids: Numbers, options: &BuildOptions) -> Result<Made, Fault>
    requires known { AreKnown cat ids }
    requires few { length ids ≤ most_datasets }
    ensures told { Gives (λ f. f ≡ Fault.Memory) built_by result (built_of options.now cat (heads_at cat ids)) }
    ensures made { IfOk result IsMade }
    ensures faults { IfErr result (IsOfBuilding options.now.out) }
{
    let (document, skipped) = match mosaic_of_walked(alloc, &cat, ids.as_slice(), options) {
        Ok(made) => made,
        Err(fault) => return Err(fault),
    };
    match unless_own(alloc, &cat, &options.out) {
        Ok(()) => Ok(Made {
            cat,
            ids,
            document,
            skipped,
        }),
        Err(fault) => Err(fault),
    }
}

/// Makes a mosaic: lists the names of its inputs, walks from each in order, builds the document of their heads, and
/// sees that its name is none of a file that was read.
pub fn make<F: Folder>(
    alloc: Global,
    folder: &mut F,
    inputs: Names,
    building: Building,
) -> Result<Made, Fault>
    ensures told { (m : Files) → F.names folder.old ≡ Some m → Gives IsOutside built_by result
        (built_in m building.entry.verify inputs building.entry.list.now building.entry.options.now) }
    ensures made { IfOk result IsMade }
    ensures names { F.names folder.new ≡ F.names folder.old }
    ensures cause { HasCause Fault.FolderFault (F.faults folder.old) (F.faults folder.new) result }
    ensures faults { IfErr result (IsOfMaking building.entry.options.now.out) }
{
    let names = match list_names(alloc, folder, inputs, building.list) {
        Ok(names) => names,
        Err(fault) => return Err(fault),
    };
    let mut cat = Catalog::new(alloc);
    let ids = match walk_all(alloc, &mut cat, folder, names.as_slice(), building.verify) {
        Ok(ids) => ids,
        Err(fault) => return Err(fault),
    };
    build(alloc, cat, ids, building.options)
}
