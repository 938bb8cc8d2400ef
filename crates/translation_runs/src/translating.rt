// Translations, from the words' options to the files.
ghost use Rattle.std.specs.Prelude.{◌≡◌, IfErr, Some, true};
ghost use Rattle.outside.specs.Outside.{Files};
ghost use Rattle.error_lines.specs.Faults.{HasCauses, HasChanged, fault_status};
ghost use Rattle.error_lines.specs.Steps.{Goes};
ghost use Rattle.output_copies.specs.Copying.{IsChanged};
ghost use Rattle.translation_runs.specs.Ends.{MayEnd, PutsTranslation, RefusesName, ended};
ghost use Rattle.translation_runs.specs.Judged.{translation_run};
ghost use Rattle.translation_runs.specs.Published.{IsNamed};

use crate::faults::by_plan;
use crate::published::unless_read;
use catalog::{Catalog, open_all};
use command_words::BlockCount;
use error_lines::Fault;
use lane_teams::WorkerCount;
use output_copies::{Writing, write_output};
use outside::{Folder, Name, Sink};
use std::alloc::Global;
use std::thread::Threads;
use strip_copies::Translation;
use translate_plan::{TranslateOptions, plan};

/// How a translation is done.
#[derive(Clone, Copy)]
pub struct Way {
    /// Whether the sums of records are to be checked.
    pub verify: bool,
    /// How many blocks each worker holds at once.
    pub blocks: BlockCount,
    /// How many workers read lines beside each other.
    pub workers: WorkerCount,
    /// Whether nothing is told of the work.
    pub quiet: bool,
}

/// Walks from a dataset, plans its output, sees that no name of this is that of a file that is read, and then does the
/// work. The extension of the output's name is one of its driver.
///
/// The refusals of the walk come first, then Plan, then SameName with the first such name, all before anything is put
/// or published. FolderFault and OutFault come only where the count of the folder and of the output rose, Changed only
/// over a folder that doesn't tell its names, before anything is published, Memory freely. Nothing of this depends on
/// the number of blocks or of workers.
#[tactic(auto, unfolding(crate::specs::Judged::translation_judged))]
pub fn put_translation<R: Threads + Sync, F: Folder, O: Sink>(
    rt: &R,
    alloc: Global,
    folder: &mut F,
    out: &mut O,
    src: &Name,
    options: &TranslateOptions,
    way: Way,
) -> Result<(), Fault>
    requires named { IsNamed options.now }
    // over a folder that tells its files: all the steps are done, or where the outside failed the first of them
    ensures told { (m : Files) → F.names folder.old ≡ Some m →
        Goes (translation_run m way.verify src.now options.now way.quiet) m result (F.names folder.new) (O.got out.old)
        (O.got out.new) }
    // over every folder: a refused translation has done nothing
    ensures refused { IfErr result (λ f. fault_status f ≡ 1 → (out.new ≡ out.old) ×
        (F.names folder.new ≡ F.names folder.old)) }
    // over every folder: all that is told of a source of some size is put, or where a fault is answered a first part
    ensures put { PutsTranslation way.quiet result (O.got out.old) (O.got out.new) }
    // over every folder and for every answer: a quiet translation leaves the sink as it was
    ensures quiet { way.quiet ≡ true → out.new ≡ out.old }
    ensures may_end { IfErr result (MayEnd options.now) }
    ensures unknown { RefusesName src.now result }
    ensures changed { HasChanged (F.names folder.old) (ended result) }
    // over every folder: where a length changed nothing was published
    ensures kept { IfErr result (λ f. IsChanged f → F.names folder.new ≡ F.names folder.old) }
    ensures cause { HasCauses (F.faults folder.old) (F.faults folder.new) (O.faults out.old) (O.faults out.new) result }
{
    let mut cat = Catalog::new(alloc);
    let id = open_all(alloc, &mut cat, folder, src, way.verify)?;
    let plan = by_plan(plan(options, cat.head(id)))?;
    unless_read(alloc, &cat, options)?;
    let translation = Translation {
        alloc,
        cat,
        id,
        plan,
    };
    let writing = Writing {
        name: &options.out,
        blocks: way.blocks.get(),
        workers: way.workers,
        quiet: way.quiet,
    };
    write_output(rt, &translation, folder, out, &writing)
}
