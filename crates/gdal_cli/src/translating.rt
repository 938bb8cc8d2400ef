// Translations, as jobs of a run.
ghost use Rattle.std.specs.Prelude.{◌≡◌, List, IfErr, Err, Some, true, false};
ghost use Rattle.outside.specs.Outside.{Files};
ghost use Rattle.input_points.specs.declared.entry.Entry.{Entry};
ghost use Rattle.error_lines.specs.Faults.{HasCauses, HasChanged, OwnsFault};
ghost use Rattle.error_lines.specs.Steps.{Goes};
ghost use Rattle.translation_runs.specs.Ends.{ended};
ghost use Rattle.translation_runs.specs.Published.{IsNamed};
ghost use Rattle.gdal_cli.specs.Run.{MayEnd, IsRefusal};
ghost use Rattle.gdal_cli.specs.Jobs.{RefusesKind};
ghost use Rattle.gdal_cli.specs.Work.{carried_out, translate_judged};

use command_words::Job;
use error_lines::Fault;
use outside::{Folder, Name, Sink};
use std::alloc::Global;
use std::thread::Threads;
use translate_plan::TranslateOptions;
use translation_runs::{Way, put_translation};

/// Does a translation: walks from a dataset, plans its output, sees that no name of this is that of a file that is
/// read, and then does the work. The extension of the output's name is one of its driver.
///
/// All refusals come before anything is put or published. FolderFault and OutFault come only where the count of the
/// folder and of the output rose, Changed only over a folder that doesn't tell its names, Memory freely. A quiet
/// translation puts nothing, however it ends.
pub fn put_translated<R: Threads + Sync, F: Folder, O: Sink>(
    rt: &R,
    alloc: Global,
    folder: &mut F,
    out: &mut O,
    src: &Name,
    options: &TranslateOptions,
    way: Way,
) -> Result<(), Fault>
    requires named { IsNamed options.now }
    ensures told { (m : Files) → F.names folder.old ≡ Some m → (lines : List Entry) →
        Goes (carried_out (translate_judged m way.verify src.now options.now way.quiet) m lines) m result
        (F.names folder.new) (O.got out.old) (O.got out.new) }
    ensures refused { IsRefusal (ended result) → (out.new ≡ out.old) × (F.names folder.new ≡ F.names folder.old) }
    ensures quiet { way.quiet ≡ true → out.new ≡ out.old }
    ensures may_end { IfErr result (MayEnd (Job.Translate src.now options.now way.quiet)) }
    ensures cause { HasCauses (F.faults folder.old) (F.faults folder.new) (O.faults out.old) (O.faults out.new) result }
    ensures not_input { result ≡ Err Fault.InputFault → ⊥ }
    ensures unknown { RefusesKind false src.now result }
    ensures changed { HasChanged (F.names folder.old) (ended result) }
    ensures own { OwnsFault (ended result) }
{
    put_translation(rt, alloc, folder, out, src, options, way)
}
