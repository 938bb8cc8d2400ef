// Mosaics, from the words' options to the document.
ghost use Rattle.std.specs.Prelude.{◌≡◌, List, IfErr, Err, Some, true, false};
ghost use Rattle.outside.specs.Outside.{Files};
ghost use Rattle.input_points.specs.declared.entry.Entry.{Entry};
ghost use Rattle.error_lines.specs.Faults.{HasCauses, HasChanged, OwnsFault};
ghost use Rattle.error_lines.specs.Steps.{AreWarned, GoesWarning};
ghost use Rattle.translation_runs.specs.Ends.{ended};
ghost use Rattle.gdal_cli.specs.Run.{MayEnd, IsRefusal};
ghost use Rattle.gdal_cli.specs.Jobs.{MayWarn, RefusesOnly};
ghost use Rattle.gdal_cli.specs.Work.{carried_out, build_judged};

use command_words::Job;
use error_lines::Fault;
use mosaic_builds::{Building, put_mosaic};
use outside::{Folder, Names, Sink};
use std::alloc::Global;

/// Makes a mosaic of inputs, warns of those that are skipped, and publishes its document.
///
/// All refusals come before anything is put or published. FolderFault and OutFault come only where the count of the
/// folder and of the output rose, Memory freely. A failing `err` sets `failed` and ends nothing. A quiet making puts
/// nothing on `out`, however it ends.
pub fn put_build<F: Folder, O: Sink, E: Sink>(
    alloc: Global,
    folder: &mut F,
    out: &mut O,
    err: &mut E,
    failed: &mut bool,
    inputs: Names,
    building: Building,
) -> Result<(), Fault>
    requires fresh { failed.old ≡ false }
    ensures told { (m : Files) → F.names folder.old ≡ Some m → (lines : List Entry) →
        GoesWarning (carried_out (build_judged m building.entry.verify inputs building.entry.list.now
        building.entry.options.now building.entry.quiet) m lines) m result (F.names folder.new) (O.got out.old)
        (O.got out.new) (λ steps. AreWarned steps failed.new (E.faults err.old) (E.faults err.new) (E.got err.old)
        (E.got err.new)) }
    ensures refused { IsRefusal (ended result) → (out.new ≡ out.old) × (F.names folder.new ≡ F.names folder.old) }
    ensures quiet { building.entry.quiet ≡ true → out.new ≡ out.old }
    ensures warned { MayWarn true (ended result) failed.new (E.faults err.old) (E.faults err.new) (E.got err.old)
        (E.got err.new) }
    ensures may_end { IfErr result (MayEnd (Job.Build inputs building.entry.list.now building.entry.options.now
        building.entry.quiet)) }
    ensures cause { HasCauses (F.faults folder.old) (F.faults folder.new) (O.faults out.old) (O.faults out.new) result }
    ensures not_input { result ≡ Err Fault.InputFault → ⊥ }
    ensures unknown { RefusesOnly result }
    ensures changed { HasChanged (F.names folder.old) (ended result) }
    ensures own { OwnsFault (ended result) }
{
    put_mosaic(alloc, folder, out, err, failed, inputs, building)
}
