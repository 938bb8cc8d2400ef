// The copy of the outer mosaic.
ghost use Rattle.std.specs.Prelude.{◌≡◌, Some, IfOk, IfErr};
ghost use Rattle.outside.specs.Outside.{Files};
ghost use Rattle.error_lines.specs.Faults.{HasCauses, HasChanged};
ghost use Rattle.error_lines.specs.Steps.{Goes};
ghost use Rattle.translation_runs.specs.Ends.{ended};
ghost use Rattle.synth_runs.specs.Ends.{MayEnd};
ghost use Rattle.synth_runs.specs.Runs.{output_options, output_run};

use catalog::NodataWord;
use command_words::BlockCount;
use error_lines::Fault;
use esri_hdr::Layout;
use lane_teams::WorkerCount;
use outside::{Folder, Sink};
use std::alloc::{AllocError, Global};
use std::thread::Threads;
use synthetic_rasters::{outer_name, output_name};
use translate_plan::{Driver, Numbers, TranslateOptions, View};
use translation_runs::{Way, put_translation};

// What the copy is asked for: nothing but its name.
fn output_options(alloc: Global) -> Result<TranslateOptions, AllocError>
    ensures options { IfOk result (λ o. o ≡ output_options) }
{
    Ok(TranslateOptions {
        driver: Driver::EHdr,
        layout: Layout::Bil,
        out: output_name(alloc)?,
        bands: Numbers::new(alloc),
        view: View::Whole,
        outsize: None,
        nodata: NodataWord::Absent,
        kind: None,
        epo: false,
        eco: false,
    })
}

/// Copies what the outer mosaic shows. Nothing is told.
///
/// FolderFault and OutFault come only where the count of the folder and of the output rose, Changed only over a folder
/// that doesn't tell its names, Memory freely, and the refusals of a translation before it has done anything.
pub fn put_output<R: Threads + Sync, F: Folder, O: Sink>(
    rt: &R,
    alloc: Global,
    folder: &mut F,
    out: &mut O,
    blocks: BlockCount,
    workers: WorkerCount,
) -> Result<(), Fault>
    ensures told { (m : Files) → F.names folder.old ≡ Some m → Goes (output_run m) m result (F.names folder.new)
        (O.got out.old) (O.got out.new) }
    ensures quiet { out.new ≡ out.old }
    ensures may_end { IfErr result MayEnd }
    ensures changed { HasChanged (F.names folder.old) (ended result) }
    ensures cause { HasCauses (F.faults folder.old) (F.faults folder.new) (O.faults out.old) (O.faults out.new) result }
{
    let name = outer_name(alloc)?;
    let options = output_options(alloc)?;
    let way = Way {
        verify: false,
        blocks,
        workers,
        quiet: true,
    };
    put_translation(rt, alloc, folder, out, &name, &options, way)
}
