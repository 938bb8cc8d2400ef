// The run from a number, part by part.
ghost use Rattle.std.specs.Prelude.{◌≡◌, IfErr, OnOk, Some};
ghost use Rattle.outside.specs.Outside.{Files};
ghost use Rattle.error_lines.specs.Faults.{HasCauses, HasChanged, IsOutside};
ghost use Rattle.error_lines.specs.Steps.{Goes};
ghost use Rattle.synth_runs.specs.Ends.{MayEnd, PutsLines};
ghost use Rattle.synth_runs.specs.Runs.{copy_run, outer_runs, mosaic_runs, synth_run};
ghost use Rattle.translation_runs.specs.Ends.{ended};

use crate::copying::put_output;
use crate::inner::put_inner;
use crate::laws::numbers_are_never_refused;
use crate::outer::publish_outer;
use crate::telling::put_tally;
use command_words::BlockCount;
use error_lines::Fault;
use lane_teams::WorkerCount;
use outside::{Folder, Sink};
use std::alloc::Global;
use std::thread::Threads;
use synthetic_files::publish_tiles;
use synthetic_rasters::TileSide;

// The copy of the outer mosaic, and what is told of it.
fn put_copy<R: Threads + Sync, F: Folder, O: Sink>(
    rt: &R,
    alloc: Global,
    folder: &mut F,
    out: &mut O,
    blocks: BlockCount,
    workers: WorkerCount,
) -> Result<(), Fault>
    ensures told { (m : Files) → F.names folder.old ≡ Some m → Goes (copy_run m) m result (F.names folder.new)
        (O.got out.old) (O.got out.new) }
    ensures lines { OnOk result (PutsLines (O.got out.old) (O.got out.new)) }
    ensures silent { IfErr result (λ f. (f ≡ Fault.OutFault → ⊥) → out.new ≡ out.old) }
    ensures may_end { IfErr result MayEnd }
    ensures changed { HasChanged (F.names folder.old) (ended result) }
    ensures cause { HasCauses (F.faults folder.old) (F.faults folder.new) (O.faults out.old) (O.faults out.new) result }
{
    match put_output(rt, alloc, folder, out, blocks, workers) {
        Ok(()) => put_tally(alloc, folder, out, blocks),
        Err(fault) => Err(fault),
    }
}

// The outer mosaic, and what comes behind it.
fn put_outer<R: Threads + Sync, F: Folder, O: Sink>(
    rt: &R,
    alloc: Global,
    folder: &mut F,
    out: &mut O,
    side: TileSide,
    blocks: BlockCount,
    workers: WorkerCount,
) -> Result<(), Fault>
    ensures told { (m : Files) → F.names folder.old ≡ Some m → Goes (outer_runs side m) m result (F.names folder.new)
        (O.got out.old) (O.got out.new) }
    ensures lines { OnOk result (PutsLines (O.got out.old) (O.got out.new)) }
    ensures silent { IfErr result (λ f. (f ≡ Fault.OutFault → ⊥) → out.new ≡ out.old) }
    ensures may_end { IfErr result MayEnd }
    ensures changed { HasChanged (F.names folder.old) (ended result) }
    ensures cause { HasCauses (F.faults folder.old) (F.faults folder.new) (O.faults out.old) (O.faults out.new) result }
{
    match publish_outer(alloc, folder, side) {
        Ok(()) => put_copy(rt, alloc, folder, out, blocks, workers),
        Err(fault) => Err(fault),
    }
}

// The mosaic of the tiles, and what comes behind it.
fn put_mosaics<R: Threads + Sync, F: Folder, O: Sink>(
    rt: &R,
    alloc: Global,
    folder: &mut F,
    out: &mut O,
    side: TileSide,
    blocks: BlockCount,
    workers: WorkerCount,
) -> Result<(), Fault>
    ensures told { (m : Files) → F.names folder.old ≡ Some m → Goes (mosaic_runs side m) m result (F.names folder.new)
        (O.got out.old) (O.got out.new) }
    ensures lines { OnOk result (PutsLines (O.got out.old) (O.got out.new)) }
    ensures silent { IfErr result (λ f. (f ≡ Fault.OutFault → ⊥) → out.new ≡ out.old) }
    ensures may_end { IfErr result MayEnd }
    ensures changed { HasChanged (F.names folder.old) (ended result) }
    ensures cause { HasCauses (F.faults folder.old) (F.faults folder.new) (O.faults out.old) (O.faults out.new) result }
{
    match put_inner(alloc, folder) {
        Ok(()) => put_outer(rt, alloc, folder, out, side, blocks, workers),
        Err(fault) => Err(fault),
    }
}

/// Publishes the tiles of this side, the mosaic of them, the outer mosaic and its copy, and then puts five lines on the
/// samples of the copy that aren't NODATA: `Size`, `Values`, `Sum`, `Least` and `Greatest`. What is read is read anew,
/// by a new catalog and new lanes, behind each publishing. Of the workers, the copy is read by all, and what is tallied
/// by one.
///
/// FolderFault and OutFault come only where the count of the folder and of the output rose, Changed only over a folder
/// that doesn't tell its names, Memory freely. Over a folder that tells its files it is refused by nothing; over others
/// a later part may read something else than an earlier one published, and is then refused for that. What was published
/// before a fault stands. Over every folder five such lines were put where it ends without a fault, and nothing where
/// it ends with one, but for OutFault.
pub fn put_rasters<R: Threads + Sync, F: Folder, O: Sink>(
    rt: &R,
    alloc: Global,
    folder: &mut F,
    out: &mut O,
    side: TileSide,
    blocks: BlockCount,
    workers: WorkerCount,
) -> Result<(), Fault>
    // over a folder that tells its files: all the steps are done, or where the outside failed the first of them
    ensures told { (m : Files) → F.names folder.old ≡ Some m → Goes (synth_run side m) m result (F.names folder.new)
        (O.got out.old) (O.got out.new) }
    // and it is refused by nothing
    ensures made { (m : Files) → F.names folder.old ≡ Some m → IfErr result IsOutside }
    // over every folder: where all went well five lines were put, and else none, unless the output failed
    ensures lines { OnOk result (PutsLines (O.got out.old) (O.got out.new)) }
    ensures silent { IfErr result (λ f. (f ≡ Fault.OutFault → ⊥) → out.new ≡ out.old) }
    ensures may_end { IfErr result MayEnd }
    ensures changed { HasChanged (F.names folder.old) (ended result) }
    ensures cause { HasCauses (F.faults folder.old) (F.faults folder.new) (O.faults out.old) (O.faults out.new) result }
{
    // These calls are made for the proof: the side is that of a tile, and no such run is refused.
    let _side = side.get();
    numbers_are_never_refused();
    match publish_tiles(alloc, folder, side) {
        Ok(()) => put_mosaics(rt, alloc, folder, out, side, blocks, workers),
        Err(fault) => Err(fault),
    }
}
