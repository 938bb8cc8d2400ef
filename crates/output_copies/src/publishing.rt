// The lines that workers of a translation share, and the files of its output, which are published.
ghost use Rattle.std.specs.Prelude.{◌≡◌, ◌≤◌, ℕ, List, Option, IfErr, Some, slice_get};
ghost use Rattle.outside.specs.Outside.{Files};
ghost use Rattle.catalog.specs.Drivers.{Dataset};
ghost use Rattle.band_blocks.specs.Blocks.{most_blocks};
ghost use Rattle.write_back.specs.Plans.{output_of};
ghost use Rattle.error_lines.specs.Faults.{IsOutside};
ghost use Rattle.error_lines.specs.Steps.{all_done, publishes, Goes};
ghost use Rattle.output_copies.specs.Copying.{MayEnd};
ghost use Rattle.output_copies.specs.Filled.{IsFilled};
ghost use Rattle.output_copies.specs.Steps.{files_by, raster_of};

use crate::writing::Writing;
use error_lines::Fault;
use lane_teams::lines_for;
use outside::{Counter, Folder};
use shared_lines::{Lines, Scene};
use std::sync::ledger::Ledger;
use strip_copies::{Translation, shares_blocks};
use write_back::Target;

/// The lines that the lanes of several workers share, as many as blocks are held, where they may read the same blocks.
/// There are none where memory is refused for them.
pub fn lines_of<F: Folder, S: Scene>(
    translation: &Translation,
    folder: &F,
    writing: &Writing,
) -> Option<Lines<S>>
    requires told { S.told ≡ F.names folder.now }
    requires scene { S.cat ≡ translation.now.cat }
    requires some { 1 ≤ writing.now.blocks }
    requires few { writing.now.blocks ≤ most_blocks }
{
    if !shares_blocks(translation) {
        return None;
    }
    let alloc = translation.alloc;
    lines_for(
        alloc,
        writing.workers,
        writing.blocks,
        &translation.cat,
        folder,
    )
}

/// Publishes the files of an output, all lines of which were written.
pub fn publish<F: Folder, W: Ledger>(
    translation: &Translation,
    folder: &mut F,
    target: Target<F>,
    writes: &mut Counter<W>,
) -> Result<(), Fault>
    requires filled { IsFilled (F.names folder.old) translation.now.cat translation.now.id translation.now.plan target
        translation.now.plan.size.h translation.now.plan.size.h 0 }
    ensures goes { (m : Files) (d : Dataset) → F.names folder.old ≡ Some m →
        slice_get translation.now.cat translation.now.id ≡ Some d → (text : Option (List ℕ)) →
        Goes (all_done (publishes (files_by (output_of translation.now.plan) target.name
        (raster_of m d translation.now.plan)))) m result (F.names folder.new) text text }
    ensures ends { MayEnd (F.names folder.old) (F.faults folder.old) (F.faults folder.new) 0 0 result }
    ensures outside { IfErr result IsOutside }
{
    translation.plan.rules();
    match target.close(folder, writes) {
        Ok(()) => Ok(()),
        Err(fault) => Err(Fault::from(fault.cause)),
    }
}
