// One lane, which reads its part of a window through its view.
ghost use Rattle.std.specs.Prelude.{◌≡◌, ◌+◌, ◌*◌, ◌<◌, ◌≤◌, Some, Ok, length, OnOk, IfErr};
ghost use Rattle.outside.specs.Causes.{HasCause};
ghost use Rattle.outside.specs.Outside.{Files};
ghost use Rattle.outside.specs.Reading.{OnlyRead, WhereTold};
ghost use Rattle.catalog.specs.Walk.{IsWalked};
ghost use Rattle.band_blocks.specs.Open.{IsUnchanged};
ghost use Rattle.nearest_window.specs.Lanes.{room_of};
ghost use Rattle.nearest_window.specs.Right.{IsReady, IsRightLane, TellsChangeIn};
ghost use Rattle.nearest_window.specs.Windows.{IsWindow};
ghost use Rattle.lane_teams.specs.Parts.{AreOfWindow};
ghost use Rattle.lane_teams.specs.Turns.{AreReady, HaveRead, IsTurnOf};

use crate::cutting::{Job, part_of};
use crate::turns::Turn;
use band_blocks::{Counter, LoadFault};
use geotransform::Sample;
use nearest_window::{Lane, Supply, Window};
use outside::Folder;
use shared_lines::Scene;
use std::marker::Brand;
use std::sync::ledger::{Blank, Ledger};

// Reads a window through a lane, with a count of loads that is dropped.
fn read_counted<F: Folder, L: Ledger, S: Scene>(
    supply: &Supply<S>,
    lane: &mut Lane<F>,
    folder: &mut F,
    window: Window,
    out: &mut [Sample],
    blank: Blank,
) -> Result<(), LoadFault>
    requires told { S.told ≡ F.names folder.old }
    requires scene { S.cat ≡ supply.now.cat.now }
    requires ready { IsReady F.Folder folder.old supply.now.cat.now lane.old }
    requires window { IsWindow supply.now.cat.now window }
    requires size { length out.old ≡ window.rect.w * window.rect.h }
    requires name { blank.name ≡ L.name }
    requires parts { blank.parts ≡ L.parts }
    requires some { 0 < blank.parts }
    ensures shown { OnOk result (AreOfWindow (F.names folder.old) supply.now.cat.now window out.new) }
    ensures ready { IsReady F.Folder folder.new supply.now.cat.now lane.new }
    ensures capacity { room_of lane.new ≡ room_of lane.old }
    ensures only_read { OnlyRead F.Folder folder.old folder.new }
    ensures cause { HasCause LoadFault.FolderFault (F.faults folder.old) (F.faults folder.new) result }
    ensures changed { IfErr result (TellsChangeIn supply.now.cat.now) }
    ensures never { WhereTold F.Folder folder.old (λ _. IfErr result IsUnchanged) }
{
    let mut loads: Counter<L> = Counter::open(blank);
    lane.read_window_with(supply, folder, window, out, &mut loads)
}

// Reads a window through a lane whose loads nobody counts.
fn read_alone<F: Folder, S: Scene>(
    supply: &Supply<S>,
    lane: &mut Lane<F>,
    folder: &mut F,
    window: Window,
    out: &mut [Sample],
) -> Result<(), LoadFault>
    requires told { S.told ≡ F.names folder.old }
    requires scene { S.cat ≡ supply.now.cat.now }
    requires ready { IsReady F.Folder folder.old supply.now.cat.now lane.old }
    requires window { IsWindow supply.now.cat.now window }
    requires size { length out.old ≡ window.rect.w * window.rect.h }
    ensures shown { OnOk result (AreOfWindow (F.names folder.old) supply.now.cat.now window out.new) }
    ensures ready { IsReady F.Folder folder.new supply.now.cat.now lane.new }
    ensures capacity { room_of lane.new ≡ room_of lane.old }
    ensures only_read { OnlyRead F.Folder folder.old folder.new }
    ensures cause { HasCause LoadFault.FolderFault (F.faults folder.old) (F.faults folder.new) result }
    ensures changed { IfErr result (TellsChangeIn supply.now.cat.now) }
    ensures never { WhereTold F.Folder folder.old (λ _. IfErr result IsUnchanged) }
{
    read_counted::<F, Brand, S>(supply, lane, folder, window, out, Blank::new(1))
}

// A lane reads its part of a window through its view.
fn take_turn<F: Folder, S: Scene>(
    supply: &Supply<S>,
    window: Window,
    lane: &mut Lane<F>,
    turn: &mut Turn<F>,
    out: &mut [Sample],
)
    requires scene { S.cat ≡ supply.now.cat.now }
    requires right { IsRightLane F.Folder S.told supply.now.cat.now lane.old }
    requires turn { IsTurnOf F.Folder S.told supply.now.cat.now turn.old }
    requires walked { (m : Files) → S.told ≡ Some m → IsWalked m supply.now.cat.now }
    requires window { IsWindow supply.now.cat.now window }
    requires size { length out.old ≡ window.rect.w * window.rect.h }
    ensures right { IsRightLane F.Folder S.told supply.now.cat.now lane.new }
    ensures capacity { room_of lane.new ≡ room_of lane.old }
    ensures turn { IsTurnOf F.Folder S.told supply.now.cat.now turn.new }
    ensures shown { turn.new.answer ≡ Ok tt → AreOfWindow S.told supply.now.cat.now window out.new }
{
    turn.answer = read_alone::<F, S>(supply, lane, &mut turn.view, window, out);
}

/// The one lane that is left reads its part.
pub fn read_one<F: Folder, S: Scene>(
    supply: &Supply<S>,
    job: &Job,
    first: usize,
    lanes: &mut [Lane<F>],
    turns: &mut [Turn<F>],
    out: &mut [Sample],
)
    requires scene { S.cat ≡ supply.now.cat.now }
    requires one { length lanes.old ≡ 1 }
    requires ready { AreReady F.Folder S.told supply.now.cat.now job.now first lanes.old turns.old out.old }
    ensures read { HaveRead F.Folder S.told supply.now.cat.now job.now first lanes.old lanes.new turns.new out.new }
{
    // This call is made for the proof: it says what holds of every catalog.
    let _count = supply.cat.count();
    let window = part_of(job, first, first + 1);
    take_turn::<F, S>(supply, window, &mut lanes[0], &mut turns[0], out);
}
