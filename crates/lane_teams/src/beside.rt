// Lanes that read their parts of a window beside each other: the first of them in a new thread, and the others, whose
// threads are begun by the one that calls.
ghost use Rattle.std.specs.Prelude.{◌≡◌, ◌≤◌, ◌*◌, ◌<◌, length, map, OnOk, IfErr};
ghost use Rattle.std.specs.List.{All};
ghost use Rattle.std.specs.Thread.{IsSend, IsSync};
ghost use Rattle.outside.specs.Causes.{HasCause};
ghost use Rattle.outside.specs.Reading.{WhereTold};
ghost use Rattle.band_blocks.specs.Open.{IsUnchanged};
ghost use Rattle.nearest_window.specs.Lanes.{room_of};
ghost use Rattle.nearest_window.specs.Right.{IsReady, TellsChangeIn};
ghost use Rattle.nearest_window.specs.Windows.{IsWindow};
ghost use Rattle.lane_teams.specs.Parts.{AreOfWindow};
ghost use Rattle.lane_teams.specs.Refusals.{IsTeamAnswer};
ghost use Rattle.lane_teams.specs.Turns.{AreReady, HaveRead};
ghost use Rattle.lane_teams.specs.Ready.{OnlyReadByViews};

use crate::cutting::{Job, part_of};
use crate::pair::both;
use crate::single::read_one;
use crate::turns::{Turn, collect, turns_of};
use band_blocks::LoadFault;
use geotransform::Sample;
use nearest_window::{Lane, Supply};
use outside::Folder;
use shared_lines::Scene;
use std::thread::Threads;

// Lanes with their views and the lines that they read.
#[derive(Drop)]
struct Group<'a, F: Folder> {
    lanes: &'a mut [Lane<F>],
    turns: &'a mut [Turn<F>],
    out: &'a mut [Sample],
}

// The first lane of each of two groups, neither of which has more than `most` lanes.
#[derive(Clone, Copy)]
struct Groups {
    first: usize,
    middle: usize,
    most: usize,
}

// The lanes of a group, from one on, read their parts, beside each other.
#[cycle(lanes)]
fn read_group<R: Threads + Sync, F: Folder, S: Scene>(
    rt: &R,
    supply: &Supply<S>,
    job: &Job,
    first: usize,
    group: &mut Group<F>,
)
    requires scene { S.cat ≡ supply.now.cat.now }
    requires ready { AreReady F.Folder S.told supply.now.cat.now job.now first group.old.lanes.now group.old.turns.now
        group.old.out.now }
    ensures lanes { group.new.lanes.ghost_name ≡ group.old.lanes.ghost_name }
    ensures turns { group.new.turns.ghost_name ≡ group.old.turns.ghost_name }
    ensures out { group.new.out.ghost_name ≡ group.old.out.ghost_name }
    ensures read { HaveRead F.Folder S.told supply.now.cat.now job.now first group.old.lanes.now group.new.lanes.now
        group.new.turns.now group.new.out.now }
{
    let lanes = &mut *group.lanes;
    let turns = &mut *group.turns;
    let out = &mut *group.out;
    read_all::<R, F, S>(rt, supply, job, first, lanes, turns, out);
}

// Both groups read, beside each other where a thread can be started.
#[cycle(lanes)]
fn read_both<'a, R: Threads + Sync, F: Folder, S: Scene>(
    rt: &R,
    supply: &Supply<S>,
    job: &Job,
    groups: Groups,
    front: &mut Group<'a, F>,
    back: &mut Group<'a, F>,
)
    requires scene { S.cat ≡ supply.now.cat.now }
    requires front { AreReady F.Folder S.told supply.now.cat.now job.now groups.first front.old.lanes.now
        front.old.turns.now front.old.out.now }
    requires front_few { length front.old.lanes.now ≤ groups.most }
    requires back { AreReady F.Folder S.told supply.now.cat.now job.now groups.middle back.old.lanes.now
        back.old.turns.now back.old.out.now }
    requires back_few { length back.old.lanes.now ≤ groups.most }
    ensures front_lanes { front.new.lanes.ghost_name ≡ front.old.lanes.ghost_name }
    ensures front_turns { front.new.turns.ghost_name ≡ front.old.turns.ghost_name }
    ensures front_out { front.new.out.ghost_name ≡ front.old.out.ghost_name }
    ensures front_read { HaveRead F.Folder S.told supply.now.cat.now job.now groups.first front.old.lanes.now
        front.new.lanes.now front.new.turns.now front.new.out.now }
    ensures back_lanes { back.new.lanes.ghost_name ≡ back.old.lanes.ghost_name }
    ensures back_turns { back.new.turns.ghost_name ≡ back.old.turns.ghost_name }
    ensures back_out { back.new.out.ghost_name ≡ back.old.out.ghost_name }
    ensures back_read { HaveRead F.Folder S.told supply.now.cat.now job.now groups.middle back.old.lanes.now
        back.new.lanes.now back.new.turns.now back.new.out.now }
{
    let most = groups.most;
    let read = |at: usize, group: &mut Group<F>|
        requires { IsSync R.row × IsSend S.row × IsSync S.row × (S.cat ≡ supply.now.cat.now) × IsSend F.row ×
            IsSend F.File.row × IsSend F.Draft.row × (length group.old.lanes.now ≤ most) ×
            AreReady F.Folder S.told supply.now.cat.now job.now at group.old.lanes.now group.old.turns.now
            group.old.out.now }
        ensures { (group.new.lanes.ghost_name ≡ group.old.lanes.ghost_name) ×
            (group.new.turns.ghost_name ≡ group.old.turns.ghost_name) ×
            (group.new.out.ghost_name ≡ group.old.out.ghost_name) × HaveRead F.Folder S.told supply.entry.now.cat.now
            job.entry.now at group.old.lanes.now group.new.lanes.now group.new.turns.now group.new.out.now }
    {
        // The clauses name it.
        let _most = most;
        read_group::<R, F, S>(rt, supply, job, at, group);
    };
    both(rt, &read, groups.first, front, groups.middle, back);
}

// Both parts read, beside each other where a thread can be started.
#[cycle(lanes)]
fn read_pair<'x, R: Threads + Sync, F: Folder, S: Scene>(
    rt: &R,
    supply: &Supply<S>,
    job: &Job,
    groups: Groups,
    lanes: (&'x mut [Lane<F>], &'x mut [Lane<F>]),
    turns: (&'x mut [Turn<F>], &'x mut [Turn<F>]),
    out: (&'x mut [Sample], &'x mut [Sample]),
)
    requires scene { S.cat ≡ supply.now.cat.now }
    requires front { AreReady F.Folder S.told supply.now.cat.now job.now groups.first lanes.0.now turns.0.now
        out.0.now }
    requires front_few { length lanes.0.now ≤ groups.most }
    requires back { AreReady F.Folder S.told supply.now.cat.now job.now groups.middle lanes.1.now turns.1.now
        out.1.now }
    requires back_few { length lanes.1.now ≤ groups.most }
    ensures front { HaveRead F.Folder S.told supply.now.cat.now job.now groups.first lanes.entry.0.now lanes.exit.0.now
        turns.exit.0.now out.exit.0.now }
    ensures back { HaveRead F.Folder S.told supply.now.cat.now job.now groups.middle lanes.entry.1.now
        lanes.exit.1.0.now turns.exit.1.0.now out.exit.1.0.now }
{
    let (first_lanes, other_lanes) = lanes;
    let (first_turns, other_turns) = turns;
    let (first_out, other_out) = out;
    let mut front = Group {
        lanes: first_lanes,
        turns: first_turns,
        out: first_out,
    };
    let mut back = Group {
        lanes: other_lanes,
        turns: other_turns,
        out: other_out,
    };
    read_both::<R, F, S>(rt, supply, job, groups, &mut front, &mut back);
}

// The lanes from one on read their parts, beside each other.
#[cycle(lanes)]
fn read_all<'x, R: Threads + Sync, F: Folder, S: Scene>(
    rt: &R,
    supply: &Supply<S>,
    job: &Job,
    first: usize,
    lanes: &'x mut [Lane<F>],
    turns: &'x mut [Turn<F>],
    out: &'x mut [Sample],
)
    requires scene { S.cat ≡ supply.now.cat.now }
    requires ready { AreReady F.Folder S.told supply.now.cat.now job.now first lanes.old turns.old out.old }
    ensures read { HaveRead F.Folder S.told supply.now.cat.now job.now first lanes.old lanes.new turns.new out.new }
{
    let count = lanes.len();
    if count == 1 {
        read_one::<F, S>(supply, job, first, lanes, turns, out);
        return;
    }
    // This call is made for the proof: it says what holds of every catalog.
    let _count = supply.cat.count();
    // One lane gets a new thread, and the thread that calls begins those of the others. A thread that has only just
    // begun would begin the next one late: by up to a tick of the system's clock.
    let low = 1;
    let groups = Groups {
        first,
        middle: first + low,
        most: count - low,
    };
    let rect = part_of(job, first, groups.middle).rect;
    let size = rect.w as usize * rect.h as usize;
    let lanes = lanes.split_at_mut(low);
    let turns = turns.split_at_mut(low);
    let out = out.split_at_mut(size);
    read_pair::<R, F, S>(rt, supply, job, groups, lanes, turns, out);
}

// The same, for lanes of a folder.
fn read_views<R: Threads + Sync, F: Folder, S: Scene>(
    rt: &R,
    supply: &Supply<S>,
    folder: &F,
    job: &Job,
    lanes: &mut [Lane<F>],
    turns: &mut [Turn<F>],
    out: &mut [Sample],
)
    requires told { S.told ≡ F.names folder.now }
    requires scene { S.cat ≡ supply.now.cat.now }
    requires ready { AreReady F.Folder (F.names folder.now) supply.now.cat.now job.now 0 lanes.old turns.old out.old }
    ensures read { HaveRead F.Folder (F.names folder.now) supply.now.cat.now job.now 0 lanes.old lanes.new turns.new
        out.new }
{
    // The clauses name it.
    let _ = folder;
    read_all::<R, F, S>(rt, supply, job, 0, lanes, turns, out);
}

/// Lanes read a window beside each other, each through a view of its own.
pub fn read_beside<R: Threads + Sync, F: Folder, S: Scene>(
    rt: &R,
    supply: &Supply<S>,
    folder: &mut F,
    job: &Job,
    lanes: &mut [Lane<F>],
    out: &mut [Sample],
) -> Result<(), LoadFault>
    requires told { S.told ≡ F.names folder.old }
    requires scene { S.cat ≡ supply.now.cat.now }
    requires some { 0 < length lanes.old }
    requires count { job.now.count ≡ length lanes.old }
    requires ready { All (IsReady F.Folder folder.old supply.now.cat.now) lanes.old }
    requires window { IsWindow supply.now.cat.now job.now.window }
    requires size { length out.old ≡ job.now.window.rect.w * job.now.window.rect.h }
    ensures shown { OnOk result (AreOfWindow (F.names folder.old) supply.now.cat.now job.now.window out.new) }
    ensures first { IsTeamAnswer (F.names folder.old) supply.now.cat.now job.now.window job.now.count out.old out.new
        result }
    ensures ready { All (IsReady F.Folder folder.new supply.now.cat.now) lanes.new }
    ensures capacity { map room_of lanes.new ≡ map room_of lanes.old }
    ensures only_read { OnlyReadByViews F.Folder folder.old folder.new }
    ensures cause { HasCause LoadFault.FolderFault (F.faults folder.old) (F.faults folder.new) result }
    ensures changed { IfErr result (TellsChangeIn supply.now.cat.now) }
    ensures never { WhereTold F.Folder folder.old (λ _. IfErr result IsUnchanged) }
{
    let mut turns = turns_of(supply.alloc, supply.cat, folder, lanes.len())?;
    read_views::<R, F, S>(rt, supply, folder, job, lanes, turns.as_mut_slice(), out);
    collect(supply.cat, folder, turns)
}
