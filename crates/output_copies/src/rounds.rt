// Rounds of workers that make blocks of an output beside each other, while one thread writes what they made in the
// round before, block by block in their order.
ghost use Rattle.std.specs.Prelude.{◌≡◌, ◌<◌, ◌≤◌, ◌+◌, ℕ, [], IfErr, OnErr, OnOk, false, length, true};
ghost use Rattle.std.specs.List.{All};
ghost use Rattle.std.specs.Thread.{IsSend, IsSync};
ghost use Rattle.outside.specs.Streams.{Gets, GetsPart};
ghost use Rattle.write_back.specs.Forms.{cut_of};
ghost use Rattle.lane_teams.specs.Workers.{most_workers};
ghost use Rattle.error_lines.specs.Progress.{progress};
ghost use Rattle.output_copies.specs.Copying.{spoken, MayEnd, TellsChange};
ghost use Rattle.output_copies.specs.Filled.{IsFilled};
ghost use Rattle.output_copies.specs.Packed.{top_of, AreBlocksWritten, AreDone, HasRoom, IsTask, IsWorker};
ghost use Rattle.output_copies.specs.Packed.{MayAnswerByViews, MayTell, WereMade};
ghost use Rattle.output_copies.specs.Rounds.{MayMake, MayPut, WereDone, WerePut};

use crate::calls::at_once;
use crate::handing::{Made, hand_over};
use crate::making::make_all;
use crate::packed::write_all;
use crate::portion::portion_of;
use crate::progress::{Share, tell};
use crate::worker::{Task, Worker, extent_of, renew};
use error_lines::Fault;
use outside::{Counter, Folder, Sink};
use shared_lines::Scene;
use std::sync::ledger::Ledger;
use std::thread::Threads;
use write_back::Target;

// A round: blocks from `first` on, which were made in the round before, are written, and meanwhile those from `next` on
// are made.
#[derive(Clone, Copy)]
struct Round {
    first: u32,
    next: u32,
}

// Who writes the last ones, and what was answered.
#[derive(Drop)]
struct Writing<'a, F: Folder, W: Ledger> {
    folder: &'a mut F,
    target: &'a mut Target<F>,
    made: &'a mut Vec<Made>,
    writes: &'a mut Counter<W>,
    answer: &'a mut Result<(), Fault>,
}

// The workers make blocks, from one on.
fn make_next<R: Threads + Sync, F: Folder, S: Scene>(
    rt: &R,
    task: &Task<S>,
    next: u32,
    workers: &mut Vec<Worker<F>>,
)
    requires may { MayMake F.Folder S.told S.cat task.now.translation.now.cat task.now.translation.now.id
        task.now.translation.now.plan task.now.packing task.now.form task.now.rows task.now.step workers.old.items }
    ensures done { WereDone F.Folder S.told S.cat task.now.translation.now.cat task.now.translation.now.id
        task.now.translation.now.plan task.now.packing task.now.form task.now.rows task.now.step next
        (length workers.old.items) workers.new.items }
{
    let workers = workers.as_mut_slice();
    make_all::<R, F, S>(rt, task, next, workers);
}

// Who writes does so, blocks from one on.
fn write_last<F: Folder, W: Ledger, S: Scene>(
    task: &Task<S>,
    first: u32,
    writing: &mut Writing<F, W>,
)
    requires may { MayPut F.Folder S.told task.now.translation.now.cat task.now.translation.now.id
        task.now.translation.now.plan task.now.packing task.now.form task.now.rows task.now.step first
        writing.old.folder.now writing.old.target.now writing.old.made.now.items }
    ensures folder { writing.new.folder.ghost_name ≡ writing.old.folder.ghost_name }
    ensures target { writing.new.target.ghost_name ≡ writing.old.target.ghost_name }
    ensures made { writing.new.made.ghost_name ≡ writing.old.made.ghost_name }
    ensures writes { writing.new.writes.ghost_name ≡ writing.old.writes.ghost_name }
    ensures answer { writing.new.answer.ghost_name ≡ writing.old.answer.ghost_name }
    ensures put { WerePut F.Folder S.told task.now.translation.now.cat task.now.translation.now.id
        task.now.translation.now.plan task.now.packing task.now.rows first writing.old.folder.now
        writing.new.folder.now writing.old.target.now writing.new.target.now writing.old.made.now.items
        writing.new.made.now.items writing.new.answer.now }
{
    let folder = &mut *writing.folder;
    let target = &mut *writing.target;
    let made = writing.made.as_mut_slice();
    let writes = &mut *writing.writes;
    *writing.answer = write_all(task, folder, target, first, made, writes);
}

// Both do, beside each other where a thread can be started.
fn do_both<'a, R: Threads + Sync, F: Folder, W: Ledger + Send, S: Scene>(
    rt: &R,
    task: &Task<S>,
    round: Round,
    writing: &mut Writing<'a, F, W>,
    workers: &mut Vec<Worker<F>>,
)
    requires may_make { MayMake F.Folder S.told S.cat task.now.translation.now.cat task.now.translation.now.id
        task.now.translation.now.plan task.now.packing task.now.form task.now.rows task.now.step
        workers.old.items }
    requires may_put { MayPut F.Folder S.told task.now.translation.now.cat task.now.translation.now.id
        task.now.translation.now.plan task.now.packing task.now.form task.now.rows task.now.step round.first
        writing.old.folder.now writing.old.target.now writing.old.made.now.items }
    ensures folder { writing.new.folder.ghost_name ≡ writing.old.folder.ghost_name }
    ensures target { writing.new.target.ghost_name ≡ writing.old.target.ghost_name }
    ensures made { writing.new.made.ghost_name ≡ writing.old.made.ghost_name }
    ensures writes { writing.new.writes.ghost_name ≡ writing.old.writes.ghost_name }
    ensures answer { writing.new.answer.ghost_name ≡ writing.old.answer.ghost_name }
    ensures done { WereDone F.Folder S.told S.cat task.now.translation.now.cat task.now.translation.now.id
        task.now.translation.now.plan task.now.packing task.now.form task.now.rows task.now.step round.next
        (length workers.old.items) workers.new.items }
    ensures put { WerePut F.Folder S.told task.now.translation.now.cat task.now.translation.now.id
        task.now.translation.now.plan task.now.packing task.now.rows round.first writing.old.folder.now
        writing.new.folder.now writing.old.target.now writing.new.target.now writing.old.made.now.items
        writing.new.made.now.items writing.new.answer.now }
{
    let Round { first, next } = round;
    let write = |half: &mut Writing<F, W>|
        requires { IsSync S.row × IsSend S.row × IsSend F.row × IsSend F.File.row × IsSend F.Draft.row ×
            IsSend W.row × MayPut F.Folder S.told task.now.translation.now.cat task.now.translation.now.id
            task.now.translation.now.plan task.now.packing task.now.form task.now.rows task.now.step first
            half.old.folder.now half.old.target.now half.old.made.now.items }
        ensures { (half.new.folder.ghost_name ≡ half.old.folder.ghost_name) ×
            (half.new.target.ghost_name ≡ half.old.target.ghost_name) ×
            (half.new.made.ghost_name ≡ half.old.made.ghost_name) ×
            (half.new.writes.ghost_name ≡ half.old.writes.ghost_name) ×
            (half.new.answer.ghost_name ≡ half.old.answer.ghost_name) ×
            WerePut F.Folder S.told task.entry.now.translation.now.cat task.entry.now.translation.now.id
            task.entry.now.translation.now.plan task.entry.now.packing task.entry.now.rows first
            half.old.folder.now half.new.folder.now half.old.target.now half.new.target.now half.old.made.now.items
            half.new.made.now.items half.new.answer.now }
    {
        write_last::<F, W, S>(task, first, half);
    };
    let make = |half: &mut Vec<Worker<F>>|
        requires { IsSync R.row × MayMake F.Folder S.told S.cat task.now.translation.now.cat
            task.now.translation.now.id task.now.translation.now.plan task.now.packing task.now.form task.now.rows
            task.now.step half.old.items }
        ensures { WereDone F.Folder S.told S.cat task.entry.now.translation.now.cat task.entry.now.translation.now.id
            task.entry.now.translation.now.plan task.entry.now.packing task.entry.now.form task.entry.now.rows
            task.entry.now.step next (length half.old.items) half.new.items }
    {
        make_next::<R, F, S>(rt, task, next, half);
    };
    at_once(rt, &write, writing, &make, workers);
}

// Who writes where.
fn who_writes<'x, F: Folder, W: Ledger>(
    folder: &'x mut F,
    target: &'x mut Target<F>,
    made: &'x mut Vec<Made>,
    writes: &'x mut Counter<W>,
    answer: &'x mut Result<(), Fault>,
) -> Writing<'x, F, W>
    ensures folder { result.folder ≡ folder.entry }
    ensures target { result.target ≡ target.entry }
    ensures made { result.made ≡ made.entry }
    ensures writes { result.writes ≡ writes.entry }
    ensures answer { result.answer ≡ answer.entry }
{
    Writing {
        folder,
        target,
        made,
        writes,
        answer,
    }
}

/// Workers, and what they made last, which is written while they make what comes next.
pub struct Crew<F: Folder> {
    pub workers: Vec<Worker<F>>,
    pub made: Vec<Made>,
}

// Ends the views of all workers, which have made their blocks of those from one on, gives them others, and takes what
// they made.
fn take_made<F: Folder, S: Scene>(
    task: &Task<S>,
    folder: &mut F,
    first: u32,
    crew: &mut Crew<F>,
) -> Result<(), Fault>
    requires told { S.told ≡ F.names folder.old }
    requires count { length crew.old.made.items ≡ length crew.old.workers.items }
    requires done { AreDone F.Folder S.told S.cat task.now.translation.now.cat task.now.translation.now.id
        task.now.translation.now.plan task.now.packing task.now.form task.now.rows task.now.step first
        crew.old.workers.items }
    requires views { MayAnswerByViews S.told F.Folder crew.old.workers.items }
    ensures count { OnOk result (length crew.new.workers.items ≡ length crew.old.workers.items) }
    ensures count_made { OnOk result (length crew.new.made.items ≡ length crew.old.made.items) }
    ensures made { OnOk result (WereMade S.told task.now.translation.now.cat task.now.translation.now.id
        task.now.translation.now.plan task.now.packing task.now.rows first crew.new.made.items) }
    ensures answers { OnOk result (MayTell S.told (F.faults folder.old) (F.faults folder.new) crew.new.made.items) }
    ensures workers { OnOk result
        (All (HasRoom task.now.translation.now.plan task.now.packing task.now.rows) crew.old.made.items →
        All (IsWorker F.Folder S.told S.cat task.now.translation.now.cat task.now.translation.now.id
        task.now.translation.now.plan task.now.packing task.now.form task.now.rows task.now.step)
        crew.new.workers.items) }
    ensures names { F.names folder.new ≡ F.names folder.old }
    ensures later { F.faults folder.old ≤ F.faults folder.new }
    ensures memory { IfErr result (λ f. f ≡ Fault.Memory) }
{
    let workers = crew.workers.as_mut_slice();
    renew(task, folder, first, workers)?;
    let made = crew.made.as_mut_slice();
    hand_over(task, first, workers, made);
    Ok(())
}

// Makes the first blocks, so many for each worker.
fn make_first<R: Threads + Sync, F: Folder, S: Scene>(
    rt: &R,
    task: &Task<S>,
    folder: &mut F,
    crew: &mut Crew<F>,
) -> Result<(), Fault>
    requires may { MayMake F.Folder S.told S.cat task.now.translation.now.cat task.now.translation.now.id
        task.now.translation.now.plan task.now.packing task.now.form task.now.rows task.now.step
        crew.old.workers.items }
    requires told { S.told ≡ F.names folder.old }
    requires count { length crew.old.made.items ≡ length crew.old.workers.items }
    ensures count { OnOk result (length crew.new.workers.items ≡ length crew.old.workers.items) }
    ensures count_made { OnOk result (length crew.new.made.items ≡ length crew.old.made.items) }
    ensures made { OnOk result (WereMade S.told task.now.translation.now.cat task.now.translation.now.id
        task.now.translation.now.plan task.now.packing task.now.rows 0 crew.new.made.items) }
    ensures answers { OnOk result (MayTell S.told (F.faults folder.old) (F.faults folder.new) crew.new.made.items) }
    ensures workers { OnOk result
        (All (HasRoom task.now.translation.now.plan task.now.packing task.now.rows) crew.old.made.items →
        All (IsWorker F.Folder S.told S.cat task.now.translation.now.cat task.now.translation.now.id
        task.now.translation.now.plan task.now.packing task.now.form task.now.rows task.now.step)
        crew.new.workers.items) }
    ensures names { F.names folder.new ≡ F.names folder.old }
    ensures later { F.faults folder.old ≤ F.faults folder.new }
    ensures memory { IfErr result (λ f. f ≡ Fault.Memory) }
{
    let workers = crew.workers.as_mut_slice();
    make_all::<R, F, S>(rt, task, 0, workers);
    take_made(task, folder, 0, crew)
}

// Writes blocks from one on, which were made, while those from another one on are made.
fn write_and_make<R: Threads + Sync, F: Folder, W: Ledger + Send, S: Scene>(
    rt: &R,
    task: &Task<S>,
    folder: &mut F,
    target: &mut Target<F>,
    round: Round,
    crew: &mut Crew<F>,
    writes: &mut Counter<W>,
) -> Result<(), Fault>
    requires may_make { MayMake F.Folder S.told S.cat task.now.translation.now.cat task.now.translation.now.id
        task.now.translation.now.plan task.now.packing task.now.form task.now.rows task.now.step
        crew.old.workers.items }
    requires may_put { MayPut F.Folder S.told task.now.translation.now.cat task.now.translation.now.id
        task.now.translation.now.plan task.now.packing task.now.form task.now.rows task.now.step round.first
        folder.old target.old crew.old.made.items }
    ensures done { WereDone F.Folder S.told S.cat task.now.translation.now.cat task.now.translation.now.id
        task.now.translation.now.plan task.now.packing task.now.form task.now.rows task.now.step round.next
        (length crew.old.workers.items) crew.new.workers.items }
    ensures put { WerePut F.Folder S.told task.now.translation.now.cat task.now.translation.now.id
        task.now.translation.now.plan task.now.packing task.now.rows round.first folder.old folder.new target.old
        target.new crew.old.made.items crew.new.made.items result }
{
    let mut written = Ok(());
    let mut writing = who_writes(folder, target, &mut crew.made, writes, &mut written);
    do_both(rt, task, round, &mut writing, &mut crew.workers);
    written
}

// Writes blocks from one on, which were made, makes those behind them meanwhile, and takes these.
fn copy_round<R: Threads + Sync, F: Folder, W: Ledger + Send, S: Scene>(
    rt: &R,
    task: &Task<S>,
    folder: &mut F,
    target: &mut Target<F>,
    round: Round,
    crew: &mut Crew<F>,
    writes: &mut Counter<W>,
) -> Result<(), Fault>
    requires may_make { MayMake F.Folder S.told S.cat task.now.translation.now.cat task.now.translation.now.id
        task.now.translation.now.plan task.now.packing task.now.form task.now.rows task.now.step
        crew.old.workers.items }
    requires may_put { MayPut F.Folder S.told task.now.translation.now.cat task.now.translation.now.id
        task.now.translation.now.plan task.now.packing task.now.form task.now.rows task.now.step round.first
        folder.old target.old crew.old.made.items }
    requires count { length crew.old.made.items ≡ length crew.old.workers.items }
    ensures count { OnOk result (length crew.new.workers.items ≡ length crew.old.workers.items) }
    ensures count_made { OnOk result (length crew.new.made.items ≡ length crew.old.made.items) }
    ensures written { OnOk result (AreBlocksWritten (F.names folder.new) task.now.translation.now.cat
        task.now.translation.now.id task.now.translation.now.plan task.now.packing
        (cut_of task.now.packing).by_columns target.new
        (top_of (cut_of task.now.packing).blocks task.now.rows round.first (length crew.old.made.items))) }
    ensures empty { target.new.pool.entries ≡ [] }
    ensures made { OnOk result (WereMade S.told task.now.translation.now.cat task.now.translation.now.id
        task.now.translation.now.plan task.now.packing task.now.rows round.next crew.new.made.items) }
    ensures answers { OnOk result (MayTell S.told (F.faults folder.old) (F.faults folder.new) crew.new.made.items) }
    ensures workers { OnOk result (All (IsWorker F.Folder S.told S.cat task.now.translation.now.cat
        task.now.translation.now.id task.now.translation.now.plan task.now.packing task.now.form task.now.rows
        task.now.step) crew.new.workers.items) }
    ensures name { target.new.name ≡ target.old.name }
    ensures names { F.names folder.new ≡ F.names folder.old }
    ensures later { F.faults folder.old ≤ F.faults folder.new }
    ensures ends { (before : ℕ) → before ≤ F.faults folder.old →
        MayTell S.told before (F.faults folder.old) crew.old.made.items →
        MayEnd (F.names folder.old) before (F.faults folder.new) 0 0 result }
    ensures changed { IfErr result (TellsChange task.now.translation.now.cat) }
{
    write_and_make(rt, task, folder, target, round, crew, writes)?;
    take_made(task, folder, round.next, crew)
}

// The end of the blocks from one on that so many workers make.
fn end_of<S: Scene>(task: &Task<S>, first: u32, count: usize) -> u32
    requires task { IsTask task.now.translation.now.cat task.now.translation.now.id task.now.translation.now.plan
        task.now.packing task.now.form task.now.rows task.now.step }
    requires some { 0 < count }
    requires few { count ≤ most_workers }
    ensures end { result ≡ top_of (cut_of task.now.packing).blocks task.now.rows first count }
{
    let extent = extent_of(task);
    portion_of(extent, task.rows, first, count - 1).end
}

/// Whether so many workers make other blocks behind their first ones.
pub fn has_others<S: Scene>(task: &Task<S>, count: usize) -> bool
    requires task { IsTask task.now.translation.now.cat task.now.translation.now.id task.now.translation.now.plan
        task.now.packing task.now.form task.now.rows task.now.step }
    requires some { 0 < count }
    requires few { count ≤ most_workers }
    ensures others { top_of (cut_of task.now.packing).blocks task.now.rows 0 count < (cut_of task.now.packing).blocks →
        result ≡ true }
    ensures none { (cut_of task.now.packing).blocks ≤ top_of (cut_of task.now.packing).blocks task.now.rows 0 count →
        result ≡ false }
{
    end_of(task, 0, count) < extent_of(task)
}

/// As `copy_all`, by workers that make and pack blocks beside each other, and while others are written.
pub fn copy_packed<R: Threads + Sync, F: Folder, O: Sink, W: Ledger + Send, S: Scene>(
    rt: &R,
    task: &Task<S>,
    folder: &mut F,
    target: &mut Target<F>,
    out: &mut O,
    crew: &mut Crew<F>,
    writes: &mut Counter<W>,
) -> Result<(), Fault>
    requires task { IsTask task.now.translation.now.cat task.now.translation.now.id task.now.translation.now.plan
        task.now.packing task.now.form task.now.rows task.now.step }
    requires some { 0 < length crew.old.workers.items }
    requires few { length crew.old.workers.items ≤ most_workers }
    requires count { length crew.old.made.items ≡ length crew.old.workers.items }
    requires told { S.told ≡ F.names folder.old }
    requires workers { All (IsWorker F.Folder S.told S.cat task.now.translation.now.cat task.now.translation.now.id
        task.now.translation.now.plan task.now.packing task.now.form task.now.rows task.now.step)
        crew.old.workers.items }
    requires rooms { top_of (cut_of task.now.packing).blocks task.now.rows 0 (length crew.old.workers.items) <
        (cut_of task.now.packing).blocks →
        All (HasRoom task.now.translation.now.plan task.now.packing task.now.rows) crew.old.made.items }
    requires filled { IsFilled (F.names folder.old) task.now.translation.now.cat task.now.translation.now.id
        task.now.translation.now.plan target.old 0 0 0 }
    requires empty { target.old.pool.entries ≡ [] }
    ensures filled { OnOk result (IsFilled (F.names folder.new) task.now.translation.now.cat
        task.now.translation.now.id task.now.translation.now.plan target.new task.now.translation.now.plan.size.h
        task.now.translation.now.plan.size.h 0) }
    ensures name { target.new.name ≡ target.old.name }
    ensures names { F.names folder.new ≡ F.names folder.old }
    ensures ok { OnOk result (Gets (spoken task.now.quiet progress) (O.got out.old) (O.got out.new)) }
    ensures err { OnErr result (GetsPart (spoken task.now.quiet progress) (O.got out.old) (O.got out.new)) }
    ensures quiet { task.now.quiet ≡ true → out.new ≡ out.old }
    ensures ends { MayEnd (F.names folder.old) (F.faults folder.old) (F.faults folder.new) (O.faults out.old)
        (O.faults out.new) result }
    ensures changed { IfErr result (TellsChange task.now.translation.now.cat) }
{
    // This call is made for the proof: it says what every plan keeps.
    task.translation.plan.rules();
    let height = extent_of(task);
    let quiet = task.quiet;
    let count = crew.workers.len();
    let mut told = tell(out, quiet, 0, Share { done: 0, height })?;
    make_first(rt, task, folder, crew)?;
    let mut first = 0;
    let mut next = end_of(task, 0, count);
    while next < height {
        let round = Round { first, next };
        copy_round(rt, task, folder, target, round, crew, writes)?;
        told = tell(out, quiet, told, Share { done: next, height })?;
        first = next;
        next = end_of(task, first, count);
    }
    let made = crew.made.as_mut_slice();
    write_all(task, folder, target, first, made, writes)?;
    tell(
        out,
        quiet,
        told,
        Share {
            done: height,
            height,
        },
    )?;
    Ok(())
}
