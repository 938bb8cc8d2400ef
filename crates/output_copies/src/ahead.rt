// Lines that are read while those before them are written.
ghost use Rattle.std.specs.Prelude.{◌≡◌, ◌<◌, ◌≤◌, ◌+◌, ◌-◌, ◌*◌, ℕ, IfErr, IfOk, IfSome, List, None, Ok, Option, OnOk};
ghost use Rattle.std.specs.Prelude.{length, take, true, OnErr};
ghost use Rattle.outside.specs.Outside.{Files};
ghost use Rattle.std.specs.Thread.{IsSend, IsSync};
ghost use Rattle.outside.specs.Streams.{Gets, GetsPart};
ghost use Rattle.catalog.specs.Drivers.{Dataset};
ghost use Rattle.lane_teams.specs.Ready.{AreLanesReady};
ghost use Rattle.strip_copies.specs.Copies.{IsRoomFor, IsTranslation};
ghost use Rattle.error_lines.specs.Progress.{progress, progress_len};
ghost use Rattle.output_copies.specs.Ahead.{MayBeRead, MayBeWritten, WereRead, WereWritten};
ghost use Rattle.output_copies.specs.Copying.{spoken, MayEnd, TellsChange};
ghost use Rattle.output_copies.specs.Filled.{IsFilled, Tells};
ghost use Rattle.output_copies.specs.Parts.{AreBehind, ArePart, BeginsWith};

use crate::band_lines::{area, read_part, write_part};
use crate::calls::at_once;
use crate::copying::Copier;
use crate::progress::{Share, tell};
use error_lines::Fault;
use geotransform::Sample;
use outside::{Counter, Folder, Sink};
use shared_lines::Scene;
use std::sync::ledger::Ledger;
use std::thread::Threads;
use strip_copies::{Lines, StripReader, Translation};
use translate_plan::Plan;
use write_back::Target;

/// Two rooms for lines: one with lines that were read and are written next, and one for the lines behind them.
#[derive(Drop)]
pub struct Rooms {
    pub ready: Vec<Sample>,
    pub next: Vec<Sample>,
}

// Lines that were read, and those behind them.
#[derive(Clone, Copy)]
struct Pair {
    last: Lines,
    next: Lines,
}

// What is done at once: the last lines, which `samples` begins with, are written, and those behind them are read.
#[derive(Drop)]
struct Task<'a, 'b> {
    translation: &'a Translation,
    samples: &'b [Sample],
    last: Lines,
    next: Lines,
}

// Who reads, through a view of the folder and into a room, and what was answered.
#[derive(Drop)]
struct Reading<'a, F: Folder, L: Ledger> {
    reader: &'a mut StripReader<F, L>,
    view: &'a mut F,
    room: &'a mut Vec<Sample>,
    answer: &'a mut Result<(), Fault>,
}

// Who writes, and what was answered.
#[derive(Drop)]
struct Writing<'a, F: Folder, W: Ledger> {
    folder: &'a mut F,
    target: &'a mut Target<F>,
    writes: &'a mut Counter<W>,
    answer: &'a mut Result<(), Fault>,
}

// Reads lines into the front of a room.
fn read_front<R: Threads + Sync, F: Folder, L: Ledger, S: Scene>(
    rt: &R,
    translation: &Translation,
    reader: &mut StripReader<F, L>,
    view: &mut F,
    shared: Option<&shared_lines::Lines<S>>,
    lines: Lines,
    room: &mut [Sample],
) -> Result<(), Fault>
    requires may { MayBeRead F.Folder translation.now.cat translation.now.id translation.now.plan lines S.told S.cat
        view.old reader.old.team.lanes.items reader.old.columns reader.old.samples.items room.old }
    ensures read { OnOk result (BeginsWith (F.names view.old) translation.now.cat translation.now.id
        translation.now.plan lines room.new) }
    ensures ready { AreLanesReady F.Folder S.told S.cat view.new translation.now.cat reader.new.team.lanes.items }
    ensures room { IsRoomFor translation.now.cat translation.now.id translation.now.plan reader.new.columns
        reader.new.samples.items }
    ensures names { F.names view.new ≡ F.names view.old }
    ensures ends { MayEnd (F.names view.old) (F.faults view.old) (F.faults view.new) 0 0 result }
    ensures changed { IfErr result (TellsChange translation.now.cat) }
{
    let count = area(translation.plan.size.w, lines.end - lines.first);
    let part = &mut room[..count];
    read_part(rt, translation, reader, view, shared, lines, part)
}

// Reads lines into the front of a room, and leaves what the next step asks for.
fn read_room<R: Threads + Sync, F: Folder, L: Ledger, S: Scene>(
    rt: &R,
    translation: &Translation,
    reader: &mut StripReader<F, L>,
    view: &mut F,
    shared: Option<&shared_lines::Lines<S>>,
    lines: Lines,
    room: &mut Vec<Sample>,
) -> Result<(), Fault>
    requires may { MayBeRead F.Folder translation.now.cat translation.now.id translation.now.plan lines S.told S.cat
        view.old reader.old.team.lanes.items reader.old.columns reader.old.samples.items room.old.items }
    ensures were { WereRead F.Folder translation.now.cat translation.now.id translation.now.plan lines S.told S.cat
        view.old view.new reader.new.team.lanes.items reader.new.columns reader.new.samples.items
        (length room.old.items) room.new.items result }
{
    let front = room.as_mut_slice();
    read_front(rt, translation, reader, view, shared, lines, front)
}

// Writes lines that a room begins with.
fn write_front<F: Folder, W: Ledger>(
    translation: &Translation,
    folder: &mut F,
    target: &mut Target<F>,
    lines: Lines,
    samples: &[Sample],
    writes: &mut Counter<W>,
) -> Result<(), Fault>
    requires may { MayBeWritten F.Folder translation.now.cat translation.now.id translation.now.plan lines folder.old
        target.old samples.now }
    ensures were { WereWritten F.Folder translation.now.cat translation.now.id translation.now.plan lines folder.old
        folder.new target.old target.new result }
{
    let count = area(translation.plan.size.w, lines.end - lines.first);
    let part = &samples[..count];
    write_part(translation, folder, target, lines, part, writes)
}

// Who reads does so.
fn read_next<R: Threads + Sync, F: Folder, L: Ledger, S: Scene>(
    rt: &R,
    task: &Task,
    shared: Option<&shared_lines::Lines<S>>,
    reading: &mut Reading<F, L>,
)
    requires may { MayBeRead F.Folder task.now.translation.now.cat task.now.translation.now.id
        task.now.translation.now.plan task.now.next S.told S.cat reading.old.view.now
        reading.old.reader.now.team.lanes.items reading.old.reader.now.columns reading.old.reader.now.samples.items
        reading.old.room.now.items }
    ensures reader { reading.new.reader.ghost_name ≡ reading.old.reader.ghost_name }
    ensures view { reading.new.view.ghost_name ≡ reading.old.view.ghost_name }
    ensures room { reading.new.room.ghost_name ≡ reading.old.room.ghost_name }
    ensures answer { reading.new.answer.ghost_name ≡ reading.old.answer.ghost_name }
    ensures were { WereRead F.Folder task.now.translation.now.cat task.now.translation.now.id
        task.now.translation.now.plan task.now.next S.told S.cat reading.old.view.now reading.new.view.now
        reading.new.reader.now.team.lanes.items reading.new.reader.now.columns reading.new.reader.now.samples.items
        (length reading.old.room.now.items) reading.new.room.now.items reading.new.answer.now }
{
    let reader = &mut *reading.reader;
    let view = &mut *reading.view;
    let room = &mut *reading.room;
    let translation = task.translation;
    *reading.answer = read_room(rt, translation, reader, view, shared, task.next, room);
}

// Who writes does so.
fn write_last<F: Folder, W: Ledger>(task: &Task, writing: &mut Writing<F, W>)
    requires may { MayBeWritten F.Folder task.now.translation.now.cat task.now.translation.now.id
        task.now.translation.now.plan task.now.last writing.old.folder.now writing.old.target.now task.now.samples.now }
    ensures folder { writing.new.folder.ghost_name ≡ writing.old.folder.ghost_name }
    ensures target { writing.new.target.ghost_name ≡ writing.old.target.ghost_name }
    ensures writes { writing.new.writes.ghost_name ≡ writing.old.writes.ghost_name }
    ensures answer { writing.new.answer.ghost_name ≡ writing.old.answer.ghost_name }
    ensures were { WereWritten F.Folder task.now.translation.now.cat task.now.translation.now.id
        task.now.translation.now.plan task.now.last writing.old.folder.now writing.new.folder.now writing.old.target.now
        writing.new.target.now writing.new.answer.now }
{
    let folder = &mut *writing.folder;
    let target = &mut *writing.target;
    let writes = &mut *writing.writes;
    let translation = task.translation;
    *writing.answer = write_front(translation, folder, target, task.last, task.samples, writes);
}

// Both do, beside each other where a thread can be started.
fn do_both<'a, 'b, R: Threads + Sync, F: Folder, L: Ledger + Send, W: Ledger, S: Scene>(
    rt: &R,
    task: &Task,
    shared: Option<&shared_lines::Lines<S>>,
    reading: &mut Reading<'a, F, L>,
    writing: &mut Writing<'b, F, W>,
)
    requires may_read { MayBeRead F.Folder task.now.translation.now.cat task.now.translation.now.id
        task.now.translation.now.plan task.now.next S.told S.cat reading.old.view.now
        reading.old.reader.now.team.lanes.items reading.old.reader.now.columns reading.old.reader.now.samples.items
        reading.old.room.now.items }
    requires may_write { MayBeWritten F.Folder task.now.translation.now.cat task.now.translation.now.id
        task.now.translation.now.plan task.now.last writing.old.folder.now writing.old.target.now task.now.samples.now }
    ensures reader { reading.new.reader.ghost_name ≡ reading.old.reader.ghost_name }
    ensures view { reading.new.view.ghost_name ≡ reading.old.view.ghost_name }
    ensures room { reading.new.room.ghost_name ≡ reading.old.room.ghost_name }
    ensures answer { reading.new.answer.ghost_name ≡ reading.old.answer.ghost_name }
    ensures folder { writing.new.folder.ghost_name ≡ writing.old.folder.ghost_name }
    ensures target { writing.new.target.ghost_name ≡ writing.old.target.ghost_name }
    ensures writes { writing.new.writes.ghost_name ≡ writing.old.writes.ghost_name }
    ensures written { writing.new.answer.ghost_name ≡ writing.old.answer.ghost_name }
    ensures were_read { WereRead F.Folder task.now.translation.now.cat task.now.translation.now.id
        task.now.translation.now.plan task.now.next S.told S.cat reading.old.view.now reading.new.view.now
        reading.new.reader.now.team.lanes.items reading.new.reader.now.columns reading.new.reader.now.samples.items
        (length reading.old.room.now.items) reading.new.room.now.items reading.new.answer.now }
    ensures were_written { WereWritten F.Folder task.now.translation.now.cat task.now.translation.now.id
        task.now.translation.now.plan task.now.last writing.old.folder.now writing.new.folder.now writing.old.target.now
        writing.new.target.now writing.new.answer.now }
{
    let read = |half: &mut Reading<F, L>|
        requires { IsSync R.row × IsSend S.row × IsSync S.row × IsSend F.row × IsSend F.File.row × IsSend F.Draft.row ×
            IsSend L.row × MayBeRead F.Folder task.now.translation.now.cat task.now.translation.now.id
            task.now.translation.now.plan task.now.next S.told S.cat half.old.view.now
            half.old.reader.now.team.lanes.items half.old.reader.now.columns half.old.reader.now.samples.items
            half.old.room.now.items }
        ensures { (half.new.reader.ghost_name ≡ half.old.reader.ghost_name) ×
            (half.new.view.ghost_name ≡ half.old.view.ghost_name) ×
            (half.new.room.ghost_name ≡ half.old.room.ghost_name) ×
            (half.new.answer.ghost_name ≡ half.old.answer.ghost_name) ×
            WereRead F.Folder task.entry.now.translation.now.cat task.entry.now.translation.now.id
            task.entry.now.translation.now.plan task.entry.now.next S.told S.cat half.old.view.now half.new.view.now
            half.new.reader.now.team.lanes.items half.new.reader.now.columns half.new.reader.now.samples.items
            (length half.old.room.now.items) half.new.room.now.items half.new.answer.now }
    {
        read_next::<R, F, L, S>(rt, task, shared, half);
    };
    let write = |half: &mut Writing<F, W>|
        requires { MayBeWritten F.Folder task.now.translation.now.cat task.now.translation.now.id
            task.now.translation.now.plan task.now.last half.old.folder.now half.old.target.now task.now.samples.now }
        ensures { (half.new.folder.ghost_name ≡ half.old.folder.ghost_name) ×
            (half.new.target.ghost_name ≡ half.old.target.ghost_name) ×
            (half.new.writes.ghost_name ≡ half.old.writes.ghost_name) ×
            (half.new.answer.ghost_name ≡ half.old.answer.ghost_name) ×
            WereWritten F.Folder task.entry.now.translation.now.cat task.entry.now.translation.now.id
            task.entry.now.translation.now.plan task.entry.now.last half.old.folder.now half.new.folder.now
            half.old.target.now half.new.target.now half.new.answer.now }
    {
        write_last::<F, W>(task, half);
    };
    at_once(rt, &read, reading, &write, writing);
}

// Who reads what.
fn who_reads<'x, F: Folder, L: Ledger>(
    reader: &'x mut StripReader<F, L>,
    view: &'x mut F,
    room: &'x mut Vec<Sample>,
    answer: &'x mut Result<(), Fault>,
) -> Reading<'x, F, L>
    ensures reader { result.reader ≡ reader.entry }
    ensures view { result.view ≡ view.entry }
    ensures room { result.room ≡ room.entry }
    ensures answer { result.answer ≡ answer.entry }
{
    Reading {
        reader,
        view,
        room,
        answer,
    }
}

// Who writes where.
fn who_writes<'x, F: Folder, W: Ledger>(
    folder: &'x mut F,
    target: &'x mut Target<F>,
    writes: &'x mut Counter<W>,
    answer: &'x mut Result<(), Fault>,
) -> Writing<'x, F, W>
    ensures folder { result.folder ≡ folder.entry }
    ensures target { result.target ≡ target.entry }
    ensures writes { result.writes ≡ writes.entry }
    ensures answer { result.answer ≡ answer.entry }
{
    Writing {
        folder,
        target,
        writes,
        answer,
    }
}

// Drops an answer behind an earlier refusal.
fn let_go(answer: Result<(), Fault>) {
    let _ = answer;
}

// Writes the lines that were read, and reads those behind them meanwhile. What reading answered comes where the lines
// were written.
fn write_and_read<R: Threads + Sync, F: Folder, L: Ledger + Send, W: Ledger, S: Scene>(
    rt: &R,
    translation: &Translation,
    copier: &mut Copier<F, L, W, S>,
    folder: &mut F,
    target: &mut Target<F>,
    pair: Pair,
    rooms: &mut Rooms,
) -> Result<Result<(), Fault>, Fault>
    requires translation { IsTranslation translation.now.cat translation.now.id translation.now.plan }
    requires ready { AreLanesReady F.Folder S.told S.cat folder.old translation.now.cat
        copier.old.reader.team.lanes.items }
    requires room { IsRoomFor translation.now.cat translation.now.id translation.now.plan copier.old.reader.columns
        copier.old.reader.samples.items }
    requires last { ArePart translation.now.plan pair.last }
    requires next { ArePart translation.now.plan pair.next }
    requires long { translation.now.plan.size.w * (pair.next.end - pair.next.first) ≤ length rooms.old.next.items }
    requires filled { IsFilled (F.names folder.old) translation.now.cat translation.now.id translation.now.plan
        target.old pair.last.first pair.last.end pair.last.band }
    requires read { BeginsWith (F.names folder.old) translation.now.cat translation.now.id translation.now.plan
        pair.last rooms.old.ready.items }
    ensures filled { OnOk result (IsFilled (F.names folder.new) translation.now.cat translation.now.id
        translation.now.plan target.new pair.last.first pair.last.end (pair.last.band + 1)) }
    ensures read { IfOk result (λ read. OnOk read (BeginsWith (F.names folder.new) translation.now.cat
        translation.now.id translation.now.plan pair.next rooms.new.next.items)) }
    ensures read_ends { IfOk result (λ read. MayEnd (F.names folder.old) (F.faults folder.old) (F.faults folder.new) 0 0
        read) }
    ensures read_changed { IfOk result (λ read. IfErr read (TellsChange translation.now.cat)) }
    ensures kept { length rooms.new.ready.items ≡ length rooms.old.ready.items }
    ensures size { length rooms.new.next.items ≡ length rooms.old.next.items }
    ensures name { target.new.name ≡ target.old.name }
    ensures ready { AreLanesReady F.Folder S.told S.cat folder.new translation.now.cat
        copier.new.reader.team.lanes.items }
    ensures room { IsRoomFor translation.now.cat translation.now.id translation.now.plan copier.new.reader.columns
        copier.new.reader.samples.items }
    ensures names { F.names folder.new ≡ F.names folder.old }
    ensures ends { MayEnd (F.names folder.old) (F.faults folder.old) (F.faults folder.new) 0 0 result }
    ensures changed { IfErr result (TellsChange translation.now.cat) }
{
    let Ok(mut view) = folder.fork() else {
        return Err(Fault::Memory);
    };
    let task = Task {
        translation,
        samples: rooms.ready.as_slice(),
        last: pair.last,
        next: pair.next,
    };
    let shared = copier.shared;
    let mut read = Ok(());
    let mut written = Ok(());
    let room = &mut rooms.next;
    let mut reading = who_reads(&mut copier.reader, &mut view, room, &mut read);
    let mut writing = who_writes(folder, target, &mut copier.writes, &mut written);
    do_both(rt, &task, shared, &mut reading, &mut writing);
    folder.absorb(view);
    match written {
        Ok(()) => Ok(read),
        Err(fault) => {
            let_go(read);
            Err(fault)
        }
    }
}

// The first lines of the first band.
fn first_lines(plan: &Plan, rows: u32) -> Lines
    requires rows { 1 ≤ rows }
    ensures part { ArePart plan.now result }
    ensures few { result.end ≤ result.first + rows }
    ensures band { result.band ≡ 0 }
    ensures first { result.first ≡ 0 }
{
    plan.rules();
    Lines {
        band: 0,
        first: 0,
        end: rows.min(plan.size.h),
    }
}

// The lines behind those of a band, if there are any.
fn lines_behind(plan: &Plan, rows: u32, last: Lines) -> Option<Lines>
    requires rows { 1 ≤ rows }
    requires last { ArePart plan.now last }
    requires few { last.end ≤ last.first + rows }
    ensures part { IfSome result (ArePart plan.now) }
    ensures behind { IfSome result (AreBehind plan.now last) }
    ensures few { IfSome result (λ next. next.end ≤ next.first + rows) }
    ensures none { result ≡ None → (last.band + 1 ≡ length plan.now.bands) × (last.end ≡ plan.now.size.h) }
{
    plan.rules();
    let bands = plan.count();
    let height = plan.size.h;
    if last.band + 1 < bands {
        return Some(Lines {
            band: last.band + 1,
            first: last.first,
            end: last.end,
        });
    }
    if last.end == height {
        return None;
    }
    Some(Lines {
        band: 0,
        first: last.end,
        end: last.end + rows.min(height - last.end),
    })
}

// Tells how far it is, where lines of the last band were written.
fn tell_behind<O: Sink>(
    out: &mut O,
    quiet: bool,
    told: usize,
    plan: &Plan,
    last: Lines,
) -> Result<usize, Fault>
    requires told { told ≤ progress_len }
    requires last { ArePart plan.now last }
    ensures told { (before : Option (List ℕ)) → Gets (spoken quiet (take told progress)) before (O.got out.old) →
        Tells quiet result before (O.got out.new) }
    ensures within { IfOk result (λ next. next ≤ progress_len) }
    ensures quiet { quiet ≡ true → out.new ≡ out.old }
    ensures faults { IfErr result (λ f. f ≡ Fault.OutFault) }
    ensures ends { (names : Option Files) (faults : ℕ) → MayEnd names faults faults (O.faults out.old)
        (O.faults out.new) result }
{
    let bands = plan.count();
    let height = plan.size.h;
    if last.band + 1 < bands {
        return Ok(told);
    }
    let done = last.end;
    tell(out, quiet, told, Share { done, height })
}

// Tells how far it is, and then answers what reading answered.
fn tell_and_answer<O: Sink>(
    out: &mut O,
    quiet: bool,
    told: usize,
    plan: &Plan,
    last: Lines,
    read: Result<(), Fault>,
) -> Result<usize, Fault>
    requires told { told ≤ progress_len }
    requires last { ArePart plan.now last }
    ensures told { (before : Option (List ℕ)) → Gets (spoken quiet (take told progress)) before (O.got out.old) →
        Tells quiet result before (O.got out.new) }
    ensures within { IfOk result (λ next. next ≤ progress_len) }
    ensures read { IfOk result (λ next. read ≡ Ok tt) }
    ensures quiet { quiet ≡ true → out.new ≡ out.old }
    ensures ends { (names : Option Files) (before now : ℕ) → MayEnd names before now 0 0 read →
        MayEnd names before now (O.faults out.old) (O.faults out.new) result }
    ensures changed { (cat : List Dataset) → IfErr read (TellsChange cat) → IfErr result (TellsChange cat) }
{
    match tell_behind(out, quiet, told, plan, last) {
        Ok(next) => {
            read?;
            Ok(next)
        }
        Err(fault) => {
            let_go(read);
            Err(fault)
        }
    }
}

// The next lines are those that are written next.
fn turn(rooms: &mut Rooms)
    ensures ready { rooms.new.ready.items ≡ rooms.old.next.items }
    ensures next { rooms.new.next.items ≡ rooms.old.ready.items }
{
    std::mem::swap(&mut rooms.ready, &mut rooms.next);
}

/// As `copy_all`, with a second room: the next lines are read into it while the last ones are written.
pub fn copy_ahead<R: Threads + Sync, F: Folder, O: Sink, L: Ledger + Send, W: Ledger, S: Scene>(
    rt: &R,
    translation: &Translation,
    copier: &mut Copier<F, L, W, S>,
    folder: &mut F,
    target: &mut Target<F>,
    out: &mut O,
    rooms: &mut Rooms,
) -> Result<(), Fault>
    requires translation { IsTranslation translation.now.cat translation.now.id translation.now.plan }
    requires ready { AreLanesReady F.Folder S.told S.cat folder.old translation.now.cat
        copier.old.reader.team.lanes.items }
    requires room { IsRoomFor translation.now.cat translation.now.id translation.now.plan copier.old.reader.columns
        copier.old.reader.samples.items }
    requires rows { 1 ≤ copier.old.rows }
    requires long { translation.now.plan.size.w * copier.old.rows ≤ length rooms.old.ready.items }
    requires long_next { translation.now.plan.size.w * copier.old.rows ≤ length rooms.old.next.items }
    requires filled { IsFilled (F.names folder.old) translation.now.cat translation.now.id translation.now.plan
        target.old 0 0 0 }
    ensures filled { OnOk result (IsFilled (F.names folder.new) translation.now.cat translation.now.id
        translation.now.plan target.new translation.now.plan.size.h translation.now.plan.size.h 0) }
    ensures name { target.new.name ≡ target.old.name }
    ensures names { F.names folder.new ≡ F.names folder.old }
    ensures ok { OnOk result (Gets (spoken copier.old.quiet progress) (O.got out.old) (O.got out.new)) }
    ensures err { OnErr result (GetsPart (spoken copier.old.quiet progress) (O.got out.old) (O.got out.new)) }
    ensures quiet { copier.old.quiet ≡ true → out.new ≡ out.old }
    ensures ends { MayEnd (F.names folder.old) (F.faults folder.old) (F.faults folder.new) (O.faults out.old)
        (O.faults out.new) result }
    ensures changed { IfErr result (TellsChange translation.now.cat) }
{
    let plan = &translation.plan;
    plan.rules();
    let height = plan.size.h;
    let rows = copier.rows;
    let quiet = copier.quiet;
    let mut told = tell(out, quiet, 0, Share { done: 0, height })?;
    let mut last = first_lines(plan, rows);
    let shared = copier.shared;
    let reader = &mut copier.reader;
    read_room(
        rt,
        translation,
        reader,
        folder,
        shared,
        last,
        &mut rooms.ready,
    )?;
    while let Some(next) = lines_behind(plan, rows, last) {
        let pair = Pair { last, next };
        let read = write_and_read(rt, translation, copier, folder, target, pair, rooms)?;
        told = tell_and_answer(out, quiet, told, plan, last, read)?;
        turn(rooms);
        last = next;
    }
    let writes = &mut copier.writes;
    write_front(translation, folder, target, last, &rooms.ready, writes)?;
    tell(
        out,
        quiet,
        told,
        Share {
            done: height,
            height,
        },
    )?;
    Ok(())
}
