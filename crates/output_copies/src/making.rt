// Blocks of an output, lines or columns, that workers make and pack beside each other.
ghost use Rattle.std.specs.Prelude.{◌≡◌, ◌<◌, ◌≤◌, ◌+◌, ◌-◌, ◌*◌, IfErr, OnOk, false, length};
ghost use Rattle.std.specs.List.{All};
ghost use Rattle.std.specs.Thread.{IsSend, IsSync};
ghost use Rattle.lane_teams.specs.Ready.{AreLanesReady};
ghost use Rattle.strip_copies.specs.Copies.{IsRoomFor};
ghost use Rattle.lane_teams.specs.Workers.{most_workers};
ghost use Rattle.write_back.specs.Forms.{cut_of};
ghost use Rattle.output_copies.specs.Copying.{MayEnd, TellsChange};
ghost use Rattle.output_copies.specs.Packed.{top_of, AreDone, AreMade, ArePacks, HasDone, IsDesk};
ghost use Rattle.output_copies.specs.Packed.{IsTask, IsWorker, MayAnswerByViews};
ghost use Rattle.output_copies.specs.Parts.{ArePart, AreRead, BeginsWith};

use crate::band_lines::{area, fill_front, nth_row};
use crate::calls::each_at_once;
use crate::pieces::make_pieces;
use crate::portion::{Portion, place_of, portion_of};
use crate::records::make_records;
use crate::worker::{Desk, PackedBlock, Task, Worker, extent_of};
use band_blocks::Block;
use error_lines::Fault;
use geotransform::Sample;
use lane_teams::Team;
use outside::{Counter, Folder};
use shared_lines::Scene;
use std::marker::Brand;
use std::mem;
use std::sync::ledger::{Blank, Ledger};
use std::thread::Threads;
use strip_copies::{Columns, Form, Lines, StripReader};

// Packs lines of a band that were read, those of a portion that begins at `top`.
fn pack_lines<S: Scene>(
    task: &Task<S>,
    top: u32,
    lines: Lines,
    samples: &[Sample],
    block: &mut Block,
    packed: &mut [PackedBlock],
)
    requires task { IsTask task.now.translation.now.cat task.now.translation.now.id task.now.translation.now.plan
        task.now.packing task.now.form task.now.rows task.now.step }
    requires lines { (cut_of task.now.packing).by_columns ≡ false }
    requires packs { ArePacks task.now.translation.now.plan task.now.packing task.now.rows block.old packed.old }
    requires part { ArePart task.now.translation.now.plan lines }
    requires top { top ≤ lines.first }
    requires few { lines.end ≤ top + task.now.rows }
    requires read { AreRead S.told task.now.translation.now.cat task.now.translation.now.id
        task.now.translation.now.plan lines samples.now }
    requires made { AreMade S.told task.now.translation.now.cat task.now.translation.now.id
        task.now.translation.now.plan task.now.packing top packed.old lines.first lines.end lines.band }
    ensures packs { ArePacks task.now.translation.now.plan task.now.packing task.now.rows block.new packed.new }
    ensures made { AreMade S.told task.now.translation.now.cat task.now.translation.now.id
        task.now.translation.now.plan task.now.packing top packed.new lines.first lines.end (lines.band + 1) }
{
    let plan = &task.translation.plan;
    plan.rules();
    let bands = plan.count();
    let width = plan.size.w;
    for line in lines.first..lines.end {
        let row = nth_row(samples, line - lines.first, width);
        let place = place_of(bands, lines.band, line - top);
        packed[place].pack(&task.packing, row, block);
    }
}

// Packs the lines of a band that a room begins with.
fn pack_front<S: Scene>(
    task: &Task<S>,
    top: u32,
    lines: Lines,
    room: &[Sample],
    block: &mut Block,
    packed: &mut [PackedBlock],
)
    requires task { IsTask task.now.translation.now.cat task.now.translation.now.id task.now.translation.now.plan
        task.now.packing task.now.form task.now.rows task.now.step }
    requires lines { (cut_of task.now.packing).by_columns ≡ false }
    requires packs { ArePacks task.now.translation.now.plan task.now.packing task.now.rows block.old packed.old }
    requires part { ArePart task.now.translation.now.plan lines }
    requires top { top ≤ lines.first }
    requires few { lines.end ≤ top + task.now.rows }
    requires long { task.now.translation.now.plan.size.w * (lines.end - lines.first) ≤ length room.now }
    requires read { BeginsWith S.told task.now.translation.now.cat task.now.translation.now.id
        task.now.translation.now.plan lines room.now }
    requires made { AreMade S.told task.now.translation.now.cat task.now.translation.now.id
        task.now.translation.now.plan task.now.packing top packed.old lines.first lines.end lines.band }
    ensures packs { ArePacks task.now.translation.now.plan task.now.packing task.now.rows block.new packed.new }
    ensures made { AreMade S.told task.now.translation.now.cat task.now.translation.now.id
        task.now.translation.now.plan task.now.packing top packed.new lines.first lines.end (lines.band + 1) }
{
    let plan = &task.translation.plan;
    let count = area(plan.size.w, lines.end - lines.first);
    let part = &room[..count];
    pack_lines(task, top, lines, part, block, packed);
}

// Reads lines of a band into the room of a desk, and packs them.
fn make_lines<R: Threads + Sync, F: Folder, L: Ledger, S: Scene>(
    rt: &R,
    task: &Task<S>,
    reader: &mut StripReader<F, L>,
    desk: &mut Desk<F>,
    top: u32,
    lines: Lines,
) -> Result<(), Fault>
    requires task { IsTask task.now.translation.now.cat task.now.translation.now.id task.now.translation.now.plan
        task.now.packing task.now.form task.now.rows task.now.step }
    requires lines { task.now.form ≡ Form.Lines }
    requires ready { AreLanesReady F.Folder S.told S.cat desk.old.view task.now.translation.now.cat
        reader.old.team.lanes.items }
    requires room { IsRoomFor task.now.translation.now.cat task.now.translation.now.id task.now.translation.now.plan
        reader.old.columns reader.old.samples.items }
    requires desk { IsDesk task.now.translation.now.plan task.now.packing task.now.form task.now.rows task.now.step
        desk.old.room.items desk.old.block desk.old.records.items desk.old.packed.items }
    requires part { ArePart task.now.translation.now.plan lines }
    requires top { top ≤ lines.first }
    requires few { lines.end ≤ top + task.now.rows }
    requires long { task.now.translation.now.plan.size.w * (lines.end - lines.first) ≤ length desk.old.room.items }
    requires made { AreMade S.told task.now.translation.now.cat task.now.translation.now.id
        task.now.translation.now.plan task.now.packing top desk.old.packed.items lines.first lines.end lines.band }
    ensures made { OnOk result (AreMade S.told task.now.translation.now.cat task.now.translation.now.id
        task.now.translation.now.plan task.now.packing top desk.new.packed.items lines.first lines.end
        (lines.band + 1)) }
    ensures desk { IsDesk task.now.translation.now.plan task.now.packing task.now.form task.now.rows task.now.step
        desk.new.room.items desk.new.block desk.new.records.items desk.new.packed.items }
    ensures ready { AreLanesReady F.Folder S.told S.cat desk.new.view task.now.translation.now.cat
        reader.new.team.lanes.items }
    ensures room { IsRoomFor task.now.translation.now.cat task.now.translation.now.id task.now.translation.now.plan
        reader.new.columns reader.new.samples.items }
    ensures size { length desk.new.room.items ≡ length desk.old.room.items }
    ensures names { F.names desk.new.view ≡ F.names desk.old.view }
    ensures ends { MayEnd S.told (F.faults desk.old.view) (F.faults desk.new.view) 0 0 result }
    ensures changed { IfErr result (TellsChange task.now.translation.now.cat) }
{
    let shared = task.shared;
    let view = &mut desk.view;
    let room = &mut desk.room;
    fill_front(rt, task.translation, reader, view, shared, lines, room)?;
    let samples = desk.room.as_slice();
    let block = &mut desk.block;
    let packed = desk.packed.as_mut_slice();
    pack_front(task, top, lines, samples, block, packed);
    Ok(())
}

// The same, of all bands.
fn make_bands<R: Threads + Sync, F: Folder, L: Ledger, S: Scene>(
    rt: &R,
    task: &Task<S>,
    reader: &mut StripReader<F, L>,
    desk: &mut Desk<F>,
    top: u32,
    portion: Portion,
) -> Result<(), Fault>
    requires task { IsTask task.now.translation.now.cat task.now.translation.now.id task.now.translation.now.plan
        task.now.packing task.now.form task.now.rows task.now.step }
    requires lines { task.now.form ≡ Form.Lines }
    requires ready { AreLanesReady F.Folder S.told S.cat desk.old.view task.now.translation.now.cat
        reader.old.team.lanes.items }
    requires room { IsRoomFor task.now.translation.now.cat task.now.translation.now.id task.now.translation.now.plan
        reader.old.columns reader.old.samples.items }
    requires desk { IsDesk task.now.translation.now.plan task.now.packing task.now.form task.now.rows task.now.step
        desk.old.room.items desk.old.block desk.old.records.items desk.old.packed.items }
    requires order { portion.top < portion.end }
    requires end { portion.end ≤ task.now.translation.now.plan.size.h }
    requires top { top ≤ portion.top }
    requires few { portion.end ≤ top + task.now.rows }
    requires long { task.now.translation.now.plan.size.w * (portion.end - portion.top) ≤ length desk.old.room.items }
    requires made { AreMade S.told task.now.translation.now.cat task.now.translation.now.id
        task.now.translation.now.plan task.now.packing top desk.old.packed.items portion.top portion.top 0 }
    ensures made { OnOk result (AreMade S.told task.now.translation.now.cat task.now.translation.now.id
        task.now.translation.now.plan task.now.packing top desk.new.packed.items portion.end portion.end 0) }
    ensures desk { IsDesk task.now.translation.now.plan task.now.packing task.now.form task.now.rows task.now.step
        desk.new.room.items desk.new.block desk.new.records.items desk.new.packed.items }
    ensures ready { AreLanesReady F.Folder S.told S.cat desk.new.view task.now.translation.now.cat
        reader.new.team.lanes.items }
    ensures room { IsRoomFor task.now.translation.now.cat task.now.translation.now.id task.now.translation.now.plan
        reader.new.columns reader.new.samples.items }
    ensures size { length desk.new.room.items ≡ length desk.old.room.items }
    ensures names { F.names desk.new.view ≡ F.names desk.old.view }
    ensures ends { MayEnd S.told (F.faults desk.old.view) (F.faults desk.new.view) 0 0 result }
    ensures changed { IfErr result (TellsChange task.now.translation.now.cat) }
{
    let plan = &task.translation.plan;
    plan.rules();
    let bands = plan.count();
    for band in 0..bands {
        let lines = Lines {
            band,
            first: portion.top,
            end: portion.end,
        };
        make_lines(rt, task, reader, desk, top, lines)?;
    }
    Ok(())
}

// Makes the lines of a portion, so many at a time.
fn make_portion<R: Threads + Sync, F: Folder, L: Ledger, S: Scene>(
    rt: &R,
    task: &Task<S>,
    reader: &mut StripReader<F, L>,
    desk: &mut Desk<F>,
    portion: Portion,
) -> Result<(), Fault>
    requires task { IsTask task.now.translation.now.cat task.now.translation.now.id task.now.translation.now.plan
        task.now.packing task.now.form task.now.rows task.now.step }
    requires lines { task.now.form ≡ Form.Lines }
    requires ready { AreLanesReady F.Folder S.told S.cat desk.old.view task.now.translation.now.cat
        reader.old.team.lanes.items }
    requires room { IsRoomFor task.now.translation.now.cat task.now.translation.now.id task.now.translation.now.plan
        reader.old.columns reader.old.samples.items }
    requires desk { IsDesk task.now.translation.now.plan task.now.packing task.now.form task.now.rows task.now.step
        desk.old.room.items desk.old.block desk.old.records.items desk.old.packed.items }
    requires order { portion.top ≤ portion.end }
    requires end { portion.end ≤ task.now.translation.now.plan.size.h }
    requires few { portion.end ≤ portion.top + task.now.rows }
    ensures made { OnOk result (AreMade S.told task.now.translation.now.cat task.now.translation.now.id
        task.now.translation.now.plan task.now.packing portion.top desk.new.packed.items portion.end portion.end 0) }
    ensures desk { IsDesk task.now.translation.now.plan task.now.packing task.now.form task.now.rows task.now.step
        desk.new.room.items desk.new.block desk.new.records.items desk.new.packed.items }
    ensures ready { AreLanesReady F.Folder S.told S.cat desk.new.view task.now.translation.now.cat
        reader.new.team.lanes.items }
    ensures room { IsRoomFor task.now.translation.now.cat task.now.translation.now.id task.now.translation.now.plan
        reader.new.columns reader.new.samples.items }
    ensures names { F.names desk.new.view ≡ F.names desk.old.view }
    ensures ends { MayEnd S.told (F.faults desk.old.view) (F.faults desk.new.view) 0 0 result }
    ensures changed { IfErr result (TellsChange task.now.translation.now.cat) }
{
    let mut line = portion.top;
    while line < portion.end {
        let end = line + task.step.min(portion.end - line);
        let part = Portion { top: line, end };
        make_bands(rt, task, reader, desk, portion.top, part)?;
        line = end;
    }
    Ok(())
}

// Makes the blocks of a portion.
fn make_blocks<R: Threads + Sync, F: Folder, L: Ledger, S: Scene>(
    rt: &R,
    task: &Task<S>,
    reader: &mut StripReader<F, L>,
    desk: &mut Desk<F>,
    portion: Portion,
) -> Result<(), Fault>
    requires task { IsTask task.now.translation.now.cat task.now.translation.now.id task.now.translation.now.plan
        task.now.packing task.now.form task.now.rows task.now.step }
    requires ready { AreLanesReady F.Folder S.told S.cat desk.old.view task.now.translation.now.cat
        reader.old.team.lanes.items }
    requires room { IsRoomFor task.now.translation.now.cat task.now.translation.now.id task.now.translation.now.plan
        reader.old.columns reader.old.samples.items }
    requires desk { IsDesk task.now.translation.now.plan task.now.packing task.now.form task.now.rows task.now.step
        desk.old.room.items desk.old.block desk.old.records.items desk.old.packed.items }
    requires order { portion.top ≤ portion.end }
    requires end { portion.end ≤ (cut_of task.now.packing).blocks }
    requires few { portion.end ≤ portion.top + task.now.rows }
    ensures made { OnOk result (AreMade S.told task.now.translation.now.cat task.now.translation.now.id
        task.now.translation.now.plan task.now.packing portion.top desk.new.packed.items portion.end portion.end 0) }
    ensures desk { IsDesk task.now.translation.now.plan task.now.packing task.now.form task.now.rows task.now.step
        desk.new.room.items desk.new.block desk.new.records.items desk.new.packed.items }
    ensures ready { AreLanesReady F.Folder S.told S.cat desk.new.view task.now.translation.now.cat
        reader.new.team.lanes.items }
    ensures room { IsRoomFor task.now.translation.now.cat task.now.translation.now.id task.now.translation.now.plan
        reader.new.columns reader.new.samples.items }
    ensures names { F.names desk.new.view ≡ F.names desk.old.view }
    ensures ends { MayEnd S.told (F.faults desk.old.view) (F.faults desk.new.view) 0 0 result }
    ensures changed { IfErr result (TellsChange task.now.translation.now.cat) }
{
    // This call is made for the proof: it says what every plan keeps.
    task.translation.plan.rules();
    match task.form {
        Form::Lines => make_portion(rt, task, reader, desk, portion),
        Form::Pieces => make_pieces(rt, task, reader, desk, portion),
        Form::Records => make_records(rt, task, reader, desk, portion),
    }
}

// A worker makes its blocks, with a count of loads that is dropped.
fn make_counted<R: Threads + Sync, F: Folder, L: Ledger, S: Scene>(
    rt: &R,
    task: &Task<S>,
    portion: Portion,
    worker: &mut Worker<F>,
    blank: Blank,
)
    requires task { IsTask task.now.translation.now.cat task.now.translation.now.id task.now.translation.now.plan
        task.now.packing task.now.form task.now.rows task.now.step }
    requires worker { IsWorker F.Folder S.told S.cat task.now.translation.now.cat task.now.translation.now.id
        task.now.translation.now.plan task.now.packing task.now.form task.now.rows task.now.step worker.old }
    requires order { portion.top ≤ portion.end }
    requires end { portion.end ≤ (cut_of task.now.packing).blocks }
    requires few { portion.end ≤ portion.top + task.now.rows }
    requires name { blank.name ≡ L.name }
    requires parts { blank.parts ≡ L.parts }
    requires shares { 0 < blank.parts }
    ensures done { HasDone F.Folder S.told S.cat task.now.translation.now.cat task.now.translation.now.id
        task.now.translation.now.plan task.now.packing task.now.form task.now.rows task.now.step portion.top
        portion.end worker.new }
    ensures ends { MayEnd S.told 0 (F.faults worker.new.desk.view) 0 0 worker.new.answer }
{
    let alloc = task.translation.alloc;
    let none = Columns {
        first: 0,
        count: 0,
        places: Vec::new(alloc),
    };
    let lanes = mem::replace(&mut worker.lanes, Vec::new(alloc));
    let columns = mem::replace(&mut worker.columns, none);
    let samples = mem::replace(&mut worker.samples, Vec::new(alloc));
    let loads: Counter<L> = Counter::open(blank);
    let mut reader = StripReader {
        team: Team { lanes, loads },
        columns,
        samples,
    };
    let answer = make_blocks(rt, task, &mut reader, &mut worker.desk, portion);
    let StripReader {
        team,
        columns,
        samples,
    } = reader;
    let Team { lanes, loads } = team;
    drop(loads);
    worker.lanes = lanes;
    worker.columns = columns;
    worker.samples = samples;
    worker.answer = answer;
}

// A worker makes its blocks. Nobody counts its loads.
fn make_alone<R: Threads + Sync, F: Folder, S: Scene>(
    rt: &R,
    task: &Task<S>,
    portion: Portion,
    worker: &mut Worker<F>,
)
    requires task { IsTask task.now.translation.now.cat task.now.translation.now.id task.now.translation.now.plan
        task.now.packing task.now.form task.now.rows task.now.step }
    requires worker { IsWorker F.Folder S.told S.cat task.now.translation.now.cat task.now.translation.now.id
        task.now.translation.now.plan task.now.packing task.now.form task.now.rows task.now.step worker.old }
    requires order { portion.top ≤ portion.end }
    requires end { portion.end ≤ (cut_of task.now.packing).blocks }
    requires few { portion.end ≤ portion.top + task.now.rows }
    ensures done { HasDone F.Folder S.told S.cat task.now.translation.now.cat task.now.translation.now.id
        task.now.translation.now.plan task.now.packing task.now.form task.now.rows task.now.step portion.top
        portion.end worker.new }
    ensures ends { MayEnd S.told 0 (F.faults worker.new.desk.view) 0 0 worker.new.answer }
{
    make_counted::<R, F, Brand, S>(rt, task, portion, worker, Blank::new(1));
}

// The worker of a number makes its blocks of those from one on.
fn make_turn<R: Threads + Sync, F: Folder, S: Scene>(
    rt: &R,
    task: &Task<S>,
    first: u32,
    at: usize,
    worker: &mut Worker<F>,
)
    requires task { IsTask task.now.translation.now.cat task.now.translation.now.id task.now.translation.now.plan
        task.now.packing task.now.form task.now.rows task.now.step }
    requires few { at < most_workers }
    requires worker { IsWorker F.Folder S.told S.cat task.now.translation.now.cat task.now.translation.now.id
        task.now.translation.now.plan task.now.packing task.now.form task.now.rows task.now.step worker.old }
    ensures done { HasDone F.Folder S.told S.cat task.now.translation.now.cat task.now.translation.now.id
        task.now.translation.now.plan task.now.packing task.now.form task.now.rows task.now.step
        (top_of (cut_of task.now.packing).blocks task.now.rows first at)
        (top_of (cut_of task.now.packing).blocks task.now.rows first (at + 1)) worker.new }
    ensures ends { MayEnd S.told 0 (F.faults worker.new.desk.view) 0 0 worker.new.answer }
{
    let extent = extent_of(task);
    let portion = portion_of(extent, task.rows, first, at);
    make_alone::<R, F, S>(rt, task, portion, worker);
}

/// Each worker makes its blocks of those from one on, beside the others where threads can be started.
pub fn make_all<R: Threads + Sync, F: Folder, S: Scene>(
    rt: &R,
    task: &Task<S>,
    first: u32,
    workers: &mut [Worker<F>],
)
    requires task { IsTask task.now.translation.now.cat task.now.translation.now.id task.now.translation.now.plan
        task.now.packing task.now.form task.now.rows task.now.step }
    requires some { 0 < length workers.old }
    requires few { length workers.old ≤ most_workers }
    requires workers { All (IsWorker F.Folder S.told S.cat task.now.translation.now.cat task.now.translation.now.id
        task.now.translation.now.plan task.now.packing task.now.form task.now.rows task.now.step) workers.old }
    ensures done { AreDone F.Folder S.told S.cat task.now.translation.now.cat task.now.translation.now.id
        task.now.translation.now.plan task.now.packing task.now.form task.now.rows task.now.step first workers.new }
    ensures ends { MayAnswerByViews S.told F.Folder workers.new }
{
    let count = workers.len();
    let make = |at: usize, worker: &mut Worker<F>|
        requires { IsSync R.row × IsSend S.row × IsSync S.row × IsSend F.row × IsSend F.File.row × IsSend F.Draft.row ×
            (at < count) × (count ≤ most_workers) × IsTask task.now.translation.now.cat task.now.translation.now.id
            task.now.translation.now.plan task.now.packing task.now.form task.now.rows task.now.step × IsWorker
            F.Folder S.told S.cat
            task.now.translation.now.cat task.now.translation.now.id task.now.translation.now.plan task.now.packing
            task.now.form task.now.rows task.now.step worker.old }
        ensures { HasDone F.Folder S.told S.cat task.entry.now.translation.now.cat task.entry.now.translation.now.id
            task.entry.now.translation.now.plan task.entry.now.packing task.entry.now.form task.entry.now.rows
            task.entry.now.step
            (top_of (cut_of task.entry.now.packing).blocks task.entry.now.rows first at)
            (top_of (cut_of task.entry.now.packing).blocks task.entry.now.rows first (at + 1)) worker.new ×
            MayEnd S.told 0 (F.faults worker.new.desk.view) 0 0 worker.new.answer }
    {
        // The clauses name it.
        let _count = count;
        make_turn::<R, F, S>(rt, task, first, at, worker);
    };
    each_at_once(rt, &make, workers);
}
