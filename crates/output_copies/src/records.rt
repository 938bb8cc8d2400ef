// Columns of a cell, which a worker makes some lines at a time.
ghost use Rattle.std.specs.Prelude.{◌≡◌, ◌<◌, ◌≤◌, ◌+◌, ◌-◌, ◌*◌, IfErr, IfOk, OnOk, length, true};
ghost use Rattle.std.specs.List.{All};
ghost use Rattle.lane_teams.specs.Ready.{AreLanesReady};
ghost use Rattle.strip_copies.specs.declared.portions.Form.TheVariants.{Records};
ghost use Rattle.strip_copies.specs.Copies.{IsRoomFor};
ghost use Rattle.strip_copies.specs.Pieces.{piece_rect, IsPiece};
ghost use Rattle.write_back.specs.Forms.{cut_of};
ghost use Rattle.write_back.specs.Packed.{block_len};
ghost use Rattle.output_copies.specs.Copying.{MayEnd, TellsChange};
ghost use Rattle.output_copies.specs.Packed.{AreColumnFronts, AreMade, HasRows, HoldsFront, IsBlockFor, IsDesk, IsTask};
ghost use Rattle.output_copies.specs.Parts.{AreReadIn, BeginsWithIn};

use crate::band_lines::{area, fill_piece};
use crate::portion::{Portion, place_of};
use crate::worker::{Desk, PackedBlock, Task};
use band_blocks::Block;
use error_lines::Fault;
use geotransform::Sample;
use outside::Folder;
use shared_lines::Scene;
use std::sync::ledger::Ledger;
use std::thread::Threads;
use strip_copies::{Piece, StripReader};

// Takes the samples of a column of rows that stand one behind the other.
fn gather(samples: &[Sample], wide: usize, at: usize, run: &mut [Sample])
    requires at { at < wide }
    requires room { length run.old * wide ≤ length samples.now }
    ensures run { HasRows samples.now wide at (length run.old) run.new }
{
    for row in 0..run.len() {
        run[row] = samples[row * wide + at];
    }
}

// Puts the samples of a column of a piece into the column's block, below those that stand in it, through a room.
fn put_column<S: Scene>(
    task: &Task<S>,
    piece: Piece,
    at: u32,
    samples: &[Sample],
    room: &mut [Sample],
    column: &mut Block,
)
    requires task { IsTask task.now.translation.now.cat task.now.translation.now.id task.now.translation.now.plan
        task.now.packing task.now.form task.now.rows task.now.step }
    requires columns { (cut_of task.now.packing).by_columns ≡ true }
    requires piece { IsPiece task.now.translation.now.plan piece }
    requires band { piece.band ≡ 0 }
    requires at { at < piece.right - piece.left }
    requires read { AreReadIn S.told task.now.translation.now.cat task.now.translation.now.id
        task.now.translation.now.plan piece.band (piece_rect piece) samples.now }
    requires room { piece.end - piece.first ≤ length room.old }
    requires block { IsBlockFor task.now.packing column.old }
    requires front { HoldsFront S.told task.now.translation.now.cat task.now.translation.now.id
        task.now.translation.now.plan true 0 (piece.left + at) piece.first column.old.samples }
    ensures block { IsBlockFor task.now.packing column.new }
    ensures front { HoldsFront S.told task.now.translation.now.cat task.now.translation.now.id
        task.now.translation.now.plan true 0 (piece.left + at) piece.end column.new.samples }
{
    // This call is made for the proof: it says what every plan keeps.
    task.translation.plan.rules();
    let wide = (piece.right - piece.left) as usize;
    let rows = (piece.end - piece.first) as usize;
    let (run, _) = room.split_at_mut(rows);
    gather(samples, wide, at as usize, run);
    column.write_run(piece.first, run);
}

// The same, of all columns of a piece.
fn put_columns<S: Scene>(
    task: &Task<S>,
    piece: Piece,
    samples: &[Sample],
    room: &mut [Sample],
    records: &mut [Block],
)
    requires task { IsTask task.now.translation.now.cat task.now.translation.now.id task.now.translation.now.plan
        task.now.packing task.now.form task.now.rows task.now.step }
    requires columns { (cut_of task.now.packing).by_columns ≡ true }
    requires piece { IsPiece task.now.translation.now.plan piece }
    requires band { piece.band ≡ 0 }
    requires read { AreReadIn S.told task.now.translation.now.cat task.now.translation.now.id
        task.now.translation.now.plan piece.band (piece_rect piece) samples.now }
    requires room { piece.end - piece.first ≤ length room.old }
    requires few { piece.right - piece.left ≤ length records.old }
    requires blocks { All (IsBlockFor task.now.packing) records.old }
    requires fronts { AreColumnFronts S.told task.now.translation.now.cat task.now.translation.now.id
        task.now.translation.now.plan task.now.packing piece.left (piece.right - piece.left) piece.first records.old }
    ensures blocks { All (IsBlockFor task.now.packing) records.new }
    ensures fronts { AreColumnFronts S.told task.now.translation.now.cat task.now.translation.now.id
        task.now.translation.now.plan task.now.packing piece.left (piece.right - piece.left) piece.end records.new }
{
    let wide = piece.right - piece.left;
    for at in 0..wide {
        let column = at as usize;
        put_column(task, piece, at, samples, room, &mut records[column]);
    }
}

// The same, of a piece that a room begins with.
fn put_front<S: Scene>(
    task: &Task<S>,
    piece: Piece,
    front: &[Sample],
    room: &mut [Sample],
    records: &mut [Block],
)
    requires task { IsTask task.now.translation.now.cat task.now.translation.now.id task.now.translation.now.plan
        task.now.packing task.now.form task.now.rows task.now.step }
    requires columns { (cut_of task.now.packing).by_columns ≡ true }
    requires piece { IsPiece task.now.translation.now.plan piece }
    requires band { piece.band ≡ 0 }
    requires long { (piece.right - piece.left) * (piece.end - piece.first) ≤ length front.now }
    requires read { BeginsWithIn S.told task.now.translation.now.cat task.now.translation.now.id
        task.now.translation.now.plan piece.band (piece_rect piece) front.now }
    requires room { piece.end - piece.first ≤ length room.old }
    requires few { piece.right - piece.left ≤ length records.old }
    requires blocks { All (IsBlockFor task.now.packing) records.old }
    requires fronts { AreColumnFronts S.told task.now.translation.now.cat task.now.translation.now.id
        task.now.translation.now.plan task.now.packing piece.left (piece.right - piece.left) piece.first records.old }
    ensures blocks { All (IsBlockFor task.now.packing) records.new }
    ensures fronts { AreColumnFronts S.told task.now.translation.now.cat task.now.translation.now.id
        task.now.translation.now.plan task.now.packing piece.left (piece.right - piece.left) piece.end records.new }
{
    let count = area(piece.right - piece.left, piece.end - piece.first);
    let part = &front[..count];
    put_columns(task, piece, part, room, records);
}

// Reads a piece into the room of a desk, and puts its samples into its columns.
fn make_rows<R: Threads + Sync, F: Folder, L: Ledger, S: Scene>(
    rt: &R,
    task: &Task<S>,
    reader: &mut StripReader<F, L>,
    desk: &mut Desk<F>,
    piece: Piece,
    run: &mut [Sample],
) -> Result<(), Fault>
    requires task { IsTask task.now.translation.now.cat task.now.translation.now.id task.now.translation.now.plan
        task.now.packing task.now.form task.now.rows task.now.step }
    requires form { task.now.form ≡ Records }
    requires ready { AreLanesReady F.Folder S.told S.cat desk.old.view task.now.translation.now.cat
        reader.old.team.lanes.items }
    requires room { IsRoomFor task.now.translation.now.cat task.now.translation.now.id task.now.translation.now.plan
        reader.old.columns reader.old.samples.items }
    requires desk { IsDesk task.now.translation.now.plan task.now.packing task.now.form task.now.rows task.now.step
        desk.old.room.items desk.old.block desk.old.records.items desk.old.packed.items }
    requires piece { IsPiece task.now.translation.now.plan piece }
    requires band { piece.band ≡ 0 }
    requires few { piece.right - piece.left ≤ task.now.rows }
    requires low { piece.end - piece.first ≤ task.now.step }
    requires run { task.now.step ≤ length run.old }
    requires fronts { AreColumnFronts S.told task.now.translation.now.cat task.now.translation.now.id
        task.now.translation.now.plan task.now.packing piece.left (piece.right - piece.left) piece.first
        desk.old.records.items }
    ensures fronts { OnOk result (AreColumnFronts S.told task.now.translation.now.cat task.now.translation.now.id
        task.now.translation.now.plan task.now.packing piece.left (piece.right - piece.left) piece.end
        desk.new.records.items) }
    ensures desk { IsDesk task.now.translation.now.plan task.now.packing task.now.form task.now.rows task.now.step
        desk.new.room.items desk.new.block desk.new.records.items desk.new.packed.items }
    ensures ready { AreLanesReady F.Folder S.told S.cat desk.new.view task.now.translation.now.cat
        reader.new.team.lanes.items }
    ensures room { IsRoomFor task.now.translation.now.cat task.now.translation.now.id task.now.translation.now.plan
        reader.new.columns reader.new.samples.items }
    ensures names { F.names desk.new.view ≡ F.names desk.old.view }
    ensures ends { MayEnd S.told (F.faults desk.old.view) (F.faults desk.new.view) 0 0 result }
    ensures changed { IfErr result (TellsChange task.now.translation.now.cat) }
{
    let shared = task.shared;
    let view = &mut desk.view;
    let room = &mut desk.room;
    fill_piece(rt, task.translation, reader, view, shared, piece, room)?;
    let samples = desk.room.as_slice();
    let records = desk.records.as_mut_slice();
    put_front(task, piece, samples, run, records);
    Ok(())
}

// Makes the columns of a portion, so many lines at a time.
fn make_columns<R: Threads + Sync, F: Folder, L: Ledger, S: Scene>(
    rt: &R,
    task: &Task<S>,
    reader: &mut StripReader<F, L>,
    desk: &mut Desk<F>,
    portion: Portion,
    run: &mut [Sample],
) -> Result<(), Fault>
    requires task { IsTask task.now.translation.now.cat task.now.translation.now.id task.now.translation.now.plan
        task.now.packing task.now.form task.now.rows task.now.step }
    requires form { task.now.form ≡ Records }
    requires ready { AreLanesReady F.Folder S.told S.cat desk.old.view task.now.translation.now.cat
        reader.old.team.lanes.items }
    requires room { IsRoomFor task.now.translation.now.cat task.now.translation.now.id task.now.translation.now.plan
        reader.old.columns reader.old.samples.items }
    requires desk { IsDesk task.now.translation.now.plan task.now.packing task.now.form task.now.rows task.now.step
        desk.old.room.items desk.old.block desk.old.records.items desk.old.packed.items }
    requires order { portion.top < portion.end }
    requires end { portion.end ≤ task.now.translation.now.plan.size.w }
    requires few { portion.end ≤ portion.top + task.now.rows }
    requires run { task.now.step ≤ length run.old }
    ensures fronts { OnOk result (AreColumnFronts S.told task.now.translation.now.cat task.now.translation.now.id
        task.now.translation.now.plan task.now.packing portion.top (portion.end - portion.top)
        task.now.translation.now.plan.size.h desk.new.records.items) }
    ensures desk { IsDesk task.now.translation.now.plan task.now.packing task.now.form task.now.rows task.now.step
        desk.new.room.items desk.new.block desk.new.records.items desk.new.packed.items }
    ensures ready { AreLanesReady F.Folder S.told S.cat desk.new.view task.now.translation.now.cat
        reader.new.team.lanes.items }
    ensures room { IsRoomFor task.now.translation.now.cat task.now.translation.now.id task.now.translation.now.plan
        reader.new.columns reader.new.samples.items }
    ensures names { F.names desk.new.view ≡ F.names desk.old.view }
    ensures ends { MayEnd S.told (F.faults desk.old.view) (F.faults desk.new.view) 0 0 result }
    ensures changed { IfErr result (TellsChange task.now.translation.now.cat) }
{
    let plan = &task.translation.plan;
    plan.rules();
    let height = plan.size.h;
    let mut line = 0;
    while line < height {
        let end = line + task.step.min(height - line);
        let piece = Piece {
            band: 0,
            first: line,
            end,
            left: portion.top,
            right: portion.end,
        };
        make_rows(rt, task, reader, desk, piece, run)?;
        line = end;
    }
    Ok(())
}

// Packs the columns of a portion, each of which is whole.
fn pack_columns<S: Scene>(
    task: &Task<S>,
    portion: Portion,
    records: &[Block],
    packed: &mut [PackedBlock],
)
    requires task { IsTask task.now.translation.now.cat task.now.translation.now.id task.now.translation.now.plan
        task.now.packing task.now.form task.now.rows task.now.step }
    requires columns { (cut_of task.now.packing).by_columns ≡ true }
    requires order { portion.top ≤ portion.end }
    requires end { portion.end ≤ task.now.translation.now.plan.size.w }
    requires few { portion.end ≤ portion.top + task.now.rows }
    requires count { length records.now ≡ task.now.rows }
    requires blocks { All (IsBlockFor task.now.packing) records.now }
    requires fronts { AreColumnFronts S.told task.now.translation.now.cat task.now.translation.now.id
        task.now.translation.now.plan task.now.packing portion.top (portion.end - portion.top)
        task.now.translation.now.plan.size.h records.now }
    requires long { length packed.old ≡ task.now.rows * length task.now.translation.now.plan.bands }
    requires each { All (λ bytes. length bytes ≡ block_len task.now.packing) packed.old }
    ensures long { length packed.new ≡ length packed.old }
    ensures each { All (λ bytes. length bytes ≡ block_len task.now.packing) packed.new }
    ensures made { AreMade S.told task.now.translation.now.cat task.now.translation.now.id
        task.now.translation.now.plan task.now.packing portion.top packed.new portion.end portion.end 0 }
{
    let plan = &task.translation.plan;
    plan.rules();
    let bands = plan.count();
    for x in portion.top..portion.end {
        let row = x - portion.top;
        let at = row as usize;
        let column = &records[at];
        let place = place_of(bands, 0, row);
        packed[place].pack_column(&task.packing, x, column);
    }
}

// Room for the samples of a column that are put into it at once.
fn run_room<S: Scene>(task: &Task<S>) -> Result<Vec<Sample>, Fault>
    ensures long { IfOk result (λ run. task.now.step ≤ length run.items) }
    ensures memory { IfErr result (λ f. f ≡ Fault.Memory) }
{
    let count = task.step as usize;
    let run = vec![in task.translation.alloc; 0; count]?;
    Ok(run)
}

// The columns of a portion, of which there are some.
fn make_some<R: Threads + Sync, F: Folder, L: Ledger, S: Scene>(
    rt: &R,
    task: &Task<S>,
    reader: &mut StripReader<F, L>,
    desk: &mut Desk<F>,
    portion: Portion,
) -> Result<(), Fault>
    requires task { IsTask task.now.translation.now.cat task.now.translation.now.id task.now.translation.now.plan
        task.now.packing task.now.form task.now.rows task.now.step }
    requires form { task.now.form ≡ Records }
    requires ready { AreLanesReady F.Folder S.told S.cat desk.old.view task.now.translation.now.cat
        reader.old.team.lanes.items }
    requires room { IsRoomFor task.now.translation.now.cat task.now.translation.now.id task.now.translation.now.plan
        reader.old.columns reader.old.samples.items }
    requires desk { IsDesk task.now.translation.now.plan task.now.packing task.now.form task.now.rows task.now.step
        desk.old.room.items desk.old.block desk.old.records.items desk.old.packed.items }
    requires order { portion.top < portion.end }
    requires end { portion.end ≤ task.now.translation.now.plan.size.w }
    requires few { portion.end ≤ portion.top + task.now.rows }
    ensures made { OnOk result (AreMade S.told task.now.translation.now.cat task.now.translation.now.id
        task.now.translation.now.plan task.now.packing portion.top desk.new.packed.items portion.end portion.end 0) }
    ensures desk { IsDesk task.now.translation.now.plan task.now.packing task.now.form task.now.rows task.now.step
        desk.new.room.items desk.new.block desk.new.records.items desk.new.packed.items }
    ensures ready { AreLanesReady F.Folder S.told S.cat desk.new.view task.now.translation.now.cat
        reader.new.team.lanes.items }
    ensures room { IsRoomFor task.now.translation.now.cat task.now.translation.now.id task.now.translation.now.plan
        reader.new.columns reader.new.samples.items }
    ensures names { F.names desk.new.view ≡ F.names desk.old.view }
    ensures ends { MayEnd S.told (F.faults desk.old.view) (F.faults desk.new.view) 0 0 result }
    ensures changed { IfErr result (TellsChange task.now.translation.now.cat) }
{
    let mut run = run_room(task)?;
    let room = run.as_mut_slice();
    make_columns(rt, task, reader, desk, portion, room)?;
    let records = desk.records.as_slice();
    let packed = desk.packed.as_mut_slice();
    pack_columns(task, portion, records, packed);
    Ok(())
}

/// Makes the columns of a portion, if there are any: their samples so many lines at a time, and then their records.
pub fn make_records<R: Threads + Sync, F: Folder, L: Ledger, S: Scene>(
    rt: &R,
    task: &Task<S>,
    reader: &mut StripReader<F, L>,
    desk: &mut Desk<F>,
    portion: Portion,
) -> Result<(), Fault>
    requires task { IsTask task.now.translation.now.cat task.now.translation.now.id task.now.translation.now.plan
        task.now.packing task.now.form task.now.rows task.now.step }
    requires form { task.now.form ≡ Records }
    requires ready { AreLanesReady F.Folder S.told S.cat desk.old.view task.now.translation.now.cat
        reader.old.team.lanes.items }
    requires room { IsRoomFor task.now.translation.now.cat task.now.translation.now.id task.now.translation.now.plan
        reader.old.columns reader.old.samples.items }
    requires desk { IsDesk task.now.translation.now.plan task.now.packing task.now.form task.now.rows task.now.step
        desk.old.room.items desk.old.block desk.old.records.items desk.old.packed.items }
    requires order { portion.top ≤ portion.end }
    requires end { portion.end ≤ task.now.translation.now.plan.size.w }
    requires few { portion.end ≤ portion.top + task.now.rows }
    ensures made { OnOk result (AreMade S.told task.now.translation.now.cat task.now.translation.now.id
        task.now.translation.now.plan task.now.packing portion.top desk.new.packed.items portion.end portion.end 0) }
    ensures desk { IsDesk task.now.translation.now.plan task.now.packing task.now.form task.now.rows task.now.step
        desk.new.room.items desk.new.block desk.new.records.items desk.new.packed.items }
    ensures ready { AreLanesReady F.Folder S.told S.cat desk.new.view task.now.translation.now.cat
        reader.new.team.lanes.items }
    ensures room { IsRoomFor task.now.translation.now.cat task.now.translation.now.id task.now.translation.now.plan
        reader.new.columns reader.new.samples.items }
    ensures names { F.names desk.new.view ≡ F.names desk.old.view }
    ensures ends { MayEnd S.told (F.faults desk.old.view) (F.faults desk.new.view) 0 0 result }
    ensures changed { IfErr result (TellsChange task.now.translation.now.cat) }
{
    if portion.is_empty() {
        return Ok(());
    }
    make_some(rt, task, reader, desk, portion)
}
