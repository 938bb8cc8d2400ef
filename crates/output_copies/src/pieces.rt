// Lines of an output over a cell, which a worker makes some columns at a time.
ghost use Rattle.std.specs.Prelude.{◌≡◌, ◌<◌, ◌≤◌, ◌+◌, ◌-◌, ◌*◌, IfErr, OnOk, false, length};
ghost use Rattle.lane_teams.specs.Ready.{AreLanesReady};
ghost use Rattle.strip_copies.specs.declared.portions.Form.TheVariants.{Pieces};
ghost use Rattle.strip_copies.specs.Copies.{IsRoomFor};
ghost use Rattle.strip_copies.specs.Pieces.{piece_rect, IsPiece};
ghost use Rattle.write_back.specs.Forms.{cut_of};
ghost use Rattle.output_copies.specs.Copying.{MayEnd, TellsChange};
ghost use Rattle.output_copies.specs.Packed.{AreFronts, AreMade, ArePacks, IsDesk, IsTask};
ghost use Rattle.output_copies.specs.Parts.{AreReadIn, BeginsWithIn};

use crate::band_lines::{area, fill_piece, nth_row};
use crate::portion::{Portion, place_of};
use crate::worker::{Desk, PackedBlock, Task};
use band_blocks::Block;
use error_lines::Fault;
use geotransform::Sample;
use outside::Folder;
use shared_lines::Scene;
use std::sync::ledger::Ledger;
use std::thread::Threads;
use strip_copies::{Piece, StripReader};

// Packs the rows of a piece that was read, each into its line, of those of a portion that begins at `top`.
fn pack_rows<S: Scene>(
    task: &Task<S>,
    top: u32,
    piece: Piece,
    samples: &[Sample],
    block: &mut Block,
    packed: &mut [PackedBlock],
)
    requires task { IsTask task.now.translation.now.cat task.now.translation.now.id task.now.translation.now.plan
        task.now.packing task.now.form task.now.rows task.now.step }
    requires lines { (cut_of task.now.packing).by_columns ≡ false }
    requires packs { ArePacks task.now.translation.now.plan task.now.packing task.now.rows block.old packed.old }
    requires piece { IsPiece task.now.translation.now.plan piece }
    requires top { top ≤ piece.first }
    requires few { piece.end ≤ top + task.now.rows }
    requires read { AreReadIn S.told task.now.translation.now.cat task.now.translation.now.id
        task.now.translation.now.plan piece.band (piece_rect piece) samples.now }
    requires made { AreMade S.told task.now.translation.now.cat task.now.translation.now.id
        task.now.translation.now.plan task.now.packing top packed.old piece.first piece.end piece.band }
    requires fronts { AreFronts S.told task.now.translation.now.cat task.now.translation.now.id
        task.now.translation.now.plan task.now.packing top packed.old piece.first piece.end piece.band piece.left }
    ensures packs { ArePacks task.now.translation.now.plan task.now.packing task.now.rows block.new packed.new }
    ensures made { AreMade S.told task.now.translation.now.cat task.now.translation.now.id
        task.now.translation.now.plan task.now.packing top packed.new piece.first piece.end piece.band }
    ensures fronts { AreFronts S.told task.now.translation.now.cat task.now.translation.now.id
        task.now.translation.now.plan task.now.packing top packed.new piece.first piece.end piece.band piece.right }
{
    let plan = &task.translation.plan;
    plan.rules();
    let bands = plan.count();
    let wide = piece.right - piece.left;
    for line in piece.first..piece.end {
        let row = nth_row(samples, line - piece.first, wide);
        let place = place_of(bands, piece.band, line - top);
        packed[place].pack_piece(&task.packing, piece.left, row, block);
    }
}

// The same, of a piece that a room begins with.
fn pack_front<S: Scene>(
    task: &Task<S>,
    top: u32,
    piece: Piece,
    room: &[Sample],
    block: &mut Block,
    packed: &mut [PackedBlock],
)
    requires task { IsTask task.now.translation.now.cat task.now.translation.now.id task.now.translation.now.plan
        task.now.packing task.now.form task.now.rows task.now.step }
    requires lines { (cut_of task.now.packing).by_columns ≡ false }
    requires packs { ArePacks task.now.translation.now.plan task.now.packing task.now.rows block.old packed.old }
    requires piece { IsPiece task.now.translation.now.plan piece }
    requires top { top ≤ piece.first }
    requires few { piece.end ≤ top + task.now.rows }
    requires long { (piece.right - piece.left) * (piece.end - piece.first) ≤ length room.now }
    requires read { BeginsWithIn S.told task.now.translation.now.cat task.now.translation.now.id
        task.now.translation.now.plan piece.band (piece_rect piece) room.now }
    requires made { AreMade S.told task.now.translation.now.cat task.now.translation.now.id
        task.now.translation.now.plan task.now.packing top packed.old piece.first piece.end piece.band }
    requires fronts { AreFronts S.told task.now.translation.now.cat task.now.translation.now.id
        task.now.translation.now.plan task.now.packing top packed.old piece.first piece.end piece.band piece.left }
    ensures packs { ArePacks task.now.translation.now.plan task.now.packing task.now.rows block.new packed.new }
    ensures made { AreMade S.told task.now.translation.now.cat task.now.translation.now.id
        task.now.translation.now.plan task.now.packing top packed.new piece.first piece.end piece.band }
    ensures fronts { AreFronts S.told task.now.translation.now.cat task.now.translation.now.id
        task.now.translation.now.plan task.now.packing top packed.new piece.first piece.end piece.band piece.right }
{
    let count = area(piece.right - piece.left, piece.end - piece.first);
    let part = &room[..count];
    pack_rows(task, top, piece, part, block, packed);
}

// Reads a piece of a band into the room of a desk, and packs it.
fn make_piece<R: Threads + Sync, F: Folder, L: Ledger, S: Scene>(
    rt: &R,
    task: &Task<S>,
    reader: &mut StripReader<F, L>,
    desk: &mut Desk<F>,
    top: u32,
    piece: Piece,
) -> Result<(), Fault>
    requires task { IsTask task.now.translation.now.cat task.now.translation.now.id task.now.translation.now.plan
        task.now.packing task.now.form task.now.rows task.now.step }
    requires form { task.now.form ≡ Pieces }
    requires ready { AreLanesReady F.Folder S.told S.cat desk.old.view task.now.translation.now.cat
        reader.old.team.lanes.items }
    requires room { IsRoomFor task.now.translation.now.cat task.now.translation.now.id task.now.translation.now.plan
        reader.old.columns reader.old.samples.items }
    requires desk { IsDesk task.now.translation.now.plan task.now.packing task.now.form task.now.rows task.now.step
        desk.old.room.items desk.old.block desk.old.records.items desk.old.packed.items }
    requires piece { IsPiece task.now.translation.now.plan piece }
    requires narrow { piece.right - piece.left ≤ task.now.step }
    requires top { top ≤ piece.first }
    requires few { piece.end ≤ top + task.now.rows }
    requires made { AreMade S.told task.now.translation.now.cat task.now.translation.now.id
        task.now.translation.now.plan task.now.packing top desk.old.packed.items piece.first piece.end piece.band }
    requires fronts { AreFronts S.told task.now.translation.now.cat task.now.translation.now.id
        task.now.translation.now.plan task.now.packing top desk.old.packed.items piece.first piece.end piece.band
        piece.left }
    ensures made { OnOk result (AreMade S.told task.now.translation.now.cat task.now.translation.now.id
        task.now.translation.now.plan task.now.packing top desk.new.packed.items piece.first piece.end piece.band) }
    ensures fronts { OnOk result (AreFronts S.told task.now.translation.now.cat task.now.translation.now.id
        task.now.translation.now.plan task.now.packing top desk.new.packed.items piece.first piece.end piece.band
        piece.right) }
    ensures desk { IsDesk task.now.translation.now.plan task.now.packing task.now.form task.now.rows task.now.step
        desk.new.room.items desk.new.block desk.new.records.items desk.new.packed.items }
    ensures ready { AreLanesReady F.Folder S.told S.cat desk.new.view task.now.translation.now.cat
        reader.new.team.lanes.items }
    ensures room { IsRoomFor task.now.translation.now.cat task.now.translation.now.id task.now.translation.now.plan
        reader.new.columns reader.new.samples.items }
    ensures names { F.names desk.new.view ≡ F.names desk.old.view }
    ensures ends { MayEnd S.told (F.faults desk.old.view) (F.faults desk.new.view) 0 0 result }
    ensures changed { IfErr result (TellsChange task.now.translation.now.cat) }
{
    let shared = task.shared;
    let view = &mut desk.view;
    let room = &mut desk.room;
    fill_piece(rt, task.translation, reader, view, shared, piece, room)?;
    let samples = desk.room.as_slice();
    let block = &mut desk.block;
    let packed = desk.packed.as_mut_slice();
    pack_front(task, top, piece, samples, block, packed);
    Ok(())
}

// Makes the lines of a portion of a band, so many columns at a time.
fn make_band<R: Threads + Sync, F: Folder, L: Ledger, S: Scene>(
    rt: &R,
    task: &Task<S>,
    reader: &mut StripReader<F, L>,
    desk: &mut Desk<F>,
    band: u32,
    portion: Portion,
) -> Result<(), Fault>
    requires task { IsTask task.now.translation.now.cat task.now.translation.now.id task.now.translation.now.plan
        task.now.packing task.now.form task.now.rows task.now.step }
    requires form { task.now.form ≡ Pieces }
    requires ready { AreLanesReady F.Folder S.told S.cat desk.old.view task.now.translation.now.cat
        reader.old.team.lanes.items }
    requires room { IsRoomFor task.now.translation.now.cat task.now.translation.now.id task.now.translation.now.plan
        reader.old.columns reader.old.samples.items }
    requires desk { IsDesk task.now.translation.now.plan task.now.packing task.now.form task.now.rows task.now.step
        desk.old.room.items desk.old.block desk.old.records.items desk.old.packed.items }
    requires band { band < length task.now.translation.now.plan.bands }
    requires order { portion.top < portion.end }
    requires end { portion.end ≤ task.now.translation.now.plan.size.h }
    requires few { portion.end ≤ portion.top + task.now.rows }
    requires made { AreMade S.told task.now.translation.now.cat task.now.translation.now.id
        task.now.translation.now.plan task.now.packing portion.top desk.old.packed.items portion.top portion.end band }
    ensures made { OnOk result (AreMade S.told task.now.translation.now.cat task.now.translation.now.id
        task.now.translation.now.plan task.now.packing portion.top desk.new.packed.items portion.top portion.end
        (band + 1)) }
    ensures desk { IsDesk task.now.translation.now.plan task.now.packing task.now.form task.now.rows task.now.step
        desk.new.room.items desk.new.block desk.new.records.items desk.new.packed.items }
    ensures ready { AreLanesReady F.Folder S.told S.cat desk.new.view task.now.translation.now.cat
        reader.new.team.lanes.items }
    ensures room { IsRoomFor task.now.translation.now.cat task.now.translation.now.id task.now.translation.now.plan
        reader.new.columns reader.new.samples.items }
    ensures names { F.names desk.new.view ≡ F.names desk.old.view }
    ensures ends { MayEnd S.told (F.faults desk.old.view) (F.faults desk.new.view) 0 0 result }
    ensures changed { IfErr result (TellsChange task.now.translation.now.cat) }
{
    let plan = &task.translation.plan;
    plan.rules();
    let width = plan.size.w;
    let mut left = 0;
    while left < width {
        let right = left + task.step.min(width - left);
        let piece = Piece {
            band,
            first: portion.top,
            end: portion.end,
            left,
            right,
        };
        make_piece(rt, task, reader, desk, portion.top, piece)?;
        left = right;
    }
    Ok(())
}

// The same, of all bands.
fn make_all_bands<R: Threads + Sync, F: Folder, L: Ledger, S: Scene>(
    rt: &R,
    task: &Task<S>,
    reader: &mut StripReader<F, L>,
    desk: &mut Desk<F>,
    portion: Portion,
) -> Result<(), Fault>
    requires task { IsTask task.now.translation.now.cat task.now.translation.now.id task.now.translation.now.plan
        task.now.packing task.now.form task.now.rows task.now.step }
    requires form { task.now.form ≡ Pieces }
    requires ready { AreLanesReady F.Folder S.told S.cat desk.old.view task.now.translation.now.cat
        reader.old.team.lanes.items }
    requires room { IsRoomFor task.now.translation.now.cat task.now.translation.now.id task.now.translation.now.plan
        reader.old.columns reader.old.samples.items }
    requires desk { IsDesk task.now.translation.now.plan task.now.packing task.now.form task.now.rows task.now.step
        desk.old.room.items desk.old.block desk.old.records.items desk.old.packed.items }
    requires order { portion.top < portion.end }
    requires end { portion.end ≤ task.now.translation.now.plan.size.h }
    requires few { portion.end ≤ portion.top + task.now.rows }
    ensures made { OnOk result (AreMade S.told task.now.translation.now.cat task.now.translation.now.id
        task.now.translation.now.plan task.now.packing portion.top desk.new.packed.items portion.end portion.end 0) }
    ensures desk { IsDesk task.now.translation.now.plan task.now.packing task.now.form task.now.rows task.now.step
        desk.new.room.items desk.new.block desk.new.records.items desk.new.packed.items }
    ensures ready { AreLanesReady F.Folder S.told S.cat desk.new.view task.now.translation.now.cat
        reader.new.team.lanes.items }
    ensures room { IsRoomFor task.now.translation.now.cat task.now.translation.now.id task.now.translation.now.plan
        reader.new.columns reader.new.samples.items }
    ensures names { F.names desk.new.view ≡ F.names desk.old.view }
    ensures ends { MayEnd S.told (F.faults desk.old.view) (F.faults desk.new.view) 0 0 result }
    ensures changed { IfErr result (TellsChange task.now.translation.now.cat) }
{
    let plan = &task.translation.plan;
    plan.rules();
    let bands = plan.count();
    for band in 0..bands {
        make_band(rt, task, reader, desk, band, portion)?;
    }
    Ok(())
}

/// Makes the lines of a portion, if there are any, band by band, so many columns at a time.
pub fn make_pieces<R: Threads + Sync, F: Folder, L: Ledger, S: Scene>(
    rt: &R,
    task: &Task<S>,
    reader: &mut StripReader<F, L>,
    desk: &mut Desk<F>,
    portion: Portion,
) -> Result<(), Fault>
    requires task { IsTask task.now.translation.now.cat task.now.translation.now.id task.now.translation.now.plan
        task.now.packing task.now.form task.now.rows task.now.step }
    requires form { task.now.form ≡ Pieces }
    requires ready { AreLanesReady F.Folder S.told S.cat desk.old.view task.now.translation.now.cat
        reader.old.team.lanes.items }
    requires room { IsRoomFor task.now.translation.now.cat task.now.translation.now.id task.now.translation.now.plan
        reader.old.columns reader.old.samples.items }
    requires desk { IsDesk task.now.translation.now.plan task.now.packing task.now.form task.now.rows task.now.step
        desk.old.room.items desk.old.block desk.old.records.items desk.old.packed.items }
    requires order { portion.top ≤ portion.end }
    requires end { portion.end ≤ task.now.translation.now.plan.size.h }
    requires few { portion.end ≤ portion.top + task.now.rows }
    ensures made { OnOk result (AreMade S.told task.now.translation.now.cat task.now.translation.now.id
        task.now.translation.now.plan task.now.packing portion.top desk.new.packed.items portion.end portion.end 0) }
    ensures desk { IsDesk task.now.translation.now.plan task.now.packing task.now.form task.now.rows task.now.step
        desk.new.room.items desk.new.block desk.new.records.items desk.new.packed.items }
    ensures ready { AreLanesReady F.Folder S.told S.cat desk.new.view task.now.translation.now.cat
        reader.new.team.lanes.items }
    ensures room { IsRoomFor task.now.translation.now.cat task.now.translation.now.id task.now.translation.now.plan
        reader.new.columns reader.new.samples.items }
    ensures names { F.names desk.new.view ≡ F.names desk.old.view }
    ensures ends { MayEnd S.told (F.faults desk.old.view) (F.faults desk.new.view) 0 0 result }
    ensures changed { IfErr result (TellsChange task.now.translation.now.cat) }
{
    if portion.is_empty() {
        return Ok(());
    }
    make_all_bands(rt, task, reader, desk, portion)
}
