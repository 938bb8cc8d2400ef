// Packed blocks of an output, lines or columns, written in their order.
ghost use Rattle.std.specs.Prelude.{◌≡◌, ◌<◌, ◌≤◌, ◌+◌, ◌*◌, [], ℕ, IfErr, OnOk, false, length, true};
ghost use Rattle.std.specs.List.{All};
ghost use Rattle.write_back.specs.Forms.{cut_of};
ghost use Rattle.write_back.specs.Packed.{block_len};
ghost use Rattle.lane_teams.specs.Workers.{most_workers};
ghost use Rattle.output_copies.specs.Copying.{MayEnd, TellsChange};
ghost use Rattle.output_copies.specs.Filled.{IsFilled};
ghost use Rattle.output_copies.specs.Packed.{top_of, AreBlocksWritten, AreColumnsWritten, AreMade, HasRoom, IsPackedAt};
ghost use Rattle.output_copies.specs.Packed.{IsTask, MayTell, WasMade, WereMade};

use crate::handing::Made;
use crate::portion::{Portion, place_of, portion_of};
use crate::worker::{PackedBlock, Task, extent_of};
use error_lines::Fault;
use outside::{Counter, Folder};
use shared_lines::Scene;
use std::mem;
use std::sync::ledger::Ledger;
use write_back::Target;

// Writes a line of a band.
fn write_line<F: Folder, W: Ledger, S: Scene>(
    task: &Task<S>,
    folder: &mut F,
    target: &mut Target<F>,
    band: u32,
    y: u32,
    line: &PackedBlock,
    writes: &mut Counter<W>,
) -> Result<(), Fault>
    requires task { IsTask task.now.translation.now.cat task.now.translation.now.id task.now.translation.now.plan
        task.now.packing task.now.form task.now.rows task.now.step }
    requires lines { (cut_of task.now.packing).by_columns ≡ false }
    requires band { band < length task.now.translation.now.plan.bands }
    requires line { y < task.now.translation.now.plan.size.h }
    requires bytes { IsPackedAt (F.names folder.old) task.now.translation.now.cat task.now.translation.now.id
        task.now.translation.now.plan task.now.packing band y line.now }
    requires long { length line.now ≡ block_len task.now.packing }
    requires filled { IsFilled (F.names folder.old) task.now.translation.now.cat task.now.translation.now.id
        task.now.translation.now.plan target.old y (y + 1) band }
    requires empty { target.old.pool.entries ≡ [] }
    ensures filled { OnOk result (IsFilled (F.names folder.new) task.now.translation.now.cat
        task.now.translation.now.id task.now.translation.now.plan target.new y (y + 1) (band + 1)) }
    ensures empty { target.new.pool.entries ≡ [] }
    ensures name { target.new.name ≡ target.old.name }
    ensures names { F.names folder.new ≡ F.names folder.old }
    ensures ends { MayEnd (F.names folder.old) (F.faults folder.old) (F.faults folder.new) 0 0 result }
    ensures changed { IfErr result (TellsChange task.now.translation.now.cat) }
{
    // This call is made for the proof: it says what every plan keeps.
    task.translation.plan.rules();
    target.write_packed(folder, band, y, line.bytes(), writes)?;
    Ok(())
}

// Writes a column.
fn write_column<F: Folder, W: Ledger, S: Scene>(
    task: &Task<S>,
    folder: &mut F,
    target: &mut Target<F>,
    x: u32,
    column: &PackedBlock,
    writes: &mut Counter<W>,
) -> Result<(), Fault>
    requires task { IsTask task.now.translation.now.cat task.now.translation.now.id task.now.translation.now.plan
        task.now.packing task.now.form task.now.rows task.now.step }
    requires columns { (cut_of task.now.packing).by_columns ≡ true }
    requires column { x < (cut_of task.now.packing).blocks }
    requires bytes { IsPackedAt (F.names folder.old) task.now.translation.now.cat task.now.translation.now.id
        task.now.translation.now.plan task.now.packing 0 x column.now }
    requires long { length column.now ≡ block_len task.now.packing }
    requires written { AreColumnsWritten (F.names folder.old) task.now.translation.now.cat task.now.translation.now.id
        task.now.translation.now.plan task.now.packing target.old x }
    requires empty { target.old.pool.entries ≡ [] }
    ensures written { OnOk result (AreColumnsWritten (F.names folder.new) task.now.translation.now.cat
        task.now.translation.now.id task.now.translation.now.plan task.now.packing target.new (x + 1)) }
    ensures empty { target.new.pool.entries ≡ [] }
    ensures name { target.new.name ≡ target.old.name }
    ensures names { F.names folder.new ≡ F.names folder.old }
    ensures ends { MayEnd (F.names folder.old) (F.faults folder.old) (F.faults folder.new) 0 0 result }
    ensures changed { IfErr result (TellsChange task.now.translation.now.cat) }
{
    // This call is made for the proof: it says what every plan keeps.
    task.translation.plan.rules();
    target.write_packed(folder, 0, x, column.bytes(), writes)?;
    Ok(())
}

// Writes a line of all bands, packed in a portion that begins at `top`.
fn write_bands<F: Folder, W: Ledger, S: Scene>(
    task: &Task<S>,
    folder: &mut F,
    target: &mut Target<F>,
    top: u32,
    y: u32,
    packed: &[PackedBlock],
    writes: &mut Counter<W>,
) -> Result<(), Fault>
    requires task { IsTask task.now.translation.now.cat task.now.translation.now.id task.now.translation.now.plan
        task.now.packing task.now.form task.now.rows task.now.step }
    requires lines { (cut_of task.now.packing).by_columns ≡ false }
    requires top { top ≤ y }
    requires few { y < top + task.now.rows }
    requires line { y < task.now.translation.now.plan.size.h }
    requires long { length packed.now ≡ task.now.rows * length task.now.translation.now.plan.bands }
    requires each { All (λ line. length line ≡ block_len task.now.packing) packed.now }
    requires made { AreMade (F.names folder.old) task.now.translation.now.cat task.now.translation.now.id
        task.now.translation.now.plan task.now.packing top packed.now (y + 1) (y + 1) 0 }
    requires filled { IsFilled (F.names folder.old) task.now.translation.now.cat task.now.translation.now.id
        task.now.translation.now.plan target.old y y 0 }
    requires empty { target.old.pool.entries ≡ [] }
    ensures filled { OnOk result (IsFilled (F.names folder.new) task.now.translation.now.cat
        task.now.translation.now.id task.now.translation.now.plan target.new (y + 1) (y + 1) 0) }
    ensures empty { target.new.pool.entries ≡ [] }
    ensures name { target.new.name ≡ target.old.name }
    ensures names { F.names folder.new ≡ F.names folder.old }
    ensures ends { MayEnd (F.names folder.old) (F.faults folder.old) (F.faults folder.new) 0 0 result }
    ensures changed { IfErr result (TellsChange task.now.translation.now.cat) }
{
    let plan = &task.translation.plan;
    plan.rules();
    let bands = plan.count();
    for band in 0..bands {
        let place = place_of(bands, band, y - top);
        let line = &packed[place];
        write_line(task, folder, target, band, y, line, writes)?;
    }
    Ok(())
}

// Writes a block of all bands, a line or a column, packed in a portion that begins at `top`.
fn write_block<F: Folder, W: Ledger, S: Scene>(
    task: &Task<S>,
    folder: &mut F,
    target: &mut Target<F>,
    top: u32,
    block: u32,
    packed: &[PackedBlock],
    writes: &mut Counter<W>,
) -> Result<(), Fault>
    requires task { IsTask task.now.translation.now.cat task.now.translation.now.id task.now.translation.now.plan
        task.now.packing task.now.form task.now.rows task.now.step }
    requires top { top ≤ block }
    requires few { block < top + task.now.rows }
    requires block { block < (cut_of task.now.packing).blocks }
    requires long { length packed.now ≡ task.now.rows * length task.now.translation.now.plan.bands }
    requires each { All (λ bytes. length bytes ≡ block_len task.now.packing) packed.now }
    requires made { AreMade (F.names folder.old) task.now.translation.now.cat task.now.translation.now.id
        task.now.translation.now.plan task.now.packing top packed.now (block + 1) (block + 1) 0 }
    requires written { AreBlocksWritten (F.names folder.old) task.now.translation.now.cat task.now.translation.now.id
        task.now.translation.now.plan task.now.packing (cut_of task.now.packing).by_columns target.old block }
    requires empty { target.old.pool.entries ≡ [] }
    ensures written { OnOk result (AreBlocksWritten (F.names folder.new) task.now.translation.now.cat
        task.now.translation.now.id task.now.translation.now.plan task.now.packing
        (cut_of task.now.packing).by_columns target.new (block + 1)) }
    ensures empty { target.new.pool.entries ≡ [] }
    ensures name { target.new.name ≡ target.old.name }
    ensures names { F.names folder.new ≡ F.names folder.old }
    ensures ends { MayEnd (F.names folder.old) (F.faults folder.old) (F.faults folder.new) 0 0 result }
    ensures changed { IfErr result (TellsChange task.now.translation.now.cat) }
{
    let plan = &task.translation.plan;
    plan.rules();
    if task.packing.by_columns() {
        let place = place_of(plan.count(), 0, block - top);
        let column = &packed[place];
        return write_column(task, folder, target, block, column, writes);
    }
    write_bands(task, folder, target, top, block, packed, writes)
}

// Writes the blocks of a portion.
fn write_portion<F: Folder, W: Ledger, S: Scene>(
    task: &Task<S>,
    folder: &mut F,
    target: &mut Target<F>,
    portion: Portion,
    packed: &[PackedBlock],
    writes: &mut Counter<W>,
) -> Result<(), Fault>
    requires task { IsTask task.now.translation.now.cat task.now.translation.now.id task.now.translation.now.plan
        task.now.packing task.now.form task.now.rows task.now.step }
    requires order { portion.top ≤ portion.end }
    requires few { portion.end ≤ portion.top + task.now.rows }
    requires end { portion.end ≤ (cut_of task.now.packing).blocks }
    requires long { length packed.now ≡ task.now.rows * length task.now.translation.now.plan.bands }
    requires each { All (λ line. length line ≡ block_len task.now.packing) packed.now }
    requires made { AreMade (F.names folder.old) task.now.translation.now.cat task.now.translation.now.id
        task.now.translation.now.plan task.now.packing portion.top packed.now portion.end portion.end 0 }
    requires written { AreBlocksWritten (F.names folder.old) task.now.translation.now.cat task.now.translation.now.id
        task.now.translation.now.plan task.now.packing (cut_of task.now.packing).by_columns target.old portion.top }
    requires empty { target.old.pool.entries ≡ [] }
    ensures written { OnOk result (AreBlocksWritten (F.names folder.new) task.now.translation.now.cat
        task.now.translation.now.id task.now.translation.now.plan task.now.packing
        (cut_of task.now.packing).by_columns target.new portion.end) }
    ensures empty { target.new.pool.entries ≡ [] }
    ensures name { target.new.name ≡ target.old.name }
    ensures names { F.names folder.new ≡ F.names folder.old }
    ensures ends { MayEnd (F.names folder.old) (F.faults folder.old) (F.faults folder.new) 0 0 result }
    ensures changed { IfErr result (TellsChange task.now.translation.now.cat) }
{
    for block in portion.top..portion.end {
        write_block(task, folder, target, portion.top, block, packed, writes)?;
    }
    Ok(())
}

// Writes what a worker made, or answers its refusal.
fn write_made<F: Folder, W: Ledger, S: Scene>(
    task: &Task<S>,
    folder: &mut F,
    target: &mut Target<F>,
    portion: Portion,
    made: &mut Made,
    writes: &mut Counter<W>,
) -> Result<(), Fault>
    requires task { IsTask task.now.translation.now.cat task.now.translation.now.id task.now.translation.now.plan
        task.now.packing task.now.form task.now.rows task.now.step }
    requires order { portion.top ≤ portion.end }
    requires few { portion.end ≤ portion.top + task.now.rows }
    requires end { portion.end ≤ (cut_of task.now.packing).blocks }
    requires told { S.told ≡ F.names folder.old }
    requires made { WasMade S.told task.now.translation.now.cat task.now.translation.now.id
        task.now.translation.now.plan task.now.packing task.now.rows portion.top portion.end made.old }
    requires written { AreBlocksWritten (F.names folder.old) task.now.translation.now.cat task.now.translation.now.id
        task.now.translation.now.plan task.now.packing (cut_of task.now.packing).by_columns target.old portion.top }
    requires empty { target.old.pool.entries ≡ [] }
    ensures written { OnOk result (AreBlocksWritten (F.names folder.new) task.now.translation.now.cat
        task.now.translation.now.id task.now.translation.now.plan task.now.packing
        (cut_of task.now.packing).by_columns target.new portion.end) }
    ensures empty { target.new.pool.entries ≡ [] }
    ensures room { HasRoom task.now.translation.now.plan task.now.packing task.now.rows made.new }
    ensures name { target.new.name ≡ target.old.name }
    ensures names { F.names folder.new ≡ F.names folder.old }
    ensures later { F.faults folder.old ≤ F.faults folder.new }
    ensures ends { (before : ℕ) → MayEnd S.told before (F.faults folder.old) 0 0 made.old.answer →
        MayEnd (F.names folder.old) before (F.faults folder.new) 0 0 result }
    ensures changed { IfErr result (TellsChange task.now.translation.now.cat) }
{
    let answer = mem::replace(&mut made.answer, Ok(()));
    answer?;
    let packed = made.packed.as_slice();
    write_portion(task, folder, target, portion, packed, writes)
}

/// Writes what each worker made of the blocks from one on, in their order. The first refusal among them is answered.
pub fn write_all<F: Folder, W: Ledger, S: Scene>(
    task: &Task<S>,
    folder: &mut F,
    target: &mut Target<F>,
    first: u32,
    made: &mut [Made],
    writes: &mut Counter<W>,
) -> Result<(), Fault>
    requires task { IsTask task.now.translation.now.cat task.now.translation.now.id task.now.translation.now.plan
        task.now.packing task.now.form task.now.rows task.now.step }
    requires few { length made.old ≤ most_workers }
    requires first { first ≤ (cut_of task.now.packing).blocks }
    requires told { S.told ≡ F.names folder.old }
    requires made { WereMade S.told task.now.translation.now.cat task.now.translation.now.id
        task.now.translation.now.plan task.now.packing task.now.rows first made.old }
    requires written { AreBlocksWritten (F.names folder.old) task.now.translation.now.cat task.now.translation.now.id
        task.now.translation.now.plan task.now.packing (cut_of task.now.packing).by_columns target.old first }
    requires empty { target.old.pool.entries ≡ [] }
    ensures written { OnOk result (AreBlocksWritten (F.names folder.new) task.now.translation.now.cat
        task.now.translation.now.id task.now.translation.now.plan task.now.packing
        (cut_of task.now.packing).by_columns target.new
        (top_of (cut_of task.now.packing).blocks task.now.rows first (length made.old))) }
    ensures empty { target.new.pool.entries ≡ [] }
    ensures rooms { All (HasRoom task.now.translation.now.plan task.now.packing task.now.rows) made.new }
    ensures name { target.new.name ≡ target.old.name }
    ensures names { F.names folder.new ≡ F.names folder.old }
    ensures later { F.faults folder.old ≤ F.faults folder.new }
    ensures ends { (before : ℕ) → before ≤ F.faults folder.old →
        MayTell S.told before (F.faults folder.old) made.old →
        MayEnd (F.names folder.old) before (F.faults folder.new) 0 0 result }
    ensures changed { IfErr result (TellsChange task.now.translation.now.cat) }
{
    let extent = extent_of(task);
    let count = made.len();
    for at in 0..count {
        let portion = portion_of(extent, task.rows, first, at);
        write_made(task, folder, target, portion, &mut made[at], writes)?;
    }
    Ok(())
}
