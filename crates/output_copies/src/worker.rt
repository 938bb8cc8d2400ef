// Workers that make packed blocks of an output, lines or columns, beside each other.
ghost use Rattle.std.specs.Prelude.{◌≡◌, ◌<◌, ◌≤◌, ◌+◌, IfErr, IfOk, OnOk, length, true};
ghost use Rattle.std.specs.List.{All};
ghost use Rattle.outside.specs.Causes.{Rose};
ghost use Rattle.outside.specs.Reading.{WhereTold};
ghost use Rattle.catalog.specs.Walk.{IsWalked};
ghost use Rattle.band_blocks.specs.Blocks.{most_blocks, written, BlockView};
ghost use Rattle.lane_teams.specs.Ready.{AreLanesFresh};
ghost use Rattle.strip_copies.specs.Copies.{IsRoomFor, IsTranslation};
ghost use Rattle.write_back.specs.Forms.{cut_of, AreHeld};
ghost use Rattle.write_back.specs.Packed.{block_len, in_bytes, IsBlockOf, IsLined};
ghost use Rattle.output_copies.specs.Packed.{records_in, room_in, AreDone, IsBlockFor, IsDesk, IsTask, IsWorker};
ghost use Rattle.output_copies.specs.Packed.{MayAnswer, MayAnswerByViews};

use crate::band_lines::area;
use band_blocks::Block;
use error_lines::Fault;
use geotransform::{PixelType, Sample};
use lane_teams::{Team, WorkerCount};
use nearest_window::Lane;
use outside::Folder;
use shared_lines::Scene;
use std::alloc::{AllocError, AllocFailed, Global};
use std::marker::{Brand, Model};
use std::mem;
use std::sync::ledger::{Blank, Ledger};
use strip_copies::{Columns, Form, StripReader, Translation};
use write_back::Packing;

/// The bytes of a block of an output, a line of a band or a column.
#[derive(Drop)]
pub struct PackedBlock {
    bytes: Vec<u8>,
}

impl Model for PackedBlock {
    ghost use Rattle.std.specs.Prelude.{ℕ, List, vec_items};

    ghost Value = { List ℕ };

    ghost view = { λ block. vec_items block.bytes };
}

impl PackedBlock {
    // Room for so many bytes.
    fn new(alloc: Global, len: usize) -> Result<PackedBlock, AllocError>
        ensures len { IfOk result (λ block. length block ≡ len) }
    {
        let bytes = vec![in alloc; 0u8; len]?;
        Ok(PackedBlock { bytes })
    }

    /// Packs a line's samples, through a block.
    pub fn pack(&mut self, packing: &Packing, samples: &[Sample], block: &mut Block)
        requires lined { IsLined packing.now }
        requires block { IsBlockFor packing.now block.old }
        requires size { length samples.now ≡ (cut_of packing.now).spots }
        requires range { AreHeld packing.now samples.now }
        requires bytes { length self.old ≡ block_len packing.now }
        ensures packed { in_bytes packing.now self.new ≡ samples.now }
        ensures len { length self.new ≡ length self.old }
        ensures block { IsBlockFor packing.now block.new }
    {
        let bytes = self.bytes.as_mut_slice();
        packing.pack(samples, block, bytes);
    }

    /// Packs some samples of a line, of which the first stands in this column, through a block. The others stay.
    pub fn pack_piece(&mut self, packing: &Packing, x: u32, samples: &[Sample], block: &mut Block)
        requires lined { IsLined packing.now }
        requires block { IsBlockFor packing.now block.old }
        requires within { x + length samples.now ≤ (cut_of packing.now).spots }
        requires range { AreHeld packing.now samples.now }
        requires bytes { length self.old ≡ block_len packing.now }
        ensures packed { in_bytes packing.now self.new ≡ written x samples.now (in_bytes packing.now self.old) }
        ensures len { length self.new ≡ length self.old }
        ensures block { IsBlockFor packing.now block.new }
    {
        let bytes = self.bytes.as_mut_slice();
        packing.pack_piece(x, samples, block, bytes);
    }

    /// Packs a column.
    pub fn pack_column(&mut self, packing: &Packing, x: u32, column: &Block)
        requires columns { (cut_of packing.now).by_columns ≡ true }
        requires column { x < (cut_of packing.now).blocks }
        requires block { IsBlockFor packing.now column.now }
        requires range { AreHeld packing.now column.now.samples }
        requires bytes { length self.old ≡ block_len packing.now }
        ensures packed { in_bytes packing.now self.new ≡ column.now.samples }
        ensures whole { IsBlockOf packing.now x self.new }
        ensures len { length self.new ≡ length self.old }
    {
        let bytes = self.bytes.as_mut_slice();
        packing.pack_column(x, column, bytes);
    }

    /// The bytes.
    pub fn bytes(&self) -> &[u8]
        ensures bytes { result.now ≡ self.now }
    {
        self.bytes.as_slice()
    }
}

/// Where a worker makes blocks: its view of the folder, room for samples that are read at once, a block through which
/// lines are packed, blocks of columns, where columns are made, and the packed blocks of a portion, of each line those
/// of its bands.
pub struct Desk<F: Folder> {
    pub view: F,
    pub room: Vec<Sample>,
    pub block: Block,
    pub records: Vec<Block>,
    pub packed: Vec<PackedBlock>,
}

/// A worker: its lane, the columns of the source that are read, room for lines of them, its desk, and what it answered.
pub struct Worker<F: Folder> {
    pub lanes: Vec<Lane<F>>,
    pub columns: Columns,
    pub samples: Vec<Sample>,
    pub desk: Desk<F>,
    pub answer: Result<(), Fault>,
}

/// What workers make: lines of a translation's output, or columns, packed so; how many of them each worker makes at a
/// time, and how much of these it reads at once; how many workers there are; the lines that their lanes share, if there
/// are any; and whether nothing is told.
#[derive(Drop)]
pub struct Task<'a, 'b, S: Scene> {
    pub translation: &'a Translation,
    pub packing: Packing,
    pub form: Form,
    pub rows: u32,
    pub step: u32,
    pub workers: WorkerCount,
    pub shared: Option<&'b shared_lines::Lines<S>>,
    pub quiet: bool,
}

/// Room for so many packed blocks, each of so many bytes.
pub fn packed_room(alloc: Global, count: usize, len: usize) -> Result<Vec<PackedBlock>, AllocError>
    ensures count { IfOk result (λ packed. length packed.items ≡ count) }
    ensures each { IfOk result (λ packed. All (λ bytes. length bytes ≡ len) packed.items) }
{
    let mut packed = Vec::new(alloc);
    for _at in 0..count {
        let block = PackedBlock::new(alloc, len)?;
        packed.push(block)?;
    }
    Ok(packed)
}

// So many blocks of a type and a length.
fn block_room(
    alloc: Global,
    count: u32,
    kind: PixelType,
    len: u32,
) -> Result<Vec<Block>, AllocError>
    ensures count { IfOk result (λ blocks. length blocks.items ≡ count) }
    ensures each { IfOk result (λ blocks. All (λ (block : BlockView). (block.kind ≡ kind) ×
        (length block.samples ≡ len)) blocks.items) }
{
    let mut blocks = Vec::new(alloc);
    for _at in 0..count {
        let block = Block::new(alloc, kind, len)?;
        blocks.push(block)?;
    }
    Ok(blocks)
}

// What a worker reads with, but for the count of its loads.
#[derive(Drop)]
struct Kit<F: Folder> {
    lanes: Vec<Lane<F>>,
    columns: Columns,
    samples: Vec<Sample>,
}

// A lane of one of so many workers, and room for what it reads. Nobody counts its loads.
fn kit_for<F: Folder, L: Ledger>(
    translation: &Translation,
    workers: WorkerCount,
    blocks: u32,
    blank: Blank,
) -> Result<Kit<F>, AllocError>
    requires translation { IsTranslation translation.now.cat translation.now.id translation.now.plan }
    requires some { 1 ≤ blocks }
    requires few { blocks ≤ most_blocks }
    requires name { blank.name ≡ L.name }
    requires parts { blank.parts ≡ L.parts }
    requires shares { 0 < blank.parts }
    ensures fresh { IfOk result (λ kit. AreLanesFresh F.Folder kit.lanes.items) }
    ensures room { IfOk result (λ kit. IsRoomFor translation.now.cat translation.now.id translation.now.plan kit.columns
        kit.samples.items) }
{
    let reader: StripReader<F, L> = StripReader::new(
        translation,
        WorkerCount::USUAL,
        workers,
        blocks,
        blank,
    )?;
    let StripReader {
        team,
        columns,
        samples,
    } = reader;
    let Team { lanes, loads } = team;
    drop(loads);
    Ok(Kit {
        lanes,
        columns,
        samples,
    })
}

// What a desk has but for the view.
#[derive(Drop)]
struct Rooms {
    room: Vec<Sample>,
    block: Block,
    records: Vec<Block>,
    packed: Vec<PackedBlock>,
}

// How many samples a worker has room for at once.
fn room_len<S: Scene>(task: &Task<S>) -> usize
    ensures len { result ≡ room_in task.now.form task.now.translation.now.plan task.now.rows task.now.step }
{
    let plan = &task.translation.plan;
    match task.form {
        Form::Lines => area(plan.size.w, task.step),
        Form::Pieces => area(task.step, task.rows),
        Form::Records => area(task.rows, task.step),
    }
}

// How many columns a worker makes at once.
fn record_count<S: Scene>(task: &Task<S>) -> u32
    ensures count { result ≡ records_in task.now.form task.now.rows }
{
    match task.form {
        Form::Lines => 0,
        Form::Pieces => 0,
        Form::Records => task.rows,
    }
}

/// How many blocks of each band an output has: its columns, or its lines.
pub fn extent_of<S: Scene>(task: &Task<S>) -> u32
    requires task { IsTask task.now.translation.now.cat task.now.translation.now.id task.now.translation.now.plan
        task.now.packing task.now.form task.now.rows task.now.step }
    ensures extent { result ≡ (cut_of task.now.packing).blocks }
    ensures some { 1 ≤ result }
{
    // This call is made for the proof: it says what every plan keeps.
    task.translation.plan.rules();
    task.packing.blocks()
}

// What a worker needs besides a view: room for samples, a block for a line, blocks for columns, and room for packed
// blocks.
fn desk_rooms<S: Scene>(task: &Task<S>) -> Result<Rooms, AllocError>
    requires task { IsTask task.now.translation.now.cat task.now.translation.now.id task.now.translation.now.plan
        task.now.packing task.now.form task.now.rows task.now.step }
    ensures desk { IfOk result (λ d. IsDesk task.now.translation.now.plan task.now.packing task.now.form task.now.rows
        task.now.step d.room.items d.block d.records.items d.packed.items) }
{
    let alloc = task.translation.alloc;
    let plan = &task.translation.plan;
    let kind = task.packing.kind();
    let spots = task.packing.spots();
    let size = room_len(task);
    let room = vec![in alloc; 0; size]?;
    let block = Block::new(alloc, kind, spots)?;
    let columns = record_count(task);
    let records = block_room(alloc, columns, kind, spots)?;
    let count = area(task.rows, plan.count());
    let len = task.packing.block_len();
    let packed = packed_room(alloc, count, len)?;
    Ok(Rooms {
        room,
        block,
        records,
        packed,
    })
}

// A worker with a view of the folder.
fn hire_one<F: Folder, S: Scene>(
    task: &Task<S>,
    folder: &F,
    blocks: u32,
) -> Result<Worker<F>, AllocError>
    requires task { IsTask task.now.translation.now.cat task.now.translation.now.id task.now.translation.now.plan
        task.now.packing task.now.form task.now.rows task.now.step }
    requires walked { WhereTold F.Folder folder.now (λ m. IsWalked m task.now.translation.now.cat) }
    requires told { S.told ≡ F.names folder.now }
    requires scene { S.cat ≡ task.now.translation.now.cat }
    requires some { 1 ≤ blocks }
    requires few { blocks ≤ most_blocks }
    ensures worker { IfOk result (IsWorker F.Folder S.told S.cat task.now.translation.now.cat
        task.now.translation.now.id task.now.translation.now.plan task.now.packing task.now.form task.now.rows
        task.now.step) }
{
    let kit = kit_for::<F, Brand>(task.translation, task.workers, blocks, Blank::new(1))?;
    let rooms = desk_rooms(task)?;
    let view = folder.fork()?;
    let Kit {
        lanes,
        columns,
        samples,
    } = kit;
    let Rooms {
        room,
        block,
        records,
        packed,
    } = rooms;
    let desk = Desk {
        view,
        room,
        block,
        records,
        packed,
    };
    Ok(Worker {
        lanes,
        columns,
        samples,
        desk,
        answer: Ok(()),
    })
}

// Ends a view: the folder's count takes its failed calls over.
fn end_view<F: Folder>(folder: &mut F, view: F)
    ensures names { F.names folder.new ≡ F.names folder.old }
    ensures later { F.faults folder.old ≤ F.faults folder.new }
    ensures rose { 1 ≤ F.faults view → Rose (F.faults folder.old) (F.faults folder.new) }
{
    folder.absorb(view);
}

// Ends a worker's view, behind what it made.
fn dismiss_one<F: Folder>(folder: &mut F, worker: Worker<F>)
    ensures names { F.names folder.new ≡ F.names folder.old }
    ensures later { F.faults folder.old ≤ F.faults folder.new }
{
    let Worker {
        lanes,
        columns,
        samples,
        desk,
        answer,
    } = worker;
    drop((lanes, columns, samples, answer));
    let Desk {
        view,
        room,
        block,
        records,
        packed,
    } = desk;
    drop((room, block, records, packed));
    end_view(folder, view);
}

/// Ends the views of all workers.
pub fn dismiss<F: Folder>(folder: &mut F, workers: Vec<Worker<F>>)
    ensures names { F.names folder.new ≡ F.names folder.old }
    ensures later { F.faults folder.old ≤ F.faults folder.new }
{
    let mut workers = workers;
    while let Some(worker) = workers.pop() {
        dismiss_one(folder, worker);
    }
    workers.destroy_empty();
}

// Ends a worker's view, and gives it another one. Where memory is refused, it keeps its own.
fn renew_one<F: Folder, S: Scene>(
    task: &Task<S>,
    folder: &mut F,
    worker: &mut Worker<F>,
) -> Result<(), Fault>
    requires told { S.told ≡ F.names folder.old }
    requires worker { IsWorker F.Folder S.told S.cat task.now.translation.now.cat task.now.translation.now.id
        task.now.translation.now.plan task.now.packing task.now.form task.now.rows task.now.step worker.old }
    ensures worker { IsWorker F.Folder S.told S.cat task.now.translation.now.cat task.now.translation.now.id
        task.now.translation.now.plan task.now.packing task.now.form task.now.rows task.now.step worker.new }
    ensures packed { worker.new.desk.packed ≡ worker.old.desk.packed }
    ensures answer { worker.new.answer ≡ worker.old.answer }
    ensures names { F.names folder.new ≡ F.names folder.old }
    ensures later { F.faults folder.old ≤ F.faults folder.new }
    ensures rose { OnOk result (1 ≤ F.faults worker.old.desk.view → Rose (F.faults folder.old) (F.faults folder.new)) }
    ensures memory { IfErr result (λ f. f ≡ Fault.Memory) }
{
    // The clauses name it.
    let _ = task;
    let Ok(view) = folder.fork() else {
        return Err(Fault::Memory);
    };
    let desk = &mut worker.desk;
    let used = mem::replace(&mut desk.view, view);
    end_view(folder, used);
    Ok(())
}

/// Ends the views of all workers, which have made their lines of those from one on, and gives them others.
pub fn renew<F: Folder, S: Scene>(
    task: &Task<S>,
    folder: &mut F,
    first: u32,
    workers: &mut [Worker<F>],
) -> Result<(), Fault>
    requires told { S.told ≡ F.names folder.old }
    requires done { AreDone F.Folder S.told S.cat task.now.translation.now.cat task.now.translation.now.id
        task.now.translation.now.plan task.now.packing task.now.form task.now.rows task.now.step first workers.old }
    requires views { MayAnswerByViews S.told F.Folder workers.old }
    ensures done { AreDone F.Folder S.told S.cat task.now.translation.now.cat task.now.translation.now.id
        task.now.translation.now.plan task.now.packing task.now.form task.now.rows task.now.step first workers.new }
    ensures answers { OnOk result (MayAnswer S.told (F.faults folder.old) (F.faults folder.new) workers.new) }
    ensures names { F.names folder.new ≡ F.names folder.old }
    ensures later { F.faults folder.old ≤ F.faults folder.new }
    ensures memory { IfErr result (λ f. f ≡ Fault.Memory) }
{
    // The clauses name it.
    let _ = first;
    let count = workers.len();
    for at in 0..count {
        renew_one(task, folder, &mut workers[at])?;
    }
    Ok(())
}

/// So many workers, each with a view of the folder and with a lane that holds so many blocks. Where memory is refused
/// there is none.
pub fn hire<F: Folder, S: Scene>(
    task: &Task<S>,
    folder: &mut F,
    count: u32,
    blocks: u32,
) -> Result<Vec<Worker<F>>, Fault>
    requires task { IsTask task.now.translation.now.cat task.now.translation.now.id task.now.translation.now.plan
        task.now.packing task.now.form task.now.rows task.now.step }
    requires walked { WhereTold F.Folder folder.old (λ m. IsWalked m task.now.translation.now.cat) }
    requires told { S.told ≡ F.names folder.old }
    requires scene { S.cat ≡ task.now.translation.now.cat }
    requires some { 1 ≤ blocks }
    requires few { blocks ≤ most_blocks }
    ensures count { IfOk result (λ workers. length workers.items ≡ count) }
    ensures workers { IfOk result (λ workers. All (IsWorker F.Folder S.told S.cat task.now.translation.now.cat
        task.now.translation.now.id task.now.translation.now.plan task.now.packing task.now.form task.now.rows
        task.now.step)
        workers.items) }
    ensures names { F.names folder.new ≡ F.names folder.old }
    ensures later { F.faults folder.old ≤ F.faults folder.new }
    ensures memory { IfErr result (λ f. f ≡ Fault.Memory) }
{
    let mut workers = Vec::new(task.translation.alloc);
    for _at in 0..count {
        let Ok(worker) = hire_one(task, folder, blocks) else {
            dismiss(folder, workers);
            return Err(Fault::Memory);
        };
        if let Err(failed) = workers.push(worker) {
            let AllocFailed { value } = failed;
            dismiss_one(folder, value);
            dismiss(folder, workers);
            return Err(Fault::Memory);
        }
    }
    Ok(workers)
}
