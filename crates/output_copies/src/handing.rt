// What workers made, handed over to the thread that writes it.
ghost use Rattle.std.specs.Prelude.{◌≡◌, ◌*◌, ℕ, IfOk, false, length, true};
ghost use Rattle.std.specs.List.{All};
ghost use Rattle.output_copies.specs.Packed.{AreDone, HasDone, HasRoom, IsTask, IsWorker, MayAnswer, MayTell, WasMade};
ghost use Rattle.output_copies.specs.Packed.{WereMade};

use crate::band_lines::area;
use crate::worker::{PackedBlock, Task, Worker, packed_room};
use error_lines::Fault;
use outside::Folder;
use shared_lines::Scene;
use std::alloc::AllocError;
use std::mem;

/// What a worker made: the packed blocks of a portion, of each line those of its bands, or its refusal.
#[derive(Drop)]
pub struct Made {
    pub packed: Vec<PackedBlock>,
    pub answer: Result<(), Fault>,
}

// How many packed blocks there is room for: those of a portion, where other portions are made meanwhile.
fn block_count<S: Scene>(task: &Task<S>, others: bool) -> usize
    ensures count { others ≡ true → result ≡ task.now.rows * length task.now.translation.now.plan.bands }
    ensures none { others ≡ false → result ≡ 0 }
{
    if others {
        area(task.rows, task.translation.plan.count())
    } else {
        0
    }
}

// Room for what a worker made.
fn made_room<S: Scene>(task: &Task<S>, others: bool) -> Result<Made, AllocError>
    ensures room { others ≡ true →
        IfOk result (HasRoom task.now.translation.now.plan task.now.packing task.now.rows) }
{
    let count = block_count(task, others);
    let len = task.packing.block_len();
    let packed = packed_room(task.translation.alloc, count, len)?;
    let answer = Ok(());
    Ok(Made { packed, answer })
}

/// Room for what so many workers made, with packed blocks where they make others meanwhile.
pub fn made_rooms<S: Scene>(
    task: &Task<S>,
    count: u32,
    others: bool,
) -> Result<Vec<Made>, AllocError>
    ensures count { IfOk result (λ made. length made.items ≡ count) }
    ensures rooms { others ≡ true →
        IfOk result (λ made. All (HasRoom task.now.translation.now.plan task.now.packing task.now.rows) made.items) }
{
    let mut made = Vec::new(task.translation.alloc);
    for _at in 0..count {
        let room = made_room(task, others)?;
        made.push(room)?;
    }
    Ok(made)
}

// Takes what a worker made, and gives it the room of what was made before.
fn take_from<F: Folder, S: Scene>(task: &Task<S>, worker: &mut Worker<F>, made: &mut Made)
    ensures made { (top end : ℕ) → HasDone F.Folder S.told S.cat task.now.translation.now.cat
        task.now.translation.now.id task.now.translation.now.plan task.now.packing task.now.form task.now.rows
        task.now.step top end worker.old →
        WasMade S.told task.now.translation.now.cat task.now.translation.now.id task.now.translation.now.plan
        task.now.packing task.now.rows top end made.new }
    ensures answer { made.new.answer ≡ worker.old.answer }
    ensures worker { HasRoom task.now.translation.now.plan task.now.packing task.now.rows made.old →
        IsWorker F.Folder S.told S.cat task.now.translation.now.cat task.now.translation.now.id
        task.now.translation.now.plan task.now.packing task.now.form task.now.rows task.now.step worker.old →
        IsWorker F.Folder S.told S.cat task.now.translation.now.cat task.now.translation.now.id
        task.now.translation.now.plan task.now.packing task.now.form task.now.rows task.now.step worker.new }
{
    // The clauses name it.
    let _ = task;
    let desk = &mut worker.desk;
    mem::swap(&mut desk.packed, &mut made.packed);
    made.answer = mem::replace(&mut worker.answer, Ok(()));
}

/// Takes what each worker made of the blocks from one on. Each may make others, where there was room for that.
pub fn hand_over<F: Folder, S: Scene>(
    task: &Task<S>,
    first: u32,
    workers: &mut [Worker<F>],
    made: &mut [Made],
)
    requires count { length made.old ≡ length workers.old }
    requires done { AreDone F.Folder S.told S.cat task.now.translation.now.cat task.now.translation.now.id
        task.now.translation.now.plan task.now.packing task.now.form task.now.rows task.now.step first workers.old }
    ensures made { WereMade S.told task.now.translation.now.cat task.now.translation.now.id
        task.now.translation.now.plan task.now.packing task.now.rows first made.new }
    ensures answers { (before now : ℕ) → MayAnswer S.told before now workers.old → MayTell S.told before now made.new }
    ensures workers { All (HasRoom task.now.translation.now.plan task.now.packing task.now.rows) made.old →
        All (IsWorker F.Folder S.told S.cat task.now.translation.now.cat task.now.translation.now.id
        task.now.translation.now.plan task.now.packing task.now.form task.now.rows task.now.step) workers.new }
{
    // The clauses name it.
    let _ = first;
    let count = workers.len();
    for at in 0..count {
        take_from(task, &mut workers[at], &mut made[at]);
    }
}
