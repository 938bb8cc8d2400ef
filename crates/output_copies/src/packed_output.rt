// A translation whose lines, or columns, several workers make and pack beside each other.
ghost use Rattle.std.specs.Prelude.{◌≡◌, ◌≢◌, ◌<◌, ◌≤◌, ◌++◌, [], IfErr, IfSome, OnErr, OnOk, Some, slice_get, true};
ghost use Rattle.outside.specs.Outside.{Files};
ghost use Rattle.translate_plan.specs.declared.options.Driver.TheVariants.{Vrt};
ghost use Rattle.strip_copies.specs.Copies.{IsTranslation};
ghost use Rattle.outside.specs.Reading.{WhereTold};
ghost use Rattle.outside.specs.Streams.{Gets, GetsPart};
ghost use Rattle.band_blocks.specs.Blocks.{most_blocks};
ghost use Rattle.catalog.specs.Drivers.{Dataset};
ghost use Rattle.catalog.specs.Walk.{IsWalked};
ghost use Rattle.write_back.specs.Plans.{output_of, IsNamedFor};
ghost use Rattle.error_lines.specs.Progress.{progress};
ghost use Rattle.error_lines.specs.Steps.{all_done, publishes, Goes};
ghost use Rattle.output_copies.specs.Copying.{spoken, IsChanged, MayEnd, Puts, TellsChange};
ghost use Rattle.output_copies.specs.Filled.{IsFilled};
ghost use Rattle.output_copies.specs.Makers.{makers_of, one_fewer};
ghost use Rattle.output_copies.specs.Packed.{IsTask};
ghost use Rattle.output_copies.specs.Steps.{files_by, raster_of, unless_quiet};

use crate::handing::made_rooms;
use crate::publishing::{lines_of, publish};
use crate::rounds::{Crew, copy_packed, has_others};
use crate::worker::{Task, dismiss, hire};
use crate::writing::Writing;
use error_lines::Fault;
use lane_teams::WorkerCount;
use outside::{Counter, Folder, Sink};
use shared_lines::{Lines, Scene};
use std::sync::ledger::{Blank, Ledger};
use std::thread::Threads;
use strip_copies::{Form, Portions, Translation, portions_of};
use write_back::{Packing, Target};

// Copies all blocks of all bands by so many workers as the task has, whose views are ended then.
fn copy_hired<R: Threads + Sync, F: Folder, O: Sink, W: Ledger + Send, S: Scene>(
    rt: &R,
    task: &Task<S>,
    folder: &mut F,
    target: &mut Target<F>,
    out: &mut O,
    writing: &Writing,
    writes: &mut Counter<W>,
) -> Result<(), Fault>
    requires task { IsTask task.now.translation.now.cat task.now.translation.now.id task.now.translation.now.plan
        task.now.packing task.now.form task.now.rows task.now.step }
    requires walked { WhereTold F.Folder folder.old (λ m. IsWalked m task.now.translation.now.cat) }
    requires told { S.told ≡ F.names folder.old }
    requires scene { S.cat ≡ task.now.translation.now.cat }
    requires some { 1 ≤ writing.now.blocks }
    requires few { writing.now.blocks ≤ most_blocks }
    requires filled { IsFilled (F.names folder.old) task.now.translation.now.cat task.now.translation.now.id
        task.now.translation.now.plan target.old 0 0 0 }
    requires empty { target.old.pool.entries ≡ [] }
    ensures filled { OnOk result (IsFilled (F.names folder.new) task.now.translation.now.cat
        task.now.translation.now.id task.now.translation.now.plan target.new task.now.translation.now.plan.size.h
        task.now.translation.now.plan.size.h 0) }
    ensures name { target.new.name ≡ target.old.name }
    ensures names { F.names folder.new ≡ F.names folder.old }
    ensures ok { OnOk result (Gets (spoken task.now.quiet progress) (O.got out.old) (O.got out.new)) }
    ensures err { OnErr result (GetsPart (spoken task.now.quiet progress) (O.got out.old) (O.got out.new)) }
    ensures quiet { task.now.quiet ≡ true → out.new ≡ out.old }
    ensures ends { MayEnd (F.names folder.old) (F.faults folder.old) (F.faults folder.new) (O.faults out.old)
        (O.faults out.new) result }
    ensures changed { IfErr result (TellsChange task.now.translation.now.cat) }
{
    let count = task.workers.get();
    let others = has_others(task, count as usize);
    let Ok(made) = made_rooms(task, count, others) else {
        return Err(Fault::Memory);
    };
    let workers = hire(task, folder, count, writing.blocks)?;
    let mut crew = Crew { workers, made };
    let copied = copy_packed(rt, task, folder, target, out, &mut crew, writes);
    let Crew { workers, made } = crew;
    drop(made);
    dismiss(folder, workers);
    copied
}

/// How blocks are packed, how many workers make them, and how many each makes and reads at a time.
#[derive(Drop)]
pub struct Shares {
    pub packing: Packing,
    pub makers: WorkerCount,
    pub portions: Portions,
}

// One worker fewer, where more than one remains.
fn one_fewer(workers: WorkerCount) -> WorkerCount
    ensures fewer { result ≡ one_fewer workers }
{
    let count = workers.get();
    if count <= 2 {
        return workers;
    }
    match WorkerCount::new(count - 1) {
        Some(fewer) => fewer,
        None => workers,
    }
}

// How many workers make a form's blocks, where so many are asked for: lines are made about as fast as they are written,
// and one more thread writes meanwhile, so that one fewer makes them.
fn makers_of(form: Form, workers: WorkerCount) -> WorkerCount
    ensures makers { result ≡ makers_of form workers }
{
    match form {
        Form::Lines => one_fewer(workers),
        Form::Pieces | Form::Records => workers,
    }
}

/// How several workers share the output of a translation; None where one of them copies it, as where the samples of
/// several bands lie pixel by pixel. Of lines one worker fewer than are asked for makes them, where more than one
/// remains, since one more thread writes them.
pub fn shares_of(translation: &Translation, writing: &Writing) -> Option<Shares>
    requires translation { IsTranslation translation.now.cat translation.now.id translation.now.plan }
    ensures task { IfSome result (λ s. IsTask translation.now.cat translation.now.id translation.now.plan s.packing
        s.portions.form s.portions.rows s.portions.step) }
{
    // This call is made for the proof: it says what every plan keeps.
    translation.plan.rules();
    let packing = Packing::of(&translation.plan)?;
    let all = portions_of(translation, writing.workers)?;
    let makers = makers_of(all.form, writing.workers);
    let portions = portions_of(translation, makers)?;
    Some(Shares {
        packing,
        makers,
        portions,
    })
}

/// As `write_files`, by several workers: each packs lines, or columns, of its own, which are written in their order.
pub fn write_packed<R: Threads + Sync, F: Folder, O: Sink, W: Ledger + Send, S: Scene>(
    rt: &R,
    translation: &Translation,
    folder: &mut F,
    out: &mut O,
    writing: &Writing,
    shares: Shares,
    writes: Blank,
) -> Result<(), Fault>
    requires task { IsTask translation.now.cat translation.now.id translation.now.plan shares.packing
        shares.portions.form shares.portions.rows shares.portions.step }
    requires walked { WhereTold F.Folder folder.old (λ m. IsWalked m translation.now.cat) }
    requires told { S.told ≡ F.names folder.old }
    requires scene { S.cat ≡ translation.now.cat }
    requires some { 1 ≤ writing.now.blocks }
    requires few { writing.now.blocks ≤ most_blocks }
    requires files { translation.now.plan.driver ≢ Vrt }
    requires extension { IsNamedFor translation.now.plan writing.now.name.now }
    requires writes_name { writes.name ≡ W.name }
    requires writes_parts { writes.parts ≡ W.parts }
    requires writes_shares { 0 < writes.parts }
    ensures goes { (m : Files) (d : Dataset) → F.names folder.old ≡ Some m →
        slice_get translation.now.cat translation.now.id ≡ Some d →
        Goes (all_done (unless_quiet writing.now.quiet progress ++ publishes
        (files_by (output_of translation.now.plan) writing.now.name.now (raster_of m d translation.now.plan)))) m result
        (F.names folder.new) (O.got out.old) (O.got out.new) }
    ensures put { Puts (spoken writing.now.quiet progress) result (O.got out.old) (O.got out.new) }
    ensures quiet { writing.now.quiet ≡ true → out.new ≡ out.old }
    ensures ends { MayEnd (F.names folder.old) (F.faults folder.old) (F.faults folder.new) (O.faults out.old)
        (O.faults out.new) result }
    ensures changed { IfErr result (TellsChange translation.now.cat) }
    ensures kept { IfErr result (λ f. IsChanged f → F.names folder.new ≡ F.names folder.old) }
{
    let made: Option<Lines<S>> = lines_of(translation, folder, writing);
    let shared = made.as_ref();
    let Shares {
        packing,
        makers,
        portions,
    } = shares;
    let task = Task {
        translation,
        packing,
        form: portions.form,
        rows: portions.rows,
        step: portions.step,
        workers: makers,
        shared,
        quiet: writing.quiet,
    };
    let mut writes: Counter<W> = Counter::open(writes);
    let plan = &translation.plan;
    let alloc = translation.alloc;
    let mut target = Target::create(alloc, folder, plan, writing.name, writing.blocks)?;
    match copy_hired(rt, &task, folder, &mut target, out, writing, &mut writes) {
        Ok(()) => publish(translation, folder, target, &mut writes),
        Err(fault) => {
            target.give_up(folder);
            Err(fault)
        }
    }
}
