// A translation, from its first text to its last.
ghost use Rattle.std.specs.Prelude.{◌≡◌, ◌≢◌, ◌≤◌, ◌<◌, ◌*◌, ◌++◌, Option, IfErr, IfOk, IfSome, OnErr, OnOk};
ghost use Rattle.std.specs.Prelude.{Some, length, slice_get, true};
ghost use Rattle.outside.specs.Outside.{Files};
ghost use Rattle.outside.specs.Reading.{WhereTold};
ghost use Rattle.outside.specs.Streams.{Gets, GetsPart};
ghost use Rattle.catalog.specs.Drivers.{Dataset};
ghost use Rattle.catalog.specs.Walk.{IsWalked};
ghost use Rattle.lane_teams.specs.Ready.{AreLanesFresh, AreLanesReady};
ghost use Rattle.translate_plan.specs.declared.options.Driver.TheVariants.{Vrt};
ghost use Rattle.write_back.specs.Plans.{output_of, IsNamedFor};
ghost use Rattle.strip_copies.specs.Copies.{IsRoomFor, IsTranslation};
ghost use Rattle.strip_copies.specs.Heights.{most_samples};
ghost use Rattle.error_lines.specs.Faults.{Differs, HasCauses, IsOfReading};
ghost use Rattle.error_lines.specs.Progress.{progress};
ghost use Rattle.error_lines.specs.Steps.{all_done, publishes, Goes};
ghost use Rattle.output_copies.specs.Copying.{spoken, IsChanged, MayEnd, Puts, TellsChange};
ghost use Rattle.output_copies.specs.Filled.{IsFilled};
ghost use Rattle.output_copies.specs.Steps.{files_by, raster_of, translation_steps, translation_text, unless_quiet};
ghost use Rattle.output_copies.specs.Steps.{written_files};
ghost use Rattle.band_blocks.specs.Blocks.{most_blocks};

use crate::ahead::{Rooms, copy_ahead};
use crate::band_lines::area;
use crate::copying::{Copier, copy_all};
use crate::documents::write_document;
use crate::packed_output::{shares_of, write_packed};
use crate::publishing::{lines_of, publish};
use crate::texts::{put_end, put_size};
use crate::writing::Writing;
use error_lines::Fault;
use geotransform::Sample;
use lane_teams::WorkerCount;
use outside::{Counter, Folder, Sink};
use shared_lines::{Lines, Scene};
use std::marker::Brand;
use std::sync::ledger::{Blank, Ledger};
use std::thread::Threads;
use strip_copies::{StripReader, Translation, strip_height};
use translate_plan::Driver;
use write_back::Target;

// What a translation's lines are copied with.
fn copier_for<'a, F: Folder, L: Ledger, W: Ledger, S: Scene>(
    translation: &Translation,
    shared: Option<&'a Lines<S>>,
    writing: &Writing,
    loads: Blank,
    writes: Blank,
) -> Result<Copier<'a, F, L, W, S>, Fault>
    requires translation { IsTranslation translation.now.cat translation.now.id translation.now.plan }
    requires some { 1 ≤ writing.now.blocks }
    requires few { writing.now.blocks ≤ most_blocks }
    requires loads_name { loads.name ≡ L.name }
    requires loads_parts { loads.parts ≡ L.parts }
    requires loads_shares { 0 < loads.parts }
    requires writes_name { writes.name ≡ W.name }
    requires writes_parts { writes.parts ≡ W.parts }
    requires writes_shares { 0 < writes.parts }
    ensures fresh { IfOk result (λ copier. AreLanesFresh F.Folder copier.reader.team.lanes.items) }
    ensures room { IfOk result (λ copier. IsRoomFor translation.now.cat translation.now.id translation.now.plan
        copier.reader.columns copier.reader.samples.items) }
    ensures rows { IfOk result (λ copier. 1 ≤ copier.rows) }
    ensures bound { IfOk result (λ copier. translation.now.plan.size.w * copier.rows ≤ most_samples) }
    ensures quiet { IfOk result (λ copier. copier.quiet ≡ writing.now.quiet) }
    ensures memory { IfErr result (λ f. f ≡ Fault.Memory) }
{
    let reader = StripReader::new(
        translation,
        writing.workers,
        WorkerCount::USUAL,
        writing.blocks,
        loads,
    )?;
    let writes = Counter::open(writes);
    let rows = strip_height(translation, writing.workers, writing.blocks);
    let ahead = writing.workers.get() > 1;
    let quiet = writing.quiet;
    Ok(Copier {
        reader,
        shared,
        writes,
        rows,
        ahead,
        quiet,
    })
}

// Room for so many lines of one band.
fn room_for(translation: &Translation, rows: u32) -> Result<Vec<Sample>, Fault>
    ensures long { IfOk result (λ samples. translation.now.plan.size.w * rows ≤ length samples.items) }
    ensures memory { IfErr result (λ f. f ≡ Fault.Memory) }
{
    let plan = &translation.plan;
    let count = area(plan.size.w, rows);
    let samples = vec![in translation.alloc; 0; count]?;
    Ok(samples)
}

// The fewest samples of a strip that is read while another one is written. Fewer are read and written in so short a
// time that the threads of one more step cost more than it brings.
const FEWEST_AHEAD: usize = 500_000;

// A second room, for lines that are read while others are written: where that is wanted, there are any others, each
// strip has so many samples that it pays, and memory is had for it.
fn second_room(translation: &Translation, ahead: bool, rows: u32) -> Option<Vec<Sample>>
    ensures long { IfSome result (λ samples. translation.now.plan.size.w * rows ≤ length samples.items) }
{
    let plan = &translation.plan;
    let some = rows < plan.size.h || plan.count() > 1;
    let pays = area(plan.size.w, rows) >= FEWEST_AHEAD;
    if !ahead || !some || !pays {
        return None;
    }
    room_for(translation, rows).ok()
}

// Copies all lines of all bands; where a second room is had, the next ones are read while the last ones are written.
fn copy_lines<R: Threads + Sync, F: Folder, O: Sink, L: Ledger + Send, W: Ledger, S: Scene>(
    rt: &R,
    translation: &Translation,
    copier: &mut Copier<F, L, W, S>,
    folder: &mut F,
    target: &mut Target<F>,
    out: &mut O,
    mut ready: Vec<Sample>,
) -> Result<(), Fault>
    requires translation { IsTranslation translation.now.cat translation.now.id translation.now.plan }
    requires ready { AreLanesReady F.Folder S.told S.cat folder.old translation.now.cat
        copier.old.reader.team.lanes.items }
    requires room { IsRoomFor translation.now.cat translation.now.id translation.now.plan copier.old.reader.columns
        copier.old.reader.samples.items }
    requires rows { 1 ≤ copier.old.rows }
    requires long { translation.now.plan.size.w * copier.old.rows ≤ length ready.items }
    requires filled { IsFilled (F.names folder.old) translation.now.cat translation.now.id translation.now.plan
        target.old 0 0 0 }
    ensures filled { OnOk result (IsFilled (F.names folder.new) translation.now.cat translation.now.id
        translation.now.plan target.new translation.now.plan.size.h translation.now.plan.size.h 0) }
    ensures name { target.new.name ≡ target.old.name }
    ensures names { F.names folder.new ≡ F.names folder.old }
    ensures ok { OnOk result (Gets (spoken copier.old.quiet progress) (O.got out.old) (O.got out.new)) }
    ensures err { OnErr result (GetsPart (spoken copier.old.quiet progress) (O.got out.old) (O.got out.new)) }
    ensures quiet { copier.old.quiet ≡ true → out.new ≡ out.old }
    ensures ends { MayEnd (F.names folder.old) (F.faults folder.old) (F.faults folder.new) (O.faults out.old)
        (O.faults out.new) result }
    ensures changed { IfErr result (TellsChange translation.now.cat) }
{
    match second_room(translation, copier.ahead, copier.rows) {
        Some(next) => {
            let mut rooms = Rooms { ready, next };
            copy_ahead(rt, translation, copier, folder, target, out, &mut rooms)
        }
        None => copy_all(rt, translation, copier, folder, target, out, &mut ready),
    }
}

// Copies the lines of an output, and publishes its files.
fn write_files<R: Threads + Sync, F: Folder, O: Sink, L: Ledger + Send, W: Ledger, S: Scene>(
    rt: &R,
    translation: &Translation,
    folder: &mut F,
    out: &mut O,
    writing: &Writing,
    loads: Blank,
    writes: Blank,
) -> Result<(), Fault>
    requires translation { IsTranslation translation.now.cat translation.now.id translation.now.plan }
    requires walked { WhereTold F.Folder folder.old (λ m. IsWalked m translation.now.cat) }
    requires told { S.told ≡ F.names folder.old }
    requires scene { S.cat ≡ translation.now.cat }
    requires some { 1 ≤ writing.now.blocks }
    requires few { writing.now.blocks ≤ most_blocks }
    requires files { translation.now.plan.driver ≢ Vrt }
    requires extension { IsNamedFor translation.now.plan writing.now.name.now }
    requires loads_name { loads.name ≡ L.name }
    requires loads_parts { loads.parts ≡ L.parts }
    requires loads_shares { 0 < loads.parts }
    requires writes_name { writes.name ≡ W.name }
    requires writes_parts { writes.parts ≡ W.parts }
    requires writes_shares { 0 < writes.parts }
    ensures goes { (m : Files) (d : Dataset) → F.names folder.old ≡ Some m →
        slice_get translation.now.cat translation.now.id ≡ Some d →
        Goes (all_done (unless_quiet writing.now.quiet progress ++ publishes
        (files_by (output_of translation.now.plan) writing.now.name.now (raster_of m d translation.now.plan)))) m result
        (F.names folder.new) (O.got out.old) (O.got out.new) }
    ensures put { Puts (spoken writing.now.quiet progress) result (O.got out.old) (O.got out.new) }
    ensures quiet { writing.now.quiet ≡ true → out.new ≡ out.old }
    ensures ends { MayEnd (F.names folder.old) (F.faults folder.old) (F.faults folder.new) (O.faults out.old)
        (O.faults out.new) result }
    ensures changed { IfErr result (TellsChange translation.now.cat) }
    ensures kept { IfErr result (λ f. IsChanged f → F.names folder.new ≡ F.names folder.old) }
{
    let alloc = translation.alloc;
    let plan = &translation.plan;
    let blocks = writing.blocks;
    let made: Option<Lines<S>> = lines_of(translation, folder, writing);
    let shared = made.as_ref();
    let mut copier: Copier<F, L, W, S> = copier_for(translation, shared, writing, loads, writes)?;
    let samples = room_for(translation, copier.rows)?;
    let mut target = Target::create(alloc, folder, plan, writing.name, blocks)?;
    match copy_lines(
        rt,
        translation,
        &mut copier,
        folder,
        &mut target,
        out,
        samples,
    ) {
        Ok(()) => publish(translation, folder, target, &mut copier.writes),
        Err(fault) => {
            target.give_up(folder);
            Err(fault)
        }
    }
}

// Writes what the driver of an output's plan makes of it.
fn write_planned<R: Threads + Sync, F: Folder, O: Sink>(
    rt: &R,
    translation: &Translation,
    folder: &mut F,
    out: &mut O,
    writing: &Writing,
) -> Result<(), Fault>
    requires translation { IsTranslation translation.now.cat translation.now.id translation.now.plan }
    requires walked { WhereTold F.Folder folder.old (λ m. IsWalked m translation.now.cat) }
    requires some { 1 ≤ writing.now.blocks }
    requires few { writing.now.blocks ≤ most_blocks }
    requires extension { IsNamedFor translation.now.plan writing.now.name.now }
    ensures goes { (m : Files) (d : Dataset) → F.names folder.old ≡ Some m →
        slice_get translation.now.cat translation.now.id ≡ Some d →
        Goes (all_done (unless_quiet writing.now.quiet progress ++ publishes
        (written_files m d translation.now.plan writing.now.name.now))) m result (F.names folder.new) (O.got out.old)
        (O.got out.new) }
    ensures put { Puts (spoken writing.now.quiet progress) result (O.got out.old) (O.got out.new) }
    ensures quiet { writing.now.quiet ≡ true → out.new ≡ out.old }
    ensures ends { MayEnd (F.names folder.old) (F.faults folder.old) (F.faults folder.new) (O.faults out.old)
        (O.faults out.new) result }
    ensures changed { IfErr result (TellsChange translation.now.cat) }
    ensures kept { IfErr result (λ f. IsChanged f → F.names folder.new ≡ F.names folder.old) }
{
    translation.plan.rules();
    if let Driver::Vrt = translation.plan.driver {
        return write_document(translation, folder, out, writing);
    }
    if let Some(shares) = shares_of(translation, writing) {
        return write_packed::<R, F, O, Brand, Brand>(
            rt,
            translation,
            folder,
            out,
            writing,
            shares,
            Blank::new(1),
        );
    }
    write_files::<R, F, O, Brand, Brand, Brand>(
        rt,
        translation,
        folder,
        out,
        writing,
        Blank::new(1),
        Blank::new(1),
    )
}

/// Does a translation: tells the size of the source, copies the pixels of the output strip by strip, telling how far
/// it is, publishes the files of the output, each whole, its data first, and tells that it is done. Of a mosaic no
/// pixel is copied, and its document is published. The name's extension is one of the plan's driver, and 1 to 65,536
/// blocks are held at a time by each worker. What is told and published is the same for every number of blocks and of
/// workers.
///
/// FolderFault and OutFault come only where the count of the folder and of the output rose, Changed only where a file
/// was opened again and had another length than the walk found, or was absent, and then nothing was published, and
/// Memory freely. All names but those that were published by then keep what they held, and no draft is left.
pub fn write_output<R: Threads + Sync, F: Folder, O: Sink>(
    rt: &R,
    translation: &Translation,
    folder: &mut F,
    out: &mut O,
    writing: &Writing,
) -> Result<(), Fault>
    requires translation { IsTranslation translation.now.cat translation.now.id translation.now.plan }
    requires walked { WhereTold F.Folder folder.old (λ m. IsWalked m translation.now.cat) }
    requires some { 1 ≤ writing.now.blocks }
    requires few { writing.now.blocks ≤ most_blocks }
    requires extension { IsNamedFor translation.now.plan writing.now.name.now }
    // over a folder that tells its files: all the steps are done, or where the outside failed the first of them
    ensures told { WhereTold F.Folder folder.old (λ m. (d : Dataset) →
        slice_get translation.now.cat translation.now.id ≡ Some d →
        Goes (all_done (translation_steps writing.now.quiet m d translation.now.plan writing.now.name.now)) m result
        (F.names folder.new) (O.got out.old) (O.got out.new)) }
    // over every folder: the size of the source, all of the progress line and its end are put, or where a fault is
    // answered a first part of them
    ensures put { (d : Dataset) → slice_get translation.now.cat translation.now.id ≡ Some d →
        Puts (spoken writing.now.quiet (translation_text d.head.size)) result (O.got out.old) (O.got out.new) }
    // over every folder and for every answer: a quiet copy leaves the sink as it was
    ensures quiet { writing.now.quiet ≡ true → out.new ≡ out.old }
    ensures faults { IfErr result IsOfReading }
    ensures differs { Differs result }
    // over every folder: a length that changed is that of a dataset of the catalog, and then nothing is published
    ensures changed { IfErr result (TellsChange translation.now.cat) }
    ensures kept { IfErr result (λ f. IsChanged f → F.names folder.new ≡ F.names folder.old) }
    ensures cause { HasCauses (F.faults folder.old) (F.faults folder.new) (O.faults out.old) (O.faults out.new) result }
{
    put_size(translation, out, writing.quiet)?;
    write_planned(rt, translation, folder, out, writing)?;
    put_end(out, writing.quiet)
}
