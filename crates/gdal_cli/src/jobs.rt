// The commands, from a job to its text.
ghost use Rattle.std.specs.Prelude.{◌≡◌, ◌<◌, ℕ, List, IfErr, OnOk, Option, Some, Ok, Err, [], not, true, false};
ghost use Rattle.std.specs.Prelude.{slice_get, is_some};
ghost use Rattle.outside.specs.Outside.{Files};
ghost use Rattle.outside.specs.Causes.{HasCause};
ghost use Rattle.outside.specs.Reading.{OnlyRead};
ghost use Rattle.input_points.specs.Entries.{entries};
ghost use Rattle.input_points.specs.declared.entry.Entry.{Entry};
ghost use Rattle.catalog.specs.Drivers.{Dataset};
ghost use Rattle.catalog.specs.Walk.{IsWalked};
ghost use Rattle.error_lines.specs.Faults.{HasCauses, HasChanged, IsOutside, OwnsFault, Differs, IsOfReading};
ghost use Rattle.translation_runs.specs.Ends.{ended};
ghost use Rattle.gdal_cli.specs.Input.{IsOfLines};
ghost use Rattle.gdal_cli.specs.Run.{StopsBehind, MayEnd, IsRefusal, name_read, names_published, makes_rasters};
ghost use Rattle.gdal_cli.specs.Run.{reads_sources, reads_input, warns_of_inputs};
ghost use Rattle.gdal_cli.specs.Location.{answers, point_text};
ghost use Rattle.gdal_cli.specs.Pixels.{HasBands};
ghost use Rattle.gdal_cli.specs.Published.{IsNamedJob};
ghost use Rattle.gdal_cli.specs.Jobs.{Ends, MayWarn, is_quiet, RefusesIn, RefusesKind};
ghost use Rattle.error_lines.specs.Steps.{AreWarned, GoesWarning};
ghost use Rattle.gdal_cli.specs.Work.{info_judged, location_judged, judged_by, carried_out};

use crate::asked::asked_in;
use crate::input::answer_input;
use crate::mosaics::put_build;
use crate::points::put_point;
use crate::reader::{PointReader, Question};
use crate::translating::put_translated;
use catalog::{Catalog, head_of, open_all};
use command_words::{BlockCount, Command, Job};
use error_lines::Fault;
use geotransform::BandNumber;
use info_report::write_info;
use input_points::Position;
use lane_teams::{WorkerCount, lines_for};
use location_report::Form;
use mosaic_builds::Building;
use outside::{Folder, Input, Name, Sink};
use shared_lines::{Lines, Scene};
use std::alloc::Global;
use std::marker::Brand;
use std::sync::ledger::{Blank, Ledger};
use std::thread::Threads;
use synth_runs::put_rasters;
use translation_runs::Way;

/// What a run stands on: what starts threads, and where memory comes from.
#[derive(Drop)]
pub struct Host<'a, R: Threads + Sync> {
    pub rt: &'a R,
    pub alloc: Global,
}

// How points of a dataset are asked for.
#[derive(Clone, Copy)]
struct LocateOptions {
    // The one point, or none where the points are the lines of the input.
    point: Option<(Position, Position)>,
    form: Form,
    // Whether a point is a place, and not a column and a line.
    geoloc: bool,
    // Whether the sums of records are to be checked.
    verify: bool,
    // How much is held.
    pools: Pools,
}

// How many blocks are held at once, and by how many workers.
#[derive(Clone, Copy)]
struct Pools {
    blocks: BlockCount,
    workers: WorkerCount,
}

// Puts the report of a dataset.
#[tactic(auto, unfolding(crate::specs::Work::info_judged))]
fn put_info<F: Folder, O: Sink>(
    alloc: Global,
    folder: &mut F,
    out: &mut O,
    name: &Name,
    verify: bool,
) -> Result<(), Fault>
    ensures told { (m : Files) → F.names folder.old ≡ Some m → (lines : List Entry) →
        Ends (carried_out (info_judged m verify name.now) m lines) result (O.got out.old) (O.got out.new) }
    ensures refused { IsRefusal (ended result) → out.new ≡ out.old }
    ensures names { F.names folder.new ≡ F.names folder.old }
    ensures writes { F.write_calls folder.new ≡ F.write_calls folder.old }
    ensures cause { HasCauses (F.faults folder.old) (F.faults folder.new) (O.faults out.old) (O.faults out.new) result }
    ensures may_end { IfErr result (MayEnd (Job.Info name.now)) }
    ensures not_input { result ≡ Err Fault.InputFault → ⊥ }
    ensures unknown { RefusesKind true name.now result }
    ensures changed { HasChanged (F.names folder.old) (ended result) }
    ensures own { OwnsFault (ended result) }
{
    let head = head_of(alloc, folder, name, verify)?;
    write_info(alloc, &head, out)?;
    Ok(())
}

// Answers a point of a dataset, or the lines of the input where none is given, through one lane. Of several workers
// this one has lines besides, as many as its pool has blocks.
fn put_answers<F: Folder, I: Input, O: Sink, L: Ledger, S: Scene>(
    question: &Question,
    folder: &mut F,
    input: &mut I,
    out: &mut O,
    point: Option<(Position, Position)>,
    pools: Pools,
    blank: Blank,
) -> Result<(), Fault>
    requires told { S.told ≡ F.names folder.old }
    requires scene { S.cat ≡ question.now.cat }
    requires name { blank.name ≡ L.name }
    requires parts { blank.parts ≡ L.parts }
    requires some { 0 < blank.parts }
    requires walked { (m : Files) → F.names folder.old ≡ Some m → IsWalked m question.now.cat }
    requires bands { HasBands question.now.cat question.now.id question.now.asked.bands }
    ensures told { (m : Files) → F.names folder.old ≡ Some m → (d : Dataset) →
        slice_get question.now.cat question.now.id ≡ Some d → (i : List ℕ) →
        (is_some point ≡ false → I.left input.old ≡ Some i) →
        Ends (answers (point_text m question.now.cat d question.now.asked) point (entries i)) result (O.got out.old)
        (O.got out.new) }
    ensures never { (m : Files) → F.names folder.old ≡ Some m → (name : List ℕ) (was : ℕ) (now : Option ℕ) →
        result ≡ Err (Fault.Changed name was now) → ⊥ }
    ensures stopped { result ≡ Err Fault.InputFault → (m : Files) → F.names folder.old ≡ Some m → (d : Dataset) →
        slice_get question.now.cat question.now.id ≡ Some d → (i : List ℕ) → I.left input.old ≡ Some i →
        StopsBehind (answers (point_text m question.now.cat d question.now.asked) point) i (I.left input.new)
        (O.got out.old) (O.got out.new) }
    ensures read { OnOk result (is_some point ≡ false → (i : List ℕ) → I.left input.old ≡ Some i →
        I.left input.new ≡ Some []) }
    ensures untouched { is_some point ≡ true → input.new ≡ input.old }
    ensures unput { is_some point ≡ true → IfErr result (λ f. (f ≡ Fault.OutFault → ⊥) → out.new ≡ out.old) }
    ensures cause { HasCauses (F.faults folder.old) (F.faults folder.new) (O.faults out.old) (O.faults out.new) result }
    ensures input_cause { HasCause Fault.InputFault (I.faults input.old) (I.faults input.new) result }
    ensures lines { IfErr result IsOfLines }
    ensures point { is_some point ≡ true → IfErr result IsOfReading }
    ensures differs { Differs result }
    ensures names { F.names folder.new ≡ F.names folder.old }
    ensures writes { F.write_calls folder.new ≡ F.write_calls folder.old }
{
    let bands = question.asked.bands.len();
    let alloc = question.alloc;
    let blocks = pools.blocks;
    let cat = &question.cat;
    let made: Option<Lines<S>> = lines_for(alloc, pools.workers, blocks.get(), cat, folder);
    let shared = made.as_ref();
    let mut points: PointReader<F, L, S> = PointReader::new(alloc, blocks, bands, shared, blank)?;
    match point {
        Some((x, y)) => {
            let put = put_point(question, &mut points, folder, out, x, y);
            drop(points);
            put
        }
        None => {
            let answered = answer_input(question, &mut points, folder, input, out);
            drop(points);
            answered
        }
    }
}

// Walks from a dataset, and answers what is asked of it.
#[tactic(auto, unfolding(crate::specs::Work::location_judged))]
fn put_location<F: Folder, I: Input, O: Sink>(
    alloc: Global,
    folder: &mut F,
    input: &mut I,
    out: &mut O,
    name: &Name,
    bands: &[BandNumber],
    options: LocateOptions,
) -> Result<(), Fault>
    ensures told { (m : Files) → F.names folder.old ≡ Some m → (i : List ℕ) →
        (is_some options.point ≡ false → I.left input.old ≡ Some i) →
        Ends (carried_out (location_judged m options.verify name.now options.point bands.now options.form
        options.geoloc) m (entries i)) result (O.got out.old) (O.got out.new) }
    ensures stopped { result ≡ Err Fault.InputFault → (m : Files) → F.names folder.old ≡ Some m → (i : List ℕ) →
        I.left input.old ≡ Some i → StopsBehind
        (carried_out (location_judged m options.verify name.now options.point bands.now options.form options.geoloc) m)
        i (I.left input.new) (O.got out.old) (O.got out.new) }
    ensures read { OnOk result (is_some options.point ≡ false → (i : List ℕ) → I.left input.old ≡ Some i →
        I.left input.new ≡ Some []) }
    ensures untouched { is_some options.point ≡ true → input.new ≡ input.old }
    ensures refused { IsRefusal (ended result) → (out.new ≡ out.old) × (input.new ≡ input.old) }
    ensures may_end { IfErr result (MayEnd (Job.Locate name.now options.point bands.now options.form options.geoloc)) }
    ensures names { F.names folder.new ≡ F.names folder.old }
    ensures writes { F.write_calls folder.new ≡ F.write_calls folder.old }
    ensures cause { HasCauses (F.faults folder.old) (F.faults folder.new) (O.faults out.old) (O.faults out.new) result }
    ensures input_cause { HasCause Fault.InputFault (I.faults input.old) (I.faults input.new) result }
    ensures unknown { RefusesKind false name.now result }
    ensures changed { HasChanged (F.names folder.old) (ended result) }
    ensures own { OwnsFault (ended result) }
{
    let mut cat = Catalog::new(alloc);
    let id = open_all(alloc, &mut cat, folder, name, options.verify)?;
    let asked = asked_in(alloc, options.form, bands, options.geoloc, cat.head(id))?;
    let question = Question {
        alloc,
        cat,
        id,
        asked,
    };
    put_answers::<F, I, O, Brand, Brand>(
        &question,
        folder,
        input,
        out,
        options.point,
        options.pools,
        Blank::new(1),
    )
}

/// Does a job: judges the files that it names, and then puts its texts and publishes its files. The extension of an
/// output's name is one of its driver. Inputs that a mosaic skips are warned of on `err`; where that fails, `failed` is
/// set, and nothing more is put there.
///
/// Each refusal comes where the files are judged, before anything is put, but for BadPoint and the limit of points,
/// which come at their line of the input, and for the run from a number, whose later parts read what the earlier ones
/// published: it is refused by nothing over a folder that tells its files. FolderFault, InputFault and OutFault come
/// only where the count of the folder, of the input and of the output rose, Changed only over a folder that doesn't
/// tell its names, Memory freely. A quiet job puts nothing on `out`, however it ends.
pub fn put_job<R: Threads + Sync, F: Folder, I: Input, O: Sink, E: Sink>(
    host: &Host<R>,
    folder: &mut F,
    input: &mut I,
    out: &mut O,
    err: &mut E,
    failed: &mut bool,
    command: Command,
) -> Result<(), Fault>
    requires named { IsNamedJob command.job }
    requires fresh { failed.old ≡ false }
    ensures told { (m : Files) → F.names folder.old ≡ Some m → (i : List ℕ) →
        (reads_input command.job ≡ true → I.left input.old ≡ Some i) →
        GoesWarning (carried_out (judged_by command.job command.verify m) m (entries i)) m result (F.names folder.new)
        (O.got out.old) (O.got out.new) (λ steps. AreWarned steps failed.new (E.faults err.old) (E.faults err.new)
        (E.got err.old) (E.got err.new)) }
    ensures stopped { result ≡ Err Fault.InputFault → (m : Files) → F.names folder.old ≡ Some m → (i : List ℕ) →
        I.left input.old ≡ Some i → StopsBehind (carried_out (judged_by command.job command.verify m) m) i
        (I.left input.new) (O.got out.old) (O.got out.new) }
    ensures refused { makes_rasters command.job ≡ false → IsRefusal (ended result) → (out.new ≡ out.old) ×
        (input.new ≡ input.old) × (F.names folder.new ≡ F.names folder.old) }
    ensures quiet { is_quiet command.job ≡ true → out.new ≡ out.old }
    ensures made { makes_rasters command.job ≡ true → (m : Files) → F.names folder.old ≡ Some m →
        IfErr result IsOutside }
    ensures warned { MayWarn (warns_of_inputs command.job) (ended result) failed.new (E.faults err.old)
        (E.faults err.new) (E.got err.old) (E.got err.new) }
    ensures only_read { names_published command.job ≡ [] → OnlyRead F.Folder folder.old folder.new }
    ensures may_end { IfErr result (MayEnd command.job) }
    ensures read { OnOk result (reads_input command.job ≡ true → (i : List ℕ) → I.left input.old ≡ Some i →
        I.left input.new ≡ Some []) }
    ensures untouched { reads_input command.job ≡ false → input.new ≡ input.old }
    ensures cause { HasCauses (F.faults folder.old) (F.faults folder.new) (O.faults out.old) (O.faults out.new) result }
    ensures input_cause { HasCause Fault.InputFault (I.faults input.old) (I.faults input.new) result }
    ensures unknown { RefusesIn (not (reads_sources command.job)) (name_read command.job) result }
    ensures changed { HasChanged (F.names folder.old) (ended result) }
    ensures own { OwnsFault (ended result) }
{
    let alloc = host.alloc;
    let verify = command.verify;
    let blocks = command.blocks;
    let workers = command.workers;
    match command.job {
        Job::Info { name } => put_info(alloc, folder, out, &name, verify),
        Job::Locate {
            name,
            point,
            bands,
            form,
            geoloc,
        } => {
            let options = LocateOptions {
                point,
                form,
                geoloc,
                verify,
                pools: Pools { blocks, workers },
            };
            put_location(alloc, folder, input, out, &name, bands.as_slice(), options)
        }
        Job::Translate {
            src,
            options,
            quiet,
        } => {
            let way = Way {
                verify,
                blocks,
                workers,
                quiet,
            };
            put_translated(host.rt, alloc, folder, out, &src, &options, way)
        }
        Job::Build {
            inputs,
            list,
            options,
            quiet,
        } => {
            let building = Building {
                list: &list,
                options: &options,
                verify,
                quiet,
            };
            put_build(alloc, folder, out, err, failed, inputs, building)
        }
        Job::Synth { ref side } => {
            put_rasters(host.rt, alloc, folder, out, *side, blocks, workers)
        }
    }
}
