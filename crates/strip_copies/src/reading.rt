// Lines of a translation's output, read by a team of lanes.
ghost use Rattle.std.specs.Prelude.{◌≡◌, ◌<◌, ◌≤◌, ◌+◌, ◌-◌, ◌*◌, All, IfErr, IfOk, OnOk, length, map, option_map};
ghost use Rattle.std.specs.Prelude.{slice_get, false, true, Some};
ghost use Rattle.geotransform.specs.Geo.{IsRaster};
ghost use Rattle.outside.specs.Causes.{HasCause};
ghost use Rattle.outside.specs.Reading.{WhereTold};
ghost use Rattle.band_blocks.specs.Contents.{most_calls};
ghost use Rattle.band_blocks.specs.Open.{IsUnchanged};
ghost use Rattle.catalog.specs.Dataset.{band_at, band_count};
ghost use Rattle.catalog.specs.Drivers.{Dataset};
ghost use Rattle.catalog.specs.Pixels.{pixel_of_name};
ghost use Rattle.catalog.specs.Places.{row_by_row};
ghost use Rattle.nearest_window.specs.Lanes.{room_of};
ghost use Rattle.nearest_window.specs.Right.{TellsChangeIn};
ghost use Rattle.nearest_window.specs.Windows.{IsWindow};
ghost use Rattle.lane_teams.specs.Ready.{AreLanesFresh, AreLanesReady, OnlyReadByViews};
ghost use Rattle.translate_plan.specs.Plan.{out_pixel};
ghost use Rattle.translate_plan.specs.declared.band.OutBand.{OutBand};
ghost use Rattle.strip_copies.specs.Copies.{lines_rect, IsRoomFor, IsTranslation, IsHeldIn};
ghost use Rattle.strip_copies.specs.Rows.{AreOf, IsDirect, IsPart, strip_rect, AreShownIn, IsMaking};
ghost use Rattle.strip_copies.specs.Columns.{AreColumns};
ghost use Rattle.geotransform.specs.Limits.{most_side};
ghost use Rattle.strip_copies.specs.Heights.{most_samples, room_of_each};
ghost use Rattle.band_blocks.specs.Blocks.{most_blocks};

use crate::columns::Columns;
use crate::direct::{hold_all, is_all_direct, is_direct};
use crate::height::{lines_apart, lines_beside, most_lines, strip_lines};
use crate::holding::Holding;
use crate::making::{Making, area, make_lines};
use crate::shares::fewest_for;
use crate::spans::{Reach, Run, run_from};
use crate::translation::Translation;
use band_blocks::LoadFault;
use geotransform::{MOST_SIDE, PixelType, Rect, Sample, Size};
use lane_teams::{Team, WorkerCount};
use nearest_window::{Supply, Window};
use outside::Folder;
use shared_lines::Scene;
use std::alloc::AllocError;
use std::sync::ledger::{Blank, Ledger};
use std::thread::Threads;

/// What lines of a translation are read with: a team of lanes, the columns of the source that are read, and room for
/// lines of them, which is made once.
#[derive(Drop)]
pub struct StripReader<F: Folder, L: Ledger> {
    pub team: Team<F, L>,
    pub columns: Columns,
    pub samples: Vec<Sample>,
}

// How many lines of the source each of so many readers reads at a time into its room for them, at least one.
fn room_height(most: u32, columns: u32, lines: u32, readers: WorkerCount) -> u32
    requires any { 1 ≤ most }
    requires columns { columns ≤ most_side }
    requires lines { 1 ≤ lines }
    ensures some { 1 ≤ result }
    ensures bound { columns * result ≤ most_samples }
    ensures share { columns * result ≤ room_of_each readers columns }
{
    if columns == 0 {
        return 1;
    }
    let strip = strip_lines(most, columns).min(lines);
    strip.min(lines_beside(readers, columns))
}

// Whether a line that isn't shown lies between any two that are, in a source whose lines are read one by one then.
fn is_sparse(translation: &Translation) -> bool {
    let plan = &translation.plan;
    lines_apart(translation) == 0 && plan.window.h / 2 >= plan.size.h
}

// For how many lines of the source each of so many readers has room: one where all of them are read straight into their
// place, or one by one.
fn room_lines(
    translation: &Translation,
    columns: &Columns,
    workers: WorkerCount,
    readers: WorkerCount,
) -> u32
    requires translation { IsTranslation translation.now.cat translation.now.id translation.now.plan }
    requires columns { columns.now.count ≤ most_side }
    ensures some { 1 ≤ result }
    ensures bound { columns.now.count * result ≤ most_samples }
    ensures share { columns.now.count * result ≤ room_of_each readers columns.now.count }
{
    let size = source_size(translation);
    if is_all_direct(&translation.plan, columns, size.h) || is_sparse(translation) {
        return 1;
    }
    let most = most_lines(translation, workers);
    room_height(most, columns.count, size.h, readers)
}

impl<F: Folder, L: Ledger> StripReader<F, L> {
    /// A reader for a translation with a lane for each worker, one of so many readers. Each lane holds so many blocks
    /// at a time, 1 to 65,536. It has read nothing. The room for lines has 4,194,304 samples at most, those of all
    /// readers together, unless each has room for one line.
    pub fn new(
        translation: &Translation,
        workers: WorkerCount,
        readers: WorkerCount,
        capacity: u32,
        blank: Blank,
    ) -> Result<StripReader<F, L>, AllocError>
        requires translation { IsTranslation translation.now.cat translation.now.id translation.now.plan }
        requires some { 1 ≤ capacity }
        requires few { capacity ≤ most_blocks }
        requires name { blank.name ≡ L.name }
        requires parts { blank.parts ≡ L.parts }
        requires shares { 0 < blank.parts }
        ensures lanes { IfOk result (λ reader. length reader.team.lanes.items ≡ workers) }
        ensures fresh { IfOk result (λ reader. AreLanesFresh F.Folder reader.team.lanes.items) }
        ensures capacity { IfOk result (λ reader. All (λ lane. room_of lane ≡ capacity) reader.team.lanes.items) }
        ensures room { IfOk result (λ reader. IsRoomFor translation.now.cat translation.now.id translation.now.plan
            reader.columns reader.samples.items) }
        ensures bound { IfOk result (λ reader. length reader.samples.items ≤ most_samples) }
        ensures share { IfOk result (λ reader. length reader.samples.items ≤ room_of_each readers
            reader.columns.count) }
        ensures none { IfOk result (λ reader. reader.team.loads ≡ 0) }
    {
        let alloc = translation.alloc;
        let size = source_size(translation);
        let columns = Columns::new(alloc, &translation.plan, size.w)?;
        let lines = room_lines(translation, &columns, workers, readers);
        let samples = vec![in alloc; 0; area(columns.count, lines)]?;
        let team = Team::new(alloc, workers.get(), capacity, blank)?;
        Ok(StripReader {
            team,
            columns,
            samples,
        })
    }
}

/// Lines of a band of an output, from `first` up to `end`. Bands and lines count from 0.
#[derive(Clone, Copy)]
pub struct Lines {
    pub band: u32,
    pub first: u32,
    pub end: u32,
}

/// The columns and lines of the dataset.
pub fn source_size(translation: &Translation) -> Size
    requires translation { IsTranslation translation.now.cat translation.now.id translation.now.plan }
    ensures size { (d : Dataset) → slice_get translation.now.cat translation.now.id ≡ Some d → result ≡ d.head.size }
    ensures limits { IsRaster result }
{
    let head = translation.cat.head(translation.id);
    head.size
}

// The window of the source that is read for a run.
fn window_of(translation: &Translation, columns: &Columns, run: Run) -> Window
    requires translation { IsTranslation translation.now.cat translation.now.id translation.now.plan }
    requires part { IsPart translation.now.cat translation.now.id translation.now.plan columns.now run }
    ensures window { IsWindow translation.now.cat result }
    ensures dataset { result.dataset ≡ translation.now.id }
    ensures band { (b : OutBand) → slice_get translation.now.plan.bands run.band ≡ Some b → result.band ≡ b.source }
    ensures rect { result.rect ≡ strip_rect columns.now run.span }
{
    let plan = &translation.plan;
    Window {
        dataset: translation.id,
        band: plan.source(run.band),
        rect: Rect {
            x: columns.first,
            y: run.span.top,
            w: columns.count,
            h: run.span.height,
        },
    }
}

// What rows of a band of the output are made with.
fn making_of<'a>(translation: &'a Translation, columns: &'a Columns, band: u32) -> Making<'a>
    requires translation { IsTranslation translation.now.cat translation.now.id translation.now.plan }
    requires columns { (d : Dataset) → slice_get translation.now.cat translation.now.id ≡ Some d →
        AreColumns translation.now.plan d.head.size.w columns.now }
    requires band { band < length translation.now.plan.bands }
    ensures making { IsMaking result }
    ensures plan { result.plan.now ≡ translation.now.plan }
    ensures columns { result.columns.now ≡ columns.now }
    ensures band { result.band ≡ band }
    ensures size { (d : Dataset) → slice_get translation.now.cat translation.now.id ≡ Some d →
        result.size ≡ d.head.size }
{
    let plan = &translation.plan;
    Making {
        plan,
        columns,
        holding: Holding::of(plan, band),
        band,
        size: source_size(translation),
    }
}

// A translation, the columns of its source that are read, and the lines that lanes share, if there are any.
#[derive(Drop)]
struct Shown<'a, S: Scene> {
    translation: &'a Translation,
    columns: &'a Columns,
    shared: Option<&'a shared_lines::Lines<S>>,
}

// Lines that are read at once, and whether they are the pixels of their part of the source, one for one.
#[derive(Clone, Copy)]
struct Next {
    run: Run,
    direct: bool,
}

// The first of some lines, as many as are read at once: into their place where that can be, else into room for so many
// lines of the source.
fn next_run<S: Scene>(shown: &Shown<S>, rows: u32, lines: Lines) -> Next
    requires translation { IsTranslation shown.now.translation.now.cat shown.now.translation.now.id
        shown.now.translation.now.plan }
    requires columns { length shown.now.columns.now.places.items ≡ shown.now.translation.now.plan.size.w }
    requires rows { 1 ≤ rows }
    requires order { lines.first < lines.end }
    requires end { lines.end ≤ shown.now.translation.now.plan.size.h }
    ensures band { result.run.band ≡ lines.band }
    ensures first { result.run.first ≡ lines.first }
    ensures some { lines.first < result.run.end }
    ensures end { result.run.end ≤ lines.end }
    ensures lines { (d : Dataset) → slice_get shown.now.translation.now.cat shown.now.translation.now.id ≡ Some d →
        AreShownIn shown.now.translation.now.plan d.head.size.h lines.first result.run.end result.run.span }
    ensures direct { result.direct ≡ true → (d : Dataset) → slice_get shown.now.translation.now.cat
        shown.now.translation.now.id ≡ Some d → IsDirect shown.now.translation.now.plan d.head.size.h
        shown.now.columns.now result.run }
    ensures few { result.direct ≡ false → result.run.span.height ≤ rows }
{
    let plan = &shown.translation.plan;
    let height = source_size(shown.translation).h;
    let whole = Reach {
        rows: MOST_SIDE,
        apart: 0,
    };
    let run = run_from(plan, height, whole, lines.band, lines.first, lines.end);
    if is_direct(plan, shown.columns, height, run) {
        return Next { run, direct: true };
    }
    let apart = lines_apart(shown.translation);
    let reach = Reach { rows, apart };
    let run = run_from(plan, height, reach, lines.band, lines.first, lines.end);
    Next { run, direct: false }
}

/// The type of a band of the dataset, counted from 0.
pub fn band_type_of(translation: &Translation, band: u32) -> PixelType
    requires translation { IsTranslation translation.now.cat translation.now.id translation.now.plan }
    requires known { (d : Dataset) → slice_get translation.now.cat translation.now.id ≡ Some d →
        band < band_count d.head }
    ensures kind { (d : Dataset) → slice_get translation.now.cat translation.now.id ≡ Some d →
        option_map (λ b. b.kind) (band_at d.head band) ≡ Some result }
{
    translation
        .cat
        .head(translation.id)
        .bands
        .get(band as usize)
        .kind
}

// Reads the lines of a run that are the pixels of its part of the source, one for one, straight into their place. After
// a refusal `out` is unknown.
fn read_direct<R: Threads + Sync, F: Folder, L: Ledger, S: Scene>(
    rt: &R,
    shown: &Shown<S>,
    team: &mut Team<F, L>,
    folder: &mut F,
    run: Run,
    out: &mut [Sample],
) -> Result<(), LoadFault>
    requires ready { AreLanesReady F.Folder S.told S.cat folder.old shown.now.translation.now.cat team.old.lanes.items }
    requires translation { IsTranslation shown.now.translation.now.cat shown.now.translation.now.id
        shown.now.translation.now.plan }
    requires part { IsPart shown.now.translation.now.cat shown.now.translation.now.id shown.now.translation.now.plan
        shown.now.columns.now run }
    requires direct { (d : Dataset) → slice_get shown.now.translation.now.cat shown.now.translation.now.id ≡ Some d →
        IsDirect shown.now.translation.now.plan d.head.size.h shown.now.columns.now run }
    requires room { length out.old ≡ (run.end - run.first) * shown.now.translation.now.plan.size.w }
    ensures samples { OnOk result (AreOf (F.names folder.old) shown.now.translation.now.cat shown.now.translation.now.id
        shown.now.translation.now.plan run.band run.first (length out.old) out.new) }
    ensures ready { AreLanesReady F.Folder S.told S.cat folder.new shown.now.translation.now.cat team.new.lanes.items }
    ensures lanes { length team.new.lanes.items ≡ length team.old.lanes.items }
    ensures capacity { map room_of team.new.lanes.items ≡ map room_of team.old.lanes.items }
    ensures only_read { OnlyReadByViews F.Folder folder.old folder.new }
    ensures cause { HasCause LoadFault.FolderFault (F.faults folder.old) (F.faults folder.new) result }
    ensures changed { IfErr result (TellsChangeIn shown.now.translation.now.cat) }
    ensures never { WhereTold F.Folder folder.old (λ _. IfErr result IsUnchanged) }
    ensures counted { team.old.loads ≤ team.new.loads }
    ensures reads { length team.old.lanes.items ≡ 1 → F.read_calls folder.new ≤ F.read_calls folder.old + most_calls
        shown.now.translation.now.cat * (team.new.loads - team.old.loads) }
{
    let translation = shown.translation;
    let columns = shown.columns;
    let window = window_of(translation, columns, run);
    let supply = Supply {
        alloc: translation.alloc,
        cat: &translation.cat,
        shared: shown.shared,
    };
    let fewest = fewest_for(translation);
    team.read_window_with(rt, &supply, folder, window, fewest, out)?;
    let making = making_of(translation, columns, run.band);
    let kind = band_type_of(translation, window.band);
    hold_all(making.holding, kind, out);
    Ok(())
}

// Reads the lines of a run that are made of the pixels of its part of the source. After a refusal `strip` and `out` are
// unknown.
fn read_made<R: Threads + Sync, F: Folder, L: Ledger, S: Scene>(
    rt: &R,
    shown: &Shown<S>,
    team: &mut Team<F, L>,
    folder: &mut F,
    run: Run,
    strip: &mut [Sample],
    out: &mut [Sample],
) -> Result<(), LoadFault>
    requires ready { AreLanesReady F.Folder S.told S.cat folder.old shown.now.translation.now.cat team.old.lanes.items }
    requires translation { IsTranslation shown.now.translation.now.cat shown.now.translation.now.id
        shown.now.translation.now.plan }
    requires part { IsPart shown.now.translation.now.cat shown.now.translation.now.id shown.now.translation.now.plan
        shown.now.columns.now run }
    requires strip { length strip.old ≡ shown.now.columns.now.count * run.span.height }
    requires room { length out.old ≡ (run.end - run.first) * shown.now.translation.now.plan.size.w }
    ensures samples { OnOk result (AreOf (F.names folder.old) shown.now.translation.now.cat shown.now.translation.now.id
        shown.now.translation.now.plan run.band run.first (length out.old) out.new) }
    ensures ready { AreLanesReady F.Folder S.told S.cat folder.new shown.now.translation.now.cat team.new.lanes.items }
    ensures lanes { length team.new.lanes.items ≡ length team.old.lanes.items }
    ensures capacity { map room_of team.new.lanes.items ≡ map room_of team.old.lanes.items }
    ensures only_read { OnlyReadByViews F.Folder folder.old folder.new }
    ensures cause { HasCause LoadFault.FolderFault (F.faults folder.old) (F.faults folder.new) result }
    ensures changed { IfErr result (TellsChangeIn shown.now.translation.now.cat) }
    ensures never { WhereTold F.Folder folder.old (λ _. IfErr result IsUnchanged) }
    ensures counted { team.old.loads ≤ team.new.loads }
    ensures reads { length team.old.lanes.items ≡ 1 → F.read_calls folder.new ≤ F.read_calls folder.old + most_calls
        shown.now.translation.now.cat * (team.new.loads - team.old.loads) }
{
    let translation = shown.translation;
    let columns = shown.columns;
    let window = window_of(translation, columns, run);
    let supply = Supply {
        alloc: translation.alloc,
        cat: &translation.cat,
        shared: shown.shared,
    };
    let fewest = fewest_for(translation);
    team.read_window_with(rt, &supply, folder, window, fewest, strip)?;
    let making = making_of(translation, columns, run.band);
    make_lines(making, run, strip, out);
    Ok(())
}

// Reads the lines of a run. After a refusal `samples` and `out` are unknown.
fn read_part<R: Threads + Sync, F: Folder, L: Ledger, S: Scene>(
    rt: &R,
    shown: &Shown<S>,
    team: &mut Team<F, L>,
    folder: &mut F,
    next: Next,
    samples: &mut [Sample],
    out: &mut [Sample],
) -> Result<(), LoadFault>
    requires ready { AreLanesReady F.Folder S.told S.cat folder.old shown.now.translation.now.cat team.old.lanes.items }
    requires translation { IsTranslation shown.now.translation.now.cat shown.now.translation.now.id
        shown.now.translation.now.plan }
    requires part { IsPart shown.now.translation.now.cat shown.now.translation.now.id shown.now.translation.now.plan
        shown.now.columns.now next.run }
    requires direct { next.direct ≡ true → (d : Dataset) → slice_get shown.now.translation.now.cat
        shown.now.translation.now.id ≡ Some d → IsDirect shown.now.translation.now.plan d.head.size.h
        shown.now.columns.now next.run }
    requires few { next.direct ≡ false → shown.now.columns.now.count * next.run.span.height ≤ length samples.old }
    requires room { length out.old ≡ (next.run.end - next.run.first) * shown.now.translation.now.plan.size.w }
    ensures samples { OnOk result (AreOf (F.names folder.old) shown.now.translation.now.cat shown.now.translation.now.id
        shown.now.translation.now.plan next.run.band next.run.first (length out.old) out.new) }
    ensures ready { AreLanesReady F.Folder S.told S.cat folder.new shown.now.translation.now.cat team.new.lanes.items }
    ensures lanes { length team.new.lanes.items ≡ length team.old.lanes.items }
    ensures capacity { map room_of team.new.lanes.items ≡ map room_of team.old.lanes.items }
    ensures only_read { OnlyReadByViews F.Folder folder.old folder.new }
    ensures cause { HasCause LoadFault.FolderFault (F.faults folder.old) (F.faults folder.new) result }
    ensures changed { IfErr result (TellsChangeIn shown.now.translation.now.cat) }
    ensures never { WhereTold F.Folder folder.old (λ _. IfErr result IsUnchanged) }
    ensures counted { team.old.loads ≤ team.new.loads }
    ensures reads { length team.old.lanes.items ≡ 1 → F.read_calls folder.new ≤ F.read_calls folder.old + most_calls
        shown.now.translation.now.cat * (team.new.loads - team.old.loads) }
{
    if next.direct {
        return read_direct(rt, shown, team, folder, next.run, out);
    }
    let strip = &mut samples[..area(shown.columns.count, next.run.span.height)];
    read_made(rt, shown, team, folder, next.run, strip, out)
}

// How many lines of so many columns there is room for, at least one.
fn lines_in(samples: usize, columns: u32) -> u32
    requires room { columns ≤ samples }
    ensures some { 1 ≤ result }
    ensures fits { columns * result ≤ samples }
{
    if columns == 0 {
        return 1;
    }
    let lines = samples / columns as usize;
    lines.min(MOST_SIDE as usize) as u32
}

// Reads lines of a band, one run after the other. After a refusal `samples` and `out` are unknown.
fn read_runs<R: Threads + Sync, F: Folder, L: Ledger, S: Scene>(
    rt: &R,
    shown: &Shown<S>,
    team: &mut Team<F, L>,
    folder: &mut F,
    lines: Lines,
    samples: &mut [Sample],
    out: &mut [Sample],
) -> Result<(), LoadFault>
    requires ready { AreLanesReady F.Folder S.told S.cat folder.old shown.now.translation.now.cat team.old.lanes.items }
    requires translation { IsTranslation shown.now.translation.now.cat shown.now.translation.now.id
        shown.now.translation.now.plan }
    requires room { IsRoomFor shown.now.translation.now.cat shown.now.translation.now.id shown.now.translation.now.plan
        shown.now.columns.now samples.old }
    requires band { lines.band < length shown.now.translation.now.plan.bands }
    requires order { lines.first ≤ lines.end }
    requires end { lines.end ≤ shown.now.translation.now.plan.size.h }
    requires size { length out.old ≡ (lines.end - lines.first) * shown.now.translation.now.plan.size.w }
    ensures samples { OnOk result (AreOf (F.names folder.old) shown.now.translation.now.cat shown.now.translation.now.id
        shown.now.translation.now.plan lines.band lines.first (length out.old) out.new) }
    ensures ready { AreLanesReady F.Folder S.told S.cat folder.new shown.now.translation.now.cat team.new.lanes.items }
    ensures lanes { length team.new.lanes.items ≡ length team.old.lanes.items }
    ensures capacity { map room_of team.new.lanes.items ≡ map room_of team.old.lanes.items }
    ensures only_read { OnlyReadByViews F.Folder folder.old folder.new }
    ensures cause { HasCause LoadFault.FolderFault (F.faults folder.old) (F.faults folder.new) result }
    ensures changed { IfErr result (TellsChangeIn shown.now.translation.now.cat) }
    ensures never { WhereTold F.Folder folder.old (λ _. IfErr result IsUnchanged) }
    ensures counted { team.old.loads ≤ team.new.loads }
    ensures reads { length team.old.lanes.items ≡ 1 → F.read_calls folder.new ≤ F.read_calls folder.old + most_calls
        shown.now.translation.now.cat * (team.new.loads - team.old.loads) }
{
    let plan = &shown.translation.plan;
    plan.rules();
    let rows = lines_in(samples.len(), shown.columns.count);
    let mut line = lines.first;
    while line < lines.end {
        let rest = Lines {
            band: lines.band,
            first: line,
            end: lines.end,
        };
        let next = next_run(shown, rows, rest);
        let begin = area(line - lines.first, plan.size.w);
        let end = area(next.run.end - lines.first, plan.size.w);
        let part = &mut out[begin..end];
        read_part(rt, shown, team, folder, next, samples, part)?;
        line = next.run.end;
    }
    Ok(())
}

/// Fills `out` with lines of a band of the translation's output, row by row: each pixel of the output that lies outside
/// the raster is the band's NODATA, or 0. The lanes of the reader's team read beside each other, and are ready for the
/// catalog and the folder; the samples are the same for every number of them. Where lines are given, which stand for
/// the catalog and the folder's files, they look for blocks in them and offer theirs.
///
/// FolderFault comes only where the folder's count rose, Memory freely. Changed comes only where a file was opened
/// again and had another length than the walk found, or was absent: never over a folder that tells its files. After a
/// refusal `out` is unknown, and the lanes are still ready. Each lane has the room that it had. Of one lane each read
/// is behind a load that is counted.
pub fn read_lines<R: Threads + Sync, F: Folder, L: Ledger, S: Scene>(
    rt: &R,
    translation: &Translation,
    reader: &mut StripReader<F, L>,
    folder: &mut F,
    shared: Option<&shared_lines::Lines<S>>,
    lines: Lines,
    out: &mut [Sample],
) -> Result<(), LoadFault>
    requires ready { AreLanesReady F.Folder S.told S.cat folder.old translation.now.cat reader.old.team.lanes.items }
    requires translation { IsTranslation translation.now.cat translation.now.id translation.now.plan }
    requires room { IsRoomFor translation.now.cat translation.now.id translation.now.plan reader.old.columns
        reader.old.samples.items }
    requires band { lines.band < length translation.now.plan.bands }
    requires order { lines.first ≤ lines.end }
    requires end { lines.end ≤ translation.now.plan.size.h }
    requires size { length out.old ≡ (lines.end - lines.first) * translation.now.plan.size.w }
    ensures pixels { WhereTold F.Folder folder.old (λ m. (d : Dataset) →
        slice_get translation.now.cat translation.now.id ≡ Some d →
        OnOk result (out.new ≡ row_by_row (out_pixel translation.now.plan d.head.size (pixel_of_name m d.head.name)
        lines.band) (lines_rect translation.now.plan.size lines.first lines.end))) }
    // each sample is one that the output can hold, whatever the folder tells
    ensures held { OnOk result (All (IsHeldIn translation.now.plan lines.band) out.new) }
    ensures ready { AreLanesReady F.Folder S.told S.cat folder.new translation.now.cat reader.new.team.lanes.items }
    ensures lanes { length reader.new.team.lanes.items ≡ length reader.old.team.lanes.items }
    // each lane has the room that it had
    ensures capacity { map room_of reader.new.team.lanes.items ≡ map room_of reader.old.team.lanes.items }
    ensures room { IsRoomFor translation.now.cat translation.now.id translation.now.plan reader.new.columns
        reader.new.samples.items }
    ensures only_read { OnlyReadByViews F.Folder folder.old folder.new }
    ensures cause { HasCause LoadFault.FolderFault (F.faults folder.old) (F.faults folder.new) result }
    ensures changed { IfErr result (TellsChangeIn translation.now.cat) }
    ensures never { WhereTold F.Folder folder.old (λ _. IfErr result IsUnchanged) }
    ensures counted { reader.old.team.loads ≤ reader.new.team.loads }
    ensures reads { length reader.old.team.lanes.items ≡ 1 → F.read_calls folder.new ≤ F.read_calls folder.old
        + most_calls translation.now.cat * (reader.new.team.loads - reader.old.team.loads) }
{
    translation.plan.rules();
    let columns = &reader.columns;
    let shown = Shown {
        translation,
        columns,
        shared,
    };
    let team = &mut reader.team;
    let samples = reader.samples.as_mut_slice();
    read_runs(rt, &shown, team, folder, lines, samples, out)
}
