// How several workers share an output that they pack, each of them lines or columns of its own.
ghost use Rattle.std.specs.Prelude.{◌≡◌, ◌≤◌, ◌*◌, IfSome, Some, length, slice_get};
ghost use Rattle.std.specs.Int.{div_ceil};
ghost use Rattle.catalog.specs.Drivers.{Dataset};
ghost use Rattle.strip_copies.specs.Copies.{IsTranslation};
ghost use Rattle.strip_copies.specs.Portions.{extent_of, form_by, form_of, form_of_columns, form_of_lines, has_columns};
ghost use Rattle.strip_copies.specs.Portions.{most_of, most_packed, pays, portions_by, portions_in, portions_of};
ghost use Rattle.strip_copies.specs.Portions.{rows_of, samples_in, share_by_samples, share_of_each, step_of, TakesForm};

use crate::height::{BlockShape, has_blocks, is_cell, lines_alone, lines_near};
use crate::pieces::is_copied;
use crate::reading::source_size;
use crate::translation::Translation;
use catalog::Kind;
use lane_teams::WorkerCount;
use translate_plan::{Driver, Plan};

/// What each of several workers makes of an output, and how it reads that.
#[derive(Clone, Copy)]
pub enum Form {
    /// Lines of all bands, of which it reads whole lines of a band at a time, by `read_lines`.
    Lines,
    /// Lines of all bands, of which it reads some columns at a time, by `read_piece`: they are copied from a cell.
    Pieces,
    /// Columns, of which it reads some lines at a time, by `read_piece`: they are copied into a cell.
    Records,
}

/// How several workers share an output: what each makes, how many lines of all bands, or columns, it makes at a time,
/// and how many lines of them it reads at once, or columns where it reads pieces of lines.
#[derive(Clone, Copy)]
pub struct Portions {
    pub form: Form,
    pub rows: u32,
    pub step: u32,
}

// The fewest samples of an output for each worker, where workers make and pack parts of it beside each other: so many
// take as long as a thread may be late by a tick of the system's clock, which is 4 ms.
const FEWEST_PACKED: u64 = 1_000_000;

// The most samples of lines that all workers pack before they are written: others are packed meanwhile.
const MOST_ROUND: u32 = 2_097_152;

// The most samples of a cell, or of lines that are copied from one.
const MOST_PACKED: u32 = 16_777_216;

// The most blocks, lines of a band or columns, that each worker packs at a time: each of them has room of its own.
const BLOCKS_EACH: u32 = 4_096;

// The columns of a cell that are read at once: so many records stay in a processor's cache.
const PIECE_COLUMNS: u32 = 16;

// The most lines of which samples are put into columns at once.
const RECORD_LINES: u32 = 64;

// Whether the blocks of a driver's files are whole columns.
fn has_columns(driver: Driver) -> bool
    ensures columns { result ≡ has_columns driver }
{
    match driver {
        Driver::Dted { .. } => true,
        Driver::EHdr | Driver::SrtmHgt | Driver::AaiGrid | Driver::Vrt => false,
    }
}

// The form of an output of columns, by whether some dataset is a cell, and whether samples are copied.
fn form_of_columns(cells: bool, copied: bool) -> Option<Form>
    ensures form { result ≡ form_of_columns cells copied }
{
    if cells {
        None
    } else if copied {
        Some(Form::Records)
    } else {
        None
    }
}

// The form of an output of lines, by the kind of the dataset besides.
fn form_of_lines(kind: Kind, cells: bool, copied: bool) -> Option<Form>
    ensures form { result ≡ form_of_lines kind cells copied }
{
    if is_cell(kind) {
        if copied { Some(Form::Pieces) } else { None }
    } else if cells {
        None
    } else {
        Some(Form::Lines)
    }
}

// The form of a driver's output.
fn form_by(driver: Driver, kind: Kind, cells: bool, copied: bool) -> Option<Form>
    ensures form { result ≡ form_by driver kind cells copied }
{
    if has_columns(driver) {
        form_of_columns(cells, copied)
    } else {
        form_of_lines(kind, cells, copied)
    }
}

// The kind of the dataset.
fn kind_of(translation: &Translation) -> Kind
    requires translation { IsTranslation translation.now.cat translation.now.id translation.now.plan }
    ensures kind { (d : Dataset) → slice_get translation.now.cat translation.now.id ≡ Some d → result ≡ d.head.kind }
{
    let head = translation.cat.head(translation.id);
    head.kind
}

// The form of a translation's output.
fn form_of(translation: &Translation) -> Option<Form>
    requires translation { IsTranslation translation.now.cat translation.now.id translation.now.plan }
    ensures form { (d : Dataset) → slice_get translation.now.cat translation.now.id ≡ Some d →
        result ≡ form_of translation.now.cat d translation.now.plan }
{
    let plan = &translation.plan;
    let kind = kind_of(translation);
    let size = source_size(translation);
    let cells = has_blocks(&translation.cat, BlockShape::Columns);
    let copied = is_copied(plan, size);
    form_by(plan.driver, kind, cells, copied)
}

// The samples of a line of all bands.
fn line_of(plan: &Plan) -> u64
    ensures line { result ≡ plan.now.size.w * length plan.now.bands }
    ensures some { 1 ≤ result }
    ensures few { result ≤ 1073741824 }
{
    plan.rules();
    let width = plan.size.w;
    let bands = plan.count();
    width as u64 * bands as u64
}

// The samples of an output.
fn samples_of(plan: &Plan) -> u64
    ensures samples { result ≡ plan.now.size.w * length plan.now.bands * plan.now.size.h }
{
    plan.rules();
    let line = line_of(plan);
    let height = plan.size.h;
    line * height as u64
}

// Whether each of so many workers gets enough samples of the output.
fn pays(plan: &Plan, workers: u32) -> bool
    requires some { 1 ≤ workers }
    ensures pays { result ≡ pays workers plan.now }
{
    workers > 1 && samples_of(plan) / workers as u64 >= FEWEST_PACKED
}

// The most samples that all workers pack at a time.
fn most_of(form: Form) -> u32
    ensures most { result ≡ most_of form }
    ensures few { result ≤ most_packed }
{
    match form {
        Form::Lines => MOST_ROUND,
        Form::Pieces | Form::Records => MOST_PACKED,
    }
}

// How many lines, or columns, an output has.
fn extent_of(form: Form, plan: &Plan) -> u32
    ensures extent { result ≡ extent_of form plan.now.size }
    ensures some { 1 ≤ result }
{
    plan.rules();
    match form {
        Form::Lines | Form::Pieces => plan.size.h,
        Form::Records => plan.size.w,
    }
}

// The samples of each of them.
fn samples_in(form: Form, plan: &Plan) -> u64
    ensures samples { result ≡ samples_in form plan.now }
    ensures some { 1 ≤ result }
{
    plan.rules();
    match form {
        Form::Lines | Form::Pieces => line_of(plan),
        Form::Records => plan.size.h as u64,
    }
}

// How many of them have no more samples than each of so many workers may make at a time.
fn share_by_samples(form: Form, plan: &Plan, workers: u32) -> u32
    requires some { 1 ≤ workers }
    ensures share { result ≡ share_by_samples form workers plan.now }
    ensures bound { workers * (result * samples_in form plan.now) ≤ most_packed }
{
    let most = most_of(form);
    let room = most / workers;
    let samples = samples_in(form, plan);
    let share = room as u64 / samples;
    share as u32
}

// How many of them each of so many workers may make at a time.
fn share_of_each(form: Form, plan: &Plan, workers: u32) -> u32
    requires some { 1 ≤ workers }
    ensures share { result ≡ share_of_each form workers plan.now }
    ensures bound { workers * (result * samples_in form plan.now) ≤ most_packed }
{
    plan.rules();
    let share = share_by_samples(form, plan, workers);
    let bands = plan.count();
    share.min(BLOCKS_EACH / bands)
}

// In how many turns so many workers make all of an extent, at most so many each at a time.
fn turns_of(extent: u32, most: u32, workers: u32) -> u32
    requires some { 1 ≤ extent }
    requires most { 1 ≤ most }
    requires workers { 1 ≤ workers }
    ensures turns { result ≡ div_ceil extent (most * workers) }
    ensures some { 1 ≤ result }
    ensures all { extent ≤ result * (most * workers) }
    ensures few { result ≤ extent }
{
    let each = most as u64 * workers as u64;
    let turns = (extent as u64).div_ceil(each);
    turns as u32
}

// How many of an extent each of so many workers makes at a time, at most so many: in as few turns as can be, and about
// as many in each.
fn rows_of(extent: u32, most: u32, workers: u32) -> u32
    requires some { 1 ≤ extent }
    requires most { 1 ≤ most }
    requires workers { 1 ≤ workers }
    ensures rows { result ≡ rows_of extent most workers }
    ensures some { 1 ≤ result }
    ensures few { result ≤ most }
{
    let turns = turns_of(extent, most, workers);
    let parts = turns as u64 * workers as u64;
    let rows = (extent as u64).div_ceil(parts);
    rows as u32
}

// How many lines, or columns of a cell that is read, are read at once.
fn step_of(form: Form, translation: &Translation, rows: u32) -> u32
    requires some { 1 ≤ rows }
    ensures step { result ≡ step_of form translation.now.cat translation.now.plan rows }
    ensures some { 1 ≤ result }
{
    match form {
        Form::Lines => lines_alone(translation).min(rows),
        Form::Pieces => PIECE_COLUMNS,
        Form::Records => lines_near(RECORD_LINES, rows),
    }
}

// The portions of a form, where each of so many workers may make one line or column at least.
fn portions_in(form: Form, translation: &Translation, workers: u32) -> Option<Portions>
    requires takes { TakesForm form translation.now.cat translation.now.id translation.now.plan }
    requires workers { 1 ≤ workers }
    ensures portions { result ≡ portions_in form workers translation.now.cat translation.now.plan }
    ensures form { IfSome result (λ s. TakesForm s.form translation.now.cat translation.now.id translation.now.plan) }
    ensures rows { IfSome result (λ s. 1 ≤ s.rows) }
    ensures step { IfSome result (λ s. 1 ≤ s.step) }
    ensures bound { IfSome result (λ s. workers * (s.rows * samples_in s.form translation.now.plan) ≤ most_packed) }
{
    let plan = &translation.plan;
    let most = share_of_each(form, plan, workers);
    if most == 0 {
        return None;
    }
    let extent = extent_of(form, plan);
    let rows = rows_of(extent, most, workers);
    let step = step_of(form, translation, rows);
    Some(Portions { form, rows, step })
}

// The portions of a translation's form, if it has one.
fn portions_by(translation: &Translation, workers: u32) -> Option<Portions>
    requires translation { IsTranslation translation.now.cat translation.now.id translation.now.plan }
    requires workers { 1 ≤ workers }
    ensures portions { (d : Dataset) → slice_get translation.now.cat translation.now.id ≡ Some d → result ≡ portions_by
        (form_of translation.now.cat d translation.now.plan) workers translation.now.cat translation.now.plan }
    ensures form { IfSome result (λ s. TakesForm s.form translation.now.cat translation.now.id translation.now.plan) }
    ensures rows { IfSome result (λ s. 1 ≤ s.rows) }
    ensures step { IfSome result (λ s. 1 ≤ s.step) }
    ensures bound { IfSome result (λ s. workers * (s.rows * samples_in s.form translation.now.plan) ≤ most_packed) }
{
    match form_of(translation) {
        Some(form) => portions_in(form, translation, workers),
        None => None,
    }
}

/// How several workers share the output of a translation. None exactly where one worker is asked for, where less than
/// 1,000,000 samples come to each, where a line or a column alone is more than each may pack at a time, over a mosaic
/// of cells, and where a cell is read or written, and samples aren't copied or both are cells.
///
/// All workers together make 2,097,152 samples of lines at most at a time, and 16,777,216 of what is copied from a cell
/// or into one; and each of them makes 4,096 lines of a band, or columns, at most.
pub fn portions_of(translation: &Translation, workers: WorkerCount) -> Option<Portions>
    requires translation { IsTranslation translation.now.cat translation.now.id translation.now.plan }
    ensures portions { (d : Dataset) → slice_get translation.now.cat translation.now.id ≡ Some d →
        result ≡ portions_of workers translation.now.cat d translation.now.plan }
    ensures form { IfSome result (λ s. TakesForm s.form translation.now.cat translation.now.id translation.now.plan) }
    ensures rows { IfSome result (λ s. 1 ≤ s.rows) }
    ensures step { IfSome result (λ s. 1 ≤ s.step) }
    ensures bound { IfSome result (λ s. workers * (s.rows * samples_in s.form translation.now.plan) ≤ most_packed) }
{
    let count = workers.get();
    if pays(&translation.plan, count) {
        portions_by(translation, count)
    } else {
        None
    }
}
