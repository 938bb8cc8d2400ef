// How many lines are copied at a time.
ghost use Rattle.std.specs.Prelude.{◌≡◌, ◌<◌, ◌≤◌, ◌*◌, ◌/◌, Some, length, slice_get};
ghost use Rattle.catalog.specs.Drivers.{Dataset};
ghost use Rattle.strip_copies.specs.declared.height.BlockShape.TheVariants.{Squares};
ghost use Rattle.strip_copies.specs.Heights.{fewest_read, has_blocks, is_cell, is_cut_into, is_grid, is_made};
ghost use Rattle.strip_copies.specs.Heights.{is_mosaic};
ghost use Rattle.strip_copies.specs.Heights.{is_shared, is_tall, is_woven, lines_alone, lines_copied, lines_each};
ghost use Rattle.strip_copies.specs.Heights.{lines_beside, lines_held, lines_near, most_lines, room_of_each};
ghost use Rattle.strip_copies.specs.Heights.{strip_height, most_samples};
ghost use Rattle.catalog.specs.Dataset.{square_side};
ghost use Rattle.geotransform.specs.Limits.{most_side};
ghost use Rattle.lane_teams.specs.Workers.{most_workers};

use crate::making::area;
use crate::shares::{FEWEST_COPIED, FEWEST_MADE};
use crate::translation::Translation;
use catalog::{Catalog, Kind, SQUARE_SIDE};
use esri_hdr::Layout;
use geotransform::MOST_SIDE;
use lane_teams::WorkerCount;
use translate_plan::{Driver, Plan};

/// How a dataset's blocks lie, where they aren't lines of bytes.
#[derive(Clone, Copy)]
pub enum BlockShape {
    /// Whole columns, as in a DTED cell.
    Columns,
    /// Squares of 128 pixels, as in a mosaic.
    Squares,
    /// Lines of digits, as in a grid.
    Digits,
}

/// The most samples of a strip of more than one line.
const MOST_SAMPLES: u32 = 4_194_304;

// So many samples stay in a processor's cache: 1 MiB.
const SAMPLES_NEAR: u32 = 65_536;

// The lines of a file of lines that each of several workers reads, and the most that a single one reads at a time.
const FILE_LINES: u32 = 32;

/// The lines of a strip of so many columns, at most so many. It has 4,194,304 samples at most, or one line.
pub fn strip_lines(most: u32, width: u32) -> u32
    requires any { 1 ≤ most }
    requires some { 0 < width }
    requires most { width ≤ most_side }
    ensures height { result ≡ strip_height most width }
    ensures least { 1 ≤ result }
    ensures bound { width * result ≤ most_samples }
{
    let lines = MOST_SAMPLES / width;
    lines.min(most)
}

/// Whether datasets of a kind are cells.
pub fn is_cell(kind: Kind) -> bool
    ensures cell { result ≡ is_cell kind }
{
    match kind {
        Kind::Dted => true,
        Kind::Raw | Kind::Hgt | Kind::Ascii | Kind::Vrt => false,
    }
}

// Whether they are mosaics.
fn is_mosaic(kind: Kind) -> bool
    ensures mosaic { result ≡ is_mosaic kind }
{
    match kind {
        Kind::Vrt => true,
        Kind::Raw | Kind::Dted | Kind::Hgt | Kind::Ascii => false,
    }
}

// Whether they are grids.
fn is_grid(kind: Kind) -> bool
    ensures grid { result ≡ is_grid kind }
{
    match kind {
        Kind::Ascii => true,
        Kind::Raw | Kind::Dted | Kind::Hgt | Kind::Vrt => false,
    }
}

// Whether a dataset of the catalog is cut into such blocks.
fn is_cut_at(cat: &Catalog, id: u32, shape: BlockShape) -> bool
    requires known { id < length cat.now }
    ensures cut { (d : Dataset) → slice_get cat.now id ≡ Some d → result ≡ is_cut_into shape d.head.kind }
{
    let head = cat.head(id);
    match shape {
        BlockShape::Columns => is_cell(head.kind),
        BlockShape::Squares => is_mosaic(head.kind),
        BlockShape::Digits => is_grid(head.kind),
    }
}

/// Whether some dataset of the catalog is cut into such blocks.
pub fn has_blocks(cat: &Catalog, shape: BlockShape) -> bool
    ensures blocks { result ≡ has_blocks shape cat.now }
{
    for id in 0..cat.count() {
        if is_cut_at(cat, id, shape) {
            return true;
        }
    }
    false
}

// Whether strips are as tall as they can be: the walk met a DTED cell, or the output is one, whose columns would be
// read or written again for every strip.
fn is_tall(translation: &Translation) -> bool
    ensures tall { result ≡ is_tall translation.now.cat translation.now.plan.driver }
{
    let plan = &translation.plan;
    match plan.driver {
        Driver::Dted { .. } => true,
        Driver::EHdr | Driver::SrtmHgt | Driver::AaiGrid | Driver::Vrt => {
            has_blocks(&translation.cat, BlockShape::Columns)
        }
    }
}

// The lines of a strip that each of several workers reads: as many as a square of a mosaic has, so that it isn't made
// again for each of its lines, and 32 of a file of lines.
fn lines_each(cat: &Catalog) -> u32
    ensures lines { result ≡ lines_each cat.now }
    ensures some { 1 ≤ result }
    ensures few { result ≤ square_side }
{
    if has_blocks(cat, BlockShape::Squares) {
        SQUARE_SIDE
    } else {
        FILE_LINES
    }
}

// Whether samples are made of others, or of digits: those of a file of bytes are copied.
fn is_made(cat: &Catalog) -> bool
    ensures made { result ≡ is_made cat.now }
{
    has_blocks(cat, BlockShape::Squares) || has_blocks(cat, BlockShape::Digits)
}

// The fewest samples for which a worker gets a thread.
fn fewest_read(cat: &Catalog) -> usize
    ensures fewest { result ≡ fewest_read cat.now }
{
    if is_made(cat) {
        FEWEST_MADE
    } else {
        FEWEST_COPIED
    }
}

// The most samples of a strip for each of so many workers.
fn share_of(workers: u32) -> usize
    requires some { 1 ≤ workers }
    ensures share { result ≡ most_samples / workers }
{
    MOST_SAMPLES as usize / workers as usize
}

// Whether several workers read a strip: where there are several, and each of them has enough samples for a thread.
fn is_shared(translation: &Translation, workers: WorkerCount) -> bool
    ensures shared { result ≡ is_shared workers translation.now.cat translation.now.plan.window.w }
{
    let cat = &translation.cat;
    let count = workers.get();
    let share = area(lines_each(cat), translation.plan.window.w).min(share_of(count));
    count > 1 && share >= fewest_read(cat)
}

/// The lines of so many columns whose samples stay in a processor's cache: 65,536 samples, which are 1 MiB; at least
/// one line, and at most so many.
pub fn lines_near(most: u32, width: u32) -> u32
    requires some { 0 < width }
    requires lines { 1 ≤ most }
    ensures lines { result ≡ lines_near most width }
    ensures any { 1 ≤ result }
{
    (SAMPLES_NEAR / width).max(1).min(most)
}

/// The lines of a strip that one worker reads alone: but for those of digits, those that stay in the cache.
pub fn lines_alone(translation: &Translation) -> u32
    ensures lines { result ≡ lines_alone translation.now.cat translation.now.plan.size.w }
    ensures some { 1 ≤ result }
{
    let plan = &translation.plan;
    plan.rules();
    let cat = &translation.cat;
    let each = lines_each(cat);
    if has_blocks(cat, BlockShape::Digits) {
        each
    } else {
        lines_near(each, plan.size.w)
    }
}

// So many lines for each of so many workers.
fn lines_of_all(each: u32, workers: u32) -> u32
    requires lines { each ≤ square_side }
    requires workers { workers ≤ most_workers }
    requires any { 1 ≤ each }
    requires some { 1 ≤ workers }
    ensures lines { result ≡ each * workers }
    ensures some { 1 ≤ result }
{
    each * workers
}

/// The most lines of a strip: so many for each of the workers that share it, else those that one reads alone; of cells
/// as many as it can have.
pub fn most_lines(translation: &Translation, workers: WorkerCount) -> u32
    ensures most { result ≡ most_lines workers translation.now.cat translation.now.plan }
    ensures some { 1 ≤ result }
{
    if is_tall(translation) {
        MOST_SIDE
    } else if is_shared(translation, workers) {
        lines_of_all(lines_each(&translation.cat), workers.get())
    } else {
        lines_alone(translation)
    }
}

/// The lines of so many columns for which each of so many readers has room, at least one: all of them have room for
/// 4,194,304 samples at most, or each for one line.
pub fn lines_beside(readers: WorkerCount, width: u32) -> u32
    requires some { 0 < width }
    ensures lines { result ≡ lines_beside readers width }
    ensures least { 1 ≤ result }
    ensures share { width * result ≤ room_of_each readers width }
{
    let count = readers.get();
    (MOST_SAMPLES / count / width).max(1)
}

/// Whether several lanes of a translation may read the same blocks: the walk met a mosaic, whose squares each of them
/// may need. A line of a file is read by one of them.
pub fn shares_blocks(translation: &Translation) -> bool
    ensures shares { result ≡ has_blocks Squares translation.now.cat }
{
    has_blocks(&translation.cat, BlockShape::Squares)
}

/// How many lines that nothing shows may lie between lines that are read at once: any number where blocks are taller
/// than a line, none where each line of a file is a block.
pub fn lines_apart(translation: &Translation) -> u32 {
    let cat = &translation.cat;
    if has_blocks(cat, BlockShape::Columns) || has_blocks(cat, BlockShape::Squares) {
        MOST_SIDE
    } else {
        0
    }
}

// Whether the lines of an output hold several bands, pixel by pixel.
fn is_woven(plan: &Plan) -> bool
    ensures woven { result ≡ is_woven plan.now.layout (length plan.now.bands) }
{
    match plan.layout {
        Layout::Bip => 1 < plan.count(),
        Layout::Bil | Layout::Bsq => false,
    }
}

// The most lines of which none leaves a pool of so many blocks before all of its bands are written, where strips aren't
// as tall as they can be.
fn lines_held(translation: &Translation, blocks: u32) -> u32
    requires some { 1 ≤ blocks }
    ensures lines { result ≡ lines_held blocks translation.now.cat translation.now.plan }
    ensures some { 1 ≤ result }
{
    if is_woven(&translation.plan) && !is_tall(translation) {
        blocks
    } else {
        MOST_SIDE
    }
}

/// How many lines of the output so many workers copy at a time: those of a strip, or all that there are; but no more
/// than the blocks that are held of it, where each of its lines holds several bands and has to be written once for all
/// of them.
pub fn strip_height(translation: &Translation, workers: WorkerCount, blocks: u32) -> u32
    requires some { 1 ≤ blocks }
    ensures height { result ≡ lines_copied workers blocks translation.now.cat translation.now.plan }
    ensures some { 1 ≤ result }
    ensures bound { translation.now.plan.size.w * result ≤ most_samples }
{
    let plan = &translation.plan;
    plan.rules();
    let lines = strip_lines(most_lines(translation, workers), plan.size.w).min(plan.size.h);
    lines.min(lines_held(translation, blocks))
}
