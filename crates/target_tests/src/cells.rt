// Cells of each level: their bytes at each capacity, written by lines and by columns and patched once more.
ghost use Rattle.std.specs.Prelude.{◌≡◌, ◌+◌, ◌*◌};

use crate::fixtures::{Asked, Form, Order, Story, Window, closed, holds, none_wrong, ordered};
use crate::pixels::{ELEVATIONS, meets_column, number_of, pixel, samples_in};
use geotransform::Sample;
use outside::{MemFolder, Name};
use std::alloc::{AllocError, Global};
use std::test::*;

/// The cell between the equator and one degree north, and the meridian and one degree east.
pub const CELL: Asked = Asked {
    text: "<VRTDataset rasterXSize=\"121\" rasterYSize=\"121\">\
        <GeoTransform>-0.0041666666666667, 0.0083333333333333, 0, \
        1.0041666666666667, 0, -0.0083333333333333</GeoTransform>\
        <VRTRasterBand dataType=\"Int16\"></VRTRasterBand></VRTDataset>",
    form: Form::Cell(0),
    name: "out.dt0",
    bands: &[],
    seen: None,
    nodata: None,
    kind: None,
};

/// The cell of level 1 between 80 and 81 degrees north, where there are six lines to a column, and the meridian and one
/// degree east.
pub const CELL_ONE: Asked = Asked {
    text: "<VRTDataset rasterXSize=\"201\" rasterYSize=\"1201\">\
        <GeoTransform>-0.0025, 0.005, 0, 81.0004166666666667, 0, -0.0008333333333333</GeoTransform>\
        <VRTRasterBand dataType=\"Int16\"></VRTRasterBand></VRTDataset>",
    form: Form::Cell(1),
    name: "out.dt1",
    ..CELL
};

/// The cell of level 2 between 80 and 81 degrees south, and the meridian and one degree west.
pub const CELL_TWO: Asked = Asked {
    text: "<VRTDataset rasterXSize=\"601\" rasterYSize=\"3601\">\
        <GeoTransform>-1.0008333333333333, 0.0016666666666667, 0, \
        -79.9998611111111111, 0, -0.0002777777777778</GeoTransform>\
        <VRTRasterBand dataType=\"Int16\"></VRTRasterBand></VRTDataset>",
    form: Form::Cell(2),
    name: "out.dt2",
    ..CELL
};

/// The columns, and the lines, of a cell of level 0.
const SIDE: u16 = 121;

/// The bytes in front of the records.
const FRONT: usize = 3428;

/// The parts of a cell's head, and the number of blanks behind each.
type Parts = [(&'static [u8], usize); 5];

const PARTS: Parts = [
    (b"UHL10000000E0000000N03000300NA  U", 14),
    (b"012101210", 24),
    (b"DSIU", 55),
    (b"DTED0", 584),
    (b"ACC", 2697),
];

// Steps of 18 and of 3 seconds.
const PARTS_ONE: Parts = [
    (b"UHL10000000E0800000N01800030NA  U", 14),
    (b"020112010", 24),
    (b"DSIU", 55),
    (b"DTED1", 584),
    (b"ACC", 2697),
];

// Steps of 6 seconds and of one.
const PARTS_TWO: Parts = [
    (b"UHL10010000W0810000S00600010NA  U", 14),
    (b"060136010", 24),
    (b"DSIU", 55),
    (b"DTED2", 584),
    (b"ACC", 2697),
];

fn front(alloc: Global, parts: &Parts) -> Result<Vec<u8>, AllocError> {
    let mut bytes = Vec::new(alloc);
    for (part, blanks) in parts {
        bytes.extend_from_slice(part)?;
        bytes.resize(bytes.len().saturating_add(*blanks), b' ')?;
    }
    Ok(bytes)
}

/// What is asked for, the columns, the lines, and the parts of the head.
type Cell = (Asked, u16, u16, Parts);

const ZERO: Cell = (CELL, SIDE, SIDE, PARTS);

const ONE: Cell = (CELL_ONE, 201, 1201, PARTS_ONE);

const TWO: Cell = (CELL_TWO, 601, 3601, PARTS_TWO);

/// What a file is to show: its head, its columns and lines, and the windows that were written.
#[derive(Clone, Copy)]
struct Shown<'a> {
    front: &'a [u8],
    columns: u16,
    lines: u16,
    story: Story<'a>,
}

// The bytes of a record of so many points.
fn record_len(lines: u16) -> usize
    ensures len { result ≡ 12 + 2 * lines }
{
    12 + 2 * lines as usize
}

// Sign and magnitude, in 16 bits.
fn signed(elevation: Sample) -> Sample {
    if elevation < 0 {
        32_768i128.wrapping_sub(elevation)
    } else {
        elevation
    }
}

// The point of a record, counted from the south, is the pixel of its column.
fn is_point(record: &[u8], shown: Shown<'_>, x: u16, point: u16) -> bool {
    let at = 8 + 2 * point as usize;
    if point >= shown.lines || record.len() != record_len(shown.lines) {
        return false;
    }
    let y = shown.lines - 1 - point;
    number_of(&record[at..at + 2]) as Sample == signed(pixel(shown.story, (0, x, y)))
}

fn sum_of(bytes: &[u8]) -> u64 {
    let mut sum = 0u64;
    for byte in bytes {
        sum = sum.wrapping_add(*byte as u64);
    }
    sum
}

// Whether a record ends with the sum of all bytes before it.
fn ends_with_sum(record: &[u8]) -> bool {
    if record.len() < 4 {
        return false;
    }
    let (summed, sum) = record.split_at(record.len() - 4);
    number_of(sum) == sum_of(summed)
}

// Whether a record begins with its mark, and its column as block count and as longitude count.
fn begins_with_column(record: &[u8], x: u16) -> bool {
    record.len() >= 8
        && record[0] == 170
        && number_of(&record[1..4]) == x as u64
        && number_of(&record[4..6]) == x as u64
        && record[6..8] == [0, 0]
}

// Whether a record begins with its column, holds the pixels of it, and ends with its sum.
fn is_record(record: &[u8], shown: Shown<'_>, x: u16) -> bool {
    begins_with_column(record, x)
        && (0..shown.lines).all(|point| is_point(record, shown, x, point))
        && ends_with_sum(record)
}

// The bytes in front of a column's record.
fn bytes_before(lines: u16, x: u16) -> usize {
    record_len(lines)
        .saturating_mul(x as usize)
        .saturating_add(FRONT)
}

fn record_in(bytes: &[u8], lines: u16, x: u16) -> Option<&[u8]> {
    let from = bytes_before(lines, x);
    bytes.get(from..from.saturating_add(record_len(lines)))
}

// Whether a column that a window meets has its record, and another one zeros.
fn is_column(record: &[u8], shown: Shown<'_>, x: u16) -> bool {
    if shown
        .story
        .windows
        .iter()
        .any(|window| meets_column(window, x))
    {
        is_record(record, shown, x)
    } else {
        record.iter().all(|byte| *byte == 0)
    }
}

fn has_record(bytes: &[u8], shown: Shown<'_>, x: u16) -> bool {
    match record_in(bytes, shown.lines, x) {
        None => false,
        Some(record) => is_column(record, shown, x),
    }
}

// Whether these are the bytes of a cell: its length, the head, and the records of all columns.
fn is_cell(bytes: &[u8], shown: Shown<'_>) -> bool {
    bytes.len() == bytes_before(shown.lines, shown.columns)
        && bytes.get(..FRONT) == Some(shown.front)
        && (0..shown.columns).all(|x| has_record(bytes, shown, x))
}

fn has_cell(folder: &MemFolder, name: &Name, shown: Shown<'_>) -> bool {
    match folder.bytes(name) {
        Some(bytes) => is_cell(bytes, shown),
        None => false,
    }
}

// Whether the windows of a cell end as its file at a capacity.
fn is_written(alloc: Global, order: &Order, capacity: u16, shown: Shown<'_>) -> Result<bool, Fail> {
    Ok(match closed(alloc, order, capacity, shown.story)? {
        Some(folder) => has_cell(&folder, &order.name, shown),
        None => false,
    })
}

fn is_at_each(
    alloc: Global,
    order: &Order,
    capacities: &[u16],
    shown: Shown<'_>,
) -> Result<bool, Fail> {
    for at in 0..capacities.len() {
        if !is_written(alloc, order, capacities[at], shown)? {
            return Ok(false);
        }
    }
    Ok(true)
}

// Whether a cell of these windows has its bytes at each of some capacities.
fn each_is_written(
    alloc: Global,
    (asked, columns, lines, parts): &Cell,
    windows: &[Window],
) -> Result<bool, Fail> {
    let order = ordered(alloc, asked)?;
    let front = front(alloc, parts)?;
    let samples = samples_in(alloc, ELEVATIONS, 20_000)?;
    let shown = Shown {
        front: front.as_slice(),
        columns: *columns,
        lines: *lines,
        story: Story {
            windows,
            samples: samples.as_slice(),
        },
    };
    is_at_each(alloc, &order, &[1, 2, 3, 121], shown)
}

// Whether a cell of level 0 of these windows has its bytes.
fn is_zero_written(alloc: Global, windows: &[Window]) -> Result<bool, Fail> {
    each_is_written(alloc, &ZERO, windows)
}

// Windows over what was written: a part, columns, a line, a column and single pixels.
const PATCHES: [Window; 7] = [
    (0, (5, 3), (40, 7), 15_000),
    (0, (118, 0), (3, 121), 100),
    (0, (0, 60), (121, 1), 16_000),
    (0, (60, 0), (1, 121), 17_000),
    (0, (0, 0), (1, 1), 11),
    (0, (30, 119), (2, 2), 30),
    (0, (44, 9), (0, 3), 0),
];

// All lines, eleven at a time, and windows over them.
fn by_lines(alloc: Global) -> Result<Vec<Window>, AllocError> {
    let mut windows = Vec::new(alloc);
    for strip in 0..11u16 {
        windows.push((0, (0, 11 * strip), (SIDE, 11), 1331 * strip))?;
    }
    windows.extend_from_slice(&PATCHES)?;
    Ok(windows)
}

// All columns, eleven at a time and the last ones first, and windows over them.
fn by_columns(alloc: Global) -> Result<Vec<Window>, AllocError> {
    let mut windows = Vec::new(alloc);
    for strip in 0..11u16 {
        windows.push((0, (110 - 11 * strip, 0), (11, SIDE), 1331 * strip))?;
    }
    windows.extend_from_slice(&PATCHES)?;
    Ok(windows)
}

fn are_lines_written(alloc: Global) -> Result<bool, Fail> {
    let windows = by_lines(alloc)?;
    is_zero_written(alloc, windows.as_slice())
}

#[test]
fn cells_are_written_by_lines(rt: HostRuntime) -> Result<(), Fail> {
    holds(&rt, are_lines_written(rt.alloc()))
}

fn are_columns_written(alloc: Global) -> Result<bool, Fail> {
    let windows = by_columns(alloc)?;
    is_zero_written(alloc, windows.as_slice())
}

#[test]
fn cells_are_written_by_columns(rt: HostRuntime) -> Result<(), Fail> {
    holds(&rt, are_columns_written(rt.alloc()))
}

// Single points, parts of columns and of lines, a whole column, nothing, and parts of what was written, from the east
// to the west and back; no window meets columns 42 to 47 and 53 to 117.
const APART: [Window; 11] = [
    (0, (120, 120), (1, 1), 0),
    (0, (48, 7), (5, 1), 1),
    (0, (50, 0), (1, 121), 6),
    (0, (9, 119), (33, 2), 127),
    (0, (3, 40), (2, 60), 200),
    (0, (60, 60), (0, 5), 320),
    (0, (0, 0), (5, 3), 320),
    (0, (70, 9), (4, 0), 335),
    (0, (49, 5), (3, 4), 335),
    (0, (118, 118), (3, 3), 347),
    (0, (4, 99), (6, 22), 356),
];

#[test]
fn columns_that_no_window_meets_are_zeros(rt: HostRuntime) -> Result<(), Fail> {
    holds(&rt, is_zero_written(rt.alloc(), &APART))
}

// The south-east corner, whole columns, a line, a part of it and of a column, a column, and a point of that column.
const WINDOWS_ONE: [Window; 6] = [
    (0, (200, 1200), (1, 1), 0),
    (0, (7, 0), (2, 1201), 1),
    (0, (0, 600), (201, 1), 2500),
    (0, (8, 595), (5, 11), 3000),
    (0, (100, 0), (1, 1201), 4000),
    (0, (100, 3), (1, 1), 9),
];

// The same of the larger level, and no window meets columns 90 to 254, 261 to 299 and 302 to 599.
const WINDOWS_TWO: [Window; 6] = [
    (0, (600, 3600), (1, 1), 0),
    (0, (255, 0), (2, 3601), 1),
    (0, (0, 1800), (90, 1), 8000),
    (0, (256, 3590), (5, 11), 9000),
    (0, (0, 0), (1, 3601), 10_000),
    (0, (300, 3599), (2, 2), 3),
];

/// A cell, and its windows.
type Level<'a> = (Cell, &'a [Window]);

const LEVELS: [Level<'static>; 2] = [(ONE, &WINDOWS_ONE), (TWO, &WINDOWS_TWO)];

fn is_level(alloc: Global, (cell, windows): &Level<'_>) -> Result<bool, Fail> {
    each_is_written(alloc, cell, windows)
}

// The first of these cells that isn't that of its windows.
fn first_unwritten(alloc: Global, rows: &[Level<'_>]) -> Result<Option<usize>, Fail> {
    for at in 0..rows.len() {
        if !is_level(alloc, &rows[at])? {
            return Ok(Some(at));
        }
    }
    Ok(None)
}

#[test]
fn cells_of_the_other_levels_are_those_of_their_windows(rt: HostRuntime) -> Result<(), Fail> {
    none_wrong(&rt, first_unwritten(rt.alloc(), &LEVELS))
}

// Whether the first record of a cell ends with the null elevation of its north end, and with its sum.
fn is_null(bytes: &[u8], shown: Shown<'_>) -> bool {
    is_cell(bytes, shown)
        && bytes.len() == 34_162
        && bytes[3676..3682] == [0xff, 0xff, 0, 0, 2, 0xa8]
}

fn has_null(folder: &MemFolder, name: &Name, shown: Shown<'_>) -> bool {
    match folder.bytes(name) {
        Some(bytes) => is_null(bytes, shown),
        None => false,
    }
}

fn is_null_at(alloc: Global, order: &Order, capacity: u16, shown: Shown<'_>) -> Result<bool, Fail> {
    Ok(match closed(alloc, order, capacity, shown.story)? {
        Some(folder) => has_null(&folder, &order.name, shown),
        None => false,
    })
}

// Zeros, of which the north end of the first column is null.
fn null_samples(alloc: Global) -> Result<Vec<Sample>, AllocError> {
    let mut samples = vec![in alloc; 0i128; 14_641]?;
    samples[0] = -32_767;
    Ok(samples)
}

fn ends_null(alloc: Global) -> Result<bool, Fail> {
    let order = ordered(alloc, &CELL)?;
    let samples = null_samples(alloc)?;
    let front = front(alloc, &PARTS)?;
    let shown = Shown {
        front: front.as_slice(),
        columns: SIDE,
        lines: SIDE,
        story: Story {
            windows: &[(0, (0, 0), (121, 121), 0)],
            samples: samples.as_slice(),
        },
    };
    Ok(is_null_at(alloc, &order, 1, shown)? && is_null_at(alloc, &order, 64, shown)?)
}

#[test]
fn a_null_elevation_stands_with_its_sum_at_each_capacity(rt: HostRuntime) -> Result<(), Fail> {
    holds(&rt, ends_null(rt.alloc()))
}

// The whole cell, its north-west corner, a line, a column, and a part of the column and of the line.
const CORNERS: [Window; 5] = [
    (0, (0, 0), (121, 121), 0),
    (0, (0, 0), (1, 1), 14_641),
    (0, (0, 119), (121, 1), 14_646),
    (0, (119, 0), (1, 121), 14_646),
    (0, (119, 118), (2, 2), 14_642),
];

// The samples of those windows: zeros for the whole cell, then the corner, the part, and the line and the column.
fn corner_samples(alloc: Global) -> Result<Vec<Sample>, AllocError> {
    let mut samples = vec![in alloc; 0i128; 14_641]?;
    samples.extend_from_slice(&[-32_767, -1, 300, 7, 8])?;
    samples.resize(samples.len().saturating_add(121), 5)?;
    Ok(samples)
}

// Places of the file, and the bytes from there on: the marks and numbers of records, southern points, northern points
// and sums.
const BYTES: [(usize, &[u8]); 6] = [
    (3428, &[170, 0, 0, 0, 0, 0, 0, 0, 0, 0, 0, 5, 0, 0]),
    // -32767, and 170 + 5 + 2 * 255
    (3676, &[255, 255, 0, 0, 2, 173]),
    (3682, &[170, 0, 0, 1, 0, 1, 0, 0, 0, 0, 0, 5]),
    // record 119: 5 in the south, 7 above it, then -1, then 5
    (
        33_654,
        &[170, 0, 0, 119, 0, 119, 0, 0, 0, 5, 0, 7, 128, 1, 0, 5],
    ),
    // record 120: 0 in the south, 8 above it, then 300, then 0
    (
        33_908,
        &[170, 0, 0, 120, 0, 120, 0, 0, 0, 0, 0, 8, 1, 44, 0, 0],
    ),
    // 0 in the north, and 170 + 2 * 120 + 8 + 1 + 44
    (34_156, &[0, 0, 0, 0, 1, 207]),
];

fn has_part(bytes: &[u8], at: usize, part: &[u8]) -> bool {
    bytes.get(at..at.saturating_add(part.len())) == Some(part)
}

/// Whether some bytes have these parts, each at its place.
pub fn has_each(bytes: &[u8], parts: &[(usize, &[u8])]) -> bool {
    for (at, part) in parts {
        if !has_part(bytes, *at, part) {
            return false;
        }
    }
    true
}

fn has_parts(bytes: &[u8]) -> bool {
    bytes.len() == 34_162 && has_each(bytes, &BYTES)
}

fn has_bytes(folder: &MemFolder, name: &Name) -> bool {
    match folder.bytes(name) {
        Some(bytes) => has_parts(bytes),
        None => false,
    }
}

// Whether a cell has those bytes at a capacity.
fn has_corners(
    alloc: Global,
    order: &Order,
    capacity: u16,
    story: Story<'_>,
) -> Result<bool, Fail> {
    Ok(match closed(alloc, order, capacity, story)? {
        Some(folder) => has_bytes(&folder, &order.name),
        None => false,
    })
}

fn first_without(
    alloc: Global,
    order: &Order,
    capacities: &[u16],
    story: Story<'_>,
) -> Result<Option<usize>, Fail> {
    for at in 0..capacities.len() {
        if !has_corners(alloc, order, capacities[at], story)? {
            return Ok(Some(at));
        }
    }
    Ok(None)
}

// The first of these capacities at which it hasn't.
fn first_other(alloc: Global, capacities: &[u16]) -> Result<Option<usize>, Fail> {
    let order = ordered(alloc, &CELL)?;
    let samples = corner_samples(alloc)?;
    let story = Story {
        windows: &CORNERS,
        samples: samples.as_slice(),
    };
    first_without(alloc, &order, capacities, story)
}

#[test]
fn records_have_their_marks_and_sums(rt: HostRuntime) -> Result<(), Fail> {
    none_wrong(&rt, first_other(rt.alloc(), &[1, 2, 3, 64, 121, 200]))
}
