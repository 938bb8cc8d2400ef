// A tile of 1201 columns and lines, by a few windows: all its pixels.
use crate::fixtures::{Asked, Form, Order, Story, Window, closed, holds, ordered};
use crate::pixels::{INT16, meets_line, number_of, pixel, samples_in};
use geotransform::Sample;
use outside::{MemFolder, Name};
use std::alloc::Global;
use std::test::*;

/// The tile north and east of where the equator and the meridian meet.
pub const TILE: Asked = Asked {
    text: "<VRTDataset rasterXSize=\"1201\" rasterYSize=\"1201\">\
        <GeoTransform>-0.0004166666666667, 0.0008333333333333, 0, \
        1.0004166666666667, 0, -0.0008333333333333</GeoTransform>\
        <VRTRasterBand dataType=\"Int16\"></VRTRasterBand></VRTDataset>",
    form: Form::Tile,
    name: "N00E000.hgt",
    bands: &[],
    seen: None,
    nodata: None,
    kind: None,
};

// Whole lines, both ends of a column, a part in the middle, the last line, and parts of what was written.
const WINDOWS: [Window; 9] = [
    (0, (0, 0), (1201, 3), 0),
    (0, (1200, 0), (1, 50), 500),
    (0, (1200, 1180), (1, 21), 550),
    (0, (600, 598), (7, 5), 1700),
    (0, (0, 1200), (1201, 1), 2000),
    (0, (3, 1), (1, 2), 3300),
    (0, (599, 600), (3, 1), 3400),
    (0, (400, 700), (0, 9), 0),
    (0, (0, 1199), (2, 2), 3500),
];

// The bytes of a line of 1201 pixels.
const LINE: usize = 2402;

// The bytes of a line of a tile, where they are there.
fn line_in(bytes: &[u8], y: u16) -> Option<&[u8]> {
    let from = LINE * y as usize;
    if from + LINE > bytes.len() {
        return None;
    }
    Some(&bytes[from..from + LINE])
}

fn is_pixel(line: &[u8], story: Story<'_>, x: u16, y: u16) -> bool {
    let at = 2 * x as usize;
    if at + 2 > line.len() {
        return false;
    }
    let sample = pixel(story, (0, x, y));
    let unsigned = if sample < 0 {
        sample.wrapping_add(65_536)
    } else {
        sample
    };
    number_of(&line[at..at + 2]) as Sample == unsigned
}

// Whether a line that a window meets has its pixels, and another one zeros.
fn is_line(line: &[u8], story: Story<'_>, y: u16) -> bool {
    if story.windows.iter().any(|window| meets_line(window, y)) {
        (0..1201u16).all(|x| is_pixel(line, story, x, y))
    } else {
        line.iter().all(|byte| *byte == 0)
    }
}

fn has_line(bytes: &[u8], story: Story<'_>, y: u16) -> bool {
    match line_in(bytes, y) {
        None => false,
        Some(line) => is_line(line, story, y),
    }
}

fn is_tile(bytes: &[u8], story: Story<'_>) -> bool {
    bytes.len() == 2_884_802 && (0..1201u16).all(|y| has_line(bytes, story, y))
}

fn has_tile(folder: &MemFolder, name: &Name, story: Story<'_>) -> bool {
    match folder.bytes(name) {
        Some(bytes) => is_tile(bytes, story),
        None => false,
    }
}

// Whether the windows of a tile end as its file at a capacity.
fn is_written(alloc: Global, order: &Order, capacity: u16, story: Story<'_>) -> Result<bool, Fail> {
    Ok(match closed(alloc, order, capacity, story)? {
        Some(folder) => has_tile(&folder, &order.name, story),
        None => false,
    })
}

fn is_at_each(
    alloc: Global,
    order: &Order,
    capacities: &[u16],
    story: Story<'_>,
) -> Result<bool, Fail> {
    for at in 0..capacities.len() {
        if !is_written(alloc, order, capacities[at], story)? {
            return Ok(false);
        }
    }
    Ok(true)
}

fn each_is_written(alloc: Global) -> Result<bool, Fail> {
    let order = ordered(alloc, &TILE)?;
    let samples = samples_in(alloc, INT16, 4_000)?;
    let story = Story {
        windows: &WINDOWS,
        samples: samples.as_slice(),
    };
    is_at_each(alloc, &order, &[1, 2, 3, 1201], story)
}

#[test]
fn tiles_are_those_of_their_windows(rt: HostRuntime) -> Result<(), Fail> {
    holds(&rt, each_is_written(rt.alloc()))
}
