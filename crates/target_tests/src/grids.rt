// Grids whose lines come in strips of several heights, number by number.
use crate::fixtures::{Asked, Order, Story, Window, closed, has, none_wrong, ordered};
use crate::pixels::{INT32, pixel, samples_in};
use crate::texts::SQUARE;
use geotransform::Sample;
use std::alloc::{AllocError, Global};
use std::test::*;

/// Five columns and nine lines of two units.
pub const TALL: Asked = Asked {
    text: "<VRTDataset rasterXSize=\"5\" rasterYSize=\"9\">\
        <GeoTransform>9, 2, 0, 23, 0, -2</GeoTransform>\
        <VRTRasterBand dataType=\"Int32\"></VRTRasterBand></VRTDataset>",
    ..SQUARE
};

// What stands in front of the numbers: the grid ends 9 * 2 below 23.
const FRONT: &str =
    "ncols        5\nnrows        9\nxllcorner    9\nyllcorner    5\ncellsize     2\n";

/// Strips of a few heights, and of none.
pub const STRIPS: [Window; 7] = [
    (0, (0, 0), (5, 0), 9),
    (0, (0, 0), (5, 3), 0),
    (0, (0, 3), (5, 1), 60),
    (0, (0, 4), (5, 0), 7),
    (0, (0, 4), (5, 2), 20),
    (0, (0, 6), (5, 3), 33),
    (0, (0, 9), (5, 0), 1),
];

const WHOLE: [Window; 1] = [(0, (0, 0), (5, 9), 11)];

const LINES: [Window; 9] = [
    (0, (0, 0), (5, 1), 40),
    (0, (0, 1), (5, 1), 35),
    (0, (0, 2), (5, 1), 30),
    (0, (0, 3), (5, 1), 25),
    (0, (0, 4), (5, 1), 20),
    (0, (0, 5), (5, 1), 15),
    (0, (0, 6), (5, 1), 10),
    (0, (0, 7), (5, 1), 5),
    (0, (0, 8), (5, 1), 0),
];

/// The windows, and the blocks of the pool, of which a grid has none.
type Row<'a> = (&'a str, u16);

const ROWS: [Row<'static>; 9] = [
    ("strips", 1),
    ("strips", 2),
    ("strips", 3),
    ("strips", 9),
    ("whole", 1),
    ("whole", 9),
    ("lines", 1),
    ("lines", 3),
    ("lines", 9),
];

fn windows_of(name: &str) -> &'static [Window] {
    match name {
        "strips" => &STRIPS,
        "whole" => &WHOLE,
        _ => &LINES,
    }
}

// Adds the numbers of a line.
fn add_line(text: &mut String, alloc: Global, story: Story<'_>, y: u16) -> Result<(), AllocError> {
    for x in 0..5u16 {
        let sample = pixel(story, (0, x, y));
        text.push_str(if x == 0 { "" } else { " " })?;
        text.push_str(&format!(in alloc; "{sample}")?)?;
    }
    text.push_str("\n")
}

// The text of a grid that shows its windows.
fn text_of(alloc: Global, story: Story<'_>) -> Result<String, AllocError> {
    let mut text = String::new(alloc);
    text.push_str(FRONT)?;
    for y in 0..9u16 {
        add_line(&mut text, alloc, story, y)?;
    }
    Ok(text)
}

// Whether a grid of these windows is the text of its pixels.
fn is_shown(
    alloc: Global,
    order: &Order,
    (name, capacity): Row<'_>,
    samples: &[Sample],
) -> Result<bool, Fail> {
    let story = Story {
        windows: windows_of(name),
        samples,
    };
    let text = text_of(alloc, story)?;
    match closed(alloc, order, capacity, story)? {
        Some(folder) => has(alloc, &folder, "h.asc", text.as_bytes()),
        None => Ok(false),
    }
}

fn first_not_shown(
    alloc: Global,
    order: &Order,
    rows: &[Row<'_>],
    samples: &[Sample],
) -> Result<Option<usize>, Fail> {
    for at in 0..rows.len() {
        if !is_shown(alloc, order, rows[at], samples)? {
            return Ok(Some(at));
        }
    }
    Ok(None)
}

// The first of these grids that is another text.
fn first_unshown(alloc: Global, rows: &[Row<'_>]) -> Result<Option<usize>, Fail> {
    let order = ordered(alloc, &TALL)?;
    let samples = samples_in(alloc, INT32, 70)?;
    first_not_shown(alloc, &order, rows, samples.as_slice())
}

#[test]
fn grids_are_those_of_their_windows(rt: HostRuntime) -> Result<(), Fail> {
    none_wrong(&rt, first_unshown(rt.alloc(), &ROWS))
}
