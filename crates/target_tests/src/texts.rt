// Files that are given byte by byte: a part of a raster with its header, and the texts of grids.
use crate::fixtures::{
    Asked, Ended, File, Form, Order, Story, Window, closed, folder_of, has, has_all, none_wrong,
    ordered, written,
};
use esri_hdr::Layout;
use geotransform::Sample;
use std::alloc::Global;
use std::test::*;

// Four columns of a line of five, the last two of which are outside of it.
const PART: Asked = Asked {
    text: "<VRTDataset rasterXSize=\"5\" rasterYSize=\"1\">\
        <VRTRasterBand dataType=\"Byte\"></VRTRasterBand></VRTDataset>",
    form: Form::Raw(Layout::Bil),
    name: "out.bil",
    bands: &[],
    seen: Some((3, 0, 4, 1)),
    nodata: Some(9),
    kind: None,
};

const PART_FILES: [File; 2] = [
    ("out.bil", &[4, 5, 9, 9]),
    (
        "out.hdr",
        b"BYTEORDER      I\nLAYOUT         BIL\nNROWS          1\nNCOLS          4\nNBANDS         1\n\
        NBITS          8\nSKIPBYTES      0\nBANDROWBYTES   4\nTOTALROWBYTES  4\nBANDGAPBYTES   0\n\
        PIXELTYPE      UNSIGNEDINT\nNODATA         9\n",
    ),
];

/// Two columns and lines of two units.
pub const SQUARE: Asked = Asked {
    text: "<VRTDataset rasterXSize=\"2\" rasterYSize=\"2\">\
        <GeoTransform>9, 2, 0, 23, 0, -2</GeoTransform>\
        <VRTRasterBand dataType=\"Int32\"></VRTRasterBand></VRTDataset>",
    form: Form::Grid,
    name: "h.asc",
    bands: &[],
    seen: None,
    nodata: None,
    kind: None,
};

const SQUARE_FILES: [File; 1] = [(
    "h.asc",
    b"ncols        2\nnrows        2\nxllcorner    9\nyllcorner    19\ncellsize     2\n1 -2\n30 4\n",
)];

// Two columns and lines whose width isn't their height.
const OBLONG: Asked = Asked {
    text: "<VRTDataset rasterXSize=\"2\" rasterYSize=\"2\">\
        <GeoTransform>10, 0.5, 0, 20, 0, -0.25</GeoTransform>\
        <VRTRasterBand dataType=\"Int16\"></VRTRasterBand></VRTDataset>",
    name: "g.grd",
    ..SQUARE
};

const OBLONG_FILES: [File; 1] = [(
    "g.grd",
    b"ncols        2\nnrows        2\nxllcorner    10\nyllcorner    19.5\ndx           0.5\ndy           0.25\n1 -2\n\
    30 4\n",
)];

// Three columns and four lines without a place, and with a NODATA.
const BARE: Asked = Asked {
    text: "<VRTDataset rasterXSize=\"3\" rasterYSize=\"4\">\
        <VRTRasterBand dataType=\"Int32\"></VRTRasterBand></VRTDataset>",
    nodata: Some(-9),
    ..SQUARE
};

const BARE_FILES: [File; 1] = [(
    "h.asc",
    b"ncols        3\nnrows        4\nxllcorner    0\nyllcorner    0\ncellsize     1\nNODATA_value -9\n\
    0 -1 2147483647\n-2147483648 5 10\n7 8 9\n-9 -9 100\n",
)];

const BARE_SAMPLES: [Sample; 12] = [
    0,
    -1,
    2_147_483_647,
    -2_147_483_648,
    5,
    10,
    7,
    8,
    9,
    -9,
    -9,
    100,
];

/// What is asked for, the samples of all windows, and the files.
type Given<'a> = (Asked, &'a [Sample], &'a [File<'a>]);

const GIVEN: [(&str, Given<'static>); 4] = [
    ("part", (PART, &[4, 5, 9, 9], &PART_FILES)),
    ("square", (SQUARE, &[1, -2, 30, 4], &SQUARE_FILES)),
    ("oblong", (OBLONG, &[1, -2, 30, 4], &OBLONG_FILES)),
    ("bare", (BARE, &BARE_SAMPLES, &BARE_FILES)),
];

fn find<'a>(rows: &[(&str, Given<'a>)], name: &str) -> Option<Given<'a>> {
    for (own, given) in rows {
        if *own == name {
            return Some(*given);
        }
    }
    None
}

/// What is given under a name, and the windows.
type Row<'a> = (&'a str, &'a [Window]);

const ROWS: [Row<'static>; 6] = [
    ("part", &[(0, (0, 0), (4, 1), 0)]),
    ("square", &[(0, (0, 0), (2, 2), 0)]),
    ("square", &[(0, (0, 0), (2, 1), 0), (0, (0, 1), (2, 1), 2)]),
    ("oblong", &[(0, (0, 0), (2, 2), 0)]),
    (
        "bare",
        &[
            (0, (0, 0), (3, 0), 0),
            (0, (0, 0), (3, 2), 0),
            (0, (0, 2), (3, 0), 6),
            (0, (0, 2), (3, 1), 6),
            (0, (0, 3), (3, 1), 9),
        ],
    ),
    ("bare", &[(0, (0, 0), (3, 4), 0)]),
];

fn is_written(
    alloc: Global,
    order: &Order,
    capacity: u16,
    story: Story<'_>,
    files: &[File<'_>],
) -> Result<bool, Fail> {
    match closed(alloc, order, capacity, story)? {
        Some(folder) => has_all(alloc, &folder, files),
        None => Ok(false),
    }
}

fn is_at_each(
    alloc: Global,
    order: &Order,
    capacities: &[u16],
    story: Story<'_>,
    files: &[File<'_>],
) -> Result<bool, Fail> {
    for at in 0..capacities.len() {
        if !is_written(alloc, order, capacities[at], story, files)? {
            return Ok(false);
        }
    }
    Ok(true)
}

// Whether the files of a row are these at each of some capacities.
fn each_is_written(alloc: Global, (name, windows): Row<'_>) -> Result<bool, Fail> {
    let (asked, samples, files) = find(&GIVEN, name).ok_or("it is given")?;
    let order = ordered(alloc, &asked)?;
    let story = Story { windows, samples };
    is_at_each(alloc, &order, &[1, 2, 3, 4, 200], story, files)
}

// The first of these rows whose files are others.
fn first_unwritten(alloc: Global, rows: &[Row<'_>]) -> Result<Option<usize>, Fail> {
    for at in 0..rows.len() {
        if !each_is_written(alloc, rows[at])? {
            return Ok(Some(at));
        }
    }
    Ok(None)
}

#[test]
fn files_are_as_they_are_given(rt: HostRuntime) -> Result<(), Fail> {
    none_wrong(&rt, first_unwritten(rt.alloc(), &ROWS))
}

// The windows of a grid that aren't its next whole lines.
const OTHERS: [&[Window]; 4] = [
    &[(0, (0, 1), (2, 1), 2)],
    &[(0, (0, 0), (1, 2), 0)],
    &[(0, (0, 0), (2, 1), 0), (0, (0, 0), (2, 1), 0)],
    &[(0, (0, 0), (2, 1), 0), (0, (1, 1), (1, 1), 0)],
];

// Whether windows aren't put, and the grid isn't published.
fn stays(alloc: Global, order: &Order, story: Story<'_>) -> Result<bool, Fail> {
    let mut folder = folder_of(alloc, &[], &[("h.asc", b"old")])?;
    let left = written(alloc, &mut folder, order, 1, story) == Ended::NotAsked;
    Ok(left && folder.drafts() == 0 && has(alloc, &folder, "h.asc", b"old")?)
}

fn is_left(alloc: Global, windows: &[Window]) -> Result<bool, Fail> {
    let order = ordered(alloc, &SQUARE)?;
    let story = Story {
        windows,
        samples: &[1, -2, 30, 4],
    };
    stays(alloc, &order, story)
}

// The first of those rows of windows that is put.
fn first_put(alloc: Global, rows: &[&[Window]]) -> Result<Option<usize>, Fail> {
    for at in 0..rows.len() {
        if !is_left(alloc, rows[at])? {
            return Ok(Some(at));
        }
    }
    Ok(None)
}

#[test]
fn lines_of_a_grid_come_in_their_order(rt: HostRuntime) -> Result<(), Fail> {
    none_wrong(&rt, first_put(rt.alloc(), &OTHERS))
}
