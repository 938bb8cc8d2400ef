// What is asked for and windows of it, by their names.
use crate::cells::{CELL, CELL_ONE, CELL_TWO};
use crate::fixtures::{Asked, Form, Order, Story, Window, ordered};
use crate::grids::{STRIPS, TALL};
use crate::texts::SQUARE;
use crate::tiles::TILE;
use esri_hdr::Layout;
use geotransform::Sample;
use std::alloc::Global;
use std::test::*;

// Three bands of two lines.
const BANDS: Asked = Asked {
    text: "<VRTDataset rasterXSize=\"3\" rasterYSize=\"2\">\
        <VRTRasterBand dataType=\"Byte\"></VRTRasterBand>\
        <VRTRasterBand dataType=\"Byte\"></VRTRasterBand>\
        <VRTRasterBand dataType=\"Byte\"></VRTRasterBand></VRTDataset>",
    form: Form::Raw(Layout::Bil),
    name: "out.bil",
    bands: &[],
    seen: None,
    nodata: None,
    kind: None,
};

pub const BANDS_BIP: Asked = Asked {
    form: Form::Raw(Layout::Bip),
    ..BANDS
};

const BANDS_BSQ: Asked = Asked {
    form: Form::Raw(Layout::Bsq),
    ..BANDS
};

// Two lines of 65,000 bytes, of which one takes at most three calls.
const LONG: Asked = Asked {
    text: "<VRTDataset rasterXSize=\"65000\" rasterYSize=\"2\">\
        <VRTRasterBand dataType=\"Byte\"></VRTRasterBand></VRTDataset>",
    ..BANDS
};

// Two lines of three bands, pixel by pixel: 72,000 bytes, of which one takes at most four calls, in bytes, in pairs of
// bytes and in eights.
const WIDE: Asked = Asked {
    text: "<VRTDataset rasterXSize=\"24000\" rasterYSize=\"2\">\
        <VRTRasterBand dataType=\"Byte\"></VRTRasterBand></VRTDataset>",
    bands: &[1, 1, 1],
    ..BANDS_BIP
};

const WIDE_PAIRS: Asked = Asked {
    text: "<VRTDataset rasterXSize=\"12000\" rasterYSize=\"2\">\
        <VRTRasterBand dataType=\"Int16\"></VRTRasterBand></VRTDataset>",
    ..WIDE
};

const WIDE_EIGHTS: Asked = Asked {
    text: "<VRTDataset rasterXSize=\"3000\" rasterYSize=\"2\">\
        <VRTRasterBand dataType=\"UInt64\"></VRTRasterBand></VRTDataset>",
    ..WIDE
};

// All bands in whole lines, the last one first.
const LINES: [Window; 4] = [
    (2, (0, 0), (3, 2), 0),
    (1, (0, 1), (3, 1), 6),
    (1, (0, 0), (3, 1), 9),
    (0, (0, 0), (3, 2), 12),
];

// One line of each band, and then the next.
const LINE_BY_LINE: [Window; 6] = [
    (0, (0, 0), (3, 1), 0),
    (1, (0, 0), (3, 1), 3),
    (2, (0, 0), (3, 1), 6),
    (2, (0, 1), (3, 1), 9),
    (0, (0, 1), (3, 1), 12),
    (1, (0, 1), (3, 1), 15),
];

// All bands in columns.
const COLUMNS: [Window; 4] = [
    (0, (0, 0), (2, 2), 0),
    (1, (0, 0), (3, 2), 0),
    (0, (2, 0), (1, 2), 4),
    (2, (1, 0), (1, 2), 4),
];

// Whole lines of all bands, one band after another.
const WIDE_LINES: [Window; 3] = [
    (0, (0, 0), (24_000, 2), 0),
    (1, (0, 0), (24_000, 2), 1),
    (2, (0, 0), (24_000, 2), 2),
];

const PAIR_LINES: [Window; 3] = [
    (0, (0, 0), (12_000, 2), 0),
    (1, (0, 0), (12_000, 2), 1),
    (2, (0, 0), (12_000, 2), 2),
];

const EIGHT_LINES: [Window; 3] = [
    (0, (0, 0), (3_000, 2), 0),
    (1, (0, 0), (3_000, 2), 1),
    (2, (0, 0), (3_000, 2), 2),
];

// One line of each band, and then the next.
const WIDE_LINE_BY_LINE: [Window; 6] = [
    (0, (0, 0), (24_000, 1), 0),
    (1, (0, 0), (24_000, 1), 1),
    (2, (0, 0), (24_000, 1), 2),
    (2, (0, 1), (24_000, 1), 3),
    (0, (0, 1), (24_000, 1), 4),
    (1, (0, 1), (24_000, 1), 5),
];

const TILE_LINES: [Window; 3] = [
    (0, (0, 0), (1201, 2), 0),
    (0, (0, 2), (1201, 1), 100),
    (0, (0, 1200), (1201, 1), 200),
];

const TILE_PARTS: [Window; 2] = [(0, (0, 0), (1, 40), 0), (0, (1, 0), (1200, 2), 0)];

const CELL_PARTS: [Window; 2] = [(0, (0, 0), (121, 2), 0), (0, (40, 2), (3, 119), 0)];

const PARTS_ONE: [Window; 2] = [(0, (0, 0), (201, 2), 0), (0, (40, 2), (3, 1199), 0)];

const PARTS_TWO: [Window; 2] = [(0, (0, 0), (601, 2), 0), (0, (40, 2), (3, 3599), 0)];

// Whole columns, and some of them once more.
const CELL_COLUMNS: [Window; 4] = [
    (0, (0, 0), (2, 121), 0),
    (0, (119, 0), (2, 121), 100),
    (0, (1, 0), (2, 121), 200),
    (0, (0, 0), (121, 121), 300),
];

const COLUMNS_ONE: [Window; 3] = [
    (0, (0, 0), (2, 1201), 0),
    (0, (199, 0), (2, 1201), 100),
    (0, (1, 0), (2, 1201), 200),
];

const COLUMNS_TWO: [Window; 3] = [
    (0, (0, 0), (2, 3601), 0),
    (0, (599, 0), (2, 3601), 100),
    (0, (1, 0), (2, 3601), 200),
];

const SQUARE_LINES: [Window; 2] = [(0, (0, 0), (2, 1), 0), (0, (0, 1), (2, 1), 2)];

const SQUARE_WHOLE: [Window; 1] = [(0, (0, 0), (2, 2), 0)];

const LONG_LINES: [Window; 2] = [(0, (0, 0), (65_000, 1), 0), (0, (0, 1), (65_000, 1), 1)];

const LONG_PARTS: [Window; 3] = [
    (0, (0, 0), (40_000, 2), 0),
    (0, (40_000, 0), (25_000, 1), 0),
    (0, (40_000, 1), (25_000, 1), 1),
];

// Blocks of each band that are met once, in part, in another order than they stand in.
const APART: [Window; 3] = [
    (2, (2, 0), (1, 2), 0),
    (0, (0, 0), (2, 2), 2),
    (1, (1, 0), (2, 2), 6),
];

const TILE_APART: [Window; 3] = [
    (0, (1200, 1200), (1, 1), 0),
    (0, (0, 0), (1, 40), 1),
    (0, (5, 40), (7, 3), 41),
];

const CELL_APART: [Window; 3] = [
    (0, (43, 120), (78, 1), 0),
    (0, (0, 0), (40, 2), 0),
    (0, (40, 2), (3, 119), 0),
];

// Two lines in part, and the first one once more.
const AGAIN: [Window; 2] = [(0, (0, 0), (1, 2), 0), (0, (1, 0), (1, 1), 2)];

// Two columns in part, and the first one once more.
const CELL_AGAIN: [Window; 2] = [(0, (0, 0), (2, 1), 0), (0, (0, 1), (1, 1), 2)];

// Both lines of the first band, and then those of the second one, for which each comes back.
const SECOND: [Window; 2] = [(0, (0, 0), (3, 2), 0), (1, (0, 0), (3, 2), 6)];

const FIRST: [Window; 1] = [(0, (0, 0), (3, 2), 0)];

const FIRST_PART: [Window; 1] = [(0, (1, 0), (1, 2), 0)];

const ASKED: [(&str, Asked); 13] = [
    ("bands", BANDS),
    ("bands bip", BANDS_BIP),
    ("bands bsq", BANDS_BSQ),
    ("long", LONG),
    ("wide", WIDE),
    ("wide pairs", WIDE_PAIRS),
    ("wide eights", WIDE_EIGHTS),
    ("tile", TILE),
    ("cell", CELL),
    ("cell one", CELL_ONE),
    ("cell two", CELL_TWO),
    ("square", SQUARE),
    ("tall", TALL),
];

const WINDOWS: [(&str, &[Window]); 28] = [
    ("lines", &LINES),
    ("line by line", &LINE_BY_LINE),
    ("columns", &COLUMNS),
    ("wide lines", &WIDE_LINES),
    ("pair lines", &PAIR_LINES),
    ("eight lines", &EIGHT_LINES),
    ("wide line by line", &WIDE_LINE_BY_LINE),
    ("tile lines", &TILE_LINES),
    ("tile parts", &TILE_PARTS),
    ("cell parts", &CELL_PARTS),
    ("parts one", &PARTS_ONE),
    ("parts two", &PARTS_TWO),
    ("cell columns", &CELL_COLUMNS),
    ("columns one", &COLUMNS_ONE),
    ("columns two", &COLUMNS_TWO),
    ("square lines", &SQUARE_LINES),
    ("square whole", &SQUARE_WHOLE),
    ("long lines", &LONG_LINES),
    ("long parts", &LONG_PARTS),
    ("apart", &APART),
    ("tile apart", &TILE_APART),
    ("cell apart", &CELL_APART),
    ("again", &AGAIN),
    ("cell again", &CELL_AGAIN),
    ("second", &SECOND),
    ("first", &FIRST),
    ("first part", &FIRST_PART),
    ("strips", &STRIPS),
];

fn find_asked(rows: &[(&str, Asked)], name: &str) -> Option<Asked> {
    for (own, asked) in rows {
        if *own == name {
            return Some(*asked);
        }
    }
    None
}

fn find_windows<'a>(rows: &[(&str, &'a [Window])], name: &str) -> Option<&'a [Window]> {
    for (own, windows) in rows {
        if *own == name {
            return Some(windows);
        }
    }
    None
}

/// The plan of what is asked for under this name.
pub fn ordered_as(alloc: Global, name: &str) -> Result<Order, Fail> {
    let asked = find_asked(&ASKED, name).ok_or("it is asked for")?;
    ordered(alloc, &asked)
}

/// The windows of this name, with these samples.
pub fn story_of<'a>(name: &str, samples: &'a [Sample]) -> Result<Story<'a>, Fail> {
    let windows = find_windows(&WINDOWS, name).ok_or("they are windows")?;
    Ok(Story { windows, samples })
}
