// Raw data: two bands of windows that overlap, byte by byte in each layout, and rasters of each type against the
// pixels that their windows show.
use crate::fixtures::{
    Asked, File, Form, Order, Story, Window, closed, has_all, none_wrong, ordered,
};
use crate::pixels::{
    BYTE, INT8, INT16, INT32, INT64, Range, UINT16, UINT32, UINT64, number_from_end, pixel,
    samples_in,
};
use esri_hdr::Layout;
use geotransform::{PixelType, Sample};
use outside::{MemFolder, Name};
use std::alloc::Global;
use std::test::*;

// A raster of three columns and lines and two bands.
const PAIR: Asked = Asked {
    text: "<VRTDataset rasterXSize=\"3\" rasterYSize=\"3\">\
        <VRTRasterBand dataType=\"Int16\"></VRTRasterBand>\
        <VRTRasterBand dataType=\"Int16\"></VRTRasterBand></VRTDataset>",
    form: Form::Raw(Layout::Bil),
    name: "out.bil",
    bands: &[],
    seen: None,
    nodata: None,
    kind: None,
};

// Both bands are written in parts that overlap, each line at least twice.
const PARTS: [Window; 5] = [
    (0, (0, 0), (3, 2), 0),
    (1, (1, 0), (2, 3), 6),
    (0, (1, 1), (1, 2), 12),
    (1, (0, 1), (3, 1), 14),
    (0, (0, 2), (0, 1), 17),
];

const SAMPLES: [Sample; 17] = [
    1, 2, 3, 4, 5, 6, -1, -2, -3, -4, -5, -6, 50, 80, 300, 301, 302,
];

// The layouts, and the bytes of the data in each.
const FILES: [(Layout, [u8; 36]); 3] = [
    (
        Layout::Bil,
        [
            1, 0, 2, 0, 3, 0, 0, 0, 255, 255, 254, 255, 4, 0, 50, 0, 6, 0, 44, 1, 45, 1, 46, 1, 0,
            0, 80, 0, 0, 0, 0, 0, 251, 255, 250, 255,
        ],
    ),
    (
        Layout::Bip,
        [
            1, 0, 0, 0, 2, 0, 255, 255, 3, 0, 254, 255, 4, 0, 44, 1, 50, 0, 45, 1, 6, 0, 46, 1, 0,
            0, 0, 0, 80, 0, 251, 255, 0, 0, 250, 255,
        ],
    ),
    (
        Layout::Bsq,
        [
            1, 0, 2, 0, 3, 0, 4, 0, 50, 0, 6, 0, 0, 0, 80, 0, 0, 0, 0, 0, 255, 255, 254, 255, 44,
            1, 45, 1, 46, 1, 0, 0, 251, 255, 250, 255,
        ],
    ),
];

// The text of the header in a layout whose lines have as many bytes.
fn header_of(layout: Layout) -> &'static str {
    match layout {
        Layout::Bil =>
            "BYTEORDER      I\nLAYOUT         BIL\nNROWS          3\nNCOLS          3\nNBANDS         2\n\
            NBITS          16\nSKIPBYTES      0\nBANDROWBYTES   6\nTOTALROWBYTES  12\nBANDGAPBYTES   0\n\
            PIXELTYPE      SIGNEDINT\n",
        Layout::Bip =>
            "BYTEORDER      I\nLAYOUT         BIP\nNROWS          3\nNCOLS          3\nNBANDS         2\n\
            NBITS          16\nSKIPBYTES      0\nBANDROWBYTES   6\nTOTALROWBYTES  12\nBANDGAPBYTES   0\n\
            PIXELTYPE      SIGNEDINT\n",
        Layout::Bsq =>
            "BYTEORDER      I\nLAYOUT         BSQ\nNROWS          3\nNCOLS          3\nNBANDS         2\n\
            NBITS          16\nSKIPBYTES      0\nBANDROWBYTES   6\nTOTALROWBYTES  6\nBANDGAPBYTES   0\n\
            PIXELTYPE      SIGNEDINT\n",
    }
}

// Whether an output has these files at a capacity.
fn is_written(
    alloc: Global,
    order: &Order,
    capacity: u16,
    files: &[File<'_>],
) -> Result<bool, Fail> {
    let story = Story {
        windows: &PARTS,
        samples: &SAMPLES,
    };
    match closed(alloc, order, capacity, story)? {
        Some(folder) => has_all(alloc, &folder, files),
        None => Ok(false),
    }
}

// The same at each of some capacities.
fn is_at_each(alloc: Global, order: &Order, files: &[File<'_>]) -> Result<bool, Fail> {
    for capacity in 1..8u16 {
        if !is_written(alloc, order, capacity, files)? {
            return Ok(false);
        }
    }
    Ok(true)
}

// Whether the files of a layout are these.
fn each_is_written(alloc: Global, (layout, data): &(Layout, [u8; 36])) -> Result<bool, Fail> {
    let asked = Asked {
        form: Form::Raw(*layout),
        ..PAIR
    };
    let order = ordered(alloc, &asked)?;
    let header = header_of(*layout).as_bytes();
    is_at_each(alloc, &order, &[("out.bil", data), ("out.hdr", header)])
}

// The first of these layouts whose files are others.
fn first_unwritten(alloc: Global, rows: &[(Layout, [u8; 36])]) -> Result<Option<usize>, Fail> {
    for at in 0..rows.len() {
        if !each_is_written(alloc, &rows[at])? {
            return Ok(Some(at));
        }
    }
    Ok(None)
}

#[test]
fn windows_stand_in_the_files_at_each_capacity(rt: HostRuntime) -> Result<(), Fail> {
    none_wrong(&rt, first_unwritten(rt.alloc(), &FILES))
}

// A raster of seven columns, five lines and three bands.
const THREE: Asked = Asked {
    text: "<VRTDataset rasterXSize=\"7\" rasterYSize=\"5\">\
        <VRTRasterBand dataType=\"Byte\"></VRTRasterBand>\
        <VRTRasterBand dataType=\"Byte\"></VRTRasterBand>\
        <VRTRasterBand dataType=\"Byte\"></VRTRasterBand></VRTDataset>",
    form: Form::Raw(Layout::Bil),
    name: "out.bil",
    bands: &[],
    seen: None,
    nodata: None,
    kind: None,
};

const WIDTH: u16 = 7;

const HEIGHT: u16 = 5;

// Windows of one band: a column, a part, single pixels, whole lines, nothing, and a part of what was written.
const OF_ONE: [Window; 9] = [
    (0, (6, 0), (1, 5), 0),
    (0, (2, 1), (3, 4), 5),
    (0, (0, 4), (1, 1), 17),
    (0, (0, 2), (7, 1), 18),
    (0, (3, 0), (0, 5), 25),
    (0, (1, 0), (5, 3), 26),
    (0, (4, 3), (3, 2), 41),
    (0, (0, 0), (2, 5), 47),
    (0, (3, 2), (1, 1), 57),
];

// Windows of three bands, in turn.
const OF_THREE: [Window; 12] = [
    (2, (1, 3), (5, 2), 0),
    (0, (0, 0), (7, 5), 10),
    (1, (6, 1), (1, 3), 45),
    (2, (0, 4), (7, 1), 48),
    (0, (3, 1), (2, 3), 55),
    (1, (0, 2), (4, 1), 61),
    (2, (5, 0), (2, 4), 65),
    (1, (2, 0), (3, 5), 73),
    (0, (6, 4), (1, 1), 88),
    (1, (0, 0), (0, 0), 89),
    (2, (2, 2), (1, 2), 89),
    (0, (0, 3), (7, 1), 91),
];

/// A type, its range, and the bytes of a sample.
type Kind = (PixelType, Range, u8);

const KINDS: [Kind; 8] = [
    (PixelType::Byte, BYTE, 1),
    (PixelType::Int8, INT8, 1),
    (PixelType::UInt16, UINT16, 2),
    (PixelType::Int16, INT16, 2),
    (PixelType::UInt32, UINT32, 4),
    (PixelType::Int32, INT32, 4),
    (PixelType::UInt64, UINT64, 8),
    (PixelType::Int64, INT64, 8),
];

/// The layout, the name, the bands, and how many there are.
type Raster = (Layout, &'static str, &'static [u8], u16);

const RASTERS: [Raster; 6] = [
    (Layout::Bil, "out.bil", &[1], 1),
    (Layout::Bip, "out.bip", &[2], 1),
    (Layout::Bsq, "out.bsq", &[3], 1),
    (Layout::Bil, "out.bil", &[1, 2, 3], 3),
    (Layout::Bip, "out.bip", &[], 3),
    (Layout::Bsq, "out.bsq", &[3, 1, 1], 3),
];

// The windows of so many bands.
fn windows_of(bands: u16) -> &'static [Window] {
    if bands == 1 { &OF_ONE } else { &OF_THREE }
}

// How samples lie in a file: the layout, the bands, and the bytes of a sample.
#[derive(Clone, Copy)]
struct Lying {
    layout: Layout,
    bands: u16,
    len: u8,
}

// So many whole rows of so many, and some more.
fn beyond(rows: u64, width: u64, more: u64) -> u64 {
    rows.saturating_mul(width).saturating_add(more)
}

// The number of a sample in a file: the band, the column and the line.
fn place_in(lying: Lying, (band, x, y): (u16, u16, u16)) -> u64 {
    let (band, x, y) = (band as u64, x as u64, y as u64);
    let (bands, width, height) = (lying.bands as u64, WIDTH as u64, HEIGHT as u64);
    match lying.layout {
        Layout::Bil => beyond(beyond(y, bands, band), width, x),
        Layout::Bip => beyond(beyond(y, width, x), bands, band),
        Layout::Bsq => beyond(beyond(band, height, y), width, x),
    }
}

// The bytes of one sample of a file, where they are there.
fn bytes_at(bytes: &[u8], place: u64, len: u8) -> Option<&[u8]> {
    let len = len as usize;
    let from = usize::try_from(place).ok()?.saturating_mul(len);
    if from > bytes.len() || len > bytes.len() - from {
        return None;
    }
    Some(&bytes[from..from + len])
}

// A sample in two's complement of so many bytes.
fn unsigned(sample: Sample, len: u8) -> Sample {
    if sample >= 0 {
        return sample;
    }
    match len {
        1 => sample.wrapping_add(256),
        2 => sample.wrapping_add(65_536),
        4 => sample.wrapping_add(4_294_967_296),
        _ => sample.wrapping_add(18_446_744_073_709_551_616),
    }
}

fn is_pixel(bytes: &[u8], lying: Lying, story: Story<'_>, place: (u16, u16, u16)) -> bool {
    match bytes_at(bytes, place_in(lying, place), lying.len) {
        None => false,
        Some(found) => number_from_end(found) as Sample == unsigned(pixel(story, place), lying.len),
    }
}

fn is_line(bytes: &[u8], lying: Lying, story: Story<'_>, band: u16, y: u16) -> bool {
    (0..WIDTH).all(|x| is_pixel(bytes, lying, story, (band, x, y)))
}

fn is_band(bytes: &[u8], lying: Lying, story: Story<'_>, band: u16) -> bool {
    (0..HEIGHT).all(|y| is_line(bytes, lying, story, band, y))
}

// Whether the bytes of a file are those of all pixels.
fn is_data(bytes: &[u8], lying: Lying, story: Story<'_>) -> bool {
    let pixels = beyond(WIDTH as u64, HEIGHT as u64, 0);
    let len = beyond(beyond(pixels, lying.bands as u64, 0), lying.len as u64, 0);
    bytes.len() as u64 == len && (0..lying.bands).all(|band| is_band(bytes, lying, story, band))
}

fn has_data(folder: &MemFolder, name: &Name, lying: Lying, story: Story<'_>) -> bool {
    match folder.bytes(name) {
        None => false,
        Some(bytes) => is_data(bytes, lying, story),
    }
}

// Whether a raster is that of its windows at a capacity.
fn is_shown(
    alloc: Global,
    order: &Order,
    capacity: u16,
    lying: Lying,
    story: Story<'_>,
) -> Result<bool, Fail> {
    Ok(match closed(alloc, order, capacity, story)? {
        Some(folder) => has_data(&folder, &order.name, lying, story),
        None => false,
    })
}

fn is_shown_at_each(
    alloc: Global,
    order: &Order,
    capacities: &[u16],
    lying: Lying,
    story: Story<'_>,
) -> Result<bool, Fail> {
    for at in 0..capacities.len() {
        if !is_shown(alloc, order, capacities[at], lying, story)? {
            return Ok(false);
        }
    }
    Ok(true)
}

// The plan of a raster of a type.
fn ordered_as(
    alloc: Global,
    (layout, name, bands, _): Raster,
    kind: PixelType,
) -> Result<Order, Fail> {
    let asked = Asked {
        form: Form::Raw(layout),
        name,
        bands,
        kind: Some(kind),
        ..THREE
    };
    ordered(alloc, &asked)
}

// Whether a raster of a type is that of its windows at each of some capacities.
fn each_is_shown(alloc: Global, raster: Raster, (kind, range, len): Kind) -> Result<bool, Fail> {
    let (layout, _, _, bands) = raster;
    let order = ordered_as(alloc, raster, kind)?;
    let samples = samples_in(alloc, range, 100)?;
    let story = Story {
        windows: windows_of(bands),
        samples: samples.as_slice(),
    };
    let lying = Lying { layout, bands, len };
    is_shown_at_each(alloc, &order, &[1, 2, 3, 4, 15], lying, story)
}

fn all_are_shown(alloc: Global, rasters: &[Raster], kind: Kind) -> Result<bool, Fail> {
    for at in 0..rasters.len() {
        if !each_is_shown(alloc, rasters[at], kind)? {
            return Ok(false);
        }
    }
    Ok(true)
}

// The first of these types of which a raster isn't that of its windows.
fn first_unshown(alloc: Global, kinds: &[Kind], rasters: &[Raster]) -> Result<Option<usize>, Fail> {
    for at in 0..kinds.len() {
        if !all_are_shown(alloc, rasters, kinds[at])? {
            return Ok(Some(at));
        }
    }
    Ok(None)
}

#[test]
fn rasters_of_each_type_and_layout_are_those_of_their_windows(rt: HostRuntime) -> Result<(), Fail> {
    none_wrong(&rt, first_unshown(rt.alloc(), &KINDS, &RASTERS))
}
