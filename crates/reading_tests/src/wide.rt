// Windows of 16,384 pixels and more, of mosaics that have few sources for their size: their lines are filled in the
// whole width.
use crate::fixtures::{File, is_number, none_wrong, put_all};
use crate::reads::{Job, Picture, Place, add_window, place_in, put_picture, shows_always};
use geotransform::Sample;
use outside::{CalmFolder, CountingFolder, Folder, Never};
use std::alloc::Global;
use std::process::Abort;
use std::test::*;

// Two files, and mosaics of 1,100 x 1,000 pixels, which may have four sources each.
#[derive(Clone, Copy)]
enum Image {
    // 300 columns and 200 lines, without a 0.
    First,
    // 260 columns and 150 lines, of which each fifth pixel is 0.
    Second,
    // `First`, over it `Second` where that isn't 0, and over both each second column and line of `First`.
    One,
    // `One`, and over it `First` where that isn't 40.
    Two,
    // `Two` from the column 3 and the line 2 on, and over it `One` where that isn't 255.
    Three,
}

fn first(x: u32, y: u32) -> u8 {
    ((x as u64 + 7 * y as u64) % 199 + 1) as u8
}

fn second(x: u32, y: u32) -> u8 {
    ((x as u64 + 2 * y as u64) % 5 * 40) as u8
}

// A pixel of `Second`, or 0.
fn second_in(place: Option<(u32, u32)>) -> u8 {
    match place {
        Some((x, y)) => return second(x, y),
        None => return 0,
    }
}

// `One` without its scaled source. Its NODATA is 255.
fn one_below(x: u32, y: u32) -> u8 {
    let over = second_in(place_in((131, 35, 260, 150), x, y));
    if over != 0 {
        return over;
    }
    match place_in((20, 10, 300, 200), x, y) {
        Some((x, y)) => return first(x, y),
        None => return 255,
    }
}

// The middle of the column x of the scaled source lies in the column 2x + 1 of `First`.
fn one(x: u32, y: u32) -> u8 {
    if let Some((x, y)) = place_in((350, 60, 150, 100), x, y) {
        let (x, y) = (x.saturating_mul(2), y.saturating_mul(2));
        return first(x.saturating_add(1), y.saturating_add(1));
    }
    one_below(x, y)
}

// A pixel of `One`, or this.
fn one_or(place: Option<(u32, u32)>, other: u8) -> u8 {
    match place {
        Some((x, y)) => return one(x, y),
        None => return other,
    }
}

// A pixel of `First`, or 40.
fn first_or_40(place: Option<(u32, u32)>) -> u8 {
    match place {
        Some((x, y)) => return first(x, y),
        None => return 40,
    }
}

fn two(x: u32, y: u32) -> u8 {
    let over = first_or_40(place_in((100, 100, 300, 200), x, y));
    if over != 40 {
        return over;
    }
    one_or(place_in((7, 5, 1000, 900), x, y), 0)
}

fn three(x: u32, y: u32) -> u8 {
    let over = one_or(place_in((200, 50, 800, 900), x, y), 255);
    if over != 255 {
        return over;
    }
    match place_in((0, 0, 1000, 900), x, y) {
        Some((x, y)) => return two(x.saturating_add(3), y.saturating_add(2)),
        None => return 0,
    }
}

// The pixel of an image by its definition.
fn pixel(image: Image, x: u32, y: u32) -> u8 {
    match image {
        Image::First => first(x, y),
        Image::Second => second(x, y),
        Image::One => one(x, y),
        Image::Two => two(x, y),
        Image::Three => three(x, y),
    }
}

impl Picture for Image {
    fn pixel(&self, _band: u32, x: u32, y: u32) -> Sample {
        pixel(*self, x, y) as Sample
    }
}

const ONE: &[u8] =
    b"<VRTDataset rasterXSize=\"1100\" rasterYSize=\"1000\"><VRTRasterBand dataType=\"Byte\" band=\"1\">\
    <NoDataValue>255</NoDataValue><SimpleSource><SourceFilename relativeToVRT=\"1\">first.bil</SourceFilename>\
    <SourceBand>1</SourceBand><SrcRect xOff=\"0\" yOff=\"0\" xSize=\"300\" ySize=\"200\"/>\
    <DstRect xOff=\"20\" yOff=\"10\" xSize=\"300\" ySize=\"200\"/></SimpleSource><ComplexSource>\
    <SourceFilename relativeToVRT=\"1\">second.bil</SourceFilename><SourceBand>1</SourceBand>\
    <SrcRect xOff=\"0\" yOff=\"0\" xSize=\"260\" ySize=\"150\"/>\
    <DstRect xOff=\"131\" yOff=\"35\" xSize=\"260\" ySize=\"150\"/><NODATA>0</NODATA></ComplexSource><SimpleSource>\
    <SourceFilename relativeToVRT=\"1\">first.bil</SourceFilename><SourceBand>1</SourceBand>\
    <SrcRect xOff=\"0\" yOff=\"0\" xSize=\"300\" ySize=\"200\"/>\
    <DstRect xOff=\"350\" yOff=\"60\" xSize=\"150\" ySize=\"100\"/></SimpleSource></VRTRasterBand></VRTDataset>";

const TWO: &[u8] =
    b"<VRTDataset rasterXSize=\"1100\" rasterYSize=\"1000\"><VRTRasterBand dataType=\"Byte\" band=\"1\"><SimpleSource>\
    <SourceFilename relativeToVRT=\"1\">one.vrt</SourceFilename><SourceBand>1</SourceBand>\
    <SrcRect xOff=\"0\" yOff=\"0\" xSize=\"1000\" ySize=\"900\"/>\
    <DstRect xOff=\"7\" yOff=\"5\" xSize=\"1000\" ySize=\"900\"/></SimpleSource><ComplexSource>\
    <SourceFilename relativeToVRT=\"1\">first.bil</SourceFilename><SourceBand>1</SourceBand>\
    <SrcRect xOff=\"0\" yOff=\"0\" xSize=\"300\" ySize=\"200\"/>\
    <DstRect xOff=\"100\" yOff=\"100\" xSize=\"300\" ySize=\"200\"/><NODATA>40</NODATA></ComplexSource></VRTRasterBand>\
    </VRTDataset>";

const THREE: &[u8] =
    b"<VRTDataset rasterXSize=\"1100\" rasterYSize=\"1000\"><VRTRasterBand dataType=\"Byte\" band=\"1\"><SimpleSource>\
    <SourceFilename relativeToVRT=\"1\">two.vrt</SourceFilename><SourceBand>1</SourceBand>\
    <SrcRect xOff=\"3\" yOff=\"2\" xSize=\"1000\" ySize=\"900\"/>\
    <DstRect xOff=\"0\" yOff=\"0\" xSize=\"1000\" ySize=\"900\"/></SimpleSource><ComplexSource>\
    <SourceFilename relativeToVRT=\"1\">one.vrt</SourceFilename><SourceBand>1</SourceBand>\
    <SrcRect xOff=\"0\" yOff=\"0\" xSize=\"800\" ySize=\"900\"/>\
    <DstRect xOff=\"200\" yOff=\"50\" xSize=\"800\" ySize=\"900\"/><NODATA>255</NODATA></ComplexSource></VRTRasterBand>\
    </VRTDataset>";

// The headers of the files, and the mosaics.
const TEXTS: [File<'static>; 5] = [
    ("first.hdr", b"NROWS 200\nNCOLS 300\n"),
    ("second.hdr", b"NROWS 150\nNCOLS 260\n"),
    ("one.vrt", ONE),
    ("two.vrt", TWO),
    ("three.vrt", THREE),
];

// A folder that holds the images.
fn drawn<R: Abort>(rt: &R, alloc: Global) -> CalmFolder {
    let mut folder = CalmFolder::new(alloc, Never);
    put_all(rt, alloc, &mut folder, &TEXTS);
    put_picture(
        rt,
        alloc,
        &mut folder,
        "first.bil",
        &Image::First,
        (300, 60_000),
    );
    put_picture(
        rt,
        alloc,
        &mut folder,
        "second.bil",
        &Image::Second,
        (260, 39_000),
    );
    folder
}

// A column, a line, and so many columns and lines.
type Rectangle = (u32, u32, u32, u32);

// An image, its name and a rectangle of 16,384 pixels or more.
type Row<'a> = (Image, &'a str, Rectangle);

// The pixel of a rectangle that is asked for at a step: each is 827 places behind the last, in rows from its corner on.
fn point_at((left, top, width, _): Rectangle, step: u32) -> Place {
    let columns = width.max(1);
    let number = step.saturating_mul(827);
    let x = left.saturating_add(number % columns);
    let y = top.saturating_add(number / columns);
    (0, (x, y, 1, 1))
}

// A rectangle at once, and then so many of its pixels one by one.
fn windows_of<R: Abort>(rt: &R, alloc: Global, rect: Rectangle, points: u32) -> Vec<Place> {
    let mut windows = Vec::new(alloc);
    add_window(rt, &mut windows, (0, rect));
    for step in 0..points {
        add_window(rt, &mut windows, point_at(rect, step));
    }
    windows
}

// Whether new lanes of these capacities give the pixels of a rectangle as the image has them, all at once and then so
// many one by one.
fn is_drawn<R: Abort, F: Folder>(
    rt: &R,
    alloc: Global,
    folder: &mut F,
    row: &Row<'_>,
    capacities: &[u32],
    points: u32,
) -> bool {
    let (image, name, rect) = *row;
    let windows = windows_of(rt, alloc, rect, points);
    let job = Job {
        name,
        size: (1100, 1000),
        capacity: 1,
        windows: windows.as_slice(),
    };
    shows_always(rt, alloc, folder, job, &image, capacities)
}

const ROWS_OF_ONE: [Row<'static>; 2] = [
    (Image::One, "one.vrt", (301, 53, 131, 127)),
    (Image::One, "one.vrt", (190, 3, 17, 997)),
];

const ROWS_OF_TWO: [Row<'static>; 2] = [
    (Image::Two, "two.vrt", (0, 0, 131, 127)),
    (Image::Two, "two.vrt", (77, 93, 517, 33)),
];

const ROWS_OF_THREE: [Row<'static>; 2] = [
    (Image::Three, "three.vrt", (301, 53, 131, 127)),
    (Image::Three, "three.vrt", (0, 91, 1100, 15)),
];

const CAPACITIES: [u32; 5] = [1, 2, 3, 64, 1000];

// The first of the rows in which a pixel is wrong.
fn first_undrawn<R: Abort>(rt: &R, alloc: Global, rows: &[Row<'_>]) -> Option<usize> {
    let mut folder = drawn(rt, alloc);
    for (at, row) in rows.iter().enumerate() {
        if !is_drawn(rt, alloc, &mut folder, row, &CAPACITIES, 20) {
            return Some(at);
        }
    }
    None
}

#[test]
fn large_windows_of_files_have_their_pixels(rt: HostRuntime) {
    none_wrong(&rt, first_undrawn(&rt, rt.alloc(), &ROWS_OF_ONE));
}

#[test]
fn large_windows_of_a_mosaic_have_its_pixels(rt: HostRuntime) {
    none_wrong(&rt, first_undrawn(&rt, rt.alloc(), &ROWS_OF_TWO));
}

#[test]
fn large_windows_of_mosaics_in_mosaics_have_their_pixels(rt: HostRuntime) {
    none_wrong(&rt, first_undrawn(&rt, rt.alloc(), &ROWS_OF_THREE));
}

// 14 lines of this one are filled at a time, then one. Each of them shows a line of each source.
const LINES: Row<'static> = (Image::One, "one.vrt", (0, 91, 1100, 15));

// No source lies in this one.
const EMPTY: Row<'static> = (Image::One, "one.vrt", (0, 400, 1100, 15));

// How many reads the walk and a window take, through a pool of one block; None where a pixel is wrong.
fn reads_of<R: Abort>(
    rt: &R,
    alloc: Global,
    folder: &mut CountingFolder<CalmFolder>,
    row: &Row<'_>,
) -> Option<u64> {
    let before = folder.reads();
    if !is_drawn(rt, alloc, folder, row, &[1], 0) {
        return None;
    }
    Some(folder.reads().saturating_sub(before))
}

// How many reads a window takes beside those of the walk.
fn reads_beside_the_walk<R: Abort>(rt: &R, alloc: Global) -> Option<u64> {
    let mut folder = CountingFolder::new(drawn(rt, alloc));
    let all = reads_of(rt, alloc, &mut folder, &LINES);
    let walk = reads_of(rt, alloc, &mut folder, &EMPTY);
    match (all, walk) {
        (Some(all), Some(walk)) => return Some(all.saturating_sub(walk)),
        _ => return None,
    }
}

#[test]
fn a_large_window_reads_each_line_once(rt: HostRuntime) {
    is_number(&rt, reads_beside_the_walk(&rt, rt.alloc()), 45);
}
