use crate::tables::{all_hold, choice, count, joined, number, whole};
use geotransform::Size;
use mosaic_sources::run::Run;
use mosaic_sources::{columns, cover, value};
use std::alloc::{AllocError, Global};
use std::test::*;
use vrt_profile::{Document, Source, VrtBand, read};

/// The text of a document whose band has these sources.
fn text_of(alloc: Global, sources: &[u8]) -> Result<Vec<u8>, AllocError> {
    let front = "<VRTDataset rasterXSize='3' rasterYSize='1'>";
    let band = "<VRTRasterBand dataType='Int16'><NoDataValue>-1</NoDataValue>";
    let end = "</VRTRasterBand></VRTDataset>";
    joined(
        alloc,
        &[front.as_bytes(), band.as_bytes(), sources, end.as_bytes()],
    )
}

/// A document whose band has these sources.
pub fn document(alloc: Global, sources: &[u8]) -> Option<Document> {
    let text = text_of(alloc, sources).ok()?;
    read(alloc, &text).ok()
}

fn first_source(document: &Document) -> Option<&Source> {
    let band: &VrtBand = document.bands.as_slice().first()?;
    band.sources.as_slice().first()
}

/// Whether a document's source makes this of a pixel.
#[tactic(auto, using(mosaic_sources::proofs::Following::narrow_pixel))]
fn makes(document: &Document, pixel: i32, wanted: Option<i128>) -> bool {
    match first_source(document) {
        Some(source) => value(source, pixel as i128) == wanted,
        None => false,
    }
}

// What becomes of a pixel, the pixel, and the source.
const VALUES: &str = "\
    0 -1 <ComplexSource><SourceFilename>a</SourceFilename><LUT>0:0,10:100</LUT></ComplexSource>|\
    30 3 <ComplexSource><SourceFilename>a</SourceFilename><LUT>0:0,10:100</LUT></ComplexSource>|\
    100 10 <ComplexSource><SourceFilename>a</SourceFilename><LUT>0:0,10:100</LUT></ComplexSource>|\
    100 11 <ComplexSource><SourceFilename>a</SourceFilename><LUT>0:0,10:100</LUT></ComplexSource>|\
    100 10 <ComplexSource><SourceFilename>a</SourceFilename><LUT>0:0,10:100,20:0</LUT></ComplexSource>|\
    30 17 <ComplexSource><SourceFilename>a</SourceFilename><LUT>0:0,10:100,20:0</LUT></ComplexSource>|\
    1 1 <ComplexSource><SourceFilename>a</SourceFilename><LUT>0:0,2:1</LUT></ComplexSource>|\
    -1 1 <ComplexSource><SourceFilename>a</SourceFilename><LUT>0:0,2:-1</LUT></ComplexSource>|\
    3 9 <ComplexSource><SourceFilename>a</SourceFilename><LUT>5:2.5</LUT></ComplexSource>|\
    7 3 <ComplexSource><SourceFilename>a</SourceFilename><LUT>0:0E-999,2:0e+9,3:7</LUT></ComplexSource>|\
    0 1 <ComplexSource><SourceFilename>a</SourceFilename><LUT>0:0E-999,2:0e+9,3:7</LUT></ComplexSource>|\
    0 1 <ComplexSource><SourceFilename>a</SourceFilename><ScaleRatio>0.0000004</ScaleRatio><LUT>\
    0:0,0.000001:100</LUT></ComplexSource>|\
    100 1 <ComplexSource><SourceFilename>a</SourceFilename><ScaleRatio>0.0000005</ScaleRatio><LUT>\
    0:0,0.000001:100</LUT></ComplexSource>|\
    2 3 <ComplexSource><SourceFilename>a</SourceFilename><ScaleRatio>0.5</ScaleRatio></ComplexSource>|\
    -2 -3 <ComplexSource><SourceFilename>a</SourceFilename><ScaleRatio>0.5</ScaleRatio></ComplexSource>|\
    7 3 <ComplexSource><SourceFilename>a</SourceFilename><ScaleOffset>1</ScaleOffset><ScaleRatio>2</ScaleRatio>\
    </ComplexSource>|\
    2147483647997852516352 -2147483648 <ComplexSource><SourceFilename>a</SourceFilename><ScaleRatio>\
    -999999999999</ScaleRatio></ComplexSource>|\
    6 3 <ComplexSource><SourceFilename>a</SourceFilename><NODATA>6</NODATA><ScaleRatio>2</ScaleRatio>\
    </ComplexSource>|\
    - 6 <ComplexSource><SourceFilename>a</SourceFilename><NODATA>6</NODATA><ScaleRatio>2</ScaleRatio>\
    </ComplexSource>|\
    - 0 <ComplexSource><SourceFilename>a</SourceFilename><NODATA>0</NODATA></ComplexSource>|\
    5 5 <ComplexSource><SourceFilename>a</SourceFilename><NODATA>0</NODATA></ComplexSource>|\
    0 0 <SimpleSource><SourceFilename>a</SourceFilename><NODATA>0</NODATA></SimpleSource>|\
    5 5 <SimpleSource><SourceFilename>a</SourceFilename><ScaleRatio>2</ScaleRatio></SimpleSource>|\
    -32768 -32768 <ComplexSource><SourceFilename>a</SourceFilename></ComplexSource>";

fn is_made(alloc: Global, row: &str) -> Option<bool> {
    let (wanted, rest) = choice(row)?;
    let (pixel, source) = whole(rest)?;
    let document = document(alloc, source.as_bytes())?;
    Some(makes(&document, pixel, wanted))
}

#[test]
fn values(rt: HostRuntime) {
    all_hold(&rt, rt.alloc(), VALUES, is_made);
}

// A place in a dataset, or none, the widths of the mosaic and of the dataset, each 2 lines high, a pixel of the mosaic,
// and the rectangles of a source.
const COVERS: &str = "\
    2 1 3 3 2 1 |\
    3 0 3 6 1 0 |\
    2 1 6 3 5 1 |\
    0 0 1 1 0 0 <DstRect xOff='0' yOff='0.5' xSize='1' ySize='1'/>|\
    - - 1 1 0 1 <DstRect xOff='0' yOff='0.5' xSize='1' ySize='1'/>|\
    - - 1 1 0 0 <DstRect xOff='0' yOff='1' xSize='1' ySize='1'/>|\
    0 1 1 1 0 1 <DstRect xOff='0' yOff='1' xSize='1' ySize='1'/>|\
    1 1 4 3 1 0 <SrcRect xOff='1' yOff='1' xSize='2' ySize='1'/><DstRect xOff='0' yOff='0' xSize='4' ySize='1'/>|\
    2 1 4 3 2 0 <SrcRect xOff='1' yOff='1' xSize='2' ySize='1'/><DstRect xOff='0' yOff='0' xSize='4' ySize='1'/>|\
    - - 4 2 2 0 <SrcRect xOff='1' yOff='1' xSize='2' ySize='1'/><DstRect xOff='0' yOff='0' xSize='4' ySize='1'/>|\
    - - 4 3 1 1 <SrcRect xOff='1' yOff='1' xSize='2' ySize='1'/><DstRect xOff='0' yOff='0' xSize='4' ySize='1'/>|\
    - - 3 3 0 0 <SrcRect xOff='-1' yOff='0' xSize='3' ySize='2'/>|\
    0 0 3 3 1 0 <SrcRect xOff='-1' yOff='0' xSize='3' ySize='2'/>|\
    0 0 3 3 0 0 <SrcRect xOff='-0.5' yOff='0' xSize='3' ySize='2'/>";

/// A SimpleSource with these rectangles.
fn placed(alloc: Global, rectangles: &str) -> Option<Document> {
    let front = "<SimpleSource><SourceFilename>a</SourceFilename>";
    let end = "</SimpleSource>";
    let parts = [front.as_bytes(), rectangles.as_bytes(), end.as_bytes()];
    let source = joined(alloc, &parts).ok()?;
    document(alloc, &source)
}

// The place that a document's source takes of a dataset, where both are 2 lines high.
fn place_in(document: &Document, sides: (u32, u32), place: (u32, u32)) -> Option<(u32, u32)> {
    let mosaic = Size { w: sides.0, h: 2 };
    let size = Size { w: sides.1, h: 2 };
    cover(first_source(document)?, mosaic, size, place.0, place.1)
}

// Whether it takes that place, or none.
fn takes(
    document: &Document,
    sides: (u32, u32),
    place: (u32, u32),
    (column, line): (Option<i128>, Option<i128>),
) -> bool {
    if first_source(document).is_none() {
        return false;
    }
    match place_in(document, sides, place) {
        Some((x, y)) => column == Some(x as i128) && line == Some(y as i128),
        None => column.is_none() && line.is_none(),
    }
}

fn is_covered(alloc: Global, row: &str) -> Option<bool> {
    let (column, rest) = choice(row)?;
    let (line, rest) = choice(rest)?;
    let (mosaic, rest) = count(rest)?;
    let (size, rest) = count(rest)?;
    let (x, rest) = count(rest)?;
    let (y, rectangles) = count(rest)?;
    let document = placed(alloc, rectangles)?;
    Some(takes(&document, (mosaic, size), (x, y), (column, line)))
}

#[test]
fn covers(rt: HostRuntime) {
    all_hold(&rt, rt.alloc(), COVERS, is_covered);
}

/// The covered columns of a document's source.
fn covered_run(document: &Document, mosaic: u32, size: u32) -> Option<Run> {
    let source = first_source(document)?;
    if mosaic == 0 || size == 0 {
        return None;
    }
    let axis = columns(source, Size { w: mosaic, h: 1 }, Size { w: size, h: 1 });
    Some(axis.run(mosaic, size))
}

// The covered columns and the shift, the widths of the mosaic and of the dataset, and the rectangles of a source.
const RUNS: &str = "\
    0 3 0 3 3 |\
    0 3 - 3 6 |\
    1 3 -1 3 3 <SrcRect xOff='-1' yOff='0' xSize='3' ySize='2'/>|\
    0 2 - 4 2 <SrcRect xOff='1' yOff='1' xSize='2' ySize='1'/><DstRect xOff='0' yOff='0' xSize='4' ySize='1'/>|\
    1 3 -1 5 2 <SrcRect xOff='0' yOff='0' xSize='2' ySize='1'/><DstRect xOff='1.5' yOff='0' xSize='2' ySize='1'/>|\
    3 3 -4 3 2 <DstRect xOff='4' yOff='0' xSize='2' ySize='1'/>";

fn is_shift(shift: Option<i64>, wanted: Option<i128>) -> bool {
    match shift {
        Some(shift) => wanted == Some(shift as i128),
        None => wanted.is_none(),
    }
}

fn is_run(alloc: Global, row: &str) -> Option<bool> {
    let (first, rest) = count(row)?;
    let (end, rest) = count(rest)?;
    let (shift, rest) = choice(rest)?;
    let (mosaic, rest) = count(rest)?;
    let (size, rectangles) = count(rest)?;
    let document = placed(alloc, rectangles)?;
    let run = covered_run(&document, mosaic, size)?;
    Some(run.first == first && run.end == end && is_shift(run.shift, shift))
}

#[test]
fn runs(rt: HostRuntime) {
    all_hold(&rt, rt.alloc(), RUNS, is_run);
}

const BELOW: [[i32; 3]; 2] = [[5, 0, 7], [0, 0, 9]];

/// The pixel of a band of two sources that are made of the rows below.
fn pixel(band: &VrtBand, x: u32) -> i128 {
    let size = Size { w: 3, h: 1 };
    let mut found = None;
    for (source, below) in band.sources.as_slice().iter().zip(BELOW.iter()) {
        if let Some((column, _)) = cover(source, size, size, x, 0) {
            if let Some(sample) = below.get(column as usize) {
                if let Some(given) = value(source, *sample as i128) {
                    found = Some(given);
                }
            }
        }
    }
    found.unwrap_or(band.nodata.unwrap_or(0))
}

// The pixels of a mosaic of two sources, and the sources.
const MOSAICS: &str = "\
    5 -1 9 <ComplexSource><SourceFilename>a.bil</SourceFilename><NODATA>0</NODATA></ComplexSource><ComplexSource>\
    <SourceFilename>b.bil</SourceFilename><NODATA>0</NODATA></ComplexSource>|\
    0 0 9 <SimpleSource><SourceFilename>a.bil</SourceFilename></SimpleSource><SimpleSource><SourceFilename>\
    b.bil</SourceFilename></SimpleSource>";

fn first_band(document: &Document) -> Option<&VrtBand> {
    document.bands.as_slice().first()
}

// Whether the first band of a document has these pixels.
fn has_pixels(document: &Document, (first, second, third): (i128, i128, i128)) -> bool {
    match first_band(document) {
        Some(band) => {
            pixel(band, 0) == first && pixel(band, 1) == second && pixel(band, 2) == third
        }
        None => false,
    }
}

fn is_painted(alloc: Global, row: &str) -> Option<bool> {
    let (first, rest) = number(row)?;
    let (second, rest) = number(rest)?;
    let (third, sources) = number(rest)?;
    let document = document(alloc, sources.as_bytes())?;
    Some(has_pixels(&document, (first, second, third)))
}

#[test]
fn mosaics(rt: HostRuntime) {
    all_hold(&rt, rt.alloc(), MOSAICS, is_painted);
}
