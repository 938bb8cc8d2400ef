// Mosaics of 24 columns and lines that name one another again and again.
use crate::fixtures::{add, put};
use outside::{CalmFolder, Never};
use std::alloc::Global;
use std::process::Abort;

/// How a mosaic names the dataset below it: once for each rectangle, as the document has it, by sources without a test
/// or by sources whose NODATA is 255.
#[derive(Clone, Copy)]
pub struct Shape<'a> {
    /// The text of its columns.
    pub columns: &'a [u8],
    /// The rectangles, from the lowest to the uppermost.
    pub places: &'a [&'a [u8]],
    /// Whether the NODATA is tested.
    pub tested: bool,
}

// What stands before the name of a source's dataset, and behind it, and behind its rectangle.
const SIMPLE: [&[u8]; 3] = [
    b"<SimpleSource><SourceFilename relativeToVRT=\"1\">",
    b"</SourceFilename><SrcRect xOff=\"0\" yOff=\"0\" xSize=\"24\" ySize=\"24\"/>",
    b"</SimpleSource>",
];

const COMPLEX: [&[u8]; 3] = [
    b"<ComplexSource><SourceFilename relativeToVRT=\"1\">",
    b"</SourceFilename><SrcRect xOff=\"0\" yOff=\"0\" xSize=\"24\" ySize=\"24\"/>",
    b"<NODATA>255</NODATA></ComplexSource>",
];

// Adds a source to a document.
fn push_source<R: Abort>(rt: &R, text: &mut Vec<u8>, below: &str, place: &[u8], tested: bool) {
    let parts = if tested { COMPLEX } else { SIMPLE };
    add(rt, text, parts[0]);
    add(rt, text, below.as_bytes());
    add(rt, text, parts[1]);
    add(rt, text, place);
    add(rt, text, parts[2]);
}

// What stands before the sources of a document, behind its columns.
const OPENING: &[u8] =
    b"\" rasterYSize=\"24\"><VRTRasterBand dataType=\"Byte\"><NoDataValue>255</NoDataValue>";

// The document of a mosaic.
fn document<R: Abort>(rt: &R, alloc: Global, below: &str, shape: Shape<'_>) -> Vec<u8> {
    let mut text = Vec::new(alloc);
    add(rt, &mut text, b"<VRTDataset rasterXSize=\"");
    add(rt, &mut text, shape.columns);
    add(rt, &mut text, OPENING);
    for place in shape.places {
        push_source(rt, &mut text, below, place, shape.tested);
    }
    add(rt, &mut text, b"</VRTRasterBand></VRTDataset>");
    text
}

/// Puts a mosaic that names the dataset below it so.
pub fn put_mosaic<R: Abort>(
    rt: &R,
    alloc: Global,
    folder: &mut CalmFolder,
    name: &str,
    below: &str,
    shape: Shape<'_>,
) {
    let text = document(rt, alloc, below, shape);
    put(rt, alloc, folder, name, text.as_slice());
}

/// A folder that holds mosaics, each of which names the next so, and the last one the data `last.bil` of these 576
/// bytes.
pub fn chain<R: Abort>(
    rt: &R,
    alloc: Global,
    names: &[&str],
    shape: Shape<'_>,
    data: &[u8],
) -> CalmFolder {
    let mut folder = CalmFolder::new(alloc, Never);
    put(rt, alloc, &mut folder, "last.bil", data);
    put(rt, alloc, &mut folder, "last.hdr", b"NROWS 24\nNCOLS 24\n");
    let (_, behind) = names.split_at(names.len().min(1));
    for (name, below) in names.iter().zip(behind) {
        put_mosaic(rt, alloc, &mut folder, name, below, shape);
    }
    folder
}
