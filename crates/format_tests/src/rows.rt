// Indexes of sources by lines.
ghost use Rattle.std.specs.Prelude.{◌≡◌, IfOk, IfSome};

use crate::sources::document;
use crate::tables::none_wrong;
use geotransform::Size;
use itoa::Buffer;
use lists_and_answers::push_all;
use mosaic_sources::RowIndex;
use std::alloc::{AllocError, Global};
use std::test::*;
use vrt_profile::{Document, Sources, VrtBand};

// The index of sources over a mosaic of this height; `None` where there is none.
fn index_of(alloc: Global, sources: &Sources, height: u32) -> Result<Option<RowIndex>, AllocError>
    ensures height { IfOk result (λ o. IfSome o (λ r. r.height ≡ height)) }
{
    if sources.len() > 262_144 {
        return Ok(None);
    }
    RowIndex::new(alloc, sources, Size { w: 3, h: height })
}

fn sources_in(document: &Document) -> Option<&Sources> {
    let band: &VrtBand = document.bands.as_slice().first()?;
    Some(&band.sources)
}

// The index of the sources of a document's first band.
fn index_in(alloc: Global, sources: &[u8], height: u32) -> Option<RowIndex>
    ensures height { IfSome result (λ r. r.height ≡ height) }
{
    let document = document(alloc, sources)?;
    index_of(alloc, sources_in(&document)?, height).ok()?
}

// Sources with the height of the mosaic and the number of stretches, and a line with the numbers of those that cover
// it.
type Line = (&'static str, u32, u32, u32, &'static [u32]);

const LINES: [Line; 12] = [
    ("", 3, 1, 2, &[]),
    (HALVES, 2, 2, 0, &[0]),
    (HALVES, 2, 2, 1, &[1]),
    (WHOLE, 4_194_304, 1, 0, &[0, 1]),
    (WHOLE, 4_194_304, 1, 4_194_303, &[0, 1]),
    (GAP, 4, 3, 0, &[]),
    (GAP, 4, 3, 1, &[0]),
    (GAP, 4, 3, 2, &[]),
    (LAYERS, 4, 4, 0, &[0]),
    (LAYERS, 4, 4, 1, &[0, 1, 2]),
    (LAYERS, 4, 4, 2, &[0, 2]),
    (LAYERS, 4, 4, 3, &[2]),
];

// From the centre of line 0 up to that of line 1, and line 1.
const HALVES: &str =
    "<SimpleSource><SourceFilename>a</SourceFilename><DstRect xOff='0' yOff='0.5' xSize='1' ySize='1'/></SimpleSource>\
    <SimpleSource><SourceFilename>b</SourceFilename><DstRect xOff='0' yOff='1' xSize='1' ySize='1'/></SimpleSource>";

// Twice all lines.
const WHOLE: &str =
    "<SimpleSource><SourceFilename>a</SourceFilename></SimpleSource><SimpleSource><SourceFilename>b</SourceFilename>\
    </SimpleSource>";

// Line 1, and less than the centre of line 2.
const GAP: &str =
    "<SimpleSource><SourceFilename>a</SourceFilename><DstRect xOff='0' yOff='1' xSize='1' ySize='1'/></SimpleSource>\
    <SimpleSource><SourceFilename>b</SourceFilename><DstRect xOff='0' yOff='2.000001' xSize='1' ySize='0.499999'/>\
    </SimpleSource>";

// Lines 0 to 2, line 1 and all lines from 1 on.
const LAYERS: &str =
    "<SimpleSource><SourceFilename>a</SourceFilename><DstRect xOff='0' yOff='0' xSize='1' ySize='3'/></SimpleSource>\
    <SimpleSource><SourceFilename>b</SourceFilename><DstRect xOff='0' yOff='1' xSize='1' ySize='1'/></SimpleSource>\
    <SimpleSource><SourceFilename>c</SourceFilename><DstRect xOff='0' yOff='1' xSize='1' ySize='9'/></SimpleSource>";

// Whether the list of a line is this one.
fn is_list(index: &RowIndex, height: u32, y: u32, want: &[u32]) -> bool
    requires height { index.now.height ≡ height }
{
    y < height && index.at(y) == want
}

fn is_listed(alloc: Global, (sources, height, stretches, y, want): Line) -> bool {
    match index_in(alloc, sources.as_bytes(), height) {
        Some(index) => index.stretches() == stretches && is_list(&index, height, y, want),
        None => false,
    }
}

// The first of these lines that has another list.
fn first_mislisted(alloc: Global, lines: &[Line]) -> Option<usize> {
    for at in 0..lines.len() {
        if !is_listed(alloc, lines[at]) {
            return Some(at);
        }
    }
    None
}

#[test]
fn lines(rt: HostRuntime) {
    none_wrong(&rt, first_mislisted(rt.alloc(), &LINES));
}

fn push_stair(at: u32, text: &mut Vec<u8>) -> Result<(), AllocError> {
    let front = "<SimpleSource><SourceFilename>a</SourceFilename><DstRect xOff='0' yOff='";
    let mut digits = Buffer::new();
    let number = digits.format(at);
    let end = "' xSize='1' ySize='9999'/></SimpleSource>";
    push_all(&[front.as_bytes(), number.as_bytes(), end.as_bytes()], text)
}

// So many sources over each other, each a line lower than the one before, down to the last line.
fn stairs(alloc: Global, count: u32) -> Result<Vec<u8>, AllocError> {
    let mut text: Vec<u8> = Vec::new(alloc);
    for at in 0..count {
        push_stair(at, &mut text)?;
    }
    Ok(text)
}

// How many stretches the index of so many stairs has over 5,000 lines, 0 where there is no index. There is none where
// its lists would be too long, and not for want of stairs.
fn stretches_of(alloc: Global, count: u32) -> Option<u32> {
    let text = stairs(alloc, count).ok()?;
    let document = document(alloc, &text)?;
    match index_of(alloc, sources_in(&document)?, 5_000).ok()? {
        Some(index) => Some(index.stretches()),
        None => Some(0),
    }
}

// With 2,895 stairs the lists have 4,191,960 numbers, with one more 4,194,856.
#[test]
fn long_lists(rt: HostRuntime) {
    assert!(rt; stretches_of(rt.alloc(), 2_895) == Some(2_895));
    assert!(rt; stretches_of(rt.alloc(), 2_896) == Some(0));
}
