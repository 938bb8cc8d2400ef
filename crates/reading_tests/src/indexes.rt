// Bands of more than 16 sources: they are indexed by lines, and each line's list has to be the band's own, in the order
// of the document.
use crate::fixtures::{File, add, calm_folder};
use crate::reads::{Job, Picture, Place, shows_always};
use geotransform::Sample;
use outside::CalmFolder;
use std::alloc::Global;
use std::process::Abort;
use std::test::*;

// A source: its first column, its top in tenths of a line, its columns, and its height in tenths of a line. It shows
// the columns and lines of the file from the first on.
type Source = (u32, u32, u32, u32);

// They begin and end above and below the centres of lines, overlap, and stand in no order; one has a line alone, and
// one lies between two centres.
const FIRST: [Source; 20] = [
    (128, 30, 9, 35),
    (135, 164, 10, 72),
    (142, 5, 11, 39),
    (149, 136, 12, 76),
    (133, 260, 13, 43),
    (140, 104, 14, 80),
    (147, 235, 15, 47),
    (131, 76, 16, 84),
    (138, 200, 9, 51),
    (145, 44, 10, 88),
    (129, 175, 11, 55),
    (136, 16, 12, 92),
    (143, 140, 13, 59),
    (150, 274, 14, 96),
    (134, 115, 15, 63),
    (141, 246, 16, 12),
    (148, 80, 9, 67),
    (132, 214, 10, 34),
    (139, 55, 11, 71),
    (146, 186, 12, 9),
];

// One ends below the mosaic.
const SECOND: [Source; 18] = [
    (128, 200, 9, 41),
    (133, 24, 10, 84),
    (138, 135, 11, 57),
    (143, 246, 12, 30),
    (148, 60, 13, 73),
    (130, 174, 14, 46),
    (135, 335, 15, 89),
    (140, 106, 16, 62),
    (145, 210, 9, 35),
    (150, 34, 10, 78),
    (132, 145, 11, 51),
    (137, 256, 12, 94),
    (142, 70, 13, 67),
    (147, 184, 14, 9),
    (129, 5, 15, 83),
    (134, 116, 16, 56),
    (139, 220, 9, 99),
    (144, 44, 10, 72),
];

// The file, of 24 columns and 12 lines, without a 255.
fn sample(x: u32, y: u32) -> u8 {
    ((x as u64 * 5 + y as u64 * 29) % 199 + 1) as u8
}

// What a source shows at a pixel of the mosaic.
fn shown(source: Source, x: u32, y: u32) -> Option<u8> {
    let (left, top, columns, height) = source;
    let centre = y.saturating_mul(10).saturating_add(5);
    if x < left || centre < top {
        return None;
    }
    if x - left >= columns || centre - top >= height {
        return None;
    }
    Some(sample(x - left, (centre - top) / 10))
}

// That of the last source that shows a pixel, or 255.
fn last_shown(sources: &[Source], x: u32, y: u32) -> u8 {
    let mut last = 255;
    for source in sources {
        last = shown(*source, x, y).unwrap_or(last);
    }
    last
}

// The sources of two bands.
#[derive(Clone, Copy)]
struct Bands<'a> {
    first: &'a [Source],
    second: &'a [Source],
}

impl Picture for Bands<'_> {
    fn pixel(&self, band: u32, x: u32, y: u32) -> Sample {
        if band == 0 {
            return last_shown(self.first, x, y) as Sample;
        }
        last_shown(self.second, x, y) as Sample
    }
}

// The attributes of a source's size, whose height is in tenths of a line.
fn size_of<R: Abort>(rt: &R, alloc: Global, columns: u32, height: u32) -> String {
    let (lines, tenths) = (height / 10, height % 10);
    format!(in alloc; "xSize=\"{columns}\" ySize=\"{lines}.{tenths}\"/>").expect(rt, "memory")
}

// The attributes of a source's corner, whose top is in tenths of a line.
fn corner_of<R: Abort>(rt: &R, alloc: Global, left: u32, top: u32) -> String {
    let (line, tenth) = (top / 10, top % 10);
    format!(in alloc; "<DstRect xOff=\"{left}\" yOff=\"{line}.{tenth}\" ").expect(rt, "memory")
}

// The document's text of a source.
fn push_source<R: Abort>(rt: &R, alloc: Global, text: &mut Vec<u8>, source: &Source) {
    let (left, top, columns, height) = *source;
    let size = size_of(rt, alloc, columns, height);
    let corner = corner_of(rt, alloc, left, top);
    add(
        rt,
        text,
        b"<SimpleSource><SourceFilename relativeToVRT=\"1\">a.bil</SourceFilename><SrcRect xOff=\"0\" yOff=\"0\" ",
    );
    add(rt, text, size.as_bytes());
    add(rt, text, corner.as_bytes());
    add(rt, text, size.as_bytes());
    add(rt, text, b"</SimpleSource>");
}

// The document's text of a band.
fn push_band<R: Abort>(rt: &R, alloc: Global, text: &mut Vec<u8>, sources: &[Source]) {
    add(
        rt,
        text,
        b"<VRTRasterBand dataType=\"Byte\"><NoDataValue>255</NoDataValue>",
    );
    for source in sources {
        push_source(rt, alloc, text, source);
    }
    add(rt, text, b"</VRTRasterBand>");
}

// The mosaic, of 168 columns in two blocks, the first of which no source meets, and 40 lines.
fn document<R: Abort>(rt: &R, alloc: Global, bands: Bands<'_>) -> Vec<u8> {
    let mut text = Vec::new(alloc);
    add(
        rt,
        &mut text,
        b"<VRTDataset rasterXSize=\"168\" rasterYSize=\"40\">",
    );
    push_band(rt, alloc, &mut text, bands.first);
    push_band(rt, alloc, &mut text, bands.second);
    add(rt, &mut text, b"</VRTDataset>");
    text
}

// The bytes of the file.
fn raw<R: Abort>(rt: &R, alloc: Global) -> Vec<u8> {
    let mut bytes = Vec::new(alloc);
    for at in 0..24 * 12u32 {
        add(rt, &mut bytes, &[sample(at % 24, at / 24)]);
    }
    bytes
}

// A folder that holds the mosaic and the file.
fn holding<R: Abort>(rt: &R, alloc: Global, bands: Bands<'_>) -> CalmFolder {
    let text = document(rt, alloc, bands);
    let bytes = raw(rt, alloc);
    let files: [File<'_>; 3] = [
        ("m.vrt", text.as_slice()),
        ("a.bil", bytes.as_slice()),
        ("a.hdr", b"NROWS 12\nNCOLS 24\n"),
    ];
    calm_folder(rt, alloc, &files)
}

// The first pixel makes the block in which no source lies, which fills a pool of one block; from then on that paints
// parts of blocks. The band that is indexed first is the second one. Windows of many lines gather the lists of several
// stretches of lines, those of one line take a list as it is.
const WINDOWS: [Place; 15] = [
    (1, (0, 0, 1, 1)),
    (1, (128, 0, 40, 40)),
    (0, (128, 0, 40, 40)),
    (1, (120, 9, 41, 5)),
    (0, (131, 17, 29, 7)),
    (0, (141, 24, 16, 3)),
    (0, (150, 0, 1, 40)),
    (0, (128, 11, 40, 1)),
    (0, (135, 19, 33, 1)),
    (0, (128, 22, 40, 1)),
    (1, (128, 12, 40, 1)),
    (1, (140, 30, 20, 1)),
    (0, (150, 35, 1, 1)),
    (1, (150, 8, 1, 1)),
    (0, (144, 16, 1, 1)),
];

// Whether the windows show the bands at each of these capacities.
fn are_right<R: Abort>(rt: &R, alloc: Global, bands: Bands<'_>, capacities: &[u32]) -> bool {
    let mut folder = holding(rt, alloc, bands);
    let job = Job {
        name: "m.vrt",
        size: (168, 40),
        capacity: 1,
        windows: &WINDOWS,
    };
    shows_always(rt, alloc, &mut folder, job, &bands, capacities)
}

#[test]
fn indexed_bands_have_their_pixels(rt: HostRuntime) {
    let bands = Bands {
        first: &FIRST,
        second: &SECOND,
    };
    assert!(rt; are_right(&rt, rt.alloc(), bands, &[1, 64, 1000]));
}
