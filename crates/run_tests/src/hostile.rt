// Files and lines that are made to break a reader: what is told of them.
use crate::trials::{
    FileOf, Part, Row, Trial, add_parts, ends_so, first_wrong, folder_of, joined, none_wrong, put,
    said_in, says, says_in,
};
use outside::MemFolder;
use outside_fakes::TWO_TILES;
use std::alloc::Global;
use std::process::Abort;
use std::test::*;
use std::thread::Threads;

const BIG: &[u8] = b"NROWS 4194304\nNCOLS 4194304\nNBANDS 256\nNBITS 32\nLAYOUT BSQ\n";

const BIG_GRID: &[u8] = b"ncols 4194304\nnrows 4194304\nxllcorner 0\nyllcorner 0\ncellsize 1\n";

// A token of 65 digits behind a head of 55 bytes.
const LONG_TOKEN: &[u8] = b"ncols 1\nnrows 1\nxllcorner 0\nyllcorner 0\ncellsize 1\n\n\n\n\n\
    00000000000000000000000000000000000000000000000000000000000000001\n";

// A source as far right as one may lie, and one a pixel farther.
const FAR: &[u8] =
    b"<VRTDataset rasterXSize='1' rasterYSize='1'><VRTRasterBand><NoDataValue>9</NoDataValue><SimpleSource>
<SourceFilename>one.bil</SourceFilename><DstRect xOff='8388608' yOff='0' xSize='8388608' ySize='1'/>
</SimpleSource></VRTRasterBand></VRTDataset>";

const FARTHER: &[u8] =
    b"<VRTDataset rasterXSize='1' rasterYSize='1'><VRTRasterBand><NoDataValue>9</NoDataValue><SimpleSource>
<SourceFilename>one.bil</SourceFilename><DstRect xOff='8388609' yOff='0' xSize='1' ySize='1'/>
</SimpleSource></VRTRasterBand></VRTDataset>";

static FILES: [FileOf<'static>; 8] = [
    ("one.bil", &[7]),
    ("one.hdr", b"NROWS 1\nNCOLS 1\n"),
    ("big.bsq", &[7]),
    ("big.hdr", BIG),
    ("big.asc", BIG_GRID),
    ("long.asc", LONG_TOKEN),
    ("far.vrt", FAR),
    ("farther.vrt", FARTHER),
];

fn files() -> &'static [FileOf<'static>] {
    &FILES
}

static ROWS: [Row<'static>; 5] = [
    (
        "gdalinfo big.bsq",
        1,
        "",
        "ERROR 4: big.bsq: needs 18014398509481984 bytes, has 1\n",
    ),
    (
        "gdalinfo big.asc",
        1,
        "",
        "ERROR 4: big.asc: malformed grid (4)\n",
    ),
    (
        "gdalinfo long.asc",
        1,
        "",
        "ERROR 4: long.asc: malformed grid (2) at 55\n",
    ),
    ("gdallocationinfo -valonly far.vrt 0 0", 0, "9\n", ""),
    (
        "gdallocationinfo -valonly farther.vrt 0 0",
        1,
        "",
        "ERROR 4: farther.vrt: malformed vrt (6)\n",
    ),
];

#[test]
fn large_and_long(rt: HostRuntime) {
    none_wrong(&rt, first_wrong(&rt, rt.alloc(), files(), &ROWS));
}

// How many elements a document has, each in the one before, and what is told of it.
type Depth<'a> = (usize, &'a str);

// The element of depth 65 is one too many; without it, the text ends too early.
static DEPTHS: [Depth<'static>; 2] = [
    (65, "ERROR 4: deep.vrt: malformed vrt (6)\n"),
    (64, "ERROR 4: deep.vrt: malformed vrt (1) at 674\n"),
];

// Whether this is told of such a document.
fn is_deep_so<R: Threads + Sync + Abort>(rt: &R, alloc: Global, depth: &Depth<'_>) -> bool {
    let (count, err) = *depth;
    let parts: [Part<'_>; 2] = [
        (b"<VRTDataset rasterXSize=\"1\" rasterYSize=\"1\">", 1),
        (b"<Metadata>", count.saturating_sub(1)),
    ];
    let text = joined(rt, alloc, &parts);
    let row = ("gdalinfo deep.vrt", 1, "", err);
    says(rt, alloc, &[("deep.vrt", &text)], &row)
}

// The first of these depths of which something else is told.
fn first_wrong_depth<R: Threads + Sync + Abort>(
    rt: &R,
    alloc: Global,
    depths: &[Depth<'_>],
) -> Option<usize> {
    for (at, depth) in depths.iter().enumerate() {
        if !is_deep_so(rt, alloc, depth) {
            return Some(at);
        }
    }
    None
}

#[test]
fn deep_documents(rt: HostRuntime) {
    none_wrong(&rt, first_wrong_depth(&rt, rt.alloc(), &DEPTHS));
}

// Whether the first bytes of a document are refused where the text goes wrong.
fn is_refused<R: Threads + Sync + Abort>(
    rt: &R,
    alloc: Global,
    document: &[u8],
    len: usize,
) -> bool {
    let (front, _) = document.split_at(len.min(document.len()));
    let mut folder = folder_of(rt, alloc, &[("cut.vrt", front)], &[]);
    let said = said_in(rt, alloc, &mut folder, "gdalinfo cut.vrt");
    let told = said.err.got();
    said.status == 1 && told.starts_with(b"ERROR 4: cut.vrt: malformed vrt (1) at ")
}

// The least number of first bytes of a document of which something else is told. It stands in front of the document's
// last line feed and of the `>` before it.
fn first_unrefused_cut<R: Threads + Sync + Abort>(
    rt: &R,
    alloc: Global,
    document: &[u8],
) -> Option<usize> {
    for len in 0..document.len().saturating_sub(1) {
        if !is_refused(rt, alloc, document, len) {
            return Some(len);
        }
    }
    None
}

#[test]
fn cut_documents(rt: HostRuntime) {
    none_wrong(&rt, first_unrefused_cut(&rt, rt.alloc(), TWO_TILES));
}

// A line of so many digits, and a point.
static LINES: [Part<'static>; 2] = [(b"0", 4097), (b"\n0 0\n", 1)];

fn is_long_refused<R: Threads + Sync + Abort>(rt: &R, alloc: Global) -> bool {
    let line = joined(rt, alloc, &LINES);
    let trial: Trial<'_> = (
        ("gdallocationinfo -valonly one.bil", (&line, 65_536)),
        (&[], &[], &[]),
        (1, "", "ERROR 5: input line 1 is no point\n"),
    );
    ends_so(rt, alloc, files(), &trial)
}

#[test]
fn a_long_line(rt: HostRuntime) {
    assert!(rt; is_long_refused(&rt, rt.alloc()));
}

// How many empty lines an input has, the line behind them, the status, what is printed and what is told.
type Count<'a> = (usize, &'a [u8], u8, &'a str, &'a str);

// As many lines as there may be, of which the last is empty or a point; and one more.
static COUNTS: [Count<'static>; 3] = [
    (16_777_216, b"", 0, "", ""),
    (16_777_215, b"0 0\n", 0, "7\n", ""),
    (
        16_777_216,
        b"\n",
        1,
        "",
        "ERROR 6: limit of points passed (16777217)\n",
    ),
];

// Whether a run over so many lines says what is listed.
fn is_counted_so<R: Threads + Sync + Abort>(rt: &R, alloc: Global, count: &Count<'_>) -> bool {
    let (empty, last, status, out, err) = *count;
    let parts: [Part<'_>; 2] = [(b"\n", empty), (last, 1)];
    let lines = joined(rt, alloc, &parts);
    let trial: Trial<'_> = (
        ("gdallocationinfo -valonly one.bil", (&lines, 65_536)),
        (&[], &[], &[]),
        (status, out, err),
    );
    ends_so(rt, alloc, files(), &trial)
}

// The first of these numbers of lines over which a run says something else.
fn first_wrong_count<R: Threads + Sync + Abort>(
    rt: &R,
    alloc: Global,
    counts: &[Count<'_>],
) -> Option<usize> {
    for (at, count) in counts.iter().enumerate() {
        if !is_counted_so(rt, alloc, count) {
            return Some(at);
        }
    }
    None
}

#[test]
fn as_many_lines_as_may_be(rt: HostRuntime) {
    none_wrong(&rt, first_wrong_count(&rt, rt.alloc(), &COUNTS));
}

static FRONT: [Part<'static>; 1] = [(
    b"<VRTDataset rasterXSize='1' rasterYSize='1'><VRTRasterBand>",
    1,
)];

static BACK: [Part<'static>; 1] = [(b"</VRTRasterBand></VRTDataset>", 1)];

// A mosaic of one pixel that shows the file of a name twice.
fn twice<R: Abort>(rt: &R, alloc: Global, name: &[u8]) -> Vec<u8> {
    let source: [Part<'_>; 3] = [
        (b"<SimpleSource><SourceFilename>", 1),
        (name, 1),
        (b"</SourceFilename></SimpleSource>", 1),
    ];
    let mut text = joined(rt, alloc, &FRONT);
    add_parts(rt, &mut text, &source);
    add_parts(rt, &mut text, &source);
    add_parts(rt, &mut text, &BACK);
    text
}

// Mosaics, and the file that each shows twice.
static CHAIN: [(&str, &str); 16] = [
    ("m1.vrt", "m2.vrt"),
    ("m2.vrt", "m3.vrt"),
    ("m3.vrt", "m4.vrt"),
    ("m4.vrt", "m5.vrt"),
    ("m5.vrt", "m6.vrt"),
    ("m6.vrt", "m7.vrt"),
    ("m7.vrt", "m8.vrt"),
    ("m8.vrt", "m9.vrt"),
    ("m9.vrt", "m10.vrt"),
    ("m10.vrt", "m11.vrt"),
    ("m11.vrt", "m12.vrt"),
    ("m12.vrt", "m13.vrt"),
    ("m13.vrt", "m14.vrt"),
    ("m14.vrt", "m15.vrt"),
    ("m15.vrt", "m16.vrt"),
    ("m16.vrt", "one.bil"),
];

fn put_link<R: Abort>(rt: &R, alloc: Global, folder: &mut MemFolder, link: &(&str, &str)) {
    let (name, next) = *link;
    let text = twice(rt, alloc, next.as_bytes());
    put(rt, alloc, folder, (name, &text));
}

// Mosaics, each of which shows the next twice, and the last a file.
fn chained<R: Abort>(rt: &R, alloc: Global, links: &[(&str, &str)]) -> MemFolder {
    let mut folder = folder_of(rt, alloc, files(), &[]);
    for link in links {
        put_link(rt, alloc, &mut folder, link);
    }
    folder
}

const DOUBLED: Row<'static> = ("gdallocationinfo -valonly m1.vrt 0 0", 0, "7\n", "");

fn is_doubled<R: Threads + Sync + Abort>(rt: &R, alloc: Global) -> bool {
    let mut folder = chained(rt, alloc, &CHAIN);
    says_in(rt, alloc, &mut folder, &DOUBLED)
}

#[test]
fn mosaics_that_double(rt: HostRuntime) {
    assert!(rt; is_doubled(&rt, rt.alloc()));
}
