// Workers of a translation that read beside each other, and any number of them.
use crate::ends::{Failer, Output, Turn, Work, first_unmet};
use crate::stories::{has, has_all, says_all};
use crate::trials::{FileOf, Row, folder_of, joined, none_wrong, says_in};
use outside::MemFolder;
use outside_fakes::Gate;
use std::alloc::Global;
use std::process::Abort;
use std::test::*;
use std::thread::Threads;

// Lines of four bytes, each of which is another.
static SAMPLES: [u8; 256] = [
    0, 1, 2, 3, 4, 5, 6, 7, 8, 9, 10, 11, 12, 13, 14, 15, 16, 17, 18, 19, 20, 21, 22, 23, 24, 25,
    26, 27, 28, 29, 30, 31, 32, 33, 34, 35, 36, 37, 38, 39, 40, 41, 42, 43, 44, 45, 46, 47, 48, 49,
    50, 51, 52, 53, 54, 55, 56, 57, 58, 59, 60, 61, 62, 63, 64, 65, 66, 67, 68, 69, 70, 71, 72, 73,
    74, 75, 76, 77, 78, 79, 80, 81, 82, 83, 84, 85, 86, 87, 88, 89, 90, 91, 92, 93, 94, 95, 96, 97,
    98, 99, 100, 101, 102, 103, 104, 105, 106, 107, 108, 109, 110, 111, 112, 113, 114, 115, 116,
    117, 118, 119, 120, 121, 122, 123, 124, 125, 126, 127, 128, 129, 130, 131, 132, 133, 134, 135,
    136, 137, 138, 139, 140, 141, 142, 143, 144, 145, 146, 147, 148, 149, 150, 151, 152, 153, 154,
    155, 156, 157, 158, 159, 160, 161, 162, 163, 164, 165, 166, 167, 168, 169, 170, 171, 172, 173,
    174, 175, 176, 177, 178, 179, 180, 181, 182, 183, 184, 185, 186, 187, 188, 189, 190, 191, 192,
    193, 194, 195, 196, 197, 198, 199, 200, 201, 202, 203, 204, 205, 206, 207, 208, 209, 210, 211,
    212, 213, 214, 215, 216, 217, 218, 219, 220, 221, 222, 223, 224, 225, 226, 227, 228, 229, 230,
    231, 232, 233, 234, 235, 236, 237, 238, 239, 240, 241, 242, 243, 244, 245, 246, 247, 248, 249,
    250, 251, 252, 253, 254, 255,
];

fn samples() -> &'static [u8] {
    &SAMPLES
}

// Mosaics of these lines, one in the other: all of them lie in one block, which each worker needs.
const INNER: &[u8] = b"<VRTDataset rasterXSize='4' rasterYSize='64'><VRTRasterBand dataType='Byte'>
<SimpleSource><SourceFilename>tall.bil</SourceFilename></SimpleSource></VRTRasterBand></VRTDataset>";

const OUTER: &[u8] = b"<VRTDataset rasterXSize='4' rasterYSize='64'><VRTRasterBand dataType='Byte'>
<SimpleSource><SourceFilename>inner.vrt</SourceFilename></SimpleSource></VRTRasterBand></VRTDataset>";

fn folder<R: Abort>(rt: &R, alloc: Global) -> MemFolder {
    let files: [FileOf<'_>; 4] = [
        ("tall.bil", samples()),
        ("tall.hdr", b"NROWS 64\nNCOLS 4\n"),
        ("inner.vrt", INNER),
        ("outer.vrt", OUTER),
    ];
    folder_of(rt, alloc, &files, &[])
}

// A raster in which these bytes come so often that each of two workers makes half of its lines; of an output in which
// bands lie pixel by pixel (BIP) each reads half of each of two strips, and the second strip is read while the first
// one is written. And a mosaic of it, and one of that.
const TIMES: usize = 16_384;

const WIDE: &[u8] = b"NROWS 128\nNCOLS 32768\n";

const OVER_WIDE: &[u8] =
    b"<VRTDataset rasterXSize='32768' rasterYSize='128'><VRTRasterBand dataType='Byte'>
<SimpleSource><SourceFilename>wide.bil</SourceFilename></SimpleSource></VRTRasterBand></VRTDataset>";

const OVER_MOSAIC: &[u8] =
    b"<VRTDataset rasterXSize='32768' rasterYSize='128'><VRTRasterBand dataType='Byte'>
<SimpleSource><SourceFilename>wide.vrt</SourceFilename></SimpleSource></VRTRasterBand></VRTDataset>";

fn wide_folder<R: Abort>(rt: &R, alloc: Global, bytes: &[u8]) -> MemFolder {
    let files: [FileOf<'_>; 4] = [
        ("wide.bil", bytes),
        ("wide.hdr", WIDE),
        ("wide.vrt", OVER_WIDE),
        ("nested.vrt", OVER_MOSAIC),
    ];
    folder_of(rt, alloc, &files, &[])
}

// Whether a run goes so in a folder whose views wait for one another, and makes this file.
fn gate_makes<R: Threads + Sync + Abort>(
    rt: &R,
    alloc: Global,
    folder: MemFolder,
    row: &Row<'_>,
    made: FileOf<'_>,
) -> bool {
    let mut gate = Gate::new(alloc, folder).expect(rt, "memory");
    let said = says_in(rt, alloc, &mut gate, row);
    let folder = gate.into_inner();
    said && has(rt, alloc, &folder, made)
}

const BESIDE: Row<'static> = ("gdal_translate -q --workers 2 wide.bil out.bil", 0, "", "");

const WOVEN: Row<'static> = ("gdal_translate -q --workers 2 wide.bil out.bip", 0, "", "");

// Whether two workers, each of which waits for the other to read, copy the lines.
fn is_copied<R: Threads + Sync + Abort>(rt: &R, alloc: Global, row: &Row<'_>, name: &str) -> bool {
    let bytes = joined(rt, alloc, &[(samples(), TIMES)]);
    let folder = wide_folder(rt, alloc, bytes.as_slice());
    gate_makes(rt, alloc, folder, row, (name, bytes.as_slice()))
}

// Few lines, which one of two workers reads through the folder itself, so that nobody waits.
const FEW: Row<'static> = ("gdal_translate -q --workers 2 tall.bil out.bil", 0, "", "");

fn few_are_copied<R: Threads + Sync + Abort>(rt: &R, alloc: Global) -> bool {
    let folder = folder(rt, alloc);
    gate_makes(rt, alloc, folder, &FEW, ("out.bil", samples()))
}

#[test]
fn few_lines_over_a_gate(rt: HostRuntime) {
    assert!(rt; few_are_copied(&rt, rt.alloc()));
}

#[test]
fn two_workers_make_lines_beside_each_other(rt: HostRuntime) {
    assert!(rt; is_copied(&rt, rt.alloc(), &BESIDE, "out.bil"));
}

#[test]
fn two_workers_read_beside_each_other(rt: HostRuntime) {
    assert!(rt; is_copied(&rt, rt.alloc(), &WOVEN, "out.bip"));
}

// The wide lines by some workers, and the same through the mosaics. Each of sixteen workers reads eight lines of the
// strip of `h.bil`; those of `i.bip`, `j.bip` and `l.bip` are read in strips too.
static WIDE_NUMBERS: [Row<'static>; 12] = [
    ("gdal_translate -q --workers 1 wide.bil a.bil", 0, "", ""),
    ("gdal_translate -q --workers 2 wide.bil b.bil", 0, "", ""),
    ("gdal_translate -q --workers 4 wide.bil c.bil", 0, "", ""),
    ("gdal_translate -q --workers 2 wide.vrt d.bil", 0, "", ""),
    ("gdal_translate -q --workers 3 wide.vrt e.bil", 0, "", ""),
    ("gdal_translate -q --workers 1 wide.vrt f.bil", 0, "", ""),
    ("gdal_translate -q --workers 4 wide.vrt g.bil", 0, "", ""),
    ("gdal_translate -q --workers 16 wide.vrt h.bil", 0, "", ""),
    ("gdal_translate -q --workers 4 wide.bil i.bip", 0, "", ""),
    ("gdal_translate -q --workers 3 wide.vrt j.bip", 0, "", ""),
    ("gdal_translate -q --workers 4 nested.vrt k.bil", 0, "", ""),
    ("gdal_translate -q --workers 2 nested.vrt l.bip", 0, "", ""),
];

// Whether each of these numbers of workers copies the same lines.
fn are_alike_wide<R: Threads + Sync + Abort>(rt: &R, alloc: Global) -> bool {
    let bytes = joined(rt, alloc, &[(samples(), TIMES)]);
    let bytes = bytes.as_slice();
    let copies: [FileOf<'_>; 12] = [
        ("a.bil", bytes),
        ("b.bil", bytes),
        ("c.bil", bytes),
        ("d.bil", bytes),
        ("e.bil", bytes),
        ("f.bil", bytes),
        ("g.bil", bytes),
        ("h.bil", bytes),
        ("i.bip", bytes),
        ("j.bip", bytes),
        ("k.bil", bytes),
        ("l.bip", bytes),
    ];
    let mut folder = wide_folder(rt, alloc, bytes);
    says_all(rt, alloc, &mut folder, &WIDE_NUMBERS) && has_all(rt, alloc, &folder, &copies)
}

#[test]
fn some_workers_over_wide_lines(rt: HostRuntime) {
    assert!(rt; are_alike_wide(&rt, rt.alloc()));
}

// Short lines of these bytes and of ones behind them. Each of two workers makes 4,000 of them at a time, so all are
// made in two rounds.
const SHORT: &[u8] = b"NROWS 16000\nNCOLS 125\n";

const SHORT_TIMES: usize = 7_812;

const SHORT_REST: usize = 128;

static SHORT_NUMBERS: [Row<'static>; 3] = [
    ("gdal_translate -q --workers 1 short.bil a.bil", 0, "", ""),
    ("gdal_translate -q --workers 2 short.bil b.bil", 0, "", ""),
    (
        "gdal_translate --workers 2 short.bil c.bil",
        0,
        "Input file size is 125, 16000\n0...10...20...30...40...50...60...70...80...90...100 - done.\n",
        "",
    ),
];

// Whether each of these numbers of workers copies the same short lines.
fn are_alike_short<R: Threads + Sync + Abort>(rt: &R, alloc: Global) -> bool {
    let bytes = joined(
        rt,
        alloc,
        &[(samples(), SHORT_TIMES), (b"\x01", SHORT_REST)],
    );
    let bytes = bytes.as_slice();
    let files: [FileOf<'_>; 2] = [("short.bil", bytes), ("short.hdr", SHORT)];
    let copies: [FileOf<'_>; 3] = [("a.bil", bytes), ("b.bil", bytes), ("c.bil", bytes)];
    let mut folder = folder_of(rt, alloc, &files, &[]);
    says_all(rt, alloc, &mut folder, &SHORT_NUMBERS) && has_all(rt, alloc, &folder, &copies)
}

#[test]
fn two_workers_over_short_lines(rt: HostRuntime) {
    assert!(rt; are_alike_short(&rt, rt.alloc()));
}

// A tile whose bytes are these again and again, and ones behind them, which is copied to a cell, and the cell to a tile
// by some workers, each of which reads lines of all columns.
const TILE_TIMES: usize = 11_268;

const TILE_REST: usize = 194;

static CELLS: [Row<'static>; 4] = [
    ("gdal_translate -q N40E010.hgt cell.dt1", 0, "", ""),
    (
        "gdal_translate -q --workers 1 cell.dt1 one/N40E010.hgt",
        0,
        "",
        "",
    ),
    (
        "gdal_translate -q --workers 2 cell.dt1 two/N40E010.hgt",
        0,
        "",
        "",
    ),
    (
        "gdal_translate -q --workers 5 cell.dt1 five/N40E010.hgt",
        0,
        "",
        "",
    ),
];

// Whether each number of workers gives the tile again.
fn are_tiles_again<R: Threads + Sync + Abort>(rt: &R, alloc: Global) -> bool {
    let bytes = joined(rt, alloc, &[(samples(), TILE_TIMES), (b"\x01", TILE_REST)]);
    let bytes = bytes.as_slice();
    let tiles: [FileOf<'_>; 3] = [
        ("one/N40E010.hgt", bytes),
        ("two/N40E010.hgt", bytes),
        ("five/N40E010.hgt", bytes),
    ];
    let mut folder = folder_of(rt, alloc, &[("N40E010.hgt", bytes)], &[]);
    says_all(rt, alloc, &mut folder, &CELLS) && has_all(rt, alloc, &folder, &tiles)
}

#[test]
fn some_workers_over_a_cell(rt: HostRuntime) {
    assert!(rt; are_tiles_again(&rt, rt.alloc()));
}

// A tile of the next level, which some workers copy to a cell, each of them columns of its own, and the cell to a tile,
// each of them lines of its own.
const LARGE_TIMES: usize = 101_306;

const LARGE_REST: usize = 66;

static LARGE_CELLS: [Row<'static>; 4] = [
    (
        "gdal_translate -q --workers 1 N40E010.hgt one.dt2",
        0,
        "",
        "",
    ),
    (
        "gdal_translate -q --workers 3 N40E010.hgt three.dt2",
        0,
        "",
        "",
    ),
    (
        "gdal_translate -q --workers 3 one.dt2 one/N40E010.hgt",
        0,
        "",
        "",
    ),
    (
        "gdal_translate -q --workers 2 three.dt2 three/N40E010.hgt",
        0,
        "",
        "",
    ),
];

// Whether each number of workers gives the large tile again.
fn are_large_tiles_again<R: Threads + Sync + Abort>(rt: &R, alloc: Global) -> bool {
    let bytes = joined(
        rt,
        alloc,
        &[(samples(), LARGE_TIMES), (b"\x01", LARGE_REST)],
    );
    let bytes = bytes.as_slice();
    let tiles: [FileOf<'_>; 2] = [("one/N40E010.hgt", bytes), ("three/N40E010.hgt", bytes)];
    let mut folder = folder_of(rt, alloc, &[("N40E010.hgt", bytes)], &[]);
    says_all(rt, alloc, &mut folder, &LARGE_CELLS) && has_all(rt, alloc, &folder, &tiles)
}

#[test]
fn some_workers_over_columns(rt: HostRuntime) {
    assert!(rt; are_large_tiles_again(&rt, rt.alloc()));
}

// Lines of which each of two workers makes seventeen at a time, so that all are made in two rounds, the second while
// the first is written. Of an output in which bands lie pixel by pixel (BIP) a strip of sixty-four has two million
// samples: two workers read it beside each other, and the last line is read while those before it are written.
const LONG: &[u8] = b"NROWS 65\nNCOLS 32768\n";

const LONG_TIMES: usize = 8_320;

const LONG_MADE: &[u8] = b"BYTEORDER      I
LAYOUT         BIL
NROWS          65
NCOLS          32768
NBANDS         1
NBITS          8
SKIPBYTES      0
BANDROWBYTES   32768
TOTALROWBYTES  32768
BANDGAPBYTES   0
PIXELTYPE      UNSIGNEDINT
";

const LONG_WOVEN: &[u8] = b"BYTEORDER      I
LAYOUT         BIP
NROWS          65
NCOLS          32768
NBANDS         1
NBITS          8
SKIPBYTES      0
BANDROWBYTES   32768
TOTALROWBYTES  32768
BANDGAPBYTES   0
PIXELTYPE      UNSIGNEDINT
";

// Each line is written, and before the first one is, a worker reads seventeen or more. The size is put, and then that
// the first round is written and that all is; nothing is taken.
static LONG_TURNS: [Turn; 3] = [
    (0, Failer::Folder, (82, 256)),
    (0, Failer::Output(3), (2, 64)),
    (0, Failer::Input, (0, 1)),
];

// Each line is written, and a worker reads thirty-two or more of them.
static WOVEN_TURNS: [Turn; 3] = [
    (0, Failer::Folder, (97, 256)),
    (0, Failer::Output(3), (2, 64)),
    (0, Failer::Input, (0, 1)),
];

const LONG_TEXT: &str =
    "Input file size is 32768, 65\n0...10...20...30...40...50...60...70...80...90...100 - done.\n";

// The first work of which a call's failing isn't met: a copy of the long lines.
fn first_unmet_long<R: Threads + Sync + Abort>(rt: &R, alloc: Global) -> Option<usize> {
    let bytes = joined(rt, alloc, &[(samples(), LONG_TIMES)]);
    let bytes = bytes.as_slice();
    let files: [FileOf<'_>; 4] = [
        ("long.bil", bytes),
        ("long.hdr", LONG),
        ("out.bil", b"old data"),
        ("out.hdr", b"old header"),
    ];
    let outputs: [Output<'_>; 2] = [
        ("out.bil", b"old data", bytes),
        ("out.hdr", b"old header", LONG_MADE),
    ];
    let works: [Work<'_>; 1] = [Work {
        line: "gdal_translate --workers 2 long.bil out.bil",
        text: LONG_TEXT,
        told: "",
        outputs: &outputs,
    }];
    first_unmet(rt, alloc, &files, &works, &LONG_TURNS)
}

// The same of a copy in which bands lie pixel by pixel.
fn first_unmet_woven<R: Threads + Sync + Abort>(rt: &R, alloc: Global) -> Option<usize> {
    let bytes = joined(rt, alloc, &[(samples(), LONG_TIMES)]);
    let bytes = bytes.as_slice();
    let files: [FileOf<'_>; 4] = [
        ("long.bil", bytes),
        ("long.hdr", LONG),
        ("out.bip", b"old data"),
        ("out.hdr", b"old header"),
    ];
    let outputs: [Output<'_>; 2] = [
        ("out.bip", b"old data", bytes),
        ("out.hdr", b"old header", LONG_WOVEN),
    ];
    let works: [Work<'_>; 1] = [Work {
        line: "gdal_translate --workers 2 long.bil out.bip",
        text: LONG_TEXT,
        told: "",
        outputs: &outputs,
    }];
    first_unmet(rt, alloc, &files, &works, &WOVEN_TURNS)
}

// Each call of the folder fails in turn while two workers make long lines, and others are written, and each of the
// output. What was printed by then is the first part of what a whole run prints.
#[test]
fn each_failing_call_of_two_workers(rt: HostRuntime) {
    none_wrong(&rt, first_unmet_long(&rt, rt.alloc()));
}

// The same while two workers read long lines, and others are written.
#[test]
fn each_failing_call_of_two_workers_that_read_ahead(rt: HostRuntime) {
    none_wrong(&rt, first_unmet_woven(&rt, rt.alloc()));
}

// A raster of one line, and a mosaic that shows it in each of its two: the smallest of which two workers read a line
// each, beside each other. Both need the raster's block, and the lines that they share may have it from the other one.
const LINE_TIMES: usize = 1_024;

const LINE: &[u8] = b"NROWS 1\nNCOLS 262144\n";

const TWICE: &[u8] =
    b"<VRTDataset rasterXSize='262144' rasterYSize='2'><VRTRasterBand dataType='Byte'><SimpleSource>
<SourceFilename>line.bil</SourceFilename><DstRect xOff='0' yOff='0' xSize='262144' ySize='1'/></SimpleSource>
<SimpleSource><SourceFilename>line.bil</SourceFilename><DstRect xOff='0' yOff='1' xSize='262144' ySize='1'/>
</SimpleSource></VRTRasterBand></VRTDataset>";

const TWICE_MADE: &[u8] = b"BYTEORDER      I
LAYOUT         BIL
NROWS          2
NCOLS          262144
NBANDS         1
NBITS          8
SKIPBYTES      0
BANDROWBYTES   262144
TOTALROWBYTES  262144
BANDGAPBYTES   0
PIXELTYPE      UNSIGNEDINT
";

const TWICE_TEXT: &str =
    "Input file size is 262144, 2\n0...10...20...30...40...50...60...70...80...90...100 - done.\n";

// The document is opened and read, the raster and its header are opened and the header is read. A worker that reads the
// line opens the raster and reads four pieces or more; the other one does the same beside it, or nothing. The two
// drafts are made, one is grown and each of its lines written, the other gets its text, and both are published.
static TWICE_TURNS: [Turn; 3] = [
    (0, Failer::Folder, (18, 64)),
    (0, Failer::Output(3), (2, 64)),
    (0, Failer::Input, (0, 1)),
];

// The first work of which a call's failing isn't met.
fn first_unmet_twice<R: Threads + Sync + Abort>(rt: &R, alloc: Global) -> Option<usize> {
    let line = joined(rt, alloc, &[(samples(), LINE_TIMES)]);
    let line = line.as_slice();
    let both = joined(rt, alloc, &[(line, 2)]);
    let files: [FileOf<'_>; 5] = [
        ("line.bil", line),
        ("line.hdr", LINE),
        ("twice.vrt", TWICE),
        ("out.bil", b"old data"),
        ("out.hdr", b"old header"),
    ];
    let outputs: [Output<'_>; 2] = [
        ("out.bil", b"old data", both.as_slice()),
        ("out.hdr", b"old header", TWICE_MADE),
    ];
    let works: [Work<'_>; 1] = [Work {
        line: "gdal_translate --workers 2 twice.vrt out.bil",
        text: TWICE_TEXT,
        told: "",
        outputs: &outputs,
    }];
    first_unmet(rt, alloc, &files, &works, &TWICE_TURNS)
}

// Each call of the folder fails in turn while two workers need the same line, whichever of them makes it, and each of
// the output.
#[test]
fn each_failing_call_over_a_shared_line(rt: HostRuntime) {
    none_wrong(&rt, first_unmet_twice(&rt, rt.alloc()));
}

const ONCE_EACH: Row<'static> = ("gdal_translate -q --workers 2 twice.vrt out.bil", 0, "", "");

// Whether two workers that need the same line wait for each other to read it.
fn is_read_twice<R: Threads + Sync + Abort>(rt: &R, alloc: Global) -> bool {
    let line = joined(rt, alloc, &[(samples(), LINE_TIMES)]);
    let line = line.as_slice();
    let both = joined(rt, alloc, &[(line, 2)]);
    let files: [FileOf<'_>; 3] = [("line.bil", line), ("line.hdr", LINE), ("twice.vrt", TWICE)];
    let folder = folder_of(rt, alloc, &files, &[]);
    gate_makes(rt, alloc, folder, &ONCE_EACH, ("out.bil", both.as_slice()))
}

#[test]
fn two_workers_read_one_line(rt: HostRuntime) {
    assert!(rt; is_read_twice(&rt, rt.alloc()));
}

// The lines by many workers, of which each has few, and the same through the mosaics.
static NUMBERS: [Row<'static>; 10] = [
    ("gdal_translate -q --workers 1 tall.bil a.bil", 0, "", ""),
    ("gdal_translate -q --workers 2 tall.bil b.bil", 0, "", ""),
    ("gdal_translate -q --workers 3 tall.bil c.bil", 0, "", ""),
    (
        "gdal_translate -q --workers 4 --blocks 1 tall.bil d.bil",
        0,
        "",
        "",
    ),
    ("gdal_translate -q --workers 16 tall.bil e.bil", 0, "", ""),
    ("gdal_translate -q --workers 1 outer.vrt f.bil", 0, "", ""),
    ("gdal_translate -q --workers 2 outer.vrt g.bil", 0, "", ""),
    ("gdal_translate -q --workers 3 outer.vrt h.bil", 0, "", ""),
    (
        "gdal_translate -q --workers 4 --blocks 1 outer.vrt i.bil",
        0,
        "",
        "",
    ),
    ("gdal_translate -q --workers 16 outer.vrt j.bil", 0, "", ""),
];

// Whether each number of workers copies the same lines.
fn are_alike<R: Threads + Sync + Abort>(rt: &R, alloc: Global) -> bool {
    let bytes = samples();
    let copies: [FileOf<'_>; 10] = [
        ("a.bil", bytes),
        ("b.bil", bytes),
        ("c.bil", bytes),
        ("d.bil", bytes),
        ("e.bil", bytes),
        ("f.bil", bytes),
        ("g.bil", bytes),
        ("h.bil", bytes),
        ("i.bil", bytes),
        ("j.bil", bytes),
    ];
    let mut folder = folder(rt, alloc);
    says_all(rt, alloc, &mut folder, &NUMBERS) && has_all(rt, alloc, &folder, &copies)
}

#[test]
fn any_number_of_workers(rt: HostRuntime) {
    assert!(rt; are_alike(&rt, rt.alloc()));
}
