// Translations of which a call of the outside fails: what is told, what the names hold then, and that no draft is left.
use crate::ends::{
    End, Failed, Failer, Output, Telling, Turn, Untold, Work, first_other, first_told, first_unmet,
};
use crate::trials::{FOLDER, FileOf, none_wrong};
use outside::{Failing, Method};
use std::test::*;

const TALL: [u8; 1000] = [7; 1000];

const LOW: &[u8] = b"NROWS 1\nNCOLS 3\nNBITS 16\nPIXELTYPE SIGNEDINT\n";

// Rasters, a grid and nested mosaics, and what stands under the names of outputs before.
static FILES: [FileOf<'static>; 15] = [
    ("five.bil", &[1, 2, 3, 4, 5]),
    ("five.hdr", b"NROWS 1\nNCOLS 5\n"),
    ("tall.bil", &TALL),
    ("tall.hdr", b"NROWS 100\nNCOLS 10\n"),
    (
        "g.asc",
        b"ncols 2\nnrows 2\nxllcorner 9\nyllcorner 19\ncellsize 2\n1 -2\n30 4\n",
    ),
    ("a.bil", &[5, 0, 0, 0, 7, 0]),
    ("a.hdr", LOW),
    ("b.bil", &[0, 0, 0, 0, 9, 0]),
    ("b.hdr", LOW),
    (
        "m.vrt",
        b"<VRTDataset rasterXSize='3' rasterYSize='1'><VRTRasterBand dataType='Int16'><NoDataValue>-1</NoDataValue>
<ComplexSource><SourceFilename>a.bil</SourceFilename><NODATA>0</NODATA></ComplexSource>
<ComplexSource><SourceFilename>b.bil</SourceFilename><NODATA>0</NODATA></ComplexSource>
</VRTRasterBand></VRTDataset>",
    ),
    (
        "n.vrt",
        b"<VRTDataset rasterXSize='3' rasterYSize='1'><VRTRasterBand dataType='Int16'>
<SimpleSource><SourceFilename>m.vrt</SourceFilename></SimpleSource></VRTRasterBand></VRTDataset>",
    ),
    (
        "o.vrt",
        b"<VRTDataset rasterXSize='3' rasterYSize='1'><VRTRasterBand dataType='Int16'>
<SimpleSource><SourceFilename>n.vrt</SourceFilename></SimpleSource></VRTRasterBand></VRTDataset>",
    ),
    ("out.bil", b"old data"),
    ("out.hdr", b"old header"),
    ("h.asc", b"old grid"),
];

fn files() -> &'static [FileOf<'static>] {
    &FILES
}

const FIVE_LINE: &str = "gdal_translate five.bil out.bil";

const FIVE_OUTPUTS: [Output<'static>; 2] = [
    ("out.bil", b"old data", &[1, 2, 3, 4, 5]),
    (
        "out.hdr",
        b"old header",
        b"BYTEORDER      I
LAYOUT         BIL
NROWS          1
NCOLS          5
NBANDS         1
NBITS          8
SKIPBYTES      0
BANDROWBYTES   5
TOTALROWBYTES  5
BANDGAPBYTES   0
PIXELTYPE      UNSIGNEDINT
",
    ),
];

const NESTED_TEXT: &str =
    "Input file size is 3, 1\n0...10...20...30...40...50...60...70...80...90...100 - done.\n";

const NESTED_OUTPUTS: [Output<'static>; 2] = [
    ("out.bil", b"old data", &[5, 0, 0xff, 0xff, 9, 0]),
    (
        "out.hdr",
        b"old header",
        b"BYTEORDER      I
LAYOUT         BIL
NROWS          1
NCOLS          3
NBANDS         1
NBITS          16
SKIPBYTES      0
BANDROWBYTES   6
TOTALROWBYTES  6
BANDGAPBYTES   0
PIXELTYPE      SIGNEDINT
",
    ),
];

const TALL_TEXT: &str =
    "Input file size is 10, 100\n0...10...20...30...40...50...60...70...80...90...100 - done.\n";

const TALL_OUTPUTS: [Output<'static>; 2] = [
    ("out.bil", b"old data", &TALL),
    (
        "out.hdr",
        b"old header",
        b"BYTEORDER      I
LAYOUT         BIL
NROWS          100
NCOLS          10
NBANDS         1
NBITS          8
SKIPBYTES      0
BANDROWBYTES   10
TOTALROWBYTES  10
BANDGAPBYTES   0
PIXELTYPE      UNSIGNEDINT
",
    ),
];

// A line, and the same where nothing is printed; a hundred lines; a grid; a mosaic of mosaics; the hundred lines by two
// workers, one of which reads all of them, since they are short; and the mosaic with room for all its blocks.
static WORKS: [Work<'static>; 7] = [
    Work {
        line: FIVE_LINE,
        text: "Input file size is 5, 1\n0...10...20...30...40...50...60...70...80...90...100 - done.\n",
        told: "",
        outputs: &FIVE_OUTPUTS,
    },
    Work {
        line: "gdal_translate -q five.bil out.bil",
        text: "",
        told: "",
        outputs: &FIVE_OUTPUTS,
    },
    Work {
        line: "gdal_translate --blocks 1 tall.bil out.bil",
        text: TALL_TEXT,
        told: "",
        outputs: &TALL_OUTPUTS,
    },
    Work {
        line: "gdal_translate g.asc h.asc",
        text: "Input file size is 2, 2\n0...10...20...30...40...50...60...70...80...90...100 - done.\n",
        told: "",
        outputs: &[(
            "h.asc",
            b"old grid",
            b"ncols        2
nrows        2
xllcorner    9
yllcorner    19
cellsize     2
1 -2
30 4
",
        )],
    },
    Work {
        line: "gdal_translate --blocks 1 o.vrt out.bil",
        text: NESTED_TEXT,
        told: "",
        outputs: &NESTED_OUTPUTS,
    },
    Work {
        line: "gdal_translate --blocks 1 --workers 2 tall.bil out.bil",
        text: TALL_TEXT,
        told: "",
        outputs: &TALL_OUTPUTS,
    },
    Work {
        line: "gdal_translate --blocks 64 o.vrt out.bil",
        text: NESTED_TEXT,
        told: "",
        outputs: &NESTED_OUTPUTS,
    },
];

const FIVE: usize = 0;

const QUIET: usize = 1;

const TALLER: usize = 2;

const GRID: usize = 3;

const NESTED: usize = 4;

const BESIDE: usize = 5;

const ROOMY: usize = 6;

fn works() -> &'static [Work<'static>] {
    &WORKS
}

// A read behind those of the header and of the first line; a write; the making of a draft; and the publishing of each
// of the two files, behind which nothing is published.
static CALLS: [Failed<'static>; 8] = [
    (TALLER, &[], End::Whole),
    (TALLER, &[Failing::Of(Method::ReadAt, 3)], End::Early(0)),
    (TALLER, &[Failing::Of(Method::WriteAt, 1)], End::Early(0)),
    (TALLER, &[Failing::Of(Method::Create, 1)], End::Early(0)),
    (TALLER, &[Failing::Of(Method::Create, 2)], End::Early(0)),
    (TALLER, &[Failing::Of(Method::Publish, 1)], End::Early(0)),
    (TALLER, &[Failing::Of(Method::Publish, 2)], End::Early(1)),
    (TALLER, &[Failing::Of(Method::Publish, 3)], End::Whole),
];

#[test]
fn failing_calls_of_a_raster(rt: HostRuntime) {
    none_wrong(&rt, first_other(&rt, rt.alloc(), files(), works(), &CALLS));
}

// Translations, and how many calls of the folder each makes. For a line the data and their header are opened and the
// header is read, and the data are opened again and the line is read: five. Of the nested mosaics each of the three
// documents is opened and read, and so is each of two rasters as the one above: six and ten, whether one block is held
// or all of them, since each fills its mosaic's whole raster. Raw data of one line take seven calls: the drafts of the
// data and of their header are made, the first one is grown and its line written, the text of the second is appended,
// and both are published. A grid makes at least six calls, and of a hundred lines each is read, and each is written.
static EACH: [Turn; 6] = [
    (FIVE, Failer::Folder, (12, 13)),
    (QUIET, Failer::Folder, (12, 13)),
    (GRID, Failer::Folder, (6, 256)),
    (NESTED, Failer::Folder, (23, 24)),
    (BESIDE, Failer::Folder, (200, 256)),
    (ROOMY, Failer::Folder, (23, 24)),
];

// Each call of the folder fails in turn.
#[test]
fn each_failing_call(rt: HostRuntime) {
    none_wrong(&rt, first_unmet(&rt, rt.alloc(), files(), works(), &EACH));
}

// Translations, how many bytes a failing call of the output takes first, and how many calls each makes: at least two
// where something is printed, since the size is told before anything is written and the end behind it; else none.
static PUTS: [Turn; 9] = [
    (FIVE, Failer::Output(0), (2, 64)),
    (FIVE, Failer::Output(1), (2, 64)),
    (FIVE, Failer::Output(5), (2, 64)),
    (GRID, Failer::Output(3), (2, 64)),
    (NESTED, Failer::Output(3), (2, 64)),
    (QUIET, Failer::Output(3), (0, 1)),
    (NESTED, Failer::Input, (0, 1)),
    (ROOMY, Failer::Output(3), (2, 64)),
    (ROOMY, Failer::Input, (0, 1)),
];

// Each call of the output fails in turn. A quiet translation makes none, and no translation one of the input.
#[test]
fn each_failing_put(rt: HostRuntime) {
    none_wrong(&rt, first_unmet(&rt, rt.alloc(), files(), works(), &PUTS));
}

// Runs whose error stream fails: one that is done, two that are refused, and two whose folder fails.
static UNTOLD: [Untold<'static>; 5] = [
    (FIVE_LINE, &[], 0, "", "", 2),
    (
        "gdalinfo none.bil",
        &[],
        1,
        "Absent",
        "ERROR 4: none.bil: no such file\n",
        0,
    ),
    (
        "gdal_translate -b 2 five.bil out.bil",
        &[],
        1,
        "Plan",
        "ERROR 5: no band 2\n",
        0,
    ),
    (
        FIVE_LINE,
        &[Failing::Of(Method::Publish, 1)],
        2,
        "FolderFault",
        FOLDER,
        0,
    ),
    (
        FIVE_LINE,
        &[Failing::Of(Method::Publish, 2)],
        2,
        "FolderFault",
        FOLDER,
        1,
    ),
];

// The error stream takes nothing, or five bytes, and fails then.
static TELLS: [Telling<'static>; 2] = [(&[Failing::Call(1)], 1, 0), (&[Failing::Call(1)], 1, 5)];

// The error stream fails, and nothing else changes.
#[test]
fn a_failing_error_stream(rt: HostRuntime) {
    let wrong = first_told(&rt, rt.alloc(), files(), &FIVE_OUTPUTS, &UNTOLD, &TELLS);
    none_wrong(&rt, wrong);
}
