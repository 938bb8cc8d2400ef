// The run from a number: what it prints, the files that it makes and their order, and how it ends where a call of the
// outside fails.
use crate::ends::{End, Failed, Failer, Output, Turn, Work, first_other, first_unmet};
use crate::stories::{first_unrefused, has_all, has_count, says_all};
use crate::trials::{FileOf, Row, first_wrong, folder_of, none_wrong};
use outside::{Failing, MemFolder, Method, Name};
use std::alloc::Global;
use std::process::Abort;
use std::test::*;
use std::thread::Threads;

const FORTY_FIVE: &str = "Size: 90 x 90\nValues: 6885\nSum: 4837725\nLeast: 0\nGreatest: 1880\n";

const TWO: &str = "Size: 4 x 4\nValues: 15\nSum: 4450\nLeast: 0\nGreatest: 1020\n";

const ONE: &str = "Size: 2 x 2\nValues: 4\nSum: 1093\nLeast: 0\nGreatest: 1000\n";

// Tiles of three sides, with one block, with many and with three workers; leading zeros; a setting without effect; and
// a repeated option, of which the last use counts.
static TOLD: [Row<'static>; 8] = [
    ("synth 45 --blocks 1", 0, FORTY_FIVE, ""),
    ("synth --blocks 64 45", 0, FORTY_FIVE, ""),
    ("synth --workers 3 45", 0, FORTY_FIVE, ""),
    ("synth 2", 0, TWO, ""),
    (
        "synth 000000002 --config DTED_VERIFY_CHECKSUM YES",
        0,
        TWO,
        "",
    ),
    ("synth 1", 0, ONE, ""),
    ("synth 1 --blocks 1", 0, ONE, ""),
    ("synth --blocks 65536 --blocks 1 1", 0, ONE, ""),
];

#[test]
fn what_is_told(rt: HostRuntime) {
    none_wrong(&rt, first_wrong(&rt, rt.alloc(), &[], &TOLD));
}

const FIRST: &str = "ERROR 1: word 1 doesn't fit\n";

const SECOND: &str = "ERROR 1: word 2 doesn't fit\n";

const THIRD: &str = "ERROR 1: word 3 doesn't fit\n";

// Words that don't fit: nothing is printed, and no file is made.
static REFUSED: [Row<'static>; 17] = [
    ("synth", 1, "", FIRST),
    ("synth 0", 1, "", FIRST),
    ("synth 4097", 1, "", FIRST),
    ("synth 0000000002", 1, "", FIRST),
    ("synth +4", 1, "", FIRST),
    ("synth -4", 1, "", FIRST),
    ("synth 4.0", 1, "", FIRST),
    ("synth four", 1, "", FIRST),
    ("synth 4 5", 1, "", SECOND),
    ("synth 0 -q", 1, "", FIRST),
    ("synth 4 -q", 1, "", SECOND),
    ("synth -q 4", 1, "", FIRST),
    ("synth -b 1 4", 1, "", FIRST),
    ("synth --blocks 0 4", 1, "", SECOND),
    ("synth --workers 17 4", 1, "", SECOND),
    ("synth 4 --blocks", 1, "", THIRD),
    ("synth --blocks 4", 1, "", THIRD),
];

#[test]
fn refused_words(rt: HostRuntime) {
    none_wrong(&rt, first_unrefused(&rt, rt.alloc(), &[], &REFUSED));
}

// A run over no file, and what other commands then tell of its files: pixels of two tiles by the inner mosaic; by the
// outer one the first pixel with 1000 added, one as it is, and NODATA; and the last pixel of the copy.
static READ_BACK: [Row<'static>; 7] = [
    ("synth 2", 0, TWO, ""),
    (
        "gdallocationinfo -valonly synth_inner.vrt 2 1",
        0,
        "44\n",
        "",
    ),
    (
        "gdallocationinfo -valonly synth_inner.vrt 2 2",
        0,
        "93\n",
        "",
    ),
    (
        "gdallocationinfo -valonly synth_outer.vrt 2 2",
        0,
        "1000\n",
        "",
    ),
    (
        "gdallocationinfo -valonly synth_outer.vrt 0 3",
        0,
        "75\n",
        "",
    ),
    (
        "gdallocationinfo -valonly synth_outer.vrt 1 3",
        0,
        "-1\n",
        "",
    ),
    (
        "gdallocationinfo -valonly synth_out.bil 3 3",
        0,
        "1020\n",
        "",
    ),
];

// The names in the order in which they are published.
static NAMES: [&str; 12] = [
    "synth_t0.bil",
    "synth_t0.hdr",
    "synth_t1.bil",
    "synth_t1.hdr",
    "synth_t2.bil",
    "synth_t2.hdr",
    "synth_t3.bil",
    "synth_t3.hdr",
    "synth_inner.vrt",
    "synth_outer.vrt",
    "synth_out.bil",
    "synth_out.hdr",
];

// Tiles, of which the last ones have NODATA where column, line and number make 4 or 9; the header of the last one; and
// the copy.
static MADE: [FileOf<'static>; 7] = [
    ("synth_t0.bil", &[0, 0, 7, 0, 13, 0, 20, 0]),
    ("synth_t1.bil", &[31, 0, 38, 0, 44, 0, 51, 0]),
    ("synth_t2.bil", &[62, 0, 69, 0, 75, 0, 255, 255]),
    ("synth_t3.bil", &[93, 0, 255, 255, 255, 255, 113, 0]),
    (
        "synth_t3.hdr",
        b"BYTEORDER      I
LAYOUT         BIL
NROWS          2
NCOLS          2
NBANDS         1
NBITS          16
SKIPBYTES      0
BANDROWBYTES   4
TOTALROWBYTES  4
BANDGAPBYTES   0
PIXELTYPE      SIGNEDINT
NODATA         -1
ULXMAP         2.5
ULYMAP         -2.5
XDIM           1
YDIM           1
",
    ),
    (
        "synth_out.bil",
        &[
            0, 0, 7, 0, 31, 0, 38, 0, 13, 0, 20, 0, 44, 0, 51, 0, 62, 0, 69, 0, 232, 3, 239, 3, 75,
            0, 255, 255, 245, 3, 252, 3,
        ],
    ),
    (
        "synth_out.hdr",
        b"BYTEORDER      I
LAYOUT         BIL
NROWS          4
NCOLS          4
NBANDS         1
NBITS          16
SKIPBYTES      0
BANDROWBYTES   8
TOTALROWBYTES  8
BANDGAPBYTES   0
PIXELTYPE      SIGNEDINT
NODATA         -1
ULXMAP         0.5
ULYMAP         -0.5
XDIM           1
YDIM           1
",
    ),
];

// Whether a list has a name at a place.
fn has_at(came: &[Name], at: usize, wanted: &str) -> bool {
    matches!(came.get(at), Some(name) if name.as_str() == wanted)
}

// Whether a list begins with these names.
fn begins(came: &[Name], names: &[&str]) -> bool {
    for (at, wanted) in names.iter().enumerate() {
        if !has_at(came, at, wanted) {
            return false;
        }
    }
    true
}

// Whether the files of a folder are these, and came in this order.
fn came_so<R: Abort>(rt: &R, folder: &MemFolder, names: &[&str]) -> bool {
    let came = folder.names().expect(rt, "memory");
    begins(came.as_slice(), names) && has_count(rt, folder, names.len())
}

// Whether a run makes the named files alone, in their order, and they hold what they are to hold.
fn makes_all<R: Threads + Sync + Abort>(rt: &R, alloc: Global) -> bool {
    let mut folder = folder_of(rt, alloc, &[], &[]);
    says_all(rt, alloc, &mut folder, &READ_BACK)
        && came_so(rt, &folder, &NAMES)
        && has_all(rt, alloc, &folder, &MADE)
}

#[test]
fn files_made(rt: HostRuntime) {
    assert!(rt; makes_all(&rt, rt.alloc()));
}

// What stands under the names before.
static FILES: [FileOf<'static>; 12] = [
    ("synth_t0.bil", b"old"),
    ("synth_t0.hdr", b"old"),
    ("synth_t1.bil", b"old"),
    ("synth_t1.hdr", b"old"),
    ("synth_t2.bil", b"old"),
    ("synth_t2.hdr", b"old"),
    ("synth_t3.bil", b"old"),
    ("synth_t3.hdr", b"old"),
    ("synth_inner.vrt", b"old"),
    ("synth_outer.vrt", b"old"),
    ("synth_out.bil", b"old"),
    ("synth_out.hdr", b"old"),
];

const OUTPUTS: [Output<'static>; 12] = [
    ("synth_t0.bil", b"old", &[0, 0]),
    (
        "synth_t0.hdr",
        b"old",
        b"BYTEORDER      I
LAYOUT         BIL
NROWS          1
NCOLS          1
NBANDS         1
NBITS          16
SKIPBYTES      0
BANDROWBYTES   2
TOTALROWBYTES  2
BANDGAPBYTES   0
PIXELTYPE      SIGNEDINT
NODATA         -1
ULXMAP         0.5
ULYMAP         -0.5
XDIM           1
YDIM           1
",
    ),
    ("synth_t1.bil", b"old", &[31, 0]),
    (
        "synth_t1.hdr",
        b"old",
        b"BYTEORDER      I
LAYOUT         BIL
NROWS          1
NCOLS          1
NBANDS         1
NBITS          16
SKIPBYTES      0
BANDROWBYTES   2
TOTALROWBYTES  2
BANDGAPBYTES   0
PIXELTYPE      SIGNEDINT
NODATA         -1
ULXMAP         1.5
ULYMAP         -0.5
XDIM           1
YDIM           1
",
    ),
    ("synth_t2.bil", b"old", &[62, 0]),
    (
        "synth_t2.hdr",
        b"old",
        b"BYTEORDER      I
LAYOUT         BIL
NROWS          1
NCOLS          1
NBANDS         1
NBITS          16
SKIPBYTES      0
BANDROWBYTES   2
TOTALROWBYTES  2
BANDGAPBYTES   0
PIXELTYPE      SIGNEDINT
NODATA         -1
ULXMAP         0.5
ULYMAP         -1.5
XDIM           1
YDIM           1
",
    ),
    ("synth_t3.bil", b"old", &[93, 0]),
    (
        "synth_t3.hdr",
        b"old",
        b"BYTEORDER      I
LAYOUT         BIL
NROWS          1
NCOLS          1
NBANDS         1
NBITS          16
SKIPBYTES      0
BANDROWBYTES   2
TOTALROWBYTES  2
BANDGAPBYTES   0
PIXELTYPE      SIGNEDINT
NODATA         -1
ULXMAP         1.5
ULYMAP         -1.5
XDIM           1
YDIM           1
",
    ),
    (
        "synth_inner.vrt",
        b"old",
        b"<VRTDataset rasterXSize=\"2\" rasterYSize=\"2\">
  <GeoTransform>0, 1, 0, 0, 0, -1</GeoTransform>
  <VRTRasterBand dataType=\"Int16\" band=\"1\">
    <NoDataValue>-1</NoDataValue>
    <ComplexSource>
      <SourceFilename relativeToVRT=\"1\">synth_t0.bil</SourceFilename>
      <SourceBand>1</SourceBand>
      <SrcRect xOff=\"0\" yOff=\"0\" xSize=\"1\" ySize=\"1\"/>
      <DstRect xOff=\"0\" yOff=\"0\" xSize=\"1\" ySize=\"1\"/>
      <NODATA>-1</NODATA>
    </ComplexSource>
    <ComplexSource>
      <SourceFilename relativeToVRT=\"1\">synth_t1.bil</SourceFilename>
      <SourceBand>1</SourceBand>
      <SrcRect xOff=\"0\" yOff=\"0\" xSize=\"1\" ySize=\"1\"/>
      <DstRect xOff=\"1\" yOff=\"0\" xSize=\"1\" ySize=\"1\"/>
      <NODATA>-1</NODATA>
    </ComplexSource>
    <ComplexSource>
      <SourceFilename relativeToVRT=\"1\">synth_t2.bil</SourceFilename>
      <SourceBand>1</SourceBand>
      <SrcRect xOff=\"0\" yOff=\"0\" xSize=\"1\" ySize=\"1\"/>
      <DstRect xOff=\"0\" yOff=\"1\" xSize=\"1\" ySize=\"1\"/>
      <NODATA>-1</NODATA>
    </ComplexSource>
    <ComplexSource>
      <SourceFilename relativeToVRT=\"1\">synth_t3.bil</SourceFilename>
      <SourceBand>1</SourceBand>
      <SrcRect xOff=\"0\" yOff=\"0\" xSize=\"1\" ySize=\"1\"/>
      <DstRect xOff=\"1\" yOff=\"1\" xSize=\"1\" ySize=\"1\"/>
      <NODATA>-1</NODATA>
    </ComplexSource>
  </VRTRasterBand>
</VRTDataset>
",
    ),
    (
        "synth_outer.vrt",
        b"old",
        b"<VRTDataset rasterXSize=\"2\" rasterYSize=\"2\">
  <GeoTransform>0, 1, 0, 0, 0, -1</GeoTransform>
  <VRTRasterBand dataType=\"Int16\" band=\"1\">
    <NoDataValue>-1</NoDataValue>
    <ComplexSource>
      <SourceFilename relativeToVRT=\"1\">synth_inner.vrt</SourceFilename>
      <SourceBand>1</SourceBand>
      <SrcRect xOff=\"0\" yOff=\"0\" xSize=\"2\" ySize=\"2\"/>
      <DstRect xOff=\"0\" yOff=\"0\" xSize=\"2\" ySize=\"2\"/>
      <NODATA>-1</NODATA>
    </ComplexSource>
    <ComplexSource>
      <SourceFilename relativeToVRT=\"1\">synth_inner.vrt</SourceFilename>
      <SourceBand>1</SourceBand>
      <SrcRect xOff=\"0\" yOff=\"0\" xSize=\"1\" ySize=\"1\"/>
      <DstRect xOff=\"1\" yOff=\"1\" xSize=\"1\" ySize=\"1\"/>
      <NODATA>-1</NODATA>
      <ScaleOffset>1000</ScaleOffset>
    </ComplexSource>
  </VRTRasterBand>
</VRTDataset>
",
    ),
    ("synth_out.bil", b"old", &[0, 0, 31, 0, 62, 0, 232, 3]),
    (
        "synth_out.hdr",
        b"old",
        b"BYTEORDER      I
LAYOUT         BIL
NROWS          2
NCOLS          2
NBANDS         1
NBITS          16
SKIPBYTES      0
BANDROWBYTES   4
TOTALROWBYTES  4
BANDGAPBYTES   0
PIXELTYPE      SIGNEDINT
NODATA         -1
ULXMAP         0.5
ULYMAP         -0.5
XDIM           1
YDIM           1
",
    ),
];

static WORKS: [Work<'static>; 1] = [Work {
    line: "synth 1",
    text: ONE,
    told: "",
    outputs: &OUTPUTS,
}];

fn works() -> &'static [Work<'static>] {
    &WORKS
}

// Calls of the folder that fail, and how many files are published then: each publishing in turn; the making of the
// first draft, and that of the last; and the first opening and reading, which come once the tiles are published.
static CALLS: [Failed<'static>; 16] = [
    (0, &[Failing::Of(Method::Publish, 1)], End::Early(0)),
    (0, &[Failing::Of(Method::Publish, 2)], End::Early(1)),
    (0, &[Failing::Of(Method::Publish, 3)], End::Early(2)),
    (0, &[Failing::Of(Method::Publish, 4)], End::Early(3)),
    (0, &[Failing::Of(Method::Publish, 5)], End::Early(4)),
    (0, &[Failing::Of(Method::Publish, 6)], End::Early(5)),
    (0, &[Failing::Of(Method::Publish, 7)], End::Early(6)),
    (0, &[Failing::Of(Method::Publish, 8)], End::Early(7)),
    (0, &[Failing::Of(Method::Publish, 9)], End::Early(8)),
    (0, &[Failing::Of(Method::Publish, 10)], End::Early(9)),
    (0, &[Failing::Of(Method::Publish, 11)], End::Early(10)),
    (0, &[Failing::Of(Method::Publish, 12)], End::Early(11)),
    (0, &[Failing::Of(Method::Create, 1)], End::Early(0)),
    (0, &[Failing::Of(Method::Create, 12)], End::Early(10)),
    (0, &[Failing::Of(Method::Open, 1)], End::Early(8)),
    (0, &[Failing::Of(Method::ReadAt, 1)], End::Early(8)),
];

#[test]
fn failing_calls(rt: HostRuntime) {
    none_wrong(&rt, first_other(&rt, rt.alloc(), &FILES, works(), &CALLS));
}

// The run makes at least 60 calls of the folder, and one of the output, which takes no byte or some first.
static EACH: [Turn; 3] = [
    (0, Failer::Folder, (60, 256)),
    (0, Failer::Output(0), (1, 2)),
    (0, Failer::Output(9), (1, 2)),
];

// Each call of the folder and of the output fails in turn.
#[test]
fn each_failing_call_of_a_number(rt: HostRuntime) {
    none_wrong(&rt, first_unmet(&rt, rt.alloc(), &FILES, works(), &EACH));
}
