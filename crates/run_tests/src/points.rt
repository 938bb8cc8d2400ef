// Runs over the points of an input, and over mosaics of mosaics.
use crate::ends::{Asking, Failer, first_unasked};
use crate::trials::{
    CALM, Calls, FOLDER, Failures, Fed, FileOf, Given, NOTHING, READING, Row, Trial, WRITING,
    ends_so, first_failing, first_harmless, first_wrong, is_number, none_wrong, run_over,
};
use outside::{Failing, Method};
use std::alloc::Global;
use std::process::Abort;
use std::test::*;
use std::thread::Threads;

const TWELVE: [u8; 12] = [1, 2, 3, 4, 5, 6, 7, 8, 9, 10, 11, 12];

// Two bands of 3 x 2 bytes; two rasters of three numbers; mosaics of them, in one another and in themselves; values
// that are scaled and looked up; and a raster that has a place.
static FILES: [FileOf<'static>; 19] = [
    ("two.bil", &TWELVE),
    ("two.hdr", b"NROWS 2\nNCOLS 3\nNBANDS 2\nLAYOUT BIL\n"),
    ("a.bil", &[5, 0, 0, 0, 7, 0]),
    (
        "a.hdr",
        b"NROWS 1\nNCOLS 3\nNBITS 16\nPIXELTYPE SIGNEDINT\n",
    ),
    ("b.bil", &[0, 0, 0, 0, 9, 0]),
    (
        "b.hdr",
        b"NROWS 1\nNCOLS 3\nNBITS 16\nPIXELTYPE SIGNEDINT\n",
    ),
    (
        "m.vrt",
        b"<VRTDataset rasterXSize='3' rasterYSize='1'><VRTRasterBand dataType='Int16'><NoDataValue>-1</NoDataValue>\
        <ComplexSource><SourceFilename>a.bil</SourceFilename><NODATA>0</NODATA></ComplexSource><ComplexSource>\
        <SourceFilename>b.bil</SourceFilename><NODATA>0</NODATA></ComplexSource></VRTRasterBand></VRTDataset>",
    ),
    (
        "simple.vrt",
        b"<VRTDataset rasterXSize='3' rasterYSize='1'><VRTRasterBand dataType='Int16'><NoDataValue>-1</NoDataValue>\
        <SimpleSource><SourceFilename>a.bil</SourceFilename></SimpleSource><SimpleSource>\
        <SourceFilename>b.bil</SourceFilename></SimpleSource></VRTRasterBand></VRTDataset>",
    ),
    (
        "n.vrt",
        b"<VRTDataset rasterXSize='3' rasterYSize='1'><VRTRasterBand dataType='Int16'><SimpleSource>\
        <SourceFilename>m.vrt</SourceFilename></SimpleSource></VRTRasterBand></VRTDataset>",
    ),
    (
        "o.vrt",
        b"<VRTDataset rasterXSize='3' rasterYSize='1'><VRTRasterBand dataType='Int16'><SimpleSource>\
        <SourceFilename>n.vrt</SourceFilename></SimpleSource></VRTRasterBand></VRTDataset>",
    ),
    (
        "c.vrt",
        b"<VRTDataset rasterXSize='1' rasterYSize='1'><VRTRasterBand><SimpleSource>\
        <SourceFilename>./d.vrt</SourceFilename></SimpleSource></VRTRasterBand></VRTDataset>",
    ),
    (
        "d.vrt",
        b"<VRTDataset rasterXSize='1' rasterYSize='1'><VRTRasterBand><SimpleSource>\
        <SourceFilename>c.vrt</SourceFilename></SimpleSource></VRTRasterBand></VRTDataset>",
    ),
    (
        "twice.vrt",
        b"<VRTDataset rasterXSize='3' rasterYSize='1'><VRTRasterBand dataType='Int16'><SimpleSource>\
        <SourceFilename>m.vrt</SourceFilename></SimpleSource><SimpleSource><SourceFilename>m.vrt</SourceFilename>\
        </SimpleSource></VRTRasterBand></VRTDataset>",
    ),
    ("s.bil", &[255, 255, 3, 0, 10, 0, 11, 0, 253, 255]),
    (
        "s.hdr",
        b"NROWS 1\nNCOLS 5\nNBITS 16\nPIXELTYPE SIGNEDINT\n",
    ),
    (
        "lut.vrt",
        b"<VRTDataset rasterXSize='5' rasterYSize='1'><VRTRasterBand dataType='Int16'><ComplexSource>\
        <SourceFilename>s.bil</SourceFilename><LUT>0:0,10:100</LUT></ComplexSource></VRTRasterBand></VRTDataset>",
    ),
    (
        "half.vrt",
        b"<VRTDataset rasterXSize='5' rasterYSize='1'><VRTRasterBand dataType='Int16'><ComplexSource>\
        <SourceFilename>s.bil</SourceFilename><ScaleRatio>0.5</ScaleRatio></ComplexSource></VRTRasterBand>\
        </VRTDataset>",
    ),
    ("g.bil", &[1, 2, 3, 4]),
    (
        "g.hdr",
        b"NROWS 2\nNCOLS 2\nULXMAP 10.5\nULYMAP 49.5\nXDIM 1\nYDIM 1\n",
    ),
];

fn files() -> &'static [FileOf<'static>] {
    &FILES
}

static ROWS: [Row<'static>; 16] = [
    (
        "gdallocationinfo two.bil 2 1",
        0,
        "Report:\n  Location: (2P,1L)\n  Band 1:\n    Value: 9\n  Band 2:\n    Value: 12\n",
        "",
    ),
    (
        "gdallocationinfo two.bil 9.5 -0.5",
        0,
        "Report:\n  Location: (9P,-1L)\n  Location is off this file! No further details to report.\n",
        "",
    ),
    ("gdallocationinfo -valonly m.vrt 1 0", 0, "-1\n", ""),
    ("gdallocationinfo -valonly simple.vrt 1 0", 0, "0\n", ""),
    (
        "gdallocationinfo -lifonly m.vrt 0 0",
        0,
        "a.bil\nb.bil\n",
        "",
    ),
    (
        "gdallocationinfo -lifonly twice.vrt -b 1 -b 1 0 0",
        0,
        "m.vrt\n",
        "",
    ),
    ("gdallocationinfo -lifonly m.vrt 3 0", 0, "", ""),
    ("gdallocationinfo -lifonly a.bil 0 0", 0, "", ""),
    (
        "gdallocationinfo -valonly c.vrt 0 0",
        1,
        "",
        "ERROR 1: c.vrt: mosaic contains itself\n",
    ),
    ("gdallocationinfo -valonly twice.vrt 2 0", 0, "9\n", ""),
    (
        "gdallocationinfo -valonly -geoloc g.bil 11.5 49.25",
        0,
        "2\n",
        "",
    ),
    (
        "gdallocationinfo -valonly -geoloc g.bil 10 48.5",
        0,
        "3\n",
        "",
    ),
    (
        "gdallocationinfo -valonly -geoloc g.bil 9.999 48.5",
        0,
        "\n",
        "",
    ),
    (
        "gdallocationinfo -geoloc two.bil 0 0",
        1,
        "",
        "ERROR 1: no geotransform\n",
    ),
    (
        "gdallocationinfo -geoloc -b 3 two.bil 0 0",
        1,
        "",
        "ERROR 5: no band 3\n",
    ),
    ("gdallocationinfo -valonly two.bil", 0, "", ""),
];

#[test]
fn points(rt: HostRuntime) {
    none_wrong(&rt, first_wrong(&rt, rt.alloc(), files(), &ROWS));
}

// No call fails.
const NONE: Calls<'static> = (&[], &[], &[]);

// The words, the input, and the status, what is printed and what is told.
type Answer<'a> = (&'a str, &'a [u8], (u8, &'a str, &'a str));

static INPUTS: [Answer<'static>; 6] = [
    (
        "gdallocationinfo -valonly m.vrt",
        b"0 0\n1 0\n2 0\n",
        (0, "5\n-1\n9\n", ""),
    ),
    (
        "gdallocationinfo -valonly simple.vrt",
        b"0 0\n1 0\n2 0\n",
        (0, "0\n0\n9\n", ""),
    ),
    (
        "gdallocationinfo --blocks 1 -valonly o.vrt",
        b"0 0\n1 0\n2 0\n",
        (0, "5\n-1\n9\n", ""),
    ),
    (
        "gdallocationinfo --blocks 64 -valonly o.vrt",
        b"0 0\n1 0\n2 0",
        (0, "5\n-1\n9\n", ""),
    ),
    (
        "gdallocationinfo -valonly lut.vrt",
        b"0 0\r\n1 0\r\n2 0\r\n3 0\r\n",
        (0, "0\n30\n100\n100\n", ""),
    ),
    (
        "gdallocationinfo -valonly half.vrt",
        b" \n1 0 \n\n\t4\t0",
        (0, "2\n-2\n", ""),
    ),
];

// Whether a run over an input in pieces of at most so many bytes says what is listed.
fn is_fed_by<R: Threads + Sync + Abort>(
    rt: &R,
    alloc: Global,
    answer: &Answer<'_>,
    most: usize,
) -> bool {
    let (line, input, said) = *answer;
    ends_so(rt, alloc, files(), &((line, (input, most)), NONE, said))
}

// The same, with pieces of each of these sizes.
fn is_fed<R: Threads + Sync + Abort>(
    rt: &R,
    alloc: Global,
    answer: &Answer<'_>,
    sizes: &[usize],
) -> bool {
    for most in sizes {
        if !is_fed_by(rt, alloc, answer, *most) {
            return false;
        }
    }
    true
}

// The first of these runs that says something else with pieces of one of these sizes.
fn first_unfed<R: Threads + Sync + Abort>(
    rt: &R,
    alloc: Global,
    rows: &[Answer<'_>],
    sizes: &[usize],
) -> Option<usize> {
    for (at, answer) in rows.iter().enumerate() {
        if !is_fed(rt, alloc, answer, sizes) {
            return Some(at);
        }
    }
    None
}

#[test]
fn inputs(rt: HostRuntime) {
    none_wrong(&rt, first_unfed(&rt, rt.alloc(), &INPUTS, &[1, 5, 65_536]));
}

// A line that is no point is told with its number, behind the answers to those before it.
static BAD: [Answer<'static>; 1] = [(
    "gdallocationinfo -valonly two.bil",
    b"0 0\n9 9\n2 1\nx\n0 0\n",
    (1, "1\n4\n\n9\n12\n", "ERROR 5: input line 4 is no point\n"),
)];

#[test]
fn bad_points(rt: HostRuntime) {
    none_wrong(&rt, first_unfed(&rt, rt.alloc(), &BAD, &[1, 7, 65_536]));
}

const TWO: &str = "gdallocationinfo -valonly two.bil";

const FIVE: &[u8] = b"0 0\n9";

// A report of a point of the input; and inputs that fail: the whole lines among the bytes that they gave are answered,
// and nothing more.
static FED: [Trial<'static>; 5] = [
    (
        ("gdallocationinfo two.bil", (b"9 9\n", 2)),
        NONE,
        (
            0,
            "Report:\n  Location: (9P,9L)\n  Location is off this file! No further details to report.\n",
            "",
        ),
    ),
    (
        (TWO, (FIVE, 5)),
        (&[], &[Failing::Of(Method::Take, 2)], &[]),
        (2, "1\n4\n", READING),
    ),
    (
        (TWO, (FIVE, 2)),
        (&[], &[Failing::Of(Method::Take, 2)], &[]),
        (2, "", READING),
    ),
    (
        (TWO, (FIVE, 4)),
        (&[], &[Failing::Of(Method::Take, 2)], &[]),
        (2, "1\n4\n", READING),
    ),
    (
        (TWO, (FIVE, 5)),
        (&[], &[Failing::Of(Method::Take, 1)], &[]),
        (2, "", READING),
    ),
];

#[test]
fn failing_inputs(rt: HostRuntime) {
    none_wrong(&rt, first_failing(&rt, rt.alloc(), files(), &FED));
}

// Three points in pieces, the second of which lies off the raster.
const THREE: Fed<'static> = (TWO, (b"0 0\n9 9\n2 1\n", 4));

const ANSWERS: &str = "1\n4\n\n9\n12\n";

// The same as reports, and two runs over an empty input.
const THREE_REPORTED: Fed<'static> = ("gdallocationinfo two.bil", (b"0 0\n9 9\n2 1\n", 4));

const REPORTS: &str = "Report:
  Location: (0P,0L)
  Band 1:
    Value: 1
  Band 2:
    Value: 4
Report:
  Location: (9P,9L)
  Location is off this file! No further details to report.
Report:
  Location: (2P,1L)
  Band 1:
    Value: 9
  Band 2:
    Value: 12
";

const EMPTY: Fed<'static> = (TWO, NOTHING);

const EMPTY_REPORTED: Fed<'static> = ("gdallocationinfo two.bil", NOTHING);

// The three points, and a line that is none: it ends the run behind their answers.
const FOUR: Fed<'static> = (TWO, (b"0 0\n9 9\n2 1\nx\n", 4));

const NO_POINT: (u8, &str) = (1, "ERROR 5: input line 4 is no point\n");

// The three points in pieces of a line each, in pieces that end within lines, byte by byte and at once; and without the
// end of the last line.
const FOURS: Given<'static> = (b"0 0\n9 9\n2 1\n", 4);

const FIVES: Given<'static> = (b"0 0\n9 9\n2 1\n", 5);

const ONES: Given<'static> = (b"0 0\n9 9\n2 1\n", 1);

const AT_ONCE: Given<'static> = (b"0 0\n9 9\n2 1\n", 65_536);

const UNENDED: Given<'static> = (b"0 0\n9 9\n2 1", 4);

// An input, the number of its call that fails, and what is printed by then.
type Take<'a> = (Given<'a>, u64, &'a str);

// Each call, that behind the last piece too; of the thirteen that give a byte or the end, those around the ends of
// lines. As long as the input hasn't ended, a last line without an end is no whole line.
static TAKES: [Take<'static>; 18] = [
    (FOURS, 1, ""),
    (FOURS, 2, "1\n4\n"),
    (FOURS, 3, "1\n4\n\n"),
    (FOURS, 4, "1\n4\n\n9\n12\n"),
    (FIVES, 1, ""),
    (FIVES, 2, "1\n4\n"),
    (FIVES, 3, "1\n4\n\n"),
    (FIVES, 4, "1\n4\n\n9\n12\n"),
    (ONES, 4, ""),
    (ONES, 5, "1\n4\n"),
    (ONES, 8, "1\n4\n"),
    (ONES, 9, "1\n4\n\n"),
    (ONES, 12, "1\n4\n\n"),
    (ONES, 13, "1\n4\n\n9\n12\n"),
    (AT_ONCE, 1, ""),
    (AT_ONCE, 2, "1\n4\n\n9\n12\n"),
    (UNENDED, 3, "1\n4\n\n"),
    (UNENDED, 4, "1\n4\n\n"),
];

// Whether a run over such an input ends by its fault, and prints this.
fn is_taken_so<R: Threads + Sync + Abort>(rt: &R, alloc: Global, take: &Take<'_>) -> bool {
    let (given, call, out) = *take;
    let takes: &[Failing] = &[Failing::Call(call)];
    let trial: Trial<'_> = ((TWO, given), (&[], takes, &[]), (2, out, READING));
    ends_so(rt, alloc, files(), &trial)
}

// The first of these inputs over which a run goes otherwise.
fn first_other_take<R: Threads + Sync + Abort>(
    rt: &R,
    alloc: Global,
    takes: &[Take<'_>],
) -> Option<usize> {
    for (at, take) in takes.iter().enumerate() {
        if !is_taken_so(rt, alloc, take) {
            return Some(at);
        }
    }
    None
}

// The whole lines among the bytes that the input gave before it failed are answered, and nothing more.
#[test]
fn each_failing_take(rt: HostRuntime) {
    none_wrong(&rt, first_other_take(&rt, rt.alloc(), &TAKES));
}

// The data and their header are opened and the header is read; then the data are opened again, and for two of the
// points a line of each band is read. Three pieces and the end are taken, and each answer is put. Of an empty input the
// end is taken, and the data aren't opened again. Behind a line that is no point nothing is taken any more.
// Of a mosaic whose files alone are asked for, the document and each raster with its header are opened, the document
// and the headers are read, and no pixel.
static ASKED: [Asking<'static>; 17] = [
    (
        ("gdallocationinfo -lifonly m.vrt 0 0", NOTHING),
        "a.bil\nb.bil\n",
        Failer::Folder,
        8,
        (0, ""),
    ),
    (THREE, ANSWERS, Failer::Folder, 8, (0, "")),
    (THREE, ANSWERS, Failer::Input, 4, (0, "")),
    (THREE, ANSWERS, Failer::Output(0), 3, (0, "")),
    (THREE, ANSWERS, Failer::Output(1), 3, (0, "")),
    (THREE_REPORTED, REPORTS, Failer::Folder, 8, (0, "")),
    (THREE_REPORTED, REPORTS, Failer::Input, 4, (0, "")),
    (THREE_REPORTED, REPORTS, Failer::Output(0), 3, (0, "")),
    (THREE_REPORTED, REPORTS, Failer::Output(9), 3, (0, "")),
    (EMPTY, "", Failer::Folder, 3, (0, "")),
    (EMPTY, "", Failer::Input, 1, (0, "")),
    (EMPTY, "", Failer::Output(0), 0, (0, "")),
    (EMPTY_REPORTED, "", Failer::Input, 1, (0, "")),
    (FOUR, ANSWERS, Failer::Folder, 8, NO_POINT),
    (FOUR, ANSWERS, Failer::Input, 4, NO_POINT),
    (FOUR, ANSWERS, Failer::Output(0), 3, NO_POINT),
    (FOUR, ANSWERS, Failer::Output(1), 3, NO_POINT),
];

// Each call fails in turn, until a run ends in which none did; the files stay, and no draft is left open.
#[test]
fn each_failing_call_of_points(rt: HostRuntime) {
    none_wrong(&rt, first_unasked(&rt, rt.alloc(), files(), &ASKED));
}

// An answer that can't be put ends the run before the next piece is taken.
const PIECES: Fed<'static> = ("gdallocationinfo -valonly two.bil", (b"0 0\n1 0\n2 0\n", 4));

// How much of the input is left where these calls of the output fail.
fn left_of<R: Threads + Sync + Abort>(
    rt: &R,
    alloc: Global,
    fed: Fed<'_>,
    puts: &[Failing],
) -> u64 {
    let ran = run_over(rt, alloc, files(), fed, Failures { puts, ..CALM });
    ran.input.left().len() as u64
}

#[test]
fn pieces_left(rt: HostRuntime) {
    is_number(
        &rt,
        left_of(&rt, rt.alloc(), PIECES, &[Failing::Call(1)]),
        8,
    );
}

// Three points of a mosaic. A run opens the document and each raster with its header, and reads the document and the
// headers; for the first point it opens and reads each raster, and for the others nothing. The input gives three pieces
// and its end, and each answer is put.
const MOSAIC: Fed<'static> = (
    "gdallocationinfo -valonly --blocks 1 m.vrt",
    (b"0 0\n1 0\n2 0\n", 4),
);

const OPENS: u64 = 7;

const READS: u64 = 5;

// The folder's last calls, and those that would come behind them.
static BEHIND: [Trial<'static>; 5] = [
    (
        MOSAIC,
        (&[Failing::Of(Method::Open, OPENS)], &[], &[]),
        (2, "", FOLDER),
    ),
    (
        MOSAIC,
        (&[Failing::Of(Method::ReadAt, READS)], &[], &[]),
        (2, "", FOLDER),
    ),
    (
        MOSAIC,
        (&[Failing::Of(Method::Open, OPENS + 1)], &[], &[]),
        (0, "5\n-1\n9\n", ""),
    ),
    (
        MOSAIC,
        (&[Failing::Of(Method::ReadAt, READS + 1)], &[], &[]),
        (0, "5\n-1\n9\n", ""),
    ),
    (
        MOSAIC,
        (&[Failing::Call(OPENS + READS + 1)], &[], &[]),
        (0, "5\n-1\n9\n", ""),
    ),
];

// Where a call fails, the answers before it stand; behind the last call nothing fails.
static STREAMS: [Trial<'static>; 9] = [
    (MOSAIC, (&[], &[Failing::Call(1)], &[]), (2, "", READING)),
    (MOSAIC, (&[], &[Failing::Call(2)], &[]), (2, "5\n", READING)),
    (
        MOSAIC,
        (&[], &[Failing::Call(3)], &[]),
        (2, "5\n-1\n", READING),
    ),
    (
        MOSAIC,
        (&[], &[Failing::Call(4)], &[]),
        (2, "5\n-1\n9\n", READING),
    ),
    (
        MOSAIC,
        (&[], &[Failing::Call(5)], &[]),
        (0, "5\n-1\n9\n", ""),
    ),
    (MOSAIC, (&[], &[], &[Failing::Call(1)]), (2, "", WRITING)),
    (MOSAIC, (&[], &[], &[Failing::Call(2)]), (2, "5\n", WRITING)),
    (
        MOSAIC,
        (&[], &[], &[Failing::Call(3)]),
        (2, "5\n-1\n", WRITING),
    ),
    (
        MOSAIC,
        (&[], &[], &[Failing::Call(4)]),
        (0, "5\n-1\n9\n", ""),
    ),
];

// Each call of the folder fails in turn.
#[test]
fn failing_calls_of_points(rt: HostRuntime) {
    let call = first_harmless(&rt, rt.alloc(), files(), MOSAIC, "5\n-1\n9\n");
    is_number(&rt, call, OPENS + READS + 1);
}

#[test]
fn last_calls_of_points(rt: HostRuntime) {
    none_wrong(&rt, first_failing(&rt, rt.alloc(), files(), &BEHIND));
}

#[test]
fn failing_streams_of_points(rt: HostRuntime) {
    none_wrong(&rt, first_failing(&rt, rt.alloc(), files(), &STREAMS));
}

// Seventeen mosaics of one pixel, each of which names the next one, and the last one a file.
static NESTED: [FileOf<'static>; 19] = [
    ("a.bil", &[7]),
    ("a.hdr", b"NROWS 1\nNCOLS 1\n"),
    (
        "m1.vrt",
        b"<VRTDataset rasterXSize='1' rasterYSize='1'><VRTRasterBand>
<SimpleSource><SourceFilename>m2.vrt</SourceFilename></SimpleSource></VRTRasterBand></VRTDataset>",
    ),
    (
        "m2.vrt",
        b"<VRTDataset rasterXSize='1' rasterYSize='1'><VRTRasterBand>
<SimpleSource><SourceFilename>m3.vrt</SourceFilename></SimpleSource></VRTRasterBand></VRTDataset>",
    ),
    (
        "m3.vrt",
        b"<VRTDataset rasterXSize='1' rasterYSize='1'><VRTRasterBand>
<SimpleSource><SourceFilename>m4.vrt</SourceFilename></SimpleSource></VRTRasterBand></VRTDataset>",
    ),
    (
        "m4.vrt",
        b"<VRTDataset rasterXSize='1' rasterYSize='1'><VRTRasterBand>
<SimpleSource><SourceFilename>m5.vrt</SourceFilename></SimpleSource></VRTRasterBand></VRTDataset>",
    ),
    (
        "m5.vrt",
        b"<VRTDataset rasterXSize='1' rasterYSize='1'><VRTRasterBand>
<SimpleSource><SourceFilename>m6.vrt</SourceFilename></SimpleSource></VRTRasterBand></VRTDataset>",
    ),
    (
        "m6.vrt",
        b"<VRTDataset rasterXSize='1' rasterYSize='1'><VRTRasterBand>
<SimpleSource><SourceFilename>m7.vrt</SourceFilename></SimpleSource></VRTRasterBand></VRTDataset>",
    ),
    (
        "m7.vrt",
        b"<VRTDataset rasterXSize='1' rasterYSize='1'><VRTRasterBand>
<SimpleSource><SourceFilename>m8.vrt</SourceFilename></SimpleSource></VRTRasterBand></VRTDataset>",
    ),
    (
        "m8.vrt",
        b"<VRTDataset rasterXSize='1' rasterYSize='1'><VRTRasterBand>
<SimpleSource><SourceFilename>m9.vrt</SourceFilename></SimpleSource></VRTRasterBand></VRTDataset>",
    ),
    (
        "m9.vrt",
        b"<VRTDataset rasterXSize='1' rasterYSize='1'><VRTRasterBand>
<SimpleSource><SourceFilename>m10.vrt</SourceFilename></SimpleSource></VRTRasterBand></VRTDataset>",
    ),
    (
        "m10.vrt",
        b"<VRTDataset rasterXSize='1' rasterYSize='1'><VRTRasterBand>
<SimpleSource><SourceFilename>m11.vrt</SourceFilename></SimpleSource></VRTRasterBand></VRTDataset>",
    ),
    (
        "m11.vrt",
        b"<VRTDataset rasterXSize='1' rasterYSize='1'><VRTRasterBand>
<SimpleSource><SourceFilename>m12.vrt</SourceFilename></SimpleSource></VRTRasterBand></VRTDataset>",
    ),
    (
        "m12.vrt",
        b"<VRTDataset rasterXSize='1' rasterYSize='1'><VRTRasterBand>
<SimpleSource><SourceFilename>m13.vrt</SourceFilename></SimpleSource></VRTRasterBand></VRTDataset>",
    ),
    (
        "m13.vrt",
        b"<VRTDataset rasterXSize='1' rasterYSize='1'><VRTRasterBand>
<SimpleSource><SourceFilename>m14.vrt</SourceFilename></SimpleSource></VRTRasterBand></VRTDataset>",
    ),
    (
        "m14.vrt",
        b"<VRTDataset rasterXSize='1' rasterYSize='1'><VRTRasterBand>
<SimpleSource><SourceFilename>m15.vrt</SourceFilename></SimpleSource></VRTRasterBand></VRTDataset>",
    ),
    (
        "m15.vrt",
        b"<VRTDataset rasterXSize='1' rasterYSize='1'><VRTRasterBand>
<SimpleSource><SourceFilename>m16.vrt</SourceFilename></SimpleSource></VRTRasterBand></VRTDataset>",
    ),
    (
        "m16.vrt",
        b"<VRTDataset rasterXSize='1' rasterYSize='1'><VRTRasterBand>
<SimpleSource><SourceFilename>m17.vrt</SourceFilename></SimpleSource></VRTRasterBand></VRTDataset>",
    ),
    (
        "m17.vrt",
        b"<VRTDataset rasterXSize='1' rasterYSize='1'><VRTRasterBand>
<SimpleSource><SourceFilename>a.bil</SourceFilename></SimpleSource></VRTRasterBand></VRTDataset>",
    ),
];

static DEPTHS: [Row<'static>; 2] = [
    (
        "gdallocationinfo -valonly m1.vrt 0 0",
        1,
        "",
        "ERROR 1: m17.vrt: nested too deep\n",
    ),
    ("gdallocationinfo -valonly m2.vrt 0 0", 0, "7\n", ""),
];

#[test]
fn nested_mosaics(rt: HostRuntime) {
    none_wrong(&rt, first_wrong(&rt, rt.alloc(), &NESTED, &DEPTHS));
}
