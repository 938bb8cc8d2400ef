// Builds of mosaics of which a call of the outside fails; long lists of inputs; and two tiles side by side.
use crate::builds::DONE;
use crate::ends::{
    Asking, End, Failed, Failer, Output, Telling, Turn, Untold, Work, each_cuts, ends, first_other,
    first_told, first_unasked, first_unmet,
};
use crate::stories::first_unrefused;
use crate::trials::{
    Fed, FileOf, NOTHING, Part, Row, folder_of, joined, none_wrong, put, said_in, says_in,
};
use outside::{Failing, MemFolder, Method};
use outside_fakes::TWO_TILES;
use std::alloc::Global;
use std::process::Abort;
use std::test::*;
use std::thread::Threads;

const TOLD: &str =
    "Warning 1: p.bil: skipped (geotransform)\nWarning 1: two.bil: skipped (bands)\n";

const MADE: &[u8] = b"<VRTDataset rasterXSize=\"2\" rasterYSize=\"1\">
  <GeoTransform>0, 1, 0, 1, 0, -1</GeoTransform>
  <VRTRasterBand dataType=\"Byte\" band=\"1\">
    <SimpleSource>
      <SourceFilename relativeToVRT=\"1\">a.bil</SourceFilename>
      <SourceBand>1</SourceBand>
      <SrcRect xOff=\"0\" yOff=\"0\" xSize=\"2\" ySize=\"1\"/>
      <DstRect xOff=\"0\" yOff=\"0\" xSize=\"2\" ySize=\"1\"/>
    </SimpleSource>
  </VRTRasterBand>
</VRTDataset>
";

// Three rasters, two of which are skipped beside the first; a list of all; and a list under the name of the output.
static FILES: [FileOf<'static>; 9] = [
    ("a.bil", &[1, 2]),
    ("a.hdr", b"NROWS 1\nNCOLS 2\nULXMAP 0.5\nULYMAP 0.5\n"),
    ("p.bil", &[1, 2]),
    ("p.hdr", b"NROWS 1\nNCOLS 2\n"),
    ("two.bil", &[1, 2, 3, 4]),
    (
        "two.hdr",
        b"NROWS 1\nNCOLS 2\nNBANDS 2\nULXMAP 0.5\nULYMAP 0.5\n",
    ),
    ("list.txt", b"a.bil\np.bil\ntwo.bil\n"),
    ("out.vrt", b"old"),
    ("list.vrt", b"a.bil\n"),
];

fn files() -> &'static [FileOf<'static>] {
    &FILES
}

const LISTED_LINE: &str = "gdalbuildvrt out.vrt -input_file_list list.txt";

const QUIET_LINE: &str = "gdalbuildvrt -q out.vrt p.bil a.bil two.bil";

static OUTPUTS: [Output<'static>; 1] = [("out.vrt", b"old", MADE)];

// A build by a list, one that prints nothing, and one whose output has the list's name, since a list is no dataset.
static WORKS: [Work<'static>; 3] = [
    Work {
        line: LISTED_LINE,
        text: DONE,
        told: TOLD,
        outputs: &[("out.vrt", b"old", MADE)],
    },
    Work {
        line: QUIET_LINE,
        text: "",
        told: TOLD,
        outputs: &[("out.vrt", b"old", MADE)],
    },
    Work {
        line: "gdalbuildvrt -strict list.vrt -input_file_list list.vrt",
        text: DONE,
        told: "",
        outputs: &[("list.vrt", b"a.bil\n", MADE)],
    },
];

const LISTED: usize = 0;

const QUIET: usize = 1;

const OVER_THE_LIST: usize = 2;

fn works() -> &'static [Work<'static>] {
    &WORKS
}

// The list, a raster and a header can't be opened, or read; a draft can't be made, written or published.
static CALLS: [Failed<'static>; 13] = [
    (LISTED, &[], End::Whole),
    (QUIET, &[], End::Whole),
    (OVER_THE_LIST, &[], End::Whole),
    (LISTED, &[Failing::Of(Method::Open, 1)], End::Early(0)),
    (LISTED, &[Failing::Of(Method::Open, 7)], End::Early(0)),
    (LISTED, &[Failing::Of(Method::ReadAt, 1)], End::Early(0)),
    (LISTED, &[Failing::Of(Method::ReadAt, 4)], End::Early(0)),
    (QUIET, &[Failing::Of(Method::Open, 6)], End::Early(0)),
    (LISTED, &[Failing::Of(Method::Create, 1)], End::Warned(0)),
    (LISTED, &[Failing::Of(Method::Append, 1)], End::Warned(0)),
    (LISTED, &[Failing::Of(Method::Publish, 1)], End::Warned(0)),
    (QUIET, &[Failing::Of(Method::Publish, 1)], End::Warned(0)),
    (QUIET, &[Failing::Of(Method::Publish, 2)], End::Whole),
];

#[test]
fn failing_calls_of_a_build(rt: HostRuntime) {
    none_wrong(&rt, first_other(&rt, rt.alloc(), files(), works(), &CALLS));
}

// Builds, and how many calls of the folder each makes: the list is opened and read, each raster and its header are
// opened and the header is read, and the document is made, written and published.
static EACH: [Turn; 3] = [
    (LISTED, Failer::Folder, (14, 15)),
    (QUIET, Failer::Folder, (12, 13)),
    (OVER_THE_LIST, Failer::Folder, (8, 9)),
];

// Each call of the folder fails in turn.
#[test]
fn each_failing_call_of_a_build(rt: HostRuntime) {
    none_wrong(&rt, first_unmet(&rt, rt.alloc(), files(), works(), &EACH));
}

// Builds, how many bytes a failing call of the output takes first, and how many calls each makes: one or more where
// something is printed, else none.
static PUTS: [Turn; 3] = [
    (LISTED, Failer::Output(0), (1, 64)),
    (LISTED, Failer::Output(7), (1, 64)),
    (QUIET, Failer::Output(3), (0, 1)),
];

// Each call of the output fails in turn. A quiet build makes none.
#[test]
fn each_failing_put_of_a_build(rt: HostRuntime) {
    none_wrong(&rt, first_unmet(&rt, rt.alloc(), files(), works(), &PUTS));
}

// Builds with two warnings: one that is done, and two whose folder fails. One is refused, before it warns.
static UNTOLD: [Untold<'static>; 4] = [
    (LISTED_LINE, &[], 0, "", TOLD, 1),
    (
        LISTED_LINE,
        &[Failing::Of(Method::Publish, 1)],
        2,
        "FolderFault",
        "Warning 1: p.bil: skipped (geotransform)\nWarning 1: two.bil: skipped (bands)\nERROR 3: a file call failed\n",
        0,
    ),
    (
        QUIET_LINE,
        &[Failing::Of(Method::Create, 1)],
        2,
        "FolderFault",
        "Warning 1: p.bil: skipped (geotransform)\nWarning 1: two.bil: skipped (bands)\nERROR 3: a file call failed\n",
        0,
    ),
    (
        "gdalbuildvrt -strict out.vrt a.bil two.bil",
        &[],
        1,
        "Build",
        "ERROR 1: two.bil: skipped (bands)\n",
        0,
    ),
];

// Calls of the error stream that fail.
static TELLS: [Telling<'static>; 6] = [
    (&[Failing::Call(1)], 1, 0),
    (&[Failing::Call(1)], 1, 5),
    (&[Failing::Call(2)], 2, 0),
    (&[Failing::Call(2)], 2, 5),
    (&[Failing::Call(3)], 3, 0),
    (&[Failing::Call(3)], 3, 11),
];

// The error stream fails, at first or in the midst of the warnings, and nothing else changes.
#[test]
fn a_failing_error_stream_of_a_build(rt: HostRuntime) {
    let wrong = first_told(&rt, rt.alloc(), files(), &OUTPUTS, &UNTOLD, &TELLS);
    none_wrong(&rt, wrong);
}

// The files, and a list of inputs.
fn with_list<R: Abort>(rt: &R, alloc: Global, list: &[Part<'_>]) -> MemFolder {
    let list = joined(rt, alloc, list);
    let mut folder = folder_of(rt, alloc, files(), &[]);
    put(rt, alloc, &mut folder, ("list.txt", &list));
    folder
}

// A list of a thousand inputs that are skipped, and of one that isn't.
static SKIPPED: [Part<'static>; 2] = [(b"p.bil\ntwo.bil\n", 500), (b"a.bil\n", 1)];

// What is told of them.
static WARNINGS: [Part<'static>; 1] = [(
    b"Warning 1: p.bil: skipped (geotransform)\nWarning 1: two.bil: skipped (bands)\n",
    500,
)];

const BEHIND_ONE: &str = "gdalbuildvrt out.vrt a.bil -input_file_list list.txt";

// Whether a thousand inputs that are skipped give a thousand lines, and nothing else is told.
fn warns_of_each<R: Threads + Sync + Abort>(rt: &R, alloc: Global) -> bool {
    let mut folder = with_list(rt, alloc, &SKIPPED);
    let said = said_in(rt, alloc, &mut folder, BEHIND_ONE);
    let warnings = joined(rt, alloc, &WARNINGS);
    said.status == 0 && said.err.got() == warnings.as_slice()
}

#[test]
fn a_thousand_skipped_inputs(rt: HostRuntime) {
    assert!(rt; warns_of_each(&rt, rt.alloc()));
}

// A list: a text, and so many copies of another; words; and what is told of it.
struct Long {
    front: &'static [u8],
    text: &'static [u8],
    count: usize,
    line: &'static str,
    status: u8,
    told: &'static str,
}

const OF_LIST: &str = "gdalbuildvrt -q out.vrt -input_file_list list.txt";

// A name of the greatest length, one that is longer, and one behind an input that isn't there; so many inputs as there
// may be, and one more.
static LONG: [Long; 6] = [
    Long {
        front: b"a.bil\n",
        text: b"./",
        count: 2048,
        line: OF_LIST,
        status: 1,
        told: "ERROR 4: .: not recognized as a supported format\n",
    },
    Long {
        front: b"a.bil",
        text: b"x",
        count: 4092,
        line: OF_LIST,
        status: 1,
        told: "ERROR 6: limit of name passed (4097)\n",
    },
    Long {
        front: b"none.bil\n",
        text: b"./",
        count: 3000,
        line: OF_LIST,
        status: 1,
        told: "ERROR 6: limit of name passed (6000)\n",
    },
    Long {
        front: b"",
        text: b"none.bil\n",
        count: 65_536,
        line: OF_LIST,
        status: 1,
        told: "ERROR 4: none.bil: no such file\n",
    },
    Long {
        front: b"",
        text: b"none.bil\n",
        count: 65_537,
        line: OF_LIST,
        status: 1,
        told: "ERROR 6: limit of files passed (65537)\n",
    },
    Long {
        front: b"",
        text: b"none.bil\n\r\n",
        count: 65_536,
        line: "gdalbuildvrt -q out.vrt a.bil -input_file_list list.txt",
        status: 1,
        told: "ERROR 6: limit of files passed (65537)\n",
    },
];

// Whether a build by a long list ends so.
fn is_long_so<R: Threads + Sync + Abort>(rt: &R, alloc: Global, long: &Long) -> bool {
    let list: [Part<'_>; 2] = [(long.front, 1), (long.text, long.count)];
    let mut folder = with_list(rt, alloc, &list);
    let row = (long.line, long.status, "", long.told);
    says_in(rt, alloc, &mut folder, &row)
}

// The first of these lists whose build ends otherwise.
fn first_wrong_list<R: Threads + Sync + Abort>(
    rt: &R,
    alloc: Global,
    lists: &[Long],
) -> Option<usize> {
    for (at, long) in lists.iter().enumerate() {
        if !is_long_so(rt, alloc, long) {
            return Some(at);
        }
    }
    None
}

#[test]
fn long_lists(rt: HostRuntime) {
    none_wrong(&rt, first_wrong_list(&rt, rt.alloc(), &LONG));
}

// Two tiles side by side and a raster of two bands.
const TILES: Work<'static> = Work {
    line: "gdalbuildvrt out.vrt N00E000.hgt N00E001.hgt two.bil",
    text: DONE,
    told: "Warning 1: two.bil: skipped (bands)\n",
    outputs: &[("out.vrt", b"old", TWO_TILES)],
};

// What is told where no input may be skipped; then nothing is published.
static STRICT: [Row<'static>; 1] = [(
    "gdalbuildvrt -strict out.vrt N00E000.hgt N00E001.hgt two.bil",
    1,
    "",
    "ERROR 1: two.bil: skipped (bands)\n",
)];

// The same, whose calls fail in turn: each tile is opened for its length, the raster and its header are opened, and the
// header is read; nothing is made, and nothing put.
const STRICTLY: Fed<'static> = (
    "gdalbuildvrt -strict out.vrt N00E000.hgt N00E001.hgt two.bil",
    NOTHING,
);

const SKIPPED_TWO: (u8, &str) = (1, "ERROR 1: two.bil: skipped (bands)\n");

static STRICT_CALLS: [Asking<'static>; 3] = [
    (STRICTLY, "", Failer::Folder, 5, SKIPPED_TWO),
    (STRICTLY, "", Failer::Input, 0, SKIPPED_TWO),
    (STRICTLY, "", Failer::Output(0), 0, SKIPPED_TWO),
];

// Whether each call of the folder ends a build where it fails, each of the output does, the first one behind the
// warning and the document, none of the input is made, and nothing is changed where no input may be skipped, whichever
// call fails. The folder gets the five calls from above, and three by which the document is made, written and
// published.
fn tiles_end<R: Threads + Sync + Abort>(
    rt: &R,
    alloc: Global,
    files: &[FileOf<'_>],
    work: Work<'_>,
) -> bool {
    let puts: &[Failing] = &[Failing::Call(1)];
    let output = Failer::Output(0);
    each_cuts(rt, alloc, files, work, Failer::Folder, (8, 9))
        && ends(rt, alloc, files, work, output, puts, End::Warned(1))
        && each_cuts(rt, alloc, files, work, output, (0, 64))
        && each_cuts(rt, alloc, files, work, Failer::Input, (0, 1))
        && first_unrefused(rt, alloc, files, &STRICT).is_none()
        && first_unasked(rt, alloc, files, &STRICT_CALLS).is_none()
}

static ZEROS: [Part<'static>; 1] = [(&[0], 2_884_802)];

fn two_tiles<R: Threads + Sync + Abort>(rt: &R, alloc: Global) -> bool {
    let tile = joined(rt, alloc, &ZEROS);
    let files: [FileOf<'_>; 5] = [
        ("N00E000.hgt", &tile),
        ("N00E001.hgt", &tile),
        ("two.bil", &[1, 2]),
        (
            "two.hdr",
            b"NROWS 1\nNCOLS 1\nNBANDS 2\nULXMAP 0\nULYMAP 0\n",
        ),
        ("out.vrt", b"old"),
    ];
    tiles_end(rt, alloc, &files, TILES)
}

// Each call of the folder fails in turn, and that of the output.
#[test]
fn two_tiles_side_by_side(rt: HostRuntime) {
    assert!(rt; two_tiles(&rt, rt.alloc()));
}
