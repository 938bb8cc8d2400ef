// Points and translations that are read through lines, how many reads they take, and points of which a call fails.
use crate::ends::{Asking, Failer, each_asks_within};
use crate::trials::{Fed, FileOf, Given, Part, folder_of, joined, none_wrong, said_of};
use outside::{CountingFolder, MemFolder};
use std::alloc::Global;
use std::process::Abort;
use std::test::*;
use std::thread::Threads;

// A column of 65 lines, each of which has its own number.
static COLUMN: [u8; 65] = [
    0, 1, 2, 3, 4, 5, 6, 7, 8, 9, 10, 11, 12, 13, 14, 15, 16, 17, 18, 19, 20, 21, 22, 23, 24, 25,
    26, 27, 28, 29, 30, 31, 32, 33, 34, 35, 36, 37, 38, 39, 40, 41, 42, 43, 44, 45, 46, 47, 48, 49,
    50, 51, 52, 53, 54, 55, 56, 57, 58, 59, 60, 61, 62, 63, 64,
];

// The numbers of the lines.
const NUMBERS: &[u8] =
    b"0\n1\n2\n3\n4\n5\n6\n7\n8\n9\n10\n11\n12\n13\n14\n15\n16\n17\n18\n19\n20\n21\n22\n23\n24\n\
    25\n26\n27\n28\n29\n30\n31\n32\n33\n34\n35\n36\n37\n38\n39\n40\n41\n42\n43\n44\n45\n46\n47\n\
    48\n49\n50\n51\n52\n53\n54\n55\n56\n57\n58\n59\n60\n61\n62\n63\n64\n";

fn numbers() -> &'static [u8] {
    NUMBERS
}

// A point in each line.
const POINTS: &[u8] =
    b"0 0\n0 1\n0 2\n0 3\n0 4\n0 5\n0 6\n0 7\n0 8\n0 9\n0 10\n0 11\n0 12\n0 13\n0 14\n0 15\n0 16\n\
    0 17\n0 18\n0 19\n0 20\n0 21\n0 22\n0 23\n0 24\n0 25\n0 26\n0 27\n0 28\n0 29\n0 30\n0 31\n\
    0 32\n0 33\n0 34\n0 35\n0 36\n0 37\n0 38\n0 39\n0 40\n0 41\n0 42\n0 43\n0 44\n0 45\n0 46\n\
    0 47\n0 48\n0 49\n0 50\n0 51\n0 52\n0 53\n0 54\n0 55\n0 56\n0 57\n0 58\n0 59\n0 60\n0 61\n\
    0 62\n0 63\n0 64\n";

// The column as a grid.
fn grid<R: Abort>(rt: &R, alloc: Global) -> Vec<u8> {
    let parts: [Part<'_>; 2] = [
        (
            b"ncols 1\nnrows 65\nxllcorner 0\nyllcorner 0\ncellsize 1\n",
            1,
        ),
        (numbers(), 1),
    ];
    joined(rt, alloc, &parts)
}

// A source that shows the column over the upper or the lower half of a mosaic of 2,048 columns and 256 lines. Each is
// named twice, so that the mosaic has too many sources for its pixels to be made in lines of the whole width: they are
// made square by square.
const UPPER: &[u8] = b"<SimpleSource><SourceFilename>column.bil</SourceFilename>
<SrcRect xOff='0' yOff='0' xSize='1' ySize='65'/>
<DstRect xOff='0' yOff='0' xSize='2048' ySize='128'/></SimpleSource>";

const LOWER: &[u8] = b"<SimpleSource><SourceFilename>column.bil</SourceFilename>
<SrcRect xOff='0' yOff='0' xSize='1' ySize='65'/>
<DstRect xOff='0' yOff='128' xSize='2048' ySize='128'/></SimpleSource>";

// The mosaic, of which two workers have a half each, and each of a half's 16 squares shows all lines of the column.
fn mosaic<R: Abort>(rt: &R, alloc: Global) -> Vec<u8> {
    let parts: [Part<'_>; 4] = [
        (
            b"<VRTDataset rasterXSize='2048' rasterYSize='256'><VRTRasterBand dataType='Byte'>",
            1,
        ),
        (UPPER, 2),
        (LOWER, 2),
        (b"</VRTRasterBand></VRTDataset>", 1),
    ];
    joined(rt, alloc, &parts)
}

// A folder with the column as raw data and as a grid, and the mosaic of it, which counts calls.
fn counting_folder<R: Abort>(rt: &R, alloc: Global) -> CountingFolder<MemFolder> {
    let grid = grid(rt, alloc);
    let mosaic = mosaic(rt, alloc);
    let files: [FileOf<'_>; 4] = [
        ("column.bil", &COLUMN),
        ("column.hdr", b"NROWS 65\nNCOLS 1\n"),
        ("column.asc", &grid),
        ("column.vrt", &mosaic),
    ];
    CountingFolder::new(folder_of(rt, alloc, &files, &[]))
}

// The words of a run, and its least and its most reads.
type Reads<'a> = (&'a str, u64, u64);

// A pool of 64 blocks lacks each of the 65 lines of a grid when it is asked for again. With 64 lines that are shared,
// only the first and the last block have one in common: so 65 are loaded at first, and then two for each time.
static READS: [Reads<'static>; 3] = [
    (
        "gdallocationinfo --blocks 64 -valonly column.asc",
        650,
        2000,
    ),
    (
        "gdallocationinfo --workers 2 --blocks 64 -valonly column.asc",
        65,
        200,
    ),
    (
        "gdallocationinfo --workers 2 --blocks 64 -valonly column.bil",
        65,
        200,
    ),
];

// Ten times these lines.
fn ten_times<R: Abort>(rt: &R, alloc: Global, lines: &[u8]) -> Vec<u8> {
    let parts: [Part<'_>; 1] = [(lines, 10)];
    joined(rt, alloc, &parts)
}

// Whether a run over these points prints these values, and takes as many reads as are listed.
fn reads_so<R: Threads + Sync + Abort>(
    rt: &R,
    alloc: Global,
    points: &[u8],
    values: &[u8],
    row: &Reads<'_>,
) -> bool {
    let (line, least, most) = *row;
    let mut folder = counting_folder(rt, alloc);
    let said = said_of(rt, alloc, &mut folder, (line, (points, 65_536)));
    let reads = folder.reads();
    said.prints(values) && least <= reads && reads <= most
}

// The first of these runs over points that takes fewer or more reads or prints something else.
fn first_unread<R: Threads + Sync + Abort>(
    rt: &R,
    alloc: Global,
    points: &[u8],
    values: &[u8],
    rows: &[Reads<'_>],
) -> Option<usize> {
    for (at, row) in rows.iter().enumerate() {
        if !reads_so(rt, alloc, points, values, row) {
            return Some(at);
        }
    }
    None
}

// The same, where each point is asked for ten times, behind all others.
fn first_unread_again<R: Threads + Sync + Abort>(
    rt: &R,
    alloc: Global,
    rows: &[Reads<'_>],
) -> Option<usize> {
    let points = ten_times(rt, alloc, POINTS);
    let values = ten_times(rt, alloc, numbers());
    first_unread(rt, alloc, &points, &values, rows)
}

#[test]
fn points_are_looked_for_in_lines(rt: HostRuntime) {
    none_wrong(&rt, first_unread_again(&rt, rt.alloc(), &READS));
}

// One worker copies 32 lines at a time, which show 16 or 17 lines of the column, and the pool holds these: 130 loads.
// Two copy 256, and a pool of 64 blocks lacks each of the 65 lines in each of the 32 squares: 2,080 loads for a band,
// if neither of them looks into lines. Where both look, and are at one line of the column at the same time, one of
// them may miss it, but not both, since only what the other one does there keeps a look from its line: so at most
// 1,040 looks for a band fail, in whatever order the two come. Besides, each may load each line once at first, and for
// a band the first and the last one, which share a line, 32 times. Of three bands two are read while those before them
// are written; of an output of another size, lines are made of those that are read. (Less than a million samples come
// to each of the two, so neither packs lines of its own.)
static TRANSLATIONS: [Reads<'static>; 4] = [
    ("gdal_translate -q --blocks 64 column.vrt out.bil", 130, 150),
    (
        "gdal_translate -q --workers 2 --blocks 64 column.vrt out.bil",
        65,
        1300,
    ),
    (
        "gdal_translate -q --workers 2 --blocks 64 -b 1 -b 1 -b 1 column.vrt out.bil",
        65,
        3500,
    ),
    (
        "gdal_translate -q --workers 2 --blocks 64 -outsize 1024 256 column.vrt out.bil",
        65,
        1300,
    ),
];

#[test]
fn translations_look_into_lines(rt: HostRuntime) {
    let wrong = first_unread(&rt, rt.alloc(), b"", b"", &TRANSLATIONS);
    none_wrong(&rt, wrong);
}

// Three lines as raw data, in a mosaic and as a grid.
static LOW: [FileOf<'static>; 4] = [
    ("low.bil", &[7, 8, 9]),
    ("low.hdr", b"NROWS 3\nNCOLS 1\n"),
    (
        "low.vrt",
        b"<VRTDataset rasterXSize='1' rasterYSize='3'><VRTRasterBand dataType='Byte'><SimpleSource>
<SourceFilename>low.bil</SourceFilename></SimpleSource></VRTRasterBand></VRTDataset>",
    ),
    (
        "low.asc",
        b"ncols 1\nnrows 3\nxllcorner 0\nyllcorner 0\ncellsize 1\n7\n8\n9\n",
    ),
];

// Each point once; and each of them twice.
const ONCE: Given<'static> = (b"0 0\n0 1\n0 2\n", 4);

const TWICE: Given<'static> = (b"0 0\n0 1\n0 2\n0 0\n0 1\n0 2\n", 4);

// A run over points, what it prints, and the numbers between which the first call of the folder is that isn't made.
type Cut<'a> = (Fed<'a>, &'a str, (u64, u64));

// Each point once, where all blocks are held: one line is read for each. The data and their header are opened, the
// header is read, and the data are opened again; a document is opened and read before. And each point twice, where two
// blocks are held and two lines shared: of three blocks the first and the last have one line in common, and the second
// is found in the other. Each line of the data is read once or oftener. A grid is opened and read, and opened again.
static CUTS: [Cut<'static>; 5] = [
    (
        ("gdallocationinfo --workers 2 -valonly low.bil", ONCE),
        "7\n8\n9\n",
        (7, 8),
    ),
    (
        ("gdallocationinfo --workers 2 -valonly low.vrt", ONCE),
        "7\n8\n9\n",
        (9, 10),
    ),
    (
        (
            "gdallocationinfo --workers 2 --blocks 2 -valonly low.bil",
            TWICE,
        ),
        "7\n8\n9\n7\n8\n9\n",
        (7, 32),
    ),
    (
        (
            "gdallocationinfo --workers 2 --blocks 2 -valonly low.vrt",
            TWICE,
        ),
        "7\n8\n9\n7\n8\n9\n",
        (9, 32),
    ),
    (
        (
            "gdallocationinfo --workers 2 --blocks 2 -valonly low.asc",
            TWICE,
        ),
        "7\n8\n9\n7\n8\n9\n",
        (6, 32),
    ),
];

// Whether each call of the folder ends such a run by its failing, and so many are made.
fn is_cut<R: Threads + Sync + Abort>(
    rt: &R,
    alloc: Global,
    files: &[FileOf<'_>],
    cut: &Cut<'_>,
) -> bool {
    let (fed, text, numbers) = *cut;
    let asking: Asking<'_> = (fed, text, Failer::Folder, 0, (0, ""));
    each_asks_within(rt, alloc, files, &asking, numbers)
}

// The first of these runs of which a call's failing isn't met.
fn first_uncut<R: Threads + Sync + Abort>(
    rt: &R,
    alloc: Global,
    files: &[FileOf<'_>],
    rows: &[Cut<'_>],
) -> Option<usize> {
    for (at, cut) in rows.iter().enumerate() {
        if !is_cut(rt, alloc, files, cut) {
            return Some(at);
        }
    }
    None
}

// Each call of the folder fails in turn, and what is printed by then is the first part of the answers; the files stay,
// and no draft is left open.
#[test]
fn each_failing_call_of_points_over_lines(rt: HostRuntime) {
    none_wrong(&rt, first_uncut(&rt, rt.alloc(), &LOW, &CUTS));
}
