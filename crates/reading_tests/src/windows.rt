// Windows and points of small datasets: at every capacity, where a call fails, and how many reads they take.
use crate::fixtures::{
    Case, File, all_hold, calm_folder, folder_of, is_number, none_wrong, put_all,
};
use crate::reads::{
    FAILED, Job, Picture, Place, add_window, place_in, put_picture, reads_in, samples_of,
    shows_always,
};
use geotransform::Sample;
use outside::{CalmFolder, CountingFolder, Folder, MemFolder, Never};
use std::alloc::Global;
use std::process::Abort;
use std::test::*;

// What came of two reads of a dataset through one lane.
#[derive(Clone, Copy, PartialEq, Eq)]
enum Reading {
    // Both gave these samples.
    Right,
    // A call of the folder failed at the first, and the second gave these samples.
    Failed,
    // The walk, which comes before, was refused.
    NoWalk,
    Wrong,
}

// Whether a failed call stands for each of these samples.
fn are_failed(samples: &[Sample]) -> bool {
    for sample in samples {
        if *sample != FAILED {
            return false;
        }
    }
    true
}

// What came of a read, and of the next one behind it.
fn judged(read: &[Sample], wanted: &[Sample]) -> Reading {
    if read.is_empty() {
        return Reading::NoWalk;
    }
    let (first, second) = read.split_at(wanted.len().min(read.len()));
    if second != wanted {
        return Reading::Wrong;
    }
    if first == wanted {
        return Reading::Right;
    }
    if are_failed(first) {
        return Reading::Failed;
    }
    Reading::Wrong
}

// A name, and the samples of its dataset, which has one line.
#[derive(Clone, Copy)]
struct Line<'a>(&'a str, &'a [Sample]);

// Reads the line of a dataset twice through a lane of this capacity.
fn read_twice<R: Abort, F: Folder>(
    rt: &R,
    alloc: Global,
    folder: &mut F,
    line: &Line<'_>,
    capacity: u32,
) -> Reading {
    let Line(name, wanted) = *line;
    let columns = wanted.len().min(0xffff_ffff) as u32;
    let windows: [Place; 2] = [(0, (0, 0, columns, 1)), (0, (0, 0, columns, 1))];
    let job = Job {
        name,
        size: (columns, 1),
        capacity,
        windows: &windows,
    };
    let read = samples_of(rt, alloc, folder, job);
    judged(read.as_slice(), wanted)
}

const HEADER: &[u8] = b"NROWS 1\nNCOLS 3\nNBITS 16\nPIXELTYPE SIGNEDINT\nBYTEORDER I\n";

const MOSAIC: &[u8] =
    b"<VRTDataset rasterXSize=\"3\" rasterYSize=\"1\"><VRTRasterBand dataType=\"Int16\" band=\"1\">\
    <NoDataValue>-1</NoDataValue><ComplexSource><SourceFilename relativeToVRT=\"1\">a.bil</SourceFilename>\
    <SourceBand>1</SourceBand><NODATA>0</NODATA></ComplexSource><ComplexSource>\
    <SourceFilename relativeToVRT=\"1\">b.bil</SourceFilename><SourceBand>1</SourceBand><NODATA>0</NODATA>\
    </ComplexSource></VRTRasterBand></VRTDataset>";

const SIMPLE: &[u8] =
    b"<VRTDataset rasterXSize=\"3\" rasterYSize=\"1\"><VRTRasterBand dataType=\"Int16\" band=\"1\">\
    <NoDataValue>-1</NoDataValue><SimpleSource><SourceFilename relativeToVRT=\"1\">a.bil</SourceFilename>\
    <SourceBand>1</SourceBand></SimpleSource><SimpleSource><SourceFilename relativeToVRT=\"1\">b.bil</SourceFilename>\
    <SourceBand>1</SourceBand></SimpleSource></VRTRasterBand></VRTDataset>";

const INNER: &[u8] =
    b"<VRTDataset rasterXSize=\"3\" rasterYSize=\"1\"><VRTRasterBand dataType=\"Int16\" band=\"1\"><SimpleSource>\
    <SourceFilename relativeToVRT=\"1\">m.vrt</SourceFilename><SourceBand>1</SourceBand></SimpleSource></VRTRasterBand>\
    </VRTDataset>";

const OUTER: &[u8] =
    b"<VRTDataset rasterXSize=\"3\" rasterYSize=\"1\"><VRTRasterBand dataType=\"Int16\" band=\"1\"><SimpleSource>\
    <SourceFilename relativeToVRT=\"1\">n.vrt</SourceFilename><SourceBand>1</SourceBand></SimpleSource></VRTRasterBand>\
    </VRTDataset>";

const SCALED: &[u8] =
    b"<VRTDataset rasterXSize=\"2\" rasterYSize=\"1\"><VRTRasterBand dataType=\"Byte\" band=\"1\"><SimpleSource>\
    <SourceFilename relativeToVRT=\"1\">five.bil</SourceFilename><SourceBand>1</SourceBand>\
    <SrcRect xOff=\"0\" yOff=\"0\" xSize=\"5\" ySize=\"1\"/><DstRect xOff=\"0\" yOff=\"0\" xSize=\"2\" ySize=\"1\"/>\
    </SimpleSource></VRTRasterBand></VRTDataset>";

const FILES: [File<'static>; 11] = [
    ("a.bil", &[5, 0, 0, 0, 7, 0]),
    ("a.hdr", HEADER),
    ("b.bil", &[0, 0, 0, 0, 9, 0]),
    ("b.hdr", HEADER),
    ("five.bil", &[1, 2, 3, 4, 5]),
    ("five.hdr", b"NROWS 1\nNCOLS 5\n"),
    ("m.vrt", MOSAIC),
    ("s.vrt", SIMPLE),
    ("n.vrt", INNER),
    ("o.vrt", OUTER),
    ("w.vrt", SCALED),
];

fn files() -> &'static [File<'static>] {
    &FILES
}

// A folder that holds the files.
fn calm<R: Abort>(rt: &R, alloc: Global) -> CalmFolder {
    calm_folder(rt, alloc, files())
}

const ROWS: [Line<'static>; 6] = [
    Line("a.bil", &[5, 0, 7]),
    Line("m.vrt", &[5, -1, 9]),
    Line("s.vrt", &[0, 0, 9]),
    Line("n.vrt", &[5, -1, 9]),
    Line("o.vrt", &[5, -1, 9]),
    Line("w.vrt", &[2, 4]),
];

// Whether a dataset has these samples at every capacity.
fn has_samples<R: Abort>(
    rt: &R,
    alloc: Global,
    folder: &mut CalmFolder,
    line: &Line<'_>,
    capacities: &[u32],
) -> bool {
    for capacity in capacities {
        if read_twice(rt, alloc, folder, line, *capacity) != Reading::Right {
            return false;
        }
    }
    true
}

impl Case for Line<'_> {
    // Whether the dataset has these samples at every capacity.
    fn holds<R: Abort>(&self, rt: &R, alloc: Global) -> bool {
        let mut folder = calm(rt, alloc);
        has_samples(rt, alloc, &mut folder, self, &[1, 2, 3, 64])
    }
}

#[test]
fn every_capacity_gives_the_same(rt: HostRuntime) {
    all_hold(&rt, rt.alloc(), &ROWS);
}

// The samples of `o.vrt`, which are those of `m.vrt` and `n.vrt`.
const OUTERMOST: Line<'static> = Line("o.vrt", &[5, -1, 9]);

// Walks over `o.vrt`, and reads nothing.
fn walk_alone<R: Abort>(rt: &R, alloc: Global, folder: &mut CountingFolder<CalmFolder>) {
    let job = Job {
        name: "o.vrt",
        size: (3, 1),
        capacity: 64,
        windows: &[],
    };
    let _none = samples_of(rt, alloc, folder, job);
}

// Whether so many reads and openings were made twice, and two more of each.
fn has_two_more(folder: &CountingFolder<CalmFolder>, reads: u64, opens: u64) -> bool {
    folder.reads() == reads.saturating_mul(2).saturating_add(2)
        && folder.opens() == opens.saturating_mul(2).saturating_add(2)
}

// Whether a walk and two reads with room for all blocks take two reads and two openings more than the walk.
fn are_loaded_once<R: Abort>(rt: &R, alloc: Global) -> bool {
    let mut folder = CountingFolder::new(calm(rt, alloc));
    walk_alone(rt, alloc, &mut folder);
    let (reads, opens) = (folder.reads(), folder.opens());
    let came = read_twice(rt, alloc, &mut folder, &OUTERMOST, 64);
    came == Reading::Right && has_two_more(&folder, reads, opens)
}

// With room for all blocks each of the two files is opened once and its one block read once, beside the
// four files that the walk reads.
#[test]
fn loads_once(rt: HostRuntime) {
    assert!(rt; are_loaded_once(&rt, rt.alloc()));
}

// A folder that holds the files, whose call of this number fails.
fn failing<R: Abort>(rt: &R, alloc: Global, call: u64) -> MemFolder {
    folder_of(rt, alloc, call, files())
}

// What comes of reads with so many blocks where the call of the folder of this number fails; None where fewer are made.
fn read_failing<R: Abort>(rt: &R, alloc: Global, capacity: u32, call: u64) -> Option<Reading> {
    let mut folder = failing(rt, alloc, call);
    let reading = read_twice(rt, alloc, &mut folder, &OUTERMOST, capacity);
    if folder.faults() == 0 && reading == Reading::Right {
        return None;
    }
    Some(reading)
}

// More calls than the walk and the reads make.
const TOO_MANY_CALLS: u64 = 1_000;

// How many calls of the folder fail at the first read, where each fails in turn until none does; None where one refuses
// the walk behind such a call, or a read is wrong.
fn failed_reads<R: Abort>(rt: &R, alloc: Global, capacity: u32) -> Option<u64> {
    let mut failed = 0u64;
    for call in 1..TOO_MANY_CALLS {
        match read_failing(rt, alloc, capacity, call) {
            None => return Some(failed),
            Some(Reading::Failed) => failed = failed.saturating_add(1),
            Some(Reading::NoWalk) if failed == 0 => {}
            Some(_) => return None,
        }
    }
    None
}

// Each call of the folder fails in turn. The walk makes the first of them and refuses then; the window
// opens and reads the two files, and is read whole once the call has failed.
#[test]
fn a_lane_goes_on_behind_a_failed_call(rt: HostRuntime) {
    is_number(&rt, failed_reads(&rt, rt.alloc(), 2), 4);
}

// The same with room for one block.
#[test]
fn a_lane_of_one_block_goes_on(rt: HostRuntime) {
    is_number(&rt, failed_reads(&rt, rt.alloc(), 1), 4);
}

// Files of several lines and mosaics of several blocks.
#[derive(Clone, Copy)]
enum Image {
    // 130 columns, without a 0.
    Left,
    // 80 columns, of which each fifth is 0.
    Right,
    // `Left`, and over it from the column 60 on `Right` where that isn't 0.
    Wide,
    // `Wide` from the column 10 and the line 1 on, and over it each second column of `Left`.
    Nested,
}

fn left(x: u32, y: u32) -> u8 {
    ((x as u64 + 50 * y as u64) % 199 + 1) as u8
}

fn right(x: u32, y: u32) -> u8 {
    ((x as u64 + 2 * y as u64) % 5 * 40) as u8
}

// A pixel of `Right` from the column 60 on, or 0.
fn right_behind(x: u32, y: u32) -> u8 {
    if x < 60 {
        return 0;
    }
    right(x - 60, y)
}

// The NODATA of this one is 255.
fn wide(x: u32, y: u32) -> u8 {
    let over = right_behind(x, y);
    if over != 0 {
        return over;
    }
    if x < 130 {
        return left(x, y);
    }
    255
}

// The middle of the column x lies in the column 2x + 1 of `Left`.
fn nested(x: u32, y: u32) -> u8 {
    if x < 65 && y < 3 {
        return left(2 * x + 1, y);
    }
    match place_in((10, 1, 140, 3), x, y) {
        Some((x, y)) => return wide(x, y),
        None => return 0,
    }
}

// The pixel of an image by its definition.
fn pixel(image: Image, x: u32, y: u32) -> u8 {
    match image {
        Image::Left => left(x, y),
        Image::Right => right(x, y),
        Image::Wide => wide(x, y),
        Image::Nested => nested(x, y),
    }
}

impl Picture for Image {
    fn pixel(&self, _band: u32, x: u32, y: u32) -> Sample {
        pixel(*self, x, y) as Sample
    }
}

const WIDE: &[u8] =
    b"<VRTDataset rasterXSize=\"140\" rasterYSize=\"3\"><VRTRasterBand dataType=\"Byte\" band=\"1\">\
    <NoDataValue>255</NoDataValue><SimpleSource><SourceFilename relativeToVRT=\"1\">left.bil</SourceFilename>\
    <SourceBand>1</SourceBand><SrcRect xOff=\"0\" yOff=\"0\" xSize=\"130\" ySize=\"3\"/>\
    <DstRect xOff=\"0\" yOff=\"0\" xSize=\"130\" ySize=\"3\"/></SimpleSource><ComplexSource>\
    <SourceFilename relativeToVRT=\"1\">right.bil</SourceFilename><SourceBand>1</SourceBand>\
    <SrcRect xOff=\"0\" yOff=\"0\" xSize=\"80\" ySize=\"3\"/><DstRect xOff=\"60\" yOff=\"0\" xSize=\"80\" ySize=\"3\"/>\
    <NODATA>0</NODATA></ComplexSource></VRTRasterBand></VRTDataset>";

const NESTED: &[u8] =
    b"<VRTDataset rasterXSize=\"155\" rasterYSize=\"5\"><VRTRasterBand dataType=\"Byte\" band=\"1\"><SimpleSource>\
    <SourceFilename relativeToVRT=\"1\">wide.vrt</SourceFilename><SourceBand>1</SourceBand>\
    <SrcRect xOff=\"0\" yOff=\"0\" xSize=\"140\" ySize=\"3\"/>\
    <DstRect xOff=\"10\" yOff=\"1\" xSize=\"140\" ySize=\"3\"/></SimpleSource><SimpleSource>\
    <SourceFilename relativeToVRT=\"1\">left.bil</SourceFilename><SourceBand>1</SourceBand>\
    <SrcRect xOff=\"0\" yOff=\"0\" xSize=\"130\" ySize=\"3\"/><DstRect xOff=\"0\" yOff=\"0\" xSize=\"65\" ySize=\"3\"/>\
    </SimpleSource></VRTRasterBand></VRTDataset>";

// The headers of the rasters, and the mosaics.
const DRAWN: [File<'static>; 4] = [
    ("left.hdr", b"NROWS 3\nNCOLS 130\n"),
    ("right.hdr", b"NROWS 3\nNCOLS 80\n"),
    ("wide.vrt", WIDE),
    ("nested.vrt", NESTED),
];

// A folder that holds the images.
fn drawn<R: Abort>(rt: &R, alloc: Global) -> CalmFolder {
    let mut folder = CalmFolder::new(alloc, Never);
    put_all(rt, alloc, &mut folder, &DRAWN);
    put_picture(rt, alloc, &mut folder, "left.bil", &Image::Left, (130, 390));
    put_picture(
        rt,
        alloc,
        &mut folder,
        "right.bil",
        &Image::Right,
        (80, 240),
    );
    folder
}

// An image, its name, and how many columns and lines it has.
#[derive(Clone, Copy)]
struct Pictured<'a>(Image, &'a str, (u32, u32));

const IMAGES: [Pictured<'static>; 4] = [
    Pictured(Image::Left, "left.bil", (130, 3)),
    Pictured(Image::Right, "right.bil", (80, 3)),
    Pictured(Image::Wide, "wide.vrt", (140, 3)),
    Pictured(Image::Nested, "nested.vrt", (155, 5)),
];

// How many pixels a raster has.
fn count_of((w, h): (u32, u32)) -> u64 {
    (w as u64).saturating_mul(h as u64)
}

// The pixel of a raster that is asked for at a step: each is 59 places behind the last.
fn point_at(size: (u32, u32), step: u64) -> Place {
    let columns = size.0.max(1) as u64;
    let number = step.saturating_mul(59) % count_of(size).max(1);
    let (x, y) = (number % columns, (number / columns).min(0xffff_ffff));
    (0, (x as u32, y as u32, 1, 1))
}

// All pixels of a raster one by one.
fn all_points<R: Abort>(rt: &R, alloc: Global, size: (u32, u32)) -> Vec<Place> {
    let mut points = Vec::new(alloc);
    for step in 0..count_of(size) {
        add_window(rt, &mut points, point_at(size, step));
    }
    points
}

impl Case for Pictured<'_> {
    // Whether the dataset has the pixels of its image, one by one and all at once.
    fn holds<R: Abort>(&self, rt: &R, alloc: Global) -> bool {
        let Pictured(image, name, size) = *self;
        let mut folder = drawn(rt, alloc);
        let points = all_points(rt, alloc, size);
        let whole: [Place; 1] = [(0, (0, 0, size.0, size.1))];
        let job = Job {
            name,
            size,
            capacity: 1,
            windows: points.as_slice(),
        };
        let at_once = Job {
            windows: &whole,
            ..job
        };
        shows_always(rt, alloc, &mut folder, job, &image, &[1, 2, 64])
            && shows_always(rt, alloc, &mut folder, at_once, &image, &[1, 2, 64])
    }
}

#[test]
fn jumping_points_are_those_of_the_window(rt: HostRuntime) {
    all_hold(&rt, rt.alloc(), &IMAGES);
}

// A folder that holds a raster of 3 lines. A line has 300 columns of 256 bands, of which 256 are read at once, in
// 65,536 bytes; so its load takes two reads.
fn long_lines<R: Abort>(rt: &R, alloc: Global) -> CalmFolder {
    let data = vec![in alloc; 7u8; 3 * 300 * 256].expect(rt, "memory");
    let files: [File<'_>; 2] = [
        ("long.bip", data.as_slice()),
        ("long.hdr", b"NROWS 3\nNCOLS 300\nNBANDS 256\nLAYOUT BIP\n"),
    ];
    calm_folder(rt, alloc, &files)
}

// Pixels of the first band.
fn points_of<R: Abort>(rt: &R, alloc: Global, places: &[(u32, u32)]) -> Vec<Place> {
    let mut points = Vec::new(alloc);
    for place in places {
        add_window(rt, &mut points, (0, (place.0, place.1, 1, 1)));
    }
    points
}

// The first place up to which points take another number of reads.
fn first_unlike<R: Abort>(
    rt: &R,
    alloc: Global,
    folder: &mut CountingFolder<CalmFolder>,
    job: Job,
    counts: &[u64],
) -> Option<usize> {
    for (at, reads) in counts.iter().enumerate() {
        let end = at.saturating_add(1).min(job.windows.len());
        let (windows, _) = job.windows.split_at(end);
        if reads_in(rt, alloc, folder, Job { windows, ..job }) != *reads {
            return Some(at);
        }
    }
    None
}

// The first of the places in a dataset up to which they take another number of reads, through a pool of one block.
fn first_miscounted<R: Abort>(
    rt: &R,
    alloc: Global,
    folder: CalmFolder,
    (name, size): (&str, (u32, u32)),
    places: &[(u32, u32)],
    counts: &[u64],
) -> Option<usize> {
    let points = points_of(rt, alloc, places);
    let mut folder = CountingFolder::new(folder);
    let job = Job {
        name,
        size,
        capacity: 1,
        windows: points.as_slice(),
    };
    first_unlike(rt, alloc, &mut folder, job, counts)
}

const WIDE_PLACES: [(u32, u32); 5] = [(0, 0), (139, 2), (100, 0), (5, 1), (70, 2)];

// How many reads the first of these places take, the first two, and so on.
const WIDE_READS: [u64; 5] = [6, 7, 7, 7, 7];

fn first_miscounted_in_wide<R: Abort>(rt: &R, alloc: Global) -> Option<usize> {
    let dataset = ("wide.vrt", (140, 3));
    let folder = drawn(rt, alloc);
    first_miscounted(rt, alloc, folder, dataset, &WIDE_PLACES, &WIDE_READS)
}

const NESTED_PLACES: [(u32, u32); 6] = [(154, 4), (154, 4), (0, 0), (20, 3), (20, 1), (120, 3)];

const NESTED_READS: [u64; 6] = [12, 12, 13, 13, 14, 14];

fn first_miscounted_in_nested<R: Abort>(rt: &R, alloc: Global) -> Option<usize> {
    let dataset = ("nested.vrt", (155, 5));
    let folder = drawn(rt, alloc);
    first_miscounted(rt, alloc, folder, dataset, &NESTED_PLACES, &NESTED_READS)
}

// The first pixel makes its block, since there is room: for each block of `Wide` in it, it loads all three
// lines of both files. Blocks that were made stay beside the pool, which is full by then. A pixel of another block
// only loads the line of the last source that covers it, and where that is its NODATA the line of the one before.
#[test]
fn a_point_loads_one_block_of_each_source(rt: HostRuntime) {
    none_wrong(&rt, first_miscounted_in_wide(&rt, rt.alloc()));
    none_wrong(&rt, first_miscounted_in_nested(&rt, rt.alloc()));
}

const LONG_PLACES: [(u32, u32); 8] = [
    (0, 0),
    (299, 1),
    (5, 2),
    (6, 1),
    (7, 1),
    (8, 1),
    (9, 0),
    (10, 0),
];

const LONG_READS: [u64; 8] = [2, 3, 4, 5, 7, 7, 8, 10];

fn first_miscounted_in_long<R: Abort>(rt: &R, alloc: Global) -> Option<usize> {
    let dataset = ("long.bip", (300, 3));
    let folder = long_lines(rt, alloc);
    first_miscounted(rt, alloc, folder, dataset, &LONG_PLACES, &LONG_READS)
}

// The first pixel loads its line, in two reads, since there is room. Those in other lines then jump: each reads
// its byte alone. The fifth stands in the line of the fourth, which is loaded and holds the sixth; and so does
// the eighth in the line of the seventh, which was pushed out.
#[test]
fn a_point_that_jumps_reads_its_byte_alone(rt: HostRuntime) {
    none_wrong(&rt, first_miscounted_in_long(&rt, rt.alloc()));
}
