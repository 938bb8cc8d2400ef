ghost use Rattle.std.specs.Prelude.{◌≡◌, ◌<◌, ◌≤◌, ℕ, Some, IsSome, slice_get};
ghost use Rattle.catalog.specs.Drivers.{Dataset, driver_of};
ghost use Rattle.band_blocks.specs.Keys.{IsKey};
ghost use Rattle.band_blocks.specs.Open.{AreGood};

use crate::fixtures::{
    Case, File, add, all_hold, calm_folder, cell, cut, is_count, is_word, name_of, none_wrong, put,
};
use band_blocks::{Block, BlockKey, Counter, LoadFault, OpenFiles, block_at, load_block};
use catalog::{Catalog, open_all};
use geotransform::{Sample, read_whole};
use outside::{CalmFolder, CountingFolder, Folder, Name, Never};
use std::alloc::{AllocError, Global};
use std::marker::Brand;
use std::process::Abort;
use std::sync::ledger::{Blank, Ledger};
use std::test::*;

// What came of a load.
#[derive(Drop)]
enum Loaded {
    Block(Block),
    Fault(LoadFault),
    NoWalk,
    NoDataset,
    NoFile,
    NoPixel,
}

// Whether a word is this sample.
fn is_sample(word: &str, sample: Sample) -> bool {
    read_whole(word.as_bytes()) == Some(sample)
}

// Whether a block has as many samples as a text says, and begins with those behind it.
fn begins(block: &Block, want: &str) -> bool {
    let (count, samples) = cut(want, ": ");
    let mut at = 0;
    for word in samples.split_ascii_whitespace() {
        if at >= block.len() || !is_sample(word, block.get(at)) {
            return false;
        }
        at += 1;
    }
    is_count(Some(count), block.len() as u64)
}

// Whether a word is the length of a file, or `gone` where there is none.
fn is_length(word: Option<&str>, length: Option<u64>) -> bool {
    match length {
        Some(length) => is_count(word, length),
        None => is_word(word, "gone"),
    }
}

// Whether a fault tells that a file has changed its length as a text says: its name, its length before, and then.
fn is_changed(fault: &LoadFault, want: &str) -> bool {
    let mut words = want.split_ascii_whitespace();
    match fault {
        LoadFault::Changed { name, was, now } => {
            is_word(words.next(), "changed")
                && is_word(words.next(), name.as_str())
                && is_count(words.next(), *was)
                && is_length(words.next(), *now)
        }
        _ => false,
    }
}

impl Loaded {
    // Whether that is what a text says: a block of so many samples, the first of which are these; a fault, as the file
    // has another length than the walk found; or that there is no such pixel.
    fn is(&self, want: &str) -> bool {
        match self {
            Loaded::Block(block) => begins(block, want),
            Loaded::Fault(fault) => is_changed(fault, want),
            Loaded::NoPixel => want == "no pixel",
            _ => false,
        }
    }

    // Whether that is a block of one pixel with this sample.
    fn is_pixel(&self, sample: Sample) -> bool {
        match self {
            Loaded::Block(block) => block.len() == 1 && block.get(0) == sample,
            _ => false,
        }
    }
}

// Loads a block once.
fn load_counted<F: Folder, L: Ledger>(
    alloc: Global,
    cat: &Catalog,
    folder: &mut F,
    files: &mut OpenFiles<F>,
    key: BlockKey,
    blank: Blank,
) -> Loaded
    requires key { IsKey cat.now key }
    requires file { (d : Dataset) → slice_get cat.now key.dataset ≡ Some d → IsSome (driver_of d.content) }
    requires good { AreGood F.file_bytes F.file_len (F.names folder.old) cat.now files.old }
    requires name { blank.name ≡ L.name }
    requires parts { blank.parts ≡ L.parts }
    requires some { 0 < blank.parts }
    ensures good { AreGood F.file_bytes F.file_len (F.names folder.new) cat.now files.new }
{
    let mut loads: Counter<L> = Counter::open(blank);
    match load_block(alloc, cat, folder, files, key, &mut loads) {
        Ok(block) => Loaded::Block(block),
        Err(fault) => Loaded::Fault(fault),
    }
}

// What a load of the block of a pixel gives.
#[tactic(auto, using(band_blocks::proofs::Loads::key_in, band_blocks::proofs::Loads::file_known))]
fn load_at<F: Folder>(
    alloc: Global,
    cat: &Catalog,
    folder: &mut F,
    files: &mut OpenFiles<F>,
    id: u32,
    place: (u32, u32, u32),
) -> Loaded
    requires good { AreGood F.file_bytes F.file_len (F.names folder.old) cat.now files.old }
    ensures good { AreGood F.file_bytes F.file_len (F.names folder.new) cat.now files.new }
{
    if id >= cat.count() {
        return Loaded::NoDataset;
    }
    if cat.driver(id).is_none() {
        return Loaded::NoFile;
    }
    let head = cat.head(id);
    let (band, x, y) = place;
    if band as usize >= head.bands.len() || x >= head.size.w || y >= head.size.h {
        return Loaded::NoPixel;
    }
    let key = BlockKey {
        dataset: id,
        band,
        block: block_at(head, band, x, y),
    };
    load_counted::<F, Brand>(alloc, cat, folder, files, key, Blank::new(1))
}

// What a first load of the block of a pixel gives, once the catalog was walked over one folder, from
// another.
#[tactic(auto, using(band_blocks::proofs::Opened::good_none))]
fn first_load<F: Folder, G: Folder>(
    alloc: Global,
    walked: &mut F,
    folder: &mut G,
    name: &Name,
    place: (u32, u32, u32),
) -> Result<Loaded, AllocError> {
    let mut cat = Catalog::new(alloc);
    let Ok(id) = open_all(alloc, &mut cat, walked, name, false) else {
        return Ok(Loaded::NoWalk);
    };
    let mut files: OpenFiles<G> = OpenFiles::new(alloc)?;
    Ok(load_at(alloc, &cat, folder, &mut files, id, place))
}

// Whether a first load gives that, once the catalog was walked over one folder, from another.
fn gives<F: Folder, G: Folder>(
    alloc: Global,
    walked: &mut F,
    folder: &mut G,
    name: &Name,
    place: (u32, u32, u32),
    want: &str,
) -> bool {
    match first_load(alloc, walked, folder, name, place) {
        Ok(loaded) => loaded.is(want),
        Err(_) => false,
    }
}

// How many reads a first load of the block of a pixel takes that gives that, once the catalog was walked over other
// files.
fn reads_of_load<'a, R: Abort>(
    rt: &R,
    alloc: Global,
    found: &[File<'a>],
    later: &[File<'a>],
    name: &str,
    place: (u32, u32, u32),
    want: &str,
) -> Option<u64> {
    let name = name_of(rt, alloc, name);
    let mut walked = calm_folder(rt, alloc, found);
    let mut folder = CountingFolder::new(calm_folder(rt, alloc, later));
    if gives(alloc, &mut walked, &mut folder, &name, place, want) {
        return Some(folder.reads());
    }
    None
}

// Whether a first load gives that where the files stay the same.
fn answers<R: Abort>(
    rt: &R,
    alloc: Global,
    files: &[File<'_>],
    name: &str,
    place: (u32, u32, u32),
    want: &str,
) -> bool {
    reads_of_load(rt, alloc, files, files, name, place, want).is_some()
}

// Each byte is its place.
const PLACES: [u8; 17] = [0, 1, 2, 3, 4, 5, 6, 7, 8, 9, 10, 11, 12, 13, 14, 15, 16];

// A header, the band, the column and the line of a pixel, and its block.
#[derive(Clone, Copy)]
struct Raw<'a>(&'a str, (u32, u32, u32), &'a str);

const ROWS: [Raw<'static>; 5] = [
    Raw(
        "NROWS 2\nNCOLS 3\nNBANDS 2\nSKIPBYTES 1\nBANDROWBYTES 4\nTOTALROWBYTES 9\n",
        (1, 2, 1),
        "3: 14 15 16",
    ),
    Raw(
        "NROWS 2\nNCOLS 3\nNBANDS 2\nLAYOUT BIP\nSKIPBYTES 1\nTOTALROWBYTES 8\n",
        (1, 0, 1),
        "3: 10 12 14",
    ),
    Raw(
        "NROWS 2\nNCOLS 3\nNBANDS 2\nLAYOUT BSQ\nSKIPBYTES 1\nBANDGAPBYTES 2\n",
        (1, 1, 1),
        "3: 12 13 14",
    ),
    Raw(
        "NROWS 2\nNCOLS 3\nNBITS 16\nBYTEORDER M\n",
        (0, 0, 1),
        "3: 1543 2057 2571",
    ),
    Raw("NROWS 2\nNCOLS 3\n", (0, 3, 0), "no pixel"),
];

impl Case for Raw<'_> {
    // Whether the row of the pixel is loaded so.
    fn holds<R: Abort>(&self, rt: &R, alloc: Global) -> bool {
        let Raw(header, place, want) = *self;
        let files: [File<'_>; 2] = [("a.bil", &PLACES), ("a.hdr", header.as_bytes())];
        answers(rt, alloc, &files, "a.bil", place, want)
    }
}

#[test]
fn loads_rows(rt: HostRuntime) {
    all_hold(&rt, rt.alloc(), &ROWS);
}

// A tile, whose third sample of the second line is -2, and all others 0.
fn tile<R: Abort>(rt: &R, alloc: Global) -> Vec<u8> {
    let mut file = vec![in alloc; 0u8; 2406].expect(rt, "memory");
    add(rt, &mut file, &[0xff, 0xfe]);
    file.resize(2_884_802, 0).expect(rt, "memory");
    file
}

// Whether the column of a cell is loaded, whose elevations are 0, the null elevation, -5 and 5 from the north.
fn loads_column<R: Abort>(rt: &R, alloc: Global) -> bool {
    let column = cell(rt, alloc, 0xb2);
    let files: [File<'_>; 1] = [("c.dt0", column.as_slice())];
    answers(rt, alloc, &files, "c.dt0", (0, 0, 2), "4: 0 -32767 -5 5")
}

// Whether a line of a tile is loaded.
fn loads_line<R: Abort>(rt: &R, alloc: Global) -> bool {
    let lines = tile(rt, alloc);
    let files: [File<'_>; 1] = [("N00E000.hgt", lines.as_slice())];
    answers(
        rt,
        alloc,
        &files,
        "N00E000.hgt",
        (0, 5, 1),
        "1201: 0 0 -2 0 0",
    )
}

#[test]
fn loads_columns_and_lines(rt: HostRuntime) {
    assert!(rt; loads_column(&rt, rt.alloc()) && loads_line(&rt, rt.alloc()));
}

// The files where a raster is loaded that had four bytes when the walk found it, and what comes of it.
#[derive(Clone, Copy)]
struct Change<'a>(&'a [File<'a>], &'a str);

const CHANGES: [Change<'static>; 4] = [
    Change(&[("a.bsq", &[0, 1, 2, 3])], "2: 0 1"),
    Change(&[("a.bsq", &[0, 1, 2])], "changed a.bsq 4 3"),
    Change(&[("a.bsq", &[0, 1, 2, 3, 4])], "changed a.bsq 4 5"),
    Change(&[], "changed a.bsq 4 gone"),
];

// The files that the walk finds.
const FOUND: [File<'static>; 2] = [("a.bsq", &[0, 1, 2, 3]), ("a.hdr", b"NROWS 2\nNCOLS 2\n")];

impl Case for Change<'_> {
    // Whether that comes of a load from these files.
    fn holds<R: Abort>(&self, rt: &R, alloc: Global) -> bool {
        reads_of_load(rt, alloc, &FOUND, self.0, "a.bsq", (0, 0, 0), self.1).is_some()
    }
}

// A file that has another length than the walk found, or is gone.
#[test]
fn tells_changes(rt: HostRuntime) {
    all_hold(&rt, rt.alloc(), &CHANGES);
}

// The header of a row of 256 bands and so many columns.
fn header_of<R: Abort>(rt: &R, alloc: Global, columns: usize) -> String {
    format!(in alloc; "NROWS 1\nNCOLS {columns}\nNBANDS 256\nLAYOUT BIP\n").expect(rt, "memory")
}

// Columns of a row of 256 bands, all of whose samples are 7, the block of its last band, of which at most five samples
// are looked at, and how often its load reads.
#[derive(Clone, Copy)]
struct Pieces<'a>(usize, &'a str, u64);

const COUNTS: [Pieces<'static>; 4] = [
    Pieces(2, "2: 7 7", 1),
    Pieces(256, "256: 7 7 7 7 7", 1),
    Pieces(257, "257: 7 7 7 7 7", 2),
    Pieces(600, "600: 7 7 7 7 7", 3),
];

impl Case for Pieces<'_> {
    // Whether the load of such a row gives it, and reads so often.
    fn holds<R: Abort>(&self, rt: &R, alloc: Global) -> bool {
        let Pieces(columns, want, calls) = *self;
        let header = header_of(rt, alloc, columns);
        let data = vec![in alloc; 7u8; columns.saturating_mul(256)].expect(rt, "memory");
        let files: [File<'_>; 2] = [("a.bip", data.as_slice()), ("a.hdr", header.as_bytes())];
        reads_of_load(rt, alloc, &files, &files, "a.bip", (255, 1, 0), want) == Some(calls)
    }
}

#[test]
fn reads_in_pieces(rt: HostRuntime) {
    all_hold(&rt, rt.alloc(), &COUNTS);
}

const GRID_HEAD: &str = "xllcorner 0\nyllcorner 0\ncellsize 1\n";

// The file of a grid of this size and this body.
fn grid<R: Abort>(rt: &R, alloc: Global, size: &str, body: &[u8]) -> Vec<u8> {
    let mut text = Vec::new(alloc);
    add(rt, &mut text, size.as_bytes());
    add(rt, &mut text, GRID_HEAD.as_bytes());
    add(rt, &mut text, body);
    text
}

// The body of a grid of three columns and two rows, the line of a pixel, and its block.
#[derive(Clone, Copy)]
struct Gridded<'a>(&'a str, u32, &'a str);

const GRID_ROWS: [Gridded<'static>; 6] = [
    Gridded("1 -2 3\n40 50 60\n", 0, "3: 1 -2 3"),
    Gridded("1 -2 3\n40 50 60\n", 1, "3: 40 50 60"),
    Gridded("1 -2 3\n40 50 60", 1, "3: 40 50 60"),
    Gridded("1\n-2 3 40\n\n 50\t60 ", 0, "3: 1 -2 3"),
    Gridded("1\n-2 3 40\n\n 50\t60 ", 1, "3: 40 50 60"),
    Gridded(
        "-2147483648 2147483647 +7.0 0 0 0",
        0,
        "3: -2147483648 2147483647 7",
    ),
];

impl Case for Gridded<'_> {
    // Whether the row of the pixel is loaded so.
    fn holds<R: Abort>(&self, rt: &R, alloc: Global) -> bool {
        let Gridded(body, line, want) = *self;
        let text = grid(rt, alloc, "ncols 3\nnrows 2\n", body.as_bytes());
        let files: [File<'_>; 1] = [("g.asc", text.as_slice())];
        answers(rt, alloc, &files, "g.asc", (0, 2, line), want)
    }
}

#[test]
fn loads_rows_of_grids(rt: HostRuntime) {
    all_hold(&rt, rt.alloc(), &GRID_ROWS);
}

// A grid of one column and two rows, with 100,000 bytes between two others.
fn between<R: Abort>(rt: &R, alloc: Global, front: u8, fill: u8, back: u8) -> Vec<u8> {
    let mut bytes = Vec::new(alloc);
    add(rt, &mut bytes, &[front]);
    bytes.resize(100_001, fill).expect(rt, "memory");
    add(rt, &mut bytes, &[back]);
    grid(rt, alloc, "ncols 1\nnrows 2\n", bytes.as_slice())
}

// The bytes that a grid of one column and two rows has by then: the first, the 100,000 behind it and the
// last. The line that is loaded, its block, and how often it is read.
#[derive(Clone, Copy)]
struct Later<'a>(u8, u8, u8, u32, &'a str, u64);

const LATER_ROWS: [Later<'static>; 6] = [
    Later(b'7', b' ', b'8', 0, "1: 7", 1),
    Later(b'7', b' ', b'8', 1, "1: 8", 1),
    Later(b' ', b' ', b'8', 0, "1: 0", 2),
    Later(b'1', b'1', b'1', 0, "1: 0", 2),
    Later(b'x', b'\n', b'9', 0, "1: 0", 1),
    Later(b'x', b'\n', b'9', 1, "1: 9", 1),
];

impl Case for Later<'_> {
    // Whether a load of a line gives its block and reads so often, over the bytes that the grid has by then.
    fn holds<R: Abort>(&self, rt: &R, alloc: Global) -> bool {
        let Later(front, fill, back, line, want, calls) = *self;
        let found = between(rt, alloc, b'7', b' ', b'8');
        let later = between(rt, alloc, front, fill, back);
        let before: [File<'_>; 1] = [("g.asc", found.as_slice())];
        let then: [File<'_>; 1] = [("g.asc", later.as_slice())];
        reads_of_load(rt, alloc, &before, &then, "g.asc", (0, 0, line), want) == Some(calls)
    }
}

// The walk finds a 7, 100,000 spaces and an 8. No load reads past the place of the next row.
#[test]
fn stops_at_the_next_row(rt: HostRuntime) {
    all_hold(&rt, rt.alloc(), &LATER_ROWS);
}

// The row of a grid of so many columns, all of whose values are 7.
fn sevens<R: Abort>(rt: &R, alloc: Global, columns: u32) -> Vec<u8> {
    let mut body = Vec::new(alloc);
    for _ in 0..columns {
        add(rt, &mut body, b"7 ");
    }
    body
}

// The columns of such a grid, its size as it is written, its block, of which five samples are looked at, and how often
// the load of its row reads.
#[derive(Clone, Copy)]
struct Wide<'a>(u32, &'a str, &'a str, u64);

const SIZES: [Wide<'static>; 4] = [
    Wide(5, "ncols 5\nnrows 1\n", "5: 7 7 7 7 7", 1),
    Wide(32_768, "ncols 32768\nnrows 1\n", "32768: 7 7 7 7 7", 1),
    Wide(32_769, "ncols 32769\nnrows 1\n", "32769: 7 7 7 7 7", 2),
    Wide(65_537, "ncols 65537\nnrows 1\n", "65537: 7 7 7 7 7", 3),
];

impl Case for Wide<'_> {
    // Whether the load of such a row gives it, and reads so often.
    fn holds<R: Abort>(&self, rt: &R, alloc: Global) -> bool {
        let Wide(columns, size, want, calls) = *self;
        let body = sevens(rt, alloc, columns);
        let text = grid(rt, alloc, size, body.as_slice());
        let files: [File<'_>; 1] = [("g.asc", text.as_slice())];
        reads_of_load(rt, alloc, &files, &files, "g.asc", (0, 0, 0), want) == Some(calls)
    }
}

#[test]
fn reads_rows_of_grids_in_pieces(rt: HostRuntime) {
    all_hold(&rt, rt.alloc(), &SIZES);
}

// Whether loads of the first blocks of datasets in turn give one sample each: the number of the dataset.
fn load_each<F: Folder>(
    alloc: Global,
    cat: &Catalog,
    folder: &mut F,
    files: &mut OpenFiles<F>,
    ids: &[u32],
) -> bool
    requires good { AreGood F.file_bytes F.file_len (F.names folder.old) cat.now files.old }
    ensures good { AreGood F.file_bytes F.file_len (F.names folder.new) cat.now files.new }
{
    for id in ids {
        if !load_at(alloc, cat, folder, files, *id, (0, 0, 0)).is_pixel(*id as Sample) {
            return false;
        }
    }
    true
}

// Puts a file of one pixel, whose sample is its number.
fn put_pixel<R: Abort>(rt: &R, alloc: Global, folder: &mut CalmFolder, number: u8) -> Name {
    let header = format!(in alloc; "{number}.hdr").expect(rt, "memory");
    put(rt, alloc, folder, header.as_str(), b"NROWS 1\nNCOLS 1\n");
    let data = format!(in alloc; "{number}.bsq").expect(rt, "memory");
    put(rt, alloc, folder, data.as_str(), &[number]);
    name_of(rt, alloc, data.as_str())
}

// Puts a file of one pixel, and adds it to a catalog.
fn add_pixel<R: Abort>(
    rt: &R,
    alloc: Global,
    cat: &mut Catalog,
    folder: &mut CalmFolder,
    number: u8,
) {
    let data = put_pixel(rt, alloc, folder, number);
    let _id = open_all(alloc, cat, folder, &data, false);
}

// Seventeen files of one pixel each, whose sample is their number, and a catalog of them.
fn seventeen<R: Abort>(rt: &R, alloc: Global, cat: &mut Catalog) -> CalmFolder {
    let mut folder = CalmFolder::new(alloc, Never);
    for number in 0..17 {
        add_pixel(rt, alloc, cat, &mut folder, number);
    }
    folder
}

// How many files are opened where the first blocks of these datasets are loaded one after the other; None where they
// aren't loaded.
#[tactic(auto, using(band_blocks::proofs::Opened::good_none))]
fn opened(
    alloc: Global,
    cat: &Catalog,
    folder: &mut CountingFolder<CalmFolder>,
    ids: &[u32],
) -> Result<Option<u64>, AllocError> {
    let before = folder.opens();
    let mut files = OpenFiles::new(alloc)?;
    if load_each(alloc, cat, folder, &mut files, ids) {
        return Ok(Some(folder.opens().saturating_sub(before)));
    }
    Ok(None)
}

// Datasets in turn, and how many files are opened.
type Turn<'a> = (&'a [u32], u64);

const TURNS: [Turn<'static>; 3] = [
    (&[3, 3, 16, 3], 2),
    (
        &[
            0, 1, 2, 3, 4, 5, 6, 7, 8, 9, 10, 11, 12, 13, 14, 15, 0, 16, 0,
        ],
        17,
    ),
    (
        &[0, 1, 2, 3, 4, 5, 6, 7, 8, 9, 10, 11, 12, 13, 14, 15, 16, 0],
        18,
    ),
];

// Whether a turn opens as many files.
fn opens_so(
    alloc: Global,
    cat: &Catalog,
    folder: &mut CountingFolder<CalmFolder>,
    turn: &Turn<'_>,
) -> bool {
    let (ids, opens) = *turn;
    match opened(alloc, cat, folder, ids) {
        Ok(found) => found == Some(opens),
        Err(_) => false,
    }
}

// The first of these turns that opens another number of files.
fn first_unopened<R: Abort>(rt: &R, alloc: Global, turns: &[Turn<'_>]) -> Option<usize> {
    let mut cat = Catalog::new(alloc);
    let mut folder = CountingFolder::new(seventeen(rt, alloc, &mut cat));
    for (at, turn) in turns.iter().enumerate() {
        if !opens_so(alloc, &cat, &mut folder, turn) {
            return Some(at);
        }
    }
    None
}

// The file that was used longest ago is closed for a seventeenth.
#[test]
fn keeps_sixteen_open(rt: HostRuntime) {
    none_wrong(&rt, first_unopened(&rt, rt.alloc(), &TURNS));
}
