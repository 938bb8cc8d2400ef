use crate::fixtures::{
    Case, File, add, all_hold, cell, cut, document, folder_of, has_said, is_said, is_word, name_of,
    none_wrong, put,
};
use crate::walks::first_astray;
use catalog::{BandHead, Catalog, Head, Kind, head_of};
use geotransform::{GeoTransform, PixelType, Size};
use outside::MemFolder;
use outside_fakes::TWO_TILES;
use std::alloc::Global;
use std::process::Abort;
use std::test::*;

const HEADER: &[u8] = b"NROWS 2\nNCOLS 3\nNBANDS 2\nNBITS 8\nLAYOUT BIL\nNODATA 9\n";

const TWELVE: [u8; 12] = [0; 12];

// What a word of a table stands for: the bytes of a file.
fn file_bytes(word: &str) -> &'static [u8] {
    match word {
        "header" => HEADER,
        "twelve" => &TWELVE,
        "eleven" => &TWELVE[1..],
        "blanks" => &[b' '; 80],
        "tiles" => TWO_TILES,
        "unknown" => b"<VRTDataset rasterXSize=\"1\" rasterYSize=\"1\"><Foo/></VRTDataset>",
        "open" => b"<VRTDataset rasterXSize=\"1\" rasterYSize=\"1\">",
        _ => b"",
    }
}

// A name, its files with what their bytes are, the call that fails, and what is said.
#[derive(Clone, Copy)]
struct Refusal<'a>(&'a str, &'a str, u64, &'a str);

const ROWS: [Refusal<'static>; 21] = [
    Refusal("a.tif", "", 0, "unknown a.tif"),
    Refusal("a.bil", "a.hdr=header", 0, "absent a.bil"),
    Refusal("./a.bil", "a.bil=twelve", 0, "absent a.hdr"),
    Refusal(
        "a.bil",
        "a.bil=twelve a.hdr=empty",
        0,
        "malformed a.hdr Hdr(MissingKey)",
    ),
    Refusal("a.bil", "a.bil=eleven a.hdr=header", 0, "short a.bil 12 11"),
    Refusal("a.bil", "a.bil=twelve a.hdr=header", 0, "whole"),
    Refusal("c.dt0", "c.dt0=empty", 0, "malformed c.dt0 Dted(Short)"),
    Refusal("c.dt0", "c.dt0=blanks", 0, "malformed c.dt0 Dted(NotDted)"),
    Refusal(
        "d/S01W180.HGT",
        "d/S01W180.HGT=empty",
        0,
        "malformed d/S01W180.HGT Hgt(BadLength)",
    ),
    Refusal(
        "d/N00.hgt",
        "d/N00.hgt=empty",
        0,
        "malformed d/N00.hgt Hgt(BadName)",
    ),
    // the name of a tile is read before its file is opened
    Refusal(
        "N91E000.hgt",
        "N91E000.hgt=empty",
        0,
        "malformed N91E000.hgt Hgt(BadName)",
    ),
    Refusal("N91E000.hgt", "", 0, "malformed N91E000.hgt Hgt(BadName)"),
    Refusal("N90E000.hgt", "", 0, "absent N90E000.hgt"),
    // each call fails
    Refusal("d/A.BIL", "d/A.BIL=twelve d/A.HDR=header", 1, "folder"),
    Refusal("d/A.BIL", "d/A.BIL=twelve d/A.HDR=header", 2, "folder"),
    Refusal("d/A.BIL", "d/A.BIL=twelve d/A.HDR=header", 3, "folder"),
    // broken documents
    Refusal(
        "m.vrt",
        "m.vrt=unknown",
        3,
        "malformed m.vrt Vrt(UnknownElement(44))",
    ),
    Refusal("m.vrt", "m.vrt=open", 3, "malformed m.vrt Vrt(BadText(44))"),
    // the mosaic of two tiles
    Refusal("m.vrt", "m.vrt=tiles", 1, "folder"),
    Refusal("m.vrt", "m.vrt=tiles", 2, "folder"),
    Refusal("m.vrt", "m.vrt=tiles", 3, "whole"),
];

// A folder with these files, whose call of this number fails.
fn holding<R: Abort>(rt: &R, alloc: Global, call: u64, files: &str) -> MemFolder {
    let mut folder = folder_of(rt, alloc, call, &[]);
    for file in files.split_ascii_whitespace() {
        let (name, bytes) = cut(file, "=");
        put(rt, alloc, &mut folder, name, file_bytes(bytes));
    }
    folder
}

impl Case for Refusal<'_> {
    // Whether that is said of the name.
    fn holds<R: Abort>(&self, rt: &R, alloc: Global) -> bool {
        let Refusal(name, files, call, said) = *self;
        let mut folder = holding(rt, alloc, call, files);
        has_said(rt, alloc, &mut folder, name, false, said)
    }
}

#[test]
fn refusals(rt: HostRuntime) {
    all_hold(&rt, rt.alloc(), &ROWS);
}

// A header of `len` bytes: what it says, behind blanks.
fn long_header<R: Abort>(rt: &R, alloc: Global, len: usize) -> Vec<u8> {
    let blanks = len.saturating_sub(HEADER.len().saturating_add(1));
    let mut text = vec![in alloc; b' '; blanks].expect(rt, "memory");
    add(rt, &mut text, b"\n");
    add(rt, &mut text, HEADER);
    text
}

// The length of a header, the call that fails, and what is said of data with it.
#[derive(Clone, Copy)]
struct Limited<'a>(usize, u64, &'a str);

// A header past its limit is refused before it is read.
const HEADERS: [Limited<'static>; 2] = [
    Limited(1_048_576, 0, "whole"),
    Limited(1_048_577, 3, "malformed a.hdr Hdr(Limit)"),
];

impl Case for Limited<'_> {
    // Whether that is said of data with a header of so many bytes.
    fn holds<R: Abort>(&self, rt: &R, alloc: Global) -> bool {
        let Limited(len, call, said) = *self;
        let header = long_header(rt, alloc, len);
        let files: [File<'_>; 2] = [("a.bil", &TWELVE), ("a.hdr", header.as_slice())];
        is_said(rt, alloc, false, ("a.bil", &files, call, said))
    }
}

#[test]
fn limits(rt: HostRuntime) {
    all_hold(&rt, rt.alloc(), &HEADERS);
}

// The name of a cell, the last byte of its sum, whether sums are asked for, and what is said.
#[derive(Clone, Copy)]
struct Summed<'a>(&'a str, u8, bool, &'a str);

const CELLS: [Summed<'static>; 4] = [
    Summed("c.dt0", 0xb2, false, "whole"),
    Summed("c.dt1", 0xb3, false, "whole"),
    Summed("c.dt2", 0xb2, true, "whole"),
    Summed("c.dt2", 0xb3, true, "malformed c.dt2 Dted(BadRecord(0))"),
];

impl Case for Summed<'_> {
    // Whether that is said of a cell with this last byte of its sum.
    fn holds<R: Abort>(&self, rt: &R, alloc: Global) -> bool {
        let Summed(name, sum, verify, said) = *self;
        let file = cell(rt, alloc, sum);
        let files: [File<'_>; 1] = [(name, file.as_slice())];
        is_said(rt, alloc, verify, (name, &files, 0, said))
    }
}

#[test]
fn cells(rt: HostRuntime) {
    all_hold(&rt, rt.alloc(), &CELLS);
}

// Whether a head has this kind, this size, no text of a coordinate system, and so many bands that are all so.
fn is_shaped(head: &Head, kind: Kind, size: Size, count: usize, band: BandHead) -> bool {
    for other in head.bands.as_slice() {
        if other.kind != band.kind || other.nodata != band.nodata || other.block != band.block {
            return false;
        }
    }
    head.kind == kind && head.size == size && head.srs.is_none() && head.bands.len() == count
}

// Whether a head has the files of these words, and the name of the first.
fn is_named(head: &Head, names: &str) -> bool {
    let mut words = names.split_ascii_whitespace();
    for file in head.files.as_slice() {
        if !is_word(words.next(), file.as_str()) {
            return false;
        }
    }
    words.next().is_none() && is_word(names.split_ascii_whitespace().next(), head.name.as_str())
}

// The head of a name over these files, of which this call fails.
fn head_in<R: Abort>(
    rt: &R,
    alloc: Global,
    name: &str,
    files: &[File<'_>],
    call: u64,
    verify: bool,
) -> Head {
    let name = name_of(rt, alloc, name);
    let mut folder = folder_of(rt, alloc, call, files);
    head_of(alloc, &mut folder, &name, verify)
        .ok()
        .expect(rt, "a head")
}

fn lies_at(geo: GeoTransform, corner: (i128, i128), step: (i128, i128)) -> bool {
    (geo.ox.get(), geo.oy.get()) == corner && (geo.dx.get(), geo.dy.get()) == step
}

// Whether a head is that of the data `d/A.BIL`.
fn is_of_data(head: &Head) -> bool {
    let band = BandHead {
        kind: PixelType::Byte,
        nodata: Some(9),
        block: Size { w: 3, h: 1 },
    };
    is_shaped(head, Kind::Raw, Size { w: 3, h: 2 }, 2, band)
        && is_named(head, "d/A.BIL d/A.HDR")
        && head.geo.is_none()
}

fn has_head<R: Abort>(rt: &R, alloc: Global) -> bool {
    let files: [File<'_>; 2] = [("d/A.BIL", &TWELVE), ("d/A.HDR", HEADER)];
    is_of_data(&head_in(rt, alloc, "./d//A.BIL", &files, 4, true))
}

#[test]
fn a_head(rt: HostRuntime) {
    assert!(rt; has_head(&rt, rt.alloc()));
}

// Whether a head is that of the mosaic of two tiles.
fn is_of_tiles(head: &Head) -> bool {
    let band = BandHead {
        kind: PixelType::Int16,
        nodata: Some(-32_768),
        block: Size { w: 128, h: 128 },
    };
    let corner = (-75_000_000_000_006, 180_075_000_000_000_006);
    let step = (149_999_999_999_994, -149_999_999_999_994);
    is_shaped(head, Kind::Vrt, Size { w: 2401, h: 1201 }, 1, band)
        && is_named(head, "d/out.vrt d/N00E000.hgt d/N00E001.hgt")
        && matches!(head.geo, Some(geo) if lies_at(geo, corner, step))
}

fn has_mosaic<R: Abort>(rt: &R, alloc: Global) -> bool {
    let files: [File<'_>; 1] = [("d/out.vrt", TWO_TILES)];
    is_of_tiles(&head_in(rt, alloc, "d/out.vrt", &files, 3, false))
}

// No source is opened: the tiles aren't there, and a third call of the folder would fail.
#[test]
fn a_mosaic(rt: HostRuntime) {
    assert!(rt; has_mosaic(&rt, rt.alloc()));
}

// The name of a mosaic, its sources, and its files.
#[derive(Clone, Copy)]
struct Listing<'a>(&'a str, &'a str, &'a str);

const LISTINGS: [Listing<'static>; 4] = [
    Listing("m.vrt", "", "m.vrt"),
    Listing("m.vrt", "b.bil#1 ./a.bil#1 b.bil#1", "m.vrt b.bil a.bil"),
    Listing(
        "d/m.vrt",
        "b.bil#1 /a.bil#1 e//b.bil#1 .//b.bil#1",
        "d/m.vrt d/b.bil /a.bil d/e/b.bil",
    ),
    Listing("m.vrt", "./m.vrt#1 m.vrt#1", "m.vrt m.vrt"),
];

impl Case for Listing<'_> {
    // Whether a mosaic of these sources has these files.
    fn holds<R: Abort>(&self, rt: &R, alloc: Global) -> bool {
        let Listing(name, sources, names) = *self;
        let text = document(rt, alloc, sources);
        let files: [File<'_>; 1] = [(name, text.as_slice())];
        is_named(&head_in(rt, alloc, name, &files, 3, false), names)
    }
}

// Each name of a source is listed once, in document order, behind the mosaic's own.
#[test]
fn files_of_mosaics(rt: HostRuntime) {
    all_hold(&rt, rt.alloc(), &LISTINGS);
}

// A document whose second source has a name of so many letters.
fn long_named<R: Abort>(rt: &R, alloc: Global, count: usize) -> Vec<u8> {
    let mut sources = String::from_str(alloc, "b.bil#1 ").expect(rt, "memory");
    for _ in 0..count {
        sources.push('a').expect(rt, "memory");
    }
    sources.push_str("#1").expect(rt, "memory");
    document(rt, alloc, sources.as_str())
}

// The name of a mosaic, the letters of its source's text, and what is said.
#[derive(Clone, Copy)]
struct Length<'a>(&'a str, usize, &'a str);

const LENGTHS: [Length<'static>; 4] = [
    Length("m.vrt", 4096, "whole"),
    Length("m.vrt", 4097, "limit name 4097"),
    Length("d/m.vrt", 4094, "whole"),
    Length("d/m.vrt", 4096, "limit name 4098"),
];

impl Case for Length<'_> {
    // Whether that is said of a mosaic whose source has a name of so many letters.
    fn holds<R: Abort>(&self, rt: &R, alloc: Global) -> bool {
        let Length(name, count, said) = *self;
        let text = long_named(rt, alloc, count);
        let files: [File<'_>; 1] = [(name, text.as_slice())];
        is_said(rt, alloc, false, (name, &files, 3, said))
    }
}

#[test]
fn names_of_sources(rt: HostRuntime) {
    all_hold(&rt, rt.alloc(), &LENGTHS);
}

// Whether sums are asked for, and how the walk goes.
const STEPS: [&str; 4] = [
    "d/A.BIL; 0; 1",
    "d/A.BIL; 0; 1",
    "b.bil; absent b.bil; 1",
    "sums c.dt0; 1; 2",
];

// The length and the size of a dataset, where there is one of this number.
fn measured(cat: &Catalog, id: u32) -> Option<(u64, Size)> {
    if id >= cat.count() {
        return None;
    }
    Some((cat.length(id), cat.head(id).size))
}

// A folder with the data and a cell, whose ninth call fails.
fn data_and_cell<R: Abort>(rt: &R, alloc: Global) -> MemFolder {
    let file = cell(rt, alloc, 0xb2);
    let files: [File<'_>; 3] = [
        ("d/A.BIL", &TWELVE),
        ("d/A.HDR", HEADER),
        ("c.dt0", file.as_slice()),
    ];
    folder_of(rt, alloc, 9, &files)
}

// The first of these steps that goes otherwise, or how many there are where the cell has another length or another size
// then.
fn first_wrong_step<R: Abort>(rt: &R, alloc: Global, steps: &[&str]) -> Option<usize> {
    let mut folder = data_and_cell(rt, alloc);
    let mut cat = Catalog::new(alloc);
    let astray = first_astray(rt, alloc, &mut cat, &mut folder, steps);
    if measured(&cat, 1) == Some((3448, Size { w: 1, h: 4 })) {
        return astray;
    }
    Some(astray.unwrap_or(steps.len()))
}

// Each dataset is read once, and a refusal leaves the catalog as it was.
#[test]
fn walks(rt: HostRuntime) {
    none_wrong(&rt, first_wrong_step(&rt, rt.alloc(), &STEPS));
}
