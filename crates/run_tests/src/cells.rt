// Runs over cells and tiles.
use crate::fickle::Fickle;
use crate::trials::{
    FileOf, NOTHING, Part, Row, first_harmless, first_wrong, is_number, joined, none_wrong, says,
    says_in,
};
use std::alloc::Global;
use std::process::Abort;
use std::test::*;
use std::thread::Threads;

// A cell at 10 degrees east, 20 degrees north, with steps of 30 arc seconds: what stands before its head, the counts in
// it, and its records.
fn cell<'a, R: Abort>(
    rt: &R,
    alloc: Global,
    front: &'a [u8],
    counts: &'a [u8],
    records: &'a [u8],
) -> Vec<u8> {
    let parts: [Part<'a>; 10] = [
        (front, 1),
        (b"UHL10100000E0200000N03000300NA  U", 1),
        (b" ", 14),
        (counts, 1),
        (b" ", 25),
        (b"DSIU", 1),
        (b" ", 644),
        (b"ACC", 1),
        (b" ", 2697),
        (records, 1),
    ];
    joined(rt, alloc, &parts)
}

// A cell of one line of longitude and four points: 5, -5, the null elevation and 0 from the south.
fn one_line<R: Abort>(rt: &R, alloc: Global, sum: u8) -> Vec<u8> {
    let records = [
        0xaa, 0, 0, 0, 0, 0, 0, 0, 0, 5, 0x80, 5, 0xff, 0xff, 0x80, 0, 0, 0, 3, sum,
    ];
    cell(rt, alloc, b"", b"00010004", &records)
}

// A leading record.
const VOLUME: &[u8] =
    b"VOL                                                                             ";

// A cell of two lines of one point, 7 and -9, behind a leading record.
fn two_lines<R: Abort>(rt: &R, alloc: Global, sum: u8) -> Vec<u8> {
    let records = [
        0xaa, 0, 0, 0, 0, 0, 0, 0, 0, 7, 0, 0, 0, 0xb1, 0xaa, 0, 0, 1, 0, 1, 0, 0, 0x80, 9, 0, 0,
        1, sum,
    ];
    cell(rt, alloc, VOLUME, b"00020001", &records)
}

const CELL_REPORT: &str = "Driver: DTED
Files: c.dt0
Size is 1, 4
Origin = (9.995833333333333,20.029166666666667)
Pixel Size = (0.008333333333333,-0.008333333333333)
Corner Coordinates:
Upper Left  (9.995833333, 20.029166667)
Lower Left  (9.995833333, 19.995833333)
Upper Right (10.004166667, 20.029166667)
Lower Right (10.004166667, 19.995833333)
Band 1 Block=1x4 Type=Int16
  NoData Value=-32767
";

static CELLS: [Row<'static>; 18] = [
    ("gdalinfo c.dt0", 0, CELL_REPORT, ""),
    ("gdallocationinfo -valonly c.dt0 0 3", 0, "5\n", ""),
    ("gdallocationinfo -valonly c.dt0 0 2", 0, "-5\n", ""),
    ("gdallocationinfo -valonly c.dt0 0 1", 0, "-32767\n", ""),
    ("gdallocationinfo -valonly c.dt0 0 0", 0, "0\n", ""),
    (
        "gdallocationinfo -valonly -b 1 c.dt0 0 3 -b 1",
        0,
        "5\n5\n",
        "",
    ),
    ("gdallocationinfo -valonly c.dt0 1 0", 0, "\n", ""),
    (
        "gdallocationinfo -valonly -b 2 c.dt0 0 0",
        1,
        "",
        "ERROR 5: no band 2\n",
    ),
    ("gdallocationinfo -valonly d.DT1 0 0", 0, "7\n", ""),
    ("gdallocationinfo -valonly d.DT1 1 0", 0, "-9\n", ""),
    ("gdallocationinfo -valonly w.dt2 0 3", 0, "5\n", ""),
    ("gdallocationinfo -valonly w.dt2 0 2", 0, "-5\n", ""),
    ("gdallocationinfo -valonly w.dt2 0 1", 0, "-32767\n", ""),
    ("gdallocationinfo -valonly w.dt2 0 0", 0, "0\n", ""),
    (
        "gdallocationinfo --config DTED_VERIFY_CHECKSUM off -valonly w.dt2 0 2",
        0,
        "-5\n",
        "",
    ),
    (
        "gdallocationinfo --config DTED_VERIFY_CHECKSUM YES -valonly c.dt0 0 2",
        0,
        "-5\n",
        "",
    ),
    (
        "gdallocationinfo --config DTED_VERIFY_CHECKSUM YES -valonly w.dt2 0 2",
        1,
        "",
        "ERROR 4: w.dt2: malformed dted (4) at 0\n",
    ),
    (
        "gdalinfo --config DTED_VERIFY_CHECKSUM YES e.dt1",
        1,
        "",
        "ERROR 4: e.dt1: malformed dted (4) at 1\n",
    ),
];

// Cells with right and wrong sums.
#[test]
fn cells(rt: HostRuntime) {
    let right = one_line(&rt, rt.alloc(), 0xb2);
    let wrong = one_line(&rt, rt.alloc(), 0xb3);
    let two = two_lines(&rt, rt.alloc(), 0x35);
    let broken = two_lines(&rt, rt.alloc(), 0x36);
    let files: [FileOf<'_>; 4] = [
        ("c.dt0", &right),
        ("w.dt2", &wrong),
        ("d.DT1", &two),
        ("e.dt1", &broken),
    ];
    none_wrong(&rt, first_wrong(&rt, rt.alloc(), &files, &CELLS));
}

// So many bytes of the cell, and the status, what is printed and what is told of them.
type Cut<'a> = (usize, u8, &'a str, &'a str);

static CUTS: [Cut<'static>; 10] = [
    (0, 1, "", "ERROR 4: c.dt0: malformed dted (3)\n"),
    (3, 1, "", "ERROR 4: c.dt0: malformed dted (3)\n"),
    (79, 1, "", "ERROR 4: c.dt0: malformed dted (3)\n"),
    (80, 1, "", "ERROR 4: c.dt0: malformed dted (3)\n"),
    (728, 1, "", "ERROR 4: c.dt0: malformed dted (3)\n"),
    (3427, 1, "", "ERROR 4: c.dt0: malformed dted (3)\n"),
    (3428, 1, "", "ERROR 4: c.dt0: needs 3448 bytes, has 3428\n"),
    (3444, 1, "", "ERROR 4: c.dt0: needs 3448 bytes, has 3444\n"),
    (3447, 1, "", "ERROR 4: c.dt0: needs 3448 bytes, has 3447\n"),
    (3448, 0, "5\n", ""),
];

// Whether this is said of a cut of a cell.
fn is_cut_so<R: Threads + Sync + Abort>(rt: &R, alloc: Global, cell: &[u8], cut: &Cut<'_>) -> bool {
    let (len, status, out, err) = *cut;
    let (front, _) = cell.split_at(len.min(cell.len()));
    let row = ("gdallocationinfo -valonly c.dt0 0 3", status, out, err);
    says(rt, alloc, &[("c.dt0", front)], &row)
}

// The first of these cuts of a cell of which something else is said.
fn first_wrong_cut<R: Threads + Sync + Abort>(
    rt: &R,
    alloc: Global,
    cell: &[u8],
    cuts: &[Cut<'_>],
) -> Option<usize> {
    for (at, cut) in cuts.iter().enumerate() {
        if !is_cut_so(rt, alloc, cell, cut) {
            return Some(at);
        }
    }
    None
}

#[test]
fn cut_cells(rt: HostRuntime) {
    let cell = one_line(&rt, rt.alloc(), 0xb2);
    none_wrong(&rt, first_wrong_cut(&rt, rt.alloc(), &cell, &CUTS));
}

// What is told of the cell where its head is there and bytes of its one record are missing: all twenty, down to one.
static LACKING: [&str; 20] = [
    "ERROR 4: c.dt0: needs 3448 bytes, has 3428\n",
    "ERROR 4: c.dt0: needs 3448 bytes, has 3429\n",
    "ERROR 4: c.dt0: needs 3448 bytes, has 3430\n",
    "ERROR 4: c.dt0: needs 3448 bytes, has 3431\n",
    "ERROR 4: c.dt0: needs 3448 bytes, has 3432\n",
    "ERROR 4: c.dt0: needs 3448 bytes, has 3433\n",
    "ERROR 4: c.dt0: needs 3448 bytes, has 3434\n",
    "ERROR 4: c.dt0: needs 3448 bytes, has 3435\n",
    "ERROR 4: c.dt0: needs 3448 bytes, has 3436\n",
    "ERROR 4: c.dt0: needs 3448 bytes, has 3437\n",
    "ERROR 4: c.dt0: needs 3448 bytes, has 3438\n",
    "ERROR 4: c.dt0: needs 3448 bytes, has 3439\n",
    "ERROR 4: c.dt0: needs 3448 bytes, has 3440\n",
    "ERROR 4: c.dt0: needs 3448 bytes, has 3441\n",
    "ERROR 4: c.dt0: needs 3448 bytes, has 3442\n",
    "ERROR 4: c.dt0: needs 3448 bytes, has 3443\n",
    "ERROR 4: c.dt0: needs 3448 bytes, has 3444\n",
    "ERROR 4: c.dt0: needs 3448 bytes, has 3445\n",
    "ERROR 4: c.dt0: needs 3448 bytes, has 3446\n",
    "ERROR 4: c.dt0: needs 3448 bytes, has 3447\n",
];

fn lacking() -> &'static [&'static str] {
    &LACKING
}

// What is told of so many first bytes of the cell, which aren't all.
fn told_of(lacking: &[&'static str], len: usize) -> &'static str {
    match len.checked_sub(3428) {
        None => "ERROR 4: c.dt0: malformed dted (3)\n",
        Some(at) => match lacking.get(at) {
            Some(told) => *told,
            None => "",
        },
    }
}

fn is_cut_off<R: Threads + Sync + Abort>(rt: &R, alloc: Global, cell: &[u8], len: usize) -> bool {
    let (front, _) = cell.split_at(len.min(cell.len()));
    let row = ("gdalinfo c.dt0", 1, "", told_of(lacking(), len));
    says(rt, alloc, &[("c.dt0", front)], &row)
}

// The least number of first bytes of a cell of which something else is told.
fn first_other_length<R: Threads + Sync + Abort>(
    rt: &R,
    alloc: Global,
    cell: &[u8],
) -> Option<usize> {
    for len in 0..3448usize {
        if !is_cut_off(rt, alloc, cell, len) {
            return Some(len);
        }
    }
    None
}

#[test]
fn cells_cut_anywhere(rt: HostRuntime) {
    let cell = one_line(&rt, rt.alloc(), 0xb2);
    none_wrong(&rt, first_other_length(&rt, rt.alloc(), &cell));
}

static LARGE: [Row<'static>; 1] = [(
    "gdalinfo l.dt2",
    1,
    "",
    "ERROR 4: l.dt2: needs 200083418 bytes, has 3428\n",
)];

#[test]
fn a_large_cell(rt: HostRuntime) {
    let large = cell(&rt, rt.alloc(), b"", b"99999999", b"");
    let files: [FileOf<'_>; 1] = [("l.dt2", &large)];
    none_wrong(&rt, first_wrong(&rt, rt.alloc(), &files, &LARGE));
}

const CHECKED: &str = "gdallocationinfo --config DTED_VERIFY_CHECKSUM YES -valonly c.dt0 0 2";

// Each call of the folder fails in turn: the cell is opened, its head and its record are read, and it is opened
// and its record is read again.
#[test]
fn failing_calls_of_a_cell(rt: HostRuntime) {
    let cell = one_line(&rt, rt.alloc(), 0xb2);
    let files: [FileOf<'_>; 1] = [("c.dt0", &cell)];
    let call = first_harmless(&rt, rt.alloc(), &files, (CHECKED, NOTHING), "-5\n");
    is_number(&rt, call, 6);
}

// Files whose names are those of tiles are refused for their length alone.
static NAMES: [Row<'static>; 8] = [
    (
        "gdalinfo N90E180.hgt",
        1,
        "",
        "ERROR 4: N90E180.hgt: malformed hgt (2)\n",
    ),
    (
        "gdalinfo S90W180.hgt",
        1,
        "",
        "ERROR 4: S90W180.hgt: malformed hgt (2)\n",
    ),
    (
        "gdalinfo d/n00w000.HGT",
        1,
        "",
        "ERROR 4: d/n00w000.HGT: malformed hgt (2)\n",
    ),
    (
        "gdalinfo s01e007_1.x.hgt",
        1,
        "",
        "ERROR 4: s01e007_1.x.hgt: malformed hgt (2)\n",
    ),
    (
        "gdalinfo N91E000.hgt",
        1,
        "",
        "ERROR 4: N91E000.hgt: malformed hgt (1)\n",
    ),
    (
        "gdalinfo N00E181.hgt",
        1,
        "",
        "ERROR 4: N00E181.hgt: malformed hgt (1)\n",
    ),
    (
        "gdallocationinfo -valonly N0E0000.hgt 0 0",
        1,
        "",
        "ERROR 4: N0E0000.hgt: malformed hgt (1)\n",
    ),
    (
        "gdallocationinfo -valonly N00E001.hgt 0 0",
        1,
        "",
        "ERROR 4: N00E001.hgt: no such file\n",
    ),
];

static TILES: [FileOf<'static>; 7] = [
    ("N90E180.hgt", b""),
    ("S90W180.hgt", b""),
    ("d/n00w000.HGT", b""),
    ("s01e007_1.x.hgt", b""),
    ("N91E000.hgt", b""),
    ("N00E181.hgt", b""),
    ("N0E0000.hgt", b""),
];

#[test]
fn names_of_tiles(rt: HostRuntime) {
    none_wrong(&rt, first_wrong(&rt, rt.alloc(), &TILES, &NAMES));
}

/// A tile of which one sample isn't 0: that in column 0 of the last line.
pub static TILE: [Part<'static>; 3] = [(&[0], 2_882_400), (&[0xff, 0xfe], 1), (&[0], 2_400)];

const TILE_REPORT: &str = "Driver: SRTMHGT
Files: S01W180.hgt
Size is 1201, 1201
Origin = (-180.000416666666667,0.000416666666667)
Pixel Size = (0.000833333333333,-0.000833333333333)
Corner Coordinates:
Upper Left  (-180.000416667, 0.000416667)
Lower Left  (-180.000416667, -1.000416667)
Upper Right (-178.999583333, 0.000416667)
Lower Right (-178.999583333, -1.000416667)
Band 1 Block=1201x1 Type=Int16
  NoData Value=-32768
";

// The centre of that pixel is what the name tells.
static CORNER: [Row<'static>; 2] = [
    ("gdalinfo S01W180.hgt", 0, TILE_REPORT, ""),
    (
        "gdallocationinfo -valonly S01W180.hgt 0.5 1200.5",
        0,
        "-2\n",
        "",
    ),
];

#[test]
fn a_tile(rt: HostRuntime) {
    let bytes = joined(&rt, rt.alloc(), &TILE);
    let files: [FileOf<'_>; 1] = [("S01W180.hgt", &bytes)];
    none_wrong(&rt, first_wrong(&rt, rt.alloc(), &files, &CORNER));
}

const HEADER: &[u8] = b"NROWS 2\nNCOLS 3\nNBANDS 2\n";

// The lengths of a file when it is opened first and again, the words, and the status, what is printed and what is told.
type Change<'a> = (u64, Option<u64>, &'a str, (u8, &'a str, &'a str));

static CHANGES: [Change<'static>; 8] = [
    (
        2_884_802,
        Some(25_934_402),
        "gdallocationinfo -valonly N00E000.hgt 1 1",
        (
            2,
            "",
            "ERROR 3: N00E000.hgt: length changed from 2884802 to 25934402\n",
        ),
    ),
    (
        2_884_802,
        Some(2_884_801),
        "gdallocationinfo -valonly N00E000.hgt 1 1",
        (
            2,
            "",
            "ERROR 3: N00E000.hgt: length changed from 2884802 to 2884801\n",
        ),
    ),
    (
        2_884_802,
        None,
        "gdallocationinfo -valonly N00E000.hgt 1 1",
        (
            2,
            "",
            "ERROR 3: N00E000.hgt: length changed from 2884802 to none\n",
        ),
    ),
    (
        2_884_802,
        None,
        "gdallocationinfo -valonly N00E000.hgt 1201 1",
        (0, "\n", ""),
    ),
    (
        12,
        Some(11),
        "gdallocationinfo -valonly a.bil 2 1",
        (2, "", "ERROR 3: a.bil: length changed from 12 to 11\n"),
    ),
    (
        12,
        Some(12),
        "gdallocationinfo -valonly a.bil 2 1",
        (0, "0\n0\n", ""),
    ),
    (
        12,
        Some(11),
        "gdal_translate -q a.bil out.bil",
        (2, "", "ERROR 3: a.bil: length changed from 12 to 11\n"),
    ),
    (
        12,
        None,
        "gdal_translate -q --workers 2 -b 2 a.bil out.bsq",
        (2, "", "ERROR 3: a.bil: length changed from 12 to none\n"),
    ),
];

// Whether this is said of a file that has these lengths when it is opened first and again, where nothing is published
// and no draft is left open.
fn changes_so<R: Threads + Sync + Abort>(rt: &R, alloc: Global, change: &Change<'_>) -> bool {
    let (first, again, line, (status, out, err)) = *change;
    let mut folder = Fickle {
        first: Some(first),
        again,
        header: HEADER,
        reads: 0,
        writes: 0,
        drafts: 0,
        published: 0,
    };
    let said = says_in(rt, alloc, &mut folder, &(line, status, out, err));
    said && folder.drafts == 0 && folder.published == 0
}

// The first of these of which something else is said.
fn first_wrong_change<R: Threads + Sync + Abort>(
    rt: &R,
    alloc: Global,
    changes: &[Change<'_>],
) -> Option<usize> {
    for (at, change) in changes.iter().enumerate() {
        if !changes_so(rt, alloc, change) {
            return Some(at);
        }
    }
    None
}

#[test]
fn changed_files(rt: HostRuntime) {
    none_wrong(&rt, first_wrong_change(&rt, rt.alloc(), &CHANGES));
}
