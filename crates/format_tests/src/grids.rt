use crate::tables::{all_hold, choice, count, none_wrong, number};
use ascii_grid::faults::GridFault;
use ascii_grid::head::GridHead;
use ascii_grid::row::{RowState, decode_more};
use ascii_grid::scanner::Scanner;
use ascii_grid::writing::{write_head, write_row};
use geotransform::{GeoTransform, Sample, Size, Ticks};
use std::alloc::{AllocError, Global};
use std::test::*;

/// Two rows of two values; the rows begin at bytes 53 and 58.
const GRID: &str = "ncols 2\nnrows\t2\nxllcenter 10\nyllcenter 20\ncellsize 2\n1\t-2\n30 4\n";

/// The head of a grid of one value, whose body begins at byte 51.
const HEAD: &str = "ncols 1\nnrows 1\nxllcorner 0\nyllcorner 0\ncellsize 1\n";

// Scans a text that comes in two pieces.
fn scan(alloc: Global, front: &[u8], back: &[u8]) -> Result<GridHead, GridFault> {
    let mut scanner = Scanner::new(alloc);
    scanner.feed(front)?;
    scanner.feed(back)?;
    scanner.finish()
}

// Whether a text in two pieces is the grid.
fn is_scanned(alloc: Global, front: &[u8], back: &[u8]) -> bool {
    match scan(alloc, front, back) {
        Ok(head) => {
            head.size == Size { w: 2, h: 2 }
                && Some(head.geo) == transform(9, 23, 2, -2)
                && head.nodata.is_none()
                && head.rows.as_slice() == [53u64, 58].as_slice()
        }
        Err(_) => false,
    }
}

// The first place at which the grid is cut and not scanned; None where there is none.
fn first_unscanned(alloc: Global, grid: &[u8]) -> Option<usize> {
    for cut in 0..=grid.len() {
        let (front, back) = grid.split_at(cut);
        if !is_scanned(alloc, front, back) {
            return Some(cut);
        }
    }
    None
}

// The edges of the lower left pixel are half a pixel from its centre.
#[test]
fn scans_each_cut(rt: HostRuntime) {
    none_wrong(&rt, first_unscanned(rt.alloc(), GRID.as_bytes()));
}

// The geotransform of whole units.
fn transform(ox: i128, oy: i128, dx: i128, dy: i128) -> Option<GeoTransform> {
    GeoTransform::new(units(ox)?, units(oy)?, units(dx)?, units(dy)?)
}

fn units(n: i128) -> Option<Ticks> {
    Ticks::new(n.checked_mul(Ticks::UNIT.get())?)
}

// The number of a text's fault, 0 for none, its place, and the text.
const FAULTS: &str = "\
    1 - |\
    1 -  \n|\
    1 - ncols 1|\
    1 - ncols 1 3.5|\
    1 - ncols|\
    1 - ncols 1 nrows 1 xllcorner 0 yllcorner 0 dx 1 7|\
    1 - ncols 1 nrows 1 xllcorner 0 yllcorner 0 dy 1 7|\
    0 - ncols 1 nrows 1 xllcorner 0 yllcorner 0 dx 1 dy 1 7|\
    1 - ncols 1 nrows 1 xllcorner 0 cellsize 1 7|\
    0 - NCOLS 1 NRows 1 XLLCORNER 0 yllCorner 0 CELLSIZE 1 nodata_VALUE 5 7|\
    0 - ncols\t1\r\nnrows\t1\r\nxllcorner\t0\r\nyllcorner\t0\r\ncellsize\t1\r\n7\r\n|\
    0 - \x0b\x0cncols 9 ncols 1 nrows 1 xllcorner 0 yllcorner 0 cellsize 1 7|\
    2 6 ncols 0|\
    2 6 ncols 1234567890|\
    2 6 ncols +1|\
    2 6 ncols 1.0|\
    6 - ncols 4194305 x|\
    4 - ncols 4194304 nrows 4194304 xllcorner 0 yllcorner 0 cellsize 1|\
    4 - ncols 4194304 nrows 4194304 xllcorner 0 yllcorner 0 cellsize 1 7|\
    2 10 xllcorner 1e12 |\
    2 10 yllcenter 5. |\
    2 9 cellsize 0|\
    2 3 dx -1|\
    2 3 dy 1e-17|\
    2 13 NODATA_value none|\
    2 0 cols 1|\
    2 0 cols|\
    2 6 ncols x|\
    6 - ncols 1 nrows 2 xllcorner 0 yllcorner 999999999999 cellsize 1 1 x|\
    4 - ncols 1 nrows 1 xllcorner 0 yllcorner 0 cellsize 1 |\
    4 - ncols 1 nrows 1 xllcorner 0 yllcorner 0 cellsize 1 dx|\
    2 51 ncols 1 nrows 1 xllcorner 0 yllcorner 0 cellsize 1 dz|\
    2 51 ncols 1 nrows 1 xllcorner 0 yllcorner 0 cellsize 1 x|\
    0 - ncols 1 nrows 1 xllcorner 0 yllcorner 0 cellsize 1 7|\
    0 - ncols 1 nrows 1 xllcorner 0 yllcorner 0 cellsize 1 +7|\
    0 - ncols 1 nrows 1 xllcorner 0 yllcorner 0 cellsize 1 -7|\
    0 - ncols 1 nrows 1 xllcorner 0 yllcorner 0 cellsize 1 007|\
    0 - ncols 1 nrows 1 xllcorner 0 yllcorner 0 cellsize 1 3.0|\
    0 - ncols 1 nrows 1 xllcorner 0 yllcorner 0 cellsize 1 -3.00|\
    0 - ncols 1 nrows 1 xllcorner 0 yllcorner 0 cellsize 1 2147483647|\
    0 - ncols 1 nrows 1 xllcorner 0 yllcorner 0 cellsize 1 -2147483648|\
    3 51 ncols 1 nrows 1 xllcorner 0 yllcorner 0 cellsize 1 3.5|\
    3 51 ncols 1 nrows 1 xllcorner 0 yllcorner 0 cellsize 1 1e2|\
    3 51 ncols 1 nrows 1 xllcorner 0 yllcorner 0 cellsize 1 .0|\
    3 51 ncols 1 nrows 1 xllcorner 0 yllcorner 0 cellsize 1 3.05|\
    2 51 ncols 1 nrows 1 xllcorner 0 yllcorner 0 cellsize 1 3.|\
    2 51 ncols 1 nrows 1 xllcorner 0 yllcorner 0 cellsize 1 7x|\
    2 51 ncols 1 nrows 1 xllcorner 0 yllcorner 0 cellsize 1 -|\
    2 51 ncols 1 nrows 1 xllcorner 0 yllcorner 0 cellsize 1 +.|\
    2 51 ncols 1 nrows 1 xllcorner 0 yllcorner 0 cellsize 1 0x1|\
    6 - ncols 1 nrows 1 xllcorner 0 yllcorner 0 cellsize 1 2147483648|\
    6 - ncols 1 nrows 1 xllcorner 0 yllcorner 0 cellsize 1 -2147483649|\
    6 - ncols 1 nrows 1 xllcorner 0 yllcorner 0 cellsize 1 99999999999999999999|\
    5 53 ncols 1 nrows 1 xllcorner 0 yllcorner 0 cellsize 1 7 8|\
    5 53 ncols 1 nrows 1 xllcorner 0 yllcorner 0 cellsize 1 7 x|\
    5 53 ncols 1 nrows 1 xllcorner 0 yllcorner 0 cellsize 1 7 3.5 |\
    2 51 ncols 1 nrows 1 xllcorner 0 yllcorner 0 cellsize 1 x 7";

fn fault_place(fault: GridFault) -> Option<i128> {
    Some(fault.place()? as i128)
}

// Whether a text has this fault.
fn is_fault(alloc: Global, text: &[u8], number: u32, place: Option<i128>) -> bool {
    match scan(alloc, text, b"") {
        Ok(_) => number == 0 && place.is_none(),
        Err(fault) => fault.number() as u32 == number && fault_place(fault) == place,
    }
}

fn is_judged(alloc: Global, row: &str) -> Option<bool> {
    let (number, rest) = count(row)?;
    let (place, text) = choice(rest)?;
    Some(is_fault(alloc, text.as_bytes(), number, place))
}

#[test]
fn tells_faults(rt: HostRuntime) {
    all_hold(&rt, rt.alloc(), FAULTS, is_judged);
}

const BROKEN: &str = "ncols 2\nnrows\t2\nxllcenter 10\nyllcenter 20\ncellsize 2\n1\t-2\n30 3.5\n";

// Whether two pieces have the fault of a token that is no integer.
fn is_broken(alloc: Global, front: &[u8], back: &[u8]) -> bool {
    match scan(alloc, front, back) {
        Ok(_) => false,
        Err(fault) => fault == GridFault::NotInteger(61),
    }
}

// The first place at which the text is cut and has another fault; None where there is none.
fn first_cut_fault(alloc: Global, text: &[u8]) -> Option<usize> {
    for cut in 0..=text.len() {
        let (front, back) = text.split_at(cut);
        if !is_broken(alloc, front, back) {
            return Some(cut);
        }
    }
    None
}

// One cut at each place changes no fault.
#[test]
fn cuts_change_no_fault(rt: HostRuntime) {
    none_wrong(&rt, first_cut_fault(rt.alloc(), BROKEN.as_bytes()));
}

// Whether a scanner takes so many zeros.
fn takes_zeros(scanner: &mut Scanner, zeros: u32) -> bool {
    for _ in 0..zeros {
        if scanner.feed(b"0").is_err() {
            return false;
        }
    }
    true
}

fn ended(scanner: Scanner) -> Result<(), GridFault> {
    match scanner.finish() {
        Ok(_) => Ok(()),
        Err(fault) => Err(fault),
    }
}

// How many zeros a token begins with, and what comes of them and a 7.
const TOKENS: [(u32, Result<(), GridFault>); 2] = [
    (63, Ok(())),
    (64, Err(GridFault::BadToken(51))),
];

// Whether that comes of a token of so many zeros and a 7.
fn ends_in(alloc: Global, zeros: u32, wanted: Result<(), GridFault>) -> bool {
    let mut scanner = Scanner::new(alloc);
    let _ = scanner.feed(HEAD.as_bytes());
    takes_zeros(&mut scanner, zeros)
        && scanner.feed(b"7").is_ok()
        && scanner.feed(b"\n") == wanted
        && ended(scanner) == wanted
}

// The first of these tokens that ends otherwise.
fn first_other_end(alloc: Global, tokens: &[(u32, Result<(), GridFault>)]) -> Option<usize> {
    for at in 0..tokens.len() {
        let (zeros, wanted) = tokens[at];
        if !ends_in(alloc, zeros, wanted) {
            return Some(at);
        }
    }
    None
}

#[test]
fn takes_64_bytes(rt: HostRuntime) {
    none_wrong(&rt, first_other_end(rt.alloc(), &TOKENS));
}

fn is_refused(alloc: Global) -> bool {
    let mut scanner = Scanner::new(alloc);
    let refused = Err(GridFault::BadToken(0));
    scanner.feed(b"cols 1 ") == refused
        && scanner.feed(HEAD.as_bytes()) == refused
        && ended(scanner) == refused
}

#[test]
fn stays_refused(rt: HostRuntime) {
    assert!(rt; is_refused(rt.alloc()));
}

// The NODATA, and what stands behind HEAD.
const NODATA: &str = "\
    -9999 NODATA_value -9999 7|\
    1000 NODATA_value 1e3 7|\
    5 NODATA_value 5.0 7|\
    - NODATA_value 0.5 7|\
    - NODATA_value 2147483648 7|\
    - NODATA_value NaN 7|\
    - NODATA_value 5 nodata_value nan 7";

// Whether a grid has this NODATA.
fn has_nodata(alloc: Global, row: &str) -> Option<bool> {
    let (wanted, text) = choice(row)?;
    match scan(alloc, HEAD.as_bytes(), text.as_bytes()) {
        Ok(head) => Some(head.nodata == wanted),
        Err(_) => None,
    }
}

#[test]
fn reads_nodata(rt: HostRuntime) {
    all_hold(&rt, rt.alloc(), NODATA, has_nodata);
}

// The origin and the sizes in units, and what stands behind HEAD.
const PLACES: &str = "\
    0 1 1 -1 7|\
    0 1 1 -1 dx 3 dy 4 7|\
    3 4 4 -4 cellsize 2 cellsize 4 xllcenter 5 7|\
    0 6 2 -2 yllcenter 5 cellsize 2 7|\
    6 9 1 -1 xllcenter 5 yllcenter 5 yllcorner 8 xllcorner 6 7";

// Whether a grid lies there.
fn lies_at(alloc: Global, text: &str, geo: GeoTransform) -> bool {
    match scan(alloc, HEAD.as_bytes(), text.as_bytes()) {
        Ok(head) => head.geo == geo,
        Err(_) => false,
    }
}

fn is_placed(alloc: Global, row: &str) -> Option<bool> {
    let (ox, rest) = number(row)?;
    let (oy, rest) = number(rest)?;
    let (dx, rest) = number(rest)?;
    let (dy, text) = number(rest)?;
    Some(lies_at(alloc, text, transform(ox, oy, dx, dy)?))
}

#[test]
fn places_grids(rt: HostRuntime) {
    all_hold(&rt, rt.alloc(), PLACES, is_placed);
}

// Reads a row from bytes in two pieces and, where they end within it, an empty one.
fn read_row(front: &[u8], back: &[u8], out: &mut [i32]) {
    let mut state = RowState::new();
    if !decode_more(&mut state, front, out) && !decode_more(&mut state, back, out) {
        decode_more(&mut state, b"", out);
    }
}

// The first place at which these bytes are cut and give another row; None where there is none.
fn first_miscut(rest: &[u8], wanted: [i32; 2]) -> Option<usize> {
    for cut in 1..rest.len() {
        let (front, back) = rest.split_at(cut.min(rest.len()));
        let mut out = [9; 2];
        read_row(front, back, &mut out);
        if out != wanted {
            return Some(cut);
        }
    }
    None
}

// The first cut of the first row of the grid that gives another row, or else of the second.
fn first_miscut_row(grid: &[u8]) -> Option<usize> {
    let (_, first) = grid.split_at(53.min(grid.len()));
    let (_, second) = grid.split_at(58.min(grid.len()));
    match first_miscut(first, [1, -2]) {
        Some(cut) => Some(cut),
        None => first_miscut(second, [30, 4]),
    }
}

// The second piece isn't empty where it is asked for.
#[test]
fn reads_rows_of_each_cut(rt: HostRuntime) {
    none_wrong(&rt, first_miscut_row(GRID.as_bytes()));
}

// What is read of a row of three values, and two pieces of it with `;` between them.
const ROWS: &str = "\
    1 2 34 1 2 3;4 5|\
    1 2 0 1 2;|\
    1 0 0  \t1;\n|\
    0 0 0 x 3.5 2147483648 ;|\
    -2147483648 3 2 -2147483648 3.0 +;2 9|\
    0 0 0 ;1 2 3 ";

// What is read of a row of three values in two pieces.
fn row_of(front: &[u8], back: &[u8]) -> [i32; 3] {
    let mut out = [9; 3];
    read_row(front, back, &mut out);
    out
}

fn is_row(_: Global, row: &str) -> Option<bool> {
    let (first, rest) = number(row)?;
    let (second, rest) = number(rest)?;
    let (third, pieces) = number(rest)?;
    let (front, back) = pieces.split_once(';')?;
    let [a, b, c] = row_of(front.as_bytes(), back.as_bytes());
    Some(a as i128 == first && b as i128 == second && c as i128 == third)
}

#[test]
fn reads_rows(rt: HostRuntime) {
    all_hold(&rt, rt.alloc(), ROWS, is_row);
}

// The height of a pixel of a grid whose pixels are two units wide, the NODATA, and the head that is written. A grid
// with no height lies nowhere.
const HEADS: &str = "\
    -2 - ncols        2\nnrows        2\nxllcorner    9\nyllcorner    19\ncellsize     2\n|\
    -3 -7 ncols        2\nnrows        2\nxllcorner    9\nyllcorner    17\ndx           2\ndy           3\n\
    NODATA_value -7\n|\
    - - ncols        2\nnrows        2\nxllcorner    0\nyllcorner    0\ncellsize     1\n";

// Whether this is written of a head of two columns and two lines.
fn is_head(
    alloc: Global,
    geo: Option<&GeoTransform>,
    nodata: Option<Sample>,
    wanted: &str,
) -> bool {
    let mut text = Vec::new(alloc);
    write_head(Size { w: 2, h: 2 }, geo, nodata, &mut text).is_ok()
        && text.as_slice() == wanted.as_bytes()
}

fn is_written(alloc: Global, row: &str) -> Option<bool> {
    let (height, rest) = choice(row)?;
    let (nodata, wanted) = choice(rest)?;
    let Some(height) = height else {
        return Some(is_head(alloc, None, nodata, wanted));
    };
    let geo = transform(9, 23, 2, height)?;
    Some(is_head(alloc, Some(&geo), nodata, wanted))
}

#[test]
fn writes_heads(rt: HostRuntime) {
    all_hold(&rt, rt.alloc(), HEADS, is_written);
}

const WRITTEN: &str =
    "ncols        2\nnrows        2\nxllcorner    9\nyllcorner    19\ncellsize     2\n1 -2\n30 4\n";

// Writes a grid.
fn write(geo: &GeoTransform, text: &mut Vec<u8>) -> Result<(), AllocError> {
    write_head(Size { w: 2, h: 2 }, Some(geo), None, text)?;
    write_row(&[1, -2], text)?;
    write_row(&[30, 4], text)
}

// Whether a text is a grid of this size that lies there.
fn is_grid(alloc: Global, text: &[u8], geo: &GeoTransform) -> bool {
    match scan(alloc, text, b"") {
        Ok(head) => head.size == Size { w: 2, h: 2 } && head.geo == *geo,
        Err(_) => false,
    }
}

// Whether a grid that lies there is written so, and read again.
fn is_read_again(alloc: Global, geo: &GeoTransform) -> bool {
    let mut text = Vec::new(alloc);
    write(geo, &mut text).is_ok()
        && text.as_slice() == WRITTEN.as_bytes()
        && is_grid(alloc, &text, geo)
}

fn writes_grid(alloc: Global) -> bool {
    match transform(9, 23, 2, -2) {
        Some(geo) => is_read_again(alloc, &geo),
        None => false,
    }
}

#[test]
fn writes_a_grid(rt: HostRuntime) {
    assert!(rt; writes_grid(rt.alloc()));
}
