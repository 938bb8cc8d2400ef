use crate::tables::{all_hold, choice, count, number};
use geotransform::{GeoTransform, Sample, Size, Ticks, print_decimal};
use hgt_tiles::corner::{Corner, name_of, read_name};
use hgt_tiles::samples::{decode_row, encode_row};
use hgt_tiles::tile_places::{fit, side, transform};
use std::alloc::Global;
use std::test::*;

// The degrees that a name tells, and the name.
const NAMES: &str = "\
    0 0 N00E000|\
    0 0 S00W000|\
    90 180 N90E180|\
    -90 -180 S90W180|\
    37 -122 n37w122|\
    -1 7 s01E007|\
    47 11 N47E011.SRTMGL1|\
    47 11 N47E0115|\
    - - N91E000|\
    - - N00E181|\
    - - N47E01|\
    - - |\
    - - E011N47|\
    - - N7E0110|\
    - - N+7E011|\
    - - N47-011";

// The degrees of the corner that a name tells, where it tells one.
fn corner_of(name: &str) -> (Option<i128>, Option<i128>) {
    match read_name(name) {
        Some(corner) => (Some(corner.lat as i128), Some(corner.lon as i128)),
        None => (None, None),
    }
}

fn is_read(_: Global, row: &str) -> Option<bool> {
    let (lat, rest) = choice(row)?;
    let (lon, name) = choice(rest)?;
    let corner = corner_of(name);
    Some(corner.0 == lat && corner.1 == lon)
}

#[test]
fn reads_names(rt: HostRuntime) {
    all_hold(&rt, rt.alloc(), NAMES, is_read);
}

// The degrees of a corner, and its name.
const CORNERS: &str = "\
    0 0 N00E000|\
    -1 -180 S01W180|\
    90 7 N90E007|\
    -56 179 S56E179";

fn corner_at(lat: i128, lon: i128) -> Option<Corner> {
    if lat < -90 || lat > 90 || lon < -180 || lon > 180 {
        return None;
    }
    Some(Corner {
        lat: lat as i32,
        lon: lon as i32,
    })
}

fn is_named(_: Global, row: &str) -> Option<bool> {
    let (lat, rest) = number(row)?;
    let (lon, wanted) = number(rest)?;
    let name = name_of(corner_at(lat, lon)?);
    Some(name.as_slice() == wanted.as_bytes())
}

#[test]
fn writes_names(rt: HostRuntime) {
    all_hold(&rt, rt.alloc(), CORNERS, is_named);
}

// The columns of a tile, and the length of its file.
const LENGTHS: &str = "\
    1201 2884802|\
    3601 25934402|\
    - 2884801|\
    - 0";

fn columns_of(len: u64) -> Option<i128> {
    Some(side(len)? as i128)
}

fn is_sized(_: Global, row: &str) -> Option<bool> {
    let (columns, len) = choice(row)?;
    Some(columns_of(len.parse::<u64>().ok()?) == columns)
}

#[test]
fn knows_lengths(rt: HostRuntime) {
    all_hold(&rt, rt.alloc(), LENGTHS, is_sized);
}

// Whether a value is printed so with 15 digits behind the point.
fn is_printed(alloc: Global, value: Ticks, wanted: &str) -> bool {
    let mut text = Vec::new(alloc);
    print_decimal(value, 15, &mut text).is_ok() && text.as_slice() == wanted.as_bytes()
}

// Whether a tile at 1 degree south, 180 degrees west has this place.
fn is_placed(alloc: Global) -> bool {
    let Some(corner) = read_name("S01W180") else {
        return false;
    };
    let geo = transform(corner, 1201);
    is_printed(alloc, geo.ox, "-180.000416666666667")
        && is_printed(alloc, geo.oy, "0.000416666666667")
        && is_printed(alloc, geo.dx, "0.000833333333333")
        && is_printed(alloc, geo.dy, "-0.000833333333333")
}

#[test]
fn places_a_tile(rt: HostRuntime) {
    assert!(rt; is_placed(rt.alloc()));
}

/// The transform moved by so many ticks to the east.
fn moved(geo: GeoTransform, ticks: i128) -> Option<GeoTransform> {
    let ox = Ticks::new(geo.ox.get().checked_add(ticks)?)?;
    GeoTransform::new(ox, geo.oy, geo.dx, geo.dy)
}

// A thousandth of 1/3600 degree is 50,000,000,000 ticks. So many ticks to the east, so many columns, and whether that
// fits.
const MOVES: &str = "\
    0 3601 fits|\
    50000000000 3601 fits|\
    -50000000000 3601 fits|\
    50000000001 3601 not|\
    -50000000001 3601 not|\
    0 3600 not|\
    0 1201 not";

// The tile that a raster of 3601 lines is, whose place is that of the tile at 47 degrees north, 11 degrees east, moved
// so far.
fn fitting(ticks: i128, w: u32) -> Option<Corner> {
    let geo = moved(transform(read_name("N47E011")?, 3601), ticks)?;
    fit(Size { w, h: 3601 }, &geo).ok()
}

fn fits_so(_: Global, row: &str) -> Option<bool> {
    let (ticks, rest) = number(row)?;
    let (w, wanted) = count(rest)?;
    match fitting(ticks, w) {
        Some(corner) => Some(wanted == "fits" && read_name("N47E011") == Some(corner)),
        None => Some(wanted == "not"),
    }
}

// Whether the tile that would lie beyond the pole doesn't fit.
fn ends_at_the_pole() -> bool {
    match read_name("N90E000") {
        Some(pole) => fit(Size { w: 1201, h: 1201 }, &transform(pole, 1201)).is_err(),
        None => false,
    }
}

#[test]
fn fits_within_a_thousandth(rt: HostRuntime) {
    all_hold(&rt, rt.alloc(), MOVES, fits_so);
    assert!(rt; ends_at_the_pole());
}

const BYTES: [u8; 8] = [0xFF, 0xFF, 0x80, 0x00, 0x7F, 0xFF, 0x01, 0x02];

const SAMPLES: [Sample; 4] = [-1, -32_768, 32_767, 258];

fn are_read() -> bool {
    let mut read = [0; 4];
    decode_row(&BYTES, &mut read);
    read == SAMPLES
}

fn are_written() -> bool {
    let mut written = [0; 8];
    encode_row(&SAMPLES, &mut written);
    written == BYTES
}

#[test]
fn reads_and_writes_rows(rt: HostRuntime) {
    assert!(rt; are_read() && are_written());
}
