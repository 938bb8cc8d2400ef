ghost use Rattle.std.specs.Prelude.{◌<◌, ◌≤◌, ◌^◌, unsigned_abs};
ghost use Rattle.geotransform.specs.Geo.{IsNear, IsRaster};

use crate::tables::{all_hold, choice, count, joined, none_wrong, number};
use geotransform::decimal::{
    is_decimal, is_negative_decimal, read_decimal, read_number, read_whole,
};
use geotransform::print::{print_decimal, print_short};
use geotransform::types::{PixelType, Sample, Size, clamp, holds};
use geotransform::{GeoTransform, Ticks, round16};
use std::alloc::Global;
use std::test::*;

// The values of the four tables were computed outside this program, with the exact fractions of
// Python's standard library: a regular expression of the form, the digits over a power of ten, and
// half away from zero on the fraction. The texts that are refused stand between them.

// The ticks of a text.
const DECIMALS: &str = "\
    18 1e-16|\
    18 5e-17|\
    0 4e-17|\
    -18 -5e-17|\
    0 -4e-17|\
    0 4.9999999999999999999999999e-17|\
    90000000000000000 .5|\
    -45000000000000000 -.25|\
    22500000000000000 +.125|\
    149999999999994 8.3333333333333339e-04|\
    -17999250000000001200 -99.99583333333334|\
    1499999999999400 0.00833333333333|\
    0 0|\
    0 -0|\
    0 +0.0|\
    2160000000000000000 00012|\
    2250000000000000000 +12.50|\
    18000000000000000000 1E2|\
    18000000000000000000 1e+2|\
    1800000000000000 1e-2|\
    18000000000000000000 1e002|\
    -2700000000000 -1.5E-005|\
    18 0.00000000000000005|\
    -18 -0.00000000000000005|\
    36 0.00000000000000015|\
    -36 -0.00000000000000015|\
    54 2.5e-16|\
    -54 -2.5e-16|\
    36 2.4999999999999999e-16|\
    -180000000000000054 -1.00000000000000025|\
    0 0e999|\
    0 -0.0e-999|\
    0 1e-999|\
    0 -9.9e-999|\
    - 1e999|\
    - -9e999|\
    18000000000000000000000000000 1e11|\
    - 1e12|\
    - -1e12|\
    179999999999999999999999999982 999999999999.9999999999999999|\
    -179999999999999999999999999982 -999999999999.9999999999999999|\
    179999999999999999999999999982 999999999999.99999999999999994|\
    - 999999999999.99999999999999995|\
    - -999999999999.99999999999999995|\
    19999999999999998 0.11111111111111111111111111111111111111111111111111111111111111|\
    - 0.111111111111111111111111111111111111111111111111111111111111111|\
    180000000000000000 100000000000000000000000000000000000000000000000000000000000e-59|\
    -140000000000000004 -77777777777777777777777777777777777777777777777777777777777e-59|\
    18000000000000000000000000000 .00000000000000000000000000000000000000000000000000000000001e70|\
    - .00000000000000000000000000000000000000000000000000000000001e71|\
    18000000000000000000000000000 999999999999999999999999999999999999999999999999999999999999e-49|\
    - 999999999999999999999999999999999999999999999999999999999999e-48|\
    0 0000000000000000000000000000000000000000000000000000000000000000|\
    - 00000000000000000000000000000000000000000000000000000000000000000|\
    0 44444444444444444444444444444444444444444444444445e-66|\
    0 -44444444444444444444444444444444444444444444444445e-66|\
    0 555555555555555555555555555555555555555555555555555555555555e-77|\
    - |\
    - .|\
    - -|\
    - +|\
    - 5.|\
    - -.|\
    - e5|\
    - .e5|\
    - 1e|\
    - 1e+|\
    - 1e0002|\
    - 1e1234|\
    - 1x|\
    -  1|\
    - 1 |\
    - --1|\
    - 1.2.3|\
    - 1e1.5|\
    - 0x10|\
    - 1,5|\
    - nan";

// The whole number of a text.
const WHOLES: &str = "\
    0 0|\
    0 -0|\
    7 7|\
    7 +7|\
    -9999 -9999.000|\
    12 1200e-2|\
    - 1201e-2|\
    -1200 -12e2|\
    - 0.5|\
    - 5e-1|\
    5 50e-1|\
    99999999999999999999 99999999999999999999|\
    -99999999999999999999 -99999999999999999999|\
    - 100000000000000000000|\
    - 1e20|\
    10000000000000000000 1e19|\
    -10000000000000000000 -1e19|\
    99999999999999999999 99999999999999999999.0|\
    1 0.0000000000000000001e19|\
    1234567890123456789 12345678901234567890e-1|\
    0 0e999|\
    0 0e-999|\
    - 1e-999|\
    - 1e999|\
    1 100000000000000000000000000000000000000000000000000000000000e-59|\
    99999999999999999999 0000000000000000000000000000000000000000000099999999999999999999|\
    - 00000000000000000000000000000000000000000000099999999999999999999|\
    - |\
    - -|\
    - 5.|\
    - 1e0002|\
    - 12a";

// Ticks, a number of places, and what is printed with so many behind the `=` that stands.
const FIXED: &str = "\
    -1 3 =0.000|\
    1 0 =0|\
    0 0 =0|\
    0 16 =0.0000000000000000|\
    -90000000000000000 0 =-1|\
    90000000000000000 0 =1|\
    89999999999999999 0 =0|\
    -89999999999999999 0 =0|\
    180000000000000000 0 =1|\
    180000000000000000 1 =1.0|\
    -180000000000000000 16 =-1.0000000000000000|\
    89999999999999 3 =0.000|\
    90000000000000 3 =0.001|\
    -90000000000000 3 =-0.001|\
    -89999999999999 3 =0.000|\
    9 16 =0.0000000000000001|\
    8 16 =0.0000000000000000|\
    -9 16 =-0.0000000000000001|\
    -8 16 =0.0000000000000000|\
    27 16 =0.0000000000000002|\
    -27 16 =-0.0000000000000002|\
    26 16 =0.0000000000000001|\
    -17999250000000001200 9 =-99.995833333|\
    -17999250000000001200 15 =-99.995833333333340|\
    -1800000000000000000 2 =-10.00|\
    149999999999994 15 =0.000833333333333|\
    9999999999999999999999999999999999999 16 =55555555555555555555.5555555555555556|\
    -9999999999999999999999999999999999999 16 =-55555555555555555555.5555555555555556|\
    9999999999999999999999999999999999999 0 =55555555555555555556|\
    179999999999910000000000000000 0 =1000000000000|\
    -18000000000000000900 15 =-100.000000000000005";

// Ticks, and what is printed with as few places as serve.
const SHORT: &str = "\
    0 0|\
    1 0|\
    8 0|\
    9 0.0000000000000001|\
    -9 -0.0000000000000001|\
    -8 0|\
    18 0.0000000000000001|\
    -18 -0.0000000000000001|\
    180000000000000000 1|\
    -180000000000000000 -1|\
    90000000000000000 0.5|\
    -45000000000000000 -0.25|\
    1800000000000000000 10|\
    -17999250000000001200 -99.99583333333334|\
    1499999999999400 0.00833333333333|\
    149999999999994 0.0008333333333333|\
    9999999999999999999999999999999999999 55555555555555555555.5555555555555556|\
    -9999999999999999999999999999999999999 -55555555555555555555.5555555555555556|\
    179999999999999999999999999982 999999999999.9999999999999999|\
    -179999999999999999999999999982 -999999999999.9999999999999999";

fn ticks_of(text: &str) -> Option<i128> {
    Some(read_decimal(text.as_bytes())?.get())
}

fn is_read(_: Global, row: &str) -> Option<bool> {
    let (ticks, text) = choice(row)?;
    Some(ticks_of(text) == ticks)
}

fn is_whole(_: Global, row: &str) -> Option<bool> {
    let (whole, text) = choice(row)?;
    Some(read_whole(text.as_bytes()) == whole)
}

#[test]
fn reads_decimals(rt: HostRuntime) {
    all_hold(&rt, rt.alloc(), DECIMALS, is_read);
    all_hold(&rt, rt.alloc(), WHOLES, is_whole);
}

fn are_told() -> bool {
    is_decimal(b"1e999")
        && !is_decimal(b"5.")
        && is_negative_decimal(b"-1e-999")
        && !is_negative_decimal(b"-0.0e5")
}

#[test]
fn tells_decimals(rt: HostRuntime) {
    assert!(rt; are_told());
}

// Whether the longest number is read, and a longer one isn't.
fn reads_longest() -> bool {
    read_number(b"000000000000000012") == Some(12) && read_number(b"0000000000000000012").is_none()
}

#[test]
fn reads_numbers(rt: HostRuntime) {
    assert!(rt; reads_longest());
}

// Whether a value is printed so behind what stands, with so many places.
fn is_printed(alloc: Global, row: &str) -> Option<bool> {
    let (value, rest) = number(row)?;
    let (places, wanted) = count(rest)?;
    if places > 16 {
        return None;
    }
    let mut out = joined(alloc, &[b"="]).ok()?;
    let done = print_decimal(ticks(value), places, &mut out);
    Some(done.is_ok() && out.as_slice() == wanted.as_bytes())
}

#[test]
fn prints_decimals(rt: HostRuntime) {
    all_hold(&rt, rt.alloc(), FIXED, is_printed);
}

// Whether a value is printed so with as few places as serve.
fn is_short(alloc: Global, row: &str) -> Option<bool> {
    let (value, wanted) = number(row)?;
    let mut out = Vec::new(alloc);
    let done = print_short(ticks(value), &mut out);
    Some(done.is_ok() && out.as_slice() == wanted.as_bytes())
}

#[test]
fn prints_short_decimals(rt: HostRuntime) {
    all_hold(&rt, rt.alloc(), SHORT, is_short);
}

/// So many ticks, or one unit, which no table expects in their place.
fn ticks(n: i128) -> Ticks {
    Ticks::new(n).unwrap_or(Ticks::UNIT)
}

// A type, its name, its name in another case, and the least and the greatest number of it.
type Kind = (PixelType, &'static str, &'static str, Sample, Sample);

const KINDS: [Kind; 8] = [
    (PixelType::Byte, "Byte", "bYTE", 0, 255),
    (PixelType::Int8, "Int8", "iNT8", -128, 127),
    (PixelType::UInt16, "UInt16", "uint16", 0, 65_535),
    (PixelType::Int16, "Int16", "INT16", -32_768, 32_767),
    (PixelType::UInt32, "UInt32", "uInt32", 0, 4_294_967_295),
    (
        PixelType::Int32,
        "Int32",
        "int32",
        -2_147_483_648,
        2_147_483_647,
    ),
    (
        PixelType::UInt64,
        "UInt64",
        "uINT64",
        0,
        18_446_744_073_709_551_615,
    ),
    (
        PixelType::Int64,
        "Int64",
        "INT64",
        -9_223_372_036_854_775_808,
        9_223_372_036_854_775_807,
    ),
];

// Whether a type has this name, and is read of it.
fn has_name(kind: PixelType, name: &str, other_case: &str) -> bool {
    kind.name() == name
        && PixelType::read_name(name.as_bytes(), false) == Some(kind)
        && PixelType::read_name(other_case.as_bytes(), true) == Some(kind)
        && PixelType::read_name(other_case.as_bytes(), false).is_none()
}

// Whether these are the least and the greatest number of a type.
fn has_range(kind: PixelType, least: Sample, greatest: Sample) -> bool {
    clamp(kind, i128::MIN) == least
        && clamp(kind, i128::MAX) == greatest
        && clamp(kind, 77) == 77
        && holds(kind, least)
        && holds(kind, greatest)
        && !holds(kind, least.saturating_sub(1))
        && !holds(kind, greatest.saturating_add(1))
}

// The first of these types that has another name or another range.
fn wrong_kind(kinds: &[Kind]) -> Option<usize> {
    for at in 0..kinds.len() {
        let (kind, name, other_case, least, greatest) = kinds[at];
        if !has_name(kind, name, other_case) || !has_range(kind, least, greatest) {
            return Some(at);
        }
    }
    None
}

// What is no type's name.
const NO_NAMES: &str = "\
    |\
    byte |\
    Float32|\
    UInt1|\
    UInt166|\
    UInt8|\
    Int 8|\
    Int644";

fn is_no_name(_: Global, text: &str) -> Option<bool> {
    Some(PixelType::read_name(text.as_bytes(), true).is_none())
}

#[test]
fn keeps_types(rt: HostRuntime) {
    none_wrong(&rt, wrong_kind(&KINDS));
    all_hold(&rt, rt.alloc(), NO_NAMES, is_no_name);
}

fn geo(ox: i128, oy: i128, dx: i128, dy: i128) -> Option<GeoTransform> {
    GeoTransform::new(ticks(ox), ticks(oy), ticks(dx), ticks(dy))
}

const FAR: i128 = 180_000_000_000_000_000_000_000_000_000;

fn is_told(ox: i128, oy: i128, dx: i128, dy: i128) -> bool {
    geo(ox, oy, dx, dy).is_some()
}

// Whether geotransforms end where they can't be told.
fn are_bounded() -> bool {
    is_told(1 - FAR, FAR - 1, FAR - 1, 1 - FAR)
        && !is_told(0, FAR, 1, -1)
        && !is_told(0, 0, 0, -1)
        && !is_told(0, 0, 1, 0)
        && !is_told(0, 0, -FAR, -1)
}

// Whether the corner of a pixel lies there.
fn has_corner(geo: &GeoTransform, x: i64, y: i64, place: (i128, i128)) -> bool
    requires x { unsigned_abs x ≤ 16777216 }
    requires y { unsigned_abs y ≤ 16777216 }
{
    let (px, py) = geo.corner(x, y);
    px.get() == place.0 && py.get() == place.1
}

// Whether the corners of pixels lie there.
fn has_corners(geo: &GeoTransform) -> bool {
    let far = (
        -25_183_823_999_989_933_670_400,
        25_182_023_999_989_933_670_400,
    );
    let near = (-10_800_000_000_002_880_000, 7_200_000_000_003_600_000);
    has_corner(geo, 4800, 6000, near) && has_corner(geo, -16_777_216, -16_777_216, far)
}

// Whether a place lies in this pixel.
fn lies_in(geo: &GeoTransform, x: Ticks, y: Ticks, pixel: (i128, i128)) -> bool
    requires x { IsNear x }
    requires y { IsNear y }
{
    let (column, line) = geo.locate(x, y);
    column == pixel.0 && line == pixel.1
}

// Whether places lie in these pixels.
fn locates(geo: &GeoTransform) -> bool {
    let far = (120_000_000_012_048, 120_000_000_010_848);
    lies_in(geo, geo.ox, geo.oy, (0, 0))
        && lies_in(
            geo,
            Ticks::of(-18_000_000_000_000_000_001),
            Ticks::of(16_200_000_000_000_000_001),
            (-1, -1),
        )
        && lies_in(
            geo,
            Ticks::of(-17_998_500_000_000_000_601),
            Ticks::of(16_198_500_000_000_000_601),
            (0, 0),
        )
        && lies_in(
            geo,
            Ticks::of(-17_998_500_000_000_000_600),
            Ticks::of(16_198_500_000_000_000_600),
            (1, 1),
        )
        && lies_in(geo, Ticks::of(FAR - 1), Ticks::of(1 - FAR), far)
}

#[test]
fn bounds_places(rt: HostRuntime) {
    assert!(rt; are_bounded());
}

// Whether the places of a raster's pixels are found.
fn are_found() -> bool {
    match geo(
        -18_000_000_000_000_000_000,
        16_200_000_000_000_000_000,
        1_499_999_999_999_400,
        -1_499_999_999_999_400,
    ) {
        Some(geo) => has_corners(&geo) && locates(&geo),
        None => false,
    }
}

#[test]
fn finds_places(rt: HostRuntime) {
    assert!(rt; are_found());
}

// Whether ticks are rounded to the nearest that have sixteen places, half away from zero.
fn are_rounded() -> bool {
    round16(Ticks::of(9)).get() == 18
        && round16(Ticks::of(-9)).get() == -18
        && round16(Ticks::of(-8)).get() == 0
}

#[test]
fn rounds_ticks(rt: HostRuntime) {
    assert!(rt; are_rounded());
}

type Numbers = (i128, i128, i128, i128);

fn window(of: Numbers, ul: (i128, i128), lr: (i128, i128)) -> Option<Numbers>
    requires ul { (unsigned_abs ul.0 < 10 ^ 6) × (unsigned_abs ul.1 < 10 ^ 6) }
    requires lr { (unsigned_abs lr.0 < 10 ^ 6) × (unsigned_abs lr.1 < 10 ^ 6) }
{
    let geo = geo(of.0, of.1, of.2, of.3)?;
    Some(geo.window_of(
        Ticks::of(ul.0),
        Ticks::of(ul.1),
        Ticks::of(lr.0),
        Ticks::of(lr.1),
    ))
}

fn cut(of: Numbers, src: Size, out: Size) -> Option<Numbers>
    requires src { IsRaster src }
    requires out { IsRaster out }
{
    let geo = geo(of.0, of.1, of.2, of.3)?;
    let part = geo.cut(3, -4, src, out)?;
    Some((part.ox.get(), part.oy.get(), part.dx.get(), part.dy.get()))
}

fn size(w: u32, h: u32) -> Size
    requires { (0 < w) × (w ≤ 4194304) × (0 < h) × (h ≤ 4194304) }
    ensures { IsRaster result }
{
    Size { w, h }
}

// Whether windows from the north and from the south are cut so.
fn are_windows() -> bool {
    let north = (7, -5, 1000, -1000);
    let south = (-7, 5, -1000, 1000);
    window(north, (6, -4), (1505, -1503)) == Some((0, 0, 1, 1))
        && window(north, (5, -3), (1506, -1504)) == Some((-1, -1, 2, 2))
        && window(north, (1006, -1004), (1007, -1005)) == Some((1, 1, 0, 0))
        && window(south, (-6, 4), (-1505, 1503)) == Some((0, 0, 1, 1))
        && window(south, (-5, 3), (-1506, 1504)) == Some((-1, -1, 2, 2))
}

// Whether the pixels of a cut are so wide and high.
fn are_cut() -> bool {
    let north = (7, -5, 1000, -1000);
    let fine = (7, -5, 1, -1);
    let wide = (0, 0, 60_000_000_000_000_000_000_000_000_000, -1);
    cut(north, size(1, 1), size(2, 2)) == Some((3007, 3995, 500, -500))
        && cut(fine, size(1, 1), size(2, 2)) == Some((10, -1, 1, -1))
        && cut(fine, size(3, 3), size(2, 2)) == Some((10, -1, 2, -2))
        && cut(fine, size(1, 1), size(3, 2)).is_none()
        && cut(fine, size(1, 1), size(2, 3)).is_none()
        && cut(wide, size(1, 1), size(1, 1)).is_none()
}

#[test]
fn cuts_windows(rt: HostRuntime) {
    assert!(rt; are_windows() && are_cut());
}
