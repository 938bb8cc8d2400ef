// Which rasters are cells, by the levels, the zones of longitude and the places of their outer posts.
ghost use Rattle.std.specs.Prelude.{IfSome};
ghost use Rattle.dted_records.specs.Fit.{IsPlain};

use crate::plans::none_wrong;
use dted_records::{DtedHead, fit};
use geotransform::{GeoTransform, Size, Ticks};
use std::test::*;

/// A degree, and half a tenth of an arc second, in ticks.
const DEGREE: i128 = 180_000_000_000_000_000;

const HALF_TENTH: i128 = 2_500_000_000_000;

/// The degrees of the lower left post of a raster, and its latitude and longitude steps in tenths of an arc
/// second.
#[derive(Clone, Copy)]
pub struct Posts {
    pub lat: i16,
    pub lon: i16,
    pub lat_step: i16,
    pub lon_step: i16,
}

/// Ticks by which a raster is moved, its columns are widened, and its lines, whose spacing is below 0, are thinned.
#[derive(Clone, Copy)]
pub struct Moved {
    pub ox: i64,
    pub oy: i64,
    pub dx: i64,
    pub dy: i64,
}

/// A raster that isn't moved.
pub const STILL: Moved = Moved {
    ox: 0,
    oy: 0,
    dx: 0,
    dy: 0,
};

/// So many whole degrees and half tenths of an arc second, and some ticks.
fn place(degrees: i32, half_tenths: i32, ticks: i64) -> Option<Ticks> {
    let whole = (degrees as i128).saturating_mul(DEGREE);
    let part = (half_tenths as i128).saturating_mul(HALF_TENTH);
    Ticks::new(whole.saturating_add(part).saturating_add(ticks as i128))
}

/// The geotransform of a raster whose pixels have the posts as their centres.
pub fn raster(posts: Posts, moved: Moved) -> Option<GeoTransform> {
    let ox = place(posts.lon as i32, -(posts.lon_step as i32), moved.ox)?;
    let oy = place(posts.lat as i32 + 1, posts.lat_step as i32, moved.oy)?;
    let dx = place(0, 2 * posts.lon_step as i32, moved.dx)?;
    let dy = place(0, -2 * posts.lat_step as i32, moved.dy)?;
    GeoTransform::new(ox, oy, dx, dy)
}

/// The head of the cell of this level that the raster is, or none.
pub fn cell(level: u32, size: Size, posts: Posts, moved: Moved) -> Option<DtedHead>
    ensures { IfSome result IsPlain }
{
    if level > 2 {
        return None;
    }
    let geo = raster(posts, moved)?;
    match fit(size, &geo, level) {
        Ok(head) => Some(head),
        Err(_) => None,
    }
}

/// Whether a head is that of a cell whose file has nothing in front of it.
fn is_head(head: &DtedHead, size: Size, posts: Posts) -> bool {
    head.skip == 0
        && head.lat == posts.lat as i32 * 3600
        && head.lon == posts.lon as i32 * 3600
        && head.lat_step as i64 == posts.lat_step as i64
        && head.lon_step as i64 == posts.lon_step as i64
        && head.lines == size.w
        && head.points == size.h
}

/// A level, a size, the posts, and whether the raster is a cell.
type Zone = (u32, u32, u32, i16, i16, i16, i16, bool);

/// Each zone's first and last degree, north and south of the equator, and the levels: the longitude step is 1, 2,
/// 3, 4 or 6 latitude steps, by the edge nearer the equator.
const ZONES: [Zone; 39] = [
    (0, 121, 121, 0, 0, 300, 300, true),
    (0, 121, 121, 49, 0, 300, 300, true),
    (0, 61, 121, 50, 0, 300, 600, true),
    (0, 61, 121, 69, 0, 300, 600, true),
    (0, 41, 121, 70, 0, 300, 900, true),
    (0, 41, 121, 74, 0, 300, 900, true),
    (0, 31, 121, 75, 0, 300, 1200, true),
    (0, 31, 121, 79, 0, 300, 1200, true),
    (0, 21, 121, 80, 0, 300, 1800, true),
    (0, 21, 121, 89, 0, 300, 1800, true),
    (0, 21, 121, 90, 0, 300, 1800, false),
    (0, 121, 121, -1, 0, 300, 300, true),
    (0, 121, 121, -50, 0, 300, 300, true),
    (0, 61, 121, -51, 0, 300, 600, true),
    (0, 61, 121, -70, 0, 300, 600, true),
    (0, 41, 121, -71, 0, 300, 900, true),
    (0, 41, 121, -75, 0, 300, 900, true),
    (0, 31, 121, -76, 0, 300, 1200, true),
    (0, 31, 121, -80, 0, 300, 1200, true),
    (0, 21, 121, -81, 0, 300, 1800, true),
    (0, 21, 121, -90, 0, 300, 1800, true),
    (0, 21, 121, -91, 0, 300, 1800, false),
    (0, 121, 121, 50, 0, 300, 300, false),
    (0, 61, 121, 49, 0, 300, 600, false),
    (0, 61, 121, -50, 0, 300, 600, false),
    (0, 121, 121, -51, 0, 300, 300, false),
    (0, 61, 121, 70, 0, 300, 600, false),
    (0, 120, 121, 0, 0, 300, 300, false),
    (0, 121, 120, 0, 0, 300, 300, false),
    (1, 1201, 1201, 49, 0, 30, 30, true),
    (1, 601, 1201, 50, 0, 30, 60, true),
    (2, 3601, 3601, -50, 0, 10, 10, true),
    (2, 601, 3601, -90, 0, 10, 60, true),
    (1, 121, 121, 0, 0, 300, 300, false),
    (2, 1201, 1201, 0, 0, 30, 30, false),
    (0, 121, 121, 0, 179, 300, 300, true),
    (0, 121, 121, 0, -180, 300, 300, true),
    (0, 121, 121, 0, 180, 300, 300, false),
    (0, 121, 121, 0, -181, 300, 300, false),
];

fn zone_holds(zone: Zone) -> bool {
    let (level, w, h, lat, lon, lat_step, lon_step, fits) = zone;
    let size = Size { w, h };
    let posts = Posts {
        lat,
        lon,
        lat_step,
        lon_step,
    };
    match cell(level, size, posts, STILL) {
        Some(head) => fits && is_head(&head, size, posts),
        None => !fits,
    }
}

// The first row that doesn't hold.
fn wrong_zone(zones: &[Zone]) -> Option<usize> {
    for at in 0..zones.len() {
        if !zone_holds(zones[at]) {
            return Some(at);
        }
    }
    None
}

#[test]
fn columns_thin_out_to_the_poles(rt: HostRuntime) {
    none_wrong(&rt, wrong_zone(&ZONES));
}

/// The latitude, the width, the longitude step, the ticks by which it is moved east and north, by which its columns are
/// widened and its lines thinned, and whether it is a cell of level 0.
type Near = (i16, u32, i16, i64, i64, i64, i64, bool);

/// A thousandth of a spacing is 1,500,000,000,000 ticks in latitude, and as often that in longitude as the zone says.
/// Where columns are widened, the first one stays in its place, and the last is moved by 120 times as much. Where lines
/// are widened, the last one stays, and the first is moved by 120 times as much: the upper edge then moves by 120.5
/// times as much.
const NEAR: [Near; 19] = [
    (0, 121, 300, 1_500_000_000_000, 0, 0, 0, true),
    (0, 121, 300, 1_500_000_000_001, 0, 0, 0, false),
    (0, 121, 300, -1_500_000_000_000, 0, 0, 0, true),
    (0, 121, 300, -1_500_000_000_001, 0, 0, 0, false),
    (0, 121, 300, 0, 1_500_000_000_000, 0, 0, true),
    (0, 121, 300, 0, 1_500_000_000_001, 0, 0, false),
    (0, 121, 300, 0, -1_500_000_000_000, 0, 0, true),
    (0, 121, 300, 0, -1_500_000_000_001, 0, 0, false),
    (50, 61, 600, 3_000_000_000_000, 0, 0, 0, true),
    (50, 61, 600, 3_000_000_000_001, 0, 0, 0, false),
    (50, 61, 600, 0, 1_500_000_000_000, 0, 0, true),
    (50, 61, 600, 0, 1_500_000_000_001, 0, 0, false),
    (0, 121, 300, -6_250_000_000, 0, 12_500_000_000, 0, true),
    (0, 121, 300, -6_250_000_001, 0, 12_500_000_002, 0, false),
    (0, 121, 300, 0, 1_506_249_999_759, 0, -12_499_999_998, true),
    (0, 121, 300, 0, 1_506_250_000_000, 0, -12_500_000_000, true),
    (0, 121, 300, 0, 1_506_250_000_241, 0, -12_500_000_002, false),
    (0, 121, 300, 0, -1_506_249_999_759, 0, 12_499_999_998, true),
    (0, 121, 300, 0, -1_506_250_000_241, 0, 12_500_000_002, false),
];

fn near_holds(near: Near) -> bool {
    let (lat, w, lon_step, ox, oy, dx, dy, fits) = near;
    let posts = Posts {
        lat,
        lon: 7,
        lat_step: 300,
        lon_step,
    };
    let size = Size { w, h: 121 };
    match cell(0, size, posts, Moved { ox, oy, dx, dy }) {
        Some(head) => fits && is_head(&head, size, posts),
        None => !fits,
    }
}

fn wrong_place(places: &[Near]) -> Option<usize> {
    for at in 0..places.len() {
        if !near_holds(places[at]) {
            return Some(at);
        }
    }
    None
}

#[test]
fn posts_are_within_a_thousandth(rt: HostRuntime) {
    none_wrong(&rt, wrong_place(&NEAR));
}
