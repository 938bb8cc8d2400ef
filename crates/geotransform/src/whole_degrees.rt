// Rasters whose outer pixels have their centres at whole degrees one apart.
ghost use Rattle.std.specs.Prelude.{◌≡◌, ◌<◌, ◌≤◌, ◌^◌, ◌*◌, ◌/◌, ℤ, pos, ◌+ℤ◌, ◌-ℤ◌, ◌*ℤ◌, ◌<ℤ◌, ◌≤ℤ◌, IfSome};
ghost use Rattle.std.specs.Prelude.{unsigned_abs};
ghost use Rattle.geotransform.specs.Geo.{IsNear};
ghost use Rattle.geotransform.specs.Degrees.{degrees, twice_centre, degree_near, is_at_degree, in_range, are_at};
ghost use Rattle.geotransform.specs.Degrees.{degree_between, twice_west, twice_east, twice_south, twice_north, lon_of};
ghost use Rattle.geotransform.specs.Degrees.{lat_of};
ghost use Rattle.geotransform.specs.Limits.{most_side, most_steps};

use crate::geo::GeoTransform;
use crate::rounding::{along, floor_of};
use crate::units::Ticks;

/// So many whole degrees in ticks.
pub fn degrees(n: i32) -> i128
    requires { unsigned_abs n ≤ 181 }
    ensures value { result ≡ degrees n }
    ensures bound { unsigned_abs result < 10 ^ 20 }
{
    n as i128 * Ticks::UNIT.get()
}

/// Twice the middle between two places.
fn twice_middle(first: Ticks, second: Ticks) -> i128
    ensures value { result ≡ first +ℤ second }
    ensures bound { unsigned_abs result ≤ 2 * 10 ^ 37 }
{
    first.get() + second.get()
}

/// The side behind the column, or line, `k`.
fn behind(k: i64) -> i64
    requires { unsigned_abs k ≤ most_side }
    ensures value { result ≡ k +ℤ pos 1 }
    ensures bound { unsigned_abs result ≤ most_steps }
{
    k + 1
}

/// Twice the centre of column, or line, `k` from `start`: the sum of its two sides.
pub fn twice_centre(start: Ticks, step: Ticks, k: i64) -> i128
    requires start { IsNear start }
    requires step { IsNear step }
    requires k { unsigned_abs k ≤ most_side }
    ensures centre { result ≡ twice_centre start step k }
    ensures bound { unsigned_abs result ≤ 2 * 10 ^ 37 }
{
    twice_middle(along(start, step, k), along(start, step, behind(k)))
}

fn twice_west(geo: &GeoTransform) -> i128
    ensures value { result ≡ twice_west geo.now }
    ensures bound { unsigned_abs result ≤ 2 * 10 ^ 37 }
{
    twice_centre(geo.ox, geo.dx, 0)
}

fn twice_east(geo: &GeoTransform, columns: u32) -> i128
    requires { (0 < columns) × (columns ≤ most_side) }
    ensures value { result ≡ twice_east geo.now columns }
    ensures bound { unsigned_abs result ≤ 2 * 10 ^ 37 }
{
    twice_centre(geo.ox, geo.dx, (columns - 1) as i64)
}

/// Twice the latitude of the centres of the last line.
pub fn twice_south(geo: &GeoTransform, lines: u32) -> i128
    requires { (0 < lines) × (lines ≤ most_side) }
    ensures value { result ≡ twice_south geo.now lines }
    ensures bound { unsigned_abs result ≤ 2 * 10 ^ 37 }
{
    twice_centre(geo.oy, geo.dy, (lines - 1) as i64)
}

fn twice_north(geo: &GeoTransform) -> i128
    ensures value { result ≡ twice_north geo.now }
    ensures bound { unsigned_abs result ≤ 2 * 10 ^ 37 }
{
    twice_centre(geo.oy, geo.dy, 0)
}

/// The whole degree nearest to half of so many ticks.
pub fn degree_near(twice: i128) -> i128
    requires { unsigned_abs twice ≤ 2 * 10 ^ 37 }
    ensures degree { result ≡ degree_near twice }
{
    floor_of(twice + Ticks::UNIT.get(), 2 * Ticks::UNIT.get())
}

/// The way from a whole degree to half of so many ticks, twice.
fn way(twice: i128, degree: i32) -> u128
    requires twice { unsigned_abs twice ≤ 2 * 10 ^ 37 }
    requires degree { unsigned_abs degree ≤ 181 }
    ensures { result ≡ unsigned_abs (twice -ℤ pos 2 *ℤ degrees degree) }
{
    (twice - 2 * degrees(degree)).unsigned_abs()
}

/// Twice a thousandth of a spacing.
fn twice_thousandth(spacing: u64) -> u128
    ensures { result ≡ 2 * spacing / 1000 }
{
    let wide = spacing as u128;
    2 * wide / 1000
}

/// Whether half of so many ticks is within a thousandth of a spacing of a whole degree.
#[tactic(auto, using(crate::proofs::Centres::thousandth_is))]
pub fn is_at_degree(spacing: u64, twice: i128, degree: i32) -> bool
    requires twice { unsigned_abs twice ≤ 2 * 10 ^ 37 }
    requires degree { unsigned_abs degree ≤ 181 }
    ensures at { result ≡ is_at_degree spacing twice degree }
{
    way(twice, degree) <= twice_thousandth(spacing)
}

/// A degree from `-limit` on and below the limit.
fn in_range(limit: i32, degree: i128) -> Option<i32>
    requires { (pos 0 <ℤ limit) × (limit ≤ℤ pos 180) }
    ensures value { result ≡ in_range (unsigned_abs limit) degree }
    ensures bound { IfSome result (λ d. unsigned_abs d ≤ unsigned_abs limit) }
{
    if degree >= -limit as i128 && degree < limit as i128 {
        Some(degree as i32)
    } else {
        None
    }
}

/// The degree behind a degree.
fn next(degree: i32) -> i32
    requires { unsigned_abs degree ≤ 180 }
    ensures value { result ≡ degree +ℤ pos 1 }
    ensures bound { unsigned_abs result ≤ 181 }
{
    degree + 1
}

/// Whether one centre is at a degree and the other at the next.
fn are_at(spacing: u64, first: i128, second: i128, degree: i32) -> bool
    requires first { unsigned_abs first ≤ 2 * 10 ^ 37 }
    requires second { unsigned_abs second ≤ 2 * 10 ^ 37 }
    requires degree { unsigned_abs degree ≤ 180 }
    ensures { result ≡ are_at spacing first second degree }
{
    is_at_degree(spacing, first, degree) && is_at_degree(spacing, second, next(degree))
}

/// The degree in the limit at which one centre is, where the other is at the next.
fn degree_between(spacing: u64, limit: i32, first: i128, second: i128) -> Option<i32>
    requires limit { (pos 0 <ℤ limit) × (limit ≤ℤ pos 180) }
    requires first { unsigned_abs first ≤ 2 * 10 ^ 37 }
    requires second { unsigned_abs second ≤ 2 * 10 ^ 37 }
    ensures value { result ≡ degree_between spacing (unsigned_abs limit) first second }
    ensures bound { IfSome result (λ d. unsigned_abs d ≤ unsigned_abs limit) }
{
    let degree = in_range(limit, degree_near(first))?;
    if are_at(spacing, first, second, degree) {
        Some(degree)
    } else {
        None
    }
}

/// The longitude of the first of so many columns, where the centres of the outer ones are within a
/// thousandth of the spacing of whole degrees one apart. `None` exactly where they aren't, or the
/// degree isn't from -180 to 179.
pub fn lon_of(geo: &GeoTransform, columns: u32, spacing: u64) -> Option<i32>
    requires { (0 < columns) × (columns ≤ most_side) }
    ensures degree { result ≡ lon_of spacing columns geo.now }
    ensures bound { IfSome result (λ d. unsigned_abs d ≤ 180) }
{
    degree_between(spacing, 180, twice_west(geo), twice_east(geo, columns))
}

/// The latitude of the last of so many lines, where the centres of the outer ones are within a
/// thousandth of the spacing of whole degrees one apart. `None` exactly where they aren't, or the
/// degree isn't from -90 to 89.
pub fn lat_of(geo: &GeoTransform, lines: u32, spacing: u64) -> Option<i32>
    requires { (0 < lines) × (lines ≤ most_side) }
    ensures degree { result ≡ lat_of spacing lines geo.now }
    ensures bound { IfSome result (λ d. unsigned_abs d ≤ 90) }
{
    degree_between(spacing, 90, twice_south(geo, lines), twice_north(geo))
}
