// The centre and the sizes of the first pixel, as a header has them.
ghost use Rattle.std.specs.Prelude.{◌≡◌, ◌<◌, ◌≤◌, ◌*◌, ◌^◌, ℤ, pos, neg_ℤ, ◌+ℤ◌, ◌-ℤ◌, ◌*ℤ◌, ◌&&◌, IfSome};
ghost use Rattle.std.specs.Prelude.{unsigned_abs};
ghost use Rattle.geotransform.specs.Places.{half};
ghost use Rattle.geotransform.specs.Geo.{IsNear, is_near};
ghost use Rattle.geotransform.specs.Limits.{sixteenth_limit};
ghost use Rattle.esri_hdr.specs.Head.{is_half_near, GeoFits, raw_geo, is_origin, raw_geo_of};

use crate::header_parts::RawGeo;
use geotransform::{
    GeoTransform, TICK_LIMIT, Ticks, half, is_near, is_north_up, round16, sizes_held,
};

fn is_half_near(twice: i128) -> bool
    ensures { result ≡ is_half_near twice }
{
    twice.unsigned_abs() < 2 * TICK_LIMIT
}

fn twice(place: Ticks) -> i128
    ensures value { result ≡ place +ℤ place }
    ensures bound { unsigned_abs result ≤ 2 * 10 ^ 37 }
{
    place.get() + place.get()
}

fn before(twice: i128, size: Ticks) -> i128
    requires { unsigned_abs twice ≤ 2 * 10 ^ 37 }
    ensures { result ≡ twice -ℤ size }
{
    twice - size.get()
}

fn behind(twice: i128, size: Ticks) -> i128
    requires { unsigned_abs twice ≤ 2 * 10 ^ 37 }
    ensures { result ≡ twice +ℤ size }
{
    twice + size.get()
}

/// Whether the place half a size left of a centre is below 10^12 units in magnitude.
pub fn is_left_near(ulx: Ticks, xdim: Ticks) -> bool
    ensures near { result ≡ is_half_near (ulx +ℤ ulx -ℤ xdim) }
{
    is_half_near(before(twice(ulx), xdim))
}

/// Whether the place half a size above a centre is below 10^12 units in magnitude.
pub fn is_top_near(uly: Ticks, ydim: Ticks) -> bool
    ensures near { result ≡ is_half_near (uly +ℤ uly +ℤ ydim) }
{
    is_half_near(behind(twice(uly), ydim))
}

/// Twice the centre of the first column, or line.
fn twice_and(start: Ticks, step: Ticks) -> i128
    requires start { IsNear start }
    requires step { IsNear step }
    ensures value { result ≡ pos 2 *ℤ start +ℤ step }
    ensures bound { unsigned_abs result < 54 * sixteenth_limit }
{
    2 * start.get() + step.get()
}

/// A number of sixteenth places in ticks.
fn eighteenfold(n: i128) -> Ticks
    requires { unsigned_abs n < 54 * sixteenth_limit }
    ensures { result ≡ pos 18 *ℤ n }
{
    Ticks::of(18 * n)
}

/// The centre of the first column, or line, rounded to 16 places.
fn centre_of(start: Ticks, step: Ticks) -> Ticks
    requires start { IsNear start }
    requires step { IsNear step }
    ensures { result ≡ pos 18 *ℤ half (pos 2 *ℤ start +ℤ step) 36 }
{
    eighteenfold(half(twice_and(start, step), 36))
}

fn negated(step: Ticks) -> Ticks
    requires { IsNear step }
    ensures value { result ≡ neg_ℤ step }
    ensures near { IsNear result }
{
    Ticks::of(-step.get())
}

fn raw_geo(geo: &GeoTransform) -> RawGeo
    ensures { result ≡ raw_geo geo.now }
{
    RawGeo {
        ulx: centre_of(geo.ox, geo.dx),
        uly: centre_of(geo.oy, geo.dy),
        xdim: round16(geo.dx),
        ydim: round16(negated(geo.dy)),
    }
}

fn is_origin(raw: &RawGeo) -> bool
    ensures { result ≡ is_origin raw.now }
{
    is_near(raw.ulx)
        && is_near(raw.uly)
        && is_left_near(raw.ulx, raw.xdim)
        && is_top_near(raw.uly, raw.ydim)
}

impl RawGeo {
    /// What a header says of a raster with this geotransform: the centre of its first pixel and the
    /// sizes of a pixel, each rounded to 16 places, half a tick of the centre in the same step. `None`
    /// exactly where no header can: the raster doesn't run from west to east and from north to south,
    /// a size isn't above 0 and below 10^12 units, or the centre, or the corner that is computed from
    /// it, reaches 10^12 units in magnitude.
    #[tactic(auto, using(crate::proofs::Heads::held_fits))]
    pub fn of(geo: &GeoTransform) -> Option<RawGeo>
        ensures held { result ≡ raw_geo_of geo.now }
        ensures fits { IfSome result GeoFits }
    {
        let raw = raw_geo(geo);
        if is_north_up(geo) && sizes_held(geo) && is_origin(&raw) {
            Some(raw)
        } else {
            None
        }
    }
}
