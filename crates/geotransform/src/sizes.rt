// Rasters that run from west to east and from north to south.
ghost use Rattle.std.specs.Prelude.{◌≡◌, ◌<◌, ◌≤◌, ◌^◌, ◌*◌, ℤ, neg_ℤ, ◌&&◌};
ghost use Rattle.geotransform.specs.Geo.{IsNear, is_near, is_north_up, is_size, sizes_held};

use crate::geo::GeoTransform;
use crate::rounding::{is_near, round16};
use crate::units::Ticks;

/// Whether the raster runs from west to east and from north to south.
pub fn is_north_up(geo: &GeoTransform) -> bool
    ensures up { result ≡ is_north_up geo.now }
{
    geo.dx.get() > 0 && geo.dy.get() < 0
}

fn is_size(value: Ticks) -> bool
    ensures { result ≡ is_size value }
{
    value.get() > 0 && is_near(value)
}

fn negated(step: Ticks) -> Ticks
    requires { IsNear step }
    ensures value { result ≡ neg_ℤ step }
    ensures near { IsNear result }
{
    Ticks::of(-step.get())
}

/// Whether texts can hold the sizes of a pixel of a raster that runs from north to south: rounded to 16
/// places they are above 0 and below 10^12 units.
pub fn sizes_held(geo: &GeoTransform) -> bool
    ensures held { result ≡ sizes_held geo.now }
{
    is_size(round16(geo.dx)) && is_size(round16(negated(geo.dy)))
}
