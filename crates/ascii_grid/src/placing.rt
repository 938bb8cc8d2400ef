// The edges and the sizes that a grid's head gives.
ghost use Rattle.std.specs.Prelude.{◌≡◌, ◌≤◌, ◌^◌, ◌*◌, ◌*ℤ◌, neg_ℤ, unsigned_abs, pos, Some};
ghost use Rattle.std.specs.Option.{option_map};
ghost use Rattle.geotransform.specs.Geo.{IsNear, along};
ghost use Rattle.ascii_grid.specs.Text.{placing_of};
ghost use Rattle.geotransform.specs.Limits.{most_side, sixteenth_limit};

use geotransform::{GeoTransform, Size, Ticks, round16};

/// The left and the lower edge of a raster, and the width and the height of a pixel, in ticks.
#[derive(Clone, Copy)]
pub struct Placing {
    pub left: Ticks,
    pub bottom: Ticks,
    pub width: Ticks,
    pub height: Ticks,
}

// The way over so many lines.
fn depth(h: u32, step: Ticks) -> i128
    requires h { h ≤ most_side }
    requires step { IsNear step }
    ensures value { result ≡ pos h *ℤ step }
    ensures bound { unsigned_abs result ≤ most_side * (18 * sixteenth_limit) }
{
    h as i128 * step.get()
}

// The place of the edge below so many lines.
fn below(geo: &GeoTransform, h: u32) -> Ticks
    requires { h ≤ most_side }
    ensures place { result ≡ along geo.now.oy geo.now.dy (pos h) }
    ensures small { unsigned_abs result ≤ 10 ^ 36 }
{
    let oy = geo.oy.get();
    Ticks::of(oy + depth(h, geo.dy))
}

// The other direction.
fn opposite(step: Ticks) -> Ticks
    ensures { result ≡ neg_ℤ step }
{
    Ticks::of(-step.get())
}

// The edges and the sizes of a geotransform, rounded to 16 places.
fn rounded(size: Size, geo: &GeoTransform) -> Placing
    requires { size.h ≤ most_side }
    ensures { result ≡ placing_of size (Some geo.now) }
{
    Placing {
        left: round16(geo.ox),
        bottom: round16(below(geo, size.h)),
        width: round16(geo.dx),
        height: round16(opposite(geo.dy)),
    }
}

/// What is written of a geotransform, or of none: the place 0 and sizes of one unit.
pub fn placing_of(size: Size, geo: Option<&GeoTransform>) -> Placing
    requires { size.h ≤ most_side }
    ensures { result ≡ placing_of size (option_map (λ g. g.now) geo.entry) }
{
    match geo {
        Some(geo) => rounded(size, geo),
        None => Placing {
            left: Ticks::of(0),
            bottom: Ticks::of(0),
            width: Ticks::UNIT,
            height: Ticks::UNIT,
        },
    }
}
