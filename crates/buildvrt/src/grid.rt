// The grid of a mosaic: the sides of its pixels, its extent, its columns and lines.
ghost use Rattle.std.specs.Prelude.{◌≡◌, ℕ, ℤ, pos, neg_ℤ, ◌+ℤ◌, ◌-ℤ◌, ◌*ℤ◌, ◌<ℤ◌, ◌≤ℤ◌, ◌<◌, ◌≤◌, ◌+◌, ◌*◌};
ghost use Rattle.std.specs.Prelude.{length, IfSome, unsigned_abs};
ghost use Rattle.vrt_profile.specs.Values.{IsDecimal};
ghost use Rattle.geotransform.specs.Print.{unit};
ghost use Rattle.geotransform.specs.Geo.{IsNear};
ghost use Rattle.geotransform.specs.Places.{rounded_up};
ghost use Rattle.buildvrt.specs.Grids.{measure, less_of, greater_of, least_from, greatest_from, least, greatest, mean};
ghost use Rattle.buildvrt.specs.Grids.{sum_from, IsStep, IsGrid, steps_of, union_of, extent_of, some_pixels, side_of};
ghost use Rattle.buildvrt.specs.Grids.{rounded_transform, grid_by, grid_of};
ghost use Rattle.buildvrt.specs.Limits.{IsMeasure, IsSide, IsSteps, IsReach, edge_limit, pixel_limit};
ghost use Rattle.geotransform.specs.Limits.{most_side, unit_limit};
ghost use Rattle.catalog.specs.Dataset.{most_datasets};

use crate::options::{BuildOptions, Extent, Resolution};
use crate::tile::Tile;
use geotransform::{GeoTransform, MOST_SIDE, Size, Ticks, half, round16, rounded_up};
use std::marker::Model;

/// A number of an input.
#[derive(Clone, Copy)]
pub enum Measure {
    /// The width of its pixels.
    ColumnStep,
    /// The height of its pixels, counted positive.
    LineStep,
    Left,
    Right,
    Top,
    Bottom,
}

/// The greatest number of columns, and of lines.
const MOST: i128 = MOST_SIDE as i128;

// The grid of a mosaic.
#[derive(Drop)]
pub struct Grid {
    pub left: Ticks,
    pub top: Ticks,
    pub dx: Ticks,
    pub dy: Ticks,
    pub size: Size,
    pub geo: GeoTransform,
}

impl Model for Grid {
    ghost use Rattle.buildvrt.specs.Grids.{GridValue, IsGrid};

    ghost Value = { GridValue };

    ghost view = { λ g. record { left = g.left; top = g.top; dx = g.dx; dy = g.dy; size = g.size; geo = g.geo } };

    ghost invariant = { λ g. IsGrid (record {
      left = g.left;
      top = g.top;
      dx = g.dx;
      dy = g.dy;
      size = g.size;
      geo = g.geo;
    }) };
}

/// The way of so many steps.
#[tactic(auto, using(crate::proofs::Measures::way_bound))]
pub fn way_of(count: u32, step: i128) -> i128
    requires count { count ≤ most_side }
    requires step { IsNear step }
    ensures value { result ≡ pos count *ℤ step }
    ensures bound { unsigned_abs result ≤ most_side * (unit_limit * unit) }
{
    let steps = count as i128;
    steps * step
}

// The place `count` steps from `start`.
fn edge(start: i128, step: i128, count: u32) -> i128
    requires start { IsNear start }
    requires step { IsNear step }
    requires count { count ≤ most_side }
    ensures value { result ≡ start +ℤ (pos count *ℤ step) }
    ensures bound { unsigned_abs result < edge_limit }
{
    start + way_of(count, step)
}

// A number of an input.
fn number_of(which: Measure, tile: &Tile) -> i128
    ensures value { result ≡ measure which tile.now }
    ensures rules { IsMeasure which result }
{
    let head = tile.head;
    let size = head.size;
    let place = tile.place;
    match which {
        Measure::ColumnStep => place.dx.get(),
        Measure::LineStep => -place.dy.get(),
        Measure::Left => place.ox.get(),
        Measure::Right => edge(place.ox.get(), place.dx.get(), size.w),
        Measure::Top => place.oy.get(),
        Measure::Bottom => edge(place.oy.get(), place.dy.get(), size.h),
    }
}

fn less_of(x: i128, y: i128) -> i128
    ensures { result ≡ less_of x y }
{
    if y < x { y } else { x }
}

fn greater_of(x: i128, y: i128) -> i128
    ensures { result ≡ greater_of x y }
{
    if x < y { y } else { x }
}

// The least of `start` and a number of the inputs.
#[tactic(auto, using(crate::proofs::Measures::least_next, crate::proofs::Measures::less_rules))]
fn least_from(which: Measure, start: i128, tiles: &[Tile]) -> i128
    requires start { IsMeasure which start }
    ensures value { result ≡ least_from which start tiles.now }
    ensures rules { IsMeasure which result }
{
    let mut best = start;
    for tile in tiles {
        best = less_of(best, number_of(which, tile));
    }
    best
}

// The least of a number of the inputs.
fn least(which: Measure, tiles: &[Tile]) -> i128
    requires some { 0 < length tiles.now }
    ensures value { result ≡ least which tiles.now }
    ensures rules { IsMeasure which result }
{
    least_from(which, number_of(which, &tiles[0]), &tiles[1..])
}

// The greatest of `start` and a number of the inputs.
#[tactic(auto, using(crate::proofs::Measures::greatest_next, crate::proofs::Measures::greater_rules))]
fn greatest_from(which: Measure, start: i128, tiles: &[Tile]) -> i128
    requires start { IsMeasure which start }
    ensures value { result ≡ greatest_from which start tiles.now }
    ensures rules { IsMeasure which result }
{
    let mut best = start;
    for tile in tiles {
        best = greater_of(best, number_of(which, tile));
    }
    best
}

// The greatest of a number of the inputs.
fn greatest(which: Measure, tiles: &[Tile]) -> i128
    requires some { 0 < length tiles.now }
    ensures value { result ≡ greatest which tiles.now }
    ensures rules { IsMeasure which result }
{
    greatest_from(which, number_of(which, &tiles[0]), &tiles[1..])
}

// The sum of the widths, or heights, of the inputs' pixels.
#[tactic(auto, using(crate::proofs::Measures::sum_next))]
fn sum_of(which: Measure, tiles: &[Tile]) -> i128
    requires step { IsSide which }
    requires few { length tiles.now ≤ most_datasets }
    ensures value { result ≡ sum_from which (pos 0) tiles.now }
    ensures least { pos (length tiles.now) ≤ℤ result }
    ensures bound { unsigned_abs result ≤ length tiles.now * (unit_limit * unit) }
{
    let mut sum: i128 = 0;
    for tile in tiles {
        sum += number_of(which, tile);
    }
    sum
}

// The mean of the widths, or heights, of the inputs' pixels.
#[tactic(auto, using(crate::proofs::Measures::mean_rules))]
fn mean(which: Measure, tiles: &[Tile]) -> i128
    requires step { IsSide which }
    requires some { 0 < length tiles.now }
    requires few { length tiles.now ≤ most_datasets }
    ensures value { result ≡ mean which tiles.now }
    ensures rules { IsStep result }
{
    half(sum_of(which, tiles), tiles.len() as u128)
}

// The sides of the mosaic's pixels.
fn steps_of(options: &BuildOptions, tiles: &[Tile]) -> (Ticks, Ticks)
    requires some { 0 < length tiles.now }
    requires few { length tiles.now ≤ most_datasets }
    ensures value { result ≡ steps_of options.now tiles.now }
    ensures rules { IsSteps result }
{
    options.rules();
    match options.resolution {
        Resolution::Highest => (
            Ticks::of(least(Measure::ColumnStep, tiles)),
            Ticks::of(least(Measure::LineStep, tiles)),
        ),
        Resolution::Lowest => (
            Ticks::of(greatest(Measure::ColumnStep, tiles)),
            Ticks::of(greatest(Measure::LineStep, tiles)),
        ),
        Resolution::Average => (
            Ticks::of(mean(Measure::ColumnStep, tiles)),
            Ticks::of(mean(Measure::LineStep, tiles)),
        ),
        Resolution::User { dx, dy } => (dx, dy),
    }
}

// The union of the inputs.
fn union_of(tiles: &[Tile]) -> Extent
    requires some { 0 < length tiles.now }
    ensures value { result ≡ union_of tiles.now }
    ensures rules { IsReach result }
{
    Extent {
        xmin: Ticks::of(least(Measure::Left, tiles)),
        ymin: Ticks::of(least(Measure::Bottom, tiles)),
        xmax: Ticks::of(greatest(Measure::Right, tiles)),
        ymax: Ticks::of(greatest(Measure::Top, tiles)),
    }
}

// The given extent, or the union of the inputs.
fn extent_of(options: &BuildOptions, tiles: &[Tile]) -> Extent
    requires some { 0 < length tiles.now }
    ensures value { result ≡ extent_of options.now tiles.now }
    ensures rules { IsReach result }
{
    options.rules();
    match options.extent {
        None => union_of(tiles),
        Some(extent) => extent,
    }
}

/// How many steps a way has: the nearest whole number, a half going up.
pub fn rounded(way: Ticks, step: Ticks) -> i128
    requires step { IsStep step }
    ensures value { result ≡ rounded_up way step }
    ensures bound { unsigned_abs result < pixel_limit }
{
    rounded_up(way.get(), step.get())
}

/// How many pixels a way has: the nearest whole number, a half going up, and 1 at least.
pub fn some_pixels(way: Ticks, step: Ticks) -> i128
    requires step { IsStep step }
    ensures value { result ≡ some_pixels way step }
    ensures some { pos 0 <ℤ result }
    ensures bound { unsigned_abs result < pixel_limit }
{
    greater_of(1, rounded(way, step))
}

// The columns, or lines, of the mosaic.
fn side_of(way: Ticks, step: Ticks) -> Option<u32>
    requires step { IsStep step }
    ensures value { result ≡ side_of way step }
    ensures rules { IfSome result (λ n. (0 < n) × (n ≤ most_side)) }
{
    let side = some_pixels(way, step);
    if side > MOST {
        return None;
    }
    Some(side as u32)
}

pub fn difference(a: Ticks, b: Ticks) -> Ticks
    requires a { unsigned_abs a < edge_limit }
    requires b { unsigned_abs b < edge_limit }
    ensures value { result ≡ a -ℤ b }
{
    Ticks::of(a.get() - b.get())
}

pub fn negative(a: Ticks) -> Ticks
    ensures value { result ≡ neg_ℤ a }
{
    Ticks::of(-a.get())
}

// The geotransform, rounded to 16 places.
#[tactic(auto, using(crate::proofs::Measures::decimal, crate::proofs::Measures::rounded_place))]
fn transform_of(left: Ticks, top: Ticks, dx: Ticks, dy: Ticks) -> Option<GeoTransform>
    requires left { IsNear left }
    requires top { IsNear top }
    requires dx { IsStep dx }
    requires dy { IsStep dy }
    ensures value { result ≡ rounded_transform left top dx dy }
    ensures rules { IfSome result IsDecimal }
{
    GeoTransform::new(
        round16(left),
        round16(top),
        round16(dx),
        round16(negative(dy)),
    )
}

#[tactic(auto, unfolding(crate::specs::Grids::grid_by))]
fn grid_by(extent: Extent, steps: (Ticks, Ticks)) -> Option<Grid>
    requires extent { IsReach extent }
    requires steps { IsSteps steps }
    ensures value { result ≡ grid_by extent steps }
{
    let Extent {
        xmin: left,
        ymin,
        xmax,
        ymax: top,
    } = extent;
    let (dx, dy) = steps;
    let w = side_of(difference(xmax, left), dx)?;
    let h = side_of(difference(top, ymin), dy)?;
    let geo = transform_of(left, top, dx, dy)?;
    Some(Grid {
        left,
        top,
        dx,
        dy,
        size: Size { w, h },
        geo,
    })
}

/// The grid of the mosaic, where it is within the limits.
pub fn grid_of(options: &BuildOptions, tiles: &[Tile]) -> Option<Grid>
    requires some { 0 < length tiles.now }
    requires few { length tiles.now ≤ most_datasets }
    ensures value { result ≡ grid_of options.now tiles.now }
{
    grid_by(extent_of(options, tiles), steps_of(options, tiles))
}
