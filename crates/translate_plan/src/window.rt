// The window of the source, and the size of the output.
ghost use Rattle.std.specs.Prelude.{◌≡◌, ◌<◌, ◌≤◌, ◌^◌, ◌*◌, ◌/◌, pos, ◌+ℤ◌, ◌≤ℤ◌, IfOk, IfSome, unsigned_abs};
ghost use Rattle.geotransform.specs.Places.{rounded_up};
ghost use Rattle.geotransform.specs.Geo.{IsRaster};
ghost use Rattle.geotransform.specs.declared.types.Size.{Size};
ghost use Rattle.translate_plan.specs.Options.{IsView, IsOutSize};
ghost use Rattle.translate_plan.specs.Window.{asked_in, is_empty, is_large, is_far, window_in, is_within, meets};
ghost use Rattle.translate_plan.specs.Window.{inside_in, side_of, is_free, side_by, sides_of, size_in};
ghost use Rattle.translate_plan.specs.Limits.{IsWindow};
ghost use Rattle.geotransform.specs.Limits.{farthest, most_side};

use crate::options::{OutSize, View};
use geotransform::{FARTHEST, GeoTransform, MOST_SIDE, PlanFault, Size, rounded_up};

/// The greatest number of columns, and of lines.
const MOST: i128 = MOST_SIDE as i128;

/// The greatest offset of a window.
const FAR: u128 = FARTHEST as u128;

/// A window as it is asked for.
#[derive(Clone, Copy)]
pub struct Asked {
    pub x: i128,
    pub y: i128,
    pub w: i128,
    pub h: i128,
}

/// A window: the column and the line of its upper left pixel, and its size.
#[derive(Clone, Copy)]
pub struct Window {
    pub x: i64,
    pub y: i64,
    pub size: Size,
}

/// What is asked for in pixels. `NoGeo` exactly where places are asked for and there is no
/// geotransform.
pub fn asked_in(view: &View, size: Size, geo: &Option<GeoTransform>) -> Result<Asked, PlanFault>
    requires view { IsView view.now }
    ensures asked { result ≡ asked_in view.now size geo.now }
{
    match view {
        View::Whole => Ok(Asked {
            x: 0,
            y: 0,
            w: size.w as i128,
            h: size.h as i128,
        }),
        View::Pixels { x, y, w, h } => Ok(Asked {
            x: *x as i128,
            y: *y as i128,
            w: *w as i128,
            h: *h as i128,
        }),
        View::Places { ulx, uly, lrx, lry } => match geo {
            None => Err(PlanFault::NoGeo),
            Some(geo) => {
                let (x, y, w, h) = geo.window_of(*ulx, *uly, *lrx, *lry);
                Ok(Asked { x, y, w, h })
            }
        },
    }
}

fn is_empty(w: i128, h: i128) -> bool
    ensures { result ≡ is_empty w h }
{
    w < 1 || h < 1
}

fn is_large(w: i128, h: i128) -> bool
    ensures { result ≡ is_large w h }
{
    w > MOST || h > MOST
}

fn is_far(x: i128, y: i128) -> bool
    ensures { result ≡ is_far x y }
{
    x.unsigned_abs() > FAR || y.unsigned_abs() > FAR
}

fn offset_of(x: i128) -> i64
    requires { unsigned_abs x ≤ farthest }
    ensures value { result ≡ x }
    ensures bound { unsigned_abs result ≤ farthest }
{
    x as i64
}

fn side_within(w: i128) -> u32
    requires some { pos 1 ≤ℤ w }
    requires few { w ≤ℤ pos most_side }
    ensures value { result ≡ unsigned_abs w }
    ensures bounds { (0 < result) × (result ≤ most_side) }
{
    w as u32
}

fn size_within(w: i128, h: i128) -> Size
    requires some_columns { pos 1 ≤ℤ w }
    requires columns { w ≤ℤ pos most_side }
    requires some_lines { pos 1 ≤ℤ h }
    requires lines { h ≤ℤ pos most_side }
    ensures value { result ≡ record { w = unsigned_abs w; h = unsigned_abs h } }
    ensures raster { IsRaster result }
{
    Size {
        w: side_within(w),
        h: side_within(h),
    }
}

/// The window within its limits. `EmptyWindow` exactly where a side is below 1, else `Limit` where a
/// side or an offset is past its limit.
pub fn window_in(asked: &Asked) -> Result<Window, PlanFault>
    ensures window { result ≡ window_in asked.now }
    ensures kept { IfOk result IsWindow }
{
    if is_empty(asked.w, asked.h) {
        return Err(PlanFault::EmptyWindow);
    }
    if is_large(asked.w, asked.h) || is_far(asked.x, asked.y) {
        return Err(PlanFault::Limit);
    }
    Ok(Window {
        x: offset_of(asked.x),
        y: offset_of(asked.y),
        size: size_within(asked.w, asked.h),
    })
}

/// The column, or line, behind the last one.
fn end_of(start: i64, side: u32) -> i64
    requires { unsigned_abs start ≤ farthest }
    ensures { result ≡ start +ℤ pos side }
{
    start + side as i64
}

fn is_within(window: &Window, size: Size) -> bool
    requires { IsWindow window.now }
    ensures { result ≡ is_within window.now size }
{
    window.x >= 0
        && window.y >= 0
        && end_of(window.x, window.size.w) <= size.w as i64
        && end_of(window.y, window.size.h) <= size.h as i64
}

fn meets(window: &Window, size: Size) -> bool
    requires { IsWindow window.now }
    ensures { result ≡ meets window.now size }
{
    window.x < size.w as i64
        && window.y < size.h as i64
        && end_of(window.x, window.size.w) > 0
        && end_of(window.y, window.size.h) > 0
}

/// `Outside` exactly where the window leaves the raster in part and that is refused, or as a whole and
/// that is refused.
pub fn inside_in(epo: bool, eco: bool, window: &Window, size: Size) -> Result<(), PlanFault>
    requires { IsWindow window.now }
    ensures inside { result ≡ inside_in epo eco window.now size }
{
    if epo && !is_within(window, size) || eco && !meets(window, size) {
        Err(PlanFault::Outside)
    } else {
        Ok(())
    }
}

/// A side by itself.
fn side_of(asked: OutSize, side: u32) -> u64
    requires asked { IsOutSize asked }
    requires side { side ≤ most_side }
    ensures value { result ≡ side_of asked side }
    ensures bound { result < 10 ^ 14 }
{
    match asked {
        OutSize::Count(n) => n as u64,
        OutSize::Percent(p) => side as u64 * p as u64 / 100,
    }
}

fn is_free(asked: OutSize) -> bool
    ensures { result ≡ is_free asked }
{
    match asked {
        OutSize::Count(n) => n == 0,
        OutSize::Percent(_) => false,
    }
}

#[tactic(auto, using(crate::proofs::Shown::product_bound))]
fn product(a: u64, b: u32) -> u128
    requires a { a ≤ 10 ^ 14 }
    requires b { b ≤ most_side }
    ensures value { result ≡ a * b }
    ensures bound { result ≤ 10 ^ 14 * most_side }
{
    let wide = a as u128;
    let side = b as u128;
    wide * side
}

/// The side that has to `other` the proportion of two sides, rounded up.
fn in_proportion(other: u64, side: u32, of: u32) -> u128
    requires other { other < 10 ^ 14 }
    requires side { side ≤ most_side }
    requires of { (0 < of) × (of ≤ most_side) }
    ensures value { result ≡ unsigned_abs (rounded_up (pos (other * side)) (pos of)) }
    ensures bound { result < 10 ^ 22 }
{
    rounded_up(product(other, side) as i128, of as i128).unsigned_abs()
}

fn side_by(asked: OutSize, other_asked: OutSize, side: u32, other: u32) -> u128
    requires asked { IsOutSize asked }
    requires other_asked { IsOutSize other_asked }
    requires side { (0 < side) × (side ≤ most_side) }
    requires other { (0 < other) × (other ≤ most_side) }
    ensures value { result ≡ side_by asked other_asked side other }
    ensures bound { result < 10 ^ 22 }
{
    if is_free(asked) && !is_free(other_asked) {
        in_proportion(side_of(other_asked, other), side, other)
    } else {
        side_of(asked, side) as u128
    }
}

/// The sides of the output.
pub fn sides_of(outsize: Option<(OutSize, OutSize)>, size: Size) -> (u128, u128)
    requires outsize { IfSome outsize (λ s. IsOutSize s.0 × IsOutSize s.1) }
    requires size { IsRaster size }
    ensures sides { result ≡ sides_of outsize size }
    ensures bounds { (result.0 < 10 ^ 22) × (result.1 < 10 ^ 22) }
{
    match outsize {
        None => (size.w as u128, size.h as u128),
        Some((w, h)) => (side_by(w, h, size.w, size.h), side_by(h, w, size.h, size.w)),
    }
}

/// The size of the output within its limits. `EmptyWindow` exactly where a side is below 1, else
/// `Limit` where one is past its limit.
pub fn size_in(sides: (u128, u128)) -> Result<Size, PlanFault>
    requires { (sides.0 < 10 ^ 22) × (sides.1 < 10 ^ 22) }
    ensures size { result ≡ size_in sides }
    ensures kept { IfOk result IsRaster }
{
    let (w, h) = sides;
    if is_empty(w as i128, h as i128) {
        return Err(PlanFault::EmptyWindow);
    }
    if is_large(w as i128, h as i128) {
        return Err(PlanFault::Limit);
    }
    Ok(Size {
        w: w as u32,
        h: h as u32,
    })
}
