// Which pixel of its dataset a source takes.
ghost use Rattle.std.specs.Prelude.{◌≡◌, ℕ, ℤ, pos, ◌+◌, ◌+ℤ◌, ◌≤ℤ◌, ◌<ℤ◌, ◌<◌, ◌≤◌, ◌*◌, ◌&&◌, None, IsTrue};
ghost use Rattle.std.specs.Prelude.{false, int_le, int_lt, unsigned_abs};
ghost use Rattle.geotransform.specs.declared.types.Size.{Size};
ghost use Rattle.vrt_profile.specs.Values.{million};
ghost use Rattle.vrt_profile.specs.Cover.{centre, part_of, columns_of, lines_of, cover_of};
ghost use Rattle.mosaic_sources.specs.Axes.{axis_limit};
ghost use Rattle.mosaic_sources.specs.Rows.{covers_line, is_in_span};

use crate::axis::Axis;
use crate::spans::{Span, mosaic_part};
use geotransform::{Rect, Size};
use vrt_profile::{MicroRect, Source};

/// A part of an axis, in millionths of a pixel.
#[derive(Clone, Copy, PartialEq, Eq)]
struct Part {
    start: i64,
    length: i64,
}

// So many whole pixels.
fn all_of(count: u32) -> i64
    ensures length { result ≡ pos (count * million) }
    ensures bound { unsigned_abs result < axis_limit }
    ensures some { 0 < count → pos 0 <ℤ result }
{
    count as i64 * 1_000_000
}

// The columns of a rectangle, or all columns where there is none.
fn columns_in(rectangle: Option<MicroRect>, size: Size) -> Part
    ensures start { result.start ≡ (part_of rectangle size).x }
    ensures length { result.length ≡ (part_of rectangle size).w }
    ensures start_bound { unsigned_abs result.start < axis_limit }
    ensures length_bound { unsigned_abs result.length < axis_limit }
    ensures way { pos 0 ≤ℤ result.length }
    ensures some { 0 < size.w → pos 0 <ℤ result.length }
{
    match rectangle {
        Some(rectangle) => Part {
            start: rectangle.x,
            length: rectangle.w,
        },
        None => Part {
            start: 0,
            length: all_of(size.w),
        },
    }
}

// The lines of a rectangle, or all lines where there is none.
fn lines_in(rectangle: Option<MicroRect>, size: Size) -> Part
    ensures start { result.start ≡ (part_of rectangle size).y }
    ensures length { result.length ≡ (part_of rectangle size).h }
    ensures start_bound { unsigned_abs result.start < axis_limit }
    ensures length_bound { unsigned_abs result.length < axis_limit }
    ensures way { pos 0 ≤ℤ result.length }
    ensures some { 0 < size.h → pos 0 <ℤ result.length }
{
    match rectangle {
        Some(rectangle) => Part {
            start: rectangle.y,
            length: rectangle.h,
        },
        None => Part {
            start: 0,
            length: all_of(size.h),
        },
    }
}

/// A source along the columns: `mosaic` is the mosaic's size, `size` that of the source's dataset, both
/// in pixels.
pub fn columns(source: &Source, mosaic: Size, size: Size) -> Axis
    ensures axis { result ≡ columns_of source.now mosaic size }
    ensures some_mosaic { 0 < mosaic.w → pos 0 <ℤ result.mosaic_length }
    ensures some_dataset { 0 < size.w → pos 0 <ℤ result.dataset_length }
{
    let part = columns_in(source.dst, mosaic);
    let dataset = columns_in(source.src, size);
    Axis::of(part.start, part.length, dataset.start, dataset.length)
}

/// A source along the lines, as `columns`.
pub fn lines(source: &Source, mosaic: Size, size: Size) -> Axis
    ensures axis { result ≡ lines_of source.now mosaic size }
    ensures some_mosaic { 0 < mosaic.h → pos 0 <ℤ result.mosaic_length }
    ensures some_dataset { 0 < size.h → pos 0 <ℤ result.dataset_length }
{
    let part = lines_in(source.dst, mosaic);
    let dataset = lines_in(source.src, size);
    Axis::of(part.start, part.length, dataset.start, dataset.length)
}

/// The column and the line of the source's dataset at column `x`, line `y` of the mosaic. `mosaic` is the
/// mosaic's size and `size` the dataset's, in pixels. `None` exactly where the source doesn't cover the
/// pixel, or the place in the dataset is outside it.
#[tactic(auto, unfolding(vrt_profile::specs::Cover::cover_of))]
pub fn cover(source: &Source, mosaic: Size, size: Size, x: u32, y: u32) -> Option<(u32, u32)>
    ensures cover { result ≡ cover_of source.now mosaic size x y }
{
    let column = columns(source, mosaic, size).at(size.w, x)?;
    let line = lines(source, mosaic, size).at(size.h, y)?;
    Some((column, line))
}

/// The lines of a mosaic of this size that a source covers.
#[tactic(auto, unfolding(crate::specs::Rows::covers_line))]
pub fn line_span(source: &Source, size: Size) -> Span
    ensures within { result.end ≤ size.h }
    ensures covered { (y : ℕ) → y < size.h → covers_line source.now size y ≡ is_in_span result y }
{
    let part = lines_in(source.dst, size);
    mosaic_part(part.start, part.length, size.h)
}

// Whether none of `count` columns from `first` on has its centre in a part of the mosaic; the same for lines.
fn is_beside(start: i64, length: i64, first: u32, count: u32) -> bool
    requires start { unsigned_abs start < axis_limit }
    requires length { unsigned_abs length < axis_limit }
    ensures beside { IsTrue result → (x : ℕ) → first ≤ x → x < first + count →
        (int_le start (centre x) && int_lt (centre x) (start +ℤ length)) ≡ false }
{
    let low = first as i64 * 1_000_000 + 500_000;
    let high = (first as i64 + count as i64) * 1_000_000 - 500_000;
    let end = start + length;
    if high < start {
        return true;
    }
    if end <= low {
        return true;
    }
    false
}

/// Whether the part of the mosaic that a source is made for lies beside a rectangle of the mosaic: then it
/// covers no pixel there. This takes no division.
pub fn misses(source: &Source, rect: Rect) -> bool
    ensures missed { IsTrue result → (mosaic : Size) → (size : Size) → (x : ℕ) → (y : ℕ) → rect.x ≤ x →
        x < rect.x + rect.w → rect.y ≤ y → y < rect.y + rect.h → cover_of source.now mosaic size x y ≡ None }
{
    match source.dst {
        None => return false,
        Some(part) => {
            if is_beside(part.x, part.w, rect.x, rect.w) {
                return true;
            }
            return is_beside(part.y, part.h, rect.y, rect.h);
        }
    }
}
