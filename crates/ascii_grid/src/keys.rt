// The keys of the head, and what they say.
ghost use Rattle.std.specs.Prelude.{◌≡◌, ℤ, pos, neg_ℤ, ◌+ℤ◌, ◌<◌, ◌≤◌, ◌*◌, ◌/◌, ◌^◌, unsigned_abs, Ok, Err};
ghost use Rattle.std.specs.Prelude.{IfErr, OnOk, ◌≢◌, length};
ghost use Rattle.lists_and_answers.specs.Texts.{same_letters};
ghost use Rattle.ascii_grid.specs.Keys.{key_of, with_value, edge_of, steps_of, placed, shape_of};
ghost use Rattle.geotransform.specs.Limits.{most_side, sixteenth_limit};

use crate::faults::GridFault;
use crate::head_parts::{Found, Key, LowerLeft, PixelSize, Shape, Side};
use crate::values::{coordinate_in, nodata_in, side_in, step_in};
use geotransform::{GeoTransform, Ticks};
use lists_and_answers::same_letters;

// Whether a text is a name but for the case of its letters. Most texts that aren't have another length.
#[tactic(auto, using(crate::proofs::Names::other_length))]
fn is_name(text: &[u8], name: &[u8]) -> bool
    ensures { result ≡ same_letters text.now name.now }
{
    text.len() == name.len() && same_letters(text, name)
}

// The key that two letters name.
#[tactic(auto, using(crate::proofs::Names::short_names))]
fn short_key(text: &[u8]) -> Option<Key>
    requires { length text.now ≡ 2 }
    ensures { result ≡ key_of text.now }
{
    if is_name(text, b"dx") {
        Some(Key::Dx)
    } else if is_name(text, b"dy") {
        Some(Key::Dy)
    } else {
        None
    }
}

// The key that a token of another length names.
#[inline(never)]
#[tactic(auto, using(crate::proofs::Names::not_dx, crate::proofs::Names::not_dy))]
fn long_key(text: &[u8]) -> Option<Key>
    requires { length text.now ≢ 2 }
    ensures { result ≡ key_of text.now }
{
    if is_name(text, b"ncols") {
        Some(Key::Ncols)
    } else if is_name(text, b"nrows") {
        Some(Key::Nrows)
    } else if is_name(text, b"xllcorner") {
        Some(Key::Xllcorner)
    } else if is_name(text, b"xllcenter") {
        Some(Key::Xllcenter)
    } else if is_name(text, b"yllcorner") {
        Some(Key::Yllcorner)
    } else if is_name(text, b"yllcenter") {
        Some(Key::Yllcenter)
    } else if is_name(text, b"cellsize") {
        Some(Key::Cellsize)
    } else if is_name(text, b"NODATA_value") {
        Some(Key::Nodata)
    } else {
        None
    }
}

/// The key that a token names.
pub fn key_of(text: &[u8]) -> Option<Key>
    ensures { result ≡ key_of text.now }
{
    if text.len() == 2 {
        short_key(text)
    } else {
        long_key(text)
    }
}

// Keeps any key's value, in a function of its own: what most keys need on the stack isn't made for a size of a pixel.
#[inline(never)]
#[tactic(auto, unfolding(crate::specs::Keys::with_value))]
fn set_any(found: &mut Found, key: Key, at: u64, text: &[u8]) -> Result<(), GridFault>
    ensures ok { OnOk result (with_value found.old key (record { at = at; text = text.now }) ≡ Ok found.new) }
    ensures err { IfErr result (λ f. with_value found.old key (record { at = at; text = text.now }) ≡ Err f) }
{
    match key {
        Key::Ncols => found.ncols = Some(side_in(at, text)?),
        Key::Nrows => found.nrows = Some(side_in(at, text)?),
        Key::Xllcorner => found.x = Some(LowerLeft::Edge(coordinate_in(at, text)?)),
        Key::Xllcenter => found.x = Some(LowerLeft::Centre(coordinate_in(at, text)?)),
        Key::Yllcorner => found.y = Some(LowerLeft::Edge(coordinate_in(at, text)?)),
        Key::Yllcenter => found.y = Some(LowerLeft::Centre(coordinate_in(at, text)?)),
        Key::Cellsize => found.cellsize = Some(step_in(at, text)?),
        Key::Dx => found.dx = Some(step_in(at, text)?),
        Key::Dy => found.dy = Some(step_in(at, text)?),
        Key::Nodata => found.nodata = nodata_in(at, text)?,
    }
    Ok(())
}

/// Keeps a key's value that is found now.
#[inline(always)]
#[tactic(auto, unfolding(crate::specs::Keys::with_value))]
pub fn set_value(found: &mut Found, key: Key, at: u64, text: &[u8]) -> Result<(), GridFault>
    ensures ok { OnOk result (with_value found.old key (record { at = at; text = text.now }) ≡ Ok found.new) }
    ensures err { IfErr result (λ f. with_value found.old key (record { at = at; text = text.now }) ≡ Err f) }
{
    match key {
        Key::Dx => found.dx = Some(step_in(at, text)?),
        Key::Dy => found.dy = Some(step_in(at, text)?),
        _ => return set_any(found, key, at, text),
    }
    Ok(())
}

/// What was found, and a key's value that is found now.
pub fn with_value(found: Found, key: Key, at: u64, text: &[u8]) -> Result<Found, GridFault>
    ensures { result ≡ with_value found key (record { at = at; text = text.now }) }
{
    let mut found = found;
    set_value(&mut found, key, at, text)?;
    Ok(found)
}

// Half a size of a pixel.
fn half_of(step: PixelSize) -> i128
    ensures value { result ≡ pos (step / 2) }
    ensures bound { unsigned_abs result < 18 * sixteenth_limit }
{
    (step.get() / 2) as i128
}

// The left or the lower edge of the lower left pixel.
fn edge_of(place: LowerLeft, step: PixelSize) -> i128
    ensures value { result ≡ edge_of place step }
    ensures bound { unsigned_abs result < 36 * sixteenth_limit }
{
    match place {
        LowerLeft::Edge(at) => at.get(),
        LowerLeft::Centre(at) => at.get() - half_of(step),
    }
}

// The width and the height of a pixel.
fn steps_of(
    cellsize: Option<PixelSize>,
    dx: Option<PixelSize>,
    dy: Option<PixelSize>,
) -> Option<(PixelSize, PixelSize)>
    ensures { result ≡ steps_of cellsize dx dy }
{
    match (cellsize, dx, dy) {
        (Some(step), _, _) => Some((step, step)),
        (None, Some(dx), Some(dy)) => Some((dx, dy)),
        _ => None,
    }
}

// The height of so many rows of pixels.
#[tactic(auto, using(crate::proofs::Products::height_small))]
fn rows_height(h: Side, step: PixelSize) -> i128
    ensures value { result ≡ pos (h * step) }
    ensures bound { unsigned_abs result ≤ most_side * (18 * sixteenth_limit) }
{
    (u128::from(h.get()) * step.get()) as i128
}

// The upper edge of rows whose lower edge and height these are.
fn top_of(bottom: i128, height: i128) -> Ticks
    requires bottom { unsigned_abs bottom < 36 * sixteenth_limit }
    requires height { unsigned_abs height ≤ most_side * (18 * sixteenth_limit) }
    ensures { result ≡ bottom +ℤ height }
{
    Ticks::of(bottom + height)
}

// A step to the east, in ticks.
fn eastward(step: PixelSize) -> Ticks
    ensures { result ≡ pos step }
{
    Ticks::of(step.get() as i128)
}

// A step to the south, in ticks.
fn southward(step: PixelSize) -> Ticks
    ensures { result ≡ neg_ℤ (pos step) }
{
    Ticks::of(-(step.get() as i128))
}

// The geotransform of so many rows of pixels of these sizes, of which the lower left one has these
// edges.
fn placed(left: i128, bottom: i128, steps: (PixelSize, PixelSize), h: Side) -> Option<GeoTransform>
    requires left { unsigned_abs left < 36 * sixteenth_limit }
    requires bottom { unsigned_abs bottom < 36 * sixteenth_limit }
    ensures { result ≡ placed left bottom steps h }
{
    let top = top_of(bottom, rows_height(h, steps.1));
    GeoTransform::new(Ticks::of(left), top, eastward(steps.0), southward(steps.1))
}

/// What the head says at its end.
#[tactic(auto, unfolding(crate::specs::Keys::shape_of))]
pub fn shape_of(found: Found) -> Result<Shape, GridFault>
    ensures { result ≡ shape_of found }
{
    let w = found.ncols.ok_or(GridFault::MissingKey)?;
    let h = found.nrows.ok_or(GridFault::MissingKey)?;
    let x = found.x.ok_or(GridFault::MissingKey)?;
    let y = found.y.ok_or(GridFault::MissingKey)?;
    let steps = steps_of(found.cellsize, found.dx, found.dy).ok_or(GridFault::MissingKey)?;
    let left = edge_of(x, steps.0);
    let bottom = edge_of(y, steps.1);
    let geo = placed(left, bottom, steps, h).ok_or(GridFault::Limit)?;
    Ok(Shape {
        w,
        h,
        geo,
        nodata: found.nodata,
    })
}
