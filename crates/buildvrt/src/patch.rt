// Where the inputs lie in the mosaic.
ghost use Rattle.std.specs.Prelude.{◌≡◌, ℕ, ℤ, pos, ◌*ℤ◌, ◌<ℤ◌, ◌<◌, ◌≤◌, ◌↔◌, IsTrue, IfOk};
ghost use Rattle.std.specs.Prelude.{unsigned_abs};
ghost use Rattle.std.specs.List.{All};
ghost use Rattle.lists_and_answers.specs.Answers.{Gives};
ghost use Rattle.buildvrt.specs.Mosaic.{IsMemory};
ghost use Rattle.geotransform.specs.Geo.{IsNear};
ghost use Rattle.buildvrt.specs.Rectangles.{rectangle_of, meets_side, meets, is_offset, shown_in, patch_of, patches_of};
ghost use Rattle.buildvrt.specs.Rectangles.{IsPatch};
ghost use Rattle.buildvrt.specs.Limits.{pixel_limit, IsPixelRect};
ghost use Rattle.geotransform.specs.Limits.{farthest, most_side};

use crate::faults::BuildFault;
use crate::grid::{Grid, difference, negative, rounded, some_pixels, way_of};
use crate::tile::Tile;
use catalog::Head;
use geotransform::{Size, Ticks};
use lists_and_answers::Items;
use std::alloc::Global;
use std::marker::Model;
use vrt_profile::{MicroRect, pixel_rect};

/// The greatest offset and size of a rectangle, in pixels.
const FARTHEST: u128 = geotransform::FARTHEST as u128;

// A rectangle in whole pixels of the mosaic.
#[derive(Clone, Copy)]
pub struct PixelRect {
    pub x: i128,
    pub y: i128,
    pub w: i128,
    pub h: i128,
}

// An input, and its rectangle in the mosaic.
#[derive(Drop)]
pub struct Patch<'a> {
    pub head: &'a Head,
    pub shown: Option<MicroRect>,
}

impl<'a> Model for Patch<'a> {
    ghost use Rattle.buildvrt.specs.Rectangles.{PatchValue, IsPatch};

    ghost Value = { PatchValue };

    ghost view = { λ p. record { head = p.head.now; shown = p.shown } };

    ghost invariant = { λ p. IsPatch (record { head = p.head.now; shown = p.shown }) };
}

// So many steps.
fn way(count: u32, step: Ticks) -> Ticks
    requires count { count ≤ most_side }
    requires step { IsNear step }
    ensures value { result ≡ pos count *ℤ step }
{
    Ticks::of(way_of(count, step.get()))
}

// The pixels on which an input comes to lie.
fn rectangle_of(grid: &Grid, tile: &Tile) -> PixelRect
    ensures value { result ≡ rectangle_of grid.now tile.now }
    ensures rules { IsPixelRect result }
{
    let head = tile.head;
    let size = head.size;
    let place = tile.place;
    let (dx, dy) = (grid.dx, grid.dy);
    PixelRect {
        x: rounded(difference(place.ox, grid.left), dx),
        y: rounded(difference(grid.top, place.oy), dy),
        w: some_pixels(way(size.w, place.dx), dx),
        h: some_pixels(way(size.h, negative(place.dy)), dy),
    }
}

fn meets_side(x: i128, w: i128, side: u32) -> bool
    requires x { unsigned_abs x < pixel_limit }
    requires w { unsigned_abs w < pixel_limit }
    ensures { result ≡ meets_side x w side }
{
    x < side as i128 && 0 < x + w
}

fn meets(size: Size, rect: PixelRect) -> bool
    requires { IsPixelRect rect }
    ensures { result ≡ meets size rect }
{
    meets_side(rect.x, rect.w, size.w) && meets_side(rect.y, rect.h, size.h)
}

fn is_offset(v: i128) -> bool
    ensures value { result ≡ is_offset v }
    ensures within { IsTrue result ↔ (unsigned_abs v ≤ farthest) }
{
    v.unsigned_abs() <= FARTHEST
}

#[tactic(auto, using(crate::proofs::Patches::shown_is))]
fn shown_in(size: Size, rect: PixelRect) -> Result<Option<MicroRect>, BuildFault>
    requires rect { IsPixelRect rect }
    ensures value { result ≡ shown_in size rect }
{
    if !meets(size, rect) {
        return Ok(None);
    }
    let PixelRect { x, y, w, h } = rect;
    if is_offset(x) && is_offset(y) && is_offset(w) && is_offset(h) {
        Ok(Some(pixel_rect(x, y, w, h)))
    } else {
        Err(BuildFault::Limit)
    }
}

// An input with its rectangle.
#[tactic(auto, unfolding(crate::specs::Rectangles::patch_of))]
fn patch_of<'a>(grid: &Grid, tile: &Tile<'a>) -> Result<Patch<'a>, BuildFault>
    ensures value { result ≡ patch_of grid.now tile.now }
    ensures rules { IfOk result IsPatch }
{
    let head = tile.head;
    match shown_in(grid.size, rectangle_of(grid, tile)) {
        Ok(shown) => Ok(Patch { head, shown }),
        Err(fault) => Err(fault),
    }
}

/// All inputs with their rectangles, in order.
#[tactic(auto, using(crate::proofs::Filled::patches_next, crate::proofs::Filled::patches_refused))]
pub fn patches_of<'a>(
    alloc: Global,
    grid: &Grid,
    tiles: &[Tile<'a>],
) -> Result<Items<Patch<'a>>, BuildFault>
    ensures patches { Gives IsMemory (λ v. v) result (patches_of grid.now tiles.now) }
    ensures rules { IfOk result (λ v. All IsPatch v) }
{
    let mut patches = Items::new(alloc);
    for tile in tiles {
        match patch_of(grid, tile) {
            Ok(patch) => patches.push(patch)?,
            Err(fault) => return Err(fault),
        }
    }
    Ok(patches)
}
