// The outer mosaic.
ghost use Rattle.std.specs.Prelude.{◌≡◌, pos, ◌*◌, ◌≤◌, ◌<◌, true, IfOk};
ghost use Rattle.vrt_profile.specs.Built.{pixel_rectangle};
ghost use Rattle.synthetic_rasters.specs.Outer.{adding, inner_source, outer_sources, outer_bands, outer_place};
ghost use Rattle.synthetic_rasters.specs.Outer.{outer_document};
ghost use Rattle.synthetic_rasters.specs.Tiles.{most_tile_side};

use crate::names::{inner_name, outer_name};
use crate::side::TileSide;
use geotransform::{GeoTransform, PixelType, Size, Ticks};
use std::alloc::{AllocError, Global};
use vrt_profile::{BandList, Document, MicroRect, Source, SourceList, pixel_rect, plain_source};

// The square of this side at the same column and line.
fn square(at: u32, side: u32) -> MicroRect
    requires at { at ≤ 8192 }
    requires some { 0 < side }
    requires few { side ≤ 8192 }
    ensures rect { result ≡ pixel_rectangle (pos at) (pos at) (pos side) (pos side) }
{
    let (at, side) = (at as i128, side as i128);
    pixel_rect(at, at, side, side)
}

// The source that shows the upper left square of this side of the inner mosaic in another place.
fn inner_source(alloc: Global, side: u32, dst: MicroRect) -> Result<Source, AllocError>
    requires some { 0 < side }
    requires few { side ≤ 8192 }
    ensures source { IfOk result (λ s. s ≡ inner_source side dst) }
{
    let (outer, inner) = (outer_name(alloc)?, inner_name(alloc)?);
    plain_source(alloc, &outer, &inner, 1, square(0, side), dst, Some(-1))
}

// The source with 1000 added to each pixel.
fn adding(alloc: Global, source: Source) -> Result<Source, AllocError>
    requires complex { source.complex ≡ true }
    ensures source { IfOk result (λ s. s ≡ adding 1000 source) }
{
    source.with_offset(alloc, 1_000_000_000_000_000)
}

// The sources of the outer mosaic.
fn outer_sources(alloc: Global, side: u32) -> Result<SourceList, AllocError>
    requires some { 0 < side }
    requires few { side ≤ most_tile_side }
    ensures sources { IfOk result (λ l. l ≡ outer_sources side) }
{
    let mut sources = SourceList::new(alloc);
    let whole = 2 * side;
    sources.push(inner_source(alloc, whole, square(0, whole))?)?;
    let upper_left = inner_source(alloc, side, square(side, side))?;
    sources.push(adding(alloc, upper_left)?)?;
    Ok(sources)
}

// The one band of the outer mosaic.
fn outer_bands(alloc: Global, side: u32) -> Result<BandList, AllocError>
    requires some { 0 < side }
    requires few { side ≤ most_tile_side }
    ensures bands { IfOk result (λ l. l ≡ outer_bands side) }
{
    let sources = outer_sources(alloc, side)?;
    let mut bands = BandList::new(alloc);
    bands.push(sources.into_band(PixelType::Int16, Some(-1)))?;
    Ok(bands)
}

// The place of a mosaic of the tiles.
fn outer_place() -> GeoTransform
    ensures place { result ≡ outer_place }
{
    GeoTransform {
        ox: Ticks::of(0),
        oy: Ticks::of(0),
        dx: Ticks::of(180_000_000_000_000_000),
        dy: Ticks::of(-180_000_000_000_000_000),
    }
}

/// The document of the outer mosaic of tiles with this side: the mosaic of the tiles whole, and over its lower right
/// quarter the upper left one with 1000 added. Only memory is refused.
#[tactic(auto, unfolding(crate::specs::Outer::outer_document))]
pub fn outer_document(alloc: Global, side: TileSide) -> Result<Document, AllocError>
    ensures document { IfOk result (λ d. d ≡ outer_document side) }
{
    let side = side.get();
    let bands = outer_bands(alloc, side)?;
    let size = Size {
        w: 2 * side,
        h: 2 * side,
    };
    bands.into_document(size, &None, Some(outer_place()))
}
