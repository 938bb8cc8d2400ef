// The sources of a band that are asked for a rectangle, through the indexes of bands that are kept.
ghost use Rattle.std.specs.Prelude.{◌≡◌, ◌≤◌, IfOk, Some, length, slice_get, true};
ghost use Rattle.std.specs.List.{All};
ghost use Rattle.catalog.specs.Drivers.{Dataset};
ghost use Rattle.catalog.specs.Places.{IsWithin};
ghost use Rattle.nearest_window.specs.Right.{IsIndexIn};
ghost use Rattle.nearest_window.specs.BlockKeys.{IsMosaicKey};
ghost use Rattle.nearest_window.specs.Wanted.{IsWanted, numbers_of};
ghost use Rattle.vrt_profile.specs.Values.{most_sources};

use crate::indexes::{Indexes, Kept};
use crate::wanted::{Wanted, all_of, wanted_of};
use band_blocks::BlockKey;
use catalog::Catalog;
use geotransform::Rect;
use mosaic_sources::RowIndex;
use std::alloc::{AllocError, Global};
use vrt_profile::{Sources, VrtBand};

// So few sources are all asked.
const FEW: usize = 16;

// An index has at most so many sources.
const MOST_SOURCES: usize = catalog::MOST_SOURCES as usize;

// Whether the sources of a band are indexed.
fn is_indexed(sources: &Sources) -> bool
    ensures few { result ≡ true → length sources.now ≤ most_sources }
{
    sources.len() > FEW && sources.len() <= MOST_SOURCES
}

// A band with the index of its sources. It is refused where memory is.
fn kept_of(alloc: Global, cat: &Catalog, key: BlockKey, band: &VrtBand) -> Result<Kept, AllocError>
    requires key { IsMosaicKey cat.now key band.now }
    requires few { length band.now.sources ≤ most_sources }
    ensures index { IfOk result (IsIndexIn cat.now) }
{
    let index = RowIndex::new(alloc, &band.sources, cat.head(key.dataset).size)?;
    Ok(Kept {
        dataset: key.dataset,
        band: key.band,
        index,
    })
}

// Sees that a band is indexed, where there is room for it. It is refused where memory is.
fn index_band(
    indexes: &mut Indexes,
    alloc: Global,
    cat: &Catalog,
    key: BlockKey,
    band: &VrtBand,
) -> Result<(), AllocError>
    requires listed { All (IsIndexIn cat.now) indexes.old }
    requires key { IsMosaicKey cat.now key band.now }
    requires few { length band.now.sources ≤ most_sources }
    ensures listed { All (IsIndexIn cat.now) indexes.new }
{
    if !indexes.has_room() {
        return Ok(());
    }
    if indexes.find(key.dataset, key.band).is_some() {
        return Ok(());
    }
    let kept = kept_of(alloc, cat, key, band)?;
    indexes.put(kept)
}

// The sources that a rectangle of a mosaic's band needs, by the band's index where it is kept. It is refused where
// memory is.
fn found_in(
    alloc: Global,
    indexes: &Indexes,
    cat: &Catalog,
    key: BlockKey,
    band: &VrtBand,
    rect: Rect,
) -> Result<Wanted, AllocError>
    requires listed { All (IsIndexIn cat.now) indexes.now }
    requires key { IsMosaicKey cat.now key band.now }
    requires within { (d : Dataset) → slice_get cat.now key.dataset ≡ Some d → IsWithin rect d.head.size }
    ensures wanted { (d : Dataset) → slice_get cat.now key.dataset ≡ Some d →
        IfOk result (λ w. IsWanted band.now.sources d.head.size rect (numbers_of w)) }
{
    let Some(kept) = indexes.find(key.dataset, key.band) else {
        return Ok(all_of(&band.sources));
    };
    wanted_of(alloc, kept, &band.sources, cat.head(key.dataset).size, rect)
}

/// The sources that a rectangle of a mosaic's band needs. Where they are more than 16, the band is indexed, as long as
/// there is room for it. It is refused where memory is.
pub fn wanted_in(
    indexes: &mut Indexes,
    alloc: Global,
    cat: &Catalog,
    key: BlockKey,
    band: &VrtBand,
    rect: Rect,
) -> Result<Wanted, AllocError>
    requires listed { All (IsIndexIn cat.now) indexes.old }
    requires key { IsMosaicKey cat.now key band.now }
    requires within { (d : Dataset) → slice_get cat.now key.dataset ≡ Some d → IsWithin rect d.head.size }
    ensures listed { All (IsIndexIn cat.now) indexes.new }
    ensures wanted { (d : Dataset) → slice_get cat.now key.dataset ≡ Some d →
        IfOk result (λ w. IsWanted band.now.sources d.head.size rect (numbers_of w)) }
{
    if !is_indexed(&band.sources) {
        return Ok(all_of(&band.sources));
    }
    index_band(indexes, alloc, cat, key, band)?;
    found_in(alloc, indexes, cat, key, band, rect)
}
