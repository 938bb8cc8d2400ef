// The head of a raw raster.
ghost use Rattle.std.specs.Prelude.{◌≡◌, ℤ, pos, neg_ℤ, ◌+ℤ◌, ◌-ℤ◌, ◌<◌, ◌≤◌, ◌*◌, ◌^◌, unsigned_abs};
ghost use Rattle.geotransform.specs.Decimal.{IsRead};
ghost use Rattle.geotransform.specs.Limits.{sixteenth_limit};
ghost use Rattle.esri_hdr.specs.Head.{sample_len, half_of, GeoFits, placed, geotransform_of};

use crate::header_parts::{Layout, RawGeo};
use geotransform::{GeoTransform, PixelType, Sample, Size, Ticks};
use std::marker::Model;

/// The head of a raw raster. It keeps each rule of a header: the sides are from 1 to 4,194,304, the
/// bands from 1 to 256, and the rows are as long as the layout and the samples want.
#[derive(Clone, Copy)]
pub struct RawHead {
    /// Columns and lines.
    pub size: Size,
    pub bands: u32,
    pub kind: PixelType,
    /// Whether the first byte of a sample counts most.
    pub big: bool,
    pub layout: Layout,
    /// The bytes before the first sample, at most 2^40.
    pub skip: u64,
    /// The bytes of a row of one band, at most 2^33 in BIL, the samples' own in the other layouts.
    pub band_row: u64,
    /// The bytes of a line of all bands, at most 2^33 in BIL and BIP; in BSQ those of a band's row.
    pub total_row: u64,
    /// The bytes between two bands, at most 2^40 in BSQ, 0 in the other layouts.
    pub gap: u64,
    /// A number of the type.
    pub nodata: Option<Sample>,
    pub geo: Option<RawGeo>,
}

/// The bytes of a sample.
pub fn sample_len(kind: PixelType) -> usize
    ensures value { result ≡ sample_len kind }
    ensures bounds { (1 ≤ result) × (result ≤ 8) }
{
    kind.bytes()
}

impl Model for RawHead {
    ghost use Rattle.esri_hdr.specs.Head.{Head, IsHead};

    ghost Value = { Head };

    ghost view = { λ h. record {
      size = h.size;
      bands = h.bands;
      kind = h.kind;
      big = h.big;
      layout = h.layout;
      skip = h.skip;
      band_row = h.band_row;
      total_row = h.total_row;
      gap = h.gap;
      nodata = h.nodata;
      geo = h.geo;
    } };

    ghost invariant = { λ h. IsHead (record {
      size = h.size;
      bands = h.bands;
      kind = h.kind;
      big = h.big;
      layout = h.layout;
      skip = h.skip;
      band_row = h.band_row;
      total_row = h.total_row;
      gap = h.gap;
      nodata = h.nodata;
      geo = h.geo;
    }) };

    ghost inverse = { λ h. record {
      size = h.size;
      bands = h.bands;
      kind = h.kind;
      big = h.big;
      layout = h.layout;
      skip = h.skip;
      band_row = h.band_row;
      total_row = h.total_row;
      gap = h.gap;
      nodata = h.nodata;
      geo = h.geo;
    } };
}

/// Half of a size of a pixel, which is even.
fn half_of(size: Ticks) -> i128
    requires { IsRead size }
    ensures value { result ≡ half_of size }
    ensures bound { unsigned_abs result < 18 * sixteenth_limit }
{
    (size.get().unsigned_abs() / 2) as i128
}

fn less(place: Ticks, half: i128) -> Ticks
    requires place { IsRead place }
    requires half { unsigned_abs half < 18 * sixteenth_limit }
    ensures { result ≡ place -ℤ half }
{
    Ticks::of(place.get() - half)
}

fn more(place: Ticks, half: i128) -> Ticks
    requires place { IsRead place }
    requires half { unsigned_abs half < 18 * sixteenth_limit }
    ensures { result ≡ place +ℤ half }
{
    Ticks::of(place.get() + half)
}

fn negated(size: Ticks) -> Ticks
    ensures { result ≡ neg_ℤ size }
{
    Ticks::of(-size.get())
}

/// The geotransform of the pixel whose centre and sizes these are.
fn placed(geo: &RawGeo) -> GeoTransform
    requires { GeoFits geo.now }
    ensures { result ≡ placed geo.now }
{
    let ox = less(geo.ulx, half_of(geo.xdim));
    let oy = more(geo.uly, half_of(geo.ydim));
    GeoTransform {
        ox,
        oy,
        dx: geo.xdim,
        dy: negated(geo.ydim),
    }
}

impl RawHead {
    /// The geotransform, whose origin is half a pixel left of the centre of the upper left pixel and
    /// half a pixel above it. `None` exactly where the head has no `geo`.
    pub fn transform(&self) -> Option<GeoTransform>
        ensures transform { result ≡ geotransform_of self.now }
    {
        let geo = self.geo?;
        Some(placed(&geo))
    }
}
