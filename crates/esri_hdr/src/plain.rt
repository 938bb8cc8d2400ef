// The head of a raster whose file has its samples alone.
ghost use Rattle.std.specs.Prelude.{◌≡◌, ◌<◌, ◌≤◌, ◌*◌, ◌^◌, IfSome, true, ℕ};
ghost use Rattle.geotransform.specs.Types.{is_in};
ghost use Rattle.geotransform.specs.Geo.{IsRaster};
ghost use Rattle.esri_hdr.specs.Head.{IsHead, GeoFits, sample_len, plain_row, plain_head};
ghost use Rattle.geotransform.specs.Limits.{most_bands, most_side};

use crate::head::{RawHead, sample_len};
use crate::header_parts::{Layout, RawGeo};
use geotransform::{PixelType, Sample, Size};

/// The bytes of a row of one band.
#[tactic(auto, using(crate::proofs::Heads::row_bound))]
fn row_of(columns: u32, kind: PixelType) -> u64
    requires { columns ≤ most_side }
    ensures value { result ≡ columns * sample_len kind }
    ensures bound { result ≤ 8 * most_side }
{
    let len = sample_len(kind) as u64;
    columns as u64 * len
}

/// The bytes of a line of all bands.
fn plain_row(layout: Layout, bands: u32, row: u64) -> u64
    requires bands { bands ≤ most_bands }
    requires row { row ≤ 8 * most_side }
    ensures { result ≡ plain_row layout bands row }
{
    match layout {
        Layout::Bil => bands as u64 * row,
        Layout::Bip => row * bands as u64,
        Layout::Bsq => row,
    }
}

impl RawHead {
    /// The head of a raster whose file has its samples alone: the byte that counts least in front, no
    /// skipped bytes, no padding and no gap.
    #[tactic(auto, using(crate::proofs::Heads::plain_is_head))]
    pub fn plain(
        size: Size,
        bands: u32,
        kind: PixelType,
        layout: Layout,
        nodata: Option<Sample>,
        geo: Option<RawGeo>,
    ) -> RawHead
        requires size { IsRaster size }
        requires some { 0 < bands }
        requires bands { bands ≤ most_bands }
        requires nodata { IfSome nodata (λ n. is_in kind n ≡ true) }
        requires geo { IfSome geo GeoFits }
        ensures head { result ≡ plain_head size bands kind layout nodata geo }
        ensures rules { IsHead result }
    {
        let row = row_of(size.w, kind);
        RawHead {
            size,
            bands,
            kind,
            big: false,
            layout,
            skip: 0,
            band_row: row,
            total_row: plain_row(layout, bands, row),
            gap: 0,
            nodata,
            geo,
        }
    }
}
