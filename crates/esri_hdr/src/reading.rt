// Reading a header: the values of its keys, and the head that they give.
ghost use Rattle.std.specs.Prelude.{IfSome, true, int_lt, pos, ◌+ℤ◌, ◌-ℤ◌, ◌≡◌, ℕ, ◌<◌, ◌≤◌, ◌+◌, ◌*◌, ◌/◌, ◌^◌};
ghost use Rattle.std.specs.Prelude.{length, IfOk, Option};
ghost use Rattle.std.specs.Option.{option_map};
ghost use Rattle.esri_hdr.specs.Steps.{lookup, IsShape};
ghost use Rattle.geotransform.specs.Decimal.{IsRead};
ghost use Rattle.geotransform.specs.Types.{is_in};
ghost use Rattle.esri_hdr.specs.Head.{RowsFit, GeoFits, place_in, step_in, geo_in, nodata_in, shape_of, row_len};
ghost use Rattle.esri_hdr.specs.Head.{row_keys_of, geo_of, head_from, head_of, esri_head, IsHead};

use crate::centre::{is_left_near, is_top_near};
use crate::head::RawHead;
use crate::header_parts::{HdrFault, Layout, RawGeo, Rows, Shape};
use crate::keys::{
    BANDGAPBYTES, BANDROWBYTES, BYTEORDER, LAYOUT, NBANDS, NBITS, NCOLS, NODATA, NROWS, PIXELTYPE,
    SKIPBYTES, TOTALROWBYTES, ULXMAP, ULYMAP, XDIM, YDIM,
};
use crate::lines::scan;
use crate::values::{
    band_row_in, bands_in, big_endian_in, bits_in, gap_in, layout_in, side_in, signed_in, skip_in,
    total_row_in, type_of_bits,
};
use geotransform::{PixelType, Sample, Size, Ticks, read_decimal, read_whole, when_in};

/// The values of the keys, by their numbers.
type Found<'a> = [Option<&'a [u8]>; 16];

#[tactic(auto, unfolding(crate::specs::Head::shape_of))]
fn shape_of(found: &Found<'_>) -> Result<Shape, HdrFault>
    ensures value { result ≡ shape_of (lookup found.now) }
    ensures shape { IfOk result IsShape }
{
    let rows = found[NROWS].ok_or(HdrFault::MissingKey)?;
    let cols = found[NCOLS].ok_or(HdrFault::MissingKey)?;
    let h = side_in(rows)?;
    let w = side_in(cols)?;
    let bands = bands_in(found[NBANDS])?;
    let bits = bits_in(found[NBITS])?;
    let big = big_endian_in(found[BYTEORDER])?;
    let layout = layout_in(found[LAYOUT])?;
    let skip = skip_in(found[SKIPBYTES])?;
    let signed = signed_in(bits, found[PIXELTYPE], found[NODATA])?;
    Ok(Shape {
        w,
        h,
        bands,
        bits,
        big,
        layout,
        skip,
        signed,
    })
}

#[tactic(auto, unfolding(crate::specs::Head::row_keys_of))]
fn rows_of(shape: &Shape, found: &Found<'_>) -> Result<Rows, HdrFault>
    requires { IsShape shape.now }
    ensures value { result ≡ row_keys_of shape.now (lookup found.now) }
    ensures fit { IfOk result (RowsFit shape.now.layout shape.now.bands (row_len shape.now)) }
{
    let row = row_len(shape);
    let band_row = band_row_in(shape.layout, row, found[BANDROWBYTES])?;
    let total_row = total_row_in(
        shape.layout,
        shape.bands,
        row,
        band_row,
        found[TOTALROWBYTES],
    )?;
    let gap = gap_in(shape.layout, found[BANDGAPBYTES])?;
    Ok(Rows {
        band_row,
        total_row,
        gap,
    })
}

fn row_len(shape: &Shape) -> u64
    requires { IsShape shape.now }
    ensures value { result ≡ row_len shape.now }
    ensures bound { result ≤ 2 ^ 25 }
{
    shape.w as u64 * (shape.bits / 8) as u64
}

#[tactic(auto, unfolding(crate::specs::Head::place_in))]
fn place_in(text: Option<&[u8]>) -> Result<Option<Ticks>, HdrFault>
    ensures read { IfOk result (λ p. IfSome p IsRead) }
    ensures value { result ≡ place_in (option_map (λ v. v.now) text.entry) }
{
    let Some(text) = text else {
        return Ok(None);
    };
    Ok(Some(read_decimal(text).ok_or(HdrFault::BadValue)?))
}

#[tactic(auto, unfolding(crate::specs::Head::step_in))]
fn step_in(text: Option<&[u8]>) -> Result<Ticks, HdrFault>
    ensures read { IfOk result (λ v. IsRead v × (int_lt (pos 0) v ≡ true)) }
    ensures value { result ≡ step_in (option_map (λ v. v.now) text.entry) }
{
    let Some(text) = text else {
        return Ok(Ticks::UNIT);
    };
    let step = read_decimal(text).ok_or(HdrFault::BadValue)?;
    if step.get() > 0 {
        Ok(step)
    } else {
        Err(HdrFault::BadValue)
    }
}

#[tactic(auto, unfolding(crate::specs::Head::geo_in))]
fn geo_in(
    ulx: Option<Ticks>,
    uly: Option<Ticks>,
    xdim: Ticks,
    ydim: Ticks,
) -> Result<Option<RawGeo>, HdrFault>
    requires ulx { IfSome ulx IsRead }
    requires uly { IfSome uly IsRead }
    requires xdim { IsRead xdim × (int_lt (pos 0) xdim ≡ true) }
    requires ydim { IsRead ydim × (int_lt (pos 0) ydim ≡ true) }
    ensures value { result ≡ geo_in ulx uly xdim ydim }
    ensures fits { IfOk result (λ g. IfSome g GeoFits) }
{
    let (Some(ulx), Some(uly)) = (ulx, uly) else {
        return Ok(None);
    };
    if is_left_near(ulx, xdim) && is_top_near(uly, ydim) {
        Ok(Some(RawGeo {
            ulx,
            uly,
            xdim,
            ydim,
        }))
    } else {
        Err(HdrFault::BadValue)
    }
}

#[tactic(auto, unfolding(crate::specs::Head::nodata_in))]
fn nodata_in(kind: PixelType, text: Option<&[u8]>) -> Option<Sample>
    ensures value { result ≡ nodata_in kind (option_map (λ v. v.now) text.entry) }
    ensures within { IfSome result (λ m. is_in kind m ≡ true) }
{
    when_in(kind, read_whole(text?))
}

#[tactic(auto, unfolding(crate::specs::Head::geo_of))]
fn geo_of(found: &Found<'_>) -> Result<Option<RawGeo>, HdrFault>
    ensures value { result ≡ geo_of (lookup found.now) }
    ensures fits { IfOk result (λ g. IfSome g GeoFits) }
{
    let ulx = place_in(found[ULXMAP])?;
    let uly = place_in(found[ULYMAP])?;
    let xdim = step_in(found[XDIM])?;
    let ydim = step_in(found[YDIM])?;
    geo_in(ulx, uly, xdim, ydim)
}

fn head_from(shape: &Shape, rows: &Rows, geo: Option<RawGeo>, nodata: Option<&[u8]>) -> RawHead
    requires shape { IsShape shape.now }
    requires rows { RowsFit shape.now.layout shape.now.bands (row_len shape.now) rows.now }
    requires geo { IfSome geo GeoFits }
    ensures { result ≡ head_from shape.now rows.now geo (option_map (λ v. v.now) nodata.entry) }
{
    let kind = type_of_bits(shape.bits, shape.signed);
    RawHead {
        size: Size {
            w: shape.w,
            h: shape.h,
        },
        bands: shape.bands,
        kind,
        big: shape.big,
        layout: shape.layout,
        skip: shape.skip,
        band_row: rows.band_row,
        total_row: rows.total_row,
        gap: rows.gap,
        nodata: nodata_in(kind, nodata),
        geo,
    }
}

#[tactic(auto, unfolding(crate::specs::Head::head_of))]
fn head_of(found: &Found<'_>) -> Result<RawHead, HdrFault>
    ensures { result ≡ head_of (lookup found.now) }
{
    let shape = shape_of(found)?;
    let rows = rows_of(&shape, found)?;
    let geo = geo_of(found)?;
    Ok(head_from(&shape, &rows, geo, found[NODATA]))
}

/// The greatest length of a header, in bytes.
pub const LONGEST_HEADER: usize = 1_048_576;

/// The head that the header's text gives, or its first fault.
#[tactic(auto, unfolding(crate::specs::Head::esri_head))]
pub fn read(bytes: &[u8]) -> Result<RawHead, HdrFault>
    ensures head { result ≡ esri_head bytes.now }
    ensures valid { IfOk result IsHead }
{
    if bytes.len() > LONGEST_HEADER {
        return Err(HdrFault::Limit);
    }
    head_of(&scan(bytes))
}
