// Writing a header.
ghost use Rattle.std.specs.Prelude.{◌≡◌, ℕ, ◌<◌, ◌≤◌, ◌+◌, ◌-◌, ◌*◌, ◌++◌, [], ◌∷◌, Option, OnOk, OnErr};
ghost use Rattle.std.specs.Fmt.{decimal};
ghost use Rattle.lists_and_answers.specs.Growth.{KeepsFront};
ghost use Rattle.geotransform.specs.Print.{short_text};
ghost use Rattle.esri_hdr.specs.Text.{order_text, layout_text, sign_text, nodata_fields, geo_fields, layout_fields};
ghost use Rattle.esri_hdr.specs.Text.{sample_fields, row_fields, hdr_text};
ghost use Rattle.esri_hdr.specs.Steps.{AppendsLines};

use crate::head::{RawHead, sample_len};
use crate::header_parts::{Layout, RawGeo};
use crate::keys::{
    BANDGAPBYTES, BANDROWBYTES, BYTEORDER, LAYOUT, NBANDS, NBITS, NCOLS, NODATA, NROWS, PIXELTYPE,
    SKIPBYTES, TOTALROWBYTES, ULXMAP, ULYMAP, XDIM, YDIM, label,
};
use geotransform::{PixelType, Sample, Ticks, print_short};
use itoa::Buffer;
use std::alloc::AllocError;

#[tactic(auto, using(crate::proofs::Writes::line_made, crate::proofs::Writes::keeps_pushes))]
fn push_text(key: usize, value: &[u8], out: &mut Vec<u8>) -> Result<(), AllocError>
    requires { key < 16 }
    ensures ok { OnOk result (AppendsLines out.old.items out.new.items ((key, value.now) ∷ [])) }
    ensures err { OnErr result (KeepsFront out.old.items out.new.items) }
{
    out.extend_from_slice(label(key))?;
    out.extend_from_slice(value)?;
    out.push(b'\n')?;
    Ok(())
}

fn push_number(key: usize, n: u64, out: &mut Vec<u8>) -> Result<(), AllocError>
    requires { key < 16 }
    ensures ok { OnOk result (AppendsLines out.old.items out.new.items ((key, decimal n) ∷ [])) }
    ensures err { OnErr result (KeepsFront out.old.items out.new.items) }
{
    let mut buffer = Buffer::new();
    push_text(key, buffer.format(n).as_bytes(), out)
}

fn push_ticks(key: usize, value: Ticks, out: &mut Vec<u8>) -> Result<(), AllocError>
    requires { key < 16 }
    ensures ok { OnOk result (AppendsLines out.old.items out.new.items ((key, short_text value) ∷ [])) }
    ensures err { OnErr result (KeepsFront out.old.items out.new.items) }
{
    out.extend_from_slice(label(key))?;
    print_short(value, out)?;
    out.push(b'\n')?;
    Ok(())
}

fn order_text(big: bool) -> &'static [u8]
    ensures { result.now ≡ order_text big }
{
    if big { b"M" } else { b"I" }
}

fn layout_text(layout: Layout) -> &'static [u8]
    ensures { result.now ≡ layout_text layout }
{
    match layout {
        Layout::Bil => b"BIL",
        Layout::Bip => b"BIP",
        Layout::Bsq => b"BSQ",
    }
}

fn sign_text(kind: PixelType) -> &'static [u8]
    ensures { result.now ≡ sign_text kind }
{
    if kind.is_signed() {
        b"SIGNEDINT"
    } else {
        b"UNSIGNEDINT"
    }
}

fn push_layout(head: &RawHead, out: &mut Vec<u8>) -> Result<(), AllocError>
    ensures ok { OnOk result (AppendsLines out.old.items out.new.items (layout_fields head.now)) }
    ensures err { OnErr result (KeepsFront out.old.items out.new.items) }
{
    push_text(BYTEORDER, order_text(head.big), out)?;
    push_text(LAYOUT, layout_text(head.layout), out)?;
    push_number(NROWS, head.size.h as u64, out)?;
    push_number(NCOLS, head.size.w as u64, out)?;
    Ok(())
}

fn push_samples(head: &RawHead, out: &mut Vec<u8>) -> Result<(), AllocError>
    ensures ok { OnOk result (AppendsLines out.old.items out.new.items (sample_fields head.now)) }
    ensures err { OnErr result (KeepsFront out.old.items out.new.items) }
{
    push_number(NBANDS, head.bands as u64, out)?;
    push_number(NBITS, 8 * sample_len(head.kind) as u64, out)?;
    push_number(SKIPBYTES, head.skip, out)?;
    Ok(())
}

fn push_rows(head: &RawHead, out: &mut Vec<u8>) -> Result<(), AllocError>
    ensures ok { OnOk result (AppendsLines out.old.items out.new.items (row_fields head.now)) }
    ensures err { OnErr result (KeepsFront out.old.items out.new.items) }
{
    push_number(BANDROWBYTES, head.band_row, out)?;
    push_number(TOTALROWBYTES, head.total_row, out)?;
    push_number(BANDGAPBYTES, head.gap, out)?;
    push_text(PIXELTYPE, sign_text(head.kind), out)?;
    Ok(())
}

fn push_nodata(nodata: Option<Sample>, out: &mut Vec<u8>) -> Result<(), AllocError>
    ensures ok { OnOk result (AppendsLines out.old.items out.new.items (nodata_fields nodata)) }
    ensures err { OnErr result (KeepsFront out.old.items out.new.items) }
{
    let Some(n) = nodata else {
        return Ok(());
    };
    let mut buffer = Buffer::new();
    push_text(NODATA, buffer.format(n).as_bytes(), out)
}

fn push_four(geo: &RawGeo, out: &mut Vec<u8>) -> Result<(), AllocError>
    ensures ok { OnOk result (AppendsLines out.old.items out.new.items (geo_fields (Some geo.now))) }
    ensures err { OnErr result (KeepsFront out.old.items out.new.items) }
{
    push_ticks(ULXMAP, geo.ulx, out)?;
    push_ticks(ULYMAP, geo.uly, out)?;
    push_ticks(XDIM, geo.xdim, out)?;
    push_ticks(YDIM, geo.ydim, out)?;
    Ok(())
}

fn push_geo(geo: Option<RawGeo>, out: &mut Vec<u8>) -> Result<(), AllocError>
    ensures ok { OnOk result (AppendsLines out.old.items out.new.items (geo_fields geo)) }
    ensures err { OnErr result (KeepsFront out.old.items out.new.items) }
{
    match geo {
        None => Ok(()),
        Some(geo) => push_four(&geo, out),
    }
}

/// Appends the header's text.
#[tactic(auto, unfolding(crate::specs::Text::hdr_text), using(crate::proofs::Writes::keeps_after))]
pub fn write(head: &RawHead, out: &mut Vec<u8>) -> Result<(), AllocError>
    ensures ok { OnOk result (out.new.items ≡ out.old.items ++ hdr_text head.now) }
    ensures err { OnErr result (KeepsFront out.old.items out.new.items) }
{
    push_layout(head, out)?;
    push_samples(head, out)?;
    push_rows(head, out)?;
    push_nodata(head.nodata, out)?;
    push_geo(head.geo, out)?;
    Ok(())
}
