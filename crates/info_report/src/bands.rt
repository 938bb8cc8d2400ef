// The lines on the bands. Each call may be refused memory.
ghost use Rattle.std.specs.Prelude.{◌≡◌, ◌++◌, ◌≤◌, length, OnOk};
ghost use Rattle.info_report.specs.Report.{nodata_text, band_text, bands_text};
ghost use Rattle.geotransform.specs.Limits.{most_bands};

use catalog::BandHead;
use geotransform::Sample;
use itoa::Buffer;
use lists_and_answers::push_all;
use std::alloc::AllocError;

/// Appends the line of a NODATA, where there is one.
#[tactic(auto, using(crate::proofs::Appended::none), unfolding(crate::specs::Report::nodata_text))]
fn push_nodata(nodata: Option<Sample>, out: &mut Vec<u8>) -> Result<(), AllocError>
    ensures { OnOk result (out.new.items ≡ out.old.items ++ nodata_text nodata) }
{
    match nodata {
        None => Ok(()),
        Some(value) => {
            let mut buffer = Buffer::new();
            let value = buffer.format(value).as_bytes();
            push_all(&[b"  NoData Value=", value, b"\n"], out)
        }
    }
}

/// Appends the lines of a band.
#[tactic(auto, using(crate::proofs::Appended::band), unfolding(crate::specs::Report::band_text))]
fn push_band(number: usize, band: &BandHead, out: &mut Vec<u8>) -> Result<(), AllocError>
    ensures { OnOk result (out.new.items ≡ out.old.items ++ band_text number band.now) }
{
    let (mut n, mut w, mut h) = (Buffer::new(), Buffer::new(), Buffer::new());
    let n = n.format(number).as_bytes();
    let w = w.format(band.block.w).as_bytes();
    let h = h.format(band.block.h).as_bytes();
    let kind = band.kind.name().as_bytes();
    push_all(
        &[b"Band ", n, b" Block=", w, b"x", h, b" Type=", kind, b"\n"],
        out,
    )?;
    push_nodata(band.nodata, out)?;
    Ok(())
}

/// Appends the lines of the bands, of which there are at most 256.
#[tactic(auto, using(crate::proofs::Appended::one_band_more))]
pub fn push_bands(bands: &[BandHead], out: &mut Vec<u8>) -> Result<(), AllocError>
    requires { length bands.now ≤ most_bands }
    ensures { OnOk result (out.new.items ≡ out.old.items ++ bands_text 1 bands.now) }
{
    for (at, band) in bands.iter().enumerate() {
        push_band(at + 1, band, out)?;
    }
    Ok(())
}
