// The values of a pixel. Each call may be refused memory.
ghost use Rattle.std.specs.Prelude.{◌≡◌, ◌++◌, length, OnOk, OnErr};
ghost use Rattle.lists_and_answers.specs.Growth.{KeepsFront};
ghost use Rattle.location_report.specs.Location.{value_text, values_text, band_text, bands_text};

use geotransform::Sample;
use itoa::Buffer;
use lists_and_answers::push_all;
use std::alloc::AllocError;

/// Appends the line of a value.
#[tactic(auto, unfolding(crate::specs::Location::value_text))]
fn push_value(value: Sample, out: &mut Vec<u8>) -> Result<(), AllocError>
    ensures ok { OnOk result (out.new.items ≡ out.old.items ++ value_text value) }
    ensures err { OnErr result (KeepsFront out.old.items out.new.items) }
{
    let mut buffer = Buffer::new();
    push_all(&[buffer.format(value).as_bytes(), b"\n"], out)
}

/// Appends the values, one on a line.
#[tactic(auto, unfolding(crate::specs::Location::values_text))]
pub fn push_values(values: &[Sample], out: &mut Vec<u8>) -> Result<(), AllocError>
    ensures ok { OnOk result (out.new.items ≡ out.old.items ++ values_text values.now) }
    ensures err { OnErr result (KeepsFront out.old.items out.new.items) }
{
    for value in values {
        push_value(*value, out)?;
    }
    Ok(())
}

/// Appends the lines of a band.
fn push_band(band: u32, value: Sample, out: &mut Vec<u8>) -> Result<(), AllocError>
    ensures ok { OnOk result (out.new.items ≡ out.old.items ++ band_text band value) }
    ensures err { OnErr result (KeepsFront out.old.items out.new.items) }
{
    let (mut n, mut v) = (Buffer::new(), Buffer::new());
    let n = n.format(band).as_bytes();
    let v = v.format(value).as_bytes();
    push_all(&[b"  Band ", n, b":\n    Value: ", v, b"\n"], out)?;
    Ok(())
}

/// Appends the lines of the bands, each with its value.
pub fn push_bands(bands: &[u32], values: &[Sample], out: &mut Vec<u8>) -> Result<(), AllocError>
    requires { length values.now ≡ length bands.now }
    ensures ok { OnOk result (out.new.items ≡ out.old.items ++ bands_text bands.now values.now) }
    ensures err { OnErr result (KeepsFront out.old.items out.new.items) }
{
    for (at, band) in bands.iter().enumerate() {
        push_band(*band, values[at], out)?;
    }
    Ok(())
}
