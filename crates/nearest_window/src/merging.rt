// Taking pixels where samples are open.
ghost use Rattle.std.specs.Prelude.{◌≡◌, ℕ, ◌+◌, ◌*◌, ◌<◌, ◌≤◌, ◌^◌, length, All, true, is_some, unwrap_or, pos};
ghost use Rattle.std.specs.Prelude.{slice_index_or, if◌then◌else◌};
ghost use Rattle.std.specs.Ordering.{int_eq};
ghost use Rattle.nearest_window.specs.Canvases.{IsMerged, IsMergedFrom, blank, filled_with};
ghost use Rattle.nearest_window.specs.Taken.{TakesPixel, is_plain, taken_by};

use crate::taking::{BLANK, Taking};
use geotransform::{PixelType, Sample};

/// Where a part lies in rows of `stride` samples: so many rows from `top` on, in each so many columns from
/// `to` on.
#[derive(Clone, Copy)]
pub struct Place {
    pub to: usize,
    pub top: usize,
    pub columns: usize,
    pub rows: usize,
    pub stride: usize,
}

// Takes the pixels from `base` on where the samples are open.
fn take_each(taking: &Taking, kind: PixelType, pixels: &[Sample], base: usize, out: &mut [Sample])
    requires pixels { base + length out.old ≤ length pixels.now }
    requires near { All (TakesPixel taking.now) pixels.now }
    ensures taken { IsMergedFrom taking.now kind pixels.now base out.old out.new }
{
    for at in 0..out.len() {
        out[at] = taking.under(kind, out[at], pixels[base + at]);
    }
}

/// Takes the pixels of a part where the samples are open.
pub fn take_rows(
    taking: &Taking,
    kind: PixelType,
    pixels: &[Sample],
    place: Place,
    out: &mut [Sample],
)
    requires inside { place.to + place.columns ≤ place.stride }
    requires few { place.top + place.rows < 2 ^ 32 }
    requires low { (place.top + place.rows) * place.stride ≤ length out.old }
    requires pixels { length pixels.now ≡ place.columns * place.rows }
    requires near { All (TakesPixel taking.now) pixels.now }
    ensures taken { IsMerged taking.now kind pixels.now place place.rows out.old out.new }
{
    for row in 0..place.rows {
        let from = (place.top + row) * place.stride + place.to;
        let part = &mut out[from..from + place.columns];
        take_each(taking, kind, pixels, row * place.columns, part);
    }
}

/// How many samples are filled from the first on, of which so many are known to be.
pub fn filled_from(samples: &[Sample], known: usize) -> usize
    requires known { known ≤ length samples.now }
    ensures more { known ≤ result }
    ensures within { result ≤ length samples.now }
    ensures filled { (k : ℕ) → known ≤ k → k < result → is_some (filled_with (slice_index_or samples.now k (pos 0)))
        ≡ true }
{
    let mut filled = known;
    while filled < samples.len() {
        if samples[filled] == BLANK {
            return filled;
        }
        filled += 1;
    }
    filled
}

// Marks the samples that have this value as open.
fn open_each(nodata: Sample, samples: &mut [Sample])
    ensures size { length samples.new ≡ length samples.old }
    ensures opened { (k : ℕ) → k < length samples.old → slice_index_or samples.new k (pos 0)
        ≡ (if int_eq nodata (slice_index_or samples.old k (pos 0)) then blank else slice_index_or samples.old k
        (pos 0)) }
{
    for at in 0..samples.len() {
        if nodata == samples[at] {
            samples[at] = BLANK;
        }
    }
}

/// Makes samples, in place, of pixels each of which is taken as it is, if it is taken: the mark of those that aren't.
/// The result is how many are filled from the first on.
pub fn make_samples(taking: &Taking, pixels: &mut [Sample]) -> usize
    requires plain { is_plain taking.now ≡ true }
    requires near { All (TakesPixel taking.now) pixels.old }
    ensures size { length pixels.new ≡ length pixels.old }
    ensures made { (k : ℕ) → k < length pixels.old → filled_with (slice_index_or pixels.new k (pos 0))
        ≡ taken_by taking.now (slice_index_or pixels.old k (pos 0)) }
    ensures within { result ≤ length pixels.new }
    ensures filled { (k : ℕ) → k < result → is_some (filled_with (slice_index_or pixels.new k (pos 0))) ≡ true }
{
    match taking {
        Taking::All => return pixels.len(),
        Taking::Except(nodata) => {
            open_each(*nodata, pixels);
            return filled_from(pixels, 0);
        }
        Taking::By(_) => unreachable!(),
    }
}

/// Puts a value where samples are open.
pub fn close(value: Sample, samples: &mut [Sample])
    ensures size { length samples.new ≡ length samples.old }
    ensures closed { (k : ℕ) → k < length samples.old → slice_index_or samples.new k (pos 0)
        ≡ unwrap_or (filled_with (slice_index_or samples.old k (pos 0))) value }
{
    for at in 0..samples.len() {
        if samples[at] == BLANK {
            samples[at] = value;
        }
    }
}
