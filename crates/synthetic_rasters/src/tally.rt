// What is told of the samples of a raster.
ghost use Rattle.std.specs.Prelude.{◌≡◌, ℤ, false, ◌+ℤ◌, ◌*◌, ◌+◌, ◌<◌, ◌≤◌, ◌^◌, ◌++◌, List, [], ◌∷◌, length, IfOk};
ghost use Rattle.std.specs.Prelude.{unsigned_abs};
ghost use Rattle.std.specs.List.{All};
ghost use Rattle.std.specs.Ordering.{int_eq};
ghost use Rattle.synthetic_rasters.specs.Tiles.{nodata};
ghost use Rattle.synthetic_rasters.specs.Tally.{least_of, greatest_of, tally_of, tally_text, most_pixels};

use geotransform::{Sample, Size};
use itoa::Buffer;
use lists_and_answers::push_all;
use std::alloc::{AllocError, Global};
use std::marker::Model;

/// What is told of the samples of a raster that aren't NODATA: how many there are, their sum, and the least and the
/// greatest of them, or 0 where there is none.
#[derive(Drop)]
pub struct Tally {
    count: u64,
    sum: i128,
    least: Sample,
    greatest: Sample,
}

impl Model for Tally {
    ghost use Rattle.synthetic_rasters.specs.Tally.{Totals, IsTally};

    ghost Value = { Totals };

    ghost view = { λ t. record { count = t.count; sum = t.sum; least = t.least; greatest = t.greatest } };

    ghost invariant = { λ t. IsTally (record {
      count = t.count;
      sum = t.sum;
      least = t.least;
      greatest = t.greatest;
    }) };
}

// The sum of values and of one more.
fn sum_with(count: u64, sum: i128, value: Sample) -> i128
    requires sum { unsigned_abs sum ≤ 2 ^ 64 * count }
    requires few { count < most_pixels }
    requires near { unsigned_abs value < 2 ^ 64 }
    ensures sum { result ≡ sum +ℤ value }
    ensures near { unsigned_abs result ≤ 2 ^ 64 * (count + 1) }
{
    sum + value
}

// The least of so many values and of one more.
fn least_with(count: u64, least: Sample, value: Sample) -> Sample
    ensures least { (values : List ℤ) → count ≡ length values → least ≡ least_of values →
        result ≡ least_of (values ++ value ∷ []) }
{
    if count == 0 || value < least {
        value
    } else {
        least
    }
}

// The greatest of so many values and of one more.
fn greatest_with(count: u64, greatest: Sample, value: Sample) -> Sample
    ensures greatest { (values : List ℤ) → count ≡ length values → greatest ≡ greatest_of values →
        result ≡ greatest_of (values ++ value ∷ []) }
{
    if count == 0 || greatest <= value {
        value
    } else {
        greatest
    }
}

impl Tally {
    /// Of no samples.
    #[tactic(auto, unfolding(crate::specs::Tally::tally_of))]
    pub fn new() -> Tally
        ensures none { result ≡ tally_of [] }
    {
        Tally {
            count: 0,
            sum: 0,
            least: 0,
            greatest: 0,
        }
    }

    // One value more, which isn't NODATA.
    fn add_value(&mut self, value: Sample)
        requires value { int_eq value nodata ≡ false }
        requires near { unsigned_abs value < 2 ^ 64 }
        requires few { self.old.count < most_pixels }
        ensures added { (seen : List ℤ) → self.old ≡ tally_of seen → self.new ≡ tally_of (seen ++ value ∷ []) }
        ensures count { self.new.count ≡ self.old.count + 1 }
    {
        self.least = least_with(self.count, self.least, value);
        self.greatest = greatest_with(self.count, self.greatest, value);
        self.sum = sum_with(self.count, self.sum, value);
        self.count += 1;
    }

    // One sample more.
    fn add_one(&mut self, sample: Sample)
        requires near { unsigned_abs sample < 2 ^ 64 }
        requires few { self.old.count < most_pixels }
        ensures added { (seen : List ℤ) → self.old ≡ tally_of seen → self.new ≡ tally_of (seen ++ sample ∷ []) }
        ensures count { self.new.count ≤ self.old.count + 1 }
    {
        if sample != -1 {
            self.add_value(sample);
        }
    }

    /// These samples more, none of which is farther from 0 than a band's samples can be. All are at most as many as the
    /// pixels of the greatest raster.
    pub fn add(&mut self, samples: &[Sample])
        requires near { All (λ n. unsigned_abs n < 2 ^ 64) samples.now }
        requires few { self.old.count + length samples.now ≤ most_pixels }
        ensures added { (seen : List ℤ) → self.old ≡ tally_of seen → self.new ≡ tally_of (seen ++ samples.now) }
        ensures count { self.new.count ≤ self.old.count + length samples.now }
    {
        for sample in samples {
            self.add_one(*sample);
        }
    }
}

/// The five lines on a raster of this size. Only memory is refused.
#[tactic(auto, unfolding(crate::specs::Tally::tally_text))]
pub fn tally_text(alloc: Global, size: Size, tally: &Tally) -> Result<Vec<u8>, AllocError>
    ensures text { IfOk result (λ text. text.items ≡ tally_text size tally.now) }
{
    let mut out = Vec::new(alloc);
    let (mut w, mut h, mut count) = (Buffer::new(), Buffer::new(), Buffer::new());
    let (mut sum, mut least, mut greatest) = (Buffer::new(), Buffer::new(), Buffer::new());
    let w = w.format(size.w).as_bytes();
    let h = h.format(size.h).as_bytes();
    let count = count.format(tally.count).as_bytes();
    let sum = sum.format(tally.sum).as_bytes();
    let least = least.format(tally.least).as_bytes();
    let greatest = greatest.format(tally.greatest).as_bytes();
    let parts: [&[u8]; 13] = [
        b"Size: ",
        w,
        b" x ",
        h,
        b"\nValues: ",
        count,
        b"\nSum: ",
        sum,
        b"\nLeast: ",
        least,
        b"\nGreatest: ",
        greatest,
        b"\n",
    ];
    push_all(&parts, &mut out)?;
    Ok(out)
}
