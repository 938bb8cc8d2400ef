// Samples of a rectangle of a mosaic, which are filled from the last source to the first.
ghost use Rattle.std.specs.Prelude.{◌≡◌, ◌⊎◌, ℕ, ◌+◌, ◌*◌, ◌<◌, ◌≤◌, ◌^◌, [], None, true, is_some, length, pos};
ghost use Rattle.std.specs.Prelude.{slice_index_or, All, IfOk, OnOk, IsTrue};
ghost use Rattle.nearest_window.specs.Canvases.{IsCanvas, HoldsPart, IsPackedOf, IsTaken, filled_with, stands};
ghost use Rattle.nearest_window.specs.Taken.{TakesPixel, is_plain, taken_by};

use crate::merging::{Place, close, filled_from, make_samples, take_rows};
use crate::taking::{BLANK, Taking};
use band_blocks::Block;
use geotransform::{PixelType, Rect, Sample};
use std::alloc::{AllocError, Global};

/// The samples of a rectangle of a mosaic's band, as far as they are filled.
#[derive(Drop)]
pub struct Canvas {
    pub rect: Rect,
    /// The type of the band.
    pub kind: PixelType,
    /// Row by row, with a mark for each that is open; none while nothing is filled.
    pub samples: Vec<Sample>,
    /// So many from the first on are filled.
    pub filled: usize,
}

// The number of samples of a rectangle.
fn count_of(rect: Rect) -> usize
    requires few { rect.w * rect.h < 2 ^ 32 }
    ensures count { result ≡ rect.w * rect.h }
{
    (rect.w * rect.h) as usize
}

impl Canvas {
    /// A canvas on which nothing is filled.
    pub fn of(alloc: Global, rect: Rect, kind: PixelType) -> Canvas
        requires some { 0 < rect.w }
        requires few { rect.w * rect.h < 2 ^ 32 }
        ensures canvas { IsCanvas result }
        ensures rect { result.rect ≡ rect }
        ensures kind { result.kind ≡ kind }
        ensures open { (k : ℕ) → stands result.samples.items k ≡ None }
    {
        Canvas {
            rect,
            kind,
            samples: Vec::new(alloc),
            filled: 0,
        }
    }

    /// Whether nothing is open.
    pub fn is_filled(&self) -> bool
        requires canvas { IsCanvas self.now }
        ensures filled { IsTrue result → (k : ℕ) → k < self.now.rect.w * self.now.rect.h →
            is_some (stands self.now.samples.items k) ≡ true }
    {
        self.filled == count_of(self.rect)
    }

    // Makes the samples, if there are none, all of them open.
    fn begin(&mut self, alloc: Global) -> Result<(), AllocError>
        requires canvas { IsCanvas self.old }
        ensures rect { self.new.rect ≡ self.old.rect }
        ensures kind { self.new.kind ≡ self.old.kind }
        ensures filled { self.new.filled ≡ self.old.filled }
        ensures size { OnOk result (length self.new.samples.items ≡ self.old.rect.w * self.old.rect.h) }
        ensures stands { OnOk result ((k : ℕ) → k < self.old.rect.w * self.old.rect.h →
            stands self.new.samples.items k ≡ stands self.old.samples.items k) }
    {
        if self.samples.is_empty() {
            self.samples = vec![in alloc; BLANK; count_of(self.rect)]?;
        }
        Ok(())
    }

    // Takes pixels of a part where the canvas, which has its samples, is open.
    fn merge(&mut self, taking: &Taking, part: Rect, pixels: &[Sample])
        requires canvas { IsCanvas self.old }
        requires size { length self.old.samples.items ≡ self.old.rect.w * self.old.rect.h }
        requires part { HoldsPart self.old.rect part }
        requires pixels { length pixels.now ≡ part.w * part.h }
        requires near { All (TakesPixel taking.now) pixels.now }
        ensures canvas { IsCanvas self.new }
        ensures taken { IsTaken taking.now pixels.now part self.old self.new }
    {
        let place = Place {
            to: (part.x - self.rect.x) as usize,
            top: (part.y - self.rect.y) as usize,
            columns: part.w as usize,
            rows: part.h as usize,
            stride: self.rect.w as usize,
        };
        take_rows(
            taking,
            self.kind,
            pixels,
            place,
            self.samples.as_mut_slice(),
        );
        self.filled = filled_from(self.samples.as_slice(), self.filled);
    }

    // Whether nothing is filled, and the pixels of the part, each of which is taken as it is, if it is taken, are all
    // samples.
    fn takes_all(&self, taking: &Taking, part: Rect) -> bool
        ensures none { IsTrue result → self.now.samples.items ≡ [] }
        ensures wide { IsTrue result → part.w ≡ self.now.rect.w }
        ensures high { IsTrue result → part.h ≡ self.now.rect.h }
        ensures plain { IsTrue result → is_plain taking.now ≡ true }
    {
        if !self.samples.is_empty() {
            return false;
        }
        if part.w != self.rect.w {
            return false;
        }
        if part.h != self.rect.h {
            return false;
        }
        match taking {
            Taking::All => return true,
            Taking::Except(_) => return true,
            Taking::By(_) => return false,
        }
    }

    // Makes pixels the samples, in place, where there were none.
    fn fill_by(&mut self, taking: &Taking, mut pixels: Vec<Sample>)
        requires none { self.old.samples.items ≡ [] }
        requires plain { is_plain taking.now ≡ true }
        requires near { All (TakesPixel taking.now) pixels.items }
        ensures rect { self.new.rect ≡ self.old.rect }
        ensures kind { self.new.kind ≡ self.old.kind }
        ensures size { length self.new.samples.items ≡ length pixels.items }
        ensures samples { (k : ℕ) → k < length pixels.items →
            filled_with (slice_index_or self.new.samples.items k (pos 0)) ≡ taken_by taking.now
            (slice_index_or pixels.items k (pos 0)) }
        ensures within { self.new.filled ≤ length self.new.samples.items }
        ensures filled { (k : ℕ) → k < self.new.filled →
            is_some (filled_with (slice_index_or self.new.samples.items k (pos 0))) ≡ true }
    {
        self.filled = make_samples(taking, pixels.as_mut_slice());
        self.samples = pixels;
    }

    /// Takes what is made of the pixels of a part where the canvas is open. It is refused where memory is.
    pub fn take(
        &mut self,
        alloc: Global,
        taking: &Taking,
        part: Rect,
        pixels: Vec<Sample>,
    ) -> Result<(), AllocError>
        requires canvas { IsCanvas self.old }
        requires part { HoldsPart self.old.rect part }
        requires pixels { length pixels.items ≡ part.w * part.h }
        requires near { All (TakesPixel taking.now) pixels.items }
        ensures canvas { OnOk result (IsCanvas self.new) }
        ensures taken { OnOk result (IsTaken taking.now pixels.items part self.old self.new) }
    {
        if self.takes_all(taking, part) {
            self.fill_by(taking, pixels);
            return Ok(());
        }
        self.begin(alloc)?;
        self.merge(taking, part, pixels.as_slice());
        Ok(())
    }

    /// The block of the samples, with a value for those that are open. It is refused where memory is.
    pub fn packed(&mut self, alloc: Global, nodata: Sample) -> Result<Block, AllocError>
        requires canvas { IsCanvas self.old }
        ensures packed { IfOk result (λ b. IsPackedOf self.old nodata b) }
    {
        self.begin(alloc)?;
        close(nodata, self.samples.as_mut_slice());
        Block::pack_clamped(alloc, self.kind, self.samples.as_slice())
    }
}

/// Whether the search goes on: so many sources are left, and something is open.
pub fn is_wanted(left: usize, canvas: &Canvas) -> bool
    requires canvas { IsCanvas canvas.now }
    ensures some { IsTrue result → 0 < left }
    ensures done { IsTrue result ⊎ ((left ≡ 0) ⊎ ((k : ℕ) → k < canvas.now.rect.w * canvas.now.rect.h →
        is_some (stands canvas.now.samples.items k) ≡ true)) }
{
    if left == 0 {
        return false;
    }
    if canvas.is_filled() {
        return false;
    }
    true
}
