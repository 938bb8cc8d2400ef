// The sources that are asked for a rectangle.
ghost use Rattle.std.specs.Prelude.{◌≡◌, ℕ, ◌+◌, ◌<◌, ◌≤◌, ◌^◌, IfOk, IfSome, length, slice_index, true};
ghost use Rattle.geotransform.specs.declared.types.Rect.{Rect};
ghost use Rattle.geotransform.specs.declared.types.Size.{Size};
ghost use Rattle.std.specs.List.{All, Contains};
ghost use Rattle.std.specs.List.Sorted.{IsStrictlyIncreasing};
ghost use Rattle.mosaic_sources.specs.Rows.{IsIndexOf, list_at};
ghost use Rattle.nearest_window.specs.Wanted.{IsLineOf, IsListedIn, IsWanted, numbers_of};

use crate::indexes::Kept;
use geotransform::{Rect, Size};
use mosaic_sources::RowIndex;
use std::alloc::{AllocError, Global};
use vrt_profile::Sources;

/// The sources that are asked for a rectangle, by their numbers, in ascending order.
#[derive(Drop)]
pub enum Wanted {
    /// So many, from the first on.
    All(usize),
    /// These.
    Listed(Vec<u32>),
}

// Sorts numbers, and leaves each of them once.
fn each_once(numbers: &mut Vec<u32>)
    ensures rising { IsStrictlyIncreasing numbers.new.items }
    ensures all { (n : ℕ) → Contains numbers.old.items n → Contains numbers.new.items n }
    ensures from { (n : ℕ) → Contains numbers.new.items n → Contains numbers.old.items n }
{
    numbers.sort_unstable();
    numbers.dedup();
}

// The list of a line.
fn copied(alloc: Global, index: &RowIndex, y: u32) -> Result<Vec<u32>, AllocError>
    requires there { y < index.now.height }
    ensures list { IfOk result (λ v. v.items ≡ list_at index.now y) }
{
    let mut numbers = Vec::new(alloc);
    numbers.extend_from_slice(index.at(y))?;
    Ok(numbers)
}

// Whether the lists that a rectangle's lines meet have at most so many numbers together.
fn are_at_most(index: &RowIndex, rect: Rect, most: usize) -> bool
    requires few { rect.y + rect.h < 2 ^ 32 }
    requires within { rect.y + rect.h ≤ index.now.height }
{
    let mut left = most;
    let end = rect.y + rect.h;
    let mut y = rect.y;
    while y < end {
        let count = index.at(y).len();
        if left < count {
            return false;
        }
        left -= count;
        y = index.stretch_end(y);
    }
    true
}

// The numbers in the lists of a rectangle's lines, one list after another.
fn gathered(alloc: Global, index: &RowIndex, rect: Rect) -> Result<Vec<u32>, AllocError>
    requires few { rect.y + rect.h < 2 ^ 32 }
    requires within { rect.y + rect.h ≤ index.now.height }
    ensures all { IfOk result (λ v. (n : ℕ) → IsListedIn index.now rect n → Contains v.items n) }
    ensures from { IfOk result (λ v. All (IsListedIn index.now rect) v.items) }
{
    let mut numbers = Vec::new(alloc);
    let end = rect.y + rect.h;
    let mut y = rect.y;
    while y < end {
        numbers.extend_from_slice(index.at(y))?;
        y = index.stretch_end(y);
    }
    Ok(numbers)
}

// Whether a rectangle has lines, all of which lie in one stretch.
fn is_one_stretch(index: &RowIndex, rect: Rect) -> bool
    requires few { rect.y + rect.h < 2 ^ 32 }
    requires within { rect.y + rect.h ≤ index.now.height }
    ensures some { result ≡ true → rect.y < index.now.height }
    ensures line { result ≡ true → IsLineOf rect rect.y }
    ensures same { result ≡ true → (y : ℕ) → IsLineOf rect y → list_at index.now y ≡ list_at index.now rect.y }
{
    if rect.h == 0 {
        return false;
    }
    rect.y + rect.h <= index.stretch_end(rect.y)
}

/// The numbers in the lists of a rectangle's lines, each once, in ascending order.
pub fn listed_in(alloc: Global, index: &RowIndex, rect: Rect) -> Result<Vec<u32>, AllocError>
    requires few { rect.y + rect.h < 2 ^ 32 }
    requires within { rect.y + rect.h ≤ index.now.height }
    requires rising { (y : ℕ) → y < index.now.height → IsStrictlyIncreasing (list_at index.now y) }
    ensures rising { IfOk result (λ v. IsStrictlyIncreasing v.items) }
    ensures all { IfOk result (λ v. (n : ℕ) → IsListedIn index.now rect n → Contains v.items n) }
    ensures from { IfOk result (λ v. All (IsListedIn index.now rect) v.items) }
{
    if is_one_stretch(index, rect) {
        return copied(alloc, index, rect.y);
    }
    let mut numbers = gathered(alloc, index, rect)?;
    each_once(&mut numbers);
    Ok(numbers)
}

/// All sources of a band.
pub fn all_of(sources: &Sources) -> Wanted
    ensures all { (size : Size) → (rect : Rect) → IsWanted sources.now size rect (numbers_of result) }
{
    Wanted::All(sources.len())
}

/// The sources that a rectangle of a mosaic's band needs: those in the lists of its lines, or all where the
/// band has no index, or where these lists have more numbers together than the band has sources. It is refused where
/// memory is.
pub fn wanted_of(
    alloc: Global,
    kept: &Kept,
    sources: &Sources,
    size: Size,
    rect: Rect,
) -> Result<Wanted, AllocError>
    requires within { rect.y + rect.h ≤ size.h }
    requires index { IfSome kept.now.index (IsIndexOf sources.now size) }
    ensures wanted { IfOk result (λ w. IsWanted sources.now size rect (numbers_of w)) }
{
    let Some(index) = &kept.index else {
        return Ok(all_of(sources));
    };
    if !are_at_most(index, rect, sources.len()) {
        return Ok(all_of(sources));
    }
    Ok(Wanted::Listed(listed_in(alloc, index, rect)?))
}

impl Wanted {
    /// How many sources are asked.
    pub fn len(&self) -> usize
        ensures count { result ≡ length (numbers_of self.now) }
    {
        match self {
            Wanted::All(count) => *count,
            Wanted::Listed(numbers) => numbers.len(),
        }
    }

    /// The number of the source at a place.
    pub fn at(&self, k: usize) -> usize
        requires there { k < length (numbers_of self.now) }
        ensures number { result ≡ slice_index (numbers_of self.now) k }
    {
        match self {
            Wanted::All(_) => k,
            Wanted::Listed(numbers) => numbers[k] as usize,
        }
    }
}
