// The indexes of bands that a lane keeps.
ghost use Rattle.std.specs.Prelude.{◌≡◌, ◌++◌, ◌≤◌, [], ◌∷◌, IfSome, None, OnErr, OnOk, false, length, nat_lt, true};
ghost use Rattle.std.specs.List.{All, Contains};
ghost use Rattle.mosaic_sources.specs.Rows.{most_listed};
ghost use Rattle.nearest_window.specs.Indexes.{is_kept_for, kept_behind, listed_of, most_indexed};

use mosaic_sources::RowIndex;
use std::alloc::{AllocError, Global};
use std::marker::Model;

// So many bands are indexed at most.
const MOST_INDEXED: usize = 256;

// So many numbers the lists of all indexes have together at most: as many as those of one.
const MOST_LISTED: u32 = mosaic_sources::MOST_LISTED as u32;

/// A band of a mosaic, and its index. None: the lists would be too long, so it goes without.
#[derive(Drop)]
pub struct Kept {
    pub dataset: u32,
    pub band: u32,
    pub index: Option<RowIndex>,
}

/// The bands that were indexed, in order. None of them is ever dropped.
#[derive(Drop)]
pub struct Indexes {
    kept: Vec<Kept>,
    // How many numbers all lists have together.
    numbers: u32,
}

impl Model for Indexes {
    ghost use Rattle.std.specs.Prelude.{List};
    ghost use Rattle.nearest_window.specs.Indexes.{AreCounted};
    ghost use Rattle.nearest_window.specs.declared.indexes.Kept.{Kept};

    ghost Value = { List Kept };

    ghost view = { λ i. i.kept.items };

    ghost invariant = { λ i. AreCounted i.kept.items i.numbers };
}

// How many numbers the lists of a band's index have together.
fn listed_of(kept: &Kept) -> u32
    ensures count { result ≡ listed_of kept.now }
    ensures short { result ≤ most_listed }
{
    match &kept.index {
        None => 0,
        Some(index) => index.numbers(),
    }
}

// Whether it is this band.
fn is_kept_for(kept: &Kept, dataset: u32, band: u32) -> bool
    ensures same { result ≡ is_kept_for kept.now dataset band }
{
    kept.dataset == dataset && kept.band == band
}

// The first of these that is this band.
fn find_in(bands: &[Kept], dataset: u32, band: u32) -> Option<&Kept>
    ensures found { IfSome result (λ k. Contains bands.now k.now) }
    ensures same { IfSome result (λ k. is_kept_for k.now dataset band ≡ true) }
    ensures none { result ≡ None → All (λ k. is_kept_for k dataset band ≡ false) bands.now }
{
    for kept in bands {
        if is_kept_for(kept, dataset, band) {
            return Some(kept);
        }
    }
    None
}

impl Indexes {
    /// No band is indexed. It takes no memory.
    pub fn new(alloc: Global) -> Indexes
        ensures empty { result ≡ [] }
    {
        Indexes {
            kept: Vec::new(alloc),
            numbers: 0,
        }
    }

    /// Whether one more band may be indexed.
    pub fn has_room(&self) -> bool
        ensures room { result ≡ nat_lt (length self.now) most_indexed }
    {
        self.kept.len() < MOST_INDEXED
    }

    /// A band that was indexed. `None` exactly where it wasn't.
    pub fn find(&self, dataset: u32, band: u32) -> Option<&Kept>
        ensures found { IfSome result (λ k. Contains self.now k.now) }
        ensures same { IfSome result (λ k. is_kept_for k.now dataset band ≡ true) }
        ensures none { result ≡ None → All (λ k. is_kept_for k dataset band ≡ false) self.now }
    {
        find_in(self.kept.as_slice(), dataset, band)
    }

    // A band as it is kept: without its index where all lists would have too many numbers together.
    fn within(&self, kept: Kept) -> Kept
        ensures kept { result ≡ kept_behind self.now kept }
    {
        if self.numbers + listed_of(&kept) <= MOST_LISTED {
            return kept;
        }
        Kept {
            dataset: kept.dataset,
            band: kept.band,
            index: None,
        }
    }

    /// Adds a band. Where all lists together would have more than 4,194,304 numbers, it is kept without its
    /// index. Where memory is refused, all stays as it is.
    pub fn put(&mut self, kept: Kept) -> Result<(), AllocError>
        ensures ok { OnOk result (self.new ≡ self.old ++ kept_behind self.old kept ∷ []) }
        ensures err { OnErr result (self.new ≡ self.old) }
    {
        let kept = self.within(kept);
        let count = listed_of(&kept);
        self.kept.push(kept)?;
        self.numbers += count;
        Ok(())
    }
}
