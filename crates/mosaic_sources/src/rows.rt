// An index of a band's sources by the lines of the mosaic.
ghost use Rattle.std.specs.Prelude.{◌≡◌, ℕ, ◌<◌, ◌≤◌, IfOk, IfSome, None, length};
ghost use Rattle.std.specs.List.{Contains};
ghost use Rattle.mosaic_sources.specs.Rows.{IsIndexOf, Rows, list_at, listed, most_listed};
ghost use Rattle.vrt_profile.specs.Values.{most_sources};

use crate::cuts::{cuts_of, spans_of};
use crate::lists::{lists_within, numbers_of};
use crate::row_list::RowList;
use crate::stretches::{stretch_end, stretch_of};
use geotransform::Size;
use std::alloc::{AllocError, Global};
use std::marker::Model;
use vrt_profile::Sources;

/// For each line of a mosaic, the numbers of the sources that cover it. One list is kept for each stretch
/// of lines on which the list is the same.
#[derive(Drop)]
pub struct RowIndex {
    height: u32,
    cuts: Vec<u32>,
    lists: Vec<RowList>,
}

impl Model for RowIndex {
    ghost use Rattle.mosaic_sources.specs.Rows.{Rows, IsRows};

    ghost Value = { Rows };

    ghost view = { λ r. record { height = r.height; cuts = r.cuts.items; lists = r.lists.items } };

    ghost invariant = { λ r. IsRows (record { height = r.height; cuts = r.cuts.items; lists = r.lists.items }) };
}

impl RowIndex {
    /// The index of the sources of a band of a mosaic of this size. `None` exactly where its lists would have
    /// more than 4,194,304 numbers; their sum is known from the sources' first and last lines, before any list is
    /// made. It is refused where memory is.
    pub fn new(alloc: Global, sources: &Sources, size: Size) -> Result<Option<RowIndex>, AllocError>
        requires few { length sources.now ≤ most_sources }
        ensures index { IfOk result (λ o. IfSome o (IsIndexOf sources.now size)) }
        ensures short { IfOk result (λ o. IfSome o (λ r. listed r ≤ most_listed)) }
        ensures long { IfOk result (λ o. o ≡ None → (r : Rows) × (IsIndexOf sources.now size r ×
            (most_listed < listed r))) }
    {
        let spans = spans_of(alloc, sources.as_slice(), size)?;
        let cuts = cuts_of(alloc, spans.as_slice(), size.h)?;
        match lists_within(alloc, spans.as_slice(), cuts.as_slice(), size.h)? {
            None => Ok(None),
            Some(lists) => Ok(Some(RowIndex {
                height: size.h,
                cuts,
                lists,
            })),
        }
    }

    /// The numbers of the sources whose part of the mosaic covers a line, in order.
    pub fn at(&self, y: u32) -> &[u32]
        requires there { y < self.now.height }
        ensures list { result.now ≡ list_at self.now y }
    {
        self.lists[stretch_of(self.cuts.as_slice(), y)].as_slice()
    }

    /// The line at which the stretch of a line ends: up to there the list is the same, and there it changes, or the
    /// lines end.
    pub fn stretch_end(&self, y: u32) -> u32
        requires there { y < self.now.height }
        ensures behind { y < result }
        ensures within { result ≤ self.now.height }
        ensures ends { result < self.now.height → Contains self.now.cuts result }
        ensures same { (z : ℕ) → y ≤ z → z < result → list_at self.now z ≡ list_at self.now y }
    {
        stretch_end(self.cuts.as_slice(), y, self.height)
    }

    /// The number of stretches of lines on which the list is the same.
    pub fn stretches(&self) -> u32
        ensures count { result ≡ length self.now.lists }
    {
        self.lists.len() as u32
    }
    /// How many numbers all lists have together.
    pub fn numbers(&self) -> u32
        ensures count { result ≡ listed self.now }
        ensures short { result ≤ most_listed }
    {
        numbers_of(self.lists.as_slice())
    }
}
