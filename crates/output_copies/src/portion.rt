// The blocks of an output that one worker makes at a time.
ghost use Rattle.std.specs.Prelude.{◌≡◌, ◌≢◌, ◌<◌, ◌≤◌, ◌+◌, false, true};
ghost use Rattle.lane_teams.specs.Workers.{most_workers};
ghost use Rattle.output_copies.specs.Packed.{place_in, top_of};

use crate::band_lines::area;

/// Blocks of an output from `top` up to `end`, which one worker makes.
#[derive(Clone, Copy)]
pub struct Portion {
    pub top: u32,
    pub end: u32,
}

impl Portion {
    /// Whether there are none.
    pub fn is_empty(self) -> bool
        ensures empty { result ≡ true → self.top ≡ self.end }
        ensures some { result ≡ false → self.top ≢ self.end }
    {
        self.top == self.end
    }
}

/// The blocks that a worker makes, by its number: of so many of a band so many for each, from one on, as far as there
/// are any.
pub fn portion_of(extent: u32, rows: u32, first: u32, at: usize) -> Portion
    requires few { at < most_workers }
    ensures top { result.top ≡ top_of extent rows first at }
    ensures end { result.end ≡ top_of extent rows first (at + 1) }
    ensures order { result.top ≤ result.end }
    ensures within { result.end ≤ extent }
    ensures few { result.end ≤ result.top + rows }
{
    let extent = extent as u64;
    let share = at as u64 * rows as u64;
    let before = first as u64 + share;
    let top = before.min(extent);
    let after = before + rows as u64;
    let end = after.min(extent);
    Portion {
        top: top as u32,
        end: end as u32,
    }
}

/// The place of a band's block among the packed blocks of a portion.
pub fn place_of(bands: u32, band: u32, row: u32) -> usize
    ensures place { result ≡ place_in bands band row }
{
    let before = area(row, bands);
    let place = before + band as usize;
    place
}
