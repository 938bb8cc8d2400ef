// The stretches of lines between cuts, by their numbers.
ghost use Rattle.std.specs.Prelude.{◌≡◌, ℕ, ◌<◌, ◌≤◌, ◌+◌, ◌-◌, ◌*◌, IfOk, length, slice_index_or};
ghost use Rattle.std.specs.List.{All, Contains};
ghost use Rattle.std.specs.List.Sorted.{IsStrictlyIncreasing};
ghost use Rattle.mosaic_sources.specs.Stretches.{holding_lines, total_held, HasEdges, IsWithinCount};
ghost use Rattle.mosaic_sources.specs.Rows.{is_in_span, IsInner};
ghost use Rattle.mosaic_sources.specs.Rows as rows;
ghost use Rattle.vrt_profile.specs.Values.{most_sources};

use crate::spans::Span;
use std::alloc::{AllocError, Global};

/// The number of the stretch that holds a line.
pub fn stretch_of(cuts: &[u32], y: u32) -> usize
    requires rising { IsStrictlyIncreasing cuts.now }
    ensures within { result ≤ length cuts.now }
    ensures stretch { result ≡ rows.stretch_of cuts.now y }
    ensures before { (k : ℕ) → (d : ℕ) → k < result → slice_index_or cuts.now k d ≤ y }
    ensures behind { (k : ℕ) → (d : ℕ) → result ≤ k → k < length cuts.now → y < slice_index_or cuts.now k d }
{
    cuts.partition_point(|cut| *cut <= y)
}

/// The line at which the stretch of a line ends: the first cut behind it, or the height.
pub fn stretch_end(cuts: &[u32], y: u32, height: u32) -> u32
    requires rising { IsStrictlyIncreasing cuts.now }
    requires inner { All (IsInner height) cuts.now }
    requires there { y < height }
    ensures behind { y < result }
    ensures within { result ≤ height }
    ensures ends { result < height → Contains cuts.now result }
    ensures same { (z : ℕ) → y ≤ z → z < result → rows.stretch_of cuts.now z ≡ rows.stretch_of cuts.now y }
{
    let next = stretch_of(cuts, y);
    if next < cuts.len() {
        cuts[next]
    } else {
        height
    }
}

// The number of the first stretch behind a span.
fn end_of(cuts: &[u32], span: Span, height: u32) -> usize
    requires rising { IsStrictlyIncreasing cuts.now }
    ensures within { result ≤ length cuts.now + 1 }
    ensures inner { span.end < height → result ≡ rows.stretch_of cuts.now span.end }
    ensures last { height ≤ span.end → result ≡ length cuts.now + 1 }
{
    if span.end < height {
        stretch_of(cuts, span.end)
    } else {
        cuts.len() + 1
    }
}

// The stretches of a span.
fn stretches_of(cuts: &[u32], span: Span, height: u32) -> Span
    requires few { length cuts.now ≤ 2 * most_sources }
    requires rising { IsStrictlyIncreasing cuts.now }
    requires edges { HasEdges cuts.now height span }
    ensures within { IsWithinCount (length cuts.now + 1) result }
    ensures held { (y : ℕ) → y < height → is_in_span result (rows.stretch_of cuts.now y) ≡ is_in_span span y }
    ensures none { span.end ≤ span.first → result.end ≡ 0 }
{
    if span.end <= span.first {
        return Span { first: 0, end: 0 };
    }
    let first = stretch_of(cuts, span.first);
    let end = end_of(cuts, span, height);
    Span {
        first: first as u32,
        end: end as u32,
    }
}

/// The stretches of each span.
pub fn all_stretches(
    alloc: Global,
    spans: &[Span],
    cuts: &[u32],
    height: u32,
) -> Result<Vec<Span>, AllocError>
    requires few { length cuts.now ≤ 2 * most_sources }
    requires rising { IsStrictlyIncreasing cuts.now }
    requires edges { All (HasEdges cuts.now height) spans.now }
    requires ends { All (λ s. s.end ≤ height) spans.now }
    ensures count { IfOk result (λ v. length v.items ≡ length spans.now) }
    ensures within { IfOk result (λ v. All (IsWithinCount (length cuts.now + 1)) v.items) }
    ensures held { IfOk result (λ v. (y : ℕ) → y < height → holding_lines v.items (rows.stretch_of cuts.now y)
        ≡ holding_lines spans.now y) }
    ensures none { IfOk result (λ v. height ≡ 0 → All (λ s. s.end ≡ 0) v.items) }
{
    let mut stretches = Vec::with_capacity(alloc, spans.len())?;
    for span in spans {
        stretches.push(stretches_of(cuts, *span, height))?;
    }
    Ok(stretches)
}

/// How many numbers the lists of `count` stretches have together.
pub fn total_of(stretches: &[Span], count: usize) -> u64
    requires few { length stretches.now ≤ most_sources }
    requires short { count ≤ 2 * most_sources + 1 }
    requires within { All (IsWithinCount count) stretches.now }
    ensures total { result ≡ total_held stretches.now }
{
    let mut total = 0;
    for span in stretches {
        total += (span.end - span.first) as u64;
    }
    total
}
