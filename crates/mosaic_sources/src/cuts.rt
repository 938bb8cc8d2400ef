// The lines at which the list of the sources that cover a line changes.
ghost use Rattle.std.specs.Prelude.{◌≡◌, ◌≢◌, ◌⊎◌, ◌-◌, ℕ, ◌<◌, ◌≤◌, ◌+◌, ◌*◌, IfOk, OnOk, length};
ghost use Rattle.std.specs.List.{All, Contains};
ghost use Rattle.std.specs.List.Sorted.{IsStrictlyIncreasing};
ghost use Rattle.mosaic_sources.specs.Rows.{covering_lines, IsInner};
ghost use Rattle.mosaic_sources.specs.Stretches.{holding_lines, HasEdges, IsEdge, IsEdgeOfOne};

use crate::covering::line_span;
use crate::spans::Span;
use geotransform::Size;
use std::alloc::{AllocError, Global};
use vrt_profile::Source;

/// The covered lines of each source.
pub fn spans_of(alloc: Global, sources: &[Source], size: Size) -> Result<Vec<Span>, AllocError>
    ensures count { IfOk result (λ v. length v.items ≡ length sources.now) }
    ensures within { IfOk result (λ v. All (λ s. s.end ≤ size.h) v.items) }
    ensures lists { IfOk result (λ v. (y : ℕ) → y < size.h → holding_lines v.items y ≡ covering_lines sources.now size
        y) }
{
    let mut spans = Vec::with_capacity(alloc, sources.len())?;
    for source in sources {
        spans.push(line_span(source, size))?;
    }
    Ok(spans)
}

// Adds a line that is below the first line and above the end of all.
fn push_inner(edges: &mut Vec<u32>, line: u32, height: u32) -> Result<(), AllocError>
    ensures count { OnOk result (length edges.new.items ≤ length edges.old.items + 1) }
    ensures inner { OnOk result (All (IsInner height) edges.old.items → All (IsInner height) edges.new.items) }
    ensures kept { OnOk result ((x : ℕ) → Contains edges.old.items x → Contains edges.new.items x) }
    ensures from { OnOk result ((x : ℕ) → Contains edges.new.items x → Contains edges.old.items x ⊎ (line ≡ x)) }
    ensures there { OnOk result (0 < line → line < height → Contains edges.new.items line) }
{
    if 0 < line && line < height {
        edges.push(line)?;
    }
    Ok(())
}

// Adds the first line and the end of a span, if it has a line.
fn push_edges(edges: &mut Vec<u32>, span: Span, height: u32) -> Result<(), AllocError>
    requires within { span.end ≤ height }
    ensures count { OnOk result (length edges.new.items ≤ length edges.old.items + 2) }
    ensures inner { OnOk result (All (IsInner height) edges.old.items → All (IsInner height) edges.new.items) }
    ensures kept { OnOk result ((x : ℕ) → Contains edges.old.items x → Contains edges.new.items x) }
    ensures from { OnOk result ((x : ℕ) → Contains edges.new.items x → Contains edges.old.items x ⊎ IsEdge span x) }
    ensures edges { OnOk result (HasEdges edges.new.items height span) }
{
    if span.end <= span.first {
        return Ok(());
    }
    push_inner(edges, span.first, height)?;
    push_inner(edges, span.end, height)?;
    Ok(())
}

// The first lines and the ends of spans, without the first line of all and the end of all.
fn edges_of(alloc: Global, spans: &[Span], height: u32) -> Result<Vec<u32>, AllocError>
    requires within { All (λ s. s.end ≤ height) spans.now }
    ensures count { IfOk result (λ v. length v.items ≤ 2 * length spans.now) }
    ensures inner { IfOk result (λ v. All (IsInner height) v.items) }
    ensures from { IfOk result (λ v. All (IsEdgeOfOne spans.now) v.items) }
    ensures edges { IfOk result (λ v. All (HasEdges v.items height) spans.now) }
{
    let mut edges = Vec::with_capacity(alloc, 2 * spans.len())?;
    for span in spans {
        push_edges(&mut edges, *span, height)?;
    }
    Ok(edges)
}

/// The lines at which spans begin or end, in ascending order, without the first line of all.
pub fn cuts_of(alloc: Global, spans: &[Span], height: u32) -> Result<Vec<u32>, AllocError>
    requires within { All (λ s. s.end ≤ height) spans.now }
    ensures rising { IfOk result (λ v. IsStrictlyIncreasing v.items) }
    ensures count { IfOk result (λ v. length v.items ≤ 2 * length spans.now) }
    ensures inner { IfOk result (λ v. All (IsInner height) v.items) }
    ensures edges { IfOk result (λ v. All (HasEdges v.items height) spans.now) }
    ensures changes { IfOk result (λ v. (y : ℕ) → Contains v.items y → holding_lines spans.now (y - 1)
        ≢ holding_lines spans.now y) }
{
    let mut edges = edges_of(alloc, spans, height)?;
    edges.sort_unstable();
    edges.dedup();
    Ok(edges)
}
