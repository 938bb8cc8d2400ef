// Lines of the source that are read at a time.
ghost use Rattle.std.specs.Prelude.{◌≡◌, ◌<◌, ◌≤◌, ◌+◌, ◌^◌, ℕ, Some, IfSome};
ghost use Rattle.strip_copies.specs.Rows.{AreShownIn, IsInSpan};
ghost use Rattle.geotransform.specs.Limits.{most_side};

use crate::shown_places::line_at;
use translate_plan::Plan;

/// Lines of the source: `height` of them from `top` on.
#[derive(Clone, Copy)]
pub struct Span {
    pub top: u32,
    pub height: u32,
}

/// Lines of a band of an output from `first` up to `end`, and the lines of the source that they show.
#[derive(Clone, Copy)]
pub struct Run {
    pub band: u32,
    pub first: u32,
    pub end: u32,
    pub span: Span,
}

/// How far a span may reach: over so many lines, with at most so many between two of them that nothing shows.
#[derive(Clone, Copy)]
pub struct Reach {
    pub rows: u32,
    pub apart: u32,
}

// The span of one line, or of none.
fn span_of(place: Option<u32>) -> Span
    ensures within { (y : ℕ) → place ≡ Some y → IsInSpan result y }
    ensures few { result.height ≤ 1 }
    ensures side { (side : ℕ) → IfSome place (λ y. y < side) → result.top + result.height ≤ side }
{
    match place {
        Some(top) => Span { top, height: 1 },
        None => Span { top: 0, height: 0 },
    }
}

// The span that has one line more; None where it would reach too far, or begin earlier.
fn reached(span: Span, reach: Reach, line: u32) -> Option<Span>
    requires side { span.top + span.height < 2 ^ 32 }
    ensures within { IfSome result (λ s. IsInSpan s line) }
    ensures kept { IfSome result (λ s. (y : ℕ) → IsInSpan span y → IsInSpan s y) }
    ensures few { IfSome result (λ s. span.height ≤ reach.rows → s.height ≤ reach.rows) }
    ensures side { IfSome result (λ s. (side : ℕ) → line < side → span.top + span.height ≤ side →
        s.top + s.height ≤ side) }
{
    if line < span.top || line - span.top >= reach.rows {
        return None;
    }
    if line.saturating_sub(span.top + span.height) > reach.apart {
        return None;
    }
    let height = span.height.max(line - span.top + 1);
    Some(Span {
        top: span.top,
        height,
    })
}

// The span that has the line at a place too, if there is one.
fn widened(span: Span, reach: Reach, place: Option<u32>) -> Option<Span>
    requires rows { 1 ≤ reach.rows }
    requires side { span.top + span.height < 2 ^ 32 }
    ensures within { IfSome result (λ s. (y : ℕ) → place ≡ Some y → IsInSpan s y) }
    ensures kept { IfSome result (λ s. (y : ℕ) → IsInSpan span y → IsInSpan s y) }
    ensures few { IfSome result (λ s. span.height ≤ reach.rows → s.height ≤ reach.rows) }
    ensures side { IfSome result (λ s. (side : ℕ) → IfSome place (λ y. y < side) → span.top + span.height ≤ side →
        s.top + s.height ≤ side) }
{
    match place {
        None => Some(span),
        Some(line) if span.height == 0 => Some(Span {
            top: line,
            height: 1,
        }),
        Some(line) => reached(span, reach, line),
    }
}

/// Lines of the output from `first` on, at most up to `to`, that show lines of one span of a source of this height.
/// The span reaches no further than `reach` says.
pub fn run_from(plan: &Plan, height: u32, reach: Reach, band: u32, first: u32, to: u32) -> Run
    requires height { height ≤ most_side }
    requires rows { 1 ≤ reach.rows }
    requires first { first < to }
    requires to { to ≤ plan.now.size.h }
    ensures band { result.band ≡ band }
    ensures first { result.first ≡ first }
    ensures some { first < result.end }
    ensures end { result.end ≤ to }
    ensures few { result.span.height ≤ reach.rows }
    ensures lines { AreShownIn plan.now height first result.end result.span }
{
    let mut span = span_of(line_at(plan, height, first));
    for line in first + 1..to {
        match widened(span, reach, line_at(plan, height, line)) {
            Some(wider) => span = wider,
            None => {
                return Run {
                    band,
                    first,
                    end: line,
                    span,
                };
            }
        }
    }
    Run {
        band,
        first,
        end: to,
        span,
    }
}
