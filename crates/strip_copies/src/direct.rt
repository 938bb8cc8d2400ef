// Runs whose samples are those of their part of the source, one for one.
ghost use Rattle.std.specs.Prelude.{◌≡◌, ◌<◌, ◌≤◌, ◌+◌, ◌-◌, ℕ, ℤ, pos, true, All, Some, length, get_or};
ghost use Rattle.geotransform.specs.Types.{is_in};
ghost use Rattle.geotransform.specs.Pixels.{within};
ghost use Rattle.translate_plan.specs.Plan.{shown_line};
ghost use Rattle.strip_copies.specs.Rows.{nearest, AreShownIn, IsDirect};

use crate::columns::Columns;
use crate::holding::Holding;
use crate::shown_places::line_at;
use crate::spans::Run;
use geotransform::{PixelType, Sample};
use translate_plan::Plan;

// Whether each place is the column's own.
fn are_own(places: &[u32]) -> bool
    ensures own { result ≡ true → (i : ℕ) → i < length places.now → get_or places.now i 0 ≡ i }
{
    for at in 0..places.len() {
        if places[at] as usize != at {
            return false;
        }
    }
    true
}

// Whether the lines of a run are those of its span, one for one.
fn are_lines(plan: &Plan, height: u32, run: Run) -> bool
    requires some { run.first < run.end }
    requires end { run.end ≤ plan.now.size.h }
    requires inside { run.span.top + run.span.height ≤ height }
    ensures tall { result ≡ true → run.span.height ≡ run.end - run.first }
    ensures lines { result ≡ true → (r : ℕ) → r < run.span.height → within height (shown_line plan.now (run.first + r))
        ≡ Some (run.span.top + r) }
{
    if plan.window.h != plan.size.h || run.span.height != run.end - run.first {
        return false;
    }
    match line_at(plan, height, run.first) {
        Some(line) => line == run.span.top,
        None => false,
    }
}

/// Whether the samples of a run are the pixels of its part of a source of this height, one for one: nothing is scaled,
/// and all of it lies in the raster.
pub fn is_direct(plan: &Plan, columns: &Columns, height: u32, run: Run) -> bool
    requires some { run.first < run.end }
    requires end { run.end ≤ plan.now.size.h }
    requires lines { AreShownIn plan.now height run.first run.end run.span }
    requires places { length columns.now.places.items ≡ plan.now.size.w }
    ensures direct { result ≡ true → IsDirect plan.now height columns.now run }
{
    if columns.count != plan.size.w || !are_lines(plan, height, run) {
        return false;
    }
    are_own(columns.places.as_slice())
}

/// Whether so are all lines of the output.
pub fn is_all_direct(plan: &Plan, columns: &Columns, height: u32) -> bool {
    plan.rules();
    if plan.window.h != plan.size.h || columns.count != plan.size.w {
        return false;
    }
    let last = plan.size.h - 1;
    if line_at(plan, height, 0).is_none() || line_at(plan, height, last).is_none() {
        return false;
    }
    are_own(columns.places.as_slice())
}

/// Makes each sample the nearest one that a band can hold. All are of a type.
pub fn hold_all(holding: Holding, kind: PixelType, samples: &mut [Sample])
    requires kind { All (λ v. is_in kind v ≡ true) samples.old }
    ensures samples { (i : ℕ) → i < length samples.old → get_or samples.new i (pos 0) ≡ nearest holding.least
        holding.most (get_or samples.old i (pos 0)) }
{
    if holding.holds_all(kind) {
        return;
    }
    for at in 0..samples.len() {
        samples[at] = holding.hold(samples[at]);
    }
}
