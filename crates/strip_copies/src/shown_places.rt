// Which columns and lines of the source an output shows.
ghost use Rattle.std.specs.Prelude.{◌≡◌, ◌<◌, ◌≤◌, ◌+◌, ◌*◌, ◌+ℤ◌, pos, unsigned_abs, IfSome};
ghost use Rattle.translate_plan.specs.Plan.{shown, shown_line};
ghost use Rattle.geotransform.specs.Limits.{most_side, farthest};
ghost use Rattle.geotransform.specs.Pixels.{within};

use translate_plan::{Plan, windows_are_shown};

// An odd number of halves, times a side.
fn halves(k: u32, side: u32) -> u64
    requires place { k < most_side }
    requires side { side ≤ most_side }
    ensures { result ≡ (2 * k + 1) * side }
{
    let odd = 2 * u64::from(k) + 1;
    odd * u64::from(side)
}

/// The column, or line, of a window of `from` of them that a column, or line, of an output of `to` shows.
pub fn shown_at(from: u32, to: u32, k: u32) -> u32
    requires some { 0 < from }
    requires few { from ≤ most_side }
    requires least { to ≤ most_side }
    requires inside { k < to }
    ensures shown { result ≡ shown from to k }
    ensures within { result < from }
{
    // This law is called for the proof: what is shown lies in the window.
    windows_are_shown();
    let place = halves(k, from) / (2 * u64::from(to));
    place as u32
}

/// The column, or line, of a side that stands so many behind an offset; None outside.
pub fn place_in(side: u32, offset: i64, step: u32) -> Option<u32>
    requires far { unsigned_abs offset ≤ farthest }
    ensures place { result ≡ within side (offset +ℤ pos step) }
    ensures inside { IfSome result (λ place. place < side) }
{
    let place = offset + i64::from(step);
    if 0 <= place && place < i64::from(side) {
        Some(place as u32)
    } else {
        None
    }
}

/// The line of a source of this height that a line of the output shows; None outside.
pub fn line_at(plan: &Plan, height: u32, line: u32) -> Option<u32>
    requires line { line < plan.now.size.h }
    ensures place { result ≡ within height (shown_line plan.now line) }
    ensures inside { IfSome result (λ place. place < height) }
{
    plan.rules();
    let step = shown_at(plan.window.h, plan.size.h, line);
    place_in(height, plan.y, step)
}
