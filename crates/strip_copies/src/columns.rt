// The columns of the source that an output shows.
ghost use Rattle.std.specs.Prelude.{◌≡◌, ◌<◌, ◌≤◌, ◌+◌, ◌+ℤ◌, pos, IfOk};
ghost use Rattle.translate_plan.specs.Plan.{shown_column};
ghost use Rattle.strip_copies.specs.Columns.{column_at, held_to, AreColumns};
ghost use Rattle.geotransform.specs.Limits.{most_side};
ghost use Rattle.geotransform.specs.Pixels.{within};

use crate::shown_places::{place_in, shown_at};
use std::alloc::{AllocError, Global};
use translate_plan::Plan;

/// The columns of a source that are read for an output.
#[derive(Drop)]
pub struct Columns {
    /// The first column that is read.
    pub first: u32,
    /// The number of columns that are read.
    pub count: u32,
    /// For each column of the output the place of the one that it shows, counted from the first that is read;
    /// `count` where it shows none.
    pub places: Vec<u32>,
}

// The number from 0 to a side that is nearest to a place.
fn held_to(side: u32, place: i64) -> u32
    ensures nearest { result ≡ held_to side place }
{
    if place < 0 {
        0
    } else if place > i64::from(side) {
        side
    } else {
        place as u32
    }
}

// The place of the column that a column of the output shows among `count` columns from `first` on, which are
// those of the window.
fn column_place(plan: &Plan, width: u32, first: u32, count: u32, column: u32) -> u32
    requires first { first ≡ held_to width plan.now.x }
    requires count { first + count ≡ held_to width (plan.now.x +ℤ pos plan.now.window.w) }
    requires column { column < plan.now.size.w }
    ensures place { within width (shown_column plan.now column) ≡ column_at first count result }
{
    plan.rules();
    let step = shown_at(plan.window.w, plan.size.w, column);
    match place_in(width, plan.x, step) {
        Some(place) => place - first,
        None => count,
    }
}

impl Columns {
    /// The columns of a source of this width, at most 4,194,304, that a plan's output shows: those of its window.
    /// It is refused where memory is.
    pub fn new(alloc: Global, plan: &Plan, width: u32) -> Result<Columns, AllocError>
        requires width { width ≤ most_side }
        ensures columns { IfOk result (AreColumns plan.now width) }
        ensures first { IfOk result (λ c. c.first ≡ held_to width plan.now.x) }
        ensures end { IfOk result (λ c. c.first + c.count ≡ held_to width (plan.now.x +ℤ pos plan.now.window.w)) }
    {
        plan.rules();
        let first = held_to(width, plan.x);
        let end = held_to(width, plan.x + i64::from(plan.window.w));
        let count = end - first;
        let mut places = Vec::with_capacity(alloc, plan.size.w as usize)?;
        for column in 0..plan.size.w {
            places.push(column_place(plan, width, first, count, column))?;
        }
        Ok(Columns {
            first,
            count,
            places,
        })
    }
}
