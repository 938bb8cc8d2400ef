// Lines of an output's band, made of lines of the source.
ghost use Rattle.std.specs.Prelude.{◌≡◌, ◌<◌, ◌≤◌, ◌+◌, ◌-◌, ◌*◌, ℕ, pos, List, Option, length, get_or};
ghost use Rattle.outside.specs.Outside.{Files};
ghost use Rattle.strip_copies.specs.Rows.{strip_rect, AreShownIn, AreSamples, IsMaking, IsRow, IsStrip};

use crate::columns::Columns;
use crate::holding::Holding;
use crate::rows::{fill_row, map_row};
use crate::shown_places::line_at;
use crate::spans::{Run, Span};
use geotransform::{Sample, Size};
use translate_plan::Plan;

/// What rows of a band of an output are made with: the plan, the columns that are read, what the band holds, its
/// number, counted from 0, and the columns and lines of the source.
#[derive(Clone, Copy)]
pub struct Making<'a> {
    pub plan: &'a Plan,
    pub columns: &'a Columns,
    pub holding: Holding,
    pub band: u32,
    pub size: Size,
}

/// The samples of so many rows.
pub fn area(rows: u32, width: u32) -> usize
    ensures area { result ≡ rows * width }
{
    rows as usize * width as usize
}

// A line of so many lines of columns.
fn line_in(strip: &[Sample], columns: u32, lines: u32, line: u32) -> &[Sample]
    requires size { length strip.now ≡ columns * lines }
    requires inside { line < lines }
    ensures size { length result.now ≡ columns }
    ensures samples { (c : ℕ) → c < columns → get_or result.now c (pos 0) ≡ get_or strip.now (line * columns + c)
        (pos 0) }
{
    let at = area(line, columns);
    &strip[at..at + columns as usize]
}

// Makes a row of the output of the lines of the source in a span.
fn make_row(making: Making, span: Span, strip: &[Sample], line: u32, row: &mut [Sample])
    requires making { IsMaking making }
    requires line { line < making.plan.now.size.h }
    requires row { length row.old ≡ making.plan.now.size.w }
    requires strip { length strip.now ≡ making.columns.now.count * span.height }
    requires lines { AreShownIn making.plan.now making.size.h line (line + 1) span }
    ensures row { (told : Option Files) (name : List ℕ) → IsStrip told name making.entry.plan.now making.entry.band
        (strip_rect making.entry.columns.now span) strip.now → IsRow told name making.entry.plan.now making.entry.size
        making.entry.band line row.new }
{
    match line_at(making.plan, making.size.h, line) {
        None => fill_row(making.holding, row),
        Some(place) => {
            let columns = making.columns;
            let pixels = line_in(strip, columns.count, span.height, place - span.top);
            map_row(making.holding, columns.places.as_slice(), pixels, row);
        }
    }
}

/// Makes the lines of a run of the lines of the source that it shows, row by row.
pub fn make_lines(making: Making, run: Run, strip: &[Sample], out: &mut [Sample])
    requires making { IsMaking making }
    requires some { run.first < run.end }
    requires end { run.end ≤ making.plan.now.size.h }
    requires room { length out.old ≡ (run.end - run.first) * making.plan.now.size.w }
    requires strip { length strip.now ≡ making.columns.now.count * run.span.height }
    requires lines { AreShownIn making.plan.now making.size.h run.first run.end run.span }
    ensures samples { (told : Option Files) (name : List ℕ) → IsStrip told name making.entry.plan.now making.entry.band
        (strip_rect making.entry.columns.now run.span) strip.now →
        AreSamples told name making.entry.plan.now making.entry.size making.entry.band run.first (length out.old)
        out.new }
{
    let plan = making.plan;
    plan.rules();
    let width = plan.size.w;
    for line in run.first..run.end {
        let at = area(line - run.first, width);
        let row = &mut out[at..at + width as usize];
        make_row(making, run.span, strip, line, row);
    }
}
