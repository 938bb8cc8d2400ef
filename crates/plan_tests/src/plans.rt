// What is planned, beside what is to be.
use crate::asking::{head, options};
use crate::sources::text_of;
use catalog::Head;
use geotransform::{PlanFault, read_whole};
use std::alloc::Global;
use std::process::Abort;
use std::test::*;
use translate_plan::{Plan, plan};

/// The source, what is asked for, and what is planned: the name of a refusal, or the sides of the output, of the
/// column, the line and the sides of the window; and then the source's number from 0, the type and NODATA or `-` of
/// each band.
pub type Row<'a> = (&'a str, &'a str, &'a str);

fn is_text(word: Option<&str>, text: &str) -> bool {
    match word {
        Some(word) => word == text,
        None => false,
    }
}

fn is_number(word: Option<&str>, number: i128) -> bool {
    match word {
        Some(word) => read_whole(word.as_bytes()) == Some(number),
        None => false,
    }
}

fn is_nodata(word: Option<&str>, nodata: Option<i128>) -> bool {
    match nodata {
        Some(number) => is_number(word, number),
        None => is_text(word, "-"),
    }
}

// Whether a band is that of these words: the source's number, the type and NODATA.
fn is_band(
    plan: &Plan,
    at: u32,
    (source, kind, nodata): (Option<&str>, Option<&str>, Option<&str>),
) -> bool {
    at < plan.count()
        && is_number(source, plan.source(at) as i128)
        && is_text(kind, plan.kind(at).name())
        && is_nodata(nodata, plan.nodata(at))
}

fn has_bands(plan: &Plan, text: &str) -> bool {
    let mut words = text.split_ascii_whitespace();
    for at in 0..plan.count() {
        let band = (words.next(), words.next(), words.next());
        if !is_band(plan, at, band) {
            return false;
        }
    }
    words.next().is_none()
}

// Whether the words of a text are these numbers.
fn are_numbers(text: &str, numbers: &[i128]) -> bool {
    let mut words = text.split_ascii_whitespace();
    for number in numbers {
        if !is_number(words.next(), *number) {
            return false;
        }
    }
    words.next().is_none()
}

fn is_size(plan: &Plan, text: &str) -> bool {
    are_numbers(text, &[plan.size.w as i128, plan.size.h as i128])
}

fn is_window(plan: &Plan, text: &str) -> bool {
    let (w, h) = (plan.window.w as i128, plan.window.h as i128);
    are_numbers(text, &[plan.x as i128, plan.y as i128, w, h])
}

// The two sides of a text's first such word.
fn cut<'a>(text: &'a str, word: &str) -> (&'a str, &'a str) {
    match text.split_once(word) {
        Some((front, back)) => (front, back),
        None => (text, ""),
    }
}

fn is_planned(plan: &Plan, wanted: &str) -> bool {
    let (raster, bands) = cut(wanted, ": ");
    let (size, window) = cut(raster, " of ");
    is_size(plan, size) && is_window(plan, window) && has_bands(plan, bands)
}

fn is_no_band(band: u32, wanted: &str) -> bool {
    let (name, number) = cut(wanted, " ");
    name == "NoBand" && is_number(Some(number), band as i128)
}

fn is_fault(fault: PlanFault, wanted: &str) -> bool {
    match fault {
        PlanFault::NoBand(band) => is_no_band(band, wanted),
        PlanFault::NoGeo => wanted == "NoGeo",
        PlanFault::EmptyWindow => wanted == "EmptyWindow",
        PlanFault::Limit => wanted == "Limit",
        PlanFault::Outside => wanted == "Outside",
        PlanFault::BandCount => wanted == "BandCount",
        PlanFault::Unfit => wanted == "Unfit",
    }
}

fn agrees(planned: Result<Plan, PlanFault>, wanted: &str) -> bool {
    match planned {
        Err(fault) => is_fault(fault, wanted),
        Ok(plan) => is_planned(&plan, wanted),
    }
}

/// The head of the source of this name.
pub fn source_head(alloc: Global, source: &str) -> Option<Head> {
    head(alloc, &[("in.vrt", text_of(source))])
}

fn row_holds(alloc: Global, (source, ask, wanted): Row<'_>) -> Option<bool> {
    let options = options(alloc, ask)?;
    let head = source_head(alloc, source)?;
    Some(agrees(plan(&options, &head), wanted))
}

/// The first row that doesn't hold.
fn wrong_row(alloc: Global, rows: &[Row<'_>]) -> Option<usize> {
    for at in 0..rows.len() {
        if row_holds(alloc, rows[at]) != Some(true) {
            return Some(at);
        }
    }
    None
}

/// Asserts that no row of a table is wrong.
pub fn none_wrong(rt: &impl Abort, wrong: Option<usize>) {
    assert_eq!(*rt; wrong, None);
}

/// Asserts that these rows hold.
pub fn all_hold(rt: &impl Abort, alloc: Global, rows: &[Row<'_>]) {
    none_wrong(rt, wrong_row(alloc, rows));
}
