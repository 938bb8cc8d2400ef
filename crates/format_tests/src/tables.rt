// Tables as texts: rows with `|` between them, each of which is words with a blank behind each, and then a text. One
// text is proved in a fraction of the time that its rows take as values.
use lists_and_answers::push_all;
use std::alloc::{AllocError, Global};
use std::process::Abort;
use std::test::*;

// The first row that doesn't hold.
fn first_wrong<'a>(
    alloc: Global,
    rows: &'a str,
    holds: fn(Global, &str) -> Option<bool>,
) -> Option<&'a str>
    requires { IsAlwaysCallable holds }
{
    for row in rows.split('|') {
        if holds(alloc, row) != Some(true) {
            return Some(row);
        }
    }
    None
}

/// Asserts that each row of a table holds. A row that isn't of the table's form is none that holds.
pub fn all_hold(rt: &impl Abort, alloc: Global, rows: &str, holds: fn(Global, &str) -> Option<bool>)
    requires { IsAlwaysCallable holds }
{
    assert_eq!(*rt; first_wrong(alloc, rows, holds), None);
}

/// Asserts that no row, or no place, is wrong.
pub fn none_wrong(rt: &impl Abort, wrong: Option<usize>) {
    assert_eq!(*rt; wrong, None);
}

/// A row's first word, and what is behind it.
pub fn word(row: &str) -> Option<(&str, &str)> {
    row.split_once(' ')
}

/// A row's first word, which is a number, and what is behind it.
pub fn number(row: &str) -> Option<(i128, &str)> {
    let (word, rest) = word(row)?;
    Some((word.parse::<i128>().ok()?, rest))
}

/// The same of a number of 32 bits.
pub fn count(row: &str) -> Option<(u32, &str)> {
    let (word, rest) = word(row)?;
    Some((word.parse::<u32>().ok()?, rest))
}

/// The same of a number of 32 bits with its sign.
pub fn whole(row: &str) -> Option<(i32, &str)> {
    let (word, rest) = word(row)?;
    Some((word.parse::<i32>().ok()?, rest))
}

/// A row's first word, which is a number or `-` for none, and what is behind it.
pub fn choice(row: &str) -> Option<(Option<i128>, &str)> {
    let (word, rest) = word(row)?;
    if word == "-" {
        return Some((None, rest));
    }
    Some((Some(word.parse::<i128>().ok()?), rest))
}

/// Some texts one behind the other.
pub fn joined(alloc: Global, parts: &[&[u8]]) -> Result<Vec<u8>, AllocError> {
    let mut text = Vec::new(alloc);
    push_all(parts, &mut text)?;
    Ok(text)
}

/// A text so many times.
pub fn repeated(alloc: Global, part: &str, times: u32) -> Result<Vec<u8>, AllocError> {
    let mut text = Vec::new(alloc);
    for _ in 0..times {
        text.extend_from_slice(part.as_bytes())?;
    }
    Ok(text)
}
