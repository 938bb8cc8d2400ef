// The lines of a header, their keys and values.
ghost use Rattle.std.specs.Prelude.{slice_index_or, ◌≡◌, ℕ, ◌<◌, ◌≤◌, ◌+◌, length, IfSome, Option};
ghost use Rattle.std.specs.Option.{option_map};
ghost use Rattle.std.specs.List.{before_first, after_first, position_or_len, position};
ghost use Rattle.lists_and_answers.specs.Texts.{same_letters};
ghost use Rattle.esri_hdr.specs.Keys.{names};
ghost use Rattle.esri_hdr.specs.Lines.{is_line_end, key_of, entry_at, last_in_text};
ghost use Rattle.esri_hdr.specs.Steps.{lookup};

use crate::keys::NAMES;
use lists_and_answers::{same_letters, token_at};

fn is_line_end(c: u8) -> bool
    ensures { result ≡ is_line_end c }
{
    c == b'\n' || c == b'\r'
}

fn line_len(text: &[u8]) -> usize
    ensures count { result ≡ position_or_len is_line_end text.now }
    ensures bound { result ≤ length text.now }
{
    text.iter().take_while(|c| !is_line_end(**c)).count()
}

/// The first line, and what stands behind its end.
fn line_at(text: &[u8]) -> (&[u8], &[u8])
    ensures line { result.0.now ≡ before_first is_line_end text.now }
    ensures rest { result.1.now ≡ after_first is_line_end text.now }
    ensures shorter { 0 < length text.now → length result.1.now < length text.now }
{
    match text.split_at(line_len(text)) {
        (line, [_, rest @ ..]) => (line, rest),
        (line, []) => (line, &[]),
    }
}

/// The place of the first name that the token is.
fn first_named(names: &[&str], token: &[u8]) -> Option<usize>
    ensures { result ≡ position (λ name. same_letters token.now name.now) names.now }
{
    names
        .iter()
        .position(|name| same_letters(token, name.as_bytes()))
}

fn key_of(token: &[u8]) -> Option<usize>
    ensures key { result ≡ key_of token.now }
    ensures bound { IfSome result (λ k. k < 16) }
{
    first_named(&NAMES, token)
}

#[tactic(auto, unfolding(crate::specs::Lines::entry_at))]
fn entry_at(line: &[u8]) -> Option<(usize, &[u8])>
    ensures entry { option_map (λ e. (e.0, e.1.now)) result ≡ entry_at line.now }
    ensures bound { IfSome result (λ e. e.0 < 16) }
{
    let (name, rest) = token_at(line);
    let (value, _) = token_at(rest);
    if value.is_empty() {
        return None;
    }
    Some((key_of(name)?, value))
}

#[tactic(auto, using(crate::proofs::Last::last_step, crate::proofs::Last::last_none, crate::proofs::Last::or_else_none, crate::proofs::Last::found_set))]
/// The value of each key in the last of the lines that gives it one.
pub fn scan(bytes: &[u8]) -> [Option<&[u8]>; 16]
    ensures { lookup result ≡ last_in_text bytes.now }
{
    let mut found: [Option<&[u8]>; 16] = [None; 16];
    let mut rest = bytes;
    while !rest.is_empty() {
        let (line, after) = line_at(rest);
        if let Some((key, value)) = entry_at(line) {
            found[key] = Some(value);
        }
        rest = after;
    }
    found
}
