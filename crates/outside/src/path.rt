// Normal forms of paths.
ghost use Rattle.std.specs.Prelude.{◌≡◌, ◌<◌, ◌≤◌, true, false, length, option_map, string_bytes, [], ◌∷◌};
ghost use Rattle.std.specs.Prelude.{◌-◌, if◌then◌else◌, drop, slice_index, IfOk, IfSome, OnOk};
ghost use Rattle.std.specs.List.{prefix_len};
ghost use Rattle.outside.specs.Paths.{with_part, kept_parts, between_slashes, joined, normal, is_kept, is_absolute};
ghost use Rattle.outside.specs.Plain.{dereferenced, are_plain, are_plain_behind, behind_slash, is_in_part};
ghost use Rattle.outside.specs.Plain.{add_the_same, adds_all, begins_part};

use crate::Text;
use memchr::memchr;
use std::alloc::{AllocError, Global};

// Whether the last part is one that `..` removes.
fn ends_kept(parts: &[&str]) -> bool
    ensures { result ≡ is_kept (dereferenced parts.now) }
{
    match parts.last() {
        Some(last) => *last != "..",
        None => false,
    }
}

// Takes one part more.
#[tactic(auto, using(crate::proofs::PathParts::parts))]
fn take_part<'a>(absolute: bool, parts: &mut Vec<&'a str>, part: &'a str) -> Result<(), AllocError>
    ensures ok { OnOk result (dereferenced parts.new.items ≡
        with_part absolute (dereferenced parts.old.items) part.now) }
{
    if part.is_empty() || part == "." {
        return Ok(());
    }
    if part != ".." {
        parts.push(part)?;
        return Ok(());
    }
    if ends_kept(parts) {
        parts.pop();
        return Ok(());
    }
    if !absolute {
        parts.push("..")?;
    }
    Ok(())
}

// The parts that stay. Empty parts and points are passed over without being cut off one by one.
fn normal_parts(alloc: Global, absolute: bool, text: &str) -> Result<Vec<&str>, AllocError>
    ensures { IfOk result (λ parts. dereferenced parts.items ≡ kept_parts absolute [] (between_slashes text.now)) }
{
    let mut parts = Vec::new(alloc);
    let mut rest = behind_dropped(text);
    loop {
        match rest.split_once('/') {
            Some((part, more)) => {
                take_part(absolute, &mut parts, part)?;
                rest = behind_dropped(more);
            }
            None => {
                take_part(absolute, &mut parts, rest)?;
                return Ok(parts);
            }
        }
    }
}

// The parts with a slash before each.
fn join(alloc: Global, parts: &[&str]) -> Result<String, AllocError>
    ensures { IfOk result (λ text. string_bytes text ≡ joined (dereferenced parts.now)) }
{
    let mut text = String::from_str(alloc, "")?;
    for part in parts {
        text.push_str("/")?;
        text.push_str(part)?;
    }
    Ok(text)
}

// What stands behind a slash in front, or all where there is none.
fn behind_slash(text: &[u8]) -> &[u8]
    ensures { result.now ≡ behind_slash text.now }
{
    match text {
        [c, rest @ ..] if *c == b'/' => rest,
        _ => text,
    }
}

// Whether something begins here, and its first byte is neither a slash nor a point.
fn begins_plainly(text: &[u8]) -> bool
    ensures part { result ≡ begins_part text.now }
    ensures plain { result ≡ true → are_plain true text.now ≡ are_plain false text.now }
    ensures other { result ≡ false → are_plain true text.now ≡ false }
{
    match text {
        [c, ..] => *c != b'/' && *c != b'.',
        [] => false,
    }
}

// How many bytes stand in front of the first slash.
#[tactic(auto, using(crate::proofs::Slashes::first_slash, crate::proofs::Slashes::slash_within))]
fn part_len(text: &[u8]) -> usize
    ensures count { result ≡ prefix_len is_in_part text.now }
    ensures bound { result ≤ length text.now }
{
    memchr(b'/', text).unwrap_or(text.len())
}

// What stands behind the first slash, where there is one.
fn behind_part(text: &[u8]) -> Option<&[u8]>
    ensures next { are_plain_behind text.now (option_map (λ rest. rest.now) result) }
    ensures shorter { IfSome result (λ rest. length rest.now < length text.now) }
{
    let (_, rest) = text.split_at(part_len(text));
    match rest {
        [_, more @ ..] => Some(more),
        [] => None,
    }
}

// Whether each part between slashes begins with a byte that isn't a point.
fn are_plain(text: &[u8]) -> bool
    ensures { result ≡ are_plain true text.now }
{
    let mut rest = text;
    while begins_plainly(rest) {
        match behind_part(rest) {
            Some(more) => rest = more,
            None => return true,
        }
    }
    false
}

// What stands behind a part `..` in front, where a slash ends it.
fn behind_parent(text: &[u8]) -> Option<&[u8]>
    ensures parent { IfSome result (λ rest. text.now ≡ 46 ∷ 46 ∷ 47 ∷ rest.now) }
    ensures shorter { IfSome result (λ rest. length rest.now < length text.now) }
{
    match text {
        [c, d, e, rest @ ..] if *c == b'.' && *d == b'.' && *e == b'/' => Some(rest),
        _ => None,
    }
}

// What stands behind all parts `..` in front.
fn behind_parents(text: &[u8]) -> &[u8]
    ensures added { adds_all result.now → adds_all text.now }
{
    let mut rest = text;
    while let Some(more) = behind_parent(rest) {
        rest = more;
    }
    rest
}

// Whether a path without a slash in front is its own normal form: parts `..`, and behind them parts whose first bytes
// tell it.
fn is_plain_relative(text: &[u8]) -> bool
    requires relative { is_absolute text.now ≡ false }
    ensures { result ≡ true → normal text.now ≡ text.now }
{
    are_plain(behind_parents(text))
}

// Whether a path is its own normal form by the first bytes of its parts, as most are.
#[tactic(auto, using(crate::proofs::Plain::plain_normal))]
fn is_plain(text: &[u8]) -> bool
    ensures { result ≡ true → normal text.now ≡ text.now }
{
    if !is_absolute(text) {
        return is_plain_relative(text);
    }
    are_plain(behind_slash(text))
}

// Whether a path begins with a slash.
fn is_absolute(text: &[u8]) -> bool
    ensures { result ≡ is_absolute text.now }
{
    match text {
        [c, ..] => *c == b'/',
        [] => false,
    }
}

// What stands behind a part `..`, where a slash stands before it and one behind it.
fn behind_up(text: &[u8]) -> Option<&[u8]>
    ensures up { IfSome result (λ rest. text.now ≡ 47 ∷ 46 ∷ 46 ∷ 47 ∷ rest.now) }
{
    match text {
        [b, c, d, e, rest @ ..] if *b == b'/' && *c == b'.' && *d == b'.' && *e == b'/' => Some(
            rest,
        ),
        _ => None,
    }
}

// How many bytes a part in front and a part `..` behind it have, with the slash behind each: none where these don't
// stand here, or the part begins with a point.
fn turn_len(text: &[u8]) -> usize
    ensures parts { add_the_same text.now (drop result text.now) }
    ensures bound { result ≤ length text.now }
    ensures slash { 0 < result → slice_index text.now (result - 1) ≡ 47 }
{
    if !begins_plainly(text) {
        return 0;
    }
    let count = part_len(text);
    let (_, rest) = text.split_at(count);
    match behind_up(rest) {
        Some(_) => count + 4,
        None => 0,
    }
}

// How many bytes have an empty part, a point, or a part with the `..` that removes it, that stand in front, with the
// slashes behind them: none where there is no such part.
#[tactic(auto, using(crate::proofs::Trims::falls))]
fn dropped_part_len(text: &[u8]) -> usize
    ensures parts { add_the_same text.now (drop result text.now) }
    ensures bound { result ≤ length text.now }
    ensures slash { 0 < result → slice_index text.now (result - 1) ≡ 47 }
    ensures none { result ≡ 0 → is_absolute text.now ≡ false }
{
    match text {
        [c, ..] if *c == b'/' => 1,
        [c, d, ..] if *c == b'.' && *d == b'/' => 2,
        _ => turn_len(text),
    }
}

// How many bytes the parts in front have that fall away, with the slashes behind them.
fn dropped_len(text: &[u8]) -> usize
    ensures parts { add_the_same text.now (drop result text.now) }
    ensures bound { result ≤ length text.now }
    ensures slash { 0 < result → slice_index text.now (result - 1) ≡ 47 }
    ensures none { is_absolute (drop result text.now) ≡ false }
{
    let mut count = 0;
    loop {
        let more = dropped_part_len(&text[count..]);
        if more == 0 {
            return count;
        }
        count += more;
    }
}

// What stands behind the parts in front that fall away.
fn behind_dropped(text: &str) -> &str
    ensures parts { add_the_same text.now result.now }
    ensures bound { length result.now ≤ length text.now }
{
    let (_, rest) = text.split_at(dropped_len(text.as_bytes()));
    rest
}

// Where a path is cut so that the slash in front of an absolute one stays.
fn kept_at(absolute: bool, dropped: usize) -> usize
    ensures { result ≡ if absolute then dropped - 1 else dropped }
{
    if absolute {
        dropped.saturating_sub(1)
    } else {
        dropped
    }
}

// A path with the same normal form, without the parts in front that fall away.
fn trimmed(text: &str) -> &str
    ensures { normal result.now ≡ normal text.now }
{
    if begins_plainly(behind_slash(text.as_bytes())) {
        return text;
    }
    let at = kept_at(is_absolute(text.as_bytes()), dropped_len(text.as_bytes()));
    let (_, rest) = text.split_at(at);
    rest
}

// The normal form of a path, from its parts.
#[tactic(auto, unfolding(crate::specs::Paths::normal))]
fn rebuilt(alloc: Global, text: &str) -> Result<Text, AllocError>
    ensures { IfOk result (λ path. path ≡ normal text.now) }
{
    let absolute = is_absolute(text.as_bytes());
    let parts = normal_parts(alloc, absolute, text)?;
    if parts.is_empty() {
        return Text::new(alloc, if absolute { "/" } else { "." });
    }
    let slashed = join(alloc, &parts)?;
    if absolute {
        return Ok(Text::of(slashed));
    }
    let (_, rest) = slashed.as_str().split_at(1);
    Text::new(alloc, rest)
}

/// The normal form of a path.
pub fn normalise(alloc: Global, text: &str) -> Result<Text, AllocError>
    ensures { IfOk result (λ path. path ≡ normal text.now) }
{
    let text = trimmed(text);
    if is_plain(text.as_bytes()) {
        return Text::new(alloc, text);
    }
    rebuilt(alloc, text)
}
