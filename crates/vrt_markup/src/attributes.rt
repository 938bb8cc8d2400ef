// The attributes of a tag: their values, and whether one stands twice.
ghost use Rattle.std.specs.Prelude.{◌≡◌, ◌<◌, ◌≤◌, ◌==◌, ℕ, List, length, map, true, false, IfSome, IfOk, None};
ghost use Rattle.std.specs.Option.{option_map};
ghost use Rattle.vrt_markup.specs.Items.{is_some, pair_at, is_equal, pairs, attribute, is_distinct};
ghost use Rattle.vrt_markup.specs.Keys.{bytes_number, last_bytes, name_number, sort_key_of, number_of, apart};
ghost use Rattle.vrt_markup.specs.Keys.{double_from, double_of, spread_with};
ghost use Rattle.vrt_markup.specs.Attributes.{pair_view, spread_view};

use crate::hash::text_hash;
use crate::tokens::{byte_at, has_space, name_at, spaces_at, trim_front, value_at};
use std::alloc::{AllocError, Global};

/// An attribute: its name and its value, as it stands between its quotes.
#[derive(Clone, Copy)]
pub struct Pair<'a> {
    pub name: &'a [u8],
    pub value: &'a [u8],
}

/// An attribute in front, and what stands behind it.
#[tactic(auto, unfolding(crate::specs::Items::pair_at))]
#[inline(always)]
fn pair_at(text: &[u8]) -> Option<(Pair, &[u8])>
    ensures pair { option_map (λ x. (pair_view x.0, x.1.now)) result ≡ pair_at text.now }
    ensures shorter { IfSome result (λ x. length x.1.now < length text.now) }
{
    let rest = spaces_at(text)?;
    let (name, rest) = name_at(rest)?;
    let rest = byte_at(trim_front(rest), b'=')?;
    let (value, rest) = value_at(trim_front(rest))?;
    Some((Pair { name, value }, rest))
}

/// The value of the first attribute with this name, in a text in which attributes may stand.
#[inline(never)]
#[tactic(auto, using(crate::proofs::Shorter::pairs_next, crate::proofs::Shorter::pairs_none))]
fn attribute_in<'a>(text: &'a [u8], name: &[u8]) -> Option<&'a [u8]>
    ensures value { option_map (λ v. v.now) result ≡ attribute name.now (pairs text.now).0 }
{
    let mut rest = text;
    while let Some((pair, more)) = pair_at(rest) {
        if pair.name == name {
            return Some(pair.value);
        }
        rest = more;
    }
    None
}

/// The value of the first attribute with this name.
#[inline(always)]
#[tactic(auto, using(crate::proofs::Names::spaceless))]
pub fn attribute<'a>(text: &'a [u8], name: &[u8]) -> Option<&'a [u8]>
    ensures value { option_map (λ v. v.now) result ≡ attribute name.now (pairs text.now).0 }
{
    if !has_space(text) {
        return None;
    }
    attribute_in(text, name)
}

/// The value of the first attribute with this name, and a text in which all others may stand: what
/// stands behind that attribute, where it is the one in front.
#[tactic(auto, using(crate::proofs::Ordered::front_value, crate::proofs::Ordered::front_others))]
pub fn attribute_front<'a>(text: &'a [u8], name: &[u8]) -> (Option<&'a [u8]>, &'a [u8])
    ensures value { option_map (λ v. v.now) result.0 ≡ attribute name.now (pairs text.now).0 }
    ensures others { (other : List ℕ) → is_equal name.now other ≡ false →
        attribute other (pairs result.1.now).0 ≡ attribute other (pairs text.now).0 }
{
    match pair_at(text) {
        Some((pair, more)) if pair.name == name => (Some(pair.value), more),
        _ => (attribute(text, name), text),
    }
}

/// The number that the bytes of a name of fewer than eight make.
fn short_number(name: &[u8]) -> u64
    ensures number { result ≡ bytes_number 0 name.now }
{
    let mut word: u64 = 0;
    let mut rest = name;
    while let [c, more @ ..] = rest {
        word = word % 0x0100_0000_0000_0000 * 256 + u64::from(*c);
        rest = more;
    }
    word
}

/// The number that the last eight bytes of a name make.
#[tactic(auto, using(crate::proofs::Numbers::last_word, crate::proofs::Numbers::last_short))]
fn last_bytes(name: &[u8]) -> u64
    ensures number { result ≡ last_bytes name.now }
{
    let Some((_, last)) = name.split_last_chunk::<8>() else {
        return short_number(name);
    };
    u64::from_be_bytes(*last)
}

/// The number by which a name is told from others. That of up to eight bytes is theirs, which no other name of so few
/// has; that of more is a hash, since names may end alike.
#[tactic(auto, unfolding(crate::specs::Keys::name_number))]
fn name_number(name: &[u8]) -> u64
    ensures number { result ≡ name_number name.now }
{
    if name.len() > 8 {
        return text_hash(0, name);
    }
    last_bytes(name)
}

/// The attributes' names, each behind its number, so that the names themselves are compared only where
/// two numbers are the same.
#[tactic(auto, using(crate::proofs::Shorter::pairs_next, crate::proofs::Shorter::pairs_none))]
fn keys_of(alloc: Global, text: &[u8]) -> Result<Vec<(u64, &[u8])>, AllocError>
    ensures keys { IfOk result (λ v. map (λ k. (k.0, k.1.now)) v.items ≡ map sort_key_of (pairs text.now).0) }
{
    let mut keys = Vec::new(alloc);
    let mut rest = text;
    while let Some((pair, more)) = pair_at(rest) {
        keys.push((name_number(pair.name), pair.name))?;
        rest = more;
    }
    Ok(keys)
}

/// Whether no attribute stands twice, by the names: what stands twice stands side by side once they
/// are sorted.
fn differ_by_name(alloc: Global, text: &[u8]) -> Result<bool, AllocError>
    ensures { IfOk result (λ b. b ≡ is_distinct (pairs text.now).0) }
{
    let mut keys = keys_of(alloc, text)?;
    let count = keys.len();
    keys.sort_unstable();
    keys.dedup();
    Ok(keys.len() == count)
}

/// The first number that is the same as the one in front of it.
fn double_from(first: u64, numbers: &[u64]) -> Option<u64>
    ensures double { result ≡ double_from first numbers.now }
{
    let mut last = first;
    let mut rest = numbers;
    while let [number, more @ ..] = rest {
        if *number == last {
            return Some(last);
        }
        last = *number;
        rest = more;
    }
    None
}

fn double_of(numbers: &[u64]) -> Option<u64>
    ensures double { result ≡ double_of numbers.now }
{
    match numbers {
        [] => None,
        [first, rest @ ..] => double_from(*first, rest),
    }
}

/// The least number that stands twice. Numbers often stand in a few stretches that rise, and this sort
/// keeps such stretches.
fn double_in(mut numbers: Vec<u64>) -> Result<Option<u64>, AllocError>
    ensures none { IfOk result (λ o. o ≡ None → apart (λ x y. x == y) numbers.items ≡ true) }
{
    numbers.sort()?;
    Ok(double_of(&numbers))
}

fn has_attribute(text: &[u8], name: &[u8]) -> bool
    ensures { result ≡ is_some (attribute name.now (pairs text.now).0) }
{
    attribute(text, name).is_some()
}

/// Whether the first attribute whose name has this number stands twice.
#[tactic(auto, using(crate::proofs::Names::twice_here, crate::proofs::Names::twice_later))]
fn stands_twice(text: &[u8], number: u64) -> bool
    ensures twice { result ≡ true → is_distinct (pairs text.now).0 ≡ false }
{
    let mut rest = text;
    while let Some((pair, more)) = pair_at(rest) {
        if name_number(pair.name) == number {
            return has_attribute(more, pair.name);
        }
        rest = more;
    }
    false
}

/// Whether one of the first 64 attributes stands twice, asked as soon as their numbers are there, so
/// that a tag of a few names again and again ends soon.
fn stands_twice_early(alloc: Global, text: &[u8], numbers: &[u64]) -> Result<bool, AllocError>
    ensures twice { IfOk result (λ b. b ≡ true → is_distinct (pairs text.now).0 ≡ false) }
{
    if numbers.len() != 64 {
        return Ok(false);
    }
    match double_in(Vec::from_slice(alloc, numbers)?)? {
        None => Ok(false),
        Some(number) => Ok(stands_twice(text, number)),
    }
}

/// The numbers of the attributes' names, and what stands behind all attributes in front; none where
/// one of the first attributes stands twice.
#[tactic(auto, using(crate::proofs::Names::spaceless, crate::proofs::Shorter::pairs_none))]
pub(crate) fn numbers_of(
    alloc: Global,
    text: &[u8],
) -> Result<Option<(Vec<u64>, &[u8])>, AllocError>
    ensures numbers { IfOk result (λ o. IfSome o (λ x. x.0.items ≡ map number_of (pairs text.now).0)) }
    ensures rest { IfOk result (λ o. IfSome o (λ x. x.1.now ≡ (pairs text.now).1)) }
    ensures shorter { IfOk result (λ o. IfSome o (λ x. length x.1.now ≤ length text.now)) }
    ensures twice { IfOk result (λ o. o ≡ None → is_distinct (pairs text.now).0 ≡ false) }
{
    let mut numbers = Vec::new(alloc);
    if !has_space(text) {
        return Ok(Some((numbers, text)));
    }
    let mut rest = text;
    while let Some((pair, more)) = pair_at(rest) {
        numbers.push(name_number(pair.name))?;
        if stands_twice_early(alloc, text, &numbers)? {
            return Ok(None);
        }
        rest = more;
    }
    Ok(Some((numbers, rest)))
}

/// Whether no attribute stands twice. A tag may have any number of attributes, so their numbers are
/// sorted first; the names are asked only where two numbers are the same.
#[tactic(auto, using(crate::proofs::Names::numbers_tell, crate::proofs::Names::few_differ))]
pub(crate) fn is_distinct(alloc: Global, text: &[u8], numbers: Vec<u64>) -> Result<bool, AllocError>
    requires numbers { numbers.items ≡ map number_of (pairs text.now).0 }
    ensures { IfOk result (λ b. b ≡ is_distinct (pairs text.now).0) }
{
    if numbers.len() < 2 {
        return Ok(true);
    }
    match double_in(numbers)? {
        None => Ok(true),
        Some(number) => {
            if stands_twice(text, number) {
                return Ok(false);
            }
            differ_by_name(alloc, text)
        }
    }
}

/// What is kept of numbers that differ: each of them is one from `low` to `last`, or one from `top` on.
#[derive(Clone, Copy)]
struct Spread {
    low: u64,
    last: u64,
    top: u64,
}

// The numbers with one more, where it is less than all of them, or more than those up to `last` and less than
// those from `top` on.
fn spread_with(spread: Spread, number: u64) -> Option<Spread>
    ensures spread { option_map spread_view result ≡ spread_with (spread_view spread) number }
{
    if number < spread.low {
        return Some(Spread {
            low: number,
            last: number,
            top: spread.low,
        });
    }
    if number <= spread.last || number >= spread.top {
        return None;
    }
    Some(Spread {
        low: spread.low,
        last: number,
        top: spread.top,
    })
}

/// What stands behind all attributes in front, where the numbers of their names rise, or rise in a few
/// stretches each of which is below the earlier ones, so that none stands twice.
#[tactic(auto, using(crate::proofs::Shorter::pairs_next, crate::proofs::Shorter::pairs_none, crate::proofs::Rising::spread_differ))]
#[inline(never)]
pub(crate) fn behind_rising(text: &[u8]) -> Option<&[u8]>
    ensures rest { IfSome result (λ r. r.now ≡ (pairs text.now).1) }
    ensures distinct { IfSome result (λ r. is_distinct (pairs text.now).0 ≡ true) }
    ensures shorter { IfSome result (λ r. length r.now ≤ length text.now) }
{
    let mut spread = Spread {
        low: u64::MAX,
        last: u64::MAX,
        top: u64::MAX,
    };
    let mut rest = text;
    while let Some((pair, more)) = pair_at(rest) {
        spread = spread_with(spread, last_bytes(pair.name))?;
        rest = more;
    }
    Some(rest)
}
