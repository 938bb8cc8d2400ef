// Lookup tables.
ghost use Rattle.std.specs.Prelude.{◌≡◌, ℕ, ◌<◌, ◌≤◌, ◌++◌, [], ◌∷◌, Ok, None, Some, List, length, IfOk, IfSome, true};
ghost use Rattle.std.specs.List.{list_all, prefix_len};
ghost use Rattle.std.specs.Option.{option_map};
ghost use Rattle.vrt_profile.specs.Fields.{pieces, near_number, pair_of};
ghost use Rattle.vrt_profile.specs.Fronts.{first_piece, lut_behind, is_of_key, pair_with, MicrosFront};
ghost use Rattle.vrt_profile.specs.Numbers.{is_above, rising_pair, next_pair, lut_of};
ghost use Rattle.vrt_markup.specs.Kept.{Gives, kept_of};

use crate::fields::{cut_at, near_number};
use crate::fronts::{key_front, short_pair, short_value, whole_before, zero_before};
use crate::rectangle::{Lut, LutPair};
use lists_and_answers::Items;
use std::alloc::{AllocError, Global};
use vrt_markup::VrtFault;

/// The most pairs of a table.
const MOST_PAIRS: usize = 65_536;

// Whether the pair's input is above that of the last pair.
fn is_above(last: Option<LutPair>, pair: LutPair) -> bool
    ensures above { result ≡ is_above last pair }
{
    match last {
        None => true,
        Some(last) => last.input < pair.input,
    }
}

fn rising_pair(last: Option<LutPair>, pair: LutPair) -> Result<LutPair, VrtFault>
    ensures pair { result ≡ rising_pair last pair }
{
    if is_above(last, pair) {
        Ok(pair)
    } else {
        Err(VrtFault::BadNumber)
    }
}

// The pair that the first piece gives behind `count` others, where it gives this one by itself.
fn next_pair(
    count: usize,
    last: Option<LutPair>,
    pair: Option<LutPair>,
) -> Result<LutPair, VrtFault>
    ensures pair { (piece : List ℕ) → pair ≡ pair_of piece → result ≡ next_pair count last piece }
{
    if count >= MOST_PAIRS {
        return Err(VrtFault::Limit);
    }
    match pair {
        Some(pair) => rising_pair(last, pair),
        None => Err(VrtFault::BadNumber),
    }
}

// What stands before the first comma, or all, and what stands behind that comma.
fn first_piece(text: &[u8]) -> (&[u8], Option<&[u8]>)
    ensures piece { (result.0.now, option_map (λ r. r.now) result.1) ≡ first_piece text.now }
    ensures shorter { IfSome result.1 (λ r. length r.now < length text.now) }
{
    match cut_at(text, b',') {
        Some((piece, behind)) => (piece, Some(behind)),
        None => (text, None),
    }
}

// The number of the first piece, which may have any form, and what stands behind its comma.
#[inline(never)]
fn any_value_at(text: &[u8]) -> (Option<i64>, Option<&[u8]>)
    ensures value { result.0 ≡ near_number (first_piece text.now).0 }
    ensures behind { option_map (λ r. r.now) result.1 ≡ (first_piece text.now).1 }
    ensures shorter { IfSome result.1 (λ r. length r.now < length text.now) }
{
    let (piece, more) = first_piece(text);
    (near_number(piece), more)
}

// The number of the first piece, and what stands behind its comma.
#[inline(always)]
fn value_at(text: &[u8]) -> (Option<i64>, Option<&[u8]>)
    ensures value { result.0 ≡ near_number (first_piece text.now).0 }
    ensures behind { option_map (λ r. r.now) result.1 ≡ (first_piece text.now).1 }
    ensures shorter { IfSome result.1 (λ r. length r.now < length text.now) }
{
    match short_value(text) {
        Some((value, behind)) => (Some(value), behind),
        None => any_value_at(text),
    }
}

// The pair of an input and an output, where there is one.
fn pair_with(input: i64, output: Option<i64>) -> Option<LutPair>
    ensures pair { result ≡ pair_with input output }
{
    match output {
        Some(output) => Some(LutPair { input, output }),
        None => None,
    }
}

// How many bytes stand before the first colon or comma.
fn key_length(text: &[u8]) -> usize
    ensures count { result ≡ prefix_len is_of_key text.now }
    ensures bound { result ≤ length text.now }
{
    text.iter()
        .take_while(|c| **c != b':' && **c != b',')
        .count()
}

// The byte in front, and what stands behind it.
fn first_byte(text: &[u8]) -> Option<(u8, &[u8])>
    ensures first { IfSome result (λ x. text.now ≡ x.0 ∷ x.1.now) }
    ensures none { result ≡ None → text.now ≡ [] }
    ensures shorter { IfSome result (λ x. length x.1.now < length text.now) }
{
    match text {
        [byte, behind @ ..] => Some((*byte, behind)),
        [] => None,
    }
}

// The pair of a key and the first piece behind its colon, and what stands behind that piece's comma.
#[tactic(auto, using(crate::proofs::ShortNumbers::any_key, crate::proofs::ShortNumbers::bad_key))]
fn keyed_pair<'a>(key: &[u8], text: &'a [u8]) -> (Option<LutPair>, Option<&'a [u8]>)
    requires key { list_all is_of_key key.now ≡ true }
    ensures pair { result.0 ≡ pair_of (key.now ++ 58 ∷ (first_piece text.now).0) }
    ensures behind { option_map (λ r. r.now) result.1 ≡ (first_piece text.now).1 }
    ensures shorter { IfSome result.1 (λ r. length r.now < length text.now) }
{
    let (output, more) = value_at(text);
    match near_number(key) {
        Some(input) => (pair_with(input, output), more),
        None => (None, more),
    }
}

// The pair of the first piece, whose key may have any form, and what stands behind its comma.
#[inline(never)]
fn any_pair_at(text: &[u8]) -> (Option<LutPair>, Option<&[u8]>)
    ensures pair { result.0 ≡ pair_of (first_piece text.now).0 }
    ensures behind { option_map (λ r. r.now) result.1 ≡ (first_piece text.now).1 }
    ensures shorter { IfSome result.1 (λ r. length r.now < length text.now) }
{
    let (key, rest) = text.split_at(key_length(text));
    match first_byte(rest) {
        Some((mark, behind)) => {
            if mark == b':' {
                keyed_pair(key, behind)
            } else {
                (None, Some(behind))
            }
        }
        None => (None, None),
    }
}

// The pair of this input and the number of the first piece, which may have any form, and what stands behind its comma.
#[inline(never)]
fn any_pair_behind(input: i64, text: &[u8]) -> (Option<LutPair>, Option<&[u8]>)
    ensures pair { result.0 ≡ pair_with input (near_number (first_piece text.now).0) }
    ensures behind { option_map (λ r. r.now) result.1 ≡ (first_piece text.now).1 }
    ensures shorter { IfSome result.1 (λ r. length r.now < length text.now) }
{
    let (output, more) = value_at(text);
    (pair_with(input, output), more)
}

// The zero with an exponent in front, or the whole number, and what stands behind the comma behind it. `None` also
// where the text is short.
#[inline(always)]
fn whole_or_zero(text: &[u8]) -> Option<(i64, &[u8])>
    ensures front { IfSome result (λ x. MicrosFront text.now x.0 (44 ∷ x.1.now)) }
    ensures shorter { IfSome result (λ x. length x.1.now < length text.now) }
{
    match zero_before(text) {
        Some(behind) => Some((0, behind)),
        None => whole_before(text, b','),
    }
}

// The pair of this input and the number of the first piece, and what stands behind its comma.
#[inline(always)]
fn pair_behind(input: i64, text: &[u8]) -> (Option<LutPair>, Option<&[u8]>)
    ensures pair { result.0 ≡ pair_with input (near_number (first_piece text.now).0) }
    ensures behind { option_map (λ r. r.now) result.1 ≡ (first_piece text.now).1 }
    ensures shorter { IfSome result.1 (λ r. length r.now < length text.now) }
{
    match whole_or_zero(text) {
        Some((output, behind)) => (Some(LutPair { input, output }), Some(behind)),
        None => any_pair_behind(input, text),
    }
}

// The pair of the first piece, and what stands behind its comma.
#[inline(always)]
#[tactic(auto, using(crate::proofs::ShortNumbers::key_behind))]
fn pair_at(text: &[u8]) -> (Option<LutPair>, Option<&[u8]>)
    ensures pair { result.0 ≡ pair_of (first_piece text.now).0 }
    ensures behind { option_map (λ r. r.now) result.1 ≡ (first_piece text.now).1 }
    ensures shorter { IfSome result.1 (λ r. length r.now < length text.now) }
{
    match key_front(text) {
        Some((input, second)) => pair_behind(input, second),
        None => any_pair_at(text),
    }
}

// The pair of two whole numbers in front, where a comma stands behind it, and what stands behind that comma.
#[inline(always)]
fn whole_pair(text: &[u8]) -> Option<(LutPair, &[u8])>
    ensures pair { IfSome result (λ x. pair_of (first_piece text.now).0 ≡ Some x.0) }
    ensures behind { IfSome result (λ x. Some x.1.now ≡ (first_piece text.now).1) }
    ensures shorter { IfSome result (λ x. length x.1.now < length text.now) }
{
    let (input, second) = whole_before(text, b':')?;
    let (output, behind) = whole_or_zero(second)?;
    Some((LutPair { input, output }, behind))
}

// Adds the pairs of whole numbers in front, each with a comma behind it, as long as they rise and there is room: the
// last one of them, and what stands behind them.
#[inline(never)]
fn push_whole_pairs<'a>(
    pairs: &mut Items<LutPair>,
    text: &'a [u8],
) -> Result<(Option<LutPair>, &'a [u8]), AllocError>
    ensures left { IfOk result (λ x. lut_behind pairs.new x.0 x.1.now ≡ lut_behind pairs.old None text.now) }
{
    let mut last = None;
    let mut rest = text;
    while let Some((found, behind)) = whole_pair(rest) {
        let pair = match next_pair(pairs.len(), last, Some(found)) {
            Ok(pair) => pair,
            Err(_) => return Ok((last, rest)),
        };
        pairs.push(pair)?;
        last = Some(pair);
        rest = behind;
    }
    Ok((last, rest))
}

// Adds the pairs of a text behind the last one of those before them, or finds its first fault.
fn push_pairs(
    pairs: &mut Items<LutPair>,
    before: Option<LutPair>,
    text: &[u8],
) -> Result<Result<(), VrtFault>, AllocError>
    ensures pairs { IfOk result (λ k. kept_of pairs.new k ≡ lut_behind pairs.old before text.now) }
{
    let mut last = before;
    let mut rest = text;
    'pieces: loop {
        let (found, more) = pair_at(rest);
        let pair = match next_pair(pairs.len(), last, found) {
            Ok(pair) => pair,
            Err(fault) => return Ok(Err(fault)),
        };
        match pairs.push(pair) {
            Err(failed) => return Err(failed),
            Ok(()) => match more {
                None => return Ok(Ok(())),
                Some(behind) => {
                    last = Some(pair);
                    rest = behind;
                }
            },
        }
    }
}

// The pairs, unless there is a fault.
fn kept_pairs(kept: Result<(), VrtFault>, pairs: Items<LutPair>) -> Result<Items<LutPair>, VrtFault>
    ensures kept { result ≡ kept_of pairs kept }
{
    match kept {
        Ok(()) => Ok(pairs),
        Err(fault) => Err(fault),
    }
}

// The pairs of a table, or its first fault. Most tables begin with whole numbers, or have nothing else.
#[tactic(auto, using(crate::proofs::Tables::whole_table))]
fn pairs_of(alloc: Global, text: &[u8]) -> Result<Result<Items<LutPair>, VrtFault>, VrtFault>
    ensures pairs { Gives (λ x. x) result (Ok (lut_of text.now)) }
{
    let mut pairs = Items::new(alloc);
    match push_whole_pairs(&mut pairs, text) {
        Err(_) => Err(VrtFault::Memory),
        Ok((last, rest)) => match push_pairs(&mut pairs, last, rest) {
            Err(_) => Err(VrtFault::Memory),
            Ok(kept) => Ok(kept_pairs(kept, pairs)),
        },
    }
}

// The one pair of a table of a short pair.
#[tactic(auto, using(crate::proofs::Tables::one_pair))]
fn one_pair(text: &[u8]) -> Option<LutPair>
    ensures pair { IfSome result (λ pair. Ok (pair ∷ []) ≡ lut_of text.now) }
{
    let (pair, behind) = short_pair(text)?;
    match behind {
        None => Some(pair),
        Some(_) => None,
    }
}

// The table of one pair or more.
fn table_of(alloc: Global, text: &[u8]) -> Result<Result<Lut, VrtFault>, VrtFault>
    ensures table { Gives (λ x. x) result (Ok (lut_of text.now)) }
{
    match pairs_of(alloc, text) {
        Ok(Ok(pairs)) => Ok(Ok(Lut::of(pairs))),
        Ok(Err(fault)) => Ok(Err(fault)),
        Err(error) => Err(error),
    }
}

/// A lookup table: pairs with commas between them.
#[tactic(auto, using(crate::proofs::Tables::lut_rules))]
pub fn lut_of(alloc: Global, text: &[u8]) -> Result<Result<Lut, VrtFault>, VrtFault>
    ensures table { Gives (λ x. x) result (Ok (lut_of text.now)) }
{
    match one_pair(text) {
        Some(pair) => Ok(Ok(Lut::one(pair))),
        None => table_of(alloc, text),
    }
}
