// Short numbers, as most of a document's are, read in one pass.
ghost use Rattle.std.specs.Prelude.{◌≡◌, ◌<◌, ◌≤◌, ◌*◌, ◌-◌, ◌^◌, [], ◌∷◌, Some, pos, length, drop, true, IfSome};
ghost use Rattle.std.specs.Option.{option_map};
ghost use Rattle.geotransform.specs.Decimal.{places_of, whole_of, signed, sign_at, is_exponent_mark};
ghost use Rattle.vrt_profile.specs.Fronts.{IsDigitFront, DigitRun, DigitsFront, FractionFront, DecimalFront};
ghost use Rattle.vrt_profile.specs.Fronts.{MicrosFront, PairFront, first_piece};
ghost use Rattle.vrt_profile.specs.Fields.{near_number, pair_of};

use crate::rectangle::LutPair;
use geotransform::decimal::sign_at;

// The number of the digit in front, and what stands behind it.
#[tactic(auto, using(crate::proofs::DigitRuns::digit_front))]
fn digit_front(text: &[u8]) -> Option<(u64, &[u8])>
    ensures digit { IfSome result (λ x. IsDigitFront text.now x.0 x.1.now) }
    ensures bound { IfSome result (λ x. x.0 < 10) }
    ensures shorter { IfSome result (λ x. length x.1.now < length text.now) }
{
    match text {
        [c, rest @ ..] if c.is_ascii_digit() => Some((u64::from(*c - b'0'), rest)),
        _ => None,
    }
}

// The number of the digits in front, which are nine at most, how many they are, and what stands behind
// them.
#[inline(always)]
#[tactic(auto, using(crate::proofs::DigitRuns::run_none))]
fn digit_run(text: &[u8]) -> Option<(u64, usize, &[u8])>
    ensures digits { IfSome result (λ x. DigitRun text.now x.0 x.1 x.2.now) }
    ensures shorter { IfSome result (λ x. length x.2.now ≤ length text.now) }
{
    let mut n = 0;
    let mut count = 0;
    let mut rest = text;
    while let Some((digit, more)) = digit_front(rest) {
        if count >= 9 {
            return None;
        }
        n = n * 10 + digit;
        count += 1;
        rest = more;
    }
    Some((n, count, rest))
}

// The number of the one to nine digits in front, and what stands behind them.
#[tactic(auto, using(crate::proofs::DigitRuns::run_digits, crate::proofs::DigitRuns::run_small))]
fn few_digits(text: &[u8]) -> Option<(u64, &[u8])>
    ensures digits { IfSome result (λ x. DigitsFront text.now x.0 x.1.now) }
    ensures bound { IfSome result (λ x. x.0 < 1000000000) }
    ensures shorter { IfSome result (λ x. length x.1.now ≤ length text.now) }
{
    let (n, count, rest) = digit_run(text)?;
    if count == 0 {
        return None;
    }
    Some((n, rest))
}

// What the last of so many digits of a fraction counts, in millionths.
fn last_digit(count: usize) -> u64
    requires few { count ≤ 6 }
    ensures value { result ≡ 10 ^ (6 - count) }
    ensures bound { result ≤ 1000000 }
{
    [1_000_000, 100_000, 10_000, 1000, 100, 10, 1][count]
}

fn product(a: u64, b: u64) -> u64
    requires a { a < 1000000000 }
    requires b { b ≤ 1000000 }
    ensures value { result ≡ a * b }
    ensures bound { result < 1000000000000000 }
{
    a * b
}

// The fraction of the one to six digits in front, in millionths, and what stands behind them.
#[inline(never)]
#[tactic(auto, using(crate::proofs::DigitRuns::run_fraction, crate::proofs::DigitRuns::run_small))]
fn fraction_front(text: &[u8]) -> Option<(u64, &[u8])>
    ensures digits { IfSome result (λ x. FractionFront text.now x.0 x.1.now) }
    ensures bound { IfSome result (λ x. x.0 < 1000000000000000) }
    ensures shorter { IfSome result (λ x. length x.1.now ≤ length text.now) }
{
    let (n, count, rest) = digit_run(text)?;
    if count == 0 || count > 6 {
        return None;
    }
    let part = product(n, last_digit(count));
    Some((part, rest))
}

// The number of up to nine digits in front, and up to six behind a point, in millionths.
fn decimal_front(text: &[u8]) -> Option<(u64, &[u8])>
    ensures decimal { IfSome result (λ x. DecimalFront text.now x.0 x.1.now) }
    ensures bound { IfSome result (λ x. x.0 < 2000000000000000) }
    ensures shorter { IfSome result (λ x. length x.1.now ≤ length text.now) }
{
    let (whole, rest) = few_digits(text)?;
    let size = product(whole, 1_000_000);
    match behind_byte(rest, b'.') {
        Some(more) => {
            let (part, rest) = fraction_front(more)?;
            Some((size + part, rest))
        }
        None => Some((size, rest)),
    }
}

fn with_sign(negative: bool, size: u64) -> i64
    requires near { size < 2000000000000000 }
    ensures value { result ≡ signed negative size }
{
    let size = size as i64;
    if negative { -size } else { size }
}

// The number in front, in millionths, and what stands behind it. `None` where it isn't short, or none.
#[inline(always)]
#[tactic(auto, using(crate::proofs::ShortNumbers::micros_at))]
fn micros_front(text: &[u8]) -> Option<(i64, &[u8])>
    ensures front { IfSome result (λ x. MicrosFront text.now x.0 x.1.now) }
    ensures shorter { IfSome result (λ x. length x.1.now ≤ length text.now) }
{
    let (negative, behind) = sign_at(text);
    let (size, rest) = decimal_front(behind)?;
    Some((with_sign(negative, size), rest))
}

/// The number that a text writes, in millionths, where it has up to nine digits, and up to six behind a
/// point.
#[tactic(auto, using(crate::proofs::ShortNumbers::whole_micros))]
pub fn short_micros(text: &[u8]) -> Option<i64>
    ensures number { IfSome result (λ v. Some v ≡ places_of 6 text.now) }
{
    let (value, rest) = micros_front(text)?;
    match rest {
        [] => Some(value),
        _ => None,
    }
}

/// The whole number that a text of one to nine digits writes.
pub fn short_whole(text: &[u8]) -> Option<u64>
    ensures number { IfSome result (λ n. Some (pos n) ≡ whole_of text.now) }
    ensures bound { IfSome result (λ n. n < 1000000000) }
{
    let (n, rest) = few_digits(text)?;
    match rest {
        [] => Some(n),
        _ => None,
    }
}

// What stands behind this byte in front.
fn behind_byte(text: &[u8], byte: u8) -> Option<&[u8]>
    ensures behind { IfSome result (λ r. text.now ≡ byte ∷ r.now) }
    ensures shorter { IfSome result (λ r. length r.now < length text.now) }
{
    match text {
        [c, behind @ ..] if *c == byte => Some(behind),
        _ => None,
    }
}

// The number of the digits in front of a text of at least ten bytes, nine digits at most, and how many they are.
#[inline(always)]
#[tactic(auto, using(crate::proofs::DigitRuns::run_at))]
fn run_in_ten(text: &[u8]) -> Option<(u64, usize)>
    requires ten { 10 ≤ length text.now }
    ensures digits { IfSome result (λ x. DigitRun text.now x.0 x.1 (drop x.1 text.now)) }
    ensures few { IfSome result (λ x. x.1 ≤ 9) }
{
    let mut n = 0u64;
    for count in 0..10 {
        let c = text[count];
        if !c.is_ascii_digit() {
            return Some((n, count));
        }
        n = n * 10 + (u64::from(c) - 48);
    }
    None
}

// The number of the one to nine digits in front, how many they are, and what stands behind this byte, which stands
// behind them. `None` also where the text is short.
#[inline(always)]
fn run_before(text: &[u8], byte: u8) -> Option<(u64, usize, &[u8])>
    ensures digits { IfSome result (λ x. DigitRun text.now x.0 x.1 (byte ∷ x.2.now)) }
    ensures some { IfSome result (λ x. 0 < x.1) }
    ensures shorter { IfSome result (λ x. length x.2.now < length text.now) }
{
    if text.len() < 10 {
        return None;
    }
    let (n, count) = run_in_ten(text)?;
    let (_, rest) = text.split_at(count);
    let behind = behind_byte(rest, byte)?;
    if count == 0 {
        return None;
    }
    Some((n, count, behind))
}

/// The whole number of the one to nine digits in front, in millionths, and what stands behind this byte, which stands
/// behind them. `None` also where the text is short.
#[inline(always)]
#[tactic(auto, using(crate::proofs::DigitRuns::run_small, crate::proofs::ShortNumbers::whole_at))]
pub fn whole_before(text: &[u8], byte: u8) -> Option<(i64, &[u8])>
    ensures front { IfSome result (λ x. MicrosFront text.now x.0 (byte ∷ x.1.now)) }
    ensures shorter { IfSome result (λ x. length x.1.now < length text.now) }
{
    let (n, _, behind) = run_before(text, byte)?;
    let size = product(n, 1_000_000);
    Some((size as i64, behind))
}

// The mark of an exponent in front, and what stands behind it.
fn mark_front(text: &[u8]) -> Option<(u8, &[u8])>
    ensures mark { IfSome result (λ x. is_exponent_mark x.0 ≡ true) }
    ensures behind { IfSome result (λ x. text.now ≡ x.0 ∷ x.1.now) }
    ensures shorter { IfSome result (λ x. length x.1.now < length text.now) }
{
    match text {
        [c, behind @ ..] if *c == b'e' || *c == b'E' => Some((*c, behind)),
        _ => None,
    }
}

// What stands behind a sign in front, or all where there is none.
fn behind_sign(text: &[u8]) -> &[u8]
    ensures behind { result.now ≡ (sign_at text.now).1 }
    ensures shorter { length result.now ≤ length text.now }
{
    let (_, behind) = sign_at(text);
    behind
}

/// What stands behind the comma behind a zero with an exponent of one to three digits, as in `0e999` or `0E-5`: a table
/// of such zeros is read in one pass, too. `None` also where the text is short.
#[inline(always)]
pub fn zero_before(text: &[u8]) -> Option<&[u8]>
    ensures front { IfSome result (λ r. MicrosFront text.now (pos 0) (44 ∷ r.now)) }
    ensures shorter { IfSome result (λ r. length r.now < length text.now) }
{
    let (_, exponent) = mark_front(behind_byte(text, b'0')?)?;
    let (_, count, behind) = run_before(behind_sign(exponent), b',')?;
    if count > 3 {
        return None;
    }
    Some(behind)
}

/// The short number in front, where a colon stands behind it, and what stands behind that colon.
#[inline(always)]
pub fn key_front(text: &[u8]) -> Option<(i64, &[u8])>
    ensures key { IfSome result (λ x. MicrosFront text.now x.0 (58 ∷ x.1.now)) }
    ensures shorter { IfSome result (λ x. length x.1.now < length text.now) }
{
    match whole_before(text, b':') {
        Some(key) => Some(key),
        None => short_key(text),
    }
}

// The same of a short number of any form, in a text of any length.
#[inline(never)]
fn short_key(text: &[u8]) -> Option<(i64, &[u8])>
    ensures key { IfSome result (λ x. MicrosFront text.now x.0 (58 ∷ x.1.now)) }
    ensures shorter { IfSome result (λ x. length x.1.now < length text.now) }
{
    let (input, rest) = micros_front(text)?;
    let second = behind_byte(rest, b':')?;
    Some((input, second))
}

// Two short numbers in front with a colon between them, and what stands behind them.
fn pair_front(text: &[u8]) -> Option<(LutPair, &[u8])>
    ensures pair { IfSome result (λ x. PairFront text.now x.0 x.1.now) }
    ensures shorter { IfSome result (λ x. length x.1.now < length text.now) }
{
    let (input, second) = short_key(text)?;
    let (output, rest) = micros_front(second)?;
    Some((LutPair { input, output }, rest))
}

// What stands behind a comma in front, where there is one, or nothing where the text is empty.
fn behind_comma(text: &[u8]) -> Option<Option<&[u8]>>
    ensures behind { IfSome result (λ o. first_piece text.now ≡ ([], option_map (λ r. r.now) o)) }
    ensures shorter { IfSome result (λ o. IfSome o (λ r. length r.now < length text.now)) }
{
    match text {
        [] => Some(None),
        [b',', behind @ ..] => Some(Some(behind)),
        _ => None,
    }
}

/// The number in front, where it has up to nine digits, and up to six behind a point, and a comma stands behind it, or
/// nothing; and what stands behind that comma.
#[inline(always)]
pub fn short_value(text: &[u8]) -> Option<(i64, Option<&[u8]>)>
    ensures value { IfSome result (λ x. near_number (first_piece text.now).0 ≡ Some x.0) }
    ensures behind { IfSome result (λ x. option_map (λ r. r.now) x.1 ≡ (first_piece text.now).1) }
    ensures shorter { IfSome result (λ x. IfSome x.1 (λ r. length r.now < length text.now)) }
{
    let (value, rest) = micros_front(text)?;
    let behind = behind_comma(rest)?;
    Some((value, behind))
}

/// The pair of a lookup table in front, where its numbers have up to nine digits, and up to six behind a
/// point, and a comma stands behind it, or nothing; and what stands behind that comma.
pub fn short_pair(text: &[u8]) -> Option<(LutPair, Option<&[u8]>)>
    ensures pair { IfSome result (λ x. pair_of (first_piece text.now).0 ≡ Some x.0) }
    ensures behind { IfSome result (λ x. option_map (λ r. r.now) x.1 ≡ (first_piece text.now).1) }
    ensures shorter { IfSome result (λ x. IfSome x.1 (λ r. length r.now < length text.now)) }
{
    let (pair, rest) = pair_front(text)?;
    let behind = behind_comma(rest)?;
    Some((pair, behind))
}
