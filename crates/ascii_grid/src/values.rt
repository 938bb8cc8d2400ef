// What a token says.
ghost use Rattle.std.specs.Prelude.{◌≡◌, ◌≤◌, ◌<◌, ℕ, ℤ, pos, ◌^◌, true, false, length, take, get_or, IfSome, ◌+◌, ◌-◌};
ghost use Rattle.std.specs.Prelude.{◌*◌, ◌==◌, min, Some, None, if◌then◌else◌};
ghost use Rattle.std.specs.List.{list_all};
ghost use Rattle.std.specs.Char.{is_ascii_digit};
ghost use Rattle.lists_and_answers.specs.Texts.{is_white};
ghost use Rattle.geotransform.specs.Decimal.{IsRead, number, signed, ticks_of};
ghost use Rattle.geotransform.specs.Types.{when_in};
ghost use Rattle.geotransform.specs.declared.types.PixelType.TheVariants.{Int32};
ghost use Rattle.ascii_grid.specs.Scanning.{longest_token, other_nodata, has_value};
ghost use Rattle.ascii_grid.specs.Values.{is_body_start, side_in, coordinate_in, step_in, nodata_in, is_whole_end};
ghost use Rattle.ascii_grid.specs.Values.{value_in, is_value};
ghost use Rattle.ascii_grid.specs.Row.{value_or_zero};

use crate::faults::GridFault;
use crate::head_parts::{Coordinate, PixelSize, Side, Value};
use crate::tokens::LONGEST_TOKEN;
use geotransform::decimal::{digits_at, sign_at};
use geotransform::{
    LONGEST_DECIMAL, MOST_SHORT_DIGITS, MOST_SIDE, PixelType, Ticks, is_decimal, read_decimal,
    read_number, read_whole, when_in,
};
use lists_and_answers::{is_white, same_letters};

/// The most digits behind the sign of a token.
const MOST_BEHIND_SIGN: usize = LONGEST_TOKEN - 1;

/// Whether a token in a key's place ends the head.
pub fn is_body_start(text: &[u8]) -> bool
    ensures { result ≡ is_body_start text.now }
{
    match text {
        [c, ..] => c.is_ascii_digit() || *c == b'+' || *c == b'-' || *c == b'.',
        [] => false,
    }
}

/// A number of columns or rows.
#[tactic(auto, unfolding(crate::specs::Values::side_in))]
pub fn side_in(at: u64, text: &[u8]) -> Result<Side, GridFault>
    ensures { result ≡ side_in at text.now }
{
    let n = read_number(text).ok_or(GridFault::BadToken(at))?;
    if text.len() > MOST_SHORT_DIGITS || n == 0 {
        return Err(GridFault::BadToken(at));
    }
    if n > MOST_SIDE as u64 {
        return Err(GridFault::Limit);
    }
    Ok(Side::new(n as u32))
}

// So many units.
#[tactic(auto, using(crate::proofs::Ticks::units_read))]
fn units(n: u32) -> Ticks
    ensures value { result ≡ pos (18 * (n * 10 ^ 16)) }
    ensures read { IsRead result }
{
    let n = i128::from(n);
    Ticks::of(n * 180_000_000_000_000_000)
}

// How many units a few digits are, or none where the text is another one.
#[inline(always)]
#[tactic(auto, using(crate::proofs::Ticks::digits_ticks))]
fn units_in(text: &[u8]) -> Option<u32>
    ensures value { IfSome result (λ n. ticks_of text.now ≡ Some (pos (18 * (n * 10 ^ 16)))) }
    ensures small { IfSome result (λ n. n ≤ 2000000009) }
{
    let (n, value) = digits_in(text);
    if n == text.len() && n > 0 && n <= LONGEST_DECIMAL {
        Some(value)
    } else {
        None
    }
}

// The ticks of a decimal text. Digits alone need no powers of ten.
fn ticks_in(text: &[u8]) -> Option<Ticks>
    ensures value { result ≡ ticks_of text.now }
    ensures read { IfSome result IsRead }
{
    match units_in(text) {
        Some(n) => Some(units(n)),
        None => read_decimal(text),
    }
}

/// A coordinate.
pub fn coordinate_in(at: u64, text: &[u8]) -> Result<Coordinate, GridFault>
    ensures { result ≡ coordinate_in at text.now }
{
    let ticks = ticks_in(text).ok_or(GridFault::BadToken(at))?;
    Ok(Coordinate::new(ticks))
}

// A size of so many units.
fn units_step(n: u32) -> PixelSize
    requires some { 0 < n }
    requires small { n ≤ 2000000009 }
    ensures { result ≡ 18 * (n * 10 ^ 16) }
{
    PixelSize::new(u128::from(n) * 180_000_000_000_000_000)
}

// A size of a pixel that any text writes.
#[inline(always)]
#[tactic(auto, unfolding(crate::specs::Values::step_in))]
fn decimal_step(at: u64, text: &[u8]) -> Result<PixelSize, GridFault>
    ensures { result ≡ step_in at text.now }
{
    let ticks = read_decimal(text).ok_or(GridFault::BadToken(at))?;
    let n = ticks.get();
    if n > 0 {
        Ok(PixelSize::new(n.unsigned_abs()))
    } else {
        Err(GridFault::BadToken(at))
    }
}

/// A size of a pixel.
#[inline(always)]
pub fn step_in(at: u64, text: &[u8]) -> Result<PixelSize, GridFault>
    ensures { result ≡ step_in at text.now }
{
    match units_in(text) {
        Some(n) if n > 0 => Ok(units_step(n)),
        _ => decimal_step(at, text),
    }
}

// The number, where it is one of the band.
fn whole_nodata(n: i128) -> Option<Value>
    ensures { result ≡ when_in Int32 (Some n) }
{
    match when_in(PixelType::Int32, Some(n)) {
        Some(n) => Some(Value::new(n)),
        None => None,
    }
}

// A NODATA that is no whole number.
fn other_nodata(at: u64, text: &[u8]) -> Result<Option<Value>, GridFault>
    ensures { result ≡ other_nodata at text.now }
{
    if is_decimal(text) || same_letters(text, b"nan") {
        Ok(None)
    } else {
        Err(GridFault::BadToken(at))
    }
}

/// A NODATA.
#[tactic(auto, using(crate::proofs::NoData::whole_told, crate::proofs::NoData::other_told))]
pub fn nodata_in(at: u64, text: &[u8]) -> Result<Option<Value>, GridFault>
    ensures { result ≡ nodata_in at text.now }
{
    match read_whole(text) {
        Some(n) => Ok(whole_nodata(n)),
        None => other_nodata(at, text),
    }
}

fn are_zeros(text: &[u8]) -> bool
    ensures { result ≡ list_all (λ d. d == 48) text.now }
{
    text.iter().all(|d| *d == b'0')
}

fn is_whole_end(text: &[u8]) -> bool
    ensures { result ≡ is_whole_end text.now }
{
    match text {
        [] => true,
        [b'.', zeros @ ..] => !zeros.is_empty() && are_zeros(zeros),
        _ => false,
    }
}

// A number with one more digit; one that is past the band stays.
fn with_digit(n: u64, c: u8) -> u64
    requires { n ≤ 21474836735 }
    ensures value { min result 2147483649 ≡ min (n * 10 + (c - 48)) 2147483649 }
    ensures bound { result ≤ 21474836735 }
{
    if n < 2_147_483_649 {
        n * 10 + u64::from(c.saturating_sub(b'0'))
    } else {
        n
    }
}

// The number that the digits write, or one that is past the band where it is greater.
fn capped(digits: &[u8]) -> u64
    ensures { result ≡ min (number digits.now) 2147483649 }
{
    let mut n = 0u64;
    for c in digits {
        n = with_digit(n, *c);
    }
    n.min(2_147_483_649)
}

// The number with this sign and these digits, where it is one of the band.
fn signed_value(negative: bool, digits: &[u8]) -> Option<i32>
    ensures { result ≡ (if is_value (signed negative (number digits.now)) then Some
        (signed negative (number digits.now)) else None) }
{
    let n = capped(digits) as i64;
    if negative && n <= 2_147_483_648 {
        Some(-n as i32)
    } else if !negative && n <= 2_147_483_647 {
        Some(n as i32)
    } else {
        None
    }
}

/// The value of a token of the body.
#[tactic(auto, unfolding(crate::specs::Values::value_in))]
pub fn value_in(at: u64, text: &[u8]) -> Result<i32, GridFault>
    ensures { result ≡ value_in at text.now }
{
    let (negative, rest) = sign_at(text);
    let (digits, end) = digits_at(rest);
    if text.len() <= LONGEST_DECIMAL && !digits.is_empty() && is_whole_end(end) {
        signed_value(negative, digits).ok_or(GridFault::Limit)
    } else if is_decimal(text) {
        Err(GridFault::NotInteger(at))
    } else {
        Err(GridFault::BadToken(at))
    }
}

// How many bytes the digits in front take, and the number that they write. It ends in front of a digit where
// the number might grow past Int32.
fn digits_in(bytes: &[u8]) -> (usize, u32)
    ensures within { result.0 ≤ length bytes.now }
    ensures digits { list_all is_ascii_digit (take result.0 bytes.now) ≡ true }
    ensures value { result.1 ≡ number (take result.0 bytes.now) }
    ensures small { result.1 ≤ 2000000009 }
{
    let mut n = 0u32;
    for i in 0..bytes.len() {
        let c = bytes[i];
        if !c.is_ascii_digit() || n > 200_000_000 {
            return (i, n);
        }
        n = n * 10 + u32::from(c - b'0');
    }
    (bytes.len(), n)
}

// The digits in front, where they are a number below 2^31, at most so many, and white space stands behind them: how
// many they are, and the number.
fn number_at(bytes: &[u8], most: usize) -> Option<(usize, u32)>
    ensures some { IfSome result (λ r. 0 < r.0) }
    ensures few { IfSome result (λ r. r.0 ≤ most) }
    ensures within { IfSome result (λ r. r.0 < length bytes.now) }
    ensures digits { IfSome result (λ r. list_all is_ascii_digit (take r.0 bytes.now) ≡ true) }
    ensures value { IfSome result (λ r. r.1 ≡ number (take r.0 bytes.now)) }
    ensures small { IfSome result (λ r. r.1 < 2147483648) }
    ensures white { IfSome result (λ r. is_white (get_or bytes.now r.0 0) ≡ true) }
{
    let (n, value) = digits_in(bytes);
    if n > 0 && n <= most && n < bytes.len() && is_white(bytes[n]) {
        Some((n, value))
    } else {
        None
    }
}

// A number below 2^31 with this sign.
fn signed_number(negative: bool, n: u32) -> i32
    requires { n < 2147483648 }
    ensures { result ≡ signed negative n }
{
    let n = n as i32;
    if negative { -n } else { n }
}

// So of a minus and the digits behind it: how many bytes they have, and their value.
fn minus_at(bytes: &[u8]) -> Option<(usize, i32)>
    requires first { 0 < length bytes.now }
    requires minus { get_or bytes.now 0 0 ≡ 45 }
    ensures some { IfSome result (λ r. 0 < r.0) }
    ensures few { IfSome result (λ r. r.0 ≤ longest_token) }
    ensures within { IfSome result (λ r. r.0 < length bytes.now) }
    ensures dark { IfSome result (λ r. (k : ℕ) → k < r.0 → is_white (get_or bytes.now k 0) ≡ false) }
    ensures white { IfSome result (λ r. is_white (get_or bytes.now r.0 0) ≡ true) }
    ensures has { IfSome result (λ r. has_value (take r.0 bytes.now) ≡ true) }
    ensures value { IfSome result (λ r. r.1 ≡ value_or_zero (take r.0 bytes.now)) }
{
    match number_at(&bytes[1..], MOST_BEHIND_SIGN) {
        Some((n, value)) => Some((n + 1, signed_number(true, value))),
        None => None,
    }
}

/// The token in front, where it is digits, or a minus and digits, that write a value of the body, and white
/// space stands behind it: how many bytes it has, and its value.
#[tactic(auto, using(crate::proofs::Fronts::front_dark, crate::proofs::Fronts::plain_has, crate::proofs::Fronts::plain_value))]
pub fn value_at(bytes: &[u8]) -> Option<(usize, i32)>
    ensures some { IfSome result (λ r. 0 < r.0) }
    ensures few { IfSome result (λ r. r.0 ≤ longest_token) }
    ensures within { IfSome result (λ r. r.0 < length bytes.now) }
    ensures dark { IfSome result (λ r. (k : ℕ) → k < r.0 → is_white (get_or bytes.now k 0) ≡ false) }
    ensures white { IfSome result (λ r. is_white (get_or bytes.now r.0 0) ≡ true) }
    ensures has { IfSome result (λ r. has_value (take r.0 bytes.now) ≡ true) }
    ensures value { IfSome result (λ r. r.1 ≡ value_or_zero (take r.0 bytes.now)) }
{
    if bytes.len() > 0 && bytes[0] == b'-' {
        return minus_at(bytes);
    }
    match number_at(bytes, LONGEST_TOKEN) {
        Some((n, value)) => Some((n, signed_number(false, value))),
        None => None,
    }
}
