// Numbers in a text, alone or with marks between them.
ghost use Rattle.std.specs.Prelude.{◌≡◌, ◌≤◌, ◌<◌, ◌*◌, length, IfSome, unsigned_abs};
ghost use Rattle.std.specs.Option.{option_map};
ghost use Rattle.geotransform.specs.Decimal.{IsRead};
ghost use Rattle.vrt_profile.specs.Values.{million, pair_limit};
ghost use Rattle.vrt_profile.specs.Fields.{trim, trim_end, whole_text, length_before, cut_at, near_number};
ghost use Rattle.vrt_profile.specs.Fields.{ticks_then, six_of, Six};
ghost use Rattle.vrt_profile.specs.NumberViews.{six_view, IsReadSix};

use geotransform::{MOST_SHORT_DIGITS, read_decimal, read_number, read_places};
use lists_and_answers::is_white;
use vrt_markup::trim_front;

/// The numbers of a lookup table stay below it in magnitude, in millionths.
const PAIR_LIMIT_MICROS: u128 = 5_000_000_000_000_000;

// Without white space at its end.
fn trim_end(text: &[u8]) -> &[u8]
    ensures trimmed { result.now ≡ trim_end text.now }
{
    let mut count = text.len();
    while count > 0 && is_white(text[count - 1]) {
        count -= 1;
    }
    &text[..count]
}

/// A text without white space at its ends.
pub fn trim(text: &[u8]) -> &[u8]
    ensures trimmed { result.now ≡ trim text.now }
{
    trim_end(trim_front(text))
}

/// The number of a whole text: one to nine digits. `None` where it is none.
pub fn whole_text(text: &[u8]) -> Option<u64>
    ensures number { result ≡ whole_text text.now }
{
    if text.len() > MOST_SHORT_DIGITS {
        return None;
    }
    read_number(text)
}

// How many bytes stand before the first one that is `byte`.
fn length_before(text: &[u8], byte: u8) -> usize
    ensures count { result ≡ length_before byte text.now }
    ensures bound { result ≤ length text.now }
{
    text.iter().take_while(|c| **c != byte).count()
}

/// What stands before the first byte that is `byte`, and what behind it.
pub fn cut_at(text: &[u8], byte: u8) -> Option<(&[u8], &[u8])>
    ensures parts { option_map (λ x. (x.0.now, x.1.now)) result ≡ cut_at byte text.now }
    ensures shorter { IfSome result (λ x. length x.1.now < length text.now) }
{
    let (front, rest) = text.split_at(length_before(text, byte));
    match rest {
        [_, behind @ ..] => Some((front, behind)),
        [] => None,
    }
}

/// A number in millionths, rounded half away from zero. `None` where the text is none, or where it reaches
/// 5,000,000,000 in magnitude.
pub fn near_number(text: &[u8]) -> Option<i64>
    ensures number { result ≡ near_number text.now }
    ensures near { IfSome result (λ v. unsigned_abs v < pair_limit * million) }
{
    match read_places(trim(text), 6) {
        Some(value) if value.unsigned_abs() < PAIR_LIMIT_MICROS => Some(value as i64),
        _ => None,
    }
}

/// Six numbers in ticks, multiples of 18, in the order in which they stand.
#[derive(Clone, Copy)]
pub struct Six {
    pub ox: i128,
    pub dx: i128,
    pub rx: i128,
    pub oy: i128,
    pub ry: i128,
    pub dy: i128,
}

// A number before a comma, and what stands behind the comma.
#[tactic(auto, unfolding(crate::specs::Fields::ticks_then))]
fn ticks_then(text: &[u8]) -> Option<(i128, &[u8])>
    ensures number { option_map (λ x. (x.0, x.1.now)) result ≡ ticks_then text.now }
    ensures read { IfSome result (λ x. IsRead x.0) }
{
    let (front, behind) = cut_at(text, b',')?;
    let value = read_decimal(trim(front))?.get();
    Some((value, behind))
}

/// Six decimal texts with commas between them, white space about each. `None` where they aren't.
#[tactic(auto, unfolding(crate::specs::Fields::six_of))]
pub fn six_of(text: &[u8]) -> Option<Six>
    ensures numbers { option_map six_view result ≡ six_of text.now }
    ensures read { IfSome result IsReadSix }
{
    let (ox, rest) = ticks_then(text)?;
    let (dx, rest) = ticks_then(rest)?;
    let (rx, rest) = ticks_then(rest)?;
    let (oy, rest) = ticks_then(rest)?;
    let (ry, rest) = ticks_then(rest)?;
    let dy = read_decimal(trim(rest))?.get();
    Some(Six {
        ox,
        dx,
        rx,
        oy,
        ry,
        dy,
    })
}
