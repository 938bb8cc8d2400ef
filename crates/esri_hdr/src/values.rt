// What the value of a key means, key by key.
ghost use Rattle.std.specs.Prelude.{◌⊎◌, ◌≡◌, ℕ, ◌<◌, ◌≤◌, ◌+◌, ◌*◌, ◌/◌, ◌^◌, IfOk, Option};
ghost use Rattle.std.specs.Option.{option_map};
ghost use Rattle.esri_hdr.specs.Values.{number_in, number_or, at_most, count_within, side_in, bands_in, bits_in};
ghost use Rattle.esri_hdr.specs.Values.{big_endian_in, layout_in, skip_in, is_negative, signed_in, type_of_bits};
ghost use Rattle.esri_hdr.specs.Values.{order_of, row_in};
ghost use Rattle.esri_hdr.specs.Values.{band_row_in, total_row_in, gap_in, BandRowFits, TotalRowFits, GapFits};
ghost use Rattle.esri_hdr.specs.Values.{longest_row, longest_gap};
ghost use Rattle.geotransform.specs.Limits.{most_bands, most_side};

use crate::header_parts::{HdrFault, Layout};
use geotransform::{MOST_BANDS, MOST_SIDE, PixelType, is_negative_decimal, read_number};
use lists_and_answers::same_letters;

/// The most bytes of a line of a band, and of all bands.
const LONGEST_ROW: u64 = 8_589_934_592;

/// The most bytes before the samples, and between two bands.
const LONGEST_GAP: u64 = 1_099_511_627_776;

fn number_in(text: &[u8]) -> Result<u64, HdrFault>
    ensures { result ≡ number_in text.now }
{
    read_number(text).ok_or(HdrFault::BadValue)
}

fn number_or(default: u64, text: Option<&[u8]>) -> Result<u64, HdrFault>
    ensures { result ≡ number_or default (option_map (λ v. v.now) text.entry) }
{
    match text {
        None => Ok(default),
        Some(text) => number_in(text),
    }
}

fn at_most(limit: u64, n: u64) -> Result<u64, HdrFault>
    ensures value { result ≡ at_most limit n }
    ensures bound { IfOk result (λ x. x ≤ limit) }
{
    if limit < n {
        Err(HdrFault::Limit)
    } else {
        Ok(n)
    }
}

fn count_within(limit: u32, n: u64) -> Result<u32, HdrFault>
    ensures value { result ≡ count_within limit n }
    ensures bound { IfOk result (λ x. (0 < x) × (x ≤ limit)) }
{
    if n == 0 {
        return Err(HdrFault::BadValue);
    }
    Ok(at_most(limit as u64, n)? as u32)
}

#[tactic(auto, unfolding(crate::specs::Values::side_in))]
pub fn side_in(text: &[u8]) -> Result<u32, HdrFault>
    ensures value { result ≡ side_in text.now }
    ensures bound { IfOk result (λ n. (0 < n) × (n ≤ most_side)) }
{
    count_within(MOST_SIDE, number_in(text)?)
}

#[tactic(auto, unfolding(crate::specs::Values::bands_in))]
pub fn bands_in(text: Option<&[u8]>) -> Result<u32, HdrFault>
    ensures value { result ≡ bands_in (option_map (λ v. v.now) text.entry) }
    ensures bound { IfOk result (λ n. (0 < n) × (n ≤ most_bands)) }
{
    count_within(MOST_BANDS, number_or(1, text)?)
}

#[tactic(auto, unfolding(crate::specs::Values::bits_in))]
pub fn bits_in(text: Option<&[u8]>) -> Result<u32, HdrFault>
    ensures value { result ≡ bits_in (option_map (λ v. v.now) text.entry) }
    ensures bound { IfOk result (λ n. (n ≡ 8) ⊎ ((n ≡ 16) ⊎ ((n ≡ 32) ⊎ (n ≡ 64)))) }
{
    let n = number_or(8, text)?;
    if n == 8 || n == 16 || n == 32 || n == 64 {
        Ok(n as u32)
    } else {
        Err(HdrFault::Unsupported)
    }
}

fn order_of(c: u8) -> Result<bool, HdrFault>
    ensures { result ≡ order_of c }
{
    match c {
        b'i' | b'l' => Ok(false),
        b'm' | b'b' => Ok(true),
        _ => Err(HdrFault::BadValue),
    }
}

#[tactic(auto, unfolding(crate::specs::Values::big_endian_in))]
pub fn big_endian_in(text: Option<&[u8]>) -> Result<bool, HdrFault>
    ensures { result ≡ big_endian_in (option_map (λ v. v.now) text.entry) }
{
    match text {
        None => Ok(false),
        Some([]) => Err(HdrFault::BadValue),
        Some([first, ..]) => order_of(first.to_ascii_lowercase()),
    }
}

#[tactic(auto, unfolding(crate::specs::Values::layout_in))]
pub fn layout_in(text: Option<&[u8]>) -> Result<Layout, HdrFault>
    ensures { result ≡ layout_in (option_map (λ v. v.now) text.entry) }
{
    let Some(text) = text else {
        return Ok(Layout::Bil);
    };
    if same_letters(text, b"BIL") {
        return Ok(Layout::Bil);
    }
    if same_letters(text, b"BIP") {
        return Ok(Layout::Bip);
    }
    if same_letters(text, b"BSQ") {
        return Ok(Layout::Bsq);
    }
    Err(HdrFault::BadValue)
}

#[tactic(auto, unfolding(crate::specs::Values::skip_in))]
pub fn skip_in(text: Option<&[u8]>) -> Result<u64, HdrFault>
    ensures value { result ≡ skip_in (option_map (λ v. v.now) text.entry) }
    ensures bound { IfOk result (λ n. n ≤ longest_gap) }
{
    at_most(LONGEST_GAP, number_or(0, text)?)
}

fn is_negative(text: Option<&[u8]>) -> bool
    ensures { result ≡ is_negative (option_map (λ v. v.now) text.entry) }
{
    match text {
        None => false,
        Some(text) => is_negative_decimal(text),
    }
}

#[tactic(auto, unfolding(crate::specs::Values::signed_in))]
pub fn signed_in(bits: u32, text: Option<&[u8]>, nodata: Option<&[u8]>) -> Result<bool, HdrFault>
    ensures { result ≡ signed_in bits (option_map (λ v. v.now) text.entry) (option_map (λ v. v.now) nodata.entry) }
{
    let Some(text) = text else {
        return Ok(bits > 8 && is_negative(nodata));
    };
    if same_letters(text, b"SIGNEDINT") {
        return Ok(true);
    }
    if same_letters(text, b"UNSIGNEDINT") {
        return Ok(false);
    }
    if same_letters(text, b"FLOAT") {
        return Err(HdrFault::Unsupported);
    }
    Err(HdrFault::BadValue)
}

#[tactic(auto, unfolding(crate::specs::Values::type_of_bits))]
pub fn type_of_bits(bits: u32, signed: bool) -> PixelType
    ensures { result ≡ type_of_bits bits signed }
{
    match (bits, signed) {
        (8, true) => PixelType::Int8,
        (8, false) => PixelType::Byte,
        (16, true) => PixelType::Int16,
        (16, false) => PixelType::UInt16,
        (32, true) => PixelType::Int32,
        (32, false) => PixelType::UInt32,
        (_, true) => PixelType::Int64,
        (_, false) => PixelType::UInt64,
    }
}

#[tactic(auto, unfolding(crate::specs::Values::row_in))]
fn row_in(least: u64, text: Option<&[u8]>) -> Result<u64, HdrFault>
    ensures value { result ≡ row_in least (option_map (λ v. v.now) text.entry) }
    ensures bound { IfOk result (λ n. (least ≤ n) × (n ≤ longest_row)) }
{
    let n = number_or(least, text)?;
    if n < least {
        return Err(HdrFault::BadValue);
    }
    at_most(LONGEST_ROW, n)
}

#[tactic(auto, unfolding(crate::specs::Values::band_row_in))]
pub fn band_row_in(layout: Layout, row: u64, text: Option<&[u8]>) -> Result<u64, HdrFault>
    requires { row ≤ longest_row }
    ensures value { result ≡ band_row_in layout row (option_map (λ v. v.now) text.entry) }
    ensures bound { IfOk result (λ n. n ≤ longest_row) }
    ensures fits { IfOk result (BandRowFits layout row) }
{
    match layout {
        Layout::Bil => row_in(row, text),
        Layout::Bip | Layout::Bsq => Ok(row),
    }
}

#[tactic(auto, unfolding(crate::specs::Values::total_row_in))]
pub fn total_row_in(
    layout: Layout,
    bands: u32,
    row: u64,
    band_row: u64,
    text: Option<&[u8]>,
) -> Result<u64, HdrFault>
    requires bands { bands ≤ most_bands }
    requires row { row ≤ longest_row }
    requires band_row { band_row ≤ longest_row }
    ensures fits { IfOk result (TotalRowFits layout bands row band_row) }
    ensures value { result ≡ total_row_in layout bands row band_row (option_map (λ v. v.now) text.entry) }
{
    match layout {
        Layout::Bil => row_in(bands as u64 * band_row, text),
        Layout::Bip => row_in(row * bands as u64, text),
        Layout::Bsq => Ok(row),
    }
}

#[tactic(auto, unfolding(crate::specs::Values::gap_in))]
pub fn gap_in(layout: Layout, text: Option<&[u8]>) -> Result<u64, HdrFault>
    ensures fits { IfOk result (GapFits layout) }
    ensures value { result ≡ gap_in layout (option_map (λ v. v.now) text.entry) }
{
    match layout {
        Layout::Bil | Layout::Bip => Ok(0),
        Layout::Bsq => skip_in(text),
    }
}
