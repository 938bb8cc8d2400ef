// The numbers of a document, each with the rule that it keeps.
ghost use Rattle.std.specs.Prelude.{◌≡◌, ℤ, ◌≤◌, ◌<◌, ◌*◌, ◌^◌, pos, ◌<ℤ◌, Some, None, IfOk, IfSome, unsigned_abs};
ghost use Rattle.std.specs.Prelude.{ok_or};
ghost use Rattle.std.specs.Option.{option_map};
ghost use Rattle.geotransform.specs.Decimal.{whole_of, places_of, IsRead};
ghost use Rattle.geotransform.specs.Geo.{transform_of};
ghost use Rattle.vrt_profile.specs.Fields.{trim};
ghost use Rattle.vrt_profile.specs.Values.{IsOffset, IsDecimal, scale_limit};
ghost use Rattle.vrt_profile.specs.Numbers.{side_by, side_in, micro_in, within_limit, offset_in, some_size, size_in};
ghost use Rattle.vrt_profile.specs.Numbers.{is_mask, no_band_fault, band_number_by, band_number, scale_of, north_up};
ghost use Rattle.vrt_profile.specs.Numbers.{geo_of};
ghost use Rattle.vrt_markup.specs.declared.fault.VrtFault.TheVariants.{BadNumber};
ghost use Rattle.vrt_profile.specs.NumberViews.{six_view, IsReadSix};
ghost use Rattle.geotransform.specs.Limits.{most_side, whole_limit};

use crate::fields::{Six, six_of, trim, whole_text};
use crate::fronts::{short_micros, short_whole};
use geotransform::{
    BandNumber, FARTHEST, GeoTransform, MOST_BANDS, MOST_SIDE, Ticks, read_places, read_whole,
};
use std::marker::Model;
use vrt_markup::VrtFault;

/// The greatest offset of a rectangle in millionths of a pixel, to either side.
const FARTHEST_MICROS: u128 = FARTHEST as u128 * 1_000_000;

/// An offset or a ratio has less than so many parts of 10^12: 10^24.
const SCALE_LIMIT: u128 = 1_000_000_000_000_000_000_000_000;

/// A NODATA, below 10^20 in magnitude.
#[derive(Clone, Copy)]
pub struct NoData {
    value: i128,
}

impl Model for NoData {
    ghost use Rattle.std.specs.Prelude.{ℤ, ◌<◌, unsigned_abs};
    ghost use Rattle.geotransform.specs.Limits.{whole_limit};

    ghost Value = { ℤ };

    ghost view = { λ n. n.value };

    ghost invariant = { λ n. unsigned_abs n.value < whole_limit };

    ghost inverse = { λ z. record { value = z } };
}

/// An offset or a ratio in parts of 10^12, below 10^24 of them in magnitude.
#[derive(Clone, Copy)]
pub struct Scale {
    value: i128,
}

impl Model for Scale {
    ghost use Rattle.std.specs.Prelude.{ℤ, ◌<◌, unsigned_abs};
    ghost use Rattle.vrt_profile.specs.Values.{scale_limit};

    ghost Value = { ℤ };

    ghost view = { λ s. s.value };

    ghost invariant = { λ s. unsigned_abs s.value < scale_limit };

    ghost inverse = { λ z. record { value = z } };
}

impl NoData {
    /// The number.
    pub fn get(self) -> i128
        ensures value { result ≡ self }
        ensures small { unsigned_abs result < whole_limit }
    {
        self.value
    }
}

impl Scale {
    /// How many parts.
    pub fn get(self) -> i128
        ensures value { result ≡ self }
        ensures small { unsigned_abs result < scale_limit }
    {
        self.value
    }
}

fn side_by(number: Option<u64>) -> Result<u32, VrtFault>
    ensures side { result ≡ side_by number }
{
    match number {
        None => Err(VrtFault::BadNumber),
        Some(0) => Err(VrtFault::BadNumber),
        Some(n) if n > MOST_SIDE as u64 => Err(VrtFault::Limit),
        Some(n) => Ok(n as u32),
    }
}

/// A side of a raster, from 1 to 4,194,304.
pub fn side_in(text: Option<&[u8]>) -> Result<u32, VrtFault>
    ensures side { result ≡ side_in (option_map (λ v. v.now) text.entry) }
    ensures bounds { IfOk result (λ n. (0 < n) × (n ≤ most_side)) }
{
    match text {
        None => Err(VrtFault::MissingPart),
        Some(text) => side_by(whole_text(text)),
    }
}

// A number rounded half away from zero to millionths.
fn micros_of(text: &[u8]) -> Option<i128>
    ensures number { result ≡ places_of 6 text.now }
{
    match short_micros(text) {
        Some(value) => Some(value as i128),
        None => read_places(text, 6),
    }
}

fn micro_in(text: Option<&[u8]>) -> Result<i128, VrtFault>
    ensures number { result ≡ micro_in (option_map (λ v. v.now) text.entry) }
{
    match text {
        None => Err(VrtFault::MissingPart),
        Some(text) => match micros_of(text) {
            None => Err(VrtFault::BadNumber),
            Some(n) => Ok(n),
        },
    }
}

fn within_limit(value: i128) -> Result<i64, VrtFault>
    ensures number { result ≡ within_limit value }
    ensures bound { IfOk result IsOffset }
{
    if value.unsigned_abs() > FARTHEST_MICROS {
        return Err(VrtFault::Limit);
    }
    Ok(value as i64)
}

/// An offset of a rectangle in millionths.
pub fn offset_in(text: Option<&[u8]>) -> Result<i64, VrtFault>
    ensures number { result ≡ offset_in (option_map (λ v. v.now) text.entry) }
    ensures bound { IfOk result IsOffset }
{
    within_limit(micro_in(text)?)
}

fn some_size(value: i128) -> Result<i64, VrtFault>
    ensures number { result ≡ some_size value }
    ensures bound { IfOk result (λ v. (pos 0 <ℤ v) × IsOffset v) }
{
    if value <= 0 {
        return Err(VrtFault::BadNumber);
    }
    within_limit(value)
}

/// A size of a rectangle in millionths.
pub fn size_in(text: Option<&[u8]>) -> Result<i64, VrtFault>
    ensures number { result ≡ size_in (option_map (λ v. v.now) text.entry) }
    ensures bound { IfOk result (λ v. (pos 0 <ℤ v) × IsOffset v) }
{
    some_size(micro_in(text)?)
}

fn is_mask(text: &[u8]) -> bool
    ensures mask { result ≡ is_mask text.now }
{
    match text {
        [a, b, c, d, ..] => {
            [
                a.to_ascii_lowercase(),
                b.to_ascii_lowercase(),
                c.to_ascii_lowercase(),
                d.to_ascii_lowercase(),
            ] == *b"mask"
        }
        _ => false,
    }
}

fn no_band_fault(text: &[u8]) -> VrtFault
    ensures fault { result ≡ no_band_fault text.now }
{
    if is_mask(text) {
        VrtFault::Unsupported
    } else {
        VrtFault::BadNumber
    }
}

fn band_number_by(text: &[u8], number: Option<u64>) -> Result<BandNumber, VrtFault>
    ensures number { result ≡ band_number_by text.now number }
{
    match number {
        Some(n) if 0 < n && n <= MOST_BANDS as u64 => Ok(BandNumber::of(n as u32)),
        _ => Err(no_band_fault(text)),
    }
}

/// The band of a source.
pub fn band_number(text: &[u8]) -> Result<BandNumber, VrtFault>
    ensures number { result ≡ band_number text.now }
{
    band_number_by(text, whole_text(text))
}

/// The NODATA that a text gives, if it gives one.
#[tactic(auto, using(crate::proofs::Rules::whole_small))]
pub fn nodata_in(text: &[u8]) -> Option<NoData>
    ensures number { result ≡ whole_of text.now }
{
    if let Some(n) = short_whole(text) {
        return Some(NoData { value: n as i128 });
    }
    match read_whole(text) {
        Some(value) => Some(NoData { value }),
        None => None,
    }
}

/// An offset or a ratio of a scaling, rounded half away from zero.
pub fn scale_of(text: &[u8]) -> Result<Scale, VrtFault>
    ensures scale { result ≡ scale_of text.now }
{
    match read_places(trim(text), 12) {
        Some(value) if value.unsigned_abs() < SCALE_LIMIT => Ok(Scale { value }),
        _ => Err(VrtFault::BadNumber),
    }
}

// The geotransform of four numbers that are read from decimals.
fn geo_from(ox: Ticks, oy: Ticks, dx: Ticks, dy: Ticks) -> Option<GeoTransform>
    requires ox { IsRead ox }
    requires oy { IsRead oy }
    requires dx { IsRead dx }
    requires dy { IsRead dy }
    ensures made { result ≡ transform_of ox oy dx dy }
    ensures decimal { IfSome result IsDecimal }
{
    GeoTransform::new(ox, oy, dx, dy)
}

// The geotransform of six numbers, two of which are 0.
fn straight(six: Six) -> Result<GeoTransform, VrtFault>
    requires read { IsReadSix six }
    ensures geo { result ≡ ok_or (transform_of six.ox six.oy six.dx six.dy) BadNumber }
    ensures decimal { IfOk result IsDecimal }
{
    let (ox, oy) = (Ticks::of(six.ox), Ticks::of(six.oy));
    let (dx, dy) = (Ticks::of(six.dx), Ticks::of(six.dy));
    match geo_from(ox, oy, dx, dy) {
        Some(geo) => Ok(geo),
        None => Err(VrtFault::BadNumber),
    }
}

fn north_up(six: Six) -> Result<GeoTransform, VrtFault>
    requires read { IsReadSix six }
    ensures geo { result ≡ north_up (six_view six) }
    ensures decimal { IfOk result IsDecimal }
{
    if six.rx != 0 || six.ry != 0 {
        return Err(VrtFault::Unsupported);
    }
    straight(six)
}

/// A geotransform without a rotation.
pub fn geo_of(text: &[u8]) -> Result<GeoTransform, VrtFault>
    ensures geo { result ≡ geo_of text.now }
    ensures decimal { IfOk result IsDecimal }
{
    match six_of(text) {
        Some(six) => north_up(six),
        None => Err(VrtFault::BadNumber),
    }
}
