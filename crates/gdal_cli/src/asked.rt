// What is asked of each point of a dataset.
ghost use Rattle.std.specs.Prelude.{◌≡◌, ◌≤◌, ◌++◌, [], ◌∷◌, All, IfOk, IfErr, OnOk, length, nat_lt};
ghost use Rattle.std.specs.List.{find, range_with_len};
ghost use Rattle.lists_and_answers.specs.Answers.{Gives};
ghost use Rattle.error_lines.specs.Faults.{IsOutside, IsLate, HasNoCause};
ghost use Rattle.gdal_cli.specs.Location.{chosen_in, frame_in, asked_in};
ghost use Rattle.geotransform.specs.Limits.{most_bands};
ghost use Rattle.catalog.specs.Dataset.{band_count};

use catalog::Head;
use error_lines::Fault;
use geotransform::{BandNumber, GeoTransform, PlanFault};
use lists_and_answers::Items;
use location_report::Form;
use std::alloc::Global;

/// Numbers of bands, counted from 1.
pub type Numbers = Items<u32>;

/// What is asked of each point: in which form, in which bands, and by which geotransform it is placed; it is a column
/// and a line where there is none.
#[derive(Drop)]
pub struct Asked {
    pub form: Form,
    pub bands: Numbers,
    pub frame: Option<GeoTransform>,
}

// The first band that a dataset of `count` bands lacks.
fn lacking(count: u32, bands: &[BandNumber]) -> Option<BandNumber>
    ensures { result ≡ find (λ band. nat_lt count band) bands.now }
{
    bands.iter().copied().find(|band| count < band.get())
}

fn push_number(numbers: &mut Numbers, number: u32) -> Result<(), Fault>
    ensures ok { OnOk result (numbers.new ≡ numbers.old ++ number ∷ []) }
    ensures err { IfErr result (λ f. f ≡ Fault.Memory) }
{
    match numbers.push(number) {
        Ok(()) => Ok(()),
        Err(_) => Err(Fault::Memory),
    }
}

// The numbers of all bands.
#[tactic(auto, using(crate::proofs::Listed::range_more))]
fn all_bands(alloc: Global, count: u32) -> Result<Numbers, Fault>
    requires { count ≤ most_bands }
    ensures ok { IfOk result (λ bands. bands ≡ range_with_len 1 count) }
    ensures err { IfErr result (λ f. f ≡ Fault.Memory) }
{
    let mut numbers = Numbers::new(alloc);
    for before in 0..count {
        push_number(&mut numbers, before + 1)?;
    }
    Ok(numbers)
}

// The numbers of these bands.
#[tactic(auto, using(crate::proofs::Listed::numbers_more))]
fn numbers_of(alloc: Global, bands: &[BandNumber]) -> Result<Numbers, Fault>
    ensures ok { IfOk result (λ numbers. (numbers ≡ bands.now) × All (λ band. 1 ≤ band) numbers) }
    ensures err { IfErr result (λ f. f ≡ Fault.Memory) }
{
    let mut numbers = Numbers::new(alloc);
    for band in bands {
        push_number(&mut numbers, band.get())?;
    }
    Ok(numbers)
}

// The chosen bands, or all where none is chosen.
fn chosen(alloc: Global, count: u32, bands: &[BandNumber]) -> Result<Numbers, Fault>
    requires { count ≤ most_bands }
    ensures gives { Gives IsOutside (λ b. b) result (chosen_in count bands.now) }
    ensures within { IfOk result (All (λ band. (1 ≤ band) × (band ≤ count))) }
    ensures inner { HasNoCause result }
    ensures late { IfErr result IsLate }
{
    if let Some(band) = lacking(count, bands) {
        return Err(Fault::Plan(PlanFault::NoBand(band.get())));
    }
    if bands.is_empty() {
        all_bands(alloc, count)
    } else {
        numbers_of(alloc, bands)
    }
}

// The geotransform that points are placed by, where they are places.
fn frame_in(geoloc: bool, geo: Option<GeoTransform>) -> Result<Option<GeoTransform>, Fault>
    ensures exact { result ≡ frame_in geoloc geo }
    ensures inner { HasNoCause result }
    ensures late { IfErr result IsLate }
{
    if !geoloc {
        return Ok(None);
    }
    match geo {
        Some(geo) => Ok(Some(geo)),
        None => Err(Fault::Plan(PlanFault::NoGeo)),
    }
}

/// What is asked of a dataset with this head: the chosen bands, or all where none is chosen.
///
/// Plan comes exactly where the dataset lacks one of the bands, with the first of them, or else where points are
/// places and it has no geotransform; Memory freely.
#[tactic(auto, unfolding(crate::specs::Location::asked_in))]
pub fn asked_in(
    alloc: Global,
    form: Form,
    bands: &[BandNumber],
    geoloc: bool,
    head: &Head,
) -> Result<Asked, Fault>
    requires few { band_count head.now ≤ most_bands }
    ensures gives { Gives IsOutside (λ a. a) result (asked_in form bands.now geoloc head.now) }
    ensures within { IfOk result (λ a. All (λ band. (1 ≤ band) × (band ≤ band_count head.now)) a.bands) }
    ensures inner { HasNoCause result }
    ensures late { IfErr result IsLate }
{
    let bands = chosen(alloc, head.bands.len() as u32, bands)?;
    let frame = frame_in(geoloc, head.geo)?;
    Ok(Asked { form, bands, frame })
}
