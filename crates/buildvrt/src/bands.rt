// The bands of a mosaic and their sources.
ghost use Rattle.std.specs.Prelude.{◌≡◌, ℕ, ℤ, pos, ◌<◌, ◌≤◌, ◌*◌, ◌++◌, ◌∷◌, [], true, length, Some, IfOk};
ghost use Rattle.std.specs.Prelude.{IfSome, OnOk, unsigned_abs};
ghost use Rattle.std.specs.List.{All, filter_map};
ghost use Rattle.geotransform.specs.Limits.{whole_limit};
ghost use Rattle.lists_and_answers.specs.Answers.{Gives};
ghost use Rattle.buildvrt.specs.Options.{IsBandNumber};
ghost use Rattle.catalog.specs.Nodata.{IsNodataWord};
ghost use Rattle.buildvrt.specs.Judging.{has_bands, numbered_band, taken_bands};
ghost use Rattle.buildvrt.specs.Rectangles.{IsPatch};
ghost use Rattle.buildvrt.specs.Mosaic.{IsMemory};
ghost use Rattle.buildvrt.specs.Bands.{source_nodata, wanted_nodata, band_nodata, source_of, source_in, band_from};
ghost use Rattle.buildvrt.specs.Bands.{band_with, common_bands, own_band, separate_bands, all_bands, bands_within};
ghost use Rattle.buildvrt.specs.Bands.{shown_count, is_few};
ghost use Rattle.buildvrt.specs.Limits.{FitsDocument};
ghost use Rattle.catalog.specs.Dataset.{most_datasets};

use crate::faults::BuildFault;
use crate::judging::{head_rules, numbered_band, taken_bands};
use crate::options::BuildOptions;
use crate::patch::Patch;
use catalog::{BandHead, Head, NodataWord};
use geotransform::{Sample, when_in};
use std::alloc::{AllocError, Global};
use vrt_profile::{BandList, MicroRect, Source, SourceList, VrtBand, plain_source, whole_rect};

/// The greatest number of bands, and of sources, of a document.
const MOST_BANDS: usize = geotransform::MOST_BANDS as usize;

const MOST_SOURCES: usize = catalog::MOST_SOURCES as usize;

// The NODATA of a source, from that of the input's band.
fn source_nodata(word: NodataWord, own: Option<Sample>) -> Option<Sample>
    requires word { IsNodataWord word }
    requires own { IfSome own (λ n. unsigned_abs n < whole_limit) }
    ensures nodata { result ≡ source_nodata word own }
    ensures rules { IfSome result (λ n. unsigned_abs n < whole_limit) }
{
    match word {
        NodataWord::Number(n) => Some(n),
        NodataWord::Remove => None,
        NodataWord::Absent => own,
    }
}

// The NODATA that a band is to have.
fn wanted_nodata(mosaic: NodataWord, source: NodataWord, own: Option<Sample>) -> Option<Sample>
    ensures nodata { result ≡ wanted_nodata mosaic source own }
{
    match mosaic {
        NodataWord::Number(n) => Some(n),
        NodataWord::Remove => None,
        NodataWord::Absent => match source {
            NodataWord::Number(n) => Some(n),
            NodataWord::Remove | NodataWord::Absent => own,
        },
    }
}

// The NODATA of a dataset's band.
#[tactic(auto, using(crate::proofs::Counts::type_bound))]
fn band_nodata(head: &Head, number: u32) -> Option<Sample>
    requires number { 0 < number }
    ensures nodata { result ≡ band_nodata (numbered_band head.now number) }
    ensures rules { IfSome result (λ n. unsigned_abs n < whole_limit) }
{
    match numbered_band(head, number) {
        None => None,
        Some(band) => band.nodata,
    }
}

// The source that shows the whole of an input's band in a rectangle.
fn source_of(
    alloc: Global,
    options: &BuildOptions,
    head: &Head,
    number: u32,
    shown: MicroRect,
) -> Result<Source, AllocError>
    requires number { IsBandNumber number }
    ensures source { IfOk result (λ s. s ≡ source_of options.now head.now number shown) }
{
    head_rules(head);
    options.rules();
    let nodata = source_nodata(options.src_nodata, band_nodata(head, number));
    let whole = whole_rect(head.size);
    let (out, name) = (&options.out, &head.name);
    Ok(plain_source(alloc, out, name, number, whole, shown, nodata)?)
}

// Adds the source of an input, unless it is left out.
fn add_source(
    alloc: Global,
    options: &BuildOptions,
    number: u32,
    patch: &Patch,
    sources: &mut SourceList,
) -> Result<(), AllocError>
    requires number { IsBandNumber number }
    ensures added { OnOk result (sources.new ≡ sources.old ++ filter_map (source_in options.now number)
        (patch.now ∷ [])) }
{
    let head = patch.head;
    match patch.shown {
        None => Ok(()),
        Some(shown) => sources.push(source_of(alloc, options, head, number, shown)?),
    }
}

// The sources of a band.
#[tactic(auto, using(crate::proofs::Filled::kept_next))]
fn sources_of(
    alloc: Global,
    options: &BuildOptions,
    number: u32,
    patches: &[Patch],
) -> Result<SourceList, AllocError>
    requires number { IsBandNumber number }
    ensures sources { IfOk result (λ l. l ≡ filter_map (source_in options.now number) patches.now) }
{
    let mut sources = SourceList::new(alloc);
    for patch in patches {
        add_source(alloc, options, number, patch, &mut sources)?;
    }
    Ok(sources)
}

// A band of the mosaic, taken from this one, with these inputs.
fn band_from(
    alloc: Global,
    options: &BuildOptions,
    band: BandHead,
    number: u32,
    patches: &[Patch],
) -> Result<VrtBand, AllocError>
    requires number { IsBandNumber number }
    ensures band { IfOk result (λ b. b ≡ band_from options.now band number patches.now) }
{
    let sources = sources_of(alloc, options, number, patches)?;
    let wanted = wanted_nodata(options.vrt_nodata, options.src_nodata, band.nodata);
    Ok(sources.into_band(band.kind, when_in(band.kind, wanted)))
}

// Adds the band that is taken from the band of this number.
fn add_band(
    alloc: Global,
    options: &BuildOptions,
    head: &Head,
    number: u32,
    patches: &[Patch],
    bands: &mut BandList,
) -> Result<(), AllocError>
    requires number { IsBandNumber number }
    ensures added { OnOk result (bands.new ≡ bands.old ++ filter_map (band_with options.now head.now patches.now)
        (number ∷ [])) }
{
    match numbered_band(head, number) {
        None => Ok(()),
        Some(band) => bands.push(band_from(alloc, options, band, number, patches)?),
    }
}

// The bands of these numbers of the reference, with all inputs.
#[tactic(auto, using(crate::proofs::Filled::kept_number))]
fn common_bands(
    alloc: Global,
    options: &BuildOptions,
    reference: &Head,
    taken: &[u32],
    patches: &[Patch],
) -> Result<BandList, AllocError>
    requires numbers { All IsBandNumber taken.now }
    ensures bands { IfOk result (λ l. l ≡ filter_map (band_with options.now reference.now patches.now) taken.now) }
{
    let mut bands = BandList::new(alloc);
    for n in taken {
        add_band(alloc, options, reference, *n, patches, &mut bands)?;
    }
    Ok(bands)
}

// The band of its own of an input, taken from this one.
fn own_band(
    alloc: Global,
    options: &BuildOptions,
    band: BandHead,
    patch: &Patch,
) -> Result<VrtBand, AllocError>
    ensures band { IfOk result (λ b. b ≡ band_from options.now band 1 (patch.now ∷ [])) }
{
    let mut sources = SourceList::new(alloc);
    add_source(alloc, options, 1, patch, &mut sources)?;
    let wanted = wanted_nodata(options.vrt_nodata, options.src_nodata, band.nodata);
    Ok(sources.into_band(band.kind, when_in(band.kind, wanted)))
}

// Adds the band of its own of an input.
fn add_own_band(
    alloc: Global,
    options: &BuildOptions,
    patch: &Patch,
    bands: &mut BandList,
) -> Result<(), AllocError>
    ensures added { OnOk result (bands.new ≡ bands.old ++ filter_map (own_band options.now) (patch.now ∷ [])) }
{
    let head = patch.head;
    match numbered_band(head, 1) {
        None => Ok(()),
        Some(band) => bands.push(own_band(alloc, options, band, patch)?),
    }
}

// One band for each input.
#[tactic(auto, using(crate::proofs::Filled::kept_next))]
fn separate_bands(
    alloc: Global,
    options: &BuildOptions,
    patches: &[Patch],
) -> Result<BandList, AllocError>
    ensures bands { IfOk result (λ l. l ≡ separate_bands options.now patches.now) }
{
    let mut bands = BandList::new(alloc);
    for patch in patches {
        add_own_band(alloc, options, patch, &mut bands)?;
    }
    Ok(bands)
}

// 1 for an input that isn't left out, else 0.
fn one_shown(patch: &Patch) -> usize
    ensures count { result ≡ shown_count (patch.now ∷ []) }
    ensures few { result ≤ 1 }
{
    match patch.shown {
        None => 0,
        Some(_) => 1,
    }
}

// How many inputs aren't left out.
#[tactic(auto, using(crate::proofs::Counts::shown_next))]
fn shown_count(patches: &[Patch]) -> usize
    ensures count { result ≡ shown_count patches.now }
    ensures few { result ≤ length patches.now }
{
    let mut count = 0;
    for patch in patches {
        count += one_shown(patch);
    }
    count
}

// Whether so many bands, each of which has so many sources, are within the limits.
fn is_few(bands: usize, each: usize) -> bool
    requires { each ≤ most_datasets }
    ensures { result ≡ is_few bands (bands * each) }
{
    bands <= MOST_BANDS && bands * each <= MOST_SOURCES
}

// The bands of these numbers of the reference, unless there are too many bands or sources.
#[tactic(auto, using(crate::proofs::Counts::common_refused, crate::proofs::Counts::common_passed, crate::proofs::Counts::common_fits))]
fn common_within(
    alloc: Global,
    options: &BuildOptions,
    reference: &Head,
    taken: &[u32],
    patches: &[Patch],
) -> Result<BandList, BuildFault>
    requires numbers { All IsBandNumber taken.now }
    requires has { has_bands reference.now taken.now ≡ true }
    requires some { 0 < length taken.now }
    requires few { length patches.now ≤ most_datasets }
    ensures bands { Gives IsMemory (λ l. l) result
        (bands_within (filter_map (band_with options.now reference.now patches.now) taken.now)) }
    ensures rules { IfOk result FitsDocument }
{
    head_rules(reference);
    if is_few(taken.len(), shown_count(patches)) {
        Ok(common_bands(alloc, options, reference, taken, patches)?)
    } else {
        Err(BuildFault::Limit)
    }
}

// One band for each input, unless there are too many bands or sources.
#[tactic(auto, using(crate::proofs::Counts::separate_refused, crate::proofs::Counts::separate_passed, crate::proofs::Counts::separate_fits))]
fn separate_within(
    alloc: Global,
    options: &BuildOptions,
    patches: &[Patch],
) -> Result<BandList, BuildFault>
    requires patches { All IsPatch patches.now }
    requires some { 0 < length patches.now }
    ensures bands { Gives IsMemory (λ l. l) result (bands_within (separate_bands options.now patches.now)) }
    ensures rules { IfOk result FitsDocument }
{
    if patches.len() <= MOST_BANDS && shown_count(patches) <= MOST_SOURCES {
        Ok(separate_bands(alloc, options, patches)?)
    } else {
        Err(BuildFault::Limit)
    }
}

/// The bands of the mosaic, unless there are too many bands or sources.
#[tactic(auto, using(crate::proofs::Counts::taken_has, crate::proofs::Counts::taken_some))]
pub fn bands_of(
    alloc: Global,
    options: &BuildOptions,
    reference: &Head,
    patches: &[Patch],
) -> Result<BandList, BuildFault>
    requires has { has_bands reference.now options.now.bands ≡ true }
    requires patches { All IsPatch patches.now }
    requires some { 0 < length patches.now }
    requires few { length patches.now ≤ most_datasets }
    ensures bands { Gives IsMemory (λ l. l) result (bands_within (all_bands options.now reference.now patches.now)) }
    ensures rules { IfOk result FitsDocument }
{
    if options.separate {
        return separate_within(alloc, options, patches);
    }
    head_rules(reference);
    let taken = taken_bands(alloc, options, reference)?;
    common_within(alloc, options, reference, &taken, patches)
}
