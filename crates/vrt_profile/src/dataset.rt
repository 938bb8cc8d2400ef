// The dataset, which is the root of a document.
ghost use Rattle.std.specs.Prelude.{◌≡◌, suc, ◌<◌, ◌≤◌, ◌-◌, ◌+◌, length, IfOk, Result, Ok, Err, Option, None, Some};
ghost use Rattle.std.specs.Prelude.{true};
ghost use Rattle.std.specs.Option.{option_map};
ghost use Rattle.vrt_markup.specs.Items.{is_some};
ghost use Rattle.vrt_profile.specs.Values.{IsDecimal, most_sources};
ghost use Rattle.vrt_markup.specs.Forest.{deepest, inner, read_as, text_of, child_of};
ghost use Rattle.vrt_profile.specs.Means as means;
ghost use Rattle.vrt_profile.specs.Means.{no_dataset_parts, with_srs, with_geo, with_raster_band, srs_by, geo_by};
ghost use Rattle.vrt_profile.specs.Means.{dataset_step, dataset_end, dataset_of, root_of, band_of};
ghost use Rattle.vrt_profile.specs.Seen.{dataset_by};
ghost use Rattle.vrt_markup.specs.Views.{plain_text, tag_view};
ghost use Rattle.vrt_markup.specs.Kept.{Gives, seen, kept_of};
ghost use Rattle.geotransform.specs.Limits.{most_side};

use crate::band::band_element;
use crate::document::{Document, VrtBand, VrtBands};
use crate::elements::{DatasetPart, dataset_part_of};
use crate::kept::text_by;
use crate::numbers::{geo_of, side_in};
use crate::puts::{past_child, put_once};
use geotransform::{GeoTransform, Size};
use lists_and_answers::Items;
use outside::Text;
use std::alloc::Global;
use std::marker::Model;
use vrt_markup::{
    Level, Parts, Seen, Tag, VrtFault, Words, attribute, children_of, is_equal, past_element,
    text_element,
};

/// The most bands of a document.
const MOST_BANDS: usize = geotransform::MOST_BANDS as usize;

/// What is read of a dataset so far, and how many sources its bands have.
#[derive(Drop)]
pub struct DatasetParts {
    srs: Option<Text>,
    geo: Option<GeoTransform>,
    bands: VrtBands,
    taken: usize,
}

impl Model for DatasetParts {
    ghost use Rattle.vrt_profile.specs.Means as means;
    ghost use Rattle.vrt_profile.specs.Parts.{IsDatasetParts};

    ghost Value = { means.DatasetParts };

    ghost view = { λ p. record { srs = p.srs; geo = p.geo; bands = p.bands; taken = p.taken } };

    ghost invariant = { λ p. IsDatasetParts (record { srs = p.srs; geo = p.geo; bands = p.bands; taken = p.taken }) };
}

#[tactic(auto, using(crate::proofs::Counts::no_bands))]
fn no_dataset_parts(alloc: Global) -> DatasetParts
    ensures parts { result ≡ no_dataset_parts }
{
    DatasetParts {
        srs: None,
        geo: None,
        bands: Items::new(alloc),
        taken: 0,
    }
}

fn geo_by(words: &Words) -> Result<GeoTransform, VrtFault>
    ensures geo { result ≡ geo_by (plain_text words.now.text) words.now.child }
    ensures decimal { IfOk result IsDecimal }
{
    let geo = geo_of(words.text.as_slice())?;
    match words.child {
        None => Ok(geo),
        Some(place) => Err(VrtFault::UnknownElement(place)),
    }
}

// The number of the next band, from 1, and the sources before it.
fn counts(parts: &DatasetParts) -> (u64, usize)
    ensures number { result.0 ≡ suc (length parts.now.bands) }
    ensures taken { result.1 ≡ parts.now.taken }
    ensures bound { result.1 ≤ most_sources }
{
    (parts.bands.len() as u64 + 1, parts.taken)
}

impl DatasetParts {
    // Puts an SRS.
    fn srs_child<'a>(
        &mut self,
        alloc: Global,
        level: Level,
        tag: Tag,
        bytes: &'a [u8],
    ) -> Result<(Result<(), VrtFault>, &'a [u8]), VrtFault>
        requires within { length bytes.now ≤ level.total }
        requires depth { level.depth < deepest }
        ensures child { Gives (λ x. (kept_of self.new x.0, x.1.now)) result
            (read_as (λ f. with_srs self.old (srs_by (text_of f) (child_of f)))
            (inner level.total level.depth (tag_view tag.entry) bytes.now)) }
        ensures shorter { IfOk result (λ x. length x.1.now ≤ length bytes.now) }
    {
        match text_element(alloc, level.total, level.depth, tag, bytes) {
            Ok((words, rest)) => match text_by(alloc, &words) {
                Ok(srs) => Ok((put_once(&mut self.srs, srs), rest)),
                Err(error) => Err(error),
            },
            Err(error) => Err(error),
        }
    }

    // Puts a GeoTransform.
    fn geo_child<'a>(
        &mut self,
        alloc: Global,
        level: Level,
        tag: Tag,
        bytes: &'a [u8],
    ) -> Result<(Result<(), VrtFault>, &'a [u8]), VrtFault>
        requires within { length bytes.now ≤ level.total }
        requires depth { level.depth < deepest }
        ensures child { Gives (λ x. (kept_of self.new x.0, x.1.now)) result
            (read_as (λ f. with_geo self.old (geo_by (text_of f) (child_of f)))
            (inner level.total level.depth (tag_view tag.entry) bytes.now)) }
        ensures shorter { IfOk result (λ x. length x.1.now ≤ length bytes.now) }
    {
        match text_element(alloc, level.total, level.depth, tag, bytes) {
            Ok((words, rest)) => Ok((put_once(&mut self.geo, geo_by(&words)), rest)),
            Err(error) => Err(error),
        }
    }

    // Adds a band; one past the limit is found before anything else of it.
    fn add_band(
        &mut self,
        band: Result<VrtBand, VrtFault>,
    ) -> Result<Result<(), VrtFault>, VrtFault>
        requires fits { IfOk band (λ b. self.old.taken + length b.sources ≤ most_sources) }
        ensures parts { Gives (λ k. kept_of self.new k) result (Ok (with_raster_band self.old band)) }
    {
        if self.bands.len() >= MOST_BANDS {
            return Ok(Err(VrtFault::Limit));
        }
        match band {
            Err(fault) => Ok(Err(fault)),
            Ok(band) => {
                band.rules();
                let count = band.sources.len();
                match self.bands.push(band) {
                    Ok(()) => {
                        self.taken += count;
                        Ok(Ok(()))
                    }
                    Err(_) => Err(VrtFault::Memory),
                }
            }
        }
    }

    // Adds a VRTRasterBand.
    fn band_child<'a>(
        &mut self,
        alloc: Global,
        level: Level,
        tag: Tag,
        bytes: &'a [u8],
    ) -> Result<(Result<(), VrtFault>, &'a [u8]), VrtFault>
        requires within { length bytes.now ≤ level.total }
        requires depth { level.depth < deepest }
        ensures child { Gives (λ x. (kept_of self.new x.0, x.1.now)) result
            (read_as (λ f. with_raster_band self.old (band_of (suc (length self.old.bands)) self.old.taken
            (tag_view tag.entry) f)) (inner level.total level.depth (tag_view tag.entry) bytes.now)) }
        ensures shorter { IfOk result (λ x. length x.1.now ≤ length bytes.now) }
    {
        let (number, taken) = counts(self);
        match band_element(alloc, level, number, taken, tag, bytes) {
            Ok((band, rest)) => match self.add_band(band) {
                Ok(kept) => Ok((kept, rest)),
                Err(error) => Err(error),
            },
            Err(error) => Err(error),
        }
    }
}

impl Parts for DatasetParts {
    ghost Value = { means.DatasetParts };

    ghost value = { λ p. p };

    ghost step = { λ _. dataset_step };

    fn usual(&self, _first: u8) -> &'static [u8] {
        b"VRTRasterBand"
    }

    fn child<'a>(
        &mut self,
        alloc: Global,
        level: Level,
        place: u64,
        tag: Tag,
        bytes: &'a [u8],
    ) -> Result<(Result<(), VrtFault>, &'a [u8]), VrtFault> {
        match dataset_part_of(tag.name) {
            DatasetPart::Srs => self.srs_child(alloc, level, tag, bytes),
            DatasetPart::Geo => self.geo_child(alloc, level, tag, bytes),
            DatasetPart::Band => self.band_child(alloc, level, tag, bytes),
            DatasetPart::Past => past_child(alloc, level, Ok(()), tag, bytes),
            DatasetPart::Unknown => {
                let unknown = Err(VrtFault::UnknownElement(place));
                past_child(alloc, level, unknown, tag, bytes)
            }
        }
    }
}

fn dataset_end(w: u32, h: u32, parts: DatasetParts) -> Result<Document, VrtFault>
    requires w { (0 < w) × (w ≤ most_side) }
    requires h { (0 < h) × (h ≤ most_side) }
    ensures document { result ≡ dataset_end w h parts }
{
    let DatasetParts {
        srs,
        geo,
        bands,
        taken: _,
    } = parts;
    if bands.len() == 0 {
        return Err(VrtFault::MissingPart);
    }
    Ok(Document {
        size: Size { w, h },
        srs,
        geo,
        bands,
    })
}

// In order: the attributes, text in the dataset, its children, what is missing.
#[tactic(auto, unfolding(crate::specs::Seen::dataset_by))]
fn dataset_by(
    w: Result<u32, VrtFault>,
    h: Result<u32, VrtFault>,
    derived: bool,
    seen: Seen,
    parts: DatasetParts,
) -> Result<Document, VrtFault>
    requires w { IfOk w (λ n. (0 < n) × (n ≤ most_side)) }
    requires h { IfOk h (λ n. (0 < n) × (n ≤ most_side)) }
    ensures document { result ≡ dataset_by w h derived seen.white (kept_of parts seen.kept) }
{
    let w = w?;
    let h = h?;
    if derived || !seen.white {
        return Err(VrtFault::Unsupported);
    }
    match seen.kept {
        Ok(()) => dataset_end(w, h, parts),
        Err(fault) => Err(fault),
    }
}

fn is_derived(text: Option<&[u8]>) -> bool
    ensures derived { result ≡ is_some (option_map (λ v. v.now) text.entry) }
{
    match text {
        Some(_) => true,
        None => false,
    }
}

fn dataset_element<'a>(
    alloc: Global,
    level: Level,
    tag: Tag,
    bytes: &'a [u8],
) -> Result<(Result<Document, VrtFault>, &'a [u8]), VrtFault>
    requires within { length bytes.now ≤ level.total }
    requires depth { level.depth < deepest }
    ensures dataset { Gives (λ x. (x.0, x.1.now)) result (read_as (dataset_of (tag_view tag.entry))
        (inner level.total level.depth (tag_view tag.entry) bytes.now)) }
    ensures shorter { IfOk result (λ x. length x.1.now ≤ length bytes.now) }
{
    let w = side_in(attribute(tag.attributes, b"rasterXSize"));
    let h = side_in(attribute(tag.attributes, b"rasterYSize"));
    let derived = is_derived(attribute(tag.attributes, b"subClass"));
    let mut parts = no_dataset_parts(alloc);
    match children_of(alloc, level, tag, &mut parts, bytes) {
        Ok((seen, rest)) => Ok((dataset_by(w, h, derived, seen, parts), rest)),
        Err(error) => Err(error),
    }
}

/// What the root means.
pub fn root_element<'a>(
    alloc: Global,
    total: usize,
    place: u64,
    tag: Tag,
    bytes: &'a [u8],
) -> Result<(Result<Document, VrtFault>, &'a [u8]), VrtFault>
    requires within { length bytes.now ≤ total }
    ensures root { Gives (λ x. (x.0, x.1.now)) result (read_as (root_of place (tag_view tag.entry))
        (inner total 0 (tag_view tag.entry) bytes.now)) }
    ensures shorter { IfOk result (λ x. length x.1.now ≤ length bytes.now) }
{
    if is_equal(tag.name, b"VRTDataset") {
        return dataset_element(alloc, Level { total, depth: 0 }, tag, bytes);
    }
    match past_element(alloc, total, 0, tag, bytes) {
        Ok(rest) => Ok((Err(VrtFault::UnknownElement(place)), rest)),
        Err(fault) => Err(fault),
    }
}
