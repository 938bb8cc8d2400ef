// Bands of a dataset.
ghost use Rattle.std.specs.Prelude.{◌≡◌, ◌<◌, ◌≤◌, ◌-◌, length, IfOk, IfSome, Result, Ok, Err, Option, None, Some};
ghost use Rattle.std.specs.Prelude.{true, false, nat_le, ◌+◌};
ghost use Rattle.std.specs.Option.{option_map};
ghost use Rattle.geotransform.specs.Types.{is_in, when_in};
ghost use Rattle.vrt_markup.specs.Forest.{deepest, inner, read_as, text_of, child_of};
ghost use Rattle.vrt_profile.specs.Means as means;
ghost use Rattle.vrt_profile.specs.Means.{nodata_by, no_band_parts, with_no_data_value, with_source, band_step};
ghost use Rattle.vrt_profile.specs.Means.{kind_in, is_number, is_placed, is_sourced, value_in, band_end};
ghost use Rattle.vrt_profile.specs.Means.{band_of, source_of};
ghost use Rattle.vrt_profile.specs.Seen.{band_by};
ghost use Rattle.vrt_profile.specs.Values.{most_sources};
ghost use Rattle.vrt_markup.specs.Views.{tag_view};
ghost use Rattle.vrt_markup.specs.Kept.{Gives, seen, kept_of};

use crate::document::{Sources, VrtBand};
use crate::elements::{BandPart, band_part_of};
use crate::fields::whole_text;
use crate::numbers::NoData;
use crate::puts::{past_child, put_once};
use crate::source::{nodata_by, source_element};
use geotransform::{PixelType, when_in};
use lists_and_answers::Items;
use std::alloc::Global;
use std::marker::Model;
use vrt_markup::{
    Level, Parts, Seen, Tag, VrtFault, attribute, children_of, is_equal, text_element,
};

/// The most sources of all bands of a document.
pub const MOST_SOURCES: usize = 262_144;

/// What is read of a band so far, where so many sources were taken before it.
#[derive(Drop)]
pub struct BandParts {
    taken: usize,
    nodata: Option<Option<NoData>>,
    sources: Sources,
}

impl Model for BandParts {
    ghost use Rattle.vrt_profile.specs.Means as means;
    ghost use Rattle.vrt_profile.specs.Parts.{IsBandParts};

    ghost Value = { means.BandParts };

    ghost view = { λ p. record { taken = p.taken; nodata = p.nodata; sources = p.sources } };

    ghost invariant = { λ p. IsBandParts (record { taken = p.taken; nodata = p.nodata; sources = p.sources }) };
}

#[tactic(auto, using(crate::proofs::Counts::no_sources))]
fn no_band_parts(alloc: Global, taken: usize) -> BandParts
    ensures parts { result ≡ no_band_parts taken }
{
    BandParts {
        taken,
        nodata: None,
        sources: Items::new(alloc),
    }
}

impl BandParts {
    // Whether no source may be added: one past the limit is found before anything else of it.
    fn is_full(&self) -> bool
        ensures full { result ≡ nat_le most_sources (self.now.taken + length self.now.sources) }
    {
        self.taken >= MOST_SOURCES || self.sources.len() >= MOST_SOURCES - self.taken
    }

    // Puts a NoDataValue.
    fn nodata_child<'a>(
        &mut self,
        alloc: Global,
        level: Level,
        tag: Tag,
        bytes: &'a [u8],
    ) -> Result<(Result<(), VrtFault>, &'a [u8]), VrtFault>
        requires within { length bytes.now ≤ level.total }
        requires depth { level.depth < deepest }
        ensures child { Gives (λ x. (kept_of self.new x.0, x.1.now)) result
            (read_as (λ f. with_no_data_value self.old (nodata_by (text_of f) (child_of f)))
            (inner level.total level.depth (tag_view tag.entry) bytes.now)) }
        ensures shorter { IfOk result (λ x. length x.1.now ≤ length bytes.now) }
    {
        match text_element(alloc, level.total, level.depth, tag, bytes) {
            Ok((words, rest)) => Ok((put_once(&mut self.nodata, nodata_by(&words)), rest)),
            Err(error) => Err(error),
        }
    }

    // Adds a ComplexSource or a SimpleSource.
    fn source_child<'a>(
        &mut self,
        alloc: Global,
        level: Level,
        complex: bool,
        tag: Tag,
        bytes: &'a [u8],
    ) -> Result<(Result<(), VrtFault>, &'a [u8]), VrtFault>
        requires within { length bytes.now ≤ level.total }
        requires depth { level.depth < deepest }
        ensures child { Gives (λ x. (kept_of self.new x.0, x.1.now)) result
            (read_as (λ f. with_source self.old (source_of complex (tag_view tag.entry) f))
            (inner level.total level.depth (tag_view tag.entry) bytes.now)) }
        ensures shorter { IfOk result (λ x. length x.1.now ≤ length bytes.now) }
    {
        if self.is_full() {
            return past_child(alloc, level, Err(VrtFault::Limit), tag, bytes);
        }
        source_element(alloc, level, complex, tag, &mut self.sources, bytes)
    }
}

impl Parts for BandParts {
    ghost Value = { means.BandParts };

    ghost value = { λ p. p };

    ghost step = { λ _. band_step };

    fn usual(&self, first: u8) -> &'static [u8] {
        match first {
            b'C' => b"ComplexSource",
            _ => b"SimpleSource",
        }
    }

    fn child<'a>(
        &mut self,
        alloc: Global,
        level: Level,
        place: u64,
        tag: Tag,
        bytes: &'a [u8],
    ) -> Result<(Result<(), VrtFault>, &'a [u8]), VrtFault> {
        match band_part_of(tag.name) {
            BandPart::NoData => self.nodata_child(alloc, level, tag, bytes),
            BandPart::Simple => self.source_child(alloc, level, false, tag, bytes),
            BandPart::Complex => self.source_child(alloc, level, true, tag, bytes),
            BandPart::Past => past_child(alloc, level, Ok(()), tag, bytes),
            BandPart::Unknown => {
                let unknown = Err(VrtFault::UnknownElement(place));
                past_child(alloc, level, unknown, tag, bytes)
            }
        }
    }
}

fn kind_in(text: Option<&[u8]>) -> Result<PixelType, VrtFault>
    ensures kind { result ≡ kind_in (option_map (λ v. v.now) text.entry) }
{
    match text {
        None => Ok(PixelType::Byte),
        Some(text) => match PixelType::read_name(text, false) {
            Some(kind) => Ok(kind),
            None => Err(VrtFault::Unsupported),
        },
    }
}

fn is_number(number: u64, found: Option<u64>) -> bool
    ensures number { result ≡ is_number number found }
{
    match found {
        Some(n) => n == number,
        None => false,
    }
}

fn is_placed(number: u64, text: Option<&[u8]>) -> bool
    ensures placed { result ≡ is_placed number (option_map (λ v. v.now) text.entry) }
{
    match text {
        None => true,
        Some(text) => is_number(number, whole_text(text)),
    }
}

fn is_sourced(text: Option<&[u8]>) -> bool
    ensures sourced { result ≡ is_sourced (option_map (λ v. v.now) text.entry) }
{
    match text {
        None => true,
        Some(text) => is_equal(text, b"VRTSourcedRasterBand"),
    }
}

// The NODATA of a band, if its type holds it.
fn nodata_of(kind: PixelType, nodata: Option<Option<NoData>>) -> Option<i128>
    ensures value { result ≡ when_in kind (value_in nodata) }
    ensures within { IfSome result (λ n. is_in kind n ≡ true) }
{
    match nodata {
        Some(Some(nodata)) => when_in(kind, Some(nodata.get())),
        _ => None,
    }
}

fn band_end(kind: PixelType, parts: BandParts) -> Result<VrtBand, VrtFault>
    ensures band { result ≡ band_end kind parts }
{
    let BandParts {
        taken: _,
        nodata,
        sources,
    } = parts;
    Ok(VrtBand {
        kind,
        nodata: nodata_of(kind, nodata),
        sources,
    })
}

// In order: the attributes, text in the band, its children.
fn band_by(
    kind: Result<PixelType, VrtFault>,
    placed: bool,
    sourced: bool,
    seen: Seen,
    parts: BandParts,
) -> Result<VrtBand, VrtFault>
    ensures band { result ≡ band_by kind placed sourced seen.white (kept_of parts seen.kept) }
{
    let kind = kind?;
    if !placed {
        return Err(VrtFault::BadNumber);
    }
    if !(sourced && seen.white) {
        return Err(VrtFault::Unsupported);
    }
    match seen.kept {
        Ok(()) => band_end(kind, parts),
        Err(fault) => Err(fault),
    }
}

/// What a VRTRasterBand means, the band of this number from 1, behind so many sources.
pub fn band_element<'a>(
    alloc: Global,
    level: Level,
    number: u64,
    taken: usize,
    tag: Tag,
    bytes: &'a [u8],
) -> Result<(Result<VrtBand, VrtFault>, &'a [u8]), VrtFault>
    requires within { length bytes.now ≤ level.total }
    requires depth { level.depth < deepest }
    ensures band { Gives (λ x. (x.0, x.1.now)) result (read_as (band_of number taken (tag_view tag.entry))
        (inner level.total level.depth (tag_view tag.entry) bytes.now)) }
    ensures shorter { IfOk result (λ x. length x.1.now ≤ length bytes.now) }
{
    let kind = kind_in(attribute(tag.attributes, b"dataType"));
    let placed = is_placed(number, attribute(tag.attributes, b"band"));
    let sourced = is_sourced(attribute(tag.attributes, b"subClass"));
    let mut parts = no_band_parts(alloc, taken);
    match children_of(alloc, level, tag, &mut parts, bytes) {
        Ok((seen, rest)) => Ok((band_by(kind, placed, sourced, seen, parts), rest)),
        Err(error) => Err(error),
    }
}
