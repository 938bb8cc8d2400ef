// Sources of a band.
ghost use Rattle.std.specs.Prelude.{◌≡◌, ◌<◌, ◌≤◌, ◌-◌, ◌^◌, ◌++◌, ◌∷◌, [], length, IfOk, IfSome, unsigned_abs, false};
ghost use Rattle.std.specs.Prelude.{Result, Ok, Err, Option, None, Some, true};
ghost use Rattle.std.specs.Option.{option_map, unwrap_or};
ghost use Rattle.std.specs.List.{All};
ghost use Rattle.vrt_markup.specs.Forest.{deepest, inner, read_as, text_of, child_of};
ghost use Rattle.vrt_profile.specs.Means as means;
ghost use Rattle.vrt_profile.specs.Means.{flag_in, flag_by, file_of, source_band_by, nodata_by, scale_text, lut_by};
ghost use Rattle.vrt_profile.specs.Means.{with_file, number_parts, source_step, no_parts, is_nearest, source_end};
ghost use Rattle.vrt_profile.specs.Means.{source_of, value_in};
ghost use Rattle.vrt_profile.specs.Seen.{file_by, source_by, one_more};
ghost use Rattle.vrt_profile.specs.Values.{IsSource, IsRectangle, IsLut, scale_limit};
ghost use Rattle.vrt_markup.specs.Views.{plain_text, tag_view};
ghost use Rattle.vrt_markup.specs.Kept.{Gives, kept_of};
ghost use Rattle.vrt_profile.specs.SourceViews.{source_view, no_source};
ghost use Rattle.vrt_profile.specs.Scaling.{no_scaling};
ghost use Rattle.vrt_profile.specs.ScalingViews.{IsScaling, scaling_of};
ghost use Rattle.geotransform.specs.Limits.{most_bands, whole_limit};

use crate::document::{Source, Sources};
use crate::elements::{NumberPart, SourcePart, source_part_of};
use crate::fields::trim;
use crate::kept::{text_by, text_rules};
use crate::lookup::lut_of;
use crate::numbers::{NoData, Scale, band_number, nodata_in, scale_of};
use crate::puts::{past_child, put_once};
use crate::rect::rect_child;
use crate::rectangle::{Lut, MicroRect};
use crate::scaling::{Scaling, ScalingParts};
use geotransform::BandNumber;
use lists_and_answers::same_letters;
use outside::Text;
use std::alloc::{AllocError, Global};
use std::marker::Model;
use vrt_markup::{
    Level, Parts, Seen, Tag, VrtFault, Words, attribute, children_of, is_equal, text_element,
};

/// A SourceFilename.
#[derive(Drop)]
pub struct File {
    relative: bool,
    name: Text,
}

impl Model for File {
    ghost use Rattle.vrt_profile.specs.Means as means;

    ghost Value = { means.File };

    ghost view = { λ f. record { relative = f.relative; name = f.name } };
}

fn flag_by(text: &[u8]) -> Result<bool, VrtFault>
    ensures flag { result ≡ flag_by text.now }
{
    if is_equal(text, b"0") {
        Ok(false)
    } else if is_equal(text, b"1") {
        Ok(true)
    } else {
        Err(VrtFault::BadNumber)
    }
}

fn flag_in(text: Option<&[u8]>) -> Result<bool, VrtFault>
    ensures flag { result ≡ flag_in (option_map (λ v. v.now) text.entry) }
{
    match text {
        None => Ok(false),
        Some(text) => flag_by(text),
    }
}

// What a SourceFilename means: its flag first, then its text.
fn file_by(
    alloc: Global,
    flag: Result<bool, VrtFault>,
    words: &Words,
) -> Result<Result<File, VrtFault>, VrtFault>
    ensures file { Gives (λ x. x) result (Ok (file_by flag (plain_text words.now.text) words.now.child)) }
{
    match flag {
        Err(fault) => Ok(Err(fault)),
        Ok(relative) => match text_by(alloc, words) {
            Ok(Ok(name)) => Ok(Ok(File { relative, name })),
            Ok(Err(fault)) => Ok(Err(fault)),
            Err(error) => Err(error),
        },
    }
}

fn file_element<'a>(
    alloc: Global,
    level: Level,
    tag: Tag,
    bytes: &'a [u8],
) -> Result<(Result<File, VrtFault>, &'a [u8]), VrtFault>
    requires within { length bytes.now ≤ level.total }
    requires depth { level.depth < deepest }
    ensures file { Gives (λ x. (x.0, x.1.now)) result (read_as (file_of (tag_view tag.entry))
        (inner level.total level.depth (tag_view tag.entry) bytes.now)) }
    ensures shorter { IfOk result (λ x. length x.1.now ≤ length bytes.now) }
{
    let flag = flag_in(attribute(tag.attributes, b"relativeToVRT"));
    match text_element(alloc, level.total, level.depth, tag, bytes) {
        Ok((words, rest)) => match file_by(alloc, flag, &words) {
            Ok(file) => Ok((file, rest)),
            Err(error) => Err(error),
        },
        Err(error) => Err(error),
    }
}

// What the texts of numbers mean, and then a child of their elements.
fn source_band_by(words: &Words) -> Result<BandNumber, VrtFault>
    ensures band { result ≡ source_band_by (plain_text words.now.text) words.now.child }
{
    let band = band_number(trim(words.text.as_slice()))?;
    match words.child {
        None => Ok(band),
        Some(place) => Err(VrtFault::UnknownElement(place)),
    }
}

pub fn nodata_by(words: &Words) -> Result<Option<NoData>, VrtFault>
    ensures nodata { result ≡ nodata_by (plain_text words.now.text) words.now.child }
{
    match words.child {
        None => Ok(nodata_in(trim(words.text.as_slice()))),
        Some(place) => Err(VrtFault::UnknownElement(place)),
    }
}

fn scale_by(words: &Words) -> Result<Scale, VrtFault>
    ensures scale { result ≡ scale_text (plain_text words.now.text) words.now.child }
{
    let scale = scale_of(words.text.as_slice())?;
    match words.child {
        None => Ok(scale),
        Some(place) => Err(VrtFault::UnknownElement(place)),
    }
}

fn lut_by(alloc: Global, words: &Words) -> Result<Result<Lut, VrtFault>, VrtFault>
    ensures lut { Gives (λ x. x) result (Ok (lut_by (plain_text words.now.text) words.now.child)) }
{
    match lut_of(alloc, words.text.as_slice()) {
        Ok(Ok(lut)) => match words.child {
            None => Ok(Ok(lut)),
            Some(place) => Ok(Err(VrtFault::UnknownElement(place))),
        },
        Ok(Err(fault)) => Ok(Err(fault)),
        Err(error) => Err(error),
    }
}

/// What is read of a source so far, of a ComplexSource or a SimpleSource.
#[derive(Drop)]
pub struct SourceParts {
    complex: bool,
    file: Option<File>,
    band: Option<BandNumber>,
    src: Option<MicroRect>,
    dst: Option<MicroRect>,
    nodata: Option<Option<NoData>>,
    offset: Option<Scale>,
    ratio: Option<Scale>,
    lut: Option<Lut>,
}

fn no_parts(complex: bool) -> SourceParts
    ensures parts { result ≡ no_source complex }
{
    SourceParts {
        complex,
        file: None,
        band: None,
        src: None,
        dst: None,
        nodata: None,
        offset: None,
        ratio: None,
        lut: None,
    }
}

impl SourceParts {
    // Puts the part whose text is a number.
    fn put_number(
        &mut self,
        alloc: Global,
        part: NumberPart,
        words: &Words,
    ) -> Result<Result<(), VrtFault>, VrtFault>
        ensures parts { Gives (λ k. kept_of (source_view self.new) k) result
            (Ok (number_parts (source_view self.old) (plain_text words.now.text) words.now.child part)) }
        ensures same { self.new.complex ≡ self.old.complex }
    {
        match part {
            NumberPart::Band => Ok(put_once(&mut self.band, source_band_by(words))),
            NumberPart::NoData => Ok(put_once(&mut self.nodata, nodata_by(words))),
            NumberPart::Offset => Ok(put_once(&mut self.offset, scale_by(words))),
            NumberPart::Ratio => Ok(put_once(&mut self.ratio, scale_by(words))),
            NumberPart::Lut => match lut_by(alloc, words) {
                Ok(lut) => Ok(put_once(&mut self.lut, lut)),
                Err(error) => Err(error),
            },
        }
    }

    // Puts the part in an element whose text is a number.
    fn number_child<'a>(
        &mut self,
        alloc: Global,
        level: Level,
        part: NumberPart,
        tag: Tag,
        bytes: &'a [u8],
    ) -> Result<(Result<(), VrtFault>, &'a [u8]), VrtFault>
        requires within { length bytes.now ≤ level.total }
        requires depth { level.depth < deepest }
        ensures child { Gives (λ x. (kept_of (source_view self.new) x.0, x.1.now)) result
            (read_as (λ f. number_parts (source_view self.old) (text_of f) (child_of f) part)
            (inner level.total level.depth (tag_view tag.entry) bytes.now)) }
        ensures shorter { IfOk result (λ x. length x.1.now ≤ length bytes.now) }
        ensures same { self.new.complex ≡ self.old.complex }
    {
        match text_element(alloc, level.total, level.depth, tag, bytes) {
            Ok((words, rest)) => match self.put_number(alloc, part, &words) {
                Ok(kept) => Ok((kept, rest)),
                Err(error) => Err(error),
            },
            Err(error) => Err(error),
        }
    }

    // Puts a SourceFilename.
    fn file_child<'a>(
        &mut self,
        alloc: Global,
        level: Level,
        tag: Tag,
        bytes: &'a [u8],
    ) -> Result<(Result<(), VrtFault>, &'a [u8]), VrtFault>
        requires within { length bytes.now ≤ level.total }
        requires depth { level.depth < deepest }
        ensures child { Gives (λ x. (kept_of (source_view self.new) x.0, x.1.now)) result
            (read_as (λ f. with_file (source_view self.old) (file_of (tag_view tag.entry) f))
            (inner level.total level.depth (tag_view tag.entry) bytes.now)) }
        ensures shorter { IfOk result (λ x. length x.1.now ≤ length bytes.now) }
        ensures same { self.new.complex ≡ self.old.complex }
    {
        match file_element(alloc, level, tag, bytes) {
            Ok((file, rest)) => Ok((put_once(&mut self.file, file), rest)),
            Err(error) => Err(error),
        }
    }
}

impl Parts for SourceParts {
    ghost Value = { means.SourceParts };

    ghost value = { source_view };

    ghost step = { λ p. source_step p.complex };

    fn usual(&self, first: u8) -> &'static [u8] {
        match first {
            b'N' => b"NODATA",
            b'L' => b"LUT",
            _ if self.file.is_some() => b"SourceBand",
            _ => b"SourceFilename",
        }
    }

    fn child<'a>(
        &mut self,
        alloc: Global,
        level: Level,
        place: u64,
        tag: Tag,
        bytes: &'a [u8],
    ) -> Result<(Result<(), VrtFault>, &'a [u8]), VrtFault> {
        match source_part_of(self.complex, tag.name) {
            SourcePart::File => self.file_child(alloc, level, tag, bytes),
            SourcePart::Src => rect_child(&mut self.src, alloc, level, tag, bytes),
            SourcePart::Dst => rect_child(&mut self.dst, alloc, level, tag, bytes),
            SourcePart::Number(part) => self.number_child(alloc, level, part, tag, bytes),
            SourcePart::Past => past_child(alloc, level, Ok(()), tag, bytes),
            SourcePart::Unknown => {
                let unknown = Err(VrtFault::UnknownElement(place));
                past_child(alloc, level, unknown, tag, bytes)
            }
        }
    }
}

fn is_nearest(text: Option<&[u8]>) -> bool
    ensures near { result ≡ is_nearest (option_map (λ v. v.now) text.entry) }
{
    match text {
        None => true,
        Some(text) => same_letters(text, b"nearest") || same_letters(text, b"near"),
    }
}

// The parts of a Source, each with the rules that it keeps.
fn band_or_one(band: Option<BandNumber>) -> u32
    ensures value { result ≡ unwrap_or band 1 }
    ensures bounds { (0 < result) × (result ≤ most_bands) }
{
    match band {
        Some(band) => band.get(),
        None => 1,
    }
}

fn ruled(rect: Option<MicroRect>) -> Option<MicroRect>
    ensures same { result ≡ rect }
    ensures rules { IfSome result IsRectangle }
{
    match rect {
        Some(rect) => {
            // This is read for the proof: the rules of a rectangle.
            let _x = rect.x;
            Some(rect)
        }
        None => None,
    }
}

fn nodata_or_none(nodata: Option<Option<NoData>>) -> Option<i128>
    ensures value { result ≡ value_in nodata }
    ensures small { IfSome result (λ n. unsigned_abs n < whole_limit) }
{
    match nodata {
        Some(Some(nodata)) => Some(nodata.get()),
        _ => None,
    }
}

fn scale_or(scale: Option<Scale>, plain: i128) -> i128
    requires plain { unsigned_abs plain < scale_limit }
    ensures value { result ≡ unwrap_or scale plain }
    ensures small { unsigned_abs result < scale_limit }
{
    match scale {
        Some(scale) => scale.get(),
        None => plain,
    }
}

fn ruled_lut(lut: Option<Lut>) -> Option<Lut>
    ensures same { result ≡ lut }
    ensures rules { IfSome result IsLut }
{
    match lut {
        Some(lut) => {
            // This call is made for the proof: the rules of a table.
            let _pairs = lut.pairs();
            Some(lut)
        }
        None => None,
    }
}

// What a ComplexSource makes of its pixels.
fn scaling_of(
    alloc: Global,
    nodata: Option<Option<NoData>>,
    offset: Option<Scale>,
    ratio: Option<Scale>,
    lut: Option<Lut>,
) -> Result<Scaling, AllocError>
    ensures scaling { IfOk result (λ s. s ≡ scaling_of true nodata offset ratio lut) }
    ensures rules { IfOk result IsScaling }
{
    let parts = ScalingParts {
        nodata: nodata_or_none(nodata),
        offset: scale_or(offset, 0),
        ratio: scale_or(ratio, 1_000_000_000_000),
        lut: ruled_lut(lut),
    };
    Scaling::of(alloc, parts)
}

// What the source of these parts makes of its pixels: what stands in a ComplexSource. Its table leaves the parts.
#[tactic(auto, using(crate::proofs::Rules::complex_scaling))]
fn scaling_from(
    alloc: Global,
    complex: bool,
    parts: &mut SourceParts,
) -> Result<Scaling, AllocError>
    ensures scaling { IfOk result
        (λ s. s ≡ scaling_of complex parts.old.nodata parts.old.offset parts.old.ratio parts.old.lut) }
    ensures rules { IfOk result IsScaling }
    ensures simple { complex ≡ false → IfOk result (λ s. s ≡ no_scaling) }
{
    if !complex {
        return Ok(Scaling::none());
    }
    let lut = parts.lut.take();
    scaling_of(alloc, parts.nodata, parts.offset, parts.ratio, lut)
}

// Adds a source at the end.
fn push_ruled(source: Source, sources: &mut Sources) -> Result<Result<(), VrtFault>, VrtFault>
    ensures pushed { Gives (λ k. kept_of sources.new k) result (Ok (Ok (sources.old ++ source ∷ []))) }
    ensures rules { All IsSource sources.old → All IsSource sources.new }
{
    source.rules();
    match sources.push(source) {
        Ok(()) => Ok(Ok(())),
        Err(_) => Err(VrtFault::Memory),
    }
}

// Adds the source that the parts give, where they have a file. It is made where it stays, since it is large.
fn push_source(
    alloc: Global,
    complex: bool,
    parts: &mut SourceParts,
    sources: &mut Sources,
) -> Result<Result<(), VrtFault>, VrtFault>
    ensures pushed { Gives (λ k. kept_of sources.new k) result
        (Ok (one_more sources.old (source_end complex (source_view parts.old)))) }
    ensures rules { All IsSource sources.old → All IsSource sources.new }
{
    let Some(File { relative, name }) = parts.file.take() else {
        return Ok(Err(VrtFault::MissingPart));
    };
    if name.as_str().is_empty() {
        return Ok(Err(VrtFault::MissingPart));
    }
    text_rules(&name);
    let band = band_or_one(parts.band);
    let src = ruled(parts.src);
    let dst = ruled(parts.dst);
    match scaling_from(alloc, complex, parts) {
        Ok(scaling) => push_ruled(
            Source {
                complex,
                relative,
                file: name,
                band,
                src,
                dst,
                scaling,
            },
            sources,
        ),
        Err(_) => Err(VrtFault::Memory),
    }
}

// Adds the source of what is seen of it, where there is room for one.
fn push_seen(
    alloc: Global,
    complex: bool,
    near: bool,
    seen: Seen,
    parts: &mut SourceParts,
    sources: &mut Sources,
) -> Result<Result<(), VrtFault>, VrtFault>
    ensures pushed { Gives (λ k. kept_of sources.new k) result (Ok (one_more sources.old
        (source_by complex near seen.white (kept_of (source_view parts.old) seen.kept)))) }
    ensures rules { All IsSource sources.old → All IsSource sources.new }
{
    if !(near && seen.white) {
        return Ok(Err(VrtFault::Unsupported));
    }
    match seen.kept {
        Ok(()) => push_source(alloc, complex, parts, sources),
        Err(fault) => Ok(Err(fault)),
    }
}

/// Adds what a SimpleSource or a ComplexSource means to the sources before it.
pub fn source_element<'a>(
    alloc: Global,
    level: Level,
    complex: bool,
    tag: Tag,
    sources: &mut Sources,
    bytes: &'a [u8],
) -> Result<(Result<(), VrtFault>, &'a [u8]), VrtFault>
    requires within { length bytes.now ≤ level.total }
    requires depth { level.depth < deepest }
    ensures source { Gives (λ x. (kept_of sources.new x.0, x.1.now)) result
        (read_as (λ f. one_more sources.old (source_of complex (tag_view tag.entry) f))
        (inner level.total level.depth (tag_view tag.entry) bytes.now)) }
    ensures rules { All IsSource sources.old → All IsSource sources.new }
    ensures shorter { IfOk result (λ x. length x.1.now ≤ length bytes.now) }
{
    let mut parts = no_parts(complex);
    let near = is_nearest(attribute(tag.attributes, b"resampling"));
    match children_of(alloc, level, tag, &mut parts, bytes) {
        Ok((seen, rest)) => match push_seen(alloc, complex, near, seen, &mut parts, sources) {
            Ok(kept) => Ok((kept, rest)),
            Err(error) => Err(error),
        },
        Err(error) => Err(error),
    }
}
