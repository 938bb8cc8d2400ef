// Documents that are built, from their sources up.
ghost use Rattle.std.specs.Prelude.{◌≡◌, ℤ, pos, ◌*ℤ◌, ◌<ℤ◌, ◌<◌, ◌≤◌, ◌^◌, ◌++◌, ◌∷◌, [], true, length, IfSome, IfOk};
ghost use Rattle.std.specs.Prelude.{OnOk, OnErr, IsUtf8, None, unsigned_abs};
ghost use Rattle.geotransform.specs.Geo.{IsRaster};
ghost use Rattle.geotransform.specs.Types.{is_in};
ghost use Rattle.vrt_profile.specs.Values.{IsDecimal, IsOffset, IsRectangle, million, trillion, source_count};
ghost use Rattle.vrt_profile.specs.Values.{most_sources};
ghost use Rattle.vrt_profile.specs.Cover.{whole};
ghost use Rattle.vrt_profile.specs.Resolve.{related};
ghost use Rattle.vrt_profile.specs.Built.{pixel_rectangle, IsPixelOffset, IsPixelSide, plain_source};
ghost use Rattle.geotransform.specs.Limits.{most_bands, whole_limit};

use crate::document::{Document, Source, Sources, VrtBand, VrtBands};
use crate::kept::text_rules;
use crate::rectangle::MicroRect;
use crate::scaling::{Scaling, ScalingParts};
use crate::source_names::relate;
use geotransform::{GeoTransform, PixelType, Sample, Size};
use lists_and_answers::Items;
use outside::{Name, Text};
use std::alloc::{AllocError, Global};
use std::marker::Model;

/// 1 in parts of 10^12.
const TRILLION: i128 = 1_000_000_000_000;

// In millionths of a pixel.
fn micro(v: i128) -> i64
    requires { IsPixelOffset v }
    ensures value { result ≡ pos million *ℤ v }
    ensures near { IsOffset result }
    ensures above { pos 0 <ℤ v → pos 0 <ℤ result }
{
    (1_000_000 * v) as i64
}

/// A rectangle of whole pixels.
pub fn pixel_rect(x: i128, y: i128, w: i128, h: i128) -> MicroRect
    requires x { IsPixelOffset x }
    requires y { IsPixelOffset y }
    requires w { IsPixelSide w }
    requires h { IsPixelSide h }
    ensures rect { result ≡ pixel_rectangle x y w h }
{
    MicroRect {
        x: micro(x),
        y: micro(y),
        w: micro(w),
        h: micro(h),
    }
}

/// The whole of a raster.
#[tactic(auto, using(crate::proofs::Built::whole_pixels))]
pub fn whole_rect(size: Size) -> MicroRect
    requires size { IsRaster size }
    ensures rect { result ≡ whole size }
{
    pixel_rect(0, 0, size.w as i128, size.h as i128)
}

// The rules that each rectangle keeps.
fn rect_rules(rect: MicroRect)
    ensures rules { IsRectangle rect }
{
    // This is read for the proof: the rules of a rectangle.
    let _x = rect.x;
}

// How the document names a file.
#[tactic(auto, using(crate::proofs::Built::related_some))]
fn related_file(alloc: Global, base: &Name, name: &Name) -> Result<(bool, Text), AllocError>
    ensures named { IfOk result (λ x. x ≡ related base.now name.now) }
    ensures some { IfOk result (λ x. 0 < length x.1) }
{
    // This call is made for the proof: a name isn't empty.
    let _text = name.as_str();
    relate(alloc, base, name)
}

// The scaling that leaves every pixel as it is, but this NODATA.
fn showing_all_but(alloc: Global, nodata: Option<Sample>) -> Result<Scaling, AllocError>
    ensures scaling { IfOk result
        (λ s. s ≡ record { nodata = nodata; offset = pos 0; ratio = pos trillion; lut = None }) }
{
    let parts = ScalingParts {
        nodata,
        offset: 0,
        ratio: TRILLION,
        lut: None,
    };
    Scaling::of(alloc, parts)
}

// The source of a file that is told by whether its text is relative, and the text.
fn source_from(
    alloc: Global,
    file: (bool, Text),
    band: u32,
    src: MicroRect,
    dst: MicroRect,
    nodata: Option<Sample>,
) -> Result<Source, AllocError>
    requires named { 0 < length file.1 }
    requires band { (0 < band) × (band ≤ most_bands) }
    requires nodata { IfSome nodata (λ n. unsigned_abs n < whole_limit) }
    ensures source { IfOk result (λ s. s ≡ plain_source file band src dst nodata) }
{
    let (relative, file) = file;
    text_rules(&file);
    rect_rules(src);
    rect_rules(dst);
    let scaling = showing_all_but(alloc, nodata)?;
    Ok(Source {
        complex: nodata.is_some(),
        relative,
        file,
        band,
        src: Some(src),
        dst: Some(dst),
        scaling,
    })
}

/// A source that shows the rectangle `src` of a band of the file `name`, counted from 1, in the
/// rectangle `dst` of the document `base`, and changes no pixel. It is a ComplexSource where it has a
/// NODATA, else a SimpleSource.
pub fn plain_source(
    alloc: Global,
    base: &Name,
    name: &Name,
    band: u32,
    src: MicroRect,
    dst: MicroRect,
    nodata: Option<Sample>,
) -> Result<Source, AllocError>
    requires band { (0 < band) × (band ≤ most_bands) }
    requires nodata { IfSome nodata (λ n. unsigned_abs n < whole_limit) }
    ensures source { IfOk result (λ s. s ≡ plain_source (related base.now name.now) band src dst nodata) }
{
    let file = related_file(alloc, base, name)?;
    source_from(alloc, file, band, src, dst, nodata)
}

/// The sources of a band, each of which keeps its rules.
#[derive(Drop)]
pub struct SourceList {
    sources: Sources,
}

impl Model for SourceList {
    ghost use Rattle.std.specs.Prelude.{List};
    ghost use Rattle.std.specs.List.{All};
    ghost use Rattle.vrt_profile.specs.Values.{SourceValue, IsSource};

    ghost Value = { List SourceValue };

    ghost view = { λ l. l.sources };

    ghost invariant = { λ l. All IsSource l.sources };
}

impl SourceList {
    /// No source; it takes no memory.
    pub fn new(alloc: Global) -> Self
        ensures empty { result ≡ [] }
    {
        SourceList {
            sources: Items::new(alloc),
        }
    }

    /// Adds a source at the end. Where memory is refused, the list is as before.
    pub fn push(&mut self, source: Source) -> Result<(), AllocError>
        ensures ok { OnOk result (self.new ≡ self.old ++ source ∷ []) }
        ensures err { OnErr result (self.new ≡ self.old) }
    {
        source.rules();
        self.sources.push(source)
    }

    /// The band of these sources, with samples of this type.
    pub fn into_band(self, kind: PixelType, nodata: Option<Sample>) -> VrtBand
        requires nodata { IfSome nodata (λ n. is_in kind n ≡ true) }
        ensures band { result ≡ record { kind = kind; nodata = nodata; sources = self } }
    {
        VrtBand {
            kind,
            nodata,
            sources: self.sources,
        }
    }
}

/// The bands of a document, each of which keeps its rules.
#[derive(Drop)]
pub struct BandList {
    bands: VrtBands,
}

impl Model for BandList {
    ghost use Rattle.std.specs.Prelude.{List};
    ghost use Rattle.std.specs.List.{All};
    ghost use Rattle.vrt_profile.specs.Values.{BandValue, IsBand};

    ghost Value = { List BandValue };

    ghost view = { λ l. l.bands };

    ghost invariant = { λ l. All IsBand l.bands };
}

// The same text once more, where there is one.
fn copied(text: &Option<Text>) -> Result<Option<Text>, AllocError>
    ensures copied { IfOk result (λ new. new ≡ text.now) }
    ensures utf8 { IfOk result (λ new. IfSome new IsUtf8) }
{
    match text {
        Some(text) => {
            text_rules(text);
            Ok(Some(text.try_clone()?))
        }
        None => Ok(None),
    }
}

impl BandList {
    /// No band; it takes no memory.
    pub fn new(alloc: Global) -> Self
        ensures empty { result ≡ [] }
    {
        BandList {
            bands: Items::new(alloc),
        }
    }

    /// Adds a band at the end. Where memory is refused, the list is as before.
    pub fn push(&mut self, band: VrtBand) -> Result<(), AllocError>
        ensures ok { OnOk result (self.new ≡ self.old ++ band ∷ []) }
        ensures err { OnErr result (self.new ≡ self.old) }
    {
        band.rules();
        self.bands.push(band)
    }

    /// The document of these bands, of this size, with this text of its spatial reference system and
    /// this geotransform, whose numbers are multiples of 18 ticks.
    pub fn into_document(
        self,
        size: Size,
        srs: &Option<Text>,
        geo: Option<GeoTransform>,
    ) -> Result<Document, AllocError>
        requires size { IsRaster size }
        requires geo { IfSome geo IsDecimal }
        requires some { 0 < length self }
        requires few { length self ≤ most_bands }
        requires sources { source_count self ≤ most_sources }
        ensures document { IfOk result (λ d. d ≡ record { size = size; srs = srs.now; geo = geo; bands = self }) }
    {
        let srs = copied(srs)?;
        Ok(Document {
            size,
            srs,
            geo,
            bands: self.bands,
        })
    }
}
