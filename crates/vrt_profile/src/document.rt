// A VRT document: a raster of bands, each of which is made of sources.
ghost use Rattle.std.specs.Prelude.{◌≡◌, ◌<◌, ◌*◌, true, IfOk, option_map, unsigned_abs};
ghost use Rattle.vrt_profile.specs.Value.{is_plain, takes_kind};
ghost use Rattle.vrt_profile.specs.Values.{IsSource, IsBand, IsDocument, scale_limit};

use crate::rectangle::{Lut, MicroRect};
use crate::scaling::Scaling;
use geotransform::{GeoTransform, PixelType, Sample, Size};
use lists_and_answers::Items;
use outside::Text;
use std::alloc::{AllocError, Global};
use std::marker::Model;

/// A source of a band: a band of another dataset, a part of which is put to a part of the mosaic. It
/// keeps each rule of a source by itself: the file's text isn't empty, the band is from 1 to 256, the NODATA is below
/// 10^20 in magnitude, the offset and the ratio below 10^12, and a source that isn't complex has no NODATA, offset 0,
/// ratio 1 and no table.
#[derive(Drop)]
pub struct Source {
    /// Whether it is a ComplexSource.
    pub complex: bool,
    /// Whether the file's text is relative to the document.
    pub relative: bool,
    /// The band of the file, counted from 1.
    pub band: u32,
    pub file: Text,
    /// The part of the source; the whole of it where there is none.
    pub src: Option<MicroRect>,
    /// The part of the mosaic; the whole of it where there is none.
    pub dst: Option<MicroRect>,
    /// What becomes of its pixels.
    pub scaling: Scaling,
}

impl Model for Source {
    ghost use Rattle.vrt_profile.specs.Values.{SourceValue, IsSource};

    ghost Value = { SourceValue };

    ghost view = { λ s. record {
      complex = s.complex;
      relative = s.relative;
      file = s.file;
      band = s.band;
      src = s.src;
      dst = s.dst;
      nodata = s.scaling.nodata;
      offset = s.scaling.offset;
      ratio = s.scaling.ratio;
      lut = s.scaling.lut;
    } };

    ghost invariant = { λ s. IsSource (record {
      complex = s.complex;
      relative = s.relative;
      file = s.file;
      band = s.band;
      src = s.src;
      dst = s.dst;
      nodata = s.scaling.nodata;
      offset = s.scaling.offset;
      ratio = s.scaling.ratio;
      lut = s.scaling.lut;
    }) };
}

/// The sources of a band, the last of which counts most.
pub type Sources = Items<Source>;

/// A band: the type of its samples, its NODATA, which is a number of the type, and its sources.
#[derive(Drop)]
pub struct VrtBand {
    pub kind: PixelType,
    pub nodata: Option<Sample>,
    pub sources: Sources,
}

impl Model for VrtBand {
    ghost use Rattle.vrt_profile.specs.Values.{BandValue, IsBand};

    ghost Value = { BandValue };

    ghost view = { λ b. record { kind = b.kind; nodata = b.nodata; sources = b.sources } };

    ghost invariant = { λ b. IsBand (record { kind = b.kind; nodata = b.nodata; sources = b.sources }) };
}

/// The bands of a document, in order.
pub type VrtBands = Items<VrtBand>;

/// A document. It keeps each limit and each rule of a document: the sides are from 1 to 4,194,304, the
/// bands from 1 to 256, and all bands together have at most 262,144 sources. The numbers of the
/// geotransform are multiples of 18 ticks.
#[derive(Drop)]
pub struct Document {
    /// Columns and lines.
    pub size: Size,
    /// The text of the spatial reference system, which may be empty.
    pub srs: Option<Text>,
    pub geo: Option<GeoTransform>,
    pub bands: VrtBands,
}

impl Model for Document {
    ghost use Rattle.vrt_profile.specs.Values.{DocumentValue, IsDocument};

    ghost Value = { DocumentValue };

    ghost view = { λ d. record { size = d.size; srs = d.srs; geo = d.geo; bands = d.bands } };

    ghost invariant = { λ d. IsDocument (record { size = d.size; srs = d.srs; geo = d.geo; bands = d.bands }) };
}

impl Source {
    /// The rules that each source keeps.
    pub fn rules(&self)
        ensures rules { IsSource self.now }
    {
        // This is read for the proof: what holds of every source is known then.
        let _band = &self.band;
    }

    /// Whether the source gives each pixel as it is, but its NODATA: it is neither scaled nor has it a table.
    pub fn is_plain(&self) -> bool
        ensures plain { result ≡ is_plain self.now }
    {
        if !self.complex {
            return true;
        }
        self.scaling.keeps_pixels()
    }

    /// Its NODATA, the pixel that gives nothing.
    pub fn nodata(&self) -> Option<i128>
        ensures nodata { result ≡ self.now.nodata }
    {
        self.scaling.nodata()
    }

    /// What is added to a scaled pixel, in parts of 10^12.
    pub fn offset(&self) -> i128
        ensures offset { result ≡ self.now.offset }
    {
        self.scaling.offset()
    }

    /// What a pixel is scaled by, in parts of 10^12.
    pub fn ratio(&self) -> i128
        ensures ratio { result ≡ self.now.ratio }
    {
        self.scaling.ratio()
    }

    /// Lends its table.
    pub fn lut(&self) -> Option<&Lut>
        ensures lut { option_map (λ t. t.now) result ≡ self.now.lut }
    {
        self.scaling.lut()
    }

    /// The same ComplexSource, but that this is added to a scaled pixel, in parts of 10^12.
    pub fn with_offset(self, alloc: Global, offset: i128) -> Result<Source, AllocError>
        requires complex { self.complex ≡ true }
        requires small { unsigned_abs offset < scale_limit }
        ensures source { IfOk result (λ s. s ≡ record self { offset = offset }) }
    {
        self.rules();
        let Source {
            complex,
            relative,
            file,
            band,
            src,
            dst,
            scaling,
        } = self;
        let scaling = scaling.with_offset(alloc, offset)?;
        Ok(Source {
            complex,
            relative,
            file,
            band,
            src,
            dst,
            scaling,
        })
    }

    /// Whether the source takes samples of this type: those that it scales, or has a table for, have at most 32
    /// bits.
    pub fn takes_kind(&self, kind: PixelType) -> bool
        ensures kind { result ≡ takes_kind self.now kind }
    {
        self.is_plain() || kind.bytes() <= 4
    }
}

impl VrtBand {
    /// The rules that each band keeps.
    pub fn rules(&self)
        ensures rules { IsBand self.now }
    {
        // This is read for the proof: what holds of every band is known then.
        let _kind = &self.kind;
    }
}

impl Document {
    /// The rules that each document keeps.
    pub fn rules(&self)
        ensures rules { IsDocument self.now }
    {
        // This is read for the proof: what holds of every document is known then.
        let _size = &self.size;
    }
}
