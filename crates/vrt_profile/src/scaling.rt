// What sources make of pixels.
ghost use Rattle.std.specs.Prelude.{◌≡◌, pos, Some, IfOk, IfSome, IsTrue, is_some, option_map};
ghost use Rattle.vrt_profile.specs.Values.{trillion};
ghost use Rattle.vrt_profile.specs.Scaling.{no_scaling, keeps_pixels};
ghost use Rattle.vrt_profile.specs.ScalingViews.{kept_scaling};

use crate::rectangle::Lut;
use std::alloc::{AllocError, Global};
use std::marker::Model;

/// The parts of a scaling.
#[derive(Drop)]
pub struct ScalingParts {
    /// The pixel that gives nothing.
    pub nodata: Option<i128>,
    /// What is added to a scaled pixel, in parts of 10^12.
    pub offset: i128,
    /// What a pixel is scaled by, in parts of 10^12.
    pub ratio: i128,
    pub lut: Option<Lut>,
}

impl Model for ScalingParts {
    ghost use Rattle.vrt_profile.specs.Scaling.{ScalingValue};

    ghost Value = { ScalingValue };

    ghost view = { λ p. record { nodata = p.nodata; offset = p.offset; ratio = p.ratio; lut = p.lut } };
}

/// What is kept of a scaling: nothing where it changes no pixel, its NODATA or its table where it has nothing else. So
/// most scalings take little memory or none.
#[derive(Drop)]
enum Kept {
    Plain,
    NoData(i64),
    Table(Box<Lut>),
    Parts(Box<ScalingParts>),
}

/// What a source makes of the pixels of its dataset. What is more than a NODATA of eight bytes stands apart, so that a
/// source stays small.
#[derive(Drop)]
pub struct Scaling {
    kept: Kept,
}

impl Model for Scaling {
    ghost use Rattle.vrt_profile.specs.Scaling.{ScalingValue};
    ghost use Rattle.vrt_profile.specs.ScalingViews.{kept_scaling};

    ghost Value = { ScalingValue };

    ghost view = { λ s. kept_scaling s.kept };
}

fn has_table(lut: &Option<Lut>) -> bool
    ensures table { result ≡ is_some lut.now }
{
    match lut {
        None => false,
        Some(_) => true,
    }
}

impl ScalingParts {
    // The parts of a scaling that scales no pixel.
    fn of(nodata: Option<i128>, lut: Option<Lut>) -> ScalingParts
        ensures unscaled { result ≡ record no_scaling { nodata = nodata; lut = lut } }
    {
        ScalingParts {
            nodata,
            offset: 0,
            ratio: 1_000_000_000_000,
            lut,
        }
    }

    // Whether they neither scale a pixel nor have a table.
    fn keep_pixels(&self) -> bool
        ensures kept { result ≡ keeps_pixels self.now }
    {
        self.ratio == 1_000_000_000_000 && self.offset == 0 && !has_table(&self.lut)
    }

    // Whether they scale no pixel.
    fn keep_scale(&self) -> bool
        ensures kept { IsTrue result → (self.now.ratio ≡ pos trillion) × (self.now.offset ≡ pos 0) }
    {
        self.ratio == 1_000_000_000_000 && self.offset == 0
    }
}

// What is kept of a NODATA alone, where it has at most eight bytes.
fn small_nodata(nodata: Option<i128>) -> Option<Kept>
    ensures kept { IfSome result (λ k. kept_scaling k ≡ record no_scaling { nodata = nodata }) }
{
    match nodata {
        None => Some(Kept::Plain),
        Some(n) if n.unsigned_abs() < 0x8000_0000_0000_0000 => Some(Kept::NoData(n as i64)),
        Some(_) => None,
    }
}

// What is kept of all parts.
fn kept_parts(alloc: Global, parts: ScalingParts) -> Result<Kept, AllocError>
    ensures kept { IfOk result (λ k. kept_scaling k ≡ parts) }
{
    Ok(Kept::Parts(Box::new(alloc, parts)?))
}

// What is kept of a table and a NODATA.
fn kept_table(alloc: Global, nodata: Option<i128>, lut: Lut) -> Result<Kept, AllocError>
    ensures kept { IfOk result (λ k. kept_scaling k ≡ record no_scaling { nodata = nodata; lut = Some lut }) }
{
    match nodata {
        None => Ok(Kept::Table(Box::new(alloc, lut)?)),
        Some(_) => kept_parts(alloc, ScalingParts::of(nodata, Some(lut))),
    }
}

// What is kept of parts that scale no pixel.
fn kept_unscaled(alloc: Global, nodata: Option<i128>, lut: Option<Lut>) -> Result<Kept, AllocError>
    ensures kept { IfOk result (λ k. kept_scaling k ≡ record no_scaling { nodata = nodata; lut = lut }) }
{
    match lut {
        Some(lut) => kept_table(alloc, nodata, lut),
        None => match small_nodata(nodata) {
            Some(kept) => Ok(kept),
            None => kept_parts(alloc, ScalingParts::of(nodata, None)),
        },
    }
}

// What is kept of parts.
fn kept_of(alloc: Global, parts: ScalingParts) -> Result<Kept, AllocError>
    ensures kept { IfOk result (λ k. kept_scaling k ≡ parts) }
{
    if parts.keep_scale() {
        kept_unscaled(alloc, parts.nodata, parts.lut)
    } else {
        kept_parts(alloc, parts)
    }
}

impl Scaling {
    // The scaling that changes no pixel.
    pub(crate) fn none() -> Scaling
        ensures none { result ≡ no_scaling }
    {
        Scaling { kept: Kept::Plain }
    }

    /// The scaling of these parts.
    pub fn of(alloc: Global, parts: ScalingParts) -> Result<Scaling, AllocError>
        ensures same { IfOk result (λ s. s ≡ parts) }
    {
        Ok(Scaling {
            kept: kept_of(alloc, parts)?,
        })
    }

    /// The pixel that gives nothing.
    pub fn nodata(&self) -> Option<i128>
        ensures nodata { result ≡ self.now.nodata }
    {
        match &self.kept {
            Kept::Plain => None,
            Kept::NoData(nodata) => Some(*nodata as i128),
            Kept::Table(_) => None,
            Kept::Parts(parts) => parts.nodata,
        }
    }

    /// What is added to a scaled pixel, in parts of 10^12.
    pub fn offset(&self) -> i128
        ensures offset { result ≡ self.now.offset }
    {
        match &self.kept {
            Kept::Plain | Kept::NoData(_) | Kept::Table(_) => 0,
            Kept::Parts(parts) => parts.offset,
        }
    }

    /// What a pixel is scaled by, in parts of 10^12.
    pub fn ratio(&self) -> i128
        ensures ratio { result ≡ self.now.ratio }
    {
        match &self.kept {
            Kept::Plain | Kept::NoData(_) | Kept::Table(_) => 1_000_000_000_000,
            Kept::Parts(parts) => parts.ratio,
        }
    }

    /// Lends the table.
    pub fn lut(&self) -> Option<&Lut>
        ensures lut { option_map (λ t. t.now) result ≡ self.now.lut }
    {
        match &self.kept {
            Kept::Plain | Kept::NoData(_) => None,
            Kept::Table(lut) => Some(lut.as_ref()),
            Kept::Parts(parts) => parts.lut.as_ref(),
        }
    }

    /// Whether it neither scales a pixel nor has a table.
    pub fn keeps_pixels(&self) -> bool
        ensures kept { result ≡ keeps_pixels self.now }
    {
        match &self.kept {
            Kept::Plain | Kept::NoData(_) => true,
            Kept::Table(_) => false,
            Kept::Parts(parts) => parts.keep_pixels(),
        }
    }

    // Its parts.
    fn into_parts(self) -> ScalingParts
        ensures same { result ≡ self }
    {
        match self.kept {
            Kept::Plain => ScalingParts::of(None, None),
            Kept::NoData(nodata) => ScalingParts::of(Some(nodata as i128), None),
            Kept::Table(lut) => ScalingParts::of(None, Some(Box::into_inner(lut))),
            Kept::Parts(parts) => Box::into_inner(parts),
        }
    }

    /// The same scaling, but that this is added to a scaled pixel, in parts of 10^12.
    pub fn with_offset(self, alloc: Global, offset: i128) -> Result<Scaling, AllocError>
        ensures scaling { IfOk result (λ s. s ≡ record self { offset = offset }) }
    {
        let ScalingParts {
            nodata,
            offset: _,
            ratio,
            lut,
        } = self.into_parts();
        Scaling::of(
            alloc,
            ScalingParts {
                nodata,
                offset,
                ratio,
                lut,
            },
        )
    }
}
