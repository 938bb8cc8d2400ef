// What a mosaic is asked for.
use catalog::NodataWord;
use geotransform::Ticks;
use lists_and_answers::Items;
use outside::Name;
use std::marker::Model;

/// Numbers of bands, counted from 1.
pub type Numbers = Items<u32>;

/// The size of the mosaic's pixels: the least or the greatest of the inputs along each axis, their
/// mean, or the given one.
#[derive(Clone, Copy, PartialEq, Eq)]
pub enum Resolution {
    Highest,
    Lowest,
    Average,
    /// Both above 0 and below 10^12 units.
    User { dx: Ticks, dy: Ticks },
}

/// The extent of a mosaic: not empty, and each place below 10^12 units in magnitude.
#[derive(Clone, Copy, PartialEq, Eq)]
pub struct Extent {
    pub xmin: Ticks,
    pub ymin: Ticks,
    pub xmax: Ticks,
    pub ymax: Ticks,
}

/// What a mosaic is asked for. It keeps that each band is from 1 to 256, that a given size of pixels
/// is above 0 and a given extent isn't empty, all below 10^12 units, and that a NODATA has 64 bits.
#[derive(Drop)]
pub struct BuildOptions {
    /// The name of the document that the mosaic is for.
    pub out: Name,
    /// The chosen bands; all where none is chosen.
    pub bands: Numbers,
    pub resolution: Resolution,
    pub extent: Option<Extent>,
    pub src_nodata: NodataWord,
    pub vrt_nodata: NodataWord,
    /// Whether each input gives a band of its own.
    pub separate: bool,
    /// Whether a skipped input is refused.
    pub strict: bool,
}

impl Model for BuildOptions {
    ghost use Rattle.buildvrt.specs.Options.{Options, IsOptions};

    ghost Value = { Options };

    ghost view = { λ o. record {
      out = o.out;
      bands = o.bands;
      resolution = o.resolution;
      extent = o.extent;
      src_nodata = o.src_nodata;
      vrt_nodata = o.vrt_nodata;
      separate = o.separate;
      strict = o.strict;
    } };

    ghost invariant = { λ o. IsOptions (record {
      out = o.out;
      bands = o.bands;
      resolution = o.resolution;
      extent = o.extent;
      src_nodata = o.src_nodata;
      vrt_nodata = o.vrt_nodata;
      separate = o.separate;
      strict = o.strict;
    }) };
}

impl BuildOptions {
    ghost use Rattle.buildvrt.specs.Options.{IsOptions};

    /// The rules that all options keep.
    pub fn rules(&self)
        ensures rules { IsOptions self.now }
    {
        // The options are read for the proof: what holds of all of them is known then.
        let _out = &self.out;
    }
}
