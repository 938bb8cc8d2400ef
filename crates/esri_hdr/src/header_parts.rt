// The parts of a head, and the faults of a header.
ghost use Rattle.std.specs.Prelude.{◌≡◌};
ghost use Rattle.esri_hdr.specs.Faults.{fault_number};

use geotransform::Ticks;

/// How the bands of a raster lie in its file: line by line, sample by sample, or one behind the
/// other.
#[derive(Clone, Copy, PartialEq, Eq)]
pub enum Layout {
    Bil,
    Bip,
    Bsq,
}

/// Why a header is refused: NROWS or NCOLS is missing, a value isn't of its key's form or too small,
/// it is one that isn't supported, or a number or the header's length is past its limit.
#[derive(Clone, Copy, PartialEq, Eq, Debug)]
pub enum HdrFault {
    MissingKey,
    BadValue,
    Unsupported,
    Limit,
}

impl HdrFault {
    /// The number that error lines print: 1 for `MissingKey` to 4 for `Limit`.
    pub fn number(&self) -> u8
        ensures number { result ≡ fault_number self.now }
    {
        match self {
            HdrFault::MissingKey => 1,
            HdrFault::BadValue => 2,
            HdrFault::Unsupported => 3,
            HdrFault::Limit => 4,
        }
    }
}

/// The centre of the upper left pixel and the sizes of a pixel, all multiples of 18 ticks, the sizes
/// above 0.
#[derive(Clone, Copy, PartialEq, Eq)]
pub struct RawGeo {
    pub ulx: Ticks,
    pub uly: Ticks,
    pub xdim: Ticks,
    pub ydim: Ticks,
}

/// What the keys from NROWS to PIXELTYPE say.
#[derive(Clone, Copy)]
pub struct Shape {
    pub w: u32,
    pub h: u32,
    pub bands: u32,
    pub bits: u32,
    pub big: bool,
    pub layout: Layout,
    pub skip: u64,
    pub signed: bool,
}

/// What BANDROWBYTES, TOTALROWBYTES and BANDGAPBYTES say.
#[derive(Clone, Copy)]
pub struct Rows {
    pub band_row: u64,
    pub total_row: u64,
    pub gap: u64,
}
