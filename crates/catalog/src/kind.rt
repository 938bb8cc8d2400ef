// Kinds of datasets, and what is known of a band.
ghost use Rattle.std.specs.Prelude.{◌≡◌};
ghost use Rattle.lists_and_answers.specs.Answers.{Gives};
ghost use Rattle.catalog.specs.Outcomes.{IsMemory};
ghost use Rattle.catalog.specs.Heads.{kind_in};

use crate::WalkFault;
use geotransform::{PixelType, Sample, Size};
use lists_and_answers::Items;
use outside::{Ext, Name};

/// How a dataset is stored.
#[derive(Clone, Copy, Debug, PartialEq, Eq)]
pub enum Kind {
    /// Samples beside an ESRI header.
    Raw,
    /// A DTED cell.
    Dted,
    /// An SRTM tile.
    Hgt,
    /// An Arc/Info ASCII grid.
    Ascii,
    /// A mosaic, which a VRT document makes of sources.
    Vrt,
}

/// A band: the type of its samples, its NODATA if it has one, and the size of its blocks in pixels.
#[derive(Clone, Copy)]
pub struct BandHead {
    pub kind: PixelType,
    pub nodata: Option<Sample>,
    pub block: Size,
}

/// The bands of a dataset, in order.
pub type Bands = Items<BandHead>;

// The kind that the extension of a name tells.
#[tactic(auto, using(crate::proofs::Headers::memory_fails))]
pub fn kind_of(name: &Name) -> Result<Kind, WalkFault>
    ensures kind { Gives IsMemory (λ kind. kind) result (kind_in name.now) }
{
    match name.extension() {
        Some(Ext::Bil | Ext::Bip | Ext::Bsq) => Ok(Kind::Raw),
        Some(Ext::Dt0 | Ext::Dt1 | Ext::Dt2) => Ok(Kind::Dted),
        Some(Ext::Hgt) => Ok(Kind::Hgt),
        Some(Ext::Asc | Ext::Grd) => Ok(Kind::Ascii),
        Some(Ext::Vrt) => Ok(Kind::Vrt),
        None => Err(WalkFault::NotRecognized {
            name: name.try_clone()?,
        }),
    }
}
