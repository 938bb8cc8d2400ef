// Why a dataset is refused.
ghost use Rattle.std.specs.Prelude.{◌≡◌};
ghost use Rattle.catalog.specs.declared.faults.WalkFault.TheVariants as walk_fault;

use ascii_grid::GridFault;
use dted_records::DtedFault;
use esri_hdr::HdrFault;
use hgt_tiles::HgtFault;
use outside::Name;
use std::alloc::AllocError;
use vrt_profile::VrtFault;

/// What is wrong with a file that was read.
#[derive(Clone, Copy, Debug, PartialEq, Eq)]
pub enum Bad {
    /// The header of raw data has this fault.
    Hdr(HdrFault),
    /// The head of a DTED cell, or one of its records, has this fault.
    Dted(DtedFault),
    /// The name or the length isn't that of a tile.
    Hgt(HgtFault),
    /// The grid has this fault, which isn't want of memory.
    Grid(GridFault),
    /// The document of a mosaic has this fault, which isn't want of memory.
    Vrt(VrtFault),
    /// The list of input files isn't UTF-8.
    List,
}

/// What is counted against a limit.
#[derive(Clone, Copy, Debug, PartialEq, Eq)]
pub enum LimitKind {
    /// The bytes of a name.
    Name,
    /// The distinct datasets of a catalog.
    Files,
    /// The sources of all mosaics of a catalog.
    Sources,
    /// The bytes of a list of input files.
    List,
    /// The lines of the input.
    Points,
}

/// Why a dataset, or what a walk reaches from it, is refused.
#[derive(Drop)]
pub enum WalkFault {
    /// There is no file of this name.
    Absent { name: Name },
    /// The extension of this name is that of no kind of dataset.
    NotRecognized { name: Name },
    /// The file of this name isn't of its form.
    Malformed { name: Name, bad: Bad },
    /// The file of this name needs so many bytes, and has fewer.
    Short { name: Name, needed: u64, has: u64 },
    /// The mosaic of this name stands on the path that leads to it.
    Cycle { name: Name },
    /// The mosaic of this name would be the seventeenth on its path.
    TooDeep { name: Name },
    /// What is counted would pass its limit with this value.
    Limit { what: LimitKind, value: u64 },
    /// A source names this band of the dataset of this name, which lacks it.
    SourceBand { name: Name, band: u32 },
    /// A call of the folder failed.
    FolderFault,
    /// Memory was refused.
    Memory,
}

impl From<AllocError> for WalkFault {
    ghost from_gives = { λ _ e. e ≡ walk_fault.Memory };

    fn from(_: AllocError) -> Self {
        WalkFault::Memory
    }
}
