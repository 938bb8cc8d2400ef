// Why a block or a sample wasn't loaded.
ghost use Rattle.std.specs.Prelude.{◌≡◌};
ghost use Rattle.band_blocks.specs.declared.fault.LoadFault.TheVariants as load_fault;

use outside::{Failed, Name};
use std::alloc::AllocError;

/// Why a block wasn't loaded.
#[derive(Drop)]
pub enum LoadFault {
    /// A call of the folder failed: its count of faults rose.
    FolderFault,
    /// The file of this name was opened again and didn't have the length in bytes that the walk found:
    /// it has another length now, or it is gone.
    Changed {
        name: Name,
        was: u64,
        now: Option<u64>,
    },
    /// Memory was refused.
    Memory,
}

impl From<AllocError> for LoadFault {
    ghost from_gives = { λ _ e. e ≡ load_fault.Memory };

    fn from(_: AllocError) -> Self {
        LoadFault::Memory
    }
}

impl From<Failed> for LoadFault {
    ghost from_gives = { λ _ e. e ≡ load_fault.FolderFault };

    fn from(_: Failed) -> Self {
        LoadFault::FolderFault
    }
}
