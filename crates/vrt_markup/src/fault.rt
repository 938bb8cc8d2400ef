// The faults of a VRT document.
ghost use Rattle.std.specs.Prelude.{◌≡◌};
ghost use Rattle.vrt_markup.specs.Faults.{fault_number, fault_place};
ghost use Rattle.vrt_markup.specs.declared.fault.VrtFault.TheVariants as vrt_fault;

use std::alloc::AllocError;

/// Why a document is refused: at this byte no item begins, or none that may stand there, or the file
/// ends too early; the element that begins at this byte isn't known there; an attribute or an element
/// is missing; a number isn't of its form or its range; something isn't supported; a number is past
/// its limit, or elements stand too deep. Or memory was refused.
#[derive(Clone, Copy, PartialEq, Eq, Debug)]
pub enum VrtFault {
    BadText(u64),
    UnknownElement(u64),
    MissingPart,
    BadNumber,
    Unsupported,
    Limit,
    Memory,
}

impl VrtFault {
    /// The number that error lines print: 1 for `BadText` to 6 for `Limit`, and 0 for `Memory`.
    pub fn number(&self) -> u8
        ensures number { result ≡ fault_number self.now }
    {
        match self {
            VrtFault::BadText(_) => 1,
            VrtFault::UnknownElement(_) => 2,
            VrtFault::MissingPart => 3,
            VrtFault::BadNumber => 4,
            VrtFault::Unsupported => 5,
            VrtFault::Limit => 6,
            VrtFault::Memory => 0,
        }
    }

    /// The place that error lines print, in bytes from the first.
    pub fn place(&self) -> Option<u64>
        ensures place { result ≡ fault_place self.now }
    {
        match self {
            VrtFault::BadText(place) => Some(*place),
            VrtFault::UnknownElement(place) => Some(*place),
            _ => None,
        }
    }
}

impl From<AllocError> for VrtFault {
    ghost from_gives = { λ _ e. e ≡ vrt_fault.Memory };

    fn from(_: AllocError) -> Self {
        VrtFault::Memory
    }
}
