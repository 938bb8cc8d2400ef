// Why a grid is refused.
ghost use Rattle.std.specs.Prelude.{◌≡◌};
ghost use Rattle.ascii_grid.specs.Faults.{fault_number, fault_place};
ghost use Rattle.ascii_grid.specs.declared.faults.GridFault.TheVariants as grid_fault;

use std::alloc::AllocError;

/// Why a grid is refused: the head lacks a key, a token isn't of its form, a value of the body is a
/// decimal number that isn't whole, the body has too few values, a token stands behind its last
/// value, a number is past its limit, or memory was refused. A place is that of the token's first
/// byte, counted from 0.
#[derive(Clone, Copy, PartialEq, Eq, Debug)]
pub enum GridFault {
    MissingKey,
    BadToken(u64),
    NotInteger(u64),
    TooFew,
    TooMany(u64),
    Limit,
    Memory,
}

impl GridFault {
    /// The number that error lines print: 1 for `MissingKey` to 6 for `Limit`, and 0 for `Memory`,
    /// which is no fault of the text.
    pub fn number(&self) -> u8
        ensures number { result ≡ fault_number self.now }
    {
        match self {
            GridFault::MissingKey => 1,
            GridFault::BadToken(_) => 2,
            GridFault::NotInteger(_) => 3,
            GridFault::TooFew => 4,
            GridFault::TooMany(_) => 5,
            GridFault::Limit => 6,
            GridFault::Memory => 0,
        }
    }

    /// The place of the token that is refused, where the fault is one of a token.
    pub fn place(&self) -> Option<u64>
        ensures place { result ≡ fault_place self.now }
    {
        match self {
            GridFault::BadToken(place) | GridFault::NotInteger(place) | GridFault::TooMany(place) =>
                Some(*place),
            GridFault::MissingKey | GridFault::TooFew | GridFault::Limit | GridFault::Memory => {
                None
            }
        }
    }
}

impl From<AllocError> for GridFault {
    ghost from_gives = { λ _ e. e ≡ grid_fault.Memory };

    fn from(_: AllocError) -> Self {
        GridFault::Memory
    }
}
