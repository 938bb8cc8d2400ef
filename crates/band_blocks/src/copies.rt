// Copies of blocks.
ghost use Rattle.std.specs.Prelude.{◌≡◌, length, IfOk};

use crate::block::{Block, Cells};
use crate::cell::Cell;
use crate::packed::Packed;
use std::alloc::AllocError;

impl<T: Cell> Packed<T> {
    // The same samples once more. They are refused where memory is.
    fn copy(&self) -> Result<Self, AllocError>
        ensures same { IfOk result (λ p. p ≡ self.now) }
    {
        let cells = Vec::from_slice(*self.cells.allocator(), &self.cells)?;
        Ok(Packed { cells })
    }

    // Takes as many samples as there are.
    fn copy_from(&mut self, other: &Packed<T>)
        requires count { length other.now ≡ length self.old }
        ensures same { self.new ≡ other.now }
    {
        self.cells.copy_from_slice(&other.cells);
    }
}

// A copy of the cells of one type.
macro_rules! copy_of {
    ($packed:ident, $cells:path) => {
        Ok(Block {
            cells: $cells($packed.copy()?),
        })
    };
}

// Copies the cells of one type over those of another block of that type.
macro_rules! copied_over {
    ($packed:ident, $cells:path, $others:expr) => {{
        let $cells(others) = $others else {
            return;
        };
        return $packed.copy_from(others);
    }};
}

impl Block {
    /// The same block once more. It is refused where memory is.
    pub fn copy(&self) -> Result<Block, AllocError>
        ensures same { IfOk result (λ block. block ≡ self.now) }
    {
        match &self.cells {
            Cells::Bytes(packed) => return copy_of!(packed, Cells::Bytes),
            Cells::Ints8(packed) => return copy_of!(packed, Cells::Ints8),
            Cells::UInts16(packed) => return copy_of!(packed, Cells::UInts16),
            Cells::Ints16(packed) => return copy_of!(packed, Cells::Ints16),
            Cells::UInts32(packed) => return copy_of!(packed, Cells::UInts32),
            Cells::Ints32(packed) => return copy_of!(packed, Cells::Ints32),
            Cells::UInts64(packed) => return copy_of!(packed, Cells::UInts64),
            Cells::Ints64(packed) => return copy_of!(packed, Cells::Ints64),
        }
    }

    /// Becomes the same as another block of its type and number of samples, without taking memory.
    pub fn copy_from(&mut self, other: &Block)
        requires kind { other.now.kind ≡ self.old.kind }
        requires count { length other.now.samples ≡ length self.old.samples }
        ensures same { self.new ≡ other.now }
    {
        match &mut self.cells {
            Cells::Bytes(packed) => copied_over!(packed, Cells::Bytes, &other.cells),
            Cells::Ints8(packed) => copied_over!(packed, Cells::Ints8, &other.cells),
            Cells::UInts16(packed) => copied_over!(packed, Cells::UInts16, &other.cells),
            Cells::Ints16(packed) => copied_over!(packed, Cells::Ints16, &other.cells),
            Cells::UInts32(packed) => copied_over!(packed, Cells::UInts32, &other.cells),
            Cells::Ints32(packed) => copied_over!(packed, Cells::Ints32, &other.cells),
            Cells::UInts64(packed) => copied_over!(packed, Cells::UInts64, &other.cells),
            Cells::Ints64(packed) => copied_over!(packed, Cells::Ints64, &other.cells),
        }
    }
}
