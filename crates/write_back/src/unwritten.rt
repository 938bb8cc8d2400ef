// Which blocks of a draft were written.
ghost use Rattle.std.specs.Prelude.{◌≡◌, ◌<◌, ◌+◌, ◌*◌, ◌^◌, ℕ, true, false, IfOk};
ghost use Rattle.write_back.specs.Unwritten.{is_written};

use std::alloc::{AllocError, Global};
use std::marker::Model;

/// For each block of each band, whether it was written to a draft since the draft was made. A block that has no mark
/// here counts as written.
#[derive(Drop)]
pub(crate) struct Written {
    blocks: u32,
    marks: Vec<bool>,
}

impl Model for Written {
    ghost use Rattle.std.specs.Prelude.{vec_items};
    ghost use Rattle.write_back.specs.Unwritten.{Marks};

    ghost Value = { Marks };

    ghost view = { λ w. record { blocks = w.blocks; list = vec_items w.marks } };
}

// How many blocks so many bands have.
fn count_of(bands: u32, blocks: u32) -> usize
    ensures count { result ≡ bands * blocks }
    ensures bound { result < 2 ^ 64 }
{
    bands as usize * blocks as usize
}

// Which of the marks is a block's.
fn mark_index(blocks: u32, band: u32, block: u32) -> usize
    ensures place { result ≡ band * blocks + block }
{
    count_of(band, blocks) + block as usize
}

impl Written {
    // None of so many blocks of each band was written. It is refused where memory is.
    pub(crate) fn new(alloc: Global, bands: u32, blocks: u32) -> Result<Written, AllocError>
        ensures none { IfOk result (λ w. (k v : ℕ) → k < bands → v < blocks → is_written w k v ≡ false) }
    {
        let marks = vec![in alloc; false; count_of(bands, blocks)]?;
        Ok(Written { blocks, marks })
    }

    // Whether a block of a band was written.
    pub(crate) fn is_written(&self, band: u32, block: u32) -> bool
        ensures written { result ≡ is_written self.now band block }
    {
        match self.marks.get(mark_index(self.blocks, band, block)) {
            Some(mark) => *mark,
            None => true,
        }
    }

    // A block of a band was written.
    pub(crate) fn mark(&mut self, band: u32, block: u32)
        ensures here { is_written self.new band block ≡ true }
        ensures others { (k v : ℕ) → is_written self.new k v ≡ false → is_written self.old k v ≡ false }
    {
        let place = mark_index(self.blocks, band, block);
        if place < self.marks.len() {
            self.marks[place] = true;
        }
    }
}
