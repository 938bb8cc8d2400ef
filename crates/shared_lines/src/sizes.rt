// Blocks of the type and length of a key's block.
ghost use Rattle.std.specs.Prelude.{◌≡◌, ◌*◌, ◌<◌, IfOk};
ghost use Rattle.catalog.specs.Dataset.{band_count};
ghost use Rattle.catalog.specs.Places.{blocks_of, block_rect_of};
ghost use Rattle.band_blocks.specs.Keys.{IsKey};
ghost use Rattle.shared_lines.specs.Shapes.{HasShape};

use band_blocks::{Block, BlockKey, block_rect};
use catalog::{Catalog, Head};
use std::alloc::{AllocError, Global};

// The number of the samples of a block.
#[tactic(auto, using(crate::proofs::Lengths::few_samples))]
fn samples_in(head: &Head, band: u32, block: u64) -> u32
    requires band { band < band_count head.now }
    requires block { block < blocks_of head.now }
    ensures count { result ≡ (block_rect_of head.now block).w * (block_rect_of head.now block).h }
{
    // This read is made for the proof: it says what holds of every head.
    let _size = head.size;
    let rect = block_rect(head, band, block);
    rect.w * rect.h
}

/// A block of zeros of the type and length of a key's block, which `Lines::look` may fill. It is refused where memory
/// is.
#[tactic(auto, using(crate::proofs::Lengths::has_shape))]
pub fn zeros_for(alloc: Global, cat: &Catalog, key: BlockKey) -> Result<Block, AllocError>
    requires key { IsKey cat.now key }
    ensures shape { IfOk result (HasShape cat.now key) }
{
    let head = cat.head(key.dataset);
    let count = samples_in(head, key.band, key.block);
    let band = head.bands.get(key.band as usize);
    Block::new(alloc, band.kind, count)
}
