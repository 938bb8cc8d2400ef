// What blocks are made with: memory, a catalog, and lines that lanes share.
ghost use Rattle.std.specs.Prelude.{◌≡◌, IfSome};
ghost use Rattle.band_blocks.specs.Contents.{IsBlock};
ghost use Rattle.band_blocks.specs.Keys.{IsKey};

use band_blocks::{Block, BlockKey};
use catalog::Catalog;
use shared_lines::{Lines, Scene, zeros_for};
use std::alloc::Global;

/// What windows are read with beside a folder: memory for blocks, the catalog that their datasets stand in, and the
/// lines that are looked at for blocks, if there are any.
#[derive(Drop)]
pub struct Supply<'a, 'b, S: Scene> {
    pub alloc: Global,
    pub cat: &'a Catalog,
    pub shared: Option<&'b Lines<S>>,
}

/// The block of a key, where there are lines and they show it. `None` comes also where memory is refused for it.
pub fn shown_in<S: Scene>(supply: &Supply<S>, key: BlockKey) -> Option<Block>
    requires scene { S.cat ≡ supply.now.cat.now }
    requires key { IsKey supply.now.cat.now key }
    ensures block { IfSome result (IsBlock S.told supply.now.cat.now key) }
{
    let Some(lines) = supply.shared else {
        return None;
    };
    let Ok(mut block) = zeros_for(supply.alloc, supply.cat, key) else {
        return None;
    };
    if !lines.look(&key, &mut block) {
        drop(block);
        return None;
    }
    Some(block)
}

/// Offers a block to the lines, where there are any. The block isn't offered where memory is refused for its copy.
pub fn offer_to<S: Scene>(supply: &Supply<S>, key: BlockKey, block: &Block)
    requires block { IsBlock S.told S.cat key block.now }
{
    let Some(lines) = supply.shared else {
        return;
    };
    let _offered = lines.offer(key, block);
}
