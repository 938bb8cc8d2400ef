ghost use Rattle.std.specs.Prelude.{◌≡◌, ◌≤◌, ◌<◌, ◌-◌, ◌+◌, ◌*◌, ℕ, [], length, Some, None, true, IfOk, OnOk, OnErr};
ghost use Rattle.std.specs.Prelude.{IfErr, IfSome, IsSome, IsOk, is_some, option_map};
ghost use Rattle.std.specs.Borrow.{sem};
ghost use Rattle.std.specs.Option.{option_copied};
ghost use Rattle.band_blocks.specs.Blocks.{AreIn, most_blocks};
ghost use Rattle.block_cache.specs.Entries.{pool_view, entry_of, entry_dropped, patched_block, held_at, moved_to_front};
ghost use Rattle.block_cache.specs.Entries.{admitted, dropped, patched, IsPool, last_dirty, left_by};
ghost use Rattle.block_cache.specs.PoolLends.{ends_as};
ghost use Rattle.block_cache.specs.Spreads.{IsSpreadInto};

use band_blocks::{Block, BlockKey};
use geotransform::Sample;
use lru::LruCache;
use std::alloc::{AllocError, AllocFailed, Global};
use std::marker::Model;
use std::num::NonZeroUsize;

/// A block of a pool, and whether it has samples that aren't written yet.
#[derive(Drop)]
pub struct Entry {
    pub block: Block,
    pub dirty: bool,
}

/// An entry that a full pool dropped, with its key.
#[derive(Drop)]
pub struct Evicted {
    pub key: BlockKey,
    pub block: Block,
    pub dirty: bool,
}

/// Blocks by their keys, at most as many as its capacity, the most recently used first.
#[derive(Drop)]
pub struct Pool {
    cache: LruCache<BlockKey, Entry>,
}

impl Model for Pool {
    ghost use Rattle.block_cache.specs.Entries.{PoolView, pool_view, IsPool};

    ghost Value = { PoolView };

    ghost view = { λ p. pool_view p.cache.entries p.cache.cap };

    ghost invariant = { λ p. IsPool (pool_view p.cache.entries p.cache.cap) };
}

impl Pool {
    /// An empty pool of 1 to 65,536 blocks. It is refused where memory is.
    pub fn new(alloc: Global, capacity: u32) -> Result<Pool, AllocError>
        requires some { 1 ≤ capacity }
        requires few { capacity ≤ most_blocks }
        ensures empty { IfOk result (λ pool. pool ≡ pool_view [] capacity) }
    {
        let capacity = NonZeroUsize::new(capacity as usize).unwrap();
        let cache = LruCache::new(alloc, capacity)?;
        Ok(Pool { cache })
    }

    /// The number of blocks that are held.
    pub fn held(&self) -> u32
        ensures count { result ≡ length self.now.entries }
        ensures valid { IsPool self.now }
    {
        self.cache.len() as u32
    }

    /// The greatest number of blocks that are held at a time.
    pub fn capacity(&self) -> u32
        ensures most { result ≡ self.now.capacity }
        ensures valid { IsPool self.now }
    {
        self.cache.cap().get() as u32
    }

    /// Whether the block of the key is held. No entry becomes more recent.
    pub fn holds(&self, key: &BlockKey) -> bool
        ensures held { result ≡ is_some (held_at key.now self.now.entries) }
        ensures valid { IsPool self.now }
    {
        self.cache.contains(key)
    }

    /// Lends the block of the key, and makes its entry the most recently used. `None` exactly where
    /// the key isn't held.
    pub fn find(&mut self, key: &BlockKey) -> Option<&Block>
        ensures* promotes { sem 𝓛 (ends_as self.entry (moved_to_front key.now self.old.entries)) }
        ensures block { option_copied result ≡ option_map (λ e. e.block) (held_at key.now self.old.entries) }
        ensures valid { IsPool self.old }
    {
        match self.cache.get(key) {
            Some(entry) => Some(&entry.block),
            None => None,
        }
    }

    /// Takes the block of a key. A held key gets it and `dirty` and becomes the most recently used;
    /// nothing is dropped and no memory taken then. A new key goes to the front; a full pool drops
    /// the entry that was used longest ago, which is the answer. Where memory is refused, the block
    /// is handed back and the pool is as before.
    pub fn admit(
        &mut self,
        key: BlockKey,
        block: Block,
        dirty: bool,
    ) -> Result<Option<Evicted>, (Block, AllocError)>
        ensures entries { OnOk result (self.new ≡ pool_view (admitted self.old.capacity key (entry_of block dirty)
            self.old.entries) self.old.capacity) }
        ensures dropped { IfOk result (λ evicted. option_map entry_dropped evicted ≡ dropped self.old.capacity key
            self.old.entries) }
        ensures held { IsSome (held_at key self.old.entries) → IsOk result }
        ensures refused { OnErr result (self.new ≡ self.old) }
        ensures handed_back { IfErr result (λ e. e.0 ≡ block) }
        ensures valid { IsPool self.new }
    {
        let held = self.cache.contains(&key);
        let replaced = match self.cache.push(key, Entry { block, dirty }) {
            Ok(replaced) => replaced,
            Err(failed) => {
                let AllocFailed { value } = failed;
                return Err((value.1.block, AllocError));
            }
        };
        if held {
            drop(replaced);
            return Ok(None);
        }
        match replaced {
            Some((key, last)) => {
                let Entry { block, dirty } = last;
                return Ok(Some(Evicted { key, block, dirty }));
            }
            None => return Ok(None),
        }
    }

    /// Puts samples, which are in the range of the block's type, into a held block at the places
    /// from `at` on. The entry becomes dirty and the most recently used. `false` exactly where the
    /// key isn't held, and nothing changes then.
    pub fn patch(&mut self, key: &BlockKey, at: u32, samples: &[Sample]) -> bool
        requires within { IfSome (held_at key.now self.old.entries) (λ e. at + length samples.now
            ≤ length e.block.samples) }
        requires range { IfSome (held_at key.now self.old.entries) (λ e. AreIn e.block.kind samples.now) }
        ensures held { result ≡ is_some (held_at key.now self.old.entries) }
        ensures absent { held_at key.now self.old.entries ≡ None → self.new ≡ self.old }
        ensures patched { IfSome (held_at key.now self.old.entries) (λ e.
            self.new ≡ pool_view (patched key.now (patched_block at samples.now e.block) self.old.entries)
            self.old.capacity) }
        ensures valid { IsPool self.new }
    {
        match self.cache.get_mut(key) {
            Some(entry) => {
                entry.block.write_run(at, samples);
                entry.dirty = true;
                return true;
            }
            None => return false,
        }
    }

    /// Puts samples, which are in the range of the block's type, into a held block at places that stand
    /// `stride` apart, the first of them at `at`. The entry becomes dirty and the most recently used. `false`
    /// exactly where the key isn't held, and nothing changes then.
    pub fn patch_spread(&mut self, key: &BlockKey, at: u32, stride: u32, samples: &[Sample]) -> bool
        requires some { 0 < stride }
        requires within { IfSome (held_at key.now self.old.entries) (λ e. (i : ℕ) → i < length samples.now →
            at + i * stride < length e.block.samples) }
        requires range { IfSome (held_at key.now self.old.entries) (λ e. AreIn e.block.kind samples.now) }
        ensures held { result ≡ is_some (held_at key.now self.old.entries) }
        ensures absent { held_at key.now self.old.entries ≡ None → self.new ≡ self.old }
        ensures patched { IfSome (held_at key.now self.old.entries) (λ e.
            IsSpreadInto key.now at stride samples.now e self.old self.new) }
        ensures valid { IsPool self.new }
    {
        let Some(entry) = self.cache.get_mut(key) else {
            return false;
        };
        entry.block.write_spread(at, stride, samples);
        entry.dirty = true;
        true
    }

    /// Takes entries out, from the one that was used longest ago on, until a dirty one is out, which
    /// is the answer. `None` exactly where no entry was dirty; the pool is then empty.
    pub fn take_dirty(&mut self) -> Option<(BlockKey, Block)>
        ensures taken { result ≡ option_map (λ t. (t.key, t.block)) (last_dirty self.old.entries) }
        ensures left { self.new ≡ pool_view (left_by (last_dirty self.old.entries)) self.old.capacity }
        ensures valid { IsPool self.new }
    {
        while let Some((key, entry)) = self.cache.pop_lru() {
            let Entry { block, dirty } = entry;
            if dirty {
                return Some((key, block));
            }
            drop(block);
        }
        None
    }
}
