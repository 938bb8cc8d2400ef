// Samples of pixels of mosaics, which were made by themselves.
ghost use Rattle.std.specs.Prelude.{◌≡◌, ◌⊎◌, ℤ, [], IfOk, IfSome, OnErr, List, Contains};
ghost use Rattle.band_blocks.specs.declared.key.PixelKey.{PixelKey};

use band_blocks::PixelKey;
use geotransform::Sample;
use lru::LruCache;
use std::alloc::{AllocError, Global};
use std::marker::Model;
use std::num::NonZeroUsize;

// At most so many are remembered.
const MOST: usize = 16_384;

/// Samples of pixels by their keys. Past 16,384 the one that was put in longest ago goes.
#[derive(Drop)]
pub struct Recalled {
    cache: LruCache<PixelKey, Sample>,
}

impl Model for Recalled {
    ghost use Rattle.std.specs.Prelude.{ℤ, List};
    ghost use Rattle.band_blocks.specs.declared.key.PixelKey.{PixelKey};

    ghost Value = { List (PixelKey × ℤ) };

    ghost view = { λ r. r.cache.entries };
}

impl Recalled {
    /// None is remembered.
    pub fn new(alloc: Global) -> Result<Recalled, AllocError>
        ensures empty { IfOk result (λ r. r ≡ []) }
    {
        let most = NonZeroUsize::new(MOST).unwrap();
        let cache = LruCache::new(alloc, most)?;
        Ok(Recalled { cache })
    }

    /// The sample of a pixel, if it is remembered.
    pub fn find(&self, key: PixelKey) -> Option<Sample>
        ensures found { IfSome result (λ sample. Contains self.now (key, sample)) }
    {
        match self.cache.peek(&key) {
            Some(sample) => Some(*sample),
            None => None,
        }
    }

    /// Remembers the sample of a pixel. It is refused where memory is.
    pub fn put(&mut self, key: PixelKey, sample: Sample) -> Result<(), AllocError>
        ensures kept { (k : PixelKey) → (v : ℤ) → Contains self.new (k, v) →
            Contains self.old (k, v) ⊎ ((k ≡ key) × (v ≡ sample)) }
        ensures refused { OnErr result (self.new ≡ self.old) }
    {
        self.cache.put(key, sample)?;
        Ok(())
    }
}
