// Numbers and other values that keep the ranges of words.
ghost use Rattle.std.specs.Prelude.{◌≡◌, ◌≤◌, ◌&&◌, nat_le, if◌then◌else◌, Some, None};
ghost use Rattle.translate_plan.specs.Options.{IsView, IsOutSize};
ghost use Rattle.catalog.specs.Nodata.{IsNodataWord};
ghost use Rattle.buildvrt.specs.Options.{IsResolution, IsExtent};
ghost use Rattle.band_blocks.specs.Blocks.{most_blocks};

use buildvrt::{Extent, Resolution};
use catalog::NodataWord;
use std::marker::Model;
use translate_plan::{OutSize, View};

/// How many blocks are held at once, from 1 to 65,536.
#[derive(Clone, Copy)]
pub struct BlockCount {
    number: u32,
}

impl Model for BlockCount {
    ghost use Rattle.std.specs.Prelude.{ℕ, ◌≤◌};
    ghost use Rattle.band_blocks.specs.Blocks.{most_blocks};

    ghost Value = { ℕ };

    ghost view = { λ b. b.number };

    ghost invariant = { λ b. (1 ≤ b.number) × (b.number ≤ most_blocks) };

    ghost inverse = { λ n. record { number = n } };
}

impl BlockCount {
    /// The most that are held.
    const MOST: u32 = 65_536;

    /// As many as are held where nothing is said.
    pub const USUAL: BlockCount = BlockCount { number: 64 };

    /// The number where it is from 1 to 65,536, else none.
    pub fn new(number: u32) -> Option<BlockCount>
        ensures exact { result ≡ (if nat_le 1 number && nat_le number most_blocks then Some number else None) }
    {
        if number >= 1 && number <= Self::MOST {
            Some(BlockCount { number })
        } else {
            None
        }
    }

    /// The number.
    pub fn get(self) -> u32
        ensures value { result ≡ self }
        ensures some { 1 ≤ result }
        ensures few { result ≤ most_blocks }
    {
        self.number
    }
}

/// A window with numbers as words give them.
#[derive(Clone, Copy)]
pub struct AskedView {
    view: View,
}

impl Model for AskedView {
    ghost use Rattle.translate_plan.specs.declared.options.View.{View};
    ghost use Rattle.translate_plan.specs.Options.{IsView};

    ghost Value = { View };

    ghost view = { λ v. v.view };

    ghost invariant = { λ v. IsView v.view };

    ghost inverse = { λ v. record { view = v } };
}

impl AskedView {
    /// This window.
    pub fn of(view: View) -> AskedView
        requires { IsView view }
        ensures { result ≡ view }
    {
        AskedView { view }
    }

    /// What was asked for.
    pub fn get(self) -> View
        ensures value { result ≡ self }
        ensures kept { IsView result }
    {
        self.view
    }
}

/// A side of an output, with a number as words give it.
#[derive(Clone, Copy)]
pub struct Side {
    size: OutSize,
}

impl Model for Side {
    ghost use Rattle.translate_plan.specs.declared.options.OutSize.{OutSize};
    ghost use Rattle.translate_plan.specs.Options.{IsOutSize};

    ghost Value = { OutSize };

    ghost view = { λ v. v.size };

    ghost invariant = { λ v. IsOutSize v.size };

    ghost inverse = { λ v. record { size = v } };
}

impl Side {
    /// This side.
    pub fn of(size: OutSize) -> Side
        requires { IsOutSize size }
        ensures { result ≡ size }
    {
        Side { size }
    }

    /// What was asked for.
    pub fn get(self) -> OutSize
        ensures value { result ≡ self }
        ensures kept { IsOutSize result }
    {
        self.size
    }
}

/// A NODATA that is asked for, where it is a number one of 64 bits.
#[derive(Clone, Copy)]
pub struct AskedNodata {
    word: NodataWord,
}

impl Model for AskedNodata {
    ghost use Rattle.catalog.specs.declared.nodata.NodataWord.{NodataWord};
    ghost use Rattle.catalog.specs.Nodata.{IsNodataWord};

    ghost Value = { NodataWord };

    ghost view = { λ v. v.word };

    ghost invariant = { λ v. IsNodataWord v.word };

    ghost inverse = { λ v. record { word = v } };
}

impl AskedNodata {
    /// This NODATA.
    pub fn of(word: NodataWord) -> AskedNodata
        requires { IsNodataWord word }
        ensures { result ≡ word }
    {
        AskedNodata { word }
    }

    /// What was asked for.
    pub fn get(self) -> NodataWord
        ensures value { result ≡ self }
        ensures kept { IsNodataWord result }
    {
        self.word
    }
}

/// A resolution with sizes as words give them.
#[derive(Clone, Copy)]
pub struct AskedResolution {
    resolution: Resolution,
}

impl Model for AskedResolution {
    ghost use Rattle.buildvrt.specs.declared.options.Resolution.{Resolution};
    ghost use Rattle.buildvrt.specs.Options.{IsResolution};

    ghost Value = { Resolution };

    ghost view = { λ v. v.resolution };

    ghost invariant = { λ v. IsResolution v.resolution };

    ghost inverse = { λ v. record { resolution = v } };
}

impl AskedResolution {
    /// This resolution.
    pub fn of(resolution: Resolution) -> AskedResolution
        requires { IsResolution resolution }
        ensures { result ≡ resolution }
    {
        AskedResolution { resolution }
    }

    /// What was asked for.
    pub fn get(self) -> Resolution
        ensures value { result ≡ self }
        ensures kept { IsResolution result }
    {
        self.resolution
    }
}

/// An extent with places as words give them.
#[derive(Clone, Copy)]
pub struct AskedExtent {
    extent: Extent,
}

impl Model for AskedExtent {
    ghost use Rattle.buildvrt.specs.declared.options.Extent.{Extent};
    ghost use Rattle.buildvrt.specs.Options.{IsExtent};

    ghost Value = { Extent };

    ghost view = { λ v. v.extent };

    ghost invariant = { λ v. IsExtent v.extent };

    ghost inverse = { λ v. record { extent = v } };
}

impl AskedExtent {
    /// This extent.
    pub fn of(extent: Extent) -> AskedExtent
        requires { IsExtent extent }
        ensures { result ≡ extent }
    {
        AskedExtent { extent }
    }

    /// What was asked for.
    pub fn get(self) -> Extent
        ensures value { result ≡ self }
        ensures kept { IsExtent result }
    {
        self.extent
    }
}
