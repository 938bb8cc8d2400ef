// The parts of a source that are numbers: rectangles and lookup tables.
ghost use Rattle.std.specs.Prelude.{◌≡◌, List, [], ◌∷◌};
ghost use Rattle.vrt_profile.specs.Values.{IsLut};

use lists_and_answers::Items;
use std::marker::Model;
use std::slice;

/// A rectangle in millionths of a pixel. Its offsets are from -8,388,608 to 8,388,608 pixels, its
/// sizes above 0 and at most 8,388,608 pixels.
#[derive(Clone, Copy, PartialEq, Eq, Debug)]
pub struct MicroRect {
    pub x: i64,
    pub y: i64,
    pub w: i64,
    pub h: i64,
}

impl Model for MicroRect {
    ghost use Rattle.vrt_profile.specs.Values.{Rectangle, IsRectangle};

    ghost Value = { Rectangle };

    ghost view = { λ r. record { x = r.x; y = r.y; w = r.w; h = r.h } };

    ghost invariant = { λ r. IsRectangle (record { x = r.x; y = r.y; w = r.w; h = r.h }) };

    ghost inverse = { λ r. record { x = r.x; y = r.y; w = r.w; h = r.h } };
}

/// A pair of a lookup table, in millionths.
#[derive(Clone, Copy, PartialEq, Eq, Debug)]
pub struct LutPair {
    pub input: i64,
    pub output: i64,
}

/// Where a table's pairs stand: one in the value itself, more of them apart.
#[derive(Drop)]
enum Pairs {
    One(LutPair),
    Many(Items<LutPair>),
}

/// A lookup table: 1 to 65,536 pairs whose inputs rise strictly, each number below 5,000,000,000 in
/// magnitude.
#[derive(Drop)]
pub struct Lut {
    held: Pairs,
}

impl Model for Lut {
    ghost use Rattle.std.specs.Prelude.{List};
    ghost use Rattle.vrt_profile.specs.Values.{IsLut};
    ghost use Rattle.vrt_profile.specs.PairViews.{pairs_in};
    ghost use Rattle.vrt_profile.specs.declared.rectangle.LutPair.{LutPair};

    ghost Value = { List LutPair };

    ghost view = { λ t. pairs_in t.held };

    ghost invariant = { λ t. IsLut (pairs_in t.held) };
}

impl Lut {
    /// The table of these pairs.
    pub fn of(pairs: Items<LutPair>) -> Lut
        requires rules { IsLut pairs }
        ensures pairs { result ≡ pairs }
    {
        Lut {
            held: Pairs::Many(pairs),
        }
    }

    // The table of this pair alone, which takes no memory.
    pub(crate) fn one(pair: LutPair) -> Lut
        requires rules { IsLut (pair ∷ []) }
        ensures pairs { result ≡ pair ∷ [] }
    {
        Lut {
            held: Pairs::One(pair),
        }
    }

    /// Lends its pairs, in order.
    pub fn pairs(&self) -> &[LutPair]
        ensures pairs { result.now ≡ self.now }
        ensures rules { IsLut self.now }
    {
        match &self.held {
            Pairs::One(pair) => slice::from_ref(pair),
            Pairs::Many(pairs) => pairs.as_slice(),
        }
    }
}
