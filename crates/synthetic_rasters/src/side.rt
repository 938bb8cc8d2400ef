// The side of a tile.
ghost use Rattle.std.specs.Prelude.{◌≡◌, ◌&&◌, Some, None, nat_le, if◌then◌else◌};
ghost use Rattle.synthetic_rasters.specs.Tiles.{IsSide, most_tile_side};

use std::marker::Model;

/// The side of a tile in pixels, from 1 to 4,096.
#[derive(Clone, Copy)]
pub struct TileSide {
    number: u32,
}

impl Model for TileSide {
    ghost use Rattle.std.specs.Prelude.{ℕ};
    ghost use Rattle.synthetic_rasters.specs.Tiles.{IsSide};

    ghost Value = { ℕ };

    ghost view = { λ s. s.number };

    ghost invariant = { λ s. IsSide s.number };

    ghost inverse = { λ n. record { number = n } };
}

impl TileSide {
    /// The longest side.
    const MOST: u32 = 4096;

    /// The number where it is from 1 to 4,096, else none.
    pub fn new(number: u32) -> Option<TileSide>
        ensures exact { result ≡ (if nat_le 1 number && nat_le number most_tile_side then Some number else None) }
    {
        if number >= 1 && number <= Self::MOST {
            Some(TileSide { number })
        } else {
            None
        }
    }

    /// The number.
    pub fn get(self) -> u32
        ensures value { result ≡ self }
        ensures rules { IsSide result }
    {
        self.number
    }
}
