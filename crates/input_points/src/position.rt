// A number of a point.
ghost use Rattle.std.specs.Prelude.{◌≡◌};
ghost use Rattle.geotransform.specs.Decimal.{IsRead, ticks_of};

use geotransform::{Ticks, read_decimal};
use std::marker::Model;

/// A number as a decimal text gives it: a multiple of 18 ticks, below 10^12 units in magnitude.
#[derive(Clone, Copy, PartialEq, Eq)]
pub struct Position {
    ticks: Ticks,
}

impl Model for Position {
    ghost use Rattle.std.specs.Prelude.{ℤ};
    ghost use Rattle.geotransform.specs.Decimal.{IsRead};

    ghost Value = { ℤ };

    ghost view = { λ p. p.ticks };

    ghost invariant = { λ p. IsRead p.ticks };

    ghost inverse = { λ v. record { ticks = v } };
}

impl Position {
    /// The number that a text gives. None comes exactly where it is no decimal text, or one whose value reaches
    /// 10^12 units.
    pub fn read(text: &[u8]) -> Option<Position>
        ensures value { result ≡ ticks_of text.now }
    {
        match read_decimal(text) {
            Some(ticks) => Some(Position { ticks }),
            None => None,
        }
    }

    /// The number in ticks, of which 180,000,000,000,000,000 make a unit.
    pub fn get(self) -> Ticks
        ensures value { result ≡ self }
        ensures read { IsRead result }
    {
        self.ticks
    }
}
