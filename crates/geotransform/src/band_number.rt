// The numbers of bands.
ghost use Rattle.std.specs.Prelude.{◌≡◌, ◌≤◌, ◌&&◌, nat_le, if◌then◌else◌, Some, None};
ghost use Rattle.geotransform.specs.Limits.{most_bands};

use crate::limits::MOST_BANDS;
use std::marker::Model;

/// The number of a band, from 1 to 256.
#[derive(Clone, Copy)]
pub struct BandNumber {
    number: u32,
}

impl Model for BandNumber {
    ghost use Rattle.std.specs.Prelude.{ℕ, ◌≤◌};
    ghost use Rattle.geotransform.specs.Limits.{most_bands};

    ghost Value = { ℕ };

    ghost view = { λ b. b.number };

    ghost invariant = { λ b. (1 ≤ b.number) × (b.number ≤ most_bands) };

    ghost inverse = { λ n. record { number = n } };
}

impl BandNumber {
    /// The number where it is from 1 to 256, else none.
    pub fn new(number: u32) -> Option<BandNumber>
        ensures exact { result ≡ (if nat_le 1 number && nat_le number most_bands then Some number else None) }
    {
        if number >= 1 && number <= MOST_BANDS {
            Some(BandNumber { number })
        } else {
            None
        }
    }

    /// This number.
    pub fn of(number: u32) -> BandNumber
        requires first { 1 ≤ number }
        requires last { number ≤ most_bands }
        ensures value { result ≡ number }
    {
        BandNumber { number }
    }

    /// The number, from 1.
    pub fn get(self) -> u32
        ensures value { result ≡ self }
        ensures first { 1 ≤ result }
        ensures last { result ≤ most_bands }
    {
        self.number
    }
}
