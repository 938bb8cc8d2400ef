// What the head of a grid says, key by key.
ghost use Rattle.std.specs.Prelude.{◌≡◌, ◌<◌, ◌≤◌, ◌*◌, ◌^◌, ◌%◌, unsigned_abs, true};
ghost use Rattle.geotransform.specs.Decimal.{IsRead};
ghost use Rattle.ascii_grid.specs.Values.{is_value};
ghost use Rattle.geotransform.specs.Limits.{most_side, sixteenth_limit};

use geotransform::{GeoTransform, Sample, Ticks};
use std::marker::Model;

/// A key of the head.
#[derive(Clone, Copy)]
pub enum Key {
    Ncols,
    Nrows,
    Xllcorner,
    Xllcenter,
    Yllcorner,
    Yllcenter,
    Cellsize,
    Dx,
    Dy,
    Nodata,
}

/// A number of columns or rows, from 1 to 4,194,304.
#[derive(Clone, Copy)]
pub struct Side {
    count: u32,
}

impl Model for Side {
    ghost use Rattle.std.specs.Prelude.{◌<◌, ◌≤◌, ℕ};
    ghost use Rattle.geotransform.specs.Limits.{most_side};

    ghost Value = { ℕ };

    ghost view = { λ s. s.count };

    ghost invariant = { λ s. (0 < s.count) × (s.count ≤ most_side) };

    ghost inverse = { λ n. record { count = n } };
}

impl Side {
    pub fn new(count: u32) -> Side
        requires { (0 < count) × (count ≤ most_side) }
        ensures { result ≡ count }
    {
        Side { count }
    }

    pub fn get(self) -> u32
        ensures value { result ≡ self }
        ensures some { 0 < result }
        ensures bound { result ≤ most_side }
    {
        self.count
    }
}

/// A coordinate in ticks, as it is read from a decimal text.
#[derive(Clone, Copy)]
pub struct Coordinate {
    ticks: Ticks,
}

impl Model for Coordinate {
    ghost use Rattle.std.specs.Prelude.{ℤ};
    ghost use Rattle.geotransform.specs.Decimal.{IsRead};

    ghost Value = { ℤ };

    ghost view = { λ c. c.ticks };

    ghost invariant = { λ c. IsRead c.ticks };

    ghost inverse = { λ v. record { ticks = v } };
}

impl Coordinate {
    pub fn new(ticks: Ticks) -> Coordinate
        requires { IsRead ticks }
        ensures { result ≡ ticks }
    {
        Coordinate { ticks }
    }

    pub fn get(self) -> i128
        ensures value { result ≡ self }
        ensures bound { unsigned_abs result < 18 * sixteenth_limit }
    {
        self.ticks.get()
    }
}

/// A size of a pixel in ticks, above 0, as it is read from a decimal text.
#[derive(Clone, Copy)]
pub struct PixelSize {
    ticks: u128,
}

impl Model for PixelSize {
    ghost use Rattle.std.specs.Prelude.{◌<◌, ◌*◌, ℕ};
    ghost use Rattle.geotransform.specs.Limits.{sixteenth_limit};

    ghost Value = { ℕ };

    ghost view = { λ s. s.ticks };

    ghost invariant = { λ s. (0 < s.ticks) × (s.ticks < 18 * sixteenth_limit) };

    ghost inverse = { λ n. record { ticks = n } };
}

impl PixelSize {
    pub fn new(ticks: u128) -> PixelSize
        requires { (0 < ticks) × (ticks < 18 * sixteenth_limit) }
        ensures { result ≡ ticks }
    {
        PixelSize { ticks }
    }

    pub fn get(self) -> u128
        ensures value { result ≡ self }
        ensures some { 0 < result }
        ensures bound { result < 18 * sixteenth_limit }
    {
        self.ticks
    }
}

/// A number of the band, which is of Int32.
#[derive(Clone, Copy)]
pub struct Value {
    sample: Sample,
}

impl Model for Value {
    ghost use Rattle.std.specs.Prelude.{◌≡◌, ℤ, true};
    ghost use Rattle.ascii_grid.specs.Values.{is_value};

    ghost Value = { ℤ };

    ghost view = { λ v. v.sample };

    ghost invariant = { λ v. is_value v.sample ≡ true };

    ghost inverse = { λ n. record { sample = n } };
}

impl Value {
    pub fn new(sample: Sample) -> Value
        requires { is_value sample ≡ true }
        ensures { result ≡ sample }
    {
        Value { sample }
    }

    pub fn get(self) -> Sample
        ensures value { result ≡ self }
        ensures within { is_value result ≡ true }
    {
        self.sample
    }
}

/// A coordinate of the lower left pixel: of its left or lower edge, or of its centre.
#[derive(Clone, Copy)]
pub enum LowerLeft {
    Edge(Coordinate),
    Centre(Coordinate),
}

/// What the head has said so far.
#[derive(Clone, Copy)]
pub struct Found {
    pub ncols: Option<Side>,
    pub nrows: Option<Side>,
    pub x: Option<LowerLeft>,
    pub y: Option<LowerLeft>,
    pub cellsize: Option<PixelSize>,
    pub dx: Option<PixelSize>,
    pub dy: Option<PixelSize>,
    pub nodata: Option<Value>,
}

/// What the head says at its end.
#[derive(Clone, Copy)]
pub struct Shape {
    pub w: Side,
    pub h: Side,
    pub geo: GeoTransform,
    pub nodata: Option<Value>,
}

/// What the next token is: a key, the value of a key, or a value of the body, of which so many were
/// read, in this column.
#[derive(Clone, Copy)]
pub enum Stage {
    AtKey(Found),
    AtValue(Found, Key),
    InBody(Shape, u64, u32),
}
