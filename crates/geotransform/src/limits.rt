// The limits of all rasters and numbers, whatever their format.

/// The most columns of a raster, and the most lines.
pub const MOST_SIDE: u32 = 4_194_304;

/// The most bands of a raster.
pub const MOST_BANDS: u32 = 256;

/// The greatest offset of a rectangle in pixels, to either side.
pub const FARTHEST: u32 = 8_388_608;

/// The most bytes of a decimal text.
pub const LONGEST_DECIMAL: usize = 64;

/// The most digits of a plain number.
pub const MOST_DIGITS: usize = 18;

/// The most digits of a short one.
pub const MOST_SHORT_DIGITS: usize = 9;

/// Ten to the 18th, which no plain number reaches.
pub const NUMBER_LIMIT: u64 = 1_000_000_000_000_000_000;

/// Ten to the 28th: a trillion units in sixteenth places.
pub const SIXTEENTH_LIMIT: u128 = 10_000_000_000_000_000_000_000_000_000;

/// Ten to the 20th, which no whole number that is read reaches.
pub const WHOLE_LIMIT: u128 = 100_000_000_000_000_000_000;

/// 10^12 units in ticks, below which places and sizes of pixels stay.
pub const TICK_LIMIT: u128 = 180_000_000_000_000_000_000_000_000_000;
