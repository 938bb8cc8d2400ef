// Ticks, decimal texts, types of samples and geotransforms.
#![tactic(auto)]

mod band_number;
pub mod decimal;
mod decimal_parts;
mod faults;
mod geo;
mod limits;
mod powers;
pub mod print;
mod rounding;
mod sizes;
pub mod types;
mod units;
mod whole_degrees;

pub use band_number::BandNumber;
pub use decimal::{
    is_decimal, is_negative_decimal, read_decimal, read_number, read_places, read_whole,
};
pub use faults::{PlanFault, Unfit};
pub use geo::{GeoTransform, corner_is_located};
pub use limits::{FARTHEST, LONGEST_DECIMAL, MOST_BANDS, MOST_SHORT_DIGITS, MOST_SIDE, TICK_LIMIT};
pub use print::{print_decimal, print_short, short_reads_back};
pub use rounding::{floor_is_exact, floor_of, half, half_is_nearest, is_near, round16, rounded_up};
pub use sizes::{is_north_up, sizes_held};
pub use types::{PixelType, Rect, Sample, Size, clamp, holds, name_reads_back, when_in};
pub use units::Ticks;
pub use whole_degrees::{
    degree_near, degrees, is_at_degree, lat_of, lon_of, twice_centre, twice_south,
};
