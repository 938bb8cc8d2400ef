// The sources of a mosaic's bands: which pixel of its dataset a source takes, and what it makes of it.
#![tactic(auto)]

pub mod axis;
pub mod covering;
mod cuts;
pub mod laws;
mod lists;
mod lookup;
pub mod pixel;
mod products;
mod row_list;
mod rows;
pub mod run;
mod spans;
mod stretches;

pub use axis::Axis;
pub use covering::{columns, cover, lines, misses};
pub use laws::{
    columns_rise, covers_lines, last_counts, lists_rise, samples_are_pixels, unlisted_are_skipped,
    unlisted_give_none,
};
pub use lists::MOST_LISTED;
pub use pixel::{keeps_pixels, value};
pub use rows::RowIndex;
pub use run::Run;
