// Mosaics from the heads of datasets.
#![tactic(auto)]

mod bands;
mod build;
mod faults;
mod grid;
mod judging;
mod laws;
mod options;
mod patch;
mod tile;

pub use build::{mosaic, mosaic_of_inputs};
pub use faults::{BuildFault, Reason, SkipList, Skipped};
pub use laws::{
    aligned_inputs_keep_their_pixels, each_band_is_made, each_input_is_judged,
    least_and_greatest_are_bounds,
};
pub use options::{BuildOptions, Extent, Numbers, Resolution};
pub use tile::Input;
