// Outputs that are written by windows: rasters block by block, through a pool of blocks that aren't written yet, and
// grids line by line.
#![tactic(auto)]

mod cells;
mod create;
mod drafts;
mod fault;
mod forms;
mod law;
mod packing;
mod passing;
mod pieces;
mod rows;
mod sheet;
mod slices;
mod store;
mod target;
mod tiles;
mod turned;
mod unwritten;
mod writer;

pub use fault::{CloseFault, TargetFault};
pub use law::{
    outputs_decode, outputs_have_sizes, outputs_hold_pixels, plain_heads_are_tight,
    windows_show_the_last,
};
pub use packing::Packing;
pub use target::Target;
