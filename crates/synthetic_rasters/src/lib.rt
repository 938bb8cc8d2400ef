// Rasters that a formula gives: tiles, the mosaic over them, and what is told of their samples.
#![tactic(auto)]

mod names;
mod outer;
mod side;
mod tally;
mod tiles;

pub use names::{inner_name, outer_name, output_name, tile_name, tile_names};
pub use outer::outer_document;
pub use side::TileSide;
pub use tally::{Tally, tally_text};
pub use tiles::{TileLine, tile_head};
