// Windows of pixels of files and mosaics, through a pool that evicts.
#![tactic(auto)]

mod asking;
mod block_parts;
mod canvas;
mod indexes;
mod indexing;
mod lane;
mod lane_reading;
mod laws;
mod members;
mod merging;
mod missed;
mod paint;
mod picture;
mod picture_places;
mod recalled;
mod sharing;
mod taking;
mod wanted;
mod window;

pub use lane::Lane;
pub use laws::right_lanes_stay;
pub use sharing::Supply;
pub use window::Window;
