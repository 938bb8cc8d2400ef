// The files of tiles, published one after another.
#![tactic(auto)]

mod drafts;
mod publishing;

pub use publishing::publish_tiles;
