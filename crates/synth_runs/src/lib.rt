// The run from a number: rasters, mosaics of them, a copy, and what is told of it.
#![tactic(auto)]

mod copying;
mod inner;
mod laws;
mod outer;
mod running;
mod strips;
mod telling;

pub use laws::numbers_are_never_refused;
pub use running::put_rasters;
