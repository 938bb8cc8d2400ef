// The points of an input, one on a line.
#![tactic(auto)]

pub mod entry;
pub mod laws;
pub mod position;
pub mod reading;
mod words;

pub use entry::{Entry, LineKind};
pub use laws::entries_of;
pub use position::Position;
pub use reading::{MOST_LINES, PointLines};
