// Lines of a translation's output, read by a team of lanes.
#![tactic(auto)]

mod columns;
mod direct;
mod height;
mod holding;
mod laws;
mod making;
mod pieces;
mod portions;
mod reading;
mod rows;
mod shares;
mod shown_places;
mod spans;
mod translation;

pub use columns::Columns;
pub use height::{shares_blocks, strip_height};
pub use laws::plans_are_translations;
pub use pieces::{Piece, read_piece};
pub use portions::{Form, Portions, portions_of};
pub use reading::{Lines, StripReader, read_lines};
pub use translation::Translation;
