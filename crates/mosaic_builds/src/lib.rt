// Mosaics made of inputs: the list of their names, their walks, what they are built to, and how that is published.
#![tactic(auto)]

mod empty_lines;
mod list;
mod making;
mod mosaic;
mod putting;
mod walks;

pub use making::{Building, Made, make};
pub use mosaic::mosaic_of_walked;
pub use putting::put_mosaic;
pub use walks::walk_all;
