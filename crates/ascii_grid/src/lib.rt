// Arc/Info ASCII grids, read in pieces and written.
#![tactic(auto)]

pub mod faults;
pub mod head;
mod head_parts;
mod keys;
pub mod laws;
mod open;
mod pairs;
mod placing;
pub mod row;
pub mod scanner;
pub mod starts;
mod steps;
mod tokens;
mod values;
pub mod writing;

pub use faults::GridFault;
pub use head::GridHead;
pub use laws::{
    line_has_values, row_ends_before_next, row_is_of_the_band, row_is_of_the_file, rows_rise,
    written_reads_back,
};
pub use row::{RowState, decode_more};
pub use scanner::Scanner;
pub use starts::Starts;
pub use writing::{write_head, write_row};
