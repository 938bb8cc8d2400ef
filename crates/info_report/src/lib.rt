// The report of a dataset.
#![tactic(auto)]

mod bands;
mod dataset;
mod report;
mod transform_lines;

pub use report::{ReportFault, write_info};
