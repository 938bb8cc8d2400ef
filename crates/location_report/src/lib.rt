// The report of a place in a raster.
#![tactic(auto)]

pub mod covering;
mod files;
mod report;
mod values;

pub use covering::{files_at, push_covering};
pub use report::{Form, Question, push_location, write_location};
