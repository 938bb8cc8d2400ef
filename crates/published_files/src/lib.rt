// What a run publishes: names that no dataset which was read stands under, and whole documents.
#![tactic(auto)]

mod names;
mod publishing;

pub use names::unless_own;
pub use publishing::{publish_document, write_fault};
