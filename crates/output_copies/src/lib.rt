// Outputs of translations: copied strip by strip from a team of lanes into a target, or made as a document, and
// published.
#![tactic(auto)]

mod ahead;
mod band_lines;
mod calls;
mod copying;
mod documents;
mod handing;
mod making;
mod output;
mod packed;
mod packed_output;
mod pieces;
mod portion;
mod progress;
mod publishing;
mod records;
mod rounds;
mod texts;
mod worker;
mod writing;

pub use output::write_output;
pub use writing::Writing;
