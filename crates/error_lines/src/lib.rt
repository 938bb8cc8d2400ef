// The faults of a run: where they come from, how they end it, and the line that tells each. Warnings, which end
// nothing. The texts that tell how far a run is.
#![tactic(auto)]

mod faults;
mod progress;
mod telling;
mod texts;
mod warnings;

pub use faults::{Fault, Outcome};
pub use progress::{progress_end_text, progress_text};
pub use telling::tell;
pub use texts::put_fault;
pub use warnings::put_warning;
