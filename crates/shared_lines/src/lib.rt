// Lines that lanes share: each has a block with its key, which many threads may look at, or one may replace.
#![tactic(auto)]

mod laws;
mod lines;
mod scene;
mod sizes;

pub use laws::lines_stay_right;
pub use lines::Lines;
pub use scene::Scene;
pub use sizes::zeros_for;
