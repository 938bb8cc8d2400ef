// Teams of lanes, which read the parts of a window beside each other.
#![tactic(auto)]

mod beside;
mod cutting;
mod laws;
mod pair;
mod sharing;
mod single;
mod team;
mod turns;
mod workers;

pub use laws::one_refusal_is_first;
pub use sharing::lines_for;
pub use team::Team;
pub use workers::WorkerCount;
