// Folders of tests, over those of `outside`.
#![tactic(auto)]

mod documents;
mod gate;

pub use documents::TWO_TILES;
pub use gate::Gate;
