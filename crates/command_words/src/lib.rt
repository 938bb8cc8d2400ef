// The words of a command line, and the commands that they are.
#![tactic(auto)]

mod command;
mod jobs;
mod numbers;
mod options;
mod said;
mod spoken;
mod uses;
mod values;
mod words;

pub use command::{BandNumbers, Command, Job};
pub use numbers::BlockCount;
pub use spoken::WordFault;
pub use words::read_words;
