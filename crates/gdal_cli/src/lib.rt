// The commands: what they print and publish, and the run of the program.
#![tactic(auto)]

mod asked;
mod faults;
mod input;
mod jobs;
mod laws;
mod mosaics;
mod point_pixels;
mod points;
mod reader;
mod running;
mod translating;
mod values;

pub use command_words::{BandNumbers, BlockCount, Command, Job, WordFault, read_words};
pub use error_lines::{Fault, Outcome, tell};
pub use geotransform::BandNumber;
pub use lane_teams::WorkerCount;
pub use laws::{blocks_change_nothing, workers_change_nothing};
pub use running::run;
