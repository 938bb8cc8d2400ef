// The outside of the program: files by name, an input, and sinks.
#![tactic(auto)]

mod calm_sink;
mod counter;
mod counting;
mod disk;
mod folder;
mod history;
mod memory;
mod memory_input;
mod memory_sink;
mod memory_streams;
mod name;
mod path;
mod schedule;
mod standard;
mod streams;
mod system;
mod text;

pub use counter::Counter;
pub use counting::CountingFolder;
pub use disk::{DiskDraft, DiskFile, DiskFolder};
pub use folder::{Failed, Folder, OpenFault, WriteFault};
pub use memory::{CalmFolder, MemDraft, MemFile, MemFolder, MemoryFolder};
pub use memory_streams::{CalmInput, CalmSink, MemInput, MemSink, MemoryInput};
pub use name::{Ext, LONGEST_NAME, Name, NameFault, Names};
pub use schedule::{Failing, Listed, Made, Method, Never, Schedule};
pub use standard::{StdInput, StdSink};
pub use streams::{Input, Sink, put_all};
pub use system::{fill_at, put_at};
pub use text::Text;
