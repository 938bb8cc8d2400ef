// ESRI headers of raw rasters, read and written.
#![tactic(auto)]

mod centre;
pub mod head;
pub mod header_parts;
mod keys;
pub mod law;
mod lines;
mod plain;
pub mod reading;
mod values;
pub mod writing;

pub use head::{RawHead, sample_len};
pub use header_parts::{HdrFault, Layout, RawGeo};
pub use law::{halves_are_exact, held_places_fit, plain_heads_are_heads, written_reads_back};
pub use reading::{LONGEST_HEADER, read};
pub use writing::write;
