// What is known of a dataset before its pixels are read, and the walk that finds datasets.
#![tactic(auto)]

mod catalog;
mod dataset;
mod driver;
mod dted;
mod faults;
mod files;
mod gathered;
mod grid;
mod head;
mod heads;
mod hgt;
mod kind;
mod laws;
mod links;
mod mosaic;
mod mosaic_head;
mod nodata;
mod own_files;
mod raw;
mod repeats;
mod walk;

pub use catalog::{Catalog, open_all};
pub use driver::DriverHead;
pub use faults::{Bad, LimitKind, WalkFault};
pub use grid::PIECE_LEN;
pub use head::Head;
pub use kind::{BandHead, Bands, Kind};
pub use links::MOST_SOURCES;
pub use mosaic_head::SQUARE_SIDE;
pub use nodata::NodataWord;
pub use own_files::head_of;
pub use walk::MOST_DATASETS;
