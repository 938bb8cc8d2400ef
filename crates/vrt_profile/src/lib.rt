// VRT documents: what a tree of markup means, read and checked.
#![tactic(auto)]

mod band;
mod building;
mod dataset;
pub mod document;
mod elements;
mod fields;
mod fronts;
mod kept;
mod lookup;
mod numbers;
mod puts;
mod reader;
mod rect;
pub mod rectangle;
pub mod scaling;
mod source;
pub mod source_names;

pub use band::MOST_SOURCES;
pub use building::{BandList, SourceList, pixel_rect, plain_source, whole_rect};
pub use document::{Document, Source, Sources, VrtBand, VrtBands};
pub use reader::read;
pub use rectangle::{Lut, LutPair, MicroRect};
pub use scaling::{Scaling, ScalingParts};
pub use source_names::{relate, related_resolves, resolve, resolved_len};
pub use vrt_markup::VrtFault;
