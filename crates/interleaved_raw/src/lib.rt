// Samples of raw rasters, interleaved by line, by sample or by band.
#![tactic(auto)]

pub mod laws;
pub mod sample_places;
pub mod samples;

pub use esri_hdr::sample_len;
pub use sample_places::{needed_len, position, stride};
pub use samples::{decode_run, decode_sample, encode_run};
