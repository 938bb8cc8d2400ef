// What the head of a file says of its samples.
use ascii_grid::GridHead;
use dted_records::DtedHead;
use esri_hdr::RawHead;
use vrt_profile::Document;

/// The head of a file that isn't a mosaic, from which its samples are read.
#[derive(Drop)]
pub enum DriverHead {
    /// The header beside raw data.
    Raw(RawHead),
    /// The head of a DTED cell.
    Dted(DtedHead),
    /// An SRTM tile of so many columns, and lines.
    Hgt { side: u32 },
    /// The head of an ASCII grid, with the place of each of its rows.
    Ascii(GridHead),
}

// What a dataset is made of: the samples of a file, or the sources of a mosaic.
#[derive(Drop)]
pub enum Content {
    File(DriverHead),
    Mosaic(Document),
}

// What is found in the files of a dataset: its content, and the length in bytes of the file that has
// its name.
#[derive(Drop)]
pub struct Found {
    pub content: Content,
    pub length: u64,
}
