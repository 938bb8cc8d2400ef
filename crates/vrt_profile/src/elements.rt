// The elements of a document by their names.
ghost use Rattle.std.specs.Prelude.{◌≡◌};
ghost use Rattle.vrt_profile.specs.Means.{is_remark, is_picture, is_past, dataset_part_of, band_part_of, scaling_of};
ghost use Rattle.vrt_profile.specs.Means.{scaling_part, source_part_of};

use vrt_markup::is_equal;

/// What an element in a VRTDataset is.
#[derive(Clone, Copy, Debug, PartialEq, Eq)]
pub enum DatasetPart {
    Srs,
    Geo,
    Band,
    Past,
    Unknown,
}

/// What an element in a VRTRasterBand is.
#[derive(Clone, Copy, Debug, PartialEq, Eq)]
pub enum BandPart {
    NoData,
    Simple,
    Complex,
    Past,
    Unknown,
}

/// An element in a source whose text is a number, or a list of them.
#[derive(Clone, Copy, Debug, PartialEq, Eq)]
pub enum NumberPart {
    Band,
    NoData,
    Offset,
    Ratio,
    Lut,
}

/// What an element in a source is.
#[derive(Clone, Copy, Debug, PartialEq, Eq)]
pub enum SourcePart {
    File,
    Src,
    Dst,
    Number(NumberPart),
    Past,
    Unknown,
}

// Whether an element of this name says something of a dataset's or a band's values.
fn is_remark(name: &[u8]) -> bool
    ensures remark { result ≡ is_remark name.now }
{
    is_equal(name, b"Metadata")
        || is_equal(name, b"Description")
        || is_equal(name, b"UnitType")
        || is_equal(name, b"Offset")
        || is_equal(name, b"Scale")
}

// Whether an element of this name says how a band is shown.
fn is_picture(name: &[u8]) -> bool
    ensures picture { result ≡ is_picture name.now }
{
    is_equal(name, b"ColorInterp")
        || is_equal(name, b"ColorTable")
        || is_equal(name, b"CategoryNames")
        || is_equal(name, b"Histograms")
        || is_equal(name, b"OverviewList")
}

// Whether an element of this name is read past in a dataset and a band.
fn is_past(name: &[u8]) -> bool
    ensures past { result ≡ is_past name.now }
{
    is_remark(name) || is_picture(name)
}

/// The part of a dataset that has this name.
pub fn dataset_part_of(name: &[u8]) -> DatasetPart
    ensures part { result ≡ dataset_part_of name.now }
{
    if is_equal(name, b"SRS") {
        DatasetPart::Srs
    } else if is_equal(name, b"GeoTransform") {
        DatasetPart::Geo
    } else if is_equal(name, b"VRTRasterBand") {
        DatasetPart::Band
    } else if is_past(name) {
        DatasetPart::Past
    } else {
        DatasetPart::Unknown
    }
}

/// The part of a band that has this name.
pub fn band_part_of(name: &[u8]) -> BandPart
    ensures part { result ≡ band_part_of name.now }
{
    if is_equal(name, b"NoDataValue") {
        BandPart::NoData
    } else if is_equal(name, b"SimpleSource") {
        BandPart::Simple
    } else if is_equal(name, b"ComplexSource") {
        BandPart::Complex
    } else if is_past(name) {
        BandPart::Past
    } else {
        BandPart::Unknown
    }
}

// The element of this name, where it changes pixels.
fn scaling_of(name: &[u8]) -> Option<NumberPart>
    ensures part { result ≡ scaling_of name.now }
{
    if is_equal(name, b"NODATA") {
        Some(NumberPart::NoData)
    } else if is_equal(name, b"ScaleOffset") {
        Some(NumberPart::Offset)
    } else if is_equal(name, b"ScaleRatio") {
        Some(NumberPart::Ratio)
    } else if is_equal(name, b"LUT") {
        Some(NumberPart::Lut)
    } else {
        None
    }
}

// A part that changes pixels is read past in a SimpleSource.
fn scaling_part(complex: bool, part: Option<NumberPart>) -> SourcePart
    ensures part { result ≡ scaling_part complex part }
{
    match part {
        Some(part) if complex => SourcePart::Number(part),
        Some(_) => SourcePart::Past,
        None => SourcePart::Unknown,
    }
}

/// The part of a source that has this name.
pub fn source_part_of(complex: bool, name: &[u8]) -> SourcePart
    ensures part { result ≡ source_part_of complex name.now }
{
    if is_equal(name, b"SourceFilename") {
        SourcePart::File
    } else if is_equal(name, b"SourceBand") {
        SourcePart::Number(NumberPart::Band)
    } else if is_equal(name, b"SourceProperties") {
        SourcePart::Past
    } else if is_equal(name, b"SrcRect") {
        SourcePart::Src
    } else if is_equal(name, b"DstRect") {
        SourcePart::Dst
    } else {
        scaling_part(complex, scaling_of(name))
    }
}
