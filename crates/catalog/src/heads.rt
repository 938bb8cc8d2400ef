// The heads of datasets, as their files say.
ghost use Rattle.std.specs.Prelude.{◌≡◌, [], ◌∷◌, Some, IfOk, IfErr, IsTrue, replicate};
ghost use Rattle.outside.specs.Names.{extension_of, is_raw, header_of};
ghost use Rattle.catalog.specs.Outcomes.{IsMemory};
ghost use Rattle.catalog.specs.Dataset.{IsDatasetHead};
ghost use Rattle.hgt_tiles.specs.Places.{IsSide};
ghost use Rattle.catalog.specs.Drivers.{raw_band, raw_dataset_head, dted_band, dted_dataset_head, hgt_band};
ghost use Rattle.catalog.specs.Drivers.{hgt_dataset_head, tile_place, ascii_band, ascii_dataset_head, head_told};
ghost use Rattle.catalog.specs.Drivers.{content_head, IsOfKind};
ghost use Rattle.catalog.specs.OwnFiles.{IsOfContent};

use crate::driver::Content;
use crate::mosaic_head::mosaic_head;
use crate::raw::header_name;
use crate::{BandHead, Bands, DriverHead, Head, Kind, WalkFault};
use ascii_grid::GridHead;
use dted_records::DtedHead;
use esri_hdr::RawHead;
use geotransform::{GeoTransform, PixelType, Sample, Size};
use hgt_tiles::{read_name, transform};
use lists_and_answers::Items;
use outside::{Name, Names};
use std::alloc::{AllocError, Global};

/// The NODATA of a cell: its null elevation.
const NULL_ELEVATION: Sample = -32_767;

/// The NODATA of a tile.
const VOID_SAMPLE: Sample = -32_768;

// A block of one line of so many columns.
fn one_line(w: u32) -> Size
    ensures { result ≡ record { w = w; h = 1 } }
{
    Size { w, h: 1 }
}

// A band of raw data.
fn raw_band(head: &RawHead) -> BandHead
    ensures { result ≡ raw_band head.now }
{
    BandHead {
        kind: head.kind,
        nodata: head.nodata,
        block: one_line(head.size.w),
    }
}

// The bands of raw data, which are alike.
#[tactic(auto, using(crate::proofs::Bands::one_more_band))]
fn raw_bands(alloc: Global, head: &RawHead) -> Result<Bands, AllocError>
    ensures { IfOk result (λ bands. bands ≡ replicate head.now.bands (raw_band head.now)) }
{
    let band = raw_band(head);
    let mut bands = Items::new(alloc);
    for _at in 0..head.bands {
        bands.push(band)?;
    }
    Ok(bands)
}

// The files of raw data: the data and their header.
fn raw_files(alloc: Global, name: &Name) -> Result<Names, WalkFault>
    requires raw { IsTrue (is_raw (extension_of name.now)) }
    ensures ok { IfOk result (λ files. files ≡ name.now ∷ header_of name.now ∷ []) }
    ensures err { IfErr result IsMemory }
{
    let mut files = Items::new(alloc);
    files.push(name.try_clone()?)?;
    files.push(header_name(alloc, name)?)?;
    Ok(files)
}

// What the head of raw data says of the dataset.
fn raw_dataset_head(alloc: Global, name: &Name, head: &RawHead) -> Result<Head, WalkFault>
    requires raw { IsTrue (is_raw (extension_of name.now)) }
    ensures ok { IfOk result (λ h. h ≡ raw_dataset_head name.now head.now) }
    ensures err { IfErr result IsMemory }
{
    let files = raw_files(alloc, name)?;
    let bands = raw_bands(alloc, head)?;
    let name = name.try_clone()?;
    Ok(Head {
        name,
        kind: Kind::Raw,
        size: head.size,
        geo: head.transform(),
        srs: None,
        bands,
        files,
    })
}

// The one band of a dataset.
fn one_band(alloc: Global, band: BandHead) -> Result<Bands, AllocError>
    ensures { IfOk result (λ bands. bands ≡ band ∷ []) }
{
    let mut bands = Items::new(alloc);
    bands.push(band)?;
    Ok(bands)
}

// The one file of a dataset.
fn one_file(alloc: Global, name: &Name) -> Result<Names, AllocError>
    ensures { IfOk result (λ files. files ≡ name.now ∷ []) }
{
    let mut files = Items::new(alloc);
    files.push(name.try_clone()?)?;
    Ok(files)
}

// The band of a cell.
fn dted_band(head: &DtedHead) -> BandHead
    ensures { result ≡ dted_band head.now }
{
    BandHead {
        kind: PixelType::Int16,
        nodata: Some(NULL_ELEVATION),
        block: Size {
            w: 1,
            h: head.points,
        },
    }
}

// What the head of a cell says of the dataset.
fn dted_dataset_head(alloc: Global, name: &Name, head: &DtedHead) -> Result<Head, AllocError>
    ensures { IfOk result (λ h. h ≡ dted_dataset_head name.now head.now) }
{
    let files = one_file(alloc, name)?;
    let bands = one_band(alloc, dted_band(head))?;
    let name = name.try_clone()?;
    Ok(Head {
        name,
        kind: Kind::Dted,
        size: Size {
            w: head.lines,
            h: head.points,
        },
        geo: Some(head.transform()),
        srs: None,
        bands,
        files,
    })
}

// The band of a tile.
fn hgt_band(side: u32) -> BandHead
    ensures { result ≡ hgt_band side }
{
    BandHead {
        kind: PixelType::Int16,
        nodata: Some(VOID_SAMPLE),
        block: one_line(side),
    }
}

// Where the name of a tile places its pixels.
fn tile_place(name: &Name, side: u32) -> Option<GeoTransform>
    requires side { IsSide side }
    ensures { result ≡ tile_place name.now side }
{
    let corner = read_name(name.last_part())?;
    Some(transform(corner, side))
}

// What the name and the side of a tile say of the dataset.
fn hgt_dataset_head(alloc: Global, name: &Name, side: u32) -> Result<Head, AllocError>
    requires side { IsSide side }
    ensures { IfOk result (λ h. h ≡ hgt_dataset_head name.now side) }
{
    let files = one_file(alloc, name)?;
    let bands = one_band(alloc, hgt_band(side))?;
    let geo = tile_place(name, side);
    let name = name.try_clone()?;
    Ok(Head {
        name,
        kind: Kind::Hgt,
        size: Size { w: side, h: side },
        geo,
        srs: None,
        bands,
        files,
    })
}

// The band of a grid.
fn ascii_band(head: &GridHead) -> BandHead
    ensures { result ≡ ascii_band head.now }
{
    let nodata = head.nodata;
    BandHead {
        kind: PixelType::Int32,
        nodata,
        block: one_line(head.size.w),
    }
}

// What the head of a grid says of the dataset.
fn ascii_dataset_head(alloc: Global, name: &Name, head: &GridHead) -> Result<Head, AllocError>
    ensures { IfOk result (λ h. h ≡ ascii_dataset_head name.now head.now) }
{
    let files = one_file(alloc, name)?;
    let bands = one_band(alloc, ascii_band(head))?;
    let name = name.try_clone()?;
    Ok(Head {
        name,
        kind: Kind::Ascii,
        size: head.size,
        geo: Some(head.geo),
        srs: None,
        bands,
        files,
    })
}

// What the head of a file says of the dataset of its name.
pub fn head_told(alloc: Global, name: &Name, driver: &DriverHead) -> Result<Head, WalkFault>
    requires kind { IsOfKind name.now driver.now }
    ensures ok { IfOk result (λ h. h ≡ head_told name.now driver.now) }
    ensures valid { IfOk result IsDatasetHead }
    ensures err { IfErr result IsMemory }
{
    match driver {
        DriverHead::Raw(head) => raw_dataset_head(alloc, name, head),
        DriverHead::Dted(head) => Ok(dted_dataset_head(alloc, name, head)?),
        DriverHead::Hgt { side } => Ok(hgt_dataset_head(alloc, name, *side)?),
        DriverHead::Ascii(head) => Ok(ascii_dataset_head(alloc, name, head)?),
    }
}

// What the content of a dataset says of it.
pub fn content_head(alloc: Global, name: &Name, content: &Content) -> Result<Head, WalkFault>
    requires kind { IsOfContent name.now content.now }
    ensures ok { IfOk result (λ h. h ≡ content_head name.now content.now) }
    ensures valid { IfOk result IsDatasetHead }
    ensures err { IfErr result IsMemory }
{
    match content {
        Content::File(driver) => head_told(alloc, name, driver),
        Content::Mosaic(document) => mosaic_head(alloc, name, document),
    }
}
