// What an open file holds, by the head of its data: its blocks, and single samples that have a place.
ghost use Rattle.std.specs.Prelude.{◌≡◌, ◌<◌, ◌≤◌, ◌+◌, ◌*◌, ℕ, List, length, Some, IfOk, IfErr, true};
ghost use Rattle.outside.specs.Causes.{HasCause, FailsWith, one_more};
ghost use Rattle.catalog.specs.Drivers.{IsLongEnough};
ghost use Rattle.catalog.specs.Pixels.{sample_in, IsHeadOf};
ghost use Rattle.catalog.specs.Places.{row_by_row};
ghost use Rattle.band_blocks.specs.Contents.{driver_calls};
ghost use Rattle.band_blocks.specs.Loaded.{sample_type_of, Covers, IsPart, HasSample, place_of, bytes_per_sample};
ghost use Rattle.band_blocks.specs.Open.{IsUnchanged};
ghost use Rattle.geotransform.specs.Types.{is_in};
ghost use Rattle.lists_and_answers.specs.Places.{StandsAt};
ghost use Rattle.dted_records.specs.Places.{record_of};
ghost use Rattle.dted_records.specs.Records.{point_place_of};
ghost use Rattle.band_blocks.specs.Samples.{HasPlaces};
ghost use Rattle.geotransform.specs.Limits.{most_side};

use crate::grid::read_grid_row;
use crate::int16::{single_elevation, single_item};
use crate::raw::read_row;
use crate::single::{read_column, read_line};
use crate::{Block, LoadFault, PixelKey};
use catalog::DriverHead;
use dted_records::DtedHead;
use esri_hdr::sample_len;
use geotransform::{Rect, Sample};
use interleaved_raw::{decode_sample, position};
use outside::{Failed, Folder};
use std::alloc::Global;

// Reads a block of an open file by the head of its data.
#[tactic(auto, using(crate::proofs::Parts::tile_long))]
pub(crate) fn read_block<F: Folder>(
    alloc: Global,
    folder: &mut F,
    file: &mut F::File,
    driver: &DriverHead,
    band: u32,
    rect: Rect,
) -> Result<Block, LoadFault>
    requires part { IsPart driver.now band rect }
    requires long { IsLongEnough driver.now (F.file_len file.old) }
    ensures told { (b : List ℕ) → F.file_bytes file.old ≡ Some b → IsHeadOf driver.now b →
        IfOk result (λ block. block.samples ≡ row_by_row (sample_in driver.now b band) rect) }
    ensures covers { IfOk result (Covers rect (sample_type_of driver.now)) }
    ensures unchanged { IfErr result IsUnchanged }
    ensures bytes { F.file_bytes file.new ≡ F.file_bytes file.old }
    ensures len { F.file_len file.new ≡ F.file_len file.old }
    ensures names { F.names folder.new ≡ F.names folder.old }
    ensures reads { F.read_calls folder.new ≤ F.read_calls folder.old + driver_calls driver.now (F.file_len file.old)
        rect.y }
    ensures write_calls { F.write_calls folder.new ≡ F.write_calls folder.old }
    ensures cause { HasCause LoadFault.FolderFault (F.faults folder.old) (F.faults folder.new) result }
{
    match driver {
        DriverHead::Raw(head) => read_row(alloc, folder, file, head, band, rect.y),
        DriverHead::Dted(head) => read_column(alloc, folder, file, head, rect.x),
        DriverHead::Hgt { side } => read_line(alloc, folder, file, *side, rect.y),
        DriverHead::Ascii(head) => read_grid_row(alloc, folder, file, head, rect.y),
    }
}

// The bytes of a sample.
fn bytes_per_sample(driver: &DriverHead) -> usize
    ensures width { result ≡ bytes_per_sample driver.now }
    ensures few { result ≤ 8 }
{
    match driver {
        DriverHead::Raw(head) => sample_len(head.kind),
        DriverHead::Dted(_) => 2,
        DriverHead::Hgt { .. } => 2,
        DriverHead::Ascii(_) => 0,
    }
}

// The place of the elevation of a column and a line of pixels.
fn elevation_place(head: &DtedHead, x: u32, y: u32) -> u64
    requires column { x < head.now.lines }
    requires line { y < head.now.points }
    ensures place { result ≡ record_of head.now x + point_place_of head.now y }
{
    head.record_at(x) + 8 + 2 * (head.points - 1 - y) as u64
}

// The place of the sample of a column and a line of a tile.
fn item_place(side: u32, x: u32, y: u32) -> u64
    requires short { side ≤ most_side }
    requires column { x < side }
    requires line { y < side }
    ensures place { result ≡ 2 * (y * side + x) }
{
    2 * (y as u64 * side as u64 + x as u64)
}

// The place of the sample of a pixel.
fn place_of(driver: &DriverHead, pixel: PixelKey) -> u64
    requires sample { HasSample driver.now pixel.band pixel.x pixel.y }
    requires places { HasPlaces driver.now }
    requires long { (len : ℕ) × IsLongEnough driver.now len }
    ensures place { result ≡ place_of driver.now pixel.band pixel.x pixel.y }
{
    match driver {
        DriverHead::Raw(head) => position(head, pixel.band, pixel.x, pixel.y),
        DriverHead::Dted(head) => elevation_place(head, pixel.x, pixel.y),
        DriverHead::Hgt { side } => item_place(*side, pixel.x, pixel.y),
        DriverHead::Ascii(_) => unreachable!(),
    }
}

// The sample that these bytes give.
fn sample_of(driver: &DriverHead, bytes: &[u8]) -> Sample
    requires width { length bytes.now ≡ bytes_per_sample driver.now }
    requires places { HasPlaces driver.now }
    ensures file { (file : List ℕ) (band x y : ℕ) → StandsAt file bytes.now (place_of driver.now band x y) →
        result ≡ sample_in driver.now file band x y }
    ensures range { is_in (sample_type_of driver.now) result ≡ true }
{
    match driver {
        DriverHead::Raw(head) => decode_sample(head, bytes),
        DriverHead::Dted(_) => single_elevation(bytes) as Sample,
        DriverHead::Hgt { .. } => single_item(bytes) as Sample,
        DriverHead::Ascii(_) => unreachable!(),
    }
}

// Reads the sample of a pixel from an open file, by the head of its data.
pub(crate) fn read_sample<F: Folder>(
    folder: &mut F,
    file: &mut F::File,
    driver: &DriverHead,
    pixel: PixelKey,
) -> Result<Sample, Failed>
    requires sample { HasSample driver.now pixel.band pixel.x pixel.y }
    requires places { HasPlaces driver.now }
    requires long { IsLongEnough driver.now (F.file_len file.old) }
    ensures told { (b : List ℕ) → F.file_bytes file.old ≡ Some b →
        IfOk result (λ v. v ≡ sample_in driver.now b pixel.band pixel.x pixel.y) }
    ensures range { IfOk result (λ v. is_in (sample_type_of driver.now) v ≡ true) }
    ensures bytes { F.file_bytes file.new ≡ F.file_bytes file.old }
    ensures len { F.file_len file.new ≡ F.file_len file.old }
    ensures names { F.names folder.new ≡ F.names folder.old }
    ensures read_calls { F.read_calls folder.new ≡ one_more (F.read_calls folder.old) }
    ensures write_calls { F.write_calls folder.new ≡ F.write_calls folder.old }
    ensures cause { FailsWith (F.faults folder.old) (F.faults folder.new) result }
{
    let mut bytes = [0u8; 8];
    let part = &mut bytes[..bytes_per_sample(driver)];
    folder.read_at(file, place_of(driver, pixel), part)?;
    Ok(sample_of(driver, part))
}
