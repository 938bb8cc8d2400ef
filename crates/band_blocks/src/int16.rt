// The elevations of records and the samples of tiles, read straight into cells of 16 bits, and samples written from
// them.
ghost use Rattle.std.specs.Prelude.{◌≡◌, ◌<◌, ◌≤◌, ◌+◌, ◌*◌, ℕ, List, length, map, true};
ghost use Rattle.std.specs.List.{range_with_len};
ghost use Rattle.geotransform.specs.Types.{is_in};
ghost use Rattle.geotransform.specs.declared.types.PixelType.TheVariants.{Int16};
ghost use Rattle.dted_records.specs.Head as dted;
ghost use Rattle.dted_records.specs.Places.{record_len, record_of};
ghost use Rattle.dted_records.specs.Records.{dted_at, elevation, elevation_in, point_place_of, two_at};
ghost use Rattle.hgt_tiles.specs.Samples.{hgt_at, item_at, row_bytes, row_of, sample_bytes};
ghost use Rattle.lists_and_answers.specs.Places.{StandsAt};
ghost use Rattle.band_blocks.specs.Blocks.{AreIn};

use byteorder::{BigEndian, ByteOrder};
use dted_records::DtedHead;

// The elevation that 16 bits give by sign and magnitude.
fn elevation(bits: u16) -> i16
    ensures value { result ≡ elevation bits }
    ensures within { is_in Int16 result ≡ true }
{
    if bits < 32_768 {
        bits as i16
    } else {
        -((bits - 32_768) as i16)
    }
}

// The number of the two bytes at a place.
fn two_at(bytes: &[u8], at: usize) -> u16
    requires { at + 2 ≤ length bytes.now }
    ensures { result ≡ two_at bytes.now at }
{
    BigEndian::read_u16(&bytes[at..at + 2])
}

// The elevation for line `y` of pixels, of which the first is the record's last point.
fn elevation_at(head: &DtedHead, bytes: &[u8], y: usize) -> i16
    requires len { length bytes.now ≡ record_len head.now }
    requires line { y < head.now.points }
    ensures value { result ≡ elevation_in head.now bytes.now y }
    ensures within { is_in Int16 result ≡ true }
{
    let point = head.points as usize - 1 - y;
    elevation(two_at(bytes, 8 + 2 * point))
}

// The elevation that two bytes give, which is that of a column and a line where they stand at its place.
pub(crate) fn single_elevation(bytes: &[u8]) -> i16
    requires two { length bytes.now ≡ 2 }
    ensures file { (h : dted.Head) (file : List ℕ) (x y : ℕ) →
        StandsAt file bytes.now (record_of h x + point_place_of h y) →
        result ≡ dted_at h file x y }
    ensures range { is_in Int16 result ≡ true }
{
    elevation(two_at(bytes, 0))
}

// Reads the elevations of a record, from north to south, into as many cells.
pub(crate) fn decode_elevations(head: &DtedHead, bytes: &[u8], cells: &mut [i16])
    requires len { length bytes.now ≡ record_len head.now }
    requires points { length cells.old ≡ head.now.points }
    ensures samples { cells.new ≡ map (elevation_in head.now bytes.now) (range_with_len 0 head.now.points) }
    ensures range { AreIn Int16 cells.new }
{
    for y in 0..cells.len() {
        cells[y] = elevation_at(head, bytes, y);
    }
}

// The sample of a tile at a place of its bytes.
fn item_at(bytes: &[u8], i: usize) -> i16
    requires { i * 2 + 2 ≤ length bytes.now }
    ensures value { result ≡ item_at bytes.now i }
    ensures within { is_in Int16 result ≡ true }
{
    let at = i * 2;
    BigEndian::read_i16(&bytes[at..at + 2])
}

// The sample that two bytes give, which is that of a column and a line where they stand at its place.
pub(crate) fn single_item(bytes: &[u8]) -> i16
    requires two { length bytes.now ≡ 2 }
    ensures file { (side : ℕ) (file : List ℕ) (x y : ℕ) → StandsAt file bytes.now (2 * (y * side + x)) →
        result ≡ hgt_at side file x y }
    ensures range { is_in Int16 result ≡ true }
{
    item_at(bytes, 0)
}

// Reads the samples of a tile, two bytes each, into as many cells.
pub(crate) fn decode_items(bytes: &[u8], cells: &mut [i16])
    requires two { length bytes.now ≡ 2 * length cells.old }
    ensures samples { cells.new ≡ row_of bytes.now (length cells.old) }
    ensures range { AreIn Int16 cells.new }
{
    for i in 0..cells.len() {
        cells[i] = item_at(bytes, i);
    }
}

// Writes a sample of a tile over two bytes.
fn write_item(n: i16, bytes: &mut [u8])
    requires len { length bytes.old ≡ 2 }
    ensures { bytes.new ≡ sample_bytes n }
{
    BigEndian::write_i16(bytes, n);
}

// Writes the samples of a tile, two bytes each.
pub(crate) fn encode_items(cells: &[i16], out: &mut [u8])
    requires two { length out.old ≡ 2 * length cells.now }
    ensures bytes { out.new ≡ row_bytes cells.now }
{
    for i in 0..cells.len() {
        let at = i * 2;
        write_item(cells[i], &mut out[at..at + 2]);
    }
}
