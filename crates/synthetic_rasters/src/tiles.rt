// Tiles: their heads, and their lines.
ghost use Rattle.std.specs.Prelude.{◌≡◌, ℤ, pos, ◌*ℤ◌, ◌+◌, ◌*◌, ◌/◌, ◌%◌, ◌<◌, ◌≤◌, map, length, true, unsigned_abs};
ghost use Rattle.std.specs.Prelude.{IfOk, Some};
ghost use Rattle.std.specs.List.{range_with_len, All};
ghost use Rattle.geotransform.specs.Print.{unit};
ghost use Rattle.geotransform.specs.Types.{is_in};
ghost use Rattle.geotransform.specs.declared.types.PixelType.TheVariants.{Int16};
ghost use Rattle.synthetic_rasters.specs.Tiles.{IsSide, tile_sample, tile_place, tile_head, line_bytes};
ghost use Rattle.synthetic_rasters.specs.Tiles.{most_tile_side};

use crate::side::TileSide;
use esri_hdr::{Layout, RawGeo, RawHead};
use geotransform::{GeoTransform, PixelType, Sample, Size, Ticks};
use interleaved_raw::encode_run;
use std::alloc::{AllocError, Global};
use std::marker::Model;

// So many units.
fn units(n: i128) -> Ticks
    requires near { unsigned_abs n ≤ most_tile_side }
    ensures value { result ≡ pos unit *ℤ n }
{
    Ticks::of(180_000_000_000_000_000 * n)
}

// The place of a tile.
fn tile_place(side: u32, tile: u32) -> GeoTransform
    requires side { IsSide side }
    requires tile { tile < 4 }
    ensures place { result ≡ tile_place side tile }
{
    let (column, line) = (tile % 2 * side, tile / 2 * side);
    GeoTransform {
        ox: units(column as i128),
        oy: units(-(line as i128)),
        dx: units(1),
        dy: units(-1),
    }
}

/// The head of a tile: one band of 16 bits, line by line, whose pixels are units.
pub fn tile_head(side: TileSide, tile: u32) -> RawHead
    requires tile { tile < 4 }
    ensures head { result ≡ tile_head side tile }
{
    let side = side.get();
    let size = Size { w: side, h: side };
    let geo = RawGeo::of(&tile_place(side, tile));
    RawHead::plain(size, 1, PixelType::Int16, Layout::Bil, Some(-1), geo)
}

// The sample of a tile in a column and a line.
fn tile_sample(tile: u32, x: u32, y: u32) -> Sample
    requires tile { tile < 4 }
    requires x { x < most_tile_side }
    requires y { y < most_tile_side }
    ensures sample { result ≡ tile_sample tile x y }
    ensures typed { is_in Int16 result ≡ true }
{
    if (x + y + tile) % 5 == 4 {
        -1
    } else {
        ((7 * x + 13 * y + 31 * tile) % 1000) as i128
    }
}

// Fills a line with the samples of a tile.
fn fill_samples(tile: u32, line: u32, samples: &mut [Sample])
    requires tile { tile < 4 }
    requires line { line < most_tile_side }
    requires few { length samples.old ≤ most_tile_side }
    ensures samples { samples.new ≡ map (λ x. tile_sample tile x line) (range_with_len 0 (length samples.old)) }
    ensures typed { All (λ n. is_in Int16 n ≡ true) samples.new }
{
    for x in 0..samples.len() {
        samples[x] = tile_sample(tile, x as u32, line);
    }
}

// Fills the bytes of a line of a tile, through room for its samples.
#[tactic(auto, using(crate::proofs::Lines::line_holds))]
fn fill_line(side: TileSide, tile: u32, line: u32, samples: &mut [Sample], bytes: &mut [u8])
    requires tile { tile < 4 }
    requires line { line < side }
    requires samples { length samples.old ≡ side }
    requires bytes { length bytes.old ≡ 2 * side }
    ensures bytes { bytes.new ≡ line_bytes side tile line }
{
    // This call is made for the proof: it says what holds of every side.
    let _side = side.get();
    let head = tile_head(side, tile);
    fill_samples(tile, line, samples);
    encode_run(&head, samples, bytes);
}

/// Room for a line of a tile, which is made once and filled again and again.
#[derive(Drop)]
pub struct TileLine {
    side: TileSide,
    samples: Vec<Sample>,
    bytes: Vec<u8>,
}

impl Model for TileLine {
    ghost use Rattle.std.specs.Prelude.{◌≡◌, ◌*◌, length};
    ghost use Rattle.synthetic_rasters.specs.Tiles.{LineOfTile};

    ghost Value = { LineOfTile };

    ghost view = { λ l. record { side = l.side; bytes = l.bytes.items } };

    ghost invariant = { λ l. (length l.samples.items ≡ l.side) × (length l.bytes.items ≡ 2 * l.side) };
}

impl TileLine {
    /// Room for a line of tiles of this side.
    pub fn new(alloc: Global, side: TileSide) -> Result<TileLine, AllocError>
        ensures side { IfOk result (λ l. l.side ≡ side) }
    {
        let count = side.get() as usize;
        let samples = vec![in alloc; 0; count]?;
        let bytes = vec![in alloc; 0u8; 2 * count]?;
        Ok(TileLine {
            side,
            samples,
            bytes,
        })
    }

    /// Fills it with a line of a tile.
    pub fn fill(&mut self, tile: u32, line: u32)
        requires tile { tile < 4 }
        requires line { line < self.old.side }
        ensures side { self.new.side ≡ self.old.side }
        ensures bytes { self.new.bytes ≡ line_bytes self.old.side tile line }
    {
        let samples = self.samples.as_mut_slice();
        let bytes = self.bytes.as_mut_slice();
        fill_line(self.side, tile, line, samples, bytes);
    }

    /// The bytes of the line.
    pub fn bytes(&self) -> &[u8]
        ensures bytes { result.now ≡ self.now.bytes }
    {
        self.bytes.as_slice()
    }
}
