// A block of samples.
ghost use Rattle.std.specs.Prelude.{◌≡◌, ◌≤◌, ◌<◌, ◌+◌, ◌*◌, ◌^◌, ℕ, List, length, map, replicate, pos, true, IfOk};
ghost use Rattle.std.specs.Prelude.{get_or, slice_index_or, slice_set};
ghost use Rattle.std.specs.List.{range_with_len, All};
ghost use Rattle.geotransform.specs.Types.{is_in, clamp};
ghost use Rattle.geotransform.specs.declared.types.PixelType.TheVariants.{Int16, Int32};
ghost use Rattle.interleaved_raw.specs.Raw.{strided_at as sample_of, bytes_at, sample_bytes, Holds, IsBetween};
ghost use Rattle.lists_and_answers.specs.Places.{StandsAt};
ghost use Rattle.dted_records.specs.Head.{most_counted};
ghost use Rattle.dted_records.specs.Places.{record_len, record_of};
ghost use Rattle.dted_records.specs.Records.{column_of, elevation_in};
ghost use Rattle.dted_records.specs.Written.{IsElevation, record_bytes};
ghost use Rattle.hgt_tiles.specs.Samples.{row_bytes, row_of, line_of};
ghost use Rattle.band_blocks.specs.Views.{cells_view};
ghost use Rattle.band_blocks.specs.Blocks.{block_view, IsPacked, AreIn, written, samples_from};
ghost use Rattle.band_blocks.specs.Spread.{IsSpread};

use crate::packed::Packed;
use dted_records::DtedHead;
use esri_hdr::RawHead;
use geotransform::{PixelType, Sample};
use std::alloc::{AllocError, Global};
use std::marker::Model;

/// The cells of a block, by their type.
#[derive(Drop)]
pub(crate) enum Cells {
    Bytes(Packed<u8>),
    Ints8(Packed<i8>),
    UInts16(Packed<u16>),
    Ints16(Packed<i16>),
    UInts32(Packed<u32>),
    Ints32(Packed<i32>),
    UInts64(Packed<u64>),
    Ints64(Packed<i64>),
}

// What is returned of the cells, whichever their type is.
macro_rules! of_cells {
    ($cells:expr, $packed:ident => $returned:expr) => {
        match $cells {
            Cells::Bytes($packed) => return $returned,
            Cells::Ints8($packed) => return $returned,
            Cells::UInts16($packed) => return $returned,
            Cells::Ints16($packed) => return $returned,
            Cells::UInts32($packed) => return $returned,
            Cells::Ints32($packed) => return $returned,
            Cells::UInts64($packed) => return $returned,
            Cells::Ints64($packed) => return $returned,
        }
    };
}

// Cells of a type that are 0.
fn zero_cells(alloc: Global, kind: PixelType, len: usize) -> Result<Cells, AllocError>
    requires few { len < 2 ^ 32 }
    ensures { IfOk result (λ cells. cells_view cells ≡ block_view kind (replicate len (pos 0))) }
{
    match kind {
        PixelType::Byte => return Ok(Cells::Bytes(Packed::zeros(alloc, len)?)),
        PixelType::Int8 => return Ok(Cells::Ints8(Packed::zeros(alloc, len)?)),
        PixelType::UInt16 => return Ok(Cells::UInts16(Packed::zeros(alloc, len)?)),
        PixelType::Int16 => return Ok(Cells::Ints16(Packed::zeros(alloc, len)?)),
        PixelType::UInt32 => return Ok(Cells::UInts32(Packed::zeros(alloc, len)?)),
        PixelType::Int32 => return Ok(Cells::Ints32(Packed::zeros(alloc, len)?)),
        PixelType::UInt64 => return Ok(Cells::UInts64(Packed::zeros(alloc, len)?)),
        PixelType::Int64 => return Ok(Cells::Ints64(Packed::zeros(alloc, len)?)),
    }
}

/// A list of samples of one type, row by row, packed in one, two, four or eight bytes each. It holds below
/// 2^32 samples, and each of them is in the range of the type.
#[derive(Drop)]
pub struct Block {
    pub(crate) cells: Cells,
}

impl Model for Block {
    ghost use Rattle.band_blocks.specs.Blocks.{BlockView};

    ghost Value = { BlockView };

    ghost use Rattle.band_blocks.specs.Views.{cells_view};

    ghost view = { λ b. cells_view b.cells };
}

impl Block {
    /// A block of `len` samples that are 0. It is refused where memory is.
    pub fn new(alloc: Global, kind: PixelType, len: u32) -> Result<Block, AllocError>
        ensures zeros { IfOk result (λ block. block ≡ block_view kind (replicate len (pos 0))) }
    {
        let cells = zero_cells(alloc, kind, len as usize)?;
        Ok(Block { cells })
    }

    /// A block of these samples. It is refused where memory is.
    #[tactic(auto, using(crate::proofs::Cells::all_written))]
    pub fn pack(alloc: Global, kind: PixelType, samples: &[Sample]) -> Result<Block, AllocError>
        requires few { length samples.now < 2 ^ 32 }
        requires range { AreIn kind samples.now }
        ensures samples { IfOk result (λ block. block ≡ block_view kind samples.now) }
    {
        let mut block = Block::new(alloc, kind, samples.len() as u32)?;
        block.write_run(0, samples);
        Ok(block)
    }

    // A block of Int32 whose samples these cells are.
    pub(crate) fn of_ints(cells: Vec<i32>) -> Block
        requires few { length cells.items < 2 ^ 32 }
        requires range { AreIn Int32 cells.items }
        ensures samples { result ≡ block_view Int32 cells.items }
    {
        Block {
            cells: Cells::Ints32(Packed::of(cells)),
        }
    }

    // Puts as many samples as the block has, each clamped to the range of its type.
    fn clamp_all(&mut self, samples: &[Sample])
        requires count { length samples.now ≡ length self.old.samples }
        ensures samples { self.new ≡ block_view self.old.kind (map (clamp self.old.kind) samples.now) }
    {
        of_cells!(&mut self.cells, packed => packed.clamp_all(samples))
    }

    /// A block of these samples, each clamped to the range of the type. It is refused where memory
    /// is.
    #[tactic(auto, using(crate::proofs::Cells::zeros_long))]
    pub fn pack_clamped(
        alloc: Global,
        kind: PixelType,
        samples: &[Sample],
    ) -> Result<Block, AllocError>
        requires few { length samples.now < 2 ^ 32 }
        ensures samples { IfOk result (λ block. block ≡ block_view kind (map (clamp kind) samples.now)) }
    {
        let count = samples.len() as u32;
        let mut block = Block::new(alloc, kind, count)?;
        block.clamp_all(samples);
        Ok(block)
    }

    /// The type of the samples.
    pub fn kind(&self) -> PixelType
        ensures kind { result ≡ self.now.kind }
        ensures valid { IsPacked self.now }
    {
        of_cells!(&self.cells, packed => packed.kind())
    }

    /// The number of samples.
    pub fn len(&self) -> u32
        ensures count { result ≡ length self.now.samples }
        ensures valid { IsPacked self.now }
    {
        of_cells!(&self.cells, packed => packed.len() as u32)
    }

    /// The sample at a place, counted from 0.
    pub fn get(&self, at: u32) -> Sample
        requires within { at < length self.now.samples }
        ensures sample { result ≡ slice_index_or self.now.samples at (pos 0) }
        ensures range { is_in self.now.kind result ≡ true }
    {
        let at = at as usize;
        of_cells!(&self.cells, packed => packed.get(at))
    }

    /// Puts a sample, which is in the range of the block's type, at a place, counted from 0.
    pub fn set(&mut self, at: u32, value: Sample)
        requires within { at < length self.old.samples }
        requires range { is_in self.old.kind value ≡ true }
        ensures sample { self.new ≡ block_view self.old.kind (slice_set self.old.samples at value) }
    {
        let at = at as usize;
        of_cells!(&mut self.cells, packed => packed.set(at, value))
    }

    /// Copies as many samples as `out` takes, from the place `at` on.
    pub fn copy_run(&self, at: u32, out: &mut [Sample])
        requires within { at + length out.old ≤ length self.now.samples }
        ensures samples { out.new ≡ samples_from at (length out.old) self.now.samples }
        ensures range { AreIn self.now.kind out.new }
    {
        let at = at as usize;
        of_cells!(&self.cells, packed => packed.copy_run(at, out))
    }

    /// Copies so many samples, from the place `at` on, to places of `out` that stand `stride` apart, the
    /// first of them to `start`. All other places of `out` stay.
    pub fn copy_spread(&self, at: u32, count: u32, out: &mut [Sample], start: usize, stride: usize)
        requires within { at + count ≤ length self.now.samples }
        requires some { 0 < stride }
        requires room { (i : ℕ) → i < count → start + i * stride < length out.old }
        ensures spread { IsSpread self.now.samples at count start stride out.old out.new }
    {
        let at = at as usize;
        let count = count as usize;
        of_cells!(&self.cells, packed => packed.copy_spread(at, count, out, start, stride))
    }

    /// Puts samples, which are in the range of the block's type, at the places from `at` on.
    pub fn write_run(&mut self, at: u32, samples: &[Sample])
        requires within { at + length samples.now ≤ length self.old.samples }
        requires range { AreIn self.old.kind samples.now }
        ensures samples { self.new ≡ block_view self.old.kind (written at samples.now self.old.samples) }
    {
        let at = at as usize;
        of_cells!(&mut self.cells, packed => packed.write_run(at, samples))
    }

    /// Puts samples, which are in the range of the block's type, at places that stand `stride` apart, the first
    /// of them at `at`. All other places stay.
    pub fn write_spread(&mut self, at: u32, stride: u32, samples: &[Sample])
        requires some { 0 < stride }
        requires room { (i : ℕ) → i < length samples.now → at + i * stride < length self.old.samples }
        requires range { AreIn self.old.kind samples.now }
        ensures kind { self.new.kind ≡ self.old.kind }
        ensures spread { IsSpread samples.now 0 (length samples.now) at stride self.old.samples self.new.samples }
    {
        let at = at as usize;
        let stride = stride as usize;
        of_cells!(&mut self.cells, packed => packed.write_spread(at, stride, samples))
    }

    /// Reads so many samples, which stand a stride apart in the bytes of raw data of the block's type,
    /// into the places from `at` on.
    pub fn decode(&mut self, head: &RawHead, bytes: &[u8], at: u32, count: u32)
        requires kind { self.old.kind ≡ head.now.kind }
        requires holds { Holds head.now bytes.now count }
        requires within { at + count ≤ length self.old.samples }
        ensures samples { self.new ≡ block_view self.old.kind (written at
            (map (sample_of head.now bytes.now) (range_with_len 0 count)) self.old.samples) }
    {
        let at = at as usize;
        let count = count as usize;
        of_cells!(&mut self.cells, packed => packed.decode(head, bytes, at, count))
    }

    /// Writes so many samples, from the place `at` on, a stride apart over the bytes of raw data of the
    /// block's type. All bytes between them stay.
    pub fn encode(&self, head: &RawHead, at: u32, count: u32, bytes: &mut [u8])
        requires kind { self.now.kind ≡ head.now.kind }
        requires holds { Holds head.now bytes.old count }
        requires within { at + count ≤ length self.now.samples }
        ensures bytes { (i : ℕ) → i < count → bytes_at head.now bytes.new i ≡ sample_bytes head.now
            (get_or (samples_from at count self.now.samples) i (pos 0)) }
        ensures samples { map (sample_of head.now bytes.new) (range_with_len 0 count) ≡ samples_from at count
            self.now.samples }
        ensures others { (j : ℕ) → IsBetween head.now count j → get_or bytes.new j 0 ≡ get_or bytes.old j 0 }
    {
        let at = at as usize;
        let count = count as usize;
        of_cells!(&self.cells, packed => packed.encode(head, at, count, bytes))
    }

    /// Reads the elevations of a record of a cell, from north to south, as many as the block has samples.
    pub fn decode_record(&mut self, head: &DtedHead, bytes: &[u8])
        requires kind { self.old.kind ≡ Int16 }
        requires len { length bytes.now ≡ record_len head.now }
        requires points { length self.old.samples ≡ head.now.points }
        ensures samples { self.new ≡ block_view Int16 (map (elevation_in head.now bytes.now)
            (range_with_len 0 head.now.points)) }
        ensures count { length self.new.samples ≡ head.now.points }
        // bytes that stand in a file at a line's place are that column of the file
        ensures file { (file : List ℕ) (x : ℕ) → StandsAt file bytes.now (record_of head.now x) →
            self.new.samples ≡ column_of head.now file x }
    {
        match &mut self.cells {
            Cells::Ints16(packed) => return packed.decode_record(head, bytes),
            _ => return,
        }
    }

    /// Reads the samples of a tile, two bytes each, as many as the block has.
    pub fn decode_items(&mut self, bytes: &[u8])
        requires kind { self.old.kind ≡ Int16 }
        requires two { length bytes.now ≡ 2 * length self.old.samples }
        ensures samples { self.new ≡ block_view Int16 (row_of bytes.now (length self.old.samples)) }
        ensures count { length self.new.samples ≡ length self.old.samples }
        // bytes that stand in a file are the samples of their line from there on
        ensures file { (file : List ℕ) (side x y : ℕ) → StandsAt file bytes.now (2 * (y * side + x)) →
            self.new.samples ≡ line_of side file x y (length self.old.samples) }
    {
        match &mut self.cells {
            Cells::Ints16(packed) => return packed.decode_items(bytes),
            _ => return,
        }
    }

    /// Writes the samples as those of a tile, two bytes each.
    pub fn encode_items(&self, bytes: &mut [u8])
        requires kind { self.now.kind ≡ Int16 }
        requires two { length bytes.old ≡ 2 * length self.now.samples }
        ensures bytes { bytes.new ≡ row_bytes self.now.samples }
    {
        match &self.cells {
            Cells::Ints16(packed) => return packed.encode_items(bytes),
            _ => return,
        }
    }

    /// Writes the samples, which run from north to south, as the record of a line of a cell.
    pub fn encode_record(&self, line: u32, bytes: &mut [u8])
        requires kind { self.now.kind ≡ Int16 }
        requires line { line < most_counted }
        requires few { length self.now.samples ≤ most_counted }
        requires len { length bytes.old ≡ 12 + 2 * length self.now.samples }
        requires range { All IsElevation self.now.samples }
        ensures bytes { bytes.new ≡ record_bytes line self.now.samples }
    {
        match &self.cells {
            Cells::Ints16(packed) => return packed.encode_record(line, bytes),
            _ => return,
        }
    }
}
