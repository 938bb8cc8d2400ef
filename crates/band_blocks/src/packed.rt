// Samples of one type, packed in its cells.
ghost use Rattle.std.specs.Prelude.{◌≡◌, ◌≤◌, ◌<◌, ◌+◌, ◌*◌, ◌^◌, ℕ, List, IfOk, length, replicate, map, pos, true};
ghost use Rattle.std.specs.Prelude.{get_or, slice_index_or, slice_set};
ghost use Rattle.std.specs.List.{range_with_len, All};
ghost use Rattle.geotransform.specs.Types.{is_in, clamp};
ghost use Rattle.interleaved_raw.specs.Raw.{strided_at as sample_of, bytes_at, sample_bytes, Holds, IsBetween};
ghost use Rattle.lists_and_answers.specs.Places.{StandsAt};
ghost use Rattle.dted_records.specs.Head.{most_counted};
ghost use Rattle.dted_records.specs.Places.{record_len, record_of};
ghost use Rattle.dted_records.specs.Records.{column_of, elevation_in};
ghost use Rattle.dted_records.specs.Written.{IsElevation, record_bytes};
ghost use Rattle.hgt_tiles.specs.Samples.{row_bytes, row_of, line_of};
ghost use Rattle.band_blocks.specs.Blocks.{block_view, IsPacked, AreIn, written, samples_from};
ghost use Rattle.band_blocks.specs.Spread.{IsSpread};

use crate::cell::{
    Cell, clamp_cells, copy_cells, decode_cells, encode_cells, scatter_cells, set_cell,
    spread_cells, write_cells,
};
use crate::int16::{decode_elevations, decode_items, encode_items};
use dted_records::{DtedHead, encode_record};
use esri_hdr::RawHead;
use geotransform::{PixelType, Sample};
use std::alloc::{AllocError, Global};
use std::marker::Model;

/// Below 2^32 samples of the type of a cell.
#[derive(Drop)]
pub(crate) struct Packed<T: Cell> {
    pub(crate) cells: Vec<T>,
}

impl<T: Cell> Model for Packed<T> {
    ghost use Rattle.std.specs.Prelude.{List, ℤ, map};
    ghost use Rattle.band_blocks.specs.Blocks.{block_view, IsPacked};

    ghost Value = { List ℤ };

    ghost view = { λ p. map T.value p.cells.items };

    ghost invariant = { λ p. IsPacked (block_view T.kind (map T.value p.cells.items)) };
}

impl<T: Cell> Packed<T> {
    // So many samples that are 0. It is refused where memory is.
    #[tactic(auto, using(crate::proofs::Cells::zeros_in))]
    pub(crate) fn zeros(alloc: Global, len: usize) -> Result<Self, AllocError>
        requires few { len < 2 ^ 32 }
        ensures zeros { IfOk result (λ p. p ≡ replicate len (pos 0)) }
    {
        let cells = T::zeros(alloc, len)?;
        Ok(Packed { cells })
    }

    // The samples that these cells show.
    pub(crate) fn of(cells: Vec<T>) -> Self
        requires few { length cells.items < 2 ^ 32 }
        requires range { AreIn T.kind (map T.value cells.items) }
        ensures samples { result ≡ map T.value cells.items }
    {
        Packed { cells }
    }

    // The type of the samples.
    pub(crate) fn kind(&self) -> PixelType
        ensures kind { result ≡ T.kind }
        ensures valid { IsPacked (block_view T.kind self.now) }
    {
        // They are read for the proof: what holds of every block is known then.
        let _ = &self.cells;
        T::kind()
    }

    // The number of samples.
    pub(crate) fn len(&self) -> usize
        ensures count { result ≡ length self.now }
        ensures valid { IsPacked (block_view T.kind self.now) }
    {
        self.cells.len()
    }

    // The sample at a place.
    pub(crate) fn get(&self, at: usize) -> Sample
        requires within { at < length self.now }
        ensures sample { result ≡ slice_index_or self.now at (pos 0) }
        ensures range { is_in T.kind result ≡ true }
    {
        self.cells[at].widen()
    }

    // Puts a sample at a place.
    pub(crate) fn set(&mut self, at: usize, value: Sample)
        requires within { at < length self.old }
        requires range { is_in T.kind value ≡ true }
        ensures sample { self.new ≡ slice_set self.old at value }
    {
        set_cell(&mut self.cells, at, value);
    }

    // Puts as many samples as there are, each clamped to the range of the type.
    pub(crate) fn clamp_all(&mut self, samples: &[Sample])
        requires count { length samples.now ≡ length self.old }
        ensures samples { self.new ≡ map (clamp T.kind) samples.now }
    {
        clamp_cells(samples, &mut self.cells);
    }

    // Copies as many samples as `out` takes, from the place `at` on.
    pub(crate) fn copy_run(&self, at: usize, out: &mut [Sample])
        requires within { at + length out.old ≤ length self.now }
        ensures samples { out.new ≡ samples_from at (length out.old) self.now }
        ensures range { AreIn T.kind out.new }
    {
        // They are read for the proof: what holds of every block is known then.
        let _ = &self.cells;
        let end = at + out.len();
        copy_cells(&self.cells[at..end], out);
    }

    // Copies so many samples to places of `out` that stand `stride` apart.
    pub(crate) fn copy_spread(
        &self,
        at: usize,
        count: usize,
        out: &mut [Sample],
        start: usize,
        stride: usize,
    )
        requires within { at + count ≤ length self.now }
        requires some { 0 < stride }
        requires room { (i : ℕ) → i < count → start + i * stride < length out.old }
        ensures spread { IsSpread self.now at count start stride out.old out.new }
    {
        spread_cells(&self.cells, at, count, out, start, stride);
    }

    // Puts samples at the places from `at` on.
    pub(crate) fn write_run(&mut self, at: usize, samples: &[Sample])
        requires within { at + length samples.now ≤ length self.old }
        requires range { AreIn T.kind samples.now }
        ensures samples { self.new ≡ written at samples.now self.old }
    {
        write_cells(&mut self.cells, at, samples);
    }

    // Puts samples at places that stand `stride` apart, the first of them at `at`. All other places stay.
    pub(crate) fn write_spread(&mut self, at: usize, stride: usize, samples: &[Sample])
        requires some { 0 < stride }
        requires room { (i : ℕ) → i < length samples.now → at + i * stride < length self.old }
        requires range { AreIn T.kind samples.now }
        ensures spread { IsSpread samples.now 0 (length samples.now) at stride self.old self.new }
    {
        scatter_cells(&mut self.cells, at, stride, samples);
    }

    // Reads so many samples of raw data into the places from `at` on.
    pub(crate) fn decode(&mut self, head: &RawHead, bytes: &[u8], at: usize, count: usize)
        requires kind { T.kind ≡ head.now.kind }
        requires holds { Holds head.now bytes.now count }
        requires within { at + count ≤ length self.old }
        ensures samples { self.new ≡ written at (map (sample_of head.now bytes.now) (range_with_len 0 count)) self.old }
    {
        decode_cells(head, bytes, count, &mut self.cells, at);
    }

    // Writes so many samples over the bytes of raw data.
    pub(crate) fn encode(&self, head: &RawHead, at: usize, count: usize, bytes: &mut [u8])
        requires kind { T.kind ≡ head.now.kind }
        requires holds { Holds head.now bytes.old count }
        requires within { at + count ≤ length self.now }
        ensures bytes { (i : ℕ) → i < count → bytes_at head.now bytes.new i ≡ sample_bytes head.now
            (get_or (samples_from at count self.now) i (pos 0)) }
        ensures samples { map (sample_of head.now bytes.new) (range_with_len 0 count) ≡ samples_from at count self.now }
        ensures others { (j : ℕ) → IsBetween head.now count j → get_or bytes.new j 0 ≡ get_or bytes.old j 0 }
    {
        // They are read for the proof: what holds of every block is known then.
        let _ = &self.cells;
        let end = at + count;
        encode_cells(head, &self.cells[at..end], bytes);
    }
}

impl Packed<i16> {
    // Reads the elevations of a record of a cell, from north to south, as many as there are samples.
    pub(crate) fn decode_record(&mut self, head: &DtedHead, bytes: &[u8])
        requires len { length bytes.now ≡ record_len head.now }
        requires points { length self.old ≡ head.now.points }
        ensures samples { self.new ≡ map (elevation_in head.now bytes.now) (range_with_len 0 head.now.points) }
        ensures count { length self.new ≡ head.now.points }
        ensures file { (file : List ℕ) (x : ℕ) → StandsAt file bytes.now (record_of head.now x) →
            self.new ≡ column_of head.now file x }
    {
        decode_elevations(head, bytes, &mut self.cells);
    }

    // Reads the samples of a tile, two bytes each, as many as there are.
    pub(crate) fn decode_items(&mut self, bytes: &[u8])
        requires two { length bytes.now ≡ 2 * length self.old }
        ensures samples { self.new ≡ row_of bytes.now (length self.old) }
        ensures count { length self.new ≡ length self.old }
        ensures file { (file : List ℕ) (side x y : ℕ) → StandsAt file bytes.now (2 * (y * side + x)) →
            self.new ≡ line_of side file x y (length self.old) }
    {
        decode_items(bytes, &mut self.cells);
    }

    // Writes the samples as those of a tile, two bytes each.
    pub(crate) fn encode_items(&self, bytes: &mut [u8])
        requires two { length bytes.old ≡ 2 * length self.now }
        ensures bytes { bytes.new ≡ row_bytes self.now }
    {
        encode_items(&self.cells, bytes);
    }

    // Writes the samples, which run from north to south, as the record of a line of a cell.
    pub(crate) fn encode_record(&self, line: u32, bytes: &mut [u8])
        requires line { line < most_counted }
        requires few { length self.now ≤ most_counted }
        requires len { length bytes.old ≡ 12 + 2 * length self.now }
        requires range { All IsElevation self.now }
        ensures bytes { bytes.new ≡ record_bytes line self.now }
    {
        encode_record(line, &self.cells, bytes);
    }
}
