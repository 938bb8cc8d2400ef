// A pool of blocks over a draft: a block that the pool drops is written, and one that it lacks is read back. Where
// bands lie pixel by pixel, a block is a line of all bands.
ghost use Rattle.std.specs.Prelude.{◌≡◌, ◌<◌, ◌≤◌, ◌+◌, ◌*◌, [], ℕ, List, length, get_or, pos, Some, None, true, false};
ghost use Rattle.std.specs.Prelude.{OnOk, IfOk};
ghost use Rattle.outside.specs.Causes.{HasCause};
ghost use Rattle.band_blocks.specs.Spread.{IsSpread};
ghost use Rattle.block_cache.specs.Entries.{held_at};
ghost use Rattle.write_back.specs.Forms.{band_total, cut_of, needed_of, most_calls, AreHeld, IsFormed, column_total};
ghost use Rattle.write_back.specs.Forms.{line_total};
ghost use Rattle.write_back.specs.Overlay.{IsLine, HoldsDirty, held_in, line_key};
ghost use Rattle.write_back.specs.Stores.{IsPut, IsWindow, IsLineSet, AreSame, IsBlockWritten, AreMet, Changes, Serves};
ghost use Rattle.write_back.specs.Seen.{known_in, state_of};
ghost use Rattle.write_back.specs.State.{IsSound, lines_met};

use crate::TargetFault;
use crate::forms::Writer;
use crate::slices::nth_run;
use crate::turned::{Span, group_width, samples_in, turn_to};
use crate::unwritten::Written;
use band_blocks::{Block, BlockKey};
use block_cache::Pool;
use geotransform::{PixelType, Rect, Sample};
use outside::{Counter, Folder};
use std::alloc::{AllocError, Global};
use std::sync::ledger::Ledger;

/// Blocks of a raster: those in a pool, and those in a draft. A block that was never written to the draft is zeros
/// there, and isn't read. A block that left the pool is spare, and the next one that comes takes its room.
pub(crate) struct Store<F: Folder> {
    pub(crate) writer: Writer,
    pub(crate) pool: Pool,
    pub(crate) draft: F::Draft,
    pub(crate) written: Written,
    pub(crate) spare: Option<Block>,
}

/// Where samples are put: a band, a place in a block of it, how far apart they stand from there on, and the block.
/// Bands, places and blocks count from 0.
#[derive(Clone, Copy)]
struct Spot {
    band: u32,
    x: u32,
    stride: u32,
    y: u32,
}

// Room for a block of a type and so many samples: a spare one that is like it, or else a new one.
fn room_for(
    alloc: Global,
    spare: Option<Block>,
    kind: PixelType,
    len: u32,
) -> Result<Block, AllocError>
    ensures kind { IfOk result (λ block. block.kind ≡ kind) }
    ensures count { IfOk result (λ block. length block.samples ≡ len) }
{
    if let Some(block) = spare {
        if block.kind() == kind && block.len() == len {
            return Ok(block);
        }
        drop(block);
    }
    Block::new(alloc, kind, len)
}

// Makes each sample of a block 0.
#[tactic(auto, using(geotransform::proofs::Ranges::zero_in))]
fn clear(block: &mut Block)
    ensures kind { block.new.kind ≡ block.old.kind }
    ensures count { length block.new.samples ≡ length block.old.samples }
    ensures zeros { (u : ℕ) → get_or block.new.samples u (pos 0) ≡ pos 0 }
{
    for at in 0..block.len() {
        block.set(at, 0);
    }
}

impl<F: Folder> Store<F> {
    // Writes a block into the draft.
    fn write_out<L: Ledger>(
        &mut self,
        folder: &mut F,
        key: BlockKey,
        block: &Block,
        writes: &mut Counter<L>,
    ) -> Result<(), TargetFault>
        requires line { IsLine self.old.writer key block.now }
        requires long { F.draft_len self.old.draft ≡ needed_of self.old.writer }
        ensures head { self.new.writer ≡ self.old.writer }
        ensures pool { self.new.pool ≡ self.old.pool }
        ensures written { OnOk result ((b : List ℕ) → known_in F.draft_bytes self.old ≡ Some b →
            length b ≡ needed_of self.old.writer → IsFormed self.old.writer b → (c : List ℕ) ×
            (known_in F.draft_bytes self.new ≡ Some c) × IsBlockWritten self.old.writer key block.now.samples b c) }
        ensures len { OnOk result (F.draft_len self.new.draft ≡ F.draft_len self.old.draft) }
        ensures name { F.draft_name self.new.draft ≡ F.draft_name self.old.draft }
        ensures names { F.names folder.new ≡ F.names folder.old }
        ensures reads { F.read_calls folder.new ≡ F.read_calls folder.old }
        ensures calls { F.write_calls folder.new ≤ F.write_calls folder.old + most_calls self.old.writer }
        ensures one { writes.new ≡ writes.old + 1 }
        ensures cause { HasCause TargetFault.FolderFault (F.faults folder.old) (F.faults folder.new) result }
    {
        writes.tick();
        // This call is made for the proof: it says that a block's number fits.
        let _shape = self.writer.shape();
        let (band, number) = (key.band, key.block as u32);
        self.written.mark(band, number);
        self.writer
            .write_block(folder, &mut self.draft, band, number, block)
    }

    // Writes a block that left the pool into the draft.
    fn write<L: Ledger>(
        &mut self,
        folder: &mut F,
        key: BlockKey,
        block: Block,
        writes: &mut Counter<L>,
    ) -> Result<(), TargetFault>
        requires line { IsLine self.old.writer key block }
        requires long { F.draft_len self.old.draft ≡ needed_of self.old.writer }
        ensures head { self.new.writer ≡ self.old.writer }
        ensures pool { self.new.pool ≡ self.old.pool }
        ensures written { OnOk result ((b : List ℕ) → known_in F.draft_bytes self.old ≡ Some b →
            length b ≡ needed_of self.old.writer → IsFormed self.old.writer b → (c : List ℕ) ×
            (known_in F.draft_bytes self.new ≡ Some c) × IsBlockWritten self.old.writer key block.samples b c) }
        ensures len { OnOk result (F.draft_len self.new.draft ≡ F.draft_len self.old.draft) }
        ensures name { F.draft_name self.new.draft ≡ F.draft_name self.old.draft }
        ensures names { F.names folder.new ≡ F.names folder.old }
        ensures reads { F.read_calls folder.new ≡ F.read_calls folder.old }
        ensures calls { F.write_calls folder.new ≤ F.write_calls folder.old + most_calls self.old.writer }
        ensures one { writes.new ≡ writes.old + 1 }
        ensures cause { HasCause TargetFault.FolderFault (F.faults folder.old) (F.faults folder.new) result }
    {
        let written = self.write_out(folder, key, &block, writes);
        drop(block);
        written
    }

    // Keeps a block that isn't held. The one that a full pool drops for it is written, and is spare: no held block was
    // written since samples were put into it.
    fn keep<L: Ledger>(
        &mut self,
        folder: &mut F,
        key: BlockKey,
        block: Block,
        writes: &mut Counter<L>,
    ) -> Result<(), TargetFault>
        requires sound { IsSound self.old.writer self.old.pool }
        requires long { F.draft_len self.old.draft ≡ needed_of self.old.writer }
        requires absent { held_at key self.old.pool.entries ≡ None }
        requires line { IsLine self.old.writer key block }
        ensures head { self.new.writer ≡ self.old.writer }
        ensures serves { Serves self.old.writer 1 0 (state_of F.Folder folder.old self.old writes.old)
            (state_of F.Folder folder.new self.new writes.new) }
        ensures changed { OnOk result (Changes self.old.writer (IsLineSet self.old.writer key block.samples)
            (state_of F.Folder folder.old self.old writes.old) (state_of F.Folder folder.new self.new writes.new)) }
        ensures dirty { OnOk result (HoldsDirty self.new.pool.entries key) }
        ensures cause { HasCause TargetFault.FolderFault (F.faults folder.old) (F.faults folder.new) result }
    {
        match self.pool.admit(key, block, true) {
            Ok(None) => Ok(()),
            Ok(Some(last)) => {
                let written = self.write_out(folder, last.key, &last.block, writes);
                drop(self.spare.replace(last.block));
                written
            }
            Err(refused) => {
                drop(refused);
                Err(TargetFault::Memory)
            }
        }
    }

    // Makes a block what the draft holds of it: zeros where it was never written, and else what is read there.
    fn fetch(
        &mut self,
        folder: &mut F,
        band: u32,
        y: u32,
        block: &mut Block,
    ) -> Result<(), TargetFault>
        requires long { F.draft_len self.old.draft ≡ needed_of self.old.writer }
        requires band { band < (cut_of self.old.writer).bands }
        requires line { y < (cut_of self.old.writer).blocks }
        requires kind { block.old.kind ≡ (cut_of self.old.writer).kind }
        requires room { length block.old.samples ≡ (cut_of self.old.writer).spots }
        ensures head { self.new.writer ≡ self.old.writer }
        ensures pool { self.new.pool ≡ self.old.pool }
        ensures line { OnOk result (IsLine self.old.writer (line_key band y) block.new) }
        ensures told { OnOk result ((b : List ℕ) → known_in F.draft_bytes self.old ≡ Some b →
            length b ≡ needed_of self.old.writer → block.new.samples ≡ held_in self.old.writer b band y) }
        ensures bytes { known_in F.draft_bytes self.new ≡ known_in F.draft_bytes self.old }
        ensures len { F.draft_len self.new.draft ≡ F.draft_len self.old.draft }
        ensures name { F.draft_name self.new.draft ≡ F.draft_name self.old.draft }
        ensures names { F.names folder.new ≡ F.names folder.old }
        ensures reads { F.read_calls folder.new ≡ F.read_calls folder.old }
        ensures calls { F.write_calls folder.new ≡ F.write_calls folder.old }
        ensures cause { HasCause TargetFault.FolderFault (F.faults folder.old) (F.faults folder.new) result }
    {
        if !self.written.is_written(band, y) {
            clear(block);
            return Ok(());
        }
        self.writer
            .read_block(folder, &mut self.draft, band, y, block)
    }

    // A block with these samples from a place on, and the draft's elsewhere.
    fn line_with(
        &mut self,
        alloc: Global,
        folder: &mut F,
        spot: Spot,
        samples: &[Sample],
    ) -> Result<Block, TargetFault>
        requires long { F.draft_len self.old.draft ≡ needed_of self.old.writer }
        requires band { spot.band < (cut_of self.old.writer).bands }
        requires line { spot.y < (cut_of self.old.writer).blocks }
        requires some { 0 < spot.stride }
        requires room { (i : ℕ) → i < length samples.now → spot.x + i * spot.stride < (cut_of self.old.writer).spots }
        requires range { AreHeld self.old.writer samples.now }
        ensures head { self.new.writer ≡ self.old.writer }
        ensures pool { self.new.pool ≡ self.old.pool }
        ensures line { IfOk result (λ block. IsLine self.old.writer (line_key spot.band spot.y) block) }
        ensures told { (b : List ℕ) → known_in F.draft_bytes self.old ≡ Some b → length b ≡ needed_of self.old.writer →
            IfOk result (λ block. IsSpread samples.now 0 (length samples.now) spot.x spot.stride
            (held_in self.old.writer b spot.band spot.y) block.samples) }
        ensures bytes { known_in F.draft_bytes self.new ≡ known_in F.draft_bytes self.old }
        ensures len { F.draft_len self.new.draft ≡ F.draft_len self.old.draft }
        ensures name { F.draft_name self.new.draft ≡ F.draft_name self.old.draft }
        ensures names { F.names folder.new ≡ F.names folder.old }
        ensures reads { F.read_calls folder.new ≡ F.read_calls folder.old }
        ensures calls { F.write_calls folder.new ≡ F.write_calls folder.old }
        ensures cause { HasCause TargetFault.FolderFault (F.faults folder.old) (F.faults folder.new) result }
    {
        let shape = self.writer.shape();
        let mut block = room_for(alloc, self.spare.take(), shape.kind, shape.spots)?;
        if spot.stride == 1 && samples.len() == shape.spots as usize {
            block.write_run(0, samples);
            return Ok(block);
        }
        if let Err(fault) = self.fetch(folder, spot.band, spot.y, &mut block) {
            drop(block);
            return Err(fault);
        }
        block.write_spread(spot.x, spot.stride, samples);
        Ok(block)
    }

    // Puts samples into a block from a place on.
    fn put<L: Ledger>(
        &mut self,
        alloc: Global,
        folder: &mut F,
        spot: Spot,
        samples: &[Sample],
        writes: &mut Counter<L>,
    ) -> Result<(), TargetFault>
        requires sound { IsSound self.old.writer self.old.pool }
        requires long { F.draft_len self.old.draft ≡ needed_of self.old.writer }
        requires band { spot.band < (cut_of self.old.writer).bands }
        requires line { spot.y < (cut_of self.old.writer).blocks }
        requires some { 0 < spot.stride }
        requires room { (i : ℕ) → i < length samples.now → spot.x + i * spot.stride < (cut_of self.old.writer).spots }
        requires range { AreHeld self.old.writer samples.now }
        ensures head { self.new.writer ≡ self.old.writer }
        ensures serves { Serves self.old.writer 1 0 (state_of F.Folder folder.old self.old writes.old)
            (state_of F.Folder folder.new self.new writes.new) }
        ensures changed { OnOk result (Changes self.old.writer (IsPut self.old.writer
            (record { band = spot.band; start = spot.x; stride = spot.stride }) spot.y samples.now)
            (state_of F.Folder folder.old self.old writes.old) (state_of F.Folder folder.new self.new writes.new)) }
        ensures dirty { OnOk result (HoldsDirty self.new.pool.entries (line_key spot.band spot.y)) }
        ensures cause { HasCause TargetFault.FolderFault (F.faults folder.old) (F.faults folder.new) result }
    {
        let key = BlockKey {
            dataset: 0,
            band: spot.band,
            block: spot.y as u64,
        };
        if self.pool.patch_spread(&key, spot.x, spot.stride, samples) {
            return Ok(());
        }
        let block = self.line_with(alloc, folder, spot, samples)?;
        self.keep(folder, key, block, writes)
    }

    // Puts the samples of a rectangle of a band, row by row, where blocks are lines.
    fn put_rows<L: Ledger>(
        &mut self,
        alloc: Global,
        folder: &mut F,
        band: u32,
        rect: Rect,
        samples: &[Sample],
        writes: &mut Counter<L>,
    ) -> Result<(), TargetFault>
        requires rows { (cut_of self.old.writer).by_columns ≡ false }
        requires wide { 0 < rect.w }
        requires sound { IsSound self.old.writer self.old.pool }
        requires long { F.draft_len self.old.draft ≡ needed_of self.old.writer }
        requires band { band < band_total self.old.writer }
        requires across { rect.x + rect.w ≤ column_total self.old.writer }
        requires down { rect.y + rect.h ≤ line_total self.old.writer }
        requires size { length samples.now ≡ rect.w * rect.h }
        requires range { AreHeld self.old.writer samples.now }
        ensures head { self.new.writer ≡ self.old.writer }
        ensures serves { Serves self.old.writer rect.h 0 (state_of F.Folder folder.old self.old writes.old)
            (state_of F.Folder folder.new self.new writes.new) }
        ensures changed { OnOk result (Changes self.old.writer (IsWindow self.old.writer band rect samples.now)
            (state_of F.Folder folder.old self.old writes.old) (state_of F.Folder folder.new self.new writes.new)) }
        ensures cause { HasCause TargetFault.FolderFault (F.faults folder.old) (F.faults folder.new) result }
    {
        // This call is made for the proof: it says that a block's number fits.
        let _shape = self.writer.shape();
        let places = self.writer.band_places(band, rect.x);
        for row in 0..rect.h {
            let line = nth_run(samples, row, rect.w);
            let spot = Spot {
                band: places.band,
                x: places.start,
                stride: places.stride,
                y: rect.y + row,
            };
            self.put(alloc, folder, spot, line, writes)?;
        }
        Ok(())
    }

    // Puts the samples of a rectangle of a band, column by column, where blocks are columns.
    fn put_columns<L: Ledger>(
        &mut self,
        alloc: Global,
        folder: &mut F,
        band: u32,
        rect: Rect,
        samples: &[Sample],
        writes: &mut Counter<L>,
    ) -> Result<(), TargetFault>
        requires columns { (cut_of self.old.writer).by_columns ≡ true }
        requires sound { IsSound self.old.writer self.old.pool }
        requires long { F.draft_len self.old.draft ≡ needed_of self.old.writer }
        requires band { band < (cut_of self.old.writer).bands }
        requires across { rect.x + rect.w ≤ (cut_of self.old.writer).blocks }
        requires down { rect.y + rect.h ≤ (cut_of self.old.writer).spots }
        requires size { length samples.now ≡ rect.w * rect.h }
        requires range { AreHeld self.old.writer samples.now }
        ensures head { self.new.writer ≡ self.old.writer }
        ensures serves { Serves self.old.writer rect.w 0 (state_of F.Folder folder.old self.old writes.old)
            (state_of F.Folder folder.new self.new writes.new) }
        ensures changed { OnOk result (Changes self.old.writer (IsWindow self.old.writer band rect samples.now)
            (state_of F.Folder folder.old self.old writes.old) (state_of F.Folder folder.new self.new writes.new)) }
        ensures met { OnOk result (AreMet self.old.writer band rect.x rect.w
            (state_of F.Folder folder.old self.old writes.old) (state_of F.Folder folder.new self.new writes.new)) }
        ensures cause { HasCause TargetFault.FolderFault (F.faults folder.old) (F.faults folder.new) result }
    {
        // This call is made for the proof: it says that a block's number fits.
        let _shape = self.writer.shape();
        let most = group_width(rect);
        let mut room = vec![in alloc; 0i128; samples_in(most, rect.h)]?;
        let group = room.as_mut_slice();
        let mut held = Span { first: 0, count: 0 };
        for x in 0..rect.w {
            held = turn_to(samples, rect, most, x, held, group);
            let line = nth_run(group, x - held.first, rect.h);
            let spot = Spot {
                band,
                x: rect.y,
                stride: 1,
                y: rect.x + x,
            };
            self.put(alloc, folder, spot, line, writes)?;
        }
        Ok(())
    }

    // Puts the samples of a rectangle of a band that isn't empty.
    pub(crate) fn put_window<L: Ledger>(
        &mut self,
        alloc: Global,
        folder: &mut F,
        band: u32,
        rect: Rect,
        samples: &[Sample],
        writes: &mut Counter<L>,
    ) -> Result<(), TargetFault>
        requires wide { 0 < rect.w }
        requires high { 0 < rect.h }
        requires sound { IsSound self.old.writer self.old.pool }
        requires long { F.draft_len self.old.draft ≡ needed_of self.old.writer }
        requires band { band < band_total self.old.writer }
        requires across { rect.x + rect.w ≤ column_total self.old.writer }
        requires down { rect.y + rect.h ≤ line_total self.old.writer }
        requires size { length samples.now ≡ rect.w * rect.h }
        requires range { AreHeld self.old.writer samples.now }
        ensures head { self.new.writer ≡ self.old.writer }
        ensures serves { Serves self.old.writer (lines_met self.old.writer rect) 0
            (state_of F.Folder folder.old self.old writes.old) (state_of F.Folder folder.new self.new writes.new) }
        ensures changed { OnOk result (Changes self.old.writer (IsWindow self.old.writer band rect samples.now)
            (state_of F.Folder folder.old self.old writes.old) (state_of F.Folder folder.new self.new writes.new)) }
        ensures met { OnOk result ((cut_of self.old.writer).by_columns ≡ true →
            AreMet self.old.writer band rect.x rect.w (state_of F.Folder folder.old self.old writes.old)
            (state_of F.Folder folder.new self.new writes.new)) }
        ensures cause { HasCause TargetFault.FolderFault (F.faults folder.old) (F.faults folder.new) result }
    {
        let shape = self.writer.shape();
        if shape.by_columns {
            self.put_columns(alloc, folder, band, rect, samples, writes)
        } else {
            self.put_rows(alloc, folder, band, rect, samples, writes)
        }
    }

    // Writes all blocks that aren't written yet. The pool is then empty.
    pub(crate) fn flush<L: Ledger>(
        &mut self,
        folder: &mut F,
        writes: &mut Counter<L>,
    ) -> Result<(), TargetFault>
        requires sound { IsSound self.old.writer self.old.pool }
        requires long { F.draft_len self.old.draft ≡ needed_of self.old.writer }
        ensures head { self.new.writer ≡ self.old.writer }
        ensures serves { Serves self.old.writer (length self.old.pool.entries) (length self.old.pool.entries)
            (state_of F.Folder folder.old self.old writes.old) (state_of F.Folder folder.new self.new writes.new) }
        ensures changed { OnOk result (Changes self.old.writer (AreSame self.old.writer)
            (state_of F.Folder folder.old self.old writes.old) (state_of F.Folder folder.new self.new writes.new)) }
        ensures empty { OnOk result (self.new.pool.entries ≡ []) }
        ensures cause { HasCause TargetFault.FolderFault (F.faults folder.old) (F.faults folder.new) result }
    {
        while let Some((key, block)) = self.pool.take_dirty() {
            self.write(folder, key, block, writes)?;
        }
        Ok(())
    }
}
