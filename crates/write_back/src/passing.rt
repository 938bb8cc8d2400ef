// Whole blocks that are written past the pool, by their bytes.
ghost use Rattle.std.specs.Prelude.{◌≡◌, ◌<◌, ◌≤◌, ◌+◌, [], ℕ, List, length, true, Some, OnOk};
ghost use Rattle.outside.specs.Causes.{HasCause};
ghost use Rattle.write_back.specs.Forms.{band_total, cut_of, most_calls, needed_of, IsFormed};
ghost use Rattle.write_back.specs.Overlay.{line_key};
ghost use Rattle.write_back.specs.Stores.{IsBlockWritten, IsWindow, AreMet, Changes, Serves};
ghost use Rattle.write_back.specs.Packed.{block_len, block_rect, in_bytes, IsApart, IsBlockOf};
ghost use Rattle.write_back.specs.Packed.{packed_blocks, packed_in, packed_len, packed_rect, AreApart, IsPackedOf};
ghost use Rattle.write_back.specs.Packed.{Passes};
ghost use Rattle.write_back.specs.Seen.{known_in, state_of};
ghost use Rattle.write_back.specs.State.{IsSound};
ghost use Rattle.write_back.specs.View.{bands_of, IsRightOn, IsSoundOn};
ghost use Rattle.write_back.specs.Served.{PutsWindow};

use crate::TargetFault;
use crate::sheet::{Kind, Sheet};
use crate::store::Store;
use outside::{Counter, Folder};
use std::sync::ledger::Ledger;

impl<F: Folder> Store<F> {
    // Puts a block into the draft, whose bytes these are.
    fn put_block<L: Ledger>(
        &mut self,
        folder: &mut F,
        band: u32,
        block: u32,
        bytes: &[u8],
        writes: &mut Counter<L>,
    ) -> Result<(), TargetFault>
        requires band { band < (cut_of self.old.writer).bands }
        requires block { block < (cut_of self.old.writer).blocks }
        requires bytes { length bytes.now ≡ block_len self.old.writer }
        requires whole { IsBlockOf self.old.writer block bytes.now }
        requires long { F.draft_len self.old.draft ≡ needed_of self.old.writer }
        ensures head { self.new.writer ≡ self.old.writer }
        ensures pool { self.new.pool ≡ self.old.pool }
        ensures written { OnOk result ((b : List ℕ) → known_in F.draft_bytes self.old ≡ Some b →
            length b ≡ needed_of self.old.writer → IsFormed self.old.writer b → (c : List ℕ) ×
            (known_in F.draft_bytes self.new ≡ Some c) × IsBlockWritten self.old.writer (line_key band block)
            (in_bytes self.old.writer bytes.now) b c) }
        ensures len { OnOk result (F.draft_len self.new.draft ≡ F.draft_len self.old.draft) }
        ensures name { F.draft_name self.new.draft ≡ F.draft_name self.old.draft }
        ensures names { F.names folder.new ≡ F.names folder.old }
        ensures reads { F.read_calls folder.new ≡ F.read_calls folder.old }
        ensures calls { F.write_calls folder.new ≤ F.write_calls folder.old + most_calls self.old.writer }
        ensures one { writes.new ≡ writes.old + 1 }
        ensures cause { HasCause TargetFault.FolderFault (F.faults folder.old) (F.faults folder.new) result }
    {
        writes.tick();
        self.written.mark(band, block);
        self.writer
            .put_block(folder, &mut self.draft, band, block, bytes)
    }

    // Puts a block of a band, whose bytes these are, past the pool, which holds no block.
    fn put_past<L: Ledger>(
        &mut self,
        folder: &mut F,
        band: u32,
        block: u32,
        bytes: &[u8],
        writes: &mut Counter<L>,
    ) -> Result<(), TargetFault>
        requires apart { IsApart self.old.writer }
        requires sound { IsSound self.old.writer self.old.pool }
        requires empty { self.old.pool.entries ≡ [] }
        requires long { F.draft_len self.old.draft ≡ needed_of self.old.writer }
        requires band { band < band_total self.old.writer }
        requires block { block < (cut_of self.old.writer).blocks }
        requires bytes { length bytes.now ≡ block_len self.old.writer }
        requires whole { IsBlockOf self.old.writer block bytes.now }
        ensures head { self.new.writer ≡ self.old.writer }
        ensures pool { self.new.pool ≡ self.old.pool }
        ensures serves { Serves self.old.writer 1 1 (state_of F.Folder folder.old self.old writes.old)
            (state_of F.Folder folder.new self.new writes.new) }
        ensures changed { OnOk result (Changes self.old.writer (IsWindow self.old.writer band
            (block_rect self.old.writer block) (in_bytes self.old.writer bytes.now))
            (state_of F.Folder folder.old self.old writes.old) (state_of F.Folder folder.new self.new writes.new)) }
        ensures met { OnOk result ((cut_of self.old.writer).by_columns ≡ true → AreMet self.old.writer band
            (block_rect self.old.writer block).x (block_rect self.old.writer block).w
            (state_of F.Folder folder.old self.old writes.old) (state_of F.Folder folder.new self.new writes.new)) }
        ensures one { writes.new ≡ writes.old + 1 }
        ensures calls { F.write_calls folder.new ≤ F.write_calls folder.old + most_calls self.old.writer }
        ensures cause { HasCause TargetFault.FolderFault (F.faults folder.old) (F.faults folder.new) result }
    {
        self.put_block(folder, band, block, bytes, writes)
    }
}

impl<F: Folder> Sheet<F> {
    // Puts a block of a band, whose bytes these are, past the pool, which holds no block.
    pub(crate) fn put_past<L: Ledger>(
        &mut self,
        folder: &mut F,
        band: u32,
        block: u32,
        bytes: &[u8],
        writes: &mut Counter<L>,
    ) -> Result<(), TargetFault>
        requires apart { AreApart self.old.output }
        requires sound { IsSoundOn self.old.output self.old }
        requires right { IsRightOn self.old.output (F.names folder.old) self.old }
        requires empty { self.old.pool.entries ≡ [] }
        requires band { band < bands_of self.old.output }
        requires block { block < packed_blocks self.old.output }
        requires bytes { length bytes.now ≡ packed_len self.old.output }
        requires whole { IsPackedOf self.old.output block bytes.now }
        ensures kept { Passes self.old self.new (F.names folder.old) (F.names folder.new) (F.read_calls folder.old)
            (F.read_calls folder.new) (F.write_calls folder.old) (F.write_calls folder.new) writes.old writes.new }
        ensures put { OnOk result (PutsWindow band (packed_rect self.old.output block)
            (packed_in self.old.output bytes.now) (F.names folder.old) (F.names folder.new) self.old self.new) }
        ensures cause { HasCause TargetFault.FolderFault (F.faults folder.old) (F.faults folder.new) result }
    {
        match &mut self.kind {
            Kind::Blocks(store) => return store.put_past(folder, band, block, bytes, writes),
            Kind::Rows(_) => unreachable!(),
        }
    }
}
