// The data of an output: blocks through a pool, or lines of text one behind the other.
ghost use Rattle.std.specs.Prelude.{◌≡◌, ◌<◌, ◌≤◌, ◌+◌, ◌*◌, ℕ, List, length, Some, true, OnOk};
ghost use Rattle.std.specs.List.{list_all};
ghost use Rattle.outside.specs.Causes.{HasCause};
ghost use Rattle.write_back.specs.View.{bands_of, columns_of, is_writable, line_count_of, AreWritable, IsNext};
ghost use Rattle.write_back.specs.View.{IsSoundOn};
ghost use Rattle.write_back.specs.View.{IsRightOn};
ghost use Rattle.write_back.specs.Served.{PutsWindow, FinishesIn, KeepsIn};
ghost use Rattle.write_back.specs.Files.{IsForm};
ghost use Rattle.write_back.specs.Drafts.{HasBytes};

use crate::TargetFault;
use crate::rows::RowStore;
use crate::store::Store;
use geotransform::{PixelType, Rect, Sample, Size, holds};
use outside::{Counter, Folder};
use std::alloc::Global;
use std::marker::Model;
use std::sync::ledger::Ledger;

/// How an output's data is written.
pub(crate) enum Kind<F: Folder> {
    /// Blocks, through a pool.
    Blocks(Store<F>),
    /// The lines of a grid, as they come.
    Rows(RowStore<F>),
}

/// The data of an output that is being written.
pub(crate) struct Sheet<F: Folder> {
    pub(crate) kind: Kind<F>,
}

impl<F: Folder> Model for Sheet<F> {
    ghost use Rattle.write_back.specs.View.{SheetView};

    ghost Value = { SheetView };

    ghost use Rattle.write_back.specs.Seen.{sheet_of};

    ghost view = { λ s. sheet_of F.draft_bytes F.draft_len F.draft_name s.kind };
}

impl<F: Folder> Sheet<F> {
    // The number of bands.
    pub(crate) fn bands(&self) -> u32
        ensures { result ≡ bands_of self.now.output }
    {
        match &self.kind {
            Kind::Blocks(store) => store.writer.bands(),
            Kind::Rows(_) => 1,
        }
    }

    // The columns and the lines.
    pub(crate) fn size(&self) -> Size
        ensures columns { result.w ≡ columns_of self.now.output }
        ensures rows { result.h ≡ line_count_of self.now.output }
    {
        match &self.kind {
            Kind::Blocks(store) => store.writer.size(),
            Kind::Rows(rows) => rows.form.size,
        }
    }

    // Whether a sample can be written.
    fn takes(&self, n: Sample) -> bool
        ensures { result ≡ is_writable self.now.output n }
    {
        match &self.kind {
            Kind::Blocks(store) => store.writer.holds(n),
            Kind::Rows(_) => holds(PixelType::Int32, n),
        }
    }

    // Whether each of these samples can be written.
    #[tactic(auto, using(crate::proofs::Sheets::all_writable))]
    pub(crate) fn holds(&self, samples: &[Sample]) -> bool
        ensures each { result ≡ list_all (is_writable self.now.output) samples.now }
        ensures writable { result ≡ true → AreWritable self.now.output samples.now }
    {
        samples.iter().all(|n| self.takes(*n))
    }

    // Whether a window of this rectangle may come next.
    pub(crate) fn is_next(&self, rect: Rect) -> bool
        ensures next { result ≡ true → IsNext self.now.output self.now.lines rect }
        ensures no_other { IsNext self.now.output self.now.lines rect → result ≡ true }
    {
        match &self.kind {
            Kind::Blocks(_) => true,
            Kind::Rows(rows) => {
                rect.x == 0 && rect.w == rows.form.size.w && rect.y == rows.lines
            }
        }
    }

    // Puts samples over a rectangle of a band that isn't empty.
    pub(crate) fn put_window<L: Ledger>(
        &mut self,
        alloc: Global,
        folder: &mut F,
        band: u32,
        rect: Rect,
        samples: &[Sample],
        writes: &mut Counter<L>,
    ) -> Result<(), TargetFault>
        requires wide { 0 < rect.w }
        requires high { 0 < rect.h }
        requires sound { IsSoundOn self.old.output self.old }
        requires right { IsRightOn self.old.output (F.names folder.old) self.old }
        requires band { band < bands_of self.old.output }
        requires across { rect.x + rect.w ≤ columns_of self.old.output }
        requires down { rect.y + rect.h ≤ line_count_of self.old.output }
        requires size { length samples.now ≡ rect.w * rect.h }
        requires range { AreWritable self.old.output samples.now }
        requires next { IsNext self.old.output self.old.lines rect }
        ensures kept { KeepsIn F.Folder rect folder.old self.old writes.old folder.new self.new writes.new }
        ensures put { OnOk result (PutsWindow band rect samples.now (F.names folder.old) (F.names folder.new) self.old
            self.new) }
        ensures cause { HasCause TargetFault.FolderFault (F.faults folder.old) (F.faults folder.new) result }
    {
        match &mut self.kind {
            Kind::Blocks(store) => {
                return store.put_window(alloc, folder, band, rect, samples, writes);
            }
            Kind::Rows(rows) => return rows.put_lines(folder, rect, samples, writes),
        }
    }

    // Puts samples over a rectangle of a band, which may be empty.
    pub(crate) fn put<L: Ledger>(
        &mut self,
        alloc: Global,
        folder: &mut F,
        band: u32,
        rect: Rect,
        samples: &[Sample],
        writes: &mut Counter<L>,
    ) -> Result<(), TargetFault>
        requires form { IsForm self.old.output }
        requires sound { IsSoundOn self.old.output self.old }
        requires right { IsRightOn self.old.output (F.names folder.old) self.old }
        requires band { band < bands_of self.old.output }
        requires across { rect.x + rect.w ≤ columns_of self.old.output }
        requires down { rect.y + rect.h ≤ line_count_of self.old.output }
        requires size { length samples.now ≡ rect.w * rect.h }
        requires range { AreWritable self.old.output samples.now }
        requires next { IsNext self.old.output self.old.lines rect }
        ensures kept { KeepsIn F.Folder rect folder.old self.old writes.old folder.new self.new writes.new }
        ensures put { OnOk result (PutsWindow band rect samples.now (F.names folder.old) (F.names folder.new) self.old
            self.new) }
        ensures cause { HasCause TargetFault.FolderFault (F.faults folder.old) (F.faults folder.new) result }
    {
        if rect.w == 0 || rect.h == 0 {
            return Ok(());
        }
        self.put_window(alloc, folder, band, rect, samples, writes)
    }

    // Writes what isn't written yet. No block is held then.
    pub(crate) fn finish<L: Ledger>(
        &mut self,
        folder: &mut F,
        writes: &mut Counter<L>,
    ) -> Result<(), TargetFault>
        requires sound { IsSoundOn self.old.output self.old }
        requires right { IsRightOn self.old.output (F.names folder.old) self.old }
        ensures bytes { OnOk result (HasBytes (F.names folder.old) self.old self.new.draft) }
        ensures kept { FinishesIn F.Folder folder.old self.old writes.old folder.new self.new writes.new }
        ensures cause { HasCause TargetFault.FolderFault (F.faults folder.old) (F.faults folder.new) result }
    {
        match &mut self.kind {
            Kind::Blocks(store) => return store.flush(folder, writes),
            Kind::Rows(_) => return Ok(()),
        }
    }

    // The draft of the data.
    pub(crate) fn into_draft(self) -> F::Draft
        ensures bytes { (b : List ℕ) → self.draft ≡ Some b → F.draft_bytes result ≡ Some b }
        ensures name { F.draft_name result ≡ self.name }
    {
        let Sheet { kind } = self;
        match kind {
            Kind::Blocks(store) => {
                let Store {
                    writer,
                    pool,
                    draft,
                    written,
                    spare,
                } = store;
                drop((writer, pool, written, spare));
                draft
            }
            Kind::Rows(rows) => {
                let RowStore {
                    form: _,
                    lines: _,
                    text: _,
                    draft,
                } = rows;
                draft
            }
        }
    }
}
