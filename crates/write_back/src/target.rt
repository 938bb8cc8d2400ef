// An output that is written: its data, and a draft of its header where it has one.
ghost use Rattle.std.specs.Prelude.{◌≡◌, ◌<◌, ◌≤◌, ◌+◌, ◌*◌, ◌-◌, [], ℕ, ℤ, pos, length, Some, None, IsTrue};
ghost use Rattle.std.specs.Prelude.{IsSome, OnOk, IfOk, IfErr, IfSome, true, min, Err, Option, vec_len, vec_items};
ghost use Rattle.std.specs.List.{list_all};
ghost use Rattle.std.specs.Result.{result_err};
ghost use Rattle.outside.specs.Causes.{HasCause, Rose};
ghost use Rattle.outside.specs.Names.{extension_of, is_raw};
ghost use Rattle.geotransform.specs.Geo.{IsRaster};
ghost use Rattle.hgt_tiles.specs.Places.{IsSide};
ghost use Rattle.dted_records.specs.Places.{record_of};
ghost use Rattle.block_cache.specs.Entries.{pool_view, IsPool};
ghost use Rattle.write_back.specs.declared.forms.Writer.TheVariants.{Raw, Hgt, Dted};
ghost use Rattle.write_back.specs.declared.fault.TargetFault.{TargetFault};
ghost use Rattle.write_back.specs.Columns.{cell_with_front};
ghost use Rattle.write_back.specs.Packed.{packed_blocks, packed_in, packed_len, packed_rect, AreApart, IsPackedOf};
ghost use Rattle.write_back.specs.View.{Blocks, Rows, all_blocks, bands_of, window_blocks, calls_of, columns_of};
ghost use Rattle.write_back.specs.View.{is_writable, lines_after, line_count_of, AreWritable, IsNext, IsPooled};
ghost use Rattle.write_back.specs.View.{MeetsAll, Shows};
ghost use Rattle.write_back.specs.Files.{target_files, IsTarget, IsTight, Publishes};
ghost use Rattle.write_back.specs.Drafts.{AreRawDrafts, IsNew};
ghost use Rattle.write_back.specs.Served.{IsLeftIn};
ghost use Rattle.band_blocks.specs.Blocks.{most_blocks};

use crate::cells::ColumnWriter;
use crate::drafts::{discard_header, front_draft, publish_all, text_draft, zeros_draft};
use crate::forms::Writer;
use crate::rows::{GridForm, RowStore};
use crate::sheet::{Kind, Sheet};
use crate::store::Store;
use crate::tiles::TileWriter;
use crate::unwritten::Written;
use crate::writer::{LineWriter, line_bands};
use crate::{CloseFault, TargetFault};
use ascii_grid::write_head;
use block_cache::Pool;
use dted_records::DtedHead;
use esri_hdr::{RawHead, write};
use geotransform::{Rect, Sample, Size};
use interleaved_raw::needed_len;
use outside::{Counter, Folder, Name};
use std::alloc::{AllocError, Global};
use std::marker::Model;
use std::sync::ledger::Ledger;

// What the lines of raw data are written through, with a pool that holds none and no line written.
fn raw_parts(
    alloc: Global,
    head: &RawHead,
    capacity: u32,
) -> Result<(LineWriter, Pool, Written), AllocError>
    requires some { 1 ≤ capacity }
    requires few { capacity ≤ most_blocks }
    ensures writer { IfOk result (λ p. p.0 ≡ head.now) }
    ensures pool { IfOk result (λ p. p.1 ≡ pool_view [] capacity) }
    ensures valid { IfOk result (λ p. IsPool p.1) }
{
    let pool = Pool::new(alloc, capacity)?;
    let writer = LineWriter::new(alloc, head)?;
    let written = Written::new(alloc, line_bands(head), head.size.h)?;
    Ok((writer, pool, written))
}

// A draft of zeros for the raw data of a head, and one of its header. After a refusal neither is left.
fn raw_drafts<F: Folder>(
    alloc: Global,
    folder: &mut F,
    head: &RawHead,
    name: &Name,
) -> Result<(F::Draft, F::Draft), TargetFault>
    requires raw { IsTrue (is_raw (extension_of name.now)) }
    ensures drafts { IfOk result (λ d. AreRawDrafts (F.names folder.old) head.now name.now (F.draft_bytes d.0)
        (F.draft_len d.0) (F.draft_name d.0) (F.draft_bytes d.1) (F.draft_name d.1)) }
    ensures kept { IsLeftIn F.Folder folder.old folder.new }
    ensures cause { HasCause TargetFault.FolderFault (F.faults folder.old) (F.faults folder.new) result }
{
    let header_name = name.header(alloc)?;
    let mut text = Vec::new(alloc);
    write(head, &mut text)?;
    let draft = zeros_draft(folder, name, needed_len(head))?;
    match text_draft(folder, &header_name, &text) {
        Ok(header) => Ok((draft, header)),
        Err(fault) => {
            folder.discard(draft);
            Err(fault)
        }
    }
}

// Gives the drafts of an output up: no name changes.
fn discard_drafts<F: Folder>(folder: &mut F, sheet: Sheet<F>, header: Option<F::Draft>)
    ensures names { F.names folder.new ≡ F.names folder.old }
    ensures reads { F.read_calls folder.new ≡ F.read_calls folder.old }
    ensures calls { F.write_calls folder.new ≡ F.write_calls folder.old }
    ensures faults { F.faults folder.new ≡ F.faults folder.old }
{
    folder.discard(sheet.into_draft());
    discard_header(folder, header);
}

/// An output that is being written. Contracts see what is written, the pool, the bytes of the drafts, the name, the
/// lines of a grid that were written, and the fault that a refused window left.
pub struct Target<F: Folder> {
    sheet: Sheet<F>,
    header: Option<F::Draft>,
    fault: Option<TargetFault>,
}

impl<F: Folder> Model for Target<F> {
    ghost use Rattle.write_back.specs.View.{TargetView, target_of};

    ghost Value = { TargetView };

    ghost use Rattle.write_back.specs.Files.{header_state};

    ghost view = { λ t. target_of t.sheet (header_state F.draft_bytes F.draft_name t.header) t.fault };
}

impl<F: Folder> Target<F> {
    /// Drafts for raw data of this head, in which nothing but samples stands, and its header. All samples are 0. The
    /// pool is empty and holds 1 to 65,536 blocks, each a line of a band, or of all bands where they lie pixel by
    /// pixel. After a refusal no draft is left.
    pub(crate) fn create_raw(
        alloc: Global,
        folder: &mut F,
        head: &RawHead,
        name: &Name,
        capacity: u32,
    ) -> Result<Target<F>, TargetFault>
        requires some { 1 ≤ capacity }
        requires few { capacity ≤ most_blocks }
        requires raw { IsTrue (is_raw (extension_of name.now)) }
        requires tight { IsTight head.now }
        ensures output { IfOk result (λ t. t.output ≡ Blocks (Raw head.now)) }
        ensures made { IfOk result (IsNew (F.names folder.old) (F.names folder.new) name.now capacity) }
        ensures kept { IsLeftIn F.Folder folder.old folder.new }
        ensures cause { HasCause TargetFault.FolderFault (F.faults folder.old) (F.faults folder.new) result }
    {
        // This read is made for the proof: it says what holds of every head.
        let _bands = head.bands;
        let parts = raw_parts(alloc, head, capacity)?;
        let drafts = raw_drafts(alloc, folder, head, name)?;
        let (writer, pool, written) = parts;
        let (draft, header) = drafts;
        let writer = Writer::Raw(writer);
        let kind = Kind::Blocks(Store {
            writer,
            pool,
            draft,
            written,
            spare: None,
        });
        Ok(Target {
            sheet: Sheet { kind },
            header: Some(header),
            fault: None,
        })
    }

    /// A draft for a tile of this side, whose samples are 0, and an empty pool of 1 to 65,536 lines.
    pub(crate) fn create_tile(
        alloc: Global,
        folder: &mut F,
        side: u32,
        name: &Name,
        capacity: u32,
    ) -> Result<Target<F>, TargetFault>
        requires some { 1 ≤ capacity }
        requires few { capacity ≤ most_blocks }
        requires side { IsSide side }
        ensures output { IfOk result (λ t. t.output ≡ Blocks (Hgt side)) }
        ensures made { IfOk result (IsNew (F.names folder.old) (F.names folder.new) name.now capacity) }
        ensures kept { IsLeftIn F.Folder folder.old folder.new }
        ensures cause { HasCause TargetFault.FolderFault (F.faults folder.old) (F.faults folder.new) result }
    {
        let pool = Pool::new(alloc, capacity)?;
        let writer = TileWriter::new(alloc, side)?;
        let written = Written::new(alloc, 1, side)?;
        let draft = zeros_draft(folder, name, 2 * (side as u64 * side as u64))?;
        let writer = Writer::Hgt(writer);
        let kind = Kind::Blocks(Store {
            writer,
            pool,
            draft,
            written,
            spare: None,
        });
        Ok(Target {
            sheet: Sheet { kind },
            header: None,
            fault: None,
        })
    }

    /// A draft for a cell of this head with these bytes in front of the records, whose samples are 0, and an empty
    /// pool of 1 to 65,536 columns.
    pub(crate) fn create_cell(
        alloc: Global,
        folder: &mut F,
        head: &DtedHead,
        front: Vec<u8>,
        name: &Name,
        capacity: u32,
    ) -> Result<Target<F>, TargetFault>
        requires some { 1 ≤ capacity }
        requires few { capacity ≤ most_blocks }
        requires front { vec_len front ≡ record_of head.now 0 }
        ensures output { IfOk result (λ t. t.output ≡ Blocks (Dted (cell_with_front head.now (vec_items front)))) }
        ensures made { IfOk result (IsNew (F.names folder.old) (F.names folder.new) name.now capacity) }
        ensures kept { IsLeftIn F.Folder folder.old folder.new }
        ensures cause { HasCause TargetFault.FolderFault (F.faults folder.old) (F.faults folder.new) result }
    {
        let pool = Pool::new(alloc, capacity)?;
        let written = Written::new(alloc, 1, head.lines)?;
        let draft = front_draft(folder, name, front.as_slice(), head.needed_len())?;
        match ColumnWriter::new(alloc, head, front) {
            Ok(writer) => {
                let writer = Writer::Dted(writer);
                let kind = Kind::Blocks(Store {
                    writer,
                    pool,
                    draft,
                    written,
                    spare: None,
                });
                Ok(Target {
                    sheet: Sheet { kind },
                    header: None,
                    fault: None,
                })
            }
            Err(_) => {
                folder.discard(draft);
                Err(TargetFault::Memory)
            }
        }
    }

    /// A draft for a grid, of which no line is written yet. Its lines are added as they come, and no pool is made.
    pub(crate) fn create_grid(
        alloc: Global,
        folder: &mut F,
        form: &GridForm,
        name: &Name,
    ) -> Result<Target<F>, TargetFault>
        requires size { IsRaster form.now.size }
        ensures output { IfOk result (λ t. t.output ≡ Rows form.now) }
        ensures made { (capacity : ℕ) →
            IfOk result (IsNew (F.names folder.old) (F.names folder.new) name.now capacity) }
        ensures kept { IsLeftIn F.Folder folder.old folder.new }
        ensures cause { HasCause TargetFault.FolderFault (F.faults folder.old) (F.faults folder.new) result }
    {
        let mut text = Vec::new(alloc);
        write_head(form.size, form.geo.as_ref(), form.nodata, &mut text)?;
        let draft = text_draft(folder, name, &text)?;
        let kind = Kind::Rows(RowStore {
            form: *form,
            lines: 0,
            text,
            draft,
        });
        Ok(Target {
            sheet: Sheet { kind },
            header: None,
            fault: None,
        })
    }

    /// The number of bands.
    pub fn bands(&self) -> u32
        ensures { result ≡ bands_of self.now.output }
    {
        self.sheet.bands()
    }

    /// The columns and the lines.
    pub fn size(&self) -> Size
        ensures columns { result.w ≡ columns_of self.now.output }
        ensures rows { result.h ≡ line_count_of self.now.output }
    {
        self.sheet.size()
    }

    /// Whether each of these samples can be written.
    pub fn holds(&self, samples: &[Sample]) -> bool
        ensures each { result ≡ list_all (is_writable self.now.output) samples.now }
        ensures writable { result ≡ true → AreWritable self.now.output samples.now }
    {
        self.sheet.holds(samples)
    }

    /// Whether a window of this rectangle may come next: in a grid it is whole lines, the first of which is the next.
    pub fn is_next(&self, rect: Rect) -> bool
        ensures next { result ≡ true → IsNext self.now.output self.now.lines rect }
        ensures no_other { IsNext self.now.output self.now.lines rect → result ≡ true }
    {
        self.sheet.is_next(rect)
    }

    /// Puts samples of the output's type over a rectangle of a band, row by row; in a grid these are whole lines, the
    /// next ones. Each block that is written to the draft ticks `writes` once. FolderFault comes where a call of the
    /// folder failed, Memory where memory was refused; each later call answers the same fault.
    pub fn write_window<L: Ledger>(
        &mut self,
        alloc: Global,
        folder: &mut F,
        band: u32,
        rect: Rect,
        samples: &[Sample],
        writes: &mut Counter<L>,
    ) -> Result<(), TargetFault>
        requires target { IsTarget (F.names folder.old) self.old }
        requires band { band < bands_of self.old.output }
        requires across { rect.x + rect.w ≤ columns_of self.old.output }
        requires down { rect.y + rect.h ≤ line_count_of self.old.output }
        requires size { length samples.now ≡ rect.w * rect.h }
        requires range { AreWritable self.old.output samples.now }
        requires next { self.old.fault ≡ None → IsNext self.old.output self.old.lines rect }
        ensures target { IsTarget (F.names folder.new) self.new }
        ensures output { self.new.output ≡ self.old.output }
        ensures name { self.new.name ≡ self.old.name }
        ensures capacity { self.new.pool.capacity ≡ self.old.pool.capacity }
        // the window's samples stand inside the rectangle, and all others are as before
        ensures overlay { OnOk result (Shows (F.names folder.old) band rect samples.now self.old self.new) }
        ensures met { OnOk result (MeetsAll (F.names folder.old) rect self.old self.new) }
        ensures lines { OnOk result (self.new.lines ≡ lines_after self.old.output self.old.lines rect) }
        ensures fault { self.new.fault ≡ result_err result }
        ensures earlier { IfSome self.old.fault (λ f. result ≡ Err f) }
        ensures still { IsSome self.old.fault → F.faults folder.new ≡ F.faults folder.old }
        ensures cause { self.old.fault ≡ None → HasCause TargetFault.FolderFault (F.faults folder.old)
            (F.faults folder.new) result }
        ensures later { F.faults folder.old ≤ F.faults folder.new }
        ensures names { F.names folder.new ≡ F.names folder.old }
        ensures reads { F.read_calls folder.new ≡ F.read_calls folder.old }
        ensures counted { writes.old ≤ writes.new }
        ensures few { writes.new ≤ writes.old + window_blocks self.old.output rect }
        ensures none { IsPooled self.old.output → all_blocks self.old.output ≤ self.old.pool.capacity →
            writes.new ≡ writes.old }
        ensures calls { F.write_calls folder.new ≤ F.write_calls folder.old + calls_of self.old.output
            * (writes.new - writes.old) }
    {
        if let Some(fault) = self.fault {
            return Err(fault);
        }
        let done = self.sheet.put(alloc, folder, band, rect, samples, writes);
        let fault = done.err();
        self.fault = fault;
        done
    }

    /// Puts a whole block of a band, whose bytes these are, into the draft past the pool, which holds none: a line, or
    /// a column of a cell, whose bytes are those of its record. The samples of each block are of one band. It is as if
    /// `write_window` were called with the samples of these bytes. `writes` is ticked once where the block is written.
    pub fn write_packed<L: Ledger>(
        &mut self,
        folder: &mut F,
        band: u32,
        block: u32,
        bytes: &[u8],
        writes: &mut Counter<L>,
    ) -> Result<(), TargetFault>
        requires target { IsTarget (F.names folder.old) self.old }
        requires apart { AreApart self.old.output }
        requires empty { self.old.pool.entries ≡ [] }
        requires band { band < bands_of self.old.output }
        requires block { block < packed_blocks self.old.output }
        requires bytes { length bytes.now ≡ packed_len self.old.output }
        requires whole { IsPackedOf self.old.output block bytes.now }
        ensures target { IsTarget (F.names folder.new) self.new }
        ensures output { self.new.output ≡ self.old.output }
        ensures name { self.new.name ≡ self.old.name }
        ensures pool { self.new.pool ≡ self.old.pool }
        // the samples of the bytes stand in the block, and all others are as before
        ensures overlay { OnOk result (Shows (F.names folder.old) band (packed_rect self.old.output block)
            (packed_in self.old.output bytes.now) self.old self.new) }
        ensures met { OnOk result (MeetsAll (F.names folder.old) (packed_rect self.old.output block) self.old
            self.new) }
        ensures lines { OnOk result (self.new.lines ≡ lines_after self.old.output self.old.lines
            (packed_rect self.old.output block)) }
        ensures fault { self.new.fault ≡ result_err result }
        ensures earlier { IfSome self.old.fault (λ f. result ≡ Err f) }
        ensures still { IsSome self.old.fault → F.faults folder.new ≡ F.faults folder.old }
        ensures cause { self.old.fault ≡ None → HasCause TargetFault.FolderFault (F.faults folder.old)
            (F.faults folder.new) result }
        ensures later { F.faults folder.old ≤ F.faults folder.new }
        ensures names { F.names folder.new ≡ F.names folder.old }
        ensures reads { F.read_calls folder.new ≡ F.read_calls folder.old }
        ensures counted { writes.old ≤ writes.new }
        ensures few { writes.new ≤ writes.old + 1 }
        ensures calls { F.write_calls folder.new ≤ F.write_calls folder.old + calls_of self.old.output
            * (writes.new - writes.old) }
    {
        if let Some(fault) = self.fault {
            return Err(fault);
        }
        let done = self.sheet.put_past(folder, band, block, bytes, writes);
        self.fault = done.err();
        done
    }

    /// Writes all blocks that aren't written yet, and publishes the data and then the header. After a refusal the
    /// first `published` files have their new bytes, and all other names keep their own; after a refused window no
    /// file is published, and the cause is that window's fault.
    pub fn close<L: Ledger>(self, folder: &mut F, writes: &mut Counter<L>) -> Result<(), CloseFault>
        requires target { IsTarget (F.names folder.old) self }
        // where it is whole, the first published files have their bytes, and all other names keep theirs
        ensures files { Publishes (F.names folder.old) self result (F.names folder.new) }
        ensures untouched { IfErr result (λ e. e.published ≡ 0 → F.names folder.new ≡ F.names folder.old) }
        ensures most { IfErr result (λ e. e.published < length (target_files self)) }
        ensures earlier { IfSome self.fault (λ f. result ≡ Err (record { published = 0; cause = f })) }
        ensures still { IsSome self.fault → F.faults folder.new ≡ F.faults folder.old }
        ensures cause { self.fault ≡ None → IfErr result (λ e. e.cause ≡ TargetFault.FolderFault →
            Rose (F.faults folder.old) (F.faults folder.new)) }
        ensures later { F.faults folder.old ≤ F.faults folder.new }
        ensures reads { F.read_calls folder.new ≡ F.read_calls folder.old }
        ensures counted { writes.old ≤ writes.new }
        ensures few { writes.new ≤ writes.old + min self.pool.capacity (all_blocks self.output) }
        ensures calls { F.write_calls folder.new ≤ F.write_calls folder.old + calls_of self.output
            * (writes.new - writes.old) }
    {
        let Target {
            mut sheet,
            header,
            fault,
        } = self;
        if let Some(cause) = fault {
            discard_drafts(folder, sheet, header);
            return Err(CloseFault {
                published: 0,
                cause,
            });
        }
        match sheet.finish(folder, writes) {
            Ok(()) => publish_all(folder, sheet.into_draft(), header),
            Err(cause) => {
                discard_drafts(folder, sheet, header);
                Err(CloseFault {
                    published: 0,
                    cause,
                })
            }
        }
    }

    /// Gives the drafts up: no name changes.
    pub fn give_up(self, folder: &mut F)
        ensures names { F.names folder.new ≡ F.names folder.old }
        ensures reads { F.read_calls folder.new ≡ F.read_calls folder.old }
        ensures calls { F.write_calls folder.new ≡ F.write_calls folder.old }
        ensures faults { F.faults folder.new ≡ F.faults folder.old }
    {
        let Target {
            sheet,
            header,
            fault: _,
        } = self;
        discard_drafts(folder, sheet, header);
    }
}
