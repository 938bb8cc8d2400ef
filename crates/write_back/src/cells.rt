// Columns of a DTED cell, each written and read as a whole record.
ghost use Rattle.std.specs.Prelude.{◌≡◌, ◌<◌, ◌≤◌, ◌+◌, ◌*◌, ℕ, List, length, vec_len, vec_items, true, Some, OnOk};
ghost use Rattle.std.specs.Prelude.{IfOk};
ghost use Rattle.std.specs.List.{All};
ghost use Rattle.outside.specs.Causes.{HasCause, one_more};
ghost use Rattle.outside.specs.Outside.{Written};
ghost use Rattle.geotransform.specs.declared.types.PixelType.TheVariants.{Int16};
ghost use Rattle.dted_records.specs.Head.{IsHead};
ghost use Rattle.dted_records.specs.Places.{needed_of, record_len, record_of};
ghost use Rattle.dted_records.specs.Records.{column_of};
ghost use Rattle.lists_and_answers.specs.Places.{StandsAt};
ghost use Rattle.dted_records.specs.Written.{record_bytes};
ghost use Rattle.write_back.specs.Columns.{cell_with_front, is_elevation};
ghost use Rattle.write_back.specs.Pieces.{AreBytes};

use crate::TargetFault;
use crate::pieces::put_bytes;
use band_blocks::Block;
use dted_records::DtedHead;
use outside::Folder;
use std::alloc::{AllocError, Global};
use std::marker::Model;

/// Writes and reads the columns of a cell, through room of its own. Contracts see the head, and the bytes in front of
/// the records.
#[derive(Drop)]
pub(crate) struct ColumnWriter {
    head: DtedHead,
    front: Vec<u8>,
    bytes: Vec<u8>,
}

impl Model for ColumnWriter {
    ghost use Rattle.std.specs.Prelude.{vec_items, vec_len};
    ghost use Rattle.write_back.specs.Columns.{Cell, FitsCell};

    ghost Value = { Cell };

    ghost view = { λ w. record { head = w.head; front = vec_items w.front } };

    ghost invariant = { λ w. FitsCell w.head (vec_len w.front) (vec_len w.bytes) };
}

impl ColumnWriter {
    // Room for a record, with the bytes in front of the records. It is refused where memory is.
    pub(crate) fn new(
        alloc: Global,
        head: &DtedHead,
        front: Vec<u8>,
    ) -> Result<ColumnWriter, AllocError>
        requires front { vec_len front ≡ record_of head.now 0 }
        ensures cell { IfOk result (λ writer. writer ≡ cell_with_front head.now (vec_items front)) }
    {
        let bytes = vec![in alloc; 0u8; head.record_len()]?;
        Ok(ColumnWriter {
            head: *head,
            front,
            bytes,
        })
    }

    // The head. It keeps the rules of a head.
    pub(crate) fn head(&self) -> DtedHead
        ensures head { result ≡ self.now.head }
        ensures valid { IsHead self.now.head }
    {
        // This read is made for the proof: it says what holds of every head.
        let _lines = self.head.lines;
        self.head
    }

    // Writes a column into the draft, as a whole record.
    pub(crate) fn write_column<F: Folder>(
        &mut self,
        folder: &mut F,
        draft: &mut F::Draft,
        x: u32,
        block: &Block,
    ) -> Result<(), TargetFault>
        requires column { x < self.old.head.lines }
        requires long { F.draft_len draft.old ≡ needed_of self.old.head }
        requires kind { block.now.kind ≡ Int16 }
        requires range { All (λ n. is_elevation n ≡ true) block.now.samples }
        requires room { length block.now.samples ≡ self.old.head.points }
        ensures cell { self.new ≡ self.old }
        ensures told { OnOk result (Written (record_of self.old.head x) (record_bytes x block.now.samples)
            (F.draft_bytes draft.old) (F.draft_bytes draft.new)) }
        ensures small { AreBytes (record_bytes x block.now.samples) }
        ensures len { OnOk result (F.draft_len draft.new ≡ F.draft_len draft.old) }
        ensures name { F.draft_name draft.new ≡ F.draft_name draft.old }
        ensures names { F.names folder.new ≡ F.names folder.old }
        ensures reads { F.read_calls folder.new ≡ F.read_calls folder.old }
        ensures calls { F.write_calls folder.new ≡ one_more (F.write_calls folder.old) }
        ensures cause { HasCause TargetFault.FolderFault (F.faults folder.old) (F.faults folder.new) result }
    {
        let head = self.head;
        let bytes = self.bytes.as_mut_slice();
        put_record(folder, draft, &head, x, block, bytes)
    }

    // Puts a record into the draft, whose bytes these are.
    pub(crate) fn put_column<F: Folder>(
        &self,
        folder: &mut F,
        draft: &mut F::Draft,
        x: u32,
        bytes: &[u8],
    ) -> Result<(), TargetFault>
        requires column { x < self.now.head.lines }
        requires bytes { length bytes.now ≡ record_len self.now.head }
        requires long { F.draft_len draft.old ≡ needed_of self.now.head }
        ensures told { OnOk result (Written (record_of self.now.head x) bytes.now (F.draft_bytes draft.old)
            (F.draft_bytes draft.new)) }
        ensures small { AreBytes bytes.now }
        ensures len { OnOk result (F.draft_len draft.new ≡ F.draft_len draft.old) }
        ensures name { F.draft_name draft.new ≡ F.draft_name draft.old }
        ensures names { F.names folder.new ≡ F.names folder.old }
        ensures reads { F.read_calls folder.new ≡ F.read_calls folder.old }
        ensures calls { F.write_calls folder.new ≡ one_more (F.write_calls folder.old) }
        ensures cause { HasCause TargetFault.FolderFault (F.faults folder.old) (F.faults folder.new) result }
    {
        let head = self.head;
        put_record_bytes(folder, draft, &head, x, bytes)
    }

    // Reads a column from the draft, as a whole record.
    pub(crate) fn read_column<F: Folder>(
        &mut self,
        folder: &mut F,
        draft: &mut F::Draft,
        x: u32,
        block: &mut Block,
    ) -> Result<(), TargetFault>
        requires column { x < self.old.head.lines }
        requires long { F.draft_len draft.old ≡ needed_of self.old.head }
        requires kind { block.old.kind ≡ Int16 }
        requires room { length block.old.samples ≡ self.old.head.points }
        ensures cell { self.new ≡ self.old }
        ensures told { OnOk result ((b : List ℕ) → F.draft_bytes draft.old ≡ Some b →
            length b ≡ needed_of self.old.head → block.new.samples ≡ column_of self.old.head b x) }
        ensures kind { OnOk result (block.new.kind ≡ Int16) }
        ensures count { OnOk result (length block.new.samples ≡ self.old.head.points) }
        ensures range { OnOk result (All (λ n. is_elevation n ≡ true) block.new.samples) }
        ensures bytes { F.draft_bytes draft.new ≡ F.draft_bytes draft.old }
        ensures len { F.draft_len draft.new ≡ F.draft_len draft.old }
        ensures name { F.draft_name draft.new ≡ F.draft_name draft.old }
        ensures names { F.names folder.new ≡ F.names folder.old }
        ensures reads { F.read_calls folder.new ≡ F.read_calls folder.old }
        ensures calls { F.write_calls folder.new ≡ F.write_calls folder.old }
        ensures cause { HasCause TargetFault.FolderFault (F.faults folder.old) (F.faults folder.new) result }
    {
        let head = self.head;
        let bytes = self.bytes.as_mut_slice();
        get_record(folder, draft, &head, x, bytes, block)
    }
}

// Reads the elevations of a record, from north to south, into their column.
fn decode_column(head: &DtedHead, bytes: &[u8], block: &mut Block)
    requires len { length bytes.now ≡ record_len head.now }
    requires kind { block.old.kind ≡ Int16 }
    requires points { length block.old.samples ≡ head.now.points }
    ensures file { (file : List ℕ) (x : ℕ) → StandsAt file bytes.now (record_of head.now x) →
        block.new.samples ≡ column_of head.now file x }
    ensures kind { block.new.kind ≡ Int16 }
    ensures count { length block.new.samples ≡ head.now.points }
    ensures range { All (λ n. is_elevation n ≡ true) block.new.samples }
{
    block.decode_record(head, bytes);
}

// Puts a column into a draft as a record, through room for its bytes.
fn put_record<F: Folder>(
    folder: &mut F,
    draft: &mut F::Draft,
    head: &DtedHead,
    x: u32,
    block: &Block,
    bytes: &mut [u8],
) -> Result<(), TargetFault>
    requires column { x < head.now.lines }
    requires bytes { length bytes.old ≡ record_len head.now }
    requires long { F.draft_len draft.old ≡ needed_of head.now }
    requires kind { block.now.kind ≡ Int16 }
    requires range { All (λ n. is_elevation n ≡ true) block.now.samples }
    requires room { length block.now.samples ≡ head.now.points }
    ensures told { OnOk result (Written (record_of head.now x) (record_bytes x block.now.samples)
        (F.draft_bytes draft.old) (F.draft_bytes draft.new)) }
    ensures small { AreBytes (record_bytes x block.now.samples) }
    ensures len { OnOk result (F.draft_len draft.new ≡ F.draft_len draft.old) }
    ensures name { F.draft_name draft.new ≡ F.draft_name draft.old }
    ensures names { F.names folder.new ≡ F.names folder.old }
    ensures reads { F.read_calls folder.new ≡ F.read_calls folder.old }
    ensures calls { F.write_calls folder.new ≡ one_more (F.write_calls folder.old) }
    ensures cause { HasCause TargetFault.FolderFault (F.faults folder.old) (F.faults folder.new) result }
{
    // This read is made for the proof: it says what holds of every head.
    let _lines = head.lines;
    block.encode_record(x, bytes);
    put_bytes(folder, draft, head.record_at(x), bytes)
}

// Puts a record into a draft, whose bytes these are.
fn put_record_bytes<F: Folder>(
    folder: &mut F,
    draft: &mut F::Draft,
    head: &DtedHead,
    x: u32,
    bytes: &[u8],
) -> Result<(), TargetFault>
    requires column { x < head.now.lines }
    requires bytes { length bytes.now ≡ record_len head.now }
    requires long { F.draft_len draft.old ≡ needed_of head.now }
    ensures told { OnOk result (Written (record_of head.now x) bytes.now (F.draft_bytes draft.old)
        (F.draft_bytes draft.new)) }
    ensures small { AreBytes bytes.now }
    ensures len { OnOk result (F.draft_len draft.new ≡ F.draft_len draft.old) }
    ensures name { F.draft_name draft.new ≡ F.draft_name draft.old }
    ensures names { F.names folder.new ≡ F.names folder.old }
    ensures reads { F.read_calls folder.new ≡ F.read_calls folder.old }
    ensures calls { F.write_calls folder.new ≡ one_more (F.write_calls folder.old) }
    ensures cause { HasCause TargetFault.FolderFault (F.faults folder.old) (F.faults folder.new) result }
{
    put_bytes(folder, draft, head.record_at(x), bytes)
}

// Reads a column, through room for its bytes.
fn get_record<F: Folder>(
    folder: &mut F,
    draft: &mut F::Draft,
    head: &DtedHead,
    x: u32,
    bytes: &mut [u8],
    block: &mut Block,
) -> Result<(), TargetFault>
    requires column { x < head.now.lines }
    requires bytes { length bytes.old ≡ record_len head.now }
    requires long { F.draft_len draft.old ≡ needed_of head.now }
    requires kind { block.old.kind ≡ Int16 }
    requires room { length block.old.samples ≡ head.now.points }
    ensures told { OnOk result ((b : List ℕ) → F.draft_bytes draft.old ≡ Some b → length b ≡ needed_of head.now →
        block.new.samples ≡ column_of head.now b x) }
    ensures kind { OnOk result (block.new.kind ≡ Int16) }
    ensures count { OnOk result (length block.new.samples ≡ head.now.points) }
    ensures range { OnOk result (All (λ n. is_elevation n ≡ true) block.new.samples) }
    ensures bytes { F.draft_bytes draft.new ≡ F.draft_bytes draft.old }
    ensures len { F.draft_len draft.new ≡ F.draft_len draft.old }
    ensures name { F.draft_name draft.new ≡ F.draft_name draft.old }
    ensures names { F.names folder.new ≡ F.names folder.old }
    ensures reads { F.read_calls folder.new ≡ F.read_calls folder.old }
    ensures calls { F.write_calls folder.new ≡ F.write_calls folder.old }
    ensures cause { HasCause TargetFault.FolderFault (F.faults folder.old) (F.faults folder.new) result }
{
    let at = head.record_at(x);
    folder.draft_read(draft, at, bytes)?;
    decode_column(head, bytes, block);
    Ok(())
}
