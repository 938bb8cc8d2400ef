// The reader of an input in pieces.
ghost use Rattle.std.specs.Prelude.{◌≡◌, ◌≤◌, ◌<◌, ◌+◌, ◌++◌, List, ℕ, [], true, false, length, drop, nat_le, IfOk};
ghost use Rattle.std.specs.Prelude.{IfSome, None, if◌then◌else◌};
ghost use Rattle.std.specs.List.{list_all};
ghost use Rattle.std.specs.Option.{option_to_list};
ghost use Rattle.std.specs.Str.Lines.{lines, strip_carriage_return};
ghost use Rattle.input_points.specs.Lines.{is_in_line, ended_lines};
ghost use Rattle.input_points.specs.Points.{line_kind_of, longest_line};
ghost use Rattle.input_points.specs.Entries.{most_lines, ends, entries, ended_entries};
ghost use Rattle.input_points.specs.Reading.{start, kept, behind, coming};

use crate::entry::{Entry, LineKind};
use crate::words::{LONGEST, line_in, line_kind_of, without_return};
use std::alloc::{AllocError, Global};
use std::marker::Model;

/// The most lines that an input may have.
pub const MOST_LINES: u32 = 16_777_216;

/// The most bytes of a line without its line feed.
const MOST_BYTES: usize = LONGEST + 1;

/// Reads an input in pieces, and gives its lines one by one. It keeps the bytes of the line that hasn't ended, and
/// takes memory for them once. It stands for what is still to come: `coming lines` are the entries of all further
/// lines, where this text follows, and `coming ended_lines` those of the lines that have an end.
#[derive(Drop)]
pub struct PointLines {
    line: u32,
    over: bool,
    bytes: Vec<u8>,
}

impl Model for PointLines {
    ghost use Rattle.std.specs.Prelude.{◌≡◌, ◌≤◌, ◌<◌, ◌+◌, length, true};
    ghost use Rattle.std.specs.List.{list_all};
    ghost use Rattle.std.specs.Vec.{vec_capacity};
    ghost use Rattle.input_points.specs.Lines.{is_in_line};
    ghost use Rattle.input_points.specs.Points.{longest_line};
    ghost use Rattle.input_points.specs.Entries.{most_lines};
    ghost use Rattle.input_points.specs.Reading.{Reading};

    ghost Value = { Reading };

    ghost view = { λ p. record { line = p.line; held = p.bytes.items; over = p.over } };

    ghost invariant = { λ p. (p.line ≤ most_lines + 1) × (most_lines < p.line → length p.bytes.items ≡ 0) ×
        (length p.bytes.items ≤ longest_line + 1) × (longest_line + 1 ≤ vec_capacity p.bytes) ×
        (list_all is_in_line p.bytes.items ≡ true) };
}

impl PointLines {
    #[tactic(auto, unfolding(crate::specs::Reading::coming, crate::specs::Entries::entries, crate::specs::Entries::ended_entries))]
    /// Nothing was read. AllocError comes freely; the calls after this one take no memory.
    pub fn new(alloc: Global) -> Result<PointLines, AllocError>
        ensures start { IfOk result (λ p. p ≡ start) }
        ensures all { (text : List ℕ) → IfOk result (λ p. coming lines p text ≡ entries text) }
        ensures ended { (text : List ℕ) → IfOk result (λ p. coming ended_lines p text ≡ ended_entries text) }
    {
        Ok(PointLines {
            line: 1,
            over: false,
            bytes: Vec::with_capacity(alloc, MOST_BYTES)?,
        })
    }

    // Keeps the bytes behind those that are kept, where they aren't too many.
    fn keep(&mut self, bytes: &[u8]) -> bool
        requires inside { list_all is_in_line bytes.now ≡ true }
        requires few { self.old.line ≤ most_lines }
        ensures inside { list_all is_in_line self.old.held ≡ true }
        ensures fits { result ≡ nat_le (length self.old.held + length bytes.now) (longest_line + 1) }
        ensures state { self.new ≡ (if result then kept self.old bytes.now else self.old) }
    {
        bytes.len() <= MOST_BYTES - self.bytes.len() && self.bytes.extend_from_slice(bytes).is_ok()
    }

    #[tactic(auto, using(crate::proofs::PieceCalls::longer_is_bad))]
    // What the line says that ends behind these bytes.
    fn kind_behind(&mut self, bytes: &[u8]) -> LineKind
        requires inside { list_all is_in_line bytes.now ≡ true }
        requires few { self.old.line ≤ most_lines }
        ensures inside { list_all is_in_line self.old.held ≡ true }
        ensures kind { result ≡ line_kind_of (strip_carriage_return (self.old.held ++ bytes.now)) }
        ensures line { self.new.line ≡ self.old.line }
    {
        if self.bytes.is_empty() {
            return line_kind_of(without_return(bytes));
        }
        if self.keep(bytes) {
            return line_kind_of(without_return(&self.bytes));
        }
        LineKind::Bad
    }

    // The entry of the line, behind which the next one begins.
    fn answer(&mut self, kind: LineKind) -> Entry
        requires { ends kind ≡ false → self.old.line ≤ most_lines }
        ensures entry { result ≡ record { line = self.old.line; kind = kind } }
        ensures state { self.new ≡ behind self.old.line kind }
    {
        let line = self.line;
        let over = kind.ends();
        self.bytes.clear();
        self.over = over;
        if !over {
            self.line += 1;
        }
        Entry { line, kind }
    }

    #[tactic(auto, using(crate::proofs::PieceCalls::line_comes, crate::proofs::PieceCalls::ended_comes, crate::proofs::PieceCalls::kept_comes, crate::proofs::PieceCalls::long_comes, crate::proofs::PieceCalls::joined, crate::proofs::PieceCalls::kept_few))]
    // Reads the piece up to the line's end, or keeps all of it.
    fn read(&mut self, piece: &[u8]) -> (Option<Entry>, usize)
        requires going { self.old.over ≡ false }
        requires few { self.old.line ≤ most_lines }
        requires some { 0 < length piece.now }
        ensures all { (more : List ℕ) → coming lines self.old (piece.now ++ more) ≡ option_to_list result.0
            ++ coming lines self.new (drop result.1 piece.now ++ more) }
        ensures ended { IfSome result.0 (λ e. ends e.kind ≡ false) → (more : List ℕ) →
            coming ended_lines self.old (piece.now ++ more) ≡ option_to_list result.0 ++ coming ended_lines self.new
            (drop result.1 piece.now ++ more) }
        ensures last { IfSome result.0 (λ e. self.new.over ≡ ends e.kind) }
        ensures behind { IfSome result.0 (λ e. self.new ≡ behind self.old.line e.kind) }
        ensures inside { list_all is_in_line self.new.held ≡ true }
        ensures used { result.1 ≤ length piece.now }
        ensures more { 0 < result.1 }
        ensures rest { result.0 ≡ None → result.1 ≡ length piece.now }
        ensures kept { result.0 ≡ None → self.new ≡ kept self.old piece.now }
        ensures few { result.0 ≡ None → length self.new.held ≤ longest_line + 1 }
    {
        match line_in(piece) {
            Some(front) => {
                let kind = self.kind_behind(front);
                (Some(self.answer(kind)), front.len() + 1)
            }
            None if self.keep(piece) => (None, piece.len()),
            None => (Some(self.answer(LineKind::Bad)), piece.len()),
        }
    }

    /// The next line that ends in the piece, or none, and the number of the piece's bytes that were read: all of
    /// them where there is none. A line is answered before its end is seen where it is too long, or too many.
    /// Behind a line that is bad or one too many nothing comes any more.
    pub fn next(&mut self, piece: &[u8]) -> (Option<Entry>, usize)
        // what was still to come is the entry and what is still to come
        ensures all { (more : List ℕ) → coming lines self.old (piece.now ++ more) ≡ option_to_list result.0
            ++ coming lines self.new (drop result.1 piece.now ++ more) }
        // the same of the lines that have an end, where the reading goes on
        ensures ended { IfSome result.0 (λ e. ends e.kind ≡ false) → (more : List ℕ) →
            coming ended_lines self.old (piece.now ++ more) ≡ option_to_list result.0 ++ coming ended_lines self.new
            (drop result.1 piece.now ++ more) }
        // behind the last entry nothing comes
        ensures last { IfSome result.0 (λ e. ends e.kind ≡ true → (more : List ℕ) → coming lines self.new more ≡ []) }
        // the next line has the next number, up to one too many
        ensures behind { IfSome result.0 (λ e. self.new ≡ behind self.old.line e.kind) }
        ensures most { self.new.line ≤ most_lines + 1 }
        // no line that has an end is kept back
        ensures given { coming ended_lines self.new [] ≡ [] }
        ensures used { result.1 ≤ length piece.now }
        ensures forward { 0 < length piece.now → 0 < result.1 }
        ensures rest { result.0 ≡ None → result.1 ≡ length piece.now }
        // where no entry comes, all bytes of the line are kept, and they are few
        ensures kept { result.0 ≡ None → self.old.over ≡ false → self.new ≡ kept self.old piece.now }
        ensures few { result.0 ≡ None → length self.new.held ≤ longest_line + 1 }
    {
        if self.over {
            return (None, piece.len());
        }
        if piece.is_empty() {
            return (None, 0);
        }
        if self.line > MOST_LINES {
            return (Some(self.answer(LineKind::TooMany)), piece.len());
        }
        self.read(piece)
    }

    /// At the end of the input: its last line, where that has no end and isn't empty.
    pub fn finish(mut self) -> Option<Entry>
        ensures { coming lines self [] ≡ option_to_list result }
    {
        if self.over {
            return None;
        }
        let last = self.bytes.as_slice();
        if last.is_empty() {
            return None;
        }
        let kind = line_kind_of(last);
        Some(self.answer(kind))
    }
}
