// What an input says doesn't depend on the pieces in which it comes.
ghost use Rattle.std.specs.Prelude.{◌≡◌, ℕ, List, ◌++◌, IfOk, OnOk};
ghost use Rattle.std.specs.Str.Lines.{lines};
ghost use Rattle.lists_and_answers.specs.Texts.{joined};
ghost use Rattle.input_points.specs.Entries.{entries};
ghost use Rattle.input_points.specs.Reading.{coming};

use crate::entry::Entry;
use crate::reading::PointLines;
use lists_and_answers::Items;
use std::alloc::{AllocError, Global};

/// A list of lines.
pub type Entries = Items<Entry>;

// Adds the lines that come in a piece.
fn read_piece(reader: &mut PointLines, piece: &[u8], out: &mut Entries) -> Result<(), AllocError>
    ensures { OnOk result ((more : List ℕ) → out.new ++ coming lines reader.new more ≡ out.old
        ++ coming lines reader.old (piece.now ++ more)) }
{
    let mut at = 0;
    while at < piece.len() {
        let (entry, used) = reader.next(&piece[at..]);
        if let Some(Entry { line, kind }) = entry {
            out.push(Entry { line, kind })?;
        }
        at += used;
    }
    Ok(())
}

// Adds the lines that come in some pieces.
fn read_pieces(
    reader: &mut PointLines,
    pieces: &[&[u8]],
    out: &mut Entries,
) -> Result<(), AllocError>
    ensures { OnOk result ((more : List ℕ) → out.new ++ coming lines reader.new more ≡ out.old
        ++ coming lines reader.old (joined pieces.now ++ more)) }
{
    for piece in pieces {
        read_piece(reader, piece, out)?;
    }
    Ok(())
}

/// The lines of an input that comes in these pieces, however it was cut.
pub fn entries_of(alloc: Global, pieces: &[&[u8]]) -> Result<Entries, AllocError>
    ensures { IfOk result (λ es. es ≡ entries (joined pieces.now)) }
{
    let mut reader = PointLines::new(alloc)?;
    let mut out = Items::new(alloc);
    read_pieces(&mut reader, pieces, &mut out)?;
    if let Some(Entry { line, kind }) = reader.finish() {
        out.push(Entry { line, kind })?;
    }
    Ok(out)
}
