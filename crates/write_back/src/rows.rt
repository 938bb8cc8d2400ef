// Lines of a grid's text, which are added at a draft's end as they come.
ghost use Rattle.std.specs.Prelude.{◌≡◌, ◌<◌, ◌≤◌, ◌+◌, ◌*◌, ◌++◌, ℕ, ℤ, List, length, true, OnOk};
ghost use Rattle.std.specs.List.{All};
ghost use Rattle.outside.specs.Causes.{HasCause};
ghost use Rattle.outside.specs.Outside.{Appended};
ghost use Rattle.ascii_grid.specs.Text.{row_text};
ghost use Rattle.ascii_grid.specs.Values.{is_value};
ghost use Rattle.write_back.specs.Grids.{HasRows};
ghost use Rattle.write_back.specs.Spots.{cut_rows};

use crate::TargetFault;
use ascii_grid::write_row;
use geotransform::{GeoTransform, Rect, Sample, Size};
use outside::{Counter, Folder, WriteFault};
use std::sync::ledger::Ledger;

/// What a grid is: its size, its geotransform where it has one, and its NODATA where it has one.
#[derive(Clone, Copy)]
pub(crate) struct GridForm {
    pub(crate) size: Size,
    pub(crate) geo: Option<GeoTransform>,
    pub(crate) nodata: Option<Sample>,
}

/// A grid's draft: its form, the number of lines that were written, room for the text of one, and the draft.
pub(crate) struct RowStore<F: Folder> {
    pub(crate) form: GridForm,
    pub(crate) lines: u32,
    pub(crate) text: Vec<u8>,
    pub(crate) draft: F::Draft,
}

// Adds a text at a draft's end.
fn append_text<F: Folder>(
    folder: &mut F,
    draft: &mut F::Draft,
    text: &[u8],
) -> Result<(), TargetFault>
    ensures told { OnOk result (Appended text.now (F.draft_bytes draft.old) (F.draft_bytes draft.new)) }
    ensures name { F.draft_name draft.new ≡ F.draft_name draft.old }
    ensures names { F.names folder.new ≡ F.names folder.old }
    ensures reads { F.read_calls folder.new ≡ F.read_calls folder.old }
    ensures calls { F.write_calls folder.new ≡ F.write_calls folder.old }
    ensures cause { HasCause TargetFault.FolderFault (F.faults folder.old) (F.faults folder.new) result }
{
    match folder.append(draft, text) {
        Ok(()) => Ok(()),
        Err(WriteFault::Failed) => Err(TargetFault::FolderFault),
        Err(WriteFault::Memory) => Err(TargetFault::Memory),
    }
}

impl<F: Folder> RowStore<F> {
    // Writes the next line, which ticks `writes` once.
    fn put_row<L: Ledger>(
        &mut self,
        folder: &mut F,
        samples: &[Sample],
        writes: &mut Counter<L>,
    ) -> Result<(), TargetFault>
        requires room { self.old.lines < self.old.form.size.h }
        ensures form { self.new.form ≡ self.old.form }
        ensures lines { OnOk result (self.new.lines ≡ self.old.lines + 1) }
        ensures most { self.new.lines ≤ self.old.lines + 1 }
        ensures told { OnOk result (Appended (row_text samples.now) (F.draft_bytes self.old.draft)
            (F.draft_bytes self.new.draft)) }
        ensures name { F.draft_name self.new.draft ≡ F.draft_name self.old.draft }
        ensures names { F.names folder.new ≡ F.names folder.old }
        ensures reads { F.read_calls folder.new ≡ F.read_calls folder.old }
        ensures calls { F.write_calls folder.new ≡ F.write_calls folder.old }
        ensures one { writes.new ≡ writes.old + 1 }
        ensures cause { HasCause TargetFault.FolderFault (F.faults folder.old) (F.faults folder.new) result }
    {
        // This read is made for the proof: it says that the number of lines fits.
        let _height = self.form.size.h;
        writes.tick();
        self.text.clear();
        write_row(samples, &mut self.text)?;
        append_text(folder, &mut self.draft, &self.text)?;
        self.lines += 1;
        Ok(())
    }

    // Writes the lines of a rectangle that is so many whole lines, the next ones.
    pub(crate) fn put_lines<L: Ledger>(
        &mut self,
        folder: &mut F,
        rect: Rect,
        samples: &[Sample],
        writes: &mut Counter<L>,
    ) -> Result<(), TargetFault>
        requires room { self.old.lines + rect.h ≤ self.old.form.size.h }
        requires across { rect.w ≡ self.old.form.size.w }
        requires size { length samples.now ≡ rect.w * rect.h }
        requires range { All (λ n. is_value n ≡ true) samples.now }
        ensures form { self.new.form ≡ self.old.form }
        ensures lines { OnOk result (self.new.lines ≡ self.old.lines + rect.h) }
        ensures most { self.new.lines ≤ self.old.lines + rect.h }
        ensures told { OnOk result ((rows : List (List ℤ)) → HasRows self.old.form self.old.lines
            (F.draft_bytes self.old.draft) rows → HasRows self.old.form self.new.lines (F.draft_bytes self.new.draft)
            (rows ++ cut_rows rect.w rect.h samples.now)) }
        ensures name { F.draft_name self.new.draft ≡ F.draft_name self.old.draft }
        ensures names { F.names folder.new ≡ F.names folder.old }
        ensures reads { F.read_calls folder.new ≡ F.read_calls folder.old }
        ensures calls { F.write_calls folder.new ≡ F.write_calls folder.old }
        ensures counted { writes.old ≤ writes.new }
        ensures few { writes.new ≤ writes.old + rect.h }
        ensures cause { HasCause TargetFault.FolderFault (F.faults folder.old) (F.faults folder.new) result }
    {
        let width = rect.w as usize;
        for row in 0..rect.h {
            let from = row as usize * width;
            let line = &samples[from..from + width];
            self.put_row(folder, line, writes)?;
        }
        Ok(())
    }
}
