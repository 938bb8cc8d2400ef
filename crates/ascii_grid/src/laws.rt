// What holds of every grid.
ghost use Rattle.std.specs.Prelude.{◌≡◌, ◌<◌, ◌≤◌, ◌+◌, ◌^◌, ◌++◌, ℕ, ℤ, pos, true, All, List, Option, length, drop};
ghost use Rattle.std.specs.Prelude.{take, get_or, Ok, Some, IfSome};
ghost use Rattle.std.specs.List.{slice_get, flat_map};
ghost use Rattle.lists_and_answers.specs.Lists.{flattened};
ghost use Rattle.geotransform.specs.Geo.{Transform, IsRaster};
ghost use Rattle.geotransform.specs.declared.types.Size.{Size};
ghost use Rattle.ascii_grid.specs.Values.{is_value};
ghost use Rattle.ascii_grid.specs.Text.{placing_of, head_text, row_text, AreRows, IsReadAgain, IsGridOf};
ghost use Rattle.ascii_grid.specs.Grid.{Head, IsHead, grid_head, ascii_at, line_of, AreRising};
ghost use Rattle.ascii_grid.specs.Row.{row_of, ended_in};

/// From the place of a row on, the bytes of a grid read as the values of that line.
pub fn row_is_of_the_file()
    ensures same { (file : List ℕ) (h : Head) (y place : ℕ) → grid_head file ≡ Ok h → IsHead h → length file < 2 ^ 64 →
        slice_get h.rows y ≡ Some place → row_of h.size.w (drop place file) ≡ line_of file 0 y h.size.w }
{}

/// The values of a line of a grid end before the place of the next row: between the two places as many
/// tokens end as the grid has columns, and these bytes alone read as the values of that line.
pub fn row_ends_before_next()
    ensures ended { (file : List ℕ) (h : Head) (y place next : ℕ) → grid_head file ≡ Ok h → IsHead h →
        length file < 2 ^ 64 → slice_get h.rows y ≡ Some place → slice_get h.rows (y + 1) ≡ Some next →
        ended_in (drop place (take next file)) ≡ h.size.w }
    ensures same { (file : List ℕ) (h : Head) (y place next : ℕ) → grid_head file ≡ Ok h → IsHead h →
        length file < 2 ^ 64 → slice_get h.rows y ≡ Some place → slice_get h.rows (y + 1) ≡ Some next →
        row_of h.size.w (drop place (take next file)) ≡ line_of file 0 y h.size.w }
{}

/// Each sample of a row is of Int32, whatever its bytes are.
pub fn row_is_of_the_band()
    ensures range { (text : List ℕ) (n : ℕ) → All (λ v. is_value v ≡ true) (row_of n text) }
{}

/// The rows of a grid begin one behind the other, within the text.
pub fn rows_rise()
    ensures rising { (file : List ℕ) (h : Head) → grid_head file ≡ Ok h → length file < 2 ^ 64 →
        AreRising 0 (length file) h.rows }
{}

/// The samples of a line of a grid are its values column by column.
pub fn line_has_values()
    ensures same { (file : List ℕ) (x y n i : ℕ) → i < n → get_or (line_of file x y n) i (pos 0)
        ≡ ascii_at file (x + i) y }
{}

/// What `write_head` and `write_row` append is a grid of the same size and NODATA, with the same
/// values, where the coordinates that are written and the geotransform that is read back from them stay
/// below 10^12 units.
pub fn written_reads_back()
    ensures same { (size : Size) (geo : Option Transform) (nodata : Option ℤ) (read : Transform)
        (rows : List (List ℤ)) → IsRaster size → IfSome nodata (λ n. is_value n ≡ true) →
        IsReadAgain size (placing_of size geo) read → AreRows size.w rows → length rows ≡ size.h →
        IsGridOf (head_text size geo nodata ++ flat_map row_text rows) size read nodata (flattened rows) }
{}
