// What holds of files into whose bytes samples were put.
ghost use Rattle.std.specs.Prelude.{◌≡◌, ◌≢◌, ◌<◌, ◌≤◌, ◌⊎◌, ◌+◌, ◌*◌, ◌++◌, ℕ, ℤ, pos, true, List, [], length, take};
ghost use Rattle.std.specs.Prelude.{drop, get_or, Option, Ok, Err};
ghost use Rattle.std.specs.List.{All, flat_map};
ghost use Rattle.lists_and_answers.specs.Places.{StandsAt};
ghost use Rattle.outside.specs.Outside.{put_at};
ghost use Rattle.esri_hdr.specs.Head.{Head, IsHead, sample_len};
ghost use Rattle.interleaved_raw.specs.Raw.{position_of, stride_of, sample_at, raw_at, row_of as raw_row, IsPlace};
ghost use Rattle.interleaved_raw.specs.Raw.{IsBetween};
ghost use Rattle.hgt_tiles.specs.Samples.{hgt_at, line_of, row_bytes};
ghost use Rattle.dted_records.specs.Head as cell;
ghost use Rattle.dted_records.specs.Head.{dted_head};
ghost use Rattle.dted_records.specs.Places.{record_of};
ghost use Rattle.dted_records.specs.Records.{column_of, dted_at};
ghost use Rattle.dted_records.specs.Written.{record_bytes};
ghost use Rattle.geotransform.specs.Geo.{Transform};
ghost use Rattle.geotransform.specs.declared.types.Size.{Size};
ghost use Rattle.ascii_grid.specs.declared.faults.GridFault.TheVariants.{TooFew};
ghost use Rattle.ascii_grid.specs.Values.{is_value};
ghost use Rattle.ascii_grid.specs.Grid as grid;
ghost use Rattle.ascii_grid.specs.Grid.{grid_of, grid_head, ascii_at};
ghost use Rattle.ascii_grid.specs.Row.{row_of};
ghost use Rattle.ascii_grid.specs.Text.{head_text, row_text, AreRows};
ghost use Rattle.written_samples.specs.Grids.{IsGridHead, AreFirstRows};
ghost use Rattle.written_samples.specs.Put.{number_in_line, IsInRow, IsInRun, IsRunFor, AreSamplesFor, IsRowFor};
ghost use Rattle.written_samples.specs.Put.{IsRecordFor};

/// Bytes that are put into a file stand there. The file is as long as before, and each part of it beside them is as
/// before.
pub fn bytes_stand_where_put()
    ensures stand { (file bytes : List ℕ) (at : ℕ) → at + length bytes ≤ length file →
        StandsAt (put_at at bytes file) bytes at }
    ensures len { (file bytes : List ℕ) (at : ℕ) → at + length bytes ≤ length file →
        length (put_at at bytes file) ≡ length file }
    ensures beside { (file bytes : List ℕ) (at p n : ℕ) → at + length bytes ≤ length file →
        (p + n ≤ at) ⊎ (at + length bytes ≤ p) → take n (drop p (put_at at bytes file)) ≡ take n (drop p file) }
{}

/// In raw data, a sample all of whose bytes were put is read from what was put, and a sample beside that as before.
pub fn raw_samples_stand_where_put()
    ensures inside { (h : Head) (file bytes : List ℕ) (at p band x y : ℕ) → at + length bytes ≤ length file →
        position_of h band x y ≡ at + p → p + sample_len h.kind ≤ length bytes →
        raw_at h (put_at at bytes file) band x y ≡ sample_at h (drop p bytes) }
    ensures beside { (h : Head) (file bytes : List ℕ) (at band x y : ℕ) → at + length bytes ≤ length file →
        (position_of h band x y + sample_len h.kind ≤ at) ⊎ (at + length bytes ≤ position_of h band x y) →
        raw_at h (put_at at bytes file) band x y ≡ raw_at h file band x y }
{}

/// In raw data, a run of samples that is put at the place of its first one is read there, and each other sample as
/// before.
pub fn raw_runs_are_read_again()
    ensures line { (h : Head) (file bytes : List ℕ) (band x y : ℕ) (samples : List ℤ) →
        IsRunFor h file band x y samples bytes → raw_row h (put_at (position_of h band x y) bytes file) band x y
        (length samples) ≡ samples }
    ensures read { (h : Head) (file bytes : List ℕ) (band x y i : ℕ) (samples : List ℤ) →
        IsRunFor h file band x y samples bytes → i < length samples →
        raw_at h (put_at (position_of h band x y) bytes file) band (x + i) y ≡ get_or samples i (pos 0) }
    ensures others { (h : Head) (file bytes : List ℕ) (band x y k u v : ℕ) (samples : List ℤ) → IsHead h →
        IsRunFor h file band x y samples bytes → IsPlace h k u v → (IsInRun band x y (length samples) k u v → ⊥) →
        raw_at h (put_at (position_of h band x y) bytes file) k u v ≡ raw_at h file k u v }
{}

/// In BIP, samples of a line that are put one behind the other, those of all bands of a pixel before those of the next
/// pixel, are read there, and each other sample as before.
pub fn raw_pixels_are_read_again()
    ensures read { (h : Head) (file bytes : List ℕ) (band x y n k u i : ℕ) → AreSamplesFor h file band x y n bytes →
        number_in_line h k u ≡ number_in_line h band x + i → i < n →
        raw_at h (put_at (position_of h band x y) bytes file) k u y ≡ sample_at h (drop (i * sample_len h.kind) bytes) }
    ensures others { (h : Head) (file bytes : List ℕ) (band x y n k u v : ℕ) → IsHead h →
        AreSamplesFor h file band x y n bytes → IsPlace h k u v →
        (v ≡ y → number_in_line h band x ≤ number_in_line h k u → number_in_line h k u < number_in_line h band x + n →
        ⊥) → raw_at h (put_at (position_of h band x y) bytes file) k u v ≡ raw_at h file k u v }
{}

/// A run that was encoded over the file's own bytes has between its samples what the file has there. Where samples
/// stand one behind the other, nothing is between them.
pub fn encoded_runs_keep_what_is_between()
    ensures over { (h : Head) (file old new : List ℕ) (at n : ℕ) → StandsAt file old at → length new ≡ length old →
        ((j : ℕ) → IsBetween h n j → get_or new j 0 ≡ get_or old j 0) → (j : ℕ) → j < length new → IsBetween h n j →
        get_or new j 0 ≡ get_or file (at + j) 0 }
    ensures none { (h : Head) (bytes : List ℕ) (n j : ℕ) → stride_of h ≡ sample_len h.kind →
        length bytes ≡ n * sample_len h.kind → j < length bytes → IsBetween h n j → ⊥ }
{}

/// In a tile, the samples that are put at a column of a line are read from there on, and each other sample as before.
pub fn tile_rows_are_read_again()
    ensures line { (side : ℕ) (file : List ℕ) (x y : ℕ) (samples : List ℤ) → IsRowFor side file x y samples →
        line_of side (put_at (2 * (y * side + x)) (row_bytes samples) file) x y (length samples) ≡ samples }
    ensures read { (side : ℕ) (file : List ℕ) (x y i : ℕ) (samples : List ℤ) → IsRowFor side file x y samples →
        i < length samples → hgt_at side (put_at (2 * (y * side + x)) (row_bytes samples) file) (x + i) y
        ≡ get_or samples i (pos 0) }
    ensures others { (side : ℕ) (file : List ℕ) (x y u v : ℕ) (samples : List ℤ) → IsRowFor side file x y samples →
        u < side → (IsInRow x y (length samples) u v → ⊥) →
        hgt_at side (put_at (2 * (y * side + x)) (row_bytes samples) file) u v ≡ hgt_at side file u v }
{}

/// In a cell, the elevations that are put as the record of a line are read there from north to south, and those of each
/// other line as before. All in front of the records is as before, and so is the head.
pub fn cell_records_are_read_again()
    ensures column { (h : cell.Head) (file : List ℕ) (x : ℕ) (samples : List ℤ) → IsRecordFor h file x samples →
        column_of h (put_at (record_of h x) (record_bytes x samples) file) x ≡ samples }
    ensures read { (h : cell.Head) (file : List ℕ) (x y : ℕ) (samples : List ℤ) → IsRecordFor h file x samples →
        y < h.points → dted_at h (put_at (record_of h x) (record_bytes x samples) file) x y ≡ get_or samples y (pos 0) }
    ensures others { (h : cell.Head) (file : List ℕ) (x u v : ℕ) (samples : List ℤ) → IsRecordFor h file x samples →
        u ≢ x → v < h.points → dted_at h (put_at (record_of h x) (record_bytes x samples) file) u v
        ≡ dted_at h file u v }
    ensures front { (h : cell.Head) (file : List ℕ) (x : ℕ) (samples : List ℤ) → IsRecordFor h file x samples →
        take (record_of h 0) (put_at (record_of h x) (record_bytes x samples) file) ≡ take (record_of h 0) file }
    ensures head { (h : cell.Head) (file : List ℕ) (x : ℕ) (samples : List ℤ) → IsRecordFor h file x samples →
        dted_head file ≡ Ok h → dted_head (put_at (record_of h x) (record_bytes x samples) file) ≡ Ok h }
{}

/// A row of an ASCII grid reads as its samples from where it was written on, whatever stands behind it, and the rows so
/// far read one behind the other, with 0 where there is none yet.
pub fn grid_rows_are_read_again()
    ensures row { (text rest : List ℕ) (row : List ℤ) → All (λ n. is_value n ≡ true) row →
        row_of (length row) (drop (length text) ((text ++ row_text row) ++ rest)) ≡ row }
    ensures so_far { (text : List ℕ) (rows : List (List ℤ)) (w n x y : ℕ) → AreRows w rows → x < w → y * w + x < n →
        get_or (row_of n (drop (length text) (text ++ flat_map row_text rows))) (y * w + x) (pos 0)
        ≡ get_or (get_or rows y []) x (pos 0) }
{}

/// In whatever grid begins with a head and first rows as they are written, the values of these rows are the samples
/// that were written. While rows are missing it is no grid yet: it has too few values.
pub fn first_rows_stay_in_a_grid()
    ensures value { (size : Size) (geo : Option Transform) (nodata : Option ℤ) (read : Transform) (rows : List (List ℤ))
        (rest : List ℕ) (h : grid.Head) (x y : ℕ) → IsGridHead size geo nodata read → AreFirstRows size rows →
        grid_head ((head_text size geo nodata ++ flat_map row_text rows) ++ rest) ≡ Ok h → x < size.w →
        y < length rows → ascii_at ((head_text size geo nodata ++ flat_map row_text rows) ++ rest) x y
        ≡ get_or (get_or rows y []) x (pos 0) }
    ensures missing { (size : Size) (geo : Option Transform) (nodata : Option ℤ) (read : Transform)
        (rows : List (List ℤ)) → IsGridHead size geo nodata read → AreRows size.w rows → length rows < size.h →
        grid_of (head_text size geo nodata ++ flat_map row_text rows) ≡ Err TooFew }
{}
