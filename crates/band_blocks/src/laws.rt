// What holds of the rows of every rectangle.
ghost use Rattle.std.specs.Prelude.{◌≡◌, ◌++◌, ℕ, ℤ};
ghost use Rattle.geotransform.specs.declared.types.Rect.{Rect};
ghost use Rattle.catalog.specs.Places.{row_by_row};
ghost use Rattle.band_blocks.specs.Cuts.{IsCutByLine};

/// Where a rectangle is cut by a line, the rows of its upper part and behind them those of its lower part are its own.
pub fn rows_are_cut_by_lines()
    ensures joined { (f : ℕ → ℕ → ℤ) → (whole upper lower : Rect) → IsCutByLine whole upper lower →
        row_by_row f upper ++ row_by_row f lower ≡ row_by_row f whole }
{}
