// What holds of shared lines over every list of events.
ghost use Rattle.std.specs.Prelude.{ℕ, Option, List};
ghost use Rattle.outside.specs.Outside.{Files};
ghost use Rattle.catalog.specs.Drivers.{Dataset};
ghost use Rattle.shared_lines.specs.Events.{LooksAreRight, LinesAreRight};

/// Over every list of events from empty lines, each look shows the block of the key that it shows, in that key's line;
/// and so does each line then hold it.
pub fn lines_stay_right()
    ensures looks { (told : Option Files) (cat : List Dataset) (count : ℕ) → LooksAreRight told cat count }
    ensures lines { (told : Option Files) (cat : List Dataset) (count : ℕ) → LinesAreRight told cat count }
{}
