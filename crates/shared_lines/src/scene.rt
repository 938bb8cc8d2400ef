// What lines stand for.
ghost use Rattle.std.specs.Prelude.{Option, None, List, []};
ghost use Rattle.outside.specs.Outside.{Files};
ghost use Rattle.catalog.specs.Drivers.{Dataset};

use std::marker::Brand;

/// A folder's map of names and bytes, where it is told, and the datasets of a catalog. Only contracts read it: those of
/// lines and of all calls that take them. Whoever makes lines picks it, at `Brand`.
pub trait Scene: Send + Sync {
    ghost told: { Option Files };

    ghost cat: { List Dataset };
}

impl Scene for Brand {
    ghost told = { None };

    ghost cat = { [] };
}
