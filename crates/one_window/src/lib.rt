// An example of the libraries without the program: opens a raster, which may be a mosaic, and reads a window of it.
#![tactic(auto)]

ghost use Rattle.std.specs.Prelude.{◌≡◌, ◌<◌, ◌*◌, length, true};
ghost use Rattle.outside.specs.Reading.{WhereTold};
ghost use Rattle.catalog.specs.Pixels.{pixel_of_name};
ghost use Rattle.catalog.specs.Places.{row_by_row};

use band_blocks::Counter;
use catalog::{Catalog, open_all};
use geotransform::{Rect, Sample, Size};
use nearest_window::{Lane, Window};
use outside::{Folder, Name};
use std::alloc::Global;
use std::marker::Brand;
use std::sync::ledger::{Blank, Ledger};

// Reads the window through a new lane, with a new count of the blocks that are loaded.
fn read_counted<F: Folder, L: Ledger>(
    alloc: Global,
    folder: &mut F,
    name: &Name,
    rect: Rect,
    out: &mut [Sample],
    blank: Blank,
) -> bool
    requires name { blank.name ≡ L.name }
    requires parts { blank.parts ≡ L.parts }
    requires some { 0 < blank.parts }
    requires size { length out.old ≡ rect.w * rect.h }
    ensures pixels { WhereTold F.Folder folder.old (λ m. result ≡ true →
        out.new ≡ row_by_row (pixel_of_name m name.now 0) rect) }
{
    let mut cat = Catalog::new(alloc);
    let Ok(dataset) = open_all(alloc, &mut cat, folder, name, false) else {
        return false;
    };
    let Size { w, h } = cat.head(dataset).size;
    if rect.x > w || rect.y > h || rect.w > w - rect.x || rect.h > h - rect.y {
        return false;
    }
    let Ok(mut lane) = Lane::new(alloc, 64) else {
        return false;
    };
    let window = Window {
        dataset,
        band: 0,
        rect,
    };
    let mut loads: Counter<L> = Counter::open(blank);
    let read = lane.read_window(alloc, &cat, folder, window, out, &mut loads);
    read.is_ok()
}

/// Fills `out` with the pixels of a rectangle of the first band of a raster, row by row. False where the raster is
/// refused, the rectangle doesn't lie in it, or reading it failed.
pub fn read_window<F: Folder>(
    alloc: Global,
    folder: &mut F,
    name: &Name,
    rect: Rect,
    out: &mut [Sample],
) -> bool
    requires size { length out.old ≡ rect.w * rect.h }
    ensures pixels { WhereTold F.Folder folder.old (λ m. result ≡ true →
        out.new ≡ row_by_row (pixel_of_name m name.now 0) rect) }
{
    read_counted::<F, Brand>(alloc, folder, name, rect, out, Blank::new(1))
}
