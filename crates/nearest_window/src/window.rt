// Windows of pixels.
ghost use Rattle.std.specs.Prelude.{◌≡◌, ◌+◌, ◌-◌, ◌*◌, ◌<◌, ◌≤◌, All, Some, length, slice_get, IfErr, OnOk};
ghost use Rattle.outside.specs.Reading.{OnlyRead, WhereTold};
ghost use Rattle.outside.specs.Causes.{HasCause};
ghost use Rattle.catalog.specs.Blocks.{all_blocks};
ghost use Rattle.catalog.specs.Drivers.{Dataset};
ghost use Rattle.catalog.specs.Pixels.{pixel_of, pixel_of_name};
ghost use Rattle.catalog.specs.Places.{row_by_row};
ghost use Rattle.catalog.specs.Walk.{IsCatalog};
ghost use Rattle.band_blocks.specs.Contents.{most_calls};
ghost use Rattle.band_blocks.specs.Open.{IsUnchanged};
ghost use Rattle.nearest_window.specs.Lanes.{held_count, room_of};
ghost use Rattle.nearest_window.specs.Right.{IsReady, slack_of, TellsChangeIn};
ghost use Rattle.nearest_window.specs.Shown.{IsPictureOf, ShowsWindow};
ghost use Rattle.nearest_window.specs.Windows.{IsInBand, IsWindow};

use crate::Lane;
use crate::picture::Picture;
use crate::picture_places::Places;
use crate::sharing::Supply;
use crate::taking::Taking;
use band_blocks::{Counter, LoadFault};
use catalog::Catalog;
use geotransform::{Rect, Sample};
use outside::Folder;
use shared_lines::{Lines, Scene};
use std::alloc::Global;
use std::marker::Brand;
use std::sync::ledger::Ledger;

/// A rectangle of a band of a dataset, which has this number in the catalog. Bands count from 0.
#[derive(Clone, Copy)]
pub struct Window {
    pub dataset: u32,
    pub band: u32,
    pub rect: Rect,
}

// The pixels of a window, each as it is.
fn window_of<'a>(cat: &Catalog, window: Window) -> Picture<'a>
    requires window { IsWindow cat.now window }
    requires some { 0 < window.rect.w }
    ensures picture { IsPictureOf cat.now result }
    ensures whole { ShowsWindow window result }
    ensures valid { IsCatalog cat.now }
{
    // This call is made for the proof: it says what holds of every catalog.
    let _count = cat.count();
    let rect = window.rect;
    Picture {
        dataset: window.dataset,
        band: window.band,
        taking: Taking::All,
        width: rect.w,
        columns: Places::Row(rect.x),
        height: rect.h,
        lines: Places::Row(rect.y),
        to: 0,
        top: 0,
        stride: rect.w as usize,
    }
}

impl<F: Folder> Lane<F> {
    /// Fills `out` with the pixels of a window, row by row. The window lies in the raster, and `out` has its
    /// size. The lane is ready for the catalog and the folder.
    ///
    /// Each block of a file that isn't held is loaded, which ticks `loads` once. Where the pool is full, a single
    /// pixel of a file that isn't a grid is read by itself in place of its block, which ticks `loads` once, too,
    /// unless the block was missed so before. A block of a mosaic is made of the blocks of its sources, through
    /// every nesting, and takes memory for its samples until it is whole.
    ///
    /// Where the pool is full, or the window has 16,384 pixels or more and the catalog no cell, only those pixels
    /// of a mosaic's block are made that are shown, and the block isn't kept. In such a window, what is shown
    /// unscaled of a mosaic of 512 x 512 pixels or more for each source is made in lines of the whole width. Once
    /// the call has made 131,072 pixels and eight times its own, whole blocks are made and kept, up to 4,096 of
    /// them beside a full pool. Once it has made 4,096 pixels, up to 16,384 single ones of mosaics are remembered.
    ///
    /// FolderFault comes only where the folder's count rose, Memory freely. Changed comes only where a
    /// file was opened again and had another length than the walk found, or was absent: never over a
    /// folder that tells its files. After a refusal `out` is unknown, and the lane is still right.
    pub fn read_window<L: Ledger>(
        &mut self,
        alloc: Global,
        cat: &Catalog,
        folder: &mut F,
        window: Window,
        out: &mut [Sample],
        loads: &mut Counter<L>,
    ) -> Result<(), LoadFault>
        requires ready { IsReady F.Folder folder.old cat.now self.old }
        requires window { IsWindow cat.now window }
        requires size { length out.old ≡ window.rect.w * window.rect.h }
        ensures pixels { WhereTold F.Folder folder.old
            (λ m. OnOk result (out.new ≡ row_by_row (pixel_of m cat.now window.dataset window.band) window.rect)) }
        // the pixels that the dataset's name has by itself
        ensures named { WhereTold F.Folder folder.old (λ m. (d : Dataset) → slice_get cat.now window.dataset ≡ Some d →
            OnOk result (out.new ≡ row_by_row (pixel_of_name m d.head.name window.band) window.rect)) }
        // each sample is in the band's type, whatever the folder tells
        ensures typed { OnOk result (All (IsInBand cat.now window.dataset window.band) out.new) }
        ensures ready { IsReady F.Folder folder.new cat.now self.new }
        // with room for all blocks, each load makes one more block held, but for the last one of a refused call
        ensures loads { all_blocks cat.now ≤ room_of self.old →
            loads.new ≤ loads.old + (held_count self.new - held_count self.old) + slack_of result }
        ensures reads { F.read_calls folder.new ≤ F.read_calls folder.old + most_calls cat.now
            * (loads.new - loads.old) }
        ensures counted { loads.old ≤ loads.new }
        ensures kept { held_count self.old ≤ held_count self.new }
        ensures capacity { room_of self.new ≡ room_of self.old }
        ensures only_read { OnlyRead F.Folder folder.old folder.new }
        ensures cause { HasCause LoadFault.FolderFault (F.faults folder.old) (F.faults folder.new) result }
        ensures changed { IfErr result (TellsChangeIn cat.now) }
        ensures never { WhereTold F.Folder folder.old (λ _. IfErr result IsUnchanged) }
    {
        self.read_unshared::<L, Brand>(alloc, cat, folder, window, out, loads)
    }

    // Reads a window without lines. The signature names none, so that the caller may pick what they would stand for.
    fn read_unshared<L: Ledger, S: Scene>(
        &mut self,
        alloc: Global,
        cat: &Catalog,
        folder: &mut F,
        window: Window,
        out: &mut [Sample],
        loads: &mut Counter<L>,
    ) -> Result<(), LoadFault>
        requires ready { IsReady F.Folder folder.old cat.now self.old }
        requires told { S.told ≡ F.names folder.old }
        requires scene { S.cat ≡ cat.now }
        requires window { IsWindow cat.now window }
        requires size { length out.old ≡ window.rect.w * window.rect.h }
        ensures pixels { WhereTold F.Folder folder.old
            (λ m. OnOk result (out.new ≡ row_by_row (pixel_of m cat.now window.dataset window.band) window.rect)) }
        // the pixels that the dataset's name has by itself
        ensures named { WhereTold F.Folder folder.old (λ m. (d : Dataset) → slice_get cat.now window.dataset ≡ Some d →
            OnOk result (out.new ≡ row_by_row (pixel_of_name m d.head.name window.band) window.rect)) }
        // each sample is in the band's type, whatever the folder tells
        ensures typed { OnOk result (All (IsInBand cat.now window.dataset window.band) out.new) }
        ensures ready { IsReady F.Folder folder.new cat.now self.new }
        // with room for all blocks, each load makes one more block held, but for the last one of a refused call
        ensures loads { all_blocks cat.now ≤ room_of self.old →
            loads.new ≤ loads.old + (held_count self.new - held_count self.old) + slack_of result }
        ensures reads { F.read_calls folder.new ≤ F.read_calls folder.old + most_calls cat.now
            * (loads.new - loads.old) }
        ensures counted { loads.old ≤ loads.new }
        ensures kept { held_count self.old ≤ held_count self.new }
        ensures capacity { room_of self.new ≡ room_of self.old }
        ensures only_read { OnlyRead F.Folder folder.old folder.new }
        ensures cause { HasCause LoadFault.FolderFault (F.faults folder.old) (F.faults folder.new) result }
        ensures changed { IfErr result (TellsChangeIn cat.now) }
        ensures never { WhereTold F.Folder folder.old (λ _. IfErr result IsUnchanged) }
    {
        let none: Option<Lines<S>> = None;
        let supply = Supply {
            alloc,
            cat,
            shared: none.as_ref(),
        };
        self.read_window_with(&supply, folder, window, out, loads)
    }

    /// As `read_window`, with the memory and the catalog of a supply, and through the lines that lanes share, where it
    /// has any: they stand for its catalog and for the folder's files. A block that isn't held is looked for in the
    /// lines, and kept where they show it; else it is loaded or made, and then offered to them. Where memory is refused
    /// for either, the block is read as without lines. Parts of a mosaic's block and single pixels are neither looked
    /// for nor offered.
    pub fn read_window_with<L: Ledger, S: Scene>(
        &mut self,
        supply: &Supply<S>,
        folder: &mut F,
        window: Window,
        out: &mut [Sample],
        loads: &mut Counter<L>,
    ) -> Result<(), LoadFault>
        requires ready { IsReady F.Folder folder.old supply.now.cat.now self.old }
        requires told { S.told ≡ F.names folder.old }
        requires scene { S.cat ≡ supply.now.cat.now }
        requires window { IsWindow supply.now.cat.now window }
        requires size { length out.old ≡ window.rect.w * window.rect.h }
        ensures pixels { WhereTold F.Folder folder.old
            (λ m. OnOk result (out.new ≡ row_by_row (pixel_of m supply.now.cat.now window.dataset window.band)
            window.rect)) }
        // the pixels that the dataset's name has by itself
        ensures named { WhereTold F.Folder folder.old (λ m. (d : Dataset) →
            slice_get supply.now.cat.now window.dataset ≡ Some d →
            OnOk result (out.new ≡ row_by_row (pixel_of_name m d.head.name window.band) window.rect)) }
        // each sample is in the band's type, whatever the folder tells
        ensures typed { OnOk result (All (IsInBand supply.now.cat.now window.dataset window.band) out.new) }
        ensures ready { IsReady F.Folder folder.new supply.now.cat.now self.new }
        // with room for all blocks, each load makes one more block held, but for the last one of a refused call
        ensures loads { all_blocks supply.now.cat.now ≤ room_of self.old →
            loads.new ≤ loads.old + (held_count self.new - held_count self.old) + slack_of result }
        ensures reads { F.read_calls folder.new ≤ F.read_calls folder.old + most_calls supply.now.cat.now
            * (loads.new - loads.old) }
        ensures counted { loads.old ≤ loads.new }
        ensures kept { held_count self.old ≤ held_count self.new }
        ensures capacity { room_of self.new ≡ room_of self.old }
        ensures only_read { OnlyRead F.Folder folder.old folder.new }
        ensures cause { HasCause LoadFault.FolderFault (F.faults folder.old) (F.faults folder.new) result }
        ensures changed { IfErr result (TellsChangeIn supply.now.cat.now) }
        ensures never { WhereTold F.Folder folder.old (λ _. IfErr result IsUnchanged) }
    {
        if window.rect.w == 0 {
            return Ok(());
        }
        let picture = window_of(supply.cat, window);
        self.paint_window(supply, folder, &picture, out, loads)
    }
}
