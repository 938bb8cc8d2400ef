// Teams of lanes.
ghost use Rattle.std.specs.Prelude.{◌≡◌, ◌+◌, ◌-◌, ◌*◌, ◌<◌, ◌≤◌, [], ◌∷◌, Some, length, map, slice_get, OnOk, IfOk};
ghost use Rattle.std.specs.Prelude.{IfErr};
ghost use Rattle.std.specs.List.{All};
ghost use Rattle.outside.specs.Causes.{HasCause};
ghost use Rattle.outside.specs.Reading.{WhereTold};
ghost use Rattle.catalog.specs.Blocks.{all_blocks};
ghost use Rattle.catalog.specs.Drivers.{Dataset};
ghost use Rattle.catalog.specs.Pixels.{pixel_of, pixel_of_name};
ghost use Rattle.catalog.specs.Places.{row_by_row};
ghost use Rattle.band_blocks.specs.Contents.{most_calls};
ghost use Rattle.band_blocks.specs.Open.{IsUnchanged};
ghost use Rattle.nearest_window.specs.Lanes.{held_count, room_of};
ghost use Rattle.nearest_window.specs.Right.{IsFresh, IsReady, slack_of, TellsChangeIn};
ghost use Rattle.nearest_window.specs.Windows.{IsInBand, IsWindow};
ghost use Rattle.lane_teams.specs.Parts.{readers_of};
ghost use Rattle.lane_teams.specs.Refusals.{IsTeamAnswer};
ghost use Rattle.lane_teams.specs.Ready.{OnlyReadByViews};
ghost use Rattle.band_blocks.specs.Blocks.{most_blocks};

use crate::beside::read_beside;
use crate::cutting::{Job, readers_of};
use band_blocks::{Counter, LoadFault};
use catalog::Catalog;
use geotransform::Sample;
use nearest_window::{Lane, Supply, Window};
use outside::Folder;
use shared_lines::{Lines, Scene};
use std::alloc::{AllocError, Global};
use std::marker::Brand;
use std::sync::ledger::{Blank, Ledger};
use std::thread::Threads;

/// Lanes that read beside each other, and the count of the loads of the first where it reads alone.
#[derive(Drop)]
pub struct Team<F: Folder, L: Ledger> {
    pub lanes: Vec<Lane<F>>,
    pub loads: Counter<L>,
}

// So many lanes.
fn lanes_of<F: Folder>(alloc: Global, count: u32, capacity: u32) -> Result<Vec<Lane<F>>, AllocError>
    requires some { 1 ≤ capacity }
    requires few { capacity ≤ most_blocks }
    ensures count { IfOk result (λ lanes. length lanes.items ≡ count) }
    ensures fresh { IfOk result (λ lanes. All (IsFresh F.Folder) lanes.items) }
    ensures room { IfOk result (λ lanes. All (λ lane. room_of lane ≡ capacity) lanes.items) }
{
    let mut lanes = Vec::with_capacity(alloc, count as usize)?;
    for _at in 0..count {
        let lane = Lane::new(alloc, capacity)?;
        lanes.push(lane)?;
    }
    Ok(lanes)
}

impl<F: Folder, L: Ledger> Team<F, L> {
    /// A team of so many lanes, each with an empty pool of so many blocks, 1 to 65,536, and no open file. It is refused
    /// where memory is.
    pub fn new(
        alloc: Global,
        count: u32,
        capacity: u32,
        blank: Blank,
    ) -> Result<Team<F, L>, AllocError>
        requires some { 1 ≤ capacity }
        requires few { capacity ≤ most_blocks }
        requires name { blank.name ≡ L.name }
        requires parts { blank.parts ≡ L.parts }
        requires shares { 0 < blank.parts }
        ensures count { IfOk result (λ team. length team.lanes.items ≡ count) }
        ensures fresh { IfOk result (λ team. All (IsFresh F.Folder) team.lanes.items) }
        ensures room { IfOk result (λ team. All (λ lane. room_of lane ≡ capacity) team.lanes.items) }
        ensures none { IfOk result (λ team. team.loads ≡ 0) }
    {
        let loads = Counter::open(blank);
        let lanes = lanes_of(alloc, count, capacity)?;
        Ok(Team { lanes, loads })
    }

    /// Fills `out` with the pixels of a window, row by row, as `Lane::read_window` does, by all lanes beside each
    /// other: of n lanes the lane k reads the lines from floor(k*h/n) up to floor((k+1)*h/n) of the window's h, through
    /// a view of the folder, into its part of `out`. Where no thread can be started, a lane's part is read in the
    /// thread that would have started it. A window of fewer lines than lanes is read by the first lane, and so is one
    /// of a team of one, through the folder itself. Each lane is ready for the catalog and the folder.
    ///
    /// A refusal is that of the first lane that refused, in their order, and its causes are those of
    /// `Lane::read_window`; or memory for the views was refused, and no lane has read. All views are ended, and all
    /// lanes ready, with the room that they had, after every answer. `loads` counts the loads of a lane that reads
    /// through the folder; those of several lanes aren't counted.
    pub fn read_window<R: Threads + Sync>(
        &mut self,
        rt: &R,
        alloc: Global,
        cat: &Catalog,
        folder: &mut F,
        window: Window,
        out: &mut [Sample],
    ) -> Result<(), LoadFault>
        requires some { 0 < length self.old.lanes.items }
        requires ready { All (IsReady F.Folder folder.old cat.now) self.old.lanes.items }
        requires window { IsWindow cat.now window }
        requires size { length out.old ≡ window.rect.w * window.rect.h }
        ensures pixels { WhereTold F.Folder folder.old
            (λ m. OnOk result (out.new ≡ row_by_row (pixel_of m cat.now window.dataset window.band) window.rect)) }
        // the pixels that the dataset's name has by itself
        ensures named { WhereTold F.Folder folder.old (λ m. (d : Dataset) → slice_get cat.now window.dataset ≡ Some d →
            OnOk result (out.new ≡ row_by_row (pixel_of_name m d.head.name window.band) window.rect)) }
        // each sample is in the band's type, whatever the folder tells
        ensures typed { OnOk result (All (IsInBand cat.now window.dataset window.band) out.new) }
        // the answer is the first refusal in the lanes' order, of those that read, each its own lines
        ensures first { IsTeamAnswer (F.names folder.old) cat.now window
            (readers_of window.rect.h (length out.old) 0 (length self.old.lanes.items)) out.old out.new result }
        ensures ready { All (IsReady F.Folder folder.new cat.now) self.new.lanes.items }
        ensures count { length self.new.lanes.items ≡ length self.old.lanes.items }
        // each lane has the room that it had
        ensures capacity { map room_of self.new.lanes.items ≡ map room_of self.old.lanes.items }
        // of one lane with room for all blocks, each load makes one more block held, but for the last of a refused call
        ensures loads { (old : _) (new : _) → self.old.lanes.items ≡ old ∷ [] → self.new.lanes.items ≡ new ∷ [] →
            all_blocks cat.now ≤ room_of old → self.new.loads ≤ self.old.loads + (held_count new - held_count old)
            + slack_of result }
        ensures reads { length self.old.lanes.items ≡ 1 → F.read_calls folder.new ≤ F.read_calls folder.old + most_calls
            cat.now * (self.new.loads - self.old.loads) }
        ensures counted { self.old.loads ≤ self.new.loads }
        ensures only_read { OnlyReadByViews F.Folder folder.old folder.new }
        ensures cause { HasCause LoadFault.FolderFault (F.faults folder.old) (F.faults folder.new) result }
        ensures changed { IfErr result (TellsChangeIn cat.now) }
        ensures never { WhereTold F.Folder folder.old (λ _. IfErr result IsUnchanged) }
    {
        self.read_unshared::<R, Brand>(rt, alloc, cat, folder, window, out)
    }

    // Reads a window without lines. The signature names none, so that the caller may pick what they would stand for.
    fn read_unshared<R: Threads + Sync, S: Scene>(
        &mut self,
        rt: &R,
        alloc: Global,
        cat: &Catalog,
        folder: &mut F,
        window: Window,
        out: &mut [Sample],
    ) -> Result<(), LoadFault>
        requires told { S.told ≡ F.names folder.old }
        requires scene { S.cat ≡ cat.now }
        requires some { 0 < length self.old.lanes.items }
        requires ready { All (IsReady F.Folder folder.old cat.now) self.old.lanes.items }
        requires window { IsWindow cat.now window }
        requires size { length out.old ≡ window.rect.w * window.rect.h }
        ensures pixels { WhereTold F.Folder folder.old
            (λ m. OnOk result (out.new ≡ row_by_row (pixel_of m cat.now window.dataset window.band) window.rect)) }
        // the pixels that the dataset's name has by itself
        ensures named { WhereTold F.Folder folder.old (λ m. (d : Dataset) → slice_get cat.now window.dataset ≡ Some d →
            OnOk result (out.new ≡ row_by_row (pixel_of_name m d.head.name window.band) window.rect)) }
        // each sample is in the band's type, whatever the folder tells
        ensures typed { OnOk result (All (IsInBand cat.now window.dataset window.band) out.new) }
        // the answer is the first refusal in the lanes' order, of those that read, each its own lines
        ensures first { IsTeamAnswer (F.names folder.old) cat.now window
            (readers_of window.rect.h (length out.old) 0 (length self.old.lanes.items)) out.old out.new result }
        ensures ready { All (IsReady F.Folder folder.new cat.now) self.new.lanes.items }
        ensures count { length self.new.lanes.items ≡ length self.old.lanes.items }
        // each lane has the room that it had
        ensures capacity { map room_of self.new.lanes.items ≡ map room_of self.old.lanes.items }
        // of one lane with room for all blocks, each load makes one more block held, but for the last of a refused call
        ensures loads { (old : _) (new : _) → self.old.lanes.items ≡ old ∷ [] → self.new.lanes.items ≡ new ∷ [] →
            all_blocks cat.now ≤ room_of old → self.new.loads ≤ self.old.loads + (held_count new - held_count old)
            + slack_of result }
        ensures reads { length self.old.lanes.items ≡ 1 → F.read_calls folder.new ≤ F.read_calls folder.old + most_calls
            cat.now * (self.new.loads - self.old.loads) }
        ensures counted { self.old.loads ≤ self.new.loads }
        ensures only_read { OnlyReadByViews F.Folder folder.old folder.new }
        ensures cause { HasCause LoadFault.FolderFault (F.faults folder.old) (F.faults folder.new) result }
        ensures changed { IfErr result (TellsChangeIn cat.now) }
        ensures never { WhereTold F.Folder folder.old (λ _. IfErr result IsUnchanged) }
    {
        let none: Option<Lines<S>> = None;
        let supply = Supply {
            alloc,
            cat,
            shared: none.as_ref(),
        };
        self.read_window_with(rt, &supply, folder, window, 0, out)
    }

    /// As `read_window`, with the memory and the catalog of a supply, and through the lines that lanes share, where it
    /// has any: they stand for its catalog and for the folder's files. Each lane looks for blocks in them and offers
    /// its own, as `Lane::read_window_with` does. A window that has less than `fewest` pixels for each lane is read by
    /// the first one alone, since threads would take longer than they bring in.
    pub fn read_window_with<R: Threads + Sync, S: Scene>(
        &mut self,
        rt: &R,
        supply: &Supply<S>,
        folder: &mut F,
        window: Window,
        fewest: usize,
        out: &mut [Sample],
    ) -> Result<(), LoadFault>
        requires told { S.told ≡ F.names folder.old }
        requires scene { S.cat ≡ supply.now.cat.now }
        requires some { 0 < length self.old.lanes.items }
        requires ready { All (IsReady F.Folder folder.old supply.now.cat.now) self.old.lanes.items }
        requires window { IsWindow supply.now.cat.now window }
        requires size { length out.old ≡ window.rect.w * window.rect.h }
        ensures pixels { WhereTold F.Folder folder.old
            (λ m. OnOk result (out.new ≡ row_by_row (pixel_of m supply.now.cat.now window.dataset window.band)
            window.rect)) }
        // the pixels that the dataset's name has by itself
        ensures named { WhereTold F.Folder folder.old (λ m. (d : Dataset) →
            slice_get supply.now.cat.now window.dataset ≡ Some d →
            OnOk result (out.new ≡ row_by_row (pixel_of_name m d.head.name window.band) window.rect)) }
        // each sample is in the band's type, whatever the folder tells
        ensures typed { OnOk result (All (IsInBand supply.now.cat.now window.dataset window.band) out.new) }
        // the answer is the first refusal in the lanes' order, of those that read, each its own lines
        ensures first { IsTeamAnswer (F.names folder.old) supply.now.cat.now window
            (readers_of window.rect.h (length out.old) fewest (length self.old.lanes.items)) out.old out.new result }
        ensures ready { All (IsReady F.Folder folder.new supply.now.cat.now) self.new.lanes.items }
        ensures count { length self.new.lanes.items ≡ length self.old.lanes.items }
        // each lane has the room that it had
        ensures capacity { map room_of self.new.lanes.items ≡ map room_of self.old.lanes.items }
        // of one lane with room for all blocks, each load makes one more block held, but for the last of a refused call
        ensures loads { (old : _) (new : _) → self.old.lanes.items ≡ old ∷ [] → self.new.lanes.items ≡ new ∷ [] →
            all_blocks supply.now.cat.now ≤ room_of old → self.new.loads
            ≤ self.old.loads + (held_count new - held_count old) + slack_of result }
        ensures reads { length self.old.lanes.items ≡ 1 → F.read_calls folder.new ≤ F.read_calls folder.old + most_calls
            supply.now.cat.now * (self.new.loads - self.old.loads) }
        ensures counted { self.old.loads ≤ self.new.loads }
        ensures only_read { OnlyReadByViews F.Folder folder.old folder.new }
        ensures cause { HasCause LoadFault.FolderFault (F.faults folder.old) (F.faults folder.new) result }
        ensures changed { IfErr result (TellsChangeIn supply.now.cat.now) }
        ensures never { WhereTold F.Folder folder.old (λ _. IfErr result IsUnchanged) }
    {
        let lanes = self.lanes.as_mut_slice();
        let count = readers_of(window.rect.h, out.len(), fewest, lanes.len());
        if count == 1 {
            let loads = &mut self.loads;
            return lanes[0].read_window_with(supply, folder, window, out, loads);
        }
        let job = Job {
            window,
            count: lanes.len(),
        };
        read_beside::<R, F, S>(rt, supply, folder, &job, lanes, out)
    }
}
