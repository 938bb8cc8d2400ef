// Pieces of an output that are copied from its source.
ghost use Rattle.std.specs.Prelude.{◌≡◌, ◌≤◌, ◌+◌, ◌-◌, ◌*◌, All, IfErr, OnOk, Some, length, map, slice_get};
ghost use Rattle.std.specs.Prelude.{◌+ℤ◌, pos, unsigned_abs};
ghost use Rattle.geotransform.specs.Limits.{farthest, most_side};
ghost use Rattle.outside.specs.Causes.{HasCause};
ghost use Rattle.outside.specs.Reading.{WhereTold};
ghost use Rattle.band_blocks.specs.Contents.{most_calls};
ghost use Rattle.band_blocks.specs.Open.{IsUnchanged};
ghost use Rattle.catalog.specs.Drivers.{Dataset};
ghost use Rattle.catalog.specs.Pixels.{pixel_of_name};
ghost use Rattle.catalog.specs.Places.{row_by_row};
ghost use Rattle.nearest_window.specs.Lanes.{room_of};
ghost use Rattle.nearest_window.specs.Right.{TellsChangeIn};
ghost use Rattle.nearest_window.specs.Windows.{IsWindow};
ghost use Rattle.lane_teams.specs.Ready.{AreLanesReady, OnlyReadByViews};
ghost use Rattle.translate_plan.specs.Plan.{out_pixel};
ghost use Rattle.translate_plan.specs.declared.band.OutBand.{OutBand};
ghost use Rattle.strip_copies.specs.Copies.{IsTranslation, IsHeldIn};
ghost use Rattle.strip_copies.specs.Pieces.{copies, is_copied, lies_on, piece_rect, source_rect, IsCopied, IsPiece};

use crate::direct::hold_all;
use crate::holding::Holding;
use crate::reading::band_type_of;
use crate::shares::fewest_for;
use crate::translation::Translation;
use band_blocks::LoadFault;
use geotransform::{Rect, Sample, Size};
use lane_teams::Team;
use nearest_window::{Supply, Window};
use outside::Folder;
use shared_lines::Scene;
use std::sync::ledger::Ledger;
use std::thread::Threads;
use translate_plan::Plan;

/// Samples of a band of an output: of its lines from `first` up to `end` those in the columns from `left` up to
/// `right`. Bands, lines and columns count from 0.
#[derive(Clone, Copy)]
pub struct Piece {
    pub band: u32,
    pub first: u32,
    pub end: u32,
    pub left: u32,
    pub right: u32,
}

// The column, or the line, behind so many from an offset on.
fn end_behind(offset: i64, count: u32) -> i64
    requires far { unsigned_abs offset ≤ farthest }
    ensures end { result ≡ offset +ℤ pos count }
{
    offset + count as i64
}

// Whether so many columns, or lines, from an offset on lie on a side.
fn lies_on(side: u32, offset: i64, count: u32) -> bool
    requires far { unsigned_abs offset ≤ farthest }
    ensures lies { result ≡ lies_on side offset count }
{
    offset >= 0 && end_behind(offset, count) <= side as i64
}

// Whether an output of the window's size shows it as it is, and all of it lies in the raster of a source of this size.
fn copies(window: Size, size: Size, x: i64, y: i64, source: Size) -> bool
    requires x { unsigned_abs x ≤ farthest }
    requires y { unsigned_abs y ≤ farthest }
    ensures copies { result ≡ copies window size x y source }
{
    window.w == size.w
        && window.h == size.h
        && lies_on(source.w, x, size.w)
        && lies_on(source.h, y, size.h)
}

/// Whether each sample of a plan is that of one pixel of a source of this size: nothing is scaled, and all that is
/// shown lies in the raster.
pub fn is_copied(plan: &Plan, source: Size) -> bool
    ensures copied { result ≡ is_copied plan.now source }
{
    plan.rules();
    copies(plan.window, plan.size, plan.x, plan.y, source)
}

// The column, or the line, that stands so many behind an offset to the right, or down.
fn place_behind(offset: i64, step: u32) -> u32
    requires far { unsigned_abs offset ≤ farthest }
    requires step { step ≤ most_side }
    ensures place { result ≡ unsigned_abs offset + step }
{
    let start = offset.unsigned_abs() as u32;
    start + step
}

// The window of the source that is read for a piece.
fn piece_window(translation: &Translation, piece: Piece) -> Window
    requires translation { IsTranslation translation.now.cat translation.now.id translation.now.plan }
    requires copied { IsCopied translation.now.cat translation.now.id translation.now.plan }
    requires piece { IsPiece translation.now.plan piece }
    ensures window { IsWindow translation.now.cat result }
    ensures dataset { result.dataset ≡ translation.now.id }
    ensures band { (b : OutBand) → slice_get translation.now.plan.bands piece.band ≡ Some b → result.band ≡ b.source }
    ensures rect { result.rect ≡ source_rect translation.now.plan piece }
{
    let plan = &translation.plan;
    plan.rules();
    let band = plan.source(piece.band);
    let x = place_behind(plan.x, piece.left);
    let y = place_behind(plan.y, piece.first);
    Window {
        dataset: translation.id,
        band,
        rect: Rect {
            x,
            y,
            w: piece.right - piece.left,
            h: piece.end - piece.first,
        },
    }
}

/// Fills `out` with a piece of the translation's output, row by row, each sample of which is that of one pixel of the
/// source. The lanes of the team are ready for the catalog and the folder. Where lines are given, which stand for the
/// catalog and the folder's files, they look for blocks in them and offer theirs.
///
/// FolderFault comes only where the folder's count rose, Memory freely. Changed comes only where a file was opened
/// again and had another length than the walk found, or was absent: never over a folder that tells its files. After a
/// refusal `out` is unknown, and the lanes are still ready. Each lane has the room that it had. Of one lane each read
/// is behind a load that is counted.
pub fn read_piece<R: Threads + Sync, F: Folder, L: Ledger, S: Scene>(
    rt: &R,
    translation: &Translation,
    team: &mut Team<F, L>,
    folder: &mut F,
    shared: Option<&shared_lines::Lines<S>>,
    piece: Piece,
    out: &mut [Sample],
) -> Result<(), LoadFault>
    requires ready { AreLanesReady F.Folder S.told S.cat folder.old translation.now.cat team.old.lanes.items }
    requires translation { IsTranslation translation.now.cat translation.now.id translation.now.plan }
    requires copied { IsCopied translation.now.cat translation.now.id translation.now.plan }
    requires piece { IsPiece translation.now.plan piece }
    requires size { length out.old ≡ (piece.right - piece.left) * (piece.end - piece.first) }
    ensures pixels { WhereTold F.Folder folder.old (λ m. (d : Dataset) →
        slice_get translation.now.cat translation.now.id ≡ Some d →
        OnOk result (out.new ≡ row_by_row (out_pixel translation.now.plan d.head.size (pixel_of_name m d.head.name)
        piece.band) (piece_rect piece))) }
    // each sample is one that the output can hold, whatever the folder tells
    ensures held { OnOk result (All (IsHeldIn translation.now.plan piece.band) out.new) }
    ensures ready { AreLanesReady F.Folder S.told S.cat folder.new translation.now.cat team.new.lanes.items }
    ensures lanes { length team.new.lanes.items ≡ length team.old.lanes.items }
    // each lane has the room that it had
    ensures capacity { map room_of team.new.lanes.items ≡ map room_of team.old.lanes.items }
    ensures only_read { OnlyReadByViews F.Folder folder.old folder.new }
    ensures cause { HasCause LoadFault.FolderFault (F.faults folder.old) (F.faults folder.new) result }
    ensures changed { IfErr result (TellsChangeIn translation.now.cat) }
    ensures never { WhereTold F.Folder folder.old (λ _. IfErr result IsUnchanged) }
    ensures counted { team.old.loads ≤ team.new.loads }
    ensures reads { length team.old.lanes.items ≡ 1 → F.read_calls folder.new ≤ F.read_calls folder.old + most_calls
        translation.now.cat * (team.new.loads - team.old.loads) }
{
    let plan = &translation.plan;
    plan.rules();
    let window = piece_window(translation, piece);
    let supply = Supply {
        alloc: translation.alloc,
        cat: &translation.cat,
        shared,
    };
    let fewest = fewest_for(translation);
    team.read_window_with(rt, &supply, folder, window, fewest, out)?;
    let holding = Holding::of(plan, piece.band);
    let kind = band_type_of(translation, window.band);
    hold_all(holding, kind, out);
    Ok(())
}
