// Views of a folder, and what the lanes that read through them answered.
ghost use Rattle.std.specs.Prelude.{◌≡◌, ◌≤◌, ◌<◌, map, length, IfOk, IfErr};
ghost use Rattle.std.specs.List.{All};
ghost use Rattle.outside.specs.Causes.{HasCause, Rose};
ghost use Rattle.outside.specs.Reading.{WhereTold};
ghost use Rattle.band_blocks.specs.Open.{IsUnchanged};
ghost use Rattle.nearest_window.specs.Right.{TellsChangeIn};
ghost use Rattle.lane_teams.specs.Refusals.{first_of, first_refusal};
ghost use Rattle.lane_teams.specs.Turns.{IsTurnOf};
ghost use Rattle.lane_teams.specs.Ready.{OnlyReadByViews};

use band_blocks::LoadFault;
use catalog::Catalog;
use outside::Folder;
use std::alloc::{AllocFailed, Global};

/// A view of the folder, and what the lane that reads through it answered.
pub struct Turn<F: Folder> {
    pub view: F,
    pub answer: Result<(), LoadFault>,
}

// Ends a view.
fn give_up<F: Folder>(folder: &mut F, view: F)
    requires unwritten { F.write_calls view ≡ 0 }
    ensures only_read { OnlyReadByViews F.Folder folder.old folder.new }
    ensures rose { 1 ≤ F.faults view → Rose (F.faults folder.old) (F.faults folder.new) }
{
    folder.absorb(view);
}

// The first of two answers that is a refusal.
fn first_of(answer: Result<(), LoadFault>, later: Result<(), LoadFault>) -> Result<(), LoadFault>
    ensures first { result ≡ first_of answer later }
{
    if answer.is_err() {
        return answer;
    }
    later
}

/// Ends all views. The answer is the first refusal in their order.
pub fn collect<F: Folder>(
    cat: &Catalog,
    folder: &mut F,
    turns: Vec<Turn<F>>,
) -> Result<(), LoadFault>
    requires turns { All (IsTurnOf F.Folder (F.names folder.old) cat.now) turns.items }
    ensures first { result ≡ first_refusal (map (λ t. t.answer) turns.items) }
    ensures only_read { OnlyReadByViews F.Folder folder.old folder.new }
    ensures cause { HasCause LoadFault.FolderFault (F.faults folder.old) (F.faults folder.new) result }
    ensures changed { IfErr result (TellsChangeIn cat.now) }
    ensures never { WhereTold F.Folder folder.old (λ _. IfErr result IsUnchanged) }
{
    // The clauses name it.
    let _ = cat;
    let mut turns = turns;
    let mut answer = Ok(());
    while let Some(turn) = turns.pop() {
        let Turn {
            view,
            answer: found,
        } = turn;
        give_up(folder, view);
        answer = first_of(found, answer);
    }
    turns.destroy_empty();
    answer
}

/// A view for each of so many lanes.
pub fn turns_of<F: Folder>(
    alloc: Global,
    cat: &Catalog,
    folder: &mut F,
    count: usize,
) -> Result<Vec<Turn<F>>, LoadFault>
    ensures count { IfOk result (λ turns. length turns.items ≡ count) }
    ensures turns { IfOk result (λ turns. All (IsTurnOf F.Folder (F.names folder.new) cat.now) turns.items) }
    ensures only_read { OnlyReadByViews F.Folder folder.old folder.new }
    ensures memory { IfErr result (λ e. e ≡ LoadFault.Memory) }
{
    let mut turns = Vec::new(alloc);
    for _at in 0..count {
        let Ok(view) = folder.fork() else {
            let _ = collect(cat, folder, turns);
            return Err(LoadFault::Memory);
        };
        let turn = Turn {
            view,
            answer: Ok(()),
        };
        if let Err(failed) = turns.push(turn) {
            let AllocFailed { value } = failed;
            let Turn { view, answer: _ } = value;
            give_up(folder, view);
            let _ = collect(cat, folder, turns);
            return Err(LoadFault::Memory);
        }
    }
    Ok(turns)
}
