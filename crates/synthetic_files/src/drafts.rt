// Drafts of a tile's data and of a text, and how they are published.
ghost use Rattle.std.specs.Prelude.{◌≡◌, ◌<◌, ℕ, List, [], ◌∷◌, Some, IfOk, OnOk, IfErr, OnErr};
ghost use Rattle.outside.specs.Outside.{Files};
ghost use Rattle.outside.specs.Causes.{HasCause};
ghost use Rattle.published_files.specs.Documents.{IsOfFolder};
ghost use Rattle.synthetic_rasters.specs.Tiles.{tile_data};
ghost use Rattle.synthetic_files.specs.Publishing.{ArePublished};

use error_lines::Fault;
use outside::{Folder, Name, WriteFault};
use published_files::write_fault;
use synthetic_rasters::{TileLine, TileSide};

// Adds the lines of a tile to a draft that is empty.
#[tactic(auto, unfolding(synthetic_rasters::specs::Tiles::tile_data))]
fn append_lines<F: Folder>(
    folder: &mut F,
    draft: &mut F::Draft,
    room: &mut TileLine,
    side: TileSide,
    tile: u32,
) -> Result<(), WriteFault>
    requires side { room.old.side ≡ side }
    requires tile { tile < 4 }
    ensures bytes { F.draft_bytes draft.old ≡ Some [] →
        OnOk result (F.draft_bytes draft.new ≡ Some (tile_data side tile)) }
    ensures name { F.draft_name draft.new ≡ F.draft_name draft.old }
    ensures side { room.new.side ≡ side }
    ensures names { F.names folder.new ≡ F.names folder.old }
    ensures writes { F.write_calls folder.new ≡ F.write_calls folder.old }
    ensures cause { HasCause WriteFault.Failed (F.faults folder.old) (F.faults folder.new) result }
{
    for line in 0..side.get() {
        room.fill(tile, line);
        folder.append(draft, room.bytes())?;
    }
    Ok(())
}

/// A draft of a tile's data.
pub fn data_draft<F: Folder>(
    folder: &mut F,
    name: &Name,
    room: &mut TileLine,
    side: TileSide,
    tile: u32,
) -> Result<F::Draft, WriteFault>
    requires side { room.old.side ≡ side }
    requires tile { tile < 4 }
    ensures bytes { IfOk result (λ draft. (m : Files) → F.names folder.old ≡ Some m →
        F.draft_bytes draft ≡ Some (tile_data side tile)) }
    ensures name { IfOk result (λ draft. F.draft_name draft ≡ name.now) }
    ensures side { room.new.side ≡ side }
    ensures names { F.names folder.new ≡ F.names folder.old }
    ensures writes { F.write_calls folder.new ≡ F.write_calls folder.old }
    ensures cause { HasCause WriteFault.Failed (F.faults folder.old) (F.faults folder.new) result }
{
    let mut draft = folder.create(name)?;
    match append_lines(folder, &mut draft, room, side, tile) {
        Ok(()) => Ok(draft),
        Err(fault) => {
            folder.discard(draft);
            Err(fault)
        }
    }
}

/// A draft of a text.
pub fn text_draft<F: Folder>(
    folder: &mut F,
    name: &Name,
    text: &[u8],
) -> Result<F::Draft, WriteFault>
    ensures text { IfOk result (λ draft. (m : Files) → F.names folder.old ≡ Some m →
        F.draft_bytes draft ≡ Some text.now) }
    ensures name { IfOk result (λ draft. F.draft_name draft ≡ name.now) }
    ensures names { F.names folder.new ≡ F.names folder.old }
    ensures writes { F.write_calls folder.new ≡ F.write_calls folder.old }
    ensures cause { HasCause WriteFault.Failed (F.faults folder.old) (F.faults folder.new) result }
{
    let mut draft = folder.create(name)?;
    match folder.append(&mut draft, text) {
        Ok(()) => Ok(draft),
        Err(fault) => {
            folder.discard(draft);
            Err(fault)
        }
    }
}

/// Publishes a draft.
pub fn publish_draft<F: Folder>(folder: &mut F, draft: F::Draft) -> Result<(), Fault>
    ensures told { (m : Files) (bytes : List ℕ) → F.names folder.old ≡ Some m → F.draft_bytes draft ≡ Some bytes →
        ArePublished ((F.draft_name draft, bytes) ∷ []) m result (F.names folder.new) }
    ensures names { OnErr result (F.names folder.new ≡ F.names folder.old) }
    ensures writes { F.write_calls folder.new ≡ F.write_calls folder.old }
    ensures faults { IfErr result IsOfFolder }
    ensures cause { HasCause Fault.FolderFault (F.faults folder.old) (F.faults folder.new) result }
{
    match folder.publish(draft) {
        Ok(()) => Ok(()),
        Err(fault) => Err(write_fault(fault)),
    }
}
