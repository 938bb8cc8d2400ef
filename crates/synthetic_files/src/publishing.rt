// Tiles that are published.
ghost use Rattle.std.specs.Prelude.{◌≡◌, ◌<◌, ℕ, List, [], ◌∷◌, Option, Some, IsTrue, IfOk, IfErr, OnErr};
ghost use Rattle.outside.specs.Names.{extension_of, header_of, is_raw};
ghost use Rattle.outside.specs.Outside.{Files};
ghost use Rattle.outside.specs.Causes.{HasCause};
ghost use Rattle.esri_hdr.specs.Text.{hdr_text};
ghost use Rattle.error_lines.specs.Steps.{Goes, all_done, publishes};
ghost use Rattle.published_files.specs.Documents.{IsOfFolder};
ghost use Rattle.synthetic_rasters.specs.Tiles.{tile_data, tile_head, tile_files, tiles_files};
ghost use Rattle.synthetic_files.specs.Publishing.{ArePublished};

use crate::drafts::{data_draft, publish_draft, text_draft};
use error_lines::Fault;
use esri_hdr::write;
use outside::{Folder, Name};
use published_files::write_fault;
use std::alloc::{AllocError, Global};
use synthetic_rasters::{TileLine, TileSide, tile_head, tile_name};

// Publishes a tile's data under its name.
fn publish_data<F: Folder>(
    folder: &mut F,
    name: &Name,
    room: &mut TileLine,
    side: TileSide,
    tile: u32,
) -> Result<(), Fault>
    requires side { room.old.side ≡ side }
    requires tile { tile < 4 }
    ensures told { (m : Files) → F.names folder.old ≡ Some m → ArePublished ((name.now, tile_data side tile) ∷ []) m
        result (F.names folder.new) }
    ensures names { OnErr result (F.names folder.new ≡ F.names folder.old) }
    ensures side { room.new.side ≡ side }
    ensures writes { F.write_calls folder.new ≡ F.write_calls folder.old }
    ensures faults { IfErr result IsOfFolder }
    ensures cause { HasCause Fault.FolderFault (F.faults folder.old) (F.faults folder.new) result }
{
    match data_draft(folder, name, room, side, tile) {
        Ok(draft) => publish_draft(folder, draft),
        Err(fault) => Err(write_fault(fault)),
    }
}

// Publishes a text under a name.
fn publish_text<F: Folder>(folder: &mut F, name: &Name, text: &[u8]) -> Result<(), Fault>
    ensures told { (m : Files) → F.names folder.old ≡ Some m → ArePublished ((name.now, text.now) ∷ []) m result
        (F.names folder.new) }
    ensures names { OnErr result (F.names folder.new ≡ F.names folder.old) }
    ensures writes { F.write_calls folder.new ≡ F.write_calls folder.old }
    ensures faults { IfErr result IsOfFolder }
    ensures cause { HasCause Fault.FolderFault (F.faults folder.old) (F.faults folder.new) result }
{
    match text_draft(folder, name, text) {
        Ok(draft) => publish_draft(folder, draft),
        Err(fault) => Err(write_fault(fault)),
    }
}

// The text of a tile's header.
fn header_text(alloc: Global, side: TileSide, tile: u32) -> Result<Vec<u8>, AllocError>
    requires tile { tile < 4 }
    ensures text { IfOk result (λ text. text.items ≡ hdr_text (tile_head side tile)) }
{
    let mut text = Vec::new(alloc);
    write(&tile_head(side, tile), &mut text)?;
    Ok(text)
}

// Publishes a tile's header beside its data.
fn publish_header<F: Folder>(
    alloc: Global,
    folder: &mut F,
    name: &Name,
    side: TileSide,
    tile: u32,
) -> Result<(), Fault>
    requires raw { IsTrue (is_raw (extension_of name.now)) }
    requires tile { tile < 4 }
    ensures told { (m : Files) → F.names folder.old ≡ Some m →
        ArePublished ((header_of name.now, hdr_text (tile_head side tile)) ∷ []) m result (F.names folder.new) }
    ensures names { OnErr result (F.names folder.new ≡ F.names folder.old) }
    ensures writes { F.write_calls folder.new ≡ F.write_calls folder.old }
    ensures faults { IfErr result IsOfFolder }
    ensures cause { HasCause Fault.FolderFault (F.faults folder.old) (F.faults folder.new) result }
{
    let header = name.header(alloc)?;
    let text = header_text(alloc, side, tile)?;
    publish_text(folder, &header, text.as_slice())
}

// Publishes the files of a tile.
fn publish_tile<F: Folder>(
    alloc: Global,
    folder: &mut F,
    room: &mut TileLine,
    side: TileSide,
    tile: u32,
) -> Result<(), Fault>
    requires side { room.old.side ≡ side }
    requires tile { tile < 4 }
    ensures told { (m : Files) → F.names folder.old ≡ Some m → ArePublished (tile_files side tile) m result
        (F.names folder.new) }
    ensures side { room.new.side ≡ side }
    ensures writes { F.write_calls folder.new ≡ F.write_calls folder.old }
    ensures faults { IfErr result IsOfFolder }
    ensures cause { HasCause Fault.FolderFault (F.faults folder.old) (F.faults folder.new) result }
{
    let name = tile_name(alloc, tile)?;
    publish_data(folder, &name, room, side, tile)?;
    publish_header(alloc, folder, &name, side, tile)
}

// Publishes the files of all tiles, through room for a line.
#[tactic(auto, unfolding(synthetic_rasters::specs::Tiles::tiles_files))]
fn publish_all<F: Folder>(
    alloc: Global,
    folder: &mut F,
    room: &mut TileLine,
    side: TileSide,
) -> Result<(), Fault>
    requires side { room.old.side ≡ side }
    ensures told { (m : Files) → F.names folder.old ≡ Some m → ArePublished (tiles_files side) m result
        (F.names folder.new) }
    ensures writes { F.write_calls folder.new ≡ F.write_calls folder.old }
    ensures faults { IfErr result IsOfFolder }
    ensures cause { HasCause Fault.FolderFault (F.faults folder.old) (F.faults folder.new) result }
{
    for tile in 0..4 {
        publish_tile(alloc, folder, room, side, tile)?;
    }
    Ok(())
}

/// Publishes the data and the header of each tile of this side, in order. FolderFault comes only where the count of the
/// folder rose, Memory freely. After a refusal the files before it stand, and no draft is left.
pub fn publish_tiles<F: Folder>(alloc: Global, folder: &mut F, side: TileSide) -> Result<(), Fault>
    // over a folder that tells its files: each name has its bytes, and nothing is put
    ensures told { (m : Files) → F.names folder.old ≡ Some m → (out : Option (List ℕ)) →
        Goes (all_done (publishes (tiles_files side))) m result (F.names folder.new) out out }
    ensures writes { F.write_calls folder.new ≡ F.write_calls folder.old }
    ensures faults { IfErr result IsOfFolder }
    ensures cause { HasCause Fault.FolderFault (F.faults folder.old) (F.faults folder.new) result }
{
    let mut room = TileLine::new(alloc, side)?;
    publish_all(alloc, folder, &mut room, side)
}
