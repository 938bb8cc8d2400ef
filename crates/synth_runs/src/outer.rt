// The outer mosaic.
ghost use Rattle.std.specs.Prelude.{◌≡◌, ℕ, List, Option, Some, IfErr};
ghost use Rattle.outside.specs.Outside.{Files};
ghost use Rattle.outside.specs.Causes.{HasCause};
ghost use Rattle.error_lines.specs.Steps.{Goes};
ghost use Rattle.published_files.specs.Documents.{IsOfFolder};
ghost use Rattle.synth_runs.specs.Runs.{outer_run};

use error_lines::Fault;
use outside::Folder;
use published_files::publish_document;
use std::alloc::Global;
use synthetic_rasters::{TileSide, outer_document, outer_name};

/// Publishes the outer mosaic of tiles of this side. FolderFault comes only where the folder's count rose, Memory
/// freely.
pub fn publish_outer<F: Folder>(alloc: Global, folder: &mut F, side: TileSide) -> Result<(), Fault>
    // over a folder that tells its files: the mosaic stands under its name, and nothing is put
    ensures told { (m : Files) → F.names folder.old ≡ Some m → (out : Option (List ℕ)) →
        Goes (outer_run side) m result (F.names folder.new) out out }
    ensures faults { IfErr result IsOfFolder }
    ensures cause { HasCause Fault.FolderFault (F.faults folder.old) (F.faults folder.new) result }
{
    let name = outer_name(alloc)?;
    let document = outer_document(alloc, side)?;
    publish_document(alloc, folder, &name, &document)
}
