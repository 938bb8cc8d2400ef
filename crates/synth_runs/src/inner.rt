// The mosaic of the tiles.
ghost use Rattle.std.specs.Prelude.{◌≡◌, ℕ, List, Option, Some, None, false, IfOk, IfErr};
ghost use Rattle.lists_and_answers.specs.Answers.{Gives};
ghost use Rattle.outside.specs.Outside.{Files};
ghost use Rattle.outside.specs.Causes.{HasCause};
ghost use Rattle.error_lines.specs.Faults.{IsOutside};
ghost use Rattle.error_lines.specs.Steps.{Goes};
ghost use Rattle.mosaic_builds.specs.Built.{built_in, built_by};
ghost use Rattle.mosaic_builds.specs.Ends.{IsOfMaking};
ghost use Rattle.synthetic_rasters.specs.Names.{tile_names, inner_name};
ghost use Rattle.synth_runs.specs.Runs.{inner_options, inner_run};

use buildvrt::{BuildOptions, Numbers, Resolution};
use catalog::NodataWord;
use error_lines::Fault;
use mosaic_builds::{Building, Made, make};
use outside::{Folder, Name};
use published_files::publish_document;
use std::alloc::{AllocError, Global};
use synthetic_rasters::{inner_name, tile_names};

// What the mosaic is asked for: nothing but its name.
fn inner_options(alloc: Global) -> Result<BuildOptions, AllocError>
    ensures options { IfOk result (λ o. o ≡ inner_options) }
{
    Ok(BuildOptions {
        out: inner_name(alloc)?,
        bands: Numbers::new(alloc),
        resolution: Resolution::Average,
        extent: None,
        src_nodata: NodataWord::Absent,
        vrt_nodata: NodataWord::Absent,
        separate: false,
        strict: false,
    })
}

// Makes the mosaic of the tiles, as it is asked for.
fn make_inner<F: Folder>(
    alloc: Global,
    folder: &mut F,
    options: &BuildOptions,
) -> Result<Made, Fault>
    requires asked { options.now ≡ inner_options }
    ensures told { (m : Files) → F.names folder.old ≡ Some m → Gives IsOutside built_by result
        (built_in m false tile_names None inner_options) }
    ensures names { F.names folder.new ≡ F.names folder.old }
    ensures cause { HasCause Fault.FolderFault (F.faults folder.old) (F.faults folder.new) result }
    ensures faults { IfErr result (IsOfMaking inner_name) }
{
    let names = tile_names(alloc)?;
    let list: Option<Name> = None;
    let building = Building {
        list: &list,
        options,
        verify: false,
        quiet: true,
    };
    make(alloc, folder, names, building)
}

/// Makes the mosaic of the tiles and publishes it. Nothing is told.
///
/// FolderFault comes only where the folder's count rose, Memory freely, and the refusals of a mosaic before it is
/// published.
pub fn put_inner<F: Folder>(alloc: Global, folder: &mut F) -> Result<(), Fault>
    // over a folder that tells its files: the mosaic stands under its name, or it was refused, and nothing is put
    ensures told { (m : Files) → F.names folder.old ≡ Some m → (out : Option (List ℕ)) →
        Goes (inner_run m) m result (F.names folder.new) out out }
    ensures faults { IfErr result (IsOfMaking inner_name) }
    ensures cause { HasCause Fault.FolderFault (F.faults folder.old) (F.faults folder.new) result }
{
    let options = inner_options(alloc)?;
    match make_inner(alloc, folder, &options) {
        Ok(made) => {
            let published = publish_document(alloc, folder, &options.out, &made.document);
            drop(made);
            published
        }
        Err(fault) => Err(fault),
    }
}
