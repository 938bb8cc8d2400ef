// What is told of the copy.
ghost use Rattle.std.specs.Prelude.{◌≡◌, ◌⊎◌, ℕ, [], ◌∷◌, Option, Some, Ok, Err, IfOk, IfErr, OnOk, slice_get};
ghost use Rattle.outside.specs.Causes.{HasCause};
ghost use Rattle.outside.specs.Outside.{Files};
ghost use Rattle.outside.specs.Reading.{WhereTold};
ghost use Rattle.outside.specs.Streams.{Gets};
ghost use Rattle.catalog.specs.Drivers.{Dataset};
ghost use Rattle.catalog.specs.Walk.{IsWalked};
ghost use Rattle.error_lines.specs.Faults.{HasCauses, HasChanged, IsOutside};
ghost use Rattle.error_lines.specs.Steps.{all_done, prints, Goes};
ghost use Rattle.mosaic_builds.specs.Ends.{IsOfMaking};
ghost use Rattle.output_copies.specs.Copying as copying;
ghost use Rattle.synthetic_rasters.specs.Names.{output_name};
ghost use Rattle.translation_runs.specs.Ends.{ended};
ghost use Rattle.synth_runs.specs.Ends.{MayEnd, PutsLines};
ghost use Rattle.synth_runs.specs.Runs.{copied, tally_done, tally_run};
ghost use Rattle.synth_runs.specs.Tallied.{IsCopied};

use crate::strips::{Copied, tally_copied};
use catalog::{Catalog, open_all};
use command_words::BlockCount;
use error_lines::Fault;
use outside::{Failed, Folder, Sink};
use std::alloc::Global;
use std::marker::Brand;
use std::sync::ledger::Blank;
use synthetic_rasters::{output_name, tally_text};

// Puts a text.
fn put_lines<O: Sink>(out: &mut O, text: &[u8]) -> Result<(), Fault>
    ensures told { (m : Files) (names : Option Files) → names ≡ Some m →
        Goes (all_done (prints (text.now ∷ []))) m result names (O.got out.old) (O.got out.new) }
    ensures ok { OnOk result (Gets text.now (O.got out.old) (O.got out.new)) }
    ensures faults { IfErr result (λ f. f ≡ Fault.OutFault) }
    ensures ends { (names : Option Files) (faults : ℕ) → copying.MayEnd names faults faults (O.faults out.old)
        (O.faults out.new) result }
{
    match out.put(text) {
        Ok(()) => Ok(()),
        Err(Failed) => Err(Fault::OutFault),
    }
}

// Walks from the copy.
fn open_copied<F: Folder>(alloc: Global, folder: &mut F) -> Result<Copied, Fault>
    ensures copied { IfOk result (λ c. IsCopied c.cat c.id c.size) }
    ensures walked { WhereTold F.Folder folder.old (λ m. IfOk result (λ c. IsWalked m c.cat)) }
    ensures dataset { WhereTold F.Folder folder.old (λ m. IfOk result (λ c. (d : Dataset) →
        slice_get c.cat c.id ≡ Some d → copied m ≡ Ok d)) }
    ensures refused { WhereTold F.Folder folder.old (λ m. IfErr result (λ f. IsOutside f ⊎ (copied m ≡ Err f))) }
    ensures faults { IfErr result (IsOfMaking output_name) }
    ensures names { F.names folder.new ≡ F.names folder.old }
    ensures cause { HasCause Fault.FolderFault (F.faults folder.old) (F.faults folder.new) result }
{
    let name = output_name(alloc)?;
    let mut cat = Catalog::new(alloc);
    match open_all(alloc, &mut cat, folder, &name, false) {
        Ok(id) => {
            let size = cat.head(id).size;
            Ok(Copied {
                alloc,
                cat,
                id,
                size,
            })
        }
        Err(fault) => Err(Fault::from(fault)),
    }
}

// Tallies a dataset, and puts what is told of it.
fn put_told<F: Folder, O: Sink>(
    copied: &Copied,
    folder: &mut F,
    out: &mut O,
    blocks: BlockCount,
) -> Result<(), Fault>
    requires copied { IsCopied copied.now.cat copied.now.id copied.now.size }
    requires walked { WhereTold F.Folder folder.old (λ m. IsWalked m copied.now.cat) }
    ensures told { (m : Files) (d : Dataset) → F.names folder.old ≡ Some m →
        slice_get copied.now.cat copied.now.id ≡ Some d → Goes (tally_done m (Ok d)) m result (F.names folder.new)
        (O.got out.old) (O.got out.new) }
    ensures lines { OnOk result (PutsLines (O.got out.old) (O.got out.new)) }
    ensures silent { IfErr result (λ f. (f ≡ Fault.OutFault → ⊥) → out.new ≡ out.old) }
    ensures ends { copying.MayEnd (F.names folder.old) (F.faults folder.old) (F.faults folder.new) (O.faults out.old)
        (O.faults out.new) result }
{
    let tally = tally_copied::<F, Brand>(copied, folder, blocks, Blank::new(1))?;
    let text = tally_text(copied.alloc, copied.size, &tally)?;
    put_lines(out, &text)
}

/// Walks from the copy, tallies the samples of its first band that aren't NODATA, and puts what is told of them.
///
/// FolderFault and OutFault come only where the count of the folder and of the output rose, Changed only over a folder
/// that doesn't tell its names, Memory freely, and the refusals of a walk before anything is put.
pub fn put_tally<F: Folder, O: Sink>(
    alloc: Global,
    folder: &mut F,
    out: &mut O,
    blocks: BlockCount,
) -> Result<(), Fault>
    ensures told { (m : Files) → F.names folder.old ≡ Some m → Goes (tally_run m) m result (F.names folder.new)
        (O.got out.old) (O.got out.new) }
    ensures lines { OnOk result (PutsLines (O.got out.old) (O.got out.new)) }
    ensures silent { IfErr result (λ f. (f ≡ Fault.OutFault → ⊥) → out.new ≡ out.old) }
    ensures may_end { IfErr result MayEnd }
    ensures changed { HasChanged (F.names folder.old) (ended result) }
    ensures cause { HasCauses (F.faults folder.old) (F.faults folder.new) (O.faults out.old) (O.faults out.new) result }
{
    match open_copied(alloc, folder) {
        Ok(copied) => put_told(&copied, folder, out, blocks),
        Err(fault) => Err(fault),
    }
}
