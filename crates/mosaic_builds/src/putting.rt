// A mosaic that is made and published.
ghost use Rattle.std.specs.Prelude.{◌≡◌, ◌≤◌, ◌<◌, ◌++◌, ℕ, true, false, List, [], ◌∷◌, length, Option, Some, Err};
ghost use Rattle.std.specs.Prelude.{IfErr};
ghost use Rattle.outside.specs.Outside.{Files};
ghost use Rattle.outside.specs.Causes.{HasCause};
ghost use Rattle.buildvrt.specs.Judging.{IsOneOf};
ghost use Rattle.error_lines.specs.Faults.{HasCauses, fault_status};
ghost use Rattle.error_lines.specs.Steps.{Step, Warns, AreWarned, Goes, GoesWarning, all_done};
ghost use Rattle.mosaic_builds.specs.Built.{built_in, built_by, warning_of, IsMade};
ghost use Rattle.mosaic_builds.specs.Ends.{MayEnd};
ghost use Rattle.mosaic_builds.specs.Faults.{IsOfWriting};
ghost use Rattle.mosaic_builds.specs.Steps.{warns, progress_steps, publishing_steps, mosaic_steps, mosaic_done};
ghost use Rattle.mosaic_builds.specs.Walks.{heads_at};

use crate::making::{Building, Made, make};
use buildvrt::Skipped;
use error_lines::{Fault, progress_end_text, progress_text, put_warning};
use outside::{Failed, Folder, Name, Names, Sink, put_all};
use published_files::publish_document;
use std::alloc::Global;
use vrt_profile::Document;

// Puts the warning of a skipped input.
fn warn<E: Sink>(err: &mut E, failed: &mut bool, made: &Made, skipped: Skipped)
    requires made { IsMade made.now }
    requires within { IsOneOf (length made.now.ids) skipped }
    ensures warned { (steps : List Step) (first : ℕ) (start : Option (List ℕ)) →
        AreWarned steps failed.old first (E.faults err.old) start (E.got err.old) →
        AreWarned (steps ++ Warns (warning_of (heads_at made.now.cat made.now.ids) skipped) ∷ []) failed.new first
        (E.faults err.new) start (E.got err.new) }
{
    let id = *made.ids.get(skipped.input as usize);
    let head = made.cat.head(id);
    put_warning(err, failed, &head.name, skipped.reason);
}

// Puts the warnings of the skipped inputs.
fn warn_all<E: Sink>(err: &mut E, failed: &mut bool, made: &Made)
    requires made { IsMade made.now }
    ensures warned { failed.old ≡ false → AreWarned (warns (built_by made.now).warnings) failed.new (E.faults err.old)
        (E.faults err.new) (E.got err.old) (E.got err.new) }
{
    for skipped in made.skipped.as_slice() {
        warn(err, failed, made, *skipped);
    }
}

// Tells that all is done, unless nothing may be told.
fn put_progress<O: Sink>(out: &mut O, quiet: bool) -> Result<(), Fault>
    ensures told { (m : Files) (names : Option Files) → names ≡ Some m →
        Goes (all_done (progress_steps quiet)) m result names (O.got out.old) (O.got out.new) }
    ensures quiet { quiet ≡ true → out.new ≡ out.old }
    ensures faults { IfErr result (λ f. f ≡ Fault.OutFault) }
    ensures cause { HasCause Fault.OutFault (O.faults out.old) (O.faults out.new) result }
{
    if quiet {
        return Ok(());
    }
    match put_all(out, &[progress_text(), progress_end_text()]) {
        Ok(()) => Ok(()),
        Err(Failed) => Err(Fault::OutFault),
    }
}

// Publishes a document, and tells that all is done.
fn put_document<F: Folder, O: Sink>(
    alloc: Global,
    folder: &mut F,
    out: &mut O,
    name: &Name,
    document: &Document,
    quiet: bool,
) -> Result<(), Fault>
    ensures told { (m : Files) → F.names folder.old ≡ Some m →
        Goes (all_done (publishing_steps quiet name.now document.now)) m result (F.names folder.new) (O.got out.old)
        (O.got out.new) }
    ensures quiet { quiet ≡ true → out.new ≡ out.old }
    ensures faults { IfErr result IsOfWriting }
    ensures cause { HasCauses (F.faults folder.old) (F.faults folder.new) (O.faults out.old) (O.faults out.new) result }
{
    match publish_document(alloc, folder, name, document) {
        Ok(()) => put_progress(out, quiet),
        Err(fault) => Err(fault),
    }
}

// Puts the warnings of a mosaic, and then publishes it.
fn put_made<F: Folder, O: Sink, E: Sink>(
    alloc: Global,
    folder: &mut F,
    out: &mut O,
    err: &mut E,
    failed: &mut bool,
    made: &Made,
    building: Building,
) -> Result<(), Fault>
    requires made { IsMade made.now }
    ensures told { failed.old ≡ false → (m : Files) → F.names folder.old ≡ Some m →
        GoesWarning (all_done (mosaic_steps building.entry.quiet building.entry.options.now.out (built_by made.now))) m
        result (F.names folder.new) (O.got out.old) (O.got out.new)
        (λ steps. AreWarned steps failed.new (E.faults err.old) (E.faults err.new) (E.got err.old) (E.got err.new)) }
    ensures warned { failed.old ≡ false → AreWarned (warns (built_by made.now).warnings) failed.new (E.faults err.old)
        (E.faults err.new) (E.got err.old) (E.got err.new) }
    ensures quiet { building.entry.quiet ≡ true → out.new ≡ out.old }
    ensures faults { IfErr result IsOfWriting }
    ensures cause { HasCauses (F.faults folder.old) (F.faults folder.new) (O.faults out.old) (O.faults out.new) result }
{
    warn_all(err, failed, made);
    let options = building.options;
    let quiet = building.quiet;
    put_document(alloc, folder, out, &options.out, &made.document, quiet)
}

/// Makes a mosaic and publishes it under its name: lists the names of its inputs, walks from each in order, builds the
/// document of their heads, and sees that its name is none of a file that was read. Then it puts the warnings of the
/// inputs that are skipped, publishes the document, and tells that it is done, unless nothing may be told.
///
/// Refusals come in that order, all before anything is put or published. A failing `err` sets `failed` and changes
/// nothing else. FolderFault and OutFault come only where the count of the folder and of the output rose, Memory
/// freely.
pub fn put_mosaic<F: Folder, O: Sink, E: Sink>(
    alloc: Global,
    folder: &mut F,
    out: &mut O,
    err: &mut E,
    failed: &mut bool,
    inputs: Names,
    building: Building,
) -> Result<(), Fault>
    // over a folder that tells its files: all the steps are done, or where the outside failed the first of them
    ensures told { failed.old ≡ false → (m : Files) → F.names folder.old ≡ Some m →
        GoesWarning (mosaic_done building.entry.quiet building.entry.options.now.out
        (built_in m building.entry.verify inputs building.entry.list.now building.entry.options.now)) m result
        (F.names folder.new) (O.got out.old) (O.got out.new) (λ steps.
        AreWarned steps failed.new (E.faults err.old) (E.faults err.new) (E.got err.old) (E.got err.new)) }
    // over every folder: some warnings were put, none where the mosaic is refused
    ensures warned { failed.old ≡ false → (lines : List (List ℕ)) × AreWarned (warns lines) failed.new
        (E.faults err.old) (E.faults err.new) (E.got err.old) (E.got err.new) ×
        IfErr result (λ f. fault_status f ≡ 1 → lines ≡ []) }
    // a refused mosaic has done nothing
    ensures refused { IfErr result (λ f. fault_status f ≡ 1 → (out.new ≡ out.old) × (err.new ≡ err.old) ×
        (failed.new ≡ failed.old) × (F.names folder.new ≡ F.names folder.old)) }
    // over every folder and for every answer: a quiet mosaic leaves the output as it was
    ensures quiet { building.entry.quiet ≡ true → out.new ≡ out.old }
    ensures may_end { IfErr result (MayEnd building.entry.options.now.out) }
    ensures cause { HasCauses (F.faults folder.old) (F.faults folder.new) (O.faults out.old) (O.faults out.new) result }
{
    match make(alloc, folder, inputs, building) {
        Ok(made) => put_made(alloc, folder, out, err, failed, &made, building),
        Err(fault) => Err(fault),
    }
}
