// Documents that are published.
ghost use Rattle.std.specs.Prelude.{◌≡◌, ℕ, List, [], ◌∷◌, Option, Some, IfOk, IfErr, OnErr};
ghost use Rattle.outside.specs.Outside.{Files};
ghost use Rattle.outside.specs.Causes.{HasCause};
ghost use Rattle.vrt_writing.specs.Spelled.{spelled};
ghost use Rattle.error_lines.specs.Steps.{Publishes, Goes, all_done};
ghost use Rattle.published_files.specs.Documents.{IsOfFolder};

use error_lines::Fault;
use outside::{Folder, Name, WriteFault};
use std::alloc::{AllocError, Global};
use vrt_profile::Document;
use vrt_writing::write;

/// A fault of writing as that of the run.
pub fn write_fault(fault: WriteFault) -> Fault
    ensures folder { result ≡ Fault.FolderFault → fault ≡ WriteFault.Failed }
    ensures failed { fault ≡ WriteFault.Failed → result ≡ Fault.FolderFault }
    ensures outside { IsOfFolder result }
{
    match fault {
        WriteFault::Failed => Fault::FolderFault,
        WriteFault::Memory => Fault::Memory,
    }
}

// The one text of a document.
fn spelling(alloc: Global, document: &Document) -> Result<Vec<u8>, AllocError>
    ensures text { IfOk result (λ text. text.items ≡ spelled document.now) }
{
    let mut text = Vec::new(alloc);
    write(document, &mut text)?;
    Ok(text)
}

// A draft of this text.
fn draft_of<F: Folder>(folder: &mut F, name: &Name, text: &[u8]) -> Result<F::Draft, Fault>
    ensures text { IfOk result (λ draft. (m : Files) → F.names folder.old ≡ Some m →
        F.draft_bytes draft ≡ Some text.now) }
    ensures name { IfOk result (λ draft. F.draft_name draft ≡ name.now) }
    ensures names { F.names folder.new ≡ F.names folder.old }
    ensures writes { F.write_calls folder.new ≡ F.write_calls folder.old }
    ensures faults { IfErr result IsOfFolder }
    ensures cause { HasCause Fault.FolderFault (F.faults folder.old) (F.faults folder.new) result }
{
    match folder.create(name) {
        Ok(mut draft) => match folder.append(&mut draft, text) {
            Ok(()) => Ok(draft),
            Err(fault) => {
                folder.discard(draft);
                Err(write_fault(fault))
            }
        },
        Err(fault) => Err(write_fault(fault)),
    }
}

// Publishes this text under a name.
fn publish_text<F: Folder>(folder: &mut F, name: &Name, text: &[u8]) -> Result<(), Fault>
    ensures told { (m : Files) → F.names folder.old ≡ Some m → (out : Option (List ℕ)) →
        Goes (all_done (Publishes name.now text.now ∷ [])) m result (F.names folder.new) out out }
    ensures names { OnErr result (F.names folder.new ≡ F.names folder.old) }
    ensures writes { F.write_calls folder.new ≡ F.write_calls folder.old }
    ensures faults { IfErr result IsOfFolder }
    ensures cause { HasCause Fault.FolderFault (F.faults folder.old) (F.faults folder.new) result }
{
    let draft = draft_of(folder, name, text)?;
    match folder.publish(draft) {
        Ok(()) => Ok(()),
        Err(fault) => Err(write_fault(fault)),
    }
}

/// Publishes a document under a name, as the one text that is written of it.
///
/// FolderFault comes only where the count of the folder rose, Memory freely. After a refusal all names keep what they
/// held, and no draft is left.
pub fn publish_document<F: Folder>(
    alloc: Global,
    folder: &mut F,
    name: &Name,
    document: &Document,
) -> Result<(), Fault>
    // over a folder that tells its files: the name has the text, and nothing is put
    ensures told { (m : Files) → F.names folder.old ≡ Some m → (out : Option (List ℕ)) →
        Goes (all_done (Publishes name.now (spelled document.now) ∷ [])) m result (F.names folder.new) out out }
    ensures names { OnErr result (F.names folder.new ≡ F.names folder.old) }
    ensures writes { F.write_calls folder.new ≡ F.write_calls folder.old }
    ensures faults { IfErr result IsOfFolder }
    ensures cause { HasCause Fault.FolderFault (F.faults folder.old) (F.faults folder.new) result }
{
    let text = spelling(alloc, document)?;
    publish_text(folder, name, text.as_slice())
}
