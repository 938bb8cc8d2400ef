// Mosaics, by their documents.
ghost use Rattle.std.specs.Prelude.{◌≡◌, ◌⊎◌, ◌≤◌, ◌+◌, ℕ, length, Some, Ok, Err, IfOk, IfErr};
ghost use Rattle.lists_and_answers.specs.Answers.{Gives};
ghost use Rattle.outside.specs.Outside.{Files};
ghost use Rattle.outside.specs.Causes.{HasCause};
ghost use Rattle.catalog.specs.Outcomes.{IsOutside, IsMemory};
ghost use Rattle.catalog.specs.Drivers.{Fits};
ghost use Rattle.catalog.specs.OwnFiles.{content_kind, IsOfFile};
ghost use Rattle.catalog.specs.Heads.{file_in, named, vrt_in};
ghost use Rattle.vrt_profile.specs.Values.{IsDocument, longest_document};
ghost use Rattle.vrt_profile.specs.Document.{document_of};

use crate::driver::{Content, Found};
use crate::files::{open_file, read_whole};
use crate::{Bad, Kind, WalkFault};
use outside::{Folder, Name};
use std::alloc::Global;
use vrt_profile::{Document, VrtFault, read};

/// The greatest length of a document, in bytes.
const LONGEST_DOCUMENT: u64 = 67_108_864;

// Reads the bytes of the document of a name, which are at most 67,108,864.
#[tactic(auto, using(crate::proofs::Headers::outside_fails), unfolding(crate::specs::Heads::vrt_in))]
fn document_bytes<F: Folder>(
    alloc: Global,
    folder: &mut F,
    name: &Name,
) -> Result<Vec<u8>, WalkFault>
    ensures ok { IfOk result (λ v. (m : Files) → F.names folder.old ≡ Some m → file_in m name.now ≡ Ok v.items) }
    ensures few { IfOk result (λ v. length v.items ≤ longest_document) }
    ensures err { IfErr result (λ f. (m : Files) → F.names folder.old ≡ Some m →
        IsOutside f ⊎ (vrt_in m name.now ≡ Err f)) }
    ensures names { F.names folder.new ≡ F.names folder.old }
    ensures reads { F.read_calls folder.new ≤ F.read_calls folder.old + 1 }
    ensures write_calls { F.write_calls folder.new ≡ F.write_calls folder.old }
    ensures cause { HasCause WalkFault.FolderFault (F.faults folder.old) (F.faults folder.new) result }
    ensures of_file { IfErr result IsOfFile }
{
    let file = open_file(folder, name)?;
    let length = folder.len(&file);
    if length > LONGEST_DOCUMENT {
        return Err(WalkFault::Malformed {
            name: name.try_clone()?,
            bad: Bad::Vrt(VrtFault::Limit),
        });
    }
    read_whole(alloc, folder, file, length as usize)
}

// What the bytes of the document of a name say.
fn read_document(alloc: Global, name: &Name, bytes: &[u8]) -> Result<Document, WalkFault>
    ensures told { Gives IsMemory (λ d. d) result (named (λ f. WalkFault.Malformed name.now (Bad.Vrt f))
        (document_of bytes.now)) }
    ensures rules { IfOk result IsDocument }
    ensures of_file { IfErr result IsOfFile }
{
    match read(alloc, bytes) {
        Ok(document) => {
            document.rules();
            Ok(document)
        }
        Err(VrtFault::Memory) => Err(WalkFault::Memory),
        Err(fault) => Err(WalkFault::Malformed {
            name: name.try_clone()?,
            bad: Bad::Vrt(fault),
        }),
    }
}

// Finds the mosaic of a name: opens its document, compares its length, and reads it.
#[tactic(auto, using(crate::proofs::Headers::outside_fails), unfolding(crate::specs::Heads::vrt_in))]
pub fn find_mosaic<F: Folder>(
    alloc: Global,
    folder: &mut F,
    name: &Name,
) -> Result<Found, WalkFault>
    ensures told { (m : Files) → F.names folder.old ≡ Some m → Gives IsOutside (λ found. found) result
        (vrt_in m name.now) }
    ensures kind { IfOk result (λ found. content_kind found.content ≡ Kind.Vrt) }
    ensures fits { IfOk result (λ found. Fits name.now found.content found.length) }
    ensures names { F.names folder.new ≡ F.names folder.old }
    ensures reads { F.read_calls folder.new ≤ F.read_calls folder.old + 1 }
    ensures write_calls { F.write_calls folder.new ≡ F.write_calls folder.old }
    ensures cause { HasCause WalkFault.FolderFault (F.faults folder.old) (F.faults folder.new) result }
    ensures of_file { IfErr result IsOfFile }
{
    let bytes = document_bytes(alloc, folder, name)?;
    let document = read_document(alloc, name, &bytes)?;
    Ok(Found {
        content: Content::Mosaic(document),
        length: bytes.len() as u64,
    })
}
