// Raw data beside its header.
ghost use Rattle.std.specs.Prelude.{◌≡◌, ◌⊎◌, ◌≤◌, ◌+◌, ℕ, List, length, nat_lt, if◌then◌else◌, Some, Ok, Err, IfOk};
ghost use Rattle.std.specs.Prelude.{IfErr, IsTrue};
ghost use Rattle.lists_and_answers.specs.Answers.{Gives};
ghost use Rattle.outside.specs.Outside.{Files};
ghost use Rattle.outside.specs.Causes.{HasCause};
ghost use Rattle.outside.specs.Names.{extension_of, is_raw, header_of};
ghost use Rattle.interleaved_raw.specs.Raw.{needed_of};
ghost use Rattle.catalog.specs.Outcomes.{IsMemory, IsOutside};
ghost use Rattle.catalog.specs.Drivers.{Fits};
ghost use Rattle.catalog.specs.OwnFiles.{content_kind, IsOfFile};
ghost use Rattle.catalog.specs.Heads.{file_in, header_in, raw_in};

use crate::driver::{Content, Found};
use crate::files::{open_file, read_whole};
use crate::{Bad, DriverHead, Kind, WalkFault};
use esri_hdr::{HdrFault, RawHead, read};
use interleaved_raw::needed_len;
use outside::{Folder, Name};
use std::alloc::Global;

/// The greatest length of a header, in bytes.
const LONGEST_HEADER: u64 = esri_hdr::LONGEST_HEADER as u64;

// Reads the header of a name.
#[tactic(auto, using(crate::proofs::Headers::outside_fails), unfolding(crate::specs::Heads::header_in))]
fn read_header<F: Folder>(alloc: Global, folder: &mut F, name: &Name) -> Result<RawHead, WalkFault>
    ensures told { (m : Files) → F.names folder.old ≡ Some m → Gives IsOutside (λ h. h) result (header_in m name.now) }
    ensures names { F.names folder.new ≡ F.names folder.old }
    ensures reads { F.read_calls folder.new ≤ F.read_calls folder.old + 1 }
    ensures write_calls { F.write_calls folder.new ≡ F.write_calls folder.old }
    ensures cause { HasCause WalkFault.FolderFault (F.faults folder.old) (F.faults folder.new) result }
    ensures of_file { IfErr result IsOfFile }
{
    let text = open_file(folder, name)?;
    let len = folder.len(&text);
    if len > LONGEST_HEADER {
        return Err(WalkFault::Malformed {
            name: name.try_clone()?,
            bad: Bad::Hdr(HdrFault::Limit),
        });
    }
    let bytes = read_whole(alloc, folder, text, len as usize)?;
    match read(&bytes) {
        Ok(head) => Ok(head),
        Err(fault) => Err(WalkFault::Malformed {
            name: name.try_clone()?,
            bad: Bad::Hdr(fault),
        }),
    }
}

// The name of the header beside raw data.
pub fn header_name(alloc: Global, name: &Name) -> Result<Name, WalkFault>
    requires raw { IsTrue (is_raw (extension_of name.now)) }
    ensures ok { IfOk result (λ n. n ≡ header_of name.now) }
    ensures err { IfErr result (λ f. f ≡ WalkFault.Memory) }
{
    Ok(name.header(alloc)?)
}

// The length in bytes of the file of a name.
fn data_len<F: Folder>(folder: &mut F, name: &Name) -> Result<u64, WalkFault>
    ensures ok { IfOk result (λ n. (m : Files) → F.names folder.old ≡ Some m → (b : List ℕ) ×
        (file_in m name.now ≡ Ok b) × (n ≡ length b)) }
    ensures err { IfErr result (λ f. (m : Files) → F.names folder.old ≡ Some m →
        IsOutside f ⊎ (file_in m name.now ≡ Err f)) }
    ensures names { F.names folder.new ≡ F.names folder.old }
    ensures read_calls { F.read_calls folder.new ≡ F.read_calls folder.old }
    ensures write_calls { F.write_calls folder.new ≡ F.write_calls folder.old }
    ensures cause { HasCause WalkFault.FolderFault (F.faults folder.old) (F.faults folder.new) result }
    ensures of_file { IfErr result IsOfFile }
{
    let file = open_file(folder, name)?;
    Ok(folder.len(&file))
}

// Reads the header beside the raw data of a name.
fn header_beside<F: Folder>(
    alloc: Global,
    folder: &mut F,
    name: &Name,
) -> Result<RawHead, WalkFault>
    requires raw { IsTrue (is_raw (extension_of name.now)) }
    ensures told { (m : Files) → F.names folder.old ≡ Some m → Gives IsOutside (λ h. h) result
        (header_in m (header_of name.now)) }
    ensures names { F.names folder.new ≡ F.names folder.old }
    ensures reads { F.read_calls folder.new ≤ F.read_calls folder.old + 1 }
    ensures write_calls { F.write_calls folder.new ≡ F.write_calls folder.old }
    ensures cause { HasCause WalkFault.FolderFault (F.faults folder.old) (F.faults folder.new) result }
    ensures of_file { IfErr result IsOfFile }
{
    let header = header_name(alloc, name)?;
    read_header(alloc, folder, &header)
}

// What is found of raw data that have this header and so many bytes.
fn found(name: &Name, head: RawHead, has: u64) -> Result<Found, WalkFault>
    requires raw { IsTrue (is_raw (extension_of name.now)) }
    ensures told { Gives IsMemory (λ found. found) result (if nat_lt has (needed_of head) then Err
        (WalkFault.Short name.now (needed_of head) has) else Ok (record
        { content = Content.File (DriverHead.Raw head); length = has })) }
    ensures fits { IfOk result (λ found. Fits name.now found.content found.length) }
{
    let needed = needed_len(&head);
    if has < needed {
        return Err(WalkFault::Short {
            name: name.try_clone()?,
            needed,
            has,
        });
    }
    Ok(Found {
        content: Content::File(DriverHead::Raw(head)),
        length: has,
    })
}

// Finds the raw data of a name: opens them, reads their header, and compares their length.
#[tactic(auto, using(crate::proofs::Headers::outside_fails), unfolding(crate::specs::Heads::raw_in))]
pub fn find_raw<F: Folder>(alloc: Global, folder: &mut F, name: &Name) -> Result<Found, WalkFault>
    requires raw { IsTrue (is_raw (extension_of name.now)) }
    ensures told { (m : Files) → F.names folder.old ≡ Some m → Gives IsOutside (λ found. found) result
        (raw_in m name.now) }
    ensures kind { IfOk result (λ found. content_kind found.content ≡ Kind.Raw) }
    ensures fits { IfOk result (λ found. Fits name.now found.content found.length) }
    ensures names { F.names folder.new ≡ F.names folder.old }
    ensures reads { F.read_calls folder.new ≤ F.read_calls folder.old + 1 }
    ensures write_calls { F.write_calls folder.new ≡ F.write_calls folder.old }
    ensures cause { HasCause WalkFault.FolderFault (F.faults folder.old) (F.faults folder.new) result }
    ensures of_file { IfErr result IsOfFile }
{
    let has = data_len(folder, name)?;
    let head = header_beside(alloc, folder, name)?;
    found(name, head, has)
}
