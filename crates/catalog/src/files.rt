// Files of a folder, read whole.
ghost use Rattle.std.specs.Prelude.{◌≡◌, ◌⊎◌, ◌≤◌, ◌+◌, ℕ, Some, List, Err, length, take, IfOk, IfErr};
ghost use Rattle.outside.specs.Outside.{Files, IsLong};
ghost use Rattle.outside.specs.Causes.{HasCause};
ghost use Rattle.catalog.specs.Outcomes.{IsOutside};
ghost use Rattle.catalog.specs.Heads.{file_in};
ghost use Rattle.catalog.specs.OwnFiles.{IsFile, IsOfFile};

use crate::WalkFault;
use outside::{Failed, Folder, Name, OpenFault};
use std::alloc::Global;

/// Opens the file of a name.
pub fn open_file<F: Folder>(folder: &mut F, name: &Name) -> Result<F::File, WalkFault>
    ensures ok { IfOk result (λ file. IsFile (F.names folder.old) name.now (F.file_bytes file)) }
    ensures len { IfOk result (λ file. IsLong (F.file_bytes file) (F.file_len file)) }
    ensures err { IfErr result (λ f. (m : Files) → F.names folder.old ≡ Some m →
        IsOutside f ⊎ (file_in m name.now ≡ Err f)) }
    ensures names { F.names folder.new ≡ F.names folder.old }
    ensures read_calls { F.read_calls folder.new ≡ F.read_calls folder.old }
    ensures write_calls { F.write_calls folder.new ≡ F.write_calls folder.old }
    ensures cause { HasCause WalkFault.FolderFault (F.faults folder.old) (F.faults folder.new) result }
    ensures of_file { IfErr result IsOfFile }
{
    match folder.open(name) {
        Ok(file) => Ok(file),
        Err(OpenFault::Absent) => Err(WalkFault::Absent {
            name: name.try_clone()?,
        }),
        Err(OpenFault::Failed) => Err(WalkFault::FolderFault),
        Err(OpenFault::Memory) => Err(WalkFault::Memory),
    }
}

/// Reads all bytes of an open file, of which there are `len`.
pub fn read_whole<F: Folder>(
    alloc: Global,
    folder: &mut F,
    mut file: F::File,
    len: usize,
) -> Result<Vec<u8>, WalkFault>
    requires len { len ≡ F.file_len file }
    requires told { IsLong (F.file_bytes file) len }
    ensures ok { IfOk result (λ v. (b : List ℕ) → F.file_bytes file ≡ Some b → v.items ≡ b) }
    ensures size { IfOk result (λ v. length v.items ≡ len) }
    ensures err { IfErr result IsOutside }
    ensures names { F.names folder.new ≡ F.names folder.old }
    ensures reads { F.read_calls folder.new ≤ F.read_calls folder.old + 1 }
    ensures write_calls { F.write_calls folder.new ≡ F.write_calls folder.old }
    ensures cause { HasCause WalkFault.FolderFault (F.faults folder.old) (F.faults folder.new) result }
{
    let mut bytes = vec![in alloc; 0u8; len]?;
    match folder.read_at(&mut file, 0, &mut bytes) {
        Ok(()) => Ok(bytes),
        Err(Failed) => Err(WalkFault::FolderFault),
    }
}

// Reads the first bytes of an open file: so many, or all of a shorter one.
pub fn read_front<F: Folder>(
    alloc: Global,
    folder: &mut F,
    file: &mut F::File,
    most: usize,
) -> Result<Vec<u8>, WalkFault>
    requires told { IsLong (F.file_bytes file.old) (F.file_len file.old) }
    ensures ok { IfOk result (λ v. (b : List ℕ) → F.file_bytes file.old ≡ Some b → v.items ≡ take most b) }
    ensures err { IfErr result IsOutside }
    ensures bytes { F.file_bytes file.new ≡ F.file_bytes file.old }
    ensures len { F.file_len file.new ≡ F.file_len file.old }
    ensures names { F.names folder.new ≡ F.names folder.old }
    ensures reads { F.read_calls folder.new ≤ F.read_calls folder.old + 1 }
    ensures write_calls { F.write_calls folder.new ≡ F.write_calls folder.old }
    ensures cause { HasCause WalkFault.FolderFault (F.faults folder.old) (F.faults folder.new) result }
{
    let len = folder.len(file).min(most as u64);
    let mut bytes = vec![in alloc; 0u8; len as usize]?;
    match folder.read_at(file, 0, &mut bytes) {
        Ok(()) => Ok(bytes),
        Err(Failed) => Err(WalkFault::FolderFault),
    }
}
