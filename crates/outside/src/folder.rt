// Files by name, as the program sees them.
ghost use Rattle.std.specs.Prelude.{◌≡◌, ◌+◌, ◌-◌, ◌≤◌, List, [], ℕ, Option, length, OnOk, OnErr, IfOk};
ghost use Rattle.outside.specs.Outside.{Files, Opened, IsLong, NotThere, ReadsBytes, Grown, Written, Appended, Created};
ghost use Rattle.outside.specs.Outside.{Published, ChangesOnly, IsView};
ghost use Rattle.outside.specs.Causes.{HasCause, FailsWith, Absorbed, one_more, added};
ghost use Rattle.outside.specs.declared.folder.OpenFault.TheVariants as open_fault;
ghost use Rattle.outside.specs.declared.folder.WriteFault.TheVariants as write_fault;

use crate::Name;
use std::alloc::{AllocError, AllocFailed};

/// A call of a folder, an input or a sink failed: its count of faults rose in that call.
#[derive(Clone, Copy, Debug, PartialEq, Eq)]
pub struct Failed;

/// Why a file wasn't opened: no file has the name, the call failed, or memory was refused.
#[derive(Clone, Copy, Debug, PartialEq, Eq)]
pub enum OpenFault {
    Absent,
    Failed,
    Memory,
}

/// Why a draft wasn't made, changed or published: the call failed, or memory was refused.
#[derive(Clone, Copy, Debug, PartialEq, Eq)]
pub enum WriteFault {
    Failed,
    Memory,
}

impl From<AllocError> for OpenFault {
    ghost from_gives = { λ _ e. e ≡ open_fault.Memory };

    fn from(_: AllocError) -> Self {
        OpenFault::Memory
    }
}

impl From<AllocError> for WriteFault {
    ghost from_gives = { λ _ e. e ≡ write_fault.Memory };

    fn from(_: AllocError) -> Self {
        WriteFault::Memory
    }
}

impl<T: Drop> From<AllocFailed<T>> for WriteFault {
    ghost from_gives = { λ _ e. e ≡ write_fault.Memory };

    fn from(_: AllocFailed<T>) -> Self {
        WriteFault::Memory
    }
}

/// Files by name. What it holds is known only where it tells; its counts are known always.
///
/// Each call answers `Failed` only where the count of faults rose in that call, and no call lowers it. Views, drafts
/// and the folder itself aren't `Drop`: a view ends by `absorb`, a draft by `publish` or `discard`.
pub trait Folder: Sized + Send {
    /// An open file. It may be read through the folder and through each of its views.
    type File: Send + Drop;

    /// A file that isn't published yet. After a refusal of `grow`, `write_at` or `append` its bytes are unknown, and
    /// it can only be discarded.
    type Draft: Send;

    /// The bytes under each name, where the folder tells them.
    ghost names: { Self → Option Files };

    /// How often a call has failed. A count at 2^64 - 1 counts as risen.
    ghost faults: { Self → ℕ };

    /// How many calls of `read_at` were made, up to 2^64 - 1.
    ghost read_calls: { Self → ℕ };

    /// How many calls of `write_at` were made, up to 2^64 - 1.
    ghost write_calls: { Self → ℕ };

    /// The bytes of an open file, where they are told.
    ghost file_bytes: { Self.File → Option (List ℕ) };

    /// The length in bytes that an open file had when it was opened.
    ghost file_len: { Self.File → ℕ };

    /// The name that a draft is for.
    ghost draft_name: { Self.Draft → List ℕ };

    /// The bytes of a draft, where they are told.
    ghost draft_bytes: { Self.Draft → Option (List ℕ) };

    /// The length of a draft, in bytes.
    ghost draft_len: { Self.Draft → ℕ };

    /// Opens the file of this name for reading. Absent comes only where no file has the name.
    fn open(&mut self, name: &Name) -> Result<Self::File, OpenFault>
        ensures ok { IfOk result (λ file. Opened (names self.old) name.now (file_bytes file)) }
        ensures len { IfOk result (λ file. IsLong (file_bytes file) (file_len file)) }
        ensures absent { NotThere (names self.old) name.now result }
        ensures names { names self.new ≡ names self.old }
        ensures read_calls { read_calls self.new ≡ read_calls self.old }
        ensures write_calls { write_calls self.new ≡ write_calls self.old }
        ensures cause { HasCause OpenFault.Failed (faults self.old) (faults self.new) result };

    /// The length in bytes that the file had when it was opened.
    fn len(&self, file: &Self::File) -> u64
        ensures len { result ≡ file_len file.now }
        ensures told { IsLong (file_bytes file.now) result };

    /// Fills `out` with the bytes from this place on, which stand within the file's length.
    fn read_at(&mut self, file: &mut Self::File, pos: u64, out: &mut [u8]) -> Result<(), Failed>
        requires { pos + length out.old ≤ file_len file.old }
        ensures ok { OnOk result (ReadsBytes (file_bytes file.old) pos (length out.old) out.new) }
        ensures bytes { file_bytes file.new ≡ file_bytes file.old }
        ensures len { file_len file.new ≡ file_len file.old }
        ensures names { names self.new ≡ names self.old }
        ensures read_calls { read_calls self.new ≡ one_more (read_calls self.old) }
        ensures write_calls { write_calls self.new ≡ write_calls self.old }
        ensures cause { FailsWith (faults self.old) (faults self.new) result };

    /// An empty draft for this name.
    fn create(&mut self, name: &Name) -> Result<Self::Draft, WriteFault>
        ensures ok { IfOk result (λ draft. Created (names self.old) name.now (draft_name draft) (draft_bytes draft)
            (draft_len draft)) }
        ensures names { names self.new ≡ names self.old }
        ensures read_calls { read_calls self.new ≡ read_calls self.old }
        ensures write_calls { write_calls self.new ≡ write_calls self.old }
        ensures cause { HasCause WriteFault.Failed (faults self.old) (faults self.new) result };

    /// Adds zero bytes up to a length, which isn't below the draft's.
    fn grow(&mut self, draft: &mut Self::Draft, len: u64) -> Result<(), WriteFault>
        requires { draft_len draft.old ≤ len }
        ensures ok { OnOk result (Grown len (draft_bytes draft.old) (draft_bytes draft.new)) }
        ensures len { OnOk result (draft_len draft.new ≡ len) }
        ensures name { draft_name draft.new ≡ draft_name draft.old }
        ensures names { names self.new ≡ names self.old }
        ensures read_calls { read_calls self.new ≡ read_calls self.old }
        ensures write_calls { write_calls self.new ≡ write_calls self.old }
        ensures cause { HasCause WriteFault.Failed (faults self.old) (faults self.new) result };

    /// Puts these bytes over those at a place within the draft, and leaves all others.
    fn write_at(
        &mut self,
        draft: &mut Self::Draft,
        pos: u64,
        bytes: &[u8],
    ) -> Result<(), WriteFault>
        requires { pos + length bytes.now ≤ draft_len draft.old }
        ensures ok { OnOk result (Written pos bytes.now (draft_bytes draft.old) (draft_bytes draft.new)) }
        ensures len { OnOk result (draft_len draft.new ≡ draft_len draft.old) }
        ensures name { draft_name draft.new ≡ draft_name draft.old }
        ensures names { names self.new ≡ names self.old }
        ensures read_calls { read_calls self.new ≡ read_calls self.old }
        ensures write_calls { write_calls self.new ≡ one_more (write_calls self.old) }
        ensures cause { HasCause WriteFault.Failed (faults self.old) (faults self.new) result };

    /// Adds these bytes at the draft's end.
    fn append(&mut self, draft: &mut Self::Draft, bytes: &[u8]) -> Result<(), WriteFault>
        ensures ok { OnOk result (Appended bytes.now (draft_bytes draft.old) (draft_bytes draft.new)) }
        ensures len { OnOk result (draft_len draft.new ≡ draft_len draft.old + length bytes.now) }
        ensures name { draft_name draft.new ≡ draft_name draft.old }
        ensures names { names self.new ≡ names self.old }
        ensures read_calls { read_calls self.new ≡ read_calls self.old }
        ensures write_calls { write_calls self.new ≡ write_calls self.old }
        ensures cause { HasCause WriteFault.Failed (faults self.old) (faults self.new) result };

    /// Fills `out` with the draft's bytes from this place on, and changes nothing in it.
    fn draft_read(
        &mut self,
        draft: &mut Self::Draft,
        pos: u64,
        out: &mut [u8],
    ) -> Result<(), Failed>
        requires { pos + length out.old ≤ draft_len draft.old }
        ensures ok { OnOk result (ReadsBytes (draft_bytes draft.old) pos (length out.old) out.new) }
        ensures bytes { draft_bytes draft.new ≡ draft_bytes draft.old }
        ensures len { draft_len draft.new ≡ draft_len draft.old }
        ensures name { draft_name draft.new ≡ draft_name draft.old }
        ensures names { names self.new ≡ names self.old }
        ensures read_calls { read_calls self.new ≡ read_calls self.old }
        ensures write_calls { write_calls self.new ≡ write_calls self.old }
        ensures cause { FailsWith (faults self.old) (faults self.new) result };

    /// Gives the draft's bytes to its name, at once. After a refusal no name has changed, and the draft is gone.
    fn publish(&mut self, draft: Self::Draft) -> Result<(), WriteFault>
        ensures ok { OnOk result (Published (draft_name draft) (draft_bytes draft) (names self.old) (names self.new)) }
        ensures others { OnOk result (ChangesOnly (draft_name draft) (names self.old) (names self.new)) }
        ensures err { OnErr result (names self.new ≡ names self.old) }
        ensures read_calls { read_calls self.new ≡ read_calls self.old }
        ensures write_calls { write_calls self.new ≡ write_calls self.old }
        ensures cause { HasCause WriteFault.Failed (faults self.old) (faults self.new) result };

    /// Gives the draft up.
    fn discard(&mut self, draft: Self::Draft)
        ensures names { names self.new ≡ names self.old }
        ensures read_calls { read_calls self.new ≡ read_calls self.old }
        ensures write_calls { write_calls self.new ≡ write_calls self.old }
        ensures faults { faults self.new ≡ faults self.old };

    /// A view with the same names and counts of its own from 0, for reading alone.
    fn fork(&self) -> Result<Self, AllocError>
        ensures view { IfOk result (λ view. IsView (names self.now) (names view) (faults view) (read_calls view)
            (write_calls view)) };

    /// Ends a view: its calls and its faults are added to the folder's, each count up to 2^64 - 1.
    fn absorb(&mut self, view: Self)
        ensures names { names self.new ≡ names self.old }
        ensures read_calls { read_calls self.new ≡ added (read_calls self.old) (read_calls view) }
        ensures write_calls { write_calls self.new ≡ added (write_calls self.old) (write_calls view) }
        ensures faults { Absorbed (faults self.old) (faults view) (faults self.new) }
        ensures counted { faults self.new ≡ added (faults self.old) (faults view) };
}
