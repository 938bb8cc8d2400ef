// A folder that counts calls of the one that it holds, and tells what that one tells.
ghost use Rattle.std.specs.Prelude.{◌≡◌, ◌+◌, ◌≤◌, length, IfOk, OnOk, OnErr};
ghost use Rattle.outside.specs.Causes.{HasCause, FailsWith, Absorbed, one_more, added};
ghost use Rattle.outside.specs.Outside.{Opened, IsLong, NotThere, ReadsBytes, Created, Grown, Written, Appended};
ghost use Rattle.outside.specs.Outside.{Published};
ghost use Rattle.outside.specs.Outside.{ChangesOnly, IsView};
ghost use Rattle.outside.specs.Counting.{opens_of};

use crate::{Failed, Folder, Name, OpenFault, WriteFault};
use std::alloc::AllocError;

/// A folder around another. It counts the calls of `open`, `read_at` and `write_at`, its own and those of the views
/// that it absorbed; each number stands still at 2^64 - 1.
#[derive(Drop)]
pub struct CountingFolder<F> {
    inner: F,
    opens: u64,
    reads: u64,
    writes: u64,
}

impl<F: Folder> CountingFolder<F> {
    /// Counts the calls of this folder from now on.
    pub fn new(inner: F) -> Self
        ensures names { ⟦<CountingFolder<F> as Folder>⟧.names result ≡ F.names inner }
        ensures faults { ⟦<CountingFolder<F> as Folder>⟧.faults result ≡ F.faults inner }
        ensures opens { opens_of result ≡ 0 }
        ensures reads { ⟦<CountingFolder<F> as Folder>⟧.read_calls result ≡ 0 }
        ensures writes { ⟦<CountingFolder<F> as Folder>⟧.write_calls result ≡ 0 }
    {
        CountingFolder {
            inner,
            opens: 0,
            reads: 0,
            writes: 0,
        }
    }

    /// The number of `open` calls.
    pub fn opens(&self) -> u64
        ensures opens { result ≡ opens_of self.now }
    {
        self.opens
    }

    /// The number of `read_at` calls.
    pub fn reads(&self) -> u64
        ensures reads { result ≡ ⟦<CountingFolder<F> as Folder>⟧.read_calls self.now }
    {
        self.reads
    }

    /// The number of `write_at` calls.
    pub fn writes(&self) -> u64
        ensures writes { result ≡ ⟦<CountingFolder<F> as Folder>⟧.write_calls self.now }
    {
        self.writes
    }

    /// Gives the folder back.
    pub fn into_inner(self) -> F
        ensures names { F.names result ≡ ⟦<CountingFolder<F> as Folder>⟧.names self }
        ensures faults { F.faults result ≡ ⟦<CountingFolder<F> as Folder>⟧.faults self }
    {
        let CountingFolder {
            inner,
            opens: _,
            reads: _,
            writes: _,
        } = self;
        inner
    }
}

impl<F: Folder> Folder for CountingFolder<F> {
    type File = F::File;

    type Draft = F::Draft;

    ghost names = { λ s. F.names s.inner };

    ghost faults = { λ s. F.faults s.inner };

    ghost read_calls = { λ s. s.reads };

    ghost write_calls = { λ s. s.writes };

    ghost file_bytes = { λ f. F.file_bytes f };

    ghost file_len = { λ f. F.file_len f };

    ghost draft_name = { λ d. F.draft_name d };

    ghost draft_bytes = { λ d. F.draft_bytes d };

    ghost draft_len = { λ d. F.draft_len d };

    fn open(&mut self, name: &Name) -> Result<F::File, OpenFault>
        ensures ok { IfOk result (λ file. Opened (F.names self.old.inner) name.now (F.file_bytes file)) }
        ensures len { IfOk result (λ file. IsLong (F.file_bytes file) (F.file_len file)) }
        ensures absent { NotThere (F.names self.old.inner) name.now result }
        ensures names { F.names self.new.inner ≡ F.names self.old.inner }
        ensures read_calls { self.new.reads ≡ self.old.reads }
        ensures write_calls { self.new.writes ≡ self.old.writes }
        ensures cause { HasCause OpenFault.Failed (F.faults self.old.inner) (F.faults self.new.inner) result }
        ensures opens { opens_of self.new ≡ one_more (opens_of self.old) }
    {
        self.opens = self.opens.saturating_add(1);
        self.inner.open(name)
    }

    fn len(&self, file: &F::File) -> u64 {
        self.inner.len(file)
    }

    fn read_at(&mut self, file: &mut F::File, pos: u64, out: &mut [u8]) -> Result<(), Failed>
        requires { pos + length out.old ≤ F.file_len file.old }
        ensures ok { OnOk result (ReadsBytes (F.file_bytes file.old) pos (length out.old) out.new) }
        ensures bytes { F.file_bytes file.new ≡ F.file_bytes file.old }
        ensures len { F.file_len file.new ≡ F.file_len file.old }
        ensures names { F.names self.new.inner ≡ F.names self.old.inner }
        ensures read_calls { self.new.reads ≡ one_more self.old.reads }
        ensures write_calls { self.new.writes ≡ self.old.writes }
        ensures cause { FailsWith (F.faults self.old.inner) (F.faults self.new.inner) result }
        ensures opens { opens_of self.new ≡ opens_of self.old }
    {
        self.reads = self.reads.saturating_add(1);
        self.inner.read_at(file, pos, out)
    }

    fn create(&mut self, name: &Name) -> Result<F::Draft, WriteFault>
        ensures ok { IfOk result (λ draft. Created (F.names self.old.inner) name.now (F.draft_name draft)
            (F.draft_bytes draft) (F.draft_len draft)) }
        ensures names { F.names self.new.inner ≡ F.names self.old.inner }
        ensures read_calls { self.new.reads ≡ self.old.reads }
        ensures write_calls { self.new.writes ≡ self.old.writes }
        ensures cause { HasCause WriteFault.Failed (F.faults self.old.inner) (F.faults self.new.inner) result }
        ensures opens { opens_of self.new ≡ opens_of self.old }
    {
        self.inner.create(name)
    }

    fn grow(&mut self, draft: &mut F::Draft, len: u64) -> Result<(), WriteFault>
        requires { F.draft_len draft.old ≤ len }
        ensures ok { OnOk result (Grown len (F.draft_bytes draft.old) (F.draft_bytes draft.new)) }
        ensures len { OnOk result (F.draft_len draft.new ≡ len) }
        ensures name { F.draft_name draft.new ≡ F.draft_name draft.old }
        ensures names { F.names self.new.inner ≡ F.names self.old.inner }
        ensures read_calls { self.new.reads ≡ self.old.reads }
        ensures write_calls { self.new.writes ≡ self.old.writes }
        ensures cause { HasCause WriteFault.Failed (F.faults self.old.inner) (F.faults self.new.inner) result }
        ensures opens { opens_of self.new ≡ opens_of self.old }
    {
        self.inner.grow(draft, len)
    }

    fn write_at(&mut self, draft: &mut F::Draft, pos: u64, bytes: &[u8]) -> Result<(), WriteFault>
        requires { pos + length bytes.now ≤ F.draft_len draft.old }
        ensures ok { OnOk result (Written pos bytes.now (F.draft_bytes draft.old) (F.draft_bytes draft.new)) }
        ensures len { OnOk result (F.draft_len draft.new ≡ F.draft_len draft.old) }
        ensures name { F.draft_name draft.new ≡ F.draft_name draft.old }
        ensures names { F.names self.new.inner ≡ F.names self.old.inner }
        ensures read_calls { self.new.reads ≡ self.old.reads }
        ensures write_calls { self.new.writes ≡ one_more self.old.writes }
        ensures cause { HasCause WriteFault.Failed (F.faults self.old.inner) (F.faults self.new.inner) result }
        ensures opens { opens_of self.new ≡ opens_of self.old }
    {
        self.writes = self.writes.saturating_add(1);
        self.inner.write_at(draft, pos, bytes)
    }

    fn append(&mut self, draft: &mut F::Draft, bytes: &[u8]) -> Result<(), WriteFault>
        ensures ok { OnOk result (Appended bytes.now (F.draft_bytes draft.old) (F.draft_bytes draft.new)) }
        ensures len { OnOk result (F.draft_len draft.new ≡ F.draft_len draft.old + length bytes.now) }
        ensures name { F.draft_name draft.new ≡ F.draft_name draft.old }
        ensures names { F.names self.new.inner ≡ F.names self.old.inner }
        ensures read_calls { self.new.reads ≡ self.old.reads }
        ensures write_calls { self.new.writes ≡ self.old.writes }
        ensures cause { HasCause WriteFault.Failed (F.faults self.old.inner) (F.faults self.new.inner) result }
        ensures opens { opens_of self.new ≡ opens_of self.old }
    {
        self.inner.append(draft, bytes)
    }

    fn draft_read(&mut self, draft: &mut F::Draft, pos: u64, out: &mut [u8]) -> Result<(), Failed>
        requires { pos + length out.old ≤ F.draft_len draft.old }
        ensures ok { OnOk result (ReadsBytes (F.draft_bytes draft.old) pos (length out.old) out.new) }
        ensures bytes { F.draft_bytes draft.new ≡ F.draft_bytes draft.old }
        ensures len { F.draft_len draft.new ≡ F.draft_len draft.old }
        ensures name { F.draft_name draft.new ≡ F.draft_name draft.old }
        ensures names { F.names self.new.inner ≡ F.names self.old.inner }
        ensures read_calls { self.new.reads ≡ self.old.reads }
        ensures write_calls { self.new.writes ≡ self.old.writes }
        ensures cause { FailsWith (F.faults self.old.inner) (F.faults self.new.inner) result }
        ensures opens { opens_of self.new ≡ opens_of self.old }
    {
        self.inner.draft_read(draft, pos, out)
    }

    fn publish(&mut self, draft: F::Draft) -> Result<(), WriteFault>
        ensures ok { OnOk result (Published (F.draft_name draft) (F.draft_bytes draft) (F.names self.old.inner)
            (F.names self.new.inner)) }
        ensures others { OnOk result (ChangesOnly (F.draft_name draft) (F.names self.old.inner)
            (F.names self.new.inner)) }
        ensures err { OnErr result (F.names self.new.inner ≡ F.names self.old.inner) }
        ensures read_calls { self.new.reads ≡ self.old.reads }
        ensures write_calls { self.new.writes ≡ self.old.writes }
        ensures cause { HasCause WriteFault.Failed (F.faults self.old.inner) (F.faults self.new.inner) result }
        ensures opens { opens_of self.new ≡ opens_of self.old }
    {
        self.inner.publish(draft)
    }

    fn discard(&mut self, draft: F::Draft)
        ensures names { F.names self.new.inner ≡ F.names self.old.inner }
        ensures read_calls { self.new.reads ≡ self.old.reads }
        ensures write_calls { self.new.writes ≡ self.old.writes }
        ensures faults { F.faults self.new.inner ≡ F.faults self.old.inner }
        ensures opens { opens_of self.new ≡ opens_of self.old }
    {
        self.inner.discard(draft)
    }

    fn fork(&self) -> Result<Self, AllocError>
        ensures view { IfOk result (λ view. IsView (F.names self.now.inner) (F.names view.inner) (F.faults view.inner)
            view.reads view.writes) }
        ensures opens { IfOk result (λ view. opens_of view ≡ 0) }
    {
        Ok(CountingFolder {
            inner: self.inner.fork()?,
            opens: 0,
            reads: 0,
            writes: 0,
        })
    }

    fn absorb(&mut self, view: Self)
        ensures names { F.names self.new.inner ≡ F.names self.old.inner }
        ensures read_calls { self.new.reads ≡ added self.old.reads view.reads }
        ensures write_calls { self.new.writes ≡ added self.old.writes view.writes }
        ensures faults { Absorbed (F.faults self.old.inner) (F.faults view.inner) (F.faults self.new.inner) }
        ensures counted { F.faults self.new.inner ≡ added (F.faults self.old.inner) (F.faults view.inner) }
        ensures opens { opens_of self.new ≡ added (opens_of self.old) (opens_of view) }
    {
        let CountingFolder {
            inner,
            opens,
            reads,
            writes,
        } = view;
        self.inner.absorb(inner);
        self.opens = self.opens.saturating_add(opens);
        self.reads = self.reads.saturating_add(reads);
        self.writes = self.writes.saturating_add(writes);
    }
}
