// A folder in memory, whose calls fail where a schedule says so.
ghost use Rattle.std.specs.Prelude.{◌≡◌, ◌≤◌, ◌+◌, ◌-◌, ◌↔◌, [], length, ℕ, Some, None, Contains, IfOk, OnOk};
ghost use Rattle.std.specs.Prelude.{OnErr, IsErr, IsErrOf, IsTrue, option_map};
ghost use Rattle.std.specs.FinMap as map;
ghost use Rattle.lists_and_answers.specs.Lists.{with_name};
ghost use Rattle.outside.specs.Causes.{HasCause, FailsWith, Absorbed, CountsWhere, one_more, added};
ghost use Rattle.outside.specs.Memory.{files_of, AreNames, AreApart, names_of, reads_of, writes_of, schedule_of};
ghost use Rattle.outside.specs.Memory.{drafts_of, drafts_more, file_bytes_of, file_len_of, draft_name_of};
ghost use Rattle.outside.specs.Memory.{draft_bytes_of, draft_len_of, names_with, came_of};
ghost use Rattle.outside.specs.Stored.{newest};
ghost use Rattle.outside.specs.Outside.{Files, WithFile, IsUnder, Opened, IsLong, NotThere, ReadsBytes, Created, Grown};
ghost use Rattle.outside.specs.Outside.{Written, Appended, Published, ChangesOnly, IsView};
ghost use Rattle.outside.specs.declared.folder.OpenFault.TheVariants as open_fault;
ghost use Rattle.outside.specs.declared.folder.WriteFault.TheVariants as write_fault;
ghost use Rattle.outside.specs.declared.schedule.Method.TheVariants as method;

use crate::schedule::{Listed, Method, Never, Schedule};
use crate::{Failed, Folder, Name, Names, OpenFault, WriteFault};
use std::alloc::{AllocError, Global};

// A name and its bytes.
#[derive(Drop)]
pub(crate) struct Stored {
    pub(crate) name: Name,
    pub(crate) bytes: Vec<u8>,
}

/// An open file of a folder in memory, with bytes of its own.
#[derive(Drop)]
pub struct MemFile {
    bytes: Vec<u8>,
}

/// A draft of a folder in memory.
#[derive(Drop)]
pub struct MemDraft {
    name: Name,
    bytes: Vec<u8>,
}

/// Files in memory. It tells what it holds; which of its calls fail is its schedule's to say.
#[derive(Drop)]
pub struct MemoryFolder<P> {
    alloc: Global,
    // the newest last
    files: Vec<Stored>,
    schedule: P,
    reads: u64,
    writes: u64,
    // those that are neither published nor given up
    drafts: u32,
}

/// The folder in memory whose calls fail where a list says so.
pub type MemFolder = MemoryFolder<Listed>;

/// The folder in memory of which no call fails: its count of faults is always 0.
pub type CalmFolder = MemoryFolder<Never>;

// The bytes that were put last under a name.
#[tactic(auto, using(crate::proofs::Puts::puts))]
fn find<'a>(files: &'a [Stored], name: &Name) -> Option<&'a Stored>
    ensures { newest files.now name.now ≡ option_map (λ s. s.now.bytes.items) result }
{
    let mut found = None;
    for stored in files {
        if stored.name.is(name) {
            found = Some(stored);
        }
    }
    found
}

impl Stored {
    fn try_clone(&self, alloc: Global) -> Result<Stored, AllocError>
        ensures name { IfOk result (λ s. s.name ≡ self.now.name) }
        ensures bytes { IfOk result (λ s. s.bytes.items ≡ self.now.bytes.items) }
    {
        Ok(Stored {
            name: self.name.try_clone()?,
            bytes: self.bytes.to_vec(alloc)?,
        })
    }
}

// The same files, with bytes of their own.
#[tactic(auto, using(crate::proofs::Puts::puts))]
fn copy_files(alloc: Global, files: &[Stored]) -> Result<Vec<Stored>, AllocError>
    ensures files { IfOk result (λ copy. files_of copy.items ≡ files_of files.now) }
    ensures order { IfOk result (λ copy. names_with [] copy.items ≡ names_with [] files.now) }
{
    let mut copy = Vec::new(alloc);
    for stored in files {
        copy.push(stored.try_clone(alloc)?)?;
    }
    Ok(copy)
}

// Whether a list has a name.
fn has_name(names: &[Name], name: &Name) -> bool
    ensures { IsTrue result ↔ Contains names.now name.now }
{
    for held in names {
        if held.is(name) {
            return true;
        }
    }
    false
}

// The names of these files, each once.
#[tactic(auto, using(crate::proofs::Puts::puts))]
fn names_in(alloc: Global, files: &[Stored]) -> Result<Names, AllocError>
    ensures names { IfOk result (λ names. AreNames names (Some (files_of files.now))) }
    ensures once { IfOk result (λ names. AreApart names) }
    ensures order { IfOk result (λ names. names ≡ names_with [] files.now) }
{
    let mut names = Names::new(alloc);
    for stored in files {
        if !has_name(names.as_slice(), &stored.name) {
            names.push(stored.name.try_clone()?)?;
        }
    }
    Ok(names)
}

impl<P: Schedule> MemoryFolder<P> {
    /// An empty folder, of which no call was made.
    pub fn new(alloc: Global, schedule: P) -> Self
        ensures names { ⟦<MemoryFolder<P> as Folder>⟧.names result ≡ Some map.empty }
        ensures faults { ⟦<MemoryFolder<P> as Folder>⟧.faults result ≡ P.faults schedule }
        ensures read_calls { ⟦<MemoryFolder<P> as Folder>⟧.read_calls result ≡ 0 }
        ensures write_calls { ⟦<MemoryFolder<P> as Folder>⟧.write_calls result ≡ 0 }
        ensures schedule { schedule_of result ≡ schedule }
        ensures drafts { drafts_of result ≡ 0 }
        ensures order { came_of result ≡ [] }
    {
        MemoryFolder {
            alloc,
            files: Vec::new(alloc),
            schedule,
            reads: 0,
            writes: 0,
            drafts: 0,
        }
    }

    /// Puts a copy of these bytes under a name, before a run: it is no call of the folder, and no count rises. Where
    /// memory is refused, the folder is as before.
    #[tactic(auto, using(crate::proofs::Puts::puts))]
    pub fn put(&mut self, name: &Name, bytes: &[u8]) -> Result<(), AllocError>
        ensures ok { OnOk result (WithFile name.now bytes.now (⟦<MemoryFolder<P> as Folder>⟧.names self.old)
            (⟦<MemoryFolder<P> as Folder>⟧.names self.new)) }
        ensures err { OnErr result (⟦<MemoryFolder<P> as Folder>⟧.names self.new ≡ ⟦<MemoryFolder<P> as Folder>⟧.names
            self.old) }
        ensures faults { ⟦<MemoryFolder<P> as Folder>⟧.faults self.new ≡ ⟦<MemoryFolder<P> as Folder>⟧.faults self.old }
        ensures read_calls { reads_of self.new ≡ reads_of self.old }
        ensures write_calls { writes_of self.new ≡ writes_of self.old }
        ensures schedule { schedule_of self.new ≡ schedule_of self.old }
        ensures drafts { drafts_of self.new ≡ drafts_of self.old }
        ensures came { OnOk result (came_of self.new ≡ with_name (came_of self.old) name.now) }
        ensures stays { OnErr result (came_of self.new ≡ came_of self.old) }
    {
        let stored = Stored {
            name: name.try_clone()?,
            bytes: bytes.to_vec(self.alloc)?,
        };
        self.files.push(stored)?;
        Ok(())
    }

    /// The bytes that stand under a name; None where there is none. It is no call of the folder.
    pub fn bytes(&self, name: &Name) -> Option<&[u8]>
        ensures under { IsUnder name.now (⟦<MemoryFolder<P> as Folder>⟧.names self.now)
            (option_map (λ b. b.now) result) }
    {
        find(&self.files, name).map(|stored| stored.bytes.as_slice())
    }

    /// The names under which files stand, each once, in the order in which they came. It is no call of the folder.
    pub fn names(&self) -> Result<Names, AllocError>
        ensures names { IfOk result (λ names. AreNames names (⟦<MemoryFolder<P> as Folder>⟧.names self.now)) }
        ensures once { IfOk result (λ names. AreApart names) }
        ensures order { IfOk result (λ names. names ≡ came_of self.now) }
    {
        names_in(self.alloc, &self.files)
    }

    /// How many calls failed, at most 2^64 - 1. It is no call of the folder.
    pub fn faults(&self) -> u64
        ensures faults { result ≡ ⟦<MemoryFolder<P> as Folder>⟧.faults self.now }
    {
        self.schedule.faults()
    }

    /// How many drafts are open, neither published nor given up, at most 2^32 - 1. It is no call of the folder.
    pub fn drafts(&self) -> u32
        ensures drafts { result ≡ drafts_of self.now }
    {
        self.drafts
    }
}

impl<P: Schedule> Folder for MemoryFolder<P> {
    type File = MemFile;

    type Draft = MemDraft;

    ghost names = { λ s. Some (files_of s.files.items) };

    ghost faults = { λ s. P.faults s.schedule };

    ghost read_calls = { λ s. s.reads };

    ghost write_calls = { λ s. s.writes };

    ghost file_bytes = { λ f. Some f.bytes.items };

    ghost file_len = { λ f. length f.bytes.items };

    ghost draft_name = { λ d. d.name };

    ghost draft_bytes = { λ d. Some d.bytes.items };

    ghost draft_len = { λ d. length d.bytes.items };

    fn open(&mut self, name: &Name) -> Result<MemFile, OpenFault>
        ensures ok { IfOk result (λ file. Opened (names_of self.old) name.now (file_bytes_of file)) }
        ensures len { IfOk result (λ file. IsLong (file_bytes_of file) (file_len_of file)) }
        ensures absent { NotThere (names_of self.old) name.now result }
        ensures names { names_of self.new ≡ names_of self.old }
        ensures read_calls { reads_of self.new ≡ reads_of self.old }
        ensures write_calls { writes_of self.new ≡ writes_of self.old }
        ensures cause { HasCause OpenFault.Failed (P.faults (schedule_of self.old)) (P.faults (schedule_of self.new))
            result }
        ensures planned { IsErrOf result OpenFault.Failed ↔ P.plans (schedule_of self.old) method.Open }
        ensures count { CountsWhere (P.plans (schedule_of self.old) method.Open) (P.faults (schedule_of self.old))
            (P.faults (schedule_of self.new)) }
        ensures drafts { drafts_of self.new ≡ drafts_of self.old }
        ensures order { came_of self.new ≡ came_of self.old }
    {
        if self.schedule.fails(Method::Open) {
            return Err(OpenFault::Failed);
        }
        match find(&self.files, name) {
            None => Err(OpenFault::Absent),
            Some(stored) => {
                let bytes = stored.bytes.to_vec(self.alloc)?;
                Ok(MemFile { bytes })
            }
        }
    }

    fn len(&self, file: &MemFile) -> u64 {
        file.bytes.len() as u64
    }

    fn read_at(&mut self, file: &mut MemFile, pos: u64, out: &mut [u8]) -> Result<(), Failed>
        requires { pos + length out.old ≤ file_len_of file.old }
        ensures ok { OnOk result (ReadsBytes (file_bytes_of file.old) pos (length out.old) out.new) }
        ensures bytes { file_bytes_of file.new ≡ file_bytes_of file.old }
        ensures len { file_len_of file.new ≡ file_len_of file.old }
        ensures names { names_of self.new ≡ names_of self.old }
        ensures read_calls { reads_of self.new ≡ one_more (reads_of self.old) }
        ensures write_calls { writes_of self.new ≡ writes_of self.old }
        ensures cause { FailsWith (P.faults (schedule_of self.old)) (P.faults (schedule_of self.new)) result }
        ensures planned { IsErr result ↔ P.plans (schedule_of self.old) method.ReadAt }
        ensures count { CountsWhere (P.plans (schedule_of self.old) method.ReadAt) (P.faults (schedule_of self.old))
            (P.faults (schedule_of self.new)) }
        ensures drafts { drafts_of self.new ≡ drafts_of self.old }
        ensures order { came_of self.new ≡ came_of self.old }
    {
        self.reads = self.reads.saturating_add(1);
        if self.schedule.fails(Method::ReadAt) {
            return Err(Failed);
        }
        let from = pos as usize;
        let bytes = &file.bytes[from..from + out.len()];
        out.copy_from_slice(bytes);
        Ok(())
    }

    fn create(&mut self, name: &Name) -> Result<MemDraft, WriteFault>
        ensures ok { IfOk result (λ draft. Created (names_of self.old) name.now (draft_name_of draft)
            (draft_bytes_of draft) (draft_len_of draft)) }
        ensures names { names_of self.new ≡ names_of self.old }
        ensures read_calls { reads_of self.new ≡ reads_of self.old }
        ensures write_calls { writes_of self.new ≡ writes_of self.old }
        ensures cause { HasCause WriteFault.Failed (P.faults (schedule_of self.old)) (P.faults (schedule_of self.new))
            result }
        ensures planned { IsErrOf result WriteFault.Failed ↔ P.plans (schedule_of self.old) method.Create }
        ensures count { CountsWhere (P.plans (schedule_of self.old) method.Create) (P.faults (schedule_of self.old))
            (P.faults (schedule_of self.new)) }
        ensures opened { OnOk result (drafts_of self.new ≡ drafts_more (drafts_of self.old) 1) }
        ensures unopened { OnErr result (drafts_of self.new ≡ drafts_of self.old) }
        ensures order { came_of self.new ≡ came_of self.old }
    {
        if self.schedule.fails(Method::Create) {
            return Err(WriteFault::Failed);
        }
        let name = name.try_clone()?;
        self.drafts = self.drafts.saturating_add(1);
        Ok(MemDraft {
            name,
            bytes: Vec::new(self.alloc),
        })
    }

    fn grow(&mut self, draft: &mut MemDraft, len: u64) -> Result<(), WriteFault>
        requires { draft_len_of draft.old ≤ len }
        ensures ok { OnOk result (Grown len (draft_bytes_of draft.old) (draft_bytes_of draft.new)) }
        ensures len { OnOk result (draft_len_of draft.new ≡ len) }
        ensures name { draft_name_of draft.new ≡ draft_name_of draft.old }
        ensures names { names_of self.new ≡ names_of self.old }
        ensures read_calls { reads_of self.new ≡ reads_of self.old }
        ensures write_calls { writes_of self.new ≡ writes_of self.old }
        ensures cause { HasCause WriteFault.Failed (P.faults (schedule_of self.old)) (P.faults (schedule_of self.new))
            result }
        ensures planned { IsErrOf result WriteFault.Failed ↔ P.plans (schedule_of self.old) method.Grow }
        ensures count { CountsWhere (P.plans (schedule_of self.old) method.Grow) (P.faults (schedule_of self.old))
            (P.faults (schedule_of self.new)) }
        ensures drafts { drafts_of self.new ≡ drafts_of self.old }
        ensures order { came_of self.new ≡ came_of self.old }
    {
        if self.schedule.fails(Method::Grow) {
            return Err(WriteFault::Failed);
        }
        draft.bytes.resize(len as usize, 0)?;
        Ok(())
    }

    fn write_at(&mut self, draft: &mut MemDraft, pos: u64, bytes: &[u8]) -> Result<(), WriteFault>
        requires { pos + length bytes.now ≤ draft_len_of draft.old }
        ensures ok { OnOk result (Written pos bytes.now (draft_bytes_of draft.old) (draft_bytes_of draft.new)) }
        ensures len { OnOk result (draft_len_of draft.new ≡ draft_len_of draft.old) }
        ensures name { draft_name_of draft.new ≡ draft_name_of draft.old }
        ensures names { names_of self.new ≡ names_of self.old }
        ensures read_calls { reads_of self.new ≡ reads_of self.old }
        ensures write_calls { writes_of self.new ≡ one_more (writes_of self.old) }
        ensures cause { HasCause WriteFault.Failed (P.faults (schedule_of self.old)) (P.faults (schedule_of self.new))
            result }
        ensures planned { IsErrOf result WriteFault.Failed ↔ P.plans (schedule_of self.old) method.WriteAt }
        ensures count { CountsWhere (P.plans (schedule_of self.old) method.WriteAt) (P.faults (schedule_of self.old))
            (P.faults (schedule_of self.new)) }
        ensures drafts { drafts_of self.new ≡ drafts_of self.old }
        ensures order { came_of self.new ≡ came_of self.old }
    {
        self.writes = self.writes.saturating_add(1);
        if self.schedule.fails(Method::WriteAt) {
            return Err(WriteFault::Failed);
        }
        let from = pos as usize;
        draft.bytes[from..from + bytes.len()].copy_from_slice(bytes);
        Ok(())
    }

    fn append(&mut self, draft: &mut MemDraft, bytes: &[u8]) -> Result<(), WriteFault>
        ensures ok { OnOk result (Appended bytes.now (draft_bytes_of draft.old) (draft_bytes_of draft.new)) }
        ensures len { OnOk result (draft_len_of draft.new ≡ draft_len_of draft.old + length bytes.now) }
        ensures name { draft_name_of draft.new ≡ draft_name_of draft.old }
        ensures names { names_of self.new ≡ names_of self.old }
        ensures read_calls { reads_of self.new ≡ reads_of self.old }
        ensures write_calls { writes_of self.new ≡ writes_of self.old }
        ensures cause { HasCause WriteFault.Failed (P.faults (schedule_of self.old)) (P.faults (schedule_of self.new))
            result }
        ensures planned { IsErrOf result WriteFault.Failed ↔ P.plans (schedule_of self.old) method.Append }
        ensures count { CountsWhere (P.plans (schedule_of self.old) method.Append) (P.faults (schedule_of self.old))
            (P.faults (schedule_of self.new)) }
        ensures drafts { drafts_of self.new ≡ drafts_of self.old }
        ensures order { came_of self.new ≡ came_of self.old }
    {
        if self.schedule.fails(Method::Append) {
            return Err(WriteFault::Failed);
        }
        draft.bytes.extend_from_slice(bytes)?;
        Ok(())
    }

    fn draft_read(&mut self, draft: &mut MemDraft, pos: u64, out: &mut [u8]) -> Result<(), Failed>
        requires { pos + length out.old ≤ draft_len_of draft.old }
        ensures ok { OnOk result (ReadsBytes (draft_bytes_of draft.old) pos (length out.old) out.new) }
        ensures bytes { draft_bytes_of draft.new ≡ draft_bytes_of draft.old }
        ensures len { draft_len_of draft.new ≡ draft_len_of draft.old }
        ensures name { draft_name_of draft.new ≡ draft_name_of draft.old }
        ensures names { names_of self.new ≡ names_of self.old }
        ensures read_calls { reads_of self.new ≡ reads_of self.old }
        ensures write_calls { writes_of self.new ≡ writes_of self.old }
        ensures cause { FailsWith (P.faults (schedule_of self.old)) (P.faults (schedule_of self.new)) result }
        ensures planned { IsErr result ↔ P.plans (schedule_of self.old) method.DraftRead }
        ensures count { CountsWhere (P.plans (schedule_of self.old) method.DraftRead) (P.faults (schedule_of self.old))
            (P.faults (schedule_of self.new)) }
        ensures drafts { drafts_of self.new ≡ drafts_of self.old }
        ensures order { came_of self.new ≡ came_of self.old }
    {
        if self.schedule.fails(Method::DraftRead) {
            return Err(Failed);
        }
        let from = pos as usize;
        let bytes = &draft.bytes[from..from + out.len()];
        out.copy_from_slice(bytes);
        Ok(())
    }

    #[tactic(auto, using(crate::proofs::Puts::puts))]
    fn publish(&mut self, draft: MemDraft) -> Result<(), WriteFault>
        ensures ok { OnOk result (Published (draft_name_of draft) (draft_bytes_of draft) (names_of self.old)
            (names_of self.new)) }
        ensures others { OnOk result (ChangesOnly (draft_name_of draft) (names_of self.old) (names_of self.new)) }
        ensures err { OnErr result (names_of self.new ≡ names_of self.old) }
        ensures read_calls { reads_of self.new ≡ reads_of self.old }
        ensures write_calls { writes_of self.new ≡ writes_of self.old }
        ensures cause { HasCause WriteFault.Failed (P.faults (schedule_of self.old)) (P.faults (schedule_of self.new))
            result }
        ensures planned { IsErrOf result WriteFault.Failed ↔ P.plans (schedule_of self.old) method.Publish }
        ensures count { CountsWhere (P.plans (schedule_of self.old) method.Publish) (P.faults (schedule_of self.old))
            (P.faults (schedule_of self.new)) }
        ensures drafts { drafts_of self.new ≡ drafts_of self.old - 1 }
        ensures came { OnOk result (came_of self.new ≡ with_name (came_of self.old) (draft_name_of draft)) }
        ensures stays { OnErr result (came_of self.new ≡ came_of self.old) }
    {
        self.drafts = self.drafts.saturating_sub(1);
        if self.schedule.fails(Method::Publish) {
            return Err(WriteFault::Failed);
        }
        let MemDraft { name, bytes } = draft;
        self.files.push(Stored { name, bytes })?;
        Ok(())
    }

    fn discard(&mut self, draft: MemDraft)
        ensures names { names_of self.new ≡ names_of self.old }
        ensures read_calls { reads_of self.new ≡ reads_of self.old }
        ensures write_calls { writes_of self.new ≡ writes_of self.old }
        ensures faults { P.faults (schedule_of self.new) ≡ P.faults (schedule_of self.old) }
        ensures schedule { schedule_of self.new ≡ schedule_of self.old }
        ensures drafts { drafts_of self.new ≡ drafts_of self.old - 1 }
        ensures order { came_of self.new ≡ came_of self.old }
    {
        let _ = draft;
        self.drafts = self.drafts.saturating_sub(1);
    }

    fn fork(&self) -> Result<Self, AllocError>
        ensures view { IfOk result (λ view. IsView (names_of self.now) (names_of view) (P.faults (schedule_of view))
            (reads_of view) (writes_of view)) }
        ensures schedule { IfOk result (λ view. P.forked (schedule_of self.now) (schedule_of view)) }
        ensures drafts { IfOk result (λ view. drafts_of view ≡ 0) }
        ensures order { IfOk result (λ view. came_of view ≡ came_of self.now) }
    {
        Ok(MemoryFolder {
            alloc: self.alloc,
            files: copy_files(self.alloc, &self.files)?,
            schedule: self.schedule.fork(self.alloc)?,
            reads: 0,
            writes: 0,
            drafts: 0,
        })
    }

    fn absorb(&mut self, view: Self)
        ensures names { names_of self.new ≡ names_of self.old }
        ensures read_calls { reads_of self.new ≡ added (reads_of self.old) (reads_of view) }
        ensures write_calls { writes_of self.new ≡ added (writes_of self.old) (writes_of view) }
        ensures faults { Absorbed (P.faults (schedule_of self.old)) (P.faults (schedule_of view))
            (P.faults (schedule_of self.new)) }
        ensures counted { P.faults (schedule_of self.new) ≡ added (P.faults (schedule_of self.old))
            (P.faults (schedule_of view)) }
        ensures schedule { P.moved (schedule_of self.old) (schedule_of view) (schedule_of self.new) }
        ensures drafts { drafts_of self.new ≡ drafts_more (drafts_of self.old) (drafts_of view) }
        ensures order { came_of self.new ≡ came_of self.old }
    {
        let MemoryFolder {
            alloc: _,
            files: _,
            schedule,
            reads,
            writes,
            drafts,
        } = view;
        self.schedule.absorb(schedule);
        self.reads = self.reads.saturating_add(reads);
        self.writes = self.writes.saturating_add(writes);
        self.drafts = self.drafts.saturating_add(drafts);
    }
}
