// The folder of the system. It tells nothing of what it holds.
ghost use Rattle.std.specs.Prelude.{None, ◌≡◌, ◌≤◌, ◌+◌, length, IfOk, OnOk, OnErr, IsErr, IsErrOf};
ghost use Rattle.outside.specs.Causes.{Rose, HasCause, FailsWith, CountsWhere, one_more};
ghost use Rattle.outside.specs.Disks.{faults_of, reads_of, writes_of, file_len_of, draft_name_of, draft_len_of};
ghost use Rattle.outside.specs.Outside.{Opened, IsLong, NotThere, ReadsBytes, Created, Grown, Written, Appended};
ghost use Rattle.outside.specs.Outside.{Published, ChangesOnly};

use crate::system::{fill_at, is_absent, make_temporary, may_replace, open_regular, put_at};
use crate::{Failed, Folder, Name, OpenFault, WriteFault};
use std::alloc::{AllocError, Global};
use std::fs::{self, File, OpenFile};
use std::io::ErrorKind;
use std::rt::Files;

/// An open file of the system, with the length that it had when it was opened.
#[derive(Drop)]
pub struct DiskFile {
    file: File,
    len: u64,
}

/// A file under a temporary name in the folder of the name that it is for.
#[derive(Drop)]
pub struct DiskDraft {
    file: File,
    name: Name,
    temporary: String,
    len: u64,
}

/// The files of the system. What is no regular file is a failed call.
///
/// A draft is a file `.jirovamby.PROCESS.NUMBER.tmp` in the folder of its name, made only where there was none, so that
/// two runs never share one. It is renamed by `publish`, and removed by `discard` and by a refused `publish`.
#[derive(Drop)]
pub struct DiskFolder<R> {
    rt: R,
    alloc: Global,
    process: u32,
    drafts: u64,
    faults: u64,
    reads: u64,
    writes: u64,
}

impl<R: Files<File = File> + Clone + Drop + Send> DiskFolder<R> {
    /// The system's files, for the process of this number, which `std::process::id` gives.
    pub fn new(rt: R, process: u32, alloc: Global) -> Self
        ensures faults { ⟦<DiskFolder<R> as Folder>⟧.faults result ≡ 0 }
        ensures read_calls { ⟦<DiskFolder<R> as Folder>⟧.read_calls result ≡ 0 }
        ensures write_calls { ⟦<DiskFolder<R> as Folder>⟧.write_calls result ≡ 0 }
    {
        DiskFolder {
            rt,
            alloc,
            process,
            drafts: 0,
            faults: 0,
            reads: 0,
            writes: 0,
        }
    }
}

impl<R> DiskFolder<R> {
    fn add_fault(&mut self)
        ensures one { self.new.faults ≡ one_more self.old.faults }
        ensures later { self.old.faults ≤ self.new.faults }
        ensures risen { Rose self.old.faults self.new.faults }
        ensures reads { self.new.reads ≡ self.old.reads }
        ensures writes { self.new.writes ≡ self.old.writes }
    {
        self.faults = self.faults.saturating_add(1);
    }
}

impl<R: Files<File = File> + Clone + Drop + Send> Folder for DiskFolder<R> {
    type File = DiskFile;

    type Draft = DiskDraft;

    ghost names = { λ s. None };

    ghost faults = { λ s. s.faults };

    ghost read_calls = { λ s. s.reads };

    ghost write_calls = { λ s. s.writes };

    ghost file_bytes = { λ f. None };

    ghost file_len = { λ f. f.len };

    ghost draft_name = { λ d. d.name };

    ghost draft_bytes = { λ d. None };

    ghost draft_len = { λ d. d.len };

    fn open(&mut self, name: &Name) -> Result<DiskFile, OpenFault>
        ensures ok { IfOk result (λ _. Opened (⟦<DiskFolder<R> as Folder>⟧.names self.old) name.now None) }
        ensures len { IfOk result (λ file. IsLong None (file_len_of file)) }
        ensures absent { NotThere (⟦<DiskFolder<R> as Folder>⟧.names self.old) name.now result }
        ensures names { ⟦<DiskFolder<R> as Folder>⟧.names self.new ≡ ⟦<DiskFolder<R> as Folder>⟧.names self.old }
        ensures read_calls { reads_of self.new ≡ reads_of self.old }
        ensures write_calls { writes_of self.new ≡ writes_of self.old }
        ensures cause { HasCause OpenFault.Failed (faults_of self.old) (faults_of self.new) result }
        ensures count { CountsWhere (IsErrOf result OpenFault.Failed) (faults_of self.old) (faults_of self.new) }
    {
        match open_regular(&self.rt, name.as_str()) {
            Ok((file, len)) => Ok(DiskFile { file, len }),
            Err(e) if is_absent(&e) => Err(OpenFault::Absent),
            Err(e) if e.kind() == ErrorKind::OutOfMemory => Err(OpenFault::Memory),
            Err(_) => {
                self.add_fault();
                Err(OpenFault::Failed)
            }
        }
    }

    fn len(&self, file: &DiskFile) -> u64 {
        file.len
    }

    fn read_at(&mut self, file: &mut DiskFile, pos: u64, out: &mut [u8]) -> Result<(), Failed>
        requires { pos + length out.old ≤ file_len_of file.old }
        ensures ok { OnOk result (ReadsBytes None pos (length out.old) out.new) }
        ensures bytes { ⟦<DiskFolder<R> as Folder>⟧.file_bytes file.new ≡ ⟦<DiskFolder<R> as Folder>⟧.file_bytes
            file.old }
        ensures len { file_len_of file.new ≡ file_len_of file.old }
        ensures names { ⟦<DiskFolder<R> as Folder>⟧.names self.new ≡ ⟦<DiskFolder<R> as Folder>⟧.names self.old }
        ensures read_calls { reads_of self.new ≡ one_more (reads_of self.old) }
        ensures write_calls { writes_of self.new ≡ writes_of self.old }
        ensures cause { FailsWith (faults_of self.old) (faults_of self.new) result }
        ensures count { CountsWhere (IsErr result) (faults_of self.old) (faults_of self.new) }
    {
        self.reads = self.reads.saturating_add(1);
        if fill_at(&file.file, pos, out) {
            Ok(())
        } else {
            self.add_fault();
            Err(Failed)
        }
    }

    fn create(&mut self, name: &Name) -> Result<DiskDraft, WriteFault>
        ensures ok { IfOk result (λ draft. Created (⟦<DiskFolder<R> as Folder>⟧.names self.old) name.now
            (draft_name_of draft) None (draft_len_of draft)) }
        ensures names { ⟦<DiskFolder<R> as Folder>⟧.names self.new ≡ ⟦<DiskFolder<R> as Folder>⟧.names self.old }
        ensures read_calls { reads_of self.new ≡ reads_of self.old }
        ensures write_calls { writes_of self.new ≡ writes_of self.old }
        ensures cause { HasCause WriteFault.Failed (faults_of self.old) (faults_of self.new) result }
        ensures count { CountsWhere (IsErrOf result WriteFault.Failed) (faults_of self.old) (faults_of self.new) }
    {
        let path = name.as_str();
        let kept = name.try_clone()?;
        if !may_replace(&self.rt, path) {
            self.add_fault();
            return Err(WriteFault::Failed);
        }
        match make_temporary(&self.rt, self.alloc, path, self.process, self.drafts)? {
            Some(made) => {
                self.drafts = made.number;
                Ok(DiskDraft {
                    file: made.file,
                    name: kept,
                    temporary: made.path,
                    len: 0,
                })
            }
            None => {
                self.add_fault();
                Err(WriteFault::Failed)
            }
        }
    }

    fn grow(&mut self, draft: &mut DiskDraft, len: u64) -> Result<(), WriteFault>
        requires { draft_len_of draft.old ≤ len }
        ensures ok { OnOk result (Grown len None None) }
        ensures len { OnOk result (draft_len_of draft.new ≡ len) }
        ensures name { draft_name_of draft.new ≡ draft_name_of draft.old }
        ensures names { ⟦<DiskFolder<R> as Folder>⟧.names self.new ≡ ⟦<DiskFolder<R> as Folder>⟧.names self.old }
        ensures read_calls { reads_of self.new ≡ reads_of self.old }
        ensures write_calls { writes_of self.new ≡ writes_of self.old }
        ensures cause { HasCause WriteFault.Failed (faults_of self.old) (faults_of self.new) result }
        ensures count { CountsWhere (IsErrOf result WriteFault.Failed) (faults_of self.old) (faults_of self.new) }
    {
        match draft.file.set_len(len) {
            Ok(()) => {
                draft.len = len;
                Ok(())
            }
            Err(_) => {
                self.add_fault();
                Err(WriteFault::Failed)
            }
        }
    }

    fn write_at(&mut self, draft: &mut DiskDraft, pos: u64, bytes: &[u8]) -> Result<(), WriteFault>
        requires { pos + length bytes.now ≤ draft_len_of draft.old }
        ensures ok { OnOk result (Written pos bytes.now None None) }
        ensures len { OnOk result (draft_len_of draft.new ≡ draft_len_of draft.old) }
        ensures name { draft_name_of draft.new ≡ draft_name_of draft.old }
        ensures names { ⟦<DiskFolder<R> as Folder>⟧.names self.new ≡ ⟦<DiskFolder<R> as Folder>⟧.names self.old }
        ensures read_calls { reads_of self.new ≡ reads_of self.old }
        ensures write_calls { writes_of self.new ≡ one_more (writes_of self.old) }
        ensures cause { HasCause WriteFault.Failed (faults_of self.old) (faults_of self.new) result }
        ensures count { CountsWhere (IsErrOf result WriteFault.Failed) (faults_of self.old) (faults_of self.new) }
    {
        self.writes = self.writes.saturating_add(1);
        if put_at(&draft.file, pos, bytes) {
            Ok(())
        } else {
            self.add_fault();
            Err(WriteFault::Failed)
        }
    }

    fn append(&mut self, draft: &mut DiskDraft, bytes: &[u8]) -> Result<(), WriteFault>
        ensures ok { OnOk result (Appended bytes.now None None) }
        ensures len { OnOk result (draft_len_of draft.new ≡ draft_len_of draft.old + length bytes.now) }
        ensures name { draft_name_of draft.new ≡ draft_name_of draft.old }
        ensures names { ⟦<DiskFolder<R> as Folder>⟧.names self.new ≡ ⟦<DiskFolder<R> as Folder>⟧.names self.old }
        ensures read_calls { reads_of self.new ≡ reads_of self.old }
        ensures write_calls { writes_of self.new ≡ writes_of self.old }
        ensures cause { HasCause WriteFault.Failed (faults_of self.old) (faults_of self.new) result }
        ensures count { CountsWhere (IsErrOf result WriteFault.Failed) (faults_of self.old) (faults_of self.new) }
    {
        match draft.len.checked_add(bytes.len() as u64) {
            Some(end) if put_at(&draft.file, draft.len, bytes) => {
                draft.len = end;
                Ok(())
            }
            _ => {
                self.add_fault();
                Err(WriteFault::Failed)
            }
        }
    }

    fn draft_read(&mut self, draft: &mut DiskDraft, pos: u64, out: &mut [u8]) -> Result<(), Failed>
        requires { pos + length out.old ≤ draft_len_of draft.old }
        ensures ok { OnOk result (ReadsBytes None pos (length out.old) out.new) }
        ensures bytes { ⟦<DiskFolder<R> as Folder>⟧.draft_bytes draft.new ≡ ⟦<DiskFolder<R> as Folder>⟧.draft_bytes
            draft.old }
        ensures len { draft_len_of draft.new ≡ draft_len_of draft.old }
        ensures name { draft_name_of draft.new ≡ draft_name_of draft.old }
        ensures names { ⟦<DiskFolder<R> as Folder>⟧.names self.new ≡ ⟦<DiskFolder<R> as Folder>⟧.names self.old }
        ensures read_calls { reads_of self.new ≡ reads_of self.old }
        ensures write_calls { writes_of self.new ≡ writes_of self.old }
        ensures cause { FailsWith (faults_of self.old) (faults_of self.new) result }
        ensures count { CountsWhere (IsErr result) (faults_of self.old) (faults_of self.new) }
    {
        if fill_at(&draft.file, pos, out) {
            Ok(())
        } else {
            self.add_fault();
            Err(Failed)
        }
    }

    fn publish(&mut self, draft: DiskDraft) -> Result<(), WriteFault>
        ensures ok { OnOk result (Published (draft_name_of draft) None (⟦<DiskFolder<R> as Folder>⟧.names self.old)
            (⟦<DiskFolder<R> as Folder>⟧.names self.new)) }
        ensures others { OnOk result (ChangesOnly (draft_name_of draft) (⟦<DiskFolder<R> as Folder>⟧.names self.old)
            (⟦<DiskFolder<R> as Folder>⟧.names self.new)) }
        ensures err { OnErr result (⟦<DiskFolder<R> as Folder>⟧.names self.new ≡ ⟦<DiskFolder<R> as Folder>⟧.names
            self.old) }
        ensures read_calls { reads_of self.new ≡ reads_of self.old }
        ensures write_calls { writes_of self.new ≡ writes_of self.old }
        ensures cause { HasCause WriteFault.Failed (faults_of self.old) (faults_of self.new) result }
        ensures count { CountsWhere (IsErrOf result WriteFault.Failed) (faults_of self.old) (faults_of self.new) }
    {
        let from = draft.temporary.as_str();
        let to = draft.name.as_str();
        if may_replace(&self.rt, to) && fs::rename(&self.rt, from, to).is_ok() {
            return Ok(());
        }
        let _ = fs::remove_file(&self.rt, from);
        self.add_fault();
        Err(WriteFault::Failed)
    }

    fn discard(&mut self, draft: DiskDraft) {
        let _ = fs::remove_file(&self.rt, draft.temporary.as_str());
    }

    fn fork(&self) -> Result<Self, AllocError> {
        Ok(DiskFolder {
            rt: self.rt.clone()?,
            alloc: self.alloc,
            process: self.process,
            drafts: self.drafts,
            faults: 0,
            reads: 0,
            writes: 0,
        })
    }

    fn absorb(&mut self, view: Self) {
        self.reads = self.reads.saturating_add(view.reads);
        self.writes = self.writes.saturating_add(view.writes);
        self.faults = self.faults.saturating_add(view.faults);
    }
}
