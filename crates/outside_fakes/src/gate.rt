// A folder whose views wait for one another: for tests that tell lanes beside each other from lanes in turn.
ghost use Rattle.std.specs.Prelude.{◌≡◌, ◌+◌, ◌≤◌, length, IfOk, OnOk, OnErr};
ghost use Rattle.outside.specs.Causes.{HasCause, FailsWith, Absorbed, one_more, added};
ghost use Rattle.outside.specs.Outside.{Opened, IsLong, NotThere, ReadsBytes, Created, Grown, Written, Appended};
ghost use Rattle.outside.specs.Outside.{Published};
ghost use Rattle.outside.specs.Outside.{ChangesOnly, IsView};
ghost use Rattle.outside_fakes.specs.Gates.{faults_of};

use outside::{Failed, Folder, Name, OpenFault, WriteFault};
use std::alloc::{AllocError, Global};
use std::sync::Arc;
use std::sync::atomic::{AtomicU64, Ordering};

// How often a view looks whether the other one has begun.
const TURNS: u32 = 200_000_000;

/// A folder around another. The first `read_at` of each view waits until the other view of its pair, by the order in
/// which views begin to read, has begun one too. It looks 200,000,000 times at most, and then that `read_at` fails.
#[derive(Drop)]
pub struct Gate<F> {
    inner: F,
    // how many views have begun a first `read_at`
    begun: Arc<AtomicU64, Global>,
    is_view: bool,
    has_read: bool,
    // how many calls failed at the gate
    failed: u64,
}

// Begins a first `read_at`, and says whether the other view of the pair has begun one too.
fn meets_other(begun: &AtomicU64) -> bool {
    let before = begun.fetch_add(1, Ordering::SeqCst);
    if before % 2 == 1 {
        return true;
    }
    let alone = before.saturating_add(1);
    for _ in 0..TURNS {
        if begun.load(Ordering::SeqCst) > alone {
            return true;
        }
    }
    false
}

impl<F: Folder + Drop> Gate<F> {
    /// A gate around this folder, through which no view has gone. It is refused where memory is.
    pub fn new(alloc: Global, inner: F) -> Result<Self, AllocError>
        ensures names { IfOk result (λ gate. ⟦<Gate<F> as Folder>⟧.names gate ≡ F.names inner) }
        ensures faults { IfOk result (λ gate. ⟦<Gate<F> as Folder>⟧.faults gate ≡ F.faults inner) }
        ensures reads { IfOk result (λ gate. ⟦<Gate<F> as Folder>⟧.read_calls gate ≡ F.read_calls inner) }
        ensures writes { IfOk result (λ gate. ⟦<Gate<F> as Folder>⟧.write_calls gate ≡ F.write_calls inner) }
    {
        let begun = Arc::new(alloc, AtomicU64::new(0))?;
        Ok(Gate {
            inner,
            begun,
            is_view: false,
            has_read: false,
            failed: 0,
        })
    }
}

impl<F: Folder> Gate<F> {
    /// Gives the folder back.
    pub fn into_inner(self) -> F
        ensures names { F.names result ≡ ⟦<Gate<F> as Folder>⟧.names self }
    {
        let Gate {
            inner,
            begun: _,
            is_view: _,
            has_read: _,
            failed: _,
        } = self;
        inner
    }
}

impl<F: Folder> Folder for Gate<F> {
    type File = F::File;

    type Draft = F::Draft;

    ghost names = { λ s. F.names s.inner };

    ghost faults = { λ s. faults_of F.faults s };

    ghost read_calls = { λ s. F.read_calls s.inner };

    ghost write_calls = { λ s. F.write_calls s.inner };

    ghost file_bytes = { λ f. F.file_bytes f };

    ghost file_len = { λ f. F.file_len f };

    ghost draft_name = { λ d. F.draft_name d };

    ghost draft_bytes = { λ d. F.draft_bytes d };

    ghost draft_len = { λ d. F.draft_len d };

    fn open(&mut self, name: &Name) -> Result<F::File, OpenFault>
        ensures ok { IfOk result (λ file. Opened (F.names self.old.inner) name.now (F.file_bytes file)) }
        ensures len { IfOk result (λ file. IsLong (F.file_bytes file) (F.file_len file)) }
        ensures absent { NotThere (F.names self.old.inner) name.now result }
        ensures names { F.names self.new.inner ≡ F.names self.old.inner }
        ensures read_calls { F.read_calls self.new.inner ≡ F.read_calls self.old.inner }
        ensures write_calls { F.write_calls self.new.inner ≡ F.write_calls self.old.inner }
        ensures cause { HasCause OpenFault.Failed (faults_of F.faults self.old) (faults_of F.faults self.new) result }
    {
        self.inner.open(name)
    }

    fn len(&self, file: &F::File) -> u64 {
        self.inner.len(file)
    }

    fn read_at(&mut self, file: &mut F::File, pos: u64, out: &mut [u8]) -> Result<(), Failed>
        requires { pos + length out.old ≤ F.file_len file.old }
        ensures ok { OnOk result (ReadsBytes (F.file_bytes file.old) pos (length out.old) out.new) }
        ensures bytes { F.file_bytes file.new ≡ F.file_bytes file.old }
        ensures len { F.file_len file.new ≡ F.file_len file.old }
        ensures names { F.names self.new.inner ≡ F.names self.old.inner }
        ensures read_calls { F.read_calls self.new.inner ≡ one_more (F.read_calls self.old.inner) }
        ensures write_calls { F.write_calls self.new.inner ≡ F.write_calls self.old.inner }
        ensures cause { FailsWith (faults_of F.faults self.old) (faults_of F.faults self.new) result }
    {
        let first = self.is_view && !self.has_read;
        self.has_read = true;
        let passed = !first || meets_other(&self.begun);
        self.inner.read_at(file, pos, out)?;
        if !passed {
            self.failed = self.failed.saturating_add(1);
            return Err(Failed);
        }
        Ok(())
    }

    fn create(&mut self, name: &Name) -> Result<F::Draft, WriteFault>
        ensures ok { IfOk result (λ draft. Created (F.names self.old.inner) name.now (F.draft_name draft)
            (F.draft_bytes draft) (F.draft_len draft)) }
        ensures names { F.names self.new.inner ≡ F.names self.old.inner }
        ensures read_calls { F.read_calls self.new.inner ≡ F.read_calls self.old.inner }
        ensures write_calls { F.write_calls self.new.inner ≡ F.write_calls self.old.inner }
        ensures cause { HasCause WriteFault.Failed (faults_of F.faults self.old) (faults_of F.faults self.new) result }
    {
        self.inner.create(name)
    }

    fn grow(&mut self, draft: &mut F::Draft, len: u64) -> Result<(), WriteFault>
        requires { F.draft_len draft.old ≤ len }
        ensures ok { OnOk result (Grown len (F.draft_bytes draft.old) (F.draft_bytes draft.new)) }
        ensures len { OnOk result (F.draft_len draft.new ≡ len) }
        ensures name { F.draft_name draft.new ≡ F.draft_name draft.old }
        ensures names { F.names self.new.inner ≡ F.names self.old.inner }
        ensures read_calls { F.read_calls self.new.inner ≡ F.read_calls self.old.inner }
        ensures write_calls { F.write_calls self.new.inner ≡ F.write_calls self.old.inner }
        ensures cause { HasCause WriteFault.Failed (faults_of F.faults self.old) (faults_of F.faults self.new) result }
    {
        self.inner.grow(draft, len)
    }

    fn write_at(&mut self, draft: &mut F::Draft, pos: u64, bytes: &[u8]) -> Result<(), WriteFault>
        requires { pos + length bytes.now ≤ F.draft_len draft.old }
        ensures ok { OnOk result (Written pos bytes.now (F.draft_bytes draft.old) (F.draft_bytes draft.new)) }
        ensures len { OnOk result (F.draft_len draft.new ≡ F.draft_len draft.old) }
        ensures name { F.draft_name draft.new ≡ F.draft_name draft.old }
        ensures names { F.names self.new.inner ≡ F.names self.old.inner }
        ensures read_calls { F.read_calls self.new.inner ≡ F.read_calls self.old.inner }
        ensures write_calls { F.write_calls self.new.inner ≡ one_more (F.write_calls self.old.inner) }
        ensures cause { HasCause WriteFault.Failed (faults_of F.faults self.old) (faults_of F.faults self.new) result }
    {
        self.inner.write_at(draft, pos, bytes)
    }

    fn append(&mut self, draft: &mut F::Draft, bytes: &[u8]) -> Result<(), WriteFault>
        ensures ok { OnOk result (Appended bytes.now (F.draft_bytes draft.old) (F.draft_bytes draft.new)) }
        ensures len { OnOk result (F.draft_len draft.new ≡ F.draft_len draft.old + length bytes.now) }
        ensures name { F.draft_name draft.new ≡ F.draft_name draft.old }
        ensures names { F.names self.new.inner ≡ F.names self.old.inner }
        ensures read_calls { F.read_calls self.new.inner ≡ F.read_calls self.old.inner }
        ensures write_calls { F.write_calls self.new.inner ≡ F.write_calls self.old.inner }
        ensures cause { HasCause WriteFault.Failed (faults_of F.faults self.old) (faults_of F.faults self.new) result }
    {
        self.inner.append(draft, bytes)
    }

    fn draft_read(&mut self, draft: &mut F::Draft, pos: u64, out: &mut [u8]) -> Result<(), Failed>
        requires { pos + length out.old ≤ F.draft_len draft.old }
        ensures ok { OnOk result (ReadsBytes (F.draft_bytes draft.old) pos (length out.old) out.new) }
        ensures bytes { F.draft_bytes draft.new ≡ F.draft_bytes draft.old }
        ensures len { F.draft_len draft.new ≡ F.draft_len draft.old }
        ensures name { F.draft_name draft.new ≡ F.draft_name draft.old }
        ensures names { F.names self.new.inner ≡ F.names self.old.inner }
        ensures read_calls { F.read_calls self.new.inner ≡ F.read_calls self.old.inner }
        ensures write_calls { F.write_calls self.new.inner ≡ F.write_calls self.old.inner }
        ensures cause { FailsWith (faults_of F.faults self.old) (faults_of F.faults self.new) result }
    {
        self.inner.draft_read(draft, pos, out)
    }

    fn publish(&mut self, draft: F::Draft) -> Result<(), WriteFault>
        ensures ok { OnOk result (Published (F.draft_name draft) (F.draft_bytes draft) (F.names self.old.inner)
            (F.names self.new.inner)) }
        ensures others { OnOk result (ChangesOnly (F.draft_name draft) (F.names self.old.inner)
            (F.names self.new.inner)) }
        ensures err { OnErr result (F.names self.new.inner ≡ F.names self.old.inner) }
        ensures read_calls { F.read_calls self.new.inner ≡ F.read_calls self.old.inner }
        ensures write_calls { F.write_calls self.new.inner ≡ F.write_calls self.old.inner }
        ensures cause { HasCause WriteFault.Failed (faults_of F.faults self.old) (faults_of F.faults self.new) result }
    {
        self.inner.publish(draft)
    }

    fn discard(&mut self, draft: F::Draft)
        ensures names { F.names self.new.inner ≡ F.names self.old.inner }
        ensures read_calls { F.read_calls self.new.inner ≡ F.read_calls self.old.inner }
        ensures write_calls { F.write_calls self.new.inner ≡ F.write_calls self.old.inner }
        ensures faults { faults_of F.faults self.new ≡ faults_of F.faults self.old }
    {
        self.inner.discard(draft)
    }

    fn fork(&self) -> Result<Self, AllocError>
        ensures view { IfOk result (λ view. IsView (F.names self.now.inner) (F.names view.inner)
            (faults_of F.faults view) (F.read_calls view.inner) (F.write_calls view.inner)) }
    {
        let begun = Arc::try_clone(&self.begun)?;
        Ok(Gate {
            inner: self.inner.fork()?,
            begun,
            is_view: true,
            has_read: false,
            failed: 0,
        })
    }

    fn absorb(&mut self, view: Self)
        ensures names { F.names self.new.inner ≡ F.names self.old.inner }
        ensures read_calls { F.read_calls self.new.inner ≡ added (F.read_calls self.old.inner)
            (F.read_calls view.inner) }
        ensures write_calls { F.write_calls self.new.inner ≡ added (F.write_calls self.old.inner)
            (F.write_calls view.inner) }
        ensures faults { Absorbed (faults_of F.faults self.old) (faults_of F.faults view)
            (faults_of F.faults self.new) }
        ensures counted { faults_of F.faults self.new ≡ added (faults_of F.faults self.old)
            (faults_of F.faults view) }
    {
        let Gate {
            inner,
            begun: _,
            is_view: _,
            has_read: _,
            failed,
        } = view;
        self.inner.absorb(inner);
        self.failed = self.failed.saturating_add(failed);
    }
}
