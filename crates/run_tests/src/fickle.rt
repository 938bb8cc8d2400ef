// A folder whose one file has a length at its first opening, and another or none later, beside a header that stays. The
// file holds zeros; the folder tells nothing and never fails. Of drafts it keeps how many are open, and of what is
// published how often.
ghost use Rattle.std.specs.Prelude.{None};

use outside::{Failed, Folder, Name, OpenFault, WriteFault};
use std::alloc::AllocError;

/// The lengths of the file when it is opened first and again; none where it is absent. What stands under each name that
/// ends with `.hdr`.
#[derive(Drop)]
pub struct Fickle {
    pub first: Option<u64>,
    pub again: Option<u64>,
    pub header: &'static [u8],
    pub reads: u64,
    pub writes: u64,
    pub drafts: u64,
    pub published: u64,
}

/// The header, or zeros.
#[derive(Drop)]
pub struct Zeros {
    len: u64,
    is_header: bool,
}

/// The name and the length of a draft, whose bytes are kept nowhere.
#[derive(Drop)]
pub struct Blank {
    name: Name,
    len: u64,
}

// A byte of a text behind a place, or 0 where there is none.
fn byte_at(text: &[u8], pos: u64, at: usize) -> u8 {
    match text.get((pos as usize).saturating_add(at)) {
        Some(byte) => *byte,
        None => 0,
    }
}

impl Folder for Fickle {
    type File = Zeros;

    type Draft = Blank;

    ghost names = { λ s. None };

    ghost faults = { λ s. 0 };

    ghost read_calls = { λ s. s.reads };

    ghost write_calls = { λ s. s.writes };

    ghost file_bytes = { λ f. None };

    ghost file_len = { λ f. f.len };

    ghost draft_name = { λ d. d.name };

    ghost draft_bytes = { λ d. None };

    ghost draft_len = { λ d. d.len };

    fn open(&mut self, name: &Name) -> Result<Zeros, OpenFault> {
        if name.as_str().as_bytes().ends_with(b".hdr") {
            return Ok(Zeros {
                len: self.header.len() as u64,
                is_header: true,
            });
        }
        let now = self.first;
        self.first = self.again;
        match now {
            Some(len) => Ok(Zeros {
                len,
                is_header: false,
            }),
            None => Err(OpenFault::Absent),
        }
    }

    fn len(&self, file: &Zeros) -> u64 {
        file.len
    }

    fn read_at(&mut self, file: &mut Zeros, pos: u64, out: &mut [u8]) -> Result<(), Failed> {
        self.reads = self.reads.saturating_add(1);
        let text = if file.is_header { self.header } else { b"" };
        for (at, byte) in out.iter_mut().enumerate() {
            *byte = byte_at(text, pos, at);
        }
        Ok(())
    }

    fn create(&mut self, name: &Name) -> Result<Blank, WriteFault> {
        let name = name.try_clone()?;
        self.drafts = self.drafts.saturating_add(1);
        Ok(Blank { name, len: 0 })
    }

    fn grow(&mut self, draft: &mut Blank, len: u64) -> Result<(), WriteFault> {
        draft.len = len;
        Ok(())
    }

    fn write_at(&mut self, _draft: &mut Blank, _pos: u64, _bytes: &[u8]) -> Result<(), WriteFault> {
        self.writes = self.writes.saturating_add(1);
        Ok(())
    }

    fn append(&mut self, draft: &mut Blank, bytes: &[u8]) -> Result<(), WriteFault> {
        match draft.len.checked_add(bytes.len() as u64) {
            Some(len) => {
                draft.len = len;
                Ok(())
            }
            None => Err(WriteFault::Memory),
        }
    }

    fn draft_read(&mut self, _draft: &mut Blank, _pos: u64, _out: &mut [u8]) -> Result<(), Failed> {
        Ok(())
    }

    fn publish(&mut self, _draft: Blank) -> Result<(), WriteFault> {
        self.drafts = self.drafts.saturating_sub(1);
        self.published = self.published.saturating_add(1);
        Ok(())
    }

    fn discard(&mut self, _draft: Blank) {
        self.drafts = self.drafts.saturating_sub(1);
    }

    fn fork(&self) -> Result<Self, AllocError> {
        Ok(Fickle {
            first: self.first,
            again: self.again,
            header: self.header,
            reads: 0,
            writes: 0,
            drafts: 0,
            published: 0,
        })
    }

    fn absorb(&mut self, view: Self) {
        self.reads = self.reads.saturating_add(view.reads);
        self.writes = self.writes.saturating_add(view.writes);
    }
}
