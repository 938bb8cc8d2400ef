// Whole reads and writes of open files, and what stands under a path of the system.
ghost use Rattle.std.specs.Prelude.{◌≡◌, string_bytes, IfOk, IfSome};
ghost use Rattle.outside.specs.Temporary.{temporary_of};

use crate::name::folder_of;
use std::alloc::{AllocError, Global};
use std::fs::{self, File, OpenFile};
use std::io::{self, ErrorKind};
use std::os::unix::fs::FileExt;
use std::rt::Files;

/// Fills `out` with a file's bytes from a place on, over short reads. An interrupted read is tried again. False where
/// a read failed, or the file ended before.
pub fn fill_at<T: FileExt>(file: &T, pos: u64, out: &mut [u8]) -> bool {
    let mut filled = 0;
    for _ in 0..u64::MAX {
        if filled >= out.len() {
            return true;
        }
        let Some(at) = pos.checked_add(filled as u64) else {
            return false;
        };
        match file.read_at(&mut out[filled..], at) {
            Ok(0) => return false,
            Ok(count) => filled += count,
            Err(e) if e.kind() == ErrorKind::Interrupted => {}
            Err(_) => return false,
        }
    }
    false
}

/// Writes these bytes from a place on, over short writes. An interrupted write is tried again. False where a write
/// failed or wrote nothing.
pub fn put_at<T: FileExt>(file: &T, pos: u64, bytes: &[u8]) -> bool {
    let mut written = 0;
    for _ in 0..u64::MAX {
        if written >= bytes.len() {
            return true;
        }
        let Some(at) = pos.checked_add(written as u64) else {
            return false;
        };
        match file.write_at(&bytes[written..], at) {
            Ok(0) => return false,
            Ok(count) => written += count,
            Err(e) if e.kind() == ErrorKind::Interrupted => {}
            Err(_) => return false,
        }
    }
    false
}

/// Opens a regular file, and gives its length. What is no regular file, as a folder, a pipe or a device, is refused
/// before it is opened, so that nothing waits on it.
pub(crate) fn open_regular<R: Files<File = File>>(rt: &R, path: &str) -> io::Result<(File, u64)> {
    if !fs::metadata(rt, path)?.is_file() {
        return Err(io::Error::from(ErrorKind::InvalidInput));
    }
    let file = fs::open(rt, path)?;
    let opened = file.metadata()?;
    if !opened.is_file() {
        return Err(io::Error::from(ErrorKind::InvalidInput));
    }
    Ok((file, opened.len()))
}

/// Whether an error says that no file has the path.
pub(crate) fn is_absent(error: &io::Error) -> bool {
    matches!(error.kind(), ErrorKind::NotFound | ErrorKind::NotADirectory)
}

/// Whether a file may be put under this path: nothing stands there yet, or a regular file.
pub(crate) fn may_replace<R: Files<File = File>>(rt: &R, path: &str) -> bool {
    match fs::metadata(rt, path) {
        Ok(there) => there.is_file(),
        Err(e) => e.kind() == ErrorKind::NotFound,
    }
}

/// A new file under a name that no other run takes, with the number in it.
#[derive(Drop)]
pub(crate) struct Temporary {
    pub(crate) file: File,
    pub(crate) path: String,
    pub(crate) number: u64,
}

// A name in the folder of another, with the process's number in it.
fn temporary_path(
    alloc: Global,
    name: &str,
    process: u32,
    number: u64,
) -> Result<String, AllocError>
    ensures { IfOk result (λ path. string_bytes path ≡ temporary_of name.now process number) }
{
    match folder_of(name) {
        Some(folder) => format!(in alloc; "{folder}/.jirovamby.{process}.{number}.tmp"),
        None => format!(in alloc; ".jirovamby.{process}.{number}.tmp"),
    }
}

/// Makes a file that wasn't there before in the folder of a name, for reading and writing. Its number is the first one
/// behind `last` that is free. None where the system refuses.
pub(crate) fn make_temporary<R: Files<File = File>>(
    rt: &R,
    alloc: Global,
    name: &str,
    process: u32,
    last: u64,
) -> Result<Option<Temporary>, AllocError>
    ensures { IfOk result (λ found. IfSome found
        (λ made. string_bytes made.path ≡ temporary_of name.now process made.number)) }
{
    let mut number = last;
    for _ in 0..u64::MAX {
        number = number.wrapping_add(1);
        let path = temporary_path(alloc, name, process, number)?;
        match File::create_new(rt, path.as_str()) {
            Ok(file) => return Ok(Some(Temporary { file, path, number })),
            Err(e) if e.kind() == ErrorKind::AlreadyExists => {}
            Err(_) => return Ok(None),
        }
    }
    Ok(None)
}
