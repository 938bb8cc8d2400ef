// Runs of a folder's calls, for tests.
ghost use Rattle.std.specs.Prelude.{◌≡◌};

use outside::{Folder, Method, Name, OpenFault};
use std::process::Abort;

// Fills an empty draft with `0 x y 0 z`, by one call of each method. The first call that fails is the answer.
fn fill<F: Folder>(folder: &mut F, draft: &mut F::Draft) -> Result<[u8; 5], Method>
    requires { F.draft_len draft.old ≡ 0 }
{
    let mut read = [0; 5];
    match folder.grow(draft, 4) {
        Err(_) => return Err(Method::Grow),
        Ok(()) => {}
    }
    match folder.write_at(draft, 1, b"xy") {
        Err(_) => return Err(Method::WriteAt),
        Ok(()) => {}
    }
    match folder.append(draft, b"z") {
        Err(_) => return Err(Method::Append),
        Ok(()) => {}
    }
    match folder.draft_read(draft, 0, &mut read) {
        Err(_) => Err(Method::DraftRead),
        Ok(()) => Ok(read),
    }
}

/// Puts `0 x y 0 z` under a name, by one call of each method. The first call that fails is the answer, and else the
/// draft's bytes as they were read before they were published.
pub fn write_file<F: Folder>(folder: &mut F, name: &Name) -> Result<[u8; 5], Method> {
    match folder.create(name) {
        Err(_) => Err(Method::Create),
        Ok(mut draft) => match fill(folder, &mut draft) {
            Err(method) => {
                folder.discard(draft);
                Err(method)
            }
            Ok(bytes) => match folder.publish(draft) {
                Err(_) => Err(Method::Publish),
                Ok(()) => Ok(bytes),
            },
        },
    }
}

/// The second and the third byte of a file, or None where it is shorter; else the first call that fails.
pub fn read_two<F: Folder>(folder: &mut F, name: &Name) -> Result<Option<[u8; 2]>, Method> {
    let mut two = [0; 2];
    match folder.open(name) {
        Err(_) => Err(Method::Open),
        Ok(mut file) => {
            if folder.len(&file) < 3 {
                return Ok(None);
            }
            match folder.read_at(&mut file, 1, &mut two) {
                Err(_) => Err(Method::ReadAt),
                Ok(()) => Ok(Some(two)),
            }
        }
    }
}

/// Whether the second and the third byte of a file are read, and are these.
pub fn has_two<F: Folder>(folder: &mut F, name: &Name, two: [u8; 2]) -> bool {
    read_two(folder, name) == Ok(Some(two))
}

/// Whether `0 x y 0 z` is put under a name, and was read from the draft.
pub fn is_written<F: Folder>(folder: &mut F, name: &Name) -> bool {
    write_file(folder, name) == Ok(*b"\0xy\0z")
}

/// Why a file isn't opened, or None where it is.
pub fn open_fault<F: Folder>(folder: &mut F, name: &Name) -> Option<OpenFault> {
    folder.open(name).err()
}

/// Whether a view of a folder has these two bytes in a file; it ends before the answer.
pub fn view_has_two<R: Abort, F: Folder>(
    rt: &R,
    folder: &mut F,
    name: &Name,
    two: [u8; 2],
) -> bool {
    let mut view = folder.fork().expect(rt, "memory");
    let has = has_two(&mut view, name, two);
    folder.absorb(view);
    has
}
