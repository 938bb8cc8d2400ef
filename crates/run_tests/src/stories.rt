// Runs over one folder, one after the other, and the files that stand there then.
use crate::trials::{FileOf, Row, folder_of, says_in};
use outside::{Folder, MemFolder, Name};
use std::alloc::Global;
use std::process::Abort;
use std::thread::Threads;

/// Runs in their order, and the files that they make.
pub type Story<'a> = (&'a [Row<'a>], &'a [FileOf<'a>]);

/// Whether a folder has this file.
pub fn has<R: Abort>(rt: &R, alloc: Global, folder: &MemFolder, file: FileOf<'_>) -> bool {
    let (name, bytes) = file;
    let name = Name::read(alloc, name).expect(rt, "a name");
    folder.bytes(&name) == Some(bytes)
}

/// Whether a folder has all these files.
pub fn has_all<R: Abort>(rt: &R, alloc: Global, folder: &MemFolder, files: &[FileOf<'_>]) -> bool {
    for file in files {
        if !has(rt, alloc, folder, *file) {
            return false;
        }
    }
    true
}

/// Whether a folder has so many files, and no draft is open.
pub fn has_count<R: Abort>(rt: &R, folder: &MemFolder, count: usize) -> bool {
    let names = folder.names().expect(rt, "memory");
    names.as_slice().len() == count && folder.drafts() == 0
}

/// Whether a folder has these files and those, whose names are others, and nothing else, and no draft is open.
pub fn has_only<R: Abort>(
    rt: &R,
    alloc: Global,
    folder: &MemFolder,
    files: &[FileOf<'_>],
    made: &[FileOf<'_>],
) -> bool {
    has_count(rt, folder, files.len().saturating_add(made.len()))
        && has_all(rt, alloc, folder, files)
        && has_all(rt, alloc, folder, made)
}

/// Whether these runs over a folder say what is listed, one after the other.
pub fn says_all<R: Threads + Sync + Abort, F: Folder>(
    rt: &R,
    alloc: Global,
    folder: &mut F,
    rows: &[Row<'_>],
) -> bool {
    for row in rows {
        if !says_in(rt, alloc, folder, row) {
            return false;
        }
    }
    true
}

// Whether the runs say what is listed over these files, and leave them and those that they make.
fn goes<R: Threads + Sync + Abort>(
    rt: &R,
    alloc: Global,
    files: &[FileOf<'_>],
    rows: &[Row<'_>],
    made: &[FileOf<'_>],
) -> bool {
    let mut folder = folder_of(rt, alloc, files, &[]);
    says_all(rt, alloc, &mut folder, rows) && has_only(rt, alloc, &folder, files, made)
}

// The same of a story.
fn is_told<R: Threads + Sync + Abort>(
    rt: &R,
    alloc: Global,
    files: &[FileOf<'_>],
    story: &Story<'_>,
) -> bool {
    let (rows, made) = *story;
    goes(rt, alloc, files, rows, made)
}

/// The first of these stories over these files that goes otherwise.
pub fn first_astray<R: Threads + Sync + Abort>(
    rt: &R,
    alloc: Global,
    files: &[FileOf<'_>],
    stories: &[Story<'_>],
) -> Option<usize> {
    for (at, story) in stories.iter().enumerate() {
        if !is_told(rt, alloc, files, story) {
            return Some(at);
        }
    }
    None
}

/// The first of these runs, each over these files alone, that says something else than is listed, or makes anything but
/// these files.
pub fn first_unlike<R: Threads + Sync + Abort>(
    rt: &R,
    alloc: Global,
    files: &[FileOf<'_>],
    rows: &[Row<'_>],
    made: &[FileOf<'_>],
) -> Option<usize> {
    for (at, row) in rows.iter().enumerate() {
        if !goes(rt, alloc, files, &[*row], made) {
            return Some(at);
        }
    }
    None
}

/// The first of these runs over these files that says something else than is listed or changes a file.
pub fn first_unrefused<R: Threads + Sync + Abort>(
    rt: &R,
    alloc: Global,
    files: &[FileOf<'_>],
    rows: &[Row<'_>],
) -> Option<usize> {
    first_unlike(rt, alloc, files, rows, &[])
}
