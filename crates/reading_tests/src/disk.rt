use crate::calls::{has_two, is_written, open_fault, view_has_two, write_file};
use crate::fixtures::name_of;
use outside::{DiskFolder, Folder, Method, Name, OpenFault, WriteFault};
use std::fs;
use std::process::{self, Abort};
use std::test::*;

// The path of a file in a folder.
fn path<R: Abort>(end: &R, rt: &HostRuntime, folder: &str, last: &str) -> String {
    format!(in rt.alloc(); "{folder}/{last}").expect(end, "memory")
}

// The path of a test's folder.
fn folder_path<R: Abort>(end: &R, rt: &HostRuntime, test: &str) -> String {
    let process = process::id(rt.process());
    format!(in rt.alloc(); "/tmp/outside_{test}_{process}").expect(end, "memory")
}

// Makes a file of the system.
fn make_file<R: Abort>(end: &R, rt: &HostRuntime, file: &str, bytes: &[u8]) {
    fs::write(rt, file, bytes).expect(end, "a file");
}

// Makes a new folder.
fn make_folder<R: Abort>(end: &R, rt: &HostRuntime, folder: &str) {
    if fs::exists(rt, folder).expect(end, "a path") {
        fs::remove_dir_all(rt, folder).expect(end, "an old folder");
    }
    fs::create_dir(rt, folder).expect(end, "a folder");
}

// A new folder with the file `a`.
fn fixture<R: Abort>(end: &R, rt: &HostRuntime, test: &str) -> String {
    let folder = folder_path(end, rt, test);
    make_folder(end, rt, folder.as_str());
    let a = path(end, rt, folder.as_str(), "a");
    make_file(end, rt, a.as_str(), b"abc");
    folder
}

// The system's files, for this process.
fn disk<R: Abort>(end: &R, rt: &HostRuntime) -> DiskFolder<HostRuntime> {
    let handle = rt.clone().expect(end, "a runtime");
    DiskFolder::new(handle, process::id(rt.process()), rt.alloc())
}

// Whether a test's folder is removed.
fn is_removed(rt: &HostRuntime, at: &str) -> bool {
    fs::remove_dir_all(rt, at).is_ok()
}

fn name<R: Abort>(end: &R, rt: &HostRuntime, folder: &str, last: &str) -> Name {
    let text = path(end, rt, folder, last);
    name_of(end, rt.alloc(), text.as_str())
}

// Whether so many files stand in a folder.
fn has_files<R: Abort>(end: &R, rt: &HostRuntime, folder: &str, files: u64) -> bool {
    let mut count = 0u64;
    for entry in fs::read_dir(rt, folder).expect(end, "a folder") {
        let _entry = entry.expect(end, "a file");
        count = count.saturating_add(1);
    }
    count == files
}

// Whether a file of the system has these bytes.
fn has_bytes<R: Abort>(end: &R, rt: &HostRuntime, file: &str, bytes: &[u8]) -> bool {
    let found = fs::read(rt, file).expect(end, "a file");
    found.as_slice() == bytes
}

// Whether a folder and a view of it have `bc` in the file `a`.
fn has_a<R: Abort, F: Folder>(end: &R, rt: &HostRuntime, folder: &mut F, at: &str) -> bool {
    let a = name(end, rt, at, "a");
    has_two(folder, &a, *b"bc") && view_has_two(end, folder, &a, *b"bc")
}

// Whether a file in a folder is absent.
fn is_absent<R: Abort, F: Folder>(
    end: &R,
    rt: &HostRuntime,
    folder: &mut F,
    at: &str,
    last: &str,
) -> bool {
    let absent = name(end, rt, at, last);
    open_fault(folder, &absent) == Some(OpenFault::Absent)
}

// Whether a path leads to what is neither opened nor written.
fn is_refused<R: Abort, F: Folder>(end: &R, rt: &HostRuntime, folder: &mut F, other: &str) -> bool {
    let other = name_of(end, rt.alloc(), other);
    open_fault(folder, &other) == Some(OpenFault::Failed)
        && write_file(folder, &other) == Err(Method::Create)
}

// Whether regular files alone are opened.
fn opens_files<R: Abort, F: Folder>(end: &R, rt: &HostRuntime, folder: &mut F, at: &str) -> bool {
    has_a(end, rt, folder, at)
        && is_absent(end, rt, folder, at, "none")
        && is_absent(end, rt, folder, at, "a/b")
        && is_refused(end, rt, folder, at)
        && is_refused(end, rt, folder, "/dev/null")
}

// The same in a folder of its own.
fn opens_files_alone<R: Abort>(end: &R, rt: &HostRuntime) -> bool {
    let at = fixture(end, rt, "opens");
    let mut folder = disk(end, rt);
    opens_files(end, rt, &mut folder, at.as_str()) && is_removed(rt, at.as_str())
}

#[test]
fn regular_files_alone_are_opened(rt: HostRuntime) {
    assert!(rt; opens_files_alone(&rt, &rt));
}

// Whether a draft is one of three files while it stands, and leaves nothing.
fn leaves_nothing<R: Abort, F: Folder>(
    end: &R,
    rt: &HostRuntime,
    folder: &mut F,
    at: &str,
    b: &Name,
) -> bool {
    match folder.create(b) {
        Ok(draft) => {
            let stands = has_files(end, rt, at, 3);
            folder.discard(draft);
            stands && has_files(end, rt, at, 2)
        }
        Err(_) => false,
    }
}

// Whether a file is written, one of three.
fn writes_third<R: Abort, F: Folder>(
    end: &R,
    rt: &HostRuntime,
    folder: &mut F,
    at: &str,
    b: &Name,
) -> bool {
    is_written(folder, b) && has_files(end, rt, at, 3)
}

// Whether drafts leave nothing or are published, twice, beside a file that a process left.
fn publishes<R: Abort, F: Folder>(
    end: &R,
    rt: &HostRuntime,
    folder: &mut F,
    at: &str,
    left: &str,
) -> bool {
    let b = name(end, rt, at, "b");
    leaves_nothing(end, rt, folder, at, &b)
        && writes_third(end, rt, folder, at, &b)
        && writes_third(end, rt, folder, at, &b)
        && has_bytes(end, rt, b.as_str(), b"\0xy\0z")
        && has_bytes(end, rt, left, b"left")
}

// Makes the file that the first draft of this process would be, as one that a process left; returns its path.
fn leave_draft<R: Abort>(end: &R, rt: &HostRuntime, at: &str) -> String {
    let process = process::id(rt.process());
    let left = format!(in rt.alloc(); "{at}/.jirovamby.{process}.1.tmp").expect(end, "memory");
    make_file(end, rt, left.as_str(), b"left");
    left
}

// Whether a new folder of this process publishes its drafts or leaves nothing of them.
fn publishes_drafts<R: Abort>(end: &R, rt: &HostRuntime) -> bool {
    let at = fixture(end, rt, "drafts");
    let left = leave_draft(end, rt, at.as_str());
    let mut folder = disk(end, rt);
    publishes(end, rt, &mut folder, at.as_str(), left.as_str()) && is_removed(rt, at.as_str())
}

#[test]
fn drafts_are_published_or_leave_nothing(rt: HostRuntime) {
    assert!(rt; publishes_drafts(&rt, &rt));
}

// Whether a draft isn't published where a folder has come to stand.
fn refuses_publish<F: Folder>(rt: &HostRuntime, folder: &mut F, b: &Name) -> bool {
    match folder.create(b) {
        Ok(draft) => {
            let made = fs::create_dir(rt, b.as_str()).is_ok();
            let refused = folder.publish(draft) == Err(WriteFault::Failed);
            made && refused
        }
        Err(_) => false,
    }
}

// Whether nothing is written in a folder that is none.
fn refuses_below<R: Abort, F: Folder>(end: &R, rt: &HostRuntime, folder: &mut F, at: &str) -> bool {
    let below = name(end, rt, at, "none/b");
    write_file(folder, &below) == Err(Method::Create)
}

// Whether refused drafts leave nothing.
fn refuses<R: Abort, F: Folder>(end: &R, rt: &HostRuntime, folder: &mut F, at: &str) -> bool {
    let b = name(end, rt, at, "b");
    refuses_publish(rt, folder, &b)
        && has_files(end, rt, at, 2)
        && refuses_below(end, rt, folder, at)
}

// The same in a folder of its own.
fn refuses_drafts<R: Abort>(end: &R, rt: &HostRuntime) -> bool {
    let at = fixture(end, rt, "refused");
    let mut folder = disk(end, rt);
    refuses(end, rt, &mut folder, at.as_str()) && is_removed(rt, at.as_str())
}

#[test]
fn a_refused_publish_leaves_nothing(rt: HostRuntime) {
    assert!(rt; refuses_drafts(&rt, &rt));
}
