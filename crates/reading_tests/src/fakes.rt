use crate::calls::is_written;
use crate::fixtures::{calm_folder, is_number, name_of};
use crate::folders::{PARTS, first_failing, folder_of, has_bytes, listed};
use outside::{CalmFolder, Failed, Failing, Folder, MemFolder, MemSink, Name, Sink, put_all};
use std::alloc::Global;
use std::process::Abort;
use std::test::*;

// Whether the calls before a number are made, and that call fails: it is counted, no draft is left, and nothing is put.
fn fails_cleanly(folder: &mut MemFolder, a: &Name, b: &Name) -> bool {
    first_failing(folder, a, b).is_some()
        && folder.faults() == 1
        && folder.drafts() == 0
        && folder.bytes(b).is_none()
}

// A run of which the call of a number is to fail.
#[derive(Clone, Copy, PartialEq, Eq)]
enum Trial {
    // the call was made and failed as it should
    Failed,
    // the run ended before that call, as it should
    Whole,
    Wrong,
}

fn tried<R: Abort>(rt: &R, alloc: Global, number: u64) -> Trial {
    let a = name_of(rt, alloc, "a");
    let b = name_of(rt, alloc, "b");
    let mut folder = folder_of(rt, alloc, &a, &[Failing::Call(number)]);
    judged(&mut folder, &a, &b)
}

fn judged(folder: &mut MemFolder, a: &Name, b: &Name) -> Trial {
    if fails_cleanly(folder, a, b) {
        return Trial::Failed;
    }
    if folder.faults() == 0 && has_bytes(folder, b, b"\0xy\0z") {
        return Trial::Whole;
    }
    Trial::Wrong
}

// How many calls fail in turn, each cleanly, until a run ends in which none failed; None where one goes wrong.
fn failing_calls<R: Abort>(rt: &R, alloc: Global) -> Option<u64> {
    for number in 1..1000u64 {
        match tried(rt, alloc, number) {
            Trial::Failed => {}
            Trial::Whole => return Some(number - 1),
            Trial::Wrong => return None,
        }
    }
    None
}

#[test]
fn calls_fail_in_turn(rt: HostRuntime) {
    is_number(&rt, failing_calls(&rt, rt.alloc()), 8);
}

// Whether a draft counts from its creation on until it is published or given up.
fn counts_drafts(folder: &mut CalmFolder, a: &Name) -> bool {
    match (folder.create(a), folder.create(a)) {
        (Ok(first), Ok(second)) => {
            let two = folder.drafts() == 2;
            folder.discard(first);
            let one = folder.drafts() == 1;
            two && one && folder.publish(second) == Ok(()) && folder.drafts() == 0
        }
        _ => false,
    }
}

// Whether a folder has these names and no other.
fn has_names(folder: &CalmFolder, names: [&str; 2]) -> bool {
    match folder.names() {
        Ok(held) => are_names(held.as_slice(), names),
        Err(_) => false,
    }
}

fn are_names(held: &[Name], names: [&str; 2]) -> bool {
    match held {
        [first, second] => first.as_str() == names[0] && second.as_str() == names[1],
        _ => false,
    }
}

// Whether a folder tells its drafts and its names, each once.
fn tells<R: Abort>(rt: &R, alloc: Global) -> bool {
    let a = name_of(rt, alloc, "a");
    let b = name_of(rt, alloc, "b");
    let mut folder = calm_folder(rt, alloc, &[("b", b"abc".as_slice())]);
    counts_drafts(&mut folder, &a) && is_written(&mut folder, &b) && has_names(&folder, ["b", "a"])
}

#[test]
fn drafts_and_names_are_told(rt: HostRuntime) {
    assert!(rt; tells(&rt, rt.alloc()));
}

// Whether a sink gets the first byte of the part at which it fails, and goes on behind it.
fn gets_fronts<R: Abort>(rt: &R, alloc: Global) -> bool {
    let mut sink = MemSink::in_part(alloc, listed(rt, alloc, &[Failing::Call(3)]), 1);
    let first = put_all(&mut sink, &PARTS) == Err(Failed) && sink.got() == b"abc".as_slice();
    let second = sink.put(b"d") == Ok(()) && sink.got() == b"abcd".as_slice();
    first && second && sink.faults() == 1
}

#[test]
fn a_sink_takes_a_part(rt: HostRuntime) {
    assert!(rt; gets_fronts(&rt, rt.alloc()));
}
