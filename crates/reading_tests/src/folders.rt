use crate::calls::{has_two, is_written, open_fault, read_two, write_file};
use crate::fixtures::{Case, all_hold, calm_folder, name_of};
use lists_and_answers::Items;
use outside::{
    CalmInput, CalmSink, CountingFolder, Failed, Failing, Folder, Input, Listed, MemFolder,
    MemInput, MemSink, MemoryFolder, Method, Name, Never, OpenFault, Schedule, Sink, StdInput,
    StdSink, put_all,
};
use std::alloc::Global;
use std::cell::Cell;
use std::io::{self, ErrorKind, Read, Write};
use std::process::Abort;
use std::test::*;

// These calls are to fail.
pub fn listed<R: Abort>(rt: &R, alloc: Global, calls: &[Failing]) -> Listed {
    let mut failing = Items::new(alloc);
    for call in calls {
        failing.push(*call).expect(rt, "memory");
    }
    Listed::new(failing)
}

// Reads `a`, and copies two of its bytes and three more to `b`: the method whose call fails first.
pub fn first_failing(folder: &mut MemFolder, a: &Name, b: &Name) -> Option<Method> {
    match read_two(folder, a) {
        Err(method) => Some(method),
        Ok(_) => write_file(folder, b).err(),
    }
}

// A folder with `abc` in the file `a`, of which these calls fail.
pub fn folder_of<R: Abort>(rt: &R, alloc: Global, a: &Name, calls: &[Failing]) -> MemFolder {
    let mut folder = MemFolder::new(alloc, listed(rt, alloc, calls));
    folder.put(a, b"abc").expect(rt, "memory");
    folder
}

// Whether a file of a folder has these bytes.
pub fn has_bytes<P: Schedule>(folder: &MemoryFolder<P>, name: &Name, bytes: &[u8]) -> bool {
    folder.bytes(name) == Some(bytes)
}

// Whether a method fails the first time and nothing is put then, and nothing fails the second time.
fn fails_once(folder: &mut MemFolder, a: &Name, b: &Name, method: Method) -> bool {
    first_failing(folder, a, b) == Some(method)
        && folder.bytes(b).is_none()
        && first_failing(folder, a, b).is_none()
        && has_bytes(folder, b, b"\0xy\0z")
        && has_bytes(folder, a, b"abc")
}

// Whether this call of a folder fails, which is one of this method.
fn fails_in<R: Abort>(rt: &R, alloc: Global, failing: Failing, method: Method) -> bool {
    let a = name_of(rt, alloc, "a");
    let b = name_of(rt, alloc, "b");
    let mut folder = folder_of(rt, alloc, &a, &[failing]);
    fails_once(&mut folder, &a, &b, method)
}

// A method of a folder, and the number of its call, as `first_failing` calls them.
#[derive(Clone, Copy)]
struct Numbered(Method, u64);

const METHODS: [Numbered; 8] = [
    Numbered(Method::Open, 1),
    Numbered(Method::ReadAt, 2),
    Numbered(Method::Create, 3),
    Numbered(Method::Grow, 4),
    Numbered(Method::WriteAt, 5),
    Numbered(Method::Append, 6),
    Numbered(Method::DraftRead, 7),
    Numbered(Method::Publish, 8),
];

impl Case for Numbered {
    // Whether the first call of the method fails, and the call of its number.
    fn holds<R: Abort>(&self, rt: &R, alloc: Global) -> bool {
        let Numbered(method, number) = *self;
        fails_in(rt, alloc, Failing::Of(method, 1), method)
            && fails_in(rt, alloc, Failing::Call(number), method)
    }
}

#[test]
fn each_listed_call_fails(rt: HostRuntime) {
    all_hold(&rt, rt.alloc(), &METHODS);
}

// Whether a read fails.
fn fails_to_read(folder: &mut MemFolder, name: &Name) -> bool {
    read_two(folder, name) == Err(Method::ReadAt)
}

// Whether the second read of a view fails.
fn view_fails<R: Abort>(rt: &R, folder: &mut MemFolder, a: &Name) -> bool {
    let mut view = folder.fork().expect(rt, "memory");
    let fails = has_two(&mut view, a, *b"bc") && fails_to_read(&mut view, a);
    folder.absorb(view);
    fails
}

// Whether the third and the fourth read fail, of which the first comes in a view.
fn fails_in_turn<R: Abort>(rt: &R, folder: &mut MemFolder, a: &Name) -> bool {
    has_two(folder, a, *b"bc")
        && view_fails(rt, folder, a)
        && fails_to_read(folder, a)
        && has_two(folder, a, *b"bc")
}

fn counts_on<R: Abort>(rt: &R, alloc: Global) -> bool {
    let a = name_of(rt, alloc, "a");
    let failing = [
        Failing::Of(Method::ReadAt, 3),
        Failing::Of(Method::ReadAt, 4),
    ];
    let mut folder = folder_of(rt, alloc, &a, &failing);
    fails_in_turn(rt, &mut folder, &a)
}

#[test]
fn a_view_counts_on(rt: HostRuntime) {
    assert!(rt; counts_on(&rt, rt.alloc()));
}

// Whether a folder has opened, read and written so many times.
fn has_counts<F: Folder>(folder: &CountingFolder<F>, opens: u64, reads: u64, writes: u64) -> bool {
    folder.opens() == opens && folder.reads() == reads && folder.writes() == writes
}

// Whether a view counts from nothing.
fn view_counts<R: Abort, F: Folder>(rt: &R, folder: &mut CountingFolder<F>, a: &Name) -> bool {
    let mut view = folder.fork().expect(rt, "memory");
    let counts = has_two(&mut view, a, *b"bc") && has_counts(&view, 1, 1, 0);
    folder.absorb(view);
    counts
}

// Whether each call is counted, and those of a view with it.
fn counts_calls<R: Abort, F: Folder>(
    rt: &R,
    folder: &mut CountingFolder<F>,
    a: &Name,
    b: &Name,
) -> bool {
    open_fault(folder, b) == Some(OpenFault::Absent)
        && is_written(folder, b)
        && has_two(folder, b, *b"xy")
        && view_counts(rt, folder, a)
        && has_counts(folder, 3, 2, 1)
}

// Whether a counting folder counts, and its folder gets what was put.
fn tallies<R: Abort>(rt: &R, alloc: Global) -> bool {
    let a = name_of(rt, alloc, "a");
    let b = name_of(rt, alloc, "b");
    let mut folder = CountingFolder::new(calm_folder(rt, alloc, &[("a", b"abc".as_slice())]));
    let counts = counts_calls(rt, &mut folder, &a, &b);
    counts && has_bytes(&folder.into_inner(), &b, b"\0xy\0z")
}

#[test]
fn a_counting_folder_counts(rt: HostRuntime) {
    assert!(rt; tallies(&rt, rt.alloc()));
}

const LETTERS: &[u8] = b"abcdefg";

fn letters<R: Abort>(rt: &R, alloc: Global) -> Vec<u8> {
    LETTERS.to_vec(alloc).expect(rt, "memory")
}

// Whether an input of four and three bytes gives them, and then nothing.
fn gives_all<R: Abort>(rt: &R, alloc: Global) -> bool {
    let mut out = [0; 4];
    let mut calm = CalmInput::new(letters(rt, alloc), Never);
    let first = calm.take(&mut out) == Ok(4) && out == *b"abcd";
    let second = calm.take(&mut out) == Ok(3) && calm.left().is_empty();
    first && second && calm.take(&mut out) == Ok(0)
}

// Whether an input gives two bytes at a time, and none at the call that fails.
fn gives_pieces<R: Abort>(rt: &R, alloc: Global) -> bool {
    let mut out = [0; 4];
    let schedule = listed(rt, alloc, &[Failing::Of(Method::Take, 2)]);
    let mut pieces = MemInput::in_pieces(letters(rt, alloc), 2, schedule);
    let first = pieces.take(&mut out) == Ok(2);
    let second = pieces.take(&mut out) == Err(Failed) && pieces.left() == b"cdefg".as_slice();
    let third = pieces.take(&mut out) == Ok(2) && pieces.left() == b"efg".as_slice();
    first && second && third
}

#[test]
fn inputs_give_pieces(rt: HostRuntime) {
    assert!(rt; gives_all(&rt, rt.alloc()) && gives_pieces(&rt, rt.alloc()));
}

pub const PARTS: [&[u8]; 3] = [b"ab", b"", b"cd"];

// Whether a sink gets parts and what follows them.
fn gets_all(alloc: Global) -> bool {
    let mut calm = CalmSink::new(alloc);
    let parts = put_all(&mut calm, &PARTS) == Ok(());
    let more = calm.put(b"e") == Ok(());
    parts && more && calm.got() == Some(b"abcde".as_slice())
}

// Whether a sink gets the parts before the call that fails, and all of them at the next time.
fn gets_parts<R: Abort>(rt: &R, alloc: Global) -> bool {
    let mut sink = MemSink::new(alloc, listed(rt, alloc, &[Failing::Call(3)]));
    let first = put_all(&mut sink, &PARTS) == Err(Failed) && sink.got() == b"ab".as_slice();
    let second = put_all(&mut sink, &PARTS) == Ok(()) && sink.got() == b"ababcd".as_slice();
    first && second
}

#[test]
fn sinks_get_parts(rt: HostRuntime) {
    assert!(rt; gets_all(rt.alloc()) && gets_parts(&rt, rt.alloc()));
}

// A stream of which the first call is interrupted and each later one moves one byte, up to a number.
#[derive(Drop)]
struct Halting {
    calls: Cell<u64>,
    most: u64,
}

impl Halting {
    fn new(most: u64) -> Self {
        Halting {
            calls: Cell::new(0),
            most,
        }
    }

    fn turn(&self) -> io::Result<()> {
        let calls = self.calls.get();
        self.calls.set(calls.saturating_add(1));
        if calls == 0 {
            return Err(io::Error::from(ErrorKind::Interrupted));
        }
        if calls > self.most {
            return Err(io::Error::from(ErrorKind::BrokenPipe));
        }
        Ok(())
    }
}

impl Read for Halting {
    fn read(&mut self, buf: &mut [u8]) -> io::Result<usize> {
        self.turn()?;
        match buf.first_mut() {
            Some(first) => {
                *first = b'r';
                Ok(1)
            }
            None => Ok(0),
        }
    }
}

impl Write for Halting {
    fn write(&mut self, buf: &[u8]) -> io::Result<usize> {
        self.turn()?;
        Ok(buf.len().min(1))
    }

    fn flush(&mut self) -> io::Result<()> {
        Ok(())
    }
}

// Whether an input asks again after an interruption, and fails at the next fault.
fn takes_again() -> bool {
    let mut out = [0; 4];
    let mut input = StdInput::new(Halting::new(1));
    let first = input.take(&mut out) == Ok(1) && out == *b"r\0\0\0";
    first && input.take(&mut out) == Err(Failed)
}

// Whether a sink goes on after an interruption and short writes, and fails at the next fault.
fn puts_again() -> bool {
    let mut sink = StdSink::new(Halting::new(3));
    let put = sink.put(b"") == Ok(()) && sink.put(b"abc") == Ok(());
    put && sink.put(b"d") == Err(Failed)
}

#[test]
fn streams_try_again(rt: HostRuntime) {
    let put = StdSink::new(rt.stdout()).put(b"put\n") == Ok(());
    assert!(rt; takes_again() && puts_again() && put);
}
