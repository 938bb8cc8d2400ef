use outside::{fill_at, put_at};
use std::cell::Cell;
use std::io::{self, ErrorKind};
use std::os::unix::fs::FileExt;
use std::test::*;

// A file of ten bytes 0 to 9, of which the first call is interrupted, and each later one moves one byte.
#[derive(Drop)]
struct Slow {
    calls: Cell<u64>,
}

impl Slow {
    fn new() -> Self {
        Slow {
            calls: Cell::new(0),
        }
    }

    fn turn(&self) -> io::Result<()> {
        let calls = self.calls.get();
        self.calls.set(calls.saturating_add(1));
        if calls == 0 {
            return Err(io::Error::from(ErrorKind::Interrupted));
        }
        Ok(())
    }
}

impl FileExt for Slow {
    fn read_at(&self, buf: &mut [u8], offset: u64) -> io::Result<usize> {
        self.turn()?;
        match buf.first_mut() {
            Some(first) if offset < 10 => {
                *first = offset as u8;
                Ok(1)
            }
            _ => Ok(0),
        }
    }

    fn write_at(&self, buf: &[u8], offset: u64) -> io::Result<usize> {
        self.turn()?;
        if offset < 10 {
            Ok(buf.len().min(1))
        } else {
            Ok(0)
        }
    }
}

// A place, whether three bytes from it lie in the file, and what they are, behind those of the row before.
const PLACES: [(u64, bool, [u8; 3]); 3] = [
    (2, true, [2, 3, 4]),
    (7, true, [7, 8, 9]),
    (8, false, [8, 9, 9]),
];

// Whether each place is read and written so.
fn goes_on() -> bool {
    let mut out = [0; 3];
    for (pos, done, bytes) in PLACES {
        let read = fill_at(&Slow::new(), pos, &mut out) == done && out == bytes;
        if !read || put_at(&Slow::new(), pos, &out) != done {
            return false;
        }
    }
    true
}

#[test]
fn short_reads_and_writes_go_on(rt: HostRuntime) {
    assert!(rt; goes_on() && fill_at(&Slow::new(), 20, &mut []));
}
