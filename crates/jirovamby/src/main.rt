// The program: one for all commands, the first word of which names the command.
#![tactic(auto)]

use gdal_cli::{Fault, run, tell};
use outside::{DiskFolder, StdInput, StdSink};
use std::alloc::{AllocError, Global};
use std::io::ErrorKind;
use std::process::{self, ExitCode};

/// How much room is taken and given back at the start, in bytes: as much as blocks, squares and strips take that are
/// made again and again. A list that grows past it is moved once, and grows in place from then on.
const LARGE: usize = 8_388_608;

// Takes room and gives it back, untouched. The C library's allocator then keeps what blocks of up to this size give
// back, in place of returning their pages to the system and asking for them again. Where it is refused, nothing is
// lost.
fn keep_pages(alloc: Global) {
    let _room: Result<Vec<u8>, AllocError> = Vec::with_capacity(alloc, LARGE);
}

// The words behind the program's name. Words that aren't UTF-8 are no command.
fn read_words(rt: &HostRuntime) -> Result<Vec<String>, Fault> {
    let all = match std::env::args(rt) {
        Ok(all) => all,
        Err(error) => match error.kind() {
            ErrorKind::OutOfMemory => return Err(Fault::Memory),
            _ => return Err(Fault::Usage { word: 0 }),
        },
    };
    let mut words = Vec::new(rt.alloc());
    for word in all.skip(1) {
        match words.push(word) {
            Ok(()) => {}
            Err(refused) => return Err(AllocError::from(refused).into()),
        }
    }
    Ok(words)
}

fn main(rt: HostRuntime) -> ExitCode {
    keep_pages(rt.alloc());
    let mut err = StdSink::new(rt.stderr());
    let system: Result<HostRuntime, AllocError> = rt.clone();
    let outcome = match (read_words(&rt), system) {
        (Ok(words), Ok(system)) => {
            let mut folder = DiskFolder::new(system, process::id(rt.process()), rt.alloc());
            let mut input = StdInput::new(rt.stdin());
            let mut out = StdSink::new(rt.stdout());
            run(
                &rt,
                rt.alloc(),
                &words,
                &mut folder,
                &mut input,
                &mut out,
                &mut err,
            )
        }
        (Ok(_), Err(_)) => tell(&mut err, false, Some(Fault::Memory)),
        (Err(fault), _) => tell(&mut err, false, Some(fault)),
    };
    ExitCode::from(outcome.status)
}
