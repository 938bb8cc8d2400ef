// Standard input, and standard output or error, over any reader and writer. They tell of their bytes what those tell.
ghost use Rattle.std.specs.Prelude.{◌≡◌, ◌<◌, ◌≤◌, length, IfOk, OnOk, OnErr};
ghost use Rattle.outside.specs.Streams.{Takes, Gets, GetsPart};

use crate::{Failed, Input, Sink};
use std::io::{self, ErrorKind, Read, Write};

// One read. It is tried again where it is interrupted.
fn read_some<R: Read>(reader: &mut R, out: &mut [u8]) -> io::Result<usize>
    requires { 0 < length out.old }
    ensures bound { IfOk result (λ n. n ≤ length out.new) }
    ensures told { Takes (R.remaining reader.old) (R.remaining reader.new) out.new result }
{
    for _ in 0..u64::MAX {
        match reader.read(out) {
            Ok(count) => return Ok(count),
            Err(e) if e.kind() == ErrorKind::Interrupted => {}
            Err(e) => return Err(e),
        }
    }
    Err(io::Error::from(ErrorKind::Interrupted))
}

// Writes these bytes, over short writes. An interrupted write is tried again, and one that writes nothing fails.
fn write_out<W: Write>(writer: &mut W, bytes: &[u8]) -> io::Result<()>
    ensures ok { OnOk result (Gets bytes.now (W.contents writer.old) (W.contents writer.new)) }
    ensures err { OnErr result (GetsPart bytes.now (W.contents writer.old) (W.contents writer.new)) }
{
    let mut rest = bytes;
    for _ in 0..u64::MAX {
        if rest.is_empty() {
            return Ok(());
        }
        match writer.write(rest) {
            Ok(0) => return Err(io::Error::from(ErrorKind::WriteZero)),
            Ok(count) => {
                let (_, more) = rest.split_at(count);
                rest = more;
            }
            Err(e) if e.kind() == ErrorKind::Interrupted => {}
            Err(e) => return Err(e),
        }
    }
    Err(io::Error::from(ErrorKind::Interrupted))
}

/// An input over a reader, as over standard input. An interrupted read is tried again.
#[derive(Drop)]
pub struct StdInput<R> {
    inner: R,
    faults: u64,
}

impl<R: Read> StdInput<R> {
    /// What this reader gives from now on.
    pub fn new(inner: R) -> Self
        ensures left { ⟦<StdInput<R> as Input>⟧.left result ≡ R.remaining inner }
        ensures faults { ⟦<StdInput<R> as Input>⟧.faults result ≡ 0 }
    {
        StdInput { inner, faults: 0 }
    }
}

impl<R: Read> Input for StdInput<R> {
    ghost left = { λ s. R.remaining s.inner };

    ghost faults = { λ s. s.faults };

    fn take(&mut self, out: &mut [u8]) -> Result<usize, Failed> {
        match read_some(&mut self.inner, out) {
            Ok(count) => Ok(count),
            Err(_) => {
                self.faults = self.faults.saturating_add(1);
                Err(Failed)
            }
        }
    }
}

/// A sink over a writer that holds no bytes back, as over standard output or error. An interrupted write is tried
/// again.
#[derive(Drop)]
pub struct StdSink<W> {
    inner: W,
    faults: u64,
}

impl<W: Write> StdSink<W> {
    /// What is put goes to this writer.
    pub fn new(inner: W) -> Self
        ensures got { ⟦<StdSink<W> as Sink>⟧.got result ≡ W.contents inner }
        ensures faults { ⟦<StdSink<W> as Sink>⟧.faults result ≡ 0 }
    {
        StdSink { inner, faults: 0 }
    }
}

impl<W: Write> Sink for StdSink<W> {
    ghost got = { λ s. W.contents s.inner };

    ghost faults = { λ s. s.faults };

    fn put(&mut self, bytes: &[u8]) -> Result<(), Failed> {
        match write_out(&mut self.inner, bytes) {
            Ok(()) => Ok(()),
            Err(_) => {
                self.faults = self.faults.saturating_add(1);
                Err(Failed)
            }
        }
    }
}
