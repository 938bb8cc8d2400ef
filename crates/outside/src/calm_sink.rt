// A sink in memory of which no call fails.
ghost use Rattle.std.specs.Prelude.{◌≡◌, ◌↔◌, ◌++◌, [], Some, IfSome, IsSome, IsTrue};
ghost use Rattle.outside.specs.Histories.{history_bytes};
ghost use Rattle.outside.specs.Memory.{is_whole};

use crate::history::History;
use crate::memory_streams::CalmSink;
use crate::{Failed, Sink};
use std::alloc::Global;

// Notes these bytes, one after another.
fn note(history: &mut History<u8, ()>, bytes: &[u8])
    ensures { history_bytes history.new.items ≡ history_bytes history.old.items ++ bytes.now }
{
    for byte in bytes {
        *history = history.and(byte, &());
    }
}

impl CalmSink {
    /// A sink that got nothing yet.
    pub fn new(alloc: Global) -> Self
        ensures got { ⟦<CalmSink as Sink>⟧.got result ≡ Some [] }
        ensures whole { IsTrue (is_whole result) }
    {
        CalmSink {
            bytes: Vec::new(alloc),
            whole: true,
            history: History::new(),
        }
    }

    /// All the bytes that it got; None where memory was refused on the way.
    pub fn got(&self) -> Option<&[u8]>
        ensures got { IfSome result (λ bytes. ⟦<CalmSink as Sink>⟧.got self.now ≡ Some bytes.now) }
        ensures whole { IsSome result ↔ IsTrue (is_whole self.now) }
    {
        if self.whole { Some(&self.bytes) } else { None }
    }
}

impl Sink for CalmSink {
    ghost got = { λ s. Some (history_bytes s.history.items) };

    ghost faults = { λ _. 0 };

    fn put(&mut self, bytes: &[u8]) -> Result<(), Failed> {
        let kept = self.bytes.extend_from_slice(bytes).is_ok();
        self.whole = self.whole && kept;
        note(&mut self.history, bytes);
        Ok(())
    }
}
