// What an input in memory gives, and which of its calls fail.
ghost use Rattle.std.specs.Prelude.{◌≡◌, ◌<◌, ◌≤◌, ◌↔◌, max, length, Some, drop, IfOk, IsErr};
ghost use Rattle.outside.specs.Causes.{CountsWhere, FailsWith};
ghost use Rattle.outside.specs.Memory.{input_schedule_of, most_of};
ghost use Rattle.outside.specs.Streams.{Takes, TakesMost};
ghost use Rattle.outside.specs.declared.schedule.Method.TheVariants as method;

use crate::memory_streams::MemoryInput;
use crate::schedule::{Method, Schedule};
use crate::{Failed, Input};

impl<P: Schedule> MemoryInput<P> {
    /// These bytes, of which a call takes as many as it has room for.
    pub fn new(bytes: Vec<u8>, schedule: P) -> Self
        ensures left { ⟦<MemoryInput<P> as Input>⟧.left result ≡ Some bytes.items }
        ensures faults { ⟦<MemoryInput<P> as Input>⟧.faults result ≡ P.faults schedule }
        ensures schedule { input_schedule_of result ≡ schedule }
        ensures most { most_of result ≡ usize.MAX }
    {
        MemoryInput::in_pieces(bytes, usize::MAX, schedule)
    }

    /// These bytes, of which a call takes at most so many; 0 is read as 1.
    pub fn in_pieces(bytes: Vec<u8>, most: usize, schedule: P) -> Self
        ensures left { ⟦<MemoryInput<P> as Input>⟧.left result ≡ Some bytes.items }
        ensures faults { ⟦<MemoryInput<P> as Input>⟧.faults result ≡ P.faults schedule }
        ensures schedule { input_schedule_of result ≡ schedule }
        ensures most { most_of result ≡ max most 1 }
    {
        MemoryInput {
            bytes,
            at: 0,
            most: most.max(1),
            schedule,
        }
    }

    /// The bytes that are left. It is no call of the input.
    pub fn left(&self) -> &[u8]
        ensures left { ⟦<MemoryInput<P> as Input>⟧.left self.now ≡ Some result.now }
    {
        &self.bytes[self.at..]
    }

    /// How many calls failed, at most 2^64 - 1. It is no call of the input.
    pub fn faults(&self) -> u64
        ensures faults { result ≡ ⟦<MemoryInput<P> as Input>⟧.faults self.now }
    {
        self.schedule.faults()
    }
}

impl<P: Schedule> Input for MemoryInput<P> {
    ghost left = { λ s. Some (drop s.at s.bytes.items) };

    ghost faults = { λ s. P.faults s.schedule };

    fn take(&mut self, out: &mut [u8]) -> Result<usize, Failed>
        requires { 0 < length out.old }
        ensures bound { IfOk result (λ n. n ≤ length out.new) }
        ensures told { Takes (⟦<MemoryInput<P> as Input>⟧.left self.old) (⟦<MemoryInput<P> as Input>⟧.left self.new)
            out.new result }
        ensures most { IfOk result (TakesMost (⟦<MemoryInput<P> as Input>⟧.left self.old) (length out.old)
            (most_of self.old)) }
        ensures kept { most_of self.new ≡ most_of self.old }
        ensures cause { FailsWith (P.faults (input_schedule_of self.old)) (P.faults (input_schedule_of self.new))
            result }
        ensures planned { IsErr result ↔ P.plans (input_schedule_of self.old) method.Take }
        ensures count { CountsWhere (IsErr result) (P.faults (input_schedule_of self.old))
            (P.faults (input_schedule_of self.new)) }
    {
        if self.schedule.fails(Method::Take) {
            return Err(Failed);
        }
        let rest = &self.bytes[self.at..];
        let count = rest.len().min(out.len()).min(self.most);
        out[..count].copy_from_slice(&rest[..count]);
        self.at += count;
        Ok(count)
    }
}
