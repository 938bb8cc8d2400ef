// What a sink in memory gets, and which of its calls fail.
ghost use Rattle.std.specs.Prelude.{◌≡◌, [], Some, IsErr, OnErr, OnOk};
ghost use Rattle.outside.specs.Causes.{CountsWhere, FailsWith};
ghost use Rattle.outside.specs.Memory.{sink_schedule_of, front_of};
ghost use Rattle.outside.specs.Schedules.{Plans, faults_of};
ghost use Rattle.outside.specs.Streams.{Gets, GetsPart, GetsFront};
ghost use Rattle.outside.specs.declared.schedule.Method.TheVariants as method;

use crate::memory_streams::MemSink;
use crate::schedule::{Listed, Method, Schedule};
use crate::{Failed, Sink};
use std::alloc::Global;

impl MemSink {
    /// A sink that got nothing yet, and of which a call that fails takes nothing.
    pub fn new(alloc: Global, schedule: Listed) -> Self
        ensures got { ⟦<MemSink as Sink>⟧.got result ≡ Some [] }
        ensures faults { ⟦<MemSink as Sink>⟧.faults result ≡ ⟦<Listed as Schedule>⟧.faults schedule }
        ensures schedule { sink_schedule_of result ≡ schedule }
        ensures front { front_of result ≡ 0 }
    {
        MemSink::in_part(alloc, schedule, 0)
    }

    /// A sink that got nothing yet. A call that the list names takes the first bytes that it is given, so many of them
    /// at most, and fails then.
    pub fn in_part(alloc: Global, schedule: Listed, front: usize) -> Self
        ensures got { ⟦<MemSink as Sink>⟧.got result ≡ Some [] }
        ensures faults { ⟦<MemSink as Sink>⟧.faults result ≡ ⟦<Listed as Schedule>⟧.faults schedule }
        ensures schedule { sink_schedule_of result ≡ schedule }
        ensures front { front_of result ≡ front }
    {
        MemSink {
            bytes: Vec::new(alloc),
            schedule,
            front,
        }
    }

    /// The bytes that it got.
    pub fn got(&self) -> &[u8]
        ensures got { ⟦<MemSink as Sink>⟧.got self.now ≡ Some result.now }
    {
        &self.bytes
    }

    /// How many calls failed, at most 2^64 - 1. It is no call of the sink.
    pub fn faults(&self) -> u64
        ensures faults { result ≡ ⟦<MemSink as Sink>⟧.faults self.now }
    {
        self.schedule.faults()
    }
}

impl Sink for MemSink {
    ghost got = { λ s. Some s.bytes.items };

    ghost faults = { λ s. ⟦<Listed as Schedule>⟧.faults s.schedule };

    // Want of memory is a failed call too. A planned call for whose bytes there is none takes nothing.
    fn put(&mut self, bytes: &[u8]) -> Result<(), Failed>
        ensures ok { OnOk result (Gets bytes.now (⟦<MemSink as Sink>⟧.got self.old)
            (⟦<MemSink as Sink>⟧.got self.new)) }
        ensures err { OnErr result (GetsPart bytes.now (⟦<MemSink as Sink>⟧.got self.old)
            (⟦<MemSink as Sink>⟧.got self.new)) }
        ensures front { OnErr result (GetsFront (front_of self.old) bytes.now (⟦<MemSink as Sink>⟧.got self.old)
            (⟦<MemSink as Sink>⟧.got self.new)) }
        ensures kept { front_of self.new ≡ front_of self.old }
        ensures cause { FailsWith (faults_of (sink_schedule_of self.old)) (faults_of (sink_schedule_of self.new))
            result }
        ensures planned { Plans (sink_schedule_of self.old) method.Put → IsErr result }
        ensures count { CountsWhere (IsErr result) (faults_of (sink_schedule_of self.old))
            (faults_of (sink_schedule_of self.new)) }
    {
        if self.schedule.fails(Method::Put) {
            let count = bytes.len().min(self.front);
            let _ = self.bytes.extend_from_slice(&bytes[..count]);
            return Err(Failed);
        }
        match self.bytes.extend_from_slice(bytes) {
            Ok(()) => Ok(()),
            Err(_) => {
                self.schedule.add_fault();
                Err(Failed)
            }
        }
    }
}
