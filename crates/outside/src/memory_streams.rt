// An input and two sinks in memory. Their calls fail where a schedule says so, or never.
ghost use Rattle.std.specs.Prelude.{◌≡◌, ◌≤◌, true, vec_len};
ghost use Rattle.outside.specs.Histories.{history_bytes};

use crate::history::History;
use crate::schedule::{Listed, Never};

/// Bytes in memory that are read from front to back. It tells what it has left; which calls fail is its schedule's to
/// say.
#[derive(Drop)]
pub struct MemoryInput<P> {
    pub(crate) bytes: Vec<u8>,
    pub(crate) at: usize,
    pub(crate) most: usize,
    pub(crate) schedule: P,
    ghost at_is_within: { at ≤ vec_len bytes },
    ghost gives_some: { 1 ≤ most },
}

/// The input in memory whose calls fail where a list says so.
pub type MemInput = MemoryInput<Listed>;

/// The input in memory of which no call fails: its count of faults is always 0.
pub type CalmInput = MemoryInput<Never>;

/// A sink that keeps its bytes in memory and tells them. Its calls fail where a list says so, and where memory is
/// refused.
#[derive(Drop)]
pub struct MemSink {
    pub(crate) bytes: Vec<u8>,
    pub(crate) schedule: Listed,
    // how many bytes a planned call takes before it fails
    pub(crate) front: usize,
}

/// A sink of which no call fails: its count of faults is always 0. It tells all that it got, and keeps it in memory as
/// long as memory isn't refused.
#[derive(Drop)]
pub struct CalmSink {
    pub(crate) bytes: Vec<u8>,
    // memory wasn't refused so far
    pub(crate) whole: bool,
    pub(crate) history: History<u8, ()>,
    ghost kept: { whole ≡ true → bytes.items ≡ history_bytes history.items },
}
