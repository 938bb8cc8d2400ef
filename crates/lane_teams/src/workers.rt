// How many lanes read beside each other.
ghost use Rattle.std.specs.Prelude.{◌≡◌, ◌≤◌, ◌&&◌, nat_le, if◌then◌else◌, Some, None};
ghost use Rattle.lane_teams.specs.Workers.{most_workers};

use std::marker::Model;

/// The most workers.
const MOST_WORKERS: u32 = 16;

/// How many workers read beside each other, from 1 to 16.
#[derive(Clone, Copy)]
pub struct WorkerCount {
    number: u32,
}

impl Model for WorkerCount {
    ghost use Rattle.std.specs.Prelude.{ℕ, ◌≤◌};
    ghost use Rattle.lane_teams.specs.Workers.{most_workers};

    ghost Value = { ℕ };

    ghost view = { λ w. w.number };

    ghost invariant = { λ w. (1 ≤ w.number) × (w.number ≤ most_workers) };

    ghost inverse = { λ n. record { number = n } };
}

impl WorkerCount {
    /// One, as where nothing is said.
    pub const USUAL: WorkerCount = WorkerCount { number: 1 };

    /// The number where it is from 1 to 16, else none.
    pub fn new(number: u32) -> Option<WorkerCount>
        ensures exact { result ≡ (if nat_le 1 number && nat_le number most_workers then Some number else None) }
    {
        if number >= 1 && number <= MOST_WORKERS {
            Some(WorkerCount { number })
        } else {
            None
        }
    }

    /// The number.
    pub fn get(self) -> u32
        ensures value { result ≡ self }
        ensures some { 1 ≤ result }
        ensures few { result ≤ most_workers }
    {
        self.number
    }
}
