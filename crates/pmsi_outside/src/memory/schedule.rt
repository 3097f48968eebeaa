//! Which calls fail, by their numbers.
ghost use Rattle.std.specs.Prelude.{◌≡◌};

use std::marker::Model;

/// Counts the calls of an object from 1 on, and tells which are to fail.
#[derive(Debug, Drop)]
pub struct Schedule {
    fails: Vec<u64>,
    calls: u64,
}

impl Model for Schedule {
    ghost use Rattle.pmsi_outside.specs.Memory.{ScheduleValue};

    ghost Value = { ScheduleValue };

    ghost view = { λ a. record { fails = a.fails.items; calls = a.calls } };
}

impl Schedule {
    ghost use Rattle.pmsi_outside.specs.Memory.{new_schedule, fails_next, after_call};

    /// No call has been made; those with these numbers are to fail.
    pub fn new(fails: Vec<u64>) -> Schedule
        ensures { result ≡ new_schedule fails.items }
    {
        Schedule { fails, calls: 0 }
    }

    /// Counts a call, and answers whether it fails.
    pub fn next(&mut self) -> bool
        ensures answer { result ≡ fails_next self.old }
        ensures counted { self.new ≡ after_call self.old }
    {
        self.calls = self.calls.saturating_add(1);
        self.fails.contains(&self.calls)
    }
}
