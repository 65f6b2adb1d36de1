ghost use Rattle.std.specs.Prelude.{◌≡◌, ◌↔◌, Contains, IsTrue};
ghost use Rattle.std.specs.Bool.{OnTrue, OnFalse};
ghost use Rattle.flight_base.specs.Calls.{FailsNext, unmade, passed, failed};

use std::marker::Model;

/// Numbers calls from 0, and makes those fail whose numbers it was given.
#[derive(Drop)]
pub struct Schedule {
    fails: Vec<u32>,
    made: u64,
    failed: u64,
}

impl Model for Schedule {
    ghost use Rattle.flight_base.specs.Calls.{Calls};

    ghost Value = { Calls };

    ghost view = { λ s. record { fails = s.fails.items; made = s.made; failed = s.failed } };
}

impl Schedule {
    /// No call was made so far.
    pub fn new(fails: Vec<u32>) -> Schedule
        ensures { result ≡ unmade fails.items }
    {
        Schedule {
            fails,
            made: 0,
            failed: 0,
        }
    }

    /// Makes the next call, and answers whether it fails.
    pub fn call_fails(&mut self) -> bool
        ensures exactly { IsTrue result ↔ FailsNext self.old }
        ensures yes { OnTrue result (self.new ≡ failed self.old) }
        ensures no { OnFalse result (self.new ≡ passed self.old) }
    {
        let fails = stands_in(self.fails.as_slice(), self.made);
        self.made = self.made.saturating_add(1);
        if fails {
            self.failed = self.failed.saturating_add(1);
        }
        fails
    }
}

fn stands_in(numbers: &[u32], number: u64) -> bool
    ensures { IsTrue result ↔ Contains numbers.now number }
{
    numbers.iter().any(|n| u64::from(*n) == number)
}
