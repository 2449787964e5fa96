//! Calls that fail as they are told.

ghost use Rattle.std.specs.Prelude.{◌≡◌, ◌≤◌, IsTrue};
ghost use Rattle.ms_base.specs.Counts.{Causes, Rose, one_more};
ghost use Rattle.ms_base.specs.Memory.{after_call, first_calls, is_due};

use std::marker::Model;

/// Counts the calls of something in memory, and says which of them fail.
#[derive(Drop)]
pub struct Script {
    fails: Vec<u64>,
    made: u64,
    faults: u64,
}

impl Model for Script {
    ghost use Rattle.ms_base.specs.Memory.{Calls};

    ghost Value = { Calls };

    ghost view = { λ s. record { fails = s.fails.items; made = s.made; faults = s.faults } };
}

impl Script {
    /// No call was made; the calls of the numbers in `fails`, counted from 0, are to fail.
    pub fn new(fails: Vec<u64>) -> Script
        ensures { result ≡ first_calls fails.items }
    {
        Script {
            fails,
            made: 0,
            faults: 0,
        }
    }

    /// Makes a call: whether it fails.
    pub fn call(&mut self) -> bool
        ensures answer { result ≡ is_due self.old }
        ensures after { self.new ≡ after_call result self.old }
        ensures cause { Causes (IsTrue result) self.old.faults self.new.faults }
    {
        let failed = self.fails.contains(&self.made);
        self.made = self.made.saturating_add(1);
        if failed {
            self.faults = self.faults.saturating_add(1);
        }
        failed
    }

    /// One fault more.
    pub fn fail(&mut self)
        ensures after { self.new ≡ record self.old { faults = one_more self.old.faults } }
        ensures rose { Rose self.old.faults self.new.faults }
        ensures later { self.old.faults ≤ self.new.faults }
    {
        self.faults = self.faults.saturating_add(1);
    }

    /// How many calls failed. At its type's end the count stands still.
    pub fn faults(&self) -> u64
        ensures { result ≡ self.now.faults }
    {
        self.faults
    }
}
