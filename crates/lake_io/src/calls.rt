//! Calls that are numbered from 1, of which those in a list fail: what the objects in memory count by.
ghost use Rattle.std.specs.Prelude.{◌≡◌, ◌≤◌, ◌<◌, ◌^◌};
ghost use Rattle.lake_io.specs.Calls.{called, faulted, next_fails, uncalled};

use std::marker::Model;

/// The numbers of the calls that fail, and the counts of calls and of faults.
#[derive(Drop)]
pub struct Calls {
    fails: Vec<u64>,
    made: u64,
    faults: u64,
}

impl Model for Calls {
    ghost use Rattle.lake_io.specs.Calls.{CallCount};

    ghost Value = { CallCount };

    ghost view = { λ c. record { fails = c.fails.items; made = c.made; faults = c.faults } };
}

impl Calls {
    /// No call was made yet; those with a number in `fails` are to fail.
    pub fn new(fails: Vec<u64>) -> Self
        ensures { result ≡ uncalled fails.items }
    {
        Calls {
            fails,
            made: 0,
            faults: 0,
        }
    }

    /// Counts one call, and answers whether it fails. A call past the greatest number of 64 bits is not counted and does not fail.
    pub fn next_fails(&mut self) -> bool
        ensures fails { result ≡ next_fails self.old }
        ensures counted { self.new ≡ called self.old }
    {
        if self.made == u64::MAX {
            return false;
        }
        self.made += 1;
        let fails = self.fails.contains(&self.made);
        if fails {
            self.add_fault();
        }
        fails
    }

    /// Counts one more fault.
    pub fn add_fault(&mut self)
        ensures { self.new ≡ faulted self.old }
    {
        if self.faults < u64::MAX {
            self.faults += 1;
        }
    }

    /// How many calls failed.
    pub fn faults(&self) -> u64
        ensures { result ≡ self.now.faults }
    {
        self.faults
    }

    /// How many calls were made.
    pub fn made(&self) -> u64
        ensures { result ≡ self.now.made }
    {
        self.made
    }
}
