//! Which calls of a value in memory are to fail.
ghost use Rattle.std.specs.Prelude.{◌≡◌, ◌≤◌, ◌↔◌, Contains, IsErr, OnErr, OnOk};
ghost use Rattle.cv_outside.specs.Plan.{next, no_calls};
ghost use Rattle.cv_outside.specs.Causes.{HasCause};

use crate::Failed;
use std::marker::Model;

/// Counts calls from 0, and fails those whose numbers it was given.
#[derive(Drop)]
pub(crate) struct Plan {
    fails: Vec<u64>,
    made: u64,
    failed: u64,
}

impl Model for Plan {
    ghost use Rattle.cv_outside.specs.Plan.{Calls};

    ghost Value = { Calls };

    ghost view = { λ p. record { fails = p.fails.items; made = p.made; failed = p.failed } };
}

impl Plan {
    pub(crate) fn new(fails: Vec<u64>) -> Self
        ensures { result ≡ no_calls fails.items }
    {
        Plan {
            fails,
            made: 0,
            failed: 0,
        }
    }

    /// Makes the next call.
    pub(crate) fn call(&mut self) -> Result<(), Failed>
        ensures listed { IsErr result ↔ Contains self.old.fails self.old.made }
        ensures ok { OnOk result (self.new ≡ record self.old { made = next self.old.made }) }
        ensures err { OnErr result (self.new ≡ record self.old { made = next self.old.made; failed = next self.old.failed }) }
        ensures cause { HasCause self.old.failed self.new.failed result }
    {
        let listed = self.fails.contains(&self.made);
        self.made = self.made.saturating_add(1);
        if listed {
            self.failed = self.failed.saturating_add(1);
            return Err(Failed);
        }
        Ok(())
    }

    /// Counts a fault that no list asked for.
    pub(crate) fn fault(&mut self)
        ensures counts { self.new ≡ record self.old { failed = next self.old.failed } }
        ensures later { self.old.failed ≤ self.new.failed }
    {
        self.failed = self.failed.saturating_add(1);
    }
}
