//! A flag for each number, for the owners that marks hit.
ghost use Rattle.std.specs.Prelude.{◌≡◌, ◌<◌, ◌≤◌, [], false, length, slice_set, OnOk};
ghost use Rattle.cv_cache.specs.Flags.{is_up, AreDown, raised};

use cv_ranges::Hit;
use cv_values::Memory;
use std::alloc::Global;

/// A flag for each number, and whether any was raised since all were down.
#[derive(Drop)]
pub struct Flags {
    pub up: Vec<bool>,
    pub any: bool,
}

impl Flags {
    /// No flags.
    pub fn new(alloc: Global) -> Flags
        ensures up { result.up.items ≡ [] }
        ensures any { result.any ≡ false }
    {
        Flags {
            up: Vec::new(alloc),
            any: false,
        }
    }

    /// Makes a flag, which is down, for each number below `count` that has none.
    pub fn reserve(&mut self, count: usize) -> Result<(), Memory>
        ensures ok { OnOk result (count ≤ length self.new.up.items) }
        ensures longer { length self.old.up.items ≤ length self.new.up.items }
        ensures down { AreDown self.old.up.items → AreDown self.new.up.items }
        ensures any { self.new.any ≡ self.old.any }
    {
        while self.up.len() < count {
            self.up.push(false)?;
        }
        Ok(())
    }

    /// Lowers the flag of a number, and tells whether it was up.
    pub fn lower(&mut self, number: usize) -> bool
        requires { number < length self.old.up.items }
        ensures was { result ≡ is_up self.old.up.items number }
        ensures up { self.new.up.items ≡ slice_set self.old.up.items number false }
        ensures any { self.new.any ≡ self.old.any }
    {
        let was = self.up[number];
        self.up[number] = false;
        was
    }
}

impl Hit for Flags {
    ghost use Rattle.cv_cache.specs.Flags.{raised};

    ghost after_hit = { raised };

    fn hit(&mut self, owner: u64) {
        let number = owner as usize;
        if number < self.up.len() {
            self.up[number] = true;
            self.any = true;
        }
    }
}
