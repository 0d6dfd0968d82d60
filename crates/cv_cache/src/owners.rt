//! The numbers that own ranges.
ghost use Rattle.std.specs.Prelude.{◌≡◌, ◌<◌, ◌≤◌, [], length, Some, None, OnOk, OnErr};
ghost use Rattle.slab.specs.Slab.{get, Updates};
ghost use Rattle.cv_cache.specs.Owners.{IsFlagged, HasRoom};

use crate::flags::Flags;
use cv_values::Memory;
use fn_tree::Query;
use slab::Slab;
use std::alloc::Global;

/// Each number that owns ranges, with the query of its entry, and a flag for each.
#[derive(Drop)]
pub struct Owners {
    pub queries: Slab<Query>,
    pub flags: Flags,
}

impl Owners {
    /// No numbers.
    pub fn new(alloc: Global) -> Owners
        ensures none { result.queries.slots ≡ [] }
        ensures flagged { IsFlagged result }
    {
        Owners {
            queries: Slab::new(alloc),
            flags: Flags::new(alloc),
        }
    }

    /// Makes room for one number more.
    pub fn reserve(&mut self) -> Result<(), Memory>
        ensures ok { OnOk result (HasRoom self.new) }
        ensures slots { self.new.queries.slots ≡ self.old.queries.slots }
        ensures flagged { IsFlagged self.old → IsFlagged self.new }
    {
        self.queries.reserve(1)?;
        self.flags.reserve(self.queries.capacity())
    }

    /// The number that comes next.
    pub fn next(&self) -> usize
        ensures value { result ≡ self.now.queries.vacant_key }
        ensures vacant { get self.now.queries result ≡ None }
    {
        self.queries.vacant_key()
    }

    /// Gives the next number to a query.
    pub fn add(&mut self, query: Query)
        requires room { HasRoom self.old }
        requires flagged { IsFlagged self.old }
        ensures updates { Updates self.old.queries self.new.queries self.old.queries.vacant_key (Some query) }
        ensures flagged { IsFlagged self.new }
    {
        self.queries.insert_reserved(query);
        let _room = self.queries.capacity();
    }

    /// Takes a number back, with the query that has it.
    pub fn remove(&mut self, number: usize) -> Option<Query>
        ensures query { result ≡ get self.old.queries number }
        ensures updates { Updates self.old.queries self.new.queries number None }
        ensures flags { self.new.flags ≡ self.old.flags }
        ensures slots { length self.new.queries.slots ≡ length self.old.queries.slots }
    {
        self.queries.try_remove(number)
    }
}
