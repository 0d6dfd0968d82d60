//! The queries in rising order of their numbers, in a `Vec` whose room is taken at the start.
ghost use Rattle.std.specs.Prelude.{◌≡◌, ◌≢◌, ◌↔◌, ◌<◌, ◌≤◌, [], length, option_map, Some, None, IfOk, IsTrue, IsSome};
ghost use Rattle.cv_subs.specs.Subs.{new_sub, sub_at, result_at, reads_of, with_sub, without_sub, changed, staled, answered, next_stale, IsRising};
ghost use Rattle.cv_subs.specs.Views.{shown};
ghost use Rattle.fn_tree.specs.EntryViews.{reply_view};

use crate::place::search;
use crate::record::Record;
use cv_ranges::Hit;
use cv_reads::ReadSet;
use cv_values::Memory;
use fn_tree::{Query, Reply};
use std::alloc::Global;
use std::marker::Model;

/// The most queries of a connection.
pub const MOST_QUERIES: usize = 256;

/// Contracts see the list of the queries by number.
#[derive(Drop)]
pub struct Records {
    list: Vec<Record>,
}

impl Model for Records {
    ghost use Rattle.std.specs.Prelude.{◌≤◌, vec_len, vec_capacity};
    ghost use Rattle.cv_subs.specs.Codes.{subs_code};
    ghost use Rattle.cv_subs.specs.Subs.{Subs, IsRising};
    ghost use Rattle.cv_subs.specs.Views.{all_shown};

    ghost Value = { Subs };

    ghost coded = { subs_code };

    ghost view = { λ r. all_shown r.list.items };

    ghost invariant = { λ r. IsRising (all_shown r.list.items)
        × (vec_len r.list ≤ 256) × (256 ≤ vec_capacity r.list) };
}

impl Records {
    /// No queries, with the room for as many as there may be.
    pub fn new(alloc: Global) -> Result<Records, Memory>
        ensures { IfOk result (λ r. r ≡ []) }
    {
        Ok(Records {
            list: Vec::with_capacity(alloc, MOST_QUERIES)?,
        })
    }

    /// What holds of the queries.
    pub fn rise(&self)
        ensures { IsRising self.now }
    {
        let _ = &self.list;
    }

    pub fn count(&self) -> usize
        ensures count { result ≡ length self.now }
        ensures most { result ≤ 256 }
    {
        self.list.as_slice().len()
    }

    /// The record of a number.
    pub fn get(&self, id: u32) -> Option<&Record>
        ensures { option_map (λ r. (shown r.now).1) result ≡ sub_at id self.now }
    {
        let list = self.list.as_slice();
        match search(list, u64::from(id)) {
            Ok(at) => Some(&list[at]),
            Err(_) => None,
        }
    }

    /// What the last run of a query that is there read.
    pub fn reads(&self, id: u32) -> &ReadSet
        requires { IsSome (sub_at id self.now) }
        ensures { result.now ≡ reads_of self.now id }
    {
        match self.get(id) {
            Some(record) => &record.reads,
            None => unreachable!(),
        }
    }

    /// Adds a query, with no reads, in the room that is there.
    pub fn add(&mut self, id: u32, query: Query, reads: ReadSet)
        requires new { sub_at id self.old ≡ None }
        requires room { length self.old < 256 }
        requires empty { reads ≡ [] }
        ensures { self.new ≡ with_sub id (new_sub query) self.old }
    {
        let Err(at) = search(self.list.as_slice(), u64::from(id)) else {
            unreachable!()
        };
        let record = Record {
            id,
            query,
            result: None,
            reads,
            stale: true,
        };
        let Ok(()) = self.list.insert(at, record) else {
            unreachable!()
        };
    }

    /// Takes the query of a number out, and gives what its last run read.
    pub fn remove(&mut self, id: u32) -> Option<ReadSet>
        ensures queries { self.new ≡ without_sub id self.old }
        ensures reads { result ≡ option_map (λ s. s.reads) (sub_at id self.old) }
    {
        match search(self.list.as_slice(), u64::from(id)) {
            Err(_) => None,
            Ok(at) => {
                let Record { reads, .. } = self.list.remove(at);
                Some(reads)
            }
        }
    }

    /// Gives a query that is there the reply and the reads of a run, and tells whether the reply isn't
    /// its last one.
    pub fn answer(&mut self, id: u32, reply: Reply, reads: ReadSet) -> bool
        requires { IsSome (sub_at id self.old) }
        ensures queries { self.new ≡ changed id (answered (reply_view reply) reads) self.old }
        ensures news { IsTrue result ↔ (result_at id self.old ≢ Some (reply_view reply)) }
    {
        let Ok(at) = search(self.list.as_slice(), u64::from(id)) else {
            unreachable!()
        };
        self.list[at].answer(reply, reads)
    }

    /// The least number from this one on whose query is stale.
    pub fn next_stale(&self, from: u32) -> Option<u32>
        ensures { result ≡ next_stale from self.now }
    {
        for record in self.list.as_slice() {
            if from <= record.id && record.stale {
                return Some(record.id);
            }
        }
        None
    }
}

impl Hit for Records {
    ghost after_hit = { λ subs owner. changed owner staled subs };

    fn hit(&mut self, owner: u64) {
        if let Ok(at) = search(self.list.as_slice(), owner) {
            self.list[at].stale = true;
        }
    }
}
