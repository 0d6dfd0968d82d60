//! The queries, and the tree of what they read.
ghost use Rattle.std.specs.Prelude.{◌≡◌, ◌≢◌, ◌↔◌, ◌<◌, ◌≤◌, [], length, is_some, option_map, Some, None, IfOk, OnErr, IsTrue, IsSome};
ghost use Rattle.cv_subs.specs.Subs.{new_sub, sub_at, result_at, with_sub, without_sub, changed, answered, after_marks, next_stale};
ghost use Rattle.fn_tree.specs.EntryViews.{reply_view};

use crate::records::Records;
use cv_ranges::{RangeNodes, hit_touched, put, ranges_tell, take_out};
use cv_reads::ReadSet;
use cv_store::Tail;
use cv_values::Memory;
use fn_tree::{Query, Reply};
use range_tree::RangeTree;
use std::alloc::Global;
use std::marker::Model;

/// Up to 256 queries by number. Contracts see the list of them in rising order of the numbers.
#[derive(Drop)]
pub struct Subs {
    alloc: Global,
    records: Records,
    tree: RangeTree,
}

impl Model for Subs {
    ghost use Rattle.cv_subs.specs.Codes.{subs_code};
    ghost use Rattle.cv_subs.specs.Subs.{Subs as Queries, reads_of};
    ghost use Rattle.cv_ranges.specs.Held.{HoldsReads};

    ghost Value = { Queries };

    ghost coded = { subs_code };

    ghost view = { λ s. s.records };

    ghost invariant = { λ s. HoldsReads s.tree (reads_of s.records) };
}

impl Subs {
    /// No queries, with the room for 256.
    pub fn new(alloc: Global) -> Result<Subs, Memory>
        ensures { IfOk result (λ s. s ≡ []) }
    {
        ranges_tell();
        Ok(Subs {
            alloc,
            records: Records::new(alloc)?,
            tree: RangeTree::new(),
        })
    }

    /// Adds a query under a new number. It is stale until it has a result. It takes no memory.
    pub fn add(&mut self, id: u32, query: Query)
        requires new { sub_at id self.old ≡ None }
        requires room { length self.old < 256 }
        ensures { self.new ≡ with_sub id (new_sub query) self.old }
    {
        ranges_tell();
        let empty = ReadSet::new(self.alloc);
        self.records.add(id, query, empty);
    }

    /// Takes the query of a number out, with its nodes in the tree. False exactly where there was none.
    pub fn remove(&mut self, id: u32) -> bool
        ensures queries { self.new ≡ without_sub id self.old }
        ensures there { result ≡ is_some (sub_at id self.old) }
    {
        ranges_tell();
        match self.records.remove(id) {
            None => false,
            Some(reads) => {
                take_out(&mut self.tree, &reads, u64::from(id));
                true
            }
        }
    }

    /// How many queries there are.
    pub fn count(&self) -> usize
        ensures count { result ≡ length self.now }
        ensures most { result ≤ 256 }
    {
        self.records.count()
    }

    /// Whether there is a query of the number.
    pub fn has(&self, id: u32) -> bool
        ensures { result ≡ is_some (sub_at id self.now) }
    {
        self.records.get(id).is_some()
    }

    /// Marks as stale each query that a mark of the tail touches, by one search of the tree for each
    /// mark. It takes no memory.
    pub fn advance(&mut self, tail: &Tail)
        ensures { self.new ≡ after_marks tail.now.marks self.old }
    {
        ranges_tell();
        self.records.rise();
        hit_touched(&self.tree, tail.marks.as_slice(), &mut self.records);
    }

    /// The least number from this one on whose query is stale, as one without a result is; none
    /// exactly where there is none.
    pub fn next_stale(&self, from: u32) -> Option<u32>
        ensures { result ≡ next_stale from self.now }
    {
        self.records.next_stale(from)
    }

    /// The query of a number, or none exactly where there is none.
    pub fn query(&self, id: u32) -> Option<&Query>
        ensures { option_map (λ q. q.now) result ≡ option_map (λ s. s.query) (sub_at id self.now) }
    {
        let record = self.records.get(id)?;
        Some(&record.query)
    }

    /// The last result of the query of a number, or none exactly where there is no such query or it
    /// has been given no result since it was added.
    pub fn result(&self, id: u32) -> Option<&Reply>
        ensures { option_map (λ r. reply_view r.now) result ≡ result_at id self.now }
    {
        let record = self.records.get(id)?;
        record.result.as_ref()
    }

    /// Gives the query of a number the reply and the reads of a run. It isn't stale then. It tells
    /// whether the reply differs from the result before, or is the first. It answers `Memory` for want
    /// of memory, or where the tree would have more than 2^62 nodes; nothing changes then.
    pub fn set_result(&mut self, id: u32, reply: Reply, reads: ReadSet) -> Result<bool, Memory>
        requires { IsSome (sub_at id self.old) }
        ensures queries { IfOk result (λ news. self.new ≡ changed id (answered (reply_view reply) reads) self.old) }
        ensures news { IfOk result (λ news. IsTrue news ↔ (result_at id self.old ≢ Some (reply_view reply))) }
        ensures err { OnErr result (self.new ≡ self.old) }
    {
        ranges_tell();
        let owner = u64::from(id);
        let nodes = RangeNodes::of(self.alloc, &self.tree, &reads, owner)?;
        take_out(&mut self.tree, self.records.reads(id), owner);
        put(&mut self.tree, nodes, &reads, owner);
        Ok(self.records.answer(id, reply, reads))
    }
}
