//! Entries with the numbers that own their ranges and the tree of the ranges.
ghost use Rattle.std.specs.Prelude.{◌≡◌, ◌+◌, ◌^◌, ◌<◌, ◌≤◌, [], false, length, take, None, IfOk, OnOk, OnErr};
ghost use Rattle.cv_ranges.specs.Held.{HasRead};
ghost use Rattle.cv_store.specs.Cache.{cache_entries, cached_at, used, after_look, has_later, Shows, untouched_by};
ghost use Rattle.cv_store.specs.Stores.{cached};
ghost use Rattle.cv_cache.specs.Caches.{IsCache};
ghost use Rattle.cv_cache.specs.Entries.{cache_of};
ghost use Rattle.cv_cache.specs.Numbers.{without_number};

use crate::kept::Kept;
use crate::owners::Owners;
use crate::recent::Recent;
use cv_ranges::{RangeNodes, hit_touched, put, ranges_tell, take_out};
use cv_reads::{Mark, ReadSet};
use cv_store::Look;
use cv_values::Memory;
use fn_tree::{Query, Reply};
use range_tree::RangeTree;
use std::alloc::Global;

/// Entries in order of use, the numbers that own their ranges, and the ranges with these owners.
#[derive(Drop)]
pub struct Entries {
    pub recent: Recent,
    pub owners: Owners,
    pub ranges: RangeTree,
}

// What a new entry takes over: its query twice, what is kept, and its nodes.
#[derive(Drop)]
struct NewEntry {
    query: Query,
    name: Query,
    kept: Kept,
    nodes: RangeNodes,
}

impl Entries {
    ghost use Rattle.cv_cache.specs.Flags.{is_up, AreDown};
    ghost use Rattle.cv_cache.specs.Recent.{untouched};
    ghost use Rattle.cv_cache.specs.Ties.{IsTied, IsWell};

    /// No entries.
    pub fn new(alloc: Global) -> Result<Entries, Memory>
        ensures none { IfOk result (λ e. e.recent ≡ []) }
        ensures well { IfOk result (λ e. IsWell e) }
    {
        ranges_tell();
        Ok(Entries {
            recent: Recent::new(alloc)?,
            owners: Owners::new(alloc),
            ranges: RangeTree::new(),
        })
    }

    /// What holds of the entries.
    pub fn stands_well(&self)
        ensures { IsCache (cache_of self.now.recent) }
    {
        self.recent.len();
    }

    /// Whether a later answer of the query is kept.
    pub fn has_later(&self, query: &Query, ts: u64) -> bool
        ensures { result ≡ has_later query.now ts (cache_of self.now.recent) }
    {
        let _count = self.recent.len();
        match self.recent.get(query) {
            Some(kept) => ts < kept.ts,
            None => false,
        }
    }

    /// The answer that is kept of a query at a timestamp, whose entry is then the one used last.
    pub fn look(&mut self, alloc: Global, query: &Query, ts: u64) -> Result<Look, Memory>
        requires { IsWell self.old }
        ensures well { IsWell self.new }
        ensures ok { IfOk result (λ l. Shows l (cached_at query.now ts (cache_of self.old.recent))) }
        ensures used { OnOk result (cache_of self.new.recent ≡ after_look (cached_at query.now ts (cache_of self.old.recent)) (cache_of self.old.recent)) }
        ensures err { OnErr result (self.new.recent ≡ self.old.recent) }
    {
        let _count = self.recent.len();
        let Some(kept) = self.recent.get(query) else {
            return Ok(Look::Miss);
        };
        if ts < kept.ts {
            return Ok(Look::Miss);
        }
        let reply = kept.reply.copy(alloc)?;
        let reads = kept.reads.copy(alloc)?;
        self.recent.promote(query);
        Ok(Look::Hit { reply, reads })
    }

    /// Puts an entry in as the one used last, in place of that of its query, and takes out the one used
    /// longest ago where there is one too many. For want of memory the entries stay.
    pub fn put(
        &mut self,
        alloc: Global,
        query: &Query,
        ts: u64,
        reply: &Reply,
        reads: &ReadSet,
    ) -> Result<(), Memory>
        requires { IsWell self.old }
        ensures well { IsWell self.new }
        ensures ok { OnOk result (cache_of self.new.recent ≡ take cache_entries (used (cached query.now ts reply.now reads.now) (cache_of self.old.recent))) }
        ensures err { OnErr result (self.new.recent ≡ self.old.recent) }
    {
        let _count = self.recent.len();
        ranges_tell();
        self.owners.reserve()?;
        let owner = self.owners.next();
        let NewEntry {
            query,
            name,
            kept,
            nodes,
        } = new_entry(alloc, &self.ranges, query, ts, reply, reads, owner)?;
        let gone = self.recent.put(query, kept)?;
        self.owners.add(name);
        give_back(&mut self.owners, &mut self.ranges, gone);
        put(&mut self.ranges, nodes, reads, owner as u64);
        Ok(())
    }

    /// Takes the entries out that a mark touches. It takes no memory, and searches the tree once for each
    /// mark.
    pub fn invalidate(&mut self, marks: &[Mark])
        requires { IsWell self.old }
        ensures well { IsWell self.new }
        ensures entries { cache_of self.new.recent ≡ untouched_by marks.now (cache_of self.old.recent) }
    {
        ranges_tell();
        hit_touched(&self.ranges, marks, &mut self.owners.flags);
        self.sweep();
    }

    // Takes the entries out whose flags are up, and lowers all flags.
    fn sweep(&mut self)
        requires tied { IsTied self.old.recent self.old.owners.queries self.old.ranges }
        requires none { self.old.owners.flags.any ≡ false → AreDown self.old.owners.flags.up.items }
        ensures entries { self.new.recent ≡ untouched (is_up self.old.owners.flags.up.items) self.old.recent }
        ensures tied { IsTied self.new.recent self.new.owners.queries self.new.ranges }
        ensures down { AreDown self.new.owners.flags.up.items }
        ensures none { self.new.owners.flags.any ≡ false }
        ensures flags { length self.new.owners.flags.up.items ≡ length self.old.owners.flags.up.items }
        ensures slots { length self.new.owners.queries.slots ≡ length self.old.owners.queries.slots }
    {
        if !self.owners.flags.any {
            return;
        }
        for number in 0..self.owners.flags.up.len() {
            if self.owners.flags.lower(number) {
                self.forget(number);
            }
        }
        self.owners.flags.any = false;
    }

    // Takes the entry of a number out, with the number and its ranges.
    fn forget(&mut self, number: usize)
        requires { IsTied self.old.recent self.old.owners.queries self.old.ranges }
        ensures entries { self.new.recent ≡ without_number number self.old.recent }
        ensures tied { IsTied self.new.recent self.new.owners.queries self.new.ranges }
        ensures flags { self.new.owners.flags ≡ self.old.owners.flags }
        ensures slots { length self.new.owners.queries.slots ≡ length self.old.owners.queries.slots }
    {
        let _count = self.recent.len();
        ranges_tell();
        let Some(query) = self.owners.remove(number) else {
            return;
        };
        let Some(kept) = self.recent.take(&query) else {
            unreachable!()
        };
        take_out(&mut self.ranges, &kept.reads, number as u64);
    }
}

// Makes what a new entry takes over.
fn new_entry(
    alloc: Global,
    ranges: &RangeTree,
    query: &Query,
    ts: u64,
    reply: &Reply,
    reads: &ReadSet,
    owner: usize,
) -> Result<NewEntry, Memory>
    ensures query { IfOk result (λ f. f.query ≡ query.now) }
    ensures name { IfOk result (λ f. f.name ≡ query.now) }
    ensures kept { IfOk result (λ f. f.kept ≡ record { ts = ts; reply = reply.now; reads = reads.now; owner = owner }) }
    ensures nodes { IfOk result (λ f. HasRead f.nodes owner reads.now) }
    ensures fits { OnOk result (length ranges.now + length reads.now ≤ 2 ^ 62) }
{
    let nodes = RangeNodes::of(alloc, ranges, reads, owner as u64)?;
    let kept = Kept {
        ts,
        reply: reply.copy(alloc)?,
        reads: reads.copy(alloc)?,
        owner,
    };
    Ok(NewEntry {
        query: query.copy(alloc)?,
        name: query.copy(alloc)?,
        kept,
        nodes,
    })
}

ghost use Rattle.cv_cache.specs.Ties.{HasReadOf, GivesBack};

// Takes back the number and the ranges of an entry that went.
fn give_back(owners: &mut Owners, ranges: &mut RangeTree, gone: Option<Kept>)
    requires { HasReadOf ranges.old gone }
    ensures given { GivesBack gone owners.old.queries owners.new.queries ranges.old ranges.new }
    ensures flags { owners.new.flags ≡ owners.old.flags }
    ensures slots { length owners.new.queries.slots ≡ length owners.old.queries.slots }
    ensures length { length ranges.new ≤ length ranges.old }
{
    if let Some(kept) = gone {
        drop(owners.remove(kept.owner));
        take_out(ranges, &kept.reads, kept.owner as u64);
    }
}
