ghost use Rattle.std.specs.Prelude.{◌≡◌, [], IfOk, OnOk, OnErr};
ghost use Rattle.cv_store.specs.Cache.{cached_at, after_look, Shows, with_cached, untouched_by};
ghost use Rattle.cv_store.specs.Stores.{cached};
ghost use Rattle.cv_cache.specs.Caches.{IsCache};

use crate::entries::Entries;
use cv_reads::{Mark, ReadSet};
use cv_store::Look;
use cv_values::Memory;
use fn_tree::{Query, Reply};
use std::alloc::Global;
use std::marker::Model;

/// Kept answers of queries: at most 1,024, and at most one of a query. Contracts see the entries, the one
/// used last first. The one used longest ago goes where one more would stand.
#[derive(Drop)]
pub struct QueryCache {
    entries: Entries,
}

impl Model for QueryCache {
    ghost use Rattle.cv_store.specs.Cache.{Cache};
    ghost use Rattle.cv_store.specs.Codes.{cache_code};
    ghost use Rattle.cv_cache.specs.Entries.{cache_of};
    ghost use Rattle.cv_cache.specs.Ties.{IsWell};

    ghost Value = { Cache };

    ghost coded = { cache_code };

    ghost view = { λ c. cache_of c.entries.recent };

    ghost invariant = { λ c. IsWell c.entries };
}

impl QueryCache {
    /// An empty cache.
    pub fn new(alloc: Global) -> Result<QueryCache, Memory>
        ensures { IfOk result (λ c. c ≡ []) }
    {
        Ok(QueryCache {
            entries: Entries::new(alloc)?,
        })
    }

    /// What holds of each cache.
    pub fn stands_well(&self)
        ensures { IsCache self.now }
    {
        self.entries.stands_well();
    }

    /// The kept answer of a query at a timestamp: a miss exactly where no entry of the query has a timestamp of at most
    /// `ts`. A hit gives copies of the entry's reply and reads, and makes it the one used last. A miss changes
    /// nothing, and neither does want of memory.
    pub fn look(&mut self, alloc: Global, query: &Query, ts: u64) -> Result<Look, Memory>
        ensures ok { IfOk result (λ l. Shows l (cached_at query.now ts self.old)) }
        ensures used { OnOk result (self.new ≡ after_look (cached_at query.now ts self.old) self.old) }
        ensures err { OnErr result (self.new ≡ self.old) }
    {
        self.entries.look(alloc, query, ts)
    }

    /// Keeps copies of the answer of a query at a timestamp, as the entry used last, in place of one of the query
    /// with the same or an older timestamp. Where there is one with a later timestamp nothing changes, and
    /// for want of memory nothing does.
    pub fn keep(
        &mut self,
        alloc: Global,
        query: &Query,
        ts: u64,
        reply: &Reply,
        reads: &ReadSet,
    ) -> Result<(), Memory>
        ensures ok { OnOk result (self.new ≡ with_cached (cached query.now ts reply.now reads.now) self.old) }
        ensures err { OnErr result (self.new ≡ self.old) }
    {
        if self.entries.has_later(query, ts) {
            return Ok(());
        }
        self.entries.put(alloc, query, ts, reply, reads)
    }

    /// Takes out exactly the entries whose reads a mark touches. It takes no memory, and one search for
    /// each mark.
    pub fn invalidate(&mut self, marks: &[Mark])
        ensures { self.new ≡ untouched_by marks.now self.old }
    {
        self.entries.invalidate(marks);
    }
}
