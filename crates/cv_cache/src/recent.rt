//! The kept answers of queries, at most one of a query, in order of use.
ghost use Rattle.std.specs.Prelude.{◌≡◌, [], IfOk, OnOk, OnErr, option_copied};
ghost use Rattle.std.specs.Map.{lookup};
ghost use Rattle.cv_store.specs.Cache.{same_query};
ghost use Rattle.cv_cache.specs.Recent.{IsRecent, without, used_again, put_first, gone_for};

use crate::kept::Kept;
use cv_values::Memory;
use fn_tree::Query;
use lru::LruCache;
use std::alloc::Global;
use std::marker::Model;
use std::num::NonZeroUsize;

/// The most entries.
pub const CACHE_ENTRIES: usize = 1024;

/// Kept answers, the one used last first. Contracts see the list.
#[derive(Drop)]
pub struct Recent {
    entries: LruCache<Query, Kept>,
}

impl Model for Recent {
    ghost use Rattle.std.specs.Prelude.{◌≡◌, List};
    ghost use Rattle.cv_cache.specs.Recent.{Held, held_code};
    ghost use Rattle.cv_store.specs.Cache.{cache_entries};

    ghost Value = { List Held };

    ghost coded = { held_code };

    ghost view = { λ r. r.entries.entries };

    ghost invariant = { λ r. r.entries.cap ≡ cache_entries };
}

impl Recent {
    /// No entries, and room in the table for the most.
    pub fn new(alloc: Global) -> Result<Recent, Memory>
        ensures { IfOk result (λ r. r ≡ []) }
    {
        let cap = NonZeroUsize::new(CACHE_ENTRIES).unwrap();
        Ok(Recent {
            entries: LruCache::new(alloc, cap)?,
        })
    }

    /// The number of entries.
    pub fn len(&self) -> usize
        ensures { IsRecent self.now }
    {
        self.entries.len()
    }

    /// What is kept of a query.
    pub fn get(&self, query: &Query) -> Option<&Kept>
        ensures { option_copied result ≡ lookup (same_query query.now) self.now }
    {
        self.entries.peek(query)
    }

    /// Makes the entry of a query the one used last.
    pub fn promote(&mut self, query: &Query)
        ensures { self.new ≡ used_again query.now self.old }
    {
        let _count = self.entries.len();
        self.entries.promote(query);
    }

    /// Puts an entry in as the one used last, and hands out the one that it takes the place of: that of
    /// its query, or the one used longest ago where there would be one too many.
    pub fn put(&mut self, query: Query, kept: Kept) -> Result<Option<Kept>, Memory>
        ensures entries { OnOk result (self.new ≡ put_first query kept self.old) }
        ensures gone { IfOk result (λ gone. gone ≡ gone_for query self.old) }
        ensures err { OnErr result (self.new ≡ self.old) }
    {
        let _count = self.entries.len();
        match self.entries.push(query, kept)? {
            Some((_query, gone)) => Ok(Some(gone)),
            None => Ok(None),
        }
    }

    /// Takes the entry of a query out.
    pub fn take(&mut self, query: &Query) -> Option<Kept>
        ensures entries { self.new ≡ without query.now self.old }
        ensures kept { result ≡ lookup (same_query query.now) self.old }
    {
        let _count = self.entries.len();
        self.entries.pop(query)
    }
}
