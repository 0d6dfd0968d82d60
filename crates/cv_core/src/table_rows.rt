//! The rows of the indexes of one table.
ghost use Rattle.std.specs.Prelude.{◌≡◌, ◌==◌, ℕ, [], ◌+◌, ◌<◌, ◌≤◌, length, cond, option_map, slice_get, IfOk, OnOk};
ghost use Rattle.cv_docs.specs.Entries.{AllEarlier, inserted};
ghost use Rattle.cv_docs.specs.IndexRows.{rows_by};
ghost use Rattle.cv_core.specs.Versioned.{entries_or, spare_or};

use cv_docs::RowIndex;
use cv_keys::{Index, Key};
use cv_values::Memory;
use std::alloc::Global;
use std::marker::Model;

/// The rows of each index of a table, by the index's number. Contracts see for each its entries and its
/// room.
#[derive(Drop)]
pub(crate) struct TableRows<R: RowIndex> {
    indexes: Vec<R>,
}

impl<R: RowIndex> Model for TableRows<R> {
    ghost use Rattle.std.specs.Prelude.{List, map};
    ghost use Rattle.std.specs.Coded.{coded_list};
    ghost use Rattle.cv_docs.specs.Codes.{index_rows_code};
    ghost use Rattle.cv_docs.specs.IndexRows.{IndexRows, rows_by};

    ghost Value = { List IndexRows };

    ghost coded = { coded_list index_rows_code };

    ghost view = { λ t. map (rows_by R.entries R.spare) t.indexes.items };
}

impl<R: RowIndex> TableRows<R> {
    /// No rows in each of these indexes.
    pub fn new(alloc: Global, indexes: &[Index]) -> Result<TableRows<R>, Memory>
        ensures count { IfOk result (λ t. length t ≡ length indexes.now) }
        ensures empty { IfOk result (λ t. (i : ℕ) → entries_or (slice_get t i) ≡ []) }
    {
        let mut rows = Vec::with_capacity(alloc, indexes.len())?;
        for _index in indexes {
            rows.push(R::new(alloc))?;
        }
        Ok(TableRows { indexes: rows })
    }

    /// The rows of an index, if it is there.
    pub fn get(&self, index: u32) -> Option<&R>
        ensures { option_map (λ r. rows_by R.entries R.spare r.now) result ≡ slice_get self.now index }
    {
        self.indexes.as_slice().get(index as usize)
    }

    /// Makes room for so many entries in an index. One that isn't there is refused.
    pub fn reserve(&mut self, index: u32, each: usize) -> Result<(), Memory>
        ensures count { length self.new ≡ length self.old }
        ensures entries { (i : ℕ) → entries_or (slice_get self.new i) ≡ entries_or (slice_get self.old i) }
        ensures spare { (i : ℕ) → spare_or (slice_get self.old i) ≤ spare_or (slice_get self.new i) }
        ensures room { OnOk result (each ≤ spare_or (slice_get self.new index)) }
    {
        let at = index as usize;
        if at >= self.indexes.len() {
            return Err(Memory);
        }
        self.indexes[at].reserve(each)
    }

    /// Says what stands at a key of an index from a timestamp on.
    pub fn insert(&mut self, index: u32, key: Key, ts: u64, version: Option<u64>)
        requires room { 0 < spare_or (slice_get self.old index) }
        requires later { AllEarlier key ts (entries_or (slice_get self.old index)) }
        ensures count { length self.new ≡ length self.old }
        ensures entries { (i : ℕ) → entries_or (slice_get self.new i)
            ≡ cond (i == index) (inserted (record { key = key; ts = ts; version = version }) (entries_or (slice_get self.old i))) (entries_or (slice_get self.old i)) }
        ensures spare { (i : ℕ) → spare_or (slice_get self.old i) ≤ spare_or (slice_get self.new i) + cond (i == index) 1 0 }
    {
        self.indexes[index as usize].insert(key, ts, version);
    }
}
