ghost use Rattle.std.specs.Prelude.{◌≡◌, ℕ, ◌+◌, ◌<◌, ◌≤◌, List, [], length, OnOk, IfOk};
ghost use Rattle.cv_docs.specs.Entries.{IsInOrder, AllEarlier, AreKnown, inserted};
ghost use Rattle.cv_docs.specs.Cut.{scanned};

use crate::entry::IndexEntry;
use crate::versions::Versions;
use cv_keys::{Interval, Key};
use cv_values::{Doc, Memory};
use std::alloc::Global;

/// The entries of one index of one table, in the order of their keys, those of one key by timestamp.
///
/// `entries` is their list, and `spare` the number of entries that can be inserted without memory.
pub trait RowIndex: Drop {
    ghost use Rattle.cv_docs.specs.declared.entry.IndexEntry.{IndexEntry as Entry};

    ghost entries: { Self → List Entry };

    ghost spare: { Self → ℕ };

    /// No entries. It takes no memory.
    fn new(alloc: Global) -> Self
        ensures { entries result ≡ [] };

    /// Makes room for `n` entries more.
    fn reserve(&mut self, n: usize) -> Result<(), Memory>
        ensures entries { entries self.new ≡ entries self.old }
        ensures spare { spare self.old ≤ spare self.new }
        ensures room { OnOk result (n ≤ spare self.new) };

    /// Says what stands at a key from a timestamp on: the version with this number, or nothing. It takes
    /// the key over without a copy.
    fn insert(&mut self, key: Key, ts: u64, version: Option<u64>)
        requires room { 0 < spare self.old }
        requires later { AllEarlier key ts (entries self.old) }
        ensures entries { entries self.new ≡ inserted (record { key = key; ts = ts; version = version }) (entries self.old) }
        ensures spare { spare self.old ≤ spare self.new + 1 };

    /// Copies of the rows that the index has at a timestamp in an interval, in key order, or against it
    /// where `desc`. The last row is the one that is number `rows`, or that brings the sum of the sizes
    /// of fields above `size`. The interval's table and index aren't looked at.
    fn scan(
        &self,
        alloc: Global,
        docs: &Versions,
        ts: u64,
        i: &Interval,
        desc: bool,
        rows: u32,
        size: u64,
    ) -> Result<Vec<Doc>, Memory>
        requires known { AreKnown (length docs.now.docs) (entries self.now) }
        ensures rows { IfOk result (λ ds. ds.items ≡ scanned docs.now.docs ts i.now desc rows size (entries self.now)) }
        ensures order { IsInOrder (entries self.now) };
}
