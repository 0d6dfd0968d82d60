use crate::gather::{take_down, take_up};
use crate::places::{entries_in, first_above};
use cv_docs::{IndexEntry, RowIndex, Taken, Versions};
use cv_keys::{Interval, Key};
use cv_values::{Doc, Memory};
use std::alloc::Global;
use std::marker::Model;

/// The entries of an index in one list, in the order of keys and timestamps.
///
/// - `insert` finds its place by bisection and moves each entry behind it, so its time is proportional
///   to the number of these, at worst of all.
/// - `scan` finds both ends by bisection and looks at the entries between them, old ones too, up to the
///   row at which it stops. It copies the documents that it gives and nothing else.
#[derive(Drop)]
pub struct FlatRows {
    entries: Vec<IndexEntry>,
}

impl Model for FlatRows {
    ghost use Rattle.std.specs.Prelude.{◌-◌, vec_len, vec_capacity};
    ghost use Rattle.cv_docs.specs.Entries.{IsInOrder};
    ghost use Rattle.cv_docs.specs.Codes.{index_rows_code};
    ghost use Rattle.cv_docs.specs.IndexRows.{IndexRows};

    ghost Value = { IndexRows };

    ghost coded = { index_rows_code };

    ghost view = { λ r. record { entries = r.entries.items; spare = vec_capacity r.entries - vec_len r.entries } };

    ghost invariant = { λ r. IsInOrder r.entries.items };
}

impl RowIndex for FlatRows {
    ghost entries = { λ r. r.entries };

    ghost spare = { λ r. r.spare };

    fn new(alloc: Global) -> FlatRows {
        FlatRows {
            entries: Vec::new(alloc),
        }
    }

    fn reserve(&mut self, n: usize) -> Result<(), Memory> {
        self.entries.reserve(n)?;
        Ok(())
    }

    fn insert(&mut self, key: Key, ts: u64, version: Option<u64>) {
        let at = first_above(self.entries.as_slice(), &key);
        let entry = IndexEntry { key, ts, version };
        self.entries.insert(at, entry).unwrap();
    }

    fn scan(
        &self,
        alloc: Global,
        docs: &Versions,
        ts: u64,
        i: &Interval,
        desc: bool,
        rows: u32,
        size: u64,
    ) -> Result<Vec<Doc>, Memory> {
        let inside = entries_in(self.entries.as_slice(), i);
        let mut taken = Taken::new(alloc, rows, size);
        if desc {
            take_down(alloc, docs, ts, inside, &mut taken)?;
        } else {
            take_up(alloc, docs, ts, inside, &mut taken)?;
        }
        Ok(taken.into_vec())
    }
}
