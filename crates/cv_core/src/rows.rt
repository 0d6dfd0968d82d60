//! The documents of all timestamps, and the rows of each index of each table.
ghost use Rattle.std.specs.Prelude.{◌≡◌, ℕ, ◌+◌, ◌^◌, ◌<◌, ◌≤◌, [], ◌++◌, length, map, cond, option_map, IfOk, OnOk};
ghost use Rattle.std.specs.List.{AllByRecursion};
ghost use Rattle.cv_docs.specs.Cut.{scanned};
ghost use Rattle.cv_docs.specs.Entries.{AllEarlier, AreKnown, inserted};
ghost use Rattle.cv_docs.specs.History.{with_all, AreAllowed};
ghost use Rattle.cv_core.specs.Changes.{is_at, changes_at, entry_of, entries_of};
ghost use Rattle.cv_core.specs.Versioned.{rows_of, entries_at, spare_at, shape};

use crate::change::Change;
use crate::table_rows::TableRows;
use cv_docs::{RowIndex, Versions};
use cv_flat::FlatRows;
use cv_keys::{Interval, Schema};
use cv_values::{Doc, Memory};
use std::alloc::Global;
use std::marker::Model;

/// Documents by number, and for each table the rows of its indexes. Contracts see the documents, the
/// number of those that can be added without memory, and the rows.
#[derive(Drop)]
pub(crate) struct Rows {
    docs: Versions,
    count: u64,
    tables: Vec<TableRows<FlatRows>>,
}

impl Model for Rows {
    ghost use Rattle.std.specs.Prelude.{◌≡◌, length};
    ghost use Rattle.cv_core.specs.Versioned.{Versioned, versioned_code};

    ghost Value = { Versioned };

    ghost coded = { versioned_code };

    ghost view = { λ r. record { docs = r.docs.docs; spare = r.docs.spare; tables = r.tables.items } };

    ghost invariant = { λ r. r.count ≡ length r.docs.docs };
}

impl Rows {
    /// No documents, and no rows in any index of the schema.
    pub fn new(alloc: Global, schema: &Schema) -> Result<Rows, Memory>
        ensures docs { IfOk result (λ r. r.docs ≡ []) }
        ensures shape { IfOk result (λ r. shape r.tables ≡ map (λ t. length t.indexes) schema.now.tables) }
        ensures rows { IfOk result (λ r. (table index : ℕ) → entries_at table index r.tables ≡ []) }
    {
        let mut tables = Vec::new(alloc);
        let declared = schema.tables.as_slice();
        for table in declared {
            tables.push(TableRows::new(alloc, table.indexes.as_slice())?)?;
        }
        Ok(Rows {
            docs: Versions::new(alloc),
            count: 0,
            tables,
        })
    }

    /// How many documents there are.
    pub fn len(&self) -> u64
        ensures { result ≡ length self.now.docs }
    {
        self.count
    }

    /// Makes room for so many documents, and in the index of each of these changes for so many entries.
    /// A change of an index that isn't there is refused.
    pub fn reserve(&mut self, docs: usize, each: usize, changes: &[Change]) -> Result<(), Memory>
        ensures docs { self.new.docs ≡ self.old.docs }
        ensures shape { shape self.new.tables ≡ shape self.old.tables }
        ensures rows { (table index : ℕ) → entries_at table index self.new.tables ≡ entries_at table index self.old.tables }
        ensures spare { self.old.spare ≤ self.new.spare }
        ensures spares { (table index : ℕ) → spare_at table index self.old.tables ≤ spare_at table index self.new.tables }
        ensures versions { OnOk result (docs ≤ self.new.spare) }
        ensures room { OnOk result (AllByRecursion (λ c. each ≤ spare_at c.table c.index self.new.tables) changes.now) }
    {
        self.docs.reserve(docs)?;
        reserve_each(&mut self.tables, each, changes)
    }

    /// Adds documents, and makes changes at a timestamp. It takes the documents and the keys over without
    /// a copy, and takes no memory.
    pub fn add(&mut self, ts: u64, docs: Vec<Doc>, changes: Vec<Change>)
        requires numbers { length self.old.docs + length docs.items < 2 ^ 64 }
        requires versions { length docs.items ≤ self.old.spare }
        requires room { (table index : ℕ) → length (changes_at table index changes.items) ≤ spare_at table index self.old.tables }
        requires allowed { (table index : ℕ) → AreAllowed (entries_of ts (changes_at table index changes.items)) (entries_at table index self.old.tables) }
        ensures docs { self.new.docs ≡ self.old.docs ++ docs.items }
        ensures shape { shape self.new.tables ≡ shape self.old.tables }
        ensures rows { (table index : ℕ) → entries_at table index self.new.tables
            ≡ with_all (entries_of ts (changes_at table index changes.items)) (entries_at table index self.old.tables) }
    {
        self.count += docs.len() as u64;
        push_all(&mut self.docs, docs);
        insert_all(&mut self.tables, ts, changes);
    }

    /// Copies of the first rows of an interval at a timestamp, in a direction.
    pub fn scan(
        &self,
        alloc: Global,
        ts: u64,
        i: &Interval,
        desc: bool,
        rows: u32,
        size: u64,
    ) -> Result<Vec<Doc>, Memory>
        requires { AreKnown (length self.now.docs) (entries_at i.now.table i.now.index self.now.tables) }
        ensures { IfOk result (λ ds. ds.items ≡ scanned self.now.docs ts i.now desc rows size (entries_at i.now.table i.now.index self.now.tables)) }
    {
        match rows_at(self.tables.as_slice(), i.table, i.index) {
            None => Ok(Vec::new(alloc)),
            Some(list) => list.scan(alloc, &self.docs, ts, i, desc, rows, size),
        }
    }
}

fn rows_at(tables: &[TableRows<FlatRows>], table: u32, index: u32) -> Option<&FlatRows>
    ensures { option_map (λ r. r.now) result ≡ rows_of table index tables.now }
{
    tables.get(table as usize)?.get(index)
}

fn reserve_each(
    tables: &mut Vec<TableRows<FlatRows>>,
    each: usize,
    changes: &[Change],
) -> Result<(), Memory>
    ensures shape { shape tables.new.items ≡ shape tables.old.items }
    ensures rows { (table index : ℕ) → entries_at table index tables.new.items ≡ entries_at table index tables.old.items }
    ensures spare { (table index : ℕ) → spare_at table index tables.old.items ≤ spare_at table index tables.new.items }
    ensures room { OnOk result (AllByRecursion (λ c. each ≤ spare_at c.table c.index tables.new.items) changes.now) }
{
    for change in changes {
        reserve_one(tables, each, change.table, change.index)?;
    }
    Ok(())
}

// Room for so many entries in the rows of an index.
fn reserve_one(
    tables: &mut Vec<TableRows<FlatRows>>,
    each: usize,
    table: u32,
    index: u32,
) -> Result<(), Memory>
    ensures shape { shape tables.new.items ≡ shape tables.old.items }
    ensures rows { (t i : ℕ) → entries_at t i tables.new.items ≡ entries_at t i tables.old.items }
    ensures spare { (t i : ℕ) → spare_at t i tables.old.items ≤ spare_at t i tables.new.items }
    ensures room { OnOk result (each ≤ spare_at table index tables.new.items) }
{
    let at = table as usize;
    if at >= tables.len() {
        return Err(Memory);
    }
    tables[at].reserve(index, each)
}

// Adds documents in order.
fn push_all(docs: &mut Versions, more: Vec<Doc>)
    requires { length more.items ≤ docs.old.spare }
    ensures { docs.new.docs ≡ docs.old.docs ++ more.items }
{
    for doc in more {
        // The changes were made with these numbers before.
        let _number = docs.push(doc);
    }
}

// Makes changes in order.
fn insert_all(tables: &mut Vec<TableRows<FlatRows>>, ts: u64, changes: Vec<Change>)
    requires room { (table index : ℕ) → length (changes_at table index changes.items) ≤ spare_at table index tables.old.items }
    requires allowed { (table index : ℕ) → AreAllowed (entries_of ts (changes_at table index changes.items)) (entries_at table index tables.old.items) }
    ensures shape { shape tables.new.items ≡ shape tables.old.items }
    ensures rows { (table index : ℕ) → entries_at table index tables.new.items
        ≡ with_all (entries_of ts (changes_at table index changes.items)) (entries_at table index tables.old.items) }
{
    for change in changes {
        insert_one(tables, ts, change);
    }
}

// Makes one change.
fn insert_one(tables: &mut Vec<TableRows<FlatRows>>, ts: u64, change: Change)
    requires room { 0 < spare_at change.table change.index tables.old.items }
    requires later { AllEarlier change.key ts (entries_at change.table change.index tables.old.items) }
    ensures shape { shape tables.new.items ≡ shape tables.old.items }
    ensures rows { (table index : ℕ) → entries_at table index tables.new.items
        ≡ cond (is_at table index change) (inserted (entry_of ts change) (entries_at table index tables.old.items)) (entries_at table index tables.old.items) }
    ensures spare { (table index : ℕ) → spare_at table index tables.old.items ≤ spare_at table index tables.new.items + cond (is_at table index change) 1 0 }
{
    tables[change.table as usize].insert(change.index, change.key, ts, change.version);
}
