//! The rows of an interval with writes laid over them.
ghost use Rattle.std.specs.Prelude.{◌≡◌, ◌≤◌, ◌++◌, ◌∷◌, length, take, drop, IfOk, OnOk};
ghost use Rattle.cv_keys.specs.Places.{PlaceInterval};
ghost use Rattle.fn_tree.specs.Documents.{without_id};
ghost use Rattle.fn_tree.specs.Rows.{is_within};
ghost use Rattle.cv_tx.specs.Asks.{IsBytesOf};
ghost use Rattle.cv_tx.specs.Merged.{key_behind, goes_behind, put_among, with_row, with_write, with_writes};

use cv_keys::{Index, Interval, Key, Write, contains, index_key, keys_keep_order};
use cv_values::{Doc, DocId, Memory};
use std::alloc::Global;

/// Whether a document is one of the interval's table and has its place in it.
fn is_within(alloc: Global, index: &Index, i: &Interval, doc: &Doc) -> Result<bool, Memory>
    ensures { (p : PlaceInterval) → IsBytesOf p i.now → IfOk result (λ b. b ≡ is_within index.now p doc.now) }
{
    if u32::from(doc.id.table) != i.table {
        return Ok(false);
    }
    keys_keep_order();
    let key = index_key(alloc, doc, index)?;
    Ok(contains(i, u32::from(doc.id.table), i.index, &key))
}

/// Whether a key goes behind another: it is above it, or upside down it isn't.
fn key_behind(desc: bool, key: &Key, other: &Key) -> bool
    ensures { result ≡ key_behind desc key.now other.now }
{
    if desc { key <= other } else { key > other }
}

/// Where a document goes among rows: before the first that it doesn't go behind.
fn place_among(
    alloc: Global,
    index: &Index,
    desc: bool,
    rows: &[Doc],
    doc: &Doc,
) -> Result<usize, Memory>
    ensures within { IfOk result (λ at. at ≤ length rows.now) }
    ensures placed { IfOk result (λ at. put_among (goes_behind index.now desc) doc.now rows.now ≡ take at rows.now ++ doc.now ∷ drop at rows.now) }
{
    keys_keep_order();
    let key = index_key(alloc, doc, index)?;
    for (at, row) in rows.iter().enumerate() {
        let other = index_key(alloc, row, index)?;
        if !key_behind(desc, &key, &other) {
            return Ok(at);
        }
    }
    Ok(rows.len())
}

/// Puts the new document of a write, if there is one, among rows, where it lies in the interval.
fn add_new(
    alloc: Global,
    index: &Index,
    i: &Interval,
    desc: bool,
    rows: &mut Vec<Doc>,
    new: &Option<Doc>,
) -> Result<(), Memory>
    ensures { (p : PlaceInterval) → IsBytesOf p i.now → OnOk result (rows.new.items ≡ with_row index.now p desc new.now rows.old.items) }
{
    // Three returns, since what holds of each branch is lost where they join.
    if let Some(doc) = new {
        if is_within(alloc, index, i, doc)? {
            let at = place_among(alloc, index, desc, rows.as_slice(), doc)?;
            rows.insert(at, doc.copy(alloc)?)?;
            return Ok(());
        }
        return Ok(());
    }
    Ok(())
}

/// Takes the document of an id away.
fn remove_id(rows: &mut Vec<Doc>, id: &DocId)
    ensures { rows.new.items ≡ without_id id.now rows.old.items }
{
    rows.retain(|row| *id != row.id);
}

/// Lays a write over rows. One of another table changes none.
fn lay(
    alloc: Global,
    index: &Index,
    i: &Interval,
    desc: bool,
    rows: &mut Vec<Doc>,
    w: &Write,
) -> Result<(), Memory>
    ensures { (p : PlaceInterval) → IsBytesOf p i.now → OnOk result (rows.new.items ≡ with_write index.now p desc w.now rows.old.items) }
{
    if u32::from(w.id.table) != i.table {
        return Ok(());
    }
    remove_id(rows, &w.id);
    add_new(alloc, index, i, desc, rows, &w.new)?;
    Ok(())
}

/// The rows of an interval, in a direction, with writes laid over them one after the other.
pub(crate) fn overlaid(
    alloc: Global,
    index: &Index,
    i: &Interval,
    desc: bool,
    rows: Vec<Doc>,
    writes: &[Write],
) -> Result<Vec<Doc>, Memory>
    ensures { (p : PlaceInterval) → IsBytesOf p i.now → IfOk result (λ rs. rs.items ≡ with_writes index.now p desc writes.now rows.items) }
{
    let mut rows = rows;
    for w in writes {
        lay(alloc, index, i, desc, &mut rows, w)?;
    }
    Ok(rows)
}
