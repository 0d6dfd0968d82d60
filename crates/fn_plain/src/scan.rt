//! The rows of an interval, and those of them that a scan consumes.
ghost use Rattle.std.specs.Prelude.{◌≡◌, ◌≤◌, ◌<◌, ◌^◌, ◌-◌, ◌++◌, [], ◌∷◌, length, take, drop, min, true, IfOk, Some, None, option_map};
ghost use Rattle.cv_keys.specs.Intervals.{in_bytes};
ghost use Rattle.cv_keys.specs.Places.{PlaceInterval};
ghost use Rattle.fn_tree.specs.Rows.{placed_in, row_cmp, rows_by, is_within, rows_in, rows_at};
ghost use Rattle.fn_tree.specs.Course.{scan_rows};
ghost use Rattle.fn_tree.specs.Scan.{doc_size, rows_size, passed, is_cut, consumed_after, in_direction, scan_answer, answer};
ghost use Rattle.fn_plain.specs.Scans.{Stands, Scans, part_of, quota_view};

use cv_keys::{Index, Interval, Schema, contains, index_key, keys_keep_order};
use cv_values::{Doc, Memory, Val, size_of};
use fn_tree::{Left, READ_ROWS};
use std::alloc::Global;

/// A quota that a read can pass.
#[derive(Clone, Copy, Debug, PartialEq, Eq)]
pub(crate) enum Quota {
    Cost,
    Rows,
    Size,
    Read,
}

/// What a scan has consumed: its rows, and the interval that they tell of.
#[derive(Drop)]
pub(crate) struct Scanned {
    pub docs: Vec<Doc>,
    pub consumed: Interval,
}

/// Where a document goes among the rows of an index: before the first one that it isn't above.
fn place_among(alloc: Global, index: &Index, rows: &[Doc], doc: &Doc) -> Result<usize, Memory>
    ensures within { IfOk result (λ at. at ≤ length rows.now) }
    ensures placed { IfOk result (λ at. placed_in (row_cmp index.now) doc.now rows.now ≡ take at rows.now ++ doc.now ∷ drop at rows.now) }
{
    keys_keep_order();
    let key = index_key(alloc, doc, index)?;
    for (at, row) in rows.iter().enumerate() {
        let other = index_key(alloc, row, index)?;
        if key <= other {
            return Ok(at);
        }
    }
    Ok(rows.len())
}

/// Whether a document is one of the interval's table and has its place in it.
fn is_within(alloc: Global, index: &Index, i: &Interval, doc: &Doc) -> Result<bool, Memory>
    ensures { (p : PlaceInterval) → Stands p i.now → IfOk result (λ b. b ≡ is_within index.now p doc.now) }
{
    keys_keep_order();
    let key = index_key(alloc, doc, index)?;
    Ok(contains(i, u32::from(doc.id.table), i.index, &key))
}

/// The documents of an interval of an index, put one by one into its order.
fn rows_in(alloc: Global, index: &Index, i: &Interval, docs: &[Doc]) -> Result<Vec<Doc>, Memory>
    ensures { (p : PlaceInterval) → Stands p i.now → IfOk result (λ rows. rows.items ≡ rows_by index.now (is_within index.now p) docs.now) }
{
    let mut rows = Vec::new(alloc);
    let mut left = docs.len();
    while left > 0 {
        left -= 1;
        let doc = &docs[left];
        if is_within(alloc, index, i, doc)? {
            let at = place_among(alloc, index, rows.as_slice(), doc)?;
            rows.insert(at, doc.copy(alloc)?)?;
        }
    }
    Ok(rows)
}

/// The rows of an interval, in the order of the index that it names.
pub(crate) fn rows_at(
    alloc: Global,
    schema: &Schema,
    i: &Interval,
    docs: &[Doc],
) -> Result<Vec<Doc>, Memory>
    ensures { (p : PlaceInterval) → Stands p i.now → IfOk result (λ rows. rows.items ≡ rows_at schema.now p docs.now) }
{
    match schema.index_at(i.table, i.index) {
        None => Ok(Vec::new(alloc)),
        Some(index) => rows_in(alloc, index, i, docs),
    }
}

/// The size units of a document's fields.
pub(crate) fn doc_size(alloc: Global, doc: &Doc) -> Result<u64, Memory>
    ensures { IfOk result (λ n. n ≡ min (doc_size doc.now) (2 ^ 64 - 1)) }
{
    Ok(size_of(&Val::Obj(doc.fields.copy(alloc)?)))
}

/// The first quota that so many rows of this size together pass, if any.
pub(crate) fn passed(left: &Left, rows: u64, size: u64) -> Option<Quota>
    ensures { option_map quota_view result ≡ passed left.now rows size }
{
    if rows > left.cost {
        Some(Quota::Cost)
    } else if rows > left.rows {
        Some(Quota::Rows)
    } else if size > left.size {
        Some(Quota::Size)
    } else if rows > READ_ROWS {
        Some(Quota::Read)
    } else {
        None
    }
}

fn is_cut(limit: Option<u32>, left: &Left, rows: u64, size: u64) -> bool
    ensures { result ≡ is_cut limit left.now rows size }
{
    let reached = match limit {
        None => false,
        Some(limit) => u64::from(limit) <= rows,
    };
    reached || passed(left, rows, size).is_some()
}

/// What has been consumed so far: how many rows, and their size.
#[derive(Clone, Copy)]
pub(crate) struct Taken {
    pub rows: u64,
    pub size: u64,
}

/// How many of the rows are consumed, one after the other, and their size.
fn count_taken(
    alloc: Global,
    rows: &[Doc],
    limit: Option<u32>,
    left: &Left,
) -> Result<Taken, Memory>
    requires room { left.now.size < 2 ^ 62 }
    ensures rows { IfOk result (λ t. t.rows ≡ length (consumed_after limit left.now 0 0 rows.now)) }
    ensures size { IfOk result (λ t. t.size ≡ min (rows_size (consumed_after limit left.now 0 0 rows.now)) (2 ^ 64 - 1)) }
    ensures front { IfOk result (λ t. take t.rows rows.now ≡ consumed_after limit left.now 0 0 rows.now) }
{
    let mut taken = Taken { rows: 0, size: 0 };
    for row in rows {
        if is_cut(limit, left, taken.rows, taken.size) {
            return Ok(taken);
        }
        taken.size = taken.size.saturating_add(doc_size(alloc, row)?);
        taken.rows += 1;
    }
    Ok(taken)
}

/// The part of an interval before the first row of a scan.
fn before_rows(alloc: Global, i: &Interval, desc: bool) -> Result<Interval, Memory>
    ensures { (p : PlaceInterval) → Stands p i.now → IfOk result (λ c. c ≡ in_bytes (part_of None p desc true [])) }
{
    let mut part = i.copy(alloc)?;
    if desc {
        part.lo = i.hi.copy(alloc)?;
    } else {
        part.hi = i.lo.copy(alloc)?;
    }
    Ok(part)
}

/// The part of an interval up to and including a row of a scan.
fn up_to(
    alloc: Global,
    index: &Index,
    i: &Interval,
    desc: bool,
    row: &Doc,
) -> Result<Interval, Memory>
    ensures { (p : PlaceInterval) → Stands p i.now → IfOk result (λ c. c ≡ in_bytes (part_of (Some index.now) p desc true (row.now ∷ []))) }
{
    let key = index_key(alloc, row, index)?;
    let mut part = i.copy(alloc)?;
    if desc {
        part.lo = key;
    } else {
        part.hi = key.past(alloc)?;
    }
    Ok(part)
}

/// The part of an interval that rows tell of: where the scan was cut, up to and including the last of them.
fn part_of(
    alloc: Global,
    index: &Index,
    i: &Interval,
    desc: bool,
    cut: bool,
    rows: &[Doc],
) -> Result<Interval, Memory>
    ensures { (p : PlaceInterval) → Stands p i.now → IfOk result (λ c. c ≡ in_bytes (part_of (Some index.now) p desc cut rows.now)) }
{
    if !cut {
        return i.copy(alloc);
    }
    match rows.last() {
        None => before_rows(alloc, i, desc),
        Some(row) => up_to(alloc, index, i, desc, row),
    }
}

/// Documents in an index's order, turned round where they are read downwards.
fn in_direction(docs: Vec<Doc>, desc: bool) -> Vec<Doc>
    ensures { result.items ≡ in_direction desc docs.items }
{
    let mut docs = docs;
    if desc {
        docs.reverse();
    }
    docs
}

/// A scan of an index that isn't there, which has no rows.
fn scan_nothing(
    alloc: Global,
    i: &Interval,
    desc: bool,
    limit: Option<u32>,
) -> Result<Scanned, Memory>
    ensures { (p : PlaceInterval) (left : Left) → Stands p i.now → IfOk result (λ s. Scans s (scan_answer None [] p desc limit left)) }
{
    let consumed = match limit {
        Some(0) => before_rows(alloc, i, desc)?,
        _ => i.copy(alloc)?,
    };
    Ok(Scanned {
        docs: Vec::new(alloc),
        consumed,
    })
}

/// A scan of an index that is there.
fn scan_index(
    alloc: Global,
    index: &Index,
    docs: &[Doc],
    i: &Interval,
    desc: bool,
    limit: Option<u32>,
    left: &Left,
) -> Result<Scanned, Memory>
    requires room { left.now.size < 2 ^ 62 }
    ensures { (p : PlaceInterval) → Stands p i.now → IfOk result (λ s. Scans s (scan_answer (Some index.now) (rows_in (Some index.now) p docs.now) p desc limit left.now)) }
{
    let mut rows = in_direction(rows_in(alloc, index, i, docs)?, desc);
    let taken = count_taken(alloc, rows.as_slice(), limit, left)?;
    rows.truncate(taken.rows as usize);
    let cut = is_cut(limit, left, taken.rows, taken.size);
    let consumed = part_of(alloc, index, i, desc, cut, rows.as_slice())?;
    Ok(Scanned {
        docs: rows,
        consumed,
    })
}

/// What a scan of an interval consumes of the documents: up to the limit, or until a quota is passed.
pub(crate) fn scan(
    alloc: Global,
    schema: &Schema,
    docs: &[Doc],
    i: &Interval,
    desc: bool,
    limit: Option<u32>,
    left: &Left,
) -> Result<Scanned, Memory>
    requires room { left.now.size < 2 ^ 62 }
    ensures { (p : PlaceInterval) → Stands p i.now → IfOk result (λ s. Scans s (answer schema.now docs.now (scan_rows p desc limit left.now))) }
{
    match schema.index_at(i.table, i.index) {
        None => scan_nothing(alloc, i, desc, limit),
        Some(index) => scan_index(alloc, index, docs, i, desc, limit, left),
    }
}
