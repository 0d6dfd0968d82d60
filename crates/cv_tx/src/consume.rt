//! How many rows a scan consumes, and the interval that they tell of.
ghost use Rattle.std.specs.Prelude.{◌≡◌, ◌++◌, [], ◌∷◌, length, take, drop, true, IfOk, Some, None, is_some};
ghost use Rattle.cv_keys.specs.Places.{PlaceInterval};
ghost use Rattle.fn_tree.specs.Scan.{rows_size, passed, is_cut, consumed_after, scan_answer};
ghost use Rattle.cv_tx.specs.Asks.{IsBytesOf, Answers, part_of, scan_of};

use crate::size::{added, doc_size};
use cv_keys::{Index, Interval, index_key};
use cv_values::{Doc, Memory};
use fn_tree::{Answer, Left, READ_ROWS};
use std::alloc::Global;

/// Whether so many rows of this size together pass a quota.
fn is_passed(left: &Left, rows: u64, size: u64) -> bool
    ensures { result ≡ is_some (passed left.now rows size) }
{
    rows > left.cost || rows > left.rows || size > left.size || rows > READ_ROWS
}

/// Whether nothing more is consumed after so many rows of this size together.
fn is_cut(limit: Option<u32>, left: &Left, rows: u64, size: u64) -> bool
    ensures { result ≡ is_cut limit left.now rows size }
{
    let reached = match limit {
        None => false,
        Some(limit) => u64::from(limit) <= rows,
    };
    reached || is_passed(left, rows, size)
}

/// What has been consumed so far: how many rows, and their size.
#[derive(Clone, Copy)]
struct Taken {
    rows: u64,
    size: u64,
}

/// How many of the rows are consumed, one after the other, and their size.
fn count_taken(rows: &[Doc], limit: Option<u32>, left: &Left) -> Result<Taken, Memory>
    ensures rows { IfOk result (λ t. t.rows ≡ length (consumed_after limit left.now 0 0 rows.now)) }
    ensures size { IfOk result (λ t. t.size ≡ rows_size (consumed_after limit left.now 0 0 rows.now)) }
    ensures front { IfOk result (λ t. take t.rows rows.now ≡ consumed_after limit left.now 0 0 rows.now) }
{
    let mut taken = Taken { rows: 0, size: 0 };
    for row in rows {
        if is_cut(limit, left, taken.rows, taken.size) {
            return Ok(taken);
        }
        taken.size = added(taken.size, doc_size(row)?)?;
        taken.rows += 1;
    }
    Ok(taken)
}

/// The part of an interval before the first row of a scan.
fn before_rows(alloc: Global, i: &Interval, desc: bool) -> Result<Interval, Memory>
    ensures { (p : PlaceInterval) → IsBytesOf p i.now → IfOk result (λ c. IsBytesOf (part_of None p desc true []) c) }
{
    let mut part = i.copy(alloc)?;
    if desc {
        part.lo = i.hi.copy(alloc)?;
    } else {
        part.hi = i.lo.copy(alloc)?;
    }
    Ok(part)
}

/// The part of an interval up to and including a row of a scan.
fn up_to(
    alloc: Global,
    index: &Index,
    i: &Interval,
    desc: bool,
    row: &Doc,
) -> Result<Interval, Memory>
    ensures { (p : PlaceInterval) → IsBytesOf p i.now → IfOk result (λ c. IsBytesOf (part_of (Some index.now) p desc true (row.now ∷ [])) c) }
{
    let key = index_key(alloc, row, index)?;
    let mut part = i.copy(alloc)?;
    if desc {
        part.lo = key;
    } else {
        part.hi = key.past(alloc)?;
    }
    Ok(part)
}

/// The part of an interval that rows tell of: where the scan was cut, up to and including the last of them.
fn part_of(
    alloc: Global,
    index: &Index,
    i: &Interval,
    desc: bool,
    cut: bool,
    rows: &[Doc],
) -> Result<Interval, Memory>
    ensures { (p : PlaceInterval) → IsBytesOf p i.now → IfOk result (λ c. IsBytesOf (part_of (Some index.now) p desc cut rows.now) c) }
{
    if !cut {
        return i.copy(alloc);
    }
    match rows.last() {
        None => before_rows(alloc, i, desc),
        Some(row) => up_to(alloc, index, i, desc, row),
    }
}

/// What a scan consumes of rows in its direction.
pub(crate) fn consume(
    alloc: Global,
    index: &Index,
    i: &Interval,
    desc: bool,
    limit: Option<u32>,
    left: &Left,
    rows: Vec<Doc>,
) -> Result<Answer, Memory>
    ensures { (p : PlaceInterval) → IsBytesOf p i.now → IfOk result (λ a. Answers a (scan_of (Some index.now) rows.items p desc limit left.now)) }
{
    let mut rows = rows;
    let taken = count_taken(rows.as_slice(), limit, left)?;
    rows.truncate(taken.rows as usize);
    let cut = is_cut(limit, left, taken.rows, taken.size);
    let consumed = part_of(alloc, index, i, desc, cut, rows.as_slice())?;
    Ok(Answer {
        docs: rows,
        consumed,
    })
}
