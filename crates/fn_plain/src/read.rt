//! One read of a run: by an id, or of the rows of an interval.
ghost use Rattle.std.specs.Prelude.{◌≡◌, ◌<◌, ◌^◌, ◌-◌, ℕ, min, map, Some, IfOk, IfErr};
ghost use Rattle.cv_values.specs.Docs.{doc_value};
ghost use Rattle.cv_values.specs.Trees.{tree};
ghost use Rattle.cv_keys.specs.Documents.{index_at};
ghost use Rattle.cv_keys.specs.Places.{Place, PlaceInterval};
ghost use Rattle.cv_keys.specs.Ranges.{lower_end, upper_end};
ghost use Rattle.cv_keys.specs.declared.schema.Index.{Index as KeyIndex};
ghost use Rattle.fn_tree.specs.Actions.{quota_text};
ghost use Rattle.fn_tree.specs.Course.{Ask, scan_rows, get_doc};
ghost use Rattle.fn_tree.specs.Documents.{doc_of};
ghost use Rattle.fn_tree.specs.Scan.{rows_size, id_interval, found};
ghost use Rattle.fn_tree.specs.Reading.{counted, read, id_in, as_id, first_of, doc_at, doc_or_null, get_value, limit_of, equals_of, lower_of, upper_of, has_bound, has_fields, interval_of, scan_value};
ghost use Rattle.fn_check.specs.Rooms.{HasRoom};
ghost use Rattle.fn_plain.specs.Scans.{Stands, StandsFor, Answered, left_by, left_in, bounded_in, quota_view};
ghost use Rattle.fn_plain.specs.Scopes.{bounds_view};
ghost use Rattle.fn_plain.specs.States.{IsWithin, Gives, Fails, site_at};

use crate::context::{Context, Counts, Limits, Progress};
use crate::documents::{doc_of, with_puts};
use crate::fault::{Fault, failure};
use crate::operator::given;
use crate::scan::{Quota, doc_size, passed, rows_at, scan};
use crate::scope::{index_number, table_number};
use cv_keys::{Bound, Index, Interval, Range, Schema, key_of};
use cv_values::{Doc, DocId, Memory, Text, Val, Vals, doc_value, id_text, read_id};
use fn_ops::made;
use fn_tree::{CompareOp, Left};
use std::alloc::Global;

/// What a passed quota says.
fn quota_text(quota: Quota) -> &'static str
    ensures { result.now ≡ quota_text (quota_view quota) }
{
    match quota {
        Quota::Cost => "CostLimit",
        Quota::Rows => "RowLimit",
        Quota::Size => "ReadLimit",
        Quota::Read => "TooMany",
    }
}

/// What is left of the quotas of rows.
fn left_of(limits: &Limits, counts: &Counts) -> Left
    ensures { result ≡ left_by limits.now counts.now }
{
    Left {
        cost: limits.cost.saturating_sub(counts.cost),
        rows: limits.rows.saturating_sub(counts.rows),
        size: limits.size.saturating_sub(counts.size),
    }
}

/// The size units of the fields of some documents.
fn rows_size(alloc: Global, rows: &[Doc]) -> Result<u64, Memory>
    ensures { IfOk result (λ n. n ≡ min (rows_size rows.now) (2 ^ 64 - 1)) }
{
    let mut size: u64 = 0;
    for row in rows {
        size = size.saturating_add(doc_size(alloc, row)?);
    }
    Ok(size)
}

/// Counts the rows of a read. A quota that they pass ends the run.
fn count_rows(
    context: &Context,
    progress: &mut Progress,
    left: &Left,
    rows: &[Doc],
) -> Result<(), Fault>
    requires within { IsWithin 0 context.now progress.now.counts }
    requires left_is { left.now ≡ left_in context.now progress.now.counts }
    ensures ok { IfOk result (λ u. Gives context.now progress.old progress.new (counted left.now rows.now) rows.now) }
    ensures err { IfErr result (λ f. Fails context.now progress.old progress.new (counted left.now rows.now) f) }
{
    let size = rows_size(context.alloc, rows)?;
    let count = rows.len() as u64;
    progress.counts.cost += count;
    progress.counts.rows += count;
    progress.counts.size = progress.counts.size.saturating_add(size);
    match passed(left, count, size) {
        None => Ok(()),
        Some(quota) => Err(failure(context.alloc, quota_text(quota))),
    }
}

/// Records one read with the rows that it consumed.
fn record_read(
    context: &Context,
    progress: &mut Progress,
    left: &Left,
    consumed: Interval,
    rows: &[Doc],
) -> Result<(), Fault>
    requires within { IsWithin 0 context.now progress.now.counts }
    requires left_is { left.now ≡ left_in context.now progress.now.counts }
    requires ranges { progress.now.counts.ranges < context.now.limits.ranges }
    ensures ok { (n : ℕ) (question : Left → Ask) → Answered context.now progress.old (question left.now) rows.now consumed → IfOk result (λ u. Gives context.now progress.old progress.new (read (site_at context.now n) question) rows.now) }
    ensures err { (n : ℕ) (question : Left → Ask) → Answered context.now progress.old (question left.now) rows.now consumed → IfErr result (λ f. Fails context.now progress.old progress.new (read (site_at context.now n) question) f) }
{
    progress.reads.push(consumed)?;
    progress.counts.ranges += 1;
    count_rows(context, progress, left, rows)
}

/// The rows of one read of an interval.
pub(crate) fn read_rows(
    context: &Context,
    progress: &mut Progress,
    i: &Interval,
    desc: bool,
    limit: Option<u32>,
) -> Result<Vec<Doc>, Fault>
    requires within { IsWithin 0 context.now progress.now.counts }
    ensures ok { (n : ℕ) (p : PlaceInterval) → Stands p i.now → IfOk result (λ ds. Gives context.now progress.old progress.new (read (site_at context.now n) (scan_rows p desc limit)) ds.items) }
    ensures err { (n : ℕ) (p : PlaceInterval) → Stands p i.now → IfErr result (λ f. Fails context.now progress.old progress.new (read (site_at context.now n) (scan_rows p desc limit)) f) }
{
    if progress.counts.ranges >= context.limits.ranges {
        return Err(failure(context.alloc, "RangeLimit"));
    }
    let left = left_of(&context.limits, &progress.counts);
    let docs = with_puts(context.alloc, context.base, progress.puts.as_slice())?;
    let found = scan(
        context.alloc,
        context.schema,
        docs.as_slice(),
        i,
        desc,
        limit,
        &left,
    )?;
    record_read(
        context,
        progress,
        &left,
        found.consumed,
        found.docs.as_slice(),
    )?;
    Ok(found.docs)
}

/// All that begins with the id's text in `by_id`.
pub(crate) fn id_interval(alloc: Global, id: &DocId) -> Result<Interval, Memory>
    ensures { IfOk result (λ i. Stands (id_interval id.now) i) }
{
    let lo = key_of(alloc, &Val::Str(id_text(alloc, id)?))?;
    let hi = lo.past(alloc)?;
    Ok(Interval {
        table: u32::from(id.table),
        index: 0,
        lo,
        hi,
    })
}

/// The document of an id among rows, alone.
pub(crate) fn found(alloc: Global, rows: &[Doc], id: &DocId) -> Result<Vec<Doc>, Memory>
    ensures { IfOk result (λ ds. ds.items ≡ found (doc_of id.now rows.now)) }
{
    let mut found = Vec::new(alloc);
    if let Some(doc) = doc_of(rows, id) {
        found.push(doc.copy(alloc)?)?;
    }
    Ok(found)
}

/// The first of some documents, if there is one.
fn first_of(docs: Vec<Doc>) -> Option<Doc>
    ensures { result ≡ first_of docs.items }
{
    let mut docs = docs;
    if docs.is_empty() {
        return None;
    }
    Some(docs.remove(0))
}

/// The document of an id, which is one read.
pub(crate) fn doc_at(
    context: &Context,
    progress: &mut Progress,
    id: &DocId,
) -> Result<Option<Doc>, Fault>
    requires within { IsWithin 0 context.now progress.now.counts }
    ensures ok { (n : ℕ) → IfOk result (λ d. Gives context.now progress.old progress.new (doc_at (site_at context.now n) id.now) d) }
    ensures err { (n : ℕ) → IfErr result (λ f. Fails context.now progress.old progress.new (doc_at (site_at context.now n) id.now) f) }
{
    if progress.counts.ranges >= context.limits.ranges {
        return Err(failure(context.alloc, "RangeLimit"));
    }
    let left = left_of(&context.limits, &progress.counts);
    let docs = with_puts(context.alloc, context.base, progress.puts.as_slice())?;
    let i = id_interval(context.alloc, id)?;
    let rows = rows_at(context.alloc, context.schema, &i, docs.as_slice())?;
    let docs = found(context.alloc, rows.as_slice(), id)?;
    record_read(context, progress, &left, i, docs.as_slice())?;
    Ok(first_of(docs))
}

/// An id whose table is in the module.
fn id_in(schema: &Schema, id: Option<DocId>) -> Option<DocId>
    ensures { result ≡ id_in schema.now id }
{
    let id = id?;
    if usize::from(id.table) < schema.tables.as_slice().len() {
        Some(id)
    } else {
        None
    }
}

pub(crate) fn as_id(context: &Context, progress: &Progress, v: &Val) -> Result<DocId, Fault>
    requires within { IsWithin 0 context.now progress.now.counts }
    ensures ok { (n : ℕ) → IfOk result (λ id. Gives context.now progress.now progress.now (as_id (site_at context.now n) (tree v.now)) id) }
    ensures err { (n : ℕ) → IfErr result (λ f. Fails context.now progress.now progress.now (as_id (site_at context.now n) (tree v.now)) f) }
{
    let Val::Str(text) = v else {
        return Err(failure(context.alloc, "TypeError"));
    };
    match id_in(context.schema, read_id(text)) {
        Some(id) => Ok(id),
        None => Err(failure(context.alloc, "BadId")),
    }
}

/// The object of a document, or null where there is none.
fn doc_or_null(alloc: Global, doc: Option<Doc>) -> Result<Val, Memory>
    ensures { IfOk result (λ v. tree v ≡ doc_or_null doc) }
{
    match doc {
        None => Ok(Val::Null),
        Some(doc) => doc_value(alloc, &doc),
    }
}

/// `get`: the object of an id's document, or null.
pub(crate) fn get_value(context: &Context, progress: &mut Progress, v: &Val) -> Result<Val, Fault>
    requires within { IsWithin 0 context.now progress.now.counts }
    ensures ok { (n : ℕ) → IfOk result (λ w. Gives context.now progress.old progress.new (get_value (site_at context.now n) (tree v.now)) (tree w)) }
    ensures err { (n : ℕ) → IfErr result (λ f. Fails context.now progress.old progress.new (get_value (site_at context.now n) (tree v.now)) f) }
{
    let id = as_id(context, progress, v)?;
    let doc = doc_at(context, progress, &id)?;
    let found = doc_or_null(context.alloc, doc)?;
    given(context.alloc, made(found))
}

/// How many rows to take, where it isn't above the greatest number of 32 bits.
pub(crate) fn limit_of(
    context: &Context,
    progress: &Progress,
    v: &Val,
) -> Result<Option<u32>, Fault>
    requires within { IsWithin 0 context.now progress.now.counts }
    ensures ok { IfOk result (λ l. Gives context.now progress.now progress.now (limit_of (tree v.now)) l) }
    ensures err { IfErr result (λ f. Fails context.now progress.now progress.now (limit_of (tree v.now)) f) }
{
    match v {
        Val::Int(n) if *n < 0 => Err(failure(context.alloc, "OutOfRange")),
        Val::Int(n) => Ok(u32::try_from(*n).ok()),
        _ => Err(failure(context.alloc, "TypeError")),
    }
}

/// The values that the first fields are equal to.
fn equals_of(alloc: Global, bounds: &[(CompareOp, Val)]) -> Result<Vals, Memory>
    ensures { IfOk result (λ vs. map Some vs ≡ equals_of (bounds_view bounds.now)) }
{
    let mut equals = Vals::new(alloc);
    for (op, v) in bounds {
        match op {
            CompareOp::Equal => equals.push(v.copy(alloc)?)?,
            _ => {}
        }
    }
    Ok(equals)
}

/// The lower bound, if there is one.
fn lower_of(alloc: Global, bounds: &[(CompareOp, Val)]) -> Result<Bound, Memory>
    ensures { IfOk result (λ b. (p : Place) → lower_end p b ≡ lower_of p (bounds_view bounds.now)) }
{
    for (op, v) in bounds {
        match op {
            CompareOp::Greater => return Ok(Bound::Excluding(v.copy(alloc)?)),
            CompareOp::GreaterEqual => return Ok(Bound::Including(v.copy(alloc)?)),
            _ => {}
        }
    }
    Ok(Bound::None)
}

/// The upper bound, if there is one.
fn upper_of(alloc: Global, bounds: &[(CompareOp, Val)]) -> Result<Bound, Memory>
    ensures { IfOk result (λ b. (p : Place) → upper_end p b ≡ upper_of p (bounds_view bounds.now)) }
{
    for (op, v) in bounds {
        match op {
            CompareOp::Less => return Ok(Bound::Excluding(v.copy(alloc)?)),
            CompareOp::LessEqual => return Ok(Bound::Including(v.copy(alloc)?)),
            _ => {}
        }
    }
    Ok(Bound::None)
}

/// Whether one of the bounds is no equality.
fn has_bound(bounds: &[(CompareOp, Val)]) -> bool
    ensures { result ≡ has_bound (bounds_view bounds.now) }
{
    for (op, _v) in bounds {
        match op {
            CompareOp::Equal => {}
            _ => return true,
        }
    }
    false
}

/// An index has a field for each equality, and one more for the other bounds.
fn has_fields(index: &Index, equals: &Vals, bounds: &[(CompareOp, Val)]) -> bool
    requires equals_are { map Some equals.now ≡ equals_of (bounds_view bounds.now) }
    ensures { result ≡ has_fields index.now (bounds_view bounds.now) }
{
    let fields = index.fields.as_slice().len();
    let equals = equals.as_slice().len();
    if has_bound(bounds) {
        equals < fields
    } else {
        equals <= fields
    }
}

/// The interval that the bounds leave of an index, where it has as many fields.
fn bounded(
    alloc: Global,
    schema: &Schema,
    table: u32,
    index: u32,
    bounds: &[(CompareOp, Val)],
) -> Result<Option<Interval>, Memory>
    ensures { (order : KeyIndex) → index_at schema.now table index ≡ Some order → IfOk result (λ i. StandsFor (bounded_in order table index (bounds_view bounds.now)) i) }
{
    let Some(order) = schema.index_at(table, index) else {
        return Ok(None);
    };
    let equal = equals_of(alloc, bounds)?;
    if !has_fields(order, &equal, bounds) {
        return Ok(None);
    }
    let range = Range {
        table,
        index,
        equal,
        lower: lower_of(alloc, bounds)?,
        upper: upper_of(alloc, bounds)?,
    };
    Ok(Some(range.interval(alloc)?))
}

/// The interval of a scan, where the schema has the table and the index, with as many fields.
fn interval_at(
    alloc: Global,
    schema: &Schema,
    table: &Text,
    index: &Text,
    bounds: &[(CompareOp, Val)],
) -> Result<Option<Interval>, Memory>
    requires room { HasRoom schema.now }
    ensures { IfOk result (λ i. StandsFor (interval_of schema.now table.now index.now (bounds_view bounds.now)) i) }
{
    let Some(at) = table_number(schema, table) else {
        return Ok(None);
    };
    let Some(found) = schema.tables.as_slice().get(at) else {
        return Ok(None);
    };
    let Some(number) = index_number(found, index) else {
        return Ok(None);
    };
    if number >= found.indexes.as_slice().len() {
        return Ok(None);
    }
    bounded(alloc, schema, at as u32, number as u32, bounds)
}

/// The objects of documents.
fn objects_of(alloc: Global, docs: &[Doc]) -> Result<Vals, Memory>
    ensures { IfOk result (λ vs. vs ≡ map doc_value docs.now) }
{
    let mut objects = Vals::new(alloc);
    for doc in docs {
        objects.push(doc_value(alloc, doc)?)?;
    }
    Ok(objects)
}

/// `scan`: the array of the objects of an interval's rows.
pub(crate) fn scan_value(
    context: &Context,
    progress: &mut Progress,
    table: &Text,
    index: &Text,
    bounds: Vec<(CompareOp, Val)>,
    desc: bool,
    limit: Option<u32>,
) -> Result<Val, Fault>
    requires within { IsWithin 0 context.now progress.now.counts }
    ensures ok { (n : ℕ) → IfOk result (λ w. Gives context.now progress.old progress.new (scan_value (site_at context.now n) table.now index.now (bounds_view bounds.items) desc limit) (tree w)) }
    ensures err { (n : ℕ) → IfErr result (λ f. Fails context.now progress.old progress.new (scan_value (site_at context.now n) table.now index.now (bounds_view bounds.items) desc limit) f) }
{
    let Some(i) = interval_at(
        context.alloc,
        context.schema,
        table,
        index,
        bounds.as_slice(),
    )?
    else {
        return Err(failure(context.alloc, "TypeError"));
    };
    let rows = read_rows(context, progress, &i, desc, limit)?;
    let objects = objects_of(context.alloc, rows.as_slice())?;
    given(context.alloc, made(Val::Arr(objects)))
}
