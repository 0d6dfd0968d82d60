//! The answer to a read of a run, from what the store read and the pending writes.
ghost use Rattle.std.specs.Prelude.{◌≡◌, ◌+◌, Some, IfOk, option_map};
ghost use Rattle.cv_keys.specs.Places.{PlaceInterval};
ghost use Rattle.fn_tree.specs.Course.{Ask as Asked};
ghost use Rattle.fn_tree.specs.Documents.{Docs, doc_of, applied};
ghost use Rattle.fn_tree.specs.Rows.{rows_in, rows_at};
ghost use Rattle.fn_tree.specs.Scan.{in_direction, found, id_interval, scan_answer, answer};
ghost use Rattle.cv_store.specs.Reads.{cut, read_from};
ghost use Rattle.cv_tx.specs.Asks.{IsBytesOf, Stands, IsIndexed, IsProgramSchema, Answers};
ghost use Rattle.cv_tx.specs.Pending.{HasDistinctIds, AreTrue, new_of};
ghost use Rattle.cv_tx.specs.Plans.{most_rows, removed_rows, removed_size, plan_of};

use crate::consume::consume;
use crate::overlay::overlaid;
use cv_keys::{Index, Interval, Schema, Write, key_of};
use cv_values::{Copied, Doc, DocId, Memory, Val, id_text};
use fn_tree::{Answer, Ask, Left};
use std::alloc::Global;

/// All that begins with the id's text in `by_id`.
fn id_interval(alloc: Global, id: &DocId) -> Result<Interval, Memory>
    ensures { IfOk result (λ i. IsBytesOf (id_interval id.now) i) }
{
    let lo = key_of(alloc, &Val::Str(id_text(alloc, id)?))?;
    let hi = lo.past(alloc)?;
    Ok(Interval {
        table: u32::from(id.table),
        index: 0,
        lo,
        hi,
    })
}

/// The last of some writes that is one of an id.
fn last_write<'a>(writes: &'a [Write], id: &DocId) -> Option<&'a Write>
    ensures { option_map (λ w. w.now.new) result ≡ new_of id.now writes.now }
{
    let mut last = None;
    for w in writes {
        if *id == w.id {
            last = Some(w);
        }
    }
    last
}

/// A copy of a document, alone, or nothing where there is none.
fn found(alloc: Global, doc: &Option<Doc>) -> Result<Vec<Doc>, Memory>
    ensures { IfOk result (λ ds. ds.items ≡ found doc.now) }
{
    let mut docs = Vec::new(alloc);
    if let Some(doc) = doc {
        docs.push(doc.copy(alloc)?)?;
    }
    Ok(docs)
}

/// The document of an id after the writes, from the one at the snapshot.
fn doc_after(
    alloc: Global,
    schema: &Schema,
    writes: &[Write],
    id: &DocId,
    rows: Vec<Doc>,
) -> Result<Vec<Doc>, Memory>
    ensures { IsProgramSchema schema.now → (ds : Docs) → AreTrue ds writes.now → rows.items ≡ found (doc_of id.now ds) → IfOk result (λ r. r.items ≡ found (doc_of id.now (rows_at schema.now (id_interval id.now) (applied writes.now ds)))) }
{
    match schema.index_at(u32::from(id.table), 0) {
        None => Ok(Vec::new(alloc)),
        Some(_) => match last_write(writes, id) {
            None => Ok(rows),
            Some(w) => found(alloc, &w.new),
        },
    }
}

/// What a scan consumes of the documents with the writes, from the planned rows of the snapshot.
fn scan(
    alloc: Global,
    index: &Index,
    writes: &[Write],
    i: &Interval,
    desc: bool,
    limit: Option<u32>,
    left: &Left,
    rows: Vec<Doc>,
) -> Result<Answer, Memory>
    ensures { (p : PlaceInterval) (ds : Docs) → IsBytesOf p i.now → HasDistinctIds ds → AreTrue ds writes.now → rows.items ≡ cut (most_rows limit left.now + removed_rows p.table writes.now) (left.now.size + removed_size p.table writes.now) (in_direction desc (rows_in (Some index.now) p ds)) → IfOk result (λ a. Answers a (scan_answer (Some index.now) (rows_in (Some index.now) p (applied writes.now ds)) p desc limit left.now)) }
{
    let rows = overlaid(alloc, index, i, desc, rows, writes)?;
    consume(alloc, index, i, desc, limit, left, rows)
}

/// The answer to a read of the documents with the writes, from what the planned read of the snapshot gave.
pub(crate) fn answer_from(
    alloc: Global,
    schema: &Schema,
    writes: &[Write],
    ask: &Ask,
    rows: Vec<Doc>,
) -> Result<Answer, Memory>
    requires { IsIndexed schema.now ask.now }
    ensures { IsProgramSchema schema.now → (q : Asked) (ds : Docs) → Stands ask.now q → HasDistinctIds ds → AreTrue ds writes.now → rows.items ≡ read_from schema.now ds (plan_of writes.now q) → IfOk result (λ a. Answers a (answer schema.now (applied writes.now ds) q)) }
{
    match ask {
        Ask::Get { id, left: _ } => {
            let consumed = id_interval(alloc, id)?;
            let docs = doc_after(alloc, schema, writes, id, rows)?;
            Ok(Answer { docs, consumed })
        }
        Ask::Scan {
            interval,
            desc,
            limit,
            left,
        } => match schema.index_at(interval.table, interval.index) {
            // Runs ask for no index that isn't there.
            None => unreachable!(),
            Some(index) => scan(alloc, index, writes, interval, *desc, *limit, left, rows),
        },
    }
}
