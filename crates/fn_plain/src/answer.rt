//! What documents answer to one read of a run.
ghost use Rattle.std.specs.Prelude.{◌<◌, ◌^◌, IfOk};
ghost use Rattle.cv_keys.specs.Places.{PlaceInterval};
ghost use Rattle.fn_tree.specs.Course.{Ask as PlainAsk, get_doc, scan_rows};
ghost use Rattle.fn_tree.specs.Scan.{answer};
ghost use Rattle.fn_plain.specs.Answers.{Asks, Answers, HasRoomLeft};
ghost use Rattle.fn_plain.specs.Scans.{Stands};

use crate::read::{found, id_interval};
use crate::scan::{rows_at, scan};
use cv_keys::{Interval, Schema};
use cv_values::{Doc, DocId, Memory};
use fn_tree::{Answer, Ask, Left};
use std::alloc::Global;

fn answer_get(alloc: Global, schema: &Schema, docs: &[Doc], id: &DocId) -> Result<Answer, Memory>
    ensures { (left : Left) → IfOk result (λ a. Answers a (answer schema.now docs.now (get_doc id.now left))) }
{
    let consumed = id_interval(alloc, id)?;
    let rows = rows_at(alloc, schema, &consumed, docs)?;
    let docs = found(alloc, rows.as_slice(), id)?;
    Ok(Answer { docs, consumed })
}

fn answer_scan(
    alloc: Global,
    schema: &Schema,
    docs: &[Doc],
    i: &Interval,
    desc: bool,
    limit: Option<u32>,
    left: &Left,
) -> Result<Answer, Memory>
    requires room { left.now.size < 2 ^ 62 }
    ensures { (p : PlaceInterval) → Stands p i.now → IfOk result (λ a. Answers a (answer schema.now docs.now (scan_rows p desc limit left.now))) }
{
    let found = scan(alloc, schema, docs, i, desc, limit, left)?;
    Ok(Answer {
        docs: found.docs,
        consumed: found.consumed,
    })
}

/// What these documents answer to a read: the rows that it consumes, and the interval that they tell of.
/// It sorts the documents anew each time.
pub fn answer_of(alloc: Global, schema: &Schema, docs: &[Doc], ask: &Ask) -> Result<Answer, Memory>
    requires room { HasRoomLeft ask.now }
    ensures { (q : PlainAsk) → Asks ask.now q → IfOk result (λ a. Answers a (answer schema.now docs.now q)) }
{
    match ask {
        Ask::Get { id, .. } => answer_get(alloc, schema, docs, id),
        Ask::Scan {
            interval,
            desc,
            limit,
            left,
        } => answer_scan(alloc, schema, docs, interval, *desc, *limit, left),
    }
}
