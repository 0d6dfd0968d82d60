//! The marks of writes.
ghost use Rattle.std.specs.Prelude.{◌≡◌, ◌++◌, IfOk, OnOk};
ghost use Rattle.cv_store.specs.Marks.{index_marks, write_marks, writes_marks};
ghost use Rattle.cv_core.specs.Changes.{marks_in};

use cv_keys::{Index, Schema, Write, index_key};
use cv_reads::Mark;
use cv_values::{Doc, Memory};
use std::alloc::Global;

/// The marks of an entry's writes at a timestamp.
pub(crate) fn marks_of(
    alloc: Global,
    schema: &Schema,
    ts: u64,
    writes: &[Write],
) -> Result<Vec<Mark>, Memory>
    ensures { IfOk result (λ ms. ms.items ≡ writes_marks schema.now ts 0 writes.now) }
{
    let mut marks = Vec::new(alloc);
    for (at, w) in writes.iter().enumerate() {
        let number = u32::try_from(at).or(Err(Memory))?;
        push_write(alloc, &mut marks, schema, ts, number, w)?;
    }
    Ok(marks)
}

// Those of a write: of its old document, then of its new one.
fn push_write(
    alloc: Global,
    marks: &mut Vec<Mark>,
    schema: &Schema,
    ts: u64,
    number: u32,
    w: &Write,
) -> Result<(), Memory>
    ensures { OnOk result (marks.new.items ≡ marks.old.items ++ write_marks schema.now ts number w.now) }
{
    let table = u32::from(w.id.table);
    let indexes = schema.indexes_of(table);
    push_doc(alloc, marks, ts, number, false, table, &w.old, indexes)?;
    push_doc(alloc, marks, ts, number, true, table, &w.new, indexes)
}

// Those of a document, if there is one: its key in each of these indexes.
fn push_doc(
    alloc: Global,
    marks: &mut Vec<Mark>,
    ts: u64,
    write: u32,
    fresh: bool,
    table: u32,
    doc: &Option<Doc>,
    indexes: &[Index],
) -> Result<(), Memory>
    ensures { OnOk result (marks.new.items ≡ marks.old.items ++ marks_in ts write fresh table doc.now indexes.now) }
{
    match doc {
        None => Ok(()),
        Some(doc) => push_keys(alloc, marks, ts, write, fresh, table, doc, indexes),
    }
}

fn push_keys(
    alloc: Global,
    marks: &mut Vec<Mark>,
    ts: u64,
    write: u32,
    fresh: bool,
    table: u32,
    doc: &Doc,
    indexes: &[Index],
) -> Result<(), Memory>
    ensures { OnOk result (marks.new.items ≡ marks.old.items ++ index_marks ts write fresh table doc.now 0 indexes.now) }
{
    for (at, index) in indexes.iter().enumerate() {
        let number = u32::try_from(at).or(Err(Memory))?;
        marks.push(Mark {
            ts,
            write,
            fresh,
            table,
            index: number,
            key: index_key(alloc, doc, index)?,
        })?;
    }
    Ok(())
}

/// Adds copies of marks.
pub(crate) fn push_copies(alloc: Global, marks: &mut Vec<Mark>, more: &[Mark]) -> Result<(), Memory>
    ensures { OnOk result (marks.new.items ≡ marks.old.items ++ more.now) }
{
    for mark in more {
        marks.push(copy_mark(alloc, mark)?)?;
    }
    Ok(())
}

fn copy_mark(alloc: Global, mark: &Mark) -> Result<Mark, Memory>
    ensures { IfOk result (λ m. m ≡ mark.now) }
{
    Ok(Mark {
        ts: mark.ts,
        write: mark.write,
        fresh: mark.fresh,
        table: mark.table,
        index: mark.index,
        key: mark.key.copy(alloc)?,
    })
}
