//! What writes change in the rows of indexes.
ghost use Rattle.std.specs.Prelude.{◌≡◌, [], ◌++◌, IfOk, OnOk, Some};
ghost use Rattle.std.specs.List.{AllByRecursion};
ghost use Rattle.cv_values.specs.IdLaws.{IsId};
ghost use Rattle.cv_keys.specs.Touch.{DocInRange};
ghost use Rattle.fn_tree.specs.Documents.{and_doc};
ghost use Rattle.cv_store.specs.Ranges.{DocsInRange};
ghost use Rattle.cv_core.specs.Changes.{has_key, gone, put, changes_in, write_changes, next_version, changes_of, new_docs, WriteFits};

use cv_keys::{Index, Key, Schema, Write, index_key};
use cv_values::{Doc, Memory};
use std::alloc::Global;

/// What stands at a key of an index from a timestamp on: the version with this number, or nothing.
#[derive(Drop)]
pub(crate) struct Change {
    pub table: u32,
    pub index: u32,
    pub key: Key,
    pub version: Option<u64>,
}

/// The changes of writes, whose new documents are numbered from `first` on.
pub(crate) fn changes_of(
    alloc: Global,
    schema: &Schema,
    first: u64,
    writes: &[Write],
) -> Result<Vec<Change>, Memory>
    ensures changes { IfOk result (λ cs. cs.items ≡ changes_of schema.now first writes.now) }
    ensures fits { OnOk result (AllByRecursion (WriteFits schema.now) writes.now) }
{
    let mut changes = Vec::new(alloc);
    let mut version = first;
    for w in writes {
        push_write(alloc, &mut changes, schema, version, w)?;
        version = next_version(version, &w.new)?;
    }
    Ok(changes)
}

/// Copies of the new documents of writes.
pub(crate) fn new_docs(alloc: Global, writes: &[Write]) -> Result<Vec<Doc>, Memory>
    ensures { IfOk result (λ ds. ds.items ≡ new_docs writes.now) }
{
    let mut docs = Vec::new(alloc);
    for w in writes {
        push_doc(alloc, &mut docs, &w.new)?;
    }
    Ok(docs)
}

fn push_doc(alloc: Global, docs: &mut Vec<Doc>, doc: &Option<Doc>) -> Result<(), Memory>
    ensures { OnOk result (docs.new.items ≡ docs.old.items ++ and_doc doc.now []) }
{
    match doc {
        None => Ok(()),
        Some(doc) => Ok(docs.push(doc.copy(alloc)?)?),
    }
}

// The number after that of a new document, if there is one.
fn next_version(version: u64, new: &Option<Doc>) -> Result<u64, Memory>
    ensures { IfOk result (λ n. n ≡ next_version version new.now) }
{
    match new {
        None => Ok(version),
        Some(_) => version.checked_add(1).ok_or(Memory),
    }
}

// The changes of one write. One of a table that isn't there comes of no run, and is refused.
fn push_write(
    alloc: Global,
    changes: &mut Vec<Change>,
    schema: &Schema,
    version: u64,
    w: &Write,
) -> Result<(), Memory>
    ensures changes { OnOk result (changes.new.items ≡ changes.old.items ++ write_changes schema.now version w.now) }
    ensures fits { OnOk result (WriteFits schema.now w.now) }
{
    let table = u32::from(w.id.table);
    if table as usize >= schema.tables.as_slice().len() {
        return Err(Memory);
    }
    know_id(w.id.table, w.id.session, w.id.request, w.id.ordinal);
    push_in(
        alloc,
        changes,
        table,
        version,
        &w.old,
        &w.new,
        schema.indexes_of(table),
    )
}

/// Numbers of these types fit an id.
pub(crate) fn know_id(table: u16, session: u128, request: u32, ordinal: u16)
    ensures { IsId (record { table = table; session = session; request = request; ordinal = ordinal }) }
{}

// The changes of a write in the indexes of its table.
fn push_in(
    alloc: Global,
    changes: &mut Vec<Change>,
    table: u32,
    version: u64,
    old: &Option<Doc>,
    new: &Option<Doc>,
    indexes: &[Index],
) -> Result<(), Memory>
    ensures changes { OnOk result (changes.new.items ≡ changes.old.items ++ changes_in table version old.now new.now 0 indexes.now) }
    ensures in_range { OnOk result (DocsInRange old.now new.now indexes.now) }
{
    for (at, index) in indexes.iter().enumerate() {
        let number = u32::try_from(at).or(Err(Memory))?;
        push_gone(alloc, changes, table, number, index, old, new)?;
        push_put(alloc, changes, table, number, index, version, new)?;
    }
    Ok(())
}

// The old document's key is gone, unless the new one has it too.
fn push_gone(
    alloc: Global,
    changes: &mut Vec<Change>,
    table: u32,
    number: u32,
    index: &Index,
    old: &Option<Doc>,
    new: &Option<Doc>,
) -> Result<(), Memory>
    ensures changes { OnOk result (changes.new.items ≡ changes.old.items ++ gone table number index.now old.now new.now) }
    ensures in_range { OnOk result (DocInRange (Some index.now) old.now) }
{
    let Some(doc) = old else {
        return Ok(());
    };
    let key = index_key(alloc, doc, index)?;
    if has_key(alloc, index, &key, new)? {
        return Ok(());
    }
    changes.push(Change {
        table,
        index: number,
        key,
        version: None,
    })?;
    Ok(())
}

// Whether a document, if there is one, has this key.
fn has_key(alloc: Global, index: &Index, key: &Key, doc: &Option<Doc>) -> Result<bool, Memory>
    ensures { IfOk result (λ b. b ≡ has_key index.now key.now doc.now) }
{
    match doc {
        None => Ok(false),
        Some(doc) => Ok(index_key(alloc, doc, index)? == *key),
    }
}

// The new document's key has its version.
fn push_put(
    alloc: Global,
    changes: &mut Vec<Change>,
    table: u32,
    number: u32,
    index: &Index,
    version: u64,
    new: &Option<Doc>,
) -> Result<(), Memory>
    ensures changes { OnOk result (changes.new.items ≡ changes.old.items ++ put table number index.now version new.now) }
    ensures in_range { OnOk result (DocInRange (Some index.now) new.now) }
{
    let Some(doc) = new else {
        return Ok(());
    };
    let key = index_key(alloc, doc, index)?;
    changes.push(Change {
        table,
        index: number,
        key,
        version: Some(version),
    })?;
    Ok(())
}
