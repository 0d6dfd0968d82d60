//! What a run writes.
ghost use Rattle.std.specs.Prelude.{◌≡◌, ◌≤◌, ◌^◌, ◌-◌, min, length, ℕ, IfOk, IfErr};
ghost use Rattle.cv_values.specs.Trees.{tree};
ghost use Rattle.fn_tree.specs.Actions.{as_fields, give, value_text};
ghost use Rattle.fn_tree.specs.Writing.{write, store, insert_value, with_members, change_value, delete_value, doc_there, origin_of};
ghost use Rattle.fn_plain.specs.Changes.{changed};
ghost use Rattle.fn_plain.specs.States.{IsWithin, Gives, Fails, site_at};
ghost use Rattle.fn_plain.specs.Texts.{Refuses};

use crate::context::{Context, Progress};
use crate::fault::{Fault, failure};
use crate::read::{as_id, doc_at};
use crate::scan::doc_size;
use crate::scope::table_number;
use cv_values::{Doc, DocId, Fields, Memory, Text, Val, ValueFault, check_fields, id_text};
use fn_tree::{Origin, Put};
use std::alloc::Global;

/// How a document's fields are changed by those of an object.
#[derive(Clone, Copy, Debug, PartialEq, Eq)]
pub(crate) enum Change {
    /// The named fields are set, and the others kept.
    Patch,
    /// The object's fields take the place of all.
    Replace,
}

fn value_text(fault: ValueFault) -> &'static str
    ensures { result.now ≡ value_text fault }
{
    match fault {
        ValueFault::TooDeep => "TooDeep",
        ValueFault::TooMany => "TooMany",
        ValueFault::BadName => "BadName",
        ValueFault::TooLarge => "TooLarge",
    }
}

/// One write operation of a size.
fn write(context: &Context, progress: &mut Progress, size: u64, put: Put) -> Result<(), Fault>
    requires within { IsWithin 1 context.now progress.now.counts }
    ensures ok { (n m : ℕ) → size ≡ min m (2 ^ 64 - 1) → IfOk result (λ u. Gives context.now progress.old progress.new (write (site_at context.now n) m put) u) }
    ensures err { (n m : ℕ) → size ≡ min m (2 ^ 64 - 1) → IfErr result (λ f. Fails context.now progress.old progress.new (write (site_at context.now n) m put) f) }
{
    if progress.counts.writes >= context.limits.writes {
        return Err(failure(context.alloc, "WriteLimit"));
    }
    let written = progress.counts.written.saturating_add(size);
    if written > context.limits.written {
        return Err(failure(context.alloc, "WriteSizeLimit"));
    }
    progress.puts.push(put)?;
    progress.counts.writes += 1;
    progress.counts.written = written;
    Ok(())
}

fn new_document(id: DocId, origin: &Origin, fields: Fields) -> Doc
    ensures { result ≡ record { id = id; creation = origin.entry.now.now; fields = fields } }
{
    Doc {
        id,
        creation: origin.now,
        fields,
    }
}

fn changed_document(id: DocId, old: &Doc, fields: Fields) -> Doc
    ensures { result ≡ record { id = id; creation = old.now.creation; fields = fields } }
{
    Doc {
        id,
        creation: old.creation,
        fields,
    }
}

/// Stores a document, where its fields may be.
fn store(
    context: &Context,
    progress: &mut Progress,
    old: Option<Doc>,
    new: Doc,
) -> Result<(), Fault>
    requires within { IsWithin 1 context.now progress.now.counts }
    ensures ok { (n : ℕ) → IfOk result (λ u. Gives context.now progress.old progress.new (store (site_at context.now n) old new) u) }
    ensures err { (n : ℕ) → IfErr result (λ f. Fails context.now progress.old progress.new (store (site_at context.now n) old new) f) }
{
    if let Err(fault) = check_fields(&new.fields) {
        return Err(failure(context.alloc, value_text(fault)));
    }
    let size = doc_size(context.alloc, &new)?;
    let id = new.id;
    write(
        context,
        progress,
        size,
        Put {
            id,
            old,
            new: Some(new),
        },
    )
}

/// Only a mutation writes and has a moment.
pub(crate) fn origin_of(context: &Context, progress: &Progress) -> Result<Origin, Fault>
    requires within { IsWithin 0 context.now progress.now.counts }
    ensures ok { (n : ℕ) → IfOk result (λ o. Gives context.now progress.now progress.now (origin_of (site_at context.now n)) o) }
    ensures err { (n : ℕ) → IfErr result (λ f. Fails context.now progress.now progress.now (origin_of (site_at context.now n)) f) }
{
    match context.origin {
        Some(origin) => Ok(origin),
        None => Err(failure(context.alloc, "TypeError")),
    }
}

/// The fields of an object.
fn as_fields(context: &Context, v: Val) -> Result<Fields, Fault>
    ensures ok { IfOk result (λ fields. as_fields (tree v) ≡ give fields) }
    ensures err { IfErr result (λ f. Refuses (as_fields (tree v)) f) }
{
    match v {
        Val::Obj(fields) => Ok(fields),
        _ => Err(failure(context.alloc, "TypeError")),
    }
}

/// `insert`: a new document, whose id is the value.
pub(crate) fn insert_value(
    context: &Context,
    progress: &mut Progress,
    table: &Text,
    v: Val,
) -> Result<Val, Fault>
    requires within { IsWithin 0 context.now progress.now.counts }
    ensures ok { (n : ℕ) → IfOk result (λ w. Gives context.now progress.old progress.new (insert_value (site_at context.now n) table.now (tree v)) (tree w)) }
    ensures err { (n : ℕ) → IfErr result (λ f. Fails context.now progress.old progress.new (insert_value (site_at context.now n) table.now (tree v)) f) }
{
    let origin = origin_of(context, progress)?;
    let Some(table) = table_number(context.schema, table) else {
        return Err(failure(context.alloc, "TypeError"));
    };
    let fields = as_fields(context, v)?;
    let id = DocId {
        table: table as u16,
        session: origin.session,
        request: origin.request,
        ordinal: progress.counts.inserts as u16,
    };
    progress.counts.inserts += 1;
    let new = new_document(id, &origin, fields);
    store(context, progress, None, new)?;
    Ok(Val::Str(id_text(context.alloc, &id)?))
}

/// The document that is there.
fn doc_there(context: &Context, progress: &mut Progress, id: &DocId) -> Result<Doc, Fault>
    requires within { IsWithin 0 context.now progress.now.counts }
    ensures ok { (n : ℕ) → IfOk result (λ d. Gives context.now progress.old progress.new (doc_there (site_at context.now n) id.now) d) }
    ensures err { (n : ℕ) → IfErr result (λ f. Fails context.now progress.old progress.new (doc_there (site_at context.now n) id.now) f) }
{
    match doc_at(context, progress, id)? {
        Some(doc) => Ok(doc),
        None => Err(failure(context.alloc, "NoDocument")),
    }
}

/// The fields with those of an object set.
pub(crate) fn with_members(alloc: Global, new: &Fields, old: &Fields) -> Result<Fields, Memory>
    ensures { IfOk result (λ fields. fields ≡ with_members new.now old.now) }
{
    let mut fields = old.copy(alloc)?;
    for (name, value) in new.as_map() {
        drop(fields.insert(name.copy(alloc)?, value.copy(alloc)?)?);
    }
    Ok(fields)
}

/// The fields that a change leaves.
fn changed(alloc: Global, change: Change, new: Fields, old: &Fields) -> Result<Fields, Memory>
    ensures { IfOk result (λ fields. fields ≡ changed change new old.now) }
{
    match change {
        Change::Patch => with_members(alloc, &new, old),
        Change::Replace => Ok(new),
    }
}

/// `patch` and `replace`: the document's fields are changed by those of an object.
pub(crate) fn change_value(
    context: &Context,
    progress: &mut Progress,
    change: Change,
    v: &Val,
    w: Val,
) -> Result<Val, Fault>
    requires within { IsWithin 0 context.now progress.now.counts }
    ensures ok { (n : ℕ) → IfOk result (λ r. Gives context.now progress.old progress.new (change_value (site_at context.now n) (changed change) (tree v.now) (tree w)) (tree r)) }
    ensures err { (n : ℕ) → IfErr result (λ f. Fails context.now progress.old progress.new (change_value (site_at context.now n) (changed change) (tree v.now) (tree w)) f) }
{
    origin_of(context, progress)?;
    let id = as_id(context, progress, v)?;
    let fields = as_fields(context, w)?;
    let old = doc_there(context, progress, &id)?;
    let fields = changed(context.alloc, change, fields, &old.fields)?;
    let new = changed_document(id, &old, fields);
    store(context, progress, Some(old), new)?;
    Ok(Val::Null)
}

/// `delete`: the document is gone.
pub(crate) fn delete_value(
    context: &Context,
    progress: &mut Progress,
    v: &Val,
) -> Result<Val, Fault>
    requires within { IsWithin 0 context.now progress.now.counts }
    ensures ok { (n : ℕ) → IfOk result (λ r. Gives context.now progress.old progress.new (delete_value (site_at context.now n) (tree v.now)) (tree r)) }
    ensures err { (n : ℕ) → IfErr result (λ f. Fails context.now progress.old progress.new (delete_value (site_at context.now n) (tree v.now)) f) }
{
    origin_of(context, progress)?;
    let id = as_id(context, progress, v)?;
    let old = doc_there(context, progress, &id)?;
    write(
        context,
        progress,
        0,
        Put {
            id,
            old: Some(old),
            new: None,
        },
    )?;
    Ok(Val::Null)
}
