//! What an instruction does with the rows of its read.
ghost use Rattle.std.specs.Prelude.{◌≡◌, ◌<◌, ◌≤◌, ◌+◌, ◌-◌, ◌^◌, [], IfOk, IfNone, length, map, min, option_map, slice_get};
ghost use Rattle.cv_values.specs.Docs.{doc_value};
ghost use Rattle.cv_values.specs.Trees.{tree};
ghost use Rattle.fn_code.specs.Operands.{popped};
ghost use Rattle.fn_code.specs.Steps.{left_of, under_limit, pushes_given, gets, gives_rows, changes, deletes, answered, goes_on_at};
ghost use Rattle.fn_code.specs.declared.code.Code.{Code as PlainCode};
ghost use Rattle.fn_ops.specs.Operations as ops;
ghost use Rattle.fn_tree.specs.Actions.{quota_text};
ghost use Rattle.fn_tree.specs.Reading.{first_of, doc_or_null};
ghost use Rattle.fn_tree.specs.Scan.{passed, rows_size};
ghost use Rattle.fn_tree.specs.Writing.{with_members};
ghost use Rattle.fn_vm.specs.Moves.{Moves};
ghost use Rattle.fn_vm.specs.Views.{counts_view, state_view, terms_view, spent};
ghost use Rattle.fn_vm.specs.Written.{changed};

use crate::counts::Counts;
use crate::frame::Stack;
use crate::run::{Run, Terms, as_stop};
use crate::stop::Stop;
use crate::writes::object_size;
use cv_values::{Doc, DocId, Fields, Memory, Text, Val, Vals, id_text, read_id};
use fn_ops::made;
use fn_tree::{CompareOp, Left, Outcome, Put, READ_ROWS, Reply};
use std::alloc::Global;

/// How a document's fields are changed by those of an object.
#[derive(Clone, Copy, Debug, PartialEq, Eq)]
pub enum Change {
    /// The named fields are set, and the others kept.
    Patch,
    /// The object's fields take the place of all.
    Replace,
}

/// What is left of the quotas of rows.
pub fn left_of(terms: &Terms, counts: &Counts) -> Left
    ensures left { result ≡ left_of (terms_view terms.now) (counts_view counts.now) }
    ensures cost { counts.now.cost + result.cost < 2 ^ 32 }
    ensures rows { counts.now.rows + result.rows < 2 ^ 32 }
    ensures size { counts.now.size + result.size < 2 ^ 32 }
{
    let limits = &terms.limits;
    Left {
        cost: u64::from(limits.cost.saturating_sub(counts.cost)),
        rows: u64::from(limits.rows.saturating_sub(counts.rows)),
        size: u64::from(limits.size.saturating_sub(counts.size)),
    }
}

// The error of the first quota that so many rows of this size together pass, if any.
fn passed(left: &Left, rows: u64, size: u64) -> Option<&'static str>
    ensures text { option_map (λ text. text.now) result ≡ option_map quota_text (passed left.now rows size) }
    ensures cost { IfNone result (rows ≤ left.now.cost) }
    ensures rows { IfNone result (rows ≤ left.now.rows) }
    ensures size { IfNone result (size ≤ left.now.size) }
{
    if rows > left.cost {
        Some("CostLimit")
    } else if rows > left.rows {
        Some("RowLimit")
    } else if size > left.size {
        Some("ReadLimit")
    } else if rows > READ_ROWS {
        Some("TooMany")
    } else {
        None
    }
}

// The size units of the fields of some documents, or the greatest number where they are more.
fn rows_size(docs: &[Doc]) -> u64
    ensures { result ≡ min (rows_size docs.now) (2 ^ 64 - 1) }
{
    let mut size: u64 = 0;
    for doc in docs {
        size = size.saturating_add(object_size(&doc.fields));
    }
    size
}

impl Run {
    /// Counts the rows of a read. Where they pass a quota, the run ends.
    pub fn count_rows(&mut self, terms: &Terms, docs: &[Doc]) -> Result<Option<Outcome>, Memory>
        ensures frame { self.new.frame ≡ self.old.frame }
        ensures counted { IfOk result (λ o. (code : PlainCode) → answered (terms_view terms.now) code (state_view self.old) docs.now ≡ spent o (state_view self.new) (λ s. goes_on_at (terms_view terms.now) s docs.now (slice_get code.instrs s.frame.at))) }
    {
        let count = docs.len() as u64;
        let size = rows_size(docs);
        let left = left_of(terms, &self.counts);
        if let Some(why) = passed(&left, count, size) {
            return Ok(Some(Outcome {
                reply: Reply::Failed(Text::of(self.alloc, why)?),
                cost: u64::from(self.counts.cost) + count,
            }));
        }
        self.counts.cost += count as u32;
        self.counts.rows += count as u32;
        self.counts.size += size as u32;
        Ok(None)
    }

    // A value that an instruction made goes onto the stack, where it is within the limits of values.
    fn give(&mut self, v: Val) -> Result<Option<Stop>, Memory>
        requires { self.old.frame.at < 2 ^ 64 }
        ensures { IfOk result (λ stop. Moves (pushes_given (state_view self.old) (ops.made (tree v)) self.old.frame.stack) stop (state_view self.new)) }
    {
        let over = self.settle(made(v))?;
        Ok(as_stop(over))
    }

    /// The object of the document that was asked for, or null.
    pub fn get_rows(&mut self, docs: Vec<Doc>) -> Result<Option<Stop>, Memory>
        requires { self.old.frame.at < 2 ^ 64 }
        ensures { IfOk result (λ stop. Moves (gets (state_view self.old) docs.items self.old.frame.stack) stop (state_view self.new)) }
    {
        let Some(id) = self.frame.stack.pop() else {
            return self.stop("TypeError");
        };
        drop(id);
        let found = object_or_null(self.alloc, first_of(docs))?;
        self.give(found)
    }

    /// The array of the objects of the rows, behind a scan with these bounds.
    pub fn scan_rows(
        &mut self,
        bounds: &[CompareOp],
        limited: bool,
        docs: Vec<Doc>,
    ) -> Result<Option<Stop>, Memory>
        requires { self.old.frame.at < 2 ^ 64 }
        ensures { IfOk result (λ stop. Moves (gives_rows (state_view self.old) docs.items (popped (length bounds.now) [] (under_limit limited self.old.frame.stack))) stop (state_view self.new)) }
    {
        drop_limit(&mut self.frame.stack, limited);
        let Some(values) = self.frame.stack.pop_many(bounds.len() as u64)? else {
            return self.stop("TypeError");
        };
        drop(values);
        let objects = objects_of(self.alloc, docs)?;
        self.give(Val::Arr(objects))
    }
}

// The first of some documents, if there is one.
fn first_of(docs: Vec<Doc>) -> Option<Doc>
    ensures { result ≡ first_of docs.items }
{
    let mut docs = docs;
    if docs.is_empty() {
        return None;
    }
    Some(docs.remove(0))
}

// Takes the limit of a scan, where it has one.
fn drop_limit(stack: &mut Stack, limited: bool)
    ensures { stack.new ≡ under_limit limited stack.old }
{
    if limited && stack.peek(0).is_some() {
        drop(stack.pop());
    }
}

// The object that a function sees of a document, whose fields it takes over.
fn object_of(alloc: Global, doc: Doc) -> Result<Val, Memory>
    ensures { IfOk result (λ v. tree v ≡ doc_value doc) }
{
    let id = Val::Str(id_text(alloc, &doc.id)?);
    let creation = Val::Int(doc.creation);
    let mut fields = doc.fields;
    drop(fields.insert(Text::of(alloc, "_creationTime")?, creation)?);
    drop(fields.insert(Text::of(alloc, "_id")?, id)?);
    Ok(Val::Obj(fields))
}

fn object_or_null(alloc: Global, doc: Option<Doc>) -> Result<Val, Memory>
    ensures { IfOk result (λ v. tree v ≡ doc_or_null doc) }
{
    match doc {
        None => Ok(Val::Null),
        Some(doc) => object_of(alloc, doc),
    }
}

fn objects_of(alloc: Global, docs: Vec<Doc>) -> Result<Vals, Memory>
    ensures { IfOk result (λ vs. vs ≡ map doc_value docs.items) }
{
    let mut objects = Vals::new(alloc);
    for doc in docs {
        objects.push(object_of(alloc, doc)?)?;
    }
    Ok(objects)
}

// The fields with those of an object set.
fn with_members(alloc: Global, new: &Fields, old: &Fields) -> Result<Fields, Memory>
    ensures { IfOk result (λ fields. fields ≡ with_members new.now old.now) }
{
    let mut fields = old.copy(alloc)?;
    for (name, value) in new.as_map() {
        drop(fields.insert(name.copy(alloc)?, value.copy(alloc)?)?);
    }
    Ok(fields)
}

// The fields that a change leaves.
fn changed(alloc: Global, change: Change, new: Fields, old: &Fields) -> Result<Fields, Memory>
    ensures { IfOk result (λ fields. fields ≡ changed change new old.now) }
{
    match change {
        Change::Patch => with_members(alloc, &new, old),
        Change::Replace => Ok(new),
    }
}

fn changed_document(id: DocId, old: &Doc, fields: Fields) -> Doc
    ensures { result ≡ record { id = id; creation = old.now.creation; fields = fields } }
{
    Doc {
        id,
        creation: old.creation,
        fields,
    }
}

impl Run {
    /// Deletes the document that was asked for.
    pub fn delete_row(&mut self, terms: &Terms, docs: Vec<Doc>) -> Result<Option<Stop>, Memory>
        requires { self.old.frame.at < 2 ^ 64 }
        ensures { IfOk result (λ stop. Moves (deletes (terms_view terms.now) (state_view self.old) (first_of docs.items) self.old.frame.stack) stop (state_view self.new)) }
    {
        let Some(old) = first_of(docs) else {
            return self.stop("NoDocument");
        };
        let Some(Val::Str(text)) = self.frame.stack.pop() else {
            return self.stop("TypeError");
        };
        let Some(id) = read_id(&text) else {
            return self.stop("TypeError");
        };
        let put = Put {
            id,
            old: Some(old),
            new: None,
        };
        self.put(terms, 0, 0, put, Val::Null)
    }

    fn change_row(
        &mut self,
        terms: &Terms,
        change: Change,
        docs: Vec<Doc>,
    ) -> Result<Option<Stop>, Memory>
        requires { self.old.frame.at < 2 ^ 64 }
        ensures { IfOk result (λ stop. Moves (changes (terms_view terms.now) (state_view self.old) (changed change) (first_of docs.items) self.old.frame.stack) stop (state_view self.new)) }
    {
        let Some(old) = first_of(docs) else {
            return self.stop("NoDocument");
        };
        let Some(Val::Obj(members)) = self.frame.stack.pop() else {
            return self.stop("TypeError");
        };
        let Some(Val::Str(text)) = self.frame.stack.pop() else {
            return self.stop("TypeError");
        };
        let Some(id) = read_id(&text) else {
            return self.stop("TypeError");
        };
        let fields = changed(self.alloc, change, members, &old.fields)?;
        let new = changed_document(id, &old, fields);
        self.store_document(terms, 0, Some(old), new, Val::Null)
    }

    /// Sets fields of the document that was asked for.
    pub fn patch_row(&mut self, terms: &Terms, docs: Vec<Doc>) -> Result<Option<Stop>, Memory>
        requires { self.old.frame.at < 2 ^ 64 }
        ensures { IfOk result (λ stop. Moves (changes (terms_view terms.now) (state_view self.old) with_members (first_of docs.items) self.old.frame.stack) stop (state_view self.new)) }
    {
        self.change_row(terms, Change::Patch, docs)
    }

    /// Replaces the fields of the document that was asked for.
    pub fn replace_row(&mut self, terms: &Terms, docs: Vec<Doc>) -> Result<Option<Stop>, Memory>
        requires { self.old.frame.at < 2 ^ 64 }
        ensures { IfOk result (λ stop. Moves (changes (terms_view terms.now) (state_view self.old) (λ new old. new) (first_of docs.items) self.old.frame.stack) stop (state_view self.new)) }
    {
        self.change_row(terms, Change::Replace, docs)
    }
}
