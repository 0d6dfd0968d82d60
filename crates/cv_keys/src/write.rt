ghost use Rattle.std.specs.Prelude.{◌≡◌, IfOk, Some};
ghost use Rattle.cv_keys.specs.Touch.{touches, has_key_in};

use crate::interval::Interval;
use crate::item::place_order;
use crate::schema::{Index, Schema};
use cv_values::{Copied, Doc, DocId, Memory};
use std::alloc::Global;

/// What a whole function run does to one document: the document before it and after it, where
/// there is one.
#[derive(Debug, PartialEq, Eq, Drop)]
pub struct Write {
    pub id: DocId,
    pub old: Option<Doc>,
    pub new: Option<Doc>,
}

impl Write {
    /// An equal write, in memory of its own.
    pub fn copy(&self, alloc: Global) -> Result<Write, Memory>
        ensures { IfOk result (λ c. c ≡ self.now) }
    {
        Ok(Write {
            id: self.id,
            old: self.old.copy(alloc)?,
            new: self.new.copy(alloc)?,
        })
    }
}

impl Copied for Write {
    fn copy(&self, alloc: Global) -> Result<Write, Memory> {
        Write::copy(self, alloc)
    }
}

/// Whether a write touches an interval: the write is one of the interval's table, and a document that
/// it takes away or puts there has its key in the interval. Nothing touches an interval of an index
/// that isn't there. It compares the documents with the interval's ends as it goes, byte by byte: it
/// makes no key and takes no memory.
pub fn touches(schema: &Schema, w: &Write, i: &Interval) -> bool
    ensures { result ≡ touches schema.now w.now i.now }
{
    if u32::from(w.id.table) != i.table {
        return false;
    }
    match schema.index_at(i.table, i.index) {
        None => false,
        Some(index) => has_key_in(index, i, &w.old) || has_key_in(index, i, &w.new),
    }
}

fn has_key_in(index: &Index, i: &Interval, doc: &Option<Doc>) -> bool
    ensures { result ≡ has_key_in (Some index.now) i.now doc.now }
{
    match doc {
        None => false,
        Some(doc) => {
            place_order(doc, index, i.lo.as_slice()).is_ge()
                && place_order(doc, index, i.hi.as_slice()).is_lt()
        }
    }
}
