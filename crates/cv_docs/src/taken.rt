//! The rows that a scan takes, up to where it stops.
ghost use Rattle.std.specs.Prelude.{◌≡◌, ◌-◌, ◌<◌, [], ◌∷◌, ◌++◌, List, IsTrue, ◌↔◌, cond, nat_lt, Some, None, OnOk, OnErr};
ghost use Rattle.cv_docs.specs.Cut.{doc_size, cut, ending};
ghost use Rattle.cv_values.specs.declared.doc.Doc.{Doc as Document};

use cv_values::{Doc, Memory, size_of};
use std::alloc::Global;
use std::marker::Model;

/// Copies of the documents that a scan has taken, and how many more rows and size units it may take.
/// Where a document has brought the sizes above their limit, it may take no more rows.
#[derive(Drop)]
pub struct Taken {
    docs: Vec<Doc>,
    rows: u32,
    size: u64,
}

impl Model for Taken {
    ghost use Rattle.cv_docs.specs.Cut.{Taken};
    ghost use Rattle.cv_docs.specs.Codes.{taken_code};

    ghost Value = { Taken };

    ghost coded = { taken_code };

    ghost view = { λ t. record { docs = t.docs.items; rows = t.rows; size = t.size } };
}

impl Taken {
    /// Nothing yet, of at most so many rows and so many size units. It takes no memory.
    pub fn new(alloc: Global, rows: u32, size: u64) -> Taken
        ensures { result ≡ record { docs = []; rows = rows; size = size } }
    {
        Taken {
            docs: Vec::new(alloc),
            rows,
            size,
        }
    }

    /// Whether no more rows may be taken.
    pub fn is_full(&self) -> bool
        ensures { IsTrue result ↔ (self.now.rows ≡ 0) }
    {
        self.rows == 0
    }

    /// Takes a copy of the next document. For want of memory nothing changes.
    pub fn take(&mut self, alloc: Global, doc: &Doc) -> Result<(), Memory>
        requires { 0 < self.old.rows }
        ensures ok { OnOk result ((ds : List Document) → ending self.new ds ≡ ending self.old (doc.now ∷ ds)) }
        ensures err { OnErr result (self.new ≡ self.old) }
    {
        self.docs.push(doc.copy(alloc)?)?;
        match left_after(self.size, doc) {
            None => self.rows = 0,
            Some(left) => {
                self.rows -= 1;
                self.size = left;
            }
        }
        Ok(())
    }

    /// The documents taken, in the order in which they came.
    pub fn into_vec(self) -> Vec<Doc>
        ensures { result.items ≡ self.docs }
    {
        let Taken {
            docs,
            rows: _,
            size: _,
        } = self;
        docs
    }
}

// How many size units are left of so many after a document, none where it has more.
fn left_after(size: u64, doc: &Doc) -> Option<u64>
    ensures { result ≡ cond (nat_lt size (doc_size doc.now)) None (Some (size - doc_size doc.now)) }
{
    let mut left = size.checked_sub(2)?;
    for (name, v) in doc.fields.as_map() {
        left = left
            .checked_sub(name.as_str().len() as u64)?
            .checked_sub(1)?
            .checked_sub(size_of(v))?;
    }
    Some(left)
}
