ghost use Rattle.std.specs.Prelude.{◌≡◌, ◌+◌, ◌<◌, ◌≤◌, [], ◌∷◌, ◌++◌, length, slice_get, option_map, OnOk};

use cv_values::{Doc, Memory};
use std::alloc::Global;
use std::marker::Model;

/// Documents by number, from 0 on. A document stays under its number. Contracts see the list of the
/// documents, and beside it the number of documents that can be added without memory.
#[derive(Drop)]
pub struct Versions {
    docs: Vec<Doc>,
}

impl Model for Versions {
    ghost use Rattle.std.specs.Prelude.{◌-◌, vec_len, vec_capacity};
    ghost use Rattle.cv_docs.specs.Numbered.{Numbered};
    ghost use Rattle.cv_docs.specs.Codes.{numbered_code};

    ghost Value = { Numbered };

    ghost coded = { numbered_code };

    ghost view = { λ v. record { docs = v.docs.items; spare = vec_capacity v.docs - vec_len v.docs } };
}

impl Versions {
    /// No documents. It takes no memory.
    pub fn new(alloc: Global) -> Versions
        ensures { result.docs ≡ [] }
    {
        Versions {
            docs: Vec::new(alloc),
        }
    }

    /// Makes room for `n` documents more.
    pub fn reserve(&mut self, n: usize) -> Result<(), Memory>
        ensures docs { self.new.docs ≡ self.old.docs }
        ensures spare { self.old.spare ≤ self.new.spare }
        ensures room { OnOk result (n ≤ self.new.spare) }
    {
        self.docs.reserve(n)?;
        Ok(())
    }

    /// Adds a document and gives its number, the next one. It takes the document over without a copy.
    pub fn push(&mut self, doc: Doc) -> u64
        requires { 0 < self.old.spare }
        ensures docs { self.new.docs ≡ self.old.docs ++ doc ∷ [] }
        ensures number { result ≡ length self.old.docs }
        ensures spare { self.old.spare ≤ self.new.spare + 1 }
    {
        let number = self.docs.len() as u64;
        self.docs.push(doc).unwrap();
        number
    }

    /// The document of a number, or none exactly where the number is past the end.
    pub fn get(&self, number: u64) -> Option<&Doc>
        ensures { option_map (λ d. d.now) result ≡ slice_get self.now.docs number }
    {
        self.docs.get(number as usize)
    }
}
