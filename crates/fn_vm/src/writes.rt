//! Writes: what is put, within the limits.
ghost use Rattle.std.specs.Prelude.{◌≡◌, ◌<◌, ◌≤◌, ◌-◌, ◌^◌, ℕ, IfOk, min};
ghost use Rattle.cv_values.specs.Sizes.{size_of};
ghost use Rattle.cv_values.specs.Trees.{tree};
ghost use Rattle.cv_values.specs.Value.{object, members_of};
ghost use Rattle.fn_code.specs.Steps.{writes, stores, inserts};
ghost use Rattle.fn_tree.specs.Actions.{value_text};
ghost use Rattle.fn_vm.specs.Moves.{Moves};
ghost use Rattle.fn_vm.specs.Views.{state_view, terms_view};
ghost use Rattle.fn_vm.specs.Written.{begun, behind_write};

use crate::run::{Run, Terms};
use crate::stop::Stop;
use cv_values::{
    Doc, DocId, Fields, Memory, Val, ValueFault, check_fields, id_text, size_of_fields,
};
use fn_tree::{Origin, Put};

fn value_text(fault: ValueFault) -> &'static str
    ensures { result.now ≡ value_text fault }
{
    match fault {
        ValueFault::TooDeep => "TooDeep",
        ValueFault::TooMany => "TooMany",
        ValueFault::BadName => "BadName",
        ValueFault::TooLarge => "TooLarge",
    }
}

fn new_document(id: DocId, origin: &Origin, fields: Fields) -> Doc
    ensures { result ≡ record { id = id; creation = origin.entry.now.now; fields = fields } }
{
    Doc {
        id,
        creation: origin.now,
        fields,
    }
}

/// The size units of the object of some fields, or the greatest number where they are more.
pub fn object_size(fields: &Fields) -> u64
    ensures { result ≡ min (size_of (object (members_of fields.now))) (2 ^ 64 - 1) }
{
    size_of_fields(fields).saturating_add(2)
}

impl Run {
    /// Puts a write of this size, where it is within the limits, and goes on behind it with a value more.
    pub fn put(
        &mut self,
        terms: &Terms,
        made: u16,
        size: u64,
        put: Put,
        v: Val,
    ) -> Result<Option<Stop>, Memory>
        requires at { self.old.frame.at < 2 ^ 64 }
        requires made { made ≤ 1 }
        ensures { IfOk result (λ stop. (n : ℕ) → size ≡ min n (2 ^ 64 - 1) → Moves (writes (terms_view terms.now) (begun (state_view self.old) made) n put (behind_write (state_view self.old) made (tree v))) stop (state_view self.new)) }
    {
        if self.counts.writes >= terms.limits.writes {
            return self.stop("WriteLimit");
        }
        let written = u64::from(self.counts.written).saturating_add(size);
        if written > u64::from(terms.limits.written) {
            return self.stop("WriteSizeLimit");
        }
        self.counts.written = written as u32;
        self.counts.writes += 1;
        self.counts.inserts += made;
        self.frame.stack.push(v)?;
        self.frame.at += 1;
        Ok(Some(Stop::Put(put)))
    }

    /// Stores a document, where its fields may be, and goes on with a value more.
    pub fn store_document(
        &mut self,
        terms: &Terms,
        made: u16,
        old: Option<Doc>,
        new: Doc,
        v: Val,
    ) -> Result<Option<Stop>, Memory>
        requires at { self.old.frame.at < 2 ^ 64 }
        requires made { made ≤ 1 }
        ensures { IfOk result (λ stop. Moves (stores (terms_view terms.now) (begun (state_view self.old) made) old new (tree v) self.old.frame.stack) stop (state_view self.new)) }
    {
        if let Err(fault) = check_fields(&new.fields) {
            return self.stop(value_text(fault));
        }
        let size = object_size(&new.fields);
        let id = new.id;
        let put = Put {
            id,
            old,
            new: Some(new),
        };
        self.put(terms, made, size, put, v)
    }

    /// Inserts the object on top into the table of a number.
    pub fn insert(&mut self, terms: &Terms, table: u16) -> Result<Option<Stop>, Memory>
        requires { self.old.frame.at < 2 ^ 64 }
        ensures { IfOk result (λ stop. Moves (inserts (terms_view terms.now) (state_view self.old) table terms.now.origin self.old.frame.stack) stop (state_view self.new)) }
    {
        let Some(origin) = terms.origin else {
            return self.stop("TypeError");
        };
        let Some(Val::Obj(fields)) = self.frame.stack.pop() else {
            return self.stop("TypeError");
        };
        let id = DocId {
            table,
            session: origin.session,
            request: origin.request,
            ordinal: self.counts.inserts,
        };
        let text = Val::Str(id_text(self.alloc, &id)?);
        let new = new_document(id, &origin, fields);
        self.store_document(terms, 1, None, new, text)
    }
}
