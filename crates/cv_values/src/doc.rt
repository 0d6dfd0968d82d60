ghost use Rattle.std.specs.Prelude.{◌≡◌, IfOk};

use crate::ids::{DocId, id_text};
use crate::memory::Memory;
use crate::seq::Copied;
use crate::text::Text;
use crate::val::{Fields, Val};
use std::alloc::Global;

/// A document: its id, its time of creation in milliseconds, and its fields. The id and the time
/// are no fields here; [`doc_value`] shows them as `_id` and `_creationTime`.
#[derive(Debug, PartialEq, Eq, Hash, Drop)]
pub struct Doc {
    pub id: DocId,
    pub creation: i64,
    pub fields: Fields,
}

impl Doc {
    /// An equal document, in memory of its own.
    pub fn copy(&self, alloc: Global) -> Result<Doc, Memory>
        ensures { IfOk result (λ d. d ≡ self.now) }
    {
        Ok(Doc {
            id: self.id,
            creation: self.creation,
            fields: self.fields.copy(alloc)?,
        })
    }
}

impl Copied for Doc {
    fn copy(&self, alloc: Global) -> Result<Doc, Memory> {
        Doc::copy(self, alloc)
    }
}

ghost use Rattle.cv_values.specs.Docs.{doc_value};
ghost use Rattle.cv_values.specs.Trees.{tree};

/// The object that a function sees of a document: its fields, with `_creationTime` and `_id`. It
/// copies the fields.
pub fn doc_value(alloc: Global, doc: &Doc) -> Result<Val, Memory>
    ensures { IfOk result (λ v. tree v ≡ doc_value doc.now) }
{
    let mut fields = doc.fields.copy(alloc)?;
    let creation = Text::of(alloc, "_creationTime")?;
    drop(fields.insert(creation, Val::Int(doc.creation))?);
    let id = Val::Str(id_text(alloc, &doc.id)?);
    drop(fields.insert(Text::of(alloc, "_id")?, id)?);
    Ok(Val::Obj(fields))
}
