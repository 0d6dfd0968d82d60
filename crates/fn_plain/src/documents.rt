//! The documents that a run sees: those before it, with its own puts applied.
ghost use Rattle.std.specs.Prelude.{◌≡◌, IfOk, option_map, None};
ghost use Rattle.fn_tree.specs.Documents.{doc_of, with_doc, same_id};
ghost use Rattle.fn_tree.specs.Run.{with_puts};

use cv_values::{Copied, Doc, DocId, Memory, copy_slice};
use fn_tree::Put;
use std::alloc::Global;

/// The document of an id, if it is there.
pub(crate) fn doc_of<'a>(docs: &'a [Doc], id: &DocId) -> Option<&'a Doc>
    ensures { option_map (λ d. d.now) result ≡ doc_of id.now docs.now }
{
    for doc in docs {
        if *id == doc.id {
            return Some(doc);
        }
    }
    None
}

/// The documents, where the id has this one, or none.
fn with_doc(alloc: Global, docs: &[Doc], id: &DocId, new: &Option<Doc>) -> Result<Vec<Doc>, Memory>
    ensures { IfOk result (λ ds. ds.items ≡ with_doc id.now new.now docs.now) }
{
    let mut with = Vec::new(alloc);
    if let Some(doc) = new {
        with.push(doc.copy(alloc)?)?;
    }
    for doc in docs {
        if *id != doc.id {
            with.push(doc.copy(alloc)?)?;
        }
    }
    Ok(with)
}

/// The documents after some puts, one after another. Each put copies all of them.
pub fn with_puts(alloc: Global, base: &[Doc], puts: &[Put]) -> Result<Vec<Doc>, Memory>
    ensures { IfOk result (λ ds. ds.items ≡ with_puts puts.now base.now) }
{
    let mut docs = copy_slice(alloc, base)?;
    for put in puts {
        docs = with_doc(alloc, docs.as_slice(), &put.id, &put.new)?;
    }
    Ok(docs)
}
