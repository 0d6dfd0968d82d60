ghost use Rattle.std.specs.Prelude.{◌≡◌, ◌+◌, IfOk};
ghost use Rattle.fn_tree.specs.Scan.{doc_size};

use cv_values::{Doc, Memory, size_of_fields};

/// The size units of a document's fields. A document that has more of them than can be counted doesn't
/// fit any memory.
pub(crate) fn doc_size(doc: &Doc) -> Result<u64, Memory>
    ensures { IfOk result (λ n. n ≡ doc_size doc.now) }
{
    added(size_of_fields(&doc.fields), 2)
}

/// The sum of two numbers of size units, one of which may stand for more than can be counted.
pub(crate) fn added(size: u64, more: u64) -> Result<u64, Memory>
    ensures { IfOk result (λ n. n ≡ size + more) }
{
    size.checked_add(more).ok_or(Memory)
}
