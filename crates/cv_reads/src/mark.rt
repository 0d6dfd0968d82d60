use cv_keys::Key;

/// A key that a write of a log's entry took away (`fresh` false) or put there: the entry's timestamp,
/// the number of the write in the entry, the index of the table, and the document's key in it.
///
/// The marks of an entry stand in this order: by write; in a write those of the old document, then
/// those of the new one; in a document by index number.
#[derive(Debug, Drop)]
pub struct Mark {
    pub ts: u64,
    pub write: u32,
    pub fresh: bool,
    pub table: u32,
    pub index: u32,
    pub key: Key,
}
