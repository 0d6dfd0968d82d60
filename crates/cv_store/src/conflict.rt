/// The first touch of a read set: the entry's timestamp, the number of the write in the entry, whether
/// it is the write's new document (`fresh`) or its old one, the index of the table, and the number of
/// the recorded interval.
#[derive(Clone, Copy, Debug, PartialEq, Eq)]
pub struct Conflict {
    pub ts: u64,
    pub write: u32,
    pub fresh: bool,
    pub table: u32,
    pub index: u32,
    pub range: u32,
}
