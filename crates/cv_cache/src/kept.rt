use cv_reads::ReadSet;
use fn_tree::Reply;

/// What is kept of a query: its answer at a timestamp, and the number that owns the intervals it read.
#[derive(Drop)]
pub struct Kept {
    pub ts: u64,
    pub reply: Reply,
    pub reads: ReadSet,
    pub owner: usize,
}
