use cv_reads::ReadSet;
use fn_tree::Reply;

/// What a look for a kept answer of a query gives: its reply and what it read, or nothing.
#[derive(Debug, Drop)]
pub enum Look {
    Hit { reply: Reply, reads: ReadSet },
    Miss,
}
