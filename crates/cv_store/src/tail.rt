use cv_reads::Mark;
use cv_values::Seq;

/// What came after a timestamp: the marks of the entries after `from` up to `to`, and the length of the
/// log, `end`.
#[derive(Debug, Drop)]
pub struct Tail {
    pub from: u64,
    pub to: u64,
    pub end: u64,
    pub marks: Seq<Mark>,
}
