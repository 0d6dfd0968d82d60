use crate::conflict::Conflict;
use cv_keys::{Interval, Write};
use cv_reads::ReadSet;
use cv_values::{DocId, Seq};
use fn_tree::{Call, Reply};

/// The run of a call on the documents of a snapshot, offered to the log: its reply, its writes and the
/// intervals that it read.
#[derive(Debug, Drop)]
pub struct Proposal {
    pub call: Call,
    pub snapshot: u64,
    pub reply: Reply,
    pub writes: Seq<Write>,
    pub reads: ReadSet,
}

/// One read of a store: the document of an id, or the first rows of an interval in a direction. A scan
/// stops after the row that is number `rows`, or that brings the sum of the sizes of fields above `size`.
#[derive(Debug, Drop)]
pub enum ReadReq {
    Get {
        id: DocId,
    },
    Scan {
        interval: Interval,
        desc: bool,
        rows: u32,
        size: u64,
    },
}

/// How a call begins: on a snapshot, or with the reply that its session's request has already.
#[derive(Debug, Drop)]
pub enum Begun {
    Fresh { ts: u64 },
    Known { ts: u64, reply: Reply },
}

/// How a proposal ends: its entry is in the log, or its session's request had one before, or a later
/// write touches what it read.
#[derive(Debug, Drop)]
pub enum Ended {
    Committed { ts: u64 },
    Known { ts: u64, reply: Reply },
    SentBack(Conflict),
}
