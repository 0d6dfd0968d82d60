ghost use Rattle.std.specs.Prelude.{◌≡◌, IfOk};

use crate::entry::Reply;
use cv_keys::Interval;
use cv_values::{Doc, DocId, Fields, Memory, Text};
use std::alloc::Global;

/// The most rows of one read.
pub const READ_ROWS: u64 = 8192;

/// What a run may still consume: units of cost, rows, and size units of the rows' fields.
#[derive(Clone, Copy, Debug, PartialEq, Eq)]
pub struct Left {
    pub cost: u64,
    pub rows: u64,
    pub size: u64,
}

/// One read of a run: of a document by its id, or of the rows of an interval, in the order of its index
/// or against it, up to a limit.
#[derive(Debug, Drop)]
pub enum Ask {
    Get {
        id: DocId,
        left: Left,
    },
    Scan {
        interval: Interval,
        desc: bool,
        limit: Option<u32>,
        left: Left,
    },
}

/// What a read gives: the rows that it consumed, and the interval that they tell of.
#[derive(Debug, Drop)]
pub struct Answer {
    pub docs: Vec<Doc>,
    pub consumed: Interval,
}

/// One write operation of a run: an id, its document before the operation, and the one after it.
#[derive(Debug, Drop)]
pub struct Put {
    pub id: DocId,
    pub old: Option<Doc>,
    pub new: Option<Doc>,
}

/// How a run ended: its reply, and the units of cost that it took.
#[derive(Debug, Drop)]
pub struct Outcome {
    pub reply: Reply,
    pub cost: u64,
}

/// A call of a query: the function's path, and its arguments by name.
#[derive(Debug, PartialEq, Eq, Hash, Drop)]
pub struct Query {
    pub udf: Text,
    pub args: Fields,
}

impl Query {
    /// An equal query, in memory of its own.
    pub fn copy(&self, alloc: Global) -> Result<Query, Memory>
        ensures { IfOk result (λ q. q ≡ self.entry.now) }
    {
        Ok(Query {
            udf: self.udf.copy(alloc)?,
            args: self.args.copy(alloc)?,
        })
    }
}
