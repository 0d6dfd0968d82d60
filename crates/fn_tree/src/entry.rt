ghost use Rattle.std.specs.Prelude.{◌≡◌, IfOk};

use cv_keys::Write;
use cv_values::{Copied, Fields, Memory, Seq, Text, Val};
use std::alloc::Global;

/// A call of a mutation: the session and the number of its request, the function's path, its
/// arguments by name, and the moment that it is to see, in milliseconds.
#[derive(Debug, PartialEq, Eq, Hash, Drop)]
pub struct Call {
    pub session: u128,
    pub request: u32,
    pub udf: Text,
    pub args: Fields,
    pub now: i64,
}

impl Call {
    /// An equal call, in memory of its own.
    pub fn copy(&self, alloc: Global) -> Result<Call, Memory>
        ensures { IfOk result (λ c. c ≡ self.entry.now) }
    {
        Ok(Call {
            session: self.session,
            request: self.request,
            udf: self.udf.copy(alloc)?,
            args: self.args.copy(alloc)?,
            now: self.now,
        })
    }
}

/// What a run answers: a value, or the text of the error that ended it.
#[derive(Debug, PartialEq, Eq, Hash, Drop)]
pub enum Reply {
    Value(Val),
    Failed(Text),
}

impl Reply {
    /// An equal reply, in memory of its own.
    pub fn copy(&self, alloc: Global) -> Result<Reply, Memory>
        ensures { IfOk result (λ r. r ≡ self.now) }
    {
        match self {
            Reply::Value(value) => Ok(Reply::Value(value.copy(alloc)?)),
            Reply::Failed(why) => Ok(Reply::Failed(why.copy(alloc)?)),
        }
    }
}

/// An entry of the log: a call, its reply and what it wrote, one write for each document that the run
/// changed, in the order of the first change.
#[derive(Debug, Drop)]
pub struct Entry {
    pub call: Call,
    pub reply: Reply,
    pub writes: Seq<Write>,
}

impl Entry {
    /// An equal entry, in memory of its own.
    pub fn copy(&self, alloc: Global) -> Result<Entry, Memory>
        ensures { IfOk result (λ e. e ≡ self.now) }
    {
        Ok(Entry {
            call: self.call.copy(alloc)?,
            reply: self.reply.copy(alloc)?,
            writes: self.writes.copy(alloc)?,
        })
    }
}

impl Copied for Entry {
    fn copy(&self, alloc: Global) -> Result<Entry, Memory> {
        Entry::copy(self, alloc)
    }
}
