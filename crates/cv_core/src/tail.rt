//! What comes after a timestamp, by the marks of a log.
ghost use Rattle.std.specs.Prelude.{◌≡◌, ◌+◌, ◌<◌, ◌≤◌, drop, take, length, IfOk};
ghost use Rattle.cv_store.specs.Tails.{tail_entries, tail_marks, fitting, entries_taken, joined};
ghost use Rattle.cv_core.specs.Tailing.{tail_in};

use crate::marks::push_copies;
use cv_log::WriteLog;
use cv_reads::Mark;
use cv_store::Tail;
use cv_values::{Memory, Seq};
use std::alloc::Global;

// The most entries of a tail, and the most marks where there is more than one entry.
const ENTRIES: u64 = 256;

const MARKS: usize = 65_536;

/// The tail of a log from a timestamp on.
pub(crate) fn tail_of(alloc: Global, log: &WriteLog, from: u64) -> Result<Tail, Memory>
    ensures { IfOk result (λ t. t ≡ tail_in log.now.marks from) }
{
    let end = log.len();
    if from >= end {
        return Ok(Tail {
            from,
            to: end,
            end,
            marks: Seq::new(alloc),
        });
    }
    let taken = entries_taken(log, from);
    let marks = marks_after(alloc, log, from, taken)?;
    Ok(Tail {
        from,
        to: from + taken,
        end,
        marks: Seq::from_vec(marks),
    })
}

// How many entries the tail takes, of those after a timestamp below the end.
fn entries_taken(log: &WriteLog, from: u64) -> u64
    requires { from < length log.now.marks }
    ensures taken { result ≡ entries_taken (drop from log.now.marks) }
    ensures within { from + result ≤ length log.now.marks }
{
    fitting(log, from).max(1)
}

// How many entries after a timestamp have few enough marks together.
fn fitting(log: &WriteLog, from: u64) -> u64
    requires { from < length log.now.marks }
    ensures fitting { result ≡ fitting tail_entries tail_marks (drop from log.now.marks) }
    ensures within { from + result ≤ length log.now.marks }
{
    let end = log.len();
    let mut room = MARKS;
    for taken in 0..ENTRIES {
        if taken >= end - from {
            return taken;
        }
        let count = log.marks_of(from + taken + 1).len();
        if count > room {
            return taken;
        }
        room -= count;
    }
    ENTRIES
}

// Copies of the marks of so many entries after a timestamp.
fn marks_after(alloc: Global, log: &WriteLog, from: u64, count: u64) -> Result<Vec<Mark>, Memory>
    requires { from + count ≤ length log.now.marks }
    ensures { IfOk result (λ ms. ms.items ≡ joined (take count (drop from log.now.marks))) }
{
    // The length of the log fits its type, and so do the timestamps below.
    let _end = log.len();
    let mut marks = Vec::new(alloc);
    for ts in from..from + count {
        push_copies(alloc, &mut marks, log.marks_of(ts + 1))?;
    }
    Ok(marks)
}
