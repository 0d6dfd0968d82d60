//! The first touch of a read set by the marks of entries.
ghost use Rattle.std.specs.Prelude.{◌≡◌, ◌<◌, ◌^◌, length, drop};
ghost use Rattle.cv_store.specs.Tails.{joined};
ghost use Rattle.cv_store.specs.TouchLaws.{conflict_of, mark_touch};
ghost use Rattle.cv_log.specs.Logs.{marks_in};

use cv_reads::{Mark, ReadSet};
use cv_store::{Conflict, touches_go_by_marks};
use fn_tree::Entry;

/// An entry with its marks.
#[derive(Drop)]
pub(crate) struct Marked {
    pub entry: Entry,
    pub marks: Vec<Mark>,
}

/// The first touch by the marks of these entries.
pub(crate) fn first_conflict(marked: &[Marked], reads: &ReadSet) -> Option<Conflict>
    requires { length reads.now < 2 ^ 32 }
    ensures { result ≡ mark_touch (joined (marks_in marked.now)) reads.now }
{
    for one in marked {
        match conflict_in(one.marks.as_slice(), reads) {
            Some(conflict) => return Some(conflict),
            None => {}
        }
    }
    None
}

/// The entries after a timestamp.
pub(crate) fn later(marked: &[Marked], s: u64) -> &[Marked]
    ensures { result.now ≡ drop s marked.now }
{
    let first = marked.len().min(s as usize);
    &marked[first..]
}

// The first touch by these marks.
fn conflict_in(marks: &[Mark], reads: &ReadSet) -> Option<Conflict>
    requires { length reads.now < 2 ^ 32 }
    ensures { result ≡ mark_touch marks.now reads.now }
{
    touches_go_by_marks();
    match reads.first_touch(marks) {
        None => None,
        Some((at, range)) => Some(conflict_of(&marks[at], range as u32)),
    }
}

// What a mark and the number of a range tell of.
fn conflict_of(mark: &Mark, range: u32) -> Conflict
    ensures { result ≡ conflict_of mark.now range }
{
    Conflict {
        ts: mark.ts,
        write: mark.write,
        fresh: mark.fresh,
        table: mark.table,
        index: mark.index,
        range,
    }
}
