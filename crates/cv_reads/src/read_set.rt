ghost use Rattle.std.specs.Prelude.{◌≡◌, [], ◌∷◌, ◌++◌, length, slice_get, option_map, IfOk, OnOk, OnErr};
ghost use Rattle.cv_reads.specs.FirstTouch.{first_interval, first_touch};

use crate::mark::Mark;
use cv_keys::{Interval, contains};
use cv_values::{Copied, Memory, Seq};
use std::alloc::Global;
use std::marker::Model;

/// The intervals that a run has read, in the order in which they were recorded. Contracts see the list.
#[derive(Debug, Drop)]
pub struct ReadSet {
    intervals: Seq<Interval>,
}

impl Model for ReadSet {
    ghost use Rattle.std.specs.Prelude.{List};
    ghost use Rattle.cv_keys.specs.declared.interval.Interval.{Interval as Recorded};

    ghost Value = { List Recorded };

    ghost view = { λ r. r.intervals };
}

impl ReadSet {
    /// No intervals. It takes no memory.
    pub fn new(alloc: Global) -> ReadSet
        ensures { result ≡ [] }
    {
        ReadSet {
            intervals: Seq::new(alloc),
        }
    }

    /// Records an interval at the end. For want of memory nothing changes.
    pub fn add(&mut self, i: Interval) -> Result<(), Memory>
        ensures ok { OnOk result (self.new ≡ self.old ++ i ∷ []) }
        ensures err { OnErr result (self.new ≡ self.old) }
    {
        self.intervals.push(i)
    }

    /// How many intervals were recorded.
    pub fn len(&self) -> usize
        ensures { result ≡ length self.now }
    {
        self.intervals.as_slice().len()
    }

    /// The interval of a number, counted from 0, or none exactly where the number is past the end.
    pub fn at(&self, k: usize) -> Option<&Interval>
        ensures { option_map (λ i. i.now) result ≡ slice_get self.now k }
    {
        self.intervals.as_slice().get(k)
    }

    /// The same intervals, in memory of their own.
    pub fn copy(&self, alloc: Global) -> Result<ReadSet, Memory>
        ensures { IfOk result (λ c. c ≡ self.now) }
    {
        Ok(ReadSet {
            intervals: self.intervals.copy(alloc)?,
        })
    }

    /// The number of the first mark that lies in some interval, and the number of the first such
    /// interval; none exactly where no mark lies in one. Of each mark before it, and of that one, each
    /// interval is looked at at most once.
    pub fn first_touch(&self, marks: &[Mark]) -> Option<(usize, usize)>
        ensures { result ≡ first_touch marks.now self.now }
    {
        let intervals = self.intervals.as_slice();
        for (k, mark) in marks.iter().enumerate() {
            if let Some(range) = first_interval(intervals, mark) {
                return Some((k, range));
            }
        }
        None
    }
}

impl Copied for ReadSet {
    fn copy(&self, alloc: Global) -> Result<ReadSet, Memory> {
        ReadSet::copy(self, alloc)
    }
}

// The first interval that a mark lies in.
fn first_interval(intervals: &[Interval], mark: &Mark) -> Option<usize>
    ensures { result ≡ first_interval mark.now intervals.now }
{
    intervals
        .iter()
        .position(|i| contains(i, mark.table, mark.index, &mark.key))
}
