ghost use Rattle.std.specs.Prelude.{◌≡◌, IfOk};
ghost use Rattle.cv_keys.specs.Intervals.{contains};

use crate::key::Key;
use cv_values::{Copied, Memory};
use std::alloc::Global;

/// The keys of one index of one table that are at least `lo` and below `hi`. An interval whose ends
/// are the wrong way round is one too: it holds no key.
#[derive(Debug, PartialEq, Eq, Drop)]
pub struct Interval {
    pub table: u32,
    pub index: u32,
    pub lo: Key,
    pub hi: Key,
}

impl Interval {
    /// An equal interval, in memory of its own.
    pub fn copy(&self, alloc: Global) -> Result<Interval, Memory>
        ensures { IfOk result (λ c. c ≡ self.now) }
    {
        Ok(Interval {
            table: self.table,
            index: self.index,
            lo: self.lo.copy(alloc)?,
            hi: self.hi.copy(alloc)?,
        })
    }
}

impl Copied for Interval {
    fn copy(&self, alloc: Global) -> Result<Interval, Memory> {
        Interval::copy(self, alloc)
    }
}

/// Whether an interval is of this index of this table and holds this key.
pub fn contains(i: &Interval, table: u32, index: u32, key: &Key) -> bool
    ensures { result ≡ contains i.now table index key.now }
{
    i.table == table && i.index == index && key >= &i.lo && key < &i.hi
}
