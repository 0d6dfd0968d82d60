ghost use Rattle.std.specs.Prelude.{◌≡◌, IfOk};

use cv_values::{Copied, Memory, Val, Vals};
use std::alloc::Global;
use thiserror::Error;

/// A range of one index of one table: the values of its first fields, and the bounds of the next.
#[derive(Debug, Drop)]
pub struct Range {
    pub table: u32,
    pub index: u32,
    pub equal: Vals,
    pub lower: Bound,
    pub upper: Bound,
}

/// One side of a range.
#[derive(Debug, Drop)]
pub enum Bound {
    None,
    Including(Val),
    Excluding(Val),
}

/// Why a range has no interval.
#[derive(Clone, Copy, Debug, PartialEq, Eq, Error)]
pub enum RangeFault {
    /// The table or the index isn't there.
    #[error("the table or the index isn't there")]
    NoIndex,
    /// The index has fewer fields than the range names: one for each equality, and one for bounds.
    #[error("the index has fewer fields than the range names")]
    NoField,
    /// An allocation was refused.
    #[error("out of memory")]
    Memory,
}

impl From<Memory> for RangeFault {
    ghost use Rattle.cv_keys.specs.declared.range.RangeFault.TheVariants.{Memory as NoMemory};

    ghost from_gives = { λ m f. f ≡ NoMemory };

    fn from(_memory: Memory) -> RangeFault {
        RangeFault::Memory
    }
}

impl Range {
    /// An equal range, in memory of its own.
    pub fn copy(&self, alloc: Global) -> Result<Range, Memory>
        ensures { IfOk result (λ c. c ≡ self.now) }
    {
        Ok(Range {
            table: self.table,
            index: self.index,
            equal: self.equal.copy(alloc)?,
            lower: self.lower.copy(alloc)?,
            upper: self.upper.copy(alloc)?,
        })
    }
}

impl Bound {
    /// An equal bound, in memory of its own.
    pub fn copy(&self, alloc: Global) -> Result<Bound, Memory>
        ensures { IfOk result (λ c. c ≡ self.now) }
    {
        match self {
            Bound::None => Ok(Bound::None),
            Bound::Including(v) => Ok(Bound::Including(v.copy(alloc)?)),
            Bound::Excluding(v) => Ok(Bound::Excluding(v.copy(alloc)?)),
        }
    }
}

impl Copied for Range {
    fn copy(&self, alloc: Global) -> Result<Range, Memory> {
        Range::copy(self, alloc)
    }
}

impl Copied for Bound {
    fn copy(&self, alloc: Global) -> Result<Bound, Memory> {
        Bound::copy(self, alloc)
    }
}
