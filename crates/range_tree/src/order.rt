//! Comparisons by table, then index, then key.
ghost use Rattle.std.specs.Prelude.{◌≡◌};
ghost use Rattle.range_tree.specs.Points.{point_lt, low, end};
ghost use Rattle.range_tree.specs.Ranges.{owned_cmp};

use cv_keys::{Interval, Key};
use std::cmp::Ordering;

/// Whether an interval begins after a key of an index.
pub fn begins_after(i: &Interval, table: u32, index: u32, key: &Key) -> bool
    ensures { result ≡ point_lt (table, index, key.now) (low i.now) }
{
    let point = (table, index, key);
    point.cmp(&(i.table, i.index, &i.lo)).is_lt()
}

/// Whether an interval ends after a key of an index.
pub fn ends_after(i: &Interval, table: u32, index: u32, key: &Key) -> bool
    ensures { result ≡ point_lt (table, index, key.now) (end i.now) }
{
    let point = (table, index, key);
    point.cmp(&(i.table, i.index, &i.hi)).is_lt()
}

/// Whether one interval ends before another does.
pub fn ends_sooner(a: &Interval, b: &Interval) -> bool
    ensures { result ≡ point_lt (end a.now) (end b.now) }
{
    ends_after(b, a.table, a.index, &a.hi)
}

/// The tree's order: by table, index, low end, high end and owner.
pub fn owned_order(i: &Interval, owner: u64, j: &Interval, other: u64) -> Ordering
    ensures { result ≡ owned_cmp (i.now, owner) (j.now, other) }
{
    let own = (i.table, i.index, &i.lo, &i.hi, owner);
    own.cmp(&(j.table, j.index, &j.lo, &j.hi, other))
}
