//! The ends of ranges, and their intervals.
ghost use Rattle.std.specs.Prelude.{◌≡◌, ◌≢◌, ◌++◌, ◌+◌, ◌-◌, ◌^◌, IfOk, IfErr, IsErrOf, IsOk, OnOk, Ok, Err, min, length};
ghost use Rattle.cv_keys.specs.Intervals.{in_bytes};
ghost use Rattle.cv_keys.specs.KeyBytes.{place_key, end_key};
ghost use Rattle.cv_keys.specs.KeyOrder.{PlaceInRange, EndInRange};
ghost use Rattle.cv_keys.specs.Ranges.{items_of, given, end_at, lower_end, upper_end, bound_fields, interval_of, range_interval};

use crate::encode::{put, put_key};
use crate::interval::Interval;
use crate::key::Key;
use crate::kinds::LAST;
use crate::length::key_len;
use crate::range::{Bound, Range, RangeFault};
use crate::schema::Schema;
use cv_values::{Memory, Val};
use std::alloc::Global;

fn each_len(values: &[Val]) -> usize
    ensures { result ≡ min (length (place_key (items_of values.now))) (2 ^ 64 - 1) }
{
    let mut total = 0usize;
    for v in values {
        total = total.saturating_add(key_len(v));
    }
    total
}

fn put_each(out: &mut Vec<u8>, values: &[Val]) -> Result<(), Memory>
    ensures bytes { OnOk result (out.new.items ≡ out.old.items ++ place_key (items_of values.now)) }
    ensures in_range { OnOk result (PlaceInRange (items_of values.now)) }
{
    for v in values {
        put_key(out, v)?;
    }
    Ok(())
}

// Writes the keys of the values, and then that of the bound if there is one.
#[tactic(auto, using(crate::proofs::Prefixes::in_range_last))]
fn put_prefix(out: &mut Vec<u8>, values: &[Val], bound: Option<&Val>) -> Result<(), Memory>
    ensures bytes { OnOk result (out.new.items ≡ out.old.items ++ place_key (given values.now bound.entry)) }
    ensures in_range { OnOk result (PlaceInRange (given values.now bound.entry)) }
{
    put_each(out, values)?;
    // Two returns, since what holds of each branch is lost where they join.
    if let Some(v) = bound {
        put_key(out, v)?;
        return Ok(());
    }
    Ok(())
}

fn prefix_len(values: &[Val], bound: Option<&Val>) -> usize
    ensures { result ≡ min (length (place_key (given values.now bound.entry))) (2 ^ 64 - 1) }
{
    match bound {
        None => each_len(values),
        Some(v) => each_len(values).saturating_add(key_len(v)),
    }
}

// The key of an end: the values, then the bound if there is one, then FF where it stands behind.
fn end_of(alloc: Global, values: &[Val], bound: Option<&Val>, behind: bool) -> Result<Key, Memory>
    ensures key { IfOk result (λ k. k ≡ end_key (end_at (given values.now bound.entry) behind)) }
    ensures in_range { OnOk result (EndInRange (end_at (given values.now bound.entry) behind)) }
{
    let room = prefix_len(values, bound).saturating_add(usize::from(behind));
    let mut out = Vec::with_capacity(alloc, room)?;
    put_prefix(&mut out, values, bound)?;
    // Two returns again.
    if behind {
        put(&mut out, &[LAST])?;
        return Ok(Key::from_vec(out));
    }
    Ok(Key::from_vec(out))
}

fn lower_end(alloc: Global, values: &[Val], bound: &Bound) -> Result<Key, Memory>
    ensures key { IfOk result (λ k. k ≡ end_key (lower_end (items_of values.now) bound.now)) }
    ensures in_range { OnOk result (EndInRange (lower_end (items_of values.now) bound.now)) }
{
    match bound {
        Bound::None => end_of(alloc, values, None, false),
        Bound::Including(v) => end_of(alloc, values, Some(v), false),
        Bound::Excluding(v) => end_of(alloc, values, Some(v), true),
    }
}

fn upper_end(alloc: Global, values: &[Val], bound: &Bound) -> Result<Key, Memory>
    ensures key { IfOk result (λ k. k ≡ end_key (upper_end (items_of values.now) bound.now)) }
    ensures in_range { OnOk result (EndInRange (upper_end (items_of values.now) bound.now)) }
{
    match bound {
        Bound::None => end_of(alloc, values, None, true),
        Bound::Including(v) => end_of(alloc, values, Some(v), true),
        Bound::Excluding(v) => end_of(alloc, values, Some(v), false),
    }
}

// The fields that a range needs.
fn fields_of(range: &Range) -> usize
    ensures { result ≡ length range.now.equal + bound_fields range.now.lower range.now.upper }
{
    let equal = range.equal.as_slice().len();
    match (&range.lower, &range.upper) {
        (Bound::None, Bound::None) => equal,
        _ => equal + 1,
    }
}

impl Range {
    /// The interval of the range, of whatever index: the keys that begin with those of the equalities
    /// and go on between the bounds. A range whose bounds leave nothing between them has an interval
    /// too, which holds no key. Its ends are some that the key order law speaks of.
    pub fn interval(&self, alloc: Global) -> Result<Interval, Memory>
        ensures ok { IfOk result (λ i. i ≡ in_bytes (range_interval self.now)) }
        ensures in_range { OnOk result (EndInRange (range_interval self.now).lo × EndInRange (range_interval self.now).hi) }
    {
        let equal = self.equal.as_slice();
        Ok(Interval {
            table: self.table,
            index: self.index,
            lo: lower_end(alloc, equal, &self.lower)?,
            hi: upper_end(alloc, equal, &self.upper)?,
        })
    }
}

/// The interval of a range of an index that is there.
///
/// A range of an index that isn't there is refused as `NoIndex`; one that names more fields than its
/// index has, as `NoField`; no other is, and both are found before it takes memory. Where it is made,
/// its ends are some that the key order law speaks of.
pub fn interval_of(alloc: Global, schema: &Schema, range: &Range) -> Result<Interval, RangeFault>
    ensures ok { IfOk result (λ i. interval_of schema.now range.now ≡ Ok i) }
    ensures err { IfErr result (λ e. e ≢ RangeFault.Memory → interval_of schema.now range.now ≡ Err e) }
    ensures memory { IsErrOf result RangeFault.Memory → IsOk (interval_of schema.now range.now) }
    ensures in_range { OnOk result (EndInRange (range_interval range.now).lo × EndInRange (range_interval range.now).hi) }
{
    let Some(index) = schema.index_at(range.table, range.index) else {
        return Err(RangeFault::NoIndex);
    };
    if fields_of(range) > index.fields.as_slice().len() {
        return Err(RangeFault::NoField);
    }
    Ok(range.interval(alloc)?)
}
