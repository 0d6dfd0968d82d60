use crate::{Mark, ReadSet};
use cv_keys::{Interval, Key, key_of};
use cv_values::{Memory, Val};
use std::alloc::Global;
use std::test::Fail;

fn key(alloc: Global, n: i64) -> Result<Key, Memory> {
    key_of(alloc, &Val::Int(n))
}

// From `lo` up to and without `hi`, in index 2 of table 0.
fn interval(alloc: Global, lo: i64, hi: i64) -> Result<Interval, Memory> {
    Ok(Interval {
        table: 0,
        index: 2,
        lo: key(alloc, lo)?,
        hi: key(alloc, hi)?,
    })
}

fn mark(alloc: Global, index: u32, n: i64) -> Result<Mark, Memory> {
    Ok(Mark {
        ts: 1,
        write: 0,
        fresh: true,
        table: 0,
        index,
        key: key(alloc, n)?,
    })
}

fn reads(alloc: Global) -> Result<ReadSet, Memory> {
    let mut reads = ReadSet::new(alloc);
    reads.add(interval(alloc, 10, 20)?)?;
    reads.add(interval(alloc, 15, 30)?)?;
    reads.copy(alloc)
}

// The first touch of marks in the index with these numbers.
fn touched(alloc: Global, index: u32, numbers: &[i64]) -> Result<Option<(usize, usize)>, Fail> {
    let mut marks = Vec::new(alloc);
    for n in numbers {
        marks.push(mark(alloc, index, *n)?)?;
    }
    Ok(reads(alloc)?.first_touch(marks.as_slice()))
}

#[test]
fn the_first_mark_comes_before_the_first_interval(rt: HostRuntime) -> Result<(), Fail> {
    let alloc = rt.alloc();
    assert!(rt; touched(alloc, 2, &[])? == None);
    assert!(rt; touched(alloc, 2, &[9, 30])? == None);
    assert!(rt; touched(alloc, 2, &[17])? == Some((0, 0)));
    assert!(rt; touched(alloc, 2, &[9, 20, 10])? == Some((1, 1)));
    assert!(rt; touched(alloc, 1, &[17])? == None);
    Ok(())
}

#[test]
fn intervals_stand_in_the_order_of_recording(rt: HostRuntime) -> Result<(), Fail> {
    let alloc = rt.alloc();
    let reads = reads(alloc)?;
    assert!(rt; ReadSet::new(alloc).len() == 0 && reads.len() == 2);
    assert!(rt; reads.at(1) == Some(&interval(alloc, 15, 30)?));
    assert!(rt; reads.at(2) == None);
    Ok(())
}
