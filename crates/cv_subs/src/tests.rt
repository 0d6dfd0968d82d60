use crate::{MOST_QUERIES, Subs};
use cv_keys::{Interval, Key, key_of};
use cv_reads::{Mark, ReadSet};
use cv_store::Tail;
use cv_values::{Fields, Memory, Seq, Text, Val};
use fn_tree::{Query, Reply};
use std::alloc::Global;
use std::test::Fail;

fn key(alloc: Global, n: i64) -> Result<Key, Memory> {
    key_of(alloc, &Val::Int(n))
}

// The integers of each pair from the first one up to and without the second, in index 2 of table 0.
fn reads(alloc: Global, ranges: &[(i64, i64)]) -> Result<ReadSet, Memory> {
    let mut reads = ReadSet::new(alloc);
    for (lo, hi) in ranges {
        reads.add(Interval {
            table: 0,
            index: 2,
            lo: key(alloc, *lo)?,
            hi: key(alloc, *hi)?,
        })?;
    }
    Ok(reads)
}

fn mark(alloc: Global, n: i64) -> Result<Mark, Memory> {
    Ok(Mark {
        ts: 1,
        write: 0,
        fresh: true,
        table: 0,
        index: 2,
        key: key(alloc, n)?,
    })
}

// Adds a query under a number, where it is new and there is room.
fn add(alloc: Global, subs: &mut Subs, id: u32) -> Result<bool, Memory> {
    let query = Query {
        udf: Text::of(alloc, "q")?,
        args: Fields::new(alloc),
    };
    let fits = !subs.has(id) && subs.count() < MOST_QUERIES;
    if fits {
        subs.add(id, query);
    }
    Ok(fits)
}

// Gives the query of a number a result, where it is there: whether it is news.
fn answer(
    alloc: Global,
    subs: &mut Subs,
    id: u32,
    value: i64,
    ranges: &[(i64, i64)],
) -> Result<Option<bool>, Memory> {
    let reads = reads(alloc, ranges)?;
    if !subs.has(id) {
        return Ok(None);
    }
    let news = subs.set_result(id, Reply::Value(Val::Int(value)), reads)?;
    Ok(Some(news))
}

// Marks at these integers come.
fn advance(alloc: Global, subs: &mut Subs, numbers: &[i64]) -> Result<(), Memory> {
    let mut marks = Seq::new(alloc);
    for n in numbers {
        marks.push(mark(alloc, *n)?)?;
    }
    subs.advance(&Tail {
        from: 0,
        to: 1,
        end: 1,
        marks,
    });
    Ok(())
}

// The queries 7 and 3, which read from 15 to 30 and from 10 to 20.
fn two(alloc: Global) -> Result<Subs, Memory> {
    let mut subs = Subs::new(alloc)?;
    add(alloc, &mut subs, 7)?;
    add(alloc, &mut subs, 3)?;
    answer(alloc, &mut subs, 7, 5, &[(15, 30)])?;
    answer(alloc, &mut subs, 3, 5, &[(10, 20)])?;
    Ok(subs)
}

#[test]
fn queries_are_stale_until_they_have_a_result(rt: HostRuntime) -> Result<(), Fail> {
    let alloc = rt.alloc();
    let mut subs = Subs::new(alloc)?;
    assert!(rt; add(alloc, &mut subs, 7)?);
    assert!(rt; add(alloc, &mut subs, 3)?);
    assert!(rt; subs.next_stale(0) == Some(3));
    assert!(rt; subs.next_stale(4) == Some(7));
    assert!(rt; subs.next_stale(8).is_none());
    assert!(rt; subs.result(3).is_none());
    assert!(rt; answer(alloc, &mut subs, 3, 5, &[])? == Some(true));
    assert!(rt; subs.next_stale(3) == Some(7));
    Ok(())
}

#[test]
fn marks_make_the_queries_stale_that_read_there(rt: HostRuntime) -> Result<(), Fail> {
    let alloc = rt.alloc();
    let mut subs = two(alloc)?;
    advance(alloc, &mut subs, &[9, 30])?;
    assert!(rt; subs.next_stale(0).is_none());
    advance(alloc, &mut subs, &[25])?;
    assert!(rt; subs.next_stale(0) == Some(7));
    advance(alloc, &mut subs, &[9, 12])?;
    assert!(rt; subs.next_stale(0) == Some(3));
    assert!(rt; subs.next_stale(3) == Some(3));
    assert!(rt; subs.next_stale(4) == Some(7));
    Ok(())
}

#[test]
fn new_reads_take_the_place_of_the_old(rt: HostRuntime) -> Result<(), Fail> {
    let alloc = rt.alloc();
    let mut subs = two(alloc)?;
    answer(alloc, &mut subs, 3, 5, &[(40, 50), (40, 50)])?;
    advance(alloc, &mut subs, &[12])?;
    assert!(rt; subs.next_stale(0).is_none());
    advance(alloc, &mut subs, &[44])?;
    assert!(rt; subs.next_stale(0) == Some(3));
    Ok(())
}

#[test]
fn results_tell_whether_they_are_news(rt: HostRuntime) -> Result<(), Fail> {
    let alloc = rt.alloc();
    let mut subs = two(alloc)?;
    assert!(rt; answer(alloc, &mut subs, 3, 5, &[])? == Some(false));
    assert!(rt; answer(alloc, &mut subs, 3, 6, &[])? == Some(true));
    assert!(rt; answer(alloc, &mut subs, 4, 6, &[])?.is_none());
    let six = Reply::Value(Val::Int(6));
    assert!(rt; subs.result(3) == Some(&six));
    Ok(())
}

#[test]
fn removed_queries_are_gone(rt: HostRuntime) -> Result<(), Fail> {
    let alloc = rt.alloc();
    let mut subs = two(alloc)?;
    assert!(rt; subs.remove(3));
    assert!(rt; !subs.remove(3));
    assert!(rt; !subs.has(3) && subs.count() == 1);
    assert!(rt; subs.query(3).is_none() && subs.query(7).is_some());
    advance(alloc, &mut subs, &[17])?;
    assert!(rt; subs.next_stale(0) == Some(7));
    assert!(rt; add(alloc, &mut subs, 3)?);
    assert!(rt; subs.result(3).is_none());
    Ok(())
}

#[test]
fn there_is_room_for_256(rt: HostRuntime) -> Result<(), Fail> {
    let alloc = rt.alloc();
    let mut subs = Subs::new(alloc)?;
    for id in 0..300 {
        add(alloc, &mut subs, 300 - id)?;
    }
    assert!(rt; subs.count() == MOST_QUERIES);
    assert!(rt; subs.next_stale(0) == Some(45));
    Ok(())
}
