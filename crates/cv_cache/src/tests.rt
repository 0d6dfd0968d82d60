use crate::QueryCache;
use cv_keys::{Interval, Key, key_of};
use cv_reads::{Mark, ReadSet};
use cv_store::Look;
use cv_values::{Fields, Memory, Text, Val};
use fn_tree::{Query, Reply};
use std::alloc::Global;
use std::test::Fail;

fn key(alloc: Global, n: i64) -> Result<Key, Memory> {
    key_of(alloc, &Val::Int(n))
}

// The query of a number.
fn query(alloc: Global, n: i64) -> Result<Query, Memory> {
    let mut args = Fields::new(alloc);
    drop(args.insert(Text::of(alloc, "n")?, Val::Int(n))?);
    Ok(Query {
        udf: Text::of(alloc, "m:get")?,
        args,
    })
}

// The keys from that of a number up to and without that of the next.
fn interval(alloc: Global, n: i64) -> Result<Interval, Memory> {
    Ok(Interval {
        table: 0,
        index: 2,
        lo: key(alloc, n)?,
        hi: key(alloc, n.wrapping_add(1))?,
    })
}

// What the query of a number reads, some of it twice.
fn reads(alloc: Global, n: i64) -> Result<ReadSet, Memory> {
    let mut reads = ReadSet::new(alloc);
    reads.add(interval(alloc, n)?)?;
    reads.add(interval(alloc, n.wrapping_add(5000))?)?;
    reads.add(interval(alloc, n)?)?;
    Ok(reads)
}

// Keeps the answer of the query of a number at a timestamp, which is the timestamp.
fn keep(alloc: Global, cache: &mut QueryCache, n: i64, ts: u32) -> Result<(), Memory> {
    let reply = Reply::Value(Val::Int(i64::from(ts)));
    let query = query(alloc, n)?;
    cache.keep(alloc, &query, u64::from(ts), &reply, &reads(alloc, n)?)
}

// At which timestamp the answer was kept that a look gives with its three reads, or 0 for a miss.
fn found(alloc: Global, cache: &mut QueryCache, n: i64, ts: u64) -> Result<i64, Memory> {
    match cache.look(alloc, &query(alloc, n)?, ts)? {
        Look::Hit {
            reply: Reply::Value(Val::Int(kept)),
            reads,
        } => Ok(if reads.len() == 3 { kept } else { -1 }),
        Look::Hit { .. } => Ok(-1),
        Look::Miss => Ok(0),
    }
}

fn write(alloc: Global, cache: &mut QueryCache, n: i64) -> Result<(), Memory> {
    let mark = Mark {
        ts: 10,
        write: 0,
        fresh: true,
        table: 0,
        index: 2,
        key: key(alloc, n)?,
    };
    cache.invalidate(&[mark]);
    Ok(())
}

#[test]
fn a_look_finds_what_was_kept_before(rt: HostRuntime) -> Result<(), Fail> {
    let alloc = rt.alloc();
    let mut cache = QueryCache::new(alloc)?;
    keep(alloc, &mut cache, 7, 3)?;
    for (n, ts, kept) in [(7, 3, 3), (7, 9, 3), (7, 2, 0), (8, 9, 0)] {
        assert_eq!(rt; found(alloc, &mut cache, n, ts)?, kept);
    }
    Ok(())
}

#[test]
fn the_newer_of_two_answers_stays(rt: HostRuntime) -> Result<(), Fail> {
    let alloc = rt.alloc();
    let mut cache = QueryCache::new(alloc)?;
    for ts in [5, 3, 5, 7, 6] {
        keep(alloc, &mut cache, 7, ts)?;
    }
    for (ts, kept) in [(5, 0), (6, 0), (7, 7), (9, 7)] {
        assert_eq!(rt; found(alloc, &mut cache, 7, ts)?, kept);
    }
    Ok(())
}

#[test]
fn a_write_takes_out_what_it_touches(rt: HostRuntime) -> Result<(), Fail> {
    let alloc = rt.alloc();
    let mut cache = QueryCache::new(alloc)?;
    for n in [7, 8, 9] {
        keep(alloc, &mut cache, n, 3)?;
    }
    write(alloc, &mut cache, 6)?;
    write(alloc, &mut cache, 8)?;
    write(alloc, &mut cache, 5009)?;
    for (n, kept) in [(7, 3), (8, 0), (9, 0)] {
        assert_eq!(rt; found(alloc, &mut cache, n, 9)?, kept);
    }
    keep(alloc, &mut cache, 8, 4)?;
    assert_eq!(rt; found(alloc, &mut cache, 8, 9)?, 4);
    write(alloc, &mut cache, 8)?;
    assert_eq!(rt; found(alloc, &mut cache, 8, 9)?, 0);
    Ok(())
}

#[test]
fn the_entry_used_longest_ago_goes(rt: HostRuntime) -> Result<(), Fail> {
    let alloc = rt.alloc();
    let mut cache = QueryCache::new(alloc)?;
    for n in 0..1024 {
        keep(alloc, &mut cache, n, 3)?;
    }
    assert_eq!(rt; found(alloc, &mut cache, 0, 3)?, 3);
    keep(alloc, &mut cache, 2000, 3)?;
    for (n, kept) in [(0, 3), (1, 0), (2, 3), (1023, 3), (2000, 3)] {
        assert_eq!(rt; found(alloc, &mut cache, n, 3)?, kept);
    }
    write(alloc, &mut cache, 1)?;
    keep(alloc, &mut cache, 1, 3)?;
    for (n, kept) in [(1, 3), (2, 3), (3, 0), (4, 3)] {
        assert_eq!(rt; found(alloc, &mut cache, n, 3)?, kept);
    }
    Ok(())
}
