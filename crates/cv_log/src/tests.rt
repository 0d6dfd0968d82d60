ghost use Rattle.std.specs.Prelude.{◌≡◌, ◌<◌, ◌^◌, [], ◌∷◌, ◌++◌, length, true};

use crate::WriteLog;
use cv_keys::{Index, Interval, Key, Write, index_key, key_of};
use cv_reads::{Mark, ReadSet};
use cv_store::Conflict;
use cv_values::{Doc, DocId, Fields, Memory, Seq, Text, Val};
use fn_tree::{Call, Entry, Reply};
use std::alloc::Global;
use std::test::Fail;

// The index of the field n.
fn index(alloc: Global) -> Result<Index, Memory> {
    let mut fields = Seq::new(alloc);
    fields.push(Text::of(alloc, "n")?)?;
    Ok(Index {
        name: Text::of(alloc, "by_n")?,
        fields,
    })
}

fn id(request: u32) -> DocId
    ensures { result.table ≡ 0 }
{
    DocId {
        table: 0,
        session: 7,
        request,
        ordinal: 0,
    }
}

fn doc(alloc: Global, request: u32, n: i64) -> Result<Doc, Memory> {
    let mut fields = Fields::new(alloc);
    drop(fields.insert(Text::of(alloc, "n")?, Val::Int(n))?);
    Ok(Doc {
        id: id(request),
        creation: 0,
        fields,
    })
}

fn call(alloc: Global, request: u32) -> Result<Call, Memory> {
    Ok(Call {
        session: 7,
        request,
        udf: Text::of(alloc, "m:put")?,
        args: Fields::new(alloc),
        now: 0,
    })
}

// The mark of a write's new document in the index of its table.
fn mark(ts: u64, key: Key) -> Mark
    ensures { result ≡ record { ts = ts; write = 0; fresh = true; table = 0; index = 0; key = key } }
{
    Mark {
        ts,
        write: 0,
        fresh: true,
        table: 0,
        index: 0,
        key,
    }
}

// Appends the entry of a request of session 7 that put a document with the number n, unless it is there.
fn put(alloc: Global, log: &mut WriteLog, request: u32, n: i64) -> Result<(), Memory> {
    log.reserve()?;
    let index = index(alloc)?;
    let doc = doc(alloc, request, n)?;
    let mut marks = Vec::new(alloc);
    marks.push(mark(log.len() + 1, index_key(alloc, &doc, &index)?))?;
    let write = Write {
        id: id(request),
        old: None,
        new: Some(doc),
    };
    let mut writes = Seq::new(alloc);
    writes.push(write)?;
    let call = call(alloc, request)?;
    match log.find(call.session, call.request) {
        Some(_) => Ok(()),
        None => {
            let entry = Entry {
                call,
                reply: Reply::Value(Val::Int(n)),
                writes,
            };
            log.append(entry, marks);
            Ok(())
        }
    }
}

// From `lo` up to and without `hi`.
fn interval(alloc: Global, lo: i64, hi: i64) -> Result<Interval, Memory> {
    Ok(Interval {
        table: 0,
        index: 0,
        lo: key_of(alloc, &Val::Int(lo))?,
        hi: key_of(alloc, &Val::Int(hi))?,
    })
}

// The first touch of [10, 20) and [15, 30) after a timestamp.
fn touched(alloc: Global, log: &WriteLog, s: u64) -> Result<Option<Conflict>, Memory> {
    let mut reads = ReadSet::new(alloc);
    reads.add(interval(alloc, 10, 20)?)?;
    reads.add(interval(alloc, 15, 30)?)?;
    if reads.len() > 2 {
        return Ok(None);
    }
    Ok(log.first_touch_since(&reads, s))
}

// Requests 5, 6 and 8 of session 7, which put 9, 17 and 20.
fn log(alloc: Global) -> Result<WriteLog, Memory> {
    let mut log = WriteLog::new(alloc);
    put(alloc, &mut log, 5, 9)?;
    put(alloc, &mut log, 6, 17)?;
    put(alloc, &mut log, 8, 20)?;
    Ok(log)
}

fn conflict(ts: u64, range: u32) -> Option<Conflict> {
    Some(Conflict {
        ts,
        write: 0,
        fresh: true,
        table: 0,
        index: 0,
        range,
    })
}

#[test]
fn entries_stand_under_timestamps_and_requests(rt: HostRuntime) -> Result<(), Fail> {
    let alloc = rt.alloc();
    let empty = WriteLog::new(alloc);
    assert!(rt; empty.len() == 0 && empty.entry(1).is_none() && empty.find(7, 5).is_none());
    let log = log(alloc)?;
    assert!(rt; log.len() == 3);
    assert!(rt; log.entry(0).is_none() && log.entry(4).is_none());
    assert!(rt; log.entry(2).expect(&rt, "an entry").call.request == 6);
    assert_eq!(rt; log.find(7, 8), Some(3));
    assert!(rt; log.find(7, 7).is_none() && log.find(8, 8).is_none());
    Ok(())
}

#[test]
fn the_first_touch_comes_after_the_timestamp(rt: HostRuntime) -> Result<(), Fail> {
    let alloc = rt.alloc();
    let log = log(alloc)?;
    assert_eq!(rt; touched(alloc, &log, 0)?, conflict(2, 0));
    assert_eq!(rt; touched(alloc, &log, 1)?, conflict(2, 0));
    assert_eq!(rt; touched(alloc, &log, 2)?, conflict(3, 1));
    assert_eq!(rt; touched(alloc, &log, 3)?, None);
    assert_eq!(rt; touched(alloc, &log, u64::MAX)?, None);
    Ok(())
}

#[test]
fn marks_stand_under_timestamps(rt: HostRuntime) -> Result<(), Fail> {
    let alloc = rt.alloc();
    let log = log(alloc)?;
    assert!(rt; log.marks_of(0).is_empty() && log.marks_of(4).is_empty());
    assert!(rt; log.marks_of(2).len() == 1 && log.marks_of(2)[0].ts == 2);
    Ok(())
}
