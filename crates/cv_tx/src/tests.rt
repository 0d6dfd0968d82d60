use crate::Tx;
use cv_keys::{Bound, Index, Interval, Key, Range, Schema, Table, index_key, interval_of};
use cv_store::ReadReq;
use cv_values::{Doc, DocId, Fields, Memory, Seq, Text, Val, Vals};
use fn_tree::{Answer, Ask, Call, Left, Put, Reply};
use std::alloc::Global;
use std::test::Fail;

fn index(alloc: Global, names: &[&str]) -> Result<Index, Memory> {
    let mut fields = Seq::new(alloc);
    for name in names {
        fields.push(Text::of(alloc, name)?)?;
    }
    Ok(Index {
        name: Text::of(alloc, "by")?,
        fields,
    })
}

// Table 0 with `by_id`, `by_creation_time` and the index of `n`.
fn schema(alloc: Global) -> Result<Schema, Memory> {
    let mut indexes = Seq::new(alloc);
    indexes.push(index(alloc, &["_id"])?)?;
    indexes.push(index(alloc, &["_creationTime", "_id"])?)?;
    indexes.push(index(alloc, &["n", "_creationTime", "_id"])?)?;
    let name = Text::of(alloc, "t")?;
    let mut tables = Seq::new(alloc);
    tables.push(Table { name, indexes })?;
    Ok(Schema { tables })
}

fn id(request: u32) -> DocId {
    DocId {
        table: 0,
        session: 9,
        request,
        ordinal: 0,
    }
}

fn doc(alloc: Global, request: u32, n: i64) -> Result<Doc, Memory> {
    let mut fields = Fields::new(alloc);
    drop(fields.insert(Text::of(alloc, "n")?, Val::Int(n))?);
    Ok(Doc {
        id: id(request),
        creation: 0,
        fields,
    })
}

fn doc_or_none(alloc: Global, request: u32, n: Option<i64>) -> Result<Option<Doc>, Memory> {
    match n {
        None => Ok(None),
        Some(n) => Ok(Some(doc(alloc, request, n)?)),
    }
}

fn put(
    alloc: Global,
    tx: &mut Tx,
    request: u32,
    old: Option<i64>,
    new: Option<i64>,
) -> Result<(), Memory> {
    tx.put(Put {
        id: id(request),
        old: doc_or_none(alloc, request, old)?,
        new: doc_or_none(alloc, request, new)?,
    })
}

// Over rows 10, 20 and 30 the run deletes 20, inserts 25 and moves 30 to 5, by way of 7.
fn changed(alloc: Global) -> Result<Tx, Memory> {
    let mut tx = Tx::new(alloc, 3);
    put(alloc, &mut tx, 20, Some(20), None)?;
    put(alloc, &mut tx, 25, None, Some(25))?;
    put(alloc, &mut tx, 30, Some(30), Some(7))?;
    put(alloc, &mut tx, 30, Some(7), Some(5))?;
    Ok(tx)
}

// All of the index of `n`.
fn all(alloc: Global) -> Result<Interval, Fail> {
    let range = Range {
        table: 0,
        index: 2,
        equal: Vals::new(alloc),
        lower: Bound::None,
        upper: Bound::None,
    };
    Ok(interval_of(alloc, &schema(alloc)?, &range)?)
}

// The first rows of 10, 20 and 30 in the direction, as many as the store is asked for.
fn stored(alloc: Global, req: &ReadReq, snapshot: &[u32]) -> Result<Vec<Doc>, Memory> {
    let mut docs = Vec::new(alloc);
    if let ReadReq::Scan { desc, rows, .. } = req {
        for k in snapshot {
            docs.push(doc(alloc, *k, i64::from(*k))?)?;
        }
        if *desc {
            docs.reverse();
        }
        docs.truncate(*rows as usize);
    }
    Ok(docs)
}

fn scan(
    alloc: Global,
    tx: &mut Tx,
    snapshot: &[u32],
    desc: bool,
    limit: Option<u32>,
) -> Result<Option<Answer>, Fail> {
    let schema = schema(alloc)?;
    let interval = all(alloc)?;
    if schema.index_at(interval.table, interval.index).is_none() {
        return Ok(None);
    }
    let ask = Ask::Scan {
        interval,
        desc,
        limit,
        left: Left {
            cost: 1000,
            rows: 1000,
            size: 100_000,
        },
    };
    let rows = stored(alloc, &tx.plan(alloc, &ask)?, snapshot)?;
    Ok(Some(tx.answer(alloc, &schema, &ask, rows)?))
}

fn has_numbers(alloc: Global, answer: &Answer, numbers: &[i64]) -> Result<bool, Memory> {
    let name = Text::of(alloc, "n")?;
    let mut same = answer.docs.len() == numbers.len();
    for (doc, n) in answer.docs.iter().zip(numbers.iter()) {
        same = same && doc.fields.get(&name) == Some(&Val::Int(*n));
    }
    Ok(same)
}

fn key(alloc: Global, request: u32, n: i64) -> Result<Key, Memory> {
    index_key(
        alloc,
        &doc(alloc, request, n)?,
        &index(alloc, &["n", "_creationTime", "_id"])?,
    )
}

// The rows of a scan over the changed rows, and the ends of what it consumed.
fn consumes(
    alloc: Global,
    desc: bool,
    limit: Option<u32>,
    numbers: &[i64],
    lo: Key,
    hi: Key,
) -> Result<bool, Fail> {
    match scan(alloc, &mut changed(alloc)?, &[10, 20, 30], desc, limit)? {
        None => Ok(false),
        Some(answer) => {
            let same = answer.consumed.lo == lo && answer.consumed.hi == hi;
            Ok(same && has_numbers(alloc, &answer, numbers)?)
        }
    }
}

#[test]
fn scans_upwards_see_the_writes(rt: HostRuntime) -> Result<(), Fail> {
    let alloc = rt.alloc();
    let lo = || all(alloc).map(|i| i.lo);
    assert!(rt; consumes(alloc, false, None, &[5, 10, 25], lo()?, all(alloc)?.hi)?);
    assert!(rt; consumes(alloc, false, Some(0), &[], lo()?, lo()?)?);
    assert!(rt;
        consumes(
            alloc,
            false,
            Some(1),
            &[5],
            lo()?,
            key(alloc, 30, 5)?.past(alloc)?
        )?
    );
    assert!(rt;
        consumes(
            alloc,
            false,
            Some(2),
            &[5, 10],
            lo()?,
            key(alloc, 10, 10)?.past(alloc)?
        )?
    );
    assert!(rt;
        consumes(
            alloc,
            false,
            Some(3),
            &[5, 10, 25],
            lo()?,
            key(alloc, 25, 25)?.past(alloc)?
        )?
    );
    Ok(())
}

#[test]
fn scans_downwards_see_the_writes(rt: HostRuntime) -> Result<(), Fail> {
    let alloc = rt.alloc();
    let i = all(alloc)?;
    assert!(rt;
        consumes(
            alloc,
            true,
            None,
            &[25, 10, 5],
            i.lo.copy(alloc)?,
            i.hi.copy(alloc)?
        )?
    );
    assert!(rt;
        consumes(
            alloc,
            true,
            Some(0),
            &[],
            i.hi.copy(alloc)?,
            i.hi.copy(alloc)?
        )?
    );
    assert!(rt;
        consumes(
            alloc,
            true,
            Some(1),
            &[25],
            key(alloc, 25, 25)?,
            i.hi.copy(alloc)?
        )?
    );
    assert!(rt; consumes(alloc, true, Some(2), &[25, 10], key(alloc, 10, 10)?, i.hi)?);
    Ok(())
}

#[test]
fn an_empty_scan_consumes_all(rt: HostRuntime) -> Result<(), Fail> {
    let alloc = rt.alloc();
    let mut tx = Tx::new(alloc, 0);
    let answer = scan(alloc, &mut tx, &[], false, Some(2))?.expect(&rt, "an index");
    assert!(rt; answer.docs.is_empty() && answer.consumed == all(alloc)?);
    Ok(())
}

fn call(alloc: Global) -> Result<Call, Memory> {
    Ok(Call {
        session: 1,
        request: 1,
        udf: Text::of(alloc, "p:top")?,
        args: Fields::new(alloc),
        now: 0,
    })
}

#[test]
fn a_proposal_has_one_write_for_each_id(rt: HostRuntime) -> Result<(), Fail> {
    let alloc = rt.alloc();
    let mut tx = changed(alloc)?;
    put(alloc, &mut tx, 40, None, Some(40))?;
    put(alloc, &mut tx, 40, Some(40), None)?;
    drop(scan(alloc, &mut tx, &[10, 20, 30], false, None)?);
    let p = tx.propose(call(alloc)?, Reply::Value(Val::Null));
    let writes = p.writes.as_slice();
    assert!(rt; p.snapshot == 3 && p.reads.len() == 1 && writes.len() == 3);
    assert!(rt; writes[0].id == id(20) && writes[0].new.is_none());
    assert!(rt; writes[1].id == id(25) && writes[1].old.is_none());
    assert!(rt; writes[2].old == Some(doc(alloc, 30, 30)?));
    assert!(rt; writes[2].new == Some(doc(alloc, 30, 5)?));
    Ok(())
}

#[test]
fn an_error_drops_the_writes(rt: HostRuntime) -> Result<(), Fail> {
    let alloc = rt.alloc();
    let p = changed(alloc)?.propose(call(alloc)?, Reply::Failed(Text::of(alloc, "no")?));
    assert!(rt; p.writes.as_slice().is_empty());
    Ok(())
}
