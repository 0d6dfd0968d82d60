use crate::marks::marks_of;
use crate::tail::tail_of;
use crate::{Core, SoloStore};
use cv_keys::{Index, Schema, Table, Write};
use cv_log::WriteLog;
use cv_store::{Begun, Look, ReadReq, Store};
use cv_values::{Doc, DocId, Fields, Memory, Seq, Text, Val};
use fn_check::check;
use fn_tree::{Call, Entry, Module, Query, Reply};
use std::alloc::Global;
use std::test::Fail;

// One table with so many indexes by id.
fn schema(alloc: Global, count: u32) -> Result<Schema, Memory> {
    let mut indexes = Seq::new(alloc);
    for _at in 0..count {
        let mut fields = Seq::new(alloc);
        fields.push(Text::of(alloc, "_id")?)?;
        indexes.push(Index {
            name: Text::of(alloc, "by_id")?,
            fields,
        })?;
    }
    let mut tables = Seq::new(alloc);
    tables.push(Table {
        name: Text::of(alloc, "t")?,
        indexes,
    })?;
    Ok(Schema { tables })
}

fn id(request: u32) -> DocId {
    DocId {
        table: 0,
        session: 7,
        request,
        ordinal: 0,
    }
}

// So many writes that put documents without fields.
fn writes(alloc: Global, count: u32) -> Result<Seq<Write>, Memory> {
    let mut writes = Seq::new(alloc);
    for request in 0..count {
        let doc = Doc {
            id: id(request),
            creation: 0,
            fields: Fields::new(alloc),
        };
        writes.push(Write {
            id: id(request),
            old: None,
            new: Some(doc),
        })?;
    }
    Ok(writes)
}

fn call(alloc: Global, request: u32) -> Result<Call, Memory> {
    Ok(Call {
        session: 7,
        request,
        udf: Text::of(alloc, "m:put")?,
        args: Fields::new(alloc),
        now: 0,
    })
}

// Appends the entry of a request with so many writes, unless the request is there.
fn append(
    alloc: Global,
    log: &mut WriteLog,
    schema: &Schema,
    request: u32,
    count: u32,
) -> Result<(), Memory> {
    log.reserve()?;
    let writes = writes(alloc, count)?;
    let marks = marks_of(alloc, schema, log.len() + 1, writes.as_slice())?;
    let call = call(alloc, request)?;
    match log.find(call.session, call.request) {
        Some(_) => Ok(()),
        None => {
            let entry = Entry {
                call,
                reply: Reply::Value(Val::Null),
                writes,
            };
            log.append(entry, marks);
            Ok(())
        }
    }
}

// A log of so many entries, each with so many writes in so many indexes.
fn log(alloc: Global, entries: u32, count: u32, indexes: u32) -> Result<WriteLog, Memory> {
    let schema = schema(alloc, indexes)?;
    let mut log = WriteLog::new(alloc);
    for request in 0..entries {
        append(alloc, &mut log, &schema, request, count)?;
    }
    Ok(log)
}

// Up to where a tail goes, how many marks it has, and the log's length.
fn tail(alloc: Global, log: &WriteLog, from: u64) -> Result<(u64, usize, u64), Memory> {
    let tail = tail_of(alloc, log, from)?;
    Ok((tail.to, tail.marks.as_slice().len(), tail.end))
}

#[test]
fn a_tail_takes_256_entries(rt: HostRuntime) -> Result<(), Fail> {
    let alloc = rt.alloc();
    let log = log(alloc, 300, 1, 2)?;
    assert!(rt; tail(alloc, &log, 0)? == (256, 512, 300));
    assert!(rt; tail(alloc, &log, 44)? == (300, 512, 300));
    assert!(rt; tail(alloc, &log, 256)? == (300, 88, 300));
    assert!(rt; tail(alloc, &log, 300)? == (300, 0, 300));
    assert!(rt; tail(alloc, &log, u64::MAX)? == (300, 0, 300));
    Ok(())
}

#[test]
fn a_tail_takes_65536_marks(rt: HostRuntime) -> Result<(), Fail> {
    let alloc = rt.alloc();
    let log = log(alloc, 5, 64, 256)?;
    assert!(rt; tail(alloc, &log, 0)? == (4, 65_536, 5));
    assert!(rt; tail(alloc, &log, 1)? == (5, 65_536, 5));
    assert!(rt; tail(alloc, &log, 4)? == (5, 16_384, 5));
    Ok(())
}

#[test]
fn a_tail_takes_one_entry_at_least(rt: HostRuntime) -> Result<(), Fail> {
    let alloc = rt.alloc();
    let log = log(alloc, 2, 257, 256)?;
    assert!(rt; tail(alloc, &log, 0)? == (1, 65_792, 2));
    assert!(rt; tail(alloc, &log, 1)? == (2, 65_792, 2));
    Ok(())
}

// The core of the empty module.
fn core(alloc: Global) -> Result<Option<Core>, Memory> {
    let module = Module {
        tables: Vec::new(alloc),
        functions: Vec::new(alloc),
    };
    match check(alloc, module)? {
        Err(_) => Ok(None),
        Ok(checked) => Ok(Some(Core::new(alloc, checked)?)),
    }
}

#[test]
fn a_new_core_has_the_empty_log(rt: HostRuntime) -> Result<(), Fail> {
    let alloc = rt.alloc();
    let core = core(alloc)?.expect(&rt, "a module");
    assert!(rt; core.len() == 0 && core.entry(0).is_none() && core.entry(1).is_none());
    let mut store = SoloStore::new(core);
    assert!(rt; matches!(store.begin(alloc, 7, 1)?, Begun::Fresh { ts: 0 }));
    assert!(rt; store.tail(alloc, 0)?.end == 0 && store.core().len() == 0);
    assert!(rt;
        store
            .read(alloc, 0, &ReadReq::Get { id: id(1) })?
            .is_empty()
    );
    let query = Query {
        udf: Text::of(alloc, "q:none")?,
        args: Fields::new(alloc),
    };
    assert!(rt; matches!(store.look(alloc, &query, 0)?, Look::Miss));
    assert!(rt; store.into_core().len() == 0);
    Ok(())
}
