//! Plain runs of small modules over documents: errors and costs, and what scans read.
use cv_keys::{Write, touches};
use cv_values::{Doc, DocId, Fields, Memory, Text, Val, Vals};
use fn_check::{Checked, check};
use fn_plain::{PlainRun, Start, run};
use fn_syntax::parse;
use fn_tree::{Origin, Reply};
use std::alloc::Global;
use std::test::Fail;

const ERRORS: &str = "mutation e:sum(a, b) { return a + b; }
mutation e:no() { throw \"no\"; }
mutation e:spin(a, b, c) {
  for (i in range(0, a)) { for (j in range(0, b)) { } }
  for (k in range(0, c)) { }
  return 1;
}";

const NUMBERS: &str = "table t { index by_n(n); }
mutation p:put(n) { return insert(\"t\", {n: n}); }
mutation p:set(id, n) { patch(id, {n: n}); return n; }
mutation p:guard(lo, hi) {
  let r = scan(\"t\", \"by_n\", n >= lo, n < hi);
  if (len(r) == 0) { insert(\"t\", {n: lo}); }
  return len(r);
}
mutation p:two() { return len(scan(\"t\", \"by_n\") take (2)); }
mutation p:top(n) {
  insert(\"t\", {n: n});
  let r = scan(\"t\", \"by_n\") desc take (2);
  return [r[0].n, r[1].n];
}
query q:low(m) { return len(scan(\"t\", \"by_n\", n < m)); }";

fn load(alloc: Global, text: &str) -> Result<Checked, Fail> {
    let Ok(module) = parse(alloc, text.as_bytes())? else {
        return Err(Fail::from("no module"));
    };
    let Ok(checked) = check(alloc, module)? else {
        return Err(Fail::from("a check fails"));
    };
    Ok(checked)
}

fn fields(alloc: Global, members: &[(&str, i64)]) -> Result<Fields, Memory> {
    let mut fields = Fields::new(alloc);
    for (name, n) in members {
        drop(fields.insert(Text::of(alloc, name)?, Val::Int(*n))?);
    }
    Ok(fields)
}

// A call of session 1, or a query where there is no request.
fn call(
    alloc: Global,
    program: &Checked,
    request: Option<u32>,
    udf: &str,
    args: &Fields,
    docs: &[Doc],
) -> Result<PlainRun, Memory> {
    let udf = Text::of(alloc, udf)?;
    let origin = match request {
        None => None,
        Some(request) => Some(Origin {
            session: 1,
            request,
            now: 0,
        }),
    };
    let start = Start {
        udf: &udf,
        args,
        origin,
    };
    run(alloc, program, &start, docs)
}

// The document of request r with this n.
fn doc(alloc: Global, r: u32, n: i64) -> Result<Doc, Memory> {
    Ok(Doc {
        id: DocId {
            table: 0,
            session: 9,
            request: r,
            ordinal: 0,
        },
        creation: 0,
        fields: fields(alloc, &[("n", n)])?,
    })
}

// Whether a write of a new document with this n touches what a run read.
fn is_touched(alloc: Global, program: &Checked, run: &PlainRun, n: i64) -> Result<bool, Memory> {
    let new = doc(alloc, 99, n)?;
    let write = Write {
        id: new.id,
        old: None,
        new: Some(new),
    };
    for interval in &run.reads {
        if touches(program.schema(), &write, interval) {
            return Ok(true);
        }
    }
    Ok(false)
}

fn replied(alloc: Global, reply: Result<i64, &str>) -> Result<Reply, Memory> {
    match reply {
        Ok(n) => Ok(Reply::Value(Val::Int(n))),
        Err(why) => Ok(Reply::Failed(Text::of(alloc, why)?)),
    }
}

// A function with its arguments, and how its run over no documents ends.
#[derive(Clone, Copy)]
struct Ending<'a> {
    udf: &'a str,
    args: &'a [(&'a str, i64)],
    reply: Result<i64, &'a str>,
    cost: u64,
}

const ENDINGS: [Ending<'static>; 6] = [
    Ending {
        udf: "e:sum",
        args: &[("a", i64::MAX), ("b", 1)],
        reply: Err("Overflow"),
        cost: 1,
    },
    Ending {
        udf: "e:no",
        args: &[],
        reply: Err("Thrown: no"),
        cost: 1,
    },
    Ending {
        udf: "e:spin",
        args: &[("a", 12), ("b", 8190), ("c", 1693)],
        reply: Ok(1),
        cost: 100_000,
    },
    Ending {
        udf: "e:spin",
        args: &[("a", 12), ("b", 8190), ("c", 1694)],
        reply: Err("CostLimit"),
        cost: 100_001,
    },
    Ending {
        udf: "e:spin",
        args: &[],
        reply: Err("BadArguments"),
        cost: 0,
    },
    Ending {
        udf: "e:gone",
        args: &[],
        reply: Err("UnknownFunction"),
        cost: 0,
    },
];

// Whether a run on no documents ends so, and neither writes nor reads.
fn ends(alloc: Global, program: &Checked, ending: &Ending) -> Result<bool, Memory> {
    let args = fields(alloc, ending.args)?;
    let reply = replied(alloc, ending.reply)?;
    let over = call(alloc, program, Some(1), ending.udf, &args, &[])?;
    let quiet = over.writes.as_slice().is_empty() && over.reads.is_empty();
    Ok(quiet && over.reply == reply && over.cost == ending.cost)
}

#[test]
fn errors_end_runs_with_their_cost(rt: HostRuntime) -> Result<(), Fail> {
    let alloc = rt.alloc();
    let program = load(alloc, ERRORS)?;
    for ending in ENDINGS {
        assert!(rt; ends(alloc, &program, &ending)?, "{}", ending.udf);
    }
    Ok(())
}

// A scan over the documents of these numbers: its reply, and which new documents, with later ids, touch
// what it read.
#[derive(Clone, Copy)]
struct Scan<'a> {
    request: Option<u32>,
    udf: &'a str,
    args: &'a [(&'a str, i64)],
    numbers: &'a [u32],
    reply: i64,
    touching: &'a [i64],
    others: &'a [i64],
}

const GUARD: Scan<'static> = Scan {
    request: Some(1),
    udf: "p:guard",
    args: &[("lo", 10), ("hi", 20)],
    numbers: &[],
    reply: 0,
    touching: &[10, 15],
    others: &[9, 20],
};

const TWO: Scan<'static> = Scan {
    request: Some(1),
    udf: "p:two",
    args: &[],
    numbers: &[1, 2, 3],
    reply: 2,
    touching: &[0, 1],
    others: &[2, 3, 5],
};

const LOW: Scan<'static> = Scan {
    request: None,
    udf: "q:low",
    args: &[("m", 3)],
    numbers: &[1, 2, 3],
    reply: 2,
    touching: &[0, 2],
    others: &[3, 4],
};

const SCANS: [Scan<'static>; 8] = [
    GUARD,
    Scan {
        numbers: &[15],
        reply: 1,
        touching: &[10, 19],
        others: &[20],
        ..GUARD
    },
    Scan {
        numbers: &[20],
        touching: &[19],
        others: &[20, 21],
        ..GUARD
    },
    TWO,
    Scan {
        numbers: &[1, 2, 5],
        touching: &[1],
        ..TWO
    },
    Scan {
        numbers: &[1],
        reply: 1,
        touching: &[0, 2, 9],
        others: &[],
        ..TWO
    },
    LOW,
    Scan {
        numbers: &[1, 8, 3],
        reply: 1,
        others: &[3, 8],
        ..LOW
    },
];

fn docs_of(alloc: Global, numbers: &[u32]) -> Result<Vec<Doc>, Memory> {
    let mut docs = Vec::new(alloc);
    for n in numbers {
        docs.push(doc(alloc, *n, i64::from(*n))?)?;
    }
    Ok(docs)
}

fn scanned(alloc: Global, program: &Checked, scan: &Scan) -> Result<PlainRun, Memory> {
    let docs = docs_of(alloc, scan.numbers)?;
    let args = fields(alloc, scan.args)?;
    call(
        alloc,
        program,
        scan.request,
        scan.udf,
        &args,
        docs.as_slice(),
    )
}

#[test]
fn scans_read_what_they_consume(rt: HostRuntime) -> Result<(), Fail> {
    let alloc = rt.alloc();
    let program = load(alloc, NUMBERS)?;
    for scan in SCANS {
        let over = scanned(alloc, &program, &scan)?;
        assert!(rt; over.reply == Reply::Value(Val::Int(scan.reply)));
        for n in scan.touching {
            assert!(rt; is_touched(alloc, &program, &over, *n)?);
        }
        for n in scan.others {
            assert!(rt; !is_touched(alloc, &program, &over, *n)?);
        }
    }
    Ok(())
}

fn numbers_reply(alloc: Global, numbers: &[i64]) -> Result<Reply, Memory> {
    let mut items = Vals::new(alloc);
    for n in numbers {
        items.push(Val::Int(*n))?;
    }
    Ok(Reply::Value(Val::Arr(items)))
}

fn top_of_three(alloc: Global, program: &Checked) -> Result<PlainRun, Memory> {
    let docs = docs_of(alloc, &[1, 2, 3])?;
    let nine = fields(alloc, &[("n", 9)])?;
    call(alloc, program, Some(7), "p:top", &nine, docs.as_slice())
}

// A run sees its own row above those that were there, and reads down to the last row that it took.
#[test]
fn pending_rows_are_read(rt: HostRuntime) -> Result<(), Fail> {
    let alloc = rt.alloc();
    let program = load(alloc, NUMBERS)?;
    let over = top_of_three(alloc, &program)?;
    let both = numbers_reply(alloc, &[9, 3])?;
    assert!(rt; over.reply == both);
    assert!(rt; !is_touched(alloc, &program, &over, 2)?);
    assert!(rt; is_touched(alloc, &program, &over, 4)?);
    assert_eq!(rt; over.cost, 5);
    let writes = over.writes.as_slice();
    assert_eq!(rt; writes.len(), 1);
    Ok(())
}
