//! Each form of the language by the machine, compared with the plain program.
use crate::run_call;
use cv_values::{Doc, DocId, Fields, Memory, Text, Val};
use fn_load::{Program, load};
use fn_plain::PlainRun;
use fn_tree::Origin;
use fn_vm::{Runs, Start};
use std::alloc::Global;
use std::test::Fail;

const BEFORE: &str = "table t { index by_n(n); }
helper twice(x) { if (x > 9) { throw \"big\"; } return x * 2; }
helper ends(x) { x + 1; }
mutation m:f() { ";

// The bodies of `m:f`, over three documents with n = 1, 2 and 3.
const BODIES: [&str; 39] = [
    "return 1 + 2 * 3 - 8 / 3 % 2;",
    "return [\"a\" + \"b\", -1, !true, null, {k: 1, j: false}];",
    "return [false && 1 == 1, true || false, 1 < 2, 2 <= 1, \"a\" > \"b\", 1 >= 1, 1 != 2];",
    "return true && 1;",
    "return 1 || true;",
    "return 9223372036854775807 + 1;",
    "return 1 / 0;",
    "let x = 1; x = x + 1; if (x == 2) { let y = 3; x = y; } else { x = 0; } return x;",
    "if (1) { return 2; }",
    "let s = 0; for (i in [4, 5, 6]) { for (j in range(0, i)) { s = s + j; } } return s;",
    "for (i in 3) { return i; }",
    "for (i in range(0, 5)) { if (i == 3) { return i; } }",
    "return twice(twice(2));",
    "return twice(10);",
    "return [ends(1), twice(4)];",
    "throw \"no\";",
    "throw 1;",
    "1 + 1;",
    "let a = push([1], 2); return [a[1], len(a), slice(a, 0, 1), range(2, 4)];",
    "let o = set({b: 1}, \"a\", 2); return [o.a, o[\"b\"], keys(o), has(o, \"c\"), without(o, \"b\"), show(7)];",
    "let a = [1]; a = push(a, 2); a = push(a, len(a)); a = push(a, a); return a;",
    "let o = {}; let n = \"x\"; o = set(o, n, 1); o = set(o, n, o); o = set(o, \"y\", n); return [o, n];",
    "let a = 1; a = push(a, 2); return a;",
    "let a = [1]; let b = [2]; a = push(b, a); return [a, b];",
    "let o = {}; o = set(o, \"$x\", 1); return o;",
    "return [1][1];",
    "return {a: 1}.b;",
    "return count(\"t\");",
    "return scan(\"t\", \"by_n\", n >= 2);",
    "return scan(\"t\", \"by_n\", n > 1, n <= 3) desc take (1);",
    "return scan(\"t\", \"by_creation_time\") take (0 - 1);",
    "let r = scan(\"t\", \"by_n\", n == 2); return get(r[0]._id);",
    "return get(\"x\");",
    "let id = insert(\"t\", {n: 7}); let r = scan(\"t\", \"by_n\") desc take (2); return [id, r, now()];",
    "let r = scan(\"t\", \"by_n\") take (1); patch(r[0]._id, {n: 9, m: 1}); return scan(\"t\", \"by_n\");",
    "let r = scan(\"t\", \"by_n\") take (2); replace(r[1]._id, {m: 1}); delete(r[0]._id); return count(\"t\");",
    "let id = insert(\"t\", {n: 7}); delete(id); return get(id);",
    "insert(\"t\", {_n: 1}); return 1;",
    "let id = insert(\"t\", {n: 7}); delete(id); delete(id);",
];

// The document of request r with this n.
fn doc(alloc: Global, r: u32) -> Result<Doc, Memory> {
    let mut fields = Fields::new(alloc);
    drop(fields.insert(Text::of(alloc, "n")?, Val::Int(i64::from(r)))?);
    Ok(Doc {
        id: DocId {
            table: 0,
            session: 9,
            request: r,
            ordinal: 0,
        },
        creation: i64::from(r),
        fields,
    })
}

fn program_of(alloc: Global, body: &str) -> Result<Program, Fail> {
    let mut text = String::with_capacity(alloc, BEFORE.len() + body.len() + 2)?;
    text.push_str(BEFORE)?;
    text.push_str(body)?;
    text.push_str(" }")?;
    match load(alloc, text.as_bytes()) {
        Ok(program) => Ok(program),
        Err(_) => Err(Fail::from("no program")),
    }
}

fn are_same(a: &PlainRun, b: &PlainRun) -> bool {
    let same = a.reply == b.reply && a.cost == b.cost && a.reads == b.reads;
    same && a.writes.as_slice() == b.writes.as_slice()
}

// The call of `m:f` by session 1.
fn origin() -> Option<Origin> {
    Some(Origin {
        session: 1,
        request: 1,
        now: 5,
    })
}

// The machine's run of `m:f`, and how many runs were begun for it.
fn by_machine(alloc: Global, program: &Program, docs: &[Doc]) -> Result<(PlainRun, u64), Memory> {
    let udf = Text::of(alloc, "m:f")?;
    let args = Fields::new(alloc);
    let start = Start {
        udf: &udf,
        args: &args,
        origin: origin(),
    };
    let mut runs = Runs { count: 0 };
    let run = run_call(alloc, program, &start, docs, &mut runs)?;
    Ok((run, runs.count))
}

fn by_plain_program(alloc: Global, program: &Program, docs: &[Doc]) -> Result<PlainRun, Memory> {
    let udf = Text::of(alloc, "m:f")?;
    let args = Fields::new(alloc);
    let start = fn_plain::Start {
        udf: &udf,
        args: &args,
        origin: origin(),
    };
    fn_plain::run(alloc, &program.checked, &start, docs)
}

// Whether the machine's run of `m:f` with this body is the plain program's.
fn agrees(alloc: Global, docs: &[Doc], body: &str) -> Result<bool, Fail> {
    let program = program_of(alloc, body)?;
    let plain = by_plain_program(alloc, &program, docs)?;
    let (run, count) = by_machine(alloc, &program, docs)?;
    Ok(count == 1 && are_same(&run, &plain))
}

fn three_docs(alloc: Global) -> Result<Vec<Doc>, Memory> {
    let mut docs = Vec::new(alloc);
    for r in 1..4u32 {
        docs.push(doc(alloc, r)?)?;
    }
    Ok(docs)
}

#[test]
fn the_machine_agrees_with_the_plain_program(rt: HostRuntime) -> Result<(), Fail> {
    let alloc = rt.alloc();
    let docs = three_docs(alloc)?;
    for body in BODIES {
        assert!(rt; agrees(alloc, docs.as_slice(), body)?, "{body}");
    }
    Ok(())
}
