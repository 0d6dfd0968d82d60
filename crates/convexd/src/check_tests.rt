use crate::{Exit, ModuleFault, check_main};
use cv_outside::{MemSink, MemSource};
use fn_check::{CheckFault, CheckKind};
use fn_syntax::{SyntaxFault, Why};
use std::alloc::Global;
use std::test::Fail;

const ADD: &str = "table t{} mutation m:add(x){return x+1;}";

// Checks an input over a source and a sink whose calls of these numbers fail.
fn checked(
    alloc: Global,
    words: &[&str],
    input: &str,
    reads: &[u64],
    writes: &[u64],
) -> Result<(Exit, Vec<u8>), Fail> {
    let mut all = Vec::new(alloc);
    for word in words {
        all.push(String::from_str(alloc, word)?)?;
    }
    let bytes = input.as_bytes().to_vec(alloc)?;
    let mut source = MemSource::new(bytes, reads.to_vec(alloc)?);
    let mut sink = MemSink::new(alloc, 10_000_000, writes.to_vec(alloc)?)?;
    let exit = check_main(alloc, &all, &mut source, &mut sink);
    Ok((exit, sink.bytes().to_vec(alloc)?))
}

// How a text is refused, or None where it is accepted.
fn refused(alloc: Global, text: &str) -> Result<Option<CheckFault>, Fail> {
    match checked(alloc, &["check"], text, &[], &[])?.0 {
        Exit::Module(ModuleFault::Check(fault)) => Ok(Some(fault)),
        _ => Ok(None),
    }
}

#[test]
fn accepted_modules_are_written(rt: HostRuntime) -> Result<(), Fail> {
    let alloc = rt.alloc();
    let rows = [
        ("", ""),
        (
            ADD,
            "table t { }\nmutation m : add ( x ) { return x + 1 ; }\n",
        ),
        (
            "table t{index i(a,\"b\\t\");}// é\nhelper h(){}",
            "table t { index i ( a , \"b\\t\" ) ; }\nhelper h ( ) { }\n",
        ),
    ];
    for (input, text) in rows {
        let (ended, written) = checked(alloc, &["check"], input, &[], &[])?;
        assert_eq!(rt; ended, Exit::Done, "at {input:?}");
        assert_eq!(rt; written.as_slice(), text.as_bytes(), "at {input:?}");
    }
    Ok(())
}

#[test]
fn a_text_without_its_end_is_refused(rt: HostRuntime) -> Result<(), Fail> {
    let (ended, written) = checked(rt.alloc(), &["check"], "query q:a() {", &[], &[])?;
    let fault = SyntaxFault {
        at: 13,
        why: Why::EarlyEnd,
    };
    assert_eq!(rt; ended, Exit::Module(ModuleFault::Syntax(fault)));
    assert!(rt; written.is_empty());
    Ok(())
}

#[test]
fn words_reads_and_writes(rt: HostRuntime) -> Result<(), Fail> {
    let alloc = rt.alloc();
    let rows: [&[&str]; 4] = [&[], &["replay"], &["check", "check"], &["-check"]];
    for words in rows {
        let (ended, written) = checked(alloc, words, ADD, &[], &[])?;
        assert_eq!(rt; ended, Exit::Usage);
        assert!(rt; written.is_empty());
    }
    for k in 0..2u64 {
        let (ended, written) = checked(alloc, &["check"], ADD, &[k], &[])?;
        assert_eq!(rt; ended, Exit::Read, "at read {k}");
        assert!(rt; written.is_empty(), "at read {k}");
    }
    let (ended, written) = checked(alloc, &["check"], ADD, &[], &[0])?;
    assert_eq!(rt; ended, Exit::Write);
    assert!(rt; written.is_empty());
    Ok(())
}

#[test]
fn each_check_refuses(rt: HostRuntime) -> Result<(), Fail> {
    let rows = [
        ("table _t { }", 6, CheckKind::BadName),
        ("table t { index by_id(a); }", 16, CheckKind::BadName),
        ("table t { index i(\"\"); }", 18, CheckKind::BadName),
        ("table t { } table t { }", 18, CheckKind::DuplicateTable),
        (
            "table t { index i(a); index i(b); }",
            28,
            CheckKind::DuplicateIndex,
        ),
        ("table t { index i(a, a); }", 21, CheckKind::DuplicateField),
        (
            "query q:a() { return {a: 1, a: 2}; }",
            28,
            CheckKind::DuplicateField,
        ),
        (
            "query q:a() { return 1; } query q:a() { return y; }",
            32,
            CheckKind::DuplicateFunction,
        ),
        (
            "query q:a() { return y; } query q:a() { return 1; }",
            21,
            CheckKind::UnknownName,
        ),
        ("query q:a(x, x) { }", 13, CheckKind::DuplicateName),
        ("query q:a(x) { let x = 1; }", 19, CheckKind::DuplicateName),
        (
            "query q:a(x) { for (x in x) { } }",
            20,
            CheckKind::DuplicateName,
        ),
        ("query q:a() { x = 1; }", 14, CheckKind::UnknownName),
        ("query q:a() { let x = x; }", 22, CheckKind::UnknownName),
        ("query q:a() { return f(); }", 21, CheckKind::UnknownHelper),
        ("helper h() { return h(); }", 20, CheckKind::UnknownHelper),
        (
            "helper h(x) { } query q:a() { return h(); }",
            37,
            CheckKind::WrongArity,
        ),
        (
            "query q:a() { return len(1, 2); }",
            21,
            CheckKind::WrongArity,
        ),
        (
            "query q:a() { return count(\"t\"); }",
            27,
            CheckKind::UnknownTable,
        ),
        (
            "table t { } query q:a() { return scan(\"t\", \"i\"); }",
            43,
            CheckKind::UnknownIndex,
        ),
        (
            "table t { index i(a, b); } query q:a() { return scan(\"t\", \"i\", b == 1); }",
            63,
            CheckKind::BadBound,
        ),
        (
            "table t { } query q:a() { insert(\"t\", {}); return 1; }",
            26,
            CheckKind::WriteInQuery,
        ),
        (
            "table t { } helper h() { insert(\"t\", {}); } query q:a() { return h(); }",
            65,
            CheckKind::WriteInQuery,
        ),
        ("query q:a() { return now(); }", 21, CheckKind::NowInQuery),
        (
            "table t { index i(a1, a2, a3, a4, a5, a6, a7, a8, a9, a10, a11, a12, a13, a14, a15, a16, a17); }",
            89,
            CheckKind::TooManyFields,
        ),
    ];
    for (text, at, kind) in rows {
        let fault = CheckFault { at, kind };
        assert_eq!(rt; refused(rt.alloc(), text)?, Some(fault), "{text}");
    }
    Ok(())
}

// Checks in the inner parts of forms, the numbers of arguments, and two faults at one token.
#[test]
fn checks_reach_every_part(rt: HostRuntime) -> Result<(), Fail> {
    let rows = [
        (
            "helper h() { return now(); } query q:a() { return h(); }",
            50,
            CheckKind::NowInQuery,
        ),
        (
            "table t { } query q:a(x) { if (x) { } else { insert(\"t\", {}); } }",
            45,
            CheckKind::WriteInQuery,
        ),
        (
            "table t { } query q:a() { return scan(\"t\", \"by_id\") take (insert(\"t\", {})); }",
            58,
            CheckKind::WriteInQuery,
        ),
        (
            "table t { } query q:a() { return scan(\"t\", \"by_id\", _id == insert(\"t\", {})); }",
            59,
            CheckKind::WriteInQuery,
        ),
        (
            "table t { } query q:a() { for (i in insert(\"t\", {})) { } }",
            36,
            CheckKind::WriteInQuery,
        ),
        (
            "table t { index i(a); } query q:a() { return scan(\"t\", \"i\", a > 1, a >= 2); }",
            67,
            CheckKind::BadBound,
        ),
        (
            "table t { index i(a, b); } query q:a() { return scan(\"t\", \"i\", a > 1, b == 2); }",
            70,
            CheckKind::BadBound,
        ),
        ("table t { index i(\"$a\"); }", 18, CheckKind::BadName),
        (
            "mutation q:a() { } query q:a() { }",
            25,
            CheckKind::DuplicateFunction,
        ),
        (
            "query q:a(x) { if (x) { let y = 1; } return y; }",
            44,
            CheckKind::UnknownName,
        ),
        (
            "table t { } helper w(x) { insert(\"t\", {}); } query q:a() { return w(); }",
            66,
            CheckKind::WrongArity,
        ),
        (
            "query q:a(x) { return set(x, \"k\"); }",
            22,
            CheckKind::WrongArity,
        ),
        (
            "query q:a(x) { return slice(x, 0); }",
            22,
            CheckKind::WrongArity,
        ),
        (
            "query q:a(x) { return range(1); }",
            22,
            CheckKind::WrongArity,
        ),
        (
            "query q:a(x) { return without(x); }",
            22,
            CheckKind::WrongArity,
        ),
        (
            "query q:a(x) { return show(x, x); }",
            22,
            CheckKind::WrongArity,
        ),
        (
            "query q:a(x) { return keys(x, x); }",
            22,
            CheckKind::WrongArity,
        ),
        ("query q:a(x) { return has(x); }", 22, CheckKind::WrongArity),
        (
            "query q:a(x) { return push(x); }",
            22,
            CheckKind::WrongArity,
        ),
    ];
    for (text, at, kind) in rows {
        let fault = CheckFault { at, kind };
        assert_eq!(rt; refused(rt.alloc(), text)?, Some(fault), "{text}");
    }
    Ok(())
}

#[test]
fn good_modules_meet_the_checks(rt: HostRuntime) -> Result<(), Fail> {
    let texts = [
        "table t { index i(a, b); } query q:a() { return scan(\"t\", \"i\", a == 1, b < 3, b >= 2); }",
        "table t { index i(a); } query q:a() { return scan(\"t\", \"i\", a == 1, _creationTime == 2, _id > \"x\"); }",
        "query q:a(x) { if (x) { let y = 1; } else { let y = 2; } for (y in x) { } }",
        "helper h() { return now(); } mutation q:a() { return h(); }",
    ];
    for text in texts {
        assert_eq!(rt; refused(rt.alloc(), text)?, None, "{text}");
    }
    Ok(())
}

// A text that fits, and the same with one part more, which is refused at its name.
fn one_more_is_refused(
    alloc: Global,
    front: &str,
    part: (&str, &str),
    count: u64,
    back: &str,
) -> Result<(Option<CheckFault>, Option<CheckFault>, u64), Fail> {
    let mut text = String::from_str(alloc, front)?;
    for n in 0..count {
        let next = format!(in alloc; "{}a{n}{}", part.0, part.1)?;
        text.push_str(next.as_str())?;
    }
    let at = (text.len() as u64).saturating_add(part.0.len() as u64);
    let fits = format!(in alloc; "{text}{back}")?;
    let many = format!(in alloc; "{text}{}b{}{back}", part.0, part.1)?;
    Ok((
        refused(alloc, fits.as_str())?,
        refused(alloc, many.as_str())?,
        at,
    ))
}

#[test]
fn counts_at_their_limits(rt: HostRuntime) -> Result<(), Fail> {
    let alloc = rt.alloc();
    let rows = [
        ("", ("table ", " { } "), 64, "", CheckKind::TooManyTables),
        (
            "table t { ",
            ("index ", "(f); "),
            32,
            "}",
            CheckKind::TooManyIndexes,
        ),
        (
            "",
            ("helper ", "() { } "),
            1024,
            "",
            CheckKind::TooManyFunctions,
        ),
    ];
    for (front, part, count, back, kind) in rows {
        let (fits, many, at) = one_more_is_refused(alloc, front, part, count, back)?;
        assert_eq!(rt; fits, None);
        assert_eq!(rt; many, Some(CheckFault { at, kind }));
    }
    Ok(())
}
