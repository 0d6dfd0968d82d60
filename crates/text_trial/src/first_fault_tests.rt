//! Modules with two faults each: the one at the least place is told.
use cv_values::Memory;
use fn_check::{CheckFault, CheckKind, check};
use fn_syntax::parse;
use std::alloc::Global;
use std::test::Fail;

fn first_fault(alloc: Global, text: &str) -> Result<Option<CheckFault>, Memory> {
    match parse(alloc, text.as_bytes())? {
        Ok(module) => Ok(check(alloc, module)?.err()),
        Err(_) => Ok(None),
    }
}

#[test]
fn the_first_fault_in_text_order_is_told(rt: HostRuntime) -> Result<(), Fail> {
    let rows = [
        (
            "table _t { } table u { } table u { }",
            CheckKind::BadName,
            6,
        ),
        (
            "table t { index by_id(a); index i(_b); }",
            CheckKind::BadName,
            16,
        ),
        (
            "table t { index i(a, a); index i(b); }",
            CheckKind::DuplicateField,
            21,
        ),
        (
            "table t { } table t { } query q:a() { return x; }",
            CheckKind::DuplicateTable,
            18,
        ),
        (
            "query q:a() { return x; } query q:a() { return 1; }",
            CheckKind::UnknownName,
            21,
        ),
        (
            "query q:a(p, p) { return f(); }",
            CheckKind::DuplicateName,
            13,
        ),
        (
            "query q:a() { return len(x, 1); }",
            CheckKind::WrongArity,
            21,
        ),
        (
            "query q:a() { insert(\"t\", {}); return 1; }",
            CheckKind::WriteInQuery,
            14,
        ),
        (
            "table t { } query q:a() { return scan(\"t\", \"i\", z == y); }",
            CheckKind::UnknownIndex,
            43,
        ),
        (
            "table t { index i(a); } query q:a() { return scan(\"t\", \"i\", b == x); }",
            CheckKind::BadBound,
            60,
        ),
        (
            "query q:a() { return now() + x; }",
            CheckKind::NowInQuery,
            21,
        ),
        (
            "query q:a() { return {a: x, a: 1}; }",
            CheckKind::UnknownName,
            25,
        ),
    ];
    for (text, kind, at) in rows {
        assert_eq!(rt;
            first_fault(rt.alloc(), text)?,
            Some(CheckFault { at, kind }),
            "{text}"
        );
    }
    Ok(())
}
