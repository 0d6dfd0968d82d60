use crate::{LoadFault, load};
use fn_check::{CheckFault, CheckKind};
use fn_syntax::{SyntaxFault, Why};
use std::alloc::Global;
use std::test::Fail;

const ADD: &str =
    "table t { index by_v(v); }\nmutation m:add(x) { insert(\"t\", {v: x}); return x; }\n";

fn refused(alloc: Global, text: &str) -> Option<LoadFault> {
    load(alloc, text.as_bytes()).err()
}

#[test]
fn a_module_is_loaded(rt: HostRuntime) -> Result<(), Fail> {
    match load(rt.alloc(), ADD.as_bytes()) {
        Ok(program) => {
            assert_eq!(rt; program.checked.module().functions.len(), 1);
            assert_eq!(rt; program.checked.schema().tables.as_slice().len(), 1);
            assert_eq!(rt; program.code.entries.as_slice().len(), 1);
            assert_eq!(rt; program.code.entries.as_slice()[0].udf.as_str(), "m:add");
        }
        Err(fault) => assert!(rt; false, "{fault:?}"),
    }
    Ok(())
}

#[test]
fn a_text_is_refused_before_its_checks(rt: HostRuntime) -> Result<(), Fail> {
    let rows = [
        ("query q:a() {", Why::EarlyEnd, 13),
        ("query q:a() { return f(); } table", Why::WrongToken, 28),
    ];
    for (text, why, at) in rows {
        let fault = LoadFault::Syntax(SyntaxFault { at, why });
        assert_eq!(rt; refused(rt.alloc(), text), Some(fault), "{text}");
    }
    Ok(())
}

#[test]
fn an_unmet_check_is_told(rt: HostRuntime) -> Result<(), Fail> {
    let rows = [
        ("query q:a() { return f(); }", CheckKind::UnknownHelper, 21),
        (
            "table t { } query q:a() { insert(\"t\", {}); return 1; }",
            CheckKind::WriteInQuery,
            26,
        ),
    ];
    for (text, kind, at) in rows {
        let fault = LoadFault::Check(CheckFault { at, kind });
        assert_eq!(rt; refused(rt.alloc(), text), Some(fault), "{text}");
    }
    Ok(())
}
