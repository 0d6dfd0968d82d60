use cv_values::Memory;
use fn_syntax::{SyntaxFault, Why, parse};
use fn_tree::{ExprForm, Kind, Module, StmtForm};
use std::alloc::Global;
use std::test::Fail;

fn fault_of(alloc: Global, bytes: &[u8]) -> Result<Option<SyntaxFault>, Memory> {
    Ok(parse(alloc, bytes)?.err())
}

fn blanks(alloc: Global, len: usize) -> Result<Vec<u8>, Memory> {
    let mut bytes = Vec::new(alloc);
    for _ in 0..len {
        bytes.push(b' ')?;
    }
    Ok(bytes)
}

#[test]
fn a_module_is_read(rt: HostRuntime) -> Result<(), Fail> {
    let text = "table t { index by_a(a, \"b c\"); } // and\nquery m/n:f(x) { return x; }";
    match parse(rt.alloc(), text.as_bytes())? {
        Ok(module) => {
            assert_eq!(rt; module.tables.len(), 1);
            assert_eq!(rt; module.tables[0].name.text.as_str(), "t");
            assert_eq!(rt; module.tables[0].indexes.len(), 1);
            assert_eq!(rt; module.tables[0].indexes[0].fields.len(), 2);
            assert_eq!(rt; module.functions.len(), 1);
            assert_eq!(rt; module.functions[0].kind, Kind::Query);
            assert_eq!(rt; module.functions[0].udf.as_str(), "m/n:f");
            assert_eq!(rt; module.functions[0].at, 47);
            assert_eq!(rt; module.functions[0].params.len(), 1);
            assert_eq!(rt; module.functions[0].body.len(), 1);
        }
        Err(fault) => assert!(rt; false, "{fault:?}"),
    }
    Ok(())
}

#[test]
fn the_first_fault_is_told(rt: HostRuntime) -> Result<(), Fail> {
    let rows = [
        ("@", Why::BadToken, 0),
        ("let @", Why::WrongToken, 0),
        ("table 1", Why::WrongToken, 6),
        ("table t { @", Why::BadToken, 10),
        ("query", Why::EarlyEnd, 5),
        ("query // é", Why::EarlyEnd, 11),
        (
            "query m:f(){return ((((((((((((((((((((((((((((((((",
            Why::TooDeep,
            50,
        ),
        (
            "query m:f(){return (((((((((((((((((((((((((((((((1(",
            Why::TooDeep,
            51,
        ),
        (
            "query m:f(){return ((((((((((((((((((((((((((((((()(",
            Why::WrongToken,
            50,
        ),
        (
            "query m:f(){return ((((((((((((((((((((((((((((((((@",
            Why::TooDeep,
            50,
        ),
        ("((((((((((((((((((((((((((((((((((", Why::WrongToken, 0),
        ("query q:a() {", Why::EarlyEnd, 13),
        (
            "query q:a() { return (((((((((((((((((((((((((((((((((",
            Why::TooDeep,
            52,
        ),
        (
            "query q:a() { return ((((((((((((((((((((((((((((((((",
            Why::TooDeep,
            52,
        ),
        (
            "query q:a() { return (((((((((((((((((((((((((((((((",
            Why::EarlyEnd,
            52,
        ),
        // Brackets of all kinds count, and one that is closed doesn't.
        (
            "query q:a() { return [[[[[[[[[[[[[[[({a:{a:{a:{a:{a:{a:{a:{a:{a:{a:{a:{a:{a:{a:f()[",
            Why::EarlyEnd,
            83,
        ),
        (
            "query q:a() { return [[[[[[[[[[[[[[[({a:{a:{a:{a:{a:{a:{a:{a:{a:{a:{a:{a:{a:{a:f()[[",
            Why::TooDeep,
            83,
        ),
        ("query q:a() { 1 = 2; }", Why::WrongToken, 16),
        ("query q:a() { x = y = 2; }", Why::WrongToken, 20),
        ("query q:a() { x == 1 == 2; }", Why::WrongToken, 21),
        ("query q:a() { return x.count; }", Why::WrongToken, 23),
        ("query q:a() { let if = 1; }", Why::WrongToken, 18),
        ("table t { } 01", Why::BadToken, 12),
        ("table t { } table 01", Why::BadToken, 18),
        ("table t } 01", Why::WrongToken, 8),
    ];
    for (text, why, at) in rows {
        let fault = SyntaxFault { at, why };
        assert_eq!(rt;
            fault_of(rt.alloc(), text.as_bytes())?,
            Some(fault),
            "{text}"
        );
    }
    Ok(())
}

// What the statement at this place of a module's first function evaluates.
fn evaluated(module: &Module, at: usize) -> Option<&ExprForm> {
    let function = module.functions.first()?;
    match &function.body.get(at)?.form {
        StmtForm::Eval(value) => Some(&value.form),
        _ => None,
    }
}

#[test]
fn tokens_say_names_numbers_and_strings(rt: HostRuntime) -> Result<(), Fail> {
    let text = "query q:a() { by_n; 907; \"\\\"é\\n\\\\t\"; }";
    match parse(rt.alloc(), text.as_bytes())? {
        Ok(module) => {
            let name = evaluated(&module, 0);
            assert!(rt; matches!(name, Some(ExprForm::Var(name)) if name.as_str() == "by_n"));
            let number = evaluated(&module, 1);
            assert!(rt; matches!(number, Some(ExprForm::Int(907))));
            let string = evaluated(&module, 2);
            assert!(rt; matches!(string, Some(ExprForm::Str(text)) if text.as_str() == "\"é\n\\t"));
        }
        Err(fault) => assert!(rt; false, "{fault:?}"),
    }
    Ok(())
}

#[test]
fn bytes_that_are_no_text_are_faults(rt: HostRuntime) -> Result<(), Fail> {
    let alloc = rt.alloc();
    let fault = SyntaxFault {
        at: 3,
        why: Why::NotUtf8,
    };
    assert_eq!(rt;
        fault_of(alloc, &[b'@', 0xC3, 0xA9, 0xC3, b'@'])?,
        Some(fault)
    );
    let fault = SyntaxFault {
        at: 1,
        why: Why::NotUtf8,
    };
    assert_eq!(rt; fault_of(alloc, &[b'a', 0xC3, b'b'])?, Some(fault));
    let fault = SyntaxFault {
        at: 1_048_576,
        why: Why::TooLong,
    };
    assert_eq!(rt; fault_of(alloc, &blanks(alloc, 1_048_576)?)?, None);
    assert_eq!(rt; fault_of(alloc, &blanks(alloc, 1_048_577)?)?, Some(fault));
    Ok(())
}
