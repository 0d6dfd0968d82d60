use fn_syntax::{SyntaxFault, Why, parse};
use fn_tree::{ExprForm, Kind, Module, StmtForm};
use std::alloc::Global;
use std::test::Fail;

fn parse_body(alloc: Global, body: &str) -> Result<Result<Module, SyntaxFault>, Fail> {
    let text = format!(in alloc; "query m:f() {{ {body} }}")?;
    Ok(parse(alloc, text.as_bytes())?)
}

/// The text of a chain with so many operators.
fn chain(alloc: Global, first: &str, next: &str, count: u64) -> Result<Vec<u8>, Fail> {
    let mut bytes = Vec::new(alloc);
    bytes.extend_from_slice(b"query q:a() { return ")?;
    bytes.extend_from_slice(first.as_bytes())?;
    for _ in 0..count {
        bytes.extend_from_slice(next.as_bytes())?;
    }
    Ok(bytes)
}

fn expression_name(form: &ExprForm) -> &'static str {
    match form {
        ExprForm::Int(_) => "integer",
        ExprForm::Str(_) => "string",
        ExprForm::True | ExprForm::False | ExprForm::Null => "constant",
        ExprForm::Var(_) => "variable",
        ExprForm::Call(_, _) => "call",
        ExprForm::Builtin(_, _) => "operation",
        ExprForm::Array(_) => "array",
        ExprForm::Object(_) => "object",
        ExprForm::Group(_) => "group",
        ExprForm::Scan { .. } => "scan",
        ExprForm::Count(_) => "count",
        ExprForm::Get(_) => "get",
        ExprForm::Now => "now",
        ExprForm::Insert(_, _) => "insert",
        ExprForm::Delete(_) => "delete",
        ExprForm::Patch(_, _) => "patch",
        ExprForm::Replace(_, _) => "replace",
        ExprForm::Field(_, _) => "field",
        ExprForm::Item(_, _) => "item",
        ExprForm::Unary(_, _) => "unary",
        ExprForm::Binary(_, _, _) => "binary",
    }
}

fn statement_name(form: &StmtForm) -> &'static str {
    match form {
        StmtForm::Let(_, _) => "let",
        StmtForm::Assign(_, _) => "assign",
        StmtForm::Eval(_) => "expression",
        StmtForm::If(_, _, None) => "if",
        StmtForm::If(_, _, Some(_)) => "if else",
        StmtForm::For(_, _, _) => "for",
        StmtForm::Return(_) => "return",
        StmtForm::Throw(_) => "throw",
    }
}

/// The first statement of the first function.
fn first_statement(module: &Module) -> Option<&StmtForm> {
    let function = module.functions.first()?;
    let statement = function.body.first()?;
    Some(&statement.form)
}

/// The expression that a query with the text as its body returns, by name.
fn returned(alloc: Global, text: &str) -> Result<&'static str, Fail> {
    let body = format!(in alloc; "return {text};")?;
    let Ok(module) = parse_body(alloc, body.as_str())? else {
        return Ok("a fault");
    };
    match first_statement(&module) {
        Some(StmtForm::Return(value)) => Ok(expression_name(&value.form)),
        _ => Ok("another statement"),
    }
}

#[test]
fn each_expression_is_read(rt: HostRuntime) -> Result<(), Fail> {
    let rows = [
        ("907", "integer"),
        ("\"é\"", "string"),
        ("true", "constant"),
        ("false", "constant"),
        ("null", "constant"),
        ("x", "variable"),
        ("f()", "call"),
        ("f(1, x, g())", "call"),
        ("len(x)", "operation"),
        ("has(x, 1)", "operation"),
        ("push(x)", "operation"),
        ("set(x, 1, 2)", "operation"),
        ("without(x)", "operation"),
        ("slice(x)", "operation"),
        ("range(x)", "operation"),
        ("show(x)", "operation"),
        ("keys(x)", "operation"),
        ("[]", "array"),
        ("[1, [x]]", "array"),
        ("{}", "object"),
        ("{a: 1, \"\": {}}", "object"),
        ("((1))", "group"),
        ("scan(\"t\", \"i\")", "scan"),
        ("scan(\"t\", \"i\") desc", "scan"),
        ("scan(\"t\", \"i\") take(1)", "scan"),
        (
            "scan(\"t\", \"i\", a == 1, \"b\" < 2, c <= 3, d > 4, e >= 5) desc take(x)",
            "scan",
        ),
        ("count(\"t\")", "count"),
        ("get(x)", "get"),
        ("now()", "now"),
        ("insert(\"t\", {})", "insert"),
        ("delete(x)", "delete"),
        ("patch(x, {})", "patch"),
        ("replace(x, {})", "replace"),
        ("x[0].a", "field"),
        ("x.a[0]", "item"),
        ("-!x", "unary"),
        ("x || y", "binary"),
        ("x && y", "binary"),
        ("x == y", "binary"),
        ("x != y", "binary"),
        ("x < y", "binary"),
        ("x <= y", "binary"),
        ("x > y", "binary"),
        ("x >= y", "binary"),
        ("x + y", "binary"),
        ("x - y", "binary"),
        ("x * y", "binary"),
        ("x / y", "binary"),
        ("x % y", "binary"),
    ];
    for (text, name) in rows {
        assert_eq!(rt; returned(rt.alloc(), text)?, name, "{text}");
    }
    Ok(())
}

#[test]
fn each_statement_is_read(rt: HostRuntime) -> Result<(), Fail> {
    let rows = [
        ("let x = 1;", "let"),
        ("x = 1;", "assign"),
        ("x == 1;", "expression"),
        ("x;", "expression"),
        ("insert(\"t\", {});", "expression"),
        ("if (x) { }", "if"),
        ("if (x) { x = 1; } else { return x; }", "if else"),
        ("for (y in x) { let z = y; z; }", "for"),
        ("return 1;", "return"),
        ("throw {a: 1};", "throw"),
    ];
    for (text, name) in rows {
        match parse_body(rt.alloc(), text)? {
            Ok(module) => {
                let name_read = first_statement(&module).map(statement_name);
                assert_eq!(rt; name_read, Some(name), "{text}");
            }
            Err(fault) => assert!(rt; false, "{text} {fault:?}"),
        }
    }
    Ok(())
}

#[test]
fn each_declaration_is_read(rt: HostRuntime) -> Result<(), Fail> {
    let alloc = rt.alloc();
    let text = "table t { } table u { index i(a); index j(b, \"c\", d); }
        query get/list/x:keys() { } mutation m:f(x, y) { return x; } helper h(z) { }";
    match parse(alloc, text.as_bytes())? {
        Ok(module) => {
            assert_eq!(rt; module.tables.len(), 2);
            assert_eq!(rt; module.tables[0].indexes.len(), 0);
            assert_eq!(rt; module.tables[1].name.text.as_str(), "u");
            assert_eq!(rt; module.tables[1].indexes.len(), 2);
            assert_eq!(rt; module.tables[1].indexes[1].name.text.as_str(), "j");
            assert_eq!(rt; module.tables[1].indexes[1].fields.len(), 3);
            assert!(rt; module.tables[1].indexes[1].fields[1].quoted);
            let rows = [
                (Kind::Query, "get/list/x:keys", 0, 0),
                (Kind::Mutation, "m:f", 2, 1),
                (Kind::Helper, "h", 1, 0),
            ];
            assert_eq!(rt; module.functions.len(), rows.len());
            for (function, (kind, udf, params, statements)) in module.functions.iter().zip(rows) {
                assert_eq!(rt; function.kind, kind);
                assert_eq!(rt; function.udf.as_str(), udf);
                assert_eq!(rt; function.params.len(), params);
                assert_eq!(rt; function.body.len(), statements);
            }
        }
        Err(fault) => assert!(rt; false, "{fault:?}"),
    }
    Ok(())
}

#[test]
fn chains_hold_at_most_16_operators(rt: HostRuntime) -> Result<(), Fail> {
    let alloc = rt.alloc();
    let rows = [
        ("a", "||a", 70),
        ("a", "&&a", 70),
        ("1", "+1", 54),
        ("1", "*1", 54),
        ("", "-", 37),
        ("a", ".b", 54),
        ("a", "[0]", 70),
    ];
    for (first, next, at) in rows {
        let fits = chain(alloc, first, next, 16)?;
        let fault = SyntaxFault {
            at,
            why: Why::EarlyEnd,
        };
        assert_eq!(rt; parse(alloc, fits.as_slice())?.err(), Some(fault), "{next}");
        let long = chain(alloc, first, next, 17)?;
        let fault = SyntaxFault {
            at,
            why: Why::WrongToken,
        };
        assert_eq!(rt; parse(alloc, long.as_slice())?.err(), Some(fault), "{next}");
    }
    Ok(())
}
