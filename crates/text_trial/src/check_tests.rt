use cv_keys::Schema;
use cv_values::{Memory, Text};
use fn_check::{CheckKind, check};
use fn_tree::{
    Expr, ExprForm, Function, IndexDecl, Kind, Module, Named, Stmt, StmtForm, TableDecl,
};
use std::alloc::Global;
use std::test::Fail;

fn named(alloc: Global, at: u64, text: &str) -> Result<Named, Memory> {
    Ok(Named {
        at,
        text: Text::of(alloc, text)?,
        quoted: false,
    })
}

fn table(alloc: Global, at: u64, name: &str) -> Result<TableDecl, Memory> {
    Ok(TableDecl {
        name: named(alloc, at, name)?,
        indexes: Vec::new(alloc),
    })
}

// A function without parameters that has one statement.
fn function(
    alloc: Global,
    kind: Kind,
    at: u64,
    udf: &str,
    form: StmtForm,
    stmt_at: u64,
) -> Result<Function, Memory> {
    let mut body = Vec::new(alloc);
    body.push(Stmt::new(stmt_at, form))?;
    Ok(Function {
        kind,
        udf: Text::of(alloc, udf)?,
        params: Vec::new(alloc),
        body,
        at,
    })
}

fn module_of(
    alloc: Global,
    tables: Option<TableDecl>,
    functions: Option<Function>,
) -> Result<Module, Memory> {
    let mut module = Module {
        tables: Vec::new(alloc),
        functions: Vec::new(alloc),
    };
    if let Some(table) = tables {
        module.tables.push(table)?;
    }
    if let Some(function) = functions {
        module.functions.push(function)?;
    }
    Ok(module)
}

fn has_fault(alloc: Global, m: Module, at: u64, kind: CheckKind) -> Result<bool, Memory> {
    match check(alloc, m)? {
        Ok(_) => Ok(false),
        Err(fault) => Ok(fault.at == at && fault.kind == kind),
    }
}

// `KIND UDF() { return NAME(); }`
fn calling(
    alloc: Global,
    kind: Kind,
    at: u64,
    udf: &str,
    name: &str,
    call_at: u64,
) -> Result<Module, Memory> {
    let call = ExprForm::Call(Text::of(alloc, name)?, Vec::new(alloc));
    let form = StmtForm::Return(Expr::new(alloc, call_at, call)?);
    let caller = function(alloc, kind, at, udf, form, call_at.saturating_sub(7))?;
    module_of(alloc, None, Some(caller))
}

// `table t { } KIND q:a() { insert("t", {}); }`
fn inserting(alloc: Global, kind: Kind, at: u64) -> Result<Module, Memory> {
    let object = Expr::new(
        alloc,
        at.saturating_add(12),
        ExprForm::Object(Vec::new(alloc)),
    )?;
    let insert = ExprForm::Insert(named(alloc, at.saturating_add(7), "t")?, object);
    let form = StmtForm::Eval(Expr::new(alloc, at, insert)?);
    let writer = function(alloc, kind, at.saturating_sub(8), "q:a", form, at)?;
    module_of(alloc, Some(table(alloc, 6, "t")?), Some(writer))
}

#[test]
fn refused_modules(rt: HostRuntime) -> Result<(), Fail> {
    let alloc = rt.alloc();
    let unknown = calling(alloc, Kind::Query, 6, "q:a", "f", 21)?;
    assert!(rt; has_fault(alloc, unknown, 21, CheckKind::UnknownHelper)?);
    let itself = calling(alloc, Kind::Helper, 7, "h", "h", 20)?;
    assert!(rt; has_fault(alloc, itself, 20, CheckKind::UnknownHelper)?);
    let writer = inserting(alloc, Kind::Query, 26)?;
    assert!(rt; has_fault(alloc, writer, 26, CheckKind::WriteInQuery)?);
    Ok(())
}

#[test]
fn a_seventeenth_field_is_refused(rt: HostRuntime) -> Result<(), Fail> {
    let alloc = rt.alloc();
    let mut fields = Vec::new(alloc);
    let mut at = 18u64;
    for n in 1..18u8 {
        fields.push(Named {
            at,
            text: Text::from_string(format!(in alloc; "a{n}")?),
            quoted: false,
        })?;
        at = at.saturating_add(if n < 10 { 4 } else { 5 });
    }
    let mut wide = table(alloc, 6, "t")?;
    wide.indexes.push(IndexDecl {
        name: named(alloc, 16, "i")?,
        fields,
    })?;
    let m = module_of(alloc, Some(wide), None)?;
    assert!(rt; has_fault(alloc, m, 89, CheckKind::TooManyFields)?);
    Ok(())
}

fn index_names(schema: &Schema) -> (&str, &str) {
    match schema.tables.as_slice() {
        [table] => match table.indexes.as_slice() {
            [first, second] => (first.name.as_str(), second.name.as_str()),
            _ => ("", ""),
        },
        _ => ("", ""),
    }
}

#[test]
fn mutation_that_inserts_is_checked(rt: HostRuntime) -> Result<(), Fail> {
    let alloc = rt.alloc();
    match check(alloc, inserting(alloc, Kind::Mutation, 29)?)? {
        Ok(checked) => {
            let copy = checked.copy(alloc)?;
            let (first, second) = index_names(copy.schema());
            assert!(rt; first == "by_id" && second == "by_creation_time");
            assert!(rt; copy.module().functions.len() == 1);
            assert!(rt; checked.module().tables.len() == 1);
        }
        Err(_) => assert!(rt; false),
    }
    Ok(())
}
