use crate::{
    BinaryOp, Call, Entry, Expr, ExprForm, Function, Kind, Module, Named, Reply, Stmt, StmtForm,
    TableDecl, print,
};
use cv_keys::Write;
use cv_values::{Doc, DocId, Fields, Memory, Seq, Text, Val};
use std::alloc::Global;
use std::test::Fail;

fn entry(alloc: Global, reply: Reply) -> Result<Entry, Memory> {
    let id = DocId {
        table: 0,
        session: 1,
        request: 2,
        ordinal: 0,
    };
    let mut args = Fields::new(alloc);
    drop(args.insert(Text::of(alloc, "x")?, Val::Int(7))?);
    let mut writes = Seq::new(alloc);
    writes.push(Write {
        id,
        old: None,
        new: Some(Doc {
            id,
            creation: 5,
            fields: args.copy(alloc)?,
        }),
    })?;
    Ok(Entry {
        call: Call {
            session: 1,
            request: 2,
            udf: Text::of(alloc, "m:add")?,
            args,
            now: 5,
        },
        reply,
        writes,
    })
}

#[test]
fn copies_are_equal(rt: HostRuntime) -> Result<(), Fail> {
    let alloc = rt.alloc();
    let replies = [
        Reply::Value(Val::Int(7)),
        Reply::Failed(Text::of(alloc, "TooMany")?),
    ];
    for reply in replies {
        let one = entry(alloc, reply)?;
        let other = one.copy(alloc)?;
        assert!(rt; other.call == one.call);
        assert!(rt; other.reply == one.reply);
        assert!(rt; other.writes.as_slice() == one.writes.as_slice());
        assert_eq!(rt; other.call.request, 2);
        assert_eq!(rt; other.writes.as_slice().len(), 1);
    }
    Ok(())
}

fn named(alloc: Global, text: &str) -> Result<Named, Memory> {
    Ok(Named {
        at: 0,
        text: Text::of(alloc, text)?,
        quoted: false,
    })
}

fn expression(alloc: Global, form: ExprForm) -> Result<Expr, Memory> {
    Expr::new(alloc, 0, form)
}

// The function of one statement.
fn function(
    alloc: Global,
    kind: Kind,
    udf: &str,
    params: Vec<Named>,
    act: StmtForm,
) -> Result<Function, Memory> {
    let mut body = Vec::new(alloc);
    body.push(Stmt::new(0, act))?;
    Ok(Function {
        kind,
        udf: Text::of(alloc, udf)?,
        params,
        body,
        at: 0,
    })
}

#[test]
fn trees_have_their_canonical_text(rt: HostRuntime) -> Result<(), Fail> {
    let alloc = rt.alloc();
    let one = expression(alloc, ExprForm::Int(1))?;
    let x = expression(alloc, ExprForm::Var(Text::of(alloc, "x")?))?;
    let sum = expression(alloc, ExprForm::Binary(BinaryOp::Add, x, one))?;
    let mut params = Vec::new(alloc);
    params.push(named(alloc, "x")?)?;
    let add = function(
        alloc,
        Kind::Mutation,
        "m:add",
        params,
        StmtForm::Return(sum),
    )?;
    let text = Text::of(alloc, "a\"\\\n\té")?;
    let thrown = StmtForm::Throw(expression(alloc, ExprForm::Str(text))?);
    let stop = function(alloc, Kind::Helper, "stop", Vec::new(alloc), thrown)?;
    let mut tables = Vec::new(alloc);
    tables.push(TableDecl {
        name: named(alloc, "t")?,
        indexes: Vec::new(alloc),
    })?;
    let mut functions = Vec::new(alloc);
    functions.push(add)?;
    functions.push(stop)?;
    let printed = print(alloc, &Module { tables, functions })?;
    assert_eq!(rt;
        printed.as_str(),
        "table t { }\nmutation m : add ( x ) { return x + 1 ; }\nhelper stop ( ) { throw \"a\\\"\\\\\\n\\té\" ; }\n"
    );
    Ok(())
}
