//! Copies of a module's tree, in memory of their own.
ghost use Rattle.std.specs.Prelude.{◌≡◌, IfOk, map};
ghost use Rattle.std.specs.Option.{option_map};
ghost use Rattle.fn_check.specs.Copies.{entry_views};
ghost use Rattle.fn_tree.specs.SyntaxViews.{expr_view, form_view, bound_view, stmt_view, act_view, function_view, index_view, table_view, module_view};

use cv_values::Memory;
use fn_tree::{
    BoundExpr, Expr, ExprForm, Function, IndexDecl, Module, Named, Stmt, StmtForm, TableDecl,
};
use std::alloc::Global;

fn copy_named(alloc: Global, name: &Named) -> Result<Named, Memory>
    ensures { IfOk result (λ n. n ≡ name.now) }
{
    Ok(Named {
        at: name.at,
        text: name.text.copy(alloc)?,
        quoted: name.quoted,
    })
}

fn copy_names(alloc: Global, names: &[Named]) -> Result<Vec<Named>, Memory>
    ensures { IfOk result (λ v. v.items ≡ names.now) }
{
    let mut copies = Vec::with_capacity(alloc, names.len())?;
    for name in names {
        copies.push(copy_named(alloc, name)?)?;
    }
    Ok(copies)
}

#[cycle(expressions)]
fn copy_expr(alloc: Global, e: &Expr) -> Result<Expr, Memory>
    ensures { IfOk result (λ c. expr_view c ≡ expr_view e.now) }
{
    let form = copy_form(alloc, e.form.as_ref())?;
    Expr::new(alloc, e.at, form)
}

#[cycle(expressions)]
fn copy_form(alloc: Global, form: &ExprForm) -> Result<ExprForm, Memory>
    ensures { IfOk result (λ c. form_view c ≡ form_view form.now) }
{
    match form {
        ExprForm::Int(n) => Ok(ExprForm::Int(*n)),
        ExprForm::Str(text) => Ok(ExprForm::Str(text.copy(alloc)?)),
        ExprForm::True => Ok(ExprForm::True),
        ExprForm::False => Ok(ExprForm::False),
        ExprForm::Null => Ok(ExprForm::Null),
        ExprForm::Var(name) => Ok(ExprForm::Var(name.copy(alloc)?)),
        ExprForm::Call(name, es) => {
            let name = name.copy(alloc)?;
            Ok(ExprForm::Call(name, copy_exprs(alloc, es)?))
        }
        ExprForm::Builtin(op, es) => Ok(ExprForm::Builtin(*op, copy_exprs(alloc, es)?)),
        ExprForm::Array(es) => Ok(ExprForm::Array(copy_exprs(alloc, es)?)),
        ExprForm::Object(entries) => Ok(ExprForm::Object(copy_entries(alloc, entries)?)),
        ExprForm::Group(e) => Ok(ExprForm::Group(copy_expr(alloc, e)?)),
        ExprForm::Scan {
            table,
            index,
            bounds,
            desc,
            take,
        } => Ok(ExprForm::Scan {
            table: copy_named(alloc, table)?,
            index: copy_named(alloc, index)?,
            bounds: copy_bounds(alloc, bounds)?,
            desc: *desc,
            take: copy_limit(alloc, take)?,
        }),
        ExprForm::Count(table) => Ok(ExprForm::Count(copy_named(alloc, table)?)),
        ExprForm::Get(e) => Ok(ExprForm::Get(copy_expr(alloc, e)?)),
        ExprForm::Now => Ok(ExprForm::Now),
        ExprForm::Insert(table, e) => {
            let table = copy_named(alloc, table)?;
            Ok(ExprForm::Insert(table, copy_expr(alloc, e)?))
        }
        ExprForm::Delete(e) => Ok(ExprForm::Delete(copy_expr(alloc, e)?)),
        ExprForm::Patch(e, o) => Ok(ExprForm::Patch(copy_expr(alloc, e)?, copy_expr(alloc, o)?)),
        ExprForm::Replace(e, o) => {
            Ok(ExprForm::Replace(copy_expr(alloc, e)?, copy_expr(alloc, o)?))
        }
        ExprForm::Field(e, name) => {
            Ok(ExprForm::Field(copy_expr(alloc, e)?, copy_named(alloc, name)?))
        }
        ExprForm::Item(a, i) => Ok(ExprForm::Item(copy_expr(alloc, a)?, copy_expr(alloc, i)?)),
        ExprForm::Unary(op, e) => Ok(ExprForm::Unary(*op, copy_expr(alloc, e)?)),
        ExprForm::Binary(op, a, b) => {
            Ok(ExprForm::Binary(*op, copy_expr(alloc, a)?, copy_expr(alloc, b)?))
        }
    }
}

#[cycle(expressions)]
fn copy_exprs(alloc: Global, es: &[Expr]) -> Result<Vec<Expr>, Memory>
    ensures { IfOk result (λ v. map expr_view v.items ≡ map expr_view es.now) }
{
    let mut copies = Vec::with_capacity(alloc, es.len())?;
    for e in es {
        copies.push(copy_expr(alloc, e)?)?;
    }
    Ok(copies)
}

#[cycle(expressions)]
fn copy_entries(alloc: Global, entries: &[(Named, Expr)]) -> Result<Vec<(Named, Expr)>, Memory>
    ensures { IfOk result (λ v. entry_views v.items ≡ entry_views entries.now) }
{
    let mut copies = Vec::with_capacity(alloc, entries.len())?;
    for (name, e) in entries {
        copies.push((copy_named(alloc, name)?, copy_expr(alloc, e)?))?;
    }
    Ok(copies)
}

#[cycle(expressions)]
fn copy_bounds(alloc: Global, bounds: &[BoundExpr]) -> Result<Vec<BoundExpr>, Memory>
    ensures { IfOk result (λ v. map bound_view v.items ≡ map bound_view bounds.now) }
{
    let mut copies = Vec::with_capacity(alloc, bounds.len())?;
    for bound in bounds {
        let field = copy_named(alloc, &bound.field)?;
        let value = copy_expr(alloc, &bound.value)?;
        copies.push(BoundExpr::new(field, bound.op, value))?;
    }
    Ok(copies)
}

#[cycle(expressions)]
fn copy_limit(alloc: Global, take: &Option<Expr>) -> Result<Option<Expr>, Memory>
    ensures { IfOk result (λ o. option_map expr_view o ≡ option_map expr_view take.now) }
{
    match take {
        None => Ok(None),
        Some(e) => Ok(Some(copy_expr(alloc, e)?)),
    }
}

#[cycle(statements)]
fn copy_stmts(alloc: Global, stmts: &[Stmt]) -> Result<Vec<Stmt>, Memory>
    ensures { IfOk result (λ v. map stmt_view v.items ≡ map stmt_view stmts.now) }
{
    let mut copies = Vec::with_capacity(alloc, stmts.len())?;
    for stmt in stmts {
        let form = copy_act(alloc, &stmt.form)?;
        copies.push(Stmt::new(stmt.at, form))?;
    }
    Ok(copies)
}

#[cycle(statements)]
fn copy_act(alloc: Global, form: &StmtForm) -> Result<StmtForm, Memory>
    ensures { IfOk result (λ c. act_view c ≡ act_view form.now) }
{
    match form {
        StmtForm::Let(name, e) => {
            Ok(StmtForm::Let(copy_named(alloc, name)?, copy_expr(alloc, e)?))
        }
        StmtForm::Assign(name, e) => {
            Ok(StmtForm::Assign(copy_named(alloc, name)?, copy_expr(alloc, e)?))
        }
        StmtForm::Eval(e) => Ok(StmtForm::Eval(copy_expr(alloc, e)?)),
        StmtForm::If(test, chosen, other) => {
            let test = copy_expr(alloc, test)?;
            let chosen = copy_stmts(alloc, chosen)?;
            match other {
                None => Ok(StmtForm::If(test, chosen, None)),
                Some(other) => {
                    let other = copy_stmts(alloc, other)?;
                    Ok(StmtForm::If(test, chosen, Some(other)))
                }
            }
        }
        StmtForm::For(name, items, body) => {
            let name = copy_named(alloc, name)?;
            let items = copy_expr(alloc, items)?;
            Ok(StmtForm::For(name, items, copy_stmts(alloc, body)?))
        }
        StmtForm::Return(e) => Ok(StmtForm::Return(copy_expr(alloc, e)?)),
        StmtForm::Throw(e) => Ok(StmtForm::Throw(copy_expr(alloc, e)?)),
    }
}

fn copy_function(alloc: Global, function: &Function) -> Result<Function, Memory>
    ensures { IfOk result (λ f. function_view f ≡ function_view function.now) }
{
    Ok(Function {
        kind: function.kind,
        udf: function.udf.copy(alloc)?,
        params: copy_names(alloc, &function.params)?,
        body: copy_stmts(alloc, &function.body)?,
        at: function.at,
    })
}

fn copy_functions(alloc: Global, functions: &[Function]) -> Result<Vec<Function>, Memory>
    ensures { IfOk result (λ v. map function_view v.items ≡ map function_view functions.now) }
{
    let mut copies = Vec::with_capacity(alloc, functions.len())?;
    for function in functions {
        copies.push(copy_function(alloc, function)?)?;
    }
    Ok(copies)
}

fn copy_index(alloc: Global, index: &IndexDecl) -> Result<IndexDecl, Memory>
    ensures { IfOk result (λ i. index_view i ≡ index_view index.now) }
{
    Ok(IndexDecl {
        name: copy_named(alloc, &index.name)?,
        fields: copy_names(alloc, &index.fields)?,
    })
}

fn copy_indexes(alloc: Global, indexes: &[IndexDecl]) -> Result<Vec<IndexDecl>, Memory>
    ensures { IfOk result (λ v. map index_view v.items ≡ map index_view indexes.now) }
{
    let mut copies = Vec::with_capacity(alloc, indexes.len())?;
    for index in indexes {
        copies.push(copy_index(alloc, index)?)?;
    }
    Ok(copies)
}

fn copy_table(alloc: Global, table: &TableDecl) -> Result<TableDecl, Memory>
    ensures { IfOk result (λ t. table_view t ≡ table_view table.now) }
{
    Ok(TableDecl {
        name: copy_named(alloc, &table.name)?,
        indexes: copy_indexes(alloc, &table.indexes)?,
    })
}

fn copy_tables(alloc: Global, tables: &[TableDecl]) -> Result<Vec<TableDecl>, Memory>
    ensures { IfOk result (λ v. map table_view v.items ≡ map table_view tables.now) }
{
    let mut copies = Vec::with_capacity(alloc, tables.len())?;
    for table in tables {
        copies.push(copy_table(alloc, table)?)?;
    }
    Ok(copies)
}

/// A module with an equal tree.
pub(crate) fn copy_module(alloc: Global, m: &Module) -> Result<Module, Memory>
    ensures { IfOk result (λ c. module_view c ≡ module_view m.now) }
{
    Ok(Module {
        tables: copy_tables(alloc, &m.tables)?,
        functions: copy_functions(alloc, &m.functions)?,
    })
}
