//! The checks of statements, in the order of the text.
ghost use Rattle.std.specs.Prelude.{◌≡◌, OnOk, map};
ghost use Rattle.fn_check.specs.Expressions.{expr_fault};
ghost use Rattle.fn_check.specs.Faults.{Tells, ◌before◌};
ghost use Rattle.fn_check.specs.Known.{inner, with_visible};
ghost use Rattle.fn_check.specs.Statements.{declare_fault, after_stmt, after_stmts, stmt_fault, stmts_fault};
ghost use Rattle.fn_tree.specs.SyntaxViews.{expr_view, stmt_view, stmts_of};

use crate::expression::{check_expr, check_variable};
use crate::fault::{CheckKind, Stop, refuse_if};
use crate::scope::Scope;
use fn_tree::{Expr, Named, Stmt, StmtForm};
use std::alloc::Global;

/// A name that is declared may not be visible yet.
pub(crate) fn check_declared(scope: &Scope, name: &Named) -> Result<(), Stop>
    ensures { Tells result (declare_fault scope.now name.now) }
{
    refuse_if(
        scope.is_visible(&name.text),
        name.at,
        CheckKind::DuplicateName,
    )
}

fn check_let(alloc: Global, scope: &mut Scope, name: &Named, value: &Expr) -> Result<(), Stop>
    ensures fault { Tells result (declare_fault scope.old name.now before expr_fault scope.old (expr_view value.now)) }
    ensures scope { OnOk result (scope.new ≡ with_visible scope.old name.now.text) }
{
    check_declared(scope, name)?;
    check_expr(alloc, scope, value)?;
    scope.declare(alloc, &name.text)?;
    Ok(())
}

#[cycle(statements)]
fn check_stmt(alloc: Global, scope: &mut Scope, stmt: &Stmt) -> Result<(), Stop>
    ensures fault { Tells result (stmt_fault scope.old (stmt_view stmt.now)) }
    ensures scope { OnOk result (scope.new ≡ after_stmt scope.old (stmt_view stmt.now)) }
{
    match &stmt.form {
        StmtForm::Let(name, value) => check_let(alloc, scope, name, value),
        StmtForm::Assign(name, value) => {
            check_variable(scope, &name.text, name.at)?;
            check_expr(alloc, scope, value)
        }
        StmtForm::Eval(value) | StmtForm::Return(value) | StmtForm::Throw(value) => {
            check_expr(alloc, scope, value)
        }
        StmtForm::If(test, chosen, other) => {
            check_expr(alloc, scope, test)?;
            check_block(alloc, scope, chosen)?;
            match other {
                None => Ok(()),
                Some(other) => check_block(alloc, scope, other),
            }
        }
        StmtForm::For(name, items, body) => {
            check_declared(scope, name)?;
            check_expr(alloc, scope, items)?;
            check_turn(alloc, scope, name, body)
        }
    }
}

/// The statements of a block that has begun.
#[cycle(statements)]
pub(crate) fn check_stmts(alloc: Global, scope: &mut Scope, stmts: &[Stmt]) -> Result<(), Stop>
    ensures fault { Tells result (stmts_fault scope.old (stmts_of (map stmt_view stmts.now))) }
    ensures scope { OnOk result (scope.new ≡ after_stmts scope.old (stmts_of (map stmt_view stmts.now))) }
{
    for stmt in stmts {
        check_stmt(alloc, scope, stmt)?;
    }
    Ok(())
}

#[cycle(statements)]
fn check_block(alloc: Global, scope: &mut Scope, stmts: &[Stmt]) -> Result<(), Stop>
    ensures fault { Tells result (stmts_fault (inner scope.old) (stmts_of (map stmt_view stmts.now))) }
    ensures scope { OnOk result (scope.new ≡ scope.old) }
{
    scope.enter(alloc)?;
    check_stmts(alloc, scope, stmts)?;
    scope.leave();
    Ok(())
}

// The block of a loop, in which its name is visible.
#[cycle(statements)]
fn check_turn(alloc: Global, scope: &mut Scope, name: &Named, body: &[Stmt]) -> Result<(), Stop>
    ensures fault { Tells result (stmts_fault (with_visible (inner scope.old) name.now.text) (stmts_of (map stmt_view body.now))) }
    ensures scope { OnOk result (scope.new ≡ scope.old) }
{
    scope.enter(alloc)?;
    scope.declare(alloc, &name.text)?;
    check_stmts(alloc, scope, body)?;
    scope.leave();
    Ok(())
}
