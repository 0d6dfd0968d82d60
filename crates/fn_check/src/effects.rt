//! What a function does that a query may not do.
ghost use Rattle.std.specs.Prelude.{◌≡◌, map};
ghost use Rattle.std.specs.Option.{option_map};
ghost use Rattle.fn_check.specs.Effects.{is_write, is_now, helper_does, expr_does, exprs_do, entries_do, bounds_do, limit_does, stmt_does, stmts_do};
ghost use Rattle.fn_tree.specs.SyntaxViews.{expr_view, bound_view, exprs_of, entries_of, bounds_of, limit_of, stmt_view, stmts_of};

use crate::scope::{Helper, Scope};
use cv_values::Text;
use fn_tree::{BoundExpr, Expr, ExprForm, Named, Stmt, StmtForm};

/// What a query may not do.
#[derive(Clone, Copy, Debug, PartialEq, Eq)]
pub enum Effect {
    /// Insert, patch, replace or delete.
    Write,
    /// Use `now`.
    Now,
}

fn is_write(effect: Effect) -> bool
    ensures { result ≡ is_write effect }
{
    matches!(effect, Effect::Write)
}

fn is_now(effect: Effect) -> bool
    ensures { result ≡ is_now effect }
{
    matches!(effect, Effect::Now)
}

fn helper_does(effect: Effect, helper: Option<Helper>) -> bool
    ensures { result ≡ helper_does effect helper }
{
    match (effect, helper) {
        (_, None) => false,
        (Effect::Write, Some(helper)) => helper.writes,
        (Effect::Now, Some(helper)) => helper.uses_now,
    }
}

/// Whether an expression has the effect, in itself or through the helpers that it calls.
#[cycle(effects)]
pub(crate) fn expr_does(effect: Effect, scope: &Scope, e: &Expr) -> bool
    ensures { result ≡ expr_does effect scope.now (expr_view e.now) }
{
    match e.form.as_ref() {
        ExprForm::Int(_) | ExprForm::Str(_) | ExprForm::True | ExprForm::False => false,
        ExprForm::Null | ExprForm::Var(_) | ExprForm::Count(_) => false,
        ExprForm::Now => is_now(effect),
        ExprForm::Call(name, es) => {
            helper_does(effect, scope.helper(name)) || exprs_do(effect, scope, es)
        }
        ExprForm::Builtin(_, es) | ExprForm::Array(es) => exprs_do(effect, scope, es),
        ExprForm::Object(fields) => entries_do(effect, scope, fields),
        ExprForm::Scan { bounds, take, .. } => {
            bounds_do(effect, scope, bounds) || limit_does(effect, scope, take)
        }
        ExprForm::Group(e) | ExprForm::Get(e) | ExprForm::Field(e, _) | ExprForm::Unary(_, e) => {
            expr_does(effect, scope, e)
        }
        ExprForm::Insert(_, e) | ExprForm::Delete(e) => {
            is_write(effect) || expr_does(effect, scope, e)
        }
        ExprForm::Patch(a, b) | ExprForm::Replace(a, b) => {
            is_write(effect) || expr_does(effect, scope, a) || expr_does(effect, scope, b)
        }
        ExprForm::Item(a, b) | ExprForm::Binary(_, a, b) => {
            expr_does(effect, scope, a) || expr_does(effect, scope, b)
        }
    }
}

#[cycle(effects)]
fn exprs_do(effect: Effect, scope: &Scope, es: &[Expr]) -> bool
    ensures { result ≡ exprs_do effect scope.now (exprs_of (map expr_view es.now)) }
{
    for e in es {
        if expr_does(effect, scope, e) {
            return true;
        }
    }
    false
}

#[cycle(effects)]
fn entries_do(effect: Effect, scope: &Scope, fields: &[(Named, Expr)]) -> bool
    ensures { result ≡ entries_do effect scope.now (entries_of (map (λ p. (p.0, expr_view p.1)) fields.now)) }
{
    for (_, e) in fields {
        if expr_does(effect, scope, e) {
            return true;
        }
    }
    false
}

#[cycle(effects)]
fn bounds_do(effect: Effect, scope: &Scope, bounds: &[BoundExpr]) -> bool
    ensures { result ≡ bounds_do effect scope.now (bounds_of (map bound_view bounds.now)) }
{
    for bound in bounds {
        if expr_does(effect, scope, &bound.value) {
            return true;
        }
    }
    false
}

#[cycle(effects)]
fn limit_does(effect: Effect, scope: &Scope, take: &Option<Expr>) -> bool
    ensures { result ≡ limit_does effect scope.now (limit_of (option_map expr_view take.now)) }
{
    match take {
        None => false,
        Some(e) => expr_does(effect, scope, e),
    }
}

/// Whether statements have the effect.
#[cycle(statement_effects)]
pub(crate) fn stmts_do(effect: Effect, scope: &Scope, stmts: &[Stmt]) -> bool
    ensures { result ≡ stmts_do effect scope.now (stmts_of (map stmt_view stmts.now)) }
{
    for stmt in stmts {
        if stmt_does(effect, scope, stmt) {
            return true;
        }
    }
    false
}

#[cycle(statement_effects)]
fn stmt_does(effect: Effect, scope: &Scope, stmt: &Stmt) -> bool
    ensures { result ≡ stmt_does effect scope.now (stmt_view stmt.now) }
{
    match &stmt.form {
        StmtForm::Let(_, e) | StmtForm::Assign(_, e) => expr_does(effect, scope, e),
        StmtForm::Eval(e) | StmtForm::Return(e) | StmtForm::Throw(e) => {
            expr_does(effect, scope, e)
        }
        StmtForm::If(test, chosen, None) => {
            expr_does(effect, scope, test) || stmts_do(effect, scope, chosen)
        }
        StmtForm::If(test, chosen, Some(other)) => {
            expr_does(effect, scope, test)
                || stmts_do(effect, scope, chosen)
                || stmts_do(effect, scope, other)
        }
        StmtForm::For(_, items, body) => {
            expr_does(effect, scope, items) || stmts_do(effect, scope, body)
        }
    }
}
