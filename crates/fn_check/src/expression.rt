//! The checks of an expression, in the order of the text.
ghost use Rattle.std.specs.Prelude.{◌≡◌, ℕ, map, length, true, [], not, nat_eq, OnOk};
ghost use Rattle.std.specs.Option.{option_map};
ghost use Rattle.fn_check.specs.Expressions.{arity_of, count_of, arity_fault, variable_fault, write_fault, now_fault, call_fault, table_fault, expr_fault, exprs_fault, entries_fault, index_fault, scan_fields, bounds_fault, limit_fault};
ghost use Rattle.fn_check.specs.Bounds.{unbounded};
ghost use Rattle.fn_check.specs.Known.{has_name, with_name};
ghost use Rattle.fn_check.specs.Faults.{Tells, fault_if, ◌before◌};
ghost use Rattle.fn_tree.specs.SyntaxViews.{expr_view, bound_view, exprs_of, entries_of, bounds_of, limit_of};

use crate::bounds::Bounded;
use crate::fault::{CheckKind, Stop, refuse, refuse_if};
use crate::scope::{Helper, Scope, add_name, index_of};
use cv_values::Text;
use fn_tree::{BoundExpr, Builtin, Expr, ExprForm, Named};
use std::alloc::Global;
use std::collections::BTreeSet;

fn arity_of(builtin: Builtin) -> usize
    ensures { result ≡ arity_of builtin }
{
    match builtin {
        Builtin::Len | Builtin::Show | Builtin::Keys => 1,
        Builtin::Has | Builtin::Push | Builtin::Without | Builtin::Range => 2,
        Builtin::Set | Builtin::Slice => 3,
    }
}

fn count(es: &[Expr]) -> usize
    ensures { result ≡ count_of (exprs_of (map expr_view es.now)) }
{
    es.len()
}

fn check_arity(wanted: usize, given: usize, at: u64) -> Result<(), Stop>
    ensures { Tells result (arity_fault wanted given at) }
{
    refuse_if(given != wanted, at, CheckKind::WrongArity)
}

/// A variable has to be visible.
pub(crate) fn check_variable(scope: &Scope, name: &Text, at: u64) -> Result<(), Stop>
    ensures { Tells result (variable_fault scope.now name.now at) }
{
    refuse_if(!scope.is_visible(name), at, CheckKind::UnknownName)
}

fn check_write(scope: &Scope, writes: bool, at: u64) -> Result<(), Stop>
    ensures { Tells result (write_fault scope.now writes at) }
{
    refuse_if(scope.in_query() && writes, at, CheckKind::WriteInQuery)
}

fn check_now(scope: &Scope, uses_now: bool, at: u64) -> Result<(), Stop>
    ensures { Tells result (now_fault scope.now uses_now at) }
{
    refuse_if(scope.in_query() && uses_now, at, CheckKind::NowInQuery)
}

fn check_call(scope: &Scope, helper: Option<Helper>, given: usize, at: u64) -> Result<(), Stop>
    ensures { Tells result (call_fault scope.now helper given at) }
{
    let Some(helper) = helper else {
        return refuse(at, CheckKind::UnknownHelper);
    };
    check_arity(helper.params, given, at)?;
    check_write(scope, helper.writes, at)?;
    check_now(scope, helper.uses_now, at)
}

fn check_table(scope: &Scope, table: &Named) -> Result<(), Stop>
    ensures { Tells result (table_fault scope.now table.now) }
{
    match scope.table(&table.text) {
        None => refuse(table.at, CheckKind::UnknownTable),
        Some(_) => Ok(()),
    }
}

/// The checks of an expression.
#[cycle(expressions)]
pub(crate) fn check_expr(alloc: Global, scope: &Scope, e: &Expr) -> Result<(), Stop>
    ensures { Tells result (expr_fault scope.now (expr_view e.now)) }
{
    match e.form.as_ref() {
        ExprForm::Int(_) | ExprForm::Str(_) | ExprForm::True | ExprForm::False | ExprForm::Null => {
            Ok(())
        }
        ExprForm::Var(name) => check_variable(scope, name, e.at),
        ExprForm::Call(name, es) => {
            check_call(scope, scope.helper(name), count(es), e.at)?;
            check_exprs(alloc, scope, es)
        }
        ExprForm::Builtin(builtin, es) => {
            check_arity(arity_of(*builtin), count(es), e.at)?;
            check_exprs(alloc, scope, es)
        }
        ExprForm::Array(es) => check_exprs(alloc, scope, es),
        ExprForm::Object(entries) => check_entries(alloc, scope, entries),
        ExprForm::Group(e) | ExprForm::Get(e) | ExprForm::Field(e, _) | ExprForm::Unary(_, e) => {
            check_expr(alloc, scope, e)
        }
        ExprForm::Scan {
            table,
            index,
            bounds,
            take,
            ..
        } => {
            check_rows(alloc, scope, table, index, bounds)?;
            check_limit(alloc, scope, take)
        }
        ExprForm::Count(table) => check_table(scope, table),
        ExprForm::Now => check_now(scope, true, e.at),
        ExprForm::Insert(table, object) => {
            check_write(scope, true, e.at)?;
            check_table(scope, table)?;
            check_expr(alloc, scope, object)
        }
        ExprForm::Delete(id) => {
            check_write(scope, true, e.at)?;
            check_expr(alloc, scope, id)
        }
        ExprForm::Patch(id, object) | ExprForm::Replace(id, object) => {
            check_write(scope, true, e.at)?;
            check_expr(alloc, scope, id)?;
            check_expr(alloc, scope, object)
        }
        ExprForm::Item(a, b) | ExprForm::Binary(_, a, b) => {
            check_expr(alloc, scope, a)?;
            check_expr(alloc, scope, b)
        }
    }
}

#[cycle(expressions)]
fn check_exprs(alloc: Global, scope: &Scope, es: &[Expr]) -> Result<(), Stop>
    ensures { Tells result (exprs_fault scope.now (exprs_of (map expr_view es.now))) }
{
    for e in es {
        check_expr(alloc, scope, e)?;
    }
    Ok(())
}

#[cycle(expressions)]
fn check_entries(alloc: Global, scope: &Scope, entries: &[(Named, Expr)]) -> Result<(), Stop>
    ensures { Tells result (entries_fault scope.now [] (entries_of (map (λ p. (p.0, expr_view p.1)) entries.now))) }
{
    let mut seen = BTreeSet::new(alloc);
    for (name, value) in entries {
        check_entry(alloc, scope, &mut seen, name, value)?;
    }
    Ok(())
}

#[cycle(expressions)]
fn check_entry(
    alloc: Global,
    scope: &Scope,
    seen: &mut BTreeSet<Text>,
    name: &Named,
    value: &Expr,
) -> Result<(), Stop>
    ensures fault { Tells result (fault_if (has_name seen.old.keys name.now.text) name.now.at CheckKind.DuplicateField before expr_fault scope.now (expr_view value.now)) }
    ensures seen { OnOk result (seen.new.keys ≡ with_name seen.old.keys name.now.text) }
{
    refuse_if(
        seen.contains(&name.text),
        name.at,
        CheckKind::DuplicateField,
    )?;
    check_expr(alloc, scope, value)?;
    add_name(alloc, seen, &name.text)?;
    Ok(())
}

#[cycle(expressions)]
fn check_rows(
    alloc: Global,
    scope: &Scope,
    table: &Named,
    index: &Named,
    bounds: &[BoundExpr],
) -> Result<(), Stop>
    ensures { Tells result (table_fault scope.now table.now before index_fault scope.now table.now index.now before bounds_fault scope.now (scan_fields scope.now table.now index.now) unbounded (bounds_of (map bound_view bounds.now))) }
{
    let Some(rows) = scope.table(&table.text) else {
        return refuse(table.at, CheckKind::UnknownTable);
    };
    let Some(order) = index_of(rows, &index.text) else {
        return refuse(index.at, CheckKind::UnknownIndex);
    };
    check_bounds(alloc, scope, order.fields.as_slice(), bounds)
}

#[cycle(expressions)]
fn check_bounds(
    alloc: Global,
    scope: &Scope,
    fields: &[Text],
    bounds: &[BoundExpr],
) -> Result<(), Stop>
    ensures { Tells result (bounds_fault scope.now fields.now unbounded (bounds_of (map bound_view bounds.now))) }
{
    let mut so_far = Bounded::new();
    for bound in bounds {
        let Some(next) = so_far.next(fields, &bound.field.text, bound.op) else {
            return refuse(bound.field.at, CheckKind::BadBound);
        };
        check_expr(alloc, scope, &bound.value)?;
        so_far = next;
    }
    Ok(())
}

#[cycle(expressions)]
fn check_limit(alloc: Global, scope: &Scope, take: &Option<Expr>) -> Result<(), Stop>
    ensures { Tells result (limit_fault scope.now (limit_of (option_map expr_view take.now))) }
{
    match take {
        None => Ok(()),
        Some(e) => check_expr(alloc, scope, e),
    }
}
