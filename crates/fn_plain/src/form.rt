//! The parts of an expression, and what is done with their values.
ghost use Rattle.std.specs.Prelude.{◌≡◌, ℕ, [], IfOk, IfErr, map};
ghost use Rattle.cv_values.specs.Trees.{tree};
ghost use Rattle.fn_ops.specs.Operations.{length_of};
ghost use Rattle.fn_tree.specs.Actions.{given};
ghost use Rattle.fn_tree.specs.SyntaxTree.{binary};
ghost use Rattle.fn_tree.specs.SyntaxViews.{expr_view, form_view};
ghost use Rattle.fn_tree.specs.Writing.{with_members};
ghost use Rattle.fn_plain.specs.Forms.{leaf_means, after_one, after_two, after_many, after_members, after_bounds, IsMadeOf};
ghost use Rattle.fn_plain.specs.Scopes.{pairs_view, bounds_view};
ghost use Rattle.fn_plain.specs.States.{IsWithin, Gives, Fails, site_at};

use crate::change::{Change, change_value, delete_value, insert_value, origin_of};
use crate::context::{Context, Progress};
use crate::fault::{Fault, failure};
use crate::operator::{builtin_value, eager_value, given, unary_value};
use crate::read::{get_value, scan_value};
use crate::scope::value_of;
use cv_values::{Fields, Memory, Text, Val, Vals};
use fn_ops::{array_of, field, item, length, object_of};
use fn_tree::{BinaryOp, BoundExpr, CompareOp, Expr, ExprForm, Named};
use std::alloc::Global;

/// The parts of an expression that are evaluated before it.
pub(crate) enum Parts<'a> {
    Leaf,
    One(&'a Expr),
    Two(&'a Expr, &'a Expr),
    /// The second only where the first isn't this truth value.
    Either(bool, &'a Expr, &'a Expr),
    Many(&'a [Expr]),
    Call(&'a Text, &'a [Expr]),
    Members(&'a [(Named, Expr)]),
    Bounded(&'a [BoundExpr], &'a Option<Expr>),
}

/// Both sides of an operator; the second of `or` and `and` only where the first doesn't decide.
fn operands<'a>(op: BinaryOp, a: &'a Expr, b: &'a Expr) -> Parts<'a>
    ensures { IsMadeOf (binary op (expr_view a.now) (expr_view b.now)) result }
{
    match op {
        BinaryOp::Or => Parts::Either(true, a, b),
        BinaryOp::And => Parts::Either(false, a, b),
        BinaryOp::Compare(_) => Parts::Two(a, b),
        BinaryOp::Add => Parts::Two(a, b),
        BinaryOp::Subtract => Parts::Two(a, b),
        BinaryOp::Multiply => Parts::Two(a, b),
        BinaryOp::Divide => Parts::Two(a, b),
        BinaryOp::Remainder => Parts::Two(a, b),
    }
}

pub(crate) fn parts_of(form: &ExprForm) -> Parts<'_>
    ensures { IsMadeOf (form_view form.now) result }
{
    match form {
        ExprForm::Int(_) | ExprForm::Str(_) | ExprForm::True | ExprForm::False => Parts::Leaf,
        ExprForm::Null | ExprForm::Var(_) | ExprForm::Count(_) | ExprForm::Now => Parts::Leaf,
        ExprForm::Group(e) => Parts::One(e),
        ExprForm::Get(e) => Parts::One(e),
        ExprForm::Insert(_, e) => Parts::One(e),
        ExprForm::Delete(e) => Parts::One(e),
        ExprForm::Field(e, _) => Parts::One(e),
        ExprForm::Unary(_, e) => Parts::One(e),
        ExprForm::Patch(a, b) => Parts::Two(a, b),
        ExprForm::Replace(a, b) => Parts::Two(a, b),
        ExprForm::Item(a, b) => Parts::Two(a, b),
        ExprForm::Binary(op, a, b) => operands(*op, a, b),
        ExprForm::Builtin(_, es) | ExprForm::Array(es) => Parts::Many(es),
        ExprForm::Call(name, es) => Parts::Call(name, es),
        ExprForm::Object(entries) => Parts::Members(entries),
        ExprForm::Scan { bounds, take, .. } => Parts::Bounded(bounds, take),
    }
}

/// How many rows there are.
fn count_of(context: &Context, progress: &Progress, rows: &Val) -> Result<Val, Fault>
    requires within { IsWithin 0 context.now progress.now.counts }
    ensures ok { IfOk result (λ r. Gives context.now progress.now progress.now (given (length_of (tree rows.now))) (tree r)) }
    ensures err { IfErr result (λ f. Fails context.now progress.now progress.now (given (length_of (tree rows.now))) f) }
{
    given(context.alloc, length(context.alloc, rows))
}

/// The value of a form that has no parts.
pub(crate) fn leaf_value(
    context: &Context,
    progress: &mut Progress,
    scope: &[(Text, Val)],
    form: &ExprForm,
) -> Result<Val, Fault>
    requires within { IsWithin 0 context.now progress.now.counts }
    ensures ok { (n : ℕ) → IfOk result (λ v. Gives context.now progress.old progress.new (leaf_means (form_view form.now) (site_at context.now n) (pairs_view scope.now)) (tree v)) }
    ensures err { (n : ℕ) → IfErr result (λ f. Fails context.now progress.old progress.new (leaf_means (form_view form.now) (site_at context.now n) (pairs_view scope.now)) f) }
{
    let alloc = context.alloc;
    match form {
        ExprForm::Int(n) => Ok(Val::Int(*n)),
        ExprForm::Str(s) => Ok(Val::Str(s.copy(alloc)?)),
        ExprForm::True => Ok(Val::Bool(true)),
        ExprForm::False => Ok(Val::Bool(false)),
        ExprForm::Null => Ok(Val::Null),
        ExprForm::Var(name) => match value_of(scope, name) {
            Some(value) => Ok(value.copy(alloc)?),
            None => Err(failure(alloc, "TypeError")),
        },
        ExprForm::Count(table) => {
            let index = Text::of(alloc, "by_creation_time")?;
            let none = Vec::new(alloc);
            let rows = scan_value(context, progress, &table.text, &index, none, false, None)?;
            count_of(context, progress, &rows)
        }
        ExprForm::Now => Ok(Val::Int(origin_of(context, progress)?.now)),
        _ => Err(failure(alloc, "TypeError")),
    }
}

/// What a form with one part gives, whose value this is.
pub(crate) fn of_one(
    context: &Context,
    progress: &mut Progress,
    form: &ExprForm,
    v: Val,
) -> Result<Val, Fault>
    requires within { IsWithin 0 context.now progress.now.counts }
    ensures ok { (n : ℕ) → IfOk result (λ r. Gives context.now progress.old progress.new (after_one (form_view form.now) (site_at context.now n) (tree v)) (tree r)) }
    ensures err { (n : ℕ) → IfErr result (λ f. Fails context.now progress.old progress.new (after_one (form_view form.now) (site_at context.now n) (tree v)) f) }
{
    let alloc = context.alloc;
    match form {
        ExprForm::Group(_) => Ok(v),
        ExprForm::Get(_) => get_value(context, progress, &v),
        ExprForm::Insert(table, _) => insert_value(context, progress, &table.text, v),
        ExprForm::Delete(_) => delete_value(context, progress, &v),
        ExprForm::Field(_, name) => given(alloc, field(alloc, &v, &name.text)),
        ExprForm::Unary(op, _) => given(alloc, unary_value(alloc, *op, &v)),
        _ => Err(failure(alloc, "TypeError")),
    }
}

/// What a form with two parts gives, whose values these are.
pub(crate) fn of_two(
    context: &Context,
    progress: &mut Progress,
    form: &ExprForm,
    v: Val,
    w: Val,
) -> Result<Val, Fault>
    requires within { IsWithin 0 context.now progress.now.counts }
    ensures ok { (n : ℕ) → IfOk result (λ r. Gives context.now progress.old progress.new (after_two (form_view form.now) (site_at context.now n) (tree v) (tree w)) (tree r)) }
    ensures err { (n : ℕ) → IfErr result (λ f. Fails context.now progress.old progress.new (after_two (form_view form.now) (site_at context.now n) (tree v) (tree w)) f) }
{
    let alloc = context.alloc;
    match form {
        ExprForm::Patch(_, _) => change_value(context, progress, Change::Patch, &v, w),
        ExprForm::Replace(_, _) => change_value(context, progress, Change::Replace, &v, w),
        ExprForm::Item(_, _) => given(alloc, item(alloc, &v, &w)),
        ExprForm::Binary(op, _, _) => given(alloc, eager_value(alloc, *op, &v, &w)),
        _ => Err(failure(alloc, "TypeError")),
    }
}

/// What a built-in operation or an array gives, whose parts have these values.
pub(crate) fn of_many(
    context: &Context,
    progress: &Progress,
    form: &ExprForm,
    values: Vec<Val>,
) -> Result<Val, Fault>
    requires within { IsWithin 0 context.now progress.now.counts }
    ensures ok { IfOk result (λ r. Gives context.now progress.now progress.now (after_many (form_view form.now) (map tree values.items)) (tree r)) }
    ensures err { IfErr result (λ f. Fails context.now progress.now progress.now (after_many (form_view form.now) (map tree values.items)) f) }
{
    let alloc = context.alloc;
    match form {
        ExprForm::Builtin(builtin, _) => {
            given(alloc, builtin_value(alloc, *builtin, values.as_slice()))
        }
        ExprForm::Array(_) => given(alloc, array_of(alloc, vals_of(alloc, values)?)),
        _ => Err(failure(alloc, "TypeError")),
    }
}

/// The object of these members.
pub(crate) fn of_members(
    context: &Context,
    progress: &Progress,
    members: Vec<(Text, Val)>,
) -> Result<Val, Fault>
    requires within { IsWithin 0 context.now progress.now.counts }
    ensures ok { IfOk result (λ r. Gives context.now progress.now progress.now (after_members (pairs_view members.items)) (tree r)) }
    ensures err { IfErr result (λ f. Fails context.now progress.now progress.now (after_members (pairs_view members.items)) f) }
{
    let alloc = context.alloc;
    given(alloc, object_of(alloc, fields_of(alloc, members)?))
}

/// What a scan of these bounds gives.
pub(crate) fn of_bounds(
    context: &Context,
    progress: &mut Progress,
    form: &ExprForm,
    bounds: Vec<(CompareOp, Val)>,
    limit: Option<u32>,
) -> Result<Val, Fault>
    requires within { IsWithin 0 context.now progress.now.counts }
    ensures ok { (n : ℕ) → IfOk result (λ r. Gives context.now progress.old progress.new (after_bounds (form_view form.now) (site_at context.now n) (bounds_view bounds.items) limit) (tree r)) }
    ensures err { (n : ℕ) → IfErr result (λ f. Fails context.now progress.old progress.new (after_bounds (form_view form.now) (site_at context.now n) (bounds_view bounds.items) limit) f) }
{
    match form {
        ExprForm::Scan {
            table,
            index,
            desc,
            ..
        } => scan_value(
            context,
            progress,
            &table.text,
            &index.text,
            bounds,
            *desc,
            limit,
        ),
        _ => Err(failure(context.alloc, "TypeError")),
    }
}

/// An array's items, from a list.
fn vals_of(alloc: Global, values: Vec<Val>) -> Result<Vals, Memory>
    ensures { IfOk result (λ vs. vs ≡ map tree values.items) }
{
    let mut items = Vals::new(alloc);
    for value in values {
        items.push(value)?;
    }
    Ok(items)
}

/// An object's fields, from names with values; of one name the last counts.
fn fields_of(alloc: Global, entries: Vec<(Text, Val)>) -> Result<Fields, Memory>
    ensures { IfOk result (λ fields. fields ≡ with_members (pairs_view entries.items) []) }
{
    let mut fields = Fields::new(alloc);
    for (name, value) in entries {
        drop(fields.insert(name, value)?);
    }
    Ok(fields)
}
