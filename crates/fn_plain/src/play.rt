//! Statements and expressions, one after the other.
ghost use Rattle.std.specs.Prelude.{◌≡◌, ◌<◌, ◌≤◌, IfOk, IfErr, map, length, slice_get, Some};
ghost use Rattle.std.specs.Option.{option_map};
ghost use Rattle.cv_values.specs.Trees.{tree};
ghost use Rattle.fn_tree.specs.Actions.{as_truth, as_items, give, or_type_error};
ghost use Rattle.fn_tree.specs.Names.{assigned};
ghost use Rattle.fn_tree.specs.Meaning.{helper_value, expr_means, exprs_mean, entries_mean, bounds_mean, limit_means, turns, stmt_means, stmts_mean};
ghost use Rattle.fn_tree.specs.Functions.{function_means};
ghost use Rattle.fn_tree.specs.Operators.{either};
ghost use Rattle.fn_tree.specs.SyntaxTree.{FunctionTree};
ghost use Rattle.fn_tree.specs.SyntaxViews.{expr_view, bound_view, exprs_of, entries_of, bounds_of, limit_of, stmt_view, stmts_of, else_view, function_view};
ghost use Rattle.fn_plain.specs.Scopes.{pairs_view, bounds_view, Flows, turn_of, thrown_text, chosen};
ghost use Rattle.fn_plain.specs.Texts.{Says, Refuses};
ghost use Rattle.fn_plain.specs.States.{IsWithin, Gives, Fails, Breaks, site_at};

use crate::context::{Context, Progress, spend};
use crate::fault::{Fault, failure};
use crate::form::{Parts, leaf_value, of_bounds, of_many, of_members, of_one, of_two, parts_of};
use crate::read::limit_of;
use crate::scope::{assign, bound_to, find_helper};
use cv_values::{Text, Val, Vals};
use fn_tree::{BoundExpr, CompareOp, Expr, Named, Stmt, StmtForm};
use std::alloc::Global;

/// How statements ended.
#[derive(Drop)]
pub(crate) enum Flow {
    /// Behind the last of them.
    On,
    /// By a `return`.
    Returned(Val),
}

/// A truth value.
fn as_truth(context: &Context, v: &Val) -> Result<bool, Fault>
    ensures ok { IfOk result (λ truth. as_truth (tree v.now) ≡ give truth) }
    ensures err { IfErr result (λ f. Refuses (as_truth (tree v.now)) f) }
{
    match v {
        Val::Bool(truth) => Ok(*truth),
        _ => Err(failure(context.alloc, "TypeError")),
    }
}

/// The items of an array.
fn as_items(context: &Context, v: Val) -> Result<Vals, Fault>
    ensures ok { IfOk result (λ items. as_items (tree v) ≡ give items) }
    ensures err { IfErr result (λ f. Refuses (as_items (tree v)) f) }
{
    match v {
        Val::Arr(items) => Ok(items),
        _ => Err(failure(context.alloc, "TypeError")),
    }
}

/// The statements that a truth value chooses; none where there are no others.
fn branch<'a>(truth: bool, then: &'a [Stmt], other: &'a Option<Vec<Stmt>>) -> &'a [Stmt]
    ensures { stmts_of (map stmt_view result.now) ≡ chosen truth (stmts_of (map stmt_view then.now)) (else_view other.now) }
{
    match (truth, other) {
        (true, _) => then,
        (false, Some(other)) => other.as_slice(),
        (false, None) => &then[..0],
    }
}

/// The value of an expression, in the function of number `seen`.
#[cycle(play)]
pub(crate) fn play_expr(
    context: &Context,
    progress: &mut Progress,
    seen: usize,
    scope: &[(Text, Val)],
    e: &Expr,
) -> Result<Val, Fault>
    requires within { IsWithin 0 context.now progress.now.counts }
    requires there { seen ≤ length context.now.functions.now }
    ensures ok { IfOk result (λ v. Gives context.now progress.old progress.new (expr_means (expr_view e.now) (site_at context.now seen) (pairs_view scope.now)) (tree v)) }
    ensures err { IfErr result (λ f. Fails context.now progress.old progress.new (expr_means (expr_view e.now) (site_at context.now seen) (pairs_view scope.now)) f) }
{
    let form = e.form.as_ref();
    match parts_of(form) {
        Parts::Leaf => leaf_value(context, progress, scope, form),
        Parts::One(e) => {
            let v = play_expr(context, progress, seen, scope, e)?;
            of_one(context, progress, form, v)
        }
        Parts::Two(a, b) => {
            let v = play_expr(context, progress, seen, scope, a)?;
            let w = play_expr(context, progress, seen, scope, b)?;
            of_two(context, progress, form, v, w)
        }
        Parts::Either(decides, a, b) => play_either(context, progress, seen, scope, decides, a, b),
        Parts::Many(es) => {
            let values = play_exprs(context, progress, seen, scope, es)?;
            of_many(context, progress, form, values)
        }
        Parts::Call(name, es) => {
            let values = play_exprs(context, progress, seen, scope, es)?;
            call_helper(context, progress, seen, name, values)
        }
        Parts::Members(entries) => {
            let members = play_entries(context, progress, seen, scope, entries)?;
            of_members(context, progress, members)
        }
        Parts::Bounded(bounds, take) => {
            let bounds = play_bounds(context, progress, seen, scope, bounds)?;
            let limit = play_limit(context, progress, seen, scope, take)?;
            of_bounds(context, progress, form, bounds, limit)
        }
    }
}

/// How many rows a scan may take.
#[cycle(play)]
fn play_limit(
    context: &Context,
    progress: &mut Progress,
    seen: usize,
    scope: &[(Text, Val)],
    take: &Option<Expr>,
) -> Result<Option<u32>, Fault>
    requires within { IsWithin 0 context.now progress.now.counts }
    requires there { seen ≤ length context.now.functions.now }
    ensures ok { IfOk result (λ l. Gives context.now progress.old progress.new (limit_means (limit_of (option_map expr_view take.now)) (site_at context.now seen) (pairs_view scope.now)) l) }
    ensures err { IfErr result (λ f. Fails context.now progress.old progress.new (limit_means (limit_of (option_map expr_view take.now)) (site_at context.now seen) (pairs_view scope.now)) f) }
{
    match take {
        None => Ok(None),
        Some(e) => {
            let most = play_expr(context, progress, seen, scope, e)?;
            limit_of(context, progress, &most)
        }
    }
}

/// The values of expressions in order.
#[cycle(play)]
fn play_exprs(
    context: &Context,
    progress: &mut Progress,
    seen: usize,
    scope: &[(Text, Val)],
    es: &[Expr],
) -> Result<Vec<Val>, Fault>
    requires within { IsWithin 0 context.now progress.now.counts }
    requires there { seen ≤ length context.now.functions.now }
    ensures ok { IfOk result (λ vs. Gives context.now progress.old progress.new (exprs_mean (exprs_of (map expr_view es.now)) (site_at context.now seen) (pairs_view scope.now)) (map tree vs.items)) }
    ensures err { IfErr result (λ f. Fails context.now progress.old progress.new (exprs_mean (exprs_of (map expr_view es.now)) (site_at context.now seen) (pairs_view scope.now)) f) }
{
    let mut values = Vec::with_capacity(context.alloc, es.len())?;
    for e in es {
        values.push(play_expr(context, progress, seen, scope, e)?)?;
    }
    Ok(values)
}

/// Names with the values of their expressions, in the order of the text.
#[cycle(play)]
fn play_entries(
    context: &Context,
    progress: &mut Progress,
    seen: usize,
    scope: &[(Text, Val)],
    entries: &[(Named, Expr)],
) -> Result<Vec<(Text, Val)>, Fault>
    requires within { IsWithin 0 context.now progress.now.counts }
    requires there { seen ≤ length context.now.functions.now }
    ensures ok { IfOk result (λ ms. Gives context.now progress.old progress.new (entries_mean (entries_of (map (λ p. (p.0, expr_view p.1)) entries.now)) (site_at context.now seen) (pairs_view scope.now)) (pairs_view ms.items)) }
    ensures err { IfErr result (λ f. Fails context.now progress.old progress.new (entries_mean (entries_of (map (λ p. (p.0, expr_view p.1)) entries.now)) (site_at context.now seen) (pairs_view scope.now)) f) }
{
    let mut values = Vec::with_capacity(context.alloc, entries.len())?;
    for (name, e) in entries {
        let value = play_expr(context, progress, seen, scope, e)?;
        values.push((name.text.copy(context.alloc)?, value))?;
    }
    Ok(values)
}

/// The operators of bounds with the values of their expressions.
#[cycle(play)]
fn play_bounds(
    context: &Context,
    progress: &mut Progress,
    seen: usize,
    scope: &[(Text, Val)],
    bounds: &[BoundExpr],
) -> Result<Vec<(CompareOp, Val)>, Fault>
    requires within { IsWithin 0 context.now progress.now.counts }
    requires there { seen ≤ length context.now.functions.now }
    ensures ok { IfOk result (λ bs. Gives context.now progress.old progress.new (bounds_mean (bounds_of (map bound_view bounds.now)) (site_at context.now seen) (pairs_view scope.now)) (bounds_view bs.items)) }
    ensures err { IfErr result (λ f. Fails context.now progress.old progress.new (bounds_mean (bounds_of (map bound_view bounds.now)) (site_at context.now seen) (pairs_view scope.now)) f) }
{
    let mut values = Vec::with_capacity(context.alloc, bounds.len())?;
    for bound in bounds {
        let value = play_expr(context, progress, seen, scope, &bound.value)?;
        values.push((bound.op, value))?;
    }
    Ok(values)
}

/// Two truth values, of which the left one decides where it is this one.
#[cycle(play)]
fn play_either(
    context: &Context,
    progress: &mut Progress,
    seen: usize,
    scope: &[(Text, Val)],
    decides: bool,
    a: &Expr,
    b: &Expr,
) -> Result<Val, Fault>
    requires within { IsWithin 0 context.now progress.now.counts }
    requires there { seen ≤ length context.now.functions.now }
    ensures ok { IfOk result (λ v. Gives context.now progress.old progress.new (either decides (expr_means (expr_view a.now) (site_at context.now seen) (pairs_view scope.now)) (expr_means (expr_view b.now) (site_at context.now seen) (pairs_view scope.now))) (tree v)) }
    ensures err { IfErr result (λ f. Fails context.now progress.old progress.new (either decides (expr_means (expr_view a.now) (site_at context.now seen) (pairs_view scope.now)) (expr_means (expr_view b.now) (site_at context.now seen) (pairs_view scope.now))) f) }
{
    let left = play_expr(context, progress, seen, scope, a)?;
    if as_truth(context, &left)? == decides {
        return Ok(Val::Bool(decides));
    }
    let right = play_expr(context, progress, seen, scope, b)?;
    Ok(Val::Bool(as_truth(context, &right)?))
}

/// The value that a helper gives. It has a smaller number than the function that calls it.
#[cycle(play)]
fn call_helper(
    context: &Context,
    progress: &mut Progress,
    seen: usize,
    name: &Text,
    values: Vec<Val>,
) -> Result<Val, Fault>
    requires within { IsWithin 0 context.now progress.now.counts }
    requires there { seen ≤ length context.now.functions.now }
    ensures ok { IfOk result (λ v. Gives context.now progress.old progress.new (helper_value (site_at context.now seen) name.now (map tree values.items)) (tree v)) }
    ensures err { IfErr result (λ f. Fails context.now progress.old progress.new (helper_value (site_at context.now seen) name.now (map tree values.items)) f) }
{
    spend(context, progress)?;
    let Some(number) = find_helper(context, seen, name) else {
        return Err(failure(context.alloc, "TypeError"));
    };
    play_function(context, progress, number, values)
}

/// What a function gives, called with these values.
#[cycle(play)]
pub(crate) fn play_function(
    context: &Context,
    progress: &mut Progress,
    number: usize,
    values: Vec<Val>,
) -> Result<Val, Fault>
    requires within { IsWithin 0 context.now progress.now.counts }
    requires there { number < length context.now.functions.now }
    ensures ok { (f : FunctionTree) → slice_get (map function_view context.now.functions.now) number ≡ Some f → IfOk result (λ v. Gives context.now progress.old progress.new (function_means (site_at context.now number) f (map tree values.items)) (tree v)) }
    ensures err { (f : FunctionTree) → slice_get (map function_view context.now.functions.now) number ≡ Some f → IfErr result (λ fault. Fails context.now progress.old progress.new (function_means (site_at context.now number) f (map tree values.items)) fault) }
{
    let function = &context.functions[number];
    let Some(mut scope) = bound_to(context.alloc, function.params.as_slice(), values)? else {
        return Err(failure(context.alloc, "TypeError"));
    };
    match play_block(
        context,
        progress,
        number,
        &mut scope,
        function.body.as_slice(),
    )? {
        Flow::On => Ok(Val::Null),
        Flow::Returned(v) => Ok(v),
    }
}

/// Statements in order, until one returns.
#[cycle(play)]
fn play_block(
    context: &Context,
    progress: &mut Progress,
    seen: usize,
    scope: &mut Vec<(Text, Val)>,
    stmts: &[Stmt],
) -> Result<Flow, Fault>
    requires within { IsWithin 0 context.now progress.now.counts }
    requires there { seen ≤ length context.now.functions.now }
    ensures ok { IfOk result (λ flow. Flows context.now progress.old progress.new (λ back. stmts_mean (stmts_of (map stmt_view stmts.now)) (site_at context.now seen) back (pairs_view scope.old.items)) (pairs_view scope.new.items) flow) }
    ensures err { IfErr result (λ f. Breaks context.now progress.old progress.new (λ back. stmts_mean (stmts_of (map stmt_view stmts.now)) (site_at context.now seen) back (pairs_view scope.old.items)) f) }
{
    for stmt in stmts {
        match play_stmt(context, progress, seen, scope, stmt)? {
            Flow::On => {}
            Flow::Returned(v) => return Ok(Flow::Returned(v)),
        }
    }
    Ok(Flow::On)
}

/// Sets a variable that is there.
fn set_variable(
    context: &Context,
    progress: &Progress,
    scope: &mut Vec<(Text, Val)>,
    name: &Text,
    value: Val,
) -> Result<(), Fault>
    requires within { IsWithin 0 context.now progress.now.counts }
    ensures ok { IfOk result (λ u. Gives context.now progress.now progress.now (or_type_error (assigned name.now (tree value) (pairs_view scope.old.items))) (pairs_view scope.new.items)) }
    ensures err { IfErr result (λ f. Fails context.now progress.now progress.now (or_type_error (assigned name.now (tree value) (pairs_view scope.old.items))) f) }
{
    if assign(scope, name, value) {
        Ok(())
    } else {
        Err(failure(context.alloc, "TypeError"))
    }
}

/// One statement, with the unit of cost that it takes.
#[cycle(play)]
fn play_stmt(
    context: &Context,
    progress: &mut Progress,
    seen: usize,
    scope: &mut Vec<(Text, Val)>,
    stmt: &Stmt,
) -> Result<Flow, Fault>
    requires within { IsWithin 0 context.now progress.now.counts }
    requires there { seen ≤ length context.now.functions.now }
    ensures ok { IfOk result (λ flow. Flows context.now progress.old progress.new (λ back. stmt_means (stmt_view stmt.now) (site_at context.now seen) back (pairs_view scope.old.items)) (pairs_view scope.new.items) flow) }
    ensures err { IfErr result (λ f. Breaks context.now progress.old progress.new (λ back. stmt_means (stmt_view stmt.now) (site_at context.now seen) back (pairs_view scope.old.items)) f) }
{
    let alloc = context.alloc;
    spend(context, progress)?;
    match &stmt.form {
        StmtForm::Let(name, e) => {
            let value = play_expr(context, progress, seen, scope.as_slice(), e)?;
            scope.push((name.text.copy(alloc)?, value))?;
            Ok(Flow::On)
        }
        StmtForm::Assign(name, e) => {
            let value = play_expr(context, progress, seen, scope.as_slice(), e)?;
            set_variable(context, progress, scope, &name.text, value)?;
            Ok(Flow::On)
        }
        StmtForm::Eval(e) => {
            drop(play_expr(context, progress, seen, scope.as_slice(), e)?);
            Ok(Flow::On)
        }
        StmtForm::If(e, then, other) => {
            let value = play_expr(context, progress, seen, scope.as_slice(), e)?;
            let truth = as_truth(context, &value)?;
            let outer = scope.len();
            let chosen = branch(truth, then.as_slice(), other);
            let flow = play_block(context, progress, seen, scope, chosen)?;
            scope.truncate(outer);
            Ok(flow)
        }
        StmtForm::For(name, e, body) => {
            let value = play_expr(context, progress, seen, scope.as_slice(), e)?;
            let items = as_items(context, value)?;
            play_turns(
                context,
                progress,
                seen,
                scope,
                &name.text,
                items.as_slice(),
                body.as_slice(),
            )
        }
        StmtForm::Return(e) => {
            let value = play_expr(context, progress, seen, scope.as_slice(), e)?;
            Ok(Flow::Returned(value))
        }
        StmtForm::Throw(e) => {
            let value = play_expr(context, progress, seen, scope.as_slice(), e)?;
            Err(thrown(alloc, &value))
        }
    }
}

/// One turn for each item, in order, with the unit of cost that each takes.
#[cycle(play)]
fn play_turns(
    context: &Context,
    progress: &mut Progress,
    seen: usize,
    scope: &mut Vec<(Text, Val)>,
    name: &Text,
    items: &[Val],
    body: &[Stmt],
) -> Result<Flow, Fault>
    requires within { IsWithin 0 context.now progress.now.counts }
    requires there { seen ≤ length context.now.functions.now }
    ensures ok { IfOk result (λ flow. Flows context.now progress.old progress.new (λ back. turns (site_at context.now seen) (turn_of (site_at context.now seen) back name.now (stmts_of (map stmt_view body.now))) (map tree items.now) (pairs_view scope.old.items)) (pairs_view scope.new.items) flow) }
    ensures err { IfErr result (λ f. Breaks context.now progress.old progress.new (λ back. turns (site_at context.now seen) (turn_of (site_at context.now seen) back name.now (stmts_of (map stmt_view body.now))) (map tree items.now) (pairs_view scope.old.items)) f) }
{
    for item in items {
        spend(context, progress)?;
        let outer = scope.len();
        scope.push((name.copy(context.alloc)?, item.copy(context.alloc)?))?;
        match play_block(context, progress, seen, scope, body)? {
            Flow::On => scope.truncate(outer),
            Flow::Returned(v) => return Ok(Flow::Returned(v)),
        }
    }
    Ok(Flow::On)
}

/// The greatest length of a string that may be thrown.
const THROWN_BYTES: usize = 1_048_576;

/// The error that `throw` ends a run with.
fn thrown(alloc: Global, v: &Val) -> Fault
    ensures { Says result (thrown_text (tree v.now)) }
{
    let Val::Str(text) = v else {
        return failure(alloc, "TypeError");
    };
    if text.as_str().len() > THROWN_BYTES {
        return failure(alloc, "TooLarge");
    }
    match format!(in alloc; "Thrown: {}", text.as_str()) {
        Ok(text) => Fault::Failed(Text::from_string(text)),
        Err(_) => Fault::Memory,
    }
}
