//! The checks of the functions, in the order of the text.
ghost use Rattle.std.specs.Prelude.{◌≡◌, OnOk, map, []};
ghost use Rattle.fn_check.specs.Faults.{Tells};
ghost use Rattle.fn_check.specs.Functions.{is_query, params_fault, with_params, body_fault, helper_made, known_behind, names_behind, is_taken, name_fault, function_fault, functions_fault};
ghost use Rattle.fn_check.specs.Statements.{after_stmts};
ghost use Rattle.fn_tree.specs.SyntaxViews.{function_view};

use crate::effects::{Effect, stmts_do};
use crate::fault::{CheckKind, Stop, refuse_if};
use crate::scope::{Helper, Scope, add_name};
use crate::statement::{check_declared, check_stmts};
use cv_values::{Memory, Text};
use fn_tree::{Function, Kind, Named};
use std::alloc::Global;
use std::collections::BTreeSet;

const FUNCTIONS: usize = 1024;

fn is_query(kind: Kind) -> bool
    ensures { result ≡ is_query kind }
{
    matches!(kind, Kind::Query)
}

fn helper_made(scope: &Scope, function: &Function) -> Helper
    ensures { result ≡ helper_made scope.now (function_view function.now) }
{
    Helper {
        params: function.params.len(),
        writes: stmts_do(Effect::Write, scope, &function.body),
        uses_now: stmts_do(Effect::Now, scope, &function.body),
    }
}

fn check_params(alloc: Global, scope: &mut Scope, params: &[Named]) -> Result<(), Stop>
    ensures fault { Tells result (params_fault scope.old params.now) }
    ensures scope { OnOk result (scope.new ≡ with_params scope.old params.now) }
{
    for param in params {
        check_declared(scope, param)?;
        scope.declare(alloc, &param.text)?;
    }
    Ok(())
}

fn check_body(alloc: Global, scope: &mut Scope, function: &Function) -> Result<(), Stop>
    ensures fault { Tells result (body_fault scope.old (function_view function.now)) }
    ensures scope { OnOk result (scope.new ≡ after_stmts (with_params scope.old (function_view function.now).params) (function_view function.now).body) }
{
    check_params(alloc, scope, &function.params)?;
    check_stmts(alloc, scope, &function.body)
}

fn is_taken(kind: Kind, scope: &Scope, names: &BTreeSet<Text>, udf: &Text) -> bool
    ensures { result ≡ is_taken kind scope.now names.now.keys udf.now }
{
    match kind {
        Kind::Query | Kind::Mutation => names.contains(udf),
        Kind::Helper => scope.helper(udf).is_some(),
    }
}

fn check_name(
    scope: &Scope,
    names: &BTreeSet<Text>,
    count: usize,
    function: &Function,
) -> Result<(), Stop>
    ensures { Tells result (name_fault scope.now names.now.keys count (function_view function.now)) }
{
    let taken = is_taken(function.kind, scope, names, &function.udf);
    refuse_if(taken, function.at, CheckKind::DuplicateFunction)?;
    refuse_if(count >= FUNCTIONS, function.at, CheckKind::TooManyFunctions)
}

fn add_udf(alloc: Global, names: &mut BTreeSet<Text>, kind: Kind, udf: &Text) -> Result<(), Memory>
    ensures { OnOk result (names.new.keys ≡ names_behind kind names.old.keys udf.now) }
{
    match kind {
        Kind::Query | Kind::Mutation => add_name(alloc, names, udf),
        Kind::Helper => Ok(()),
    }
}

fn check_function(
    alloc: Global,
    scope: &mut Scope,
    names: &mut BTreeSet<Text>,
    count: usize,
    function: &Function,
) -> Result<(), Stop>
    ensures fault { Tells result (function_fault scope.old names.old.keys count (function_view function.now)) }
    ensures scope { OnOk result (scope.new ≡ known_behind scope.old (function_view function.now)) }
    ensures names { OnOk result (names.new.keys ≡ names_behind function.now.kind names.old.keys function.now.udf) }
{
    check_name(scope, names, count, function)?;
    let helper = helper_made(scope, function);
    scope.begin(alloc, is_query(function.kind));
    check_body(alloc, scope, function)?;
    scope.begin(alloc, false);
    add_udf(alloc, names, function.kind, &function.udf)?;
    scope.complete(alloc, function.kind, &function.udf, helper)?;
    Ok(())
}

/// The checks of all functions.
pub(crate) fn check_functions(
    alloc: Global,
    scope: &mut Scope,
    functions: &[Function],
) -> Result<(), Stop>
    ensures fault { Tells result (functions_fault scope.old [] 0 (map function_view functions.now)) }
    ensures schema { OnOk result (scope.new.schema ≡ scope.old.schema) }
{
    let mut names = BTreeSet::new(alloc);
    for (count, function) in functions.iter().enumerate() {
        check_function(alloc, scope, &mut names, count, function)?;
    }
    Ok(())
}
