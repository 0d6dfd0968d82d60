//! Variables, helpers and parameters, by their names.
ghost use Rattle.std.specs.Prelude.{◌≡◌, ◌&&◌, ◌<◌, ◌≤◌, map, length, slice_get, cond, Some, None, IfOk, IfSome, IfNone, option_map, position};
ghost use Rattle.std.specs.Str.{bytes_eq};
ghost use Rattle.cv_values.specs.Trees.{tree};
ghost use Rattle.fn_tree.specs.Names.{at_name, assigned, bound_to, table_number, index_number};
ghost use Rattle.fn_plain.specs.Scopes.{pairs_view};
ghost use Rattle.fn_plain.specs.States.{site_at};
ghost use Rattle.std.specs.Str.{bytes_eq};
ghost use Rattle.fn_tree.specs.Functions.{function_means, is_kind};
ghost use Rattle.fn_tree.specs.declared.syntax.Kind.TheVariants.{Helper};
ghost use Rattle.fn_tree.specs.SyntaxViews.{function_view};

use crate::context::Context;
use cv_keys::{Schema, Table};
use cv_values::{Memory, Text, Val};
use fn_tree::{Function, Kind, Named};
use std::alloc::Global;

/// The value of a variable, if it is there.
pub(crate) fn value_of<'a>(scope: &'a [(Text, Val)], name: &Text) -> Option<&'a Val>
    ensures { option_map (λ v. tree v.now) result ≡ at_name name.now (pairs_view scope.now) }
{
    for (known, value) in scope {
        if known == name {
            return Some(value);
        }
    }
    None
}

/// Where the first variable of a name stands, if there is one.
fn position_of(scope: &[(Text, Val)], name: &Text) -> Option<usize>
    ensures { result ≡ position (λ p. bytes_eq p.0 name.now) scope.now }
{
    scope.iter().position(|p| p.0 == *name)
}

/// Sets the first variable of a name, and tells whether there is one.
pub(crate) fn assign(scope: &mut Vec<(Text, Val)>, name: &Text, value: Val) -> bool
    ensures { assigned name.now (tree value) (pairs_view scope.old.items) ≡ cond result (Some (pairs_view scope.new.items)) None }
{
    match position_of(scope.as_slice(), name) {
        None => false,
        Some(at) => {
            scope[at].1 = value;
            true
        }
    }
}

/// The parameters with their values, where there are as many values.
pub(crate) fn bound_to(
    alloc: Global,
    params: &[Named],
    values: Vec<Val>,
) -> Result<Option<Vec<(Text, Val)>>, Memory>
    ensures { IfOk result (λ scope. option_map (λ s. pairs_view s.items) scope ≡ bound_to params.now (map tree values.items)) }
{
    if params.len() != values.len() {
        return Ok(None);
    }
    let mut values = values;
    let mut scope = Vec::with_capacity(alloc, params.len())?;
    for param in params {
        let value = values.remove(0);
        scope.push((param.text.copy(alloc)?, value))?;
    }
    Ok(Some(scope))
}

/// The number of a table, if it is there.
pub(crate) fn table_number(schema: &Schema, name: &Text) -> Option<usize>
    ensures { result ≡ table_number schema.now name.now }
{
    schema
        .tables
        .as_slice()
        .iter()
        .position(|table| table.name == *name)
}

/// The number of an index of a table, if it is there.
pub(crate) fn index_number(table: &Table, name: &Text) -> Option<usize>
    ensures { result ≡ index_number table.now name.now }
{
    table
        .indexes
        .as_slice()
        .iter()
        .position(|index| index.name == *name)
}

fn is_helper(function: &Function, name: &Text) -> bool
    ensures { result ≡ (is_kind function.now.kind Helper && bytes_eq function.now.udf name.now) }
{
    matches!(function.kind, Kind::Helper) && function.udf == *name
}

/// The number of the helper of a name among the functions before this one, if it is there.
pub(crate) fn find_helper(context: &Context, seen: usize, name: &Text) -> Option<usize>
    requires there { seen ≤ length context.now.functions.now }
    ensures some { IfSome result (λ n. (n < seen) × (at_name name.now (site_at context.now seen).helpers ≡ option_map (function_means (site_at context.now n)) (slice_get (map function_view context.now.functions.now) n))) }
    ensures none { IfNone result (at_name name.now (site_at context.now seen).helpers ≡ None) }
{
    for number in 0..seen {
        if is_helper(&context.functions[number], name) {
            return Some(number);
        }
    }
    None
}
