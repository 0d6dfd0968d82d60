//! How a run starts: the function of a call, the values of its parameters, and the limits.
ghost use Rattle.std.specs.Prelude.{◌≡◌, ◌&&◌, ◌++◌, [], IfOk, map, option_map};
ghost use Rattle.std.specs.Str.{bytes_eq};
ghost use Rattle.cv_values.specs.Trees.{tree};
ghost use Rattle.fn_code.specs.CodeMeans.{entry_of, arguments_of};
ghost use Rattle.fn_tree.specs.Actions.{nothing_used};
ghost use Rattle.fn_tree.specs.Functions.{is_kind, kind_of, limits_of};
ghost use Rattle.fn_vm.specs.Views.{counts_view, limits_view};

use crate::counts::{Counts, Limits};
use cv_values::{Fields, Memory, Text, Val};
use fn_code::Entry;
use fn_tree::{Kind, Origin};
use std::alloc::Global;

/// A call: the function's path, its arguments by name, and where it comes from. An origin makes it the
/// call of a mutation, none that of a query.
#[derive(Clone, Copy)]
pub struct Start<'a> {
    pub udf: &'a Text,
    pub args: &'a Fields,
    pub origin: Option<Origin>,
}

/// A mutation has an origin, and a query has none.
pub fn kind_of(origin: &Option<Origin>) -> Kind
    ensures { result ≡ kind_of origin.now }
{
    match origin {
        None => Kind::Query,
        Some(_) => Kind::Mutation,
    }
}

fn is_kind(a: Kind, b: Kind) -> bool
    ensures { result ≡ is_kind a b }
{
    match (a, b) {
        (Kind::Query, Kind::Query) => true,
        (Kind::Mutation, Kind::Mutation) => true,
        (Kind::Helper, Kind::Helper) => true,
        _ => false,
    }
}

/// The function of a kind and a path, if there is one. It costs a search over the functions.
pub fn entry_of<'a>(entries: &'a [Entry], kind: Kind, udf: &Text) -> Option<&'a Entry>
    ensures { option_map (λ e. e.now) result ≡ entry_of kind udf.now entries.now }
{
    for entry in entries {
        if is_kind(kind, entry.kind) && entry.udf == *udf {
            return Some(entry);
        }
    }
    None
}

/// The values of the parameters in their order, where the names of the arguments are exactly theirs.
pub fn arguments_of(
    alloc: Global,
    params: &[Text],
    args: &Fields,
) -> Result<Option<Vec<Val>>, Memory>
    ensures { IfOk result (λ values. option_map (λ vs. map tree vs.items) values ≡ arguments_of params.now args.now) }
{
    if params.len() != args.len() {
        return Ok(None);
    }
    let mut values = Vec::with_capacity(alloc, params.len())?;
    for param in params {
        let Some(value) = args.get(param) else {
            return Ok(None);
        };
        values.push(value.copy(alloc)?)?;
    }
    Ok(Some(values))
}

/// The limits of a mutation, or of a query.
pub fn limits_of(origin: &Option<Origin>) -> Limits
    ensures { limits_view result ≡ limits_of origin.now }
{
    let ranges = match origin {
        None => 1024,
        Some(_) => 4096,
    };
    Limits {
        cost: 100_000,
        rows: 16_384,
        size: 8_388_608,
        ranges,
        writes: 8192,
        written: 8_388_608,
        reply: 1_048_576,
    }
}

/// What a run has used up at its start.
pub fn nothing_used() -> Counts
    ensures { counts_view result ≡ nothing_used }
{
    Counts {
        cost: 0,
        rows: 0,
        size: 0,
        ranges: 0,
        writes: 0,
        written: 0,
        inserts: 0,
    }
}
