//! Operations that make arrays.
ghost use Rattle.std.specs.Prelude.{◌≡◌, ◌≢◌, IfOk, IfErr, Ok, Err, map, option_map, ◌-ℤ◌};
ghost use Rattle.cv_values.specs.Trees.{tree};
ghost use Rattle.cv_values.specs.Value.{array, values_of};
ghost use Rattle.fn_ops.specs.Operations.{push, slice, range, array_of, integers, count_of, part};

use crate::fault::OpFault;
use crate::limits::made;
use cv_values::{MAX_ITEMS, Memory, Val, Vals};
use std::alloc::Global;

/// The array `a` with `b` at its end. Both are copied whole.
///
/// Errors: `Type_` where `a` is no array, `TooDeep`, `TooMany`, `TooLarge`.
pub fn push(alloc: Global, a: &Val, b: &Val) -> Result<Val, OpFault>
    ensures ok { IfOk result (λ v. push (tree a.now) (tree b.now) ≡ Ok (tree v)) }
    ensures err { IfErr result
        (λ e. e ≢ OpFault.Memory → push (tree a.now) (tree b.now) ≡ Err e) }
{
    match a {
        Val::Arr(items) => push_onto(items.copy(alloc)?, b.copy(alloc)?),
        _ => Err(OpFault::Type_),
    }
}

/// What [`push`] gives of the array of these items. Nothing is copied: the items and the value go
/// into the result, and are gone where there is none.
#[tactic(auto, using(crate::proofs::Views::views))]
pub fn push_onto(mut items: Vals, v: Val) -> Result<Val, OpFault>
    ensures ok { IfOk result (λ w. push (array (values_of items)) (tree v) ≡ Ok (tree w)) }
    ensures err { IfErr result
        (λ e. e ≢ OpFault.Memory → push (array (values_of items)) (tree v) ≡ Err e) }
{
    items.push(v)?;
    made(Val::Arr(items))
}

/// The items of the array `a` from `b` on and before `c`, counted from 0. These are copied, and no
/// others.
///
/// Errors: `Type_` where `a` is no array or `b` or `c` no integer, `OutOfRange` unless 0, `b`, `c`
/// and the length rise or are equal; `TooDeep`, `TooMany` and `TooLarge` where the part passes a
/// limit.
#[tactic(auto, using(crate::proofs::Views::views))]
pub fn slice(alloc: Global, a: &Val, b: &Val, c: &Val) -> Result<Val, OpFault>
    ensures ok { IfOk result (λ v. slice (tree a.now) (tree b.now) (tree c.now) ≡ Ok (tree v)) }
    ensures err { IfErr result
        (λ e. e ≢ OpFault.Memory → slice (tree a.now) (tree b.now) (tree c.now) ≡ Err e) }
{
    match (a, b, c) {
        (Val::Arr(items), Val::Int(i), Val::Int(j)) => match part(items.as_slice(), *i, *j) {
            Some(part) => made(Val::Arr(copy_items(alloc, part)?)),
            None => Err(OpFault::OutOfRange),
        },
        _ => Err(OpFault::Type_),
    }
}

fn part(items: &[Val], i: i64, j: i64) -> Option<&[Val]>
    ensures { option_map (λ vs. map tree vs.now) result ≡ part (map tree items.now) i j }
{
    let start = usize::try_from(i).ok()?;
    let end = usize::try_from(j).ok()?;
    items.get(start..end)
}

fn copy_items(alloc: Global, items: &[Val]) -> Result<Vals, Memory>
    ensures { IfOk result (λ vs. vs ≡ map tree items.now) }
{
    let mut copies = Vals::new(alloc);
    for item in items {
        copies.push(item.copy(alloc)?)?;
    }
    Ok(copies)
}

/// The array of the integers from `a` on and before `b`, empty where `b` is at most `a`.
///
/// Errors: `Type_` unless both are integers, `TooMany` where there are more than 8,192.
#[tactic(auto, using(crate::proofs::Views::views))]
pub fn range(alloc: Global, a: &Val, b: &Val) -> Result<Val, OpFault>
    ensures ok { IfOk result (λ v. range (tree a.now) (tree b.now) ≡ Ok (tree v)) }
    ensures err { IfErr result
        (λ e. e ≢ OpFault.Memory → range (tree a.now) (tree b.now) ≡ Err e) }
{
    match (a, b) {
        (Val::Int(i), Val::Int(j)) => {
            if count_between(*i, *j) > MAX_ITEMS as u64 {
                return Err(OpFault::TooMany);
            }
            made(Val::Arr(integers(alloc, *i, *j)?))
        }
        _ => Err(OpFault::Type_),
    }
}

// How many integers there are from i on and before j.
#[tactic(auto, using(crate::proofs::Ranges::counts))]
fn count_between(i: i64, j: i64) -> u64
    ensures { result ≡ count_of (j -ℤ i) }
{
    if i < j { j.abs_diff(i) } else { 0 }
}

#[tactic(auto, using(crate::proofs::Ranges::counts))]
fn integers(alloc: Global, i: i64, j: i64) -> Result<Vals, Memory>
    ensures { IfOk result (λ vs. vs ≡ integers i (count_of (j -ℤ i))) }
{
    let mut items = Vals::new(alloc);
    for n in i..j {
        items.push(Val::Int(n))?;
    }
    Ok(items)
}

/// The array of these items, which go into it. Nothing is copied.
///
/// Errors: `TooDeep`, `TooMany`, `TooLarge`.
pub fn array_of(_alloc: Global, items: Vals) -> Result<Val, OpFault>
    ensures ok { IfOk result (λ v. array_of items ≡ Ok (tree v)) }
    ensures err { IfErr result (λ e. array_of items ≡ Err e) }
{
    made(Val::Arr(items))
}
