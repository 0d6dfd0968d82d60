//! Operations that read a part of a value.
ghost use Rattle.std.specs.Prelude.{◌≡◌, ◌≢◌, IfOk, IfErr, Ok, Err, option_map};
ghost use Rattle.cv_values.specs.Trees.{tree};
ghost use Rattle.fn_ops.specs.Operations.{field, item, item_at, length_of, has};

use crate::fault::OpFault;
use cv_values::{Text, Val, Vals};
use std::alloc::Global;

/// `a.name`: the value of a field of an object, which is copied. It costs a search over the names.
///
/// Errors: `Type_` where `a` is no object, `NoField`.
#[tactic(auto, using(crate::proofs::Views::field_is))]
pub fn field(alloc: Global, a: &Val, name: &Text) -> Result<Val, OpFault>
    ensures ok { IfOk result (λ v. field (tree a.now) name.now ≡ Ok (tree v)) }
    ensures err { IfErr result (λ e. e ≢ OpFault.Memory → field (tree a.now) name.now ≡ Err e) }
{
    match a {
        Val::Obj(fields) => match fields.get(name) {
            Some(v) => Ok(v.copy(alloc)?),
            None => Err(OpFault::NoField),
        },
        _ => Err(OpFault::Type_),
    }
}

/// `a[b]`: the field of an object at a string, or the item of an array at an integer, from 0. It
/// is copied, and nothing else is.
///
/// Errors: `Type_` for other kinds, `NoField`, `OutOfRange`.
#[tactic(auto, using(crate::proofs::Views::views))]
pub fn item(alloc: Global, a: &Val, b: &Val) -> Result<Val, OpFault>
    ensures ok { IfOk result (λ v. item (tree a.now) (tree b.now) ≡ Ok (tree v)) }
    ensures err { IfErr result
        (λ e. e ≢ OpFault.Memory → item (tree a.now) (tree b.now) ≡ Err e) }
{
    match (a, b) {
        (Val::Obj(_), Val::Str(name)) => field(alloc, a, name),
        (Val::Arr(items), Val::Int(i)) => match item_at(items, *i) {
            Some(v) => Ok(v.copy(alloc)?),
            None => Err(OpFault::OutOfRange),
        },
        _ => Err(OpFault::Type_),
    }
}

fn item_at(items: &Vals, i: i64) -> Option<&Val>
    ensures { option_map (λ v. tree v.now) result ≡ item_at items.now i }
{
    items.as_slice().get(usize::try_from(i).ok()?)
}

/// How many bytes a string or bytes have, items an array, names an object. It takes no memory.
///
/// Errors: `Type_` for another kind.
#[tactic(auto, using(crate::proofs::Views::views))]
pub fn length(_alloc: Global, a: &Val) -> Result<Val, OpFault>
    ensures ok { IfOk result (λ v. length_of (tree a.now) ≡ Ok (tree v)) }
    ensures err { IfErr result (λ e. length_of (tree a.now) ≡ Err e) }
{
    match a {
        Val::Str(s) => Ok(Val::Int(s.as_str().len() as i64)),
        Val::Bin(b) => Ok(Val::Int(b.as_slice().len() as i64)),
        Val::Arr(items) => Ok(Val::Int(items.as_slice().len() as i64)),
        Val::Obj(fields) => Ok(Val::Int(fields.as_map().len() as i64)),
        _ => Err(OpFault::Type_),
    }
}

/// Whether an object has a name. It takes no memory, and costs a search over the names.
///
/// Errors: `Type_` where `a` is no object or `b` no string.
#[tactic(auto, using(crate::proofs::Views::has_is))]
pub fn has(_alloc: Global, a: &Val, b: &Val) -> Result<Val, OpFault>
    ensures ok { IfOk result (λ v. has (tree a.now) (tree b.now) ≡ Ok (tree v)) }
    ensures err { IfErr result (λ e. has (tree a.now) (tree b.now) ≡ Err e) }
{
    match (a, b) {
        (Val::Obj(fields), Val::Str(name)) => Ok(Val::Bool(fields.get(name).is_some())),
        _ => Err(OpFault::Type_),
    }
}
