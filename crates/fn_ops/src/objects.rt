//! Operations that make objects, and the names of an object.
ghost use Rattle.std.specs.Prelude.{◌≡◌, ◌≢◌, IfOk, IfErr, Ok, Err, map, filter, not, false};
ghost use Rattle.std.specs.BTreeMap.{is_at};
ghost use Rattle.std.specs.List.{list_any};
ghost use Rattle.std.specs.Map.{keys_of};
ghost use Rattle.cv_values.specs.Order.{text_cmp};
ghost use Rattle.cv_values.specs.Sizes.{is_bad_name};
ghost use Rattle.cv_values.specs.Trees.{tree};
ghost use Rattle.cv_values.specs.Value.{object, string, members_of};
ghost use Rattle.fn_ops.specs.Operations.{set, without, keys, object_of};

use crate::fault::OpFault;
use crate::limits::made;
use cv_values::{Fields, Memory, Text, Val, Vals, is_bad_name};
use std::alloc::Global;

/// The object `a` with the value `c` at the name `b`, whether the name was there or not. The object
/// and the value are copied whole.
///
/// Errors: `Type_` where `a` is no object or `b` no string, `BadName` where `b` is empty or begins
/// with `$`, `TooDeep`, `TooMany`, `TooLarge`.
pub fn set(alloc: Global, a: &Val, b: &Val, c: &Val) -> Result<Val, OpFault>
    ensures ok { IfOk result (λ v. set (tree a.now) (tree b.now) (tree c.now) ≡ Ok (tree v)) }
    ensures err { IfErr result
        (λ e. e ≢ OpFault.Memory → set (tree a.now) (tree b.now) (tree c.now) ≡ Err e) }
{
    match (a, b) {
        (Val::Obj(fields), Val::Str(name)) => {
            set_in(fields.copy(alloc)?, name.copy(alloc)?, c.copy(alloc)?)
        }
        _ => Err(OpFault::Type_),
    }
}

/// What [`set`] gives of the object of these fields. Nothing is copied: the fields, the name and
/// the value go into the result, and are gone where there is none.
#[tactic(auto, using(crate::proofs::Views::views))]
pub fn set_in(mut fields: Fields, name: Text, v: Val) -> Result<Val, OpFault>
    ensures ok { IfOk result
        (λ w. set (object (members_of fields)) (string name) (tree v) ≡ Ok (tree w)) }
    ensures err { IfErr result
        (λ e. e ≢ OpFault.Memory → set (object (members_of fields)) (string name) (tree v) ≡ Err e) }
{
    if is_bad_name(false, name.as_str()) {
        return Err(OpFault::BadName);
    }
    drop(fields.insert(name, v)?);
    made(Val::Obj(fields))
}

/// The object `a` without the name `b`, which need not be there. The other fields are copied.
///
/// Errors: `Type_` where `a` is no object or `b` no string; `TooDeep`, `TooMany` and `TooLarge`
/// where what is left passes a limit.
#[tactic(auto, using(crate::proofs::Views::views))]
pub fn without(alloc: Global, a: &Val, b: &Val) -> Result<Val, OpFault>
    ensures ok { IfOk result (λ v. without (tree a.now) (tree b.now) ≡ Ok (tree v)) }
    ensures err { IfErr result
        (λ e. e ≢ OpFault.Memory → without (tree a.now) (tree b.now) ≡ Err e) }
{
    match (a, b) {
        (Val::Obj(fields), Val::Str(name)) => made(Val::Obj(copy_without(alloc, fields, name)?)),
        _ => Err(OpFault::Type_),
    }
}

fn copy_without(alloc: Global, fields: &Fields, left_out: &Text) -> Result<Fields, Memory>
    ensures { IfOk result
        (λ fs. fs ≡ filter (λ m. not (is_at (text_cmp left_out.now) m.0)) fields.now) }
{
    let mut kept = Fields::new(alloc);
    for (name, v) in fields.as_map() {
        if left_out.cmp(name).is_ne() {
            drop(kept.insert(name.copy(alloc)?, v.copy(alloc)?)?);
        }
    }
    Ok(kept)
}

/// The array of the names of an object, in byte order. The names are copied.
///
/// Errors: `Type_` where `a` is no object; `TooMany` and `TooLarge`.
#[tactic(auto, using(crate::proofs::Views::views))]
pub fn keys(alloc: Global, a: &Val) -> Result<Val, OpFault>
    ensures ok { IfOk result (λ v. keys (tree a.now) ≡ Ok (tree v)) }
    ensures err { IfErr result (λ e. e ≢ OpFault.Memory → keys (tree a.now) ≡ Err e) }
{
    match a {
        Val::Obj(fields) => made(Val::Arr(copy_names(alloc, fields)?)),
        _ => Err(OpFault::Type_),
    }
}

fn copy_names(alloc: Global, fields: &Fields) -> Result<Vals, Memory>
    ensures { IfOk result (λ vs. vs ≡ map (λ n. string n) (keys_of fields.now)) }
{
    let mut names = Vals::new(alloc);
    for (name, _v) in fields.as_map() {
        names.push(Val::Str(name.copy(alloc)?))?;
    }
    Ok(names)
}

/// The object of these fields, which go into it. Nothing is copied.
///
/// Errors: `BadName` where a name is empty or begins with `$`, `TooDeep`, `TooMany`, `TooLarge`.
/// Names in the values are not looked at.
pub fn object_of(_alloc: Global, fields: Fields) -> Result<Val, OpFault>
    ensures ok { IfOk result (λ v. object_of fields ≡ Ok (tree v)) }
    ensures err { IfErr result (λ e. object_of fields ≡ Err e) }
{
    if has_bad_name(&fields) {
        return Err(OpFault::BadName);
    }
    made(Val::Obj(fields))
}

fn has_bad_name(fields: &Fields) -> bool
    ensures { result ≡ list_any (is_bad_name false) (keys_of fields.now) }
{
    for (name, _v) in fields.as_map() {
        if is_bad_name(false, name.as_str()) {
            return true;
        }
    }
    false
}
