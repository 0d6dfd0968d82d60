ghost use Rattle.std.specs.Prelude.{◌≡◌, true, false};
ghost use Rattle.cv_values.specs.Sizes.{checked, has_many, has_bad_name, is_bad_name};
ghost use Rattle.cv_values.specs.Trees.{tree};
ghost use Rattle.cv_values.specs.Value.{members_of, object};

use crate::sizes::{depth_of, depth_of_fields, size_of, size_of_fields};
use crate::val::{Fields, Val};
use thiserror::Error;

/// Why a value is refused. A value that deserves several is refused by the first.
#[derive(Clone, Copy, Debug, PartialEq, Eq, Error)]
pub enum ValueFault {
    /// It nests deeper than 64.
    #[error("arrays and objects nest deeper than 64")]
    TooDeep,
    /// An array has more than 8,192 items, or an object more than 1,024 names.
    #[error("an array has over 8192 items, or an object over 1024 names")]
    TooMany,
    /// A name is empty or begins with `$`; in fields to be stored, also with `_`.
    #[error("a name is empty or begins with `$`, or with `_` where it is to be stored")]
    BadName,
    /// It has more than 1,048,576 size units.
    #[error("the value has over 1048576 size units")]
    TooLarge,
}

/// How deep a value may nest.
pub const MAX_DEPTH: u32 = 64;

/// The most size units of a value.
pub const MAX_SIZE: u64 = 1_048_576;

/// The most items of an array.
pub const MAX_ITEMS: usize = 8192;

/// The most names of an object.
pub const MAX_NAMES: usize = 1024;

/// Refuses a value by the first of the faults, in the order in which they are declared, each over
/// the whole value. Constant time.
pub fn check_value(v: &Val) -> Result<(), ValueFault>
    ensures { result ≡ checked false (tree v.now) }
{
    if depth_of(v) > MAX_DEPTH {
        return Err(ValueFault::TooDeep);
    }
    if has_many(v) {
        return Err(ValueFault::TooMany);
    }
    if has_bad_name(false, v) {
        return Err(ValueFault::BadName);
    }
    if size_of(v) > MAX_SIZE {
        return Err(ValueFault::TooLarge);
    }
    Ok(())
}

/// The same of the object of these fields, in which a name that begins with `_` is bad too. Constant
/// time.
pub fn check_fields(f: &Fields) -> Result<(), ValueFault>
    ensures { result ≡ checked true (object (members_of f.now)) }
{
    if depth_of_fields(f) >= MAX_DEPTH {
        return Err(ValueFault::TooDeep);
    }
    if fields_have_many(f) {
        return Err(ValueFault::TooMany);
    }
    if f.measure().bad_stored {
        return Err(ValueFault::BadName);
    }
    if size_of_fields(f) > MAX_SIZE - 2 {
        return Err(ValueFault::TooLarge);
    }
    Ok(())
}

/// Whether an array anywhere in the value has over 8,192 items, or an object over 1,024 names.
/// Constant time.
#[tactic(auto, using(crate::proofs::Lens::values_len_is))]
pub fn has_many(v: &Val) -> bool
    ensures { result ≡ has_many (tree v.now) }
{
    match v {
        Val::Arr(items) => items.as_slice().len() > MAX_ITEMS || items.measure().many,
        Val::Obj(fields) => fields_have_many(fields),
        _ => false,
    }
}

#[tactic(auto, using(crate::proofs::Lens::members_len_is))]
fn fields_have_many(fields: &Fields) -> bool
    ensures { result ≡ has_many (object (members_of fields.now)) }
{
    fields.len() > MAX_NAMES || fields.measure().many
}

/// Whether a name anywhere in the value is bad. Constant time.
pub(crate) fn has_bad_name(stored: bool, v: &Val) -> bool
    ensures { result ≡ has_bad_name stored (tree v.now) }
{
    match v {
        Val::Arr(items) => items.measure().has_bad_name(stored),
        Val::Obj(fields) => fields.measure().has_bad_name(stored),
        _ => false,
    }
}

/// Whether a name of an object is empty or begins with `$`; where it is to be stored, also with `_`.
pub fn is_bad_name(stored: bool, name: &str) -> bool
    ensures { result ≡ is_bad_name stored name.now }
{
    match name.as_bytes() {
        [] => true,
        [first, ..] => *first == b'$' || (stored && *first == b'_'),
    }
}
