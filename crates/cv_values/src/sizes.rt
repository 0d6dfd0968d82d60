ghost use Rattle.std.specs.Prelude.{◌≡◌, ◌-◌, ◌^◌, min};
ghost use Rattle.cv_values.specs.Sizes.{size_of, members_size};
ghost use Rattle.cv_values.specs.Trees.{tree};
ghost use Rattle.cv_values.specs.Value.{depth_of, members_depth, members_of};

use crate::val::{Fields, Val};

/// The size units of a value, or the greatest number where they are more: 1 for null and booleans,
/// 9 for an integer, 2 more than the bytes of a string or bytes, 2 and the items for an array, 2 and
/// for each name its bytes, 1 and its value for an object. Constant time.
pub fn size_of(v: &Val) -> u64
    ensures { result ≡ min (size_of (tree v.now)) (2 ^ 64 - 1) }
{
    match v {
        Val::Null | Val::Bool(_) => 1,
        Val::Int(_) => 9,
        Val::Str(s) => (s.as_str().len() as u64).saturating_add(2),
        Val::Bin(b) => (b.as_slice().len() as u64).saturating_add(2),
        Val::Arr(items) => items.measure().size.saturating_add(2),
        Val::Obj(fields) => fields.measure().size.saturating_add(2),
    }
}

/// The size units of the fields of an object, without the 2 of the object itself, or the greatest
/// number where they are more. Constant time.
pub fn size_of_fields(fields: &Fields) -> u64
    ensures { result ≡ min (members_size (members_of fields.now)) (2 ^ 64 - 1) }
{
    fields.measure().size
}

/// How deep arrays and objects nest, or the greatest number where that is more: 0 for a scalar, 1 for
/// an empty array or object. Constant time.
pub fn depth_of(v: &Val) -> u32
    ensures { result ≡ min (depth_of (tree v.now)) (2 ^ 32 - 1) }
{
    match v {
        Val::Arr(items) => items.measure().depth.saturating_add(1),
        Val::Obj(fields) => fields.measure().depth.saturating_add(1),
        _ => 0,
    }
}

/// How deep the fields of an object nest, without the object itself. Constant time.
pub(crate) fn depth_of_fields(fields: &Fields) -> u32
    ensures { result ≡ min (members_depth (members_of fields.now)) (2 ^ 32 - 1) }
{
    fields.measure().depth
}
