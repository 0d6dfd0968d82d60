ghost use Rattle.std.specs.Prelude.{◌≡◌, map};
ghost use Rattle.cv_values.specs.Order.{compare, kind_of, values_cmp, members_cmp};
ghost use Rattle.cv_values.specs.Trees.{tree};
ghost use Rattle.cv_values.specs.Value.{values_of, members_of};

use crate::val::{Fields, Val};
use std::cmp::Ordering;

/// The order of two values: by kind (null, integer, boolean, string, bytes, array, object), then
/// within the kind. Lists are compared item by item, and a proper prefix is lower.
#[cycle(compare)]
pub fn compare(a: &Val, b: &Val) -> Ordering
    ensures { result ≡ compare (tree a.now) (tree b.now) }
{
    match (a, b) {
        (Val::Int(m), Val::Int(n)) => m.cmp(n),
        (Val::Bool(m), Val::Bool(n)) => m.cmp(n),
        (Val::Str(m), Val::Str(n)) => m.cmp(n),
        (Val::Bin(m), Val::Bin(n)) => m.as_slice().cmp(n.as_slice()),
        (Val::Arr(m), Val::Arr(n)) => compare_values(m.as_slice(), n.as_slice()),
        (Val::Obj(m), Val::Obj(n)) => compare_fields(m, n),
        _ => kind_of(a).cmp(&kind_of(b)),
    }
}

#[cycle(compare)]
fn compare_values(a: &[Val], b: &[Val]) -> Ordering
    ensures { result ≡ values_cmp (values_of (map tree a.now)) (values_of (map tree b.now)) }
{
    let mut others = b.iter();
    for v in a {
        let Some(w) = others.next() else {
            return Ordering::Greater;
        };
        let order = compare(v, w);
        if order.is_ne() {
            return order;
        }
    }
    if others.next().is_some() {
        Ordering::Less
    } else {
        Ordering::Equal
    }
}

/// The order of the objects of two lists of fields, which is that of their lists of pairs.
#[cycle(compare)]
pub fn compare_fields(a: &Fields, b: &Fields) -> Ordering
    ensures { result ≡ members_cmp (members_of a.now) (members_of b.now) }
{
    let mut others = b.as_map().iter();
    for (m, v) in a.as_map() {
        let Some((n, w)) = others.next() else {
            return Ordering::Greater;
        };
        let order = m.cmp(n).then(compare(v, w));
        if order.is_ne() {
            return order;
        }
    }
    if others.next().is_some() {
        Ordering::Less
    } else {
        Ordering::Equal
    }
}

fn kind_of(v: &Val) -> u8
    ensures { result ≡ kind_of (tree v.now) }
{
    match v {
        Val::Null => 1,
        Val::Int(_) => 2,
        Val::Bool(_) => 3,
        Val::Str(_) => 4,
        Val::Bin(_) => 5,
        Val::Arr(_) => 6,
        Val::Obj(_) => 7,
    }
}
