//! Equality and hashes: two values are equal exactly where they stand for the same tree.
ghost use Rattle.std.specs.Prelude.{◌≡◌, fold, map};
ghost use Rattle.cv_values.specs.Hashes.{fed, values_fed, members_fed};
ghost use Rattle.cv_values.specs.Trees.{tree};
ghost use Rattle.cv_values.specs.Value.{values_of, members_of};

use crate::order::{compare, compare_fields};
use crate::val::{Fields, Val};
use std::hash::{Hash, Hasher};

impl PartialEq for Val {
    ghost use Rattle.std.specs.Cmp.{eq_by_cmp_equiv, on_equiv, partial_equiv_from_equiv};
    ghost use Rattle.std.specs.Ordering.{eq_by_cmp, on};
    ghost use Rattle.cv_values.specs.Order.{compare};
    ghost use Rattle.cv_values.specs.OrderLaws.{compare_total};
    ghost use Rattle.cv_values.specs.Trees.{tree};

    ghost eq = { on tree (eq_by_cmp compare) };

    ghost laws = { partial_equiv_from_equiv (on_equiv tree (eq_by_cmp_equiv compare_total)) };

    fn eq(&self, other: &Val) -> bool {
        compare(self, other).is_eq()
    }
}

impl Eq for Val {
    ghost use Rattle.std.specs.Cmp.{eq_by_cmp_equiv, on_equiv};
    ghost use Rattle.cv_values.specs.OrderLaws.{compare_total};
    ghost use Rattle.cv_values.specs.Trees.{tree};

    ghost laws = { on_equiv tree (eq_by_cmp_equiv compare_total) };
}

impl Hash for Val {
    ghost use Rattle.cv_values.specs.Hashes.{fed, fed_alike};
    ghost use Rattle.cv_values.specs.Trees.{tree};

    ghost hash_input = { λ v. fed (tree v) };

    ghost respects_eq = { λ v w e. fed_alike (tree v) (tree w) e };

    fn hash<H: Hasher>(&self, state: &mut H) {
        feed(self, state);
    }
}

impl PartialEq for Fields {
    ghost use Rattle.std.specs.Cmp.{eq_by_cmp_equiv, on_equiv, partial_equiv_from_equiv};
    ghost use Rattle.std.specs.Ordering.{eq_by_cmp, on};
    ghost use Rattle.cv_values.specs.Order.{compare};
    ghost use Rattle.cv_values.specs.OrderLaws.{compare_total};
    ghost use Rattle.cv_values.specs.Value.{object, members_of};

    ghost eq = { on (λ f. object (members_of f)) (eq_by_cmp compare) };

    ghost laws = { partial_equiv_from_equiv (on_equiv (λ f. object (members_of f)) (eq_by_cmp_equiv compare_total)) };

    fn eq(&self, other: &Fields) -> bool {
        compare_fields(self, other).is_eq()
    }
}

impl Eq for Fields {
    ghost use Rattle.std.specs.Cmp.{eq_by_cmp_equiv, on_equiv};
    ghost use Rattle.cv_values.specs.OrderLaws.{compare_total};
    ghost use Rattle.cv_values.specs.Value.{object, members_of};

    ghost laws = { on_equiv (λ f. object (members_of f)) (eq_by_cmp_equiv compare_total) };
}

impl Hash for Fields {
    ghost use Rattle.cv_values.specs.Hashes.{fed, fed_alike};
    ghost use Rattle.cv_values.specs.Value.{object, members_of};

    ghost hash_input = { λ f. fed (object (members_of f)) };

    ghost respects_eq = { λ f g e. fed_alike (object (members_of f)) (object (members_of g)) e };

    fn hash<H: Hasher>(&self, state: &mut H) {
        state.write_u8(7);
        feed_fields(self, state);
    }
}

#[cycle(feed)]
fn feed<H: Hasher>(v: &Val, state: &mut H)
    ensures { state.new ≡ fold H.write state.old (fed (tree v.now)) }
{
    match v {
        Val::Null => state.write_u8(1),
        Val::Int(n) => {
            state.write_u8(2);
            state.write_i64(*n);
        }
        Val::Bool(b) => {
            state.write_u8(3);
            b.hash(state);
        }
        Val::Str(s) => {
            state.write_u8(4);
            s.hash(state);
        }
        Val::Bin(b) => {
            state.write_u8(5);
            state.write(b.as_slice());
        }
        Val::Arr(items) => {
            state.write_u8(6);
            feed_values(items.as_slice(), state);
        }
        Val::Obj(fields) => {
            state.write_u8(7);
            feed_fields(fields, state);
        }
    }
}

#[cycle(feed)]
fn feed_values<H: Hasher>(items: &[Val], state: &mut H)
    ensures { state.new ≡ fold H.write state.old (values_fed (values_of (map tree items.now))) }
{
    for item in items {
        feed(item, state);
    }
    state.write_u8(0);
}

#[cycle(feed)]
fn feed_fields<H: Hasher>(fields: &Fields, state: &mut H)
    ensures { state.new ≡ fold H.write state.old (members_fed (members_of fields.now)) }
{
    for (name, v) in fields.as_map() {
        name.hash(state);
        feed(v, state);
    }
    state.write_u8(0);
}
