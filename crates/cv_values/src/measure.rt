//! What is kept beside the contents of an array or an object, so that none is gone over again to
//! be measured.
ghost use Rattle.std.specs.Prelude.{◌≡◌, map, if◌then◌else◌};
ghost use Rattle.cv_values.specs.Measures.{nothing, add, of_value, of_member, of_values, of_members};
ghost use Rattle.cv_values.specs.Trees.{tree};

use crate::check::{has_bad_name, has_many, is_bad_name};
use crate::sizes::{depth_of, size_of};
use crate::text::Text;
use crate::val::Val;
use std::collections::BTreeMap;

/// How large and how deep the contents of an array or an object are, and whether they hold too many
/// items or names, or a bad name. The numbers stop at the greatest.
#[derive(Clone, Copy, Debug)]
pub(crate) struct Measure {
    pub(crate) size: u64,
    pub(crate) depth: u32,
    /// An array or object in the contents has too many items or names.
    pub(crate) many: bool,
    /// A name in the contents is bad.
    pub(crate) bad: bool,
    /// A name in the contents is bad where it is to be stored.
    pub(crate) bad_stored: bool,
}

impl Measure {
    /// Of no contents.
    pub(crate) fn nothing() -> Measure
        ensures { result ≡ nothing }
    {
        Measure {
            size: 0,
            depth: 0,
            many: false,
            bad: false,
            bad_stored: false,
        }
    }

    /// Of both contents together.
    pub(crate) fn add(self, other: Measure) -> Measure
        ensures { result ≡ add self other }
    {
        Measure {
            size: self.size.saturating_add(other.size),
            depth: self.depth.max(other.depth),
            many: self.many || other.many,
            bad: self.bad || other.bad,
            bad_stored: self.bad_stored || other.bad_stored,
        }
    }

    /// Whether a name in the contents is bad; `stored` says that they are to be stored.
    pub(crate) fn has_bad_name(self, stored: bool) -> bool
        ensures { result ≡ if stored then self.bad_stored else self.bad }
    {
        if stored { self.bad_stored } else { self.bad }
    }

    /// Of one value, as an item. Constant time.
    pub(crate) fn of_val(v: &Val) -> Measure
        ensures { result ≡ of_value (tree v.now) }
    {
        Measure {
            size: size_of(v),
            depth: depth_of(v),
            many: has_many(v),
            bad: has_bad_name(false, v),
            bad_stored: has_bad_name(true, v),
        }
    }

    /// Of one value under a name. Constant time.
    pub(crate) fn of_member(name: &Text, v: &Val) -> Measure
        ensures { result ≡ of_member (name.now, tree v.now) }
    {
        let inner = Measure::of_val(v);
        let size = (name.as_str().len() as u64)
            .saturating_add(1)
            .saturating_add(inner.size);
        Measure {
            size,
            depth: inner.depth,
            many: inner.many,
            bad: is_bad_name(false, name.as_str()) || inner.bad,
            bad_stored: is_bad_name(true, name.as_str()) || inner.bad_stored,
        }
    }

    /// Of the items of an array. Constant time for each.
    pub(crate) fn of_items(items: &[Val]) -> Measure
        ensures { result ≡ of_values (map tree items.now) }
    {
        let mut total = Measure::nothing();
        for item in items {
            total = total.add(Measure::of_val(item));
        }
        total
    }

    /// Of the names and values of an object. Constant time for each.
    pub(crate) fn of_map(members: &BTreeMap<Text, Val>) -> Measure
        ensures { result ≡ of_members (map (λ e. (e.0, tree e.1)) members.now.entries) }
    {
        let mut total = Measure::nothing();
        for (name, v) in members {
            total = total.add(Measure::of_member(name, v));
        }
        total
    }
}
