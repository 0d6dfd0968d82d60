ghost use Rattle.std.specs.Prelude.{◌≡◌, [], ◌∷◌, ◌++◌, IfOk, OnOk, OnErr, map};

use crate::measure::Measure;
use crate::memory::Memory;
use crate::text::{Bytes, Text};
use std::alloc::Global;
use std::collections::BTreeMap;
use std::marker::Model;

/// A value. Contracts name the plain tree that it stands for.
#[cycle(val)]
#[derive(Debug, Drop)]
pub enum Val {
    Null,
    Int(i64),
    Bool(bool),
    Str(Text),
    Bin(Bytes),
    Arr(Vals),
    Obj(Fields),
}

/// The items of an array, and their measure beside them. Contracts see the list of their trees.
#[cycle(val)]
#[derive(Debug, Drop)]
pub struct Vals {
    items: Vec<Val>,
    measure: Measure,
}

/// The fields of an object: distinct names, each with its value, and their measure beside them.
/// Contracts see the list of the pairs, in byte order of the names.
#[cycle(val)]
#[derive(Debug, Drop)]
pub struct Fields {
    inner: BTreeMap<Text, Val>,
    measure: Measure,
}

impl Model for Vals {
    ghost use Rattle.std.specs.Prelude.{List};
    ghost use Rattle.std.specs.Coded.{coded_list};
    ghost use Rattle.cv_values.specs.Value.{Value as Plain};
    ghost use Rattle.cv_values.specs.Codes.{coded_value};

    ghost Value = { List Plain };

    ghost coded = { coded_list coded_value };

    ghost use Rattle.std.specs.Prelude.{map};
    ghost use Rattle.cv_values.specs.Trees.{tree, greatest};

    ghost view = { λ a. map tree a.items.items };

    ghost use Rattle.std.specs.Prelude.{◌≡◌};
    ghost use Rattle.cv_values.specs.Measures.{of_values};

    ghost invariant = { λ a. a.measure ≡ of_values (map tree a.items.items) };

    ghost size = { greatest };

    ghost use Rattle.cv_values.specs.Nesting.{most_le};
    ghost use Rattle.std.proofs.Common.{arith};

    ghost size_decreases = { λ a h. omega (arith, most_le a.items.items) };
}

impl Model for Fields {
    ghost use Rattle.std.specs.Prelude.{List, ℕ};
    ghost use Rattle.std.specs.Coded.{coded_list};
    ghost use Rattle.cv_values.specs.Value.{Value as Plain};
    ghost use Rattle.cv_values.specs.Codes.{coded_member};

    ghost Value = { List (List ℕ × Plain) };

    ghost coded = { coded_list coded_member };

    ghost use Rattle.std.specs.Prelude.{map};
    ghost use Rattle.cv_values.specs.Trees.{tree, greatest_member};

    ghost view = { λ a. map (λ e. (e.0, tree e.1)) a.inner.entries };

    ghost use Rattle.std.specs.Prelude.{◌≡◌};
    ghost use Rattle.cv_values.specs.Measures.{of_members};

    ghost invariant = { λ a. a.measure ≡ of_members (map (λ e. (e.0, tree e.1)) a.inner.entries) };

    ghost size = { greatest_member };

    ghost use Rattle.cv_values.specs.Nesting.{most_member_le};
    ghost use Rattle.std.proofs.Common.{arith};

    ghost size_decreases = { λ a h. omega (arith, most_member_le a.inner.entries) };
}

impl Vals {
    /// No items. It takes no memory.
    pub fn new(alloc: Global) -> Vals
        ensures { result ≡ [] }
    {
        Vals {
            items: Vec::new(alloc),
            measure: Measure::nothing(),
        }
    }
}

impl Fields {
    /// No fields. It takes no memory.
    pub fn new(alloc: Global) -> Fields
        ensures { result ≡ [] }
    {
        Fields {
            inner: BTreeMap::new(alloc),
            measure: Measure::nothing(),
        }
    }
}

impl Vals {
    ghost use Rattle.cv_values.specs.Measures.{of_values};
    ghost use Rattle.cv_values.specs.Nesting.{NestBelow};
    ghost use Rattle.cv_values.specs.Trees.{tree, greatest};

    /// Adds an item at the end.
    pub fn push(&mut self, v: Val) -> Result<(), Memory>
        ensures ok { OnOk result (self.new ≡ self.old ++ tree v ∷ []) }
        ensures err { OnErr result (self.new ≡ self.old) }
    {
        let added = Measure::of_val(&v);
        self.items.push(v)?;
        self.measure = self.measure.add(added);
        Ok(())
    }

    /// The array of the items of a `Vec`, which it takes over. It takes no memory, and goes over the
    /// items, but not into them.
    pub fn from_vec(items: Vec<Val>) -> Vals
        ensures { result ≡ map tree items.items }
    {
        let measure = Measure::of_items(items.as_slice());
        Vals { items, measure }
    }

    /// The `Vec` of the items. It copies nothing.
    pub fn into_vec(self) -> Vec<Val>
        ensures { map tree result.items ≡ self }
    {
        let Vals { items, .. } = self;
        items
    }

    /// The items in order. A recursion over them ends, since they nest less deep than the array.
    pub fn as_slice(&self) -> &[Val]
        ensures value { map tree result.now ≡ self.now }
        ensures falls { NestBelow result.now (greatest self.now) }
    {
        self.items.as_slice()
    }

    /// The measure of the items. Constant time.
    pub(crate) fn measure(&self) -> Measure
        ensures { result ≡ of_values self.now }
    {
        self.measure
    }

    /// Equal items, in memory of their own.
    #[cycle(copy)]
    pub fn copy(&self, alloc: Global) -> Result<Vals, Memory>
        ensures { IfOk result (λ c. c ≡ self.now) }
    {
        let mut items = Vec::with_capacity(alloc, self.items.len())?;
        for item in &self.items {
            items.push(item.copy(alloc)?)?;
        }
        Ok(Vals {
            items,
            measure: self.measure,
        })
    }
}

impl Fields {
    ghost use Rattle.cv_values.specs.Measures.{of_members};
    ghost use Rattle.cv_values.specs.Nesting.{NestBelow};
    ghost use Rattle.cv_values.specs.Trees.{tree, greatest_member};
    ghost use Rattle.std.specs.BTreeMap.{values};
    ghost use Rattle.std.specs.BTreeMap.{insert_entry, is_at};
    ghost use Rattle.std.specs.Map.{lookup, keys_of};
    ghost use Rattle.std.specs.List.Sorted.{IsStrictlySortedBy};
    ghost use Rattle.std.specs.Ordering.{nat_cmp};
    ghost use Rattle.std.specs.Cmp.Lexicographic.{slice_cmp};
    ghost use Rattle.std.specs.Prelude.{length, option_map};

    /// The number of names.
    pub fn len(&self) -> usize
        ensures len { result ≡ length self.now }
        ensures ordered { IsStrictlySortedBy (slice_cmp nat_cmp) (keys_of self.now) }
    {
        self.inner.len()
    }

    /// Sets the value of a name, and gives the value that the name had before. It costs a search
    /// over the names, and where the name was there it goes over all of them.
    pub fn insert(&mut self, name: Text, v: Val) -> Result<Option<Val>, Memory>
        ensures before { IfOk result (λ old. option_map tree old ≡ lookup (is_at (slice_cmp nat_cmp name)) self.old) }
        ensures ok { OnOk result (self.new ≡ insert_entry (slice_cmp nat_cmp) self.old name (tree v)) }
        ensures err { OnErr result (self.new ≡ self.old) }
    {
        let added = Measure::of_member(&name, &v);
        let old = self.inner.insert(name, v)?;
        self.measure = match &old {
            None => self.measure.add(added),
            Some(_) => Measure::of_map(&self.inner),
        };
        Ok(old)
    }

    /// The value of a name, or none exactly where the name isn't there.
    pub fn get(&self, name: &Text) -> Option<&Val>
        ensures { option_map (λ v. tree v.now) result ≡ lookup (is_at (slice_cmp nat_cmp name.now)) self.now }
    {
        self.inner.get(name)
    }

    /// The names and values in byte order of the names. A recursion over the values ends, since they
    /// nest less deep than the object.
    pub fn as_map(&self) -> &BTreeMap<Text, Val>
        ensures value { map (λ e. (e.0, tree e.1)) result.now.entries ≡ self.now }
        ensures ordered { IsStrictlySortedBy (slice_cmp nat_cmp) (keys_of self.now) }
        ensures falls { NestBelow (values result.now) (greatest_member self.now) }
    {
        // `len` says that the names rise.
        let _ordered = self.inner.len();
        &self.inner
    }

    /// The measure of the names and values. Constant time.
    pub(crate) fn measure(&self) -> Measure
        ensures { result ≡ of_members self.now }
    {
        self.measure
    }

    /// Equal fields, in memory of their own.
    #[cycle(copy)]
    pub fn copy(&self, alloc: Global) -> Result<Fields, Memory>
        ensures { IfOk result (λ c. c ≡ self.now) }
    {
        let mut inner = BTreeMap::new(alloc);
        for (name, value) in self.inner.iter() {
            drop(inner.insert(name.copy(alloc)?, value.copy(alloc)?)?);
        }
        Ok(Fields {
            inner,
            measure: self.measure,
        })
    }
}
