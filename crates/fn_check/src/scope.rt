//! What a place in a module can name.
ghost use Rattle.std.specs.Prelude.{◌≡◌, [], OnOk, Option, option_map, map};
ghost use Rattle.std.specs.Option.{option_copied};
ghost use Rattle.fn_check.specs.Known.{Known, Names, is_visible, any_has, with_name, with_visible, inner, helper_of, table_of, index_of};
ghost use Rattle.fn_check.specs.Functions.{known_first, begun, completed};

use cv_keys::{Index, Schema, Table};
use cv_values::{Memory, Text};
use fn_tree::Kind;
use std::alloc::Global;
use std::collections::{BTreeMap, BTreeSet};
use std::marker::Model;
use std::mem;

/// What a call of a helper has to know: its number of parameters, and whether it writes or uses `now`,
/// by itself or by helpers.
#[derive(Clone, Copy, Debug, PartialEq, Eq)]
pub struct Helper {
    pub params: usize,
    pub writes: bool,
    pub uses_now: bool,
}

/// The schema, the helpers that are complete, whether a query is checked, and the visible names, block
/// by block.
#[derive(Drop)]
pub(crate) struct Scope {
    schema: Schema,
    helpers: BTreeMap<Text, Helper>,
    query: bool,
    here: BTreeSet<Text>,
    outer: Vec<BTreeSet<Text>>,
}

impl Model for Scope {
    ghost use Rattle.std.specs.Prelude.{map};
    ghost use Rattle.fn_check.specs.Known.{Known};

    ghost Value = { Known };

    ghost view = { λ s. record {
      schema = s.schema;
      helpers = s.helpers.entries;
      query = s.query;
      here = s.here.keys;
      outer = map (λ b. b.keys) s.outer.items;
    } };
}

impl Scope {
    /// Whether a variable of this name is visible.
    pub fn is_visible(&self, name: &Text) -> bool
        ensures { result ≡ is_visible self.now name.now }
    {
        self.here.contains(name) || any_has(&self.outer, name)
    }

    /// The complete helper of this name.
    pub fn helper(&self, name: &Text) -> Option<Helper>
        ensures { result ≡ helper_of self.now name.now }
    {
        self.helpers.get(name).copied()
    }

    /// The table of this name.
    pub fn table(&self, name: &Text) -> Option<&Table>
        ensures { option_copied result ≡ table_of self.now name.now }
    {
        self.schema
            .tables
            .as_slice()
            .iter()
            .find(|table| table.name == *name)
    }

    /// Before the first function.
    pub fn new(alloc: Global, schema: Schema) -> Scope
        ensures { result ≡ known_first schema }
    {
        Scope {
            schema,
            helpers: BTreeMap::new(alloc),
            query: false,
            here: BTreeSet::new(alloc),
            outer: Vec::new(alloc),
        }
    }

    /// The schema, where no more is checked.
    pub fn into_schema(self) -> Schema
        ensures { result ≡ self.schema }
    {
        let Scope { schema, .. } = self;
        schema
    }

    /// Begins a query or something else, with no name visible.
    pub fn begin(&mut self, alloc: Global, query: bool)
        ensures { self.new ≡ begun self.old query }
    {
        self.query = query;
        self.here = BTreeSet::new(alloc);
        self.outer = Vec::new(alloc);
    }

    /// Completes a function of a kind. A helper can be called from now on.
    pub fn complete(
        &mut self,
        alloc: Global,
        kind: Kind,
        name: &Text,
        helper: Helper,
    ) -> Result<(), Memory>
        ensures { OnOk result (self.new ≡ completed kind self.old name.now helper) }
    {
        if matches!(kind, Kind::Helper) {
            self.helpers.insert(name.copy(alloc)?, helper)?;
        }
        Ok(())
    }

    /// Makes a name visible to the end of the block.
    pub fn declare(&mut self, alloc: Global, name: &Text) -> Result<(), Memory>
        ensures { OnOk result (self.new ≡ with_visible self.old name.now) }
    {
        add_name(alloc, &mut self.here, name)
    }

    /// Begins a block in this block.
    pub fn enter(&mut self, alloc: Global) -> Result<(), Memory>
        ensures { OnOk result (self.new ≡ inner self.old) }
    {
        let around = mem::replace(&mut self.here, BTreeSet::new(alloc));
        self.outer.push(around)?;
        Ok(())
    }

    /// Ends a block: what was known before it is known again.
    pub fn leave(&mut self)
        ensures { (known : Known) (names : Names) → self.old ≡ record (inner known) { here = names } → self.new ≡ known }
    {
        if let Some(around) = self.outer.pop() {
            self.here = around;
        }
    }

    /// Whether a query is checked.
    pub fn in_query(&self) -> bool
        ensures { result ≡ self.now.query }
    {
        self.query
    }
}

/// Adds a name to the names.
pub(crate) fn add_name(alloc: Global, names: &mut BTreeSet<Text>, name: &Text) -> Result<(), Memory>
    ensures { OnOk result (names.new.keys ≡ with_name names.old.keys name.now) }
{
    names.insert(name.copy(alloc)?)?;
    Ok(())
}

// Whether one of the blocks has the name.
fn any_has(blocks: &[BTreeSet<Text>], name: &Text) -> bool
    ensures { result ≡ any_has (map (λ b. b.keys) blocks.now) name.now }
{
    for block in blocks {
        if block.contains(name) {
            return true;
        }
    }
    false
}

/// The index of this name.
pub(crate) fn index_of<'t>(table: &'t Table, name: &Text) -> Option<&'t Index>
    ensures { option_copied result ≡ index_of table.now name.now }
{
    table
        .indexes
        .as_slice()
        .iter()
        .find(|index| index.name == *name)
}
