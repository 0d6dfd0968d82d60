//! What can be named at a place of a function.
ghost use Rattle.std.specs.Prelude.{◌≡◌, ◌≤◌, ◌∷◌, ◌++◌, [], OnOk, length, take, map};
ghost use Rattle.fn_check.specs.Rooms.{HasRoom};
ghost use Rattle.fn_tree.specs.Names.{at_name, table_number, index_number};
ghost use Rattle.fn_tree.specs.Schemas.{text_of};
ghost use Rattle.fn_tree.specs.SyntaxViews.{function_view};
ghost use Rattle.fn_code.specs.Coding.{slot_of, with_name, with_params, equal_count, bound_fields, has_room, index_for, known_behind};

use cv_keys::{Index, Schema, Table};
use cv_values::{Memory, Text};
use fn_tree::{CompareOp, Function, Kind, Named};
use std::alloc::Global;
use std::marker::Model;

/// A helper that can be called: the number of its function, and how many parameters it has.
#[derive(Clone, Copy, Debug, PartialEq, Eq)]
pub struct Callee {
    pub number: u64,
    pub params: u64,
}

/// The tables, the variables in the order of their slots, and the helpers before this function.
#[derive(Drop)]
pub(crate) struct Known {
    schema: Schema,
    names: Vec<Text>,
    helpers: Vec<(Text, Callee)>,
    ghost room: { HasRoom schema },
}

impl Model for Known {
    ghost use Rattle.fn_code.specs.Coding.{Known};

    ghost Value = { Known };

    ghost view = { λ k. record {
      schema = k.schema;
      names = k.names.items;
      helpers = k.helpers.items;
    } };
}

impl Known {
    /// Before the first function.
    pub fn new(alloc: Global, schema: Schema) -> Known
        requires { HasRoom schema }
        ensures { result ≡ record { schema = schema; names = []; helpers = [] } }
    {
        Known {
            schema,
            names: Vec::new(alloc),
            helpers: Vec::new(alloc),
        }
    }

    /// The schema, where no more is compiled.
    pub fn into_schema(self) -> Schema
        ensures { result ≡ self.schema }
    {
        let Known { schema, .. } = self;
        schema
    }

    /// The slot of a variable, if it is there.
    #[tactic(auto, using(crate::proofs::FirstPlaces::first_place))]
    pub fn slot(&self, name: &Text) -> Option<u64>
        ensures { result ≡ slot_of self.now name.now }
    {
        for (slot, other) in self.names.iter().enumerate() {
            if *other == *name {
                return Some(slot as u64);
            }
        }
        None
    }

    /// The helper of a name, if it is there.
    pub fn helper(&self, name: &Text) -> Option<Callee>
        ensures { result ≡ at_name name.now self.now.helpers }
    {
        for (other, callee) in &self.helpers {
            if *other == *name {
                return Some(*callee);
            }
        }
        None
    }

    /// The number of a table, if it is there.
    pub fn table(&self, name: &Text) -> Option<u16>
        ensures { result ≡ table_number self.now.schema name.now }
    {
        table_number(&self.schema, name)
    }

    /// The numbers of a table and of an index of it that has fields for these bounds.
    pub fn index(&self, table: &Text, index: &Text, ops: &[CompareOp]) -> Option<(u16, u16)>
        ensures { result ≡ index_for self.now.schema table.now index.now ops.now }
    {
        index_for(&self.schema, table, index, ops)
    }

    /// How many variables there are.
    pub fn count(&self) -> usize
        ensures { result ≡ length self.now.names }
    {
        self.names.len()
    }

    /// One more variable.
    pub fn declare(&mut self, alloc: Global, name: &Text) -> Result<(), Memory>
        ensures { OnOk result (self.new ≡ with_name self.old name.now) }
    {
        self.names.push(name.copy(alloc)?)?;
        Ok(())
    }

    /// Only so many variables are kept.
    pub fn forget(&mut self, count: usize)
        ensures { self.new ≡ record self.old { names = take count self.old.names } }
    {
        self.names.truncate(count);
    }

    /// Parameters become variables behind those that are there.
    pub fn declare_all(&mut self, alloc: Global, params: &[Named]) -> Result<(), Memory>
        ensures { OnOk result (self.new ≡ with_params self.old params.now) }
    {
        for param in params {
            self.declare(alloc, &param.text)?;
        }
        Ok(())
    }

    /// A helper can be called from now on, behind the end of its function.
    pub fn complete(
        &mut self,
        alloc: Global,
        number: u64,
        function: &Function,
    ) -> Result<(), Memory>
        ensures { OnOk result (self.new ≡ known_behind self.old number (function_view function.now)) }
    {
        if matches!(function.kind, Kind::Helper) {
            let callee = Callee {
                number,
                params: function.params.len() as u64,
            };
            self.helpers.push((function.udf.copy(alloc)?, callee))?;
        }
        Ok(())
    }
}

#[tactic(auto, using(crate::proofs::FirstPlaces::first_place))]
fn table_number(schema: &Schema, name: &Text) -> Option<u16>
    requires { HasRoom schema.now }
    ensures { result ≡ table_number schema.now name.now }
{
    for (number, table) in schema.tables.as_slice().iter().enumerate() {
        if table.name == *name {
            return Some(number as u16);
        }
    }
    None
}

#[tactic(auto, using(crate::proofs::FirstPlaces::first_place))]
fn index_number(table: &Table, name: &Text) -> Option<u16>
    requires { length table.now.indexes ≤ 34 }
    ensures { result ≡ index_number table.now name.now }
{
    for (number, index) in table.indexes.as_slice().iter().enumerate() {
        if index.name == *name {
            return Some(number as u16);
        }
    }
    None
}

fn equal_count(ops: &[CompareOp]) -> usize
    ensures { result ≡ equal_count ops.now }
{
    let mut count = 0;
    for op in ops {
        if matches!(op, CompareOp::Equal) {
            count += 1;
        }
    }
    count
}

fn bound_fields(ops: &[CompareOp]) -> usize
    ensures { result ≡ bound_fields ops.now }
{
    for op in ops {
        if !matches!(op, CompareOp::Equal) {
            return 1;
        }
    }
    0
}

fn has_room(index: &Index, ops: &[CompareOp]) -> bool
    ensures { result ≡ has_room index.now ops.now }
{
    let fields = index.fields.as_slice().len();
    let equal = equal_count(ops);
    equal <= fields && bound_fields(ops) <= fields - equal
}

fn index_for(schema: &Schema, table: &Text, index: &Text, ops: &[CompareOp]) -> Option<(u16, u16)>
    requires { HasRoom schema.now }
    ensures { result ≡ index_for schema.now table.now index.now ops.now }
{
    let table = table_number(schema, table)?;
    let found = schema.tables.as_slice().get(table as usize)?;
    let index = index_number(found, index)?;
    let order = found.indexes.as_slice().get(index as usize)?;
    if !has_room(order, ops) {
        return None;
    }
    Some((table, index))
}
