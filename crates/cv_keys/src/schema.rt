ghost use Rattle.std.specs.Prelude.{◌≡◌, IfOk, option_map};
ghost use Rattle.cv_keys.specs.Documents.{index_at, indexes_of};

use cv_values::{Copied, Memory, Seq, Text};
use std::alloc::Global;

/// The tables of a program, numbered from 0. A [`Seq`] is a `Vec` that contracts see as its list.
#[derive(Debug, Drop)]
pub struct Schema {
    pub tables: Seq<Table>,
}

/// A table and its indexes, numbered from 0.
///
/// Who makes a schema keeps this order: first `by_id` over `_id`, then `by_creation_time` over
/// `_creationTime` and `_id`, and then the declared ones.
#[derive(Debug, Drop)]
pub struct Table {
    pub name: Text,
    pub indexes: Seq<Index>,
}

/// An index and all its fields in order: those that it declares, then `_creationTime`, then `_id`.
#[derive(Debug, Drop)]
pub struct Index {
    pub name: Text,
    pub fields: Seq<Text>,
}

impl Schema {
    /// An equal schema, in memory of its own.
    pub fn copy(&self, alloc: Global) -> Result<Schema, Memory>
        ensures { IfOk result (λ c. c ≡ self.now) }
    {
        Ok(Schema {
            tables: self.tables.copy(alloc)?,
        })
    }

    /// The index of these numbers, or none exactly where the table or the index isn't there.
    pub fn index_at(&self, table: u32, index: u32) -> Option<&Index>
        ensures { option_map (λ i. i.now) result ≡ index_at self.now table index }
    {
        self.indexes_of(table).get(index as usize)
    }

    /// The indexes of the table of this number, none where it isn't there.
    pub fn indexes_of(&self, table: u32) -> &[Index]
        ensures { result.now ≡ indexes_of self.now table }
    {
        match self.tables.as_slice().get(table as usize) {
            Some(table) => table.indexes.as_slice(),
            None => &[],
        }
    }
}

impl Table {
    /// An equal table, in memory of its own.
    pub fn copy(&self, alloc: Global) -> Result<Table, Memory>
        ensures { IfOk result (λ c. c ≡ self.now) }
    {
        Ok(Table {
            name: self.name.copy(alloc)?,
            indexes: self.indexes.copy(alloc)?,
        })
    }
}

impl Index {
    /// An equal index, in memory of its own.
    pub fn copy(&self, alloc: Global) -> Result<Index, Memory>
        ensures { IfOk result (λ c. c ≡ self.now) }
    {
        Ok(Index {
            name: self.name.copy(alloc)?,
            fields: self.fields.copy(alloc)?,
        })
    }
}

impl Copied for Schema {
    fn copy(&self, alloc: Global) -> Result<Schema, Memory> {
        Schema::copy(self, alloc)
    }
}

impl Copied for Table {
    fn copy(&self, alloc: Global) -> Result<Table, Memory> {
        Table::copy(self, alloc)
    }
}

impl Copied for Index {
    fn copy(&self, alloc: Global) -> Result<Index, Memory> {
        Index::copy(self, alloc)
    }
}
