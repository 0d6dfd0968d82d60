ghost use Rattle.std.specs.Prelude.{◌≡◌, None, IfOk};
ghost use Rattle.fn_check.specs.Functions.{first_fault};
ghost use Rattle.fn_check.specs.Rooms.{HasRoom};
ghost use Rattle.fn_tree.specs.Schemas.{schema_of};
ghost use Rattle.fn_tree.specs.SyntaxViews.{module_view};

use crate::copy::copy_module;
use cv_keys::Schema;
use cv_values::Memory;
use fn_tree::Module;
use std::alloc::Global;

/// A module that meets every check, with its schema.
#[derive(Drop)]
pub struct Checked {
    tree: Module,
    schema: Schema,
    pub ghost meets: { first_fault (module_view tree) ≡ None },
    pub ghost tables: { schema ≡ schema_of (module_view tree).tables },
}

impl Checked {
    // A module that meets every check, with its schema.
    pub(crate) fn new(tree: Module, schema: Schema) -> Checked
        requires meets { first_fault (module_view tree) ≡ None }
        requires tables { schema ≡ schema_of (module_view tree).tables }
        ensures { result.tree ≡ tree }
    {
        Checked { tree, schema }
    }

    /// The tables with their indexes: of each table `by_id` over `_id` at 0, `by_creation_time` over
    /// `_creationTime` and `_id` at 1, and then the declared ones, over their fields, `_creationTime`
    /// and `_id`. Numbers of tables and indexes are numbers of 16 bits.
    pub fn schema(&self) -> &Schema
        ensures schema { result.now ≡ schema_of (module_view self.now.tree).tables }
        ensures room { HasRoom result.now }
    {
        &self.schema
    }

    /// The module, which meets every check.
    pub fn module(&self) -> &Module
        ensures same { result.now ≡ self.now.tree }
        ensures meets { first_fault (module_view result.now) ≡ None }
    {
        &self.tree
    }

    /// An equal module with its schema, in memory of its own.
    pub fn copy(&self, alloc: Global) -> Result<Checked, Memory>
        ensures { IfOk result (λ c. module_view c.tree ≡ module_view self.now.tree) }
    {
        let tree = copy_module(alloc, &self.tree)?;
        let schema = self.schema.copy(alloc)?;
        Ok(Checked { tree, schema })
    }
}
