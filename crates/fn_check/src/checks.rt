//! The checks of a module.
ghost use Rattle.std.specs.Prelude.{◌≡◌, IfOk, IfErr, None, Some};
ghost use Rattle.fn_check.specs.Faults.{Tells};
ghost use Rattle.fn_check.specs.Functions.{first_fault};
ghost use Rattle.fn_tree.specs.Schemas.{schema_of};
ghost use Rattle.fn_tree.specs.SyntaxViews.{module_view};

use crate::checked::Checked;
use crate::fault::{CheckFault, Stop};
use crate::function::check_functions;
use crate::schema::schema_of;
use crate::scope::Scope;
use crate::table::check_tables;
use cv_keys::Schema;
use cv_values::Memory;
use fn_tree::Module;
use std::alloc::Global;

fn checked_schema(alloc: Global, m: &Module) -> Result<Schema, Stop>
    ensures fault { Tells result (first_fault (module_view m.now)) }
    ensures schema { IfOk result (λ s. s ≡ schema_of (module_view m.now).tables) }
{
    check_tables(alloc, &m.tables)?;
    let schema = schema_of(alloc, &m.tables)?;
    let mut scope = Scope::new(alloc, schema);
    check_functions(alloc, &mut scope, &m.functions)?;
    Ok(scope.into_schema())
}

/// The module with its schema where it meets every check, and else the first fault in the order of the
/// text; two at one token in the order of [`CheckKind`](crate::CheckKind). Each form is looked at once,
/// and those of a function once more each for what it writes and whether it uses `now`; a name costs a
/// search over the names that can be meant, in each block around it.
pub fn check(alloc: Global, m: Module) -> Result<Result<Checked, CheckFault>, Memory>
    ensures good { IfOk result (λ r. IfOk r (λ checked. (first_fault (module_view m) ≡ None) × (module_view checked.tree ≡ module_view m))) }
    ensures bad { IfOk result (λ r. IfErr r (λ fault. first_fault (module_view m) ≡ Some fault)) }
{
    match checked_schema(alloc, &m) {
        Ok(schema) => Ok(Ok(Checked::new(m, schema))),
        Err(Stop::Fault(fault)) => Ok(Err(fault)),
        Err(Stop::Memory) => Err(Memory),
    }
}
