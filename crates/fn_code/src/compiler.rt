ghost use Rattle.std.specs.Prelude.{◌≡◌, IfOk};
ghost use Rattle.fn_tree.specs.SyntaxViews.{module_view};
ghost use Rattle.fn_code.specs.CodeMeans.{Means};
ghost use Rattle.fn_code.specs.Coding.{code_of};

use crate::code::Code;
use crate::emit::functions::emit_functions;
use crate::known::Known;
use cv_values::{Memory, Seq};
use fn_check::Checked;
use std::alloc::Global;

fn code_of(alloc: Global, c: &Checked) -> Result<Code, Memory>
    ensures { IfOk result (λ code. code ≡ code_of (module_view c.now.tree)) }
{
    let mut known = Known::new(alloc, c.schema().copy(alloc)?);
    let mut entries = Vec::new(alloc);
    let mut instrs = Vec::new(alloc);
    let functions = &c.module().functions;
    emit_functions(alloc, &mut known, &mut instrs, &mut entries, functions)?;
    Ok(Code {
        schema: known.into_schema(),
        entries: Seq::from_vec(entries),
        instrs: Seq::from_vec(instrs),
    })
}

/// The flat code of a module: its functions' instructions one behind the other. Each form is looked at
/// once, and a jump is filled in when the code behind it is there; a name costs a search over the names
/// that can be meant.
pub fn compile(alloc: Global, c: &Checked) -> Result<Code, Memory>
    ensures same { IfOk result (λ code. code ≡ code_of (module_view c.now.tree)) }
    ensures means { IfOk result (λ code. Means code (module_view c.now.tree)) }
{
    code_of(alloc, c)
}
