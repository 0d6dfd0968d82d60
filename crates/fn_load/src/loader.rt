ghost use Rattle.std.specs.Prelude.{IfOk, IfErr};
ghost use Rattle.fn_load.specs.Loading.{IsAccepted, IsCauseOf};
ghost use Rattle.fn_tree.specs.SyntaxViews.{module_view};

use crate::fault::LoadFault;
use crate::program::Program;
use fn_check::check;
use fn_code::compile;
use fn_syntax::parse;
use std::alloc::Global;

/// The program of the module that the bytes are the text of, or why there is none: the first fault of the
/// bytes as a text, else the first check that the module doesn't meet.
pub fn load(alloc: Global, bytes: &[u8]) -> Result<Program, LoadFault>
    ensures good { IfOk result (λ program. IsAccepted bytes.now (module_view program.checked.tree)) }
    ensures bad { IfErr result (λ fault. IsCauseOf bytes.now fault) }
{
    let module = match parse(alloc, bytes)? {
        Ok(module) => module,
        Err(fault) => return Err(LoadFault::Syntax(fault)),
    };
    let checked = match check(alloc, module)? {
        Ok(checked) => checked,
        Err(fault) => return Err(LoadFault::Check(fault)),
    };
    let code = compile(alloc, &checked)?;
    Ok(Program { checked, code })
}
