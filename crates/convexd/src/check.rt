//! What the command `check` answers to a whole input: the module's canonical text, or why it is refused.
ghost use Rattle.std.specs.Prelude.{◌≤◌, length, IfOk, IfErr};
ghost use Rattle.cv_outside.specs.declared.whole.TheConstants.{INPUT_LIMIT};
ghost use Rattle.convexd.specs.Check.{IsCanonical, IsRefused, Checks};
ghost use Rattle.convexd.specs.Commands.{HasWriteCause};

use crate::exit::{Exit, ModuleFault};
use cv_outside::{Sink, write_whole};
use cv_values::{Memory, Text};
use fn_check::check;
use fn_syntax::parse;
use fn_tree::print;
use std::alloc::Global;

// The canonical text of the module that the bytes are a text of, or why none is accepted.
fn canonical(alloc: Global, input: &[u8]) -> Result<Result<Text, ModuleFault>, Memory>
    ensures good { IfOk result (λ r. IfOk r (λ text. IsCanonical input.now text)) }
    ensures bad { IfOk result (λ r. IfErr r (λ fault. IsRefused input.now fault)) }
{
    let module = match parse(alloc, input)? {
        Ok(module) => module,
        Err(fault) => return Ok(Err(ModuleFault::Syntax(fault))),
    };
    let checked = match check(alloc, module)? {
        Ok(checked) => checked,
        Err(fault) => return Ok(Err(ModuleFault::Check(fault))),
    };
    Ok(Ok(print(alloc, checked.module())?))
}

pub(crate) fn check_input<O: Sink>(alloc: Global, input: &[u8], out: &mut O) -> Exit
    requires { length input.now ≤ INPUT_LIMIT }
    ensures answer { Checks input.now (O.held out.old) (O.held out.new) result }
    ensures cause { HasWriteCause (O.faults out.old) (O.faults out.new) result }
{
    let text = match canonical(alloc, input) {
        Ok(Ok(text)) => text,
        Ok(Err(fault)) => return Exit::Module(fault),
        Err(_) => return Exit::Memory,
    };
    match write_whole(out, text.as_str().as_bytes()) {
        Ok(()) => Exit::Done,
        Err(_) => Exit::Write,
    }
}
