//! What the command `replay` answers to a whole input: it plays the script behind the module.
ghost use Rattle.std.specs.Prelude.{◌≡◌, ◌≢◌, ◌≤◌, length};
ghost use Rattle.cv_outside.specs.declared.whole.TheConstants.{INPUT_LIMIT};
ghost use Rattle.convexd.specs.Answering.{refusal_of, Answers};
ghost use Rattle.convexd.specs.Commands.{HasWriteCause};

use crate::exit::{Exit, ModuleFault};
use crate::lines::cut;
use cv_outside::Sink;
use cv_stand::{PlayFault, play_script, read_script};
use fn_load::{LoadFault, load};
use std::alloc::Global;

// The answer to a module that isn't loaded.
fn not_loaded(fault: LoadFault) -> Exit
    ensures same { result ≡ refusal_of fault }
    ensures cause { (result ≢ Exit.Usage) × (result ≢ Exit.Read) × (result ≢ Exit.Write) }
{
    match fault {
        LoadFault::Syntax(fault) => Exit::Module(ModuleFault::Syntax(fault)),
        LoadFault::Check(fault) => Exit::Module(ModuleFault::Check(fault)),
        LoadFault::Memory => Exit::Memory,
    }
}

pub(crate) fn replay_input<O: Sink>(alloc: Global, input: &[u8], out: &mut O) -> Exit
    requires { length input.now ≤ INPUT_LIMIT }
    ensures answer { Answers input.now (O.held out.old) (O.held out.new) result }
    ensures cause { HasWriteCause (O.faults out.old) (O.faults out.new) result }
{
    let parts = match cut(input) {
        Ok(parts) => parts,
        Err(line) => return Exit::Script { line },
    };
    let program = match load(alloc, parts.module) {
        Ok(program) => program,
        Err(fault) => return not_loaded(fault),
    };
    let Ok(script) = read_script(alloc, parts.script, parts.line) else {
        return Exit::Memory;
    };
    match play_script(alloc, &program, &script, out) {
        Ok(None) => Exit::Done,
        Ok(Some(line)) => Exit::Script { line },
        Err(PlayFault::Write) => Exit::Write,
        Err(PlayFault::Memory) => Exit::Memory,
        // A script's calls are never out of turn: no connection can be missing.
        Err(PlayFault::Script) => unreachable!(),
    }
}
