//! The commands by their words: which one the words ask for, and the whole of it.
ghost use Rattle.std.specs.Prelude.{◌≡◌, ◌≢◌, ◌↔◌, ◌≤◌, length, IfSome, None, map, string_bytes, codes};
ghost use Rattle.cv_outside.specs.declared.whole.TheConstants.{INPUT_LIMIT};
ghost use Rattle.convexd.specs.Commands.{Ends, HasWriteCause, IsGood, Says, name_of, words_of};
ghost use Rattle.convexd.specs.Exits.{IsDoneOrFault};

use crate::check::check_input;
use crate::exit::Exit;
use crate::laws::{accepted_modules_end, good_inputs_end};
use crate::replay::replay_input;
use cv_outside::{ReadFault, Sink, Source, read_whole};
use std::alloc::Global;

/// A command of the program.
#[derive(Clone, Copy, Debug, PartialEq, Eq)]
pub(crate) enum Command {
    /// Reads a module's text and writes its canonical text.
    Check,
    /// Reads a module's text, the line `%%` and a script, plays the script and writes what it tells.
    Replay,
}

impl Command {
    fn named(name: &str) -> Option<Command>
        ensures some { IfSome result (λ c. name.now ≡ name_of c) }
        ensures none { result ≡ None → (name.now ≢ codes "check") × (name.now ≢ codes "replay") }
    {
        match name {
            "check" => Some(Command::Check),
            "replay" => Some(Command::Replay),
            _ => None,
        }
    }

    /// The command that the words ask for.
    fn of(words: &[String]) -> Option<Command>
        ensures some { IfSome result (λ c. map string_bytes words.now ≡ words_of c) }
        ensures none { result ≡ None → (map string_bytes words.now ≢ words_of Command.Check)
            × (map string_bytes words.now ≢ words_of Command.Replay) }
    {
        match words {
            [word] => Command::named(word.as_str()),
            _ => None,
        }
    }

    // Answers a whole input.
    fn answer<O: Sink>(self, alloc: Global, input: &[u8], out: &mut O) -> Exit
        requires { length input.now ≤ INPUT_LIMIT }
        ensures answer { Says self input.now (O.held out.old) (O.held out.new) result }
        ensures good { IsGood self input.now → IsDoneOrFault result }
        ensures cause { HasWriteCause (O.faults out.old) (O.faults out.new) result }
    {
        good_inputs_end();
        accepted_modules_end();
        match self {
            Command::Check => check_input(alloc, input, out),
            Command::Replay => replay_input(alloc, input, out),
        }
    }

    // Reads the whole input and answers it.
    fn run<I: Source, O: Sink>(self, alloc: Global, input: &mut I, out: &mut O) -> Exit
        ensures { Ends self I.left I.faults O.held O.faults input.old input.new out.old out.new result }
    {
        match read_whole(alloc, input) {
            Ok(bytes) => self.answer(alloc, &bytes, out),
            Err(ReadFault::Read) => Exit::Read,
            Err(ReadFault::TooLarge) => Exit::TooLarge,
            Err(ReadFault::Memory) => Exit::Memory,
        }
    }
}

/// The command `check`: reads a module's text and writes its canonical text. The answers come in this
/// order: the words, the whole input, the module.
pub fn check_main<I: Source, O: Sink>(
    alloc: Global,
    words: &Vec<String>,
    input: &mut I,
    out: &mut O,
) -> Exit
    ensures usage { (result ≡ Exit.Usage) ↔ (map string_bytes words.now.items ≢ words_of Command.Check) }
    ensures unused { result ≡ Exit.Usage → (input.new ≡ input.old) × (out.new ≡ out.old) }
    ensures ends { map string_bytes words.now.items ≡ words_of Command.Check
        → Ends Command.Check I.left I.faults O.held O.faults input.old input.new out.old out.new result }
{
    match Command::of(words) {
        Some(Command::Check) => Command::Check.run(alloc, input, out),
        Some(Command::Replay) | None => Exit::Usage,
    }
}

/// The command `replay`: reads a module's text, the line `%%` and a script, plays the script and writes
/// what it tells, and at last the length of the log. The answers come in this order: the words, the whole
/// input, the line `%%`, the module, then the script line by line.
pub fn replay_main<I: Source, O: Sink>(
    alloc: Global,
    words: &Vec<String>,
    input: &mut I,
    out: &mut O,
) -> Exit
    ensures usage { (result ≡ Exit.Usage) ↔ (map string_bytes words.now.items ≢ words_of Command.Replay) }
    ensures unused { result ≡ Exit.Usage → (input.new ≡ input.old) × (out.new ≡ out.old) }
    ensures ends { map string_bytes words.now.items ≡ words_of Command.Replay
        → Ends Command.Replay I.left I.faults O.held O.faults input.old input.new out.old out.new result }
{
    match Command::of(words) {
        Some(Command::Replay) => Command::Replay.run(alloc, input, out),
        Some(Command::Check) | None => Exit::Usage,
    }
}

/// The command that the words ask for: `check` or `replay`, and `Usage` exactly where they are others.
pub fn run<I: Source, O: Sink>(
    alloc: Global,
    words: &Vec<String>,
    input: &mut I,
    out: &mut O,
) -> Exit
    ensures usage { (result ≡ Exit.Usage) ↔ ((map string_bytes words.now.items ≢ words_of Command.Check)
        × (map string_bytes words.now.items ≢ words_of Command.Replay)) }
    ensures unused { result ≡ Exit.Usage → (input.new ≡ input.old) × (out.new ≡ out.old) }
    ensures check { map string_bytes words.now.items ≡ words_of Command.Check
        → Ends Command.Check I.left I.faults O.held O.faults input.old input.new out.old out.new result }
    ensures replay { map string_bytes words.now.items ≡ words_of Command.Replay
        → Ends Command.Replay I.left I.faults O.held O.faults input.old input.new out.old out.new result }
{
    match Command::of(words) {
        Some(command) => command.run(alloc, input, out),
        None => Exit::Usage,
    }
}
