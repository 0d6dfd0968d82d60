//! Laws of the definitions, each a function with nothing to do.
ghost use Rattle.std.specs.Prelude.{List, ℕ, Option, ◌≡◌};
ghost use Rattle.convexd.specs.Answering.{Answers, IsGoodInput};
ghost use Rattle.convexd.specs.Check.{IsCanonical, Checks};
ghost use Rattle.convexd.specs.Exits.{IsDoneOrFault, TellsOfInput};
ghost use Rattle.convexd.specs.declared.exit.Exit.{Exit};

use fn_syntax::one_fault;
use fn_tree::at_most_one_module;

/// A good input is answered by Done, or by a fault that has a cause of its own.
pub fn good_inputs_end()
    ensures { (input : List ℕ) → IsGoodInput input → (old new : Option (List ℕ)) (exit : Exit) → Answers input old new exit → IsDoneOrFault exit }
{
    at_most_one_module();
    one_fault();
}

/// An input has at most one of the answers Done, Module, Script and TooLarge, so each comes exactly where
/// its cause stands, but for faults and want of memory.
pub fn answers_exclude_each_other()
    ensures { (input : List ℕ) (old new again then : Option (List ℕ)) (a b : Exit) → TellsOfInput a → TellsOfInput b → Answers input old new a → Answers input again then b → a ≡ b }
{
    at_most_one_module();
    one_fault();
}

/// Of a text that is checked, the same: Done, Module and TooLarge exclude each other, and the fault is one.
pub fn checks_exclude_each_other()
    ensures { (input : List ℕ) (old new again then : Option (List ℕ)) (a b : Exit) → TellsOfInput a → TellsOfInput b → Checks input old new a → Checks input again then b → a ≡ b }
{
    at_most_one_module();
    one_fault();
}

/// The text of a module that meets every check is answered by Done, or by a fault that has a cause of its
/// own, and what Done writes is one text.
pub fn accepted_modules_end()
    ensures ends { (input text : List ℕ) → IsCanonical input text → (old new : Option (List ℕ)) (exit : Exit) → Checks input old new exit → IsDoneOrFault exit }
    ensures one { (input text other : List ℕ) → IsCanonical input text → IsCanonical input other → text ≡ other }
{
    at_most_one_module();
    one_fault();
}
