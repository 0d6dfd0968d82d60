//! The last use of a variable's value, from where it is moved and not copied: the next instruction sets
//! the variable or leaves the function.
ghost use Rattle.std.specs.Prelude.{◌≡◌, ◌<◌, ◌^◌, List, IfOk, IfSome};
ghost use Rattle.cv_values.specs.Value.{Value, null};
ghost use Rattle.fn_code.specs.Operands.{stored};
ghost use Rattle.fn_code.specs.Steps.{Terms as PlainTerms, step_by, pushes_given};
ghost use Rattle.fn_code.specs.declared.code.Code.{Code as PlainCode};
ghost use Rattle.fn_code.specs.declared.code.Instr.TheVariants as instr;
ghost use Rattle.fn_ops.specs.Operations.{Given};
ghost use Rattle.fn_vm.specs.Held.{IsGiven};
ghost use Rattle.fn_vm.specs.LastUses.{first_in, second_in, followed_by, with_vars};
ghost use Rattle.fn_vm.specs.Views.{state_view, terms_view, went};

use crate::operands::Operand;
use crate::run::{Run, Terms};
use crate::values::{name_of, pushed, with_field};
use cv_values::{Memory, Val};
use fn_code::{Instr, Source};
use fn_ops::OpFault;
use fn_tree::{Builtin, Outcome};

/// Two instructions, the first of which is the last use of the value of the variable of a number.
#[derive(Clone, Copy)]
pub enum LastUse {
    /// The variable becomes its own array with an item more.
    Push(u64, Source),
    /// The variable becomes its own object with a value at a name.
    Set(u64, Source, Source),
    /// The function gives the variable back.
    Return(u64),
}

impl LastUse {
    /// What two instructions are, if they are such a pair.
    pub fn of(first: &Instr, second: &Instr) -> Option<LastUse>
        ensures first { IfSome result (λ last. first.now ≡ first_in last) }
        ensures second { IfSome result (λ last. second.now ≡ second_in last) }
    {
        match (first, second) {
            (Instr::Load(n), Instr::Return) => Some(LastUse::Return(*n)),
            (Instr::Builtin(b, sources), Instr::Store(n)) => {
                LastUse::of_builtin(*b, sources.as_slice(), *n)
            }
            _ => None,
        }
    }

    // A built-in function on a variable that is stored there.
    fn of_builtin(b: Builtin, sources: &[Source], place: u64) -> Option<LastUse>
        ensures first { IfSome result (λ last. instr.Builtin b sources.now ≡ first_in last) }
        ensures second { IfSome result (λ last. instr.Store place ≡ second_in last) }
    {
        let [Source::Slot(n), others @ ..] = sources else {
            return None;
        };
        if *n != place {
            return None;
        }
        match (b, others) {
            (Builtin::Push, [x]) => Some(LastUse::Push(place, *x)),
            (Builtin::Set, [x, y]) => Some(LastUse::Set(place, *x, *y)),
            _ => None,
        }
    }
}

impl Run {
    /// Both instructions. Nothing is copied but operands that stay in other variables.
    pub fn use_up(&mut self, terms: &Terms, last: LastUse) -> Result<Option<Outcome>, Memory>
        requires { self.old.frame.at < 2 ^ 64 }
        ensures { (code : PlainCode) → IfOk result (λ o. followed_by (terms_view terms.now) code (second_in last) (step_by (terms_view terms.now) code (state_view self.old) (first_in last)) ≡ went o (state_view self.new)) }
    {
        match last {
            LastUse::Push(n, x) => self.push_item(n, x),
            LastUse::Set(n, x, y) => self.set_field(n, x, y),
            LastUse::Return(n) => self.give_slot(terms, n),
        }
    }

    fn push_item(&mut self, n: u64, x: Source) -> Result<Option<Outcome>, Memory>
        requires { self.old.frame.at < 2 ^ 64 }
        ensures { (t : PlainTerms) (code : PlainCode) → IfOk result (λ o. followed_by t code (second_in (LastUse.Push n x)) (step_by t code (state_view self.old) (first_in (LastUse.Push n x))) ≡ went o (state_view self.new)) }
    {
        let operand = Operand::of(&mut self.frame.stack, x);
        let Some(v) = operand.into_value(self.alloc, &self.frame.vars)? else {
            return self.stick();
        };
        let Some(items) = self.frame.vars.take(n) else {
            return self.stick();
        };
        self.keep(n, pushed(items, v))
    }

    fn set_field(&mut self, n: u64, x: Source, y: Source) -> Result<Option<Outcome>, Memory>
        requires { self.old.frame.at < 2 ^ 64 }
        ensures { (t : PlainTerms) (code : PlainCode) → IfOk result (λ o. followed_by t code (second_in (LastUse.Set n x y)) (step_by t code (state_view self.old) (first_in (LastUse.Set n x y))) ≡ went o (state_view self.new)) }
    {
        let last = Operand::of(&mut self.frame.stack, y);
        let first = Operand::of(&mut self.frame.stack, x);
        let Some(v) = last.into_value(self.alloc, &self.frame.vars)? else {
            return self.stick();
        };
        let Some(name) = first.into_value(self.alloc, &self.frame.vars)? else {
            return self.stick();
        };
        let Some(fields) = self.frame.vars.take(n) else {
            return self.stick();
        };
        self.keep(n, with_field(fields, name, v))
    }

    // A variable that was taken gets what was made of it, and the run goes on behind both instructions; a
    // fault ends it.
    fn keep(&mut self, n: u64, given: Result<Val, OpFault>) -> Result<Option<Outcome>, Memory>
        requires { self.old.frame.at < 2 ^ 64 }
        ensures { IfOk result (λ o. (t : PlainTerms) (code : PlainCode) (vars : List Value) (g : Given) → self.old.frame.vars ≡ stored n null vars → IsGiven given g → followed_by t code (instr.Store n) (pushes_given (with_vars vars (state_view self.old)) g self.old.frame.stack) ≡ went o (state_view self.new)) }
    {
        match given {
            Ok(v) => {
                self.frame.vars.store(n, v);
                self.frame.at += 2;
                Ok(None)
            }
            Err(OpFault::Memory) => Err(Memory),
            Err(fault) => self.fail(name_of(fault)),
        }
    }

    fn give_slot(&mut self, terms: &Terms, n: u64) -> Result<Option<Outcome>, Memory>
        ensures { (code : PlainCode) → IfOk result (λ o. followed_by (terms_view terms.now) code (second_in (LastUse.Return n)) (step_by (terms_view terms.now) code (state_view self.old) (first_in (LastUse.Return n))) ≡ went o (state_view self.new)) }
    {
        let Some(v) = self.frame.vars.take(n) else {
            return self.stick();
        };
        self.frame.stack.push(v)?;
        self.give_back(terms)
    }
}
