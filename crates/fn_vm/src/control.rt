//! Instructions on variables, jumps, loops and calls.
ghost use Rattle.std.specs.Prelude.{◌≡◌, ◌<◌, ◌+◌, ◌-◌, ◌^◌, ◌∷◌, ◌++◌, [], List, IfOk, slice_get, nat_le, map, option_map, Some, take};
ghost use Rattle.cv_values.specs.Sizes as sizes;
ghost use Rattle.cv_values.specs.Trees.{tree};
ghost use Rattle.fn_code.specs.Operands.{stored};
ghost use Rattle.fn_tree.specs.Meaning.{throw_text};
ghost use Rattle.fn_code.specs.States.{Frame as PlainFrame, State, Next, fails};
ghost use Rattle.fn_code.specs.Steps.{on_top, goes, behind, skipped, spends, branches, decides, is_truth, begins_loop, turns_loop, call_at, calls, returns, replies, throws, loads};
ghost use Rattle.fn_vm.specs.Views.{state_view, counts_view, terms_view, went, spent};

use crate::counts::Counts;
use crate::frame::{Frame, Loops, Slots, Stack, Turn};
use crate::run::{Run, Terms};
use cv_values::{Memory, Text, Val, size_of};
use fn_code::Code;
use fn_tree::{Outcome, Reply};
use std::alloc::Global;
use std::mem;

/// Spends one unit of cost, or ends the run where there is none left.
pub fn spend(alloc: Global, terms: &Terms, counts: &mut Counts) -> Result<Option<Outcome>, Memory>
    ensures { IfOk result (λ o. (frame : PlainFrame) (callers : List PlainFrame) (next : State → Next) → spends (terms_view terms.now) (record { frame = frame; callers = callers; counts = counts_view counts.old }) next ≡ spent o (record { frame = frame; callers = callers; counts = counts_view counts.new }) next) }
{
    if counts.cost < terms.limits.cost {
        counts.cost += 1;
        return Ok(None);
    }
    Ok(Some(Outcome {
        reply: Reply::Failed(Text::of(alloc, "CostLimit")?),
        cost: u64::from(counts.cost) + 1,
    }))
}

impl Run {
    pub fn pay(&mut self, terms: &Terms) -> Result<Option<Outcome>, Memory>
        requires { self.old.frame.at < 2 ^ 64 }
        ensures { IfOk result (λ o. spends (terms_view terms.now) (state_view self.old) (λ s. goes s (behind s.frame s.frame.stack)) ≡ went o (state_view self.new)) }
    {
        if let Some(over) = spend(self.alloc, terms, &mut self.counts)? {
            return Ok(Some(over));
        }
        self.frame.at += 1;
        Ok(None)
    }

    pub fn load(&mut self, n: u64) -> Result<Option<Outcome>, Memory>
        requires { self.old.frame.at < 2 ^ 64 }
        ensures { IfOk result (λ o. loads (state_view self.old) (slice_get self.old.frame.vars n) ≡ went o (state_view self.new)) }
    {
        match self.frame.vars.get(n) {
            None => self.stick(),
            Some(v) => {
                let v = v.copy(self.alloc)?;
                self.push(v)
            }
        }
    }

    pub fn declare(&mut self) -> Result<Option<Outcome>, Memory>
        requires { self.old.frame.at < 2 ^ 64 }
        ensures { IfOk result (λ o. on_top (state_view self.old) (λ v stack. goes (state_view self.old) (record (behind (state_view self.old).frame stack) { vars = self.old.frame.vars ++ v ∷ [] })) self.old.frame.stack ≡ went o (state_view self.new)) }
    {
        let Some(v) = self.frame.stack.pop() else {
            return self.stick();
        };
        self.frame.vars.declare(v)?;
        self.frame.at += 1;
        Ok(None)
    }

    pub fn store(&mut self, n: u64) -> Result<Option<Outcome>, Memory>
        requires { self.old.frame.at < 2 ^ 64 }
        ensures { IfOk result (λ o. on_top (state_view self.old) (λ v stack. goes (state_view self.old) (record (behind (state_view self.old).frame stack) { vars = stored n v self.old.frame.vars })) self.old.frame.stack ≡ went o (state_view self.new)) }
    {
        let Some(v) = self.frame.stack.pop() else {
            return self.stick();
        };
        self.frame.vars.store(n, v);
        self.frame.at += 1;
        Ok(None)
    }

    pub fn discard(&mut self) -> Result<Option<Outcome>, Memory>
        requires { self.old.frame.at < 2 ^ 64 }
        ensures { IfOk result (λ o. on_top (state_view self.old) (λ v stack. goes (state_view self.old) (behind (state_view self.old).frame stack)) self.old.frame.stack ≡ went o (state_view self.new)) }
    {
        let Some(v) = self.frame.stack.pop() else {
            return self.stick();
        };
        drop(v);
        self.frame.at += 1;
        Ok(None)
    }

    pub fn forget(&mut self, n: u64) -> Result<Option<Outcome>, Memory>
        requires { self.old.frame.at < 2 ^ 64 }
        ensures { IfOk result (λ o. goes (state_view self.old) (record (behind (state_view self.old).frame self.old.frame.stack) { vars = take n self.old.frame.vars }) ≡ went o (state_view self.new)) }
    {
        self.frame.vars.forget(n);
        self.frame.at += 1;
        Ok(None)
    }

    pub fn jump(&mut self, n: u64) -> Result<Option<Outcome>, Memory>
        requires { self.old.frame.at < 2 ^ 64 }
        ensures { IfOk result (λ o. goes (state_view self.old) (skipped n (state_view self.old).frame self.old.frame.stack) ≡ went o (state_view self.new)) }
    {
        self.frame.at += 1 + u128::from(n);
        Ok(None)
    }

    pub fn branch(&mut self, n: u64) -> Result<Option<Outcome>, Memory>
        requires { self.old.frame.at < 2 ^ 64 }
        ensures { IfOk result (λ o. branches (state_view self.old) n self.old.frame.stack ≡ went o (state_view self.new)) }
    {
        match self.frame.stack.pop() {
            Some(Val::Bool(true)) => {
                self.frame.at += 1;
                Ok(None)
            }
            Some(Val::Bool(false)) => {
                self.frame.at += 1 + u128::from(n);
                Ok(None)
            }
            _ => self.stick(),
        }
    }

    pub fn decide(&mut self, wanted: bool, n: u64) -> Result<Option<Outcome>, Memory>
        requires { self.old.frame.at < 2 ^ 64 }
        ensures { IfOk result (λ o. decides (state_view self.old) wanted n self.old.frame.stack ≡ went o (state_view self.new)) }
    {
        match (self.frame.stack.pop(), wanted) {
            (Some(Val::Bool(true)), true) => {
                self.frame.stack.push(Val::Bool(true))?;
                self.frame.at += 1 + u128::from(n);
                Ok(None)
            }
            (Some(Val::Bool(false)), false) => {
                self.frame.stack.push(Val::Bool(false))?;
                self.frame.at += 1 + u128::from(n);
                Ok(None)
            }
            (Some(Val::Bool(_)), _) => {
                self.frame.at += 1;
                Ok(None)
            }
            _ => self.stick(),
        }
    }

    pub fn as_truth(&mut self) -> Result<Option<Outcome>, Memory>
        requires { self.old.frame.at < 2 ^ 64 }
        ensures { IfOk result (λ o. is_truth (state_view self.old) self.old.frame.stack ≡ went o (state_view self.new)) }
    {
        match self.frame.stack.pop() {
            Some(Val::Bool(b)) => self.push(Val::Bool(b)),
            _ => self.stick(),
        }
    }

    pub fn throw(&mut self) -> Result<Option<Outcome>, Memory>
        requires { self.old.frame.at < 2 ^ 64 }
        ensures { IfOk result (λ o. throws (state_view self.old) self.old.frame.stack ≡ went o (state_view self.new)) }
    {
        match self.frame.stack.pop() {
            Some(Val::Str(text)) => self.thrown(&text),
            _ => self.stick(),
        }
    }

    #[tactic(auto, using(crate::proofs::Views::views))]
    pub fn items(&mut self) -> Result<Option<Outcome>, Memory>
        requires { self.old.frame.at < 2 ^ 64 }
        ensures { IfOk result (λ o. begins_loop (state_view self.old) self.old.frame.stack ≡ went o (state_view self.new)) }
    {
        match self.frame.stack.pop() {
            Some(Val::Arr(items)) => {
                self.frame.loops.begin(items)?;
                self.frame.at += 1;
                Ok(None)
            }
            _ => self.stick(),
        }
    }

    pub fn turn(&mut self, terms: &Terms, n: u64) -> Result<Option<Outcome>, Memory>
        requires { self.old.frame.at < 2 ^ 64 }
        ensures { IfOk result (λ o. turns_loop (terms_view terms.now) (state_view self.old) n self.old.frame.loops ≡ went o (state_view self.new)) }
    {
        match self.frame.loops.turn()? {
            Turn::Nowhere => self.stick(),
            Turn::Over => {
                self.frame.at += 1;
                Ok(None)
            }
            Turn::Item(item) => {
                if let Some(over) = spend(self.alloc, terms, &mut self.counts)? {
                    return Ok(Some(over));
                }
                self.frame.vars.declare(item)?;
                self.frame.at = self.frame.at.saturating_sub(u128::from(n));
                Ok(None)
            }
        }
    }

    // A function begins at a place with these values, and its caller goes on behind the call.
    #[tactic(auto, using(crate::proofs::Calls::pushed))]
    fn enter_at(&mut self, at: u64, values: Vec<Val>) -> Result<Option<Outcome>, Memory>
        requires { self.old.frame.at < 2 ^ 64 }
        ensures { IfOk result (λ o. calls (state_view self.old) at (Some (map tree values.items, self.old.frame.stack)) ≡ went o (state_view self.new)) }
    {
        self.frame.at += 1;
        let frame = Frame {
            at: u128::from(at),
            vars: Slots::of(values),
            stack: Stack::new(self.alloc),
            loops: Loops::new(self.alloc),
        };
        let caller = mem::replace(&mut self.frame, frame);
        self.callers.push(caller)?;
        Ok(None)
    }

    fn enter(&mut self, code: &Code, n: u64, arguments: u64) -> Result<Option<Outcome>, Memory>
        requires { self.old.frame.at < 2 ^ 64 }
        ensures { IfOk result (λ o. call_at (state_view self.old) arguments (slice_get code.now.entries n) ≡ went o (state_view self.new)) }
    {
        let Some(at) = place_of(code, n) else {
            return self.stick();
        };
        let Some(values) = self.frame.stack.pop_many(arguments)? else {
            return self.stick();
        };
        self.enter_at(at, values)
    }

    pub fn call(
        &mut self,
        terms: &Terms,
        code: &Code,
        n: u64,
        arguments: u64,
    ) -> Result<Option<Outcome>, Memory>
        requires { self.old.frame.at < 2 ^ 64 }
        ensures { IfOk result (λ o. spends (terms_view terms.now) (state_view self.old) (λ s. call_at s arguments (slice_get code.now.entries n)) ≡ went o (state_view self.new)) }
    {
        if let Some(over) = spend(self.alloc, terms, &mut self.counts)? {
            return Ok(Some(over));
        }
        self.enter(code, n, arguments)
    }

    fn reply(&self, terms: &Terms, v: Val) -> Result<Option<Outcome>, Memory>
        ensures { IfOk result (λ o. (s : State) → replies (terms_view terms.now) (counts_view self.now.counts) (tree v) ≡ went o s) }
    {
        if is_within(&v, terms.limits.reply) {
            return Ok(Some(Outcome {
                reply: Reply::Value(v),
                cost: u64::from(self.counts.cost),
            }));
        }
        self.fail("TooLarge")
    }

    pub fn give_back(&mut self, terms: &Terms) -> Result<Option<Outcome>, Memory>
        ensures { IfOk result (λ o. on_top (state_view self.old) (λ v stack. returns (terms_view terms.now) (counts_view self.old.counts) (state_view self.old).callers v) self.old.frame.stack ≡ went o (state_view self.new)) }
    {
        let Some(v) = self.frame.stack.pop() else {
            return self.stick();
        };
        let Some(mut caller) = self.callers.pop() else {
            return self.reply(terms, v);
        };
        caller.stack.push(v)?;
        drop(mem::replace(&mut self.frame, caller));
        Ok(None)
    }
}

// Where the function of a number begins.
fn place_of(code: &Code, n: u64) -> Option<u64>
    ensures { result ≡ option_map (λ e. e.at) (slice_get code.now.entries n) }
{
    match code.entries.as_slice().get(n as usize) {
        None => None,
        Some(entry) => Some(entry.at),
    }
}

#[tactic(auto, using(crate::proofs::Views::within))]
fn is_within(v: &Val, limit: u32) -> bool
    ensures { result ≡ nat_le (sizes.size_of (tree v.now)) limit }
{
    size_of(v) <= u64::from(limit)
}

impl Run {
    fn thrown(&self, text: &Text) -> Result<Option<Outcome>, Memory>
        ensures { IfOk result (λ o. (s : State) → fails (counts_view self.now.counts) (throw_text text.now) ≡ went o s) }
    {
        let text = text.as_str();
        if text.len() > 1_048_576 {
            return self.fail("TooLarge");
        }
        let mut why = String::with_capacity(self.alloc, text.len() + 8)?;
        why.push_str("Thrown: ")?;
        why.push_str(text)?;
        self.fail(why.as_str())
    }
}
