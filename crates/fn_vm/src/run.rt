//! A run under way, and how an instruction ends.
ghost use Rattle.std.specs.Prelude.{◌≡◌, ◌<◌, ◌+◌, ◌^◌, IfOk, IfSome, IfNone};
ghost use Rattle.cv_values.specs.Trees.{tree};
ghost use Rattle.cv_values.specs.Value.{string};
ghost use Rattle.fn_code.specs.States.{State, Next, ends, fails};
ghost use Rattle.fn_code.specs.Steps.{pushes, stuck};
ghost use Rattle.fn_vm.specs.Moves.{Moves};
ghost use Rattle.fn_vm.specs.Views.{state_view, counts_view, outcome_view, went};

use crate::counts::{Counts, Limits};
use crate::frame::Frame;
use crate::stop::Stop;
use cv_values::{Memory, Text, Val};
use fn_tree::{Origin, Outcome, Reply};
use std::alloc::Global;

/// What a run goes by besides its code.
#[derive(Clone, Copy)]
pub struct Terms {
    pub limits: Limits,
    pub origin: Option<Origin>,
}

/// A run under way: the function's frame, those of its callers, the nearest one at the end, and what is
/// used up.
#[derive(Drop)]
pub struct Run {
    pub alloc: Global,
    pub frame: Frame,
    pub callers: Vec<Frame>,
    pub counts: Counts,
}

/// How a run ended, as a stop.
pub fn as_stop(over: Option<Outcome>) -> Option<Stop>
    ensures { (x : Next) (s : State) → x ≡ went over s → Moves x result s }
{
    match over {
        None => None,
        Some(outcome) => Some(Stop::Done(outcome)),
    }
}

impl Run {
    /// Goes on behind the instruction, with a value more.
    pub fn push(&mut self, v: Val) -> Result<Option<Outcome>, Memory>
        requires { self.old.frame.at < 2 ^ 64 }
        ensures { IfOk result (λ o. pushes (state_view self.old) (tree v) self.old.frame.stack ≡ went o (state_view self.new)) }
    {
        self.frame.stack.push(v)?;
        self.frame.at += 1;
        Ok(None)
    }

    /// Goes on with a string more.
    pub fn string(&mut self, text: &Text) -> Result<Option<Outcome>, Memory>
        requires { self.old.frame.at < 2 ^ 64 }
        ensures { IfOk result (λ o. pushes (state_view self.old) (string text.now) self.old.frame.stack ≡ went o (state_view self.new)) }
    {
        self.push(Val::Str(text.copy(self.alloc)?))
    }

    /// The outcome that is an error.
    pub fn over(&self, why: &str) -> Result<Outcome, Memory>
        ensures { IfOk result (λ o. fails (counts_view self.now.counts) why.now ≡ ends (outcome_view o)) }
    {
        Ok(Outcome {
            reply: Reply::Failed(Text::of(self.alloc, why)?),
            cost: u64::from(self.counts.cost),
        })
    }

    /// Ends with an error.
    pub fn fail(&self, why: &str) -> Result<Option<Outcome>, Memory>
        ensures { IfOk result (λ o. (s : State) → fails (counts_view self.now.counts) why.now ≡ went o s) }
    {
        Ok(Some(self.over(why)?))
    }

    /// Ends since something is missing or of another kind.
    pub fn stick(&self) -> Result<Option<Outcome>, Memory>
        ensures { IfOk result (λ o. (s : State) → stuck (state_view self.now) ≡ went o s) }
    {
        self.fail("TypeError")
    }

    /// The same, as a stop.
    pub fn stop(&self, why: &str) -> Result<Option<Stop>, Memory>
        ensures { IfOk result (λ stop. (x : Next) (s : State) → x ≡ fails (counts_view self.now.counts) why.now → Moves x stop s) }
    {
        Ok(Some(Stop::Done(self.over(why)?)))
    }
}
