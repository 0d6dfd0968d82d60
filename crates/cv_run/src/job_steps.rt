//! A job over any store: it steps by one call of the store, and answers queries.
ghost use Rattle.std.specs.Prelude.{◌≡◌, ℕ, None, Some, IfOk, OnErr};
ghost use Rattle.cv_run.specs.Unders.{under_attempt, under_job, program_of};
ghost use Rattle.cv_store.specs.Jobs.{StepsBegin, Steps, AtMostDue, AtMostOne};
ghost use Rattle.cv_store.specs.Stores.{GoesOn, Reads};
ghost use Rattle.cv_store.specs.Turns.{after_begin, AtMostOneTurn};
ghost use Rattle.fn_tree.specs.SyntaxViews.{module_view};

use crate::answer::answer;
use crate::attempt::Attempt;
use crate::run_job::RunJob;
use crate::steps::{begin, go_on};
use cv_reads::ReadSet;
use cv_store::{Job, JobWent, Runs, Store};
use cv_values::Memory;
use fn_load::Program;
use fn_tree::{Call, Query, Reply};
use std::alloc::Global;

impl RunJob {
    fn begin_call<S: Store>(
        &mut self,
        alloc: Global,
        program: &Program,
        store: &mut S,
        call: &Call,
        runs: &mut Runs,
    ) -> Result<JobWent, Memory>
        requires program { module_view program.now.checked.tree ≡ (S.stands store.old).program }
        requires begins { self.old.attempt ≡ None }
        ensures ok { IfOk result (λ went. StepsBegin (S.stands store.old) (S.stands store.new) call.entry.now (under_job self.new) runs.old.count runs.new.count went) }
        ensures store { Reads (S.stands store.old) (S.stands store.new) }
        ensures turns { OnErr result (AtMostOneTurn after_begin (S.stands store.old).turns (S.stands store.new).turns) }
        ensures begins { OnErr result (self.new.attempt ≡ None) }
        ensures runs { OnErr result (AtMostOne runs.old.count runs.new.count) }
    {
        let (attempt, went) = begin(alloc, program, store, call, runs)?;
        self.attempt = attempt;
        Ok(went)
    }

    fn go_on_with<S: Store>(
        &mut self,
        alloc: Global,
        program: &Program,
        store: &mut S,
        attempt: Attempt,
    ) -> Result<JobWent, Memory>
        requires program { module_view program.now.checked.tree ≡ (S.stands store.old).program }
        requires same { program_of attempt ≡ (S.stands store.old).program }
        requires over { GoesOn attempt.seen.history (S.stands store.old).seen }
        requires begins { self.old.attempt ≡ None }
        ensures ok { (call : Call) (runs : ℕ) → IfOk result (λ went. Steps (S.stands store.old) (S.stands store.new) call (Some (under_attempt attempt)) (under_job self.new) runs runs went) }
        ensures store { OnErr result (Reads (S.stands store.old) (S.stands store.new)) }
        ensures turns { OnErr result (AtMostDue (S.stands store.old) (S.stands store.new) (Some (under_attempt attempt))) }
        ensures begins { OnErr result (self.new.attempt ≡ None) }
    {
        let (attempt, went) = go_on(alloc, program, store, attempt)?;
        self.attempt = attempt;
        Ok(went)
    }
}

/// A step costs the run's instructions up to its next read and that read's rows.
impl Job for RunJob {
    ghost use Rattle.cv_run.specs.Unders.{under_job};
    ghost use Rattle.fn_load.specs.declared.program.Program.{Program};

    type Prog = Program;

    ghost tree = { λ (p : Program). p.checked.tree };

    ghost under = { under_job };

    fn at_begin(&self) -> bool {
        self.attempt.is_none()
    }

    fn new(_alloc: Global) -> Self {
        RunJob { attempt: None }
    }

    fn step<S: Store>(
        &mut self,
        alloc: Global,
        prog: &Program,
        store: &mut S,
        call: &Call,
        runs: &mut Runs,
    ) -> Result<JobWent, Memory> {
        match self.attempt.take() {
            None => self.begin_call(alloc, prog, store, call, runs),
            Some(attempt) => self.go_on_with(alloc, prog, store, attempt),
        }
    }

    fn answer<S: Store>(
        &mut self,
        alloc: Global,
        prog: &Program,
        store: &mut S,
        query: &Query,
        ts: u64,
        runs: &mut Runs,
    ) -> Result<(Reply, ReadSet), Memory> {
        answer(alloc, prog, store, query, ts, runs)
    }
}
