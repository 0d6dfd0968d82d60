ghost use Rattle.std.specs.Prelude.{◌≡◌, ◌≤◌, [], length, None, is_none, IfOk, OnErr};
ghost use Rattle.cv_store.specs.Jobs.{GoesOnOver, Steps, AtMostDue, AtMostOne, RunsUnder, AnswersIn};
ghost use Rattle.cv_store.specs.Stores.{Extends, Reads, IsAnswer, query_run};
ghost use Rattle.cv_store.specs.Turns.{OnlyAnswers};
ghost use Rattle.fn_tree.specs.SyntaxViews.{module_view};

use crate::conflict::Conflict;
use crate::runs::Runs;
use crate::store::Store;
use cv_reads::ReadSet;
use cv_values::Memory;
use fn_tree::{Call, Query, Reply};
use std::alloc::Global;

/// What a step of a job did: it began or read, or its call was sent back, or its session's request has
/// this entry.
#[derive(Debug, Drop)]
pub enum JobWent {
    /// It began on a snapshot, or it read.
    Moved,
    /// The commit was refused for this touch, and the next step is a begin.
    SentBack(Conflict),
    /// The entry was appended, or it stood in the log before.
    Done { ts: u64, reply: Reply },
}

/// The run of one function over a store, one atomic step at a time.
///
/// A job that isn't at a begin means its call, its snapshot, the number of reads that it has made, and
/// what its last step's store had then seen.
pub trait Job: Drop {
    ghost use Rattle.std.specs.Prelude.{Option};
    ghost use Rattle.fn_tree.specs.declared.syntax.Module.{Module};
    ghost use Rattle.cv_store.specs.Jobs.{Under};

    type Prog;

    /// The module of a program.
    ghost tree: { Self.Prog → Module };

    ghost under: { Self → Option Under };

    /// Whether the next step is a begin.
    fn at_begin(&self) -> bool
        ensures { result ≡ is_none (under self.now) };

    /// A job at a begin.
    fn new(alloc: Global) -> Self
        ensures { under result ≡ None };

    /// Makes one call of the store: a begin, a read, or the commit. The caller gives the same call until
    /// the job is at a begin again. For want of memory the next step is a begin.
    fn step<S: Store>(
        &mut self,
        alloc: Global,
        prog: &Self::Prog,
        store: &mut S,
        call: &Call,
        runs: &mut Runs,
    ) -> Result<JobWent, Memory>
        requires program { module_view (tree prog.now) ≡ (S.stands store.old).program }
        requires over { GoesOnOver (under self.old) (S.stands store.old) call.now }
        ensures ok { IfOk result (λ went. Steps (S.stands store.old) (S.stands store.new) call.entry.now (under self.old) (under self.new) runs.old.count runs.new.count went) }
        ensures store { OnErr result (Reads (S.stands store.old) (S.stands store.new)) }
        ensures turns { OnErr result (AtMostDue (S.stands store.old) (S.stands store.new) (under self.old)) }
        ensures under { OnErr result (under self.new ≡ None) }
        ensures runs { OnErr result (RunsUnder (under self.old) runs.old.count runs.new.count) };

    /// The reply of a query at a timestamp and what its run reads: the kept one, or else by a run, which
    /// is then kept. The job stays as it is.
    fn answer<S: Store>(
        &mut self,
        alloc: Global,
        prog: &Self::Prog,
        store: &mut S,
        query: &Query,
        ts: u64,
        runs: &mut Runs,
    ) -> Result<(Reply, ReadSet), Memory>
        requires program { module_view (tree prog.now) ≡ (S.stands store.old).program }
        requires seen { ts ≤ length (S.stands store.old).seen }
        ensures under { under self.new ≡ under self.old }
        ensures store { Extends (S.stands store.old) (S.stands store.new) [] }
        ensures turns { OnlyAnswers (S.stands store.old).turns (S.stands store.new).turns }
        ensures ok { IfOk result (λ r. IsAnswer (query_run (S.stands store.old) query.now ts) r.0 r.1) }
        ensures runs { IfOk result (λ r. AnswersIn (S.stands store.old) (S.stands store.new) (S.stands store.old).cache query.now ts runs.old.count runs.new.count r.0 r.1) }
        ensures cache { OnErr result ((S.stands store.new).cache ≡ (S.stands store.old).cache) }
        ensures err { OnErr result (AtMostOne runs.old.count runs.new.count) };
}
