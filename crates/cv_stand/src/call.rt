//! A call of a mutation, played to its end.
ghost use Rattle.std.specs.Prelude.{◌≡◌, None, IfOk, OnOk, OnErr};
ghost use Rattle.cv_run.specs.Unders.{under_job};
ghost use Rattle.cv_store.specs.Jobs.{AtMostOne, RunsUnder};
ghost use Rattle.fn_tree.specs.SyntaxViews.{module_view};
ghost use Rattle.cv_stand.specs.Events.{calls};
ghost use Rattle.cv_stand.specs.Plays.{request_of, runs_after};
ghost use Rattle.cv_stand.specs.Underway.{CountsStep, InCall, IsPlayed, Stepped};

use cv_core::SoloStore;
use cv_run::RunJob;
use cv_store::{Job, JobWent, Runs};
use cv_values::Memory;
use fn_load::Program;
use fn_tree::{Call, Reply};
use std::alloc::Global;

// One step of a call's job; after the last one the timestamp and the reply of the entry of its request.
fn step_call(
    alloc: Global,
    program: &Program,
    store: &mut SoloStore,
    job: &mut RunJob,
    call: &Call,
    runs: &mut Runs,
) -> Result<Option<(u64, Reply)>, Memory>
    requires { InCall (module_view program.now.checked.tree) call.now store.old (under_job job.old) }
    ensures ok { IfOk result (λ r. Stepped (module_view program.now.checked.tree) call.entry.now store.old store.new (under_job job.old) (under_job job.new) r) }
    ensures runs { IfOk result (λ r. CountsStep call.entry.now store.old.core.log (under_job job.old) (under_job job.new) runs.old.count runs.new.count r) }
    ensures start { OnErr result (store.new.start ≡ store.old.start) }
    ensures under { OnErr result (under_job job.new ≡ None) }
    ensures tried { OnErr result (RunsUnder (under_job job.old) runs.old.count runs.new.count) }
{
    match job.step(alloc, program, store, call, runs)? {
        JobWent::Done { ts, reply } => Ok(Some((ts, reply))),
        JobWent::Moved | JobWent::SentBack(_) => Ok(None),
    }
}

/// Runs a call to its end, unless its session's request has an entry, and gives the timestamp and the
/// reply of that entry. It costs the run of the call, and counts it.
pub fn play_out(
    alloc: Global,
    program: &Program,
    store: &mut SoloStore,
    call: &Call,
    runs: &mut Runs,
) -> Result<(u64, Reply), Memory>
    requires { InCall (module_view program.now.checked.tree) call.now store.old None }
    ensures ok { IfOk result (λ r. IsPlayed (module_view program.now.checked.tree) call.entry.now store.old store.new r.0 r.1) }
    ensures runs { OnOk result (runs.new.count ≡ runs_after store.old.core.log (calls (request_of call.entry.now)) runs.old.count) }
    ensures tried { OnErr result (AtMostOne runs.old.count runs.new.count) }
    ensures start { store.new.start ≡ store.old.start }
{
    let mut job = RunJob::new(alloc);
    loop {
        if let Some(played) = step_call(alloc, program, store, &mut job, call, runs)? {
            return Ok(played);
        }
    }
}
