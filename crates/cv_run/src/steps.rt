//! The steps of a job: a begin, a read and a commit, of one store call each.
ghost use Rattle.std.specs.Prelude.{◌≡◌, ℕ, None, Some, length, option_map, IfOk, OnOk, OnErr};
ghost use Rattle.cv_run.specs.Unders.{under_attempt, program_of};
ghost use Rattle.cv_store.specs.Jobs.{ended_as, StepsBegin, Steps, AtMostDue, AtMostOne};
ghost use Rattle.cv_store.specs.Kept.{kept};
ghost use Rattle.cv_store.specs.Stores.{GoesOn, Reads, IsRunOf, Commits};
ghost use Rattle.cv_store.specs.Turns.{one_more, after_begin, after_commit, AtMostOneTurn, OneTurn};
ghost use Rattle.cv_store.specs.declared.proposal.Ended.{Ended as HowEnded};
ghost use Rattle.fn_tree.specs.History.{IsLegal};
ghost use Rattle.fn_tree.specs.SyntaxViews.{module_view};

use crate::attempt::Attempt;
use crate::laws::snapshots_hold;
use crate::pause::Pause;
use crate::run_on::read_on;
use crate::starts::start_run;
use cv_store::{Begun, Ended, JobWent, Meant, Proposal, Runs, Seen, Store};
use cv_values::Memory;
use fn_load::Program;
use fn_tree::{Call, Origin, Reply};
use fn_vm::Start;
use std::alloc::Global;

// Where the run of a call comes from.
fn origin_of(call: &Call) -> Origin
    ensures { result ≡ record { session = call.entry.now.session; request = call.entry.now.request; now = call.entry.now.now } }
{
    Origin {
        session: call.session,
        request: call.request,
        now: call.now,
    }
}

// Starts the run of a call that has no entry, on all that the store has seen.
fn start_attempt<S: Store>(
    alloc: Global,
    program: &Program,
    store: &S,
    call: &Call,
    ts: u64,
    runs: &mut Runs,
) -> Result<Attempt, Memory>
    requires program { module_view program.now.checked.tree ≡ (S.stands store.now).program }
    requires legal { IsLegal (S.stands store.now).program (S.stands store.now).seen }
    requires new { kept call.now.session call.now.request (S.stands store.now).seen ≡ None }
    requires all { ts ≡ length (S.stands store.now).seen }
    ensures under { IfOk result (λ a. under_attempt a ≡ record { program = (S.stands store.now).program; call = call.entry.now; snapshot = ts; reads = 0; seen = (S.stands store.now).seen }) }
    ensures runs { OnOk result (runs.new.count ≡ one_more runs.old.count) }
    ensures err { OnErr result (AtMostOne runs.old.count runs.new.count) }
{
    snapshots_hold();
    let copied = call.copy(alloc)?;
    let start = Start {
        udf: &call.udf,
        args: &call.args,
        origin: Some(origin_of(call)),
    };
    let (machine, tx, pause) = start_run(alloc, program, &start, ts, runs)?;
    let seen = Seen::of(store);
    let meant = Meant::of_module(program.checked.module());
    Ok(Attempt {
        call: copied,
        snapshot: ts,
        machine,
        tx,
        pause,
        seen,
        meant,
    })
}

/// Begins a call: with the reply that its session's request has, or by the start of its run.
pub fn begin<S: Store>(
    alloc: Global,
    program: &Program,
    store: &mut S,
    call: &Call,
    runs: &mut Runs,
) -> Result<(Option<Attempt>, JobWent), Memory>
    requires program { module_view program.now.checked.tree ≡ (S.stands store.old).program }
    ensures ok { IfOk result (λ r. StepsBegin (S.stands store.old) (S.stands store.new) call.entry.now (option_map under_attempt r.0) runs.old.count runs.new.count r.1) }
    ensures store { Reads (S.stands store.old) (S.stands store.new) }
    ensures turns { OnErr result (AtMostOneTurn after_begin (S.stands store.old).turns (S.stands store.new).turns) }
    ensures runs { OnErr result (AtMostOne runs.old.count runs.new.count) }
{
    match store.begin(alloc, call.session, call.request)? {
        Begun::Known { ts, reply } => Ok((None, JobWent::Done { ts, reply })),
        Begun::Fresh { ts } => {
            let attempt = start_attempt(alloc, program, store, call, ts, runs)?;
            Ok((Some(attempt), JobWent::Moved))
        }
    }
}

// What a job answers where a proposal with this reply ended so.
fn told(ended: Ended, reply: Reply) -> JobWent
    ensures { (p : Proposal) → reply ≡ p.reply → result ≡ ended_as p ended }
{
    match ended {
        Ended::Committed { ts } => JobWent::Done { ts, reply },
        Ended::Known { ts, reply } => JobWent::Done { ts, reply },
        Ended::SentBack(conflict) => JobWent::SentBack(conflict),
    }
}

// Commits a proposal, of whose reply the caller is told.
fn commit<S: Store>(
    alloc: Global,
    store: &mut S,
    p: Proposal,
    reply: Reply,
) -> Result<JobWent, Memory>
    requires run { IsRunOf (S.stands store.old) p }
    requires reply { reply ≡ p.reply }
    ensures ok { IfOk result (λ went. (ended : HowEnded) × Commits (S.stands store.old) (S.stands store.new) p ended × (went ≡ ended_as p ended)) }
    ensures store { OnErr result (Reads (S.stands store.old) (S.stands store.new)) }
    ensures turn { OneTurn after_commit (S.stands store.old).turns (S.stands store.new).turns result }
{
    match store.commit(alloc, p) {
        Ok(ended) => Ok(told(ended, reply)),
        Err((_, memory)) => Err(memory),
    }
}

/// Goes on with the run of a call: by its next read, or by its commit.
pub fn go_on<S: Store>(
    alloc: Global,
    program: &Program,
    store: &mut S,
    attempt: Attempt,
) -> Result<(Option<Attempt>, JobWent), Memory>
    requires program { module_view program.now.checked.tree ≡ (S.stands store.old).program }
    requires same { program_of attempt ≡ (S.stands store.old).program }
    requires over { GoesOn attempt.seen.history (S.stands store.old).seen }
    ensures ok { (runs : ℕ) → IfOk result (λ r. Steps (S.stands store.old) (S.stands store.new) attempt.call (Some (under_attempt attempt)) (option_map under_attempt r.0) runs runs r.1) }
    ensures store { OnErr result (Reads (S.stands store.old) (S.stands store.new)) }
    ensures turns { OnErr result (AtMostDue (S.stands store.old) (S.stands store.new) (Some (under_attempt attempt))) }
{
    let Attempt {
        call,
        snapshot,
        mut machine,
        mut tx,
        pause,
        seen: _,
        meant,
    } = attempt;
    match pause {
        Pause::Read { ask, plan } => {
            let pause = read_on(
                alloc,
                program,
                store,
                snapshot,
                &mut machine,
                &mut tx,
                &ask,
                &plan,
            )?;
            let seen = Seen::of(store);
            let after = Attempt {
                call,
                snapshot,
                machine,
                tx,
                pause,
                seen,
                meant,
            };
            Ok((Some(after), JobWent::Moved))
        }
        Pause::End { reply, told } => {
            let went = commit(alloc, store, tx.propose(call, reply), told)?;
            Ok((None, went))
        }
    }
}
