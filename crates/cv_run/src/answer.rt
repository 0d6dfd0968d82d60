//! The answer of a query: the kept one, or a run of its own, which is then kept.
ghost use Rattle.std.specs.Prelude.{◌≡◌, ◌≤◌, [], length, IfOk, OnOk, OnErr};
ghost use Rattle.cv_store.specs.Jobs.{AtMostOne, AnswersIn};
ghost use Rattle.cv_store.specs.Stores.{Extends, Reads, IsAnswer, query_run};
ghost use Rattle.cv_store.specs.Turns.{one_more, OnlyAnswers};
ghost use Rattle.fn_tree.specs.SyntaxViews.{module_view};

use crate::laws::snapshots_hold;
use crate::pause::Pause;
use crate::run_on::read_on;
use crate::starts::start_run;
use cv_reads::ReadSet;
use cv_store::{Look, Runs, Store};
use cv_values::Memory;
use fn_load::Program;
use fn_tree::{Query, Reply};
use fn_vm::Start;
use std::alloc::Global;

// Runs a query on the documents of a timestamp, one store read at a time.
fn run_query<S: Store>(
    alloc: Global,
    program: &Program,
    store: &mut S,
    query: &Query,
    ts: u64,
    runs: &mut Runs,
) -> Result<(Reply, ReadSet), Memory>
    requires program { module_view program.now.checked.tree ≡ (S.stands store.old).program }
    requires seen { ts ≤ length (S.stands store.old).seen }
    ensures store { Reads (S.stands store.old) (S.stands store.new) }
    ensures turns { OnlyAnswers (S.stands store.old).turns (S.stands store.new).turns }
    ensures ok { IfOk result (λ r. IsAnswer (query_run (S.stands store.old) query.now ts) r.0 r.1) }
    ensures runs { OnOk result (runs.new.count ≡ one_more runs.old.count) }
    ensures err { OnErr result (AtMostOne runs.old.count runs.new.count) }
{
    snapshots_hold();
    store.stands_well();
    let start = Start {
        udf: &query.udf,
        args: &query.args,
        origin: None,
    };
    let (mut machine, mut tx, mut pause) = start_run(alloc, program, &start, ts, runs)?;
    loop {
        match pause {
            Pause::Read { ask, plan } => {
                pause = read_on(
                    alloc,
                    program,
                    store,
                    ts,
                    &mut machine,
                    &mut tx,
                    &ask,
                    &plan,
                )?;
            }
            Pause::End { reply, told: _ } => return Ok((reply, tx.into_reads())),
        }
    }
}

/// The reply of a query at a timestamp and what its run reads: what the store has kept of it, or else by a
/// run, which the store then keeps.
pub fn answer<S: Store>(
    alloc: Global,
    program: &Program,
    store: &mut S,
    query: &Query,
    ts: u64,
    runs: &mut Runs,
) -> Result<(Reply, ReadSet), Memory>
    requires program { module_view program.now.checked.tree ≡ (S.stands store.old).program }
    requires seen { ts ≤ length (S.stands store.old).seen }
    ensures store { Extends (S.stands store.old) (S.stands store.new) [] }
    ensures turns { OnlyAnswers (S.stands store.old).turns (S.stands store.new).turns }
    ensures ok { IfOk result (λ r. IsAnswer (query_run (S.stands store.old) query.now ts) r.0 r.1) }
    ensures runs { IfOk result (λ r. AnswersIn (S.stands store.old) (S.stands store.new) (S.stands store.old).cache query.now ts runs.old.count runs.new.count r.0 r.1) }
    ensures cache { OnErr result ((S.stands store.new).cache ≡ (S.stands store.old).cache) }
    ensures err { OnErr result (AtMostOne runs.old.count runs.new.count) }
{
    match store.look(alloc, query, ts)? {
        Look::Hit { reply, reads } => Ok((reply, reads)),
        Look::Miss => {
            let (reply, reads) = run_query(alloc, program, store, query, ts, runs)?;
            store.keep(alloc, query, ts, &reply, &reads)?;
            Ok((reply, reads))
        }
    }
}
