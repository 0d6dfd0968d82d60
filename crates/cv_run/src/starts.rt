//! How a run starts: its machine, an empty transaction, and its way to the first pause.
ghost use Rattle.std.specs.Prelude.{◌≡◌, ◌^◌, ◌<◌, [], IfOk, OnOk, OnErr};
ghost use Rattle.cv_run.specs.Pauses.{Pauses};
ghost use Rattle.cv_store.specs.Jobs.{AtMostOne};
ghost use Rattle.cv_store.specs.Turns.{one_more};
ghost use Rattle.fn_tree.specs.Documents.{Docs};
ghost use Rattle.fn_tree.specs.Functions.{Start as PlainStart, course_of};
ghost use Rattle.fn_tree.specs.PutLaws.{IsFresh};
ghost use Rattle.fn_tree.specs.SyntaxViews.{module_view};
ghost use Rattle.fn_vm.specs.Machines.{start_view, Goes};

use crate::pause::Pause;
use crate::run_on::run_on;
use cv_store::Runs;
use cv_tx::Tx;
use cv_values::Memory;
use fn_code::codes_mean;
use fn_load::Program;
use fn_vm::{Machine, Start};
use std::alloc::Global;

// The count of runs fits its type.
fn count_fits(runs: &Runs)
    ensures { runs.now.count < 2 ^ 64 }
{
    let _count = runs.count;
}

// Starts a machine: one run more is counted, as far as it can be.
fn start_machine(
    alloc: Global,
    program: &Program,
    start: &Start,
    runs: &mut Runs,
) -> Result<Machine, Memory>
    ensures goes { IfOk result (λ k. Goes program.now.code k (course_of (module_view program.now.checked.tree) (start_view start.now))) }
    ensures ok { OnOk result (runs.new.count ≡ one_more runs.old.count) }
    ensures err { OnErr result (runs.new.count ≡ runs.old.count) }
{
    codes_mean();
    count_fits(runs);
    Machine::start(alloc, &program.code, start, runs)
}

// Goes on from the start of a run to its first pause.
fn first_pause(
    alloc: Global,
    program: &Program,
    machine: Machine,
    ts: u64,
) -> Result<(Machine, Tx, Pause), Memory>
    ensures ok { (s : PlainStart) (ds : Docs) → IsFresh s.origin 0 ds → Goes program.now.code machine (course_of (module_view program.now.checked.tree) s) → IfOk result (λ r. Pauses program.now.code (module_view program.now.checked.tree) s ds r.0 r.1 r.2) }
    ensures snapshot { IfOk result (λ r. r.1.snapshot ≡ ts) }
    ensures reads { IfOk result (λ r. r.1.reads ≡ []) }
{
    let mut machine = machine;
    let mut tx = Tx::new(alloc, ts);
    let pause = run_on(alloc, &program.code, &mut machine, &mut tx)?;
    Ok((machine, tx, pause))
}

/// Starts a run, which is counted, over a snapshot, and goes on to its first pause.
pub fn start_run(
    alloc: Global,
    program: &Program,
    start: &Start,
    ts: u64,
    runs: &mut Runs,
) -> Result<(Machine, Tx, Pause), Memory>
    ensures ok { (ds : Docs) → IsFresh start.now.origin 0 ds → IfOk result (λ r. Pauses program.now.code (module_view program.now.checked.tree) (start_view start.now) ds r.0 r.1 r.2) }
    ensures snapshot { IfOk result (λ r. r.1.snapshot ≡ ts) }
    ensures reads { IfOk result (λ r. r.1.reads ≡ []) }
    ensures runs { OnOk result (runs.new.count ≡ one_more runs.old.count) }
    ensures err { OnErr result (AtMostOne runs.old.count runs.new.count) }
{
    let machine = start_machine(alloc, program, start, runs)?;
    first_pause(alloc, program, machine, ts)
}
