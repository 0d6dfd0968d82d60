//! A run between two steps: from its start, or from the rows of a read, to the next read or the end.
ghost use Rattle.std.specs.Prelude.{◌≡◌, ◌+◌, ◌^◌, ◌<◌, ◌≤◌, length, OnOk};
ghost use Rattle.cv_run.specs.RunParts.{GoesBehindPut, PausesAtRead, PausesAtEnd, GoesToPause, GoesOnWithRows, GoesOnFromRead};
ghost use Rattle.cv_store.specs.Reads.{IsReadable};
ghost use Rattle.cv_store.specs.Stores.{schema_at, Reads};
ghost use Rattle.cv_store.specs.Turns.{OneTurn, after_read};
ghost use Rattle.cv_tx.specs.Asks.{IsIndexed};
ghost use Rattle.fn_tree.specs.SyntaxViews.{module_view};

use crate::pause::Pause;
use cv_keys::Schema;
use cv_store::{ReadReq, Store};
use cv_tx::Tx;
use cv_values::{Doc, DocId, Memory};
use fn_code::Code;
use fn_load::Program;
use fn_tree::{Ask, Outcome, Put};
use fn_vm::{Machine, Stop};
use std::alloc::Global;

// The parts of an id fit their types.
fn id_fits(_id: DocId)
    ensures table { _id.table < 2 ^ 16 }
    ensures session { _id.session < 2 ^ 128 }
    ensures request { _id.request < 2 ^ 32 }
    ensures ordinal { _id.ordinal < 2 ^ 16 }
{}

// Lays a write into the transaction, behind which the machine goes on.
fn place(machine: &mut Machine, tx: &mut Tx, p: Put) -> Result<(), Memory>
    ensures ok { GoesBehindPut machine.old machine.new tx.old tx.new p result }
    ensures snapshot { tx.new.snapshot ≡ tx.old.snapshot }
    ensures reads { tx.new.reads ≡ tx.old.reads }
{
    id_fits(p.id);
    tx.put(p)?;
    machine.placed();
    Ok(())
}

// The pause of a run that asks for a read.
fn at_read(alloc: Global, tx: &Tx, ask: Ask) -> Result<Pause, Memory>
    ensures { PausesAtRead ask tx.now result }
{
    let plan = tx.plan(alloc, &ask)?;
    Ok(Pause::Read { ask, plan })
}

// The pause of a run that has ended.
fn at_end(alloc: Global, outcome: Outcome) -> Result<Pause, Memory>
    ensures { PausesAtEnd outcome result }
{
    let Outcome { reply, cost: _ } = outcome;
    let told = reply.copy(alloc)?;
    Ok(Pause::End { reply, told })
}

/// Goes on to the next read or the end. The writes on the way are laid into the transaction.
pub fn run_on(
    alloc: Global,
    code: &Code,
    machine: &mut Machine,
    tx: &mut Tx,
) -> Result<Pause, Memory>
    ensures ok { GoesToPause code.now machine.old machine.new tx.old tx.new result }
    ensures snapshot { tx.new.snapshot ≡ tx.old.snapshot }
    ensures reads { tx.new.reads ≡ tx.old.reads }
{
    // A bound in place of a measure: the quotas end each run long before.
    for _ in 0..u64::MAX {
        match machine.advance(code)? {
            Stop::Ask(ask) => return at_read(alloc, tx, ask),
            Stop::Put(p) => place(machine, tx, p)?,
            Stop::Done(outcome) => return at_end(alloc, outcome),
        }
    }
    Err(Memory)
}

// Answers the read at which the machine waits, from the rows of the planned store read.
fn answer_rows(
    alloc: Global,
    schema: &Schema,
    machine: &mut Machine,
    tx: &mut Tx,
    ask: &Ask,
    rows: Vec<Doc>,
) -> Result<(), Memory>
    requires { IsIndexed schema.now ask.now }
    ensures ok { GoesOnWithRows schema.now ask.now rows.items machine.old machine.new tx.old tx.new result }
    ensures snapshot { tx.new.snapshot ≡ tx.old.snapshot }
    ensures reads { OnOk result (length tx.new.reads ≡ length tx.old.reads + 1) }
{
    let answer = tx.answer(alloc, schema, ask, rows)?;
    machine.answered(answer);
    Ok(())
}

/// Makes the store read of a pause at a read, and goes on with its rows to the next pause.
pub fn read_on<S: Store>(
    alloc: Global,
    program: &Program,
    store: &mut S,
    snapshot: u64,
    machine: &mut Machine,
    tx: &mut Tx,
    ask: &Ask,
    plan: &ReadReq,
) -> Result<Pause, Memory>
    requires program { module_view program.now.checked.tree ≡ (S.stands store.old).program }
    requires seen { snapshot ≤ length (S.stands store.old).seen }
    requires readable { IsReadable (schema_at (S.stands store.old).program (S.stands store.old).seen snapshot) plan.now }
    requires indexed { IsIndexed (schema_at (S.stands store.old).program (S.stands store.old).seen snapshot) ask.now }
    ensures store { Reads (S.stands store.old) (S.stands store.new) }
    ensures turn { OneTurn after_read (S.stands store.old).turns (S.stands store.new).turns result }
    ensures ok { GoesOnFromRead program.now.code (S.stands store.old) snapshot ask.now plan.now machine.old machine.new tx.old tx.new result }
    ensures snapshot { tx.new.snapshot ≡ tx.old.snapshot }
    ensures reads { OnOk result (length tx.new.reads ≡ length tx.old.reads + 1) }
{
    let rows = store.read(alloc, snapshot, plan)?;
    answer_rows(alloc, program.checked.schema(), machine, tx, ask, rows)?;
    run_on(alloc, &program.code, machine, tx)
}
