//! The run of a call by the machine, over a list of documents.
ghost use Rattle.std.specs.Prelude.{◌≡◌, List, IfOk, OnOk};
ghost use Rattle.cv_keys.specs.declared.schema.Schema.{Schema as PlainSchema};
ghost use Rattle.cv_values.specs.declared.doc.Doc.{Doc as PlainDoc};
ghost use Rattle.fn_code.specs.declared.code.Code.{Code as PlainCode};
ghost use Rattle.fn_plain.specs.Answers.{Asks, HasRoomLeft};
ghost use Rattle.fn_plain.specs.Runs.{IsRun};
ghost use Rattle.fn_tree.specs.Course.{Ask as Asked, Course, ask as asks, put as puts};
ghost use Rattle.fn_tree.specs.Documents.{Docs};
ghost use Rattle.fn_tree.specs.EntryViews.{reply_view};
ghost use Rattle.fn_tree.specs.Functions.{Start as PlainStart, course_of};
ghost use Rattle.fn_tree.specs.Run.{run, writes_of};
ghost use Rattle.fn_tree.specs.Schemas.{schema_of};
ghost use Rattle.fn_tree.specs.SyntaxTree.{ModuleTree};
ghost use Rattle.fn_tree.specs.SyntaxViews.{module_view};
ghost use Rattle.fn_vm.specs.Machines.{start_view, WaitsForRows, WaitsForPut};
ghost use Rattle.fn_trial.specs.Driven.{CanGoOn, Drives, Ends, IsRest, OneMore, Steps};

use cv_keys::{Interval, Schema, Write};
use cv_values::{Copied, Doc, Memory, Seq};
use fn_code::{Code, codes_mean};
use fn_load::Program;
use fn_plain::{PlainRun, answer_of, with_puts, writes_of};
use fn_tree::{Ask, Outcome, Put, Reply};
use fn_vm::{Machine, Runs, Start, Stop};
use std::alloc::Global;

// The writes of a run with this reply: an error drops them.
fn kept_writes(
    alloc: Global,
    docs: &[Doc],
    reply: &Reply,
    puts: &[Put],
) -> Result<Seq<Write>, Memory>
    ensures { IfOk result (λ ws. ws ≡ writes_of (reply_view reply.now) docs.now puts.now) }
{
    match reply {
        Reply::Value(_) => {
            let after = with_puts(alloc, docs, puts)?;
            writes_of(alloc, docs, after.as_slice(), puts)
        }
        Reply::Failed(_) => Ok(Seq::new(alloc)),
    }
}

/// A machine under way over a list of documents, with what it has written and read so far.
#[derive(Drop)]
struct Drive {
    machine: Machine,
    puts: Vec<Put>,
    reads: Vec<Interval>,
}

impl Drive {
    fn start(
        alloc: Global,
        program: &Program,
        start: &Start,
        runs: &mut Runs,
    ) -> Result<Drive, Memory>
        ensures { (schema : PlainSchema) (ds : Docs) → IfOk result (λ d. Drives program.now.code schema ds (course_of (module_view program.now.checked.tree) (start_view start.now)) d) }
    {
        codes_mean();
        Ok(Drive {
            machine: Machine::start(alloc, &program.code, start, runs)?,
            puts: Vec::new(alloc),
            reads: Vec::new(alloc),
        })
    }

    // Answers a read from the documents with the writes so far. It copies and sorts them anew.
    fn answer(
        &mut self,
        alloc: Global,
        schema: &Schema,
        docs: &[Doc],
        ask: &Ask,
    ) -> Result<(), Memory>
        requires room { HasRoomLeft ask.now }
        ensures { (code : PlainCode) (whole : Course) (q : Asked) (next : List PlainDoc → Course) → Asks ask.now q → WaitsForRows code self.old.machine next → IsRest schema.now docs.now self.old.puts.items self.old.reads.items whole (asks q next) → OnOk result (OneMore code schema.now docs.now whole self.old self.new) }
    {
        let seen = with_puts(alloc, docs, self.puts.as_slice())?;
        let answer = answer_of(alloc, schema, seen.as_slice(), ask)?;
        self.reads.push(answer.consumed.copy(alloc)?)?;
        self.machine.answered(answer);
        Ok(())
    }

    fn put(&mut self, put: Put) -> Result<(), Memory>
        ensures { (code : PlainCode) (schema : PlainSchema) (ds : Docs) (whole next : Course) → WaitsForPut code self.old.machine next → IsRest schema ds self.old.puts.items self.old.reads.items whole (puts put next) → OnOk result (OneMore code schema ds whole self.old self.new) }
    {
        self.puts.push(put)?;
        self.machine.placed();
        Ok(())
    }

    // Goes on over the next read or write, or gives the outcome.
    fn step(
        &mut self,
        alloc: Global,
        code: &Code,
        schema: &Schema,
        docs: &[Doc],
    ) -> Result<Option<Outcome>, Memory>
        requires { CanGoOn code.now schema.now docs.now self.old }
        ensures { (whole : Course) → Drives code.now schema.now docs.now whole self.old → IfOk result (λ o. Steps code.now schema.now docs.now whole self.old self.new o) }
    {
        match self.machine.advance(code)? {
            Stop::Ask(ask) => {
                self.answer(alloc, schema, docs, &ask)?;
                Ok(None)
            }
            Stop::Put(put) => {
                self.put(put)?;
                Ok(None)
            }
            Stop::Done(outcome) => Ok(Some(outcome)),
        }
    }

    fn finish(self, alloc: Global, docs: &[Doc], outcome: Outcome) -> Result<PlainRun, Memory>
        ensures { (m : ModuleTree) (s : PlainStart) → Ends (schema_of m.tables) docs.now (course_of m s) self outcome → IfOk result (λ r. IsRun r (run m s docs.now)) }
    {
        let Outcome { reply, cost } = outcome;
        let writes = kept_writes(alloc, docs, &reply, self.puts.as_slice())?;
        Ok(PlainRun {
            reply,
            writes,
            reads: self.reads,
            cost,
        })
    }
}

/// The run of a call on these documents. Each read copies and sorts them anew.
pub fn run_call(
    alloc: Global,
    program: &Program,
    start: &Start,
    docs: &[Doc],
    runs: &mut Runs,
) -> Result<PlainRun, Memory>
    ensures { IfOk result (λ r. IsRun r (run (module_view program.now.checked.tree) (start_view start.now) docs.now)) }
{
    let schema = program.checked.schema();
    let mut drive = Drive::start(alloc, program, start, runs)?;
    loop {
        if let Some(outcome) = drive.step(alloc, &program.code, schema, docs)? {
            return drive.finish(alloc, docs, outcome);
        }
    }
}
