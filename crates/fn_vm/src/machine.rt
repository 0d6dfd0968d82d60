//! The machine: a run from its start to its outcome, by stops.
ghost use Rattle.std.specs.Prelude.{◌≡◌, ◌+◌, ◌-◌, ◌^◌, [], IfOk, OnOk, OnErr, List, map, min};
ghost use Rattle.cv_values.specs.Trees.{tree};
ghost use Rattle.cv_values.specs.declared.doc.Doc.{Doc as PlainDoc};
ghost use Rattle.fn_code.specs.CodeMeans.{Means, refused, terms_of, start as plain_start};
ghost use Rattle.fn_code.specs.declared.code.Code.{Code as PlainCode};
ghost use Rattle.fn_tree.specs.Actions.{nothing_used};
ghost use Rattle.fn_tree.specs.Course.{Course};
ghost use Rattle.fn_tree.specs.Functions.{course_of};
ghost use Rattle.fn_tree.specs.SyntaxTree.{ModuleTree};
ghost use Rattle.fn_vm.specs.Machines.{start_view, phase_behind, Begins, Reaches, Goes, WaitsForRows, WaitsForPut, Stops};
ghost use Rattle.fn_vm.specs.Views.{state_view, terms_view};

use crate::frame::{Frame, Loops, Slots, Stack};
use crate::run::{Run, Terms};
use crate::start::{Start, arguments_of, entry_of, kind_of, limits_of, nothing_used};
use crate::stop::Stop;
use cv_store::Runs;
use cv_values::{Doc, Memory, Text, Val};
use fn_code::Code;
use fn_tree::{Answer, Outcome, Reply};
use std::alloc::Global;
use std::mem;

/// Where a machine stands.
#[derive(Drop)]
pub enum Phase {
    /// At an instruction.
    Running,
    /// Its call names no function, or has wrong arguments.
    Refused(Outcome),
    /// At a read, of which the rows are to come.
    Asked,
    /// At a read, with its rows.
    Answered(Vec<Doc>),
    /// Behind a write that is to be placed.
    Putting,
    /// It gave its outcome.
    Over,
}

impl Phase {
    // Where a machine stands that came to a stop.
    fn behind(stop: &Stop) -> Phase
        ensures { result ≡ phase_behind stop.now }
    {
        match stop {
            Stop::Ask(_) => Phase::Asked,
            Stop::Put(_) => Phase::Putting,
            Stop::Done(_) => Phase::Over,
        }
    }
}

/// A run under way. It is given a code at each call, the one that it was started with, and it stops at
/// each read and each write. It knows no store and takes no lock. A machine whose `advance` answered
/// [`Memory`] is spent and only dropped.
#[derive(Drop)]
pub struct Machine {
    run: Run,
    terms: Terms,
    phase: Phase,
}

// A run at a place, with these variables.
fn run_at(alloc: Global, at: u64, values: Vec<Val>) -> Run
    ensures { state_view result ≡ record { frame = record { at = at; vars = map tree values.items; stack = []; loops = [] }; callers = []; counts = nothing_used } }
{
    let frame = Frame {
        at: u128::from(at),
        vars: Slots::of(values),
        stack: Stack::new(alloc),
        loops: Loops::new(alloc),
    };
    Run {
        alloc,
        frame,
        callers: Vec::new(alloc),
        counts: nothing_used(),
    }
}

impl Machine {
    // A call that is refused: its run has only an outcome.
    fn refused(alloc: Global, terms: Terms, why: &str) -> Result<Machine, Memory>
        ensures { IfOk result (λ m. Begins (terms_view terms) m (refused why.now)) }
    {
        let reply = Reply::Failed(Text::of(alloc, why)?);
        Ok(Machine {
            run: run_at(alloc, 0, Vec::new(alloc)),
            terms,
            phase: Phase::Refused(Outcome { reply, cost: 0 }),
        })
    }

    fn begun(alloc: Global, code: &Code, start: &Start) -> Result<Machine, Memory>
        ensures { IfOk result (λ m. Begins (terms_of (start_view start.now)) m (plain_start code.now (start_view start.now))) }
    {
        let terms = Terms {
            limits: limits_of(&start.origin),
            origin: start.origin,
        };
        let kind = kind_of(&start.origin);
        let Some(entry) = entry_of(code.entries.as_slice(), kind, start.udf) else {
            return Machine::refused(alloc, terms, "UnknownFunction");
        };
        let Some(values) = arguments_of(alloc, entry.params.as_slice(), start.args)? else {
            return Machine::refused(alloc, terms, "BadArguments");
        };
        Ok(Machine {
            run: run_at(alloc, entry.at, values),
            terms,
            phase: Phase::Running,
        })
    }

    /// Starts the run of a call, which is counted. An origin makes it a mutation's run, none a query's.
    /// It costs a search over the functions and a copy of the arguments.
    pub fn start(
        alloc: Global,
        code: &Code,
        start: &Start,
        runs: &mut Runs,
    ) -> Result<Machine, Memory>
        ensures goes { (m : ModuleTree) → Means code.now m → IfOk result (λ k. Goes code.now k (course_of m (start_view start.now))) }
        ensures ok { OnOk result (runs.new.count ≡ min (runs.old.count + 1) (2 ^ 64 - 1)) }
        ensures err { OnErr result (runs.new ≡ runs.old) }
    {
        let machine = Machine::begun(alloc, code, start)?;
        runs.count = runs.count.saturating_add(1);
        Ok(machine)
    }

    // Goes on from where it stands, up to the next stop.
    fn next_stop(&mut self, code: &Code) -> Result<Stop, Memory>
        ensures { (k : Course) → Goes code.now self.old k → IfOk result (λ stop. Reaches (terms_view self.new.terms) code.now k stop (state_view self.new.run)) }
    {
        match mem::replace(&mut self.phase, Phase::Running) {
            Phase::Refused(outcome) => Ok(Stop::Done(outcome)),
            Phase::Answered(docs) => self.run.resume_on(&self.terms, code, docs),
            Phase::Running | Phase::Asked | Phase::Putting | Phase::Over => {
                self.run.run_on(&self.terms, code)
            }
        }
    }

    /// Goes on to the next stop, as the course of the run says. It is called where the machine was
    /// started, each read was answered, each write was placed, and no outcome came yet.
    #[tactic(auto, using(crate::proofs::Machines::stops_there))]
    pub fn advance(&mut self, code: &Code) -> Result<Stop, Memory>
        ensures { (k : Course) → Goes code.now self.old k → IfOk result (λ stop. Stops code.now self.new k stop) }
    {
        let stop = self.next_stop(code)?;
        self.phase = Phase::behind(&stop);
        Ok(stop)
    }

    /// The rows of the read at which the machine stopped. It takes no memory.
    pub fn answered(&mut self, a: Answer)
        ensures { (code : PlainCode) (next : List PlainDoc → Course) → WaitsForRows code self.old next → Goes code self.new (next a.docs.items) }
    {
        let Answer { docs, consumed } = a;
        drop(consumed);
        self.phase = Phase::Answered(docs);
    }

    /// The write at which the machine stopped was placed. It takes no memory.
    pub fn placed(&mut self)
        ensures { (code : PlainCode) (next : Course) → WaitsForPut code self.old next → Goes code self.new next }
    {
        self.phase = Phase::Running;
    }
}
