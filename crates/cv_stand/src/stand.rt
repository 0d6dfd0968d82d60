//! The stand: one store of a program with a clock, on which events are played one at a time.
ghost use Rattle.std.specs.Prelude.{◌≡◌, length, IfOk, OnOk, OnErr};
ghost use Rattle.fn_tree.specs.SyntaxViews.{module_view};
ghost use Rattle.cv_store.specs.Jobs.{AtMostOne};
ghost use Rattle.cv_stand.specs.Events.{calls};
ghost use Rattle.cv_stand.specs.Plays.{after, after_call, call_at, opening, output, request_of, runs_after, told};
ghost use Rattle.cv_stand.specs.ScriptViews.{event_view};
ghost use Rattle.cv_stand.specs.Stands.{module_of};
ghost use Rattle.cv_stand.specs.Texts.{with_feeds};
ghost use Rattle.cv_stand.specs.Writes.{Writes};

use crate::call::play_out;
use crate::output::{PlayFault, reply_text, write_entries, write_line};
use crate::script::Event;
use cv_core::{Core, SoloStore};
use cv_outside::Sink;
use cv_store::Runs;
use cv_values::{Fields, Memory, Text};
use fn_load::Program;
use fn_tree::Call;
use std::alloc::Global;
use std::marker::Model;

/// What a stand's clock reads, and its store. A stand means the module of its program, and where its events
/// came to: what the clock reads and the log of the entries.
#[derive(Drop)]
pub struct Stand {
    clock: i64,
    store: SoloStore,
}

impl Model for Stand {
    ghost use Rattle.std.specs.Prelude.{◌≡◌};
    ghost use Rattle.cv_stand.specs.Stands.{Stood, stood_code};

    ghost Value = { Stood };

    ghost coded = { stood_code };

    ghost view = { λ s. record { tree = s.store.core.tree; stage = record { clock = s.clock; history = s.store.core.log } } };

    ghost invariant = { λ s. s.store.start ≡ 0 };
}

/// How many entries the log has, how many tries were sent back, and how many transitions were told. Until
/// there are connections, the last two are 0.
#[derive(Clone, Copy, Debug, PartialEq, Eq)]
pub struct Counts {
    pub entries: u64,
    pub retries: u64,
    pub transitions: u64,
}

impl Stand {
    /// A stand of a program, whose clock reads 0 and whose log is empty.
    pub fn new(alloc: Global, program: &Program) -> Result<Stand, Memory>
        ensures program { IfOk result (λ s. module_of s ≡ module_view program.now.checked.tree) }
        ensures opens { IfOk result (λ s. s.stage ≡ opening) }
    {
        let core = Core::new(alloc, program.checked.copy(alloc)?)?;
        Ok(Stand {
            clock: 0,
            store: SoloStore::new(core),
        })
    }

    /// How many there are.
    pub fn counts(&self) -> Counts
        ensures { result ≡ record { entries = length self.now.stage.history; retries = 0; transitions = 0 } }
    {
        Counts {
            entries: self.store.core().len(),
            retries: 0,
            transitions: 0,
        }
    }

    // The call of a request at what the clock reads. It copies the path and the arguments.
    fn called(
        &self,
        alloc: Global,
        session: u128,
        request: u32,
        udf: &Text,
        args: &Fields,
    ) -> Result<Call, Memory>
        ensures { IfOk result (λ c. c ≡ call_at self.now.stage.clock (record { session = session; request = request; udf = udf.now; args = args.now })) }
    {
        Ok(Call {
            session,
            request,
            udf: udf.copy(alloc)?,
            args: args.copy(alloc)?,
            now: self.clock,
        })
    }

    // Plays a call: tells the reply of its entry, which then stands in the log.
    fn play_call<K: Sink>(
        &mut self,
        alloc: Global,
        program: &Program,
        call: &Call,
        runs: &mut Runs,
        out: &mut K,
    ) -> Result<(), PlayFault>
        requires { module_view program.now.checked.tree ≡ module_of self.old }
        ensures program { OnOk result (module_of self.new ≡ module_of self.old) }
        ensures clock { self.new.stage.clock ≡ self.old.stage.clock }
        ensures history { OnOk result (self.new.stage.history ≡ after_call (module_of self.old) self.old.stage.history call.entry.now) }
        ensures writes { Writes (with_feeds (told (after_call (module_of self.old) self.old.stage.history call.entry.now) (request_of call.entry.now)))
            (K.held out.old) (K.held out.new) (K.faults out.old) (K.faults out.new) result }
        ensures runs { OnOk result (runs.new.count ≡ runs_after self.old.stage.history (calls (request_of call.entry.now)) runs.old.count) }
        ensures tried { OnErr result (AtMostOne runs.old.count runs.new.count) }
    {
        let (ts, reply) = play_out(alloc, program, &mut self.store, call, runs)?;
        let line = reply_text(alloc, ts, &reply)?;
        write_line(out, line)
    }

    /// Plays an event: the clock reads its moment from then on; a call is run to its end, unless its
    /// session's request has an entry, and the reply of the entry is told; or all entries are told. `runs`
    /// counts the runs that were started. After a fault the stand is only dropped.
    pub fn play<K: Sink>(
        &mut self,
        alloc: Global,
        program: &Program,
        event: &Event,
        out: &mut K,
        runs: &mut Runs,
    ) -> Result<(), PlayFault>
        requires { module_view program.now.checked.tree ≡ module_of self.old }
        ensures program { OnOk result (module_of self.new ≡ module_of self.old) }
        ensures after { OnOk result (self.new.stage ≡ after (module_of self.old) self.old.stage (event_view event.now)) }
        ensures writes { Writes (with_feeds (output (module_of self.old) self.old.stage (event_view event.now)))
            (K.held out.old) (K.held out.new) (K.faults out.old) (K.faults out.new) result }
        ensures runs { OnOk result (runs.new.count ≡ runs_after self.old.stage.history (event_view event.now) runs.old.count) }
        ensures tried { OnErr result (AtMostOne runs.old.count runs.new.count) }
    {
        match event {
            Event::Clock(now) => {
                self.clock = *now;
                Ok(())
            }
            Event::Call {
                session,
                request,
                udf,
                args,
            } => {
                let call = self.called(alloc, *session, *request, udf, args)?;
                self.play_call(alloc, program, &call, runs, out)
            }
            Event::Log => write_entries(alloc, self.store.core(), out),
        }
    }
}
