ghost use Rattle.std.specs.Prelude.{◌≡◌, ◌∷◌, [], length};
ghost use Rattle.cv_store.specs.Turns.{no_turns};
ghost use Rattle.cv_core.specs.Cores.{standing};
ghost use Rattle.cv_core.specs.Solos.{stands_of};

use crate::the_core::Core;
use cv_reads::ReadSet;
use cv_store::{Begun, Ended, Look, Proposal, ReadReq, Store, Tail, Turns};
use cv_values::{Doc, Memory};
use fn_tree::{Query, Reply};
use std::alloc::Global;
use std::marker::Model;

/// A store over a core of its own, which has seen the whole log. Its own entries are those after the
/// length that the log had when the store was made, and that length is its name: so a store that was made
/// over an empty log has no entries but its own.
#[derive(Drop)]
pub struct SoloStore {
    core: Core,
    start: u64,
    turns: Turns,
}

impl Model for SoloStore {
    ghost use Rattle.std.specs.Prelude.{◌≤◌, length};
    ghost use Rattle.cv_core.specs.Solos.{Solo, solo_code};

    ghost Value = { Solo };

    ghost coded = { solo_code };

    ghost view = { λ s. record { core = s.core; start = s.start; turns = s.turns } };

    ghost invariant = { λ s. s.start ≤ length s.core.log };
}

impl SoloStore {
    /// A store over a core. It has no entries of its own yet, took no step, and takes no memory.
    pub fn new(core: Core) -> SoloStore
        ensures { stands_of result ≡ standing (length core.log ∷ []) [] no_turns core }
    {
        let start = core.len();
        SoloStore {
            core,
            start,
            turns: Turns::none(),
        }
    }

    /// The core.
    pub fn core(&self) -> &Core
        ensures { stands_of self.now ≡ standing (stands_of self.now).name (stands_of self.now).mine (stands_of self.now).turns result.now }
    {
        &self.core
    }

    /// The core, which is given back.
    pub fn into_core(self) -> Core
        ensures { stands_of self ≡ standing (stands_of self).name (stands_of self).mine (stands_of self).turns result }
    {
        let SoloStore {
            core,
            start: _,
            turns: _,
        } = self;
        core
    }
}

impl Store for SoloStore {
    ghost stands = { stands_of };

    fn stands_well(&self) {
        self.core.stands_well();
    }

    fn begin(&mut self, alloc: Global, session: u128, request: u32) -> Result<Begun, Memory> {
        self.turns.count_begin();
        self.core.begin(alloc, session, request)
    }

    fn read(&mut self, alloc: Global, ts: u64, ask: &ReadReq) -> Result<Vec<Doc>, Memory> {
        self.turns.count_read();
        self.core.read(alloc, ts, ask)
    }

    fn commit(&mut self, alloc: Global, p: Proposal) -> Result<Ended, (Proposal, Memory)> {
        self.turns.count_commit();
        match self.core.prepare(alloc, &p) {
            Err(memory) => Err((p, memory)),
            Ok(ready) => Ok(self.core.commit(p, ready)),
        }
    }

    fn tail(&mut self, alloc: Global, from: u64) -> Result<Tail, Memory> {
        self.turns.count_tail();
        self.core.tail(alloc, from)
    }

    fn look(&mut self, alloc: Global, query: &Query, ts: u64) -> Result<Look, Memory> {
        self.turns.count_look();
        self.core.look(alloc, query, ts)
    }

    fn keep(
        &mut self,
        alloc: Global,
        query: &Query,
        ts: u64,
        reply: &Reply,
        reads: &ReadSet,
    ) -> Result<(), Memory> {
        self.turns.count_keep();
        self.core.keep(alloc, query, ts, reply, reads)
    }
}
