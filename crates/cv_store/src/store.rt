ghost use Rattle.std.specs.Prelude.{◌≡◌, ◌≤◌, [], length, IfOk, IfErr, OnErr};
ghost use Rattle.cv_store.specs.Reads.{StoreRead, StandsFor, IsReadable};
ghost use Rattle.cv_store.specs.Stores.{schema_at, schema_in, read_at, Extends, Reads, IsAnswer, query_run, IsRunOf, Begins, Commits, Looks, LooksIn, cached, Keeps};
ghost use Rattle.cv_store.specs.Tails.{tail_from};
ghost use Rattle.cv_store.specs.Turns.{OneTurn, after_begin, after_read, after_commit, after_tail, after_look, after_keep};

use crate::look::Look;
use crate::proposal::{Begun, Ended, Proposal, ReadReq};
use crate::tail::Tail;
use cv_reads::ReadSet;
use cv_values::{Doc, Memory};
use fn_tree::{Query, Reply};
use std::alloc::Global;

/// A log of a program's entries, as one of its users has it.
///
/// It means the program's module, a name, the entries that it has seen, those of them that it appended
/// itself, its cache where it tells that, and how many atomic steps of each kind it took. What it has
/// seen goes on with each call, never back, and stays legal, and each answer is the one at the end of
/// what it has then seen. A call is one step, and after `Memory` at most one: nothing was appended then.
pub trait Store {
    ghost use Rattle.cv_store.specs.Stores.{Standing};

    ghost stands: { Self → Standing };

    /// What holds of each store. It takes no step.
    fn stands_well(&self)
        ensures { Reads (stands self.now) (stands self.now) };

    /// The kept reply of a session's request, or a snapshot of all entries where there is none.
    fn begin(&mut self, alloc: Global, session: u128, request: u32) -> Result<Begun, Memory>
        ensures store { Reads (stands self.old) (stands self.new) }
        ensures turn { OneTurn after_begin (stands self.old).turns (stands self.new).turns result }
        ensures ok { IfOk result (λ b. Begins (stands self.new) session request b) };

    /// One read of the documents at a timestamp.
    fn read(&mut self, alloc: Global, ts: u64, ask: &ReadReq) -> Result<Vec<Doc>, Memory>
        requires seen { ts ≤ length (stands self.old).seen }
        requires readable { IsReadable (schema_at (stands self.old).program (stands self.old).seen ts) ask.now }
        ensures store { Reads (stands self.old) (stands self.new) }
        ensures turn { OneTurn after_read (stands self.old).turns (stands self.new).turns result }
        ensures ok { (q : StoreRead) → StandsFor ask.now q → IfOk result (λ ds. ds.items ≡ read_at (stands self.old) ts q) };

    /// Appends the entry of a proposal, unless its session's request has one already, or a later entry
    /// touches what it read. For want of memory the proposal comes back.
    fn commit(&mut self, alloc: Global, p: Proposal) -> Result<Ended, (Proposal, Memory)>
        requires { IsRunOf (stands self.old) p }
        ensures turn { OneTurn after_commit (stands self.old).turns (stands self.new).turns result }
        ensures ok { IfOk result (λ e. Commits (stands self.old) (stands self.new) p e) }
        ensures store { OnErr result (Reads (stands self.old) (stands self.new)) }
        ensures err { IfErr result (λ e. e.0 ≡ p) };

    /// The marks of the entries after a timestamp, as many as one tail takes.
    fn tail(&mut self, alloc: Global, from: u64) -> Result<Tail, Memory>
        ensures store { Reads (stands self.old) (stands self.new) }
        ensures turn { OneTurn after_tail (stands self.old).turns (stands self.new).turns result }
        ensures ok { IfOk result (λ t. t ≡ tail_from (schema_in (stands self.old)) (stands self.new).seen from) };

    /// The kept answer of a query at a timestamp, where there is one.
    fn look(&mut self, alloc: Global, query: &Query, ts: u64) -> Result<Look, Memory>
        requires { ts ≤ length (stands self.old).seen }
        ensures store { Extends (stands self.old) (stands self.new) [] }
        ensures turn { OneTurn after_look (stands self.old).turns (stands self.new).turns result }
        ensures ok { IfOk result (λ l. Looks (stands self.old) (stands self.new) query.now ts l) }
        ensures cache { IfOk result (λ l. LooksIn (stands self.old).cache (stands self.new).cache query.now ts l) }
        ensures err { OnErr result ((stands self.new).cache ≡ (stands self.old).cache) };

    /// Keeps the answer of a query at a timestamp.
    fn keep(
        &mut self,
        alloc: Global,
        query: &Query,
        ts: u64,
        reply: &Reply,
        reads: &ReadSet,
    ) -> Result<(), Memory>
        requires seen { ts ≤ length (stands self.old).seen }
        requires is_run { IsAnswer (query_run (stands self.old) query.now ts) reply.now reads.now }
        ensures store { Extends (stands self.old) (stands self.new) [] }
        ensures turn { OneTurn after_keep (stands self.old).turns (stands self.new).turns result }
        ensures ok { IfOk result (λ u. Keeps (stands self.old) (stands self.new) (cached query.now ts reply.now reads.now)) }
        ensures err { OnErr result ((stands self.new).cache ≡ (stands self.old).cache) };
}
