ghost use Rattle.std.specs.Prelude.{◌≡◌, ◌<◌, ◌||◌, [], ◌∷◌, ◌++◌, length, filter, Some, is_some, slice_get, slice_set, IfOk, OnOk, OnErr};
ghost use Rattle.cv_keys.specs.declared.write.Write.{Write as Held};
ghost use Rattle.fn_tree.specs.Course.{Ask as Asked};
ghost use Rattle.fn_tree.specs.Documents.{Docs, applied};
ghost use Rattle.fn_tree.specs.Scan.{answer};
ghost use Rattle.cv_store.specs.Reads.{StandsFor, read_from};
ghost use Rattle.cv_tx.specs.Asks.{Stands, IsIndexed, IsProgramSchema, Answers};
ghost use Rattle.cv_tx.specs.Pending.{HasDistinctIds, AreTrue, placed, write_at, written};
ghost use Rattle.cv_tx.specs.Plans.{plan_of};

use crate::answer::answer_from;
use crate::plan::rows_needed;
use cv_keys::{Schema, Write};
use cv_reads::ReadSet;
use cv_store::{Proposal, ReadReq};
use cv_values::{Doc, DocId, Memory, Seq};
use fn_tree::{Answer, Ask, Call, Put, Reply};
use std::alloc::Global;
use std::marker::Model;

/// What a run has written and read so far, over a snapshot. Contracts see the snapshot's timestamp, the
/// pending writes, one for each id in the order of its first put, and the intervals read.
#[derive(Debug, Drop)]
pub struct Tx {
    snapshot: u64,
    pending: Vec<Write>,
    reads: ReadSet,
}

impl Model for Tx {
    ghost use Rattle.cv_tx.specs.Pending.{Under};
    ghost use Rattle.cv_tx.specs.Codes.{under_code};

    ghost Value = { Under };

    ghost coded = { under_code };

    ghost view = { λ t. record { snapshot = t.snapshot; pending = t.pending.items; reads = t.reads } };
}

impl Tx {
    /// Nothing written and nothing read. It takes no memory.
    pub fn new(alloc: Global, snapshot: u64) -> Tx
        ensures { result ≡ record { snapshot = snapshot; pending = []; reads = [] } }
    {
        Tx {
            snapshot,
            pending: Vec::new(alloc),
            reads: ReadSet::new(alloc),
        }
    }

    /// The one store read that a read of the run needs: of the id, or of as many rows of the interval as
    /// the limit, the quotas and the pending removals can need.
    pub fn plan(&self, alloc: Global, ask: &Ask) -> Result<ReadReq, Memory>
        ensures { (q : Asked) → Stands ask.now q → IfOk result (λ r. StandsFor r (plan_of self.now.pending q)) }
    {
        match ask {
            Ask::Get { id, left: _ } => Ok(ReadReq::Get { id: *id }),
            Ask::Scan {
                interval,
                desc,
                limit,
                left,
            } => {
                let need = rows_needed(self.pending.as_slice(), interval.table, *limit, left)?;
                Ok(ReadReq::Scan {
                    interval: interval.copy(alloc)?,
                    desc: *desc,
                    rows: need.rows,
                    size: need.size,
                })
            }
        }
    }

    /// The answer to a read of the run on its documents with the pending writes, where the schema is that
    /// of the run's program and the rows are what the planned store read gives of the snapshot. The
    /// interval consumed is recorded. For want of memory nothing changes.
    pub fn answer(
        &mut self,
        alloc: Global,
        schema: &Schema,
        ask: &Ask,
        rows: Vec<Doc>,
    ) -> Result<Answer, Memory>
        requires { IsIndexed schema.now ask.now }
        ensures answer { IsProgramSchema schema.now → (q : Asked) (ds : Docs) → Stands ask.now q → HasDistinctIds ds → AreTrue ds self.old.pending → rows.items ≡ read_from schema.now ds (plan_of self.old.pending q) → IfOk result (λ a. Answers a (answer schema.now (applied self.old.pending ds) q)) }
        ensures ok { IfOk result (λ a. self.new ≡ record self.old { reads = self.old.reads ++ a.consumed ∷ [] }) }
        ensures err { OnErr result (self.new ≡ self.old) }
    {
        let answer = answer_from(alloc, schema, self.pending.as_slice(), ask, rows)?;
        self.reads.add(answer.consumed.copy(alloc)?)?;
        Ok(answer)
    }

    /// Takes a put of the run: the first put of an id makes its write, a later one changes the write's new
    /// document. For want of memory nothing changes.
    pub fn put(&mut self, p: Put) -> Result<(), Memory>
        ensures ok { OnOk result (self.new ≡ record self.old { pending = placed p self.old.pending }) }
        ensures err { OnErr result (self.new ≡ self.old) }
    {
        place_put(&mut self.pending, p)
    }

    /// The proposal of the run with this reply. An error drops the writes; else an id that had no document
    /// at the snapshot and has none now gives no write. It takes no memory.
    pub fn propose(self, call: Call, reply: Reply) -> Proposal
        ensures { result ≡ record { call = call; snapshot = self.snapshot; reply = reply; writes = written reply self.pending; reads = self.reads } }
    {
        let Tx {
            snapshot,
            pending,
            reads,
        } = self;
        Proposal {
            call,
            snapshot,
            writes: written(&reply, pending),
            reply,
            reads,
        }
    }

    /// What the run has read, where there is nothing to propose.
    pub fn into_reads(self) -> ReadSet
        ensures { result ≡ self.reads }
    {
        self.reads
    }
}

// The number of the first write of an id.
fn write_at(writes: &[Write], id: &DocId) -> Option<usize>
    ensures { result ≡ write_at id.now writes.now }
{
    writes.iter().position(|w| *id == w.id)
}

fn place_put(pending: &mut Vec<Write>, p: Put) -> Result<(), Memory>
    ensures ok { OnOk result (pending.new.items ≡ placed p pending.old.items) }
    ensures err { OnErr result (pending.new.items ≡ pending.old.items) }
{
    let at = write_at(pending.as_slice(), &p.id);
    let Put { id, old, new } = p;
    match at {
        Some(at) => {
            drop(old);
            set_new(pending, at, new);
            Ok(())
        }
        None => {
            pending.push(Write { id, old, new })?;
            Ok(())
        }
    }
}

// Changes the new document of the write at a place.
fn set_new(pending: &mut Vec<Write>, at: usize, new: Option<Doc>)
    requires { at < length pending.old.items }
    ensures { (w : Held) → slice_get pending.old.items at ≡ Some w → pending.new.items ≡ slice_set pending.old.items at (record w { new = new }) }
{
    let w = &mut pending[at];
    w.new = new;
}

// The writes of an id that had a document or has one.
fn without_gone(pending: Vec<Write>) -> Vec<Write>
    ensures { result.items ≡ filter (λ w. is_some w.old || is_some w.new) pending.items }
{
    let mut writes = pending;
    writes.retain(|w| w.old.is_some() || w.new.is_some());
    writes
}

// The writes that a run with this reply leaves.
fn written(reply: &Reply, pending: Vec<Write>) -> Seq<Write>
    ensures { result ≡ written reply.now pending.items }
{
    match reply {
        Reply::Value(_) => Seq::from_vec(without_gone(pending)),
        Reply::Failed(_) => {
            let mut writes = pending;
            writes.truncate(0);
            Seq::from_vec(writes)
        }
    }
}
