ghost use Rattle.std.specs.Prelude.{◌≡◌, ◌≤◌, ℕ, [], length, option_map, None, IsSome, IfOk, OnOk};
ghost use Rattle.cv_values.specs.IdLaws.{IsId};
ghost use Rattle.cv_keys.specs.Documents.{index_at};
ghost use Rattle.cv_keys.specs.Intervals.{in_bytes};
ghost use Rattle.fn_tree.specs.EntryViews.{entry_view, reply_view};
ghost use Rattle.fn_tree.specs.History.{docs_at};
ghost use Rattle.fn_tree.specs.SyntaxViews.{module_view};
ghost use Rattle.cv_keys.specs.KeyOrder.{EndInRange};
ghost use Rattle.cv_keys.specs.Places.{PlaceInterval};
ghost use Rattle.fn_tree.specs.Documents.{doc_of};
ghost use Rattle.fn_tree.specs.Rows.{rows_at};
ghost use Rattle.fn_tree.specs.Scan.{id_interval, found, in_direction};
ghost use Rattle.cv_log.specs.Logs.{entry_at};
ghost use Rattle.cv_store.specs.Kept.{kept};
ghost use Rattle.cv_store.specs.Reads.{StoreRead, StandsFor, IsReadable, cut};
ghost use Rattle.cv_store.specs.Stores.{schema_at, read_at, IsRunOf, Begins, IsAnswer, query_run, LooksIn, cached, Keeps};
ghost use Rattle.cv_store.specs.Tails.{tail_from};
ghost use Rattle.cv_core.specs.Cores.{state_of, program_of, schema_in, alone, StandsWell, IsSameButRoom, IsRoom, IsReady};
ghost use Rattle.cv_core.specs.Ends.{Ends};
ghost use Rattle.cv_core.specs.Versioned.{entries_at, shape, spare_at};
ghost use Rattle.cv_store.specs.FirstTouch.{first_touch};

use crate::change::{changes_of, know_id, new_docs};
use crate::marks::marks_of;
use crate::ready::{Prepared, Ready, Room};
use crate::rows::Rows;
use crate::tail::tail_of;
use cv_keys::{Interval, key_of};
use cv_log::WriteLog;
use cv_reads::ReadSet;
use cv_store::{Begun, Ended, Entry, Look, Proposal, ReadReq, Tail};
use cv_values::{Doc, DocId, Memory, Val, id_text};
use fn_check::Checked;
use fn_tree::{Query, Reply};
use std::alloc::Global;
use std::marker::Model;

/// The log of a program with the documents of all timestamps. Contracts see the module, the log, and
/// beside them the rows and the room that is made for a commit. The log of each core is legal: a run of
/// one thread.
#[derive(Drop)]
pub struct Core {
    checked: Checked,
    log: WriteLog,
    rows: Rows,
}

impl Model for Core {
    ghost use Rattle.fn_tree.specs.SyntaxViews.{module_view};
    ghost use Rattle.cv_core.specs.Cores.{State, state_code, state_of, IsCore};

    ghost Value = { State };

    ghost coded = { state_code };

    ghost view = { λ c. state_of c.checked.tree c.log c.rows };

    ghost invariant = { λ c. IsCore (module_view c.checked.tree) c.log c.rows };
}

impl Core {
    /// A core of a module with the empty log.
    pub fn new(alloc: Global, checked: Checked) -> Result<Core, Memory>
        ensures program { IfOk result (λ c. program_of c ≡ module_view checked.tree) }
        ensures log { IfOk result (λ c. c.log ≡ []) }
    {
        let rows = Rows::new(alloc, checked.schema())?;
        Ok(Core {
            checked,
            log: WriteLog::new(alloc),
            rows,
        })
    }

    /// What holds of each core.
    pub fn stands_well(&self)
        ensures { StandsWell self.now }
    {
        // A look at a field brings the invariant.
        let _log = &self.log;
    }

    /// The number of entries of the log.
    pub fn len(&self) -> u64
        ensures len { result ≡ length self.now.log }
        ensures well { StandsWell self.now }
    {
        self.stands_well();
        self.log.len()
    }

    /// The entry at a timestamp, none exactly outside 1 to the length of the log.
    pub fn entry(&self, ts: u64) -> Option<&Entry>
        ensures entry { option_map (λ e. entry_view e.now) result ≡ entry_at ts self.now.log }
        ensures well { StandsWell self.now }
    {
        self.stands_well();
        self.log.entry(ts)
    }

    /// The kept reply of a session's request, or a snapshot of all entries where there is none. It
    /// changes nothing, and looks the request up in constant time on average.
    pub fn begin(&mut self, alloc: Global, session: u128, request: u32) -> Result<Begun, Memory>
        ensures same { self.new ≡ self.old }
        ensures well { StandsWell self.new }
        ensures ok { IfOk result (λ b. Begins (alone self.old) session request b) }
    {
        self.stands_well();
        match kept_reply(alloc, &self.log, session, request)? {
            None => Ok(Begun::Fresh { ts: self.log.len() }),
            Some((ts, reply)) => Ok(Begun::Known { ts, reply }),
        }
    }

    /// One read of the documents at a timestamp. It changes nothing.
    pub fn read(&mut self, alloc: Global, ts: u64, ask: &ReadReq) -> Result<Vec<Doc>, Memory>
        requires seen { ts ≤ length self.old.log }
        requires readable { IsReadable (schema_at (program_of self.old) self.old.log ts) ask.now }
        ensures same { self.new ≡ self.old }
        ensures well { StandsWell self.new }
        ensures ok { (q : StoreRead) → StandsFor ask.now q → IfOk result (λ ds. ds.items ≡ read_at (alone self.old) ts q) }
    {
        self.stands_well();
        match ask {
            ReadReq::Get { id } => self.get(alloc, ts, id),
            ReadReq::Scan {
                interval,
                desc,
                rows,
                size,
            } => self.scan(alloc, ts, interval, *desc, *rows, *size),
        }
    }

    /// The marks of the entries after a timestamp, as many as one tail takes. It changes nothing.
    pub fn tail(&mut self, alloc: Global, from: u64) -> Result<Tail, Memory>
        ensures same { self.new ≡ self.old }
        ensures well { StandsWell self.new }
        ensures ok { IfOk result (λ t. t ≡ tail_from (schema_in self.old) self.old.log from) }
    {
        self.stands_well();
        tail_of(alloc, &self.log, from)
    }

    /// The kept answer of a query at a timestamp. No answers are kept yet.
    pub fn look(&mut self, _alloc: Global, query: &Query, ts: u64) -> Result<Look, Memory>
        requires { ts ≤ length self.old.log }
        ensures same { self.new ≡ self.old }
        ensures well { StandsWell self.new }
        ensures ok { IfOk result (λ l. l ≡ Look.Miss) }
        ensures cache { IfOk result (λ l. LooksIn self.old.cache self.new.cache query.now ts l) }
    {
        self.stands_well();
        // A look at a field brings that there is no cache.
        let _log = &self.log;
        Ok(Look::Miss)
    }

    /// Keeps the answer of a query at a timestamp. No answers are kept yet.
    pub fn keep(
        &mut self,
        _alloc: Global,
        query: &Query,
        ts: u64,
        reply: &Reply,
        reads: &ReadSet,
    ) -> Result<(), Memory>
        requires seen { ts ≤ length self.old.log }
        requires is_run { IsAnswer (query_run (alone self.old) query.now ts) reply.now reads.now }
        ensures same { self.new ≡ self.old }
        ensures well { StandsWell self.new }
        ensures ok { IfOk result (λ u. Keeps (alone self.old) (alone self.new) (cached query.now ts reply.now reads.now)) }
    {
        self.stands_well();
        // A look at a field brings that there is no cache.
        let _log = &self.log;
        Ok(())
    }

    /// Makes all room for the commit of a proposal and the marks of its entry; where its session's request
    /// has an entry already, it copies that entry's reply. What was prepared before for other proposals
    /// stays ready.
    pub fn prepare(&mut self, alloc: Global, p: &Proposal) -> Result<Ready, Memory>
        ensures same { IsSameButRoom self.old self.new }
        ensures well { StandsWell self.new }
        ensures ok { IfOk result (λ r. IsReady self.new p.entry.now r) }
        ensures others { (q : Proposal) (r : Ready) → IsReady self.old q r → IsReady self.new q r }
    {
        let ready = self.make_ready(alloc, p);
        self.stands_well();
        ready
    }

    // The same, but for what holds of each core.
    fn make_ready(&mut self, alloc: Global, p: &Proposal) -> Result<Ready, Memory>
        ensures tree { self.new.tree ≡ self.old.tree }
        ensures log { self.new.log ≡ self.old.log }
        ensures docs { self.new.rows.docs ≡ self.old.rows.docs }
        ensures rows { (table index : ℕ) → entries_at table index self.new.rows.tables ≡ entries_at table index self.old.rows.tables }
        ensures cache { self.new.cache ≡ self.old.cache }
        ensures ok { IfOk result (λ r. IsReady self.new p.entry.now r) }
        ensures others { (q : Proposal) (r : Ready) → IsReady self.old q r → IsReady self.new q r }
    {
        match kept_reply(alloc, &self.log, p.call.session, p.call.request)? {
            Some((ts, reply)) => Ok(Ready::new(Prepared::Known { ts, reply })),
            None => {
                let room = make_room(alloc, &self.checked, &mut self.log, &mut self.rows, p)?;
                Ok(Ready::new(Prepared::Fresh(room)))
            }
        }
    }

    /// Appends the entry of a proposal, unless its session's request has one already, or a later entry
    /// touches what it read. It takes no memory, and what it was given is taken over without a copy. A
    /// search for a touch looks at the entries after the snapshot alone.
    pub fn commit(&mut self, p: Proposal, ready: Ready) -> Ended
        requires run { IsRunOf (alone self.old) p }
        requires ready { IsReady self.old p ready }
        ensures program { program_of self.new ≡ program_of self.old }
        ensures well { StandsWell self.new }
        ensures ok { Ends self.old self.new p result }
    {
        let ended = self.finish(p, ready);
        self.stands_well();
        ended
    }

    // The same, but for what holds of each core.
    fn finish(&mut self, p: Proposal, ready: Ready) -> Ended
        requires run { IsRunOf (alone self.old) p }
        requires ready { IsReady self.old p ready }
        ensures program { program_of self.new ≡ program_of self.old }
        ensures ok { Ends self.old self.new p result }
    {
        match ready.into_prepared() {
            Prepared::Known { ts, reply } => Ended::Known { ts, reply },
            Prepared::Fresh(room) => self.end(p, room),
        }
    }

    // The document of an id at a timestamp.
    fn get(&self, alloc: Global, ts: u64, id: &DocId) -> Result<Vec<Doc>, Memory>
        requires { ts ≤ length self.now.log }
        ensures { IfOk result (λ ds. ds.items ≡ found (doc_of id.now (docs_at self.now.log ts))) }
    {
        let rows = &self.rows;
        let i = id_interval(alloc, id)?;
        rows.scan(alloc, ts, &i, false, 1, u64::MAX)
    }

    // The first rows of an interval at a timestamp.
    fn scan(
        &self,
        alloc: Global,
        ts: u64,
        i: &Interval,
        desc: bool,
        rows: u32,
        size: u64,
    ) -> Result<Vec<Doc>, Memory>
        requires seen { ts ≤ length self.now.log }
        requires readable { IsSome (index_at (schema_at (program_of self.now) self.now.log ts) i.now.table i.now.index) }
        ensures { (p : PlaceInterval) → i.now ≡ in_bytes p → EndInRange p.lo → EndInRange p.hi
            → IfOk result (λ ds. ds.items ≡ cut rows size (in_direction desc (rows_at (schema_at (program_of self.now) self.now.log ts) p (docs_at self.now.log ts)))) }
    {
        self.rows.scan(alloc, ts, i, desc, rows, size)
    }

    // The end of a proposal whose session's request has no entry.
    fn end(&mut self, p: Proposal, room: Room) -> Ended
        requires run { IsRunOf (alone self.old) p }
        requires new { kept p.call.session p.call.request self.old.log ≡ None }
        requires room { IsRoom self.old p room }
        ensures program { program_of self.new ≡ program_of self.old }
        ensures ok { Ends self.old self.new p result }
    {
        match self.log.first_touch_since(&p.reads, p.snapshot) {
            Some(conflict) => Ended::SentBack(conflict),
            None => self.append(p, room),
        }
    }

    // Appends the entry of a proposal that nothing touches.
    fn append(&mut self, p: Proposal, room: Room) -> Ended
        requires run { IsRunOf (alone self.old) p }
        requires new { kept p.call.session p.call.request self.old.log ≡ None }
        requires untouched { first_touch (schema_in self.old) p.reads self.old.log p.snapshot ≡ None }
        requires room { IsRoom self.old p room }
        ensures program { program_of self.new ≡ program_of self.old }
        ensures ok { Ends self.old self.new p result }
    {
        let Room {
            marks,
            changes,
            docs,
        } = room;
        let Proposal {
            call,
            snapshot: _,
            reply,
            writes,
            reads,
        } = p;
        drop(reads);
        let ts = self.log.len() + 1;
        self.rows.add(ts, docs, changes);
        let entry = Entry {
            call,
            reply,
            writes,
        };
        self.log.append(entry, marks);
        Ended::Committed { ts }
    }
}

// The timestamp of the entry of a session's request, and a copy of its reply.
fn kept_reply(
    alloc: Global,
    log: &WriteLog,
    session: u128,
    request: u32,
) -> Result<Option<(u64, Reply)>, Memory>
    ensures { IfOk result (λ k. option_map (λ p. (p.0, reply_view p.1)) k ≡ kept session request log.now.entries) }
{
    let Some(ts) = log.find(session, request) else {
        return Ok(None);
    };
    match log.entry(ts) {
        None => Ok(None),
        Some(entry) => Ok(Some((ts, entry.reply.copy(alloc)?))),
    }
}

// All that begins with the id's text in the first index of its table.
fn id_interval(alloc: Global, id: &DocId) -> Result<Interval, Memory>
    ensures interval { IfOk result (λ i. i ≡ in_bytes (id_interval id.now)) }
    ensures fits { OnOk result (IsId id.now) }
{
    know_id(id.table, id.session, id.request, id.ordinal);
    let lo = key_of(alloc, &Val::Str(id_text(alloc, id)?))?;
    let hi = lo.past(alloc)?;
    Ok(Interval {
        table: u32::from(id.table),
        index: 0,
        lo,
        hi,
    })
}

// Room in the log and in the rows, and all that a commit takes over. Numbers past the end of their types
// are refused like want of memory.
fn make_room(
    alloc: Global,
    checked: &Checked,
    log: &mut WriteLog,
    rows: &mut Rows,
    p: &Proposal,
) -> Result<Room, Memory>
    ensures entries { log.new.entries ≡ log.old.entries }
    ensures marks { log.new.marks ≡ log.old.marks }
    ensures docs { rows.new.docs ≡ rows.old.docs }
    ensures shape { shape rows.new.tables ≡ shape rows.old.tables }
    ensures rows { (table index : ℕ) → entries_at table index rows.new.tables ≡ entries_at table index rows.old.tables }
    ensures spare { log.old.spare ≤ log.new.spare }
    ensures versions { rows.old.spare ≤ rows.new.spare }
    ensures spares { (table index : ℕ) → spare_at table index rows.old.tables ≤ spare_at table index rows.new.tables }
    ensures ok { IfOk result (λ r. IsRoom (state_of checked.now.tree log.new rows.new) p.entry.now r) }
{
    let schema = checked.schema();
    let writes = p.writes.as_slice();
    if p.reads.len() > u32::MAX as usize {
        return Err(Memory);
    }
    let changes = changes_of(alloc, schema, rows.len(), writes)?;
    let marks = marks_of(alloc, schema, log.len() + 1, writes)?;
    let docs = new_docs(alloc, writes)?;
    if docs.len() as u64 > u64::MAX - rows.len() {
        return Err(Memory);
    }
    let Some(each) = writes.len().checked_mul(2) else {
        return Err(Memory);
    };
    rows.reserve(docs.len(), each, changes.as_slice())?;
    log.reserve()?;
    Ok(Room {
        marks,
        changes,
        docs,
    })
}
