ghost use Rattle.std.specs.Prelude.{◌≡◌, ◌+◌, ◌-◌, ◌^◌, ◌<◌, ◌≤◌, [], ◌∷◌, ◌++◌, length, option_map, None, OnOk};
ghost use Rattle.cv_keys.specs.declared.schema.Schema.{Schema};
ghost use Rattle.fn_tree.specs.EntryViews.{entry_view};
ghost use Rattle.cv_store.specs.FirstTouch.{first_touch};
ghost use Rattle.cv_store.specs.Kept.{kept};
ghost use Rattle.cv_store.specs.Marks.{marks_by_entry};
ghost use Rattle.cv_log.specs.Logs.{entry_at, marks_at, timestamp_of, AreMarksOf};

use crate::touch::{Marked, first_conflict, later};
use cv_reads::{Mark, ReadSet};
use cv_store::{Conflict, touches_go_by_marks};
use cv_values::Memory;
use fn_tree::Entry;
use std::alloc::Global;
use std::collections::HashMap;
use std::marker::Model;

/// The entries of a log in order, the marks of each, and the timestamp of each session's request.
/// Timestamps go from 1 to the number of entries. Contracts see the entries and the marks, and beside
/// them the number of entries that can be appended without memory.
///
/// The entry of a session's request is found by a hash in constant time on average, whatever the length
/// of the log.
#[derive(Drop)]
pub struct WriteLog {
    marked: Vec<Marked>,
    places: HashMap<(u128, u32), u64>,
}

impl Model for WriteLog {
    ghost use Rattle.std.specs.Prelude.{◌≡◌, ◌-◌, ℕ, min, map, vec_len, vec_capacity};
    ghost use Rattle.std.specs.HashMap.{get, spare};
    ghost use Rattle.cv_log.specs.Codes.{log_code};
    ghost use Rattle.cv_log.specs.Records.{Log};

    ghost Value = { Log };

    ghost coded = { log_code };

    ghost use Rattle.cv_log.specs.Logs.{entries_in, marks_in, timestamp_of, same_pair};

    ghost view = { λ l. record {
      entries = entries_in l.marked.items;
      marks = marks_in l.marked.items;
      spare = min (vec_capacity l.marked - vec_len l.marked) (spare l.places);
    } };

    ghost invariant = { λ l. (session request : ℕ)
        → get same_pair l.places (session, request) ≡ timestamp_of session request (entries_in l.marked.items) };
}

impl WriteLog {
    /// No entries. It takes no memory.
    pub fn new(alloc: Global) -> WriteLog
        ensures entries { result.entries ≡ [] }
        ensures marks { result.marks ≡ [] }
    {
        WriteLog {
            marked: Vec::new(alloc),
            places: HashMap::new(alloc),
        }
    }

    /// The number of entries, which is the timestamp of the last one.
    pub fn len(&self) -> u64
        ensures len { result ≡ length self.now.entries }
        ensures marks { result ≡ length self.now.marks }
        ensures small { result < 2 ^ 63 }
    {
        self.marked.len() as u64
    }

    /// The entry at a timestamp, none exactly outside 1 to the length.
    pub fn entry(&self, ts: u64) -> Option<&Entry>
        ensures { option_map (λ e. entry_view e.now) result ≡ entry_at ts self.now.entries }
    {
        Some(&self.at(ts)?.entry)
    }

    /// The timestamp of the entry of a session's request, none exactly where there is no such entry.
    pub fn find(&self, session: u128, request: u32) -> Option<u64>
        ensures { result ≡ timestamp_of session request self.now.entries }
    {
        self.places.get(&(session, request)).copied()
    }

    /// The first touch of a read set by the entries after a timestamp, over every module over which the
    /// marks that were appended with each entry are that entry's marks. Only the entries after the
    /// timestamp are looked at, each mark up to the first touch once, with one comparison for each
    /// interval.
    pub fn first_touch_since(&self, reads: &ReadSet, s: u64) -> Option<Conflict>
        requires { length reads.now < 2 ^ 32 }
        ensures { (schema : Schema) → self.now.marks ≡ marks_by_entry schema 0 self.now.entries
            → result ≡ first_touch schema reads.now self.now.entries s }
    {
        touches_go_by_marks();
        first_conflict(later(self.marked.as_slice(), s), reads)
    }

    /// The marks that were appended with the entry at a timestamp, none outside 1 to the length.
    pub fn marks_of(&self, ts: u64) -> &[Mark]
        ensures { result.now ≡ marks_at ts self.now.marks }
    {
        match self.at(ts) {
            None => &[],
            Some(one) => one.marks.as_slice(),
        }
    }

    /// Makes spare room of one entry. For want of memory the entries are as before.
    pub fn reserve(&mut self) -> Result<(), Memory>
        ensures entries { self.new.entries ≡ self.old.entries }
        ensures marks { self.new.marks ≡ self.old.marks }
        ensures spare { self.old.spare ≤ self.new.spare }
        ensures room { OnOk result (0 < self.new.spare) }
    {
        self.marked.reserve(1)?;
        self.places.reserve(1)?;
        Ok(())
    }

    /// Appends an entry, whose timestamp is the next one, with its marks there. It takes both over
    /// without a copy, and takes no memory.
    pub fn append(&mut self, e: Entry, marks: Vec<Mark>)
        requires room { 0 < self.old.spare }
        requires marks { AreMarksOf marks.items (length self.old.entries + 1) (entry_view e) }
        requires new { kept e.call.session e.call.request self.old.entries ≡ None }
        ensures entries { self.new.entries ≡ self.old.entries ++ entry_view e ∷ [] }
        ensures marks { self.new.marks ≡ self.old.marks ++ marks.items ∷ [] }
        ensures spare { self.old.spare ≤ self.new.spare + 1 }
    {
        let pair = (e.call.session, e.call.request);
        let ts = self.marked.len() as u64 + 1;
        let placed: Result<_, _> = self.places.insert(pair, ts);
        placed.unwrap();
        self.marked.push(Marked { entry: e, marks }).unwrap();
    }

    // The entry at a timestamp with its marks, none outside 1 to the length.
    fn at(&self, ts: u64) -> Option<&Marked>
        ensures entry { option_map (λ m. entry_view m.now.entry) result ≡ entry_at ts self.now.entries }
        ensures marks { option_map (λ m. m.now.marks.items) result ≡ entry_at ts self.now.marks }
    {
        let at = ts.checked_sub(1)?;
        self.marked.get(at as usize)
    }
}
