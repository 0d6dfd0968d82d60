//! Scans of an index of `n`, at each timestamp, after writes to a table of documents with the field `n`.
ghost use Rattle.std.specs.Prelude.{◌+◌, length, IfOk, OnOk};
ghost use Rattle.cv_docs.specs.Entries.{AllBefore, AreKnown};

use crate::FlatRows;
use cv_docs::{RowIndex, Versions};
use cv_keys::{Bound, Index, Interval, Key, Range, Schema, Table, index_key, interval_of};
use cv_values::{Doc, DocId, Fields, Memory, Seq, Text, Val, Vals};
use std::alloc::Global;
use std::test::Fail;

fn index(alloc: Global, names: &[&str]) -> Result<Index, Memory> {
    let mut fields = Seq::new(alloc);
    for name in names {
        fields.push(Text::of(alloc, name)?)?;
    }
    Ok(Index {
        name: Text::of(alloc, "by")?,
        fields,
    })
}

fn index_of_n(alloc: Global) -> Result<Index, Memory> {
    index(alloc, &["n", "_creationTime", "_id"])
}

// One table with one index, that of n.
fn schema(alloc: Global) -> Result<Schema, Memory> {
    let mut indexes = Seq::new(alloc);
    indexes.push(index_of_n(alloc)?)?;
    let name = Text::of(alloc, "t")?;
    let mut tables = Seq::new(alloc);
    tables.push(Table { name, indexes })?;
    Ok(Schema { tables })
}

// The document of request r with this n, whose object has 13 size units.
fn doc(alloc: Global, r: u32, n: i64) -> Result<Doc, Memory> {
    let mut fields = Fields::new(alloc);
    drop(fields.insert(Text::of(alloc, "n")?, Val::Int(n))?);
    Ok(Doc {
        id: DocId {
            table: 0,
            session: 9,
            request: r,
            ordinal: 0,
        },
        creation: 0,
        fields,
    })
}

fn key(alloc: Global, r: u32, n: i64) -> Result<Key, Memory> {
    index_key(alloc, &doc(alloc, r, n)?, &index_of_n(alloc)?)
}

fn interval(alloc: Global, lower: Bound, upper: Bound) -> Result<Interval, Fail> {
    let range = Range {
        table: 0,
        index: 0,
        equal: Vals::new(alloc),
        lower,
        upper,
    };
    Ok(interval_of(alloc, &schema(alloc)?, &range)?)
}

fn whole(alloc: Global) -> Result<Interval, Fail> {
    interval(alloc, Bound::None, Bound::None)
}

fn n_of(alloc: Global, doc: &Doc) -> Result<i64, Memory> {
    match doc.fields.get(&Text::of(alloc, "n")?) {
        Some(Val::Int(n)) => Ok(*n),
        _ => Ok(-1),
    }
}

// A scan of at most so many rows at ts, against the order or not, and the n of what it is to give.
#[derive(Clone, Copy)]
struct Scan<'a> {
    ts: u64,
    desc: bool,
    rows: u32,
    ns: &'a [i64],
}

fn onward(ts: u64, rows: u32, ns: &[i64]) -> Scan<'_> {
    Scan {
        ts,
        desc: false,
        rows,
        ns,
    }
}

fn back(ts: u64, rows: u32, ns: &[i64]) -> Scan<'_> {
    Scan {
        ts,
        desc: true,
        rows,
        ns,
    }
}

#[derive(Drop)]
struct Stored<I> {
    docs: Versions,
    rows: I,
}

impl<I: RowIndex> Stored<I> {
    fn new(alloc: Global) -> Stored<I>
        ensures before { AllBefore 1 (I.entries result.rows) }
        ensures known { AreKnown (length result.docs.docs) (I.entries result.rows) }
    {
        Stored {
            docs: Versions::new(alloc),
            rows: I::new(alloc),
        }
    }

    // At ts the document of r comes, with this n.
    fn put(&mut self, alloc: Global, ts: u64, r: u32, n: i64) -> Result<(), Memory>
        requires before { AllBefore ts (I.entries self.old.rows) }
        requires known { AreKnown (length self.old.docs.docs) (I.entries self.old.rows) }
        ensures before { OnOk result (AllBefore (ts + 1) (I.entries self.new.rows)) }
        ensures known { OnOk result (AreKnown (length self.new.docs.docs) (I.entries self.new.rows)) }
    {
        let key = key(alloc, r, n)?;
        let doc = doc(alloc, r, n)?;
        self.docs.reserve(1)?;
        self.rows.reserve(1)?;
        let version = self.docs.push(doc);
        self.rows.insert(key, ts, Some(version));
        Ok(())
    }

    // At ts the document of r goes from one n to another.
    fn set(&mut self, alloc: Global, ts: u64, r: u32, from: i64, to: i64) -> Result<(), Memory>
        requires before { AllBefore ts (I.entries self.old.rows) }
        requires known { AreKnown (length self.old.docs.docs) (I.entries self.old.rows) }
        ensures before { OnOk result (AllBefore (ts + 1) (I.entries self.new.rows)) }
        ensures known { OnOk result (AreKnown (length self.new.docs.docs) (I.entries self.new.rows)) }
    {
        let gone = key(alloc, r, from)?;
        let key = key(alloc, r, to)?;
        if key == gone {
            return Err(Memory);
        }
        let doc = doc(alloc, r, to)?;
        self.docs.reserve(1)?;
        self.rows.reserve(2)?;
        let version = self.docs.push(doc);
        self.rows.insert(gone, ts, None);
        self.rows.insert(key, ts, Some(version));
        Ok(())
    }

    // The n of what a scan gives.
    fn found(&self, alloc: Global, i: &Interval, scan: &Scan) -> Result<Vec<i64>, Memory>
        requires { AreKnown (length self.now.docs.docs) (I.entries self.now.rows) }
    {
        let docs = self
            .rows
            .scan(alloc, &self.docs, scan.ts, i, scan.desc, scan.rows, 100)?;
        let mut found = Vec::new(alloc);
        for doc in &docs {
            found.push(n_of(alloc, doc)?)?;
        }
        Ok(found)
    }

    // The first of these scans that gives other documents.
    fn other(&self, alloc: Global, i: &Interval, scans: &[Scan]) -> Result<Option<usize>, Memory>
        requires { AreKnown (length self.now.docs.docs) (I.entries self.now.rows) }
    {
        for (k, scan) in scans.iter().enumerate() {
            if self.found(alloc, i, scan)?.as_slice() != scan.ns {
                return Ok(Some(k));
            }
        }
        Ok(None)
    }
}

// Three documents: at timestamp k that of request k with n = k.
fn three_rows(alloc: Global) -> Result<Stored<FlatRows>, Memory>
    ensures before { IfOk result (λ s. AllBefore 4 s.rows.entries) }
    ensures known { IfOk result (λ s. AreKnown (length s.docs.docs) s.rows.entries) }
{
    let mut stored = Stored::new(alloc);
    stored.put(alloc, 1, 1, 1)?;
    stored.put(alloc, 2, 2, 2)?;
    stored.put(alloc, 3, 3, 3)?;
    Ok(stored)
}

fn from_ten_to_twenty(alloc: Global) -> Result<Interval, Fail> {
    interval(
        alloc,
        Bound::Including(Val::Int(10)),
        Bound::Excluding(Val::Int(20)),
    )
}

#[test]
fn a_phantom_shows_from_its_timestamp_on(rt: HostRuntime) -> Result<(), Fail> {
    let alloc = rt.alloc();
    let i = from_ten_to_twenty(alloc)?;
    let mut stored = Stored::<FlatRows>::new(alloc);
    stored.put(alloc, 1, 1, 15)?;
    let scans = [onward(0, 9, &[]), onward(1, 9, &[15]), onward(2, 9, &[15])];
    assert_eq!(rt; stored.other(alloc, &i, &scans)?, None);
    Ok(())
}

// Rows of 20 at timestamp 1, and of 10 at timestamp 2.
fn two_ends(alloc: Global) -> Result<Stored<FlatRows>, Memory>
    ensures known { IfOk result (λ s. AreKnown (length s.docs.docs) s.rows.entries) }
{
    let mut stored = Stored::new(alloc);
    stored.put(alloc, 1, 1, 20)?;
    stored.put(alloc, 2, 2, 10)?;
    Ok(stored)
}

#[test]
fn a_row_at_the_upper_end_is_no_phantom(rt: HostRuntime) -> Result<(), Fail> {
    let alloc = rt.alloc();
    let i = from_ten_to_twenty(alloc)?;
    let scans = [onward(1, 9, &[]), onward(2, 9, &[10])];
    assert_eq!(rt; two_ends(alloc)?.other(alloc, &i, &scans)?, None);
    Ok(())
}

#[test]
fn a_row_at_the_upper_end_is_in_the_whole(rt: HostRuntime) -> Result<(), Fail> {
    let alloc = rt.alloc();
    let i = whole(alloc)?;
    let scans = [onward(2, 9, &[10, 20]), back(2, 9, &[20, 10])];
    assert_eq!(rt; two_ends(alloc)?.other(alloc, &i, &scans)?, None);
    Ok(())
}

// What scans give of the three rows, after the document of r went from n = r to another at 4.
fn moved(
    alloc: Global,
    r: u32,
    to: i64,
    i: &Interval,
    scans: &[Scan],
) -> Result<Option<usize>, Memory> {
    let mut stored = three_rows(alloc)?;
    stored.set(alloc, 4, r, i64::from(r), to)?;
    stored.other(alloc, i, scans)
}

#[test]
fn a_cut_scan_sees_a_row_that_went_behind_it(rt: HostRuntime) -> Result<(), Fail> {
    let alloc = rt.alloc();
    let scans = [
        onward(0, 2, &[]),
        onward(1, 2, &[1]),
        onward(2, 2, &[1, 2]),
        onward(3, 2, &[1, 2]),
        onward(4, 2, &[1, 2]),
        onward(3, 9, &[1, 2, 3]),
        onward(4, 9, &[1, 2, 5]),
        onward(4, 0, &[]),
    ];
    assert_eq!(rt; moved(alloc, 3, 5, &whole(alloc)?, &scans)?, None);
    Ok(())
}

#[test]
fn a_cut_scan_sees_a_row_that_left_it(rt: HostRuntime) -> Result<(), Fail> {
    let alloc = rt.alloc();
    let scans = [onward(3, 2, &[1, 2]), onward(4, 2, &[1, 3])];
    assert_eq!(rt; moved(alloc, 2, 5, &whole(alloc)?, &scans)?, None);
    Ok(())
}

#[test]
fn a_cut_scan_sees_a_row_that_came_before_it(rt: HostRuntime) -> Result<(), Fail> {
    let alloc = rt.alloc();
    let scans = [onward(3, 2, &[1, 2]), onward(4, 2, &[0, 1])];
    assert_eq!(rt; moved(alloc, 3, 0, &whole(alloc)?, &scans)?, None);
    Ok(())
}

#[test]
fn a_moved_row_leaves_the_interval(rt: HostRuntime) -> Result<(), Fail> {
    let alloc = rt.alloc();
    let i = interval(alloc, Bound::None, Bound::Excluding(Val::Int(3)))?;
    let scans = [
        onward(0, 9, &[]),
        onward(1, 9, &[1]),
        onward(2, 9, &[1, 2]),
        onward(3, 9, &[1, 2]),
        onward(4, 9, &[1]),
    ];
    assert_eq!(rt; moved(alloc, 2, 8, &i, &scans)?, None);
    Ok(())
}

#[test]
fn the_last_rows_come_first_against_the_order(rt: HostRuntime) -> Result<(), Fail> {
    let alloc = rt.alloc();
    let i = whole(alloc)?;
    let mut stored = three_rows(alloc)?;
    stored.put(alloc, 4, 4, 2)?;
    stored.put(alloc, 5, 5, 4)?;
    let scans = [
        back(0, 2, &[]),
        back(1, 2, &[1]),
        back(2, 2, &[2, 1]),
        back(3, 2, &[3, 2]),
        back(4, 2, &[3, 2]),
        back(5, 2, &[4, 3]),
    ];
    assert_eq!(rt; stored.other(alloc, &i, &scans)?, None);
    Ok(())
}
