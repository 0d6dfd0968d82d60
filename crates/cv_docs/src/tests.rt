use crate::{IndexEntry, Taken, Versions};
use cv_keys::{Key, key_of};
use cv_values::{Doc, DocId, Fields, Memory, Text, Val};
use std::alloc::Global;
use std::test::Fail;

// The document of request r with the field n, whose object has 2 + 1 + 1 + 9 = 13 size units.
fn doc(alloc: Global, r: u32, n: i64) -> Result<Doc, Memory> {
    let mut fields = Fields::new(alloc);
    drop(fields.insert(Text::of(alloc, "n")?, Val::Int(n))?);
    Ok(Doc {
        id: DocId {
            table: 0,
            session: 9,
            request: r,
            ordinal: 0,
        },
        creation: 0,
        fields,
    })
}

#[test]
fn versions_stand_under_their_numbers(rt: HostRuntime) -> Result<(), Fail> {
    let alloc = rt.alloc();
    let mut docs = Versions::new(alloc);
    assert!(rt; docs.get(0).is_none());
    docs.reserve(1)?;
    assert_eq!(rt; docs.push(doc(alloc, 1, 7)?), 0);
    assert_eq!(rt; docs.get(0), Some(&doc(alloc, 1, 7)?));
    assert_eq!(rt; docs.get(1), None);
    docs.reserve(1)?;
    assert_eq!(rt; docs.push(doc(alloc, 2, 8)?), 1);
    assert_eq!(rt; docs.get(0), Some(&doc(alloc, 1, 7)?));
    assert_eq!(rt; docs.get(1), Some(&doc(alloc, 2, 8)?));
    Ok(())
}

// How many of three documents of 13 size units each are taken.
fn taken_of(alloc: Global, rows: u32, size: u64) -> Result<usize, Memory> {
    let mut taken = Taken::new(alloc, rows, size);
    for r in 1..4u32 {
        if !taken.is_full() {
            taken.take(alloc, &doc(alloc, r, 0)?)?;
        }
    }
    Ok(taken.into_vec().len())
}

#[test]
fn a_scan_stops_by_rows_or_by_size(rt: HostRuntime) -> Result<(), Fail> {
    let alloc = rt.alloc();
    assert_eq!(rt; taken_of(alloc, 0, 100)?, 0);
    assert_eq!(rt; taken_of(alloc, 2, 100)?, 2);
    assert_eq!(rt; taken_of(alloc, 9, 100)?, 3);
    assert_eq!(rt; taken_of(alloc, 9, 26)?, 3);
    assert_eq!(rt; taken_of(alloc, 9, 25)?, 2);
    assert_eq!(rt; taken_of(alloc, 9, 0)?, 1);
    assert_eq!(rt; taken_of(alloc, 9, u64::MAX)?, 3);
    Ok(())
}

fn entry(key: Key, ts: u64) -> IndexEntry {
    IndexEntry {
        key,
        ts,
        version: None,
    }
}

#[test]
fn the_next_entry_says_which_is_newest(rt: HostRuntime) -> Result<(), Fail> {
    let alloc = rt.alloc();
    let first = entry(key_of(alloc, &Val::Int(1))?, 3);
    assert!(rt; first.is_newest(3, None) && !first.is_newest(2, None));
    let later = entry(key_of(alloc, &Val::Int(1))?, 5);
    assert!(rt; first.is_newest(4, Some(&later)) && !first.is_newest(5, Some(&later)));
    let other = entry(key_of(alloc, &Val::Int(2))?, 5);
    assert!(rt; first.is_newest(5, Some(&other)));
    Ok(())
}
