//! Rows taken from entries in order, up to where the scan stops.
ghost use Rattle.std.specs.Prelude.{◌≡◌, ◌+◌, ◌<◌, List, length, option_map, reverse, slice_get, OnOk};
ghost use Rattle.std.specs.List.{cons_option};
ghost use Rattle.cv_values.specs.declared.doc.Doc.{Doc as Document};
ghost use Rattle.cv_docs.specs.Cut.{ending};
ghost use Rattle.cv_docs.specs.Entries.{IsInOrder};
ghost use Rattle.cv_flat.specs.Parts.{row_of, rows_of};

use cv_docs::{IndexEntry, Taken, Versions};
use cv_values::Memory;
use std::alloc::Global;

/// Takes the rows of entries in their order.
pub fn take_up(
    alloc: Global,
    docs: &Versions,
    ts: u64,
    entries: &[IndexEntry],
    taken: &mut Taken,
) -> Result<(), Memory>
    requires { IsInOrder entries.now }
    ensures { OnOk result (taken.new.docs ≡ ending taken.old (rows_of docs.now.docs ts entries.now)) }
{
    for (at, entry) in entries.iter().enumerate() {
        if taken.is_full() {
            break;
        }
        take_row(alloc, docs, ts, entry, behind(entries, at), taken)?;
    }
    Ok(())
}

/// Takes the rows of entries against their order.
pub fn take_down(
    alloc: Global,
    docs: &Versions,
    ts: u64,
    entries: &[IndexEntry],
    taken: &mut Taken,
) -> Result<(), Memory>
    requires { IsInOrder entries.now }
    ensures { OnOk result (taken.new.docs ≡ ending taken.old (reverse (rows_of docs.now.docs ts entries.now))) }
{
    for at in (0..entries.len()).rev() {
        if taken.is_full() {
            break;
        }
        take_row(alloc, docs, ts, &entries[at], behind(entries, at), taken)?;
    }
    Ok(())
}

// The entry right behind a place, if there is one.
fn behind(entries: &[IndexEntry], at: usize) -> Option<&IndexEntry>
    requires { at < length entries.now }
    ensures { option_map (λ e. e.now) result ≡ slice_get entries.now (at + 1) }
{
    entries.get(at + 1)
}

// Takes the document that an entry shows, if any, where `next` is right behind it.
fn take_row(
    alloc: Global,
    docs: &Versions,
    ts: u64,
    entry: &IndexEntry,
    next: Option<&IndexEntry>,
    taken: &mut Taken,
) -> Result<(), Memory>
    requires { 0 < taken.old.rows }
    ensures { OnOk result ((ds : List Document)
        → ending taken.new ds
        ≡ ending taken.old (cons_option (row_of docs.now.docs ts entry.now (option_map (λ e. e.now) next.entry)) ds)) }
{
    if !entry.is_newest(ts, next) {
        return Ok(());
    }
    let Some(number) = entry.version else {
        return Ok(());
    };
    match docs.get(number) {
        None => Ok(()),
        Some(doc) => taken.take(alloc, doc),
    }
}
