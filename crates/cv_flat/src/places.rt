//! Places in a list of entries in order, found by bisection.
ghost use Rattle.std.specs.Prelude.{◌≡◌, ◌≤◌, length};
ghost use Rattle.std.specs.Ordering.{is_lt, is_le};
ghost use Rattle.cv_values.specs.Order.{text_cmp};
ghost use Rattle.cv_docs.specs.Entries.{IsInOrder};
ghost use Rattle.cv_flat.specs.Parts.{passing, entries_in};

use cv_docs::IndexEntry;
use cv_keys::{Interval, Key};

/// The entries whose keys lie in an interval.
pub fn entries_in<'a>(entries: &'a [IndexEntry], i: &Interval) -> &'a [IndexEntry]
    requires { IsInOrder entries.now }
    ensures { result.now ≡ entries_in i.now entries.now }
{
    let first = first_from(entries, &i.lo);
    let end = first_from(entries, &i.hi).max(first);
    &entries[first..end]
}

/// The place of the first entry whose key isn't below this one.
pub fn first_from(entries: &[IndexEntry], key: &Key) -> usize
    requires { IsInOrder entries.now }
    ensures within { result ≤ length entries.now }
    ensures place { result ≡ passing (λ e. is_lt (text_cmp e.key key.now)) entries.now }
{
    entries.partition_point(|entry| entry.key < *key)
}

/// The place of the first entry whose key is above this one.
pub fn first_above(entries: &[IndexEntry], key: &Key) -> usize
    requires { IsInOrder entries.now }
    ensures within { result ≤ length entries.now }
    ensures place { result ≡ passing (λ e. is_le (text_cmp e.key key.now)) entries.now }
{
    entries.partition_point(|entry| entry.key <= *key)
}
