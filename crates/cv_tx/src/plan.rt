//! The store read that a run's read needs.
ghost use Rattle.std.specs.Prelude.{◌≡◌, ◌+◌, IfOk};
ghost use Rattle.cv_tx.specs.Plans.{most_rows, quota_rows, rows_of, size_of_rows, removed_rows, removed_size};

use crate::size::{added, doc_size};
use cv_keys::Write;
use cv_values::Memory;
use fn_tree::{Left, READ_ROWS};

fn quota_rows(left: &Left) -> u64
    ensures { result ≡ quota_rows left.now }
{
    left.cost
        .saturating_add(1)
        .min(left.rows.saturating_add(1))
        .min(READ_ROWS + 1)
}

/// How many rows a read consumes at the most.
fn most_rows(limit: Option<u32>, left: &Left) -> u64
    ensures { result ≡ most_rows limit left.now }
{
    match limit {
        None => quota_rows(left),
        Some(limit) => u64::from(limit).min(quota_rows(left)),
    }
}

/// The rows of a table that the pending writes may take away: how many there are, and their size.
#[derive(Clone, Copy)]
struct Removed {
    rows: u64,
    size: u64,
}

fn count_removed(table: u32, writes: &[Write]) -> Result<Removed, Memory>
    ensures rows { IfOk result (λ r. r.rows ≡ removed_rows table writes.now) }
    ensures size { IfOk result (λ r. r.size ≡ removed_size table writes.now) }
{
    let mut removed = Removed { rows: 0, size: 0 };
    for w in writes {
        if u32::from(w.id.table) == table {
            removed = with_old(removed, w)?;
        }
    }
    Ok(removed)
}

fn with_old(removed: Removed, w: &Write) -> Result<Removed, Memory>
    ensures rows { IfOk result (λ r. r.rows ≡ removed.rows + rows_of w.now.old) }
    ensures size { IfOk result (λ r. r.size ≡ removed.size + size_of_rows w.now.old) }
{
    match &w.old {
        None => Ok(removed),
        Some(old) => Ok(Removed {
            rows: added(removed.rows, 1)?,
            size: added(removed.size, doc_size(old)?)?,
        }),
    }
}

/// How many rows of the store, and how many size units, a read can need.
#[derive(Clone, Copy)]
pub(crate) struct Need {
    pub rows: u32,
    pub size: u64,
}

pub(crate) fn rows_needed(
    writes: &[Write],
    table: u32,
    limit: Option<u32>,
    left: &Left,
) -> Result<Need, Memory>
    ensures rows { IfOk result (λ n. n.rows ≡ most_rows limit left.now + removed_rows table writes.now) }
    ensures size { IfOk result (λ n. n.size ≡ left.now.size + removed_size table writes.now) }
{
    let removed = count_removed(table, writes)?;
    let rows = added(most_rows(limit, left), removed.rows)?;
    Ok(Need {
        rows: u32::try_from(rows).map_err(|_| Memory)?,
        size: added(left.size, removed.size)?,
    })
}
