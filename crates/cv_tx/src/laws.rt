//! What the pending writes of a run are to its puts.
ghost use Rattle.cv_tx.specs.PutsLaid.{PendingIsTrue, PendingIsSeen, PendingIsWritten};

use crate::tx::Tx;
use cv_values::crosses;

/// Let puts each tell the document that is there after those before it. Then their pending writes tell
/// the documents of the snapshot; a read sees the same of the snapshot with the writes as with the puts;
/// and what is written in the end are the writes of the run.
pub fn pending_writes_are_the_puts()
    ensures truth { PendingIsTrue }
    ensures seen { PendingIsSeen }
    ensures written { PendingIsWritten }
{}

/// Transactions may go to another thread.
pub fn transactions_cross(tx: &Tx) {
    crosses(tx);
}
