//! What holds of the rows at old timestamps.
ghost use Rattle.cv_docs.specs.History.{LaterInsertsChangeNothing, InsertsSetTheirKey, NewestGoByInserts, InsertsKeepOrder, RowsGoByNewest, VersionsStayKnown, LaterInsertsAreAllowed};

use crate::versions::Versions;
use cv_values::crosses;

/// Old rows stay as they were, and a scan reads what the inserts up to its timestamp have set.
///
/// - Inserts at later timestamps, and documents with later numbers, change no scan.
/// - The rows at a timestamp are the documents of the newest version of each key up to it.
/// - After a list of inserts from nothing, the newest version up to a timestamp of each key is the one
///   that the inserts up to it have set, one after the other.
/// - An insert up to a timestamp sets its key among the newest versions up to it, and no other key.
/// - An insert keeps the entries in order, and their versions known.
/// - At a timestamp that is later than all entries any key may be set, and then any other key.
pub fn old_rows_stay()
    ensures later { LaterInsertsChangeNothing }
    ensures rows { RowsGoByNewest }
    ensures newest { NewestGoByInserts }
    ensures sets { InsertsSetTheirKey }
    ensures order { InsertsKeepOrder }
    ensures known { VersionsStayKnown }
    ensures allowed { LaterInsertsAreAllowed }
{}

/// Versions may go to another thread.
pub fn versions_cross(versions: &Versions) {
    crosses(versions);
}
