//! Laws of touches, kept replies and runs.
ghost use Rattle.std.specs.Prelude.{◌≡◌, ◌↔◌, true};
ghost use Rattle.fn_tree.specs.EntryViews.{reply_view};
ghost use Rattle.fn_tree.specs.declared.entry.Reply.{Reply as Replies};
ghost use Rattle.cv_store.specs.Examples.{AreWorkedTouches, AreWorkedCaches};
ghost use Rattle.cv_store.specs.FirstTouch.{by_key, by_place, first_touch, first_touch_places};
ghost use Rattle.cv_store.specs.HistoryLaws.{TouchesGoOn, KeptStays, KeptWithEntry, NotKeptIsNew};
ghost use Rattle.cv_store.specs.PlaceLaws.{TouchesGoByPlaces, NoneIsUntouched, TailsLeaveRuns};
ghost use Rattle.cv_store.specs.TouchLaws.{EntriesGoByMarks, HistoriesGoByMarks, AnswersTell};

use crate::proposal::Proposal;
use cv_values::{crosses, equal_where_same};
use fn_tree::Reply;

/// The first touch of an entry is that of its marks, in their order, and the first touch of a history
/// after a timestamp is that of the marks of the entries after it; and what a read set answers of marks
/// names the mark and the interval of that touch.
pub fn touches_go_by_marks()
    ensures entries { EntriesGoByMarks }
    ensures histories { HistoriesGoByMarks }
    ensures answers { AnswersTell }
{}

/// The first touch by key bytes is that by places, for ends and documents that the key order law speaks
/// of; and where there is none, no later entry touches an interval.
pub fn touch_by_places()
    ensures touches { TouchesGoByPlaces }
    ensures none { NoneIsUntouched }
{}

/// Where no mark of a tail touches what a query read at its start, the query's run at its end is the
/// same.
pub fn tails_leave_runs()
    ensures { TailsLeaveRuns }
{}

/// Nothing is touched after the end of a history. One entry more is looked at last. The touch of a front
/// is that of the whole, and where the whole has none, no front has one.
pub fn touches_go_on()
    ensures keys { TouchesGoOn by_key first_touch }
    ensures places { TouchesGoOn by_place first_touch_places }
{}

/// The kept reply of a front is that of the whole, and one entry more is looked at last. Where none is
/// kept, no entry is of that session's request.
pub fn kept_goes_on()
    ensures stays { KeptStays }
    ensures entry { KeptWithEntry }
    ensures new { NotKeptIsNew }
{}

/// Two replies are equal exactly where they stand for the same.
pub fn same_replies()
    ensures { (r : Replies) (s : Replies) → (⟦<Reply as PartialEq>⟧.eq r s ≡ true) ↔ (reply_view r ≡ reply_view s) }
{
    equal_where_same();
}

/// Touches, kept replies and kept answers, computed by the definitions on two entries and some answers.
pub fn worked_stores()
    ensures touches { AreWorkedTouches }
    ensures caches { AreWorkedCaches }
{}

/// Proposals may go to another thread.
pub fn proposals_cross(proposal: &Proposal) {
    crosses(proposal);
}
