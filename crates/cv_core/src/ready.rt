ghost use Rattle.std.specs.Prelude.{◌≡◌};

use crate::change::Change;
use cv_reads::Mark;
use cv_values::Doc;
use fn_tree::Reply;

/// What a core has made ready for the commit of one proposal: all room, the marks of its entry and
/// copies of what the rows take over, or the reply that its session's request has already. Only
/// [`Core::prepare`](crate::Core::prepare) makes one.
#[derive(Drop)]
pub struct Ready {
    prepared: Prepared,
}

#[derive(Drop)]
pub(crate) enum Prepared {
    Known { ts: u64, reply: Reply },
    Fresh(Room),
}

// What goes into the log and the rows: the marks of the entry, the changes of the rows, and copies of
// the new documents.
#[derive(Drop)]
pub(crate) struct Room {
    pub marks: Vec<Mark>,
    pub changes: Vec<Change>,
    pub docs: Vec<Doc>,
}

impl Ready {
    pub(crate) fn new(prepared: Prepared) -> Ready
        ensures { result.prepared ≡ prepared }
    {
        Ready { prepared }
    }

    pub(crate) fn into_prepared(self) -> Prepared
        ensures { result ≡ self.prepared }
    {
        let Ready { prepared } = self;
        prepared
    }
}
