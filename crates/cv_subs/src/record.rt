//! One query of a connection.
ghost use Rattle.std.specs.Prelude.{◌≡◌, ◌≢◌, ◌↔◌, Some, IsTrue, option_map};
ghost use Rattle.cv_subs.specs.Subs.{answered};
ghost use Rattle.cv_subs.specs.Views.{shown};
ghost use Rattle.fn_tree.specs.EntryViews.{reply_view};

use cv_reads::ReadSet;
use cv_store::same_replies;
use fn_tree::{Query, Reply};

/// A query under its number, with the result of its last run, what that run read, and whether it is
/// stale. The tree finds a node by its interval, so what was read is kept to take its nodes out.
#[derive(Drop)]
pub struct Record {
    pub id: u32,
    pub query: Query,
    pub result: Option<Reply>,
    pub reads: ReadSet,
    pub stale: bool,
}

impl Record {
    /// Takes the reply and the reads of a run, and tells whether the reply isn't the one before.
    pub fn answer(&mut self, reply: Reply, reads: ReadSet) -> bool
        ensures record { shown self.new ≡ (self.old.id, answered (reply_view reply) reads (shown self.old).1) }
        ensures news { IsTrue result ↔ (option_map reply_view self.old.result ≢ Some (reply_view reply)) }
    {
        let news = is_news(&self.result, &reply);
        self.result = Some(reply);
        self.reads = reads;
        self.stale = false;
        news
    }
}

// Whether a reply isn't the one before.
fn is_news(before: &Option<Reply>, reply: &Reply) -> bool
    ensures { IsTrue result ↔ (option_map reply_view before.now ≢ Some (reply_view reply.now)) }
{
    same_replies();
    match before {
        None => true,
        Some(before) => before != reply,
    }
}
