//! What a store of a program's log means, and what a job over one does.
//!
//! A store stands for a history: the entries that it has seen. One call of a store is one atomic step:
//! what it has seen goes on, never back, and its answer is the one at the end of what it has then seen
//! ([`Store`]). A job runs one function over a store, one atomic step at a time ([`Job`]).
#![tactic(auto)]

mod conflict;
mod has_history;
mod job;
mod laws;
mod look;
mod proposal;
mod runs;
mod seen;
mod shares;
mod store;
mod tail;
mod turns;

pub use conflict::Conflict;
pub use fn_tree::{Call, Entry, Query, Reply};
pub use has_history::HasHistory;
pub use job::{Job, JobWent};
pub use laws::{
    kept_goes_on, proposals_cross, same_replies, tails_leave_runs, touch_by_places,
    touches_go_by_marks, touches_go_on, worked_stores,
};
pub use look::Look;
pub use proposal::{Begun, Ended, Proposal, ReadReq};
pub use runs::Runs;
pub use seen::{Meant, Seen};
pub use shares::Shares;
pub use store::Store;
pub use tail::Tail;
pub use turns::Turns;
