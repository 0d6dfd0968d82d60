//! The queries of one connection, and which of them are stale.
//!
//! A query has a number, the result of its last run and what that run read. It is stale from the
//! moment when it is added, or when a mark touches what it read, until it is given a result. What
//! the queries read stands in one tree under their numbers, so that marks that touch none of them cost
//! a search of the tree each and nothing else.
#![tactic(auto)]

mod laws;
mod place;
mod record;
mod records;
mod subs;
#[cfg(test)]
mod tests;

pub use laws::subs_tell;
pub use records::MOST_QUERIES;
pub use subs::Subs;
