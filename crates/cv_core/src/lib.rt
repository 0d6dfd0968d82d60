//! The core of the database: a program's log with the documents of all timestamps.
//!
//! A commit is checked against the entries after its snapshot and appended in one step that takes no
//! memory: `prepare` has made all room before ([`Core::prepare`], [`Core::commit`]). The log of each core
//! is legal, a run of one thread, though each proposal was run on an older snapshot. The idea is that of
//! the [article How Convex Works](https://stack.convex.dev/how-convex-works).
#![tactic(auto)]

mod change;
mod has_history;
mod laws;
mod marks;
mod ready;
mod rows;
mod solo;
mod table_rows;
mod tail;
#[cfg(test)]
mod tests;
mod the_core;

pub use laws::cores_cross;
pub use ready::Ready;
pub use solo::SoloStore;
pub use the_core::Core;
