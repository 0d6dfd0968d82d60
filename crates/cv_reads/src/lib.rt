//! The intervals that a run has read, and the first mark that touches one of them.
//!
//! A mark is a key that a write took away or put there, in one index of one table. So whether a write
//! touches an interval is whether one of its marks lies there.
#![tactic(auto)]

mod mark;
mod read_set;
#[cfg(test)]
mod tests;

pub use mark::Mark;
pub use read_set::ReadSet;
