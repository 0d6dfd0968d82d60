//! Numbered documents, and what an index of their versions is.
//!
//! A version of a document is kept under a number and never changes ([`Versions`]). An index holds an
//! entry for each change of what stands at a key: from a timestamp on it is a version, or nothing
//! ([`IndexEntry`]). So the rows at any timestamp are there for good, and a scan reads those of the
//! timestamp that it is given ([`RowIndex`]).
#![tactic(auto)]

mod entry;
mod laws;
mod row_index;
mod taken;
#[cfg(test)]
mod tests;
mod versions;

pub use entry::IndexEntry;
pub use laws::{old_rows_stay, versions_cross};
pub use row_index::RowIndex;
pub use taken::Taken;
pub use versions::Versions;
