//! The query cache: kept answers of queries, of which a write takes out exactly those that it touches.
//!
//! The order of use is that of a bounded map from queries ([`QueryCache`]). Each entry has a number of its
//! own, and the intervals that its query read stand in a tree of ranges under that number. So the entries
//! that a write touches are found by one search of the tree for each of its marks.
#![tactic(auto)]

mod entries;
mod flags;
mod kept;
mod laws;
mod owners;
mod query_cache;
mod recent;
#[cfg(test)]
mod tests;

pub use laws::caches_cross;
pub use query_cache::QueryCache;
pub use recent::CACHE_ENTRIES;
