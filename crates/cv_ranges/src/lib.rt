//! The intervals that owners have read, in a tree of ranges.
//!
//! An owner reads the intervals of a read set. They stand in a tree under its number, each different
//! one once, so that one search of the tree for a mark finds the owners whose reads the mark touches.
//! The nodes are made before they are put, so that a change of the tree takes no memory. The tree finds
//! a node by its interval: who takes an owner's nodes out keeps its read set for that.
#![tactic(auto)]

mod hit;
mod laws;
mod nodes;
#[cfg(test)]
mod tests;

pub use hit::{Hit, hit_touched};
pub use laws::ranges_tell;
pub use nodes::{RangeNodes, put, take_out};
