//! Intervals of keys with their owners, in a search tree that finds those that contain a key.
//!
//! The tree is an AVL tree: the heights of two siblings differ by at most one. Its order is that of
//! (table, index, `lo`, `hi`, owner). Links, height and greatest end stand in the nodes. A node is
//! made beforehand, so no call of the tree takes memory. The greatest end of a subtree is the
//! greatest (table, index, `hi`) in it. It is a link to the node that has it, and no key is copied.
//!
//! Contracts see a tree as the list of its intervals with their owners, in the tree's order.
#![tactic(auto)]

mod balance;
mod change;
mod laws;
mod nodes;
mod order;
mod search;
#[cfg(test)]
mod tests;
mod tree;
mod visit;

pub use laws::{lists_tell, nodes_and_trees_cross};
pub use nodes::Steps;
pub use tree::{RangeNode, RangeTree};
pub use visit::Visit;
