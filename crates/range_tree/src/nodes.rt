//! The nodes and the pointers to them. Outside of this module a node that stands in a tree is seen
//! through `lend` alone.
mod lending;
mod memory;
mod raw_box;
mod steps;
mod subtree;

pub use lending::{Lent, lend};
pub use memory::{Link, Node, Nodes};
pub use steps::Steps;
pub use subtree::{Subtree, join};
