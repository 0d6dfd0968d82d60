//! What holds of the types, whatever is called.
ghost use Rattle.range_tree.specs.Members.{InsertedIsThere, InsertedKeepsOthers, InsertedAddsNoOther};
ghost use Rattle.range_tree.specs.Members.{RemovedKeepsOthers, RemovedAddsNone, OwnersAreHit, NoOthersAreHit};

use crate::tree::{RangeNode, RangeTree};
use cv_values::crosses;

/// Nodes and trees may go to another thread.
pub fn nodes_and_trees_cross(node: &RangeNode, tree: &RangeTree) {
    crosses(node);
    crosses(tree);
}

/// Which intervals the list of a tree has behind a change, and whose owners a key hits: what callers of
/// [`RangeTree::insert`], [`RangeTree::remove`] and [`RangeTree::stab`] need to know of the lists in their
/// clauses.
pub fn lists_tell()
    ensures inserted { InsertedIsThere }
    ensures stays { InsertedKeepsOthers }
    ensures alone { InsertedAddsNoOther }
    ensures left { RemovedKeepsOthers }
    ensures fewer { RemovedAddsNone }
    ensures hit { OwnersAreHit }
    ensures spared { NoOthersAreHit }
{}
