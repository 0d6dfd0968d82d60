//! Insertion and removal. Each calls itself as deep as the tree is high.
ghost use Rattle.std.specs.Prelude.{◌≡◌, ◌+◌, ◌^◌, ◌<◌, ◌≤◌, IfSome, is_some};
ghost use Rattle.range_tree.specs.Shape.{height, IsBalanced};
ghost use Rattle.range_tree.specs.Avl.{owned, listed};
ghost use Rattle.range_tree.specs.Ranges.{IsInOrder, inserted, removed, is_there};

use crate::balance::{balance, merge};
use crate::nodes::{Node, Subtree, join};
use crate::order::owned_order;
use cv_keys::Interval;
use std::cmp::Ordering;

/// Puts a node at its place.
pub fn insert(tree: Subtree, node: Box<Node>) -> Subtree
    requires sorted { IsInOrder (listed tree) }
    requires balanced { IsBalanced tree }
    requires fits { height tree + 1 < 2 ^ 64 }
    ensures listed { listed result ≡ inserted (owned node.value) (listed tree) }
    ensures balanced { IsBalanced result }
    ensures height { (height tree ≤ height result) × (height result ≤ height tree + 1) }
{
    let Some((l, top, r)) = tree.split() else {
        return join(node, Subtree::empty(), Subtree::empty());
    };
    match owned_order(&node.interval, node.owner, &top.interval, top.owner) {
        Ordering::Less => balance(top, insert(l, node), r),
        _ => balance(top, l, insert(r, node)),
    }
}

/// Takes the node of an interval and an owner out, if it is there.
pub fn remove(tree: Subtree, i: &Interval, owner: u64) -> (Subtree, Option<Box<Node>>)
    requires sorted { IsInOrder (listed tree) }
    requires balanced { IsBalanced tree }
    requires fits { height tree + 1 < 2 ^ 64 }
    ensures listed { listed result.0 ≡ removed (i.now, owner) (listed tree) }
    ensures node { IfSome result.1 (λ n. owned n.value ≡ (i.now, owner)) }
    ensures there { is_some result.1 ≡ is_there (i.now, owner) (listed tree) }
    ensures balanced { IsBalanced result.0 }
    ensures height { (height result.0 ≤ height tree) × (height tree ≤ height result.0 + 1) }
{
    let Some((l, top, r)) = tree.split() else {
        return (Subtree::empty(), None);
    };
    match owned_order(i, owner, &top.interval, top.owner) {
        Ordering::Less => {
            let (l, out) = remove(l, i, owner);
            (balance(top, l, r), out)
        }
        Ordering::Greater => {
            let (r, out) = remove(r, i, owner);
            (balance(top, l, r), out)
        }
        Ordering::Equal => (merge(l, r), Some(top)),
    }
}

/// Frees the nodes.
pub fn free_all(tree: Subtree) {
    if let Some((l, top, r)) = tree.split() {
        drop(top);
        free_all(l);
        free_all(r);
    }
}
