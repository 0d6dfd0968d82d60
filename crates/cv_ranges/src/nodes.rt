//! The nodes of what an owner has read.
ghost use Rattle.std.specs.Prelude.{◌≡◌, ◌⊎◌, ◌↔◌, ◌+◌, ◌^◌, ◌<◌, ◌≤◌, [], length, slice_get, Some, Contains, IfOk, OnOk};
ghost use Rattle.cv_ranges.specs.Held.{HasRead, KeepsOthers};
ghost use Rattle.range_tree.specs.Ranges.{Owned};

use cv_keys::Interval;
use cv_reads::ReadSet;
use cv_values::Memory;
use range_tree::{RangeNode, RangeTree, lists_tell};
use std::alloc::Global;
use std::marker::Model;

// The most nodes of a tree.
const MOST_NODES: usize = 1 << 62;

/// The nodes of what an owner has read, one for each different interval, to be put into a tree.
/// Contracts see the list of their intervals with the owner.
#[derive(Drop)]
pub struct RangeNodes {
    nodes: RangeTree,
}

impl Model for RangeNodes {
    ghost use Rattle.std.specs.Prelude.{List};
    ghost use Rattle.range_tree.specs.Ranges.{Owned as Ranged};

    ghost Value = { List Ranged };

    ghost view = { λ n. n.nodes };
}

impl RangeNodes {
    /// Makes the nodes of a read set for a tree, with a copy of each different interval. It answers
    /// `Memory` for want of memory, and where the tree's nodes with one for each read would be more
    /// than 2^62. It takes time proportional to the reads and the logarithm of their number.
    pub fn of(
        alloc: Global,
        tree: &RangeTree,
        reads: &ReadSet,
        owner: u64,
    ) -> Result<RangeNodes, Memory>
        ensures nodes { IfOk result (λ nodes. HasRead nodes owner reads.now) }
        ensures others { IfOk result (λ nodes. KeepsOthers owner [] nodes) }
        ensures fits { OnOk result (length tree.now + length reads.now ≤ 2 ^ 62) }
    {
        let Some(together) = tree.len().checked_add(reads.len()) else {
            return Err(Memory);
        };
        if together > MOST_NODES {
            return Err(Memory);
        }
        lists_tell();
        let mut nodes = RangeTree::new();
        for k in 0..reads.len() {
            add(alloc, &mut nodes, interval_at(reads, k), owner)?;
        }
        Ok(RangeNodes { nodes })
    }
}

fn interval_at(reads: &ReadSet, k: usize) -> &Interval
    requires { k < length reads.now }
    ensures { slice_get reads.now k ≡ Some result.now }
{
    match reads.at(k) {
        Some(interval) => interval,
        None => unreachable!(),
    }
}

// Puts a node with a copy of the interval in, unless one of an equal interval is there.
fn add(alloc: Global, nodes: &mut RangeTree, interval: &Interval, owner: u64) -> Result<(), Memory>
    requires { length nodes.old < 2 ^ 62 }
    ensures members { OnOk result ((x : Owned) → (Contains nodes.new x ↔ (((interval.now, owner) ≡ x) ⊎ Contains nodes.old x))) }
    ensures length { OnOk result (length nodes.new ≤ length nodes.old + 1) }
{
    lists_tell();
    let node = match nodes.remove(interval, owner) {
        Some(node) => node,
        None => node_of(alloc, interval, owner)?,
    };
    nodes.insert(node);
    Ok(())
}

fn node_of(alloc: Global, interval: &Interval, owner: u64) -> Result<RangeNode, Memory>
    ensures { IfOk result (λ n. n ≡ (interval.now, owner)) }
{
    match RangeNode::new(alloc, interval.copy(alloc)?, owner) {
        Ok(node) => Ok(node),
        Err(_) => Err(Memory),
    }
}

/// Puts the nodes of a read set into a tree that has none of their owner. It takes no memory, and time
/// proportional to the reads and the logarithm of the number of nodes.
pub fn put(tree: &mut RangeTree, nodes: RangeNodes, reads: &ReadSet, owner: u64)
    requires nodes { HasRead nodes owner reads.now }
    requires apart { HasRead tree.old owner [] }
    requires fits { length tree.old + length reads.now ≤ 2 ^ 62 }
    ensures has { HasRead tree.new owner reads.now }
    ensures others { KeepsOthers owner tree.old tree.new }
{
    lists_tell();
    let RangeNodes { mut nodes } = nodes;
    for k in 0..reads.len() {
        if let Some(node) = nodes.remove(interval_at(reads, k), owner) {
            tree.insert(node);
        }
    }
}

/// Takes the nodes of what an owner has read out of a tree, and frees them. It takes no memory, and
/// time proportional to the reads and the logarithm of the number of nodes.
pub fn take_out(tree: &mut RangeTree, reads: &ReadSet, owner: u64)
    requires { HasRead tree.old owner reads.now }
    ensures gone { HasRead tree.new owner [] }
    ensures others { KeepsOthers owner tree.old tree.new }
    ensures length { length tree.new ≤ length tree.old }
{
    lists_tell();
    for k in 0..reads.len() {
        tree.remove(interval_at(reads, k), owner);
    }
}
