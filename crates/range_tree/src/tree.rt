//! The tree, seen as the list of its intervals with their owners.
ghost use Rattle.std.specs.Prelude.{◌≡◌, ◌-◌, ◌^◌, ◌<◌, ◌≤◌, [], length, IfOk, IfErr, MatchOption, Contains};
ghost use Rattle.range_tree.specs.Ranges.{inserted, removed, IsAbsent, IsInOrder, owners_at, Takes, IsFew};

use crate::change::{free_all, insert, remove};
use crate::nodes::{Node, Steps, Subtree};
use crate::visit::Visit;
use cv_keys::{Interval, Key};
use std::alloc::Global;
use std::marker::{Brand, Model};
use std::mem;
use std::sync::ledger::{Blank, Ledger};

/// An interval with its owner, in memory of its own, that a tree can take in.
#[derive(Drop)]
pub struct RangeNode {
    node: Box<Node>,
}

impl Model for RangeNode {
    ghost use Rattle.range_tree.specs.Ranges.{Owned};
    ghost use Rattle.range_tree.specs.Avl.{owned};

    ghost Value = { Owned };

    ghost view = { λ r. owned r.node.value };
}

impl RangeNode {
    /// Takes the interval over without a copy. It comes back for want of memory.
    pub fn new(alloc: Global, interval: Interval, owner: u64) -> Result<RangeNode, Interval>
        ensures ok { IfOk result (λ r. r ≡ (interval, owner)) }
        ensures refused { IfErr result (λ i. i ≡ interval) }
    {
        match Box::new(alloc, Node::new(alloc, interval, owner)) {
            Ok(node) => Ok(RangeNode { node }),
            Err(refused) => Err(refused.value.interval),
        }
    }
}

/// Intervals with their owners, at most one node for an interval and an owner. Dropping it frees its
/// nodes.
pub struct RangeTree {
    tree: Subtree,
    len: usize,
}

impl Model for RangeTree {
    ghost use Rattle.std.specs.Prelude.{◌≡◌, ◌^◌, ◌≤◌, List, length};
    ghost use Rattle.range_tree.specs.Ranges.{Owned, IsInOrder};
    ghost use Rattle.range_tree.specs.Avl.{listed};
    ghost use Rattle.range_tree.specs.Shape.{IsBalanced};

    ghost Value = { List Owned };

    ghost view = { λ t. listed t.tree };

    ghost invariant = { λ t. IsBalanced t.tree × IsInOrder (listed t.tree)
        × (t.len ≡ length (listed t.tree)) × (t.len ≤ 2 ^ 62) };
}

impl RangeTree {
    /// The tree without a node.
    pub fn new() -> RangeTree
        ensures { result ≡ [] }
    {
        RangeTree {
            tree: Subtree::empty(),
            len: 0,
        }
    }

    /// The number of nodes.
    pub fn len(&self) -> usize
        ensures length { result ≡ length self.now }
        ensures sorted { IsInOrder self.now }
    {
        self.len
    }

    /// Puts a node at its place, in time proportional to the tree's height.
    pub fn insert(&mut self, node: RangeNode)
        requires absent { IsAbsent node self.old }
        requires fits { length self.old < 2 ^ 62 }
        ensures { self.new ≡ inserted node self.old }
    {
        let tree = mem::replace(&mut self.tree, Subtree::empty());
        let tree = insert(tree, node.node);
        let empty = mem::replace(&mut self.tree, tree);
        empty.end();
        self.len += 1;
    }

    /// Takes the node of an interval and an owner out and hands it back, in time proportional to the
    /// tree's height. Without such a node nothing changes.
    pub fn remove(&mut self, interval: &Interval, owner: u64) -> Option<RangeNode>
        ensures list { self.new ≡ removed (interval.now, owner) self.old }
        ensures gone { IsAbsent (interval.now, owner) self.new }
        ensures node { MatchOption result
            (IsAbsent (interval.now, owner) self.old)
            (λ n. (n ≡ (interval.now, owner)) × Contains self.old n) }
    {
        let tree = mem::replace(&mut self.tree, Subtree::empty());
        let (tree, out) = remove(tree, interval, owner);
        let empty = mem::replace(&mut self.tree, tree);
        empty.end();
        match out {
            None => None,
            Some(node) => {
                self.len -= 1;
                Some(RangeNode { node })
            }
        }
    }

    /// Hits the owner of each interval of the index that contains the key, in the tree's order. Each
    /// node that is looked at is one step.
    pub fn stab<V: Visit, L: Ledger>(
        &self,
        table: u32,
        index: u32,
        key: &Key,
        visit: &mut V,
        steps: &mut Steps<L>,
    )
        ensures hits { Takes V.has_seen visit.old (owners_at table index key.now self.now) visit.new }
        ensures rises { steps.old ≤ steps.new }
        ensures bound { let k = length (owners_at table index key.now self.now) in
            IsFew (length self.now) k (steps.new - steps.old) }
    {
        self.tree.search(table, index, key, visit, steps);
    }

    /// `stab` where nobody asks for the steps.
    pub fn hit_all<V: Visit>(&self, table: u32, index: u32, key: &Key, visit: &mut V)
        ensures { Takes V.has_seen visit.old (owners_at table index key.now self.now) visit.new }
    {
        stab_on::<V, Brand>(self, table, index, key, visit, Blank::new(1));
    }
}

// A stab whose steps go onto a blank ledger.
fn stab_on<V: Visit, L: Ledger>(
    tree: &RangeTree,
    table: u32,
    index: u32,
    key: &Key,
    visit: &mut V,
    blank: Blank,
)
    requires name { blank.name ≡ L.name }
    requires parts { blank.parts ≡ L.parts }
    requires some { 0 < blank.parts }
    ensures { Takes V.has_seen visit.old (owners_at table index key.now tree.now) visit.new }
{
    let mut steps = Steps::<L>::new(blank);
    tree.stab(table, index, key, visit, &mut steps);
}

impl Drop for RangeTree {
    fn drop(self) {
        let RangeTree { tree, len: _ } = self;
        free_all(tree);
    }
}
