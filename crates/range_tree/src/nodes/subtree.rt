//! A tree by value: its nodes, and where the topmost one lies.
ghost use Rattle.std.specs.Prelude.{◌≡◌, suc, ◌+◌, ◌^◌, ◌<◌, ◌≤◌, max, ◌++◌, ◌∷◌, Some, MatchOption, IfSome};
ghost use denote.RawPtr.{Ptr};
ghost use Rattle.range_tree.specs.declared.nodes.memory.Node.{Node};
ghost use Rattle.range_tree.specs.Tree.{Leaf, Fork, root_of};
ghost use Rattle.range_tree.specs.Best.{best_of, LeadsToBest};
ghost use Rattle.range_tree.specs.Ranges.{Takes};
ghost use Rattle.range_tree.specs.Search.{interval_of, found_owners, shown_nodes, IsCutAt};
ghost use Rattle.range_tree.specs.Shape.{height, IsBalanced};
ghost use Rattle.range_tree.specs.Avl.{owned, listed, IsOver, SplitsTo};

use crate::nodes::memory::{Link, Node, Nodes, attach, detach, no_nodes};
use crate::nodes::raw_box::RawBox;
use crate::nodes::steps::Steps;
use crate::order::ends_sooner;
use crate::search::search;
use crate::visit::Visit;
use cv_keys::{Interval, Key};
use std::marker::Model;
use std::sync::ledger::Ledger;

/// A tree whose links, heights and greatest ends are right. It isn't dropped.
pub struct Subtree {
    root: Option<Link>,
    nodes: Nodes,
}

impl Model for Subtree {
    ghost use Rattle.range_tree.specs.Tree.{Tree, tree_coded};

    ghost Value = { Tree };

    ghost coded = { tree_coded };

    ghost use Rattle.range_tree.specs.Best.{LeadsTo, IsLinked};

    ghost view = { λ p. p.nodes.tree };

    ghost invariant = { λ p. LeadsTo p.root p.nodes.tree × IsLinked p.nodes.tree };
}

impl Subtree {
    /// The tree of no nodes.
    pub fn empty() -> Subtree
        ensures { result ≡ Leaf }
    {
        Subtree {
            root: None,
            nodes: no_nodes(),
        }
    }

    /// Lets a tree of no nodes go.
    pub fn end(self)
        requires { self ≡ Leaf }
    {
        let Subtree { root: _, nodes } = self;
        nodes.end();
    }

    /// The height, which the topmost node holds.
    pub fn height(&self) -> u64
        ensures { result ≡ height self.now }
    {
        match self.root {
            None => 0,
            Some(at) => self.nodes.get(at).height,
        }
    }

    /// Where the node of the greatest end lies, and its interval.
    fn farthest(&self) -> Option<(Link, &Interval)>
        ensures { MatchOption result (self.now ≡ Leaf) (λ r.
            (root_of (best_of self.now) ≡ Some r.0.ptr)
            × (interval_of (best_of self.now) ≡ Some r.1.now)) }
    {
        let at = self.root?;
        let node = self.nodes.get(at);
        match node.best {
            None => Some((at, &node.interval)),
            Some(best) => Some((best, &self.nodes.best().get(best).interval)),
        }
    }

    /// Hits the nodes whose interval contains the key, in order.
    pub fn search<V: Visit, L: Ledger>(
        &self,
        table: u32,
        index: u32,
        key: &Key,
        visit: &mut V,
        steps: &mut Steps<L>,
    )
        requires { IsCutAt (table, index, key.now) self.now }
        ensures hits { Takes V.has_seen visit.old (found_owners (table, index, key.now) self.now) visit.new }
        ensures steps { steps.new ≡ steps.old + shown_nodes (table, index, key.now) self.now }
    {
        search(&self.nodes, self.root, table, index, key, visit, steps);
    }

    /// Takes the topmost node off: the tree on its left, the node, and the tree on its right.
    pub fn split(self) -> Option<(Subtree, Box<Node>, Subtree)>
        ensures leaf { SplitsTo self result }
        ensures parts { IfSome result (λ s.
            (listed self ≡ listed s.0 ++ owned s.1.value ∷ listed s.2)
            × (height self ≡ suc (max (height s.0) (height s.2)))
            × (IsBalanced self →
            IsBalanced s.0 × IsBalanced s.2
            × (height s.0 ≤ height s.2 + 1) × (height s.2 ≤ height s.0 + 1))) }
    {
        let Subtree { root, nodes } = self;
        let Some(at) = root else {
            nodes.end();
            return None;
        };
        let node = nodes.get(at);
        let (left, right, alloc) = (node.left, node.right, node.alloc);
        let (node, l, r) = detach(alloc, at, nodes);
        Some((
            Subtree {
                root: left,
                nodes: l,
            },
            node.into_box(),
            Subtree {
                root: right,
                nodes: r,
            },
        ))
    }
}

// Which of the node's own interval and those of the two trees ends last: `None` for the node's own.
fn greatest(l: &Subtree, own: &Interval, r: &Subtree) -> Option<Link>
    ensures { (p : Ptr) (n : Node) → n.interval ≡ own.now → LeadsToBest result (Fork p l.now n r.now) }
{
    let mut best = None;
    let mut last = own;
    if let Some((at, interval)) = l.farthest() {
        if ends_sooner(last, interval) {
            best = Some(at);
            last = interval;
        }
    }
    if let Some((at, interval)) = r.farthest() {
        if ends_sooner(last, interval) {
            best = Some(at);
        }
    }
    best
}

/// Puts a node over two trees, and sets its links, its height and its greatest end.
pub fn join(mut node: Box<Node>, l: Subtree, r: Subtree) -> Subtree
    requires { max (height l) (height r) + 1 < 2 ^ 64 }
    ensures over { IsOver l (owned node.value) r result }
    ensures listed { listed result ≡ listed l ++ owned node.value ∷ listed r }
    ensures height { height result ≡ suc (max (height l) (height r)) }
    ensures balanced { IsBalanced l → IsBalanced r →
        height l ≤ height r + 1 → height r ≤ height l + 1 → IsBalanced result }
{
    node.height = l.height().max(r.height()) + 1;
    node.best = greatest(&l, &node.interval, &r);
    let Subtree {
        root: left,
        nodes: l,
    } = l;
    let Subtree {
        root: right,
        nodes: r,
    } = r;
    node.left = left;
    node.right = right;
    let (at, nodes) = attach(RawBox::of(node), l, r);
    Subtree {
        root: Some(at),
        nodes,
    }
}
