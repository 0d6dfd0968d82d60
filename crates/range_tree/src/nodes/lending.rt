ghost use Rattle.std.specs.Prelude.{◌≡◌, ◌+◌, Some};
ghost use Rattle.range_tree.specs.Tree.{root_of, node_of, left_of, right_of};
ghost use Rattle.range_tree.specs.Best.{best_of, IsLinked};
ghost use Rattle.range_tree.specs.Search.{interval_of};

use crate::nodes::memory::{Link, Node, Nodes};
use crate::nodes::steps::Steps;
use cv_keys::Interval;
use std::sync::ledger::Ledger;

/// A node as a search sees it: with the trees on its two sides, and the interval that ends last
/// among its own and theirs.
#[derive(Drop)]
pub struct Lent<'a> {
    pub node: &'a Node,
    pub left: &'a Nodes,
    pub right: &'a Nodes,
    pub end: &'a Interval,
}

/// Shows one node, which is one step.
pub fn lend<'a, L: Ledger>(nodes: &'a Nodes, at: Link, steps: &mut Steps<L>) -> Lent<'a>
    requires root { root_of nodes.now.tree ≡ Some at.ptr }
    requires linked { IsLinked nodes.now.tree }
    ensures node { node_of nodes.now.tree ≡ Some result.node.now }
    ensures left { result.left.now.tree ≡ left_of nodes.now.tree }
    ensures right { result.right.now.tree ≡ right_of nodes.now.tree }
    ensures end { interval_of (best_of nodes.now.tree) ≡ Some result.end.now }
    ensures step { steps.new ≡ steps.old + 1 }
{
    steps.tick();
    let node = nodes.get(at);
    let end = match node.best {
        None => &node.interval,
        Some(best) => &nodes.best().get(best).interval,
    };
    Lent {
        node,
        left: nodes.left(),
        right: nodes.right(),
        end,
    }
}
