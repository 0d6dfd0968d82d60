//! The search for the intervals that contain a key.
ghost use Rattle.std.specs.Prelude.{◌≡◌, ◌+◌};
ghost use Rattle.range_tree.specs.Best.{IsLinked, LeadsTo};
ghost use Rattle.range_tree.specs.Ranges.{Takes};
ghost use Rattle.range_tree.specs.Search.{found_owners, shown_nodes, IsCutAt};

use crate::nodes::{Link, Nodes, Steps, lend};
use crate::order::{begins_after, ends_after};
use crate::visit::Visit;
use cv_keys::Key;
use std::sync::ledger::Ledger;

/// Hits the nodes of a tree whose interval contains the key, in order.
pub fn search<V: Visit, L: Ledger>(
    nodes: &Nodes,
    at: Option<Link>,
    table: u32,
    index: u32,
    key: &Key,
    visit: &mut V,
    steps: &mut Steps<L>,
)
    requires root { LeadsTo at nodes.now.tree }
    requires linked { IsLinked nodes.now.tree }
    requires cut { IsCutAt (table, index, key.now) nodes.now.tree }
    ensures hits { Takes V.has_seen visit.old (found_owners (table, index, key.now) nodes.now.tree) visit.new }
    ensures steps { steps.new ≡ steps.old + shown_nodes (table, index, key.now) nodes.now.tree }
{
    let Some(at) = at else {
        return;
    };
    let lent = lend(nodes, at, steps);
    if !ends_after(lent.end, table, index, key) {
        return;
    }
    search(lent.left, lent.node.left, table, index, key, visit, steps);
    let interval = &lent.node.interval;
    if begins_after(interval, table, index, key) {
        return;
    }
    if ends_after(interval, table, index, key) {
        visit.hit(lent.node.owner);
    }
    search(lent.right, lent.node.right, table, index, key, visit, steps);
}
