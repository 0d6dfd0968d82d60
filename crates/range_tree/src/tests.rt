ghost use Rattle.std.specs.Prelude.{◌≡◌, ◌<◌};

use crate::{RangeNode, RangeTree, Visit};
use cv_keys::{Interval, Key, key_of};
use cv_values::{Memory, Val};
use std::alloc::Global;
use std::test::Fail;

// Keeps the owners that it takes, as long as there is memory.
#[derive(Drop)]
struct Hits {
    owners: Vec<u64>,
    lost: bool,
}

impl Visit for Hits {
    ghost has_seen = { λ seen h. h.lost ≡ Rattle.std.specs.Prelude.false → h.owners.items ≡ seen };

    fn hit(&mut self, owner: u64) {
        if self.owners.push(owner).is_err() {
            self.lost = true;
        }
    }
}

fn key(alloc: Global, n: u64) -> Result<Key, Memory>
    requires { n < 1000000 }
{
    key_of(alloc, &Val::Int(n as i64))
}

// The keys of the integers from lo up to and without hi, in one index.
fn interval(alloc: Global, lo: u64, hi: u64) -> Result<Interval, Memory>
    requires lo { lo < 1000000 }
    requires hi { hi < 1000000 }
{
    Ok(Interval {
        table: 0,
        index: 2,
        lo: key(alloc, lo)?,
        hi: key(alloc, hi)?,
    })
}

// Puts a node in, after a search for it that must find nothing. False where something was wrong.
fn put(alloc: Global, tree: &mut RangeTree, lo: u64, hi: u64, owner: u64) -> Result<bool, Memory>
    requires lo { lo < 1000000 }
    requires hi { hi < 1000000 }
{
    let i = interval(alloc, lo, hi)?;
    let len = tree.len();
    let found = tree.remove(&i, owner).is_some();
    if found || len != tree.len() || tree.len() > 5000 {
        return Ok(false);
    }
    let Ok(node) = RangeNode::new(alloc, i, owner) else {
        return Err(Memory);
    };
    tree.insert(node);
    Ok(tree.len() == len + 1)
}

// Whether exactly the owners are hit at the integer, in this order.
fn hits_exactly(alloc: Global, tree: &RangeTree, at: u64, owners: &[u64]) -> Result<bool, Memory>
    requires { at < 1000000 }
{
    let mut hits = Hits {
        owners: Vec::new(alloc),
        lost: false,
    };
    tree.hit_all(0, 2, &key(alloc, at)?, &mut hits);
    Ok(hits.owners.as_slice() == owners && !hits.lost)
}

#[test]
fn two_ranges(rt: HostRuntime) -> Result<(), Fail> {
    let alloc = rt.alloc();
    let mut tree = RangeTree::new();
    assert!(rt; put(alloc, &mut tree, 15, 30, 2)?);
    assert!(rt; put(alloc, &mut tree, 10, 20, 1)?);
    assert!(rt; hits_exactly(alloc, &tree, 17, &[1, 2])?);
    assert!(rt; hits_exactly(alloc, &tree, 20, &[2])?);
    assert!(rt; hits_exactly(alloc, &tree, 30, &[])?);
    let i = interval(alloc, 10, 20)?;
    assert!(rt; tree.remove(&i, 2).is_none());
    assert!(rt; tree.remove(&i, 1).is_some());
    assert!(rt; tree.remove(&i, 1).is_none());
    assert!(rt; hits_exactly(alloc, &tree, 17, &[2])?);
    assert!(rt; tree.len() == 1);
    Ok(())
}

#[test]
fn equal_low_ends_go_by_high_end_and_owner(rt: HostRuntime) -> Result<(), Fail> {
    let alloc = rt.alloc();
    let mut tree = RangeTree::new();
    for (hi, owner) in [(9, 1), (7, 5), (9, 0), (8, 3), (7, 4)] {
        assert!(rt; put(alloc, &mut tree, 2, hi, owner)?);
    }
    assert!(rt; hits_exactly(alloc, &tree, 2, &[4, 5, 3, 0, 1])?);
    assert!(rt; hits_exactly(alloc, &tree, 7, &[3, 0, 1])?);
    Ok(())
}

#[derive(Clone, Copy)]
enum Order {
    Rising,
    Falling,
    Mixed,
}

// The low end, the high end and the owner of the node that comes in as the i-th.
fn node_at(order: Order, i: u64) -> (u64, u64, u64)
    requires { i < 5000 }
    ensures lo { result.0 < 1000000 }
    ensures hi { result.1 < 1000000 }
{
    let lo = match order {
        Order::Rising => i / 3,
        Order::Falling => (5000 - i) / 3,
        Order::Mixed => i * 37 % 1700,
    };
    (lo, lo + 1 + i * 7 % 50, i)
}

// The owners of the nodes that a plain list of nodes has at the integer.
fn owners_in(alloc: Global, list: &[(u64, u64, u64)], at: u64) -> Result<Vec<u64>, Memory> {
    let mut owners = Vec::new(alloc);
    for (lo, hi, owner) in list {
        if *lo <= at && at < *hi {
            owners.push(*owner)?;
        }
    }
    Ok(owners)
}

fn agrees(
    alloc: Global,
    tree: &RangeTree,
    list: &[(u64, u64, u64)],
    at: u64,
) -> Result<bool, Memory>
    requires { at < 1000000 }
{
    let owners = owners_in(alloc, list, at)?;
    hits_exactly(alloc, tree, at, owners.as_slice())
}

// Puts 5,000 nodes into a tree and into a sorted list, and compares the two at every tenth.
fn fill(
    alloc: Global,
    order: Order,
    tree: &mut RangeTree,
    list: &mut Vec<(u64, u64, u64)>,
) -> Result<bool, Memory> {
    for i in 0..5000 {
        let node = node_at(order, i);
        let Err(place) = list.binary_search(&node) else {
            return Ok(false);
        };
        list.insert(place, node)?;
        if !put(alloc, tree, node.0, node.1, node.2)? {
            return Ok(false);
        }
        if i % 10 == 0 && !agrees(alloc, tree, list.as_slice(), i % 1777)? {
            return Ok(false);
        }
    }
    Ok(true)
}

// Takes them out in another order.
fn empty(
    alloc: Global,
    order: Order,
    tree: &mut RangeTree,
    list: &mut Vec<(u64, u64, u64)>,
) -> Result<bool, Memory> {
    for i in 0..5000 {
        let node = node_at(order, i * 1777 % 5000);
        let Ok(place) = list.binary_search(&node) else {
            return Ok(false);
        };
        list.remove(place);
        let found = tree
            .remove(&interval(alloc, node.0, node.1)?, node.2)
            .is_some();
        if !found || tree.len() != list.len() {
            return Ok(false);
        }
        if i % 10 == 0 && !agrees(alloc, tree, list.as_slice(), node.0)? {
            return Ok(false);
        }
    }
    Ok(tree.len() == 0)
}

#[test]
fn trees_hit_what_sorted_lists_have(rt: HostRuntime) -> Result<(), Fail> {
    let alloc = rt.alloc();
    for order in [Order::Rising, Order::Falling, Order::Mixed] {
        let mut tree = RangeTree::new();
        let mut list = Vec::new(alloc);
        assert!(rt; fill(alloc, order, &mut tree, &mut list)?);
        assert!(rt; empty(alloc, order, &mut tree, &mut list)?);
    }
    Ok(())
}
