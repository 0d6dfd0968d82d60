//! Trees put together so that they are balanced.
ghost use Rattle.std.specs.Prelude.{◌≡◌, ◌+◌, ◌^◌, ◌<◌, ◌≤◌, max, ◌++◌, ◌∷◌, MatchOption};
ghost use Rattle.range_tree.specs.Tree.{Leaf};
ghost use Rattle.range_tree.specs.Shape.{height, IsBalanced};
ghost use Rattle.range_tree.specs.Avl.{owned, listed, SettlesAt};

use crate::nodes::{Node, Subtree, join};

/// Puts a node over two balanced trees whose heights differ by at most two.
pub fn balance(node: Box<Node>, l: Subtree, r: Subtree) -> Subtree
    requires balanced { IsBalanced l × IsBalanced r }
    requires near { (height l ≤ height r + 2) × (height r ≤ height l + 2) }
    requires fits { max (height l) (height r) + 1 < 2 ^ 64 }
    ensures listed { listed result ≡ listed l ++ owned node.value ∷ listed r }
    ensures balanced { IsBalanced result }
    ensures height { SettlesAt (height l) (height r) (height result) }
{
    let (left, right) = (l.height(), r.height());
    if left > right + 1 {
        rotate_right(node, l, r)
    } else if right > left + 1 {
        rotate_left(node, l, r)
    } else {
        join(node, l, r)
    }
}

// The left tree is higher by two, so its topmost node comes up, or else the one right below it. Both trees
// that are split are high enough to have a node.
fn rotate_right(node: Box<Node>, l: Subtree, r: Subtree) -> Subtree
    requires balanced { IsBalanced l × IsBalanced r }
    requires two_higher { height l ≡ height r + 2 }
    requires fits { height l + 1 < 2 ^ 64 }
    ensures listed { listed result ≡ listed l ++ owned node.value ∷ listed r }
    ensures balanced { IsBalanced result }
    ensures height { (height l ≤ height result) × (height result ≤ height l + 1) }
{
    let Some((a, top, b)) = l.split() else {
        unreachable!()
    };
    if a.height() >= b.height() {
        return join(top, a, join(node, b, r));
    }
    let Some((c, middle, d)) = b.split() else {
        unreachable!()
    };
    join(middle, join(top, a, c), join(node, d, r))
}

fn rotate_left(node: Box<Node>, l: Subtree, r: Subtree) -> Subtree
    requires balanced { IsBalanced l × IsBalanced r }
    requires two_higher { height r ≡ height l + 2 }
    requires fits { height r + 1 < 2 ^ 64 }
    ensures listed { listed result ≡ listed l ++ owned node.value ∷ listed r }
    ensures balanced { IsBalanced result }
    ensures height { (height r ≤ height result) × (height result ≤ height r + 1) }
{
    let Some((a, top, b)) = r.split() else {
        unreachable!()
    };
    if b.height() >= a.height() {
        return join(top, join(node, l, a), b);
    }
    let Some((c, middle, d)) = a.split() else {
        unreachable!()
    };
    join(middle, join(node, l, c), join(top, d, b))
}

// Takes the first node out.
fn take_first(tree: Subtree) -> Option<(Box<Node>, Subtree)>
    requires balanced { IsBalanced tree }
    requires fits { height tree + 1 < 2 ^ 64 }
    ensures { MatchOption result (tree ≡ Leaf) (λ s.
        (listed tree ≡ owned s.0.value ∷ listed s.1)
        × IsBalanced s.1 × (height s.1 ≤ height tree) × (height tree ≤ height s.1 + 1)) }
{
    let (l, top, r) = tree.split()?;
    match take_first(l) {
        None => Some((top, r)),
        Some((first, l)) => Some((first, balance(top, l, r))),
    }
}

/// Puts two balanced trees whose heights differ by at most one side by side.
pub fn merge(l: Subtree, r: Subtree) -> Subtree
    requires balanced { IsBalanced l × IsBalanced r }
    requires near { (height l ≤ height r + 1) × (height r ≤ height l + 1) }
    requires fits { max (height l) (height r) + 1 < 2 ^ 64 }
    ensures listed { listed result ≡ listed l ++ listed r }
    ensures balanced { IsBalanced result }
    ensures height { (max (height l) (height r) ≤ height result)
        × (height result ≤ max (height l) (height r) + 1) }
{
    match take_first(r) {
        None => l,
        Some((first, rest)) => balance(first, l, rest),
    }
}
