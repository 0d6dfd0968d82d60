//! The nodes' memory. What the nodes of a tree own is one value, `Nodes`; where a node lies is plain data, `Link`.
ghost use Rattle.std.specs.Prelude.{◌≡◌, ℕ, Some};
ghost use Rattle.range_tree.specs.Tree.{Tree, tree_coded, Leaf, Fork, root_of, node_of, left_of, right_of};
ghost use Rattle.range_tree.specs.Best.{best_of};
ghost use Rattle.range_tree.specs.Ownership.{tree_owns, tree_lent};

use crate::nodes::raw_box::RawBox;
use cv_keys::Interval;
use std::alloc::Global;
use std::marker::{Model, PhantomData, Send, Sync};

/// A node. A link is `None` where there is no child; `best` leads to the node of the greatest end,
/// and is `None` where the node itself has it.
#[derive(Drop)]
pub struct Node {
    pub left: Option<Link>,
    pub right: Option<Link>,
    pub best: Option<Link>,
    pub height: u64,
    pub alloc: Global,
    pub owner: u64,
    pub interval: Interval,
}

impl Node {
    /// A node without children.
    pub fn new(alloc: Global, interval: Interval, owner: u64) -> Node
        ensures interval { result.interval ≡ interval }
        ensures owner { result.owner ≡ owner }
    {
        Node {
            left: None,
            right: None,
            best: None,
            height: 1,
            alloc,
            owner,
            interval,
        }
    }
}

/// Where a node lies. It owns nothing.
#[derive(Clone, Copy)]
pub struct Link {
    pub ptr: *mut Node,
}

unsafe impl Send for Link {}

unsafe impl Sync for Link {}

/// The nodes of a tree. It takes no bytes, and it is never dropped: the nodes go out one by one.
pub struct Nodes {
    mark: PhantomData<*mut Node>,
    pub ghost tree: { Tree } by { tree_coded },
}

impl Model for Nodes {
    ghost also_owns = { λ b. tree_owns b.tree };

    ghost also_shares = { λ b _ κ. tree_lent b.tree κ };
}

unsafe impl Send for Nodes {}

unsafe impl Sync for Nodes {}

/// No nodes.
pub(super) fn no_nodes() -> Nodes
    ensures { result.tree ≡ Leaf }
{
    Nodes { mark: PhantomData }
}

/// Puts a node over two trees.
pub(super) fn attach(node: RawBox<Node, Global>, l: Nodes, r: Nodes) -> (Link, Nodes)
    ensures { result.1.tree ≡ Fork result.0.ptr l.tree node.value r.tree }
{
    let RawBox { at, alloc: _ } = node;
    let Nodes { mark: _ } = l;
    let Nodes { mark: _ } = r;
    (Link { ptr: at }, Nodes { mark: PhantomData })
}

/// Takes the topmost node off the two trees below it.
pub(super) fn detach(alloc: Global, at: Link, nodes: Nodes) -> (RawBox<Node, Global>, Nodes, Nodes)
    requires { root_of nodes.tree ≡ Some at.ptr }
    ensures { nodes.tree ≡ Fork at.ptr result.1.tree result.0.value result.2.tree }
{
    let Nodes { mark: _ } = nodes;
    (
        RawBox { at: at.ptr, alloc },
        Nodes { mark: PhantomData },
        Nodes { mark: PhantomData },
    )
}

impl Nodes {
    /// Lets a tree of no nodes go.
    pub(super) fn end(self)
        requires { self.tree ≡ Leaf }
    {
        let Nodes { mark: _ } = self;
    }

    /// Shows the topmost node.
    pub(super) fn get(&self, at: Link) -> &Node
        requires { root_of self.now.tree ≡ Some at.ptr }
        ensures { node_of self.now.tree ≡ Some result.now }
    {
        unsafe { &*at.ptr }
    }

    /// The tree on the left of the topmost node.
    pub(super) fn left(&self) -> &Nodes
        ensures { result.now.tree ≡ left_of self.now.tree }
    {
        self
    }

    /// The tree on the right of the topmost node.
    pub(super) fn right(&self) -> &Nodes
        ensures { result.now.tree ≡ right_of self.now.tree }
    {
        self
    }

    /// The tree below the node that has the greatest end, and that node.
    pub(super) fn best(&self) -> &Nodes
        ensures { result.now.tree ≡ best_of self.now.tree }
    {
        self
    }
}
