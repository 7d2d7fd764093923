//! Proof trees: lists of records in preorder.

ghost use Rattle.std.specs.Prelude.{◌≡◌, ◌<◌, ◌^◌, ◌↔◌, length, IsOk, IsTrue, IfOk, IfErr};
ghost use Rattle.proof_tree.specs.Shapes.{is_leaf, are_trees, IsShapeFault};

use plan_base::{ArcId, DemandId, Items, LinkId, NodeId, Prices};
use std::marker::Model;

/// Why a leaf holds no feasible design that is cheaper than the plan's, or that it may hold one.
///
/// - Rule: docs/DEFINITIONS.md, "Evidence of a leaf".
#[derive(Debug, Drop)]
pub enum Evidence {
    /// At these prices and rates the leaf's bound is above the cost of the plan's design less the unit of costs. Prices are in
    /// thousandths of a cost grain per load grain, one for each place; behind them is a rate for each cut of the plan.
    Bound(Prices),
    /// Each demand has one path left, within its limit on arcs, and these paths cost at least as much as the plan's design.
    Routed,
    /// Each demand has one path left, and the link cannot carry the load of these paths, or the load of a place of it is
    /// outside its range.
    Overfull {
        /// The link.
        link: LinkId,
    },
    /// The demand has no path left.
    Cut {
        /// The demand.
        demand: DemandId,
        /// For each node whether the demand's source may still reach it.
        reached: Items<bool>,
    },
    /// The demand has no path left within its limit on arcs.
    Far {
        /// The demand.
        demand: DemandId,
    },
    /// At these prices the demands ask for more than ranges and pre-installed capacities give. Numbers are as for `Bound`;
    /// the rates do not matter, and prices are 0 on each place of a link that has a module of positive capacity, where its
    /// range ends at the top load.
    Crowd(Prices),
    /// The leaf may hold any design, and these numbers give its bound. They are as for `Bound`.
    Open(Prices),
}

/// One record of a tree.
#[derive(Debug, Drop)]
pub enum TreeNode {
    /// The left child also forbids the left arcs to the demand, and the right child the right arcs.
    /// The left child comes first.
    Split {
        /// The demand.
        demand: DemandId,
        /// The node that all the arcs leave.
        node: NodeId,
        /// The arcs that the left child forbids.
        left: Items<ArcId>,
        /// The arcs that the right child forbids.
        right: Items<ArcId>,
    },
    /// The left child carries at most this load on the place, and the right child more. The left child comes first.
    Loads {
        /// The place.
        place: u32,
        /// The load, in load grains.
        load: u64,
    },
    /// A leaf.
    Leaf(Evidence),
}

/// Why a list of records is not one whole tree.
#[derive(Clone, Copy, Debug, PartialEq, Eq)]
pub enum ShapeFault {
    /// The list ends inside the tree.
    Short,
    /// Records follow the tree.
    Extra {
        /// The place of the first of them.
        at: u32,
    },
}

/// One whole tree: its records in preorder, counted from 0.
#[derive(Debug, Drop)]
pub struct Tree {
    nodes: Vec<TreeNode>,
}

impl Model for Tree {
    ghost use Rattle.std.specs.Prelude.{List};
    ghost use Rattle.proof_tree.specs.declared.tree.TreeNode.{TreeNode};

    ghost Value = { List TreeNode };

    ghost view = { λ a. a.nodes.items };

    ghost use Rattle.std.specs.Prelude.{IsTrue};
    ghost use Rattle.proof_tree.specs.Shapes.{are_trees};

    ghost invariant = { λ a. IsTrue (are_trees 1 a.nodes.items) };
}

/// Whether the record is a leaf.
fn is_leaf(node: &TreeNode) -> bool
    ensures { result ≡ is_leaf node.now }
{
    match node {
        TreeNode::Leaf(_) => true,
        TreeNode::Split { .. } | TreeNode::Loads { .. } => false,
    }
}

/// Why the records are not one whole tree.
fn check_shape(nodes: &[TreeNode]) -> Result<(), ShapeFault>
    requires { length nodes.now < 2 ^ 32 }
    ensures ok { IsOk result ↔ IsTrue (are_trees 1 nodes.now) }
    ensures fault { IfErr result (IsShapeFault nodes.now) }
{
    let mut open: u64 = 1;
    for (place, node) in nodes.iter().enumerate() {
        if open == 0 {
            return Err(ShapeFault::Extra { at: place as u32 });
        }
        if is_leaf(node) {
            open -= 1;
        } else {
            open += 1;
        }
    }
    if open == 0 {
        Ok(())
    } else {
        Err(ShapeFault::Short)
    }
}

impl Tree {
    /// The tree of these records. Takes no memory.
    ///
    /// - Takes: the records in preorder, fewer than 2^32.
    /// - Errors: `Short` where no front of the list is a whole tree, `Extra` where a shorter front is.
    /// - Rule: docs/DEFINITIONS.md, "Proof trees".
    pub fn from_nodes(nodes: Vec<TreeNode>) -> Result<Tree, ShapeFault>
        requires { length nodes.items < 2 ^ 32 }
        ensures ok { IsOk result ↔ IsTrue (are_trees 1 nodes.items) }
        ensures value { IfOk result (λ tree. tree ≡ nodes.items) }
        ensures fault { IfErr result (IsShapeFault nodes.items) }
    {
        check_shape(nodes.as_slice())?;
        Ok(Tree { nodes })
    }

    /// The records in preorder.
    pub fn nodes(&self) -> &[TreeNode]
        ensures value { result.now ≡ self.now }
        ensures whole { IsTrue (are_trees 1 self.now) }
    {
        self.nodes.as_slice()
    }
}
