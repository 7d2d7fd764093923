//! Records with the bounds of open leaves beside them.

ghost use Rattle.std.specs.Prelude.{◌≡◌, IfOk};
ghost use Rattle.proof_tree.specs.Plans.{is_open};

use proof_tree::{Evidence, TreeNode};
use std::alloc::AllocError;

/// A record of a tree, and its bound if it is an open leaf that has one.
#[derive(Debug, Drop)]
pub struct BoundedRecord {
    /// The record.
    pub node: TreeNode,
    /// The bound at the record's own numbers, in cost grains; none where it has none or is no open leaf.
    pub bound: Option<i128>,
}

/// The same evidence.
fn copy_evidence(evidence: &Evidence) -> Result<Evidence, AllocError>
    ensures { IfOk result (λ copy. copy ≡ evidence.now) }
{
    Ok(match evidence {
        Evidence::Bound(prices) => Evidence::Bound(prices.copy()?),
        Evidence::Routed => Evidence::Routed,
        Evidence::Overfull { link } => Evidence::Overfull { link: *link },
        Evidence::Cut { demand, reached } => Evidence::Cut {
            demand: *demand,
            reached: reached.copy()?,
        },
        Evidence::Far { demand } => Evidence::Far { demand: *demand },
        Evidence::Crowd(prices) => Evidence::Crowd(prices.copy()?),
        Evidence::Open(prices) => Evidence::Open(prices.copy()?),
    })
}

/// The same record of a tree.
pub(crate) fn copy_node(node: &TreeNode) -> Result<TreeNode, AllocError>
    ensures { IfOk result (λ copy. copy ≡ node.now) }
{
    Ok(match node {
        TreeNode::Split {
            demand,
            node,
            left,
            right,
        } => TreeNode::Split {
            demand: *demand,
            node: *node,
            left: left.copy()?,
            right: right.copy()?,
        },
        TreeNode::Loads { place, load } => TreeNode::Loads {
            place: *place,
            load: *load,
        },
        TreeNode::Leaf(evidence) => TreeNode::Leaf(copy_evidence(evidence)?),
    })
}

/// Whether the record is an open leaf.
pub(crate) fn is_open(node: &TreeNode) -> bool
    ensures { result ≡ is_open node.now }
{
    match node {
        TreeNode::Leaf(Evidence::Open(_)) => true,
        _ => false,
    }
}

impl BoundedRecord {
    /// The same record with the same bound.
    ///
    /// - Errors: want of memory alone.
    pub fn copy(&self) -> Result<BoundedRecord, AllocError>
        ensures { IfOk result (λ copy. copy ≡ self.now) }
    {
        Ok(BoundedRecord {
            node: copy_node(&self.node)?,
            bound: self.bound,
        })
    }
}
