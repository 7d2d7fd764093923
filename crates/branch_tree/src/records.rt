//! The records of a search tree, in preorder.

ghost use Rattle.std.specs.Prelude.{◌≡◌, IfOk};
ghost use Rattle.branch_tree.specs.Records.{split_record, record_by, records_of, AreNodes};
ghost use Rattle.branch_tree.specs.Waiting.{with_children};

use crate::node::{BranchNode, Divider, Fate};
use plan_base::{BranchId, Prices};
use proof_tree::{Evidence, TreeNode};
use std::alloc::{AllocError, Global};

/// The same evidence.
fn copy_evidence(evidence: &Evidence) -> Result<Evidence, AllocError>
    ensures { IfOk result (λ copy. copy ≡ evidence.now) }
{
    Ok(match evidence {
        Evidence::Bound(prices) => Evidence::Bound(prices.copy()?),
        Evidence::Routed => Evidence::Routed,
        Evidence::Overfull { link } => Evidence::Overfull { link: *link },
        Evidence::Cut { demand, reached } => Evidence::Cut {
            demand: *demand,
            reached: reached.copy()?,
        },
        Evidence::Far { demand } => Evidence::Far { demand: *demand },
        Evidence::Crowd(prices) => Evidence::Crowd(prices.copy()?),
        Evidence::Open(prices) => Evidence::Open(prices.copy()?),
    })
}

/// The record of a split.
fn split_record(by: &Divider) -> Result<TreeNode, AllocError>
    ensures { IfOk result (λ made. made ≡ split_record by.now) }
{
    Ok(match by {
        Divider::Arcs(split) => TreeNode::Split {
            demand: split.demand,
            node: split.at,
            left: split.left.copy()?,
            right: split.right.copy()?,
        },
        Divider::Load(split) => TreeNode::Loads {
            place: split.place,
            load: split.load,
        },
    })
}

/// The record of a node with these prices.
fn record_by(prices: &Prices, fate: &Fate) -> Result<TreeNode, AllocError>
    ensures { IfOk result (λ made. made ≡ record_by prices.now fate.now) }
{
    Ok(match fate {
        Fate::Undone => TreeNode::Leaf(Evidence::Open(prices.copy()?)),
        Fate::ClosedBy(evidence) => TreeNode::Leaf(copy_evidence(evidence)?),
        Fate::DividedBy(division) => split_record(&division.by)?,
    })
}

/// Puts the children of a node behind the nodes that wait, the left one last.
fn await_children(waiting: &mut Vec<BranchId>, fate: &Fate) -> Result<(), AllocError>
    ensures { IfOk result (λ _. waiting.new.items ≡ with_children waiting.old.items fate.now) }
{
    match fate {
        Fate::Undone => {}
        Fate::ClosedBy(_) => {}
        Fate::DividedBy(division) => {
            waiting.push(division.right_child)?;
            waiting.push(division.left_child)?;
        }
    }
    Ok(())
}

/// The records of the tree, in preorder.
pub(crate) fn records_of(alloc: Global, nodes: &[BranchNode]) -> Result<Vec<TreeNode>, AllocError>
    requires { AreNodes nodes.now }
    ensures { IfOk result (λ records. records.items ≡ records_of nodes.now) }
{
    let mut records = Vec::new(alloc);
    let mut waiting = vec![in alloc; BranchId(0)]?;
    while let Some(id) = waiting.pop() {
        let node = &nodes[id.0 as usize];
        records.push(record_by(&node.prices, &node.fate)?)?;
        await_children(&mut waiting, &node.fate)?;
    }
    Ok(records)
}
