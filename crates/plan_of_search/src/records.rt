//! The records of the tree, in preorder.

ghost use Rattle.std.specs.Prelude.{◌≡◌, ◌<◌, ◌^◌, length, map, Some, IfOk, IsTrue};
ghost use Rattle.proof_tree.specs.Shapes.{are_trees};
ghost use Rattle.search_machine.specs.PlanOf.{records_at};
ghost use Rattle.search_nodes.specs.Records.{record_of, children_by};
ghost use Rattle.plan_of_search.specs.PlanParts.{record_at, numbers_with_children, preorder_of, HaveChildren, IsOrderOf};

use proof_tree::{Tree, TreeNode};
use search_nodes::PoolNode;
use std::alloc::{AllocError, Global};

/// Puts the children of a node behind the numbers that wait, the left one last.
fn await_children(waiting: &mut Vec<usize>, node: &PoolNode) -> Result<(), AllocError>
    ensures { IfOk result (λ _. waiting.new.items ≡ numbers_with_children waiting.old.items (children_by node.now.fate)) }
{
    if let Some((left, right)) = node.children() {
        waiting.push(right.0 as usize)?;
        waiting.push(left.0 as usize)?;
    }
    Ok(())
}

/// The numbers of the tree in preorder.
fn preorder(alloc: Global, nodes: &[PoolNode]) -> Result<Vec<usize>, AllocError>
    requires some { 0 < length nodes.now }
    requires children { HaveChildren nodes.now }
    ensures { IfOk result (λ order. order.items ≡ preorder_of nodes.now) }
{
    let mut order = Vec::new(alloc);
    let mut waiting = vec![in alloc; 0]?;
    while let Some(number) = waiting.pop() {
        order.push(number)?;
        await_children(&mut waiting, &nodes[number])?;
    }
    Ok(order)
}

/// The records of the nodes, by their numbers.
fn loose_records(alloc: Global, nodes: Vec<PoolNode>) -> Result<Vec<Option<TreeNode>>, AllocError>
    ensures { IfOk result (λ records. records.items ≡ map (λ node. Some (record_of node)) nodes.items) }
{
    let mut records = Vec::new(alloc);
    for node in nodes {
        records.push(Some(node.into_record()))?;
    }
    Ok(records)
}

/// The records of the nodes, in this order.
fn records_by(
    alloc: Global,
    nodes: Vec<PoolNode>,
    order: &[usize],
) -> Result<Vec<TreeNode>, AllocError>
    requires { IsOrderOf (length nodes.items) order.now }
    ensures { IfOk result (λ records. records.items ≡ map (record_at nodes.items) order.now) }
{
    let mut loose = loose_records(alloc, nodes)?;
    let mut records = Vec::new(alloc);
    for number in order {
        let place = &mut loose[*number];
        if let Some(taken) = place.take() {
            records.push(taken)?;
        }
    }
    Ok(records)
}

/// The tree of the nodes. Their evidence and their sides are moved there.
pub fn tree_of(alloc: Global, nodes: Vec<PoolNode>) -> Result<Tree, AllocError>
    requires some { 0 < length nodes.items }
    requires few { length nodes.items < 2 ^ 32 }
    requires children { HaveChildren nodes.items }
    requires order { IsOrderOf (length nodes.items) (preorder_of nodes.items) }
    requires whole { IsTrue (are_trees 1 (records_at (length nodes.items) nodes.items 0)) }
    ensures { IfOk result (λ tree. tree ≡ records_at (length nodes.items) nodes.items 0) }
{
    let order = preorder(alloc, nodes.as_slice())?;
    let records = records_by(alloc, nodes, order.as_slice())?;
    match Tree::from_nodes(records) {
        Ok(tree) => Ok(tree),
        Err(_) => unreachable!(),
    }
}
