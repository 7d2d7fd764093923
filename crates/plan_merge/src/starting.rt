//! The starts of a tree.

ghost use Rattle.std.specs.Prelude.{◌≡◌, ◌++◌, ◌&&◌, [], length, reverse, IfOk, IsTrue, IsFalse};
ghost use Rattle.proof_tree.specs.Plans.{is_open};
ghost use Rattle.plan_merge.specs.Starts.{start_if, starts_of};
ghost use Rattle.plan_merge.specs.Waiting.{children_after, IsNext};

use crate::bounded_record::BoundedRecord;
use crate::start::Start;
use branch_tree::Limit;
use plan_base::Items;
use proof_tree::{Evidence, TreeNode};
use std::alloc::{AllocError, Global};

/// A tree that is to come behind others: how many limits it has in common with the record before, and its last one.
#[derive(Debug, Drop)]
struct Waiting {
    depth: usize,
    last: Limit,
}

/// These limits in the other order.
fn reversed(alloc: Global, path: &[Limit]) -> Result<Items<Limit>, AllocError>
    ensures { IfOk result (λ limits. limits ≡ reverse path.now) }
{
    let mut limits = Vec::new(alloc);
    let mut place = path.len();
    while place > 0 {
        place -= 1;
        limits.push(path[place].copy()?)?;
    }
    Ok(Items::from_vec(limits))
}

/// Puts the children of a record at this depth behind those that wait, the left child last.
fn await_children(
    depth: usize,
    node: &TreeNode,
    waiting: &mut Vec<Waiting>,
) -> Result<(), AllocError>
    ensures { IfOk result (λ _. reverse waiting.new.items ≡ children_after depth node.now ++ reverse waiting.old.items) }
{
    match node {
        TreeNode::Leaf(_) => {}
        TreeNode::Split {
            demand,
            left,
            right,
            ..
        } => {
            let demand = *demand;
            let arcs = right.copy()?;
            let last = Limit::Arcs { demand, arcs };
            waiting.push(Waiting { depth, last })?;
            let arcs = left.copy()?;
            let last = Limit::Arcs { demand, arcs };
            waiting.push(Waiting { depth, last })?;
        }
        TreeNode::Loads { place, load } => {
            let (place, load) = (*place, *load);
            let last = Limit::Above { place, load };
            waiting.push(Waiting { depth, last })?;
            let last = Limit::UpTo { place, load };
            waiting.push(Waiting { depth, last })?;
        }
    }
    Ok(())
}

/// Puts the start of a record behind the others, where the record is a chosen open leaf.
fn note_start(
    alloc: Global,
    path: &[Limit],
    node: &TreeNode,
    chosen: bool,
    starts: &mut Vec<Start>,
) -> Result<(), AllocError>
    ensures { IfOk result (λ _. starts.new.items ≡ starts.old.items ++ start_if (is_open node.now && chosen) (reverse path.now) node.now) }
{
    if let TreeNode::Leaf(Evidence::Open(prices)) = node {
        if chosen {
            let limits = reversed(alloc, path)?;
            let prices = prices.copy()?;
            starts.push(Start { limits, prices })?;
        }
    }
    Ok(())
}

/// Goes on to the limits of the tree that waits last; false where none waits.
fn goes_on(path: &mut Vec<Limit>, waiting: &mut Vec<Waiting>) -> Result<bool, AllocError>
    ensures none { IfOk result (λ some. IsFalse some → reverse waiting.old.items ≡ []) }
    ensures next { IfOk result (λ some. IsTrue some → IsNext path.old.items waiting.old.items path.new.items waiting.new.items) }
{
    let Some(next) = waiting.pop() else {
        return Ok(false);
    };
    path.truncate(next.depth);
    path.push(next.last)?;
    Ok(true)
}

/// The starts of a tree: its chosen open leaves in preorder, each with the limits on the way down to it.
///
/// - Takes: records in preorder, and for each whether it is chosen; what is chosen and no open leaf gives none.
/// - Errors: want of memory alone.
/// - Rule: docs/DEFINITIONS.md, "Going on".
/// - Time: linear in the records, and for each start in its limits.
pub fn starts_of(
    alloc: Global,
    records: &[BoundedRecord],
    chosen: &[bool],
) -> Result<Vec<Start>, AllocError>
    requires chosen { length chosen.now ≡ length records.now }
    ensures { IfOk result (λ starts. starts.items ≡ starts_of records.now chosen.now) }
{
    let mut starts = Vec::new(alloc);
    let mut path = Vec::new(alloc);
    let mut waiting = Vec::new(alloc);
    for place in 0..records.len() {
        let node = &records[place].node;
        note_start(alloc, &path, node, chosen[place], &mut starts)?;
        await_children(path.as_slice().len(), node, &mut waiting)?;
        if !goes_on(&mut path, &mut waiting)? {
            return Ok(starts);
        }
    }
    Ok(starts)
}
