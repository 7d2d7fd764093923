//! A tree that grows: whole trees in place of open leaves.

ghost use Rattle.std.specs.Prelude.{◌≡◌, ◌++◌, ◌&&◌, length, IfOk};
ghost use Rattle.proof_tree.specs.Plans.{is_open};
ghost use Rattle.plan_merge.specs.Growing.{subtree_here, subtrees_after, put_in};

use crate::bounded_record::{BoundedRecord, copy_node, is_open};
use plan_base::Items;
use proof_tree::TreeNode;
use std::alloc::{AllocError, Global};

/// Puts copies of the records behind the others.
fn push_records(into: &mut Vec<TreeNode>, records: &[TreeNode]) -> Result<(), AllocError>
    ensures { IfOk result (λ _. into.new.items ≡ into.old.items ++ records.now) }
{
    for record in records {
        into.push(copy_node(record)?)?;
    }
    Ok(())
}

/// Puts what stands in place of a record behind the others, and gives the trees that are left.
fn put_next<'a>(
    into: &mut Vec<TreeNode>,
    node: &TreeNode,
    chosen: bool,
    subtrees: &'a [Items<TreeNode>],
) -> Result<&'a [Items<TreeNode>], AllocError>
    ensures put { IfOk result (λ _. into.new.items ≡ into.old.items ++ subtree_here (is_open node.now && chosen) node.now subtrees.now) }
    ensures rest { IfOk result (λ rest. rest.now ≡ subtrees_after (is_open node.now && chosen) subtrees.now) }
{
    if is_open(node) && chosen && subtrees.len() > 0 {
        push_records(into, subtrees[0].as_slice())?;
        return Ok(subtrees.split_at(1).1);
    }
    into.push(copy_node(node)?)?;
    Ok(subtrees)
}

/// The tree with whole trees in place of its chosen open leaves, the first one in place of the first.
///
/// - Takes: records in preorder, for each whether it is chosen, and the records of the trees. What is chosen and no open leaf
///   stays, and so does what no tree is left for.
/// - Errors: want of memory alone.
/// - Rule: docs/DEFINITIONS.md, "Going on".
/// - Time: linear in all records.
pub fn put_in(
    alloc: Global,
    records: &[BoundedRecord],
    chosen: &[bool],
    subtrees: &[Items<TreeNode>],
) -> Result<Vec<TreeNode>, AllocError>
    requires chosen { length chosen.now ≡ length records.now }
    ensures { IfOk result (λ all. all.items ≡ put_in records.now chosen.now subtrees.now) }
{
    let mut all = Vec::new(alloc);
    let mut rest = subtrees;
    for place in 0..records.len() {
        rest = put_next(&mut all, &records[place].node, chosen[place], rest)?;
    }
    Ok(all)
}
