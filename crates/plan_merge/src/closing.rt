//! Open leaves that a cost closes.

ghost use Rattle.std.specs.Prelude.{◌≡◌, IfOk, pos, ◌+ℤ◌, int_lt};
ghost use Rattle.plan_merge.specs.Closing.{is_above, closed_record, closed};

use crate::bounded_record::{BoundedRecord, copy_node};
use proof_tree::{Evidence, TreeNode};
use std::alloc::{AllocError, Global};

/// Whether the bound is above the cost less the unit, all in cost grains.
fn is_enough(bound: i128, cost: u128, unit: u128) -> bool
    ensures { result ≡ int_lt (pos cost) (bound +ℤ pos unit) }
{
    if cost < unit {
        bound >= 0 || bound.unsigned_abs() < unit - cost
    } else {
        bound >= 0 && cost - unit < bound as u128
    }
}

/// Whether there is a bound above the cost less the unit.
fn is_above(bound: Option<i128>, cost: u128, unit: u128) -> bool
    ensures { result ≡ is_above cost unit bound }
{
    match bound {
        Some(bound) => is_enough(bound, cost, unit),
        None => false,
    }
}

/// The record, closed by its own numbers where it is an open leaf whose bound is above the cost less the unit.
fn closed_record(record: &BoundedRecord, cost: u128, unit: u128) -> Result<TreeNode, AllocError>
    ensures { IfOk result (λ made. made ≡ closed_record cost unit record.now) }
{
    match &record.node {
        TreeNode::Leaf(Evidence::Open(prices)) => {
            let prices = prices.copy()?;
            if is_above(record.bound, cost, unit) {
                Ok(TreeNode::Leaf(Evidence::Bound(prices)))
            } else {
                Ok(TreeNode::Leaf(Evidence::Open(prices)))
            }
        }
        node => copy_node(node),
    }
}

/// The records, where each open leaf with a bound above the cost less the unit is closed by its own numbers.
///
/// - Takes: the cost of a design and the unit of costs, in cost grains.
/// - Errors: want of memory alone.
/// - Rule: docs/DEFINITIONS.md, "Merged plans".
/// - Time: linear.
pub fn close(
    alloc: Global,
    records: &[BoundedRecord],
    cost: u128,
    unit: u128,
) -> Result<Vec<TreeNode>, AllocError>
    ensures { IfOk result (λ all. all.items ≡ closed cost unit records.now) }
{
    let mut all = Vec::new(alloc);
    for record in records {
        all.push(closed_record(record, cost, unit)?)?;
    }
    Ok(all)
}
