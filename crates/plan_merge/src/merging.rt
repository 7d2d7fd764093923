//! Two trees of one region merged.

ghost use Rattle.std.specs.Prelude.{◌≡◌, ◌<◌, ◌≤◌, ◌+◌, ◌++◌, length, IfOk, if◌then◌else◌};
ghost use Rattle.plan_merge.specs.Merging.{lesser, same_arcs, same_split, trees_length, trees_behind, least_bound, is_no_lower, some_open, examined_of, stands_open, stands, better_of, merged};
ghost use Rattle.proof_tree.specs.Plans.{is_open};

use crate::bounded_record::{BoundedRecord, is_open};
use plan_base::ArcId;
use proof_tree::{Evidence, TreeNode};
use std::alloc::{AllocError, Global};

/// Puts copies of the records behind the others.
fn push_all(into: &mut Vec<BoundedRecord>, from: &[BoundedRecord]) -> Result<(), AllocError>
    ensures { IfOk result (λ _. into.new.items ≡ into.old.items ++ from.now) }
{
    for record in from {
        into.push(record.copy()?)?;
    }
    Ok(())
}

/// How many trees are to come behind a record.
fn trees_behind(k: usize, node: &TreeNode) -> usize
    requires { k < 4611686018427387904 }
    ensures { result ≡ trees_behind k node.now }
{
    match node {
        TreeNode::Leaf(_) => k,
        TreeNode::Split { .. } => k + 2,
        TreeNode::Loads { .. } => k + 2,
    }
}

/// How many records the first tree has.
fn first_length(nodes: &[BoundedRecord]) -> usize
    requires { length nodes.now < 4294967296 }
    ensures value { result ≡ trees_length 1 nodes.now }
    ensures within { result ≤ length nodes.now }
{
    let mut left: usize = 1;
    for place in 0..nodes.len() {
        if left == 0 {
            return place;
        }
        left = trees_behind(left - 1, &nodes[place].node);
    }
    nodes.len()
}

/// The lesser of two bounds, where there are any.
fn lesser(one: Option<i128>, other: Option<i128>) -> Option<i128>
    ensures { result ≡ lesser one other }
{
    match (one, other) {
        (None, other) => other,
        (Some(one), None) => Some(one),
        (Some(one), Some(other)) => Some(if other < one { other } else { one }),
    }
}

/// The least of the bounds that stand beside the records.
fn least_bound(records: &[BoundedRecord]) -> Option<i128>
    ensures { result ≡ least_bound records.now }
{
    let mut least = None;
    let mut place = records.len();
    while place > 0 {
        place -= 1;
        least = lesser(records[place].bound, least);
    }
    least
}

/// Whether some record is an open leaf.
fn some_open(records: &[BoundedRecord]) -> bool
    ensures { result ≡ some_open records.now }
{
    let mut some = false;
    let mut place = records.len();
    while place > 0 {
        place -= 1;
        let here = is_open(&records[place].node);
        some = here || some;
    }
    some
}

/// 0 for an open leaf, 1 for another record.
fn examined_by(node: &TreeNode) -> usize
    ensures value { result ≡ (if is_open node.now then 0 else 1) }
    ensures within { result ≤ 1 }
{
    if is_open(node) { 0 } else { 1 }
}

/// How many records are not open.
fn examined_of(records: &[BoundedRecord]) -> usize
    ensures value { result ≡ examined_of records.now }
    ensures within { result ≤ length records.now }
{
    let mut count = 0;
    let mut place = records.len();
    while place > 0 {
        place -= 1;
        let here = examined_by(&records[place].node);
        count = here + count;
    }
    count
}

/// Whether the first bound is at least the second one, none being above all.
fn is_no_lower(one: Option<i128>, other: Option<i128>) -> bool
    ensures { result ≡ is_no_lower one other }
{
    match (one, other) {
        (None, _) => true,
        (Some(_), None) => false,
        (Some(one), Some(other)) => !(one < other),
    }
}

/// Whether of two trees with open leaves the first stands.
fn stands_open(one: &[BoundedRecord], other: &[BoundedRecord]) -> bool
    ensures { result ≡ stands_open one.now other.now }
{
    let low = least_bound(one);
    let other_low = least_bound(other);
    is_no_lower(low, other_low)
        && (!is_no_lower(other_low, low) || examined_of(other) <= examined_of(one))
}

/// Whether of two trees of one region the first stands.
fn stands(one: &[BoundedRecord], other: &[BoundedRecord]) -> bool
    ensures { result ≡ stands one.now other.now }
{
    match (some_open(one), some_open(other)) {
        (false, false) => one.len() <= other.len(),
        (false, true) => true,
        (true, false) => false,
        (true, true) => stands_open(one, other),
    }
}

/// Whether both lists have the same arcs in the same order.
fn same_arcs(one: &[ArcId], other: &[ArcId]) -> bool
    ensures { result ≡ same_arcs one.now other.now }
{
    if one.len() != other.len() {
        return false;
    }
    for place in 0..one.len() {
        if one[place].0 != other[place].0 {
            return false;
        }
    }
    true
}

/// Whether both records are the same split.
fn same_split(one: &TreeNode, other: &TreeNode) -> bool
    ensures { result ≡ same_split one.now other.now }
{
    match (one, other) {
        (
            TreeNode::Split {
                demand,
                node,
                left,
                right,
            },
            TreeNode::Split {
                demand: k,
                node: v,
                left: one_side,
                right: other_side,
            },
        ) => demand.0 == k.0
            && (node.0 == v.0
                && (same_arcs(left.as_slice(), one_side.as_slice())
                    && same_arcs(right.as_slice(), other_side.as_slice()))),
        (TreeNode::Loads { place, load }, TreeNode::Loads { place: q, load: c }) => *place == *q
            && *load == *c,
        _ => false,
    }
}

/// The better one of two trees of one region.
fn better_of<'a>(one: &'a [BoundedRecord], other: &'a [BoundedRecord]) -> &'a [BoundedRecord]
    ensures { result.now ≡ better_of one.now other.now }
{
    if stands(one, other) { one } else { other }
}

/// Two trees of one region merged: where both split alike, that split and the merged trees of its two sides; else the
/// tree of greater rank, and of equal ranks the first.
///
/// - Takes: the records of two trees with one list of cuts and the bounds of their open leaves, fewer than 2^32.
/// - Errors: want of memory alone.
/// - Rule: docs/DEFINITIONS.md, "Merged plans".
/// - Time: linear in both.
pub fn merge(
    alloc: Global,
    one: &[BoundedRecord],
    other: &[BoundedRecord],
) -> Result<Vec<BoundedRecord>, AllocError>
    requires one { length one.now < 4294967296 }
    requires other { length other.now < 4294967296 }
    ensures { IfOk result (λ all. all.items ≡ merged one.now other.now) }
{
    let mut all = Vec::new(alloc);
    let mut ones = one;
    let mut others = other;
    while ones.len() > 0 {
        if others.len() == 0 {
            return Ok(all);
        }
        if same_split(&ones[0].node, &others[0].node) {
            all.push(ones[0].copy()?)?;
            ones = ones.split_at(1).1;
            others = others.split_at(1).1;
        } else {
            let (s, more) = ones.split_at(first_length(ones));
            let (t, rest) = others.split_at(first_length(others));
            push_all(&mut all, better_of(s, t))?;
            ones = more;
            others = rest;
        }
    }
    Ok(all)
}
