//! What the line of a record is read as, without its line end.

ghost use Rattle.std.specs.Prelude.{◌≡◌, Some, None, IfOk, option_and_then};
ghost use Rattle.plan_tokens.specs.Words.{numbers_of};
ghost use Rattle.cert_format.specs.Bodies.{ascends, side_of, sides_of, split_in, loads_in, record_of, record_in};
ghost use Rattle.cert_format.specs.Lists.{width};
ghost use Rattle.cert_format.specs.Answers.{side_view, sides_view};

use crate::bodies::arcs;
use crate::evidence::leaf;
use crate::numbering::{Ground, resolve};
use plan_base::{ArcId, DemandId, Items, NodeId};
use plan_tokens::{behind, numbers};
use proof_tree::TreeNode;
use proof_tree::limits::MAX_SIDE_ARCS;
use std::alloc::{AllocError, Global};

/// Whether each number is greater than the one before it.
#[tactic(auto, using(crate::proofs::Flags::ascends_more, crate::proofs::Flags::ascends_stop, crate::proofs::Flags::ascends_end))]
fn ascends(numbers: &[u128]) -> bool
    ensures { result ≡ ascends numbers.now }
{
    for place in 1..numbers.len() {
        if numbers[place] <= numbers[place - 1] {
            return false;
        }
    }
    true
}

/// One side of a split, and the numbers behind it.
#[tactic(auto, unfolding(crate::specs::Bodies::side_of))]
fn side(alloc: Global, numbers: &[u128]) -> Result<Option<(Vec<ArcId>, &[u128])>, AllocError>
    ensures { IfOk result (λ found. side_view found ≡ side_of numbers.now) }
{
    let [count, rest @ ..] = numbers else {
        return Ok(None);
    };
    if *count > MAX_SIDE_ARCS as u128 || *count > rest.len() as u128 {
        return Ok(None);
    }
    let (set, behind) = rest.split_at(*count as usize);
    if !ascends(set) {
        return Ok(None);
    }
    match arcs(alloc, set)? {
        Some(arcs) => Ok(Some((arcs, behind))),
        None => Ok(None),
    }
}

/// Both sides of a split.
#[tactic(auto, unfolding(crate::specs::Bodies::sides_of))]
fn sides(alloc: Global, numbers: &[u128]) -> Result<Option<(Vec<ArcId>, Vec<ArcId>)>, AllocError>
    ensures { IfOk result (λ found. sides_view found ≡ sides_of numbers.now) }
{
    let Some((left, rest)) = side(alloc, numbers)? else {
        return Ok(None);
    };
    match side(alloc, rest)? {
        Some((right, [])) => Ok(Some((left, right))),
        _ => Ok(None),
    }
}

/// The numbers of a split.
#[tactic(auto, unfolding(crate::specs::Bodies::split_in))]
fn split_in(alloc: Global, numbers: &[u128]) -> Result<Option<TreeNode>, AllocError>
    ensures { IfOk result (λ found. found ≡ split_in numbers.now) }
{
    let [demand, node, rest @ ..] = numbers else {
        return Ok(None);
    };
    if *demand >= 1 << 32 || *node >= 1 << 32 {
        return Ok(None);
    }
    match sides(alloc, rest)? {
        Some((left, right)) => Ok(Some(TreeNode::Split {
            demand: DemandId(*demand as u32),
            node: NodeId(*node as u32),
            left: Items::from_vec(left),
            right: Items::from_vec(right),
        })),
        None => Ok(None),
    }
}

/// A split, behind its word.
fn split(alloc: Global, bytes: &[u8]) -> Result<Option<TreeNode>, AllocError>
    ensures { IfOk result (λ found. found ≡ option_and_then (split_in) (numbers_of bytes.now)) }
{
    match numbers(alloc, bytes)? {
        Some(numbers) => split_in(alloc, numbers.as_slice()),
        None => Ok(None),
    }
}

/// The numbers of a load split.
#[tactic(auto, unfolding(crate::specs::Bodies::loads_in))]
fn loads_in(numbers: &[u128]) -> Option<TreeNode>
    ensures { result ≡ loads_in numbers.now }
{
    match numbers {
        [place, load] if *place < 1 << 32 && *load < 1 << 64 => Some(TreeNode::Loads {
            place: *place as u32,
            load: *load as u64,
        }),
        _ => None,
    }
}

/// A load split, behind its word.
fn loads(alloc: Global, bytes: &[u8]) -> Result<Option<TreeNode>, AllocError>
    ensures { IfOk result (λ found. found ≡ option_and_then loads_in (numbers_of bytes.now)) }
{
    match numbers(alloc, bytes)? {
        Some(numbers) => Ok(loads_in(numbers.as_slice())),
        None => Ok(None),
    }
}

/// A record, with the numbers that stand for prices.
#[tactic(auto, unfolding(crate::specs::Bodies::record_of))]
fn record(alloc: Global, ground: &Ground, body: &[u8]) -> Result<Option<TreeNode>, AllocError>
    ensures { IfOk result (λ found. found ≡ record_of ground.now.nodes (width ground.now.form ground.now.entries) body.now) }
{
    if let Some(rest) = behind(b"SPLIT", body) {
        return split(alloc, rest);
    }
    if let Some(rest) = behind(b"LOADS", body) {
        return loads(alloc, rest);
    }
    match leaf(alloc, ground, body)? {
        Some(evidence) => Ok(Some(TreeNode::Leaf(evidence))),
        None => Ok(None),
    }
}

/// A record that names no list which is not there, and leaves none out, where so many are named before it.
#[tactic(auto, unfolding(crate::specs::Bodies::record_in))]
pub(crate) fn record_in(
    alloc: Global,
    ground: &Ground,
    named: u32,
    body: &[u8],
) -> Result<Option<TreeNode>, AllocError>
    ensures { IfOk result (λ found. found ≡ record_in ground.now.form ground.now.lists named ground.now.nodes ground.now.entries body.now) }
{
    match record(alloc, ground, body)? {
        Some(node) => resolve(alloc, ground, named, node),
        None => Ok(None),
    }
}
