//! Records with prices, and with the numbers of price lists in their place.

ghost use Rattle.std.specs.Prelude.{◌≡◌, ◌≤◌, ◌<◌, ◌+◌, ◌^◌, nat_eq, IfOk};
ghost use Rattle.std.specs.Cmp.Lexicographic.{pointwise};
ghost use Rattle.cert_format.specs.Lists.{prices_in, record_prices, lists_of, named_by, named_behind, listed, priced, with_listed_prices, resolved, width};
ghost use Rattle.plan_tokens.specs.Cuts.{found_now};

use crate::form::{Form, has_line};
use crate::lists::Lists;
use plan_base::Prices;
use proof_tree::{Evidence, TreeNode};
use std::alloc::{AllocError, Global};

/// What the line of a record depends on: the version, the price lists, the count of nodes, and how many numbers a price
/// list has.
#[derive(Drop)]
pub(crate) struct Ground {
    pub(crate) form: Form,
    pub(crate) lists: Lists,
    pub(crate) nodes: u32,
    pub(crate) entries: usize,
}

impl Ground {
    /// How many numbers stand for the prices of a record.
    pub(crate) fn width(&self) -> usize
        ensures { result ≡ width self.now.form self.now.entries }
    {
        match self.form {
            Form::First => self.entries,
            Form::Second | Form::Third => 1,
        }
    }
}

/// The prices of a leaf that is closed or open by prices.
fn prices_in(evidence: &Evidence) -> Option<&[u128]>
    ensures { found_now result ≡ prices_in evidence.now }
{
    match evidence {
        Evidence::Bound(prices) | Evidence::Crowd(prices) | Evidence::Open(prices) => {
            Some(prices.as_slice())
        }
        Evidence::Routed
        | Evidence::Overfull { .. }
        | Evidence::Cut { .. }
        | Evidence::Far { .. } => None,
    }
}

/// The prices of a record.
fn record_prices(node: &TreeNode) -> Option<&[u128]>
    ensures { found_now result ≡ record_prices node.now }
{
    match node {
        TreeNode::Split { .. } | TreeNode::Loads { .. } => None,
        TreeNode::Leaf(evidence) => prices_in(evidence),
    }
}

/// The price lists of a tree, each once, in preorder of their first use.
#[tactic(auto, using(crate::proofs::ListSets::gathered_some, crate::proofs::ListSets::gathered_none, crate::proofs::ListSets::gathered_end))]
pub(crate) fn lists_of(alloc: Global, nodes: &[TreeNode]) -> Result<Lists, AllocError>
    ensures { IfOk result (λ lists. lists ≡ lists_of nodes.now) }
{
    let mut lists = Lists::new(alloc);
    for node in nodes {
        if let Some(prices) = record_prices(node) {
            lists.note(alloc, prices)?;
        }
    }
    Ok(lists)
}

/// Whether the prices are the same.
fn is_same(prices: &[u128], others: &[u128]) -> bool
    ensures { result ≡ pointwise nat_eq prices.now others.now }
{
    prices == others
}

/// How many lists are named where so many were named before, and then this one is.
fn named_by(lists: &Lists, named: u32, prices: Option<&[u128]>) -> u32
    requires { named < 2 ^ 31 }
    ensures value { result ≡ named_by lists.now named (found_now prices.entry) }
    ensures within { result ≤ named + 1 }
{
    let Some(prices) = prices else {
        return named;
    };
    let Some(list) = lists.get(named as usize) else {
        return named;
    };
    if is_same(prices, list) {
        named + 1
    } else {
        named
    }
}

/// How many lists are named behind a record, where so many were named before it.
pub(crate) fn named_behind(ground: &Ground, named: u32, node: &TreeNode) -> u32
    requires { named < 2 ^ 31 }
    ensures value { result ≡ named_behind ground.now.form ground.now.lists named node.now }
    ensures within { result ≤ named + 1 }
{
    match ground.form {
        Form::First => named,
        Form::Second | Form::Third => named_by(&ground.lists, named, record_prices(node)),
    }
}

/// The list of this number, where it is one of the lists and no list before it is left out.
fn listed(
    alloc: Global,
    lists: &Lists,
    named: u32,
    numbers: &[u128],
) -> Result<Option<Prices>, AllocError>
    ensures { IfOk result (λ found. found ≡ listed lists.now named numbers.now) }
{
    let [number] = numbers else {
        return Ok(None);
    };
    if *number > u128::from(named) {
        return Ok(None);
    }
    match lists.get(*number as usize) {
        Some(list) => Ok(Some(Prices::from_vec(Vec::from_slice(alloc, list)?))),
        None => Ok(None),
    }
}

/// The leaf with the prices that its numbers stand for.
fn priced(
    alloc: Global,
    lists: &Lists,
    named: u32,
    evidence: Evidence,
) -> Result<Option<Evidence>, AllocError>
    ensures { IfOk result (λ found. found ≡ priced lists.now named evidence) }
{
    match evidence {
        Evidence::Bound(prices) => {
            Ok(listed(alloc, lists, named, prices.as_slice())?.map(Evidence::Bound))
        }
        Evidence::Crowd(prices) => {
            Ok(listed(alloc, lists, named, prices.as_slice())?.map(Evidence::Crowd))
        }
        Evidence::Open(prices) => {
            Ok(listed(alloc, lists, named, prices.as_slice())?.map(Evidence::Open))
        }
        Evidence::Routed
        | Evidence::Overfull { .. }
        | Evidence::Cut { .. }
        | Evidence::Far { .. } => Ok(Some(evidence)),
    }
}

/// The record with the prices that its number stands for, where so many lists are named before it.
fn with_listed_prices(
    alloc: Global,
    lists: &Lists,
    named: u32,
    node: TreeNode,
) -> Result<Option<TreeNode>, AllocError>
    ensures { IfOk result (λ found. found ≡ with_listed_prices lists.now named node) }
{
    match node {
        TreeNode::Split { .. } | TreeNode::Loads { .. } => Ok(Some(node)),
        TreeNode::Leaf(evidence) => {
            Ok(priced(alloc, lists, named, evidence)?.map(TreeNode::Leaf))
        }
    }
}

/// The record that is shown so, where the version has a line for it.
#[tactic(auto, unfolding(crate::specs::Lists::resolved))]
pub(crate) fn resolve(
    alloc: Global,
    ground: &Ground,
    named: u32,
    node: TreeNode,
) -> Result<Option<TreeNode>, AllocError>
    ensures { IfOk result (λ found. found ≡ resolved ground.now.form ground.now.lists named node) }
{
    if !has_line(ground.form, &node) {
        return Ok(None);
    }
    match ground.form {
        Form::First => Ok(Some(node)),
        Form::Second | Form::Third => with_listed_prices(alloc, &ground.lists, named, node),
    }
}
