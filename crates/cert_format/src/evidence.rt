//! What the line of a leaf is read as, without its line end.

ghost use Rattle.std.specs.Prelude.{◌≡◌, Some, None, IfOk, option_and_then, option_map};
ghost use Rattle.plan_tokens.specs.Words.{numbers_of};
ghost use Rattle.cert_format.specs.Bodies.{cut_in, prices_of, priced_of, overfull_with, far_with, lone_number, leaf_of};
ghost use Rattle.cert_format.specs.Lists.{width};

use crate::bodies::{fixed, one_in};
use crate::node_sets::node_set;
use crate::numbering::Ground;
use plan_base::{DemandId, Items, LinkId, Prices};
use plan_tokens::{behind, numbers};
use proof_tree::Evidence;
use std::alloc::{AllocError, Global};

/// The numbers of a cut.
#[tactic(auto, unfolding(crate::specs::Bodies::cut_in))]
fn cut_in(alloc: Global, nodes: u32, numbers: &[u128]) -> Result<Option<Evidence>, AllocError>
    ensures { IfOk result (λ found. found ≡ cut_in nodes numbers.now) }
{
    let [demand, rest @ ..] = numbers else {
        return Ok(None);
    };
    if *demand >= 1 << 32 {
        return Ok(None);
    }
    match node_set(alloc, nodes, rest)? {
        Some(reached) => Ok(Some(Evidence::Cut {
            demand: DemandId(*demand as u32),
            reached: Items::from_vec(reached),
        })),
        None => Ok(None),
    }
}

/// So many numbers.
#[tactic(auto, unfolding(crate::specs::Bodies::prices_of))]
fn prices(alloc: Global, count: usize, bytes: &[u8]) -> Result<Option<Prices>, AllocError>
    ensures { IfOk result (λ found. found ≡ prices_of count bytes.now) }
{
    match numbers(alloc, bytes)? {
        Some(prices) if prices.len() == count => Ok(Some(Prices::from_vec(prices))),
        _ => Ok(None),
    }
}

/// A leaf that is closed or open by so many prices.
#[tactic(auto, unfolding(crate::specs::Bodies::priced_of))]
fn priced(alloc: Global, count: usize, body: &[u8]) -> Result<Option<Evidence>, AllocError>
    ensures { IfOk result (λ found. found ≡ priced_of count body.now) }
{
    if let Some(rest) = behind(b"PRICED", body) {
        return Ok(prices(alloc, count, rest)?.map(Evidence::Bound));
    }
    if let Some(rest) = behind(b"CROWD", body) {
        return Ok(prices(alloc, count, rest)?.map(Evidence::Crowd));
    }
    if let Some(rest) = behind(b"OPEN", body) {
        return Ok(prices(alloc, count, rest)?.map(Evidence::Open));
    }
    Ok(None)
}

/// A cut, behind its word.
fn cut(alloc: Global, nodes: u32, bytes: &[u8]) -> Result<Option<Evidence>, AllocError>
    ensures { IfOk result (λ found. found ≡ option_and_then (cut_in nodes) (numbers_of bytes.now)) }
{
    match numbers(alloc, bytes)? {
        Some(numbers) => cut_in(alloc, nodes, numbers.as_slice()),
        None => Ok(None),
    }
}

/// One number of a link or a demand, and no other.
#[tactic(auto, unfolding(crate::specs::Bodies::lone_number))]
fn lone_number(alloc: Global, bytes: &[u8]) -> Result<Option<u32>, AllocError>
    ensures { IfOk result (λ found. found ≡ lone_number bytes.now) }
{
    match numbers(alloc, bytes)? {
        Some(numbers) => Ok(one_in(0, u32::MAX, numbers.as_slice())),
        None => Ok(None),
    }
}

/// An overfull link, behind the word.
fn overfull(alloc: Global, bytes: &[u8]) -> Result<Option<Evidence>, AllocError>
    ensures { IfOk result (λ found. found ≡ option_map overfull_with (lone_number bytes.now)) }
{
    match lone_number(alloc, bytes)? {
        Some(link) => Ok(Some(Evidence::Overfull { link: LinkId(link) })),
        None => Ok(None),
    }
}

/// A demand that is far, behind the word.
fn far(alloc: Global, bytes: &[u8]) -> Result<Option<Evidence>, AllocError>
    ensures { IfOk result (λ found. found ≡ option_map far_with (lone_number bytes.now)) }
{
    match lone_number(alloc, bytes)? {
        Some(demand) => Ok(Some(Evidence::Far {
            demand: DemandId(demand),
        })),
        None => Ok(None),
    }
}

/// The evidence of a leaf, with the numbers that stand for prices.
#[tactic(auto, unfolding(crate::specs::Bodies::leaf_of))]
pub(crate) fn leaf(
    alloc: Global,
    ground: &Ground,
    body: &[u8],
) -> Result<Option<Evidence>, AllocError>
    ensures { IfOk result (λ found. found ≡ leaf_of ground.now.nodes (width ground.now.form ground.now.entries) body.now) }
{
    if fixed(b"ROUTED", body).is_some() {
        return Ok(Some(Evidence::Routed));
    }
    if let Some(rest) = behind(b"OVERFULL", body) {
        return overfull(alloc, rest);
    }
    if let Some(rest) = behind(b"CUT", body) {
        return cut(alloc, ground.nodes, rest);
    }
    if let Some(rest) = behind(b"FAR", body) {
        return far(alloc, rest);
    }
    priced(alloc, ground.width(), body)
}
