//! What the numbers of a set of nodes are read as.

ghost use Rattle.std.specs.Prelude.{◌≡◌, Some, None, IfOk};
ghost use Rattle.cert_format.specs.Bodies.{behind_number, flags_of, set_of};
ghost use Rattle.plan_tokens.specs.Cuts.{found_now, items_of};

use crate::bodies::uncounted;
use std::alloc::{AllocError, Global};

/// The numbers behind the first, where that is this one.
#[tactic(auto, unfolding(crate::specs::Bodies::behind_number))]
fn behind_number(numbers: &[u128], at: u32) -> Option<&[u128]>
    ensures { found_now result ≡ behind_number at numbers.now }
{
    match numbers {
        [first, rest @ ..] => {
            if *first == u128::from(at) {
                Some(rest)
            } else {
                None
            }
        }
        [] => None,
    }
}

/// For each of so many nodes whether it is in the ascending list, where the list is one.
#[tactic(auto, using(plan_tokens::proofs::NumberWords::with_nothing, crate::proofs::Flags::flags_in, crate::proofs::Flags::flags_out, crate::proofs::Flags::flags_end))]
fn flags(alloc: Global, nodes: u32, numbers: &[u128]) -> Result<Option<Vec<bool>>, AllocError>
    ensures { IfOk result (λ found. items_of found ≡ flags_of 0 nodes numbers.now) }
{
    let mut flags = Vec::new(alloc);
    let mut rest = numbers;
    for node in 0..nodes {
        match behind_number(rest, node) {
            Some(behind) => {
                flags.push(true)?;
                rest = behind;
            }
            None => flags.push(false)?,
        }
    }
    if rest.is_empty() {
        Ok(Some(flags))
    } else {
        Ok(None)
    }
}

/// A set of nodes, behind the count of its nodes: for each node whether it is in the set.
#[tactic(auto, unfolding(crate::specs::Bodies::set_of))]
pub(crate) fn node_set(
    alloc: Global,
    nodes: u32,
    numbers: &[u128],
) -> Result<Option<Vec<bool>>, AllocError>
    ensures { IfOk result (λ found. items_of found ≡ set_of nodes numbers.now) }
{
    match uncounted(nodes as usize, numbers) {
        Some(members) => flags(alloc, nodes, members),
        None => Ok(None),
    }
}
