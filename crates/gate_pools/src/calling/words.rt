//! Numbers, nodes, versions and prices.

use gate_networks::prices_of;
use plan_base::{BranchId, Prices};
use std::alloc::Global;

/// The number that these words begin with, and the words behind it.
///
/// - Gives: None where the first is no number below 2 ^ 32.
pub(crate) fn first_number(words: &str) -> Option<(u32, &str)> {
    let (number, rest) = words.split_once(' ')?;
    Some((number.parse::<u32>().ok()?, rest))
}

/// The node of this word.
///
/// - Gives: None where it is no number below 2 ^ 32.
pub(crate) fn node_of(word: &str) -> Option<BranchId> {
    let number = word.parse::<u32>().ok()?;
    Some(BranchId(number))
}

/// The node and the version of two words.
///
/// - Gives: None where these are no numbers below 2 ^ 32 and 2 ^ 64.
pub(crate) fn round_of(words: &str) -> Option<(BranchId, u64)> {
    let (node, version) = first_number(words)?;
    Some((BranchId(node), version.parse::<u64>().ok()?))
}

/// The node, the version and the prices of three words, in thousandths of a cost grain per load grain.
///
/// - Gives: None where a word is not one, and where memory is wanting.
pub(crate) fn raise_of(alloc: Global, words: &str) -> Option<(BranchId, u64, Prices)> {
    let (node, words) = first_number(words)?;
    let (version, prices) = first_number(words)?;
    let prices = Prices::from_vec(prices_of(alloc, prices)?);
    Some((BranchId(node), u64::from(version), prices))
}
