//! Lists of a word.

use crate::numbers::numbers_of;
use plan_base::{ArcId, Path};
use std::alloc::Global;

/// The numbers of a word, which commas part: `-` for none.
///
/// - Gives: None where a part is no number below 2 ^ 64, and where memory is wanting.
pub fn list_of(alloc: Global, word: &str) -> Option<Vec<u64>> {
    if word == "-" {
        return Some(Vec::new(alloc));
    }
    numbers_of(alloc, word, ',')
}

/// The prices or potentials of a word, in thousandths of a cost grain per load grain.
///
/// - Gives: None as `list_of`.
pub fn prices_of(alloc: Global, word: &str) -> Option<Vec<u128>> {
    let mut prices = Vec::new(alloc);
    for number in list_of(alloc, word)?.iter() {
        prices.push(u128::from(*number)).ok()?;
    }
    Some(prices)
}

/// The path of the arcs of a word.
///
/// - Gives: None as `list_of`, and where an arc is not below 2 ^ 32.
pub fn path_of(alloc: Global, word: &str) -> Option<Path> {
    let mut arcs = Vec::new(alloc);
    for number in list_of(alloc, word)?.iter() {
        let number = u32::try_from(*number).ok()?;
        arcs.push(ArcId(number)).ok()?;
    }
    Some(Path::from_vec(arcs))
}
