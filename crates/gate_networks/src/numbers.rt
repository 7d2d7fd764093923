//! Numbers of a row.

use std::alloc::Global;

/// The numbers of this text, which single characters part.
///
/// - Gives: None where a part is no number below 2 ^ 64, and where memory is wanting.
pub fn numbers_of(alloc: Global, text: &str, between: char) -> Option<Vec<u64>> {
    let mut numbers = Vec::new(alloc);
    for word in text.split(between) {
        let number = word.parse::<u64>().ok()?;
        numbers.push(number).ok()?;
    }
    Some(numbers)
}
