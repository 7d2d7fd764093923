//! The words of a row.

/// The number that these words begin with, and the words behind it. None where the first is no number below 2 ^ 32.
pub(crate) fn first_number(words: &str) -> Option<(u32, &str)> {
    let (number, rest) = words.split_once(' ')?;
    Some((number.parse::<u32>().ok()?, rest))
}

/// Adds these bytes. None where they are no UTF-8, and where memory is wanting.
pub(crate) fn push_bytes(bytes: &[u8], text: &mut String) -> Option<()> {
    text.push_str(str::from_utf8(bytes).ok()?).ok()
}
