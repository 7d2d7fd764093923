//! The texts of rows.

use std::alloc::Global;

/// What stands behind a `\` in a row for a character or for nothing, and that character.
const SIGNS: [(&str, &str); 12] = [
    ("n", "\n"),
    ("r", "\r"),
    ("t", "\t"),
    ("0", "\x00"),
    ("1", "\x01"),
    ("7", "\x7f"),
    ("8", "\x08"),
    ("v", "\x0b"),
    ("f", "\x0c"),
    ("u", "\x1f"),
    ("s", " "),
    ("e", ""),
];

/// Adds what stands behind a `\` of a row.
fn push_sign(text: &mut String, part: &str) -> Option<()> {
    for (sign, character) in SIGNS {
        if let Some(rest) = part.strip_prefix(sign) {
            text.push_str(character).ok()?;
            return text.push_str(rest).ok();
        }
    }
    None
}

/// The text that a row spells. None where it has a sign that is none, and where memory is wanting.
pub(crate) fn text_of(alloc: Global, row: &str) -> Option<String> {
    let mut parts = row.split('\\');
    let mut text = String::from_str(alloc, parts.next()?).ok()?;
    for part in parts {
        push_sign(&mut text, part)?;
    }
    Some(text)
}
