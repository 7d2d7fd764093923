//! What answers are made of.

use plan_base::Path;

/// Adds a word, and a number behind a blank.
pub(crate) fn tell_number(word: &str, number: u128, text: &mut String) -> Option<()> {
    write!(text, "{word} {number}").ok()
}

/// Adds the arcs of a path.
pub(crate) fn tell_path(path: &Path, text: &mut String) -> Option<()> {
    text.push_str(" arcs").ok()?;
    for arc in path.as_slice() {
        tell_number("", u128::from(arc.0), text)?;
    }
    Some(())
}

/// Adds a word, and which node is reached.
pub(crate) fn tell_reached(word: &str, reached: &[bool], text: &mut String) -> Option<()> {
    write!(text, "{word}, reached {reached:?}").ok()
}

/// Adds a word, and numbers behind a blank.
pub(crate) fn tell_list(word: &str, numbers: &[u128], text: &mut String) -> Option<()> {
    write!(text, "{word} {numbers:?}").ok()
}

/// Adds the number of the first case of this kind that differs, where one does.
pub(crate) fn tell_differing(kind: &str, first: Option<u32>, text: &mut String) -> Option<()> {
    match first {
        Some(number) => write!(text, " {kind} {number} differs").ok(),
        None => text.push_str(" none differs").ok(),
    }
}
