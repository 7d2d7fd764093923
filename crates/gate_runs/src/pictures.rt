//! Plans that are drawn.

use crate::programs::{Program, ended_alone};
use crate::texts::Texts;
use std::alloc::Global;

/// How many lines of this text have this part.
fn lines_with(text: &str, part: &str) -> usize {
    text.lines().filter(|line| line.contains(part)).count()
}

/// Adds the name of a run and its status, and how many lines of a picture have each of these parts.
fn tell_picture(
    name: &str,
    parts: &str,
    status: u8,
    picture: &[u8],
    text: &mut String,
) -> Option<()> {
    let picture = str::from_utf8(picture).ok()?;
    write!(text, "{name} {status}\n").ok()?;
    for part in parts.split(',') {
        write!(text, "  {part} {}\n", lines_with(picture, part)).ok()?;
    }
    Some(())
}

/// Draws what the words of this row name, and adds its name, the status, and how many lines have each of its parts.
pub(crate) fn draw_row(alloc: Global, texts: &Texts, rest: &str, text: &mut String) -> Option<()> {
    let (name, rest) = rest.split_once(' ')?;
    let (parts, line) = rest.split_once(" : ")?;
    let (status, sink) = ended_alone(alloc, Program::Pictures, line, texts.shelf(alloc)?)?;
    tell_picture(name, parts, status, sink.bytes(), text)
}
