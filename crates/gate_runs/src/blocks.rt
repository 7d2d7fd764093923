//! The blocks of a file of rows.

use std::alloc::Global;

/// A line that begins a block, and the lines behind it.
#[derive(Drop)]
pub(crate) struct Block {
    /// The words of the line.
    pub(crate) head: String,
    /// The lines, each with its end.
    pub(crate) text: String,
}

/// Adds this line and its end to the text. Where the line ends in `\` it gets no end, where it ends in `\r` a carriage
/// return before its end; a `\.` that it ends in is left out.
fn push_line(text: &mut String, line: &str) -> Option<()> {
    let (front, end) = match line.rsplit_once('\\') {
        Some((front, "")) => (front, ""),
        Some((front, "r")) => (front, "\r\n"),
        Some((front, ".")) => (front, "\n"),
        _ => (line, "\n"),
    };
    text.push_str(front).ok()?;
    text.push_str(end).ok()
}

/// Takes one line of the file: two spaces begin a line of the last block, and any other line begins a block. None where
/// there is no block yet, and where memory is wanting.
fn add_line(alloc: Global, blocks: &mut Vec<Block>, line: &str) -> Option<()> {
    if let Some(part) = line.strip_prefix("  ") {
        return push_line(&mut blocks.last_mut()?.text, part);
    }
    let head = String::from_str(alloc, line).ok()?;
    let text = String::new(alloc);
    blocks.push(Block { head, text }).ok()
}

/// The blocks of this file, in their order. Empty lines, and lines that begin with `#`, say nothing.
pub(crate) fn blocks_of(alloc: Global, file: &str) -> Option<Vec<Block>> {
    let mut blocks = Vec::new(alloc);
    for line in file.lines() {
        if !line.is_empty() && !line.starts_with('#') {
            add_line(alloc, &mut blocks, line)?;
        }
    }
    Some(blocks)
}
