//! Network and model texts, tokens and numbers, and what is told of each.
//!
//! The file of rows has texts that are read, in every part of their grammar, and texts with one or more faults each. To
//! add one, write it there in the form that the head of the file explains, and what is told of it, worked out by hand, at
//! the same place of the file `stdout`. Begin at `tell_row`.

mod models;
mod networks;
mod numbers;
mod pieces;
mod texts;

use snd_lexer::Dialect;
use std::alloc::Global;
use texts::text_of;

/// Adds what is told of the text of a row of this kind. None where there is no such kind, where the text is none of it, and
/// where memory is wanting.
fn tell_text(alloc: Global, kind: &str, part: &str, text: &mut String) -> Option<()> {
    match kind {
        "network" => networks::tell_begun(alloc, part, text),
        "network-text" => networks::tell(alloc, part, text),
        "network-again" => networks::tell_again(alloc, part, text),
        "model" => models::tell_begun(alloc, part, text),
        "model-text" => models::tell(alloc, part, text),
        "model-line" => models::tell_line(alloc, part, text),
        "model-again" => models::tell_again(alloc, part, text),
        "number" => numbers::tell(part, text),
        "zeros" => numbers::tell_zeros(alloc, part, text),
        "grains" => numbers::tell_grains(alloc, part, text),
        "grain" => numbers::tell_grain(part, text),
        "tokens" => pieces::tell(alloc, part.as_bytes(), Dialect::Network, text),
        "model-tokens" => pieces::tell(alloc, part.as_bytes(), Dialect::Model, text),
        "bytes" => pieces::tell_numbers(alloc, part, text),
        "header" => pieces::tell_header(part.as_bytes(), text),
        _ => None,
    }
}

/// Adds what is told of the text of a row, and behind it the text as the row has it.
fn tell_row(alloc: Global, row: &str, text: &mut String) -> Option<()> {
    let (kind, part) = row.split_once(' ')?;
    let spelt = text_of(alloc, part)?;
    tell_text(alloc, kind, spelt.as_str(), text)?;
    write!(text, " | {part}\n").ok()
}

/// Adds what is told of each row of this file.
pub(crate) fn tell_rows(alloc: Global, file: &str, text: &mut String) -> Option<()> {
    for row in file.lines() {
        if !row.is_empty() && !row.starts_with('#') {
            tell_row(alloc, row, text)?;
        }
    }
    Some(())
}
