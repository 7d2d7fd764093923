//! Model texts.

use crate::words::push_bytes;
use snd_lexer::MAX_TEXT_BYTES;
use snd_model::{KEYS, ModelFile, read_model, write_model};
use snd_reader::TextFault;
use std::alloc::Global;

/// The first line of a model text.
const FIRST_LINE: &str = "?SNDlib native format; type: model; version: 1.0\n";

/// A line for each key.
const LINES: [&str; 8] = [
    "DEMAND_MODEL=UNDIRECTED",
    "LINK_MODEL=UNDIRECTED",
    "LINK_CAPACITY_MODEL=MODULAR",
    "FIXED_CHARGE_MODEL=NO",
    "ROUTING_MODEL=SINGLE_PATH",
    "ADMISSIBLE_PATH_MODEL=ALL",
    "HOP_LIMIT_MODEL=NO",
    "SURVIVABILITY_MODEL=NO",
];

/// What is read of a model text. None where it has too many bytes.
fn read(alloc: Global, model: &str) -> Option<Result<ModelFile, TextFault>> {
    if model.len() > MAX_TEXT_BYTES {
        return None;
    }
    Some(read_model(alloc, model.as_bytes()))
}

/// Adds the numbers of the values of all keys.
fn tell_numbers(file: &ModelFile, text: &mut String) -> Option<()> {
    text.push_str("read").ok()?;
    for key in KEYS {
        write!(text, " {}", file.setting(key).number()).ok()?;
    }
    Some(())
}

/// Adds what is told of a model text: the values that are read, or its fault.
pub(crate) fn tell(alloc: Global, model: &str, text: &mut String) -> Option<()> {
    match read(alloc, model)? {
        Ok(file) => tell_numbers(&file, text),
        Err(fault) => write!(text, "{fault:?}").ok(),
    }
}

/// The same of the text of a first line and this part.
pub(crate) fn tell_begun(alloc: Global, part: &str, text: &mut String) -> Option<()> {
    let model = format!(in alloc; "{FIRST_LINE}{part}").ok()?;
    tell(alloc, model.as_str(), text)
}

/// This line and, behind it, those of all keys but its own.
fn with_others(alloc: Global, line: &str) -> Option<String> {
    let (key, _) = line.split_once('=')?;
    let mut lines = String::from_str(alloc, line).ok()?;
    for other in LINES {
        if other.split_once('=').is_none_or(|(named, _)| named != key) {
            write!(lines, " {other}").ok()?;
        }
    }
    Some(lines)
}

/// Adds what is told of the text of a first line, this line, and those of all other keys.
pub(crate) fn tell_line(alloc: Global, line: &str, text: &mut String) -> Option<()> {
    let lines = with_others(alloc, line)?;
    tell_begun(alloc, lines.as_str(), text)
}

/// Adds the canonical text of the model that this text spells.
pub(crate) fn tell_again(alloc: Global, model: &str, text: &mut String) -> Option<()> {
    let file = read(alloc, model)?.ok()?;
    let canonical = write_model(alloc, &file).ok()?;
    push_bytes(canonical.as_slice(), text)
}
