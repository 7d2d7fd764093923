//! The line of each fault, of each verdict and of each kind of trial, and texts of plans that are written again.
//!
//! What must be written stands in the file `stdout`, worked out by hand, in the order of the cases here. To add a case,
//! write it in the table of its module and its line at the same place of `stdout`.

mod faults;
mod plans;
mod texts;
mod trials;
mod verdicts;

use crate::words::push_bytes;
use std::alloc::{AllocError, Global};

/// Adds a line. None where memory was wanting for it, or is.
fn push_line(line: Result<Vec<u8>, AllocError>, text: &mut Vec<u8>) -> Option<()> {
    text.extend_from_slice(line.ok()?.as_slice()).ok()
}

/// All lines.
fn lines(alloc: Global) -> Option<Vec<u8>> {
    let mut text = Vec::new(alloc);
    trials::tell_check(alloc, &mut text)?;
    faults::tell_faults(alloc, &mut text)?;
    verdicts::tell_verdicts(alloc, &mut text)?;
    trials::tell_trials(alloc, &mut text)?;
    texts::tell_texts(alloc, &mut text)?;
    Some(text)
}

/// Adds all lines. None where a case is not as its table says, and where memory is wanting.
pub(crate) fn tell_lines(alloc: Global, text: &mut String) -> Option<()> {
    let lines = lines(alloc)?;
    push_bytes(lines.as_slice(), text)
}
