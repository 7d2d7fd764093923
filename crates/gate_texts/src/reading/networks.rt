//! Network texts.

ghost use Rattle.std.specs.Prelude.{IfOk, IfSome};
ghost use Rattle.snd_network.specs.WellFormed.{IsWellFormed};

use crate::words::push_bytes;
use snd_lexer::MAX_TEXT_BYTES;
use snd_network::{NetworkFile, read_network, write_network};
use snd_reader::TextFault;
use std::alloc::Global;

/// The first line of a network text.
const FIRST_LINE: &str = "?SNDlib native format; type: network; version: 1.0\n";

/// What is read of a network text. None where it has too many bytes.
fn read(alloc: Global, network: &str) -> Option<Result<NetworkFile, TextFault>>
    ensures { IfSome result (λ read. IfOk read IsWellFormed) }
{
    if network.len() > MAX_TEXT_BYTES {
        return None;
    }
    Some(read_network(alloc, network.as_bytes()))
}

/// Adds what is told of a network text: that it is read, or its fault.
pub(crate) fn tell(alloc: Global, network: &str, text: &mut String) -> Option<()> {
    match read(alloc, network)? {
        Ok(_) => text.push_str("read").ok(),
        Err(fault) => write!(text, "{fault:?}").ok(),
    }
}

/// The same of the text of a first line, this part and a line's end.
pub(crate) fn tell_begun(alloc: Global, part: &str, text: &mut String) -> Option<()> {
    let network = format!(in alloc; "{FIRST_LINE}{part}\n").ok()?;
    tell(alloc, network.as_str(), text)
}

/// Adds the canonical text of the network that this text spells.
pub(crate) fn tell_again(alloc: Global, network: &str, text: &mut String) -> Option<()> {
    let file = read(alloc, network)?.ok()?;
    let canonical = write_network(alloc, &file).ok()?;
    push_bytes(canonical.as_slice(), text)
}
