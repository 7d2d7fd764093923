//! Reading a network text.

ghost use Rattle.std.specs.Prelude.{◌≡◌, ◌≤◌, ◌<◌, ◌^◌, length, true, IfOk, IfErr};
ghost use Rattle.snd_lexer.specs.declared.limits.TheConstants.{MAX_TEXT_BYTES};
ghost use Rattle.snd_reader.specs.declared.fault.TextFault.{TextFault};
ghost use Rattle.snd_reader.specs.Texts.{OnlyFile, OnlyFault};
ghost use Rattle.snd_network.specs.declared.file.NetworkFile.{NetworkFile};
ghost use Rattle.snd_network.specs.Tests.{is_complete};
ghost use Rattle.snd_network.specs.Spelling.{SpellsDraft, SpellsNetwork, IsFault};
ghost use Rattle.snd_network.specs.WellFormed.{IsWellFormed};
ghost use Rattle.snd_network.specs.Ends.{names_of};

use crate::draft::Draft;
use crate::file::NetworkFile;
use crate::resolve::file_of;
use crate::sections::network;
use snd_lexer::Dialect;
use snd_reader::{TextFault, cut_text};
use std::alloc::Global;

/// The first line of a network text.
const HEADER: &[u8] = b"?SNDlib native format; type: network; version: 1.0";

/// Reads a network text.
///
/// - Takes: a text of at most `MAX_TEXT_BYTES` bytes.
/// - Gives: the network that the text spells. Numbers are in millionths of their units; routing units and
///   hop limits are whole.
/// - Errors: `Header`, exactly where the first line is not the header; else `Control`, exactly where a
///   byte that may stand in comments only stands in none, at the first; else `Unexpected`, `Number`,
///   `Twice`, `LongId` or `Ended`, exactly at the first bad token; else `Unknown`, exactly at the first
///   name that is no node, those of links before those of demands; `OutOfMemory` may stand in place of any answer.
/// - Rule: docs/FORMATS.md, "Network texts".
/// - Time: linear in the text but for the look-up of names.
pub fn read_network(alloc: Global, text: &[u8]) -> Result<NetworkFile, TextFault>
    requires length { length text.now ≤ MAX_TEXT_BYTES }
    // The text spells this network.
    ensures value { IfOk result (SpellsNetwork text.now) }
    // It spells no other, and what it spells is the answer, unless memory runs out.
    ensures value_only { (file : NetworkFile) → SpellsNetwork text.now file → OnlyFile result file }
    // The network is one that a text can hold.
    ensures formed { IfOk result IsWellFormed }
    // This is wrong with the text.
    ensures fault { IfErr result (IsFault text.now) }
    // Nothing else is told of a text with this fault, unless memory runs out.
    ensures fault_only { (fault : TextFault) → IsFault text.now fault → OnlyFault result fault }
{
    let draft = read_draft(alloc, text)?;
    file_of(alloc, draft)
}

/// The sections of a network text.
fn read_draft(alloc: Global, text: &[u8]) -> Result<Draft, TextFault>
    requires { length text.now ≤ MAX_TEXT_BYTES }
    ensures value { IfOk result (SpellsDraft text.now) }
    ensures complete { IfOk result (λ draft. is_complete draft ≡ true) }
    ensures few { IfOk result (λ draft. length (names_of draft.nodes) < 2 ^ 32) }
    ensures fault { IfErr result (IsFault text.now) }
{
    let tokens = cut_text(alloc, Dialect::Network, HEADER, text)?;
    network(&mut tokens.cursor(), alloc)
}
