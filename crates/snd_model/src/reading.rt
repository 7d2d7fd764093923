//! Reading a model text.

ghost use Rattle.std.specs.Prelude.{◌≤◌, length, IfOk, IfErr};
ghost use Rattle.snd_lexer.specs.declared.limits.TheConstants.{MAX_TEXT_BYTES};
ghost use Rattle.snd_reader.specs.declared.fault.TextFault.{TextFault};
ghost use Rattle.snd_reader.specs.Texts.{OnlyFile, OnlyFault};
ghost use Rattle.snd_model.specs.declared.file.ModelFile.{ModelFile};
ghost use Rattle.snd_model.specs.Spelling.{SpellsModel, IsFault};

use crate::file::ModelFile;
use crate::pairs::pairs;
use snd_lexer::Dialect;
use snd_reader::{TextFault, cut_text};
use std::alloc::Global;

/// The first line of a model text.
const HEADER: &[u8] = b"?SNDlib native format; type: model; version: 1.0";

/// Reads a model text.
///
/// - Takes: a text of at most `MAX_TEXT_BYTES` bytes.
/// - Gives: the model that the text spells.
/// - Errors: `Header`, exactly where the first line is not the header; else `Control`, exactly where a
///   byte that may stand in comments only stands in none, at the first; else `Unexpected`, `Twice` or
///   `Ended`, exactly at the first bad token, the end of the text being a token too; `OutOfMemory` in
///   place of any answer. `Unexpected` tells what is wanted there: `Key`, `Equals` or `Value`, and
///   `Nothing` behind the eighth pair. `Number`, `Unknown` and `LongId` never come.
/// - Rule: docs/FORMATS.md, "Model texts".
/// - Time: linear in the text.
pub fn read_model(alloc: Global, text: &[u8]) -> Result<ModelFile, TextFault>
    requires length { length text.now ≤ MAX_TEXT_BYTES }
    // The text spells this model.
    ensures value { IfOk result (SpellsModel text.now) }
    // It spells no other, and what it spells is the answer, unless memory runs out.
    ensures value_only { (file : ModelFile) → SpellsModel text.now file → OnlyFile result file }
    // This is wrong with the text.
    ensures fault { IfErr result (IsFault text.now) }
    // Nothing else is told of a text with this fault, unless memory runs out.
    ensures fault_only { (fault : TextFault) → IsFault text.now fault → OnlyFault result fault }
{
    told(alloc, text)
}

/// The model that the text spells, or what is wrong with it.
fn told(alloc: Global, text: &[u8]) -> Result<ModelFile, TextFault>
    requires { length text.now ≤ MAX_TEXT_BYTES }
    ensures value { IfOk result (SpellsModel text.now) }
    ensures fault { IfErr result (IsFault text.now) }
{
    let tokens = cut_text(alloc, Dialect::Model, HEADER, text)?;
    let draft = pairs(&mut tokens.cursor())?;
    let Some(file) = draft.file() else {
        unreachable!()
    };
    Ok(file)
}
