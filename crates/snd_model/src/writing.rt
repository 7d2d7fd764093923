//! Writing a model as its canonical text.

ghost use Rattle.std.specs.Prelude.{◌≡◌, ◌++◌, flat_map, OnOk, IfOk};
ghost use Rattle.snd_model.specs.Grammar.{setting_of};
ghost use Rattle.snd_model.specs.Writing.{line, model_text};

use crate::file::ModelFile;
use crate::keys::{KEYS, Key};
use crate::setting::Setting;
use std::alloc::{AllocError, Global};

/// The canonical text of a model.
///
/// - Gives: the header line, then a line `KEY = VALUE` for each key in the order of the model table,
///   with the first spelling of its value. `read_model` reads it as the same model.
/// - Errors: want of memory alone.
/// - Rule: docs/FORMATS.md, "Model texts".
/// - Time: linear in the text.
pub fn write_model(alloc: Global, file: &ModelFile) -> Result<Vec<u8>, AllocError>
    ensures { IfOk result (λ text. text.items ≡ model_text file.now) }
{
    let mut text = Vec::new(alloc);
    text.extend_from_slice(b"?SNDlib native format; type: model; version: 1.0\n")?;
    push_lines(&mut text, file, &KEYS)?;
    Ok(text)
}

/// Writes the lines of these keys.
fn push_lines(text: &mut Vec<u8>, file: &ModelFile, keys: &[Key]) -> Result<(), AllocError>
    ensures { OnOk result (text.new.items ≡ text.old.items ++ flat_map (λ key. line (setting_of file.now key)) keys.now) }
{
    for key in keys {
        push_line(text, file.setting(*key))?;
    }
    Ok(())
}

/// Writes the line of a setting.
#[tactic(auto, unfolding(crate::specs::Writing::line))]
fn push_line(text: &mut Vec<u8>, setting: Setting) -> Result<(), AllocError>
    ensures { OnOk result (text.new.items ≡ text.old.items ++ line setting) }
{
    text.extend_from_slice(setting.key().word())?;
    text.extend_from_slice(b" = ")?;
    text.extend_from_slice(setting.word())?;
    text.push(b'\n')?;
    Ok(())
}
