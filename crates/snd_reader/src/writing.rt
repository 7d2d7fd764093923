//! Writing tokens, each with a space in front.

ghost use Rattle.std.specs.Prelude.{◌≡◌, ◌++◌, ◌∷◌, [], OnOk};
ghost use Rattle.snd_reader.specs.Readers.{word, open_bracket, close_bracket};
ghost use Rattle.snd_reader.specs.Writing.{spaced, grains, whole};

use itoa::Buffer;
use scaled_numbers::write_grains;
use std::alloc::AllocError;

/// Writes a space and the word.
pub fn push_word(text: &mut Vec<u8>, bytes: &[u8]) -> Result<(), AllocError>
    ensures { OnOk result (text.new.items ≡ text.old.items ++ spaced (word bytes.now ∷ [])) }
{
    text.push(b' ')?;
    text.extend_from_slice(bytes)
}

/// Writes a space and an opening bracket.
pub fn push_open(text: &mut Vec<u8>) -> Result<(), AllocError>
    ensures { OnOk result (text.new.items ≡ text.old.items ++ spaced (open_bracket ∷ [])) }
{
    text.extend_from_slice(b" (")
}

/// Writes a space and a closing bracket.
pub fn push_close(text: &mut Vec<u8>) -> Result<(), AllocError>
    ensures { OnOk result (text.new.items ≡ text.old.items ++ spaced (close_bracket ∷ [])) }
{
    text.extend_from_slice(b" )")
}

/// Writes a space and a number of millionths.
pub fn push_grains(text: &mut Vec<u8>, value: u64) -> Result<(), AllocError>
    ensures { OnOk result (text.new.items ≡ text.old.items ++ spaced (grains value ∷ [])) }
{
    text.push(b' ')?;
    write_grains(u128::from(value), 6, text)
}

/// Writes a space and a whole number.
pub fn push_whole(text: &mut Vec<u8>, value: u64) -> Result<(), AllocError>
    ensures { OnOk result (text.new.items ≡ text.old.items ++ spaced (whole value ∷ [])) }
{
    push_word(text, Buffer::new().format(value).as_bytes())
}
