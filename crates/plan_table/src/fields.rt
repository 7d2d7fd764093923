//! Fields of a table of comma-separated values.

ghost use Rattle.std.specs.Prelude.{◌≡◌, ◌++◌, ◌∷◌, decimal, OnOk};
ghost use Rattle.std.specs.List.{list_any, flat_map};
ghost use Rattle.plan_table.specs.Fields.{is_special, quoted_byte, quoted, field, parted};

use itoa::Buffer;
use std::alloc::AllocError;

/// Whether a field may have the byte only within quotes.
fn is_special(byte: u8) -> bool
    ensures { result ≡ is_special byte }
{
    byte == b',' || byte == b'"' || byte == b'\n' || byte == b'\r'
}

/// Whether a field of these bytes must stand within quotes.
fn has_special(bytes: &[u8]) -> bool
    ensures { result ≡ list_any is_special bytes.now }
{
    bytes.iter().any(|byte| is_special(*byte))
}

/// Writes a byte within quotes.
fn push_quoted_byte(text: &mut Vec<u8>, byte: u8) -> Result<(), AllocError>
    ensures { OnOk result (text.new.items ≡ text.old.items ++ quoted_byte byte) }
{
    if byte == b'"' {
        return text.extend_from_slice(b"\"\"");
    }
    text.push(byte)?;
    Ok(())
}

/// Writes bytes of which each may have to stand twice.
#[tactic(auto, using(plan_report::proofs::Lists::lists))]
fn push_quoted_bytes(text: &mut Vec<u8>, bytes: &[u8]) -> Result<(), AllocError>
    ensures { OnOk result (text.new.items ≡ text.old.items ++ flat_map quoted_byte bytes.now) }
{
    for byte in bytes {
        push_quoted_byte(text, *byte)?;
    }
    Ok(())
}

/// Writes bytes within quotes.
fn push_quoted(text: &mut Vec<u8>, bytes: &[u8]) -> Result<(), AllocError>
    ensures { OnOk result (text.new.items ≡ text.old.items ++ quoted bytes.now) }
{
    text.push(b'"')?;
    push_quoted_bytes(text, bytes)?;
    text.push(b'"')?;
    Ok(())
}

/// Writes a comma and a field of these bytes, within quotes where one of them asks for it.
#[tactic(auto, unfolding(crate::specs::Fields::field))]
pub fn push_field(text: &mut Vec<u8>, bytes: &[u8]) -> Result<(), AllocError>
    ensures { OnOk result (text.new.items ≡ text.old.items ++ 44 ∷ field bytes.now) }
{
    text.push(b',')?;
    if has_special(bytes) {
        push_quoted(text, bytes)
    } else {
        text.extend_from_slice(bytes)
    }
}

/// Writes the digits of a number.
pub fn push_digits(text: &mut Vec<u8>, number: u64) -> Result<(), AllocError>
    ensures { OnOk result (text.new.items ≡ text.old.items ++ decimal number) }
{
    text.extend_from_slice(Buffer::new().format(number).as_bytes())
}

/// Words of which each stands behind a blank, without the first blank.
pub fn parted(words: &[u8]) -> &[u8]
    ensures { result.now ≡ parted words.now }
{
    match words {
        [_, rest @ ..] => rest,
        [] => words,
    }
}
