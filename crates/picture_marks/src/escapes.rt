//! Names as an SVG text has them.

ghost use Rattle.std.specs.Prelude.{◌≡◌, ◌++◌, OnOk};
ghost use Rattle.picture_marks.specs.Escapes.{escaped_byte, escaped};

use std::alloc::AllocError;

/// Writes a byte of a name.
fn push_byte(text: &mut Vec<u8>, byte: u8) -> Result<(), AllocError>
    ensures { OnOk result (text.new.items ≡ text.old.items ++ escaped_byte byte) }
{
    match byte {
        b'<' => text.extend_from_slice(b"&lt;"),
        b'>' => text.extend_from_slice(b"&gt;"),
        b'&' => text.extend_from_slice(b"&amp;"),
        b'\'' => text.extend_from_slice(b"&apos;"),
        b'"' => text.extend_from_slice(b"&quot;"),
        _ => {
            text.push(byte)?;
            Ok(())
        }
    }
}

/// Writes a name, with the bytes that mean something in an SVG text by their entities.
///
/// - Errors: want of memory alone.
/// - Rule: docs/DEFINITIONS.md, "Pictures".
/// - Time: linear in the name.
#[tactic(auto, using(crate::proofs::Lists::lists))]
pub fn push_escaped(text: &mut Vec<u8>, name: &[u8]) -> Result<(), AllocError>
    ensures { OnOk result (text.new.items ≡ text.old.items ++ escaped name.now) }
{
    for byte in name {
        push_byte(text, *byte)?;
    }
    Ok(())
}
