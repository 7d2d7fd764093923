//! Numbers behind blanks.

ghost use Rattle.std.specs.Prelude.{◌≡◌, ◌++◌, ◌∷◌, [], OnOk, IfOk};
ghost use Rattle.plan_report.specs.Lines.{numbers, line};

use itoa::Buffer;
use std::alloc::{AllocError, Global};

/// Writes a blank and the number.
pub fn push_number(text: &mut Vec<u8>, number: u64) -> Result<(), AllocError>
    ensures { OnOk result (text.new.items ≡ text.old.items ++ numbers (number ∷ [])) }
{
    text.push(b' ')?;
    text.extend_from_slice(Buffer::new().format(number).as_bytes())
}

/// Writes each number behind a blank.
///
/// - Errors: want of memory alone.
#[tactic(auto, using(crate::proofs::Lists::lists))]
pub fn push_numbers(text: &mut Vec<u8>, all: &[u64]) -> Result<(), AllocError>
    ensures { OnOk result (text.new.items ≡ text.old.items ++ numbers all.now) }
{
    for number in all {
        push_number(text, *number)?;
    }
    Ok(())
}

/// A line that begins with these words and goes on with these numbers.
pub fn line(alloc: Global, words: &[u8], all: &[u64]) -> Result<Vec<u8>, AllocError>
    ensures { IfOk result (λ text. text.items ≡ line words.now all.now) }
{
    let mut text = Vec::from_slice(alloc, words)?;
    push_numbers(&mut text, all)?;
    text.push(b'\n')?;
    Ok(text)
}
