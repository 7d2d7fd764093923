//! A whole text comes in.

ghost use Rattle.std.specs.Prelude.{◌≡◌, ◌<◌, ◌≤◌, ◌^◌, length, IfOk, IfSome, ◌⊎◌, IsErrOf};
ghost use Rattle.plan_io.specs.Causes.{Rose, CountsUp};
ghost use Rattle.plan_io.specs.declared.reading.ReadWhole.TheVariants.{ReadFault, OutOfMemory};

use crate::failed::Failed;
use crate::shelf::Shelf;
use std::alloc::{AllocError, Global};
use thiserror::Error;

/// How many bytes are asked for at a time.
const CHUNK: usize = 4096;

/// Why a text was not read.
#[derive(Clone, Copy, Debug, PartialEq, Eq, Error)]
pub enum ReadWhole {
    #[error("the text could not be read")]
    ReadFault,
    #[error("the text is too long")]
    TooLong,
    #[error("out of memory")]
    OutOfMemory,
}

impl From<Failed> for ReadWhole {
    ghost from_gives = { λ _ e. e ≡ ReadFault };

    fn from(_failed: Failed) -> ReadWhole {
        ReadWhole::ReadFault
    }
}

impl From<AllocError> for ReadWhole {
    ghost from_gives = { λ _ e. e ≡ OutOfMemory };

    fn from(_error: AllocError) -> ReadWhole {
        ReadWhole::OutOfMemory
    }
}

/// The text of this name, if it has at most `limit` bytes.
///
/// - Takes: the greatest length, in bytes.
/// - Gives: the whole text, where the shelf tells it.
/// - Errors: `ReadFault`, only where the shelf's count of faults rose in this call. `TooLong`, only
///   where more than `limit` bytes were taken, and for each longer text that the shelf tells, unless
///   a fault rose. `OutOfMemory` may come in place of any answer. The shelf is left where the reading
///   stopped.
/// - Rule: docs/DEFINITIONS.md, "Shelves, sinks and gates".
/// - Time: linear in the bytes read.
pub fn read_whole<S: Shelf>(
    alloc: Global,
    shelf: &mut S,
    name: &str,
    limit: u64,
) -> Result<Vec<u8>, ReadWhole>
    requires { limit < 2 ^ 63 }

    ensures text { IfOk result (λ bytes. IfSome (S.text shelf.old name.now) (λ text. bytes.items ≡ text)) }
    ensures within { IfOk result (λ bytes. length bytes.items ≤ limit) }
    ensures taken { IfOk result (λ bytes. S.taken shelf.new ≡ length bytes.items) }

    ensures read_fault { IsErrOf result ReadWhole.ReadFault → Rose (S.faults shelf.old) (S.faults shelf.new) }
    ensures too_long { IsErrOf result ReadWhole.TooLong → limit < S.taken shelf.new }
    ensures too_long_told { IsErrOf result ReadWhole.TooLong →
        IfSome (S.text shelf.old name.now) (λ text. limit < length text) }
    // A told text that is longer is answered so, unless a fault rose or memory is wanting.
    ensures longer { IfSome (S.text shelf.old name.now) (λ text. limit < length text →
        IsErrOf result ReadWhole.TooLong ⊎ IsErrOf result ReadWhole.OutOfMemory
        ⊎ Rose (S.faults shelf.old) (S.faults shelf.new)) }

    ensures later { S.faults shelf.old ≤ S.faults shelf.new }
    ensures begins { CountsUp (S.begins shelf.old) (S.begins shelf.new) }
    ensures texts { S.text shelf.new ≡ S.text shelf.old }
{
    shelf.begin(name)?;
    let mut bytes = Vec::new(alloc);
    let mut chunk = [0u8; CHUNK];
    loop {
        let count = shelf.read(&mut chunk)?;
        if count == 0 {
            return Ok(bytes);
        }
        if count as u64 > limit - bytes.len() as u64 {
            return Err(ReadWhole::TooLong);
        }
        bytes.extend_from_slice(&chunk[..count])?;
    }
}
