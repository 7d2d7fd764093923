//! What is said of words that are not read.

ghost use Rattle.std.specs.Prelude.{◌≡◌, IfOk, IfErr};
ghost use Rattle.run_ends.specs.Ends.{IsUsage};

use command_texts::{Answer, Status, Stop};
use std::alloc::{AllocError, Global};

/// The answer to words that are not read: this usage line.
///
/// - Errors: want of memory alone.
/// - Rule: docs/DEFINITIONS.md, "Runs".
pub fn usage(alloc: Global, usage_line: &[u8]) -> Result<Answer, AllocError>
    ensures { IfOk result (λ answer. IsUsage usage_line.now answer.status answer.text.items) }
{
    Ok(Answer {
        status: Status::Usage,
        text: Vec::from_slice(alloc, usage_line)?,
    })
}

/// The same, where a run may stop.
///
/// - Errors: `OutOfMemory` alone.
/// - Rule: docs/DEFINITIONS.md, "Runs".
pub fn misread(alloc: Global, usage_line: &[u8]) -> Result<Answer, Stop>
    ensures usage { IfOk result (λ answer. IsUsage usage_line.now answer.status answer.text.items) }
    ensures wanting { IfErr result (λ stop. stop ≡ Stop.OutOfMemory) }
{
    match usage(alloc, usage_line) {
        Ok(answer) => Ok(answer),
        Err(AllocError) => Err(Stop::OutOfMemory),
    }
}
