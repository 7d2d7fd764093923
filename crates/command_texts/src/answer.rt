//! What a run has to say, and how it is written.

ghost use Rattle.std.specs.Prelude.{◌≡◌, ◌≤◌, IfOk};
ghost use Rattle.plan_io.specs.Causes.{Rose};
ghost use Rattle.command_texts.specs.Answers.{IsWholeAnswer, IsWritten};

use crate::status::Status;
use crate::stop::Stop;
use plan_io::{Sink, write_whole};
use plan_report::fault_line;
use std::alloc::{AllocError, Global};

/// A status and the whole text that goes with it.
#[derive(Drop)]
pub struct Answer {
    pub status: Status,
    pub text: Vec<u8>,
}

/// The answer that was found, or that of a refusal.
fn whole_answer(alloc: Global, found: Result<Answer, Stop>) -> Result<Answer, AllocError>
    ensures { IfOk result (λ answer. IsWholeAnswer found answer.status answer.text.items) }
{
    match found {
        Ok(answer) => Ok(answer),
        Err(Stop::Refused(fault)) => Ok(Answer {
            status: Status::of_fault(fault),
            text: fault_line(alloc, fault)?,
        }),
        Err(Stop::OutOfMemory) => Err(AllocError),
    }
}

/// Writes what was found: an answer, or the line of a refusal. Nothing is written before the whole text is made, and
/// nothing where memory is wanting.
///
/// - Gives: the status of what was found; `WriteFault` where the sink failed; `OutOfMemory` where memory was wanting.
/// - Rule: docs/DEFINITIONS.md, "Runs".
/// - Time: linear in the text's bytes.
pub fn write_answer<W: Sink>(alloc: Global, out: &mut W, found: Result<Answer, Stop>) -> Status
    ensures written { IsWritten found (W.contents out.old) (W.contents out.new) result }
    ensures write_fault { result ≡ Status.WriteFault → IfOk found (λ answer. answer.status ≡ Status.WriteFault → ⊥)
        → Rose (W.faults out.old) (W.faults out.new) }
    ensures later { W.faults out.old ≤ W.faults out.new }
{
    let Ok(answer) = whole_answer(alloc, found) else {
        return Status::OutOfMemory;
    };
    match write_whole(out, answer.text.as_slice()) {
        Ok(()) => answer.status,
        Err(_) => Status::WriteFault,
    }
}
