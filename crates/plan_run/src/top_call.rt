//! The top call.

ghost use Rattle.std.specs.Prelude.{◌≡◌, ◌≤◌, ◌⊎◌, map, string_bytes};
ghost use Rattle.plan_io.specs.Causes.{Rose};
ghost use Rattle.command_texts.specs.Refusals.{counts_of};
ghost use Rattle.run_ends.specs.Ends.{IsOwnEnd};
ghost use Rattle.plan_run.specs.Runs.{texts_in_words, IsCommandRun};
ghost use Rattle.plan_run.specs.Supports.{IsEndOfWork};

use crate::commands::answer_to;
use command_texts::{Status, write_answer};
use plan_io::{Gate, Shelf, Sink};
use std::alloc::Global;
use std::sync::Wait;
use std::thread::Threads;

/// Runs the command of these words, and writes its answer. Nothing is written before the whole
/// output is made.
///
/// - Takes: what starts threads; the words after the program's name; a shelf that has the texts that they name; the
///   sink that the answer goes to; a gate that each worker of a `plan` passes with each task.
/// - Gives: how the run ended.
/// - Rule: docs/DEFINITIONS.md, "Runs"; docs/FORMATS.md.
/// - Time: that of reading the texts (`command_texts::read_planned`), and that of the search or of verifying the plan.
#[tactic(auto, using(run_ends::proofs::Ending::read_rose, run_ends::proofs::Ending::no_write_fault, crate::proofs::WorkEnds::work_ends))]
pub fn run<R: Threads + Wait + Sync, S: Shelf, W: Sink, G: Gate>(
    rt: &R,
    alloc: Global,
    words: &[String],
    shelf: &mut S,
    out: &mut W,
    gate: &G,
) -> Status
    ensures answer { IsCommandRun (map string_bytes words.now) (S.text shelf.old)
        (counts_of (S.faults shelf.old) (S.faults shelf.new) (S.taken shelf.new))
        (S.begins shelf.old) (S.begins shelf.new) (W.contents out.old) (W.contents out.new) result }
    ensures read_fault { result ≡ Status.ReadFault → Rose (S.faults shelf.old) (S.faults shelf.new) }
    ensures write_fault { result ≡ Status.WriteFault → Rose (W.faults out.old) (W.faults out.new) }

    // There is no other answer, unless something outside failed.
    ensures complete { IsOwnEnd (IsEndOfWork (map string_bytes words.now)) (texts_in_words (map string_bytes words.now)) result
        ⊎ Rose (S.faults shelf.old) (S.faults shelf.new) ⊎ Rose (W.faults out.old) (W.faults out.new) }
    ensures shelf_later { S.faults shelf.old ≤ S.faults shelf.new }
    ensures sink_later { W.faults out.old ≤ W.faults out.new }
{
    let found = answer_to(rt, alloc, words, shelf, gate);
    write_answer(alloc, out, found)
}
