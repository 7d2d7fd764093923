//! The verifier alone, from words to a status and one line.

ghost use Rattle.std.specs.Prelude.{map, string_bytes};
ghost use Rattle.command_texts.specs.Answers.{IsVerified};
ghost use Rattle.run_ends.specs.Runs.{IsFoundOn};
ghost use Rattle.verify_runs.specs.VerifyRuns.{names_in, verify_usage, IsVerifyRun};

use command_texts::{Answer, Status, Stop, verify_plan, write_answer};
use plan_io::{Shelf, Sink};
use run_ends::misread;
use std::alloc::Global;

/// How the program is called.
const USAGE_LINE: &[u8] = b"usage: sndverify NET MODEL PLAN\n";

/// What a run of these words has to say.
#[tactic(auto, using(crate::proofs::ThreeNames::found_other))]
fn answer_to<S: Shelf>(alloc: Global, words: &[String], shelf: &mut S) -> Result<Answer, Stop>
    ensures { IsFoundOn S.Shelf verify_usage IsVerified (names_in (map string_bytes words.now)) shelf.old shelf.new result }
{
    match words {
        [network, model, plan] => {
            verify_plan(
                alloc,
                network.as_str(),
                model.as_str(),
                plan.as_str(),
                shelf,
            )
        }
        _ => misread(alloc, USAGE_LINE),
    }
}

/// Verifies the plan that these words name, and writes the verdict. Nothing is written before the whole output is made.
///
/// - Takes: the words after the program's name, which are the names of a network text, a model text and a plan text; a
///   shelf that has these texts; the sink that the answer goes to.
/// - Gives: how the run ended.
/// - Rule: docs/DEFINITIONS.md, "Runs"; docs/FORMATS.md, "Commands".
/// - Time: that of `command_texts::verify_plan`.
pub fn verify_run<S: Shelf, W: Sink>(
    alloc: Global,
    words: &[String],
    shelf: &mut S,
    out: &mut W,
) -> Status
    ensures { IsVerifyRun S.Shelf W.Sink (map string_bytes words.now) shelf.old shelf.new out.old out.new result }
{
    let found = answer_to(alloc, words, shelf);
    write_answer(alloc, out, found)
}
