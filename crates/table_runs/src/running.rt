//! Tables, from words to a status and one text.

ghost use Rattle.std.specs.Prelude.{◌≡◌, map, string_bytes, IfOk};
ghost use Rattle.proof_tree.specs.Spellings.{IsSpellable};
ghost use Rattle.plan_report.specs.Reports.{IsReadFrom};
ghost use Rattle.run_ends.specs.Runs.{three, AnswersOrStops, IsFoundOn};
ghost use Rattle.verify_runs.specs.VerifyRuns.{names_in};
ghost use Rattle.table_runs.specs.TableRuns.{table_usage, IsTable, IsTabled, IsTableRun};

use command_texts::{Answer, Planned, Status, Stop, read_planned, rejection, write_answer};
use plan_io::{Shelf, Sink};
use plan_table::table_text;
use run_ends::misread;
use std::alloc::{AllocError, Global};

/// How the program is called.
const USAGE_LINE: &[u8] = b"usage: sndtable NET MODEL PLAN\n";

/// What is written of a plan, once it is verified.
fn table(alloc: Global, planned: &Planned) -> Result<Answer, AllocError>
    requires table { planned.now.problem.table ≡ planned.now.problem.inst }
    requires read { IsReadFrom planned.now.problem.network planned.now.problem.inst }
    requires fits { IsSpellable planned.now.plan }
    ensures { IfOk result (λ answer. IsTable planned.now.problem.network planned.now.problem.inst planned.now.plan answer.status answer.text.items) }
{
    match rejection(alloc, planned)? {
        Some(answer) => Ok(answer),
        None => Ok(Answer {
            status: Status::Good,
            text: table_text(alloc, &planned.named())?,
        }),
    }
}

/// The same, of a plan that was read.
fn table_read(alloc: Global, planned: Planned) -> Result<Answer, AllocError>
    requires table { planned.problem.table ≡ planned.problem.inst }
    requires read { IsReadFrom planned.problem.network planned.problem.inst }
    requires fits { IsSpellable planned.plan }
    ensures { IfOk result (λ answer. IsTable planned.problem.network planned.problem.inst planned.plan answer.status answer.text.items) }
{
    table(alloc, &planned)
}

/// Reads a network text, a model text and a plan text, and tells the plan by tables, once it is verified.
#[tactic(auto, using(command_texts::proofs::Answering::memory_ends, command_texts::proofs::Answering::read_from, crate::proofs::Telling::tabled_texts))]
fn table_plan<S: Shelf>(
    alloc: Global,
    network: &str,
    model: &str,
    plan: &str,
    shelf: &mut S,
) -> Result<Answer, Stop>
    ensures { AnswersOrStops S.Shelf (three network.now model.now plan.now) IsTabled shelf.old shelf.new result }
{
    let planned = read_planned(alloc, network, model, plan, shelf)?;
    Ok(table_read(alloc, planned)?)
}

/// What a run of these words has to say.
#[tactic(auto, using(verify_runs::proofs::ThreeNames::found_other))]
fn answer_to<S: Shelf>(alloc: Global, words: &[String], shelf: &mut S) -> Result<Answer, Stop>
    ensures { IsFoundOn S.Shelf table_usage IsTabled (names_in (map string_bytes words.now)) shelf.old shelf.new result }
{
    match words {
        [network, model, plan] => {
            table_plan(
                alloc,
                network.as_str(),
                model.as_str(),
                plan.as_str(),
                shelf,
            )
        }
        _ => misread(alloc, USAGE_LINE),
    }
}

/// Tells the plan that these words name by tables, once it is verified. Nothing is written before the whole output is made.
///
/// - Takes: the words after the program's name, which are the names of a network text, a model text and a plan text; a
///   shelf that has these texts; the sink that the answer goes to.
/// - Gives: how the run ended.
/// - Rule: docs/FORMATS.md, "Tables".
/// - Time: that of `command_texts::verify_plan`.
pub fn table_run<S: Shelf, W: Sink>(
    alloc: Global,
    words: &[String],
    shelf: &mut S,
    out: &mut W,
) -> Status
    ensures { IsTableRun S.Shelf W.Sink (map string_bytes words.now) shelf.old shelf.new out.old out.new result }
{
    let found = answer_to(alloc, words, shelf);
    write_answer(alloc, out, found)
}
