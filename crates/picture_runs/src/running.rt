//! Pictures, from words to a status and one text.

ghost use Rattle.std.specs.Prelude.{◌≡◌, ◌<◌, length, map, string_bytes, option_map, Some, IfOk, IfSome, IfNone};
ghost use Rattle.proof_tree.specs.Plans.{IsValidPlan};
ghost use Rattle.proof_tree.specs.Spellings.{IsSpellable};
ghost use Rattle.plan_report.specs.Reports.{IsReadFrom, HasNames, demand_name};
ghost use Rattle.run_ends.specs.Runs.{three, AnswersOrStops, IsFoundOn};
ghost use Rattle.plan_picture.specs.Pictures.{IsPicture};
ghost use Rattle.picture_runs.specs.PictureRuns.{picture_usage, asked_names, lit_in, IsMissing, IsDrawnSo, IsDrawn, IsPictureRun};

use crate::words::asked_in;
use command_texts::{Answer, Planned, Status, Stop, read_planned, rejection, write_answer};
use plan_base::{DemandId, Instance};
use plan_io::{Shelf, Sink};
use plan_picture::picture_text;
use run_ends::{misread, usage};
use snd_network::NetworkFile;
use std::alloc::{AllocError, Global};

/// How the program is called.
const USAGE_LINE: &[u8] = b"usage: sndpicture NET MODEL PLAN [--demand NAME]\n";

/// The name of a demand.
fn name_of(net: &NetworkFile, demand: DemandId) -> &[u8]
    requires { demand.0 < length net.now.demands }
    ensures { result.now ≡ demand_name net.now demand.0 }
{
    net.demands.as_slice()[demand.0 as usize].name.as_slice()
}

/// The demand of this name.
#[tactic(auto, using(crate::proofs::Drawing::none_more, crate::proofs::Drawing::same_bytes))]
fn demand_named(net: &NetworkFile, inst: &Instance, name: &str) -> Option<DemandId>
    requires { HasNames net.now inst.now }
    ensures within { IfSome result (λ k. k.0 < length inst.now.demands) }
    ensures named { IfSome result (λ k. name.now ≡ demand_name net.now k.0) }
    ensures missing { IfNone result (IsMissing net.now inst.now (Some name.now)) }
{
    for place in 0..inst.demands() {
        if name.as_bytes() == name_of(net, DemandId(place)) {
            return Some(DemandId(place));
        }
    }
    None
}

/// The picture of a valid plan with this demand lit, if one is.
fn drawing(alloc: Global, planned: &Planned, lit: Option<DemandId>) -> Result<Answer, AllocError>
    requires read { IsReadFrom planned.now.problem.network planned.now.problem.inst }
    requires valid { IsValidPlan planned.now.problem.inst planned.now.plan }
    requires lit { IfSome lit (λ k. k.0 < length planned.now.problem.inst.demands) }
    ensures status { IfOk result (λ answer. answer.status ≡ Status.Good) }
    ensures picture { IfOk result (λ answer. IsPicture planned.now.problem.network planned.now.problem.inst planned.now.plan
        (option_map (λ k. k.0) lit) answer.text.items) }
{
    Ok(Answer {
        status: Status::Good,
        text: picture_text(alloc, &planned.named(), lit)?,
    })
}

/// What is written of a valid plan, where the path of the demand of this name is to be lit, if one is named.
fn drawn(alloc: Global, planned: &Planned, name: Option<&str>) -> Result<Answer, AllocError>
    requires read { IsReadFrom planned.now.problem.network planned.now.problem.inst }
    requires valid { IsValidPlan planned.now.problem.inst planned.now.plan }
    ensures { IfOk result (λ answer. IsDrawnSo planned.now.problem.network planned.now.problem.inst planned.now.plan
        (option_map (λ word. word.now) name.entry) answer.status answer.text.items) }
{
    match name {
        None => drawing(alloc, planned, None),
        Some(name) => match demand_named(&planned.problem.network, &planned.problem.inst, name) {
            Some(demand) => drawing(alloc, planned, Some(demand)),
            None => usage(alloc, USAGE_LINE),
        },
    }
}

/// What is written of a plan, once it is verified.
fn draw(alloc: Global, planned: &Planned, name: Option<&str>) -> Result<Answer, AllocError>
    requires table { planned.now.problem.table ≡ planned.now.problem.inst }
    requires read { IsReadFrom planned.now.problem.network planned.now.problem.inst }
    requires fits { IsSpellable planned.now.plan }
    ensures { IfOk result (λ answer. IsDrawnSo planned.now.problem.network planned.now.problem.inst planned.now.plan
        (option_map (λ word. word.now) name.entry) answer.status answer.text.items) }
{
    match rejection(alloc, planned)? {
        Some(answer) => Ok(answer),
        None => drawn(alloc, planned, name),
    }
}

/// The same, of a plan that was read.
fn draw_read(alloc: Global, planned: Planned, name: Option<&str>) -> Result<Answer, AllocError>
    requires table { planned.problem.table ≡ planned.problem.inst }
    requires read { IsReadFrom planned.problem.network planned.problem.inst }
    requires fits { IsSpellable planned.plan }
    ensures { IfOk result (λ answer. IsDrawnSo planned.problem.network planned.problem.inst planned.plan
        (option_map (λ word. word.now) name.entry) answer.status answer.text.items) }
{
    draw(alloc, &planned, name)
}

/// Reads a network text, a model text and a plan text, and draws the plan, once it is verified.
#[tactic(auto, using(command_texts::proofs::Answering::memory_ends, command_texts::proofs::Answering::read_from, crate::proofs::Drawing::drawn_texts))]
fn draw_plan<S: Shelf>(
    alloc: Global,
    network: &str,
    model: &str,
    plan: &str,
    name: Option<&str>,
    shelf: &mut S,
) -> Result<Answer, Stop>
    ensures { AnswersOrStops S.Shelf (three network.now model.now plan.now) (IsDrawn (option_map (λ word. word.now) name.entry)) shelf.old shelf.new result }
{
    let planned = read_planned(alloc, network, model, plan, shelf)?;
    Ok(draw_read(alloc, planned, name)?)
}

/// What a run of these words has to say.
#[tactic(auto, using(run_ends::proofs::Programs::wanting_on, crate::proofs::Drawing::found_unasked))]
fn answer_to<S: Shelf>(alloc: Global, words: &[String], shelf: &mut S) -> Result<Answer, Stop>
    ensures { IsFoundOn S.Shelf picture_usage (IsDrawn (lit_in (map string_bytes words.now)))
        (asked_names (map string_bytes words.now)) shelf.old shelf.new result }
{
    match asked_in(alloc, words)? {
        Some((network, model, plan, name)) => draw_plan(alloc, network, model, plan, name, shelf),
        None => misread(alloc, USAGE_LINE),
    }
}

/// Draws the plan that these words name, and writes the picture. Nothing is written before the whole output is made.
///
/// - Takes: the words after the program's name: the names of a network text, a model text and a plan text, and at any
///   place perhaps `--demand NAME` or `--demand=NAME`, with the name of a demand whose path is lit; a shelf that has the
///   texts; the sink that the answer goes to.
/// - Gives: how the run ended.
/// - Rule: docs/FORMATS.md, "Pictures".
/// - Time: that of `command_texts::verify_plan`, and that of drawing the plan.
pub fn picture_run<S: Shelf, W: Sink>(
    alloc: Global,
    words: &[String],
    shelf: &mut S,
    out: &mut W,
) -> Status
    ensures { IsPictureRun S.Shelf W.Sink (map string_bytes words.now) shelf.old shelf.new out.old out.new result }
{
    let found = answer_to(alloc, words, shelf);
    write_answer(alloc, out, found)
}
