//! Commands about texts that need no search.

ghost use Rattle.std.specs.Prelude.{◌≡◌, IfOk, IfSome, IfNone};
ghost use Rattle.proof_tree.specs.Plans.{IsValidPlan, HasItsClaim};
ghost use Rattle.proof_tree.specs.Spellings.{IsSpellable};
ghost use Rattle.plan_report.specs.Reports.{IsReadFrom};
ghost use Rattle.command_texts.specs.Texts.{alone, two, three};
ghost use Rattle.command_texts.specs.Answers.{IsCheck, IsRejection, IsVerdict, IsReport, IsRewritten, IsChecked, IsVerified, IsReported, IsUpgraded};
ghost use Rattle.command_texts.specs.Shelf.{AnswersOrStops};

use crate::answer::Answer;
use crate::problem::{Planned, Problem, read_planned, read_problem, spelt_alone};
use crate::status::Status;
use crate::stop::Stop;
use crate::texts::read_alone;
use cert_format::write_plan;
use cert_verifier::{Rejected, verify};
use plan_io::Shelf;
use plan_report::{check_line, report_text, verdict_line};
use proof_tree::Plan;
use std::alloc::{AllocError, Global};

/// What is written of the sizes of an instance.
fn checked(alloc: Global, problem: &Problem) -> Result<Answer, AllocError>
    requires { problem.now.table ≡ problem.now.inst }
    ensures { IfOk result (λ answer. IsCheck problem.now.inst answer.status answer.text.items) }
{
    Ok(Answer {
        status: Status::Good,
        text: check_line(alloc, &problem.inst, &problem.table)?,
    })
}

/// What is written of a plan that is no valid one of an instance, and none of a valid one.
///
/// - Takes: a problem and a plan for it that a plan text can hold.
/// - Errors: want of memory.
/// - Rule: docs/FORMATS.md, "The line of `verify`".
/// - Time: that of verifying the plan.
pub fn rejection(alloc: Global, planned: &Planned) -> Result<Option<Answer>, AllocError>
    requires table { planned.now.problem.table ≡ planned.now.problem.inst }
    requires fits { IsSpellable planned.now.plan }
    ensures valid { IfOk result (λ rejected. IfNone rejected (IsValidPlan planned.now.problem.inst planned.now.plan)) }
    ensures claim { IfOk result (λ rejected. IfNone rejected (HasItsClaim planned.now.problem.inst planned.now.plan)) }
    ensures status { IfOk result (λ rejected. IfSome rejected (λ answer. answer.status ≡ Status.Rejected)) }
    ensures line { IfOk result (λ rejected. IfSome rejected (λ answer. IsRejection planned.now.problem.inst planned.now.plan answer.text.items)) }
{
    let Planned { problem, plan } = planned;
    match verify(alloc, &problem.inst, &problem.table, plan) {
        Ok(()) => Ok(None),
        Err(Rejected::OutOfMemory) => Err(AllocError),
        Err(fault) => Ok(Some(Answer {
            status: Status::Rejected,
            text: verdict_line(alloc, plan, &Err(fault))?,
        })),
    }
}

/// What is written of a plan of an instance.
fn verdict(alloc: Global, planned: &Planned) -> Result<Answer, AllocError>
    requires table { planned.now.problem.table ≡ planned.now.problem.inst }
    requires fits { IsSpellable planned.now.plan }
    ensures { IfOk result (λ answer. IsVerdict planned.now.problem.inst planned.now.plan answer.status answer.text.items) }
{
    match rejection(alloc, planned)? {
        Some(answer) => Ok(answer),
        None => Ok(Answer {
            status: Status::Good,
            text: verdict_line(alloc, &planned.plan, &Ok(()))?,
        }),
    }
}

/// The same, of a plan that was read.
fn verdict_read(alloc: Global, planned: Planned) -> Result<Answer, AllocError>
    requires table { planned.problem.table ≡ planned.problem.inst }
    requires fits { IsSpellable planned.plan }
    ensures { IfOk result (λ answer. IsVerdict planned.problem.inst planned.plan answer.status answer.text.items) }
{
    verdict(alloc, &planned)
}

/// What is written of a plan of an instance by the names of the network, once it is verified.
fn report_on(alloc: Global, planned: &Planned) -> Result<Answer, AllocError>
    requires table { planned.now.problem.table ≡ planned.now.problem.inst }
    requires read { IsReadFrom planned.now.problem.network planned.now.problem.inst }
    requires fits { IsSpellable planned.now.plan }
    ensures { IfOk result (λ answer. IsReport planned.now.problem.network planned.now.problem.inst planned.now.plan answer.status answer.text.items) }
{
    match rejection(alloc, planned)? {
        Some(answer) => Ok(answer),
        None => Ok(Answer {
            status: Status::Good,
            text: report_text(alloc, &planned.named())?,
        }),
    }
}

/// The same, of a plan that was read.
fn report_read(alloc: Global, planned: Planned) -> Result<Answer, AllocError>
    requires table { planned.problem.table ≡ planned.problem.inst }
    requires read { IsReadFrom planned.problem.network planned.problem.inst }
    requires fits { IsSpellable planned.plan }
    ensures { IfOk result (λ answer. IsReport planned.problem.network planned.problem.inst planned.plan answer.status answer.text.items) }
{
    report_on(alloc, &planned)
}

/// What is written of a plan by itself.
fn rewritten(alloc: Global, plan: &Plan) -> Result<Answer, AllocError>
    requires { IsSpellable plan.now }
    ensures { IfOk result (λ answer. IsRewritten plan.now answer.status answer.text.items) }
{
    Ok(Answer {
        status: Status::Good,
        text: write_plan(alloc, plan)?,
    })
}

/// Reads a network text and a model text, and tells the sizes of the network.
///
/// - Takes: the names of the two texts.
/// - Errors: the first refusal of the texts in the order of their rules, a fault of the shelf, or want of memory.
/// - Rule: docs/DEFINITIONS.md, "Runs"; docs/FORMATS.md, "The line of `check`".
/// - Time: linear in the texts' bytes, and that of making the steps.
#[tactic(auto, using(crate::proofs::Answering::memory_ends, crate::proofs::Answering::checked_texts))]
pub fn check<S: Shelf>(
    alloc: Global,
    network: &str,
    model: &str,
    shelf: &mut S,
) -> Result<Answer, Stop>
    ensures { AnswersOrStops S.Shelf (two network.now model.now) IsChecked shelf.old shelf.new result }
{
    let problem = read_problem(alloc, network, model, shelf)?;
    Ok(checked(alloc, &problem)?)
}

/// Reads a network text, a model text and a plan text, and tells whether the plan is a valid one of the network.
///
/// - Takes: the names of the three texts.
/// - Errors: the first refusal of the texts in the order of their rules, a fault of the shelf, or want of memory.
/// - Rule: docs/DEFINITIONS.md, "Runs"; docs/FORMATS.md, "The line of `verify`".
/// - Time: linear in the texts' bytes, and that of verifying the plan.
#[tactic(auto, using(crate::proofs::Answering::memory_ends, crate::proofs::Answering::verified_texts))]
pub fn verify_plan<S: Shelf>(
    alloc: Global,
    network: &str,
    model: &str,
    plan: &str,
    shelf: &mut S,
) -> Result<Answer, Stop>
    ensures { AnswersOrStops S.Shelf (three network.now model.now plan.now) IsVerified shelf.old shelf.new result }
{
    let planned = read_planned(alloc, network, model, plan, shelf)?;
    Ok(verdict_read(alloc, planned)?)
}

/// Reads a network text, a model text and a plan text, and tells the plan by the names of the network, once it is verified; a plan
/// that is no valid one gets the line of `verify`.
///
/// - Takes: the names of the three texts.
/// - Errors: the first refusal of the texts in the order of their rules, a fault of the shelf, or want of memory.
/// - Rule: docs/DEFINITIONS.md, "Runs"; docs/FORMATS.md, "The text of `report`".
/// - Time: linear in the texts' bytes, and that of verifying and telling the plan.
#[tactic(auto, using(crate::proofs::Answering::memory_ends, crate::proofs::Answering::read_from, crate::proofs::Answering::reported_texts))]
pub fn report<S: Shelf>(
    alloc: Global,
    network: &str,
    model: &str,
    plan: &str,
    shelf: &mut S,
) -> Result<Answer, Stop>
    ensures { AnswersOrStops S.Shelf (three network.now model.now plan.now) IsReported shelf.old shelf.new result }
{
    let planned = read_planned(alloc, network, model, plan, shelf)?;
    Ok(report_read(alloc, planned)?)
}

/// Reads a plan text, and writes the text of its plan as `plan` writes it. Whether it is a valid plan of a network is not
/// asked.
///
/// - Takes: the name of the text.
/// - Errors: the first refusal of the text, a fault of the shelf, or want of memory.
/// - Rule: docs/DEFINITIONS.md, "Runs"; docs/FORMATS.md, "Plan texts".
/// - Time: linear in the bytes of both texts.
#[tactic(auto, using(crate::proofs::Answering::memory_ends, crate::proofs::Begins::texts_stop, crate::proofs::Answering::upgraded_texts))]
pub fn upgrade<S: Shelf>(alloc: Global, plan: &str, shelf: &mut S) -> Result<Answer, Stop>
    ensures { AnswersOrStops S.Shelf (alone plan.now) IsUpgraded shelf.old shelf.new result }
{
    let text = read_alone(alloc, shelf, plan)?;
    let made = spelt_alone(alloc, text.as_slice())?;
    Ok(rewritten(alloc, &made)?)
}
