//! From texts on a shelf to the instance that is planned, and to a plan.

ghost use Rattle.std.specs.Prelude.{◌≡◌, ◌≤◌, length, None, Some, IfOk, IfErr};
ghost use Rattle.plan_base.specs.Facts.{IsInstance};
ghost use Rattle.snd_network.specs.WellFormed.{IsWellFormed};
ghost use Rattle.model_check.specs.Reading.{ReadsAs};
ghost use Rattle.proof_tree.specs.Plans.{IsValidPlan};
ghost use Rattle.proof_tree.specs.Spellings.{IsSpellable};
ghost use Rattle.plan_report.specs.Reports.{IsReadFrom};
ghost use Rattle.command_texts.specs.Texts.{alone, two, three, HoldsOfTexts};
ghost use Rattle.command_texts.specs.Refusals.{IsProblem, IsPlanAlone, HasFewSteps};
ghost use Rattle.command_texts.specs.Stops.{IsFileStop, IsProblemStop, IsTextStop};
ghost use Rattle.command_texts.specs.Shelf.{BeginsOrStopsOn};

use crate::files::{model_of, network_of, plan_of};
use crate::stop::{Stop, stop_of_check};
use crate::texts::{MAX_TEXT_BYTES, read_three, read_two};
use cert_format::limits::MAX_PLAN_BYTES;
use link_steps::StepTable;
use model_check::to_instance;
use plan_base::Instance;
use plan_io::Shelf;
use plan_report::NamedPlan;
use proof_tree::Plan;
use snd_model::ModelFile;
use snd_network::NetworkFile;
use std::alloc::Global;

/// What a command about texts works on.
#[derive(Drop)]
pub struct Problem {
    /// The network with its names.
    pub network: NetworkFile,
    /// The instance that it stands for under its model.
    pub inst: Instance,
    /// The steps of that instance.
    pub table: StepTable,
}

/// The instance that two files stand for.
fn instance_of(alloc: Global, network: &NetworkFile, model: &ModelFile) -> Result<Instance, Stop>
    requires { IsWellFormed network.now }
    ensures read { IfOk result (ReadsAs network.now model.now) }
    ensures lawful { IfOk result IsInstance }
    ensures stop { IfErr result (IsFileStop network.now model.now) }
{
    match to_instance(alloc, network, model) {
        Ok(inst) => Ok(inst),
        Err(fault) => Err(stop_of_check(fault)),
    }
}

/// The problem that two files stand for.
#[tactic(auto, using(crate::proofs::StopLaws::instance_stops, crate::proofs::StopLaws::steps_stop))]
fn problem_of(alloc: Global, network: NetworkFile, model: &ModelFile) -> Result<Problem, Stop>
    requires { IsWellFormed network }
    ensures network { IfOk result (λ problem. problem.network ≡ network) }
    ensures read { IfOk result (λ problem. ReadsAs network model.now problem.inst) }
    ensures lawful { IfOk result (λ problem. IsInstance problem.inst) }
    ensures few { IfOk result (λ problem. HasFewSteps problem.inst) }
    ensures table { IfOk result (λ problem. problem.table ≡ problem.inst) }
    ensures stop { IfErr result (IsProblemStop network model.now) }
{
    let inst = instance_of(alloc, &network, model)?;
    let table = StepTable::make(alloc, &inst)?;
    Ok(Problem {
        network,
        inst,
        table,
    })
}

/// The problem that a network text and a model text spell.
#[tactic(auto, using(crate::proofs::StopLaws::problem_spelt))]
fn spelt_problem(alloc: Global, network: &[u8], model: &[u8]) -> Result<Problem, Stop>
    requires network { length network.now ≤ MAX_TEXT_BYTES }
    requires model { length model.now ≤ MAX_TEXT_BYTES }
    ensures spelt { IfOk result (λ problem. IsProblem (two network.now model.now) problem.network problem.inst None) }
    ensures table { IfOk result (λ problem. problem.table ≡ problem.inst) }
    ensures stop { IfErr result (IsTextStop (two network.now model.now)) }
{
    let network = network_of(alloc, network)?;
    let model = model_of(alloc, model)?;
    problem_of(alloc, network, &model)
}

/// A problem, and a plan for it.
#[derive(Drop)]
pub struct Planned {
    pub problem: Problem,
    pub plan: Plan,
}

impl Planned {
    /// The plan by the names of its network.
    ///
    /// - Takes: a problem whose instance is read from its network, and a valid plan of the instance.
    pub fn named(&self) -> NamedPlan<'_>
        requires read { IsReadFrom self.now.problem.network self.now.problem.inst }
        requires valid { IsValidPlan self.now.problem.inst self.now.plan }
        ensures net { result.net ≡ self.now.problem.network }
        ensures parts { result.parts ≡ self.now.problem.inst }
        ensures plan { result.plan ≡ self.now.plan }
    {
        NamedPlan::new(&self.problem.network, &self.problem.inst, &self.plan)
    }
}

/// The problem that a network text and a model text spell, and the plan that a plan text spells.
#[tactic(auto, using(crate::proofs::StopLaws::planned_spelt))]
fn spelt_planned(alloc: Global, network: &[u8], model: &[u8], plan: &[u8]) -> Result<Planned, Stop>
    requires network { length network.now ≤ MAX_TEXT_BYTES }
    requires model { length model.now ≤ MAX_TEXT_BYTES }
    requires plan { length plan.now ≤ MAX_PLAN_BYTES }
    ensures spelt { IfOk result (λ planned. IsProblem (three network.now model.now plan.now)
        planned.problem.network planned.problem.inst (Some planned.plan)) }
    ensures table { IfOk result (λ planned. planned.problem.table ≡ planned.problem.inst) }
    ensures stop { IfErr result (IsTextStop (three network.now model.now plan.now)) }
{
    let network = network_of(alloc, network)?;
    let model = model_of(alloc, model)?;
    let plan = plan_of(alloc, plan)?;
    let problem = problem_of(alloc, network, &model)?;
    Ok(Planned { problem, plan })
}

/// Reads a network text and a model text, and gives the problem that they spell.
///
/// - Takes: the names of the two texts, in the order in which they are read.
/// - Errors: the first refusal of the texts in the order of their rules, a fault of the shelf, or want of memory.
/// - Rule: docs/DEFINITIONS.md, "Runs".
/// - Time: linear in the texts' bytes, and that of making the steps.
#[tactic(auto, using(crate::proofs::Begins::texts_end))]
pub fn read_problem<S: Shelf>(
    alloc: Global,
    network: &str,
    model: &str,
    shelf: &mut S,
) -> Result<Problem, Stop>
    ensures spelt { IfOk result (λ problem. HoldsOfTexts (S.text shelf.old) (two network.now model.now) 2
        (λ texts. IsProblem texts problem.network problem.inst None)) }
    ensures table { IfOk result (λ problem. problem.table ≡ problem.inst) }
    ensures stops { BeginsOrStopsOn S.Shelf (two network.now model.now) shelf.old shelf.new result }
{
    let texts = read_two(alloc, shelf, network, model)?;
    spelt_problem(alloc, texts.network.as_slice(), texts.model.as_slice())
}

/// Reads a network text, a model text and a plan text, and gives the problem and the plan that they spell.
///
/// - Takes: the names of the three texts, in the order in which they are read.
/// - Errors: the first refusal of the texts in the order of their rules, a fault of the shelf, or want of memory.
/// - Rule: docs/DEFINITIONS.md, "Runs".
/// - Time: linear in the texts' bytes, and that of making the steps.
#[tactic(auto, using(crate::proofs::Begins::texts_end))]
pub fn read_planned<S: Shelf>(
    alloc: Global,
    network: &str,
    model: &str,
    plan: &str,
    shelf: &mut S,
) -> Result<Planned, Stop>
    ensures spelt { IfOk result (λ planned. HoldsOfTexts (S.text shelf.old) (three network.now model.now plan.now) 3
        (λ texts. IsProblem texts planned.problem.network planned.problem.inst (Some planned.plan))) }
    ensures fits { IfOk result (λ planned. IsSpellable planned.plan) }
    ensures table { IfOk result (λ planned. planned.problem.table ≡ planned.problem.inst) }
    ensures stops { BeginsOrStopsOn S.Shelf (three network.now model.now plan.now) shelf.old shelf.new result }
{
    let texts = read_three(alloc, shelf, network, model, plan)?;
    spelt_planned(
        alloc,
        texts.network.as_slice(),
        texts.model.as_slice(),
        texts.plan.as_slice(),
    )
}

/// The plan that a text spells which is read by itself.
#[tactic(auto, using(crate::proofs::StopLaws::alone_spelt, crate::proofs::StopLaws::alone_refused))]
pub fn spelt_alone(alloc: Global, text: &[u8]) -> Result<Plan, Stop>
    requires { length text.now ≤ MAX_PLAN_BYTES }
    ensures spelt { IfOk result (IsPlanAlone (alone text.now)) }
    ensures fits { IfOk result IsSpellable }
    ensures stop { IfErr result (IsTextStop (alone text.now)) }
{
    plan_of(alloc, text)
}
