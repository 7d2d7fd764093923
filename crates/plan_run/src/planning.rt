//! The command that plans.

ghost use Rattle.std.specs.Prelude.{◌≡◌, IfOk};
ghost use Rattle.proof_tree.specs.Spellings.{IsSpellable};
ghost use Rattle.cert_format.specs.Grammar.{written_text, SpellsPlan};
ghost use Rattle.command_texts.specs.Statuses.{status_of_plan};
ghost use Rattle.run_ends.specs.Runs.{two, AnswersOrStops};
ghost use Rattle.plan_run.specs.Searches.{AreWorkers, IsBudget};
ghost use Rattle.plan_run.specs.Plans.{IsPlanned, IsPlanDone};

use crate::searching::search;
use cert_format::write_plan;
use command_texts::{Answer, Problem, Status, Stop, read_problem};
use link_steps::StepTable;
use plan_base::Instance;
use plan_io::{Gate, Shelf};
use proof_tree::Plan;
use root_cuts::found_cuts;
use std::alloc::{AllocError, Global};
use std::sync::{Arc, Wait};
use std::thread::Threads;

/// What is written of a plan.
fn written(alloc: Global, plan: &Plan) -> Result<Answer, AllocError>
    requires { IsSpellable plan.now }
    ensures status { IfOk result (λ answer. answer.status ≡ status_of_plan plan.now.status) }
    ensures text { IfOk result (λ answer. answer.text.items ≡ written_text plan.now) }
    ensures spelt { IfOk result (λ answer. SpellsPlan answer.text.items plan.now) }
{
    let text = write_plan(alloc, plan)?;
    Ok(Answer {
        status: Status::of_plan(plan.status),
        text,
    })
}

/// What is written of the plan of an instance with this step table.
fn planned_on<R: Threads + Wait + Sync, G: Gate>(
    rt: &R,
    alloc: Global,
    inst: Instance,
    table: StepTable,
    workers: u32,
    budget: u32,
    gate: &G,
) -> Result<Answer, AllocError>
    requires workers { AreWorkers workers }
    requires budget { IsBudget budget }
    requires table { table ≡ inst }
    ensures { IfOk result (λ answer. IsPlanned inst budget answer.status answer.text.items) }
{
    let inst = Arc::new(alloc, inst)?;
    let (table, cuts) = found_cuts(alloc, &*inst, table, budget)?;
    let plan = search(rt, alloc, inst, table, workers, budget, cuts, gate)?;
    written(alloc, &plan)
}

/// What is written of the plan of an instance.
fn planned<R: Threads + Wait + Sync, G: Gate>(
    rt: &R,
    alloc: Global,
    problem: Problem,
    workers: u32,
    budget: u32,
    gate: &G,
) -> Result<Answer, AllocError>
    requires table { problem.table ≡ problem.inst }
    requires workers { AreWorkers workers }
    requires budget { IsBudget budget }
    ensures { IfOk result (λ answer. IsPlanned problem.inst budget answer.status answer.text.items) }
{
    let Problem { inst, table, .. } = problem;
    planned_on(rt, alloc, inst, table, workers, budget, gate)
}

/// Reads a network text and a model text, and plans the network.
#[tactic(auto, using(command_texts::proofs::Answering::memory_ends, crate::proofs::PlannedTexts::planned_texts))]
pub fn plan<R: Threads + Wait + Sync, S: Shelf, G: Gate>(
    rt: &R,
    alloc: Global,
    network: &str,
    model: &str,
    workers: u32,
    budget: u32,
    shelf: &mut S,
    gate: &G,
) -> Result<Answer, Stop>
    requires workers { AreWorkers workers }
    requires budget { IsBudget budget }
    ensures { AnswersOrStops S.Shelf (two network.now model.now) (IsPlanDone budget) shelf.old shelf.new result }
{
    let problem = read_problem(alloc, network, model, shelf)?;
    Ok(planned(rt, alloc, problem, workers, budget, gate)?)
}
