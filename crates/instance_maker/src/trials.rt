//! What a trial plans.

ghost use Rattle.std.specs.Prelude.{◌≡◌, ◌≤◌, IfOk};
ghost use Rattle.link_steps.specs.declared.step_fault.StepFault.TheVariants as step_faults;
ghost use Rattle.model_check.specs.declared.fault.CheckFault.TheVariants as check_faults;
ghost use Rattle.instance_maker.specs.Trials.{trial_model, sample_parts};

use crate::laws::samples_are_instances;
use crate::limits::{MAX_DEMANDS, MAX_NODES, MIN_NODES};
use crate::sampling::sample;
use link_steps::{StepFault, StepTable};
use model_check::laws::{no_refusal_of_an_instance, one_instance};
use model_check::{CheckFault, to_instance};
use plan_base::Instance;
use snd_model::{
    CapacityModel, DemandModel, FixedChargeModel, HopModel, LinkModel, ModelFile, PathModel,
    RoutingModel, SurvivabilityModel,
};
use std::alloc::{AllocError, Global};

/// How many nodes of the search tree a trial may examine.
pub const TRIAL_BUDGET: u32 = 1000;

/// An instance, and its step table.
#[derive(Drop)]
pub struct Problem {
    pub inst: Instance,
    pub table: StepTable,
}

/// The model of each trial.
///
/// - Gives: undirected demands and links, modules, single paths on all links, and nothing else.
/// - Rule: docs/FORMATS.md, "The network of `sample`".
pub fn trial_model() -> ModelFile
    ensures { result ≡ trial_model }
{
    ModelFile {
        demand: DemandModel::Undirected,
        link: LinkModel::Undirected,
        capacity: CapacityModel::Modular,
        fixed_charge: FixedChargeModel::No,
        routing: RoutingModel::SinglePath,
        path: PathModel::All,
        hop: HopModel::No,
        survivability: SurvivabilityModel::No,
    }
}

/// A refusal that can be nothing but want of memory.
fn of_check(_fault: CheckFault) -> AllocError
    requires { _fault ≡ check_faults.OutOfMemory }
{
    AllocError
}

/// A refusal of a table that can be nothing but want of memory.
fn of_steps(_fault: StepFault) -> AllocError
    requires { _fault ≡ step_faults.OutOfMemory }
{
    AllocError
}

/// The instance that the network of a number stands for under the model of a trial.
fn sample_instance(
    alloc: Global,
    number: u32,
    nodes: u32,
    demands: u32,
) -> Result<Instance, AllocError>
    requires some { MIN_NODES ≤ nodes }
    requires few { nodes ≤ MAX_NODES }
    requires demands { demands ≤ MAX_DEMANDS }
    ensures { IfOk result (λ inst. inst ≡ sample_parts number nodes demands) }
{
    let network = sample(alloc, number, nodes, demands)?;
    samples_are_instances();
    one_instance();
    no_refusal_of_an_instance();
    match to_instance(alloc, &network, &trial_model()) {
        Ok(inst) => Ok(inst),
        Err(fault) => Err(of_check(fault)),
    }
}

/// What a trial plans: the instance that the network of a number stands for under the model of a trial, and its
/// step table.
///
/// - Takes: where memory comes from; the number; 4 to 64 nodes; at most 4,096 demands.
/// - Errors: want of memory alone: no sample is refused.
/// - Rule: docs/FORMATS.md, "The network of `sample`".
pub fn sample_problem(
    alloc: Global,
    number: u32,
    nodes: u32,
    demands: u32,
) -> Result<Problem, AllocError>
    requires some { MIN_NODES ≤ nodes }
    requires few { nodes ≤ MAX_NODES }
    requires demands { demands ≤ MAX_DEMANDS }
    ensures inst { IfOk result (λ problem. problem.inst ≡ sample_parts number nodes demands) }
    ensures table { IfOk result (λ problem. problem.table ≡ problem.inst) }
{
    let inst = sample_instance(alloc, number, nodes, demands)?;
    samples_are_instances();
    match StepTable::make(alloc, &inst) {
        Ok(table) => Ok(Problem { inst, table }),
        Err(fault) => Err(of_steps(fault)),
    }
}
