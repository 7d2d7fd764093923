//! The commands about samples, which read no text.

ghost use Rattle.std.specs.Prelude.{◌≡◌, IfOk};
ghost use Rattle.std.specs.Arc.{arc_value};
ghost use Rattle.command_words.specs.Words.{IsSampleKey};
ghost use Rattle.plan_report.specs.Reports.{trial_line};
ghost use Rattle.command_texts.specs.Statuses.{status_of_plan};
ghost use Rattle.plan_run.specs.Samples.{parts_of_key, IsSampled, IsTried, IsMade};

use crate::searching::search_alone;
use command_texts::{Answer, Status};
use command_words::{SampleKey, SampleWork};
use instance_maker::laws::samples_are_instances;
use instance_maker::{Problem, TRIAL_BUDGET, sample, sample_problem};
use link_steps::StepTable;
use plan_base::Instance;
use plan_report::trial_line;
use proof_tree::Plan;
use root_cuts::found_cuts;
use snd_network::write_network;
use std::alloc::{AllocError, Global};
use std::sync::Arc;

/// Writes the network of a sample.
fn write_sample(alloc: Global, key: SampleKey) -> Result<Answer, AllocError>
    requires { IsSampleKey key }
    ensures { IfOk result (λ answer. IsSampled key answer.status answer.text.items) }
{
    let network = sample(alloc, key.number, key.nodes, key.demands)?;
    let text = write_network(alloc, &network)?;
    Ok(Answer {
        status: Status::Good,
        text,
    })
}

/// What is told of a plan of an instance.
fn told(alloc: Global, inst: &Instance, plan: &Plan) -> Result<Answer, AllocError>
    ensures status { IfOk result (λ answer. answer.status ≡ status_of_plan plan.now.status) }
    ensures line { IfOk result (λ answer. answer.text.items ≡ trial_line inst.now plan.now) }
{
    let text = trial_line(alloc, inst, plan)?;
    Ok(Answer {
        status: Status::of_plan(plan.status),
        text,
    })
}

/// Plans the instance of a sample with this step table, and tells what its plan claims.
fn try_on(
    alloc: Global,
    key: SampleKey,
    inst: &Arc<Instance>,
    table: StepTable,
) -> Result<Answer, AllocError>
    requires key { IsSampleKey key }
    requires inst { arc_value inst.now ≡ parts_of_key key }
    requires table { table ≡ arc_value inst.now }
    ensures { IfOk result (λ answer. IsTried key answer.status answer.text.items) }
{
    samples_are_instances();
    let shared = Arc::try_clone(inst)?;
    let (table, cuts) = found_cuts(alloc, &**inst, table, TRIAL_BUDGET)?;
    let plan = search_alone(alloc, shared, table, TRIAL_BUDGET, cuts)?;
    told(alloc, &**inst, &plan)
}

/// Plans the network of a sample, and tells what its plan claims.
fn try_sample(alloc: Global, key: SampleKey) -> Result<Answer, AllocError>
    requires { IsSampleKey key }
    ensures { IfOk result (λ answer. IsTried key answer.status answer.text.items) }
{
    let Problem { inst, table } = sample_problem(alloc, key.number, key.nodes, key.demands)?;
    let inst = Arc::new(alloc, inst)?;
    try_on(alloc, key, &inst, table)
}

/// Does this with a sample.
pub fn make(alloc: Global, work: SampleWork, key: SampleKey) -> Result<Answer, AllocError>
    requires { IsSampleKey key }
    ensures { IfOk result (λ answer. IsMade work key answer.status answer.text.items) }
{
    match work {
        SampleWork::Sample => write_sample(alloc, key),
        SampleWork::Trial => try_sample(alloc, key),
    }
}
