//! The line of `check`, and those of trials.

use super::plans::{instance, plan_of};
use super::push_line;
use link_steps::StepTable;
use plan_base::Instance;
use plan_report::{check_line, trial_line};
use proof_tree::PlanStatus;
use std::alloc::Global;

/// Adds the line of `check` for an instance.
fn tell_instance(alloc: Global, inst: &Instance, text: &mut Vec<u8>) -> Option<()> {
    let table = StepTable::make(alloc, inst).ok()?;
    push_line(check_line(alloc, inst, &table), text)
}

/// Adds the line of `check`.
pub(crate) fn tell_check(alloc: Global, text: &mut Vec<u8>) -> Option<()> {
    let inst = instance(alloc)?;
    tell_instance(alloc, &inst, text)
}

/// Adds the line of a trial whose plan has this status, this cost and this bound in cost grains.
fn tell_trial(
    alloc: Global,
    inst: &Instance,
    status: PlanStatus,
    cost: Option<u128>,
    bound: Option<i128>,
    text: &mut Vec<u8>,
) -> Option<()> {
    let plan = plan_of(alloc, status, cost, bound)?;
    push_line(trial_line(alloc, inst, &plan), text)
}

/// Adds the lines of trials: of each status, and with and without a cost and a bound.
pub(crate) fn tell_trials(alloc: Global, text: &mut Vec<u8>) -> Option<()> {
    let inst = instance(alloc)?;
    let ten = Some(10_000_000_000_000);
    for (status, cost, bound) in [
        (PlanStatus::Optimal, ten, None),
        (PlanStatus::Infeasible, None, None),
        (PlanStatus::Undecided, ten, Some(8_500_000_000_000)),
        (PlanStatus::Undecided, None, None),
    ] {
        tell_trial(alloc, &inst, status, cost, bound, text)?;
    }
    Some(())
}
