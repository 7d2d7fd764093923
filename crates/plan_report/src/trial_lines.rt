//! The line of a trial.

ghost use Rattle.std.specs.Prelude.{◌≡◌, ◌++◌, OnOk, IfOk};
ghost use Rattle.plan_report.specs.Reports.{trial_cost, trial_bound, trial_line};

use crate::check_lines::push_sizes;
use crate::verdict_lines::{COST_SCALE, push_bound, status_word};
use plan_base::Instance;
use proof_tree::{Plan, PlanStatus};
use scaled_numbers::write_grains;
use std::alloc::{AllocError, Global};

/// Writes the cost of a plan behind its word, where it has one.
fn push_trial_cost(text: &mut Vec<u8>, plan: &Plan) -> Result<(), AllocError>
    ensures { OnOk result (text.new.items ≡ text.old.items ++ trial_cost plan.now.design) }
{
    match &plan.design {
        Some((cost, _)) => {
            text.extend_from_slice(b" cost ")?;
            write_grains(*cost, COST_SCALE, text)
        }
        None => Ok(()),
    }
}

/// Writes the bound of a plan behind its word, where the plan is undecided.
fn push_trial_bound(text: &mut Vec<u8>, plan: &Plan) -> Result<(), AllocError>
    ensures { OnOk result (text.new.items ≡ text.old.items ++ trial_bound plan.now.status plan.now.bound) }
{
    match plan.status {
        PlanStatus::Optimal | PlanStatus::Infeasible => Ok(()),
        PlanStatus::Undecided => {
            text.extend_from_slice(b" bound")?;
            push_bound(text, plan.bound)
        }
    }
}

/// The line of a trial: the sizes of the instance, what its plan claims, the cost of the plan, where it has
/// one, and the bound of an undecided one.
///
/// - Takes: the instance, and a plan of it.
/// - Errors: want of memory alone.
/// - Rule: docs/FORMATS.md, "The line of `trial`".
pub fn trial_line(alloc: Global, inst: &Instance, plan: &Plan) -> Result<Vec<u8>, AllocError>
    ensures { IfOk result (λ text. text.items ≡ trial_line inst.now plan.now) }
{
    let mut text = Vec::from_slice(alloc, b"TRIAL")?;
    push_sizes(&mut text, inst)?;
    text.push(b' ')?;
    text.extend_from_slice(status_word(plan.status))?;
    push_trial_cost(&mut text, plan)?;
    push_trial_bound(&mut text, plan)?;
    text.push(b'\n')?;
    Ok(text)
}
