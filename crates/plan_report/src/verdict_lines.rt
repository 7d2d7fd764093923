//! The line of a verdict on a plan.

ghost use Rattle.std.specs.Prelude.{◌≡◌, ◌++◌, ◌∷◌, OnOk, IfOk};
ghost use Rattle.plan_report.specs.Verdicts.{cost_text, signed_text, bound_text, status_word, cost_part, accepted_line, design_fault_number, costs_line, bounds_line, rejected_line, verdict_line};

use crate::numbers::line;
use cert_verifier::Rejected;
use plan_base::DesignFault;
use proof_tree::{Plan, PlanStatus};
use scaled_numbers::write_grains;
use std::alloc::{AllocError, Global};

/// Decimals behind the point of a cost or a bound in cost grains.
pub const COST_SCALE: u32 = 12;

/// What the lines of rejected plans begin with.
const REJECTED: &[u8] = b"REJECTED";

/// Writes a blank and a cost.
fn push_cost(text: &mut Vec<u8>, cost: u128) -> Result<(), AllocError>
    ensures { OnOk result (text.new.items ≡ text.old.items ++ 32 ∷ cost_text cost) }
{
    text.push(b' ')?;
    write_grains(cost, COST_SCALE, text)
}

/// Writes a bound, with a minus where it is negative.
///
/// - Takes: a bound in cost grains.
/// - Errors: want of memory alone.
pub fn push_signed(text: &mut Vec<u8>, bound: i128) -> Result<(), AllocError>
    ensures { OnOk result (text.new.items ≡ text.old.items ++ signed_text bound) }
{
    if bound < 0 {
        text.push(b'-')?;
    }
    write_grains(bound.unsigned_abs(), COST_SCALE, text)
}

/// Writes a blank and a bound, or that there is none.
pub fn push_bound(text: &mut Vec<u8>, bound: Option<i128>) -> Result<(), AllocError>
    ensures { OnOk result (text.new.items ≡ text.old.items ++ 32 ∷ bound_text bound) }
{
    text.push(b' ')?;
    match bound {
        Some(bound) => push_signed(text, bound),
        None => text.extend_from_slice(b"none"),
    }
}

/// The word of a plan's status.
pub fn status_word(status: PlanStatus) -> &'static [u8]
    ensures { result.now ≡ status_word status }
{
    match status {
        PlanStatus::Optimal => b"OPTIMAL",
        PlanStatus::Infeasible => b"INFEASIBLE",
        PlanStatus::Undecided => b"UNDECIDED",
    }
}

/// Writes the stated cost of a plan behind a blank, where it has one.
fn push_stated(text: &mut Vec<u8>, plan: &Plan) -> Result<(), AllocError>
    ensures { OnOk result (text.new.items ≡ text.old.items ++ cost_part plan.now.design) }
{
    match &plan.design {
        Some((cost, _)) => push_cost(text, *cost),
        None => Ok(()),
    }
}

/// The line of a plan that is accepted.
fn accepted_line(alloc: Global, plan: &Plan) -> Result<Vec<u8>, AllocError>
    ensures { IfOk result (λ text. text.items ≡ accepted_line plan.now) }
{
    let mut text = Vec::from_slice(alloc, b"ACCEPTED ")?;
    text.extend_from_slice(status_word(plan.status))?;
    push_stated(&mut text, plan)?;
    text.push(b'\n')?;
    Ok(text)
}

/// The number of a fault of a design.
fn design_fault_number(fault: DesignFault) -> u64
    ensures { result ≡ design_fault_number fault }
{
    match fault {
        DesignFault::WrongCount => 1,
        DesignFault::NotAPath { .. } => 2,
        DesignFault::Repeats { .. } => 3,
        DesignFault::CountShape { .. } => 4,
        DesignFault::Short { .. } => 5,
        DesignFault::TooLong { .. } => 6,
    }
}

/// The line of a plan that states another cost than it has.
fn costs_line(alloc: Global, stated: u128, found: u128) -> Result<Vec<u8>, AllocError>
    ensures { IfOk result (λ text. text.items ≡ costs_line stated found) }
{
    let mut text = Vec::from_slice(alloc, b"REJECTED 2")?;
    push_cost(&mut text, stated)?;
    push_cost(&mut text, found)?;
    text.push(b'\n')?;
    Ok(text)
}

/// The line of a plan that states another bound than it has.
fn bounds_line(
    alloc: Global,
    stated: Option<i128>,
    found: Option<i128>,
) -> Result<Vec<u8>, AllocError>
    ensures { IfOk result (λ text. text.items ≡ bounds_line stated found) }
{
    let mut text = Vec::from_slice(alloc, b"REJECTED 6")?;
    push_bound(&mut text, stated)?;
    push_bound(&mut text, found)?;
    text.push(b'\n')?;
    Ok(text)
}

/// The line of a plan that breaks a rule.
fn rejected_line(alloc: Global, fault: Rejected) -> Result<Vec<u8>, AllocError>
    ensures { IfOk result (λ text. text.items ≡ rejected_line fault) }
{
    match fault {
        Rejected::Design(fault) => line(alloc, REJECTED, &[1, design_fault_number(fault)]),
        Rejected::Cost { stated, found } => costs_line(alloc, stated, found),
        Rejected::Split { index, rule } => {
            line(alloc, REJECTED, &[3, u64::from(index), u64::from(rule)])
        }
        Rejected::Leaf { index, rule } => {
            line(alloc, REJECTED, &[4, u64::from(index), u64::from(rule)])
        }
        Rejected::Counts { stated, found } => {
            line(alloc, REJECTED, &[5, u64::from(stated), u64::from(found)])
        }
        Rejected::Bound { stated, found } => bounds_line(alloc, stated, found),
        Rejected::Kind { index } => line(alloc, REJECTED, &[7, u64::from(index)]),
        Rejected::OutOfMemory => line(alloc, REJECTED, &[8]),
        Rejected::Size => line(alloc, REJECTED, &[9]),
        Rejected::Budget { examined, budget } => {
            line(
                alloc,
                REJECTED,
                &[10, u64::from(examined), u64::from(budget)],
            )
        }
        Rejected::Cuts { index } => line(alloc, REJECTED, &[11, u64::from(index)]),
    }
}

/// The line of a verdict: what an accepted plan claims, or the first rule that a rejected one breaks.
///
/// - Takes: the plan, and what the verifier says of it.
/// - Errors: want of memory alone.
/// - Rule: docs/FORMATS.md, "The line of `verify`".
pub fn verdict_line(
    alloc: Global,
    plan: &Plan,
    verdict: &Result<(), Rejected>,
) -> Result<Vec<u8>, AllocError>
    ensures { IfOk result (λ text. text.items ≡ verdict_line plan.now verdict.now) }
{
    match verdict {
        Ok(()) => accepted_line(alloc, plan),
        Err(fault) => rejected_line(alloc, *fault),
    }
}
