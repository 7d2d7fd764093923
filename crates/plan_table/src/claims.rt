//! The table of what a plan claims.

ghost use Rattle.std.specs.Prelude.{◌≡◌, ◌<◌, ◌≤◌, ◌^◌, ◌*◌, ◌++◌, ◌∷◌, Some, None, OnOk, IfSome, pos, ◌≤ℤ◌, ◌<ℤ◌};
ghost use Rattle.std.specs.Int.{div_ceil};
ghost use Rattle.link_steps.specs.Unit.{IsUnit};
ghost use Rattle.plan_table.specs.Tables.{used_text, gap_text, rounded_up, claimed_bound, cost_field, gap_field, bound_fields, plan_names, plan_row, plan_table};

use crate::fields::push_digits;
use plan_report::{COST_SCALE, NamedPlan, push_signed, status_word};
use proof_tree::{Plan, PlanStatus};
use scaled_numbers::write_grains;
use std::alloc::AllocError;

/// The digits behind the point of a share in per cent.
const PERCENT_SCALE: u32 = 1;

/// Writes how much of a capacity is used, in per cent, rounded down; nothing where there is no capacity.
#[tactic(auto, unfolding(crate::specs::Tables::used_text))]
pub fn push_used(text: &mut Vec<u8>, used: u128, capacity: u128) -> Result<(), AllocError>
    requires { used ≤ 10 ^ 18 }
    ensures { OnOk result (text.new.items ≡ text.old.items ++ used_text used capacity) }
{
    if capacity == 0 {
        return Ok(());
    }
    write_grains(used * 1000 / capacity, PERCENT_SCALE, text)
}

/// Writes what a bound leaves open of a cost, in per cent, rounded up; nothing where the cost is 0.
#[tactic(auto, unfolding(crate::specs::Tables::gap_text))]
fn push_gap(text: &mut Vec<u8>, cost: u128, bound: u128) -> Result<(), AllocError>
    requires small { cost < 2 ^ 115 }
    requires below { bound ≤ cost }
    ensures { OnOk result (text.new.items ≡ text.old.items ++ gap_text cost (pos bound)) }
{
    if cost == 0 {
        return Ok(());
    }
    write_grains(1000 - bound * 1000 / cost, PERCENT_SCALE, text)
}

/// Writes the gap between a bound and the cost of a plan's design, where it has one.
fn push_gap_of(text: &mut Vec<u8>, plan: &Plan, bound: u128) -> Result<(), AllocError>
    requires small { IfSome plan.now.design (λ design. design.0 < 2 ^ 115) }
    requires below { IfSome plan.now.design (λ design. bound ≤ design.0) }
    ensures { OnOk result (text.new.items ≡ text.old.items ++ gap_field plan.now.design (Some (pos bound))) }
{
    match &plan.design {
        Some((cost, _)) => push_gap(text, *cost, bound),
        None => Ok(()),
    }
}

/// Writes a bound that is not negative, and the gap between it and the cost of a plan's design, where it has one.
#[tactic(auto, unfolding(crate::specs::Tables::bound_fields))]
fn push_number(text: &mut Vec<u8>, plan: &Plan, bound: u128) -> Result<(), AllocError>
    requires small { IfSome plan.now.design (λ design. design.0 < 2 ^ 115) }
    requires below { IfSome plan.now.design (λ design. bound ≤ design.0) }
    ensures { OnOk result (text.new.items ≡ text.old.items ++ bound_fields plan.now.design (Some (pos bound))) }
{
    text.push(b',')?;
    write_grains(bound, COST_SCALE, text)?;
    text.push(b',')?;
    push_gap_of(text, plan, bound)
}

/// Writes a bound that is negative, which leaves no gap.
#[tactic(auto, unfolding(crate::specs::Tables::bound_fields, crate::specs::Tables::gap_text))]
fn push_negative(text: &mut Vec<u8>, plan: &Plan, bound: i128) -> Result<(), AllocError>
    requires { bound <ℤ pos 0 }
    ensures { OnOk result (text.new.items ≡ text.old.items ++ bound_fields plan.now.design (Some bound)) }
{
    text.push(b',')?;
    push_signed(text, bound)?;
    text.push(b',')?;
    Ok(())
}

/// Writes that there is no bound.
#[tactic(auto, unfolding(crate::specs::Tables::bound_fields))]
fn push_none(text: &mut Vec<u8>, plan: &Plan) -> Result<(), AllocError>
    ensures { OnOk result (text.new.items ≡ text.old.items ++ bound_fields plan.now.design None) }
{
    text.extend_from_slice(b",,")
}

/// A number rounded up to a multiple of the unit.
fn rounded_up(number: u128, unit: u128) -> u128
    requires number { number < 2 ^ 127 }
    requires unit { 0 < unit }
    ensures { result ≡ div_ceil number unit * unit }
{
    number.div_ceil(unit) * unit
}

/// Writes the bound of an undecided plan, raised to the unit of costs, and the gap between it and the cost of its design.
fn push_raised(text: &mut Vec<u8>, plan: &Plan, bound: i128, unit: u128) -> Result<(), AllocError>
    requires unit { 0 < unit }
    requires small { IfSome plan.now.design (λ design. design.0 < 2 ^ 115) }
    requires below { IfSome plan.now.design (λ design. rounded_up unit bound ≤ℤ pos design.0) }
    ensures { OnOk result (text.new.items ≡ text.old.items ++ bound_fields plan.now.design (Some (rounded_up unit bound))) }
{
    if bound < 0 {
        push_negative(text, plan, bound)
    } else {
        push_number(text, plan, rounded_up(bound as u128, unit))
    }
}

/// Writes what no feasible design costs less than, as the plan claims, and the gap between that and the cost of its design.
fn push_bound(text: &mut Vec<u8>, plan: &Plan, unit: u128) -> Result<(), AllocError>
    requires unit { 0 < unit }
    requires small { IfSome plan.now.design (λ design. design.0 < 2 ^ 115) }
    requires below { IfSome plan.now.design (λ design. IfSome (claimed_bound unit plan.now.status plan.now.design plan.now.bound) (λ bound. bound ≤ℤ pos design.0)) }
    ensures { OnOk result (text.new.items ≡ text.old.items ++ bound_fields plan.now.design (claimed_bound unit plan.now.status plan.now.design plan.now.bound)) }
{
    match (plan.status, &plan.design, plan.bound) {
        (PlanStatus::Optimal, Some((cost, _)), _) => push_number(text, plan, *cost),
        (PlanStatus::Undecided, _, Some(bound)) => push_raised(text, plan, bound, unit),
        _ => push_none(text, plan),
    }
}

/// Writes the cost of a plan's design, where it has one.
fn push_cost(text: &mut Vec<u8>, plan: &Plan) -> Result<(), AllocError>
    ensures { OnOk result (text.new.items ≡ text.old.items ++ cost_field plan.now.design) }
{
    match &plan.design {
        Some((cost, _)) => write_grains(*cost, COST_SCALE, text),
        None => Ok(()),
    }
}

/// The names of the fields of the plan.
#[tactic(auto, unfolding(crate::specs::Tables::plan_names))]
fn plan_names() -> &'static [u8]
    ensures { result.now ≡ plan_names }
{
    b"kind,status,cost,bound,gap_percent,examined\n"
}

/// Writes the line of what a valid plan claims.
#[tactic(auto, unfolding(crate::specs::Tables::plan_row))]
fn push_row(text: &mut Vec<u8>, plan: &Plan, unit: u128) -> Result<(), AllocError>
    requires unit { 0 < unit }
    requires small { IfSome plan.now.design (λ design. design.0 < 2 ^ 115) }
    requires below { IfSome plan.now.design (λ design. IfSome (claimed_bound unit plan.now.status plan.now.design plan.now.bound) (λ bound. bound ≤ℤ pos design.0)) }
    ensures { OnOk result (text.new.items ≡ text.old.items ++ plan_row unit plan.now) }
{
    text.extend_from_slice(b"plan,")?;
    text.extend_from_slice(status_word(plan.status))?;
    text.push(b',')?;
    push_cost(text, plan)?;
    push_bound(text, plan, unit)?;
    text.push(b',')?;
    push_digits(text, u64::from(plan.examined))?;
    text.push(b'\n')?;
    Ok(())
}

/// Writes the table of what a valid plan claims, at the unit of costs.
pub fn push_plan(text: &mut Vec<u8>, named: &NamedPlan, unit: u128) -> Result<(), AllocError>
    requires { IsUnit named.now.parts unit }
    ensures { OnOk result (text.new.items ≡ text.old.items ++ plan_table unit named.now.plan) }
{
    let plan = named.plan();
    named.inst().lawful();
    text.extend_from_slice(plan_names())?;
    push_row(text, plan, unit)?;
    Ok(())
}
