//! Whether a plan is valid.

ghost use Rattle.std.specs.Prelude.{◌≡◌, ◌<◌, ◌^◌, pos, length, IfOk, IfErr, IfSome};
ghost use Rattle.std.specs.Option.{option_map};
ghost use Rattle.std.specs.Result.{result_err};
ghost use Rattle.plan_base.specs.declared.parts.Parts.{Parts as AnyParts};
ghost use Rattle.proof_tree.specs.Trees.{leaves_of};
ghost use Rattle.proof_tree.specs.Plans.{stated_cost, IsValidPlan, HasItsClaim};
ghost use Rattle.proof_tree.specs.Spellings.{IsSpellable};
ghost use Rattle.cert_verifier.specs.declared.rejected.Rejected.TheVariants.{OutOfMemory, Bound};
ghost use Rattle.cert_verifier.specs.Bounds.{IsLeastBoundIn};
ghost use Rattle.cert_verifier.specs.Rules.{unless};
ghost use Rattle.cert_verifier.specs.Told.{Tells};
ghost use Rattle.cert_verifier.specs.PlanRules.{BoundFinds, CountsFind, PlanFinds, IsRejection};

use crate::claims::{
    check_cuts, check_plan_design, examined_count, has_its_open, has_sizes, keeps_budget,
    stated_cost,
};
use crate::rejected::Rejected;
use crate::walk::{Against, lower, walk_tree};
use link_steps::{StepTable, cost_unit};
use plan_base::Instance;
use proof_tree::{Plan, PlanStatus, rests_of};
use std::alloc::Global;

/// The cost as a bound, both in cost grains.
fn as_bound(cost: Option<u128>) -> Option<i128>
    requires { IfSome cost (λ cost. cost < 2 ^ 127) }
    ensures { result ≡ option_map (λ cost. pos cost) cost }
{
    match cost {
        Some(cost) => Some(cost as i128),
        None => None,
    }
}

/// Whether the bound is the stated one, both in cost grains.
#[tactic(auto, using(crate::proofs::FirstRules::first_rules))]
fn check_stated_bound(stated: Option<i128>, found: Option<i128>) -> Result<(), Rejected>
    ensures { unless (stated ≡ found) (Bound stated found) (result_err result) }
{
    if stated != found {
        return Err(Rejected::Bound { stated, found });
    }
    Ok(())
}

/// Whether an undecided plan states the bound that it has.
fn check_bound(plan: &Plan, lowest: Option<i128>) -> Result<(), Rejected>
    requires { IfSome (stated_cost plan.now) (λ cost. cost < 2 ^ 127) }
    ensures { (p : AnyParts) → IsLeastBoundIn p plan.now.cuts (leaves_of p plan.now.tree) lowest
        → BoundFinds p plan.now plan.now.status (result_err result) }
{
    match plan.status {
        PlanStatus::Optimal | PlanStatus::Infeasible => Ok(()),
        PlanStatus::Undecided => {
            let found = lower(as_bound(stated_cost(plan)), lowest);
            check_stated_bound(plan.bound, found)
        }
    }
}

/// The rules that come after the records.
#[tactic(auto, using(crate::proofs::FirstRules::first_rules))]
fn check_counts(plan: &Plan) -> Result<(), Rejected>
    requires { length plan.now.tree < 2 ^ 32 }
    ensures { CountsFind plan.now (result_err result) }
{
    let nodes = plan.tree.nodes();
    if !has_its_open(plan) {
        return Err(Rejected::Kind {
            index: nodes.len() as u32,
        });
    }
    let found = examined_count(nodes);
    if plan.examined != found {
        return Err(Rejected::Counts {
            stated: plan.examined,
            found,
        });
    }
    if !keeps_budget(plan) {
        return Err(Rejected::Budget {
            examined: plan.examined,
            budget: plan.budget,
        });
    }
    Ok(())
}

/// The first rule that the plan breaks.
fn check_plan(
    alloc: Global,
    inst: &Instance,
    table: &StepTable,
    plan: &Plan,
) -> Result<(), Rejected>
    requires table { table.now ≡ inst.now }
    requires fits { IsSpellable plan.now }
    ensures { Tells (PlanFinds inst.now plan.now) (result_err result) }
{
    if !has_sizes(inst, plan) {
        return Err(Rejected::Size);
    }
    check_plan_design(inst, plan)?;
    let cuts = plan.cuts.as_slice();
    check_cuts(inst, cuts)?;
    let rests = rests_of(alloc, inst, cuts)?;
    let against = Against {
        inst,
        table,
        plan,
        rests: rests.as_slice(),
        unit: cost_unit(inst),
    };
    let lowest = walk_tree(alloc, &against)?;
    check_counts(plan)?;
    check_bound(plan, lowest)
}

/// Whether the plan is valid, and else the first rule that it breaks.
///
/// - Takes: the instance's own table; a plan whose parts fit, as `Plan::fits` tells.
/// - Gives: `Ok` exactly where the plan is valid, but for want of memory.
/// - Errors: the first rule that is broken, in this order: the sizes, the design, its cost, each cut, each record in
///   preorder (its kind first, then the rules of a split or of a leaf), an undecided plan without an open leaf, the count
///   of examined nodes, the budget, the bound.
/// - Rule: docs/FORMATS.md, "Rules of a plan".
/// - Time: linear in the tree, but for each leaf: nodes times arcs to price it, for each source of a demand and for each
///   demand that is forbidden an arc, and the steps of links whose loads are split; where the plan has cuts, the steps of
///   all links times the cuts that they cross; and where it is closed by its paths, for each demand and each arc of its
///   path. For each cut the demands and the places, and the earlier cuts.
pub fn verify(
    alloc: Global,
    inst: &Instance,
    table: &StepTable,
    plan: &Plan,
) -> Result<(), Rejected>
    requires table { table.now ≡ inst.now }
    requires fits { IsSpellable plan.now }
    ensures valid { IfOk result (λ _. IsValidPlan inst.now plan.now) }
    ensures claim { IfOk result (λ _. HasItsClaim inst.now plan.now) }
    ensures accepted { IsValidPlan inst.now plan.now → IfErr result (λ fault. fault ≡ OutOfMemory) }
    ensures fault { IfErr result (IsRejection inst.now plan.now) }
{
    check_plan(alloc, inst, table, plan)
}
