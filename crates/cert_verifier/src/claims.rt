//! What is checked of a plan besides its records: sizes, design, cuts, and what its status asks of counts and leaves.

ghost use Rattle.std.specs.Prelude.{◌≡◌, ◌↔◌, ◌<◌, ◌≤◌, ◌^◌, Some, IsTrue, length};
ghost use Rattle.std.specs.List.{list_any};
ghost use Rattle.std.specs.Result.{result_err};
ghost use Rattle.plan_base.specs.Facts.{IsInstance};
ghost use Rattle.proof_tree.specs.declared.limits.TheConstants.{MAX_CUTS};
ghost use Rattle.proof_tree.specs.Plans.{is_open, needs_cost, stated_cost, HasSizes};
ghost use Rattle.cert_verifier.specs.Kinds.{asks_closed, asks_without_cost, is_wrong_kind};
ghost use Rattle.cert_verifier.specs.PlanRules.{DesignFinds, IsNewCut, CutsFind, HasItsOpen, KeepsBudget, examined_count};

use crate::rejected::Rejected;
use plan_base::{Design, Instance, check_design};
use proof_tree::{Cut, Evidence, Plan, PlanStatus, TreeNode, is_new};

/// Whether the record is a leaf that is left open.
pub(crate) fn is_open(node: &TreeNode) -> bool
    ensures { result ≡ is_open node.now }
{
    matches!(node, TreeNode::Leaf(Evidence::Open(_)))
}

/// Whether the record is a leaf that is closed against a cost.
fn needs_cost(node: &TreeNode) -> bool
    ensures { result ≡ needs_cost node.now }
{
    matches!(
        node,
        TreeNode::Leaf(Evidence::Bound(_)) | TreeNode::Leaf(Evidence::Routed)
    )
}

/// Whether a plan of this status leaves no leaf open.
fn asks_closed(status: PlanStatus) -> bool
    ensures { result ≡ asks_closed status }
{
    match status {
        PlanStatus::Optimal | PlanStatus::Infeasible => true,
        PlanStatus::Undecided => false,
    }
}

/// Whether the plan closes no leaf against a cost.
fn asks_without_cost(plan: &Plan) -> bool
    ensures { result ≡ asks_without_cost plan.now.status plan.now.design }
{
    match plan.status {
        PlanStatus::Optimal => false,
        PlanStatus::Infeasible => true,
        PlanStatus::Undecided => plan.design.is_none(),
    }
}

/// Whether the record is a leaf that a plan of this status may not have.
pub(crate) fn is_wrong_kind(plan: &Plan, node: &TreeNode) -> bool
    ensures { result ≡ is_wrong_kind plan.now node.now }
{
    (asks_closed(plan.status) && is_open(node)) || (asks_without_cost(plan) && needs_cost(node))
}

/// The cost that the plan states for its design, in cost grains.
pub(crate) fn stated_cost(plan: &Plan) -> Option<u128>
    ensures { result ≡ stated_cost plan.now }
{
    match &plan.design {
        Some((cost, _)) => Some(*cost),
        None => None,
    }
}

/// Whether the plan states the sizes of the instance, and whether each of its links has two places.
pub(crate) fn has_sizes(inst: &Instance, plan: &Plan) -> bool
    ensures tells { IsTrue result ↔ HasSizes inst.now plan.now }
    ensures lawful { IsInstance inst.now }
{
    let links = inst.links();
    plan.nodes == inst.nodes()
        && plan.links == links
        && plan.demands == inst.demands()
        && plan.both == inst.orient().is_two_way()
}

/// What is wrong with a design, or with its cost in cost grains.
fn check_stated(inst: &Instance, stated: u128, design: &Design) -> Result<(), Rejected>
    ensures { DesignFinds inst.now (Some (stated, design.now)) (result_err result) }
{
    match check_design(inst, design) {
        Ok(found) if found == stated => Ok(()),
        Ok(found) => Err(Rejected::Cost { stated, found }),
        Err(fault) => Err(Rejected::Design(fault)),
    }
}

/// What is wrong with the plan's design, where there is one, or with its cost.
pub(crate) fn check_plan_design(inst: &Instance, plan: &Plan) -> Result<(), Rejected>
    ensures { DesignFinds inst.now plan.now.design (result_err result) }
{
    match &plan.design {
        Some((stated, design)) => check_stated(inst, *stated, design),
        None => Ok(()),
    }
}

/// Whether the cut of this number is one of the instance, and no earlier one is the same.
fn is_new_cut(inst: &Instance, cuts: &[Cut], number: usize) -> bool
    requires { number < length cuts.now }
    ensures { IsTrue result ↔ IsNewCut inst.now cuts.now number }
{
    cuts[number].fits(inst) && is_new(cuts, number)
}

/// The first of the plan's cuts that is none of the instance, or is the same as an earlier one.
pub(crate) fn check_cuts(inst: &Instance, cuts: &[Cut]) -> Result<(), Rejected>
    requires { length cuts.now ≤ MAX_CUTS }
    ensures { CutsFind inst.now cuts.now (length cuts.now) (result_err result) }
{
    for number in 0..cuts.len() {
        if !is_new_cut(inst, cuts, number) {
            return Err(Rejected::Cuts {
                index: number as u32,
            });
        }
    }
    Ok(())
}

/// Whether one of the records is a leaf that is left open.
fn has_open(nodes: &[TreeNode]) -> bool
    ensures { result ≡ list_any is_open nodes.now }
{
    nodes.iter().any(is_open)
}

/// Whether an undecided plan has an open leaf.
pub(crate) fn has_its_open(plan: &Plan) -> bool
    ensures { IsTrue result ↔ HasItsOpen plan.now.status plan.now.tree }
{
    match plan.status {
        PlanStatus::Optimal | PlanStatus::Infeasible => true,
        PlanStatus::Undecided => has_open(plan.tree.nodes()),
    }
}

/// How many records are splits or closed leaves.
pub(crate) fn examined_count(nodes: &[TreeNode]) -> u32
    requires few { length nodes.now < 2 ^ 32 }
    ensures { result ≡ examined_count nodes.now }
{
    let mut count = 0;
    for node in nodes {
        if !is_open(node) {
            count += 1;
        }
    }
    count
}

/// Whether no more is examined than the budget, and all of it in an undecided plan.
pub(crate) fn keeps_budget(plan: &Plan) -> bool
    ensures { IsTrue result ↔ KeepsBudget plan.now.status plan.now.examined plan.now.budget }
{
    match plan.status {
        PlanStatus::Optimal | PlanStatus::Infeasible => plan.examined <= plan.budget,
        PlanStatus::Undecided => plan.examined == plan.budget,
    }
}
