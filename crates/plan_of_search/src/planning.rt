//! The plan of a search that is done.

ghost use Rattle.std.specs.Prelude.{◌≡◌, IfOk, true};
ghost use Rattle.proof_tree.specs.Plans.{IsValidPlan};
ghost use Rattle.proof_tree.specs.Spellings.{IsSpellable};
ghost use Rattle.search_machine.specs.PlanOf.{status_of, is_done, stated_design, IsPlanOf, HasOpeningBound, PartsPaths};
ghost use Rattle.plan_of_search.specs.PlanParts.{machine_state, IsReachable, IsAssembled, IsStatedBound};

use crate::bounds::least_bound;
use crate::records;
use leaf_tasks::KnownAbove;
use plan_base::{Design, Items};
use proof_tree::{Cut, Plan, PlanStatus};
use search_machine::Incumbent;
use search_nodes::SearchState;
use std::alloc::{AllocError, Global};

/// The best design and its cost.
fn design_of(incumbent: Option<Incumbent>) -> Option<(u128, Design)>
    ensures { result ≡ stated_design incumbent }
{
    match incumbent {
        Some(held) => Some((held.cost, held.design)),
        None => None,
    }
}

/// Copies of cuts.
fn copies_of(alloc: Global, cuts: &[Cut]) -> Result<Items<Cut>, AllocError>
    ensures { IfOk result (λ copies. copies ≡ cuts.now) }
{
    let mut copies = Vec::new(alloc);
    for cut in cuts {
        copies.push(cut.copy()?)?;
    }
    Ok(Items::from_vec(copies))
}

/// What the plan claims: nothing where a leaf is open.
fn status(state: &SearchState) -> PlanStatus
    requires { IsReachable (machine_state state.now) }
    ensures { result ≡ status_of (machine_state state.now) }
{
    if (state.examined as usize) < state.nodes.as_slice().len() {
        return PlanStatus::Undecided;
    }
    match &state.incumbent {
        Some(_) => PlanStatus::Optimal,
        None => PlanStatus::Infeasible,
    }
}

/// The bound that the plan states, in cost grains.
fn stated_bound(
    state: &SearchState,
    known: &KnownAbove,
    status: PlanStatus,
) -> Result<Option<i128>, AllocError>
    requires { IsAssembled state.now }
    ensures { IfOk result (IsStatedBound (machine_state state.now) status) }
{
    match status {
        PlanStatus::Undecided => least_bound(state, known),
        PlanStatus::Optimal => Ok(None),
        PlanStatus::Infeasible => Ok(None),
    }
}

/// The plan: the tree, the best design, and what they claim.
///
/// - Takes: a search that is done; what is known above its nodes that wait, so that their bounds are found sooner.
/// - Gives: a valid plan with the cuts of the search, which a plan text can hold, and each split of which parts two paths
///   of a demand or two steps of a link. The bound of an undecided plan is at least the bound of the root at the start
///   prices.
/// - Errors: want of memory alone.
/// - Rule: docs/METHOD.md, "The search as a machine".
pub fn into_plan(state: SearchState, known: &KnownAbove) -> Result<Plan, AllocError>
    requires assembled { IsAssembled state }
    requires done { is_done (machine_state state) ≡ true }
    ensures plan { IfOk result (λ plan. IsPlanOf (machine_state state) plan) }
    ensures valid { IfOk result (λ plan. IsValidPlan (machine_state state).problem plan) }
    ensures fits { IfOk result IsSpellable }
    ensures bound { IfOk result (λ plan. HasOpeningBound (machine_state state).problem plan) }
    ensures splits { IfOk result (λ plan. PartsPaths (machine_state state).problem plan.tree) }
{
    let status = status(&state);
    let bound = stated_bound(&state, known, status)?;
    let SearchState {
        alloc,
        problem,
        table,
        unit: _unit,
        nodes,
        grounds: _grounds,
        columns: _columns,
        incumbent,
        examined,
        budget,
        next_version: _next_version,
        accepted: _accepted,
    } = state;
    let cuts = copies_of(alloc, table.cuts())?;
    let tree = records::tree_of(alloc, nodes)?;
    Ok(Plan {
        nodes: problem.nodes(),
        links: problem.links(),
        demands: problem.demands(),
        both: problem.orient().is_two_way(),
        status,
        budget,
        examined,
        design: design_of(incumbent),
        bound,
        cuts,
        tree,
    })
}
