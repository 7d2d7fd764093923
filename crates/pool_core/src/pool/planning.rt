//! The plan of a pool that is done.

ghost use Rattle.std.specs.Prelude.{◌≡◌, IfOk, true};
ghost use Rattle.proof_tree.specs.Plans.{IsValidPlan};
ghost use Rattle.proof_tree.specs.Spellings.{IsSpellable};
ghost use Rattle.search_machine.specs.PlanOf.{is_done, IsPlanOf, HasOpeningBound, PartsPaths};

use super::Pool;
use proof_tree::Plan;
use std::alloc::AllocError;

impl Pool {
    /// The plan: the tree, the best design, and what they claim.
    ///
    /// - Takes: a pool that is done.
    /// - Gives: a valid plan, which a plan text can hold, and each split of which parts two permitted paths of a demand or
    ///   two steps of a link. The bound of an undecided plan is at least the bound of the root at the start prices.
    /// - Errors: want of memory alone.
    /// - Rule: docs/METHOD.md, "The search as a machine".
    pub fn into_plan(self) -> Result<Plan, AllocError>
        requires done { is_done self ≡ true }
        ensures plan { IfOk result (λ plan. IsPlanOf self plan) }
        ensures valid { IfOk result (λ plan. IsValidPlan self.problem plan) }
        ensures fits { IfOk result IsSpellable }
        ensures bound { IfOk result (λ plan. HasOpeningBound self.problem plan) }
        ensures splits { IfOk result (λ plan. PartsPaths self.problem plan.tree) }
    {
        let Pool {
            state,
            room: _room,
            places: _places,
            claims: _claims,
            leaves: _leaves,
            known,
        } = self;
        plan_of_search::into_plan(state, &known)
    }
}
