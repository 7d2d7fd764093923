//! Laws of the rules.

ghost use Rattle.std.specs.Prelude.{◌≡◌, ◌↔◌, Option, None};
ghost use Rattle.plan_base.specs.declared.parts.Parts.{Parts as AnyParts};
ghost use Rattle.proof_tree.specs.declared.plan.Plan.{Plan as AnyPlan};
ghost use Rattle.proof_tree.specs.Plans.{IsValidPlan};
ghost use Rattle.proof_tree.specs.Spellings.{IsSpellable};
ghost use Rattle.cert_verifier.specs.declared.rejected.Rejected.{Rejected as AnyFault};
ghost use Rattle.cert_verifier.specs.PlanRules.{PlanFinds};

/// A plan that a text can spell breaks no rule exactly where it is valid.
pub fn no_fault()
    ensures { (p : AnyParts) (plan : AnyPlan) → IsSpellable plan → (PlanFinds p plan None ↔ IsValidPlan p plan) }
{}

/// A plan has at most one first broken rule.
pub fn one_fault()
    ensures { (p : AnyParts) (plan : AnyPlan) (one other : Option AnyFault)
        → PlanFinds p plan one → PlanFinds p plan other → one ≡ other }
{}
