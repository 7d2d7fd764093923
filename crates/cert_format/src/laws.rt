//! Laws of plan texts. The contract of each function is its law; the functions do nothing.

ghost use Rattle.std.specs.Prelude.{◌≡◌, ◌≤◌, ◌⊎◌, ◌↔◌, ℕ, false, length, List, [], IsTrue};
ghost use Rattle.proof_tree.specs.declared.plan.Plan.{Plan as AnyPlan};
ghost use Rattle.cert_format.specs.declared.fault.PlanFault.{PlanFault};
ghost use Rattle.cert_format.specs.declared.fault.PlanFault.TheVariants.{OutOfMemory};
ghost use Rattle.cert_format.specs.declared.limits.TheConstants.{MAX_PLAN_BYTES};
ghost use Rattle.cert_format.specs.declared.form.Form.TheVariants.{First, Second, Third};
ghost use Rattle.proof_tree.specs.Spellings.{IsSpellable};
ghost use Rattle.cert_format.specs.Versions.{has_thirds, HasLines};
ghost use Rattle.cert_format.specs.Grammar.{plan_text, written_text, HasFields, SpellsPlan};
ghost use Rattle.cert_format.specs.Faults.{IsFault};

/// No text spells two plans.
pub fn one_plan_for_a_text()
    ensures { (text : List ℕ) (one other : AnyPlan) → SpellsPlan text one → SpellsPlan text other → one ≡ other }
{}

/// No plan has two texts of one version.
pub fn one_text_for_a_plan()
    ensures { (one other : List ℕ) (plan : AnyPlan) (s : SpellsPlan one plan) (t : SpellsPlan other plan) → s.form ≡ t.form → one ≡ other }
{}

/// A text is of the third version exactly where its plan has a cut or a load split.
pub fn third_for_cuts_and_loads()
    ensures { (text : List ℕ) (plan : AnyPlan) (s : SpellsPlan text plan) → (s.form ≡ Third) ↔ IsTrue (has_thirds plan.cuts plan.tree) }
{}

/// A plan that fits has a text of the third version where it has a cut or a load split, else one of the second, and one
/// of the first where also no link has two prices and no leaf has a demand that is far.
pub fn a_text_for_a_plan()
    ensures third { (plan : AnyPlan) → IsSpellable plan → HasFields plan → IsTrue (has_thirds plan.cuts plan.tree) → SpellsPlan (plan_text Third plan) plan }
    ensures second { (plan : AnyPlan) → IsSpellable plan → HasFields plan → has_thirds plan.cuts plan.tree ≡ false → SpellsPlan (plan_text Second plan) plan }
    ensures first { (plan : AnyPlan) → IsSpellable plan → HasFields plan → plan.both ≡ false → plan.cuts ≡ [] → HasLines First plan.tree → SpellsPlan (plan_text First plan) plan }
{}

/// A text that spells a plan has no fault; want of memory may be told of any text.
pub fn no_fault_where_spelt()
    ensures { (text : List ℕ) (plan : AnyPlan) (fault : PlanFault) → SpellsPlan text plan → IsFault text fault → fault ≡ OutOfMemory }
{}

/// No text has two faults; want of memory may be told of any text.
pub fn one_fault_for_a_text()
    ensures { (text : List ℕ) (one other : PlanFault) → IsFault text one → IsFault text other → (one ≡ OutOfMemory) ⊎ ((other ≡ OutOfMemory) ⊎ (one ≡ other)) }
{}

/// The text that is written of a plan that fits is within the limit of bytes.
pub fn text_within_limit()
    ensures { (plan : AnyPlan) → IsSpellable plan → HasFields plan → length (written_text plan) ≤ MAX_PLAN_BYTES }
{}
