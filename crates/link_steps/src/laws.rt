//! Laws of the definitions.

ghost use Rattle.std.specs.Prelude.{ℕ, ℤ, List, [], ◌∷◌, ◌≡◌, ◌<◌, ◌≤◌, ◌+◌, ◌↔◌, length, map};
ghost use Rattle.plan_base.specs.declared.parts.CountLaw.{CountLaw as AnyLaw};
ghost use Rattle.plan_base.specs.declared.parts.Link.{Link as AnyLink};
ghost use Rattle.plan_base.specs.declared.parts.Parts.{Parts as AnyParts};
ghost use Rattle.plan_base.specs.declared.path.Design.{Design as AnyDesign};
ghost use Rattle.plan_base.specs.Facts.{total_load, top_load};
ghost use Rattle.plan_base.specs.Arcs.{link_at};
ghost use Rattle.plan_base.specs.Designs.{need, counts_at, module_cost_with, IsDesign, IsFeasible};
ghost use Rattle.link_steps.specs.declared.range.LinkRanges.{LinkRanges as AnyRanges};
ghost use Rattle.link_steps.specs.Costs.{CanCarry, Carries, IsLeastModuleCost, HasAtMostSteps, HasMoreSteps};
ghost use Rattle.link_steps.specs.Tallies.{tally, IsTally};
ghost use Rattle.link_steps.specs.Values.{IsLinkValue};
ghost use Rattle.link_steps.specs.WorthValues.{IsWorthValue};

/// Up to the total load, a least module cost is defined exactly where the load is at most the top load.
pub fn defined_up_to_top()
    ensures defined { (p : AnyParts) (e load : ℕ) → load ≤ top_load p (link_at p e) → (cost : ℕ) × IsLeastModuleCost p e load cost }
    ensures only { (p : AnyParts) (e load cost : ℕ) → load ≤ total_load p → IsLeastModuleCost p e load cost → load ≤ top_load p (link_at p e) }
{}

/// A least module cost is defined for each load that some lawful counts carry.
pub fn defined_where_carried()
    ensures { (p : AnyParts) (e load : ℕ) → CanCarry p e load → (cost : ℕ) × IsLeastModuleCost p e load cost }
{}

/// The least module cost never falls as the load grows.
pub fn never_falls()
    ensures { (p : AnyParts) (e low high low_cost high_cost : ℕ) → low ≤ high
        → IsLeastModuleCost p e low low_cost → IsLeastModuleCost p e high high_cost → low_cost ≤ high_cost }
{}

/// Lawful counts that carry a load cost at least its least module cost.
pub fn least_is_least()
    ensures { (p : AnyParts) (e : ℕ) (counts : List ℕ) (load cost : ℕ)
        → Carries p e load counts → IsLeastModuleCost p e load cost → cost ≤ module_cost_with (link_at p e) counts }
{}

/// The modules that a feasible design installs on a link cost at least the least module cost of its load there.
pub fn designs_cost_the_least()
    ensures { (p : AnyParts) (d : AnyDesign) (e cost : ℕ) → IsDesign p d → IsFeasible p d → e < length p.links
        → IsLeastModuleCost p e (need p d e) cost → cost ≤ module_cost_with (link_at p e) (counts_at d e) }
{}

/// A load has one least module cost.
pub fn least_is_one()
    ensures { (p : AnyParts) (e load a b : ℕ) → IsLeastModuleCost p e load a → IsLeastModuleCost p e load b → a ≡ b }
{}

/// No link has at most so many steps and more.
pub fn few_or_many()
    ensures { (law : AnyLaw) (l : AnyLink) (total number : ℕ) → HasAtMostSteps law total l number → HasMoreSteps law total l number → ⊥ }
{}

/// A tally is at most its argument.
pub fn tally_within()
    ensures { (period first x : ℕ) → IsTally period first → tally period first x ≤ x }
{}

/// A tally never falls.
pub fn tally_rises()
    ensures { (period first x y : ℕ) → IsTally period first → x ≤ y → tally period first x ≤ tally period first y }
{}

/// The tally of a sum is at most the sum of the tallies.
pub fn tally_is_subadditive()
    ensures { (period first x y : ℕ) → IsTally period first → tally period first (x + y) ≤ tally period first x + tally period first y }
{}

/// Without rates the link value at prices and rates is the one at prices.
pub fn value_without_rates()
    ensures { (p : AnyParts) (e : ℕ) (ranges : AnyRanges) (price back_price : ℕ) (value : ℤ)
        → IsWorthValue p e ranges price [] back_price [] value ↔ IsLinkValue p e ranges price back_price value }
{}

/// The tallies of some loads, where of each 10 grains the first 3 are counted.
pub fn worked_tallies()
    ensures { map (tally 10 3) (0 ∷ 2 ∷ 3 ∷ 9 ∷ 10 ∷ 12 ∷ 13 ∷ 25 ∷ []) ≡ 0 ∷ 2 ∷ 3 ∷ 3 ∷ 3 ∷ 5 ∷ 6 ∷ 9 ∷ [] }
{}
