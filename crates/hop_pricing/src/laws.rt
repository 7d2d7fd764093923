//! Laws of the definitions.

ghost use Rattle.std.specs.Prelude.{ℕ, List, ◌↔◌, ◌<◌};
ghost use Rattle.plan_base.specs.declared.parts.Parts.{Parts as AnyParts};
ghost use Rattle.arc_restrict.specs.Restrictions.{Forbidden, IsFewest};
ghost use Rattle.hop_pricing.specs.declared.within.Within.{Within as AnyWithin};
ghost use Rattle.hop_pricing.specs.Within.{HasNoneWithin, IsFoundWithin, IsSameAnswer};

/// No permitted path is within a limit exactly where the fewest arcs of a permitted path are above it.
pub fn above_the_limit()
    ensures { (p : AnyParts) (r : Forbidden) (k arcs hops : ℕ) → IsFewest p r k arcs → HasNoneWithin p r k hops ↔ (hops < arcs) }
{}

/// Two right answers within one limit are paths of one price, or tell the same fewest arcs.
pub fn one_answer()
    ensures { (p : AnyParts) (r : Forbidden) (prices : List ℕ) (k hops : ℕ) (one other : AnyWithin) → IsFoundWithin p r prices k hops one → IsFoundWithin p r prices k hops other → IsSameAnswer one other }
{}
