//! Laws of the definitions.

ghost use Rattle.std.specs.Prelude.{ℕ, ◌↔◌, ◌<◌, List, length, Option, ℤ};
ghost use Rattle.plan_base.specs.declared.parts.Parts.{Parts as AnyParts};
ghost use Rattle.arc_restrict.specs.Prices.{AreWithinLimit};
ghost use Rattle.proof_tree.specs.declared.cuts.Cut.{Cut as AnyCut};
ghost use Rattle.proof_tree.specs.Regions.{Region};
ghost use Rattle.proof_tree.specs.RatedEvidence.{IsBoundAt};
ghost use Rattle.proof_tree.specs.Evidence.{ClosedByCrowd};
ghost use Rattle.bound_assembly.specs.Rounds.{HasLength};
ghost use Rattle.bound_assembly.specs.RoundBounds.{AreLeastLengths, IsRoundBound, IsRoundCrowd};

/// Where each length that was put is the least price of its demand in a region, a round's bound over the region's ranges
/// is the bound of that region at the round's prices and rates of cuts.
pub fn least_lengths()
    ensures { (p : AnyParts) (cuts : List AnyCut) (g : Region) (numbers : List ℕ) (lengths : List (Option ℕ)) (bound : ℤ)
        → AreLeastLengths p g.forbidden numbers lengths → IsRoundBound p cuts g.ranges numbers lengths bound → IsBoundAt p cuts g numbers bound }
{}

/// Where each demand has a length, and it is the least price of its demand in a region, a round shows a crowd over the
/// region's ranges exactly where its prices close a leaf of that region as crowded.
pub fn least_crowds()
    ensures { (p : AnyParts) (g : Region) (prices : List ℕ) (lengths : List (Option ℕ))
        → AreWithinLimit p prices → ((k : ℕ) → k < length p.demands → HasLength lengths k) → AreLeastLengths p g.forbidden prices lengths
        → IsRoundCrowd p g.ranges prices lengths ↔ ClosedByCrowd p g prices }
{}
