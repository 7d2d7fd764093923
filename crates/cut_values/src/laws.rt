//! Laws of the definitions.

ghost use Rattle.std.specs.Prelude.{ℕ, ◌≡◌, ◌↔◌, ◌<◌, List, take, slice_index, slice_set, ℤ};
ghost use Rattle.plan_base.specs.declared.parts.Parts.{Parts as AnyParts};
ghost use Rattle.plan_base.specs.Places.{places};
ghost use Rattle.arc_restrict.specs.Prices.{AreWithinLimit};
ghost use Rattle.proof_tree.specs.declared.cuts.Cut.{Cut as AnyCut};
ghost use Rattle.proof_tree.specs.Regions.{Region, whole};
ghost use Rattle.proof_tree.specs.Bounds.{IsBound, IsOpeningBound};
ghost use Rattle.proof_tree.specs.RatedEvidence.{rates_in, AreLawfulNumbers, IsBoundAt};
ghost use Rattle.cut_values.specs.Numbers.{AreNumbers, AreStartNumbers, AreMovedWithin, HaveNoRates, IsPriceWithin};

/// Numbers with rates of 0 are as they have to be exactly where none is above the limit.
pub fn lawful_without_rates()
    ensures { (p : AnyParts) (cuts : List AnyCut) (numbers : List ℕ) → HaveNoRates p cuts numbers
        → AreLawfulNumbers p cuts numbers ↔ AreWithinLimit p numbers }
{}

/// With rates of 0 a bound is that of the prices alone.
pub fn bound_without_rates()
    ensures { (p : AnyParts) (cuts : List AnyCut) (g : Region) (numbers : List ℕ) (bound : ℤ) → HaveNoRates p cuts numbers
        → IsBoundAt p cuts g numbers bound ↔ IsBound p g numbers bound }
{}

/// The bound at start numbers is that at their prices alone, and that of the whole region is the opening bound.
pub fn start_bound()
    ensures prices { (p : AnyParts) (cuts : List AnyCut) (numbers : List ℕ) (g : Region) (bound : ℤ) → AreStartNumbers p cuts numbers
        → IsBoundAt p cuts g numbers bound ↔ IsBound p g (take (places p) numbers) bound }
    ensures opening { (p : AnyParts) (cuts : List AnyCut) (numbers : List ℕ) (bound : ℤ) → AreStartNumbers p cuts numbers
        → IsBoundAt p cuts (whole p) numbers bound → IsOpeningBound p bound }
{}

/// The price of each place is within what its rates leave, and numbers whose prices move within that, beside the same
/// rates, are as they have to be.
pub fn moved_numbers()
    ensures here { (p : AnyParts) (cuts : List AnyCut) (numbers : List ℕ) (q : ℕ) → AreNumbers p cuts numbers → q < places p
        → IsPriceWithin p cuts numbers q (slice_index numbers q) }
    ensures moved { (p : AnyParts) (cuts : List AnyCut) (old new : List ℕ) → AreNumbers p cuts old
        → AreMovedWithin p cuts old new → AreNumbers p cuts new }
    ensures rates { (p : AnyParts) (cuts : List AnyCut) (old new : List ℕ) → AreNumbers p cuts old
        → AreMovedWithin p cuts old new → rates_in p new ≡ rates_in p old }
    ensures put { (p : AnyParts) (cuts : List AnyCut) (numbers : List ℕ) (q price : ℕ) → AreNumbers p cuts numbers → q < places p
        → IsPriceWithin p cuts numbers q price → AreMovedWithin p cuts numbers (slice_set numbers q price) }
{}
