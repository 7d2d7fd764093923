//! Laws of the definitions.

ghost use Rattle.std.specs.Prelude.{ℕ, List, ◌≡◌, ◌<◌, length, ℤ};
ghost use Rattle.plan_base.specs.declared.ids.ArcId.{ArcId as AnyArc};
ghost use Rattle.plan_base.specs.declared.parts.Parts.{Parts as AnyParts};
ghost use Rattle.link_steps.specs.declared.range.LoadRange.{LoadRange as AnyRange};
ghost use Rattle.proof_tree.specs.declared.cuts.Cut.{Cut as AnyCut};
ghost use Rattle.master_step.specs.Columns.{Choices, least_column, IsFirstLeast};
ghost use Rattle.master_step.specs.Restricted.{IsRestrictedValue};
ghost use Rattle.master_step.specs.Trials.{IsTrial};
ghost use Rattle.master_step.specs.Outcomes.{IsRaise, IsGain, IsStalled};

/// The least column of a list with columns is its first column of least price.
pub fn least_column_is_least()
    ensures { (p : AnyParts) (prices : List ℕ) (paths : List (List AnyArc)) → 0 < length paths → IsFirstLeast p prices paths (least_column p prices paths) }
{}

/// Prices and rates have one restricted value.
pub fn one_value()
    ensures { (p : AnyParts) (cuts : List AnyCut) (ranges : List AnyRange) (choices : Choices) (numbers : List ℕ) (value other : ℤ)
        → IsRestrictedValue p cuts ranges choices numbers value → IsRestrictedValue p cuts ranges choices numbers other → value ≡ other }
{}

/// Each trial has one list of prices and rates.
pub fn one_trial()
    ensures { (p : AnyParts) (cuts : List AnyCut) (ranges : List AnyRange) (choices : Choices) (numbers : List ℕ) (j : ℕ) (trial other : List ℕ)
        → IsTrial p cuts ranges choices numbers j trial → IsTrial p cuts ranges choices numbers j other → trial ≡ other }
{}

/// Prices and rates are raised to one trial, with one value.
pub fn one_raise()
    ensures trial { (p : AnyParts) (cuts : List AnyCut) (ranges : List AnyRange) (choices : Choices) (numbers : List ℕ) (old other_old : ℤ) (trial other : List ℕ) (new other_new : ℤ)
        → IsRaise p cuts ranges choices numbers old trial new → IsRaise p cuts ranges choices numbers other_old other other_new → trial ≡ other }
    ensures value { (p : AnyParts) (cuts : List AnyCut) (ranges : List AnyRange) (choices : Choices) (numbers : List ℕ) (old other_old : ℤ) (trial other : List ℕ) (new other_new : ℤ)
        → IsRaise p cuts ranges choices numbers old trial new → IsRaise p cuts ranges choices numbers other_old other other_new → new ≡ other_new }
{}

/// Prices and rates have one gain.
pub fn one_gain()
    ensures { (p : AnyParts) (cuts : List AnyCut) (ranges : List AnyRange) (choices : Choices) (numbers : List ℕ) (old other_old new other_new : ℤ)
        → IsGain p cuts ranges choices numbers old new → IsGain p cuts ranges choices numbers other_old other_new → new ≡ other_new }
{}

/// Prices and rates with a gain are not stalled.
pub fn gain_or_stalled()
    ensures { (p : AnyParts) (cuts : List AnyCut) (ranges : List AnyRange) (choices : Choices) (numbers : List ℕ) (old other_old new : ℤ)
        → IsGain p cuts ranges choices numbers old new → IsStalled p cuts ranges choices numbers other_old → ⊥ }
{}
