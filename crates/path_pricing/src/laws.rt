//! Laws of the definitions.

ghost use Rattle.std.specs.Prelude.{ℕ, List, ◌≡◌, ◌↔◌, None};
ghost use Rattle.plan_base.specs.declared.parts.Parts.{Parts as AnyParts};
ghost use Rattle.arc_restrict.specs.Restrictions.{Forbidden};
ghost use Rattle.path_pricing.specs.declared.priced.Priced.{Priced as AnyPriced};
ghost use Rattle.path_pricing.specs.Priced.{IsShown, IsPriced};
ghost use Rattle.path_pricing.specs.Faults.{priced_fault};

/// What is found has no fault exactly where it has with it what shows it.
pub fn accepted()
    ensures { (p : AnyParts) (prices : List ℕ) (k : ℕ) (r : Forbidden) (found : AnyPriced) → (priced_fault p prices k r found ≡ None) ↔ IsShown p prices k r found }
{}

/// What is shown is so: the path has the least price, or there is no permitted path.
pub fn shown()
    ensures { (p : AnyParts) (prices : List ℕ) (k : ℕ) (r : Forbidden) (found : AnyPriced) → IsShown p prices k r found → IsPriced p prices k r found }
{}
