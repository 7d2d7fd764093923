//! Laws of the definitions.

ghost use Rattle.std.specs.Prelude.{ℕ, Bool, List, [], ◌∷◌, ◌≡◌, ◌≤◌, ◌+◌, ◌*◌, ◌/◌, length, map, if◌then◌else◌};
ghost use Rattle.plan_base.specs.declared.parts.Parts.{Parts as AnyParts};
ghost use Rattle.plan_base.specs.declared.path.Design.{Design as AnyDesign};
ghost use Rattle.plan_base.specs.Sums.{sum_below};
ghost use Rattle.plan_base.specs.Facts.{total_load};
ghost use Rattle.plan_base.specs.Arcs.{demand_at};
ghost use Rattle.plan_base.specs.Designs.{load_from, load_at};
ghost use Rattle.demand_worth.specs.declared.surcharges.Surcharge.{Surcharge as AnySurcharge};
ghost use Rattle.demand_worth.specs.Measures.{measure};
ghost use Rattle.demand_worth.specs.Surcharges.{AreSurcharges, on_place, surcharge_on, greatest_of};
ghost use Rattle.demand_worth.specs.Worths.{worth_by, worth_at};
ghost use Rattle.demand_worth.specs.Worked.{loaded, three_demands, three_surcharges};

/// Where the loads of a set of demands add to at most a load, what they bring to a place is at most the worth of that load
/// there.
pub fn sets()
    ensures { (p : AnyParts) (list : List AnySurcharge) (q load : ℕ) (chosen : ℕ → Bool) → AreSurcharges list
        → sum_below (λ k. if chosen k then (demand_at p k).load else 0) (length p.demands) ≤ load
        → sum_below (λ k. surcharge_on list q k * (if chosen k then (demand_at p k).load else 0)) (length p.demands) ≤ worth_at p list q load }
{}

/// In every design, what the demands that use a place bring there is at most the worth of its load.
pub fn designs()
    ensures { (p : AnyParts) (list : List AnySurcharge) (q : ℕ) (d : AnyDesign) → AreSurcharges list
        → sum_below (λ k. surcharge_on list q k * load_from p d q k) (length p.demands) ≤ worth_at p list q (load_at p d q) }
{}

/// The worth at a place never falls as the load grows.
pub fn never_falls()
    ensures { (p : AnyParts) (list : List AnySurcharge) (q low high : ℕ) → low ≤ high → worth_at p list q low ≤ worth_at p list q high }
{}

/// Without surcharges on a place each load is worth nothing there.
pub fn no_surcharges()
    ensures { (p : AnyParts) (list : List AnySurcharge) (q load : ℕ) → on_place list q ≡ [] → worth_at p list q load ≡ 0 }
{}

/// The worth of a load is at most the greatest surcharge on the place times the total load.
pub fn small_worth()
    ensures { (p : AnyParts) (list : List AnySurcharge) (q load : ℕ) → AreSurcharges list
        → worth_at p list q load ≤ greatest_of (on_place list q) * total_load p }
{}

/// The total load comes to few measures.
pub fn few_measures()
    ensures positive { (p : AnyParts) → 1 ≤ measure p }
    ensures few { (p : AnyParts) → total_load p / measure p ≤ 65536 }
{}

/// What some loads are worth where demands of 6, 5 and 4 grains have surcharges of 2, 2 and 3, in units of 1 and of 2 grains.
pub fn worked_worths()
    ensures ones { map (worth_by three_demands 1 three_surcharges) (3 ∷ 4 ∷ 6 ∷ 8 ∷ 9 ∷ 10 ∷ 14 ∷ 15 ∷ []) ≡ 0 ∷ 12 ∷ 12 ∷ 12 ∷ 22 ∷ 24 ∷ 24 ∷ 34 ∷ [] }
    ensures twos { map (worth_by three_demands 2 three_surcharges) (3 ∷ 4 ∷ 6 ∷ 8 ∷ 9 ∷ 10 ∷ 14 ∷ 15 ∷ []) ≡ 0 ∷ 12 ∷ 12 ∷ 22 ∷ 22 ∷ 24 ∷ 34 ∷ 34 ∷ [] }
{}

/// The measures of some loads, in load grains.
pub fn worked_measures()
    ensures one_over { measure (loaded (1 ∷ 65536 ∷ [])) ≡ 2 }
    ensures just { measure (loaded (1 ∷ 65535 ∷ [])) ≡ 1 }
    ensures even { measure (loaded (2 ∷ 131070 ∷ [])) ≡ 2 }
    ensures none { measure (loaded []) ≡ 1 }
{}
