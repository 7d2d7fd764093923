//! Laws of the tables.

ghost use Rattle.std.specs.Prelude.{ℕ, ℤ, pos, ◌≤ℤ◌};
ghost use Rattle.plan_base.specs.declared.parts.Parts.{Parts as AnyParts};
ghost use Rattle.plan_base.specs.declared.path.Design.{Design as AnyDesign};
ghost use Rattle.plan_base.specs.Designs.{cost_of};
ghost use Rattle.link_steps.specs.Unit.{IsUnit};
ghost use Rattle.plan_table.specs.Tables.{rounded_up};

/// A design that costs at least a bound costs at least the bound that is raised to the unit of costs.
pub fn raised_bound()
    ensures { (p : AnyParts) (unit : ℕ) (bound : ℤ) (d : AnyDesign) → IsUnit p unit → bound ≤ℤ pos (cost_of p d) → rounded_up unit bound ≤ℤ pos (cost_of p d) }
{}
