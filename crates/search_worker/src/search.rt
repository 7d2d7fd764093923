//! Which search a pool is of.

ghost use Rattle.std.specs.Prelude.{ℕ, List, []};
ghost use Rattle.plan_base.specs.declared.parts.Parts.{Parts};
ghost use Rattle.proof_tree.specs.declared.cuts.Cut.{Cut};
ghost use Rattle.search_worker.specs.Searches.{no_problem};

use std::marker::Brand;

/// A search: its instance, its list of cuts and its budget.
pub trait Search {
    /// The instance.
    ghost problem: { Parts };
    /// The cuts.
    ghost cuts: { List Cut };
    /// How many nodes may be examined.
    ghost budget: { ℕ };
}

impl Search for Brand {
    ghost problem = { no_problem };

    ghost cuts = { [] };

    ghost budget = { 0 };
}
