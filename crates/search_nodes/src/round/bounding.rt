//! The bound of a round that is complete, and whether it crowds the links.

ghost use Rattle.std.specs.Prelude.{◌≡◌, ◌<◌, ◌≤◌, ◌↔◌, None, length, IfSome, IsTrue};
ghost use Rattle.plan_base.specs.Places.{places};
ghost use Rattle.link_steps.specs.Ranges.{AreRanges};
ghost use Rattle.cut_values.specs.Numbers.{AreNumbers};
ghost use Rattle.bound_assembly.specs.RoundBounds.{AreShort, IsRoundBound, IsRoundCrowd};
ghost use Rattle.search_machine.specs.State.{left_of};
ghost use Rattle.search_nodes.specs.Rounds.{lengths_of};

use super::PoolRound;
use cut_values::CutTable;
use link_steps::Ranges;
use plan_base::Instance;

impl PoolRound {
    /// The bound that the round's prices and rates and the prices of its paths give, in cost grains. Takes no memory.
    ///
    /// - Gives: None exactly where a demand is not priced.
    #[tactic(auto, using(crate::proofs::Completing::bounded_rounds))]
    pub fn bound(&self, inst: &Instance, table: &CutTable, ranges: &Ranges) -> Option<i128>
        requires table { table.now.problem ≡ inst.now }
        requires ranges { AreRanges inst.now ranges.now }
        requires prices { AreNumbers inst.now table.now.cuts self.now.prices }
        requires count { length self.now.found ≡ length inst.now.demands }
        requires short { AreShort inst.now (lengths_of self.now) }
        ensures none { (result ≡ None) ↔ (0 < left_of self.now) }
        ensures bound { IfSome result (IsRoundBound inst.now table.now.cuts ranges.now self.now.prices (lengths_of self.now)) }
    {
        self.lengths.bound(inst, table, ranges)
    }

    /// Whether each demand is priced, places of links with useful modules are free where their ranges end at the top load,
    /// and loads times the prices of the paths exceed prices times what the places carry at most where no module is added.
    /// Rates of cuts are not looked at. Takes no memory.
    #[tactic(auto, using(crate::proofs::Completing::bounded_rounds))]
    pub fn is_crowded(&self, inst: &Instance, ranges: &Ranges) -> bool
        requires ranges { AreRanges inst.now ranges.now }
        requires prices { places inst.now ≤ length self.now.prices }
        requires count { length self.now.found ≡ length inst.now.demands }
        requires short { AreShort inst.now (lengths_of self.now) }
        ensures { IsTrue result ↔ IsRoundCrowd inst.now ranges.now self.now.prices (lengths_of self.now) }
    {
        self.lengths.is_crowded(inst, ranges)
    }
}
