//! What prices are worth at a node, over the columns that it permits.

ghost use Rattle.std.specs.Prelude.{◌≡◌};
ghost use Rattle.cut_values.specs.Numbers.{AreNumbers};
ghost use Rattle.search_machine.specs.State.{round_of, ranges_of};
ghost use Rattle.search_machine.specs.Gathering.{columns_for, first_ungathered};
ghost use Rattle.master_step.specs.Restricted.{IsRestrictedValue};
ghost use Rattle.search_view.specs.Valuing.{IsGatheredAt, ForRound};

use super::PoolView;
use plan_base::{BranchId, DemandId, Prices};

impl<'a> PoolView<'a> {
    /// The first demand whose path in the node's round is none of its columns.
    pub(super) fn first_ungathered(&self, node: BranchId) -> Option<DemandId>
        ensures { result ≡ first_ungathered self.now.columns (round_of self.now node) }
    {
        match self.active_round(node) {
            Some(round) => round.first_ungathered(&self.state.columns),
            None => None,
        }
    }

    /// The restricted value of prices and rates over the columns that the node permits, in thousandths of a cost grain.
    /// Takes no memory.
    pub fn value(&self, node: BranchId, prices: &Prices) -> i128
        requires gathered { IsGatheredAt self.now node }
        requires prices { AreNumbers self.now.problem self.now.cuts prices.now }
        ensures { ForRound self.now node (λ x round. IsRestrictedValue self.now.problem self.now.cuts (ranges_of self.now.problem x) (columns_for self.now x) prices.now result) }
    {
        let plot = self.state.grounds[node.0 as usize].plot().unwrap();
        master_step::value(
            self.problem(),
            self.table(),
            &**plot.ranges(),
            prices,
            &self.state.columns,
            &**plot.rows(),
        )
    }
}
