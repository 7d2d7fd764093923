//! What prices are worth at a node, over the columns that it permits.

ghost use Rattle.std.specs.Prelude.{◌≡◌, IfSome, IfNone};
ghost use Rattle.search_machine.specs.State.{ranges_of};
ghost use Rattle.search_machine.specs.Gathering.{columns_for};
ghost use Rattle.master_step.specs.Outcomes.{HasGain, HasStalled};
ghost use Rattle.search_view.specs.Valuing.{IsGatheredAt, ForRound};

use super::Pool;
use plan_base::BranchId;

impl Pool {
    /// What a master step raises the restricted value of the prices of the node's round to, in thousandths of a cost
    /// grain; None where none gains. Takes no memory.
    pub(super) fn gain(&mut self, node: BranchId) -> Option<i128>
        requires { IsGatheredAt self.old node }
        ensures unchanged { self.new ≡ self.old }
        ensures some { IfSome result (λ new. ForRound self.old node (λ x round. HasGain self.old.problem self.old.cuts (ranges_of self.old.problem x) (columns_for self.old x) round.prices new)) }
        ensures none { IfNone result (ForRound self.old node (λ x round. HasStalled self.old.problem self.old.cuts (ranges_of self.old.problem x) (columns_for self.old x) round.prices)) }
    {
        let plot = self.state.grounds[node.0 as usize].plot().unwrap();
        let round = self.state.nodes[node.0 as usize].round().unwrap();
        master_step::gain(
            &*self.state.problem,
            &*self.state.table,
            &**plot.ranges(),
            round.prices(),
            &self.state.columns,
            &**plot.rows(),
            &mut self.room,
        )
    }
}
