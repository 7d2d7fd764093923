//! Why an offer is refused.

ghost use Rattle.std.specs.Prelude.{◌≡◌, ◌<◌, ◌||◌, length, slice_get, option_map};
ghost use Rattle.arc_restrict.specs.Rows.{forbids};
ghost use Rattle.path_pricing.specs.Priced.{ArePrices};
ghost use Rattle.path_pricing.specs.Faults.{priced_fault};
ghost use Rattle.search_machine.specs.declared.answers.Offered.{Offered};
ghost use Rattle.search_machine.specs.State.{round_of};
ghost use Rattle.search_machine.specs.Offering.{offer_fault, is_priced, unfit_in};
ghost use Rattle.search_machine.specs.Changes.{has_cut};

use super::PoolView;
use arc_restrict::Restriction;
use path_pricing::{Priced, check_priced};
use plan_base::{BranchId, DemandId};
use search_machine::{Offer, Offered};
use search_nodes::PoolRound;

impl<'a> PoolView<'a> {
    /// Whether the demand is priced in the round of the node.
    fn is_priced(&self, node: BranchId, demand: DemandId) -> bool
        ensures { result ≡ is_priced (round_of self.now node) demand.0 }
    {
        match self.node(node) {
            Some(node) => node.is_priced(demand),
            None => false,
        }
    }

    /// Whether the node has a cut.
    pub fn has_cut(&self, node: BranchId) -> bool
        ensures { result ≡ has_cut (slice_get self.now.nodes node.0) }
    {
        match self.node(node) {
            Some(node) => node.has_cut(),
            None => false,
        }
    }

    /// Whether the demand is priced in the round of the node, or the node has a cut.
    fn is_known(&self, node: BranchId, demand: DemandId) -> bool
        ensures { result ≡ (is_priced (round_of self.now node) demand.0 || has_cut (slice_get self.now.nodes node.0)) }
    {
        self.is_priced(node, demand) || self.has_cut(node)
    }

    /// The active round of a node.
    pub(super) fn active_round(&self, node: BranchId) -> Option<&'a PoolRound>
        ensures { option_map (λ r. r.now) result ≡ round_of self.now node }
    {
        self.node(node)?.round()
    }

    /// What is wrong with what was found for a demand, under the prices of a round and a restriction.
    fn fault_of(
        &self,
        round: &PoolRound,
        rows: &Restriction,
        demand: DemandId,
        found: &Priced,
    ) -> Option<Offered>
        requires prices { ArePrices self.now.problem round.now.prices }
        requires demand { demand.0 < length self.now.problem.demands }
        ensures { result ≡ option_map Offered.Unfit (priced_fault self.now.problem round.now.prices demand.0 (forbids rows.now) found.now) }
    {
        match check_priced(self.problem(), round.prices(), demand, rows, found) {
            Ok(()) => None,
            Err(unfit) => Some(Offered::Unfit(unfit)),
        }
    }

    /// What is wrong with what was found, under the prices of the node's round and its restriction.
    fn unfit(&self, offer: &Offer) -> Option<Offered>
        requires { offer.now.demand.0 < length self.now.problem.demands }
        ensures { result ≡ unfit_in self.now.problem (slice_get self.now.nodes offer.now.node.0) offer.now.demand.0 offer.now.found }
    {
        // Whoever looks into the pool knows what its type keeps, which the proof needs.
        let _ = &self.state;
        let Some(round) = self.active_round(offer.node) else {
            return None;
        };
        let Some(rows) = self.restriction(offer.node) else {
            return None;
        };
        self.fault_of(round, &**rows, offer.demand, &offer.found)
    }

    /// Why an offer is refused, if it is.
    #[tactic(auto, unfolding(search_machine::specs::Offering::offer_fault))]
    pub fn offer_refusal(&self, offer: &Offer) -> Option<Offered>
        ensures { result ≡ offer_fault self.now offer.now }
    {
        if self.is_spent() {
            return Some(Offered::Spent {
                examined: self.state.examined,
            });
        }
        let current = self.current(offer.node);
        if !super::is_version(current, offer.version) {
            return Some(Offered::Stale { current });
        }
        let demands = self.problem().demands();
        if offer.demand.0 >= demands {
            return Some(Offered::NoDemand { demands });
        }
        if self.is_known(offer.node, offer.demand) {
            return Some(Offered::Already);
        }
        self.unfit(offer)
    }
}
