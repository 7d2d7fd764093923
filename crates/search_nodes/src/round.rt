//! A place for a round: taken once, and kept in a node while the round is active.

ghost use Rattle.std.specs.Prelude.{◌≡◌, ◌<◌, None, Some, length, replicate, slice_get};
ghost use Rattle.search_machine.specs.State.{Round as AnyRound, left_of};
ghost use Rattle.plan_base.specs.First.{first_in};
ghost use Rattle.search_machine.specs.Changes.{gap_at};
ghost use Rattle.search_machine.specs.Offering.{is_priced, with_found};

mod bounding;
mod copying;
mod gathering;
mod making;

use bound_assembly::Round;
use plan_base::{BranchId, DemandId, Prices};
use search_machine::Found;
use std::marker::Model;

/// A place with room for the paths and the numbers of one version, its prices and rates, and what is found under it.
#[derive(Debug, Drop)]
pub struct PoolRound {
    slot: u32,
    found: Vec<Option<Found>>,
    /// The version and its prices, and the prices of the paths that were found.
    lengths: Round,
}

impl Model for PoolRound {
    ghost use Rattle.search_machine.specs.State.{Round as AnyRound};
    ghost use Rattle.search_nodes.specs.Rounds.{IsKeptRound};

    ghost Value = { AnyRound };

    ghost view = { λ a. record { slot = a.slot; version = a.lengths.version; prices = a.lengths.prices; found = a.found.items } };

    ghost invariant = { λ a. IsKeptRound a.lengths a.found.items };
}

/// Lets go of all that was found.
fn clear(found: &mut Vec<Option<Found>>)
    ensures { found.new.items ≡ replicate (length found.old.items) None }
{
    for entry in found.iter_mut() {
        *entry = None;
    }
}

impl PoolRound {
    /// The slot.
    pub fn slot(&self) -> u32
        ensures { result ≡ self.now.slot }
    {
        self.slot
    }

    /// The version.
    pub fn version(&self) -> u64
        ensures { result ≡ self.now.version }
    {
        self.lengths.version()
    }

    /// The prices and rates, in thousandths of a cost grain per load grain or counted grain.
    pub fn prices(&self) -> &Prices
        ensures { result.now ≡ self.now.prices }
    {
        self.lengths.prices()
    }

    /// The first demand that is not priced.
    #[tactic(auto, using(crate::proofs::KeptRounds::kept_rounds))]
    pub fn first_gap(&self) -> Option<DemandId>
        ensures { result ≡ first_in gap_at self.now.found }
    {
        self.lengths.first_left()
    }

    /// How many demands are not priced.
    #[tactic(auto, using(crate::proofs::KeptRounds::kept_rounds))]
    pub fn left(&self) -> u32
        ensures { result ≡ left_of self.now }
    {
        self.lengths.left()
    }

    /// Whether the demand is priced.
    pub fn is_priced(&self, demand: DemandId) -> bool
        ensures { result ≡ is_priced (Some self.now) demand.0 }
    {
        match self.found.get(demand.0 as usize) {
            Some(entry) => entry.is_some(),
            None => false,
        }
    }

    /// Empties the place, and gives it this version and these prices. Takes no memory.
    #[tactic(auto, using(crate::proofs::KeptRounds::kept_rounds))]
    pub fn restart(&mut self, version: u64, prices: &Prices)
        requires { length prices.now ≡ length self.old.prices }
        ensures { self.new ≡ record { slot = self.old.slot; version = version; prices = prices.now; found = replicate (length self.old.found) None } }
    {
        // Which node has the round is told by the node alone.
        self.lengths.restart(BranchId(0), version, prices);
        clear(&mut self.found);
    }

    /// Keeps what was found for a demand that is not priced. Takes no memory.
    #[tactic(auto, using(crate::proofs::KeptRounds::kept_rounds))]
    pub fn put(&mut self, demand: DemandId, found: Found)
        requires { slice_get self.old.found demand.0 ≡ Some None }
        ensures { self.new ≡ with_found self.old demand.0 found }
    {
        self.lengths.put(demand, found.price);
        self.found[demand.0 as usize] = Some(found);
    }
}
