//! A node of the pool's tree.

ghost use Rattle.std.specs.Prelude.{◌≡◌, ◌<◌, ◌^◌, true, None, Some, length, replicate, option_map, IfOk, IfSome};
ghost use Rattle.search_machine.specs.State.{Node, state_by};
ghost use Rattle.search_machine.specs.Changes.{version_in, first_gap, bound_in, has_cut};
ghost use Rattle.search_machine.specs.Offering.{is_priced};
ghost use Rattle.search_nodes.specs.Rounds.{IsPublishedBy};

mod closing;
mod completing;
mod dividing;
mod making;
mod planning;
mod renewing;
mod working;

use crate::rank::{Rank, depth_below, either};
use crate::round::PoolRound;
use branch_tree::{Limit, LoadSplit};
use dual_versions::Published;
use plan_base::{BranchId, DemandId, Items, Prices};
use search_machine::{Fate, HeldCut, NodeState};
use std::alloc::AllocError;
use std::marker::Model;
use std::sync::Arc;

/// A node: what its splits leave, what is recorded, what became of it, and its round.
#[derive(Debug, Drop)]
pub struct PoolNode {
    /// What the splits above it allow less, the last one first.
    limits: Items<Arc<Limit>>,
    first_prices: Prices,
    best_bound: Option<i128>,
    /// Room for the best prices, which is taken with the node.
    best_prices: Prices,
    completed: u32,
    fate: Fate,
    cut: Option<HeldCut>,
    is_crowd: bool,
    /// Room for a crowd proof, which is taken with the node. The evidence that closes it may take the room along.
    crowd_prices: Option<Prices>,
    settled: bool,
    crowd_tried: bool,
    round: Option<PoolRound>,
    /// What was recorded of its parent when it was made, in cost grains.
    above: Option<i128>,
    /// By which loads it is to be divided; no contract rests on it.
    split: Option<LoadSplit>,
}

impl Model for PoolNode {
    ghost use Rattle.std.specs.Prelude.{None, if◌then◌else◌, map};
    ghost use Rattle.std.specs.Arc.{arc_value};
    ghost use Rattle.search_machine.specs.State.{Node};
    ghost use Rattle.search_nodes.specs.Rounds.{best_in, HasRooms};

    ghost Value = { Node };

    ghost view = { λ a. record {
      limits = map arc_value a.limits;
      first_prices = a.first_prices;
      best = best_in a.best_bound a.best_prices;
      completed = a.completed;
      fate = a.fate;
      cut = a.cut;
      crowd = if a.is_crowd then a.crowd_prices else None;
      settled = a.settled;
      crowd_tried = a.crowd_tried;
      round = a.round;
    } };

    ghost invariant = { λ a. HasRooms a.first_prices a.best_prices a.fate a.crowd_prices };
}

impl PoolNode {
    /// Whether it is an open leaf, with a round or without one, or closed or divided.
    pub fn state(&self) -> NodeState
        ensures { result ≡ state_by self.now.fate self.now.round }
    {
        match (&self.fate, &self.round) {
            (Fate::Undone, None) => NodeState::Waiting,
            (Fate::Undone, Some(_)) => NodeState::Active,
            (Fate::ClosedBy(_), _) => NodeState::Closed,
            (Fate::DividedBy(_), _) => NodeState::Divided,
        }
    }

    /// The version of the node's round.
    pub fn version(&self) -> Option<u64>
        ensures { result ≡ version_in self.now.round }
    {
        match &self.round {
            Some(round) => Some(round.version()),
            None => None,
        }
    }

    /// The first demand that the node's round has not priced.
    pub fn first_gap(&self) -> Option<DemandId>
        ensures { result ≡ first_gap self.now.round }
    {
        match &self.round {
            Some(round) => round.first_gap(),
            None => None,
        }
    }

    /// Puts a place into use as the round of the node, with its first prices. Takes no memory.
    pub fn begin(&mut self, mut place: PoolRound, version: u64)
        requires { length self.old.first_prices ≡ length place.prices }
        ensures { self.new ≡ record self.old { round = Some (record { slot = place.slot; version = version; prices = self.old.first_prices; found = replicate (length place.found) None }) } }
    {
        place.restart(version, &self.first_prices);
        self.round = Some(place);
    }

    /// Takes the round out of the node.
    pub fn end(&mut self) -> Option<PoolRound>
        ensures node { self.new ≡ record self.old { round = None } }
        ensures round { result ≡ self.old.round }
    {
        self.round.take()
    }

    /// Marks that no further version is published.
    pub fn settle(&mut self)
        ensures { self.new ≡ record self.old { settled = true } }
    {
        self.settled = true;
    }

    /// The greatest bound of a complete version, in cost grains.
    pub fn bound(&self) -> Option<i128>
        ensures { result ≡ bound_in (Some self.now) }
    {
        self.best_bound
    }

    /// The prices and rates with which the node begins, in thousandths of a cost grain per load grain or counted grain.
    pub fn first_prices(&self) -> &Prices
        ensures { result.now ≡ self.now.first_prices }
    {
        &self.first_prices
    }

    /// Keeps a cut. Takes no memory.
    pub fn hold_cut(&mut self, cut: HeldCut)
        ensures { self.new ≡ record self.old { cut = Some cut } }
    {
        self.cut = Some(cut);
    }

    /// What is published of the node's round, where it has the slot.
    pub fn published(&self, node: BranchId, slot: u32) -> Result<Option<Published>, AllocError>
        ensures { IfOk result (IsPublishedBy self.now.round node slot) }
    {
        match &self.round {
            Some(round) => {
                if round.slot() != slot {
                    return Ok(None);
                }
                Ok(Some(Published {
                    node,
                    version: round.version(),
                    prices: round.prices().copy()?,
                }))
            }
            None => Ok(None),
        }
    }

    /// The node's round.
    pub fn round(&self) -> Option<&PoolRound>
        ensures { option_map (λ r. r.now) result ≡ self.now.round }
    {
        match &self.round {
            Some(round) => Some(round),
            None => None,
        }
    }

    /// Whether the demand is priced in the node's round.
    pub fn is_priced(&self, demand: DemandId) -> bool
        ensures { result ≡ is_priced self.now.round demand.0 }
    {
        match &self.round {
            Some(round) => round.is_priced(demand),
            None => false,
        }
    }

    /// By what the node is chosen while it is an open leaf: its recorded bound, or else that of its parent, and how many
    /// splits are above it.
    pub fn rank(&self) -> Rank
        ensures bound { IfSome self.now.best (λ best. result.bound ≡ Some best.bound) }
        ensures depth { length self.now.limits < 2 ^ 32 → result.depth ≡ length self.now.limits }
    {
        Rank {
            bound: either(self.best_bound, self.above),
            depth: depth_below(self.limits.len()),
        }
    }

    /// Whether the node has a cut.
    pub fn has_cut(&self) -> bool
        ensures { result ≡ has_cut (Some self.now) }
    {
        self.cut.is_some()
    }
}
