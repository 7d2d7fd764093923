//! What is read of a pool: a bundle of references, which is made for each call.

ghost use Rattle.std.specs.Prelude.{◌≡◌, slice_get, option_map};
ghost use Rattle.search_machine.specs.State.{state_of, round_of, active_count};
ghost use Rattle.search_machine.specs.Opening.{open_fault, is_waiting};
ghost use Rattle.search_machine.specs.Machine.{IsReachable};
ghost use Rattle.search_machine.specs.Changes.{is_spent, version_in, is_version, first_gap};
ghost use Rattle.search_view.specs.Examining.{IsOpenAt, IsKeptAt};

mod claiming;
mod closing;
pub mod dividing;
mod examining;
mod gathering;
mod offering;
mod open_bounds;
pub mod publishing;
mod reading;
mod settling;
mod tasks;
mod valuing;
mod working;

use crate::claims::Claims;
use crate::open_leaves::OpenLeaves;
use cut_values::CutTable;
use plan_base::{BranchId, DemandId, Instance};
use search_machine::limits::MAX_ROUNDS;
use search_machine::{NodeState, RoundFault};
use search_nodes::{Plot, PoolNode, SearchState, Slot, free_count};
use std::marker::Model;

/// A pool that is only read: references to its parts.
///
/// Contracts see it as the state of the machine, as they see the pool.
#[derive(Drop)]
pub struct PoolView<'a> {
    /// The state, with its grounds.
    pub state: &'a SearchState,
    /// The slots of rounds, 64.
    pub places: &'a [Slot],
    /// What each worker was given last; no part of the state.
    pub claims: &'a Claims,
    /// Which nodes are open leaves; no part of the state.
    pub leaves: &'a OpenLeaves,
}

impl<'a> Model for PoolView<'a> {
    ghost use Rattle.std.specs.Arc.{arc_value};
    ghost use Rattle.search_machine.specs.State.{State};
    ghost use Rattle.search_nodes.specs.SearchStates.{machine_state};
    ghost use Rattle.search_view.specs.Views.{IsKeptPool};

    ghost Value = { State };

    ghost view = { λ a. machine_state a.state.now };

    ghost invariant = { λ a. IsKeptPool (machine_state a.state.now) (arc_value a.state.now.table) a.state.now.grounds.items a.places.now };
}

impl<'a> PoolView<'a> {
    /// The instance.
    fn problem(&self) -> &'a Instance
        ensures { result.now ≡ self.now.problem }
    {
        &*self.state.problem
    }

    /// The step table of the instance, and the cuts.
    fn table(&self) -> &'a CutTable
        ensures problem { result.now.problem ≡ self.now.problem }
        ensures cuts { result.now.cuts ≡ self.now.cuts }
    {
        &*self.state.table
    }

    /// The node of this number, if there is one.
    fn node(&self, node: BranchId) -> Option<&'a PoolNode>
        ensures { option_map (λ x. x.now) result ≡ slice_get self.now.nodes node.0 }
    {
        self.state.nodes.get(node.0 as usize)
    }

    /// What an open leaf keeps of its region.
    fn plot_at(&self, node: BranchId) -> &'a Plot
        requires { IsOpenAt self.now node }
        ensures kept { IsKeptAt self.now node result.now }
        ensures reachable { IsReachable self.now }
    {
        self.state.grounds[node.0 as usize].plot().unwrap()
    }

    /// What a node is now; `Unknown` where there is no node of this number.
    pub fn state(&self, node: BranchId) -> NodeState
        ensures { result ≡ state_of self.now node }
    {
        match self.node(node) {
            Some(node) => node.state(),
            None => NodeState::Unknown,
        }
    }

    /// Whether the budget is spent.
    fn is_spent(&self) -> bool
        ensures { result ≡ is_spent self.now }
    {
        self.state.budget <= self.state.examined
    }

    /// The version of the active round of a node.
    fn current(&self, node: BranchId) -> Option<u64>
        ensures { result ≡ version_in (round_of self.now node) }
    {
        self.node(node)?.version()
    }

    /// How many rounds are active.
    fn active(&self) -> u32
        ensures { result ≡ active_count self.now }
    {
        MAX_ROUNDS - free_count(self.places) as u32
    }

    /// Why an opening is refused, if it is.
    #[tactic(auto, unfolding(search_machine::specs::Opening::open_fault))]
    pub fn open_refusal(&self, node: BranchId) -> Option<RoundFault>
        ensures { result ≡ open_fault self.now node }
    {
        if self.is_spent() {
            return Some(RoundFault::Spent {
                examined: self.state.examined,
            });
        }
        let state = self.state(node);
        if !is_waiting(state) {
            return Some(RoundFault::NotOpen { state });
        }
        let active = self.active();
        if active >= MAX_ROUNDS {
            return Some(RoundFault::Crowded { active });
        }
        None
    }

    /// The first demand that the active round of a node has not priced.
    fn first_gap(&self, node: BranchId) -> Option<DemandId>
        ensures { result ≡ first_gap (round_of self.now node) }
    {
        self.node(node)?.first_gap()
    }
}

fn is_waiting(state: NodeState) -> bool
    ensures { result ≡ is_waiting state }
{
    match state {
        NodeState::Waiting => true,
        _ => false,
    }
}

fn is_version(current: Option<u64>, version: u64) -> bool
    ensures { result ≡ is_version current version }
{
    match current {
        Some(current) => current == version,
        None => false,
    }
}
