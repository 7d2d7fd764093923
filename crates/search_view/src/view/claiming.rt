//! What may be done next that no other worker has been given.

ghost use Rattle.std.specs.Prelude.{◌≡◌, ◌<◌, true, IfSome, nat_lt};
ghost use Rattle.search_machine.specs.declared.limits.TheConstants.{MAX_ROUNDS};
ghost use Rattle.search_machine.specs.State.{active_count};
ghost use Rattle.search_machine.specs.Machine.{IsReachable};
ghost use Rattle.search_machine.specs.Tasks.{IsLawfulTask, IsToPrice};
ghost use Rattle.search_view.specs.Work.{is_next};

use super::PoolView;
use plan_base::{BranchId, DemandId};
use search_machine::{NodeState, Task};

impl<'a> PoolView<'a> {
    /// A demand behind this one that the node's round has not priced, and that no other worker has.
    fn price_behind(
        &self,
        worker: u32,
        node: BranchId,
        slot: u32,
        version: u64,
        demand: DemandId,
    ) -> Option<Task>
        requires reachable { IsReachable self.now }
        requires gap { IsToPrice self.now node slot version demand }
        ensures { IfSome result (IsLawfulTask self.now) }
    {
        let round = self.round_at(node);
        for place in demand.0.saturating_add(1)..self.problem().demands() {
            let demand = DemandId(place);
            let task = Task::Price {
                node,
                slot,
                version,
                demand,
            };
            if !round.is_priced(demand) && !self.claims.is_taken(task, worker) {
                return Some(task);
            }
        }
        None
    }

    /// What is next at an open leaf and no other worker has. The demands of one version are shared by all who ask.
    fn unclaimed_at(&self, worker: u32, node: BranchId) -> Option<Task>
        requires reachable { IsReachable self.now }
        requires not_spent { self.now.examined < self.now.budget }
        requires next { is_next self.now node ≡ true }
        ensures { IfSome result (IsLawfulTask self.now) }
    {
        let task = self.step_at(node);
        if !self.claims.is_taken(task, worker) {
            return Some(task);
        }
        match task {
            Task::Price {
                node,
                slot,
                version,
                demand,
            } => self.price_behind(worker, node, slot, version, demand),
            _ => None,
        }
    }

    /// Whether the node has a round.
    fn is_active(&self, node: BranchId) -> bool {
        match self.state(node) {
            NodeState::Active => true,
            _ => false,
        }
    }

    /// Whether the node is worked off before the other one: one that has a round comes first, so that few leaves are
    /// open at once, and of those the one that comes first by its rank.
    fn is_ahead(&self, node: BranchId, other: BranchId) -> bool {
        match (self.is_active(node), self.is_active(other)) {
            (true, false) => true,
            (false, true) => false,
            _ => self.rank(node).is_before(self.rank(other)),
        }
    }

    /// An unclaimed task of the node, where it is ahead of the first one so far; else that one.
    ///
    /// - Takes: whether a slot is free.
    fn unclaimed_of(
        &self,
        worker: u32,
        node: BranchId,
        has_room: bool,
        first: Option<(BranchId, Task)>,
    ) -> Option<(BranchId, Task)>
        requires reachable { IsReachable self.now }
        requires not_spent { self.now.examined < self.now.budget }
        requires room { has_room ≡ nat_lt (active_count self.now) MAX_ROUNDS }
        requires first { IfSome first (λ held. IsLawfulTask self.now held.1) }
        ensures { IfSome result (λ held. IsLawfulTask self.now held.1) }
    {
        if !self.is_next(node, has_room) {
            return first;
        }
        if let Some((other, _)) = first {
            if !self.is_ahead(node, other) {
                return first;
            }
        }
        match self.unclaimed_at(worker, node) {
            Some(task) => Some((node, task)),
            None => first,
        }
    }

    /// The unclaimed task of the leaf that is ahead of all others with one.
    fn first_unclaimed(&self, worker: u32) -> Option<Task>
        requires reachable { IsReachable self.now }
        requires not_spent { self.now.examined < self.now.budget }
        ensures { IfSome result (IsLawfulTask self.now) }
    {
        let has_room = self.has_room();
        let mut first = None;
        for node in self.leaves.nodes() {
            first = self.unclaimed_of(worker, *node, has_room, first);
        }
        match first {
            Some((_, task)) => Some(task),
            None => None,
        }
    }

    /// A task that no other worker has: of the leaf at which the worker was, so that not all leaves are looked at for each
    /// demand, or else of the leaf that comes first.
    pub(super) fn unclaimed(&self, worker: u32) -> Option<Task>
        requires reachable { IsReachable self.now }
        requires not_spent { self.now.examined < self.now.budget }
        ensures { IfSome result (IsLawfulTask self.now) }
    {
        if let Some(node) = self.claims.last_node(worker) {
            if let NodeState::Active = self.state(node) {
                if let Some(task) = self.unclaimed_at(worker, node) {
                    return Some(task);
                }
            }
        }
        self.first_unclaimed(worker)
    }
}
