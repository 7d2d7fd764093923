//! What may be done next: the open leaf that comes first, and the step that is next there.

ghost use Rattle.std.specs.Prelude.{◌≡◌, ◌≢◌, ◌<◌, true, false, None, Some, IsSome, IfSome, slice_get, nat_lt};
ghost use Rattle.search_machine.specs.declared.limits.TheConstants.{MAX_ROUNDS};
ghost use Rattle.search_machine.specs.declared.task.Task.{Task};
ghost use Rattle.search_machine.specs.declared.answers.NodeState.TheVariants as state;
ghost use Rattle.search_machine.specs.State.{state_of, round_of, active_count};
ghost use Rattle.search_machine.specs.Machine.{IsReachable};
ghost use Rattle.search_machine.specs.PlanOf.{is_done};
ghost use Rattle.search_machine.specs.Tasks.{IsLawfulTask};
ghost use Rattle.search_view.specs.Work.{is_next, may_go_on_in, IsStepAt};

use super::PoolView;
use plan_base::BranchId;
use search_machine::limits::MAX_ROUNDS;
use search_machine::{NodeState, Task};
use search_nodes::{PoolRound, Rank};

impl<'a> PoolView<'a> {
    /// Whether the budget is spent, or no leaf is open.
    ///
    /// - Rule: docs/METHOD.md, "The search as a machine".
    pub fn is_done(&self) -> bool
        ensures { result ≡ is_done self.now }
    {
        let state = self.state;
        state.examined == state.budget || state.nodes.as_slice().len() == state.examined as usize
    }

    /// The round of a node that has one.
    pub fn round_at(&self, node: BranchId) -> &'a PoolRound
        requires { IsSome (round_of self.now node) }
        ensures { Some result.now ≡ round_of self.now node }
    {
        self.state.nodes[node.0 as usize].round().unwrap()
    }

    /// Whether a slot is free.
    pub(super) fn has_room(&self) -> bool
        ensures { result ≡ nat_lt (active_count self.now) MAX_ROUNDS }
    {
        self.active() < MAX_ROUNDS
    }

    /// Whether the node is an open leaf that has a round, or for whose round a slot is free.
    ///
    /// - Takes: whether a slot is free, which is counted once for all nodes.
    pub(super) fn is_next(&self, node: BranchId, has_room: bool) -> bool
        requires { has_room ≡ nat_lt (active_count self.now) MAX_ROUNDS }
        ensures { result ≡ is_next self.now node }
    {
        match self.state(node) {
            NodeState::Active => true,
            NodeState::Waiting => has_room,
            _ => false,
        }
    }

    /// What the choice goes by.
    pub(super) fn rank(&self, node: BranchId) -> Rank {
        match self.node(node) {
            Some(node) => node.rank(),
            None => Rank::root(),
        }
    }

    /// The node, where it is next and does not come behind the first one so far; else that one.
    ///
    /// - Takes: whether a slot is free.
    fn first_of(&self, node: BranchId, has_room: bool, first: Option<BranchId>) -> Option<BranchId>
        requires room { has_room ≡ nat_lt (active_count self.now) MAX_ROUNDS }
        requires first { IfSome first (λ other. is_next self.now other ≡ true) }
        ensures next { IfSome result (λ one. is_next self.now one ≡ true) }
        ensures none { result ≡ None → (first ≡ None) × (is_next self.now node ≡ false) }
    {
        if !self.is_next(node, has_room) {
            return first;
        }
        let Some(other) = first else {
            return Some(node);
        };
        if self.rank(node).is_before(self.rank(other)) {
            return Some(node);
        }
        first
    }

    /// Of the leaves that are known to be open the one that is next and comes first.
    fn first_leaf(&self, has_room: bool) -> Option<BranchId>
        requires { has_room ≡ nat_lt (active_count self.now) MAX_ROUNDS }
        ensures { IfSome result (λ node. is_next self.now node ≡ true) }
    {
        let mut first = None;
        for node in self.leaves.nodes() {
            first = self.first_of(*node, has_room, first);
        }
        first
    }

    /// Of all nodes the one that is next and comes first.
    fn first_node(&self, has_room: bool) -> Option<BranchId>
        requires room { has_room ≡ nat_lt (active_count self.now) MAX_ROUNDS }
        requires not_done { is_done self.now ≡ false }
        ensures some { IfSome result (λ node. is_next self.now node ≡ true) }
        ensures none { result ≢ None }
    {
        let mut first = None;
        for place in 0..self.state.nodes.as_slice().len() {
            first = self.first_of(BranchId(place as u32), has_room, first);
        }
        first
    }

    /// The open leaf that is worked off next: the one with the lowest bound, and of those the deepest one.
    ///
    /// That each open leaf is known as one, no contract says: where none is known, all nodes are looked at.
    pub fn next_leaf(&self) -> Option<BranchId>
        requires not_done { is_done self.now ≡ false }
        ensures some { IfSome result (λ node. is_next self.now node ≡ true) }
        ensures none { result ≢ None }
    {
        let has_room = self.has_room();
        match self.first_leaf(has_room) {
            Some(node) => Some(node),
            None => self.first_node(has_room),
        }
    }

    /// Whether the node is not settled and has room for more complete versions.
    fn may_go_on(&self, node: BranchId) -> bool
        ensures { result ≡ may_go_on_in (slice_get self.now.nodes node.0) }
    {
        match self.node(node) {
            Some(node) => node.may_go_on(),
            None => false,
        }
    }

    /// What is next at a node with a round: it is examined where it has a cut, closed where it can be, priced until
    /// its version is complete, given further prices or settled, and then examined.
    fn step_of_round(&self, node: BranchId) -> Task
        requires reachable { IsReachable self.now }
        requires not_spent { self.now.examined < self.now.budget }
        requires active { state_of self.now node ≡ state.Active }
        ensures { IsStepAt self.now node result }
    {
        if self.has_cut(node) {
            return Task::Examine { node };
        }
        if self.is_closable(node) {
            return Task::Close { node };
        }
        let round = self.round_at(node);
        let version = round.version();
        if let Some(demand) = round.first_gap() {
            return Task::Price {
                node,
                slot: round.slot(),
                version,
                demand,
            };
        }
        if self.may_go_on(node) {
            return Task::Master { node, version };
        }
        Task::Examine { node }
    }

    /// What is next at an open leaf. One thread and several go by this choice alike.
    pub fn step_at(&self, node: BranchId) -> Task
        requires reachable { IsReachable self.now }
        requires not_spent { self.now.examined < self.now.budget }
        requires next { is_next self.now node ≡ true }
        ensures { IsStepAt self.now node result }
    {
        match self.state(node) {
            NodeState::Active => self.step_of_round(node),
            _ => Task::Open { node },
        }
    }

    /// What a worker does next while a leaf is open.
    pub fn open_task(&self, worker: u32) -> Task
        requires reachable { IsReachable self.now }
        requires not_done { is_done self.now ≡ false }
        ensures lawful { IsLawfulTask self.now result }
        ensures not_done { result ≢ Task.Done }
    {
        if let Some(task) = self.unclaimed(worker) {
            return task;
        }
        match self.next_leaf() {
            Some(node) => self.step_at(node),
            None => unreachable!(),
        }
    }
}
