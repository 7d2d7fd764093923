//! Why a closing is refused, and whether a design costs less than the best one.

ghost use Rattle.std.specs.Prelude.{◌≡◌, true, false, Some, IfSome, IfNone, slice_get};
ghost use Rattle.search_machine.specs.State.{cutoff_of};
ghost use Rattle.search_machine.specs.Closing.{close_fault, closable_in};
ghost use Rattle.search_machine.specs.Bettering.{is_cheaper};
ghost use Rattle.search_machine.specs.Changes.{is_open_state};

use super::PoolView;
use plan_base::BranchId;
use search_machine::{Closing, NodeState};

/// Whether the node is an open leaf.
pub(super) fn is_open_state(state: NodeState) -> bool
    ensures { result ≡ is_open_state state }
{
    match state {
        NodeState::Waiting => true,
        NodeState::Active => true,
        _ => false,
    }
}

impl<'a> PoolView<'a> {
    /// Whether the node has a crowd proof, or a bound above the cost of the best design less the unit of costs.
    pub(super) fn is_closable(&self, node: BranchId) -> bool
        ensures { result ≡ closable_in self.now.unit (cutoff_of self.now) (slice_get self.now.nodes node.0) }
    {
        match self.node(node) {
            Some(node) => node.is_closable(self.state.unit, self.incumbent()),
            None => false,
        }
    }

    /// Why a closing is refused, if it is.
    #[tactic(auto, unfolding(search_machine::specs::Closing::close_fault))]
    pub fn close_refusal(&self, node: BranchId) -> Option<Closing>
        ensures { result ≡ close_fault self.now node }
    {
        if self.is_spent() {
            return Some(Closing::Spent {
                examined: self.state.examined,
            });
        }
        let state = self.state(node);
        if !is_open_state(state) {
            return Some(Closing::NotOpen { state });
        }
        if !self.is_closable(node) {
            return Some(Closing::Weak {
                bound: self.bound(node),
                cutoff: self.incumbent(),
            });
        }
        None
    }

    /// The cost of the best design so far, where it is at most this one.
    pub fn held_within(&self, cost: u128) -> Option<u128>
        ensures some { IfSome result (λ held. (cutoff_of self.now ≡ Some held) × (is_cheaper self.now.incumbent cost ≡ false)) }
        ensures none { IfNone result (is_cheaper self.now.incumbent cost ≡ true) }
    {
        match &self.state.incumbent {
            Some(held) if held.cost <= cost => Some(held.cost),
            _ => None,
        }
    }
}
