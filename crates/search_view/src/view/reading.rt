//! What a pool tells of a node, of its best design and of a slot.

ghost use Rattle.std.specs.Prelude.{◌≡◌, ◌↔◌, IsSome, IfSome, IfOk, slice_get};
ghost use Rattle.std.specs.Arc.{arc_value};
ghost use Rattle.search_machine.specs.State.{cutoff_of};
ghost use Rattle.search_machine.specs.Changes.{bound_in, IsOpenLeaf, IsWaiting};
ghost use Rattle.search_view.specs.Views.{AreFirstAt, HasWidthOf, AreRowsAt, IsPublishedAt};

use super::PoolView;
use arc_restrict::Restriction;
use dual_versions::Published;
use plan_base::{BranchId, Prices};
use search_nodes::holder;
use std::alloc::AllocError;
use std::sync::Arc;

impl<'a> PoolView<'a> {
    /// The greatest bound of a complete version of the node, in cost grains; None exactly where no version of it was
    /// complete.
    pub fn bound(&self, node: BranchId) -> Option<i128>
        ensures { result ≡ bound_in (slice_get self.now.nodes node.0) }
    {
        self.node(node)?.bound()
    }

    /// The cost of the best design so far, in cost grains; None exactly where there is none.
    pub fn incumbent(&self) -> Option<u128>
        ensures { result ≡ cutoff_of self.now }
    {
        match &self.state.incumbent {
            Some(held) => Some(held.cost),
            None => None,
        }
    }

    /// The prices with which a node that waits begins, one for each place, in thousandths of a cost grain per load
    /// grain, and behind them one rate for each cut, in thousandths of a cost grain per counted grain; None exactly where
    /// the node does not wait.
    pub fn first_prices(&self, node: BranchId) -> Option<&'a Prices>
        ensures waits { IsSome result ↔ IsWaiting self.now node }
        ensures value { IfSome result (λ prices. AreFirstAt self.now node prices.now) }
        ensures count { IfSome result (λ prices. HasWidthOf self.now prices.now) }
    {
        // Whoever looks into the pool knows what its type keeps, which the proof needs.
        let _ = &self.state;
        if !super::is_waiting(self.state(node)) {
            return None;
        }
        Some(self.node(node)?.first_prices())
    }

    /// What is forbidden at an open leaf; None exactly where the node is none.
    pub fn restriction(&self, node: BranchId) -> Option<&'a Arc<Restriction>>
        ensures leaf { IsSome result ↔ IsOpenLeaf self.now node }
        ensures value { IfSome result (λ rows. AreRowsAt self.now node (arc_value rows.now)) }
    {
        match self.state.grounds.get(node.0 as usize) {
            Some(ground) => ground.rows(),
            None => None,
        }
    }

    /// A copy of the prices and rates of the round in the slot, with its node and its version; None exactly where no round
    /// has the slot.
    ///
    /// - Errors: want of memory alone.
    pub fn prices(&self, slot: u32) -> Result<Option<Published>, AllocError>
        ensures { IfOk result (IsPublishedAt self.now slot) }
    {
        match holder(self.places, slot) {
            Some(node) => self.state.nodes[node.0 as usize].published(node, slot),
            None => Ok(None),
        }
    }
}
