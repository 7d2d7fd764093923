//! What the pool tells without an event.

ghost use Rattle.std.specs.Prelude.{◌≡◌, ◌↔◌, IsSome, IfSome, IfOk, slice_get};
ghost use Rattle.std.specs.Arc.{arc_value};
ghost use Rattle.search_machine.specs.State.{state_of, cutoff_of};
ghost use Rattle.search_machine.specs.Changes.{bound_in, IsOpenLeaf, IsWaiting};
ghost use Rattle.search_machine.specs.Machine.{IsReachable};
ghost use Rattle.search_machine.specs.Soundness.{IsSound};
ghost use Rattle.search_view.specs.Views.{AreFirstAt, HasWidthOf, AreRowsAt, IsPublishedAt, design_of};
ghost use Rattle.search_view.specs.OpenBounds.{open_bound_of};

use super::Pool;
use arc_restrict::Restriction;
use cut_values::CutTable;
use dual_versions::Published;
use plan_base::{BranchId, Design, Instance, Prices};
use search_machine::NodeState;
use std::alloc::AllocError;
use std::sync::Arc;

impl Pool {
    /// How many paths were accepted.
    pub fn accepted(&self) -> u64
        ensures { result ≡ self.now.accepted }
    {
        self.state.accepted
    }

    /// How many nodes may be examined.
    pub fn budget(&self) -> u32
        ensures { result ≡ self.now.budget }
    {
        self.state.budget
    }

    /// What a node is now; `Unknown` where there is no node of this number.
    pub fn state(&self, node: BranchId) -> NodeState
        ensures { result ≡ state_of self.now node }
    {
        self.view().state(node)
    }

    /// The greatest bound of a complete version of the node, in cost grains; None exactly where no version of it was
    /// complete.
    pub fn bound(&self, node: BranchId) -> Option<i128>
        ensures { result ≡ bound_in (slice_get self.now.nodes node.0) }
    {
        self.view().bound(node)
    }

    /// The least bound of the open leaves, in cost grains, where an open leaf of which none is recorded has that of its
    /// parent; None where none is known. Each node is looked at.
    pub fn open_bound(&self) -> Option<i128>
        ensures { result ≡ open_bound_of self.now }
    {
        self.view().open_bound()
    }

    /// The cost of the best design so far, in cost grains; None exactly where there is none.
    pub fn incumbent(&self) -> Option<u128>
        ensures { result ≡ cutoff_of self.now }
    {
        self.view().incumbent()
    }

    /// A copy of the best design so far; None exactly where there is none.
    ///
    /// - Errors: want of memory alone.
    pub fn best_design(&self) -> Result<Option<Design>, AllocError>
        ensures { IfOk result (λ found. found ≡ design_of self.now) }
    {
        match &self.state.incumbent {
            Some(held) => Ok(Some(held.design.copy()?)),
            None => Ok(None),
        }
    }

    /// The prices with which a node that waits begins, one for each place, in thousandths of a cost grain per load
    /// grain, and behind them one rate for each cut, in thousandths of a cost grain per counted grain; None exactly where
    /// the node does not wait.
    pub fn first_prices(&self, node: BranchId) -> Option<&Prices>
        ensures waits { IsSome result ↔ IsWaiting self.now node }
        ensures value { IfSome result (λ prices. AreFirstAt self.now node prices.now) }
        ensures count { IfSome result (λ prices. HasWidthOf self.now prices.now) }
    {
        self.view().first_prices(node)
    }

    /// What is forbidden at an open leaf; None exactly where the node is none.
    pub fn restriction(&self, node: BranchId) -> Option<&Arc<Restriction>>
        ensures leaf { IsSome result ↔ IsOpenLeaf self.now node }
        ensures value { IfSome result (λ rows. AreRowsAt self.now node (arc_value rows.now)) }
    {
        self.view().restriction(node)
    }

    /// A copy of the prices and rates of the round in the slot, with its node and its version; None exactly where no round
    /// has the slot.
    ///
    /// - Errors: want of memory alone.
    pub fn prices(&self, slot: u32) -> Result<Option<Published>, AllocError>
        ensures { IfOk result (IsPublishedAt self.now slot) }
    {
        self.view().prices(slot)
    }

    /// The instance. Whoever asks knows that events lead to the pool's state, and so that it is sound, wherever the pool
    /// comes from.
    pub fn instance(&self) -> &Arc<Instance>
        ensures value { arc_value result.now ≡ self.now.problem }
        ensures reachable { IsReachable self.now }
        ensures sound { IsSound self.now }
    {
        &self.state.problem
    }

    /// The step table of the instance, and the cuts.
    pub fn table(&self) -> &Arc<CutTable>
        ensures problem { (arc_value result.now).problem ≡ self.now.problem }
        ensures cuts { (arc_value result.now).cuts ≡ self.now.cuts }
    {
        &self.state.table
    }
}
