//! Closings by a bound or a crowd proof, and better designs.

ghost use Rattle.std.specs.Prelude.{◌≡◌, ◌<◌, Some, IfSome, slice_get};
ghost use Rattle.search_machine.specs.Changes.{IsOpenLeaf};
ghost use Rattle.search_machine.specs.Machine.{IsReachable, CloseStep, BetterStep};
ghost use Rattle.search_nodes.specs.Rounds.{HasReason};
ghost use Rattle.search_view.specs.Views.{closed_at};

use super::Pool;
use plan_base::{BranchId, Design, DesignFault, check_design};
use search_machine::{Better, Closing, Incumbent};
use search_nodes::{Reason, give_back};

impl Pool {
    /// Closes an open leaf for a reason: the place of its round is free again, and its region is let go. Takes
    /// no memory.
    pub(crate) fn close(&mut self, node: BranchId, reason: Reason)
        requires leaf { IsOpenLeaf self.old node }
        requires not_spent { self.old.examined < self.old.budget }
        requires reason { IfSome (slice_get self.old.nodes node.0) (λ x. HasReason x reason) }
        requires event { IsReachable (closed_at self.old node reason (slice_get self.old.nodes node.0)) }
        ensures { self.new ≡ closed_at self.old node reason (slice_get self.old.nodes node.0) }
    {
        let closed = &mut self.state.nodes[node.0 as usize];
        let round = closed.close(reason);
        give_back(&mut self.places, round);
        let ground = &mut self.state.grounds[node.0 as usize];
        ground.clear();
        self.leaves.remove(node);
        self.state.examined += 1;
    }

    /// Closes an open leaf whose bound is above the cost of the best design less the unit of costs, or which has a crowd
    /// proof. Takes no memory.
    ///
    /// - Gives: in this order, `Spent` where the budget is spent; `NotOpen` where the node is no open leaf;
    ///   `Closed` where it is closed now, by the crowd proof if there is one; else `Weak` with what is recorded.
    /// - Rule: docs/METHOD.md, "The search as a machine".
    pub fn close_by_bound(&mut self, node: BranchId) -> Closing
        ensures event { CloseStep self.old node result self.new }
    {
        // Whoever looks into the pool knows what its type keeps, which the proof needs.
        let _ = &self.state.nodes;
        if let Some(refusal) = self.view().close_refusal(node) {
            return refusal;
        }
        self.close(node, Reason::Recorded);
        Closing::Closed
    }

    /// Takes a design that costs less than the best one so far. Takes no memory.
    ///
    /// - Gives: `Taken` with its cost where it is held now; `NotLess` with both costs where it is not cheaper.
    /// - Errors: the first fault of the design, as `check_design` tells it.
    /// - Rule: docs/METHOD.md, "The search as a machine".
    pub fn better(&mut self, design: Design) -> Result<Better, DesignFault>
        ensures event { BetterStep self.old design result self.new }
    {
        let cost = check_design(&*self.state.problem, &design)?;
        if let Some(held) = self.view().held_within(cost) {
            return Ok(Better::NotLess { cost, held });
        }
        self.state.incumbent = Some(Incumbent { cost, design });
        Ok(Better::Taken { cost })
    }
}
