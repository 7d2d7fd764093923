//! Nodes of which no further version is published.

ghost use Rattle.std.specs.Prelude.{◌≡◌, IfSome, IfNone};
ghost use Rattle.search_machine.specs.Settling.{Settles, SettleStep};
ghost use Rattle.search_view.specs.Valuing.{IsGatheredAt, ForRound};
ghost use Rattle.pool_core.specs.Valuing.{Improves, HasNoMore, IsToSettle};

use super::Pool;
use plan_base::BranchId;
use search_machine::Settle;

impl Pool {
    /// The restricted value of the prices of the node's round, and what a master step raises it to, where one gains and
    /// the node has not had enough versions.
    fn improvement(&mut self, node: BranchId) -> Option<(i128, i128)>
        requires { IsGatheredAt self.old node }
        ensures unchanged { self.new ≡ self.old }
        ensures some { IfSome result (λ both. ForRound self.old node (Improves self.old both.0 both.1)) }
        ensures none { IfNone result (ForRound self.old node (HasNoMore self.old)) }
    {
        // Whoever looks into the pool knows what its type keeps, which the proof needs.
        let _ = &self.state.nodes;
        if self.view().has_enough(node) {
            return None;
        }
        let Some(new) = self.gain(node) else {
            return None;
        };
        let view = self.view();
        let old = view.value(node, view.round_at(node).prices());
        Some((old, new))
    }

    /// Marks a node that may be settled.
    fn mark_settled(&mut self, node: BranchId, version: u64)
        requires { IsToSettle self.old node version }
        ensures { Settles self.old node version self.new }
    {
        let settled = &mut self.state.nodes[node.0 as usize];
        settled.settle();
    }

    /// Marks a node of which no further version is published. Takes no memory.
    ///
    /// - Takes: the version of its round.
    /// - Gives: in this order, `Spent` where the budget is spent; `Stale` where the node has no round of the version;
    ///   `Incomplete` with the first demand that is not priced; `Ungathered` with the first demand whose path is none of
    ///   its columns; `Improves` where a master step gains and the node has not had enough versions (its crowd prices were
    ///   not tried, and no design is known, no node was examined or fewer than two of its versions were complete), with the
    ///   restricted values before and after that step; else `Done`.
    /// - Rule: docs/METHOD.md, "The search as a machine".
    pub fn settle(&mut self, node: BranchId, version: u64) -> Settle
        ensures event { SettleStep self.old node version result self.new }
    {
        if let Some(refusal) = self.view().settle_refusal(node, version) {
            return refusal;
        }
        if let Some((old, new)) = self.improvement(node) {
            return Settle::Improves { old, new };
        }
        self.mark_settled(node, version);
        Settle::Done
    }
}
