//! Paths of complete rounds that become columns, and what a master step is told.

ghost use Rattle.std.specs.Prelude.{◌≡◌, length, IfOk, IsErr};
ghost use Rattle.search_machine.specs.Gathering.{gathered, GathersFront, GatherStep};
ghost use Rattle.search_view.specs.Valuing.{ForRound};
ghost use Rattle.pool_core.specs.Valuing.{IsCompleteAt};

use super::Pool;
use plan_base::BranchId;
use search_machine::Gather;
use std::alloc::AllocError;

impl Pool {
    /// Adds the paths of the node's round to the columns of their demands.
    fn add_columns(&mut self, node: BranchId, version: u64) -> Result<(), AllocError>
        requires { IsCompleteAt self.old node version }
        ensures added { IfOk result (λ _. ForRound self.old node (λ x round. self.new ≡ record self.old { columns = gathered self.old.columns round.found (length self.old.problem.demands) })) }
        ensures front { IsErr result → GathersFront self.old node version self.new }
    {
        let round = self.state.nodes[node.0 as usize].round().unwrap();
        round.add_to(&mut self.state.columns)
    }

    /// Adds the paths of a complete round to the columns of their demands, in order of demands.
    ///
    /// - Takes: the version of the node's round.
    /// - Gives: in this order, `Spent` where the budget is spent; `Stale` where the node has no round of the version;
    ///   `Incomplete` with the first demand that is not priced; else `Taken` with what a master step is told.
    /// - Errors: want of memory alone; then some of the paths may have been added, and all else is as before.
    /// - Rule: docs/METHOD.md, "The search as a machine".
    pub fn gather(&mut self, node: BranchId, version: u64) -> Result<Gather, AllocError>
        ensures event { GatherStep self.old node version result self.new }
    {
        if let Some(refusal) = self.view().gather_refusal(node, version) {
            return Ok(refusal);
        }
        self.add_columns(node, version)?;
        let brief = self.view().brief(node)?;
        Ok(Gather::Taken(brief))
    }
}
