//! What one thread does with a complete version.

ghost use Rattle.std.specs.Prelude.{OnOk, IfOk};
ghost use Rattle.search_machine.specs.Machine.{IsReachable};
ghost use Rattle.search_machine.specs.Tasks.{LeadsTo, IsToAdvance};
ghost use Rattle.pool_core.specs.Valuing.{IsCompleteAt};
ghost use Rattle.pool_core.specs.Work.{IsCloser, KeepsNodes, IsBriefed};

use super::Pool;
use column_pool::Brief;
use leaf_tasks::{Guide, Next, next_step};
use plan_base::BranchId;
use search_machine::Gather;
use std::alloc::AllocError;

impl Pool {
    /// What a master step is told of the node's complete version, whose paths become columns.
    fn told(&mut self, node: BranchId, version: u64) -> Result<Brief, AllocError>
        requires reachable { IsReachable self.old }
        requires complete { IsCompleteAt self.old node version }
        ensures keeps { KeepsNodes self.old self.new }
        ensures briefed { IfOk result (IsBriefed self.new node version) }
    {
        match self.gather(node, version)? {
            Gather::Taken(brief) => Ok(brief),
            _ => unreachable!(),
        }
    }

    /// Goes on with the node's complete version: a design is sought for its paths, and further prices are published, or
    /// the node is settled.
    pub(super) fn advance(
        &mut self,
        node: BranchId,
        version: u64,
        guide: &mut Guide,
    ) -> Result<(), AllocError>
        requires reachable { IsReachable self.old }
        requires advance { IsToAdvance self.old node version }
        ensures leads { LeadsTo self.old self.new }
        ensures closer { OnOk result (IsCloser self.old self.new node) }
    {
        self.seek_design(node, guide)?;
        let brief = self.told(node, version)?;
        let Next { prices, split } = next_step(
            self.state.alloc,
            &*self.state.problem,
            &*self.state.table,
            &brief,
        )?;
        self.advise(node, split);
        match prices {
            Some(prices) => {
                let _answer = self.publish(node, version, &prices);
                Ok(())
            }
            None => {
                let _answer = self.settle(node, version);
                Ok(())
            }
        }
    }
}
