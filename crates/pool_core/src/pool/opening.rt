//! Rounds of nodes that wait.

ghost use Rattle.search_machine.specs.Machine.{OpenStep};

use super::Pool;
use plan_base::BranchId;
use search_machine::{Opened, RoundFault};
use search_nodes::{Slot, first_free};

impl Pool {
    /// Gives a node that waits a round of its first prices, in the lowest free slot. Without demands its version is
    /// complete at once. Takes no memory.
    ///
    /// - Gives: the slot, and the version of the prices.
    /// - Errors: in this order, `Spent` where the budget is spent; `NotOpen` where the node does not wait; `Crowded`
    ///   where 64 rounds are active.
    /// - Rule: docs/METHOD.md, "The search as a machine".
    pub fn open_round(&mut self, node: BranchId) -> Result<Opened, RoundFault>
        ensures event { OpenStep self.old node result self.new }
    {
        if let Some(fault) = self.view().open_refusal(node) {
            return Err(fault);
        }
        let slot = first_free(self.places.as_slice());
        let free = &mut self.places[slot];
        let Slot::Free(place) = std::mem::replace(free, Slot::Of(node)) else {
            unreachable!();
        };
        let version = self.state.next_version;
        let opened = &mut self.state.nodes[node.0 as usize];
        opened.begin(place, version);
        let ranges = self.state.grounds[node.0 as usize].ranges().unwrap();
        opened.complete(&*self.state.problem, &*self.state.table, &**ranges);
        self.state.next_version = version + 1;
        Ok(Opened {
            slot: slot as u32,
            version,
        })
    }
}
