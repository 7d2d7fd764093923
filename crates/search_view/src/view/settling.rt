//! Why a node is not settled.

ghost use Rattle.std.specs.Prelude.{◌≡◌};
ghost use Rattle.search_machine.specs.Settling.{settle_fault};

use super::PoolView;
use plan_base::BranchId;
use search_machine::Settle;

impl<'a> PoolView<'a> {
    /// Why a settling is refused before a step is tried, if it is.
    #[tactic(auto, unfolding(search_machine::specs::Settling::settle_fault))]
    pub fn settle_refusal(&self, node: BranchId, version: u64) -> Option<Settle>
        ensures { result ≡ settle_fault self.now node version }
    {
        if self.is_spent() {
            return Some(Settle::Spent {
                examined: self.state.examined,
            });
        }
        let current = self.current(node);
        if !super::is_version(current, version) {
            return Some(Settle::Stale { current });
        }
        if let Some(demand) = self.first_gap(node) {
            return Some(Settle::Incomplete { demand });
        }
        self.first_ungathered(node)
            .map(|demand| Settle::Ungathered { demand })
    }
}
