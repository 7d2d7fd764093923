//! What an opening or a publishing would answer now. Who asks has what the answer names ready before the call is made.

ghost use Rattle.std.specs.Prelude.{◌≡◌, ◌<◌, IfOk};
ghost use Rattle.search_machine.specs.declared.limits.TheConstants.{MAX_ROUNDS};
ghost use Rattle.search_machine.specs.Changes.{IsWaiting};
ghost use Rattle.search_view.specs.Views.{HasWidthOf};
ghost use Rattle.pool_core.specs.Foretold.{IsOpenAnswer, IsOnlyOpening, IsPublishAnswer, IfPublished, IsOnlyPublishing};

use super::Pool;
use plan_base::{BranchId, Prices};
use search_machine::{Opened, Publish, RoundFault};
use search_nodes::first_free;

impl Pool {
    /// What `open_round` would answer now. Takes no memory.
    pub fn open_answer(&self, node: BranchId) -> Result<Opened, RoundFault>
        ensures answer { IsOpenAnswer self.now node result }
        ensures only { IfOk result (IsOnlyOpening self.now node) }
        ensures slot { IfOk result (λ opened. opened.slot < MAX_ROUNDS) }
        ensures waits { IfOk result (λ opened. IsWaiting self.now node) }
    {
        if let Some(fault) = self.view().open_refusal(node) {
            return Err(fault);
        }
        let slot = first_free(self.places.as_slice());
        Ok(Opened {
            slot: slot as u32,
            version: self.state.next_version,
        })
    }

    /// What `publish` would answer now. Takes no memory.
    ///
    /// - Takes: what `publish` takes.
    pub fn publish_answer(&mut self, node: BranchId, seen: u64, prices: &Prices) -> Publish
        ensures unchanged { self.new ≡ self.old }
        ensures answer { IsPublishAnswer self.old node seen prices.now result }
        ensures only { IsOnlyPublishing self.old node seen prices.now result }
        ensures slot { IfPublished result (λ slot version. slot < MAX_ROUNDS) }
        ensures count { IfPublished result (λ slot version. HasWidthOf self.old prices.now) }
    {
        match self.following(node, seen, prices) {
            Ok(next) => Publish::Published {
                slot: next.slot,
                version: next.version,
            },
            Err(refusal) => refusal,
        }
    }
}
