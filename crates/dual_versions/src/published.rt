//! Published prices and rates.

ghost use Rattle.std.specs.Prelude.{◌≡◌, IfOk};

use plan_base::{BranchId, Prices};
use std::alloc::AllocError;

/// The prices and rates of one version of one node, as they are handed to those who price demands.
#[derive(Debug, Drop)]
pub struct Published {
    /// The node of the search tree.
    pub node: BranchId,
    /// The version.
    pub version: u64,
    /// One price for each place, in thousandths of a cost grain per load grain, and behind them one rate for each cut, in
    /// thousandths of a cost grain per counted grain.
    pub prices: Prices,
}

impl Published {
    /// The same prices and rates of the same version.
    ///
    /// - Errors: want of memory alone.
    /// - Time: linear in the prices and rates.
    pub fn copy(&self) -> Result<Published, AllocError>
        ensures { IfOk result (λ copy. copy ≡ self.now) }
    {
        Ok(Published {
            prices: self.prices.copy()?,
            ..*self
        })
    }
}
