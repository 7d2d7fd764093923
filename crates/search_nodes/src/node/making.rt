//! New nodes.

ghost use Rattle.std.specs.Prelude.{◌≡◌, IfOk, map};
ghost use Rattle.std.specs.Arc.{arc_value};
ghost use Rattle.search_machine.specs.Changes.{waiting_with};

use super::PoolNode;
use branch_tree::Limit;
use plan_base::{Items, Prices};
use search_machine::Fate;
use std::alloc::AllocError;
use std::sync::Arc;

impl PoolNode {
    /// A node that waits and has nothing recorded, with room for its best prices and for a crowd proof.
    ///
    /// - Takes: what the splits above it allow less, the last one first; the prices and rates with which it begins; the bound
    ///   by which it is chosen while it has none of its own, in cost grains.
    /// - Errors: want of memory alone.
    pub fn new(
        limits: Items<Arc<Limit>>,
        first_prices: Prices,
        above: Option<i128>,
    ) -> Result<PoolNode, AllocError>
        ensures { IfOk result (λ node. node ≡ waiting_with (map arc_value limits) first_prices) }
    {
        let best_prices = first_prices.copy()?;
        let crowd_prices = first_prices.copy()?;
        Ok(PoolNode {
            limits,
            first_prices,
            best_bound: None,
            best_prices,
            completed: 0,
            fate: Fate::Undone,
            cut: None,
            is_crowd: false,
            crowd_prices: Some(crowd_prices),
            settled: false,
            crowd_tried: false,
            round: None,
            above,
            split: None,
        })
    }
}
