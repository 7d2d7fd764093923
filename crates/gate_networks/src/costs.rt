//! What modules cost, found need by need.

use plan_base::Link;
use std::alloc::Global;

/// The least cost of modules for a need, where those of smaller needs are known. None where no modules reach it.
fn least_cost(link: &Link, need: u64, known: &[Option<i128>]) -> Option<i128> {
    let mut least: Option<i128> = None;
    for module in link.modules.as_slice() {
        let rest = need.saturating_sub(module.capacity) as usize;
        if let Some(Some(before)) = known.get(rest).copied() {
            let cost = before.saturating_add(i128::try_from(module.cost).unwrap_or(0));
            least = Some(least.unwrap_or(cost).min(cost));
        }
    }
    least
}

/// The least cost of modules for each need up to the total load, in cost grains; None at a need that no modules reach.
///
/// - Gives: None where memory is wanting.
pub fn module_costs(alloc: Global, link: &Link, total: u64) -> Option<Vec<Option<i128>>> {
    let mut costs = vec![in alloc; Some(0)].ok()?;
    for need in 1..total.saturating_add(1) {
        let least = least_cost(link, need, &costs);
        costs.push(least).ok()?;
    }
    Some(costs)
}
