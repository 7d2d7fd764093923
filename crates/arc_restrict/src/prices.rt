//! What paths cost under prices.

ghost use Rattle.std.specs.Prelude.{◌≡◌, min};
ghost use Rattle.arc_restrict.specs.Prices.{price_of};

use plan_base::{ArcId, Instance};

/// What the arcs of a path cost together, or the greatest number where that is more.
///
/// - Takes: an instance; the price of each place, in thousandths of a cost grain per load grain. A place without a price
///   costs nothing.
/// - Gives: thousandths of a cost grain per load grain.
/// - Rule: docs/DEFINITIONS.md, "Prices of paths".
/// - Time: linear in the arcs. Takes no memory.
pub fn price_along(inst: &Instance, prices: &[u128], arcs: &[ArcId]) -> u128
    ensures { result ≡ min (price_of inst.now prices.now arcs.now) u128.MAX }
{
    let mut total: u128 = 0;
    for arc in arcs {
        let price = prices.get(inst.place(*arc) as usize);
        total = total.saturating_add(price.copied().unwrap_or(0));
    }
    total
}
