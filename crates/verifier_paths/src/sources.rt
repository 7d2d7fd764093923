//! Least prices of all demands: those that are forbidden nothing share one run of rounds for each source.

ghost use Rattle.std.specs.Prelude.{◌≡◌, ◌<◌, ◌≤◌, ℕ, length, IfOk, OnOk, MatchOption};
ghost use Rattle.plan_base.specs.Places.{places};
ghost use Rattle.arc_restrict.specs.Prices.{AreWithinLimit};
ghost use Rattle.verifier_paths.specs.Kept.{forbidden_by};
ghost use Rattle.verifier_paths.specs.Sources.{ArePricesOf, IsPriceOf, AreUnrestricted, IsFrom, HasPriced};

use crate::marks::Forbidden;
use crate::rounds::{Ways, least_price, least_prices};
use plan_base::{DemandId, Instance, NodeId};
use std::alloc::{AllocError, Global};

/// For each node the least price of a way to it from the demand's source where nothing is forbidden.
fn unrestricted_prices(
    alloc: Global,
    inst: &Instance,
    demand: DemandId,
    prices: &[u128],
) -> Result<Vec<Option<u128>>, AllocError>
    requires demand { demand.0 < length inst.now.demands }
    requires count { places inst.now ≤ length prices.now }
    requires limit { AreWithinLimit inst.now prices.now }
    ensures { IfOk result (λ labels. AreUnrestricted inst.now prices.now demand.0 labels.items) }
{
    let nothing = Forbidden::nothing(alloc);
    let ways = Ways {
        inst,
        forbidden: &nothing,
        demand,
        left_out: None,
    };
    least_prices(alloc, &ways, prices)
}

/// The least price of a demand: that of the source's labels, where nothing is forbidden to it.
fn price_of_demand(
    alloc: Global,
    inst: &Instance,
    forbidden: &Forbidden,
    demand: DemandId,
    prices: &[u128],
    labels: &[Option<u128>],
) -> Result<Option<u128>, AllocError>
    requires demand { demand.0 < length inst.now.demands }
    requires count { places inst.now ≤ length prices.now }
    requires limit { AreWithinLimit inst.now prices.now }
    requires labels { AreUnrestricted inst.now prices.now demand.0 labels.now }
    ensures { IfOk result (IsPriceOf inst.now (forbidden_by forbidden.now) prices.now demand.0) }
{
    if forbidden.is_unrestricted(demand) {
        inst.lawful();
        return Ok(labels[inst.demand(demand).target.0 as usize]);
    }
    least_price(alloc, inst, forbidden, demand, prices)
}

/// A demand of the source, where it has one.
fn demand_from(inst: &Instance, source: NodeId) -> Option<DemandId>
    ensures { MatchOption result ((k : ℕ) → k < length inst.now.demands → IsFrom inst.now source.0 k → ⊥)
        (λ found. (found.0 < length inst.now.demands) × IsFrom inst.now source.0 found.0) }
{
    for place in 0..inst.demands() {
        if inst.demand(DemandId(place)).source == source {
            return Some(DemandId(place));
        }
    }
    None
}

/// Finds the least prices of the demands of one source, by the labels of its nodes.
fn price_all_from(
    alloc: Global,
    inst: &Instance,
    forbidden: &Forbidden,
    prices: &[u128],
    source: NodeId,
    labels: &[Option<u128>],
    found: &mut Vec<Option<u128>>,
) -> Result<(), AllocError>
    requires count { places inst.now ≤ length prices.now }
    requires limit { AreWithinLimit inst.now prices.now }
    requires labels { (k : ℕ) → IsFrom inst.now source.0 k → AreUnrestricted inst.now prices.now k labels.now }
    requires found { length found.old.items ≡ length inst.now.demands }
    ensures { OnOk result (HasPriced inst.now (forbidden_by forbidden.now) prices.now source.0 found.old.items found.new.items) }
{
    for place in 0..inst.demands() {
        let demand = DemandId(place);
        if inst.demand(demand).source == source {
            let price = price_of_demand(alloc, inst, forbidden, demand, prices, labels)?;
            found[place as usize] = price;
        }
    }
    Ok(())
}

/// Finds the least prices of the demands of one source, by one run for those that are forbidden nothing.
fn price_source(
    alloc: Global,
    inst: &Instance,
    forbidden: &Forbidden,
    prices: &[u128],
    source: NodeId,
    found: &mut Vec<Option<u128>>,
) -> Result<(), AllocError>
    requires count { places inst.now ≤ length prices.now }
    requires limit { AreWithinLimit inst.now prices.now }
    requires found { length found.old.items ≡ length inst.now.demands }
    ensures { OnOk result (HasPriced inst.now (forbidden_by forbidden.now) prices.now source.0 found.old.items found.new.items) }
{
    match demand_from(inst, source) {
        Some(demand) => {
            let labels = unrestricted_prices(alloc, inst, demand, prices)?;
            price_all_from(alloc, inst, forbidden, prices, source, &labels, found)
        }
        None => Ok(()),
    }
}

/// The least price of a permitted path of each demand, and none where it has none.
///
/// - Takes: at least one price for each place, within the limit, in thousandths of a cost grain per load grain.
/// - Gives: prices in the same unit, in the order of demands.
/// - Errors: want of memory.
/// - Rule: docs/DEFINITIONS.md, "Prices of paths".
/// - Time: nodes times arcs for each source of a demand, and as much for each demand that is forbidden an arc.
pub fn prices_of_demands(
    alloc: Global,
    inst: &Instance,
    forbidden: &Forbidden,
    prices: &[u128],
) -> Result<Vec<Option<u128>>, AllocError>
    requires count { places inst.now ≤ length prices.now }
    requires limit { AreWithinLimit inst.now prices.now }
    ensures { IfOk result (λ found. ArePricesOf inst.now (forbidden_by forbidden.now) prices.now found.items) }
{
    let mut found = vec![in alloc; None; inst.demands() as usize]?;
    for source in 0..inst.nodes() {
        price_source(alloc, inst, forbidden, prices, NodeId(source), &mut found)?;
    }
    Ok(found)
}
