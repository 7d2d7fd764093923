//! The search for a least price.

ghost use Rattle.std.specs.Prelude.{◌≡◌, ◌<◌, ◌≤◌, ◌*◌, length, IfOk, None};
ghost use Rattle.plan_base.specs.Places.{places};
ghost use Rattle.arc_restrict.specs.Rows.{forbids};
ghost use Rattle.path_pricing.specs.Priced.{ArePrices, IsShown, IsPriced};
ghost use Rattle.path_pricing.specs.Faults.{priced_fault};
ghost use Rattle.path_pricing.specs.Weights.{open_price, weights_below, priced_of};

use crate::priced::Priced;
use crate::query::Query;
use arc_restrict::Restriction;
use least_path::{Search, search, search_slow};
use plan_base::{ArcId, DemandId, Instance, Prices};
use std::alloc::{AllocError, Global};

impl Query<'_> {
    /// The price of a permitted arc, none for another.
    #[tactic(auto, unfolding(crate::specs::Weights::open_price))]
    fn open_price(&self, arc: ArcId) -> Option<u128>
        requires { places self.now.inst.now ≤ length self.now.prices.now }
        ensures { result
            ≡ open_price self.now.inst.now self.now.prices.now self.now.demand.0 (forbids self.now.restriction.now) arc }
    {
        if self.is_open(arc) {
            Some(self.price_at(arc))
        } else {
            None
        }
    }
}

/// The weight of each number of an arc: its price, and none where it is no arc or is forbidden to the demand.
///
/// - Takes: where memory comes from; an instance, prices that fit it in thousandths of a cost grain per load grain, a
///   demand of it, and a restriction.
/// - Errors: want of memory alone.
/// - Rule: docs/DEFINITIONS.md, "Prices of paths".
/// - Time: linear in links.
pub fn arc_weights(
    alloc: Global,
    inst: &Instance,
    prices: &Prices,
    demand: DemandId,
    restriction: &Restriction,
) -> Result<Vec<Option<u128>>, AllocError>
    requires { places inst.now ≤ length prices.now }
    ensures { IfOk result
        (λ weights. weights.items ≡ weights_below inst.now prices.now demand.0 (forbids restriction.now) (2 * length inst.now.links)) }
{
    let query = Query {
        inst,
        prices,
        demand,
        restriction,
    };
    let mut weights = Vec::with_capacity(alloc, inst.arcs() as usize)?;
    for number in 0..inst.arcs() {
        weights.push(query.open_price(ArcId(number)))?;
    }
    Ok(weights)
}

/// What a search found, as what is found for a demand.
fn priced(found: Search) -> Priced
    ensures { result ≡ priced_of found }
{
    match found {
        Search::Path {
            path,
            length,
            potentials,
        } => Priced::Path {
            path,
            length,
            potentials,
        },
        Search::NoPath { reached } => Priced::NoPath { reached },
    }
}

/// A permitted path of the demand with the least price, or a set that shows that there is none.
///
/// - Takes: where memory comes from; an instance, prices that fit it in thousandths of a cost grain per
///   load grain, a demand of it, and a restriction.
/// - Gives: a permitted path, its price and potentials; or, exactly where no permitted path exists, the
///   set of nodes that permitted arcs reach from the demand's source. `check_priced` accepts either.
/// - Errors: want of memory alone.
/// - Rule: docs/METHOD.md, "Least prices".
/// - Time: links times the logarithm of their count, at most, and linear in nodes.
#[tactic(auto, using(crate::proofs::FoundLaws::found_laws))]
pub fn price(
    alloc: Global,
    inst: &Instance,
    prices: &Prices,
    demand: DemandId,
    restriction: &Restriction,
) -> Result<Priced, AllocError>
    requires prices { ArePrices inst.now prices.now }
    requires demand { demand.0 < length inst.now.demands }
    ensures least { IfOk result (IsPriced inst.now prices.now demand.0 (forbids restriction.now)) }
    ensures shown { IfOk result (IsShown inst.now prices.now demand.0 (forbids restriction.now)) }
    ensures accepted { IfOk result (λ found. priced_fault inst.now prices.now demand.0 (forbids restriction.now) found ≡ None) }
{
    let weights = arc_weights(alloc, inst, prices, demand, restriction)?;
    let asked = inst.demand(demand);
    let found = search(alloc, inst, &weights, asked.source, asked.target)?;
    Ok(priced(found))
}

/// The same as `price`, found by a walk over all nodes for each one that is settled.
///
/// - Errors: want of memory alone.
/// - Rule: docs/METHOD.md, "Least prices".
/// - Time: the square of the count of nodes, and linear in links.
#[tactic(auto, using(crate::proofs::FoundLaws::found_laws))]
pub fn price_slow(
    alloc: Global,
    inst: &Instance,
    prices: &Prices,
    demand: DemandId,
    restriction: &Restriction,
) -> Result<Priced, AllocError>
    requires prices { ArePrices inst.now prices.now }
    requires demand { demand.0 < length inst.now.demands }
    ensures least { IfOk result (IsPriced inst.now prices.now demand.0 (forbids restriction.now)) }
    ensures shown { IfOk result (IsShown inst.now prices.now demand.0 (forbids restriction.now)) }
    ensures accepted { IfOk result (λ found. priced_fault inst.now prices.now demand.0 (forbids restriction.now) found ≡ None) }
{
    let weights = arc_weights(alloc, inst, prices, demand, restriction)?;
    let asked = inst.demand(demand);
    let found = search_slow(alloc, inst, &weights, asked.source, asked.target)?;
    Ok(priced(found))
}
