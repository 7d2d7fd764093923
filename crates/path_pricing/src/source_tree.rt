//! One tree of least paths for all demands of a source.

ghost use Rattle.std.specs.Prelude.{◌≡◌, ◌<◌, length, IfOk, None};
ghost use Rattle.arc_restrict.specs.Rows.{forbids};
ghost use Rattle.least_path.specs.Paths.{AreWeights};
ghost use Rattle.path_pricing.specs.Priced.{ArePrices, IsPriced};
ghost use Rattle.path_pricing.specs.Faults.{priced_fault};

use crate::checking::check_priced;
use crate::priced::Priced;
use crate::pricing::price;
use arc_restrict::Restriction;
use least_path::Tree;
use plan_base::{ArcId, DemandId, Instance, Items, NodeId, Prices};
use std::alloc::{AllocError, Global};

/// A path of least price from a source to each node that arcs lead to, where nothing is forbidden.
///
/// It does not keep the prices under which it was grown: whatever it gives is tested.
#[derive(Debug, Drop)]
pub struct SourceTree {
    ways: Tree,
    /// One potential for each node, in thousandths of a cost grain per load grain. Where arcs are forbidden they rise
    /// along the others as before.
    potentials: Items<u128>,
}

/// The price of each arc: that of its place.
fn arc_prices(
    alloc: Global,
    inst: &Instance,
    prices: &[u128],
) -> Result<Vec<Option<u128>>, AllocError>
    requires { ArePrices inst.now prices.now }
    ensures { IfOk result (λ weights. AreWeights inst.now weights.items) }
{
    let mut weights = Vec::with_capacity(alloc, inst.arcs() as usize)?;
    for number in 0..inst.arcs() {
        weights.push(Some(prices[inst.place(ArcId(number)) as usize]))?;
    }
    Ok(weights)
}

impl SourceTree {
    /// The tree of a source under these prices.
    ///
    /// - Takes: an instance, prices that fit it in thousandths of a cost grain per load grain, a node of it.
    /// - Errors: want of memory alone.
    /// - Rule: docs/METHOD.md, "Least prices".
    /// - Time: that of one `price` whose target is the farthest node.
    pub fn grow(
        alloc: Global,
        inst: &Instance,
        prices: &Prices,
        source: NodeId,
    ) -> Result<SourceTree, AllocError>
        requires prices { ArePrices inst.now prices.now }
        requires source { source.0 < inst.now.nodes }
    {
        let weights = arc_prices(alloc, inst, prices.as_slice())?;
        let ways = Tree::grow(alloc, inst, &weights, source)?;
        let potentials = ways.lengths(alloc)?;
        Ok(SourceTree { ways, potentials })
    }

    /// The tree's path to the demand's target, where the demand may take it.
    fn permitted(
        &self,
        alloc: Global,
        inst: &Instance,
        demand: DemandId,
        restriction: &Restriction,
    ) -> Result<Option<Priced>, AllocError>
        requires { demand.0 < length inst.now.demands }
    {
        let target = inst.demand(demand).target;
        let Some(length) = self.ways.length(target) else {
            return Ok(None);
        };
        let Some(path) = self.ways.way(alloc, inst, target)? else {
            return Ok(None);
        };
        if !restriction.permits(demand, &path) {
            return Ok(None);
        }
        Ok(Some(Priced::Path {
            path,
            length,
            potentials: self.potentials.copy()?,
        }))
    }

    /// A least path of a demand of the tree's source, or a set that shows that it has none: the tree's path, where the
    /// demand may take it and it shows that no other is cheaper, else what `price` finds. Forbidding arcs leaves the
    /// tree's potentials true.
    ///
    /// - Takes: what `price` takes.
    /// - Gives: what `check_priced` accepts.
    /// - Errors: want of memory alone.
    /// - Rule: docs/METHOD.md, "Least prices".
    /// - Time: linear in nodes, links and the path's arcs; where an arc on the tree's path is forbidden, or the target is
    ///   not reached, that of `price` too.
    pub fn priced(
        &self,
        alloc: Global,
        inst: &Instance,
        prices: &Prices,
        demand: DemandId,
        restriction: &Restriction,
    ) -> Result<Priced, AllocError>
        requires prices { ArePrices inst.now prices.now }
        requires demand { demand.0 < length inst.now.demands }
        ensures least { IfOk result (IsPriced inst.now prices.now demand.0 (forbids restriction.now)) }
        ensures accepted { IfOk result (λ found. priced_fault inst.now prices.now demand.0 (forbids restriction.now) found ≡ None) }
    {
        if let Some(found) = self.permitted(alloc, inst, demand, restriction)? {
            if check_priced(inst, prices, demand, restriction, &found).is_ok() {
                return Ok(found);
            }
        }
        price(alloc, inst, prices, demand, restriction)
    }
}
