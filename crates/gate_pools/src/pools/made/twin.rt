//! The root's bound and the least cost, by trying all simple paths, all loads and all choices. None stands where memory is
//! wanting.

ghost use Rattle.std.specs.Prelude.{◌<◌, length};

use gate_networks::{has, module_costs, simple_paths};
use plan_base::{DemandId, Instance, LinkId};
use std::alloc::Global;

/// The least module costs of the needs of a link.
type Costs = Vec<Option<i128>>;

/// The total load, where it is small.
fn total_of(inst: &Instance) -> u64 {
    inst.total_load().min(1_000)
}

/// What loads there and back cost on a link, in cost grains.
fn cost_of_loads(inst: &Instance, link: LinkId, costs: &Costs, loads: [u64; 2]) -> Option<i128>
    requires { link.0 < length inst.now.links }
{
    let link = inst.link(link);
    let need = loads[0].max(loads[1]).saturating_sub(link.pre);
    let modules = costs.get(need as usize).copied().flatten()?;
    let carried = i128::from(loads[0].saturating_add(loads[1]));
    Some(
        i128::from(link.routing)
            .saturating_mul(carried)
            .saturating_add(modules),
    )
}

/// What the demands that go along these paths put on an arc.
fn load_of(inst: &Instance, chosen: &[u64], arc: u32) -> u64 {
    let mut load = 0u64;
    for place in 0..inst.demands() {
        if let Some(path) = chosen.get(place as usize)
            && has(*path, arc)
        {
            let more = u64::try_from(inst.demand(DemandId(place)).load);
            load = load.saturating_add(more.unwrap_or(u64::MAX));
        }
    }
    load
}

/// What the design costs whose demands go along these paths. None where a link cannot carry them.
fn cost_of(inst: &Instance, tables: &[Costs], chosen: &[u64]) -> Option<i128> {
    let mut cost = 0i128;
    for place in 0..inst.links() {
        let arc = place.saturating_mul(2);
        let back = load_of(inst, chosen, arc.saturating_add(1));
        let loads = [load_of(inst, chosen, arc), back];
        let costs = tables.get(place as usize)?;
        cost = cost.saturating_add(cost_of_loads(inst, LinkId(place), costs, loads)?);
    }
    Some(cost)
}

/// The least module costs of all links.
fn tables_of(alloc: Global, inst: &Instance) -> Option<Vec<Costs>> {
    let mut tables = Vec::new(alloc);
    for place in 0..inst.links() {
        let costs = module_costs(alloc, inst.link(LinkId(place)), total_of(inst))?;
        tables.push(costs).ok()?;
    }
    Some(tables)
}

/// The simple paths of each demand, each as the set of its arcs.
fn all_paths(alloc: Global, inst: &Instance) -> Option<Vec<Vec<u64>>> {
    let mut paths = Vec::new(alloc);
    for place in 0..inst.demands() {
        paths
            .push(simple_paths(alloc, inst, DemandId(place)).ok()?)
            .ok()?;
    }
    Some(paths)
}

/// The path of each demand in the choice of this number.
fn choose(alloc: Global, paths: &[Vec<u64>], number: u64) -> Option<Vec<u64>> {
    let mut rest = number;
    let mut chosen = Vec::new(alloc);
    for of_demand in paths {
        let count = (of_demand.len() as u64).max(1);
        chosen
            .push(of_demand.get((rest % count) as usize).copied()?)
            .ok()?;
        rest /= count;
    }
    Some(chosen)
}

/// How many choices of paths there are.
fn count_of(paths: &[Vec<u64>]) -> u64 {
    let mut count = 1u64;
    for of_demand in paths {
        count = count.saturating_mul(of_demand.len() as u64);
    }
    count
}

/// The smaller cost.
fn smaller(held: Option<u128>, cost: i128) -> Option<u128> {
    let cost = cost.unsigned_abs();
    Some(held.map_or(cost, |held| held.min(cost)))
}

/// What the cheapest design costs, in cost grains: None inside where no choice of paths is carried.
pub(super) fn least_cost(alloc: Global, inst: &Instance) -> Option<Option<u128>> {
    let tables = tables_of(alloc, inst)?;
    let paths = all_paths(alloc, inst)?;
    let mut least = None;
    for number in 0..count_of(&paths) {
        let chosen = choose(alloc, &paths, number)?;
        if let Some(cost) = cost_of(inst, &tables, &chosen) {
            least = smaller(least, cost);
        }
    }
    Some(least)
}

/// The price of an arc: one for each arc.
fn price_at(prices: &[u128], arc: u32) -> i128 {
    let price = prices.get(arc as usize).copied().unwrap_or(0);
    i128::try_from(price).unwrap_or(0)
}

/// What a path costs under the prices.
fn price_of(inst: &Instance, prices: &[u128], path: u64) -> i128 {
    let mut total = 0i128;
    for arc in 0..inst.arcs() {
        if has(path, arc) {
            total = total.saturating_add(price_at(prices, arc));
        }
    }
    total
}

/// The least price of these paths.
fn least_price(inst: &Instance, prices: &[u128], paths: &[u64]) -> i128 {
    let mut least = i128::MAX;
    for path in paths {
        least = least.min(price_of(inst, prices, *path));
    }
    least
}

/// The least of a thousand costs of loads there and back less what the prices give for them: all loads are tried.
fn value_of(inst: &Instance, link: LinkId, costs: &Costs, prices: &[u128]) -> i128
    requires { link.0 < length inst.now.links }
{
    let arc = link.0.saturating_mul(2);
    let (there, back) = (
        price_at(prices, arc),
        price_at(prices, arc.saturating_add(1)),
    );
    let count = total_of(inst).saturating_add(1);
    let mut least = 0i128;
    for number in 0..count.saturating_mul(count) {
        let loads = [number / count.max(1), number % count.max(1)];
        if let Some(cost) = cost_of_loads(inst, link, costs, loads) {
            let paid = there.saturating_mul(i128::from(loads[0]));
            let paid = paid.saturating_add(back.saturating_mul(i128::from(loads[1])));
            least = least.min(cost.saturating_mul(1000).saturating_sub(paid));
        }
    }
    least
}

/// A thousandth, rounded up.
fn thousandth_up(total: i128) -> i128 {
    let whole = total / 1000;
    if total % 1000 > 0 {
        whole.saturating_add(1)
    } else {
        whole
    }
}

/// What the prices, one for each arc, tell of the whole network, in cost grains.
pub(super) fn root_bound(alloc: Global, inst: &Instance, prices: &[u128]) -> Option<i128> {
    let tables = tables_of(alloc, inst)?;
    let mut total = 0i128;
    for place in 0..inst.demands() {
        let paths = simple_paths(alloc, inst, DemandId(place)).ok()?;
        let load = i128::try_from(inst.demand(DemandId(place)).load).ok()?;
        total = total.saturating_add(load.saturating_mul(least_price(inst, prices, &paths)));
    }
    for place in 0..inst.links() {
        let costs = tables.get(place as usize)?;
        total = total.saturating_add(value_of(inst, LinkId(place), costs, prices));
    }
    Some(thousandth_up(total))
}
