//! Instances and briefs that are made from a number. None stands where memory is wanting.

ghost use Rattle.std.specs.Prelude.{◌≡◌, ◌<◌, length};
ghost use Rattle.plan_base.specs.Places.{places};

use column_pool::Brief;
use gate_draws::Draws;
use link_steps::{LoadRange, Ranges};
use plan_base::{
    ArcId, BranchId, CountLaw, Demand, DemandId, Instance, Items, Link, Module, NodeId, Orient,
    Parts, Path, Prices,
};
use std::alloc::Global;

/// The ends of the links: three from a to b, three from b to c, two from a to c.
const ENDS: [(u32, u32); 8] = [
    (0, 1),
    (0, 1),
    (0, 1),
    (1, 2),
    (1, 2),
    (1, 2),
    (0, 2),
    (0, 2),
];

/// A module.
fn made_module(draws: &mut Draws) -> Module {
    Module {
        capacity: u64::from(draws.below(12)),
        cost: u128::from(draws.below(40)),
    }
}

/// Up to two modules.
fn made_modules(alloc: Global, draws: &mut Draws) -> Option<Items<Module>> {
    let mut modules = Vec::new(alloc);
    for _ in 0..draws.below(3) {
        modules.push(made_module(draws)).ok()?;
    }
    Some(Items::from_vec(modules))
}

/// A link between these nodes.
fn made_link(alloc: Global, draws: &mut Draws, source: u32, target: u32) -> Option<Link> {
    let pre = if draws.one_of(2) { draws.below(15) } else { 0 };
    let routing = u64::from(draws.below(4));
    Some(Link {
        source: NodeId(source),
        target: NodeId(target),
        pre: u64::from(pre),
        routing,
        modules: made_modules(alloc, draws)?,
    })
}

/// The links.
fn made_links(alloc: Global, draws: &mut Draws) -> Option<Items<Link>> {
    let mut links = Vec::new(alloc);
    for (source, target) in ENDS {
        links.push(made_link(alloc, draws, source, target)?).ok()?;
    }
    Some(Items::from_vec(links))
}

/// A demand from a to b or to c.
fn made_demand(draws: &mut Draws) -> Demand {
    Demand {
        source: NodeId(0),
        target: NodeId(1 + draws.below(2)),
        load: u128::from(draws.below(9)),
        hops: None,
    }
}

/// Up to five demands.
fn made_demands(alloc: Global, draws: &mut Draws) -> Option<Items<Demand>> {
    let mut demands = Vec::new(alloc);
    for _ in 0..1 + draws.below(5) {
        demands.push(made_demand(draws)).ok()?;
    }
    Some(Items::from_vec(demands))
}

/// An instance.
pub(crate) fn made_instance(alloc: Global, draws: &mut Draws, orient: Orient) -> Option<Instance> {
    let parts = Parts {
        orient,
        law: CountLaw::Any,
        nodes: 3,
        links: made_links(alloc, draws)?,
        demands: made_demands(alloc, draws)?,
    };
    Instance::build(alloc, parts).ok()
}

/// A simple path to b or to c: straight, or over the third node.
fn made_path(alloc: Global, draws: &mut Draws, target: NodeId) -> Option<Path> {
    let first = ArcId(2 * draws.below(3));
    let middle = 6 + 2 * draws.below(3);
    let long = ArcId(12 + 2 * draws.below(2));
    let (straight, over_third) = if target == NodeId(1) {
        (first, [long, ArcId(middle + 1)])
    } else {
        (long, [first, ArcId(middle)])
    };
    let arcs = if draws.one_of(2) {
        Vec::from_slice(alloc, &[straight])
    } else {
        Vec::from_slice(alloc, &over_third)
    };
    Some(Path::from_vec(arcs.ok()?))
}

/// Up to six columns of a demand, each once.
fn made_columns(alloc: Global, draws: &mut Draws, target: NodeId) -> Option<Items<Path>> {
    let mut paths: Vec<Path> = Vec::new(alloc);
    for _ in 0..1 + draws.below(6) {
        let path = made_path(alloc, draws, target)?;
        if !paths.as_slice().contains(&path) {
            paths.push(path).ok()?;
        }
    }
    Some(Items::from_vec(paths))
}

/// Prices below 9,000.
fn made_prices(alloc: Global, draws: &mut Draws, places: u32) -> Option<Prices> {
    let mut prices = Vec::new(alloc);
    for _ in 0..places {
        prices.push(u128::from(draws.below(9_000))).ok()?;
    }
    Some(Prices::from_vec(prices))
}

/// Columns of each demand.
fn all_columns(alloc: Global, draws: &mut Draws, inst: &Instance) -> Option<Items<Items<Path>>> {
    let mut columns = Vec::new(alloc);
    for place in 0..inst.demands() {
        let target = inst.demand(DemandId(place)).target;
        columns.push(made_columns(alloc, draws, target)?).ok()?;
    }
    Some(Items::from_vec(columns))
}

/// Some of the loads up to a top load.
fn made_range(draws: &mut Draws, top: u64) -> LoadRange {
    let limit = u32::try_from(top).unwrap_or(0).saturating_add(1);
    let (one, other) = (u64::from(draws.below(limit)), u64::from(draws.below(limit)));
    LoadRange {
        least: one.min(other),
        most: one.max(other),
    }
}

/// Leaves a place some of its loads, or all of them.
fn cut(inst: &Instance, draws: &mut Draws, ranges: &mut Ranges, place: u32)
    requires place { place < places inst.now }
    requires count { length ranges.old ≡ places inst.now }
    ensures { length ranges.new ≡ places inst.now }
{
    if draws.one_of(2) {
        let top = inst.top_load(inst.link_of_place(place));
        let range = made_range(draws, top);
        ranges.set(place, range);
    }
}

/// Ranges of which some places have all their loads, and some have fewer.
fn made_ranges(alloc: Global, draws: &mut Draws, inst: &Instance) -> Option<Ranges> {
    let mut ranges = Ranges::whole(alloc, inst).ok()?;
    for place in 0..inst.places() {
        cut(inst, draws, &mut ranges, place);
    }
    Some(ranges)
}

/// The ranges of a brief: whole ones, or made ones.
fn ranges_of(alloc: Global, draws: &mut Draws, inst: &Instance, is_ranged: bool) -> Option<Ranges> {
    if is_ranged {
        made_ranges(alloc, draws, inst)
    } else {
        Ranges::whole(alloc, inst).ok()
    }
}

/// A brief of the instance, whose places have all loads, or where it is ranged some have fewer.
pub(crate) fn made_brief(
    alloc: Global,
    inst: &Instance,
    draws: &mut Draws,
    is_ranged: bool,
) -> Option<Brief> {
    Some(Brief {
        node: BranchId(0),
        version: 1,
        prices: made_prices(alloc, draws, inst.places())?,
        ranges: ranges_of(alloc, draws, inst, is_ranged)?,
        columns: all_columns(alloc, draws, inst)?,
        crowd_tried: false,
        has_enough: false,
        incumbent: None,
        unit: 1,
    })
}
