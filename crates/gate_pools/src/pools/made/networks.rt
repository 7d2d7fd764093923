//! The networks: a ring of four nodes with a chord, and up to four demands. None stands where memory is wanting.

use gate_draws::Draws;
use plan_base::{CountLaw, Demand, Instance, Items, Link, Module, NodeId, Orient, Parts};
use std::alloc::Global;

/// The ends of the links.
const ENDS: [(u32, u32); 5] = [(0, 1), (1, 2), (2, 3), (3, 0), (0, 2)];

/// Up to two modules.
fn made_modules(alloc: Global, draws: &mut Draws) -> Option<Items<Module>> {
    let mut modules = Vec::new(alloc);
    for _ in 0..draws.below(3) {
        modules
            .push(Module {
                capacity: u64::from(1 + draws.below(8)),
                cost: u128::from(1 + draws.below(30)),
            })
            .ok()?;
    }
    Some(Items::from_vec(modules))
}

/// The links.
fn made_links(alloc: Global, draws: &mut Draws) -> Option<Items<Link>> {
    let mut links = Vec::new(alloc);
    for (source, target) in ENDS {
        links
            .push(Link {
                source: NodeId(source),
                target: NodeId(target),
                pre: u64::from(draws.below(7)),
                routing: u64::from(draws.below(3)),
                modules: made_modules(alloc, draws)?,
            })
            .ok()?;
    }
    Some(Items::from_vec(links))
}

/// Up to four demands, each of some grains between two nodes.
fn made_demands(alloc: Global, draws: &mut Draws) -> Option<Items<Demand>> {
    let mut demands = Vec::new(alloc);
    for _ in 0..1 + draws.below(4) {
        let source = draws.below(4);
        let target = source.wrapping_add(1 + draws.below(3)) % 4;
        demands
            .push(Demand {
                source: NodeId(source),
                target: NodeId(target),
                load: u128::from(1 + draws.below(6)),
                hops: None,
            })
            .ok()?;
    }
    Some(Items::from_vec(demands))
}

/// The next network.
pub(super) fn made_network(alloc: Global, draws: &mut Draws) -> Option<Instance> {
    let parts = Parts {
        orient: Orient::Bidirected,
        law: CountLaw::Any,
        nodes: 4,
        links: made_links(alloc, draws)?,
        demands: made_demands(alloc, draws)?,
    };
    Instance::build(alloc, parts).ok()
}
