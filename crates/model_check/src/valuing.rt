//! The parts that two files stand for, in grains.

ghost use Rattle.std.specs.Prelude.{◌≡◌, map, IfOk};
ghost use Rattle.plan_base.specs.Faults.{told_of};
ghost use Rattle.model_check.specs.Reading.{module_of, link_of_record, demand_of, orient_of, law_of, limit_of};
ghost use Rattle.model_check.specs.Refusals.{parts_of_files};

use plan_base::{CountLaw, Demand, Items, Link, Module, Orient, Parts};
use snd_model::{CapacityModel, HopModel, LinkModel, ModelFile};
use snd_network::{DemandRecord, LinkRecord, NetworkFile};
use std::alloc::{AllocError, Global};

/// Cost grains of a millionth of a unit of cost.
const COST_GRAINS: u128 = 1_000_000;

/// A count as a fault tells it.
fn told(count: usize) -> u32
    ensures { result ≡ told_of count }
{
    u32::try_from(count).unwrap_or(u32::MAX)
}

/// The orientation of the links.
fn orient_of(link: LinkModel) -> Orient
    ensures { result ≡ orient_of link }
{
    match link {
        LinkModel::Undirected => Orient::Undirected,
        LinkModel::Directed => Orient::Directed,
        LinkModel::Bidirected => Orient::Bidirected,
    }
}

/// Which counts of a link's modules are lawful.
fn law_of(capacity: CapacityModel) -> CountLaw
    ensures { result ≡ law_of capacity }
{
    match capacity {
        CapacityModel::Modular | CapacityModel::Linear | CapacityModel::SingleModular => {
            CountLaw::Any
        }
        CapacityModel::Explicit => CountLaw::AtMostOne,
    }
}

/// The most arcs of a demand's path.
fn limit_of(hop: HopModel, read: Option<u64>) -> Option<u64>
    ensures { result ≡ limit_of hop read }
{
    match hop {
        HopModel::No => None,
        HopModel::Yes => read,
    }
}

/// The modules in grains.
#[tactic(auto, using(crate::proofs::Lists::next_more))]
fn modules_of(alloc: Global, modules: &Items<(u64, u64)>) -> Result<Items<Module>, AllocError>
    ensures { IfOk result (λ found. found ≡ map module_of modules.now) }
{
    let mut found = Vec::new(alloc);
    for (capacity, cost) in modules.as_slice() {
        found.push(Module {
            capacity: *capacity,
            cost: u128::from(*cost) * COST_GRAINS,
        })?;
    }
    Ok(Items::from_vec(found))
}

/// The link in grains.
fn link_of_record(alloc: Global, link: &LinkRecord) -> Result<Link, AllocError>
    ensures { IfOk result (λ found. found ≡ link_of_record link.now) }
{
    Ok(Link {
        source: link.source,
        target: link.target,
        pre: link.pre,
        routing: link.routing,
        modules: modules_of(alloc, &link.modules)?,
    })
}

/// The links in grains.
#[tactic(auto, using(crate::proofs::Lists::next_more))]
fn links_of(alloc: Global, links: &Items<LinkRecord>) -> Result<Items<Link>, AllocError>
    ensures { IfOk result (λ found. found ≡ map link_of_record links.now) }
{
    let mut found = Vec::new(alloc);
    for link in links.as_slice() {
        found.push(link_of_record(alloc, link)?)?;
    }
    Ok(Items::from_vec(found))
}

/// The demand in grains.
fn demand_of(hop: HopModel, demand: &DemandRecord) -> Demand
    ensures { result ≡ demand_of hop demand.now }
{
    Demand {
        source: demand.source,
        target: demand.target,
        load: u128::from(demand.unit) * u128::from(demand.value),
        hops: limit_of(hop, demand.hops),
    }
}

/// The demands in grains.
#[tactic(auto, using(crate::proofs::Lists::next_more))]
fn demands_of(
    alloc: Global,
    hop: HopModel,
    demands: &Items<DemandRecord>,
) -> Result<Items<Demand>, AllocError>
    ensures { IfOk result (λ found. found ≡ map (demand_of hop) demands.now) }
{
    let mut found = Vec::new(alloc);
    for demand in demands.as_slice() {
        found.push(demand_of(hop, demand))?;
    }
    Ok(Items::from_vec(found))
}

/// The parts that the files stand for.
pub(crate) fn parts_of_files(
    alloc: Global,
    net: &NetworkFile,
    model: &ModelFile,
) -> Result<Parts, AllocError>
    ensures { IfOk result (λ parts. parts ≡ parts_of_files net.now model.now) }
{
    Ok(Parts {
        orient: orient_of(model.link),
        law: law_of(model.capacity),
        nodes: told(net.nodes.len()),
        links: links_of(alloc, &net.links)?,
        demands: demands_of(alloc, model.hop, &net.demands)?,
    })
}
