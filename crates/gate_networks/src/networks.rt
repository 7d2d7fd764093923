//! The network of a row.

use crate::numbers::numbers_of;
use plan_base::{CountLaw, Demand, Instance, Items, Link, Module, NodeId, Orient, Parts};
use std::alloc::Global;

/// An instance and its name.
#[derive(Drop)]
pub struct Network {
    name: String,
    inst: Instance,
}

/// The module of a capacity and a cost.
fn module_of(alloc: Global, part: &str) -> Option<Module> {
    let numbers = numbers_of(alloc, part, ' ')?;
    let [capacity, cost] = numbers.as_slice() else {
        return None;
    };
    Some(Module {
        capacity: *capacity,
        cost: u128::from(*cost),
    })
}

/// The node of this number.
fn node_of(number: u64) -> Option<NodeId> {
    let number = u32::try_from(number).ok()?;
    Some(NodeId(number))
}

/// The modules of this text, which may be empty.
fn modules_of(alloc: Global, text: &str) -> Option<Items<Module>> {
    let mut modules = Vec::new(alloc);
    if !text.is_empty() {
        for part in text.split(" / ") {
            modules.push(module_of(alloc, part)?).ok()?;
        }
    }
    Some(Items::from_vec(modules))
}

/// The link of two nodes, what is installed before, routing and modules.
fn link_of(alloc: Global, part: &str) -> Option<Link> {
    let (ends, modules) = part.split_once(" / ").unwrap_or((part, ""));
    let numbers = numbers_of(alloc, ends, ' ')?;
    let [source, target, pre, routing] = numbers.as_slice() else {
        return None;
    };
    Some(Link {
        source: node_of(*source)?,
        target: node_of(*target)?,
        pre: *pre,
        routing: *routing,
        modules: modules_of(alloc, modules)?,
    })
}

/// The demand of two nodes and a load, and of a limit on the arcs of its path, where there is one.
fn demand_of(alloc: Global, part: &str) -> Option<Demand> {
    let (part, limit) = part.split_once(" / ").unwrap_or((part, ""));
    let hops = if limit.is_empty() {
        None
    } else {
        Some(limit.parse::<u64>().ok()?)
    };
    let numbers = numbers_of(alloc, part, ' ')?;
    let [source, target, load] = numbers.as_slice() else {
        return None;
    };
    Some(Demand {
        source: node_of(*source)?,
        target: node_of(*target)?,
        load: u128::from(*load),
        hops,
    })
}

/// The links of this text.
fn links_of(alloc: Global, text: &str) -> Option<Items<Link>> {
    let mut links = Vec::new(alloc);
    for part in text.split(", ") {
        links.push(link_of(alloc, part)?).ok()?;
    }
    Some(Items::from_vec(links))
}

/// The demands of this text: `-` for none.
fn demands_of(alloc: Global, text: &str) -> Option<Items<Demand>> {
    let mut demands = Vec::new(alloc);
    if text != "-" {
        for part in text.split(", ") {
            demands.push(demand_of(alloc, part)?).ok()?;
        }
    }
    Some(Items::from_vec(demands))
}

/// The instance of a direction, a count of nodes, links and demands.
fn instance_of(alloc: Global, text: &str) -> Option<Instance> {
    let (direction, text) = text.split_once(' ')?;
    let (nodes, text) = text.split_once(" : ")?;
    let (links, demands) = text.split_once(" : ")?;
    let orient = match direction {
        "directed" => Orient::Directed,
        "undirected" => Orient::Undirected,
        "bidirected" => Orient::Bidirected,
        _ => return None,
    };
    let parts = Parts {
        orient,
        law: CountLaw::Any,
        nodes: nodes.parse::<u32>().ok()?,
        links: links_of(alloc, links)?,
        demands: demands_of(alloc, demands)?,
    };
    Instance::build(alloc, parts).ok()
}

/// The network of a row: its name, its direction, how many nodes it has, its links and its demands.
///
/// - Takes: the row behind its first word, in the form that the top of this crate tells. Loads and capacities are in load
///   grains, costs in cost grains, routing in cost grains per load grain.
/// - Gives: None where the row has not this form, where its parts are no instance, and where memory is wanting.
pub fn network_of(alloc: Global, row: &str) -> Option<Network> {
    let (name, text) = row.split_once(' ')?;
    Some(Network {
        name: String::from_str(alloc, name).ok()?,
        inst: instance_of(alloc, text)?,
    })
}

/// The instance of this name: of two, the first. None where there is none.
pub fn find<'a>(networks: &'a [Network], name: &str) -> Option<&'a Instance> {
    for network in networks {
        if network.name.as_str() == name {
            return Some(&network.inst);
        }
    }
    None
}
