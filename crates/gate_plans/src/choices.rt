//! The least cost of a small network, found by trying every choice of simple paths.
//!
//! Loads are in tenths of a unit and costs in thousandths.

use crate::claims::NO_DESIGN;
use crate::network::{Demand, Ends, Extra, Kind, Link, Module, Network};
use std::alloc::{AllocError, Global};
use std::fmt;

/// How many choices are tried at most.
const MOST_CHOICES: u64 = 20_000;

/// How many cost grains a thousandth of a unit of cost has.
const GRAINS: i128 = 1_000_000_000;

/// What came of trying.
#[derive(Clone, Copy)]
pub(crate) enum Tried {
    /// There are too many choices.
    TooMany,
    /// All choices were tried.
    All {
        choices: u64,
        /// What the cheapest costs, in cost grains; `NO_DESIGN` where none carries the demands.
        least: i128,
    },
}

/// The links of a path, as sets of their numbers.
#[derive(Clone, Copy)]
struct Way {
    /// Those that it goes along from their source to their target.
    there: u64,
    /// Those that it goes along the other way.
    back: u64,
}

/// A simple path, or the front of one.
#[derive(Clone, Copy)]
struct Walk {
    /// Where it leads.
    at: u32,
    /// The nodes that it met, as a set of their numbers.
    nodes: u64,
    way: Way,
}

/// The least cost of the modules of a link for each load, or None where it cannot carry the load.
type CostTable = Vec<Option<u64>>;

impl fmt::Display for Tried {
    fn fmt<W: fmt::Write>(&self, f: &mut fmt::Formatter<W>) -> fmt::Result {
        match self {
            Tried::TooMany => write!(f, "too many choices"),
            Tried::All { choices, .. } => write!(f, "choices tried {choices}"),
        }
    }
}

/// The set with this number alone. There are fewer than 64 nodes and fewer than 64 links.
fn only(number: usize) -> u64 {
    1u64 << (number % 64)
}

/// Whether the set has this number.
fn has(set: u64, number: usize) -> bool {
    set & only(number) != 0
}

/// Where the link of this number leads from the end of the walk, if it does, and the way up to there.
fn along(kind: Kind, link: &Link, number: usize, walk: Walk) -> Option<(u32, Way)> {
    let Way { there, back } = walk.way;
    let Ends { source, target } = link.ends;
    if source == walk.at {
        let there = there | only(number);
        return Some((target, Way { there, back }));
    }
    if kind != Kind::Directed && target == walk.at {
        let back = back | only(number);
        return Some((source, Way { there, back }));
    }
    None
}

/// Adds the walks that are longer than this one by one link.
fn extend(network: &Network, walk: Walk, longer: &mut Vec<Walk>) -> Result<(), AllocError> {
    for (number, link) in network.links.iter().enumerate() {
        let Some((at, way)) = along(network.kind, link, number, walk) else {
            continue;
        };
        if !has(walk.nodes, at as usize) {
            let nodes = walk.nodes | only(at as usize);
            longer.push(Walk { at, nodes, way })?;
        }
    }
    Ok(())
}

/// The simple paths of a demand that keep its limit.
fn paths_of(alloc: Global, network: &Network, demand: Demand) -> Result<Vec<Way>, AllocError> {
    let mut paths = Vec::new(alloc);
    let mut walks = Vec::new(alloc);
    walks.push(Walk {
        at: demand.ends.source,
        nodes: only(demand.ends.source as usize),
        way: Way { there: 0, back: 0 },
    })?;
    for links in 0..network.nodes {
        if demand.hops.is_some_and(|most| most < links) {
            break;
        }
        let mut longer = Vec::new(alloc);
        for walk in walks.iter() {
            if walk.at == demand.ends.target {
                paths.push(walk.way)?;
            } else {
                extend(network, *walk, &mut longer)?;
            }
        }
        walks = longer;
    }
    Ok(paths)
}

/// What is installed besides this module costs where a link carries this load, or None where it cannot. The costs of
/// smaller loads are known.
fn cost_besides(
    extra: Extra,
    link: &Link,
    module: Module,
    load: usize,
    known: &[Option<u64>],
) -> Option<u64> {
    let rest = load.saturating_sub(module.capacity as usize);
    if extra == Extra::Explicit {
        return if rest <= link.pre as usize {
            Some(0)
        } else {
            None
        };
    }
    known.get(rest).copied().flatten()
}

/// The least cost of carrying this load, where the costs of smaller loads are known.
fn least_with(extra: Extra, link: &Link, load: usize, known: &[Option<u64>]) -> Option<u64> {
    if load <= link.pre as usize {
        return Some(0);
    }
    let mut least: Option<u64> = None;
    for module in link.modules.iter() {
        let Some(cost) = cost_besides(extra, link, *module, load, known) else {
            continue;
        };
        let cost = cost.saturating_add(u64::from(module.cost) * 10);
        if least.is_none_or(|other| cost < other) {
            least = Some(cost);
        }
    }
    least
}

/// The least costs of the modules of a link, for each load up to this one.
fn table_of(
    alloc: Global,
    extra: Extra,
    link: &Link,
    most: usize,
) -> Result<CostTable, AllocError> {
    let mut table = Vec::new(alloc);
    for load in 0..=most {
        let least = least_with(extra, link, load, table.as_slice());
        table.push(least)?;
    }
    Ok(table)
}

/// What the link carries there and back where these demands go along these ways.
fn loads_on(number: usize, demands: &[Demand], chosen: &[Way]) -> (u64, u64) {
    let mut there = 0u64;
    let mut back = 0u64;
    for (demand, way) in demands.iter().zip(chosen.iter()) {
        if has(way.there, number) {
            there = there.saturating_add(demand.load());
        }
        if has(way.back, number) {
            back = back.saturating_add(demand.load());
        }
    }
    (there, back)
}

/// What the link costs where it carries these loads there and back, or None where it cannot carry them.
fn link_cost(kind: Kind, link: &Link, table: &[Option<u64>], loads: (u64, u64)) -> Option<u64> {
    let together = loads.0.saturating_add(loads.1);
    let need = match kind {
        Kind::Directed | Kind::Undirected => together,
        Kind::Bidirected => loads.0.max(loads.1),
    };
    let modules = table.get(need as usize).copied().flatten()?;
    Some(modules.saturating_add(together.saturating_mul(u64::from(link.routing))))
}

/// What a design costs where the demands go along these ways, or None where some link cannot carry them.
fn cost_of(network: &Network, tables: &[CostTable], chosen: &[Way]) -> Option<u64> {
    let mut cost = 0u64;
    for (number, (link, table)) in network.links.iter().zip(tables.iter()).enumerate() {
        let loads = loads_on(number, network.demands.as_slice(), chosen);
        let more = link_cost(network.kind, link, table.as_slice(), loads)?;
        cost = cost.saturating_add(more);
    }
    Some(cost)
}

/// The path for each demand, in the choice of this number.
fn choose(paths: &[Vec<Way>], number: u64, chosen: &mut Vec<Way>) -> Result<(), AllocError> {
    let mut rest = number;
    chosen.clear();
    for of_demand in paths.iter() {
        let count = (of_demand.len() as u64).max(1);
        let place = (rest % count) as usize;
        rest /= count;
        let none = Way { there: 0, back: 0 };
        chosen.push(of_demand.get(place).copied().unwrap_or(none))?;
    }
    Ok(())
}

/// The least cost among so many choices, in cost grains.
fn least_of(
    alloc: Global,
    network: &Network,
    paths: &[Vec<Way>],
    choices: u64,
) -> Result<i128, AllocError> {
    let total = network
        .demands
        .iter()
        .fold(0u64, |sum, demand| sum.saturating_add(demand.load()));
    let mut tables = Vec::new(alloc);
    for link in network.links.iter() {
        tables.push(table_of(alloc, network.extra, link, total as usize)?)?;
    }
    let mut least = NO_DESIGN;
    let mut chosen = Vec::new(alloc);
    for number in 0..choices {
        choose(paths, number, &mut chosen)?;
        if let Some(cost) = cost_of(network, tables.as_slice(), chosen.as_slice()) {
            least = least.min(i128::from(cost) * GRAINS);
        }
    }
    Ok(least)
}

/// Tries all choices of paths, where they are few.
pub(crate) fn least_cost(alloc: Global, network: &Network) -> Result<Tried, AllocError> {
    let mut paths = Vec::new(alloc);
    let mut choices = 1u64;
    for demand in network.demands.iter() {
        let of_demand = paths_of(alloc, network, *demand)?;
        choices = choices.saturating_mul(of_demand.len() as u64);
        if choices > MOST_CHOICES {
            return Ok(Tried::TooMany);
        }
        paths.push(of_demand)?;
    }
    let least = least_of(alloc, network, paths.as_slice(), choices)?;
    Ok(Tried::All { choices, least })
}
