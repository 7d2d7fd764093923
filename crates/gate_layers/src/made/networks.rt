//! Made networks, whose answers are compared with lists of all paths.

ghost use Rattle.std.specs.Prelude.{◌<◌};

use super::comparing::all_agree;
use crate::restricting::forbid;
use crate::searching::Asked;
use crate::telling::tell_differing;
use arc_restrict::Restriction;
use gate_draws::Draws;
use plan_base::{CountLaw, Demand, Instance, Items, Link, NodeId, Orient, Parts, Prices};
use std::alloc::{AllocError, Global};

/// How many networks are made.
const NETWORKS: u32 = 300;

/// Two nodes that differ.
fn ends(draws: &mut Draws, nodes: u32) -> (NodeId, NodeId)
    requires { 1 < nodes }
{
    let source = draws.below(nodes);
    let target = draws.below(nodes);
    if source == target {
        (NodeId(0), NodeId(1))
    } else {
        (NodeId(source), NodeId(target))
    }
}

/// From 1 to 9 links without modules.
fn made_links(alloc: Global, draws: &mut Draws, nodes: u32) -> Result<Items<Link>, AllocError>
    requires { 1 < nodes }
{
    let mut links = Vec::new(alloc);
    for _ in 0..1 + draws.below(9) {
        let (source, target) = ends(draws, nodes);
        links.push(Link {
            source,
            target,
            pre: 0,
            routing: 0,
            modules: Items::new(alloc),
        })?;
    }
    Ok(Items::from_vec(links))
}

/// From 1 to 3 demands.
fn made_demands(alloc: Global, draws: &mut Draws, nodes: u32) -> Result<Items<Demand>, AllocError>
    requires { 1 < nodes }
{
    let mut demands = Vec::new(alloc);
    for _ in 0..1 + draws.below(3) {
        let (source, target) = ends(draws, nodes);
        let load = u128::from(1 + draws.below(2));
        demands.push(Demand {
            source,
            target,
            load,
            hops: None,
        })?;
    }
    Ok(Items::from_vec(demands))
}

/// A network of 2 to 6 nodes.
fn made_network(alloc: Global, draws: &mut Draws) -> Result<Parts, AllocError> {
    let nodes = 2 + draws.below(5);
    let orient = match draws.below(3) {
        0 => Orient::Directed,
        1 => Orient::Undirected,
        _ => Orient::Bidirected,
    };
    Ok(Parts {
        orient,
        law: CountLaw::Any,
        nodes,
        links: made_links(alloc, draws, nodes)?,
        demands: made_demands(alloc, draws, nodes)?,
    })
}

/// Prices from 0 to 9.
fn made_prices(alloc: Global, draws: &mut Draws, inst: &Instance) -> Result<Prices, AllocError> {
    let mut prices = Vec::new(alloc);
    for _ in 0..inst.places() {
        prices.push(u128::from(draws.below(10)))?;
    }
    Ok(Prices::from_vec(prices))
}

/// A restriction that forbids up to five arcs.
fn made_restriction(
    alloc: Global,
    draws: &mut Draws,
    inst: &Instance,
) -> Result<Restriction, AllocError> {
    let mut restriction = Restriction::none(alloc, inst)?;
    for _ in 0..draws.below(6) {
        let demand = draws.below(3);
        let arc = draws.below(18);
        forbid(inst, &mut restriction, demand, arc);
    }
    Ok(restriction)
}

/// Whether the answers for the network are as the lists of all paths tell.
fn agrees(alloc: Global, draws: &mut Draws, inst: &Instance) -> Option<bool> {
    let prices = made_prices(alloc, draws, inst).ok()?;
    let restriction = made_restriction(alloc, draws, inst).ok()?;
    let free = Restriction::none(alloc, inst).ok()?;
    let asked = Asked {
        alloc,
        inst,
        prices: &prices,
        restriction: &restriction,
    };
    Some(all_agree(asked, &free))
}

/// Whether the answers for the next network are as the lists of all paths tell.
fn next_agrees(alloc: Global, draws: &mut Draws) -> Option<bool> {
    let parts = made_network(alloc, draws).ok()?;
    let inst = Instance::build(alloc, parts).ok()?;
    agrees(alloc, draws, &inst)
}

/// Adds the first made network for which an answer is not as the lists of all paths tell, or memory is wanting.
pub(crate) fn tell_networks(alloc: Global, text: &mut String) -> Option<()> {
    let mut draws = Draws::begin(1);
    for number in 0..NETWORKS {
        if next_agrees(alloc, &mut draws) != Some(true) {
            return tell_differing("network", Some(number), text);
        }
    }
    tell_differing("network", None, text)
}
