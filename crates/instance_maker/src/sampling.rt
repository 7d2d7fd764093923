//! The network of a number.

ghost use Rattle.std.specs.Prelude.{◌≡◌, ◌<◌, ◌≤◌, ◌+◌, ◌*◌, ◌/◌, ◌++◌, ◌∷◌, map, decimal, IfOk, OnOk};
ghost use Rattle.std.specs.List.{range_with_len};
ghost use Rattle.snd_network.specs.WellFormed.{IsWellFormed};
ghost use Rattle.instance_maker.specs.Draws.{next_state, draw};
ghost use Rattle.instance_maker.specs.Samples.{sample_node, sample_modules, sample_link, ring_link, chord, ring_links, chords, sample_demand, sample_demands, after_ring, after_chords, sample_links, sample_network};

use crate::draws::Draws;
use crate::laws::samples_are_well_formed;
use crate::limits::{MAX_DEMANDS, MAX_NODES, MIN_NODES};
use itoa::Buffer;
use plan_base::{Items, NodeId};
use snd_network::{DemandRecord, LinkRecord, Name, NetworkFile, NodeRecord};
use std::alloc::{AllocError, Global};

/// Millionths of a unit.
const MILLIONTHS: u64 = 1_000_000;

/// The network of a number.
///
/// - Takes: where memory comes from; the number; 4 to 64 nodes; at most 4,096 demands.
/// - Gives: that many nodes in a ring, a chord from each node of the first half to one that is no neighbour of
///   it, and that many demands. What is drawn, and in which order, is in `specs/Samples.antt`.
/// - Errors: want of memory alone.
/// - Rule: docs/FORMATS.md, "The network of `sample`".
/// - Time: linear in nodes and demands.
pub fn sample(
    alloc: Global,
    number: u32,
    nodes: u32,
    demands: u32,
) -> Result<NetworkFile, AllocError>
    requires some { MIN_NODES ≤ nodes }
    requires few { nodes ≤ MAX_NODES }
    requires demands { demands ≤ MAX_DEMANDS }
    ensures network { IfOk result (λ file. file ≡ sample_network number nodes demands) }
    // A text can hold it.
    ensures well_formed { IfOk result IsWellFormed }
{
    let file = network_of(alloc, number, nodes, demands)?;
    samples_are_well_formed();
    Ok(file)
}

/// The nodes, the links, and the demands, in the order of their draws.
fn network_of(
    alloc: Global,
    number: u32,
    nodes: u32,
    demands: u32,
) -> Result<NetworkFile, AllocError>
    requires some { MIN_NODES ≤ nodes }
    requires few { nodes ≤ MAX_NODES }
    ensures { IfOk result (λ file. file ≡ sample_network number nodes demands) }
{
    let mut draws = Draws::new(number);
    Ok(NetworkFile {
        nodes: nodes_of(alloc, nodes)?,
        links: links_of(alloc, nodes, &mut draws)?,
        demands: demands_of(alloc, nodes, demands, &mut draws)?,
    })
}

// ---- nodes

/// A number in digits.
fn number_word(alloc: Global, number: u32) -> Result<Name, AllocError>
    ensures { IfOk result (λ name. name ≡ decimal number) }
{
    Name::from_slice(alloc, Buffer::new().format(number).as_bytes())
}

/// A letter, and a number in digits.
fn name_of(alloc: Global, letter: u8, number: u32) -> Result<Name, AllocError>
    ensures { IfOk result (λ name. name ≡ letter ∷ decimal number) }
{
    let mut bytes = Vec::from_slice(alloc, &[letter])?;
    bytes.extend_from_slice(Buffer::new().format(number).as_bytes())?;
    Ok(Name::from_vec(bytes))
}

/// A node.
fn node_of(alloc: Global, place: u32) -> Result<NodeRecord, AllocError>
    ensures { IfOk result (λ node. node ≡ sample_node place) }
{
    Ok(NodeRecord {
        name: name_of(alloc, b'n', place)?,
        place: Some((number_word(alloc, place)?, number_word(alloc, 0)?)),
    })
}

/// The nodes.
#[tactic(auto, using(crate::proofs::Lists::list_steps))]
fn nodes_of(alloc: Global, count: u32) -> Result<Items<NodeRecord>, AllocError>
    ensures { IfOk result (λ nodes. nodes ≡ map sample_node (range_with_len 0 count)) }
{
    let mut nodes = Vec::new(alloc);
    for place in 0..count {
        nodes.push(node_of(alloc, place)?)?;
    }
    Ok(Items::from_vec(nodes))
}

// ---- links

/// The modules of a link.
fn modules_of(alloc: Global, draws: &mut Draws) -> Result<Items<(u64, u64)>, AllocError>
    ensures value { IfOk result (λ modules. modules ≡ sample_modules draws.old.state) }
    ensures next { OnOk result (draws.new.state ≡ next_state (next_state draws.old.state)) }
{
    let small = u64::from(5 + draws.draw(20)) * MILLIONTHS;
    let large = u64::from(15 + draws.draw(40)) * MILLIONTHS;
    let modules = vec![in alloc; (10 * MILLIONTHS, small), (40 * MILLIONTHS, large)]?;
    Ok(Items::from_vec(modules))
}

/// A link of this name between these nodes.
fn link_of(name: Name, source: u32, target: u32, modules: Items<(u64, u64)>) -> LinkRecord
    ensures { result ≡ sample_link name source target modules }
{
    LinkRecord {
        name,
        source: NodeId(source),
        target: NodeId(target),
        pre: 0,
        pre_cost: 0,
        routing: 0,
        setup: 0,
        modules,
    }
}

/// The link of the ring from this node.
fn ring_link_of(
    alloc: Global,
    nodes: u32,
    place: u32,
    draws: &mut Draws,
) -> Result<LinkRecord, AllocError>
    requires { place < nodes }
    ensures value { IfOk result (λ link. link ≡ ring_link nodes draws.old.state place) }
    ensures next { OnOk result (draws.new.state ≡ next_state (next_state draws.old.state)) }
{
    let name = name_of(alloc, b'r', place)?;
    let target = (place + 1) % nodes;
    Ok(link_of(name, place, target, modules_of(alloc, draws)?))
}

/// The chord from this node.
fn chord_of(
    alloc: Global,
    nodes: u32,
    place: u32,
    draws: &mut Draws,
) -> Result<LinkRecord, AllocError>
    requires some { MIN_NODES ≤ nodes }
    requires few { nodes ≤ MAX_NODES }
    requires place { place < nodes }
    ensures value { IfOk result (λ link. link ≡ chord nodes draws.old.state place) }
    ensures next { OnOk result (draws.new.state ≡ next_state (next_state (next_state draws.old.state))) }
{
    let name = name_of(alloc, b'c', place)?;
    let target = (place + 2 + draws.draw(nodes - 3)) % nodes;
    Ok(link_of(name, place, target, modules_of(alloc, draws)?))
}

/// Adds the links of the ring.
#[tactic(auto, using(crate::proofs::Lists::list_steps))]
fn push_ring(
    alloc: Global,
    links: &mut Vec<LinkRecord>,
    nodes: u32,
    draws: &mut Draws,
) -> Result<(), AllocError>
    requires { nodes ≤ MAX_NODES }
    ensures links { OnOk result (links.new.items ≡ links.old.items ++ ring_links draws.old.state nodes) }
    ensures next { OnOk result (draws.new.state ≡ after_ring draws.old.state nodes) }
{
    for place in 0..nodes {
        links.push(ring_link_of(alloc, nodes, place, draws)?)?;
    }
    Ok(())
}

/// Adds the chords.
#[tactic(auto, using(crate::proofs::Lists::list_steps))]
fn push_chords(
    alloc: Global,
    links: &mut Vec<LinkRecord>,
    nodes: u32,
    draws: &mut Draws,
) -> Result<(), AllocError>
    requires some { MIN_NODES ≤ nodes }
    requires few { nodes ≤ MAX_NODES }
    ensures links { OnOk result (links.new.items ≡ links.old.items ++ chords draws.old.state nodes) }
    ensures next { OnOk result (draws.new.state ≡ after_chords draws.old.state nodes) }
{
    for place in 0..nodes / 2 {
        links.push(chord_of(alloc, nodes, place, draws)?)?;
    }
    Ok(())
}

/// The links.
fn links_of(alloc: Global, nodes: u32, draws: &mut Draws) -> Result<Items<LinkRecord>, AllocError>
    requires some { MIN_NODES ≤ nodes }
    requires few { nodes ≤ MAX_NODES }
    ensures links { IfOk result (λ links. links ≡ sample_links draws.old.state nodes) }
    ensures next { OnOk result (draws.new.state ≡ after_chords (after_ring draws.old.state nodes) nodes) }
{
    let mut links = Vec::new(alloc);
    push_ring(alloc, &mut links, nodes, draws)?;
    push_chords(alloc, &mut links, nodes, draws)?;
    Ok(Items::from_vec(links))
}

// ---- demands

/// A demand.
fn demand_of(
    alloc: Global,
    nodes: u32,
    place: u32,
    draws: &mut Draws,
) -> Result<DemandRecord, AllocError>
    requires some { MIN_NODES ≤ nodes }
    requires few { nodes ≤ MAX_NODES }
    ensures value { IfOk result (λ demand. demand ≡ sample_demand nodes draws.old.state place) }
    ensures next { OnOk result (draws.new.state ≡ next_state (next_state (next_state draws.old.state))) }
{
    let source = draws.draw(nodes);
    let target = (source + 1 + draws.draw(nodes - 1)) % nodes;
    let value = u64::from(1 + draws.draw(9)) * MILLIONTHS;
    Ok(DemandRecord {
        name: name_of(alloc, b'k', place)?,
        source: NodeId(source),
        target: NodeId(target),
        unit: 1,
        value,
        hops: None,
    })
}

/// The demands.
#[tactic(auto, using(crate::proofs::Lists::list_steps))]
fn demands_of(
    alloc: Global,
    nodes: u32,
    count: u32,
    draws: &mut Draws,
) -> Result<Items<DemandRecord>, AllocError>
    requires some { MIN_NODES ≤ nodes }
    requires few { nodes ≤ MAX_NODES }
    ensures { IfOk result (λ demands. demands ≡ sample_demands draws.old.state nodes count) }
{
    let mut demands = Vec::new(alloc);
    for place in 0..count {
        demands.push(demand_of(alloc, nodes, place, draws)?)?;
    }
    Ok(Items::from_vec(demands))
}
