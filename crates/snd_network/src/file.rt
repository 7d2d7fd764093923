//! What a network text holds, number by number as it is written.

use plan_base::{Items, NodeId};
use snd_reader::Name;

/// A node.
#[derive(Debug, Drop)]
pub struct NodeRecord {
    pub name: Name,
    /// The words of its two coordinates, as they are written, where it has them.
    pub place: Option<(Name, Name)>,
}

/// A link. Loads are in load grains (millionths of a unit of load), and costs in millionths of a unit of cost.
#[derive(Debug, Drop)]
pub struct LinkRecord {
    pub name: Name,
    pub source: NodeId,
    pub target: NodeId,
    /// The pre-installed capacity, in load grains.
    pub pre: u64,
    /// What the pre-installed capacity costs, in millionths of a unit of cost.
    pub pre_cost: u64,
    /// What routing one unit of load costs, in millionths of a unit of cost.
    pub routing: u64,
    /// What setting the link up costs, in millionths of a unit of cost.
    pub setup: u64,
    /// The capacity of each module in load grains, and its cost in millionths of a unit of cost.
    pub modules: Items<(u64, u64)>,
}

/// A demand. Its load is its value times its routing unit.
#[derive(Debug, Drop)]
pub struct DemandRecord {
    pub name: Name,
    pub source: NodeId,
    pub target: NodeId,
    /// The routing unit, a whole number.
    pub unit: u64,
    /// The value, in millionths.
    pub value: u64,
    /// The most links that its path may have, or `None` for `UNLIMITED`.
    pub hops: Option<u64>,
}

/// A network. The number of a node, link or demand is its place in its section, from 0 on.
#[derive(Debug, Drop)]
pub struct NetworkFile {
    pub nodes: Items<NodeRecord>,
    pub links: Items<LinkRecord>,
    pub demands: Items<DemandRecord>,
}
