//! Which nodes a link joins, whichever way it goes.

ghost use Rattle.std.specs.Prelude.{◌<◌, ◌≤◌};

use crate::node_set::{NODE_BOUND, NodeSet};
use plan_base::{Instance, LinkId};
use std::alloc::{AllocError, Global};

/// For each node those that a link joins to it.
#[derive(Debug, Drop)]
pub(crate) struct Neighbours {
    near: Vec<NodeSet>,
    nodes: u32,
}

impl Neighbours {
    /// Those of an instance.
    pub(crate) fn of(alloc: Global, inst: &Instance) -> Result<Neighbours, AllocError> {
        let mut near = vec![in alloc; NodeSet::empty(); inst.nodes() as usize]?;
        for number in 0..inst.links() {
            let link = inst.link(LinkId(number));
            join(&mut near, link.source.0, link.target.0);
            join(&mut near, link.target.0, link.source.0);
        }
        Ok(Neighbours {
            near,
            nodes: inst.nodes(),
        })
    }

    /// How many nodes there are.
    pub(crate) fn nodes(&self) -> u32
        ensures { result ≤ NODE_BOUND }
    {
        self.nodes.min(NODE_BOUND)
    }

    /// All nodes.
    pub(crate) fn all(&self) -> NodeSet {
        let mut all = NodeSet::empty();
        for node in 0..self.nodes() {
            all = all.with(node);
        }
        all
    }

    /// Those of a node.
    fn of_node(&self, node: u32) -> NodeSet {
        match self.near.get(node as usize) {
            Some(near) => *near,
            None => NodeSet::empty(),
        }
    }

    /// The nodes of a set that are reached within it from one of them.
    fn reached(&self, from: u32, within: NodeSet) -> NodeSet
        requires { from < NODE_BOUND }
    {
        let mut reached = NodeSet::empty();
        let mut waiting = reached.with(from);
        for _ in 0..self.nodes() {
            match waiting.first() {
                Some(node) => {
                    reached = reached.with(node);
                    waiting = waiting.or(self.of_node(node).and(within)).without(reached);
                }
                None => return reached,
            }
        }
        reached
    }

    /// Whether the set has nodes, and each is reached within it from each.
    pub(crate) fn is_connected(&self, set: NodeSet) -> bool {
        match set.first() {
            Some(node) => self.reached(node, set) == set,
            None => false,
        }
    }

    /// The nodes outside the set that a link joins to one inside.
    pub(crate) fn beside(&self, set: NodeSet) -> NodeSet {
        let mut beside = NodeSet::empty();
        for node in 0..self.nodes() {
            if set.holds(node) {
                beside = beside.or(self.of_node(node));
            }
        }
        beside.without(set)
    }
}

/// Puts the one node among the neighbours of the other.
fn join(near: &mut Vec<NodeSet>, node: u32, other: u32)
    requires { other < NODE_BOUND }
{
    if (node as usize) < near.len() {
        near[node as usize] = near[node as usize].with(other);
    }
}
