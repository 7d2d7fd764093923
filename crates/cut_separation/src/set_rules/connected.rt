//! The rule of connected sets of nodes with a connected rest.

use crate::limits::MAX_SETS;
use crate::neighbours::Neighbours;
use crate::node_set::NodeSet;
use crate::set_rules::SetRule;
use indexmap::IndexSet;
use plan_base::{Instance, Orient};
use std::alloc::{AllocError, Global};

/// Puts the nodes around each node in, one more link away at a time, up to a number of nodes.
fn grow_layers(
    alloc: Global,
    near: &Neighbours,
    most: u32,
    sets: &mut IndexSet<NodeSet>,
) -> Result<(), AllocError> {
    let mut layers = Vec::new(alloc);
    for node in 0..near.nodes() {
        layers.push(NodeSet::empty().with(node))?;
    }
    for _ in 0..most {
        for number in 0..layers.len() {
            let layer = layers[number];
            if layer.count() <= most && sets.len() < MAX_SETS {
                sets.insert(layer)?;
                layers[number] = layer.or(near.beside(layer));
            }
        }
    }
    Ok(())
}

/// Puts the set in with each node beside it.
fn grow_set(
    near: &Neighbours,
    set: NodeSet,
    most: u32,
    sets: &mut IndexSet<NodeSet>,
) -> Result<(), AllocError> {
    if set.count() >= most || sets.len() >= MAX_SETS {
        return Ok(());
    }
    let beside = near.beside(set);
    for node in 0..near.nodes() {
        if beside.holds(node) && sets.len() < MAX_SETS {
            sets.insert(set.with(node))?;
        }
    }
    Ok(())
}

/// Connected sets of at most half the nodes: all where they are few, else those that are grown first.
fn grown_sets(alloc: Global, near: &Neighbours) -> Result<IndexSet<NodeSet>, AllocError> {
    let mut sets = IndexSet::new(alloc);
    let most = near.nodes() / 2;
    grow_layers(alloc, near, most, &mut sets)?;
    for number in 0..MAX_SETS {
        match sets.get_index(number) {
            Some(set) => {
                let set = *set;
                grow_set(near, set, most, &mut sets)?;
            }
            None => return Ok(sets),
        }
    }
    Ok(sets)
}

/// Whether the rest of the set is connected, and where both have as many nodes, whether the set has the first node.
fn parts_in_two(near: &Neighbours, set: NodeSet, rest: NodeSet) -> bool {
    (set.holds(0) || set.count() != rest.count()) && near.is_connected(rest)
}

/// Connected sets of nodes with a connected rest: all where there are few nodes, else as many as are wanted, grown breadth
/// first. Of a set and its rest both where links have a direction, else the one with fewer nodes.
#[derive(Clone, Copy, Debug)]
pub struct Connected;

impl SetRule for Connected {
    fn sets(&self, alloc: Global, inst: &Instance) -> Result<Vec<NodeSet>, AllocError> {
        let near = Neighbours::of(alloc, inst)?;
        let all = near.all();
        let both = inst.orient() != Orient::Undirected;
        let mut sets = Vec::new(alloc);
        let grown = grown_sets(alloc, &near)?;
        for set in grown.as_slice() {
            let rest = all.without(*set);
            if parts_in_two(&near, *set, rest) {
                sets.push(*set)?;
                if both {
                    sets.push(rest)?;
                }
            }
        }
        Ok(sets)
    }
}
