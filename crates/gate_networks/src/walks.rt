//! Simple paths, found by listing all walks.

ghost use Rattle.std.specs.Prelude.{◌<◌, length};

use plan_base::{ArcId, DemandId, Instance, NodeId};
use std::alloc::{AllocError, Global};

/// A walk without a node twice. Its nodes and arcs are sets of numbers below 64.
#[derive(Clone, Copy)]
struct Walk {
    here: NodeId,
    nodes: u64,
    arcs: u64,
}

/// The set of this number alone.
fn only(number: u32) -> u64 {
    1 << (number % 64)
}

/// Whether the set of numbers below 64 has this one.
pub fn has(set: u64, number: u32) -> bool {
    set & only(number) != 0
}

/// The walk with the arc, where that leads on to a new node.
fn longer(inst: &Instance, walk: Walk, arc: ArcId) -> Option<Walk> {
    if !inst.is_arc(arc) || inst.tail(arc) != walk.here {
        return None;
    }
    let head = inst.head(arc);
    if has(walk.nodes, head.0) {
        return None;
    }
    Some(Walk {
        here: head,
        nodes: walk.nodes | only(head.0),
        arcs: walk.arcs | only(arc.0),
    })
}

/// Adds the walks that are longer than this one by one arc.
fn extend(inst: &Instance, walk: Walk, all: &mut Vec<Walk>) -> Result<(), AllocError> {
    for number in 0..inst.arcs() {
        if let Some(more) = longer(inst, walk, ArcId(number)) {
            all.push(more)?;
        }
    }
    Ok(())
}

/// Parts walks into those that stand at the target, whose arcs are added to the paths, and all that lead on from the others.
fn go_on(
    alloc: Global,
    inst: &Instance,
    target: NodeId,
    walks: &[Walk],
    paths: &mut Vec<u64>,
) -> Result<Vec<Walk>, AllocError> {
    let mut all = Vec::new(alloc);
    for walk in walks {
        if walk.here == target {
            paths.push(walk.arcs)?;
        } else {
            extend(inst, *walk, &mut all)?;
        }
    }
    Ok(all)
}

/// The simple paths of a demand, each as the set of its arcs, in an instance of fewer than 64 nodes and 32 links.
///
/// - Errors: want of memory alone.
pub fn simple_paths(
    alloc: Global,
    inst: &Instance,
    demand: DemandId,
) -> Result<Vec<u64>, AllocError>
    requires { demand.0 < length inst.now.demands }
{
    let asked = inst.demand(demand);
    let begin = Walk {
        here: asked.source,
        nodes: only(asked.source.0),
        arcs: 0,
    };
    let mut walks = vec![in alloc; begin]?;
    let mut paths = Vec::new(alloc);
    for _ in 0..inst.nodes() {
        walks = go_on(alloc, inst, asked.target, &walks, &mut paths)?;
    }
    Ok(paths)
}
