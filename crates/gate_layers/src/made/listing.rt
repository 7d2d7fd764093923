//! All permitted simple paths of a demand, found by listing all walks without a node twice.

ghost use Rattle.std.specs.Prelude.{◌<◌, length};

use crate::searching::Asked;
use plan_base::{ArcId, DemandId, NodeId, Orient, Path};
use std::alloc::AllocError;

/// A walk without a node twice.
#[derive(Clone, Copy)]
pub(crate) struct Walk {
    here: NodeId,
    /// The nodes that it has met, as bits.
    met: u64,
    /// Its arcs, as the digits of a number.
    pub(crate) arcs: u64,
    /// How many arcs it has.
    pub(crate) steps: u32,
    /// In thousandths of a cost grain per load grain.
    pub(crate) price: u128,
}

/// The set of this node alone.
fn bit(node: NodeId) -> u64 {
    1 << (node.0 % 64)
}

/// The number with the arc as one more digit.
fn with_arc(arcs: u64, arc: ArcId) -> u64 {
    arcs.wrapping_mul(32).wrapping_add(u64::from(arc.0) + 1)
}

/// The path's arcs as the digits of a number.
pub(crate) fn arcs_of(path: &Path) -> u64 {
    let mut arcs = 0;
    for arc in path.as_slice() {
        arcs = with_arc(arcs, *arc);
    }
    arcs
}

/// Where the price of the arc stands: one for each arc where links are bidirected, else one for each link.
fn place_of(asked: Asked<'_>, arc: ArcId) -> usize {
    match asked.inst.orient() {
        Orient::Bidirected => arc.0 as usize,
        Orient::Directed | Orient::Undirected => (arc.0 / 2) as usize,
    }
}

/// The walk with the arc, where it is permitted and leads on to a new node.
fn longer(asked: Asked<'_>, demand: DemandId, walk: Walk, arc: ArcId) -> Option<Walk> {
    if !asked.inst.is_arc(arc) || !asked.restriction.allows(demand, arc) {
        return None;
    }
    let head = asked.inst.head(arc);
    if asked.inst.tail(arc) != walk.here || walk.met & bit(head) != 0 {
        return None;
    }
    let price = *asked.prices.as_slice().get(place_of(asked, arc))?;
    Some(Walk {
        here: head,
        met: walk.met | bit(head),
        arcs: with_arc(walk.arcs, arc),
        steps: walk.steps.wrapping_add(1),
        price: walk.price.wrapping_add(price),
    })
}

/// Each of the walks with each arc that leads on.
fn all_longer(asked: Asked<'_>, demand: DemandId, walks: &[Walk]) -> Result<Vec<Walk>, AllocError> {
    let mut all = Vec::new(asked.alloc);
    for walk in walks {
        for number in 0..asked.inst.arcs() {
            if let Some(more) = longer(asked, demand, *walk, ArcId(number)) {
                all.push(more)?;
            }
        }
    }
    Ok(all)
}

/// Adds those of the walks that stand at the node.
fn add_standing(walks: &[Walk], node: NodeId, found: &mut Vec<Walk>) -> Result<(), AllocError> {
    for walk in walks {
        if walk.here == node {
            found.push(*walk)?;
        }
    }
    Ok(())
}

/// All permitted simple paths of the demand.
pub(crate) fn listed(asked: Asked<'_>, demand: DemandId) -> Result<Vec<Walk>, AllocError>
    requires { demand.0 < length asked.inst.now.demands }
{
    let source = asked.inst.demand(demand).source;
    let target = asked.inst.demand(demand).target;
    let begin = Walk {
        here: source,
        met: bit(source),
        arcs: 0,
        steps: 0,
        price: 0,
    };
    let mut walks = vec![in asked.alloc; begin]?;
    let mut found = Vec::new(asked.alloc);
    for _ in 0..asked.inst.nodes() {
        add_standing(&walks, target, &mut found)?;
        walks = all_longer(asked, demand, &walks)?;
    }
    Ok(found)
}
