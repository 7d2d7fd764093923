//! The rule of single nodes.

use crate::neighbours::Neighbours;
use crate::node_set::NodeSet;
use crate::set_rules::SetRule;
use plan_base::{Instance, Orient};
use std::alloc::{AllocError, Global};

/// Each node alone, and where links have a direction, all others too.
#[derive(Clone, Copy, Debug)]
pub struct SingleNodes;

impl SetRule for SingleNodes {
    fn sets(&self, alloc: Global, inst: &Instance) -> Result<Vec<NodeSet>, AllocError> {
        let near = Neighbours::of(alloc, inst)?;
        let all = near.all();
        let both = inst.orient() != Orient::Undirected;
        let mut sets = Vec::new(alloc);
        for node in 0..near.nodes() {
            let alone = NodeSet::empty().with(node);
            sets.push(alone)?;
            if both {
                sets.push(all.without(alone))?;
            }
        }
        Ok(sets)
    }
}
