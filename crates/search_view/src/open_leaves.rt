//! Which nodes are open leaves, so that a choice among them looks at no other node. No contract rests on it, and it is no
//! part of the state of a search.

use plan_base::BranchId;
use std::alloc::{AllocError, Global};

/// The open leaves, in the order of their making.
#[derive(Drop)]
pub struct OpenLeaves {
    nodes: Vec<BranchId>,
}

impl OpenLeaves {
    /// The root alone.
    ///
    /// - Errors: want of memory alone.
    pub fn root(alloc: Global) -> Result<OpenLeaves, AllocError> {
        Ok(OpenLeaves {
            nodes: vec![in alloc; BranchId(0)]?,
        })
    }

    /// The leaves.
    pub fn nodes(&self) -> &[BranchId] {
        self.nodes.as_slice()
    }

    /// Adds the children of a node.
    ///
    /// - Errors: want of memory alone.
    pub fn add(&mut self, left: BranchId, right: BranchId) -> Result<(), AllocError> {
        self.nodes.push(left)?;
        self.nodes.push(right)?;
        Ok(())
    }

    /// Removes a node that is closed or divided.
    ///
    /// - Time: linear in the open leaves.
    pub fn remove(&mut self, node: BranchId) {
        for place in 0..self.nodes.len() {
            if self.nodes[place] == node {
                let _removed = self.nodes.remove(place);
                return;
            }
        }
    }
}
