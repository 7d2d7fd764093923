//! What may be done next.

use plan_base::{BranchId, DemandId};

/// A call on the pool that would not be refused now.
#[derive(Clone, Copy, Debug, PartialEq, Eq)]
pub enum Task {
    /// Open a round for a node that waits.
    Open {
        /// The node.
        node: BranchId,
    },
    /// Price a demand under the version of a round, and offer what is found.
    Price {
        /// The node.
        node: BranchId,
        /// The slot of its round.
        slot: u32,
        /// The version of its round.
        version: u64,
        /// The demand.
        demand: DemandId,
    },
    /// Gather the columns of a node whose version is complete, and publish further prices or settle the node.
    Master {
        /// The node.
        node: BranchId,
        /// The version.
        version: u64,
    },
    /// Close a node by its bound.
    Close {
        /// The node.
        node: BranchId,
    },
    /// Examine a node.
    Examine {
        /// The node.
        node: BranchId,
    },
    /// Nothing is left to do.
    Done,
}
