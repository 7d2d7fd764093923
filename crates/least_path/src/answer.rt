//! What a search finds.

use plan_base::{Items, Path};

/// A path of least weight, or the nodes that are reached where there is none.
#[derive(Debug, Drop)]
pub enum Search {
    /// The sum of the path's weights, and one potential for each node: 0 at the source, the length at
    /// the target, and along each usable arc it rises by at most the arc's weight.
    Path {
        path: Path,
        length: u128,
        potentials: Items<u128>,
    },
    /// For each node whether usable arcs lead to it from the source. The target is not among them.
    NoPath {
        reached: Items<bool>,
    },
}
