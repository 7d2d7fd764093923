//! Lists that public types hold, and the nodes that a walk has met.
//!
//! Promises that an `Items` is a list, and that a `MetNodes` tells exactly the nodes that it was given since its walk
//! began. Begin at `Items::from_vec` and `MetNodes::begin`, whose words are in `specs/Met.antt`. Stands on std alone.
//! What the items and the nodes are is left to the crates above.
#![tactic(auto)]

mod items;
mod met_nodes;
mod shared;

pub use items::Items;
pub use met_nodes::{MetNodes, NODE_BOUND};
