//! Where the marks of a network stand in a picture: its nodes, its links and their names.
//!
//! Promises a look for each node and each link, and nothing of where that is. Nodes stand at their coordinates or on a
//! circle, and names where they cover least. Begin at `looks_of`. Stands on `plan_base`; texts and plans are left to
//! the crates above.
#![tactic(auto)]

mod canvas;
mod looks;
mod placing;
mod ring;

pub use looks::{Coordinates, LinkLook, Looks, NodeLook, Site, Span, Spot, UNUSED_WIDTH};
pub use placing::looks_of;
