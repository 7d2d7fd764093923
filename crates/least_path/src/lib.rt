//! A path of least weight between two nodes of an instance, with one weight for each arc.
//!
//! Promises a simple path of usable arcs that no other undercuts, with a potential for each node that shows it; or, exactly
//! where there is no such path, the set of nodes that are reached. Begin at `search`; the words of its contract are in
//! `specs/Paths.antt`. `Tree` has such paths from one node to all others, with words in `specs/Trees.antt`. Stands on
//! `plan_base`. What weights mean, and which arcs may be used, is left to the caller.
#![tactic(auto)]

mod answer;
mod label;
pub mod limits;
mod queue;
mod room;
mod spread;
mod tree;
mod walk;
mod way;
mod weigher;
mod weights;

pub use answer::Search;
pub use room::Room;
pub use spread::search;
pub use tree::Tree;
pub use walk::search_slow;
pub use weigher::{Listed, Weigher};
pub use weights::are_weights;
