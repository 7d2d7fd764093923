//! Where cuts come from: sets of nodes, which grains of their loads are counted, and which of them loads violate.
//!
//! Promises of a list of cuts that a plan may have, and that `CutSearch::extend` gets, that it stays one: all that it has stays
//! where it is, and behind it come at most so many others. No proof has to trust how cuts are found, and no clause tells how
//! good they are. Begin at `CutSearch::new` and `CutSearch::extend`; which sets and countings are tried is a rule of `set_rules`
//! and of `counting_rules`, and how many is in `limits`.
//! Stands on `plan_base`, `link_steps`, `proof_tree` and `cut_values`. Which loads are looked at, and what rates the cuts get,
//! is left to the crates above.
#![tactic(auto)]

mod counting;
pub mod counting_rules;
pub mod limits;
mod neighbours;
mod node_set;
mod search;
pub mod set_rules;
mod shared;
mod side;
mod sightings;

pub use counting::{Counting, Crossing};
pub use node_set::{NODE_BOUND, NodeSet};
pub use search::CutSearch;
