//! What is read of a pool: what may be done next, why a call is refused, and what a call that changes the pool needs
//! to know before.
//!
//! Promises that each answer is the one that the machine of `search_machine` gives of the state. Begin at `PoolView`; what
//! the fields of a pool keep stands in `specs/Views.antt`. Stands on `search_machine` for what an event is, `search_nodes` for
//! what is kept of a node, and `leaf_tasks` for what is computed of it. Nothing is changed here: that is left to
//! `pool_core`.
#![tactic(auto)]

mod claims;
mod open_leaves;
mod view;

pub use claims::Claims;
pub use open_leaves::OpenLeaves;
pub use view::PoolView;
pub use view::dividing::TwoPaths;
pub use view::publishing::are_crowd_prices;
