//! The search as a machine over events: what a state is, from which state an event leads where, and what holds of each
//! state that events lead to.
//!
//! Promises the laws of `src/laws.rt`: each state that any events lead to is sound, and the tree of a sound state is a
//! valid proof tree with the state's cuts. Begin at `specs/State.antt` and `specs/Machine.antt`; each event has a file of
//! its own (`Opening`, `Offering`, `Gathering`, `Publishing`, `Settling`, `Closing`, `Examining`, `Bettering`), and what
//! is sound stands in `specs/Soundness.antt`. There is no code but the types that states, calls and answers are made of.
//! Stands on `plan_base`, `link_steps`, `arc_restrict`, `path_pricing`, `column_pool`, `proof_tree`, `cut_values`,
//! `master_step` and `branch_tree`. The calls themselves are left to `pool_core`.
#![tactic(auto)]

mod answers;
pub mod laws;
pub mod limits;
mod shared;
mod task;
mod tree;

pub use answers::{
    Better, Closing, ExamineFault, Examined, Gather, NodeState, Offer, Offered, Opened, Publish,
    RoundFault, Settle,
};
pub use branch_tree::Fate;
pub use task::Task;
pub use tree::{Found, HeldCut, Incumbent};
