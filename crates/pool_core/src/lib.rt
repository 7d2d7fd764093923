//! The pool of a branch-and-bound search: a state of the machine, and the calls that lead from one to the next.
//!
//! Promises that each call is one event of the machine of `search_machine`, with its exact answer, that `finish` ends with
//! nothing left to do, and that `into_plan` gives a valid plan of the state. Begin at `Pool` and `Pool::finish`. Stands on
//! `search_machine` for what an event is, `search_nodes` for what becomes of a node, `search_view` for what the pool's fields
//! keep and for all that is only read of them, `leaf_tasks` for prices that follow, and `plan_of_search` for the plan. Who
//! makes which call, and when, is left to the callers: any order is right.
#![tactic(auto)]

pub mod limits;
mod pool;
mod shared;

pub use pool::Pool;
pub use pool::following::Following;
pub use search_machine::{
    Better, Closing, ExamineFault, Examined, Fate, Found, Gather, HeldCut, Incumbent, NodeState,
    Offer, Offered, Opened, Publish, RoundFault, Settle, Task, laws,
};
