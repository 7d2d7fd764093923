//! The cheapest design for given paths, or the first link that cannot carry them.
//!
//! Promises the least cost of the paths with a design that has it. Begin at `complete`; its words are in
//! `specs/Completions.antt`. Stands on `plan_base` and `link_steps`. Which paths to take is left to `incumbent`.
#![tactic(auto)]

mod completing;

pub use completing::{LINK_COST_BOUND, complete, outside_link, overfull_link, routing_cost};
