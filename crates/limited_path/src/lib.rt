//! A path of least weight among those of at most so many arcs, with one weight for each arc.
//!
//! Promises a simple path of usable arcs, at most so many, that no other such path undercuts; or nothing, exactly where
//! there is no such path. Begin at `search_within`; the words of its contract are in `specs/Within.antt`. `Room` searches
//! again and again in the same memory. Stands on `plan_base` and the words of `least_path`, which has the search without
//! a limit. What weights mean, which arcs may be used, and which limits are asked for, is left to the caller.
#![tactic(auto)]

mod label;
mod room;
mod rounds;
mod searching;
mod way;
mod ways;

pub use room::Room;
pub use searching::{Way, search_within};
