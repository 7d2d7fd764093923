//! Least prices of paths that have at most so many arcs, and the fewest arcs that a path may have.
//!
//! Promises a permitted path of the demand within the limit that no other such path undercuts; or, exactly where there is
//! none, the fewest arcs of any permitted path. Begin at `least_within`, whose words are in `specs/Within.antt`. Stands on
//! `plan_base`, `arc_restrict`, the search without a limit of `path_pricing`, and the search within one of `limited_path`.
//! Which demands have a limit is left to the crates above.
#![tactic(auto)]

mod counting;
pub mod laws;
mod searching;
mod shared;
mod within;

pub use counting::fewest;
pub use searching::least_within;
pub use within::Within;
