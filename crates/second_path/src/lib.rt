//! Whether a restriction leaves a demand no path, one path, or more.
//!
//! Promises another permitted path of a demand, or that there is none, and for all demands together
//! the first without a path, the first with two, or the only path of each. Begin at `second` and
//! `determine`, whose words are in `specs/Others.antt`. Stands on `plan_base` and `arc_restrict`.
//! No path is preferred to another: prices are left to the crates above.
#![tactic(auto)]

mod determined;
mod determining;
mod others;
mod route;
mod search;
mod ways;

pub use determined::Determined;
pub use determining::{determine, determine_among};
pub use others::second;
