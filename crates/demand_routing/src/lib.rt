//! Paths of all demands, what places carry and links cost with them, and one demand that is laid, taken off or moved.
//!
//! Promises that the loads are those of the demands that are laid, and that a demand is moved to a path that raises the
//! step costs least among those within its limit. Begin at `Routing`. Stands on `plan_base`, `link_steps`, `least_path`,
//! `limited_path` and `completions`. Which demand is moved next is left to `incumbent`.
#![tactic(auto)]

mod copies;
mod limits;
mod loads;
mod routing;
mod weights;

pub use copies::{roomy_copies, set_path};
pub use routing::Routing;
