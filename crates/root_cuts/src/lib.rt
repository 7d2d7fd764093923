//! The cuts of a search, looked for before it opens: rounds at the whole region, in which cuts that the loads of an ascent
//! violate are found and get rates, and behind them a short search by load splits, whose nodes find more.
//!
//! Promises that the cuts are such that a plan may have them; how good they are no contract tells. Begin at `found_cuts`.
//! Stands on `plan_base`, `link_steps`, `arc_restrict`, `path_pricing`, `column_pool`, `proof_tree`, `cut_values`,
//! `cut_separation`, `master_step`, `completions`, `incumbent` and `leaf_tasks`. What is found is tested here, and rates and
//! prices are the search's own afterwards.
#![tactic(auto)]

mod bounding;
mod designs;
pub mod limits;
mod lists;
mod nodes;
mod rising;
mod rounds;
mod seeker;
mod trying;

pub use seeker::found_cuts;
