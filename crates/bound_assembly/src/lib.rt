//! The bound of one version of prices and rates of cuts, put together from the lengths of the demands.
//!
//! Promises that a `Round` keeps each length that is put, and that its `bound` over a region's ranges is the bound of that
//! region where each length is the least price of its demand there. Begin at `Round`, whose words are in
//! `specs/Rounds.antt` and `specs/RoundBounds.antt`; that its bound is a region's is the law `laws::least_lengths`. Stands on
//! `plan_base`, `scaled_numbers`, `link_steps`, `arc_restrict`, `proof_tree` and `cut_values`. Finding the lengths, and
//! choosing the prices and rates, is left to the crates above.
#![tactic(auto)]

mod crowds;
pub mod laws;
pub mod limits;
mod round;
mod shared;
mod totals;

pub use crowds::is_crowded;
pub use round::Round;
pub use totals::total_of;
