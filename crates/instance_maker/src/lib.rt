//! Networks that are made from numbers, and what a trial plans.
//!
//! Promises which network belongs to a number, a count of nodes and a count of demands, that a text can hold it,
//! and that it stands for an instance within its limits. Begin at `sample`, whose words are in
//! `specs/Samples.antt`; the draws are in `specs/Draws.antt`, and what a trial plans in `specs/Trials.antt`.
//! Stands on `snd_network`, `snd_model`, `model_check` and `link_steps`. Writing the network as a text is left to
//! `snd_network`, and planning it to the crates above.
#![tactic(auto)]

mod draws;
pub mod laws;
pub mod limits;
mod sampling;
mod trials;

pub use sampling::sample;
pub use trials::{Problem, TRIAL_BUDGET, sample_problem, trial_model};
