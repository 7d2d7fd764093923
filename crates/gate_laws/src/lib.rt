//! Laws that stand beside the crates: their limits as plain numbers, and what their lemmas show.
//!
//! Definitions name the constants of the code. Here each limit stands as a literal, so that a constant which is changed is
//! refused, whatever else would still be proved; and some laws say in public what lemmas of crates below show. They stand
//! here since a law that is added to a low crate has all crates above it proved anew. Begin at `sizes_of_instances`.
//! Nothing stands on this crate.
#![tactic(auto)]

mod instances;
mod plans;
mod readings;
mod samples;
mod searches;
mod texts;

pub use instances::{
    amounts_of_instances, built_or_refused, choices_of_links, sizes_of_instances, sizes_of_worths,
    steps_of_links,
};
pub use plans::{numbers_of_designs, sizes_of_cuts, sizes_of_plans};
pub use readings::{model_or_fault, network_or_fault, plan_or_fault};
pub use samples::{nodes_of_trials, numbers_of_draws, sizes_of_samples};
pub use searches::{
    counts_of_parts, counts_of_turns, counts_of_workers, each_step, sizes_of_paths,
    sizes_of_searches, trials_of_steps,
};
pub use texts::{lengths_of_texts, scales_of_lines};
