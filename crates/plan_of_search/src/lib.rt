//! The plan of a search: its tree written down, its best design, and what they claim.
//!
//! Promises that the plan of a search that is done is that of its state, is valid, and fits a plan text. Begin at
//! `into_plan`; the plan of a state stands in `search_machine/specs/PlanOf.antt`, and what a plan is put together from in
//! `specs/PlanParts.antt`. Stands on `plan_base`, `link_steps`, `arc_restrict`, `path_pricing`, `proof_tree`,
//! `cut_values`, `bound_assembly`, `incumbent`, `search_machine`, `search_nodes` and `leaf_tasks`. How the search came there is
//! left to `pool_core`.
#![tactic(auto)]

mod bounds;
mod lows;
mod planning;
mod records;

pub use planning::into_plan;
