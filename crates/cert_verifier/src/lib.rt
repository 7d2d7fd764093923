//! The verifier of plans: it accepts exactly the valid ones, whoever made them.
//!
//! Promises that a plan that is accepted is valid and that its claim holds, and that of another the first rule that it
//! breaks is told. Begin at `verify`; what a valid plan is stands in `proof_tree`, and the rules in their order in
//! `specs/PlanRules.antt`, `specs/RecordRules.antt`, `specs/SplitRules.antt` and `specs/LeafRules.antt`. Stands on
//! `plan_base`, `link_steps`, `arc_restrict` and `proof_tree`, and on `verifier_paths` for least prices and only paths.
//! How a plan is found is left to other crates.
#![tactic(auto)]

mod bounds;
mod claims;
pub mod laws;
mod leaves;
mod rejected;
mod splits;
mod verifying;
mod walk;

pub use rejected::Rejected;
pub use verifying::verify;
