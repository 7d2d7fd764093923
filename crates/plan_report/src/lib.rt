//! The lines that the program writes, apart from plans.
//!
//! Promises that each line is exactly that of its case, byte for byte: the line of a fault says which
//! text, rule and place; the line of a network says its counts, its load and the steps of all its
//! links; the line of a verdict says what an accepted plan claims, or which rule a rejected one breaks; a
//! report tells a plan's design by the names of the network; the line of a trial says what its plan claims.
//! Begin at `fault_line`; the lines are defined in `specs/Lines.antt`, `specs/Verdicts.antt` and
//! `specs/Reports.antt`. Stands on the types of the crates whose answers it tells.
#![tactic(auto)]

mod check_lines;
mod fault_lines;
mod named_design;
mod named_plan;
mod names;
mod numbers;
mod reports;
mod run_fault;
mod trial_lines;
mod verdict_lines;

pub use check_lines::{LOAD_SCALE, check_line};
pub use fault_lines::fault_line;
pub use named_design::NamedDesign;
pub use named_plan::NamedPlan;
pub use names::{demand_name, link_name, node_name};
pub use numbers::{push_number, push_numbers};
pub use reports::{push_way, report_text};
pub use run_fault::{FileKind, RunFault};
pub use trial_lines::trial_line;
pub use verdict_lines::{COST_SCALE, push_signed, status_word, verdict_line};
