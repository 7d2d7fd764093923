//! Tables of valid plans: comma-separated values by the names of the network.
//!
//! Promises that the tables of a plan are exactly these: what it claims with its cost, its bound rounded up to a multiple of
//! the unit of costs, and the gap between them; for each link what is installed, what it carries, how much of it is used
//! and what it costs; for each demand its path; and of a plan that says that there is no design, what each leaf of its tree
//! names, and which places may not carry all loads there. Begin at `table_text`, whose words are in `specs/Tables.antt`.
//! Stands on `plan_report` and what is below it; nothing here reads a text.
#![tactic(auto)]

mod claims;
mod demands;
mod evidence;
mod fields;
pub mod laws;
mod links;
mod ranges;
mod rows;
mod tables;

pub use tables::table_text;
