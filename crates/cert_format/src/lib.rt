//! Plan texts: one spelling for each plan and version, written and read.
//!
//! Promises that `write_plan` writes the one text of a plan in the third version where it has a cut or a load split,
//! else in the second, and that `read_plan` answers a plan exactly where the text spells it in one of the three
//! versions, and else the first line that cannot stand where it stands. Begin at `read_plan`. `specs/Grammar.antt` has
//! the text of a plan, `specs/Versions.antt` which cuts and records each version has a line for, `specs/Lists.antt`
//! price lists and their numbers, `specs/Drafts.antt` which lines can stand. Stands on `plan_tokens`, `proof_tree`,
//! `plan_base` and `scaled_numbers`. Whether a plan is valid is left to the crates above.
#![tactic(auto)]

mod bodies;
mod evidence;
mod fault;
mod form;
pub mod laws;
pub mod limits;
mod lines;
mod lists;
mod load_cuts;
mod node_sets;
mod numbering;
mod reading;
mod records;
mod writing;

pub use fault::PlanFault;
pub use form::Form;
pub use reading::read_plan;
pub use writing::write_plan;
