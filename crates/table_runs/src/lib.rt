//! Tables of plans, from words to a status and one text.
//!
//! Promises that a run tells exactly the plans that are valid, and refuses as the verifier does. Begin at `table_run`,
//! whose words are in `specs/TableRuns.antt`. Stands on `verify_runs` and `plan_table`; nothing here searches.
#![tactic(auto)]

mod running;

pub use command_texts::Status;
pub use running::table_run;
