//! The verifier alone, which searches nothing.
//!
//! Promises that a run of the verifier ends with the verdict on the plan that its words name, that exactly the valid
//! plans are accepted, that each other answer has its cause, and that the sink holds exactly the text of the answer.
//! Begin at `verify_run`, whose words are in `specs/VerifyRuns.antt`. Stands on `run_ends`, which says how any run of
//! a program about named texts ends, and on `command_texts`; nothing here searches.
#![tactic(auto)]

mod verifying;

pub use command_texts::Status;
pub use verifying::verify_run;
