//! The top call: the words of a command and the texts that they name, to a status and one text.
//!
//! Promises that what `plan` writes is the text of a valid plan of the instance that the texts spell, with the budget
//! that the words give, so that what it claims is so; that exactly the valid plans are accepted; that each
//! other answer has its cause; and that the sink holds exactly the text of the answer. Begin at `run`, whose
//! words are in `specs/Runs.antt`. Stands on `command_words`, which reads the words, on `command_texts`, which reads,
//! refuses and verifies texts, and on the pool; how the search goes is left to `pool_core` and `linear_hub`.
#![tactic(auto)]

mod commands;
pub mod laws;
mod planning;
mod samples;
mod searching;
mod top_call;

pub use command_texts::Status;
pub use searching::search;
pub use top_call::run;
