//! The words of a command line, and the command that they ask for.
//!
//! Promises that a command is read exactly where the words spell one, with the names and the numbers that they give.
//! Begin at `command_in`; what the words spell is in `specs/Words.antt`. Stands on `option_words`, which has them read by
//! clap. Knows nothing of texts, and runs nothing.
#![tactic(auto)]

mod command;
pub mod laws;

pub use command::{Command, NetworkWork, PlanWork, SampleKey, SampleWork, command_in};
