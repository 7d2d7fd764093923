//! The texts that a command is about: how they come in, what they spell, why they are refused, and what is
//! written of them without a search.
//!
//! A command reads a network and a model, perhaps with a plan; or a plan by itself; or nothing. Promises that the texts
//! of a network stand for an instance within its limits, with a plan where one is named, or that the first cause why not
//! is told; that exactly the valid plans are accepted; that a plan by itself gets its own text; and that a sink holds
//! exactly the text of an answer, or a front of it. Begin at `read_problem`; what is promised is in `specs/Refusals.antt` and
//! `specs/Answers.antt`. Stands on the readers, the verifier and the shelves and sinks; nothing here searches.
#![tactic(auto)]

mod answer;
mod files;
pub mod laws;
mod problem;
mod status;
mod stop;
mod texts;
mod verdict;

pub use answer::{Answer, write_answer};
pub use problem::{Planned, Problem, read_planned, read_problem};
pub use status::Status;
pub use stop::Stop;
pub use verdict::{check, rejection, report, upgrade, verify_plan};
