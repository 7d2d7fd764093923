//! A value that many callers use in turn, each alone, and the one history of all their calls.
//!
//! Promises that each call finds the value where a history leads that begins with all that the caller had seen, and that
//! this history has of the caller's own calls just those that it made, each once and in their order. Where a history leads
//! the user of this crate says. Begin at `Turns`; clauses speak of passes by the words of `specs/Passes.antt`, the rule
//! that all passes keep is in `specs/Rules.antt`, what each step tells in `specs/Steps.antt`. Stands on `atomic_table`, and
//! on `crossbeam_utils` for waiting. That a wait ends, and in which order callers come, no contract says.
//!
//! - Value: what the callers share. It lies in the one slot of the table, or it is out, with the caller whose turn it is.
//! - Caller: who makes calls. It has a number, from 0, and a pass.
//! - Pass: a seat of the table. It takes no bytes, and carries in the proofs what its owner knows: its view.
//! - Ticket: a number that is drawn once. Tickets are served in the order of their numbers.
//! - Turn: from when a caller's ticket is served until it serves the next one.
//! - Call: what a caller does in its turn, with what it was answered. An entry is a call with its caller's number and how
//!   many calls that caller made before.
//! - History: the entries of all turns, in their order. It exists in the proofs alone.
//! - To lead: a history leads to a value where its calls, one after another, can have made it.
//! - Maker: the pass from which those of the callers are split off.
//! - Guest: a pass that makes no calls, and carries what another one has seen.
#![tactic(auto)]

mod laws;
mod limits;
mod meaning;
mod plays;
mod shared;
mod turns;
mod view;

pub use laws::calls_are_added;
pub use limits::{MAX_CALLERS, MAX_CALLS};
pub use meaning::{Meaning, Said};
pub use turns::{Pass, Turns};
pub use view::{Entry, Role, Stage, View};
