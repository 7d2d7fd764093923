//! A pool that workers use in turn, each alone, whose calls all stand in one legal history.
//!
//! Promises that each call has the answer of the last entry of a history of events and readings of the machine, legal from
//! the state that was handed in; that this history begins with all that the seat had seen, and has of the seat's calls just
//! those that it made, each once and in their order; and that an ended hub gives a pool to whose state such a history leads
//! that begins with all that each seat had seen. A worker that has memory ends only where its last call was told that
//! nothing is left to do, or where it may make no further call, and none of its calls reads prices, which it knows from the
//! board alone. Begin at `LinearHub`, `work_blocks` and `search`; the calls and where each may lead are in
//! `specs/Calls.antt`, what clauses say of seats in `specs/Seats.antt`, and of workers in `specs/Works.antt`. Stands on
//! `ticket_turns` for the turns, on `pool_desk` for what a call does, on `search_worker` for what a worker does, and on
//! `block_deques` for the demands that workers steal from each other. In which order seats come, who steals what, and that a
//! wait ends, no contract says.
#![tactic(auto)]

mod calls;
mod hub;
mod making;
mod naming;
mod running;
mod shared;
mod workers;
mod working;

pub use hub::{LinearHub, LinearSeat};
pub use naming::{Naming, Of, Spoken};
pub use running::search;
pub use working::{work_blocks, work_linear};
