//! A pool and the writer of a board, in one hand.
//!
//! Promises that each call is one event of the machine, or changes nothing where it only tells something; and that an
//! opening and a publishing stand on the board, in a table of their own, before the call ends. Begin at `Desk`. Stands on
//! `pool_core` for what a call does, on `dual_versions` for the board, and on `search_worker` for the name of a search. Who has
//! the desk at a time is left to the hubs above: one keeps it behind a lock, another may hand it on by turns.
#![tactic(auto)]

mod desk;
mod shared;

pub use desk::Desk;
