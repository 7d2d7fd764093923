//! Blocks that are put on decks and taken again, one call after another and by four threads at once.
//!
//! The lines tell what each call of two decks answers, what a worker with one of two decks leaves to the other (`working`),
//! and how many blocks four threads put that put and steal at the same time (`threads`), and whether each is found once.
//! Begin at `tell_turns`, `tell_worked` and `tell_threads`.

mod calls;
mod threads;
mod turns;
mod working;

use std::alloc::Global;
use std::sync::Wait;
use std::thread::Threads;
use threads::tell_threads;
use turns::tell_turns;
use working::tell_worked;

/// Adds what two decks answer, what a worker leaves, and how many blocks the threads put. None where memory is wanting.
pub(crate) fn tell_all<R: Threads + Wait + Sync>(
    rt: &R,
    alloc: Global,
    text: &mut String,
) -> Option<()> {
    tell_turns(rt, alloc, text)?;
    tell_worked(rt, alloc, text)?;
    tell_threads(rt, alloc, text)
}
