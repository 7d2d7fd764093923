//! What a worker does at any hub of a pool: it takes a task, does it while it holds nothing, and hands in the result.
//!
//! Promises that a worker that has memory ends only as its hub says, and that what its calls make of its seat is what the
//! hub promises of each. Begin at `work`, and at `work_blocks` for a worker with a deck; a hub is an `Office`. Stands on
//! `search_machine` for tasks and answers, on `leaf_tasks` for what a task computes, and on `block_deques` for decks. How a call
//! reaches the pool is left to the hubs.
//!
//! - Search: the search that a type names, for what comes out of a hub is known by its type alone.
//! - Office: a hub, as a worker sees it: the calls, and what they make of a seat.
//! - Bench: what a worker keeps from one task to the next.
//! - Ground, told: what a hub answered, once it was tested against the instance.
//! - Tasks, blocks: what a worker does with a task, and with a block of the demands of one version.
#![tactic(auto)]

mod bench;
mod blocks;
mod ground;
mod office;
mod search;
mod tasks;
mod told;
mod working;

pub use blocks::next_block;
pub use office::Office;
pub use search::Search;
pub use working::{work, work_blocks};
