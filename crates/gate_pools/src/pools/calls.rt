//! Calls about a node alone, or a node and a version.

use crate::calling::{node_of, round_of, tell_answer, tell_gathered};
use pool_core::Pool;

/// Gathers the paths of a complete version.
fn tell_taken(pool: &mut Pool, rest: &str, text: &mut String) -> Option<()> {
    let (node, version) = round_of(rest)?;
    tell_gathered(pool.gather(node, version).ok()?, text)
}

/// Settles a version.
fn tell_settled(pool: &mut Pool, rest: &str, text: &mut String) -> Option<()> {
    let (node, version) = round_of(rest)?;
    tell_answer(pool.settle(node, version), text)
}

/// Makes the call of this kind, and adds the answer.
pub(crate) fn tell_step(pool: &mut Pool, kind: &str, rest: &str, text: &mut String) -> Option<()> {
    match kind {
        "open" => tell_answer(pool.open_round(node_of(rest)?), text),
        "close" => tell_answer(pool.close_by_bound(node_of(rest)?), text),
        "examine" => tell_answer(pool.examine(node_of(rest)?), text),
        "gather" => tell_taken(pool, rest, text),
        "settle" => tell_settled(pool, rest, text),
        "task" => tell_answer(pool.next_task(0), text),
        _ => None,
    }
}
