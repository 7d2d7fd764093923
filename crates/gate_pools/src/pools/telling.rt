//! What the pool tells without an event.

use crate::calling::{node_of, tell_published, tell_restriction};
use pool_core::Pool;

/// Adds what a node is, its bound, the prices that it begins with where it waits, and what is forbidden where it is an
/// open leaf.
pub(crate) fn tell_node(pool: &Pool, rest: &str, text: &mut String) -> Option<()> {
    let node = node_of(rest)?;
    write!(text, " {:?} bound {:?}", pool.state(node), pool.bound(node)).ok()?;
    if let Some(prices) = pool.first_prices(node) {
        write!(text, " first {:?}", prices.as_slice()).ok()?;
    }
    match pool.restriction(node) {
        Some(rows) => {
            let inst = pool.instance();
            tell_restriction(inst.demands(), inst.arcs(), &**rows, text)
        }
        None => Some(()),
    }
}

/// Adds the node, the version and the prices of the round in a slot.
pub(crate) fn tell_slot(pool: &Pool, rest: &str, text: &mut String) -> Option<()> {
    let slot = rest.parse::<u32>().ok()?;
    tell_published(pool.prices(slot).ok()?, text)
}

/// Adds how many nodes were examined, the cost of the best design, and whether the search is done.
pub(crate) fn tell_progress(pool: &Pool, text: &mut String) -> Option<()> {
    write!(
        text,
        " examined {} best {:?} done {}",
        pool.examined(),
        pool.incumbent(),
        pool.is_done()
    )
    .ok()
}

/// Adds how many paths were accepted, and how far the search is.
pub(crate) fn tell_counts(pool: &Pool, text: &mut String) -> Option<()> {
    write!(text, " accepted {}", pool.accepted()).ok()?;
    tell_progress(pool, text)
}
