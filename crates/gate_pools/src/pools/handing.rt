//! Prices and advice that are handed in.

use crate::calling::{first_number, raise_of, tell_answer};
use branch_tree::LoadSplit;
use plan_base::BranchId;
use pool_core::Pool;
use std::alloc::Global;

/// Publishes prices.
pub(crate) fn tell_raised(
    alloc: Global,
    pool: &mut Pool,
    rest: &str,
    text: &mut String,
) -> Option<()> {
    let (node, version, prices) = raise_of(alloc, rest)?;
    tell_answer(pool.publish(node, version, &prices), text)
}

/// Advises by which loads of a place a node is to be divided.
pub(crate) fn take_advice(pool: &mut Pool, rest: &str) -> Option<()> {
    let (node, rest) = first_number(rest)?;
    let (place, load) = first_number(rest)?;
    let load = load.parse::<u64>().ok()?;
    pool.advise(BranchId(node), Some(LoadSplit { place, load }));
    Some(())
}
