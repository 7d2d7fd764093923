//! Made networks whose links have a capacity for each direction, each searched from its first price to the end.
//!
//! The root's bound must be what all simple paths and all loads of each link tell at the start prices, and what the search
//! finds must cost what trying every choice of simple paths tells (`twin`). Written is how many networks were decided within
//! the budget; an error comes at the first one of which the twin tells otherwise. Begin at `tell_networks`.

mod networks;
mod twin;

use super::working::price_all;
use gate_draws::Draws;
use gate_networks::table_of;
use networks::made_network;
use plan_base::{BranchId, Instance, Items};
use pool_core::Pool;
use std::alloc::Global;
use std::sync::Arc;
use twin::{least_cost, root_bound};

/// How many networks are made.
const NETWORKS: u32 = 100;

/// How many nodes a search may examine.
const BUDGET: u32 = 300;

/// A new pool on the instance.
#[tactic(auto, using(proof_tree::proofs::CutlessPlans::no_cuts))]
fn pool_on(alloc: Global, inst: &Instance) -> Option<Pool> {
    let inst = inst.copy(alloc).ok()?;
    let table = table_of(alloc, &inst)?;
    let inst = Arc::new(alloc, inst).ok()?;
    Pool::new(alloc, inst, table, BUDGET, Items::new(alloc)).ok()
}

/// The bound of the root at the start prices.
fn first_bound(alloc: Global, pool: &mut Pool) -> Option<i128> {
    let opened = pool.open_round(BranchId(0)).ok()?;
    let _answer = price_all(alloc, pool, opened.slot)?;
    pool.bound(BranchId(0))
}

/// Whether the search of a pool to its end finds the least cost, where the budget is not spent before.
fn is_found(alloc: Global, pool: &mut Pool, inst: &Instance) -> Option<bool> {
    pool.finish().ok()?;
    let is_decided = pool.examined() < BUDGET;
    let least = least_cost(alloc, inst)?;
    match (pool.incumbent(), least) {
        (Some(cost), Some(least)) if cost == least || (!is_decided && cost > least) => {
            Some(is_decided)
        }
        (None, None) => Some(is_decided),
        _ => None,
    }
}

/// Whether the search of a new pool on an instance is decided. None where the twin tells otherwise, and where memory is
/// wanting.
fn is_decided_on(alloc: Global, pool: &mut Pool, inst: &Instance) -> Option<bool> {
    let prices = pool.table().steps().start_prices(alloc).ok()?;
    if first_bound(alloc, pool) != Some(root_bound(alloc, inst, prices.as_slice())?) {
        return None;
    }
    is_found(alloc, pool, inst)
}

/// Whether the next network is decided. None where the twin tells otherwise, and where memory is wanting.
fn next_is_decided(alloc: Global, draws: &mut Draws) -> Option<bool> {
    let inst = made_network(alloc, draws)?;
    let mut pool = pool_on(alloc, &inst)?;
    is_decided_on(alloc, &mut pool, &inst)
}

/// Adds how many made networks were decided, or the first of which the twin tells otherwise.
pub(crate) fn tell_networks(alloc: Global, text: &mut String) -> Option<()> {
    let mut draws = Draws::begin(1);
    let mut decided: u32 = 0;
    for number in 0..NETWORKS {
        match next_is_decided(alloc, &mut draws) {
            Some(true) => decided = decided.saturating_add(1),
            Some(false) => {}
            None => return write!(text, " network {number} differs").ok(),
        }
    }
    write!(text, " {NETWORKS} networks, {decided} decided").ok()
}
