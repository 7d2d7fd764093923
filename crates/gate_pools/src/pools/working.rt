//! Tasks that are done one after the other.

use super::telling::tell_progress;
use crate::calling::{first_number, tell_answer};
use column_pool::Brief;
use dual_versions::Published;
use master_step::{NodeMaster, Step, advance};
use path_pricing::{Priced, price};
use plan_base::{BranchId, DemandId, Prices};
use pool_core::{Closing, Examined, Gather, Offer, Offered, Pool, Publish, Settle, Task};
use std::alloc::Global;

/// What is found for a demand at these prices under its node's restriction.
#[tactic(auto, using(search_worker::proofs::NumberPrices::numbers_priced))]
fn found_at(alloc: Global, pool: &Pool, published: &Published, demand: DemandId) -> Option<Priced> {
    let inst = pool.instance();
    let rows = pool.restriction(published.node)?;
    let prices = &published.prices;
    if demand.0 >= inst.demands() || !pool.table().are_numbers(prices) {
        return None;
    }
    price(alloc, &**inst, prices, demand, &**rows).ok()
}

/// Prices a demand at these prices, and offers what is found.
fn price_demand(
    alloc: Global,
    pool: &mut Pool,
    published: &Published,
    demand: DemandId,
) -> Option<Offered> {
    let found = found_at(alloc, pool, published, demand)?;
    Some(pool.offer(Offer {
        node: published.node,
        version: published.version,
        demand,
        found,
    }))
}

/// Prices all demands at the prices of the round in a slot, and tells the last answer.
pub(crate) fn price_all(alloc: Global, pool: &mut Pool, slot: u32) -> Option<Option<Offered>> {
    let published = pool.prices(slot).ok()??;
    let demands = pool.instance().demands();
    let mut answer = None;
    for demand in 0..demands {
        answer = Some(price_demand(alloc, pool, &published, DemandId(demand))?);
    }
    Some(answer)
}

/// Prices all demands at the prices of the round in a slot, and adds the last answer.
pub(crate) fn tell_priced(
    alloc: Global,
    pool: &mut Pool,
    rest: &str,
    text: &mut String,
) -> Option<()> {
    let slot = rest.parse::<u32>().ok()?;
    tell_answer(price_all(alloc, pool, slot)?, text)
}

/// Opens a node's round, prices all demands, settles the node and examines it.
fn divide(alloc: Global, pool: &mut Pool, node: BranchId) -> Option<Examined> {
    let opened = pool.open_round(node).ok()?;
    let _answer = price_all(alloc, pool, opened.slot)?;
    let _gathered = pool.gather(node, opened.version).ok()?;
    if pool.settle(node, opened.version) != Settle::Done {
        return None;
    }
    pool.examine(node).ok()
}

/// Divides the nodes from one to another, and adds the last answer.
pub(crate) fn tell_divided(
    alloc: Global,
    pool: &mut Pool,
    rest: &str,
    text: &mut String,
) -> Option<()> {
    let (first, last) = first_number(rest)?;
    let last = last.parse::<u32>().ok()?;
    let mut answer = Examined::Cut;
    for node in first..=last {
        answer = divide(alloc, pool, BranchId(node))?;
        if !matches!(answer, Examined::Divided { .. }) {
            return None;
        }
    }
    tell_answer(answer, text)
}

/// The prices that a master step raises those of a complete version to.
fn raised(alloc: Global, pool: &Pool, brief: &Brief) -> Option<Option<Prices>> {
    let (inst, table) = (&**pool.instance(), &**pool.table());
    if !brief.fits(inst, table) {
        return None;
    }
    match advance(alloc, &NodeMaster { table, brief }).ok()? {
        Step::Raised { prices, .. } => Some(Some(prices)),
        _ => Some(None),
    }
}

/// Goes on with a complete version: what a master step raises its prices to is published, or the node is settled. None
/// where the pool refuses it.
fn go_on(alloc: Global, pool: &mut Pool, node: BranchId, version: u64) -> Option<()> {
    let Gather::Taken(brief) = pool.gather(node, version).ok()? else {
        return None;
    };
    let is_taken = match raised(alloc, pool, &brief)? {
        Some(prices) => matches!(
            pool.publish(node, version, &prices),
            Publish::Published { .. }
        ),
        None => pool.settle(node, version) == Settle::Done,
    };
    is_taken.then_some(())
}

/// Prices a demand in the round of a slot. None where the pool refuses it.
fn price_in(alloc: Global, pool: &mut Pool, slot: u32, demand: DemandId) -> Option<()> {
    let published = pool.prices(slot).ok()??;
    let answer = price_demand(alloc, pool, &published, demand)?;
    matches!(answer, Offered::Accepted { .. }).then_some(())
}

/// Does a task. None where the pool refuses it.
fn do_task(alloc: Global, pool: &mut Pool, task: Task) -> Option<()> {
    match task {
        Task::Open { node } => pool.open_round(node).is_ok().then_some(()),
        Task::Price { slot, demand, .. } => price_in(alloc, pool, slot, demand),
        Task::Master { node, version } => go_on(alloc, pool, node, version),
        Task::Close { node } => (pool.close_by_bound(node) == Closing::Closed).then_some(()),
        Task::Examine { node } => pool.examine(node).is_ok().then_some(()),
        Task::Done => Some(()),
    }
}

/// Does what the pool names, so many times, and adds how far the search is then. The pool must not refuse it.
pub(crate) fn tell_worked(
    alloc: Global,
    pool: &mut Pool,
    rest: &str,
    text: &mut String,
) -> Option<()> {
    for _ in 0..rest.parse::<u32>().ok()? {
        let task = pool.next_task(0);
        do_task(alloc, pool, task)?;
    }
    tell_progress(pool, text)
}
