//! What links ask for while paths are negotiated, by what they carry and what the rounds before taught.

ghost use Rattle.std.specs.Prelude.{◌<◌, ◌≤◌, length, OnOk};
ghost use Rattle.std.specs.Option.{unwrap_or};
ghost use Rattle.least_path.specs.Paths.{AreWeights};

use least_path::limits::MAX_WEIGHT;
use link_steps::StepTable;
use plan_base::limits::MAX_PLACES;
use plan_base::{ArcId, Instance, LinkId, LinkLoads};
use std::alloc::{AllocError, Global};

/// The price of a load grain on a link of mean price.
const MEAN_PRICE: u128 = 64;

/// No link has more than so many times the mean price.
const MOST_MEANS: u128 = 16;

/// What prices of links are reckoned in: so many to a cost grain.
const SHARES: u128 = 65_536;

/// What the price of a link rises by in a round that leaves twice what it can carry on it.
const LESSON: u128 = 256;

/// What a link asks for.
#[derive(Clone, Copy)]
pub(crate) struct Toll {
    /// The most that it can carry by any lawful counts, in load grains.
    top: u128,
    /// For each load grain: its share of what the link costs, and what the rounds before taught.
    price: u128,
}

/// What a load grain costs on a link that carries all it can, in shares of a cost grain.
fn link_price(table: &StepTable, link: LinkId) -> u128
    requires link { link.0 < length table.now.links }
{
    let inst = table.instance();
    let top = inst.top_load(link).min(inst.total_load());
    let modules = table.at(link, top).unwrap_or(0);
    let share = modules.saturating_mul(SHARES) / u128::from(top.max(1));
    u128::from(inst.link(link).routing)
        .saturating_mul(SHARES)
        .saturating_add(share)
}

/// The mean of what a load grain costs on the links, in shares of a cost grain, at least 1.
fn mean_price(table: &StepTable) -> u128
    ensures { 0 < result }
{
    let inst = table.instance();
    let mut sum = 0u128;
    for place in 0..inst.links() {
        sum = sum.saturating_add(link_price(table, LinkId(place)));
    }
    (sum / u128::from(inst.links().max(1))).max(1)
}

/// What each link asks for in the first round, in order.
pub(crate) fn first_tolls(alloc: Global, table: &StepTable) -> Result<Vec<Toll>, AllocError> {
    let inst = table.instance();
    let mean = mean_price(table);
    let mut tolls = Vec::with_capacity(alloc, inst.links() as usize)?;
    for place in 0..inst.links() {
        let link = LinkId(place);
        let price = link_price(table, link).saturating_mul(MEAN_PRICE) / mean;
        tolls.push(Toll {
            top: u128::from(inst.top_load(link)),
            price: price.clamp(1, MOST_MEANS * MEAN_PRICE),
        })?;
    }
    Ok(tolls)
}

/// What a place carries, in load grains.
fn load_at(loads: &[u128; MAX_PLACES], place: u32) -> u128 {
    if (place as usize) < MAX_PLACES {
        loads[place as usize]
    } else {
        0
    }
}

/// What a load asks for on a link's place that carries so much; None where the load alone is more than the link can
/// carry.
fn asked(toll: &Toll, carried: u128, pressure: u128, load: u128) -> Option<u128>
    ensures { unwrap_or result 0 ≤ MAX_WEIGHT }
{
    if load > toll.top {
        return None;
    }
    let over = carried.saturating_add(load).saturating_sub(toll.top);
    let own = load.saturating_mul(toll.price);
    Some(
        own.saturating_add(over.saturating_mul(pressure))
            .min(MAX_WEIGHT),
    )
}

/// What a load asks for on an arc.
fn weight_of(
    inst: &Instance,
    loads: &[u128; MAX_PLACES],
    tolls: &[Toll],
    pressure: u128,
    load: u128,
    arc: ArcId,
) -> Option<u128>
    ensures { unwrap_or result 0 ≤ MAX_WEIGHT }
{
    match tolls.get(arc.link().0 as usize) {
        Some(toll) => asked(toll, load_at(loads, inst.place(arc)), pressure, load),
        None => None,
    }
}

/// Sets the list to what a load asks for on the arcs.
pub(crate) fn list_weights(
    weights: &mut Vec<Option<u128>>,
    inst: &Instance,
    loads: &[u128; MAX_PLACES],
    tolls: &[Toll],
    pressure: u128,
    load: u128,
) -> Result<(), AllocError>
    ensures { OnOk result (AreWeights inst.now weights.new.items) }
{
    weights.clear();
    for number in 0..inst.arcs() {
        weights.push(weight_of(inst, loads, tolls, pressure, load, ArcId(number)))?;
    }
    Ok(())
}

/// Whether an arc's link carries more than it can.
fn is_over(inst: &Instance, loads: &[u128; MAX_PLACES], tolls: &[Toll], arc: ArcId) -> bool {
    match tolls.get(arc.link().0 as usize) {
        Some(toll) => load_at(loads, inst.place(arc)) > toll.top,
        None => false,
    }
}

/// Whether the link of one of these arcs carries more than it can.
pub(crate) fn has_over(
    inst: &Instance,
    loads: &[u128; MAX_PLACES],
    tolls: &[Toll],
    arcs: &[ArcId],
) -> bool {
    for arc in arcs {
        if is_over(inst, loads, tolls, *arc) {
            return true;
        }
    }
    false
}

/// Raises the price of a link that needs so much where that is more than it can carry, and tells whether it is.
fn raise_at(tolls: &mut Vec<Toll>, place: usize, need: u128) -> bool {
    let Some(toll) = tolls.get_mut(place) else {
        return false;
    };
    if need <= toll.top {
        return false;
    }
    let over = need.saturating_sub(toll.top);
    let lesson = over.saturating_mul(LESSON) / toll.top.max(1);
    toll.price = toll
        .price
        .saturating_add(lesson.clamp(1, MOST_MEANS * LESSON));
    true
}

/// Raises the prices of the links that carry more than they can, and tells whether one does.
pub(crate) fn raise_all(
    inst: &Instance,
    loads: &[u128; MAX_PLACES],
    tolls: &mut Vec<Toll>,
) -> bool {
    let mut is_one = false;
    for place in 0..inst.links() {
        let need = LinkLoads::of_link(inst, loads, LinkId(place)).need();
        if raise_at(tolls, place as usize, need) {
            is_one = true;
        }
    }
    is_one
}
