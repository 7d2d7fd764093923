//! The least value of a link, looked for step by step.

ghost use Rattle.std.specs.Prelude.{◌≡◌, ◌<◌, ◌≤◌, ◌↔◌, ◌*◌, ◌-ℤ◌, ◌≤ℤ◌, ◌<ℤ◌, pos, length, IsTrue, IsFalse};
ghost use Rattle.link_steps.specs.Ranges.{IsIn};
ghost use Rattle.link_steps.specs.Steps.{AreInOrder};
ghost use Rattle.link_steps.specs.Candidates.{load_up_to, candidate, IsFirstBest, AreSmall, AreCheap};

use crate::limits::MAX_STEPS;
use crate::range::{LinkRanges, LoadRange};
use crate::reading::LinkValue;
use crate::step::Step;
use plan_base::Link;
use plan_base::limits::{MAX_PRICED_LOAD, MODULE_COST_BOUND};

/// The best load of a place up to a reach, both in load grains: as much as may be where its price, in thousandths of a
/// cost grain per load grain, is above the routing costs, else as little.
fn load_up_to(link: &Link, price: u128, range: LoadRange, reach: u64) -> u64
    ensures value { result ≡ load_up_to link.now price range reach }
    ensures within { range.least ≤ range.most → result ≤ range.most }
{
    if 1000 * u128::from(link.routing) < price {
        reach.min(range.most)
    } else {
        range.least
    }
}

/// What prices leave of costs, both in thousandths of a cost grain.
pub fn left(cost: u128, priced: u128) -> i128
    requires cost { cost ≤ MAX_PRICED_LOAD }
    requires priced { priced ≤ 2 * MAX_PRICED_LOAD }
    ensures { result ≡ (pos cost -ℤ pos priced) }
{
    cost as i128 - priced as i128
}

/// What a link has at the best loads up to the reach of a step, where it has the cost of this step.
#[tactic(auto, using(crate::proofs::FirstBest::small_loads))]
fn candidate(
    link: &Link,
    ranges: LinkRanges,
    price: u128,
    back_price: u128,
    step: Step,
) -> LinkValue
    requires small { AreSmall link.now ranges price back_price }
    requires cheap { step.cost ≤ MAX_STEPS * MODULE_COST_BOUND }
    ensures { result ≡ candidate link.now ranges price back_price step }
{
    let load = load_up_to(link, price, ranges.there, step.reach);
    let back = load_up_to(link, back_price, ranges.back, step.reach);
    let loads = u128::from(load) + u128::from(back);
    let cost = u128::from(link.routing) * loads + step.cost;
    let priced = price * u128::from(load) + back_price * u128::from(back);
    LinkValue {
        value: left(1000 * cost, priced),
        load,
        back,
    }
}

/// Whether the range has the load.
fn is_within(range: LoadRange, load: u64) -> bool
    ensures { IsTrue result ↔ IsIn range load }
{
    range.least <= load && load <= range.most
}

/// Whether the ranges of a link's places have these loads.
pub fn are_within(ranges: LinkRanges, found: LinkValue) -> bool
    ensures there { IsTrue result → IsIn ranges.there found.load }
    ensures back { IsTrue result → IsIn ranges.back found.back }
    ensures both { IsIn ranges.there found.load → IsIn ranges.back found.back → IsTrue result }
{
    is_within(ranges.there, found.load) && is_within(ranges.back, found.back)
}

/// Whether no price is above the routing costs, so that more load is never better.
fn is_level(link: &Link, price: u128, back_price: u128) -> bool
    ensures there { IsTrue result → price ≤ 1000 * link.now.routing }
    ensures back { IsTrue result → back_price ≤ 1000 * link.now.routing }
{
    let routing = 1000 * u128::from(link.routing);
    price <= routing && back_price <= routing
}

/// Whether a value is below another one, both in thousandths of a cost grain.
pub fn is_less(value: i128, other: i128) -> bool
    ensures less { IsTrue result → value <ℤ other }
    ensures no_less { IsFalse result → other ≤ℤ value }
{
    value < other
}

/// The first of the least candidates from one step to below another.
#[tactic(auto, using(crate::proofs::FirstBest::first_bests))]
pub fn first_best(
    link: &Link,
    steps: &[Step],
    from: usize,
    to: usize,
    ranges: LinkRanges,
    price: u128,
    back_price: u128,
) -> LinkValue
    requires some { from < to }
    requires within { to ≤ length steps.now }
    requires in_order { AreInOrder steps.now }
    requires small { AreSmall link.now ranges price back_price }
    requires cheap { AreCheap steps.now }
    ensures { IsFirstBest link.now ranges price back_price steps.now from to result }
{
    let mut best = candidate(link, ranges, price, back_price, steps[from]);
    if is_level(link, price, back_price) {
        return best;
    }
    for place in from + 1..to {
        let other = candidate(link, ranges, price, back_price, steps[place]);
        if is_less(other.value, best.value) {
            best = other;
        }
    }
    best
}
