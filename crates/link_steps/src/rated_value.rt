//! The least value of a link at prices and rates, looked for step by step.

ghost use Rattle.std.specs.Prelude.{ℕ, ◌<◌, ◌≤◌, ◌*◌, max, length};
ghost use Rattle.link_steps.specs.Candidates.{AreCheap, IsBestLoad, IsBestUpTo, IsFirstLeast, IsRatedPlace};
ghost use Rattle.link_steps.specs.Steps.{step_at};
ghost use Rattle.link_steps.specs.Tallies.{AreTallies, CoversRouting, worth};

use crate::limits::MAX_STEPS;
use crate::range::{LinkRanges, LoadRange};
use crate::rated::{Rated, counted_load, worth};
use crate::reading::LinkValue;
use crate::step::Step;
use crate::value::{is_less, left};
use plan_base::Link;
use plan_base::limits::MODULE_COST_BOUND;

/// The first of the best loads of a place up to a reach, both in load grains: as much as may be where its price, in
/// thousandths of a cost grain per load grain, is above the routing costs, else as little as leaves all counted grains.
pub fn best_load(link: &Link, price: u128, rated: &[Rated], range: LoadRange, reach: u64) -> u64
    requires tallies { AreTallies rated.now }
    requires covers { CoversRouting link.now.routing price rated.now }
    requires some { range.least ≤ range.most }
    requires reached { range.least ≤ reach }
    ensures { IsBestLoad (1000 * link.now.routing) (worth price rated.now) range reach result }
{
    let most = reach.min(range.most);
    if 1000 * u128::from(link.routing) < price {
        most
    } else {
        counted_load(rated, range.least, most)
    }
}

/// What a link has at the best loads up to the reach of a step, where it has the cost of this step.
fn rated_candidate(
    link: &Link,
    ranges: LinkRanges,
    price: u128,
    there: &[Rated],
    back_price: u128,
    back: &[Rated],
    step: Step,
) -> LinkValue
    requires there { IsRatedPlace link.now price there.now ranges.there }
    requires back { IsRatedPlace link.now back_price back.now ranges.back }
    requires reached { max ranges.there.least ranges.back.least ≤ step.reach }
    requires cheap { step.cost ≤ MAX_STEPS * MODULE_COST_BOUND }
    ensures { IsBestUpTo link.now ranges (worth price there.now) (worth back_price back.now) step result }
{
    let load = best_load(link, price, there, ranges.there, step.reach);
    let back_load = best_load(link, back_price, back, ranges.back, step.reach);
    let loads = u128::from(load) + u128::from(back_load);
    let cost = u128::from(link.routing) * loads + step.cost;
    let gain = worth(price, there, load) + worth(back_price, back, back_load);
    LinkValue {
        value: left(1000 * cost, gain),
        load,
        back: back_load,
    }
}

/// The first of the least candidates from one step to below another.
pub fn first_rated(
    link: &Link,
    steps: &[Step],
    from: usize,
    to: usize,
    ranges: LinkRanges,
    price: u128,
    there: &[Rated],
    back_price: u128,
    back: &[Rated],
) -> LinkValue
    requires some { from < to }
    requires within { to ≤ length steps.now }
    requires reached { (i : ℕ) → from ≤ i → i < to → max ranges.there.least ranges.back.least ≤ (step_at steps.now i).reach }
    requires there { IsRatedPlace link.now price there.now ranges.there }
    requires back { IsRatedPlace link.now back_price back.now ranges.back }
    requires cheap { AreCheap steps.now }
    ensures { IsFirstLeast link.now ranges (worth price there.now) (worth back_price back.now) steps.now from to result }
{
    let mut best = rated_candidate(link, ranges, price, there, back_price, back, steps[from]);
    for place in from + 1..to {
        let other = rated_candidate(link, ranges, price, there, back_price, back, steps[place]);
        if is_less(other.value, best.value) {
            best = other;
        }
    }
    best
}
