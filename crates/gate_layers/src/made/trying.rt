//! The least costs of a small link, found by trying all lawful counts of modules.

ghost use Rattle.std.specs.Prelude.{◌<◌};

use link_steps::{LinkRanges, LoadRange};
use plan_base::{CountLaw, Module};

/// A link whose least costs are found by trying.
#[derive(Clone, Copy)]
pub(crate) struct SmallLink {
    pub(crate) pre: u64,
    pub(crate) routing: u64,
    pub(crate) modules: [Module; 3],
}

/// The least module cost of each load from 0 to 8, or None where no counts carry it.
pub(crate) type Costs = [Option<u128>; 9];

/// The capacity and the cost of so many of each module.
fn installed(small: &SmallLink, counts: [u64; 3]) -> (u64, u128) {
    let mut capacity = small.pre;
    let mut cost = 0u128;
    for place in 0..3 {
        let module = small.modules[place];
        let count = counts[place];
        capacity = capacity.saturating_add(module.capacity.saturating_mul(count));
        cost = cost.saturating_add(module.cost.saturating_mul(u128::from(count)));
    }
    (capacity, cost)
}

/// The smaller of a cost and one that may be known.
fn smaller(known: Option<u128>, cost: u128) -> u128 {
    known.unwrap_or(cost).min(cost)
}

/// Takes the cost for each load that the capacity carries, where it is less than what is known.
fn offer(costs: &mut Costs, capacity: u64, cost: u128) {
    for load in 0..9 {
        if capacity >= load as u64 {
            costs[load] = Some(smaller(costs[load], cost));
        }
    }
}

/// Whether the law allows these counts of a link's modules.
fn is_lawful(law: CountLaw, counts: [u64; 3]) -> bool {
    match law {
        CountLaw::Any => true,
        CountLaw::AtMostOne => {
            let two = counts[0].saturating_add(counts[1]);
            two.saturating_add(counts[2]) <= 1
        }
    }
}

/// The least module costs, by trying all lawful counts up to 8.
pub(crate) fn tried_costs(small: &SmallLink, law: CountLaw) -> Costs {
    let mut costs = [None; 9];
    for combination in 0..9 * 9 * 9 {
        let counts = [combination % 9, combination / 9 % 9, combination / 81];
        if is_lawful(law, counts) {
            let (capacity, cost) = installed(small, counts);
            offer(&mut costs, capacity, cost);
        }
    }
    costs
}

/// The least module cost of the larger of two loads, and the routing cost of both, a thousand times, where counts carry it.
fn step_cost(small: &SmallLink, costs: &Costs, load: usize, back: usize) -> Option<u128>
    requires load { load < 9 }
    requires back { back < 9 }
{
    let both = (load as u128).saturating_add(back as u128);
    let routing = u128::from(small.routing).saturating_mul(both);
    let modules = costs[load.max(back)]?;
    Some(modules.saturating_add(routing).saturating_mul(1000))
}

/// What loads there and back leave of their cost at prices, above the lowest number that is told.
#[derive(Clone, Copy, PartialEq, Eq)]
pub(crate) struct Rest {
    pub(crate) value: u128,
    pub(crate) load: u64,
    pub(crate) back: u64,
}

/// How far below 0 values are told.
pub(crate) const DEPTH: u128 = 1_000_000_000_000;

/// What these loads leave, where counts carry them.
fn rest_at(
    small: &SmallLink,
    costs: &Costs,
    prices: (u128, u128),
    load: usize,
    back: usize,
) -> Option<Rest>
    requires load { load < 9 }
    requires back { back < 9 }
{
    let cost = step_cost(small, costs, load, back)?;
    let there_paid = prices.0.saturating_mul(load as u128);
    let back_paid = prices.1.saturating_mul(back as u128);
    let paid = there_paid.saturating_add(back_paid);
    Some(Rest {
        value: DEPTH.saturating_add(cost).saturating_sub(paid),
        load: load as u64,
        back: back as u64,
    })
}

/// Whether the range has the load.
fn has(range: LoadRange, load: usize) -> bool {
    range.least <= load as u64 && load as u64 <= range.most
}

/// Whether what is left is less than what is known.
fn is_less(rest: Rest, best: Option<Rest>) -> bool {
    match best {
        Some(best) => rest.value < best.value,
        None => true,
    }
}

/// Takes the loads there and back, where they leave less than what is known.
fn offer_loads(
    small: &SmallLink,
    costs: &Costs,
    prices: (u128, u128),
    load: usize,
    back: usize,
    best: &mut Option<Rest>,
)
    requires load { load < 9 }
    requires back { back < 9 }
{
    if let Some(rest) = rest_at(small, costs, prices, load, back)
        && is_less(rest, *best)
    {
        *best = Some(rest);
    }
}

/// The least that loads in the ranges leave of their cost at prices, and the first such loads: those whose larger one is
/// smallest, and of these the smallest.
pub(crate) fn tried_rest(
    small: &SmallLink,
    costs: &Costs,
    prices: (u128, u128),
    ranges: LinkRanges,
) -> Option<Rest> {
    let mut best = None;
    for number in 0..9 * 9 * 9 {
        let (larger, load, back) = (number / 81, number / 9 % 9, number % 9);
        if load.max(back) == larger && has(ranges.there, load) && has(ranges.back, back) {
            offer_loads(small, costs, prices, load, back, &mut best);
        }
    }
    best
}

/// Whether a step ends at a load: a further grain is dearer, or none is carried.
fn is_end(costs: &Costs, load: usize) -> bool
    requires { load < 8 }
{
    match (costs[load], costs[load + 1]) {
        (Some(cost), Some(more)) => cost < more,
        (cost, _) => cost.is_some(),
    }
}

/// The first load of these where a step ends.
pub(crate) fn tried_end(costs: &Costs, range: LoadRange) -> Option<u64> {
    for load in 0..8 {
        if range.least <= load as u64 && (load as u64) < range.most && is_end(costs, load) {
            return Some(load as u64);
        }
    }
    None
}

/// The greatest load below this one where a step ends.
pub(crate) fn tried_below(costs: &Costs, load: u64) -> Option<u64> {
    let mut found = None;
    for other in 0..8 {
        if (other as u64) < load && is_end(costs, other) {
            found = Some(other as u64);
        }
    }
    found
}

/// The least cost of a load grain in thousandths, rounded down, where each place of the link bears so many of them.
pub(crate) fn tried_start(small: &SmallLink, costs: &Costs, share: u128) -> Option<u128> {
    let mut least = None;
    for load in 1..9 {
        if let Some(modules) = costs[load] {
            let unit = modules.saturating_mul(share) / load as u128;
            let routing = u128::from(small.routing).saturating_mul(1000);
            least = Some(smaller(least, routing.saturating_add(unit)));
        }
    }
    least
}
