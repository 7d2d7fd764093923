//! The ends of steps: what is best at a price lies at one of them.

ghost use Rattle.std.specs.Prelude.{ℕ, ◌≡◌, ◌<◌, ◌≤◌, ◌+◌, ◌-◌, ◌*◌, ◌⊎◌, ◌-ℤ◌, pos, length, Some, IfOk, IfSome};
ghost use Rattle.link_steps.specs.Steps.{step_at, AreInOrder, end_at, end_in, turn, AreCorners, IsBestSoFar, AreBestEnds, IsFrom, IsRestOf, IsLeastUnit};

use crate::limits::MAX_STEPS;
use crate::step::Step;
use plan_base::limits::{MAX_PRICED_LOAD, MODULE_COST_BOUND};
use std::alloc::{AllocError, Global};

/// A load at which a step ends, and what the step costs.
#[derive(Clone, Copy, Debug)]
pub struct End {
    /// In cost grains.
    pub cost: u128,
    /// In load grains.
    pub load: u64,
    /// The greatest slope at which the best end before it is as good, in thousandths of a cost grain per load grain. Means
    /// nothing in the first one.
    pub from: u128,
}

/// The end of a step, for a link with this top load.
fn end_of(step: Step, top: u64) -> End
    ensures { result ≡ end_at top step }
{
    End {
        cost: step.cost,
        load: step.reach.min(top),
        from: 0,
    }
}

/// The greatest slope at which an end is as good as a later one, in thousandths of a cost grain per load grain.
fn turn(end: End, later: End) -> u128
    requires load { end.load < later.load }
    requires cost { end.cost < later.cost }
    requires cheap { later.cost ≤ MAX_STEPS * MODULE_COST_BOUND }
    ensures { result ≡ turn end later }
{
    1000 * (later.cost - end.cost) / u128::from(later.load - end.load)
}

/// Drops the last ends that are at no slope better than the one before them and the next one, and gives the slope of the
/// next one.
fn drop_outdone(ends: &mut Vec<End>, next: End) -> u128
    requires corners { AreCorners ends.old.items }
    requires farther { (i : ℕ) → i < length ends.old.items → (end_in ends.old.items i).load < next.load }
    requires dearer { (i : ℕ) → i < length ends.old.items → (end_in ends.old.items i).cost < next.cost }
    requires cheap { next.cost ≤ MAX_STEPS * MODULE_COST_BOUND }
    ensures rest { IsRestOf ends.old.items next ends.new.items }
    ensures from { IsFrom ends.new.items next result }
{
    while ends.len() >= 2 {
        let last = ends.len() - 1;
        let from = turn(ends[last], next);
        if ends[last].from < from {
            return from;
        }
        ends.truncate(last);
    }
    if ends.len() == 1 {
        turn(ends[0], next)
    } else {
        0
    }
}

/// Ends of which one is best at each slope: the corners of the lower hull of all ends.
pub fn best_ends(alloc: Global, steps: &[Step], top: u64) -> Result<Vec<End>, AllocError>
    requires in_order { AreInOrder steps.now }
    requires low { (i : ℕ) → i + 1 < length steps.now → (step_at steps.now i).reach < top }
    requires few { length steps.now ≤ MAX_STEPS }
    ensures { IfOk result (λ ends. AreBestEnds steps.now top (length steps.now) ends.items) }
{
    let mut ends = Vec::new(alloc);
    for step in steps {
        let end = end_of(*step, top);
        let from = drop_outdone(&mut ends, end);
        ends.push(End {
            cost: end.cost,
            load: end.load,
            from,
        })?;
    }
    Ok(ends)
}

/// The first end where a thousand costs less the slope times the load are least: the slope is in thousandths of a cost
/// grain per load grain.
pub fn best_end(ends: &[End], slope: u128) -> End
    requires some { 0 < length ends.now }
    requires corners { AreCorners ends.now }
    ensures { IsBestSoFar ends.now slope (length ends.now) result }
{
    let mut best = ends[0];
    for place in 1..ends.len() {
        let end = ends[place];
        if slope <= end.from {
            return best;
        }
        best = end;
    }
    best
}

/// A thousand costs less the slope times the load, in thousandths of a cost grain.
pub fn value_of(end: End, slope: u128) -> i128
    requires cost { end.cost ≤ MAX_STEPS * MODULE_COST_BOUND }
    requires slope { slope * end.load ≤ 2 * MAX_PRICED_LOAD }
    ensures { result ≡ (pos (1000 * end.cost) -ℤ pos (slope * end.load)) }
{
    (1000 * end.cost) as i128 - (slope * u128::from(end.load)) as i128
}

/// The least of so many thousandths of a cost for each load grain, rounded down, over the ends past load 0.
pub fn least_unit(part: u128, steps: &[Step], top: u64) -> Option<u128>
    requires part { part ≤ 1000 }
    requires in_order { AreInOrder steps.now }
    requires few { length steps.now ≤ MAX_STEPS }
    ensures least { IsLeastUnit part steps.now top (length steps.now) result }
    ensures within { IfSome result (λ unit. unit ≤ 1000 * (MAX_STEPS * MODULE_COST_BOUND)) }
{
    let mut least: Option<u128> = None;
    for step in steps {
        let end = end_of(*step, top);
        if end.load > 0 {
            least = Some(smaller(least, part * end.cost / u128::from(end.load)));
        }
    }
    least
}

fn smaller(least: Option<u128>, unit: u128) -> u128
    ensures either { (result ≡ unit) ⊎ (least ≡ Some result) }
    ensures unit { result ≤ unit }
    ensures least { IfSome least (λ other. result ≤ other) }
{
    match least {
        Some(other) if other < unit => other,
        _ => unit,
    }
}
