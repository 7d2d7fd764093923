//! What the steps of a link tell of loads and prices.

ghost use Rattle.std.specs.Prelude.{ℕ, ◌≡◌, ◌<◌, ◌≤◌, length, IfOk};
ghost use Rattle.plan_base.specs.declared.parts.CountLaw.TheVariants.{Any, AtMostOne};
ghost use Rattle.link_steps.specs.Steps.{step_at, AreRising, IsOfOne, AreStepsOf, IsMadeOf};

use crate::limits::MAX_STEPS;
use crate::step::Step;
use plan_base::{CountLaw, Link};
use std::alloc::{AllocError, Global};

/// The least value that prices give to a link, and the smallest loads that give it.
#[derive(Clone, Copy, Debug, PartialEq, Eq)]
pub struct LinkValue {
    /// In thousandths of a cost grain.
    pub value: i128,
    /// The load of its place, in load grains.
    pub load: u64,
    /// The load of its other place, the one of its arc back, in load grains, and 0 where it has one place.
    pub back: u64,
}

/// A least module cost, and where its step stands among those of its link.
#[derive(Clone, Copy, Debug, PartialEq, Eq)]
pub struct PlacedCost {
    /// In cost grains.
    pub cost: u128,
    /// A place for `StepTable::at_near`.
    pub place: u32,
}

/// The place of the first step that reaches the load, in load grains, or the count of steps where none does.
pub fn first_reaching(steps: &[Step], load: u64) -> usize
    requires { AreRising steps.now }
    ensures within { result ≤ length steps.now }
    ensures before { (j : ℕ) → j < result → (step_at steps.now j).reach < load }
    ensures here { result < length steps.now → load ≤ (step_at steps.now result).reach }
{
    first_reaching_between(steps, load, 0, steps.len())
}

/// The same, where no step before the first place reaches the load, and that at the second one does, if there is one.
fn first_reaching_between(steps: &[Step], load: u64, from: usize, to: usize) -> usize
    requires rising { AreRising steps.now }
    requires from { from ≤ to }
    requires to { to ≤ length steps.now }
    requires before { (j : ℕ) → j < from → (step_at steps.now j).reach < load }
    requires here { to < length steps.now → load ≤ (step_at steps.now to).reach }
    ensures within { result ≤ length steps.now }
    ensures before { (j : ℕ) → j < result → (step_at steps.now j).reach < load }
    ensures here { result < length steps.now → load ≤ (step_at steps.now result).reach }
{
    let mut low = from;
    let mut high = to;
    while low < high {
        let middle = low + (high - low) / 2;
        if steps[middle].reach < load {
            low = middle + 1;
        } else {
            high = middle;
        }
    }
    low
}

/// The same, where no step before this place reaches the load: looked for in stretches that double.
fn first_reaching_from(steps: &[Step], load: u64, from: usize) -> usize
    requires rising { AreRising steps.now }
    requires from { from ≤ length steps.now }
    requires before { (j : ℕ) → j < from → (step_at steps.now j).reach < load }
    ensures within { result ≤ length steps.now }
    ensures before { (j : ℕ) → j < result → (step_at steps.now j).reach < load }
    ensures here { result < length steps.now → load ≤ (step_at steps.now result).reach }
{
    let mut low = from;
    let mut stretch = 1usize;
    while stretch <= steps.len() - low {
        let last = low + (stretch - 1);
        if steps[last].reach >= load {
            return first_reaching_between(steps, load, low, last);
        }
        low = last + 1;
        stretch = stretch.saturating_mul(2);
    }
    first_reaching_between(steps, load, low, steps.len())
}

/// The same, where the step at this place reaches the load: looked for in stretches that double.
fn first_reaching_to(steps: &[Step], load: u64, to: usize) -> usize
    requires rising { AreRising steps.now }
    requires to { to < length steps.now }
    requires here { load ≤ (step_at steps.now to).reach }
    ensures within { result ≤ length steps.now }
    ensures before { (j : ℕ) → j < result → (step_at steps.now j).reach < load }
    ensures here { result < length steps.now → load ≤ (step_at steps.now result).reach }
{
    let mut high = to;
    let mut stretch = 1usize;
    while stretch <= high {
        let first = high - stretch;
        if steps[first].reach < load {
            return first_reaching_between(steps, load, first + 1, high);
        }
        high = first;
        stretch = stretch.saturating_mul(2);
    }
    first_reaching_between(steps, load, 0, high)
}

/// The same as `first_reaching`, found the sooner the nearer it lies to this place.
pub fn first_reaching_near(steps: &[Step], load: u64, near: usize) -> usize
    requires { AreRising steps.now }
    ensures within { result ≤ length steps.now }
    ensures before { (j : ℕ) → j < result → (step_at steps.now j).reach < load }
    ensures here { result < length steps.now → load ≤ (step_at steps.now result).reach }
{
    if near > steps.len() {
        first_reaching(steps, load)
    } else if near > 0 && steps[near - 1].reach >= load {
        first_reaching_to(steps, load, near - 1)
    } else {
        first_reaching_from(steps, load, near)
    }
}

/// The counts of the modules that the steps to a place add, one after the other.
fn added_counts(
    alloc: Global,
    link: &Link,
    steps: &[Step],
    place: usize,
) -> Result<Vec<u64>, AllocError>
    requires steps { AreStepsOf Any link.now steps.now }
    requires few { length steps.now ≤ MAX_STEPS }
    requires place { place < length steps.now }
    requires added { 0 < place }
    ensures { IfOk result (λ counts. IsMadeOf Any link.now (step_at steps.now place) (step_at steps.now place).reach counts.items) }
{
    let mut counts = vec![in alloc; 0u64; link.modules.len()]?;
    let mut here = place;
    while here > 0 {
        let step = steps[here];
        counts[step.added as usize] += 1;
        here = step.before as usize;
    }
    Ok(counts)
}

/// The counts that carry a load at no cost: none, or as many free modules as it needs.
fn free_counts(
    alloc: Global,
    link: &Link,
    steps: &[Step],
    load: u64,
) -> Result<Vec<u64>, AllocError>
    requires steps { AreStepsOf Any link.now steps.now }
    requires load { load ≤ (step_at steps.now 0).reach }
    ensures { IfOk result (λ counts. IsMadeOf Any link.now (step_at steps.now 0) load counts.items) }
{
    let mut counts = vec![in alloc; 0u64; link.modules.len()]?;
    if load > link.pre {
        let free = steps[0].added as usize;
        counts[free] = (load - link.pre).div_ceil(link.modules.as_slice()[free].capacity);
    }
    Ok(counts)
}

/// The counts that carry a load at the cost of the step at this place, where any counts are lawful.
fn grown_counts(
    alloc: Global,
    link: &Link,
    steps: &[Step],
    place: usize,
    load: u64,
) -> Result<Vec<u64>, AllocError>
    requires steps { AreStepsOf Any link.now steps.now }
    requires few { length steps.now ≤ MAX_STEPS }
    requires place { place < length steps.now }
    requires load { load ≤ (step_at steps.now place).reach }
    ensures { IfOk result (λ counts. IsMadeOf Any link.now (step_at steps.now place) load counts.items) }
{
    if place == 0 {
        free_counts(alloc, link, steps, load)
    } else {
        added_counts(alloc, link, steps, place)
    }
}

/// The counts that carry a load at the cost of a step, where at most one module is lawful: none, or that one.
fn chosen_counts(alloc: Global, link: &Link, step: Step, load: u64) -> Result<Vec<u64>, AllocError>
    requires load { load ≤ step.reach }
    requires none { load ≤ link.now.pre → step.cost ≡ 0 }
    requires one { link.now.pre < load → IsOfOne link.now step }
    ensures { IfOk result (λ counts. IsMadeOf AtMostOne link.now step load counts.items) }
{
    let mut counts = vec![in alloc; 0u64; link.modules.len()]?;
    if load > link.pre {
        counts[step.added as usize] = 1;
    }
    Ok(counts)
}

/// One lawful count for each module: together they reach the load, in load grains, at the cost of the step at this
/// place, which is the first to reach it.
pub fn counts_of(
    alloc: Global,
    law: CountLaw,
    link: &Link,
    steps: &[Step],
    place: usize,
    load: u64,
) -> Result<Vec<u64>, AllocError>
    requires steps { AreStepsOf law link.now steps.now }
    requires few { length steps.now ≤ MAX_STEPS }
    requires place { place < length steps.now }
    requires before { (j : ℕ) → j < place → (step_at steps.now j).reach < load }
    requires load { load ≤ (step_at steps.now place).reach }
    ensures { IfOk result (λ counts. IsMadeOf law link.now (step_at steps.now place) load counts.items) }
{
    match law {
        CountLaw::Any => grown_counts(alloc, link, steps, place, load),
        CountLaw::AtMostOne => chosen_counts(alloc, link, steps[place], load),
    }
}
