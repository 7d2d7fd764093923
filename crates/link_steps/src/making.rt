//! The steps of a link, under the law of any counts made one by one in rising cost.

ghost use Rattle.std.specs.Prelude.{ℕ, ◌≡◌, ◌<◌, ◌≤◌, ◌+◌, length, All, Some, IfOk, IfErr, IfSome, IfNone, IsTrue, IsFalse};
ghost use Rattle.plan_base.specs.declared.parts.CountLaw.TheVariants.{Any, AtMostOne};
ghost use Rattle.plan_base.specs.Facts.{IsModule};
ghost use Rattle.plan_base.specs.Designs.{module_at};
ghost use Rattle.link_steps.specs.declared.step_fault.StepFault.TheVariants.{OutOfMemory};
ghost use Rattle.link_steps.specs.Steps.{step_at, last_of, IsFree, HasNoFree, IsFirstStep, AreInOrder, AreAllSteps, IsPassedBy, AreStarts, IsNotWorse, IsNextStep, Beats, IsFaultOfLink};

use crate::choices::chosen_steps;
use crate::limits::MAX_STEPS;
use crate::step::Step;
use crate::step_fault::StepFault;
use plan_base::limits::{CAPACITY_BOUND, MAX_MODULES, MAX_TOTAL_LOAD};
use plan_base::{CountLaw, Link, LinkId};
use std::alloc::Global;

/// The number of the first module that costs nothing and has capacity.
fn free_module(link: &Link) -> Option<usize>
    ensures free { IfSome result (IsFree link.now) }
    ensures none { IfNone result (HasNoFree link.now) }
{
    for (number, module) in link.modules.as_slice().iter().enumerate() {
        if module.capacity > 0 && module.cost == 0 {
            return Some(number);
        }
    }
    None
}

/// What costs nothing: the pre-installed capacity, or with a free module the total load.
fn first_step(link: &Link, total: u64) -> Step
    requires pre { link.now.pre < CAPACITY_BOUND }
    requires total { total ≤ MAX_TOTAL_LOAD }
    requires count { length link.now.modules ≤ MAX_MODULES }
    ensures first { IsFirstStep total link.now result }
    ensures no_free { result.reach < total → HasNoFree link.now }
{
    match free_module(link) {
        Some(number) => Step {
            reach: link.pre.max(total),
            cost: 0,
            before: 0,
            added: number as u32,
        },
        None => Step {
            reach: link.pre,
            cost: 0,
            before: 0,
            added: 0,
        },
    }
}

/// The place of the first step, from a place on, that goes past the reach with the capacity added.
fn first_past(steps: &[Step], from: usize, reach: u64, capacity: u64) -> usize
    requires low { (j : ℕ) → j < length steps.now → (step_at steps.now j).reach ≤ reach }
    requires reach { reach ≤ MAX_TOTAL_LOAD }
    requires capacity { capacity < CAPACITY_BOUND }
    requires from { from ≤ length steps.now }
    requires passed { (j : ℕ) → j < from → (step_at steps.now j).reach + capacity ≤ reach }
    ensures within { result ≤ length steps.now }
    ensures before { (j : ℕ) → j < result → (step_at steps.now j).reach + capacity ≤ reach }
    ensures here { result < length steps.now → reach < (step_at steps.now result).reach + capacity }
{
    for place in from..steps.len() {
        if steps[place].reach + capacity > reach {
            return place;
        }
    }
    steps.len()
}

/// Whether a step costs less than the best one so far, or as much and reaches farther, or none is known so far.
fn is_better(step: &Step, best: Option<Step>) -> bool
    ensures better { IsTrue result → IsNotWorse (Some step.now) best }
    ensures no_better { IsFalse result → IsNotWorse best (Some step.now) }
{
    match best {
        Some(found) => {
            step.cost <= found.cost && (step.cost < found.cost || step.reach > found.reach)
        }
        None => true,
    }
}

/// The step at a place with one module added, which goes past the last one.
fn extended(link: &Link, steps: &[Step], place: usize, number: usize) -> Step
    requires in_order { AreInOrder steps.now }
    requires few { length steps.now ≤ MAX_STEPS }
    requires modules { All IsModule link.now.modules }
    requires count { length link.now.modules ≤ MAX_MODULES }
    requires number { number < length link.now.modules }
    requires reach { (last_of steps.now).reach ≤ MAX_TOTAL_LOAD }
    requires within { place < length steps.now }
    requires before { IsPassedBy link.now steps.now number place }
    requires here { (last_of steps.now).reach < (step_at steps.now place).reach + (module_at link.now number).capacity }
    ensures next { IsNextStep link.now steps.now result }
    ensures best { Beats link.now steps.now (Some result) number }
{
    let step = &steps[place];
    let module = &link.modules.as_slice()[number];
    Step {
        reach: step.reach + module.capacity,
        cost: step.cost + module.cost,
        before: place as u32,
        added: number as u32,
    }
}

/// The better of the best step so far and the one at a place with one module added, where there is a step at the place.
fn better_with(
    link: &Link,
    steps: &[Step],
    place: usize,
    number: usize,
    best: Option<Step>,
) -> Option<Step>
    requires in_order { AreInOrder steps.now }
    requires few { length steps.now ≤ MAX_STEPS }
    requires modules { All IsModule link.now.modules }
    requires count { length link.now.modules ≤ MAX_MODULES }
    requires number { number < length link.now.modules }
    requires reach { (last_of steps.now).reach ≤ MAX_TOTAL_LOAD }
    requires within { place ≤ length steps.now }
    requires before { IsPassedBy link.now steps.now number place }
    requires here { place < length steps.now → (last_of steps.now).reach < (step_at steps.now place).reach + (module_at link.now number).capacity }
    requires next { IfSome best (IsNextStep link.now steps.now) }
    ensures next { IfSome result (IsNextStep link.now steps.now) }
    ensures kept { IsNotWorse result best }
    ensures best { Beats link.now steps.now result number }
{
    if place == steps.len() {
        return best;
    }
    let other = extended(link, steps, place, number);
    if is_better(&other, best) {
        Some(other)
    } else {
        best
    }
}

/// The cheapest step past the last one, and of those that cost the same the farthest.
///
/// - Takes: for each module a place in the steps, before which it adds too little to go past the last one. Each place
///   is moved on to the first step from which the module goes past it.
fn next_step(link: &Link, steps: &[Step], starts: &mut Vec<usize>) -> Option<Step>
    requires in_order { AreInOrder steps.now }
    requires few { length steps.now ≤ MAX_STEPS }
    requires modules { All IsModule link.now.modules }
    requires count { length link.now.modules ≤ MAX_MODULES }
    requires reach { (last_of steps.now).reach ≤ MAX_TOTAL_LOAD }
    requires starts { AreStarts link.now steps.now starts.old.items }
    ensures starts { AreStarts link.now steps.now starts.new.items }
    ensures next { IfSome result (IsNextStep link.now steps.now) }
    ensures best { (m : ℕ) → m < length link.now.modules → Beats link.now steps.now result m }
{
    let last = steps[steps.len() - 1];
    let mut best = None;
    for (number, module) in link.modules.as_slice().iter().enumerate() {
        let place = first_past(steps, starts[number], last.reach, module.capacity);
        starts[number] = place;
        best = better_with(link, steps, place, number, best);
    }
    best
}

/// All steps of a link up to the total load, or up to all that it carries, where any counts are lawful.
///
/// - Errors: `TooManySteps`, as soon as one more than `MAX_STEPS` steps are made.
/// - Time: the number of steps times that of modules; the sizes of loads and capacities do not count.
fn grown_steps(alloc: Global, id: LinkId, link: &Link, total: u64) -> Result<Vec<Step>, StepFault>
    requires pre { link.now.pre < CAPACITY_BOUND }
    requires total { total ≤ MAX_TOTAL_LOAD }
    requires modules { All IsModule link.now.modules }
    requires count { length link.now.modules ≤ MAX_MODULES }
    ensures steps { IfOk result (λ steps. AreAllSteps Any total link.now steps.items) }
    ensures fault { IfErr result (IsFaultOfLink Any total id link.now) }
{
    let mut steps = Vec::new(alloc);
    steps.push(first_step(link, total))?;
    let mut starts = vec![in alloc; 0usize; link.modules.len()]?;
    for made in 0..MAX_STEPS {
        if steps[steps.len() - 1].reach >= total {
            return Ok(steps);
        }
        match next_step(link, steps.as_slice(), &mut starts) {
            None => return Ok(steps),
            Some(step) => steps.push(step)?,
        }
    }
    Err(StepFault::TooManySteps { link: id })
}

/// All steps of a link up to the total load, or up to all that it carries under the law.
///
/// - Errors: `TooManySteps`, where any counts are lawful and more than `MAX_STEPS` steps are wanted.
pub fn steps_of(
    alloc: Global,
    law: CountLaw,
    id: LinkId,
    link: &Link,
    total: u64,
) -> Result<Vec<Step>, StepFault>
    requires pre { link.now.pre < CAPACITY_BOUND }
    requires total { total ≤ MAX_TOTAL_LOAD }
    requires modules { All IsModule link.now.modules }
    requires count { length link.now.modules ≤ MAX_MODULES }
    ensures steps { IfOk result (λ steps. AreAllSteps law total link.now steps.items) }
    ensures fault { IfErr result (IsFaultOfLink law total id link.now) }
    ensures one { IfErr result (λ fault. law ≡ AtMostOne → fault ≡ OutOfMemory) }
{
    match law {
        CountLaw::Any => grown_steps(alloc, id, link, total),
        CountLaw::AtMostOne => Ok(chosen_steps(alloc, link, total)?),
    }
}
