//! The steps of a link that may have one of its modules at most.

ghost use Rattle.std.specs.Prelude.{◌≡◌, ◌<◌, ◌≤◌, length, map, All, IfOk};
ghost use Rattle.plan_base.specs.declared.parts.CountLaw.TheVariants.{AtMostOne};
ghost use Rattle.plan_base.specs.Facts.{IsModule};
ghost use Rattle.link_steps.specs.Choices.{choices_of, kept_step};
ghost use Rattle.link_steps.specs.Steps.{AreAllSteps};

use crate::step::Step;
use explicit_steps::{Choice, ChoiceStep, choice_steps};
use plan_base::limits::{CAPACITY_BOUND, MAX_MODULES};
use plan_base::{Link, Module};
use std::alloc::{AllocError, Global};

/// The modules of a link as choices, in their order.
#[tactic(auto, using(crate::proofs::Lists::next_more))]
fn choices_of(alloc: Global, modules: &[Module]) -> Result<Vec<Choice>, AllocError>
    ensures { IfOk result (λ choices. choices.items ≡ choices_of modules.now) }
{
    let mut choices = Vec::new(alloc);
    for module in modules {
        choices.push(Choice {
            capacity: module.capacity,
            cost: module.cost,
        })?;
    }
    Ok(choices)
}

/// What is kept of the steps of choices.
#[tactic(auto, using(crate::proofs::Lists::next_more))]
fn kept_steps(alloc: Global, found: &[ChoiceStep]) -> Result<Vec<Step>, AllocError>
    ensures { IfOk result (λ steps. steps.items ≡ map kept_step found.now) }
{
    let mut steps = Vec::new(alloc);
    for step in found {
        steps.push(Step {
            reach: step.reach,
            cost: step.cost,
            before: 0,
            added: step.choice.unwrap_or(0),
        })?;
    }
    Ok(steps)
}

/// All steps of a link that may have one of its modules at most, up to the total load, or up to all that it carries.
///
/// - Errors: want of memory alone; there is at most one step more than there are modules.
/// - Time: that of sorting the modules.
pub fn chosen_steps(alloc: Global, link: &Link, total: u64) -> Result<Vec<Step>, AllocError>
    requires pre { link.now.pre < CAPACITY_BOUND }
    requires modules { All IsModule link.now.modules }
    requires count { length link.now.modules ≤ MAX_MODULES }
    ensures { IfOk result (λ steps. AreAllSteps AtMostOne total link.now steps.items) }
{
    let choices = choices_of(alloc, link.modules.as_slice())?;
    let found = choice_steps(alloc, link.pre, &choices, total)?;
    kept_steps(alloc, &found)
}
