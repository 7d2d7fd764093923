//! The steps of a link found load by load, each by trying no choice and every single one.

use super::made::Made;
use explicit_steps::{Choice, ChoiceStep};
use std::alloc::{AllocError, Global};

/// The choice of this number alone.
fn single(made: &Made, number: usize, choice: &Choice) -> ChoiceStep {
    ChoiceStep {
        reach: made.pre.saturating_add(choice.capacity),
        cost: choice.cost,
        choice: u32::try_from(number).ok(),
    }
}

/// Whether the other carries the load and is better: it costs less, or the same and reaches farther.
fn is_better(other: ChoiceStep, load: u64, best: ChoiceStep) -> bool {
    let is_less = other.cost < best.cost || (other.cost == best.cost && other.reach > best.reach);
    other.reach >= load && (is_less || best.reach < load)
}

/// The best that carries the load.
fn best_of(made: &Made, load: u64) -> Option<ChoiceStep> {
    let mut best = ChoiceStep {
        reach: made.pre,
        cost: 0,
        choice: None,
    };
    for (number, choice) in made.choices.iter().enumerate() {
        let other = single(made, number, choice);
        if is_better(other, load, best) {
            best = other;
        }
    }
    if best.reach < load {
        return None;
    }
    Some(best)
}

/// The steps, and how many loads up to the top nothing carries.
pub(crate) fn plain_steps(
    alloc: Global,
    made: &Made,
) -> Result<(Vec<ChoiceStep>, u64), AllocError> {
    let mut steps: Vec<ChoiceStep> = Vec::new(alloc);
    let mut unreached = 0u64;
    for load in 0..=made.top {
        match best_of(made, load) {
            Some(best) => {
                if steps.last() != Some(&best) {
                    steps.push(best)?;
                }
            }
            None => unreached = unreached.saturating_add(1),
        }
    }
    Ok((steps, unreached))
}

/// The greatest load that no choice or a single one carries.
pub(crate) fn plain_reach(made: &Made) -> u64 {
    let mut reach = made.pre;
    for choice in made.choices.iter() {
        reach = reach.max(made.pre.saturating_add(choice.capacity));
    }
    reach
}
