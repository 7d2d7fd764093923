//! Choices that are made from a number. They are small, so that many cost or carry the same.

use explicit_steps::Choice;
use explicit_steps::limits::MAX_CHOICES;
use gate_draws::Draws;
use std::alloc::{AllocError, Global};

/// Of so many links, one has as many choices as a link may have.
const ONE_OF: u32 = 10;

/// A link with choices.
#[derive(Drop)]
pub(crate) struct Made {
    pub(crate) pre: u64,
    pub(crate) choices: Vec<Choice>,
    pub(crate) top: u64,
}

/// The link of this number.
pub(crate) fn made_link(alloc: Global, number: u32) -> Result<Made, AllocError> {
    let mut draws = Draws::begin(number);
    let pre = u64::from(draws.below(6));
    let count = if number % ONE_OF == 0 {
        MAX_CHOICES as u32
    } else {
        draws.below(9)
    };
    let mut choices = Vec::new(alloc);
    for _ in 0..count {
        choices.push(Choice {
            capacity: u64::from(draws.below(30)),
            cost: u128::from(draws.below(20)),
        })?;
    }
    let top = u64::from(draws.below(40));
    Ok(Made { pre, choices, top })
}
