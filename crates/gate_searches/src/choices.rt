//! `choice_steps` and `reach_of`, compared with a plain twin on made links.
//!
//! The links come from a small generator (`made`), the same ones in each run: with none to 32 choices, of which many
//! cost the same or carry the same, and with tops below and above what they carry. The twin tries each load with no
//! choice and with every single one (`twin`). Written is a line for all links; an error comes at the first link where the
//! two differ. Begin at `compared`.

mod made;
mod twin;

use explicit_steps::limits::{CAPACITY_BOUND, MAX_CHOICES};
use explicit_steps::{ChoiceStep, choice_steps, reach_of};
use made::{Made, made_link};
use std::alloc::Global;
use twin::{plain_reach, plain_steps};

/// How many links are made.
const LINKS: u32 = 300;

/// The steps of a link that reaches so far. None where it is past a limit or reaches another load.
fn steps_of(alloc: Global, made: &Made, reach: u64) -> Option<Vec<ChoiceStep>> {
    let choices = made.choices.as_slice();
    if made.pre >= CAPACITY_BOUND || choices.len() > MAX_CHOICES {
        return None;
    }
    let are_small = choices
        .iter()
        .all(|choice| choice.capacity < CAPACITY_BOUND);
    if !are_small || reach_of(made.pre, choices) != reach {
        return None;
    }
    choice_steps(alloc, made.pre, choices, made.top).ok()
}

/// How many steps the link of this number has, and how many loads are out of its reach. None where the twin tells otherwise.
fn compared(alloc: Global, number: u32) -> Option<(usize, u64)> {
    let made = made_link(alloc, number).ok()?;
    let (wanted, unreached) = plain_steps(alloc, &made).ok()?;
    let steps = steps_of(alloc, &made, plain_reach(&made))?;
    if steps.as_slice() != wanted.as_slice() {
        return None;
    }
    Some((steps.len(), unreached))
}

/// Adds a line for all links, or the first of which the twin tells otherwise.
pub(crate) fn tell_choices(alloc: Global, text: &mut String) -> Option<()> {
    let mut steps: usize = 0;
    let mut out_of_reach: u64 = 0;
    for number in 0..LINKS {
        let Some((more, unreached)) = compared(alloc, number) else {
            return write!(text, "link {number} differs\n").ok();
        };
        steps = steps.saturating_add(more);
        out_of_reach = out_of_reach.saturating_add(unreached);
    }
    write!(
        text,
        "links {LINKS}, steps {steps}, loads out of reach {out_of_reach}\n"
    )
    .ok()
}
