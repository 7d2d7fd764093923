//! How far no choice or a single one reaches.

ghost use Rattle.std.specs.Prelude.{◌<◌, ◌≤◌, length, All};
ghost use Rattle.explicit_steps.specs.Choices.{IsGreatestReach};

use crate::choices::Choice;
use crate::limits::{CAPACITY_BOUND, MAX_CHOICES};

/// The greatest load that no choice or a single one carries. Takes no memory.
///
/// - Takes: the pre-installed capacity, in load grains; the choices of a link.
/// - Gives: load grains.
/// - Rule: docs/DEFINITIONS.md, "Explicit capacities".
pub fn reach_of(pre: u64, choices: &[Choice]) -> u64
    requires pre { pre < CAPACITY_BOUND }
    requires capacities { All (λ choice. choice.capacity < CAPACITY_BOUND) choices.now }
    requires few { length choices.now ≤ MAX_CHOICES }
    ensures { IsGreatestReach pre choices.now result }
{
    let mut most = 0;
    for choice in choices {
        most = most.max(choice.capacity);
    }
    pre + most
}
