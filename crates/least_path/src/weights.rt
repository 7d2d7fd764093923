//! Whether weights fit an instance.

ghost use Rattle.std.specs.Prelude.{◌≤◌, ◌↔◌, All, IsTrue};
ghost use Rattle.std.specs.Option.{unwrap_or};
ghost use Rattle.least_path.specs.Paths.{AreWeights};

use crate::limits::MAX_WEIGHT;
use plan_base::Instance;

/// Whether no weight is above the limit.
fn are_small(weights: &[Option<u128>]) -> bool
    ensures { IsTrue result ↔ All (λ w. unwrap_or w 0 ≤ MAX_WEIGHT) weights.now }
{
    weights
        .iter()
        .all(|weight| weight.unwrap_or(0) <= MAX_WEIGHT)
}

/// Whether there are as many weights as arc numbers, twice the count of links, and none is above `MAX_WEIGHT`.
///
/// - Rule: docs/METHOD.md, "Least paths".
/// - Time: linear in the weights.
pub fn are_weights(inst: &Instance, weights: &[Option<u128>]) -> bool
    ensures fits { IsTrue result ↔ AreWeights inst.now weights.now }
{
    weights.len() == inst.arcs() as usize && are_small(weights)
}
