//! What arcs weigh, asked for arc by arc.

ghost use Rattle.std.specs.Prelude.{◌≡◌, ◌<◌, ◌≤◌, length, slice_index_or, None};
ghost use Rattle.std.specs.Option.{unwrap_or};
ghost use Rattle.least_path.specs.Paths.{Weights};

use crate::limits::MAX_WEIGHT;
use plan_base::ArcId;

/// Weights that are told arc by arc, so that those alone are worked out that a search asks for.
pub trait Weigher {
    /// One weight for each arc number; none where the arc may not be used.
    ghost weights: { Self → Weights };

    /// What a call of `weight` stands on.
    ghost fits: { Self → Type 0 };

    /// The weight of an arc; None where it may not be used.
    fn weight(&self, arc: ArcId) -> Option<u128>
        requires fits { fits self.now }
        requires number { arc.0 < length (weights self.now) }
        ensures value { result ≡ slice_index_or (weights self.now) arc.0 None }
        ensures small { unwrap_or result 0 ≤ MAX_WEIGHT };
}

/// Weights that stand in a list.
#[derive(Clone, Copy, Debug)]
pub struct Listed<'a> {
    pub weights: &'a [Option<u128>],
}

impl Weigher for Listed<'_> {
    ghost use Rattle.std.specs.Prelude.{◌≤◌, All};
    ghost use Rattle.std.specs.Option.{unwrap_or};
    ghost use Rattle.least_path.specs.declared.limits.TheConstants.{MAX_WEIGHT};

    ghost weights = { λ a. a.weights.now };

    ghost fits = { λ a. All (λ w. unwrap_or w 0 ≤ MAX_WEIGHT) a.weights.now };

    fn weight(&self, arc: ArcId) -> Option<u128> {
        self.weights[arc.0 as usize]
    }
}
