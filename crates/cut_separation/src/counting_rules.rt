//! Rules by which the grains are counted that cross a set of nodes. Each counting is one that a cut may have, so no proof rests
//! on which a rule gives. A further rule is a module here with a `CountingRule`, and takes effect where `CutSearch::new` names it.

ghost use Rattle.std.specs.Prelude.{◌≤◌};
ghost use Rattle.plan_base.specs.declared.limits.TheConstants.{MAX_TOTAL_LOAD};

mod periods;
mod whole_rest;

use crate::counting::{Counting, Crossing};
pub use periods::Periods;
use plan_base::Instance;
use std::alloc::{AllocError, Global};
pub use whole_rest::WholeRest;

/// What crosses a set of nodes, as a rule sees it.
#[derive(Clone, Copy)]
pub struct Crossed<'a> {
    pub inst: &'a Instance,
    /// What leaves the set at least, in load grains.
    pub rest: u64,
    /// The places that cross the set.
    pub crossings: &'a [Crossing],
    ghost rest_fits: { rest ≤ MAX_TOTAL_LOAD },
}

/// Which grains are counted that cross a set of nodes.
pub trait CountingRule {
    /// The countings that are tried; want of memory is the only error.
    fn countings(&self, alloc: Global, crossed: Crossed<'_>) -> Result<Vec<Counting>, AllocError>;
}
