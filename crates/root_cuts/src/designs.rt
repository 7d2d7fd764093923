//! What a design costs, which tells an ascent how far to go.

ghost use Rattle.std.specs.Prelude.{◌<◌, IsTrue};
ghost use Rattle.completions.specs.Completions.{ArePaths};

use completions::complete;
use incumbent::lay_all;
use link_steps::StepTable;
use plan_base::{DemandId, Instance, Items, Path, is_simple_path};
use std::alloc::{AllocError, Global};

/// Whether these are one simple path for each demand, in order.
fn are_paths(inst: &Instance, paths: &Items<Path>) -> bool
    ensures { IsTrue result → ArePaths inst.now paths.now }
{
    if paths.len() != inst.demands() as usize {
        return false;
    }
    for place in 0..inst.demands() {
        let path = &paths.as_slice()[place as usize];
        if !is_simple_path(inst, DemandId(place), path) {
            return false;
        }
    }
    true
}

/// What a design costs whose demands are laid one by one, in cost grains; None where one cannot be laid.
///
/// - Takes: one simple path for each demand, in order.
/// - Errors: want of memory alone.
pub(crate) fn laid_cost(
    alloc: Global,
    steps: &StepTable,
    paths: &Items<Path>,
) -> Result<Option<u128>, AllocError> {
    if !are_paths(steps.instance(), paths) {
        return Ok(None);
    }
    let Some(laid) = lay_all(alloc, steps, paths)? else {
        return Ok(None);
    };
    match complete(alloc, steps, laid)? {
        Some((cost, _design)) => Ok(Some(cost)),
        None => Ok(None),
    }
}
