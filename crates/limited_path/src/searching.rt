//! One search, in memory of its own.

ghost use Rattle.std.specs.Prelude.{◌<◌, IfOk, IfSome, IfNone};
ghost use Rattle.least_path.specs.Paths.{AreWeights};
ghost use Rattle.limited_path.specs.Within.{IsLeastWithin, HasNoneWithin};

use crate::room::Room;
use plan_base::{Instance, NodeId, Path};
use std::alloc::{AllocError, Global};

/// A path and the sum of its weights.
#[derive(Debug, Drop)]
pub struct Way {
    pub path: Path,
    pub length: u128,
}

/// A path of least weight among those of at most so many arcs from the source to the target, and its weight; None where
/// no path of usable arcs has at most so many.
///
/// - Takes: what `Room::search_within` takes.
/// - Errors: want of memory alone.
/// - Rule: docs/METHOD.md, "Least paths of few arcs".
/// - Time: as `Room::search_within`.
pub fn search_within(
    alloc: Global,
    inst: &Instance,
    weights: &[Option<u128>],
    source: NodeId,
    target: NodeId,
    hops: u64,
) -> Result<Option<Way>, AllocError>
    requires weights { AreWeights inst.now weights.now }
    requires source { source.0 < inst.now.nodes }
    requires target { target.0 < inst.now.nodes }
    ensures path { IfOk result (λ found. IfSome found (λ way. IsLeastWithin inst.now weights.now source target hops way.path way.length)) }
    ensures none { IfOk result (λ found. IfNone found (HasNoneWithin inst.now weights.now source target hops)) }
{
    let mut room = Room::new(alloc, inst)?;
    let Some(length) = room.search_within(inst, weights, source, target, hops)? else {
        return Ok(None);
    };
    let mut path = Path::from_vec(Vec::new(alloc));
    room.swap(&mut path);
    Ok(Some(Way { path, length }))
}
