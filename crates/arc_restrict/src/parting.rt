//! Where two paths part.

ghost use Rattle.std.specs.Prelude.{◌≡◌, ◌↔◌, ◌<◌, IsNone, IfSome};
ghost use Rattle.arc_restrict.specs.Partings.{AreOfOneDemand, PartAt};

use plan_base::{ArcId, Instance, NodeId, Path};

/// The node where two paths first part, and the arcs along which they go on from there.
///
/// - Takes: two simple paths of one demand.
/// - Gives: `None` exactly where the paths are equal; else the node, the first path's arc and the
///   second path's arc.
/// - Rule: docs/METHOD.md, "Where two paths part".
pub fn divergence(inst: &Instance, first: &Path, second: &Path) -> Option<(NodeId, ArcId, ArcId)>
    requires { AreOfOneDemand inst.now first.now second.now }
    ensures none { IsNone result ↔ (first.now ≡ second.now) }
    ensures parts { IfSome result
        (λ found. PartAt inst.now first.now second.now found.0 found.1 found.2) }
    ensures within { IfSome result (λ found. found.0.0 < inst.now.nodes) }
{
    for (one, other) in first.as_slice().iter().zip(second.as_slice()) {
        if one != other {
            return Some((inst.tail(*one), *one, *other));
        }
    }
    None
}
