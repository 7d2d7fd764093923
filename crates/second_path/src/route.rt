//! The way back along the arrivals of a search.

ghost use Rattle.std.specs.Prelude.{◌≡◌, ◌<◌, IsTrue, List, Bool, true, length, IfOk, IfSome, IfNone, OnOk, All};
ghost use Rattle.plan_base.specs.declared.ids.NodeId.{NodeId as AnyNode};
ghost use Rattle.plan_base.specs.declared.ids.ArcId.{ArcId as AnyArc};
ghost use Rattle.plan_base.specs.Arcs.{is_arc};
ghost use Rattle.arc_restrict.specs.Rows.{forbids};
ghost use Rattle.second_path.specs.Ways.{may_take};
ghost use Rattle.second_path.specs.Others.{holds};
ghost use Rattle.second_path.specs.Searching.{IsBefore, IsTree, IsFreeRoute, IsStepBack, IsInVain, HasRoom};

use crate::search::Search;
use crate::ways::Ways;
use plan_base::{ArcId, Instance, NodeId};
use std::alloc::{AllocError, Global};

/// Picks the arrival where it leads to the wanted node, and says which node is wanted next.
fn step_back(
    inst: &Instance,
    arc: ArcId,
    want: NodeId,
    picked: &mut Vec<ArcId>,
) -> Result<NodeId, AllocError>
    requires { IsTrue (is_arc inst.now arc) }
    ensures { IfOk result (λ more. IsStepBack inst.now arc want more picked.old.items picked.new.items) }
{
    if inst.head(arc) != want {
        return Ok(want);
    }
    picked.push(arc)?;
    Ok(inst.tail(arc))
}

/// The route to the target, from the start of the search whose arrivals these are.
#[tactic(auto, using(crate::proofs::Routes::routes))]
fn route_to(
    alloc: Global,
    inst: &Instance,
    arrivals: &[ArcId],
    target: NodeId,
) -> Result<Vec<ArcId>, AllocError>
    requires { All (λ a. IsTrue (is_arc inst.now a)) arrivals.now }
    ensures { IfOk result (λ arcs. (takes : AnyArc → Bool) (first : List Bool) (start : AnyNode)
        → ((a : AnyArc) → takes a ≡ true → IsTrue (is_arc inst.now a))
        → IsTree inst.now takes first start arrivals.now
        → IsBefore inst.now start arrivals.now (length arrivals.now) target.0
        → IsFreeRoute inst.now takes first start target arcs.items) }
{
    let mut picked = Vec::new(alloc);
    let mut want = target;
    let mut place = arrivals.len();
    while place > 0 {
        place -= 1;
        want = step_back(inst, arrivals[place], want, &mut picked)?;
    }
    picked.reverse();
    Ok(picked)
}

/// A route that enters no blocked node, where there is one.
pub(crate) fn find_route(
    alloc: Global,
    ways: &Ways,
    start: NodeId,
    target: NodeId,
    search: &mut Search,
) -> Result<Option<Vec<ArcId>>, AllocError>
    requires start { start.0 < ways.now.inst.now.nodes }
    requires target { target.0 < ways.now.inst.now.nodes }
    requires room { HasRoom ways.now.inst.now.nodes search.old }
    requires start_blocked { holds search.old.blocked.items start.0 ≡ true }
    requires target_free { holds search.old.blocked.items target.0 ≡ true → target.0 ≡ start.0 }
    ensures route { IfOk result (λ found. IfSome found (λ arcs. IsFreeRoute ways.now.inst.now
        (may_take ways.now.inst.now (forbids ways.now.restriction.now) ways.now.demand.0 ways.now.left_out)
        search.old.blocked.items start target arcs.items)) }
    ensures none { IfOk result (λ found. IfNone found (IsInVain ways.now.inst.now
        (may_take ways.now.inst.now (forbids ways.now.restriction.now) ways.now.demand.0 ways.now.left_out)
        search.old.blocked.items start target search.new.met.items search.new.arrivals.items)) }
    ensures room { OnOk result (HasRoom ways.now.inst.now.nodes search.new) }
    ensures blocked { search.new.blocked ≡ search.old.blocked }
{
    search.run(ways, start)?;
    if !search.has_met(target) {
        return Ok(None);
    }
    let arcs = route_to(alloc, ways.inst, search.arrivals.as_slice(), target)?;
    Ok(Some(arcs))
}
