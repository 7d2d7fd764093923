//! Whether paths are simple paths of their demands.

ghost use Rattle.std.specs.Prelude.{◌≡◌, ◌<◌, ◌^◌, ◌&&◌, ◌||◌, ◌==◌, ◌↔◌, ℕ, length, IfOk, IsTrue};
ghost use Rattle.std.specs.Result.{result_err};
ghost use Rattle.plan_base.specs.First.{first_fault};
ghost use Rattle.plan_base.specs.Facts.{IsInstance};
ghost use Rattle.plan_base.specs.Arcs.{is_arc, tail_of, head_of, demand_at};
ghost use Rattle.plan_base.specs.Paths.{IsSimplePath};
ghost use Rattle.plan_base.specs.DesignFaults.{path_fault, length_fault, demand_path_fault};
ghost use Rattle.base_items.specs.Met.{is_met};
ghost use Rattle.plan_base.specs.Walks.{walk_fault};

use crate::design_fault::DesignFault;
use crate::ids::{ArcId, DemandId, NodeId};
use crate::instance::Instance;
use crate::parts::Demand;
use crate::path::{Design, Path};
use base_items::MetNodes;

/// Whether the arc exists and begins at the node.
fn leaves(inst: &Instance, arc: ArcId, node: NodeId) -> bool
    ensures { result ≡ (is_arc inst.now arc && ((tail_of inst.now arc).0 == node.0)) }
{
    inst.is_arc(arc) && inst.tail(arc) == node
}

/// The node that the walk goes on to along the arc at this place.
#[tactic(auto, unfolding(crate::specs::Walks::walk_fault))]
fn next_node(
    inst: &Instance,
    demand: DemandId,
    place: u32,
    here: NodeId,
    arc: ArcId,
    met: &mut MetNodes,
) -> Result<NodeId, DesignFault>
    requires lawful { IsInstance inst.now }
    ensures fault { result_err result ≡ walk_fault inst.now demand met.old here.0 place arc }
    ensures next { IfOk result (λ next. next ≡ head_of inst.now arc) }
    ensures within { IfOk result (λ next. next.0 < inst.now.nodes) }
    ensures met { IfOk result (λ next. (n : ℕ) → is_met met.new n ≡ (is_met met.old n || (next.0 == n))) }
{
    if !leaves(inst, arc, here) {
        return Err(DesignFault::NotAPath { demand, place });
    }
    let next = inst.head(arc);
    if met.has(next.0) {
        return Err(DesignFault::Repeats { demand, place });
    }
    met.add(next.0);
    Ok(next)
}

/// Whether a path of so many arcs is within the limit, if there is one.
fn check_length(demand: DemandId, hops: Option<u64>, arcs: usize) -> Result<(), DesignFault>
    requires { arcs < 2 ^ 32 }
    ensures { result_err result ≡ length_fault demand hops arcs }
{
    match hops {
        Some(limit) if arcs as u64 > limit => Err(DesignFault::TooLong {
            demand,
            arcs: arcs as u32,
            limit,
        }),
        _ => Ok(()),
    }
}

/// Whether the arcs are a simple path of the demand.
#[tactic(auto, using(crate::proofs::WalkLaws::walk_laws), unfolding(crate::specs::DesignFaults::path_fault))]
fn check_path(
    inst: &Instance,
    id: DemandId,
    demand: &Demand,
    arcs: &[ArcId],
    met: &mut MetNodes,
) -> Result<(), DesignFault>
    requires lawful { IsInstance inst.now }
    requires source { demand.now.source.0 < inst.now.nodes }
    ensures fault { result_err result ≡ path_fault inst.now id demand.now arcs.now }
    ensures short { IfOk result (λ _. length arcs.now < inst.now.nodes) }
{
    let mut here = demand.source;
    met.begin(here.0);
    for (place, arc) in arcs.iter().enumerate() {
        here = next_node(inst, id, place as u32, here, *arc, met)?;
    }
    if here != demand.target {
        return Err(DesignFault::NotAPath {
            demand: id,
            place: arcs.len() as u32,
        });
    }
    Ok(())
}

/// Whether the path has no more arcs than its demand's limit.
#[tactic(auto, unfolding(crate::specs::DesignFaults::demand_path_fault))]
fn check_demand_path(
    inst: &Instance,
    design: &Design,
    id: DemandId,
    met: &mut MetNodes,
) -> Result<(), DesignFault>
    requires lawful { IsInstance inst.now }
    requires paths { length design.now.paths ≡ length inst.now.demands }
    requires demand { id.0 < length inst.now.demands }
    ensures { result_err result ≡ demand_path_fault inst.now design.now id.0 }
{
    let path = design.paths.as_slice()[id.0 as usize].as_slice();
    check_path(inst, id, inst.demand(id), path, met)?;
    check_length(id, inst.demand(id).hops, path.len())
}

/// Whether each path of the design is a simple path of its demand, and within its limit.
///
/// - Time: linear in the arcs of all paths, up to the first fault.
#[tactic(auto, using(crate::proofs::FirstFault::first_faults))]
pub(crate) fn check_paths(inst: &Instance, design: &Design) -> Result<(), DesignFault>
    requires { length design.now.paths ≡ length inst.now.demands }
    ensures { result_err result
        ≡ first_fault (demand_path_fault inst.now design.now) (length inst.now.demands) }
{
    let mut met = MetNodes::new();
    for place in 0..inst.demands() {
        check_demand_path(inst, design, DemandId(place), &mut met)?;
    }
    Ok(())
}

/// Whether the path is a simple path of the demand.
///
/// - Rule: docs/DEFINITIONS.md, "Simple paths".
/// - Time: linear in the arcs. Takes no memory.
pub fn is_simple_path(inst: &Instance, demand: DemandId, path: &Path) -> bool
    requires { demand.0 < length inst.now.demands }
    ensures { IsTrue result ↔ IsSimplePath inst.now (demand_at inst.now demand.0) path.now }
{
    inst.lawful();
    let mut met = MetNodes::new();
    check_path(inst, demand, inst.demand(demand), path.as_slice(), &mut met).is_ok()
}
