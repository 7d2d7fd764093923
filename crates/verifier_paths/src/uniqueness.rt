//! Whether each demand has one permitted path and no second one.

ghost use Rattle.std.specs.Prelude.{◌≡◌, ◌↔◌, ◌<◌, true, false, List, reverse, length, IsTrue, Some, IfOk, IfSome, IfNone};
ghost use Rattle.plan_base.specs.declared.ids.ArcId.{ArcId as AnyArc};
ghost use Rattle.plan_base.specs.Facts.{IsInstance};
ghost use Rattle.plan_base.specs.Arcs.{demand_at};
ghost use Rattle.arc_restrict.specs.Restrictions.{IsPermittedPath, IsOnlyPath};
ghost use Rattle.verifier_paths.specs.Kept.{forbidden_by};
ghost use Rattle.verifier_paths.specs.Labels.{open_arcs, label_at};
ghost use Rattle.verifier_paths.specs.OnlyPaths.{HavePaths, HasSecond, IsOnlyPaths, ArePathsTo, AreOnlyTo, IsStep, IsStepBack, IsPathOf, AreOnes, AreFewestArcs};

use crate::marks::Forbidden;
use crate::rounds::{Ways, least_prices};
use plan_base::{ArcId, DemandId, Instance, Items, NodeId, Path};
use std::alloc::{AllocError, Global};

/// What is left to the demands.
#[derive(Debug, Drop)]
pub enum OnlyPaths {
    /// A demand has no permitted path.
    Missing,
    /// Each demand has a permitted path, and one has a second one.
    Second,
    /// The only permitted path of each, in the order of demands.
    Only(Items<Path>),
}

/// Whether the arc may be taken to the node, from one with so many steps.
fn is_step(ways: &Ways, labels: &[Option<u128>], arc: ArcId, here: NodeId, steps: u128) -> bool
    requires nodes { length labels.now ≡ ways.now.inst.now.nodes }
    ensures { IsTrue result ↔ IsStep ways.now.inst.now (open_arcs ways.now) labels.now here.0 steps arc }
{
    ways.may_take(arc)
        && ways.inst.head(arc) == here
        && labels[ways.inst.tail(arc).0 as usize] == Some(steps)
}

/// An arc that may be taken to the node from one that is one arc nearer to the source.
fn step_back(ways: &Ways, labels: &[Option<u128>], here: NodeId, steps: u128) -> Option<ArcId>
    requires nodes { length labels.now ≡ ways.now.inst.now.nodes }
    ensures { IsStepBack ways.now.inst.now (open_arcs ways.now) labels.now here.0 steps result }
{
    for number in 0..ways.inst.arcs() {
        let arc = ArcId(number);
        if is_step(ways, labels, arc, here, steps) {
            return Some(arc);
        }
    }
    None
}

/// The arcs in the other order.
fn reversed(arcs: Vec<ArcId>) -> Path
    ensures { result ≡ reverse arcs.items }
{
    let mut arcs = arcs;
    arcs.reverse();
    Path::from_vec(arcs)
}

/// The arcs back from the demand's target to its source, along ever fewer steps.
fn arcs_back(
    alloc: Global,
    ways: &Ways,
    labels: &[Option<u128>],
    target: NodeId,
    steps: u128,
) -> Result<Vec<ArcId>, AllocError>
    requires lawful { IsInstance ways.now.inst.now }
    requires labels { AreFewestArcs ways.now.inst.now (open_arcs ways.now) (demand_at ways.now.inst.now ways.now.demand.0).source.0 labels.now }
    requires target { target ≡ (demand_at ways.now.inst.now ways.now.demand.0).target }
    requires node { target.0 < ways.now.inst.now.nodes }
    requires steps { label_at labels.now target.0 ≡ Some steps }
    ensures { IfOk result (λ arcs. IsPathOf ways.now.inst.now (open_arcs ways.now) ways.now.demand.0 (reverse arcs.items)) }
{
    let mut arcs = Vec::new(alloc);
    let mut here = target;
    let mut left = steps;
    while left > 0 {
        left -= 1;
        match step_back(ways, labels, here, left) {
            Some(arc) => {
                arcs.push(arc)?;
                here = ways.inst.tail(arc);
            }
            None => return Ok(arcs),
        }
    }
    Ok(arcs)
}

/// A path of fewest arcs of the demand, where there is a path of arcs that may be taken.
fn find_path(alloc: Global, ways: &Ways, ones: &[u128]) -> Result<Option<Path>, AllocError>
    requires demand { ways.now.demand.0 < length ways.now.inst.now.demands }
    requires ones { AreOnes ways.now.inst.now ones.now }
    ensures path { IfOk result (λ found. IfSome found (IsPathOf ways.now.inst.now (open_arcs ways.now) ways.now.demand.0)) }
    ensures none { IfOk result (λ found. IfNone found ((arcs : List AnyArc) → IsPathOf ways.now.inst.now (open_arcs ways.now) ways.now.demand.0 arcs → ⊥)) }
{
    let target = ways.inst.demand(ways.demand).target;
    let labels = least_prices(alloc, ways, ones)?;
    match labels[target.0 as usize] {
        Some(steps) => {
            let arcs = arcs_back(alloc, ways, &labels, target, steps)?;
            Ok(Some(reversed(arcs)))
        }
        None => Ok(None),
    }
}

/// Whether the demand has another permitted path than this one: one that leaves out one of its arcs.
fn has_second(
    alloc: Global,
    inst: &Instance,
    forbidden: &Forbidden,
    demand: DemandId,
    path: &[ArcId],
    ones: &[u128],
) -> Result<bool, AllocError>
    requires demand { demand.0 < length inst.now.demands }
    requires path { IsPermittedPath inst.now (forbidden_by forbidden.now) demand.0 path.now }
    requires ones { AreOnes inst.now ones.now }
    ensures no { IfOk result (λ second. second ≡ false → IsOnlyPath inst.now (forbidden_by forbidden.now) demand.0 path.now) }
    ensures yes { IfOk result (λ second. second ≡ true → IsOnlyPath inst.now (forbidden_by forbidden.now) demand.0 path.now → ⊥) }
{
    for arc in path {
        let ways = Ways {
            inst,
            forbidden,
            demand,
            left_out: Some(*arc),
        };
        if find_path(alloc, &ways, ones)?.is_some() {
            return Ok(true);
        }
    }
    Ok(false)
}

/// A permitted path of each demand, where each has one.
fn first_paths(
    alloc: Global,
    inst: &Instance,
    forbidden: &Forbidden,
    ones: &[u128],
) -> Result<Option<Vec<Path>>, AllocError>
    requires ones { AreOnes inst.now ones.now }
    ensures paths { IfOk result (λ found. IfSome found (λ paths. ArePathsTo inst.now (forbidden_by forbidden.now) (length inst.now.demands) paths.items)) }
    ensures none { IfOk result (λ found. IfNone found (HavePaths inst.now (forbidden_by forbidden.now) → ⊥)) }
{
    let mut paths = Vec::new(alloc);
    for place in 0..inst.demands() {
        let ways = Ways {
            inst,
            forbidden,
            demand: DemandId(place),
            left_out: None,
        };
        match find_path(alloc, &ways, ones)? {
            Some(path) => paths.push(path)?,
            None => return Ok(None),
        }
    }
    Ok(Some(paths))
}

/// Whether a demand has another permitted path than its own of these.
fn any_second(
    alloc: Global,
    inst: &Instance,
    forbidden: &Forbidden,
    paths: &[Path],
    ones: &[u128],
) -> Result<bool, AllocError>
    requires paths { ArePathsTo inst.now (forbidden_by forbidden.now) (length inst.now.demands) paths.now }
    requires ones { AreOnes inst.now ones.now }
    ensures no { IfOk result (λ second. second ≡ false → AreOnlyTo inst.now (forbidden_by forbidden.now) (length inst.now.demands) paths.now) }
    ensures yes { IfOk result (λ second. second ≡ true → HasSecond inst.now (forbidden_by forbidden.now)) }
{
    for place in 0..inst.demands() {
        let path = paths[place as usize].as_slice();
        if has_second(alloc, inst, forbidden, DemandId(place), path, ones)? {
            return Ok(true);
        }
    }
    Ok(false)
}

/// What is left to the demands: no path to one, two to one, or one to each.
///
/// - Errors: want of memory.
/// - Rule: docs/DEFINITIONS.md, "Restrictions".
/// - Time: demands times nodes times arcs, and as often the arcs of the paths.
pub fn only_paths(
    alloc: Global,
    inst: &Instance,
    forbidden: &Forbidden,
) -> Result<OnlyPaths, AllocError>
    ensures left { IfOk result (IsOnlyPaths inst.now (forbidden_by forbidden.now)) }
{
    let ones = vec![in alloc; 1; inst.places() as usize]?;
    match first_paths(alloc, inst, forbidden, &ones)? {
        Some(paths) => {
            if any_second(alloc, inst, forbidden, &paths, &ones)? {
                Ok(OnlyPaths::Second)
            } else {
                Ok(OnlyPaths::Only(Items::from_vec(paths)))
            }
        }
        None => Ok(OnlyPaths::Missing),
    }
}
