//! What a restriction leaves to all demands.

ghost use Rattle.std.specs.Prelude.{◌≡◌, ◌<◌, ◌+◌, List, [], length, IfOk, OnOk, IfSome, IfNone, slice_index_or};
ghost use Rattle.plan_base.specs.declared.ids.ArcId.{ArcId as AnyArc};
ghost use Rattle.arc_restrict.specs.Rows.{forbids};
ghost use Rattle.arc_restrict.specs.Restrictions.{IsPermittedPath};
ghost use Rattle.second_path.specs.Others.{IsOtherPath, IsDetermined, IsFirstEmpty, IsFirstTwo, AreOnlyPaths};
ghost use Rattle.second_path.specs.Searching.{HasRoom, ArePaths, IsHeldTo};

use crate::determined::Determined;
use crate::others::{first_path, other_path};
use crate::search::Search;
use arc_restrict::Restriction;
use plan_base::{DemandId, Instance, Items, Path};
use std::alloc::{AllocError, Global};

/// Takes a permitted path of each demand, or names the first demand without one.
fn first_paths(
    alloc: Global,
    inst: &Instance,
    r: &Restriction,
    search: &mut Search,
    paths: &mut Vec<Path>,
) -> Result<Option<DemandId>, AllocError>
    requires room { HasRoom inst.now.nodes search.old }
    requires none { paths.old.items ≡ [] }
    ensures empty { IfOk result (λ found. IfSome found (λ k. IsFirstEmpty inst.now (forbids r.now) k.0 search.new.met.items)) }
    ensures paths { IfOk result (λ found. IfNone found (ArePaths inst.now (forbids r.now) (length inst.now.demands) paths.new.items)) }
    ensures room { OnOk result (HasRoom inst.now.nodes search.new) }
{
    for place in 0..inst.demands() {
        let k = DemandId(place);
        match first_path(alloc, inst, k, r, search)? {
            Some(path) => paths.push(path)?,
            None => return Ok(Some(k)),
        }
    }
    Ok(None)
}

/// A demand with two paths, and the second of them.
#[derive(Drop)]
struct Held {
    demand: DemandId,
    other: Path,
}

/// What is held after a demand more: the first with two paths, by larger load and then by lower
/// number.
fn hold_next(
    alloc: Global,
    inst: &Instance,
    k: DemandId,
    r: &Restriction,
    path: &Path,
    held: Option<Held>,
    search: &mut Search,
) -> Result<Option<Held>, AllocError>
    requires demand { k.0 < length inst.now.demands }
    requires path { IsPermittedPath inst.now (forbids r.now) k.0 path.now }
    requires held { IfSome held (λ h. h.demand.0 < length inst.now.demands) }
    requires room { HasRoom inst.now.nodes search.old }
    ensures held { IfOk result (λ found. (paths : List (List AnyArc)) → path.now ≡ slice_index_or paths k.0 []
        → IsHeldTo inst.now (forbids r.now) paths k.0 held → IsHeldTo inst.now (forbids r.now) paths (k.0 + 1) found) }
    ensures demand { IfOk result (λ found. IfSome found (λ h. h.demand.0 < length inst.now.demands)) }
    ensures room { OnOk result (HasRoom inst.now.nodes search.new) }
{
    if let Some(old) = &held {
        if inst.demand(k).load <= inst.demand(old.demand).load {
            return Ok(held);
        }
    }
    match other_path(alloc, inst, k, r, path, search)? {
        Some(other) => Ok(Some(Held { demand: k, other })),
        None => Ok(held),
    }
}

/// The first demand with two paths, where there is one.
fn first_two(
    alloc: Global,
    inst: &Instance,
    r: &Restriction,
    paths: &[Path],
    search: &mut Search,
) -> Result<Option<Held>, AllocError>
    requires paths { ArePaths inst.now (forbids r.now) (length inst.now.demands) paths.now }
    requires room { HasRoom inst.now.nodes search.old }
    ensures held { IfOk result (IsHeldTo inst.now (forbids r.now) paths.now (length inst.now.demands)) }
    ensures room { OnOk result (HasRoom inst.now.nodes search.new) }
{
    let mut held = None;
    for place in 0..inst.demands() {
        let path = &paths[place as usize];
        held = hold_next(alloc, inst, DemandId(place), r, path, held, search)?;
    }
    Ok(held)
}

/// Two paths of a demand that has two: those that a search finds which knows none of them.
fn pair_of(
    alloc: Global,
    inst: &Instance,
    k: DemandId,
    r: &Restriction,
    path: &Path,
    other: Path,
    search: &mut Search,
) -> Result<(Path, Path), AllocError>
    requires demand { k.0 < length inst.now.demands }
    requires path { IsPermittedPath inst.now (forbids r.now) k.0 path.now }
    requires other { IsOtherPath inst.now (forbids r.now) k.0 path.now other }
    requires room { HasRoom inst.now.nodes search.old }
    ensures first { IfOk result (λ pair. IsPermittedPath inst.now (forbids r.now) k.0 pair.0) }
    ensures second { IfOk result (λ pair. IsOtherPath inst.now (forbids r.now) k.0 pair.0 pair.1) }
{
    if let Some(first) = first_path(alloc, inst, k, r, search)? {
        if let Some(second) = other_path(alloc, inst, k, r, &first, search)? {
            return Ok((first, second));
        }
    }
    Ok((path.copy()?, other))
}

/// The first demand with two paths, by larger load and then by lower number, and two paths of it; None where no demand
/// has two.
fn two_among(
    alloc: Global,
    inst: &Instance,
    r: &Restriction,
    paths: &[Path],
) -> Result<Option<(DemandId, Path, Path)>, AllocError>
    requires { ArePaths inst.now (forbids r.now) (length inst.now.demands) paths.now }
    ensures two { IfOk result (λ found. IfSome found (λ two. IsFirstTwo inst.now (forbids r.now) two.0.0 two.1 two.2)) }
    ensures one { IfOk result (λ found. IfNone found (AreOnlyPaths inst.now (forbids r.now) paths.now)) }
{
    let mut search = Search::new(alloc, inst)?;
    let Some(Held { demand, other }) = first_two(alloc, inst, r, paths, &mut search)? else {
        return Ok(None);
    };
    let path = &paths[demand.0 as usize];
    let (first, second) = pair_of(alloc, inst, demand, r, path, other, &mut search)?;
    Ok(Some((demand, first, second)))
}

/// Which demands have no permitted path, one or more.
///
/// - Gives: `Empty` for the lowest-numbered demand without a permitted path, with the nodes that
///   permitted arcs lead to; else `Two` for the first demand with two, by larger load and then by
///   lower number; else `One`, the only path of each.
/// - Errors: want of memory.
/// - Rule: docs/METHOD.md, "What a restriction leaves".
/// - Time: demands times nodes times arcs.
pub fn determine(alloc: Global, inst: &Instance, r: &Restriction) -> Result<Determined, AllocError>
    ensures { IfOk result (IsDetermined inst.now (forbids r.now)) }
{
    let mut search = Search::new(alloc, inst)?;
    let mut paths = Vec::new(alloc);
    if let Some(demand) = first_paths(alloc, inst, r, &mut search, &mut paths)? {
        let reached = search.into_met();
        return Ok(Determined::Empty { demand, reached });
    }
    determine_among(alloc, inst, r, Items::from_vec(paths))
}

/// The same, where a permitted path of each demand is known. The answer does not depend on which paths these are.
///
/// - Takes: a permitted simple path of each demand, in order.
/// - Gives: `Two` for the first demand with two paths, by larger load and then by lower number; else `One`.
/// - Errors: want of memory.
/// - Rule: docs/METHOD.md, "What a restriction leaves".
/// - Time: nodes times arcs for each demand that has one path and no smaller load than the first with two.
pub fn determine_among(
    alloc: Global,
    inst: &Instance,
    r: &Restriction,
    paths: Items<Path>,
) -> Result<Determined, AllocError>
    requires { ArePaths inst.now (forbids r.now) (length inst.now.demands) paths }
    ensures { IfOk result (IsDetermined inst.now (forbids r.now)) }
{
    match two_among(alloc, inst, r, paths.as_slice())? {
        Some((demand, first, second)) => Ok(Determined::Two {
            demand,
            first,
            second,
        }),
        None => Ok(Determined::One(paths)),
    }
}
