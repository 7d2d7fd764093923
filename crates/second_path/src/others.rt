//! Another path of one demand.

ghost use Rattle.std.specs.Prelude.{◌≡◌, ◌≤◌, ◌<◌, ◌+◌, Some, None, length, take, ◌++◌, IfOk, OnOk, IfSome, IfNone};
ghost use Rattle.plan_base.specs.Arcs.{demand_at};
ghost use Rattle.plan_base.specs.Paths.{arc_at};
ghost use Rattle.arc_restrict.specs.Rows.{forbids};
ghost use Rattle.arc_restrict.specs.Restrictions.{IsPermittedPath, IsOnlyPath};
ghost use Rattle.second_path.specs.Others.{IsOtherPath, IsCutOff};
ghost use Rattle.second_path.specs.Searching.{IsBlockedTo, HasNoOtherAt, HasRoom};

use crate::route::find_route;
use crate::search::Search;
use crate::ways::Ways;
use arc_restrict::Restriction;
use plan_base::{ArcId, DemandId, Instance, Path};
use std::alloc::{AllocError, Global};

/// A permitted path of the demand, or `None` with the nodes that cut it off marked as met.
pub(crate) fn first_path(
    alloc: Global,
    inst: &Instance,
    k: DemandId,
    r: &Restriction,
    search: &mut Search,
) -> Result<Option<Path>, AllocError>
    requires demand { k.0 < length inst.now.demands }
    requires room { HasRoom inst.now.nodes search.old }
    ensures path { IfOk result (λ found. IfSome found (λ path. IsPermittedPath inst.now (forbids r.now) k.0 path)) }
    ensures none { IfOk result (λ found. IfNone found (IsCutOff inst.now (forbids r.now) k.0 search.new.met.items)) }
    ensures room { OnOk result (HasRoom inst.now.nodes search.new) }
{
    let demand = inst.demand(k);
    search.unblock();
    search.block(demand.source);
    let ways = Ways {
        inst,
        restriction: r,
        demand: k,
        left_out: None,
    };
    match find_route(alloc, &ways, demand.source, demand.target, search)? {
        Some(arcs) => Ok(Some(Path::from_vec(arcs))),
        None => Ok(None),
    }
}

/// The path as far as the place, and then the way.
fn joined(alloc: Global, path: &Path, place: usize, way: &[ArcId]) -> Result<Path, AllocError>
    requires { place ≤ length path.now }
    ensures { IfOk result (λ arcs. arcs ≡ take place path.now ++ way.now) }
{
    let mut arcs = Vec::from_slice(alloc, &path.as_slice()[..place])?;
    arcs.extend_from_slice(way)?;
    Ok(Path::from_vec(arcs))
}

/// Another permitted path, which parts from this one at a place of it.
fn other_at(
    alloc: Global,
    ways: &Ways,
    path: &Path,
    place: usize,
    search: &mut Search,
) -> Result<Option<Path>, AllocError>
    requires demand { ways.now.demand.0 < length ways.now.inst.now.demands }
    requires path { IsPermittedPath ways.now.inst.now (forbids ways.now.restriction.now) ways.now.demand.0 path.now }
    requires place { place < length path.now }
    requires left_out { ways.now.left_out ≡ Some (arc_at path.now place) }
    requires blocked { IsBlockedTo ways.now.inst.now (demand_at ways.now.inst.now ways.now.demand.0).source path.now (place + 1) search.old.blocked.items }
    requires room { HasRoom ways.now.inst.now.nodes search.old }
    ensures other { IfOk result (λ found. IfSome found (λ other. IsOtherPath ways.now.inst.now (forbids ways.now.restriction.now) ways.now.demand.0 path.now other)) }
    ensures none { IfOk result (λ found. IfNone found (HasNoOtherAt ways.now.inst.now (forbids ways.now.restriction.now) ways.now.demand.0 path.now place)) }
    ensures room { OnOk result (HasRoom ways.now.inst.now.nodes search.new) }
    ensures blocked { search.new.blocked ≡ search.old.blocked }
{
    let start = ways.inst.tail(path.as_slice()[place]);
    let target = ways.inst.demand(ways.demand).target;
    match find_route(alloc, ways, start, target, search)? {
        Some(way) => Ok(Some(joined(alloc, path, place, &way)?)),
        None => Ok(None),
    }
}

/// Another permitted path than this one, found with the room of an earlier search.
pub(crate) fn other_path(
    alloc: Global,
    inst: &Instance,
    k: DemandId,
    r: &Restriction,
    path: &Path,
    search: &mut Search,
) -> Result<Option<Path>, AllocError>
    requires demand { k.0 < length inst.now.demands }
    requires path { IsPermittedPath inst.now (forbids r.now) k.0 path.now }
    requires room { HasRoom inst.now.nodes search.old }
    ensures other { IfOk result (λ found. IfSome found (IsOtherPath inst.now (forbids r.now) k.0 path.now)) }
    ensures none { IfOk result (λ found. IfNone found (IsOnlyPath inst.now (forbids r.now) k.0 path.now)) }
    ensures room { OnOk result (HasRoom inst.now.nodes search.new) }
{
    search.unblock();
    for (place, next) in path.as_slice().iter().enumerate() {
        search.block(inst.tail(*next));
        let ways = Ways {
            inst,
            restriction: r,
            demand: k,
            left_out: Some(*next),
        };
        let found = other_at(alloc, &ways, path, place, search)?;
        if found.is_some() {
            return Ok(found);
        }
    }
    Ok(None)
}

/// Another permitted path of the demand than this one.
///
/// - Takes: a permitted simple path of the demand.
/// - Gives: a simple path, or `None` exactly where there is no other.
/// - Errors: want of memory.
/// - Rule: docs/METHOD.md, "Other paths".
/// - Time: nodes times arcs.
pub fn second(
    alloc: Global,
    inst: &Instance,
    k: DemandId,
    r: &Restriction,
    path: &Path,
) -> Result<Option<Path>, AllocError>
    requires demand { k.0 < length inst.now.demands }
    requires path { IsPermittedPath inst.now (forbids r.now) k.0 path.now }
    ensures other { IfOk result (λ found. IfSome found (IsOtherPath inst.now (forbids r.now) k.0 path.now)) }
    ensures none { IfOk result (λ found. IfNone found (IsOnlyPath inst.now (forbids r.now) k.0 path.now)) }
{
    let mut search = Search::new(alloc, inst)?;
    other_path(alloc, inst, k, r, path, &mut search)
}
