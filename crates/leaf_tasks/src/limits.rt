//! Least paths, where demands have limits on arcs.

ghost use Rattle.std.specs.Prelude.{ℕ, ◌≡◌, ◌≢◌, ◌↔◌, ◌<◌, length, IsTrue, IfOk, OnOk, IfSome, IfNone};
ghost use Rattle.plan_base.specs.Designs.{path_at, KeepsLimits};
ghost use Rattle.arc_restrict.specs.Rows.{forbids};
ghost use Rattle.path_pricing.specs.Priced.{ArePrices};
ghost use Rattle.completions.specs.Completions.{with_paths, ArePaths};
ghost use Rattle.leaf_tasks.specs.Limits.{IsShortenedTo, MayStay, IsFitted, AreFitted, HavePathsWithin};

use arc_restrict::Restriction;
use hop_pricing::{Within, least_within};
use path_pricing::Query;
use plan_base::{DemandId, Instance, Items, Path, Prices};
use std::alloc::{AllocError, Global};

/// Whether no path has more arcs than its demand's limit.
///
/// - Takes: one simple path for each demand, in order.
/// - Time: linear in demands.
pub fn keep_limits(inst: &Instance, paths: &Items<Path>) -> bool
    requires paths { ArePaths inst.now paths.now }
    ensures { IsTrue result ↔ KeepsLimits inst.now (with_paths paths.now) }
{
    for number in 0..inst.demands() {
        let arcs = paths.as_slice()[number as usize].as_slice().len();
        if !inst.demand(DemandId(number)).keeps_limit(arcs) {
            return false;
        }
    }
    true
}

/// A permitted path of least price within the demand's limit, where this one has more arcs and there is one.
#[tactic(auto, using(crate::proofs::LimitLaws::at_its_price))]
fn shorter(
    alloc: Global,
    inst: &Instance,
    prices: &Prices,
    demand: DemandId,
    restriction: &Restriction,
    path: &Path,
) -> Result<Option<Path>, AllocError>
    requires prices { ArePrices inst.now prices.now }
    requires demand { demand.0 < length inst.now.demands }
    ensures some { IfOk result (λ found. IfSome found (IsShortenedTo inst.now (forbids restriction.now) prices.now demand.0 path.now)) }
    ensures none { IfOk result (λ found. IfNone found (MayStay inst.now (forbids restriction.now) demand.0 path.now)) }
{
    let Some(limit) = inst.demand(demand).hops else {
        return Ok(None);
    };
    if path.as_slice().len() as u64 <= limit {
        return Ok(None);
    }
    let query = Query {
        inst,
        prices,
        demand,
        restriction,
    };
    match least_within(alloc, query, limit)? {
        Within::Path {
            path: shorter,
            length: _length,
        } => Ok(Some(shorter)),
        Within::Far { fewest: _fewest } => Ok(None),
    }
}

/// Puts a path within the demand's limit in the place of one that has more arcs, where there is one.
fn fit_path(
    alloc: Global,
    inst: &Instance,
    prices: &Prices,
    demand: DemandId,
    restriction: &Restriction,
    paths: &mut Vec<Path>,
) -> Result<(), AllocError>
    requires prices { ArePrices inst.now prices.now }
    requires demand { demand.0 < length inst.now.demands }
    requires paths { length paths.old.items ≡ length inst.now.demands }
    ensures fitted { OnOk result (IsFitted inst.now (forbids restriction.now) prices.now demand.0
        (path_at (with_paths paths.old.items) demand.0) (path_at (with_paths paths.new.items) demand.0)) }
    ensures others { (k : ℕ) → k ≢ demand.0 → path_at (with_paths paths.new.items) k ≡ path_at (with_paths paths.old.items) k }
    ensures count { length paths.new.items ≡ length paths.old.items }
{
    let place = demand.0 as usize;
    if let Some(path) = shorter(alloc, inst, prices, demand, restriction, &paths[place])? {
        paths[place] = path;
    }
    Ok(())
}

/// The paths, where each that has more arcs than its demand's limit is replaced by a permitted path of least price within
/// that limit. Where no permitted path is within it, the path stays, and breaks the limit.
///
/// - Takes: where memory comes from; an instance, prices that fit it in thousandths of a cost grain per load grain, a
///   restriction, and one simple path for each demand, in order.
/// - Gives: one simple path for each demand, in order.
/// - Errors: want of memory alone. The paths are spent.
/// - Rule: docs/METHOD.md, "A design to begin with".
/// - Time: that of `hop_pricing::least_within` for each path that has too many arcs. Where none has, it takes no memory.
#[tactic(auto, using(crate::proofs::LimitLaws::all_keep))]
pub fn paths_within(
    alloc: Global,
    inst: &Instance,
    prices: &Prices,
    restriction: &Restriction,
    paths: Items<Path>,
) -> Result<Items<Path>, AllocError>
    requires prices { ArePrices inst.now prices.now }
    requires paths { ArePaths inst.now paths }
    ensures paths { IfOk result (ArePaths inst.now) }
    ensures each { IfOk result (AreFitted inst.now (forbids restriction.now) prices.now paths) }
    ensures limits { HavePathsWithin inst.now (forbids restriction.now) → IfOk result (λ fitted. KeepsLimits inst.now (with_paths fitted)) }
{
    let mut fitted = paths.into_vec();
    for number in 0..inst.demands() {
        fit_path(
            alloc,
            inst,
            prices,
            DemandId(number),
            restriction,
            &mut fitted,
        )?;
    }
    Ok(Items::from_vec(fitted))
}
