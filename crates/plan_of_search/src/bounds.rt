//! The least of the bounds of the open leaves and the cost of the best design.

ghost use Rattle.std.specs.Prelude.{◌≡◌, ◌<◌, ◌≤◌, ◌^◌, ◌+◌, ◌↔◌, length, option_map, pos, IfOk, IfSome, IsTrue};
ghost use Rattle.link_steps.specs.Ranges.{AreRanges};
ghost use Rattle.arc_restrict.specs.Rows.{forbids};
ghost use Rattle.path_pricing.specs.Priced.{ArePrices};
ghost use Rattle.cut_values.specs.Numbers.{AreNumbers};
ghost use Rattle.search_machine.specs.State.{cutoff_of};
ghost use Rattle.plan_of_search.specs.PlanParts.{machine_state, IsReachable, region_in, IsAssembled, IsPriceOrNone, IsBoundOrNone, IsLeafBound, IsLeafBoundOrNone, IsLeastOrNone};
ghost use Rattle.plan_of_search.specs.LeafLows.{AreLows, IsLow, IsNeedless, IsLimitOrNone, IsBegun, IsLesserOver};

use crate::lows::{lowest_leaf, lows_of};
use arc_restrict::Restriction;
use bound_assembly::Round;
use cut_values::CutTable;
use leaf_tasks::{Known, KnownAbove, Trees, find};
use link_steps::Ranges;
use path_pricing::{Priced, Query};
use plan_base::{BranchId, DemandId, Instance, Prices};
use search_nodes::{SearchState, lesser};
use std::alloc::{AllocError, Global};
use std::sync::Arc;

/// The least price of a permitted path of the demand; none where it has no permitted path.
fn least_price(
    trees: &mut Trees,
    query: Query<'_>,
    known: Option<&Arc<Priced>>,
) -> Result<Option<u128>, AllocError>
    requires prices { ArePrices query.inst.now query.prices.now }
    requires demand { query.demand.0 < length query.inst.now.demands }
    ensures { IfOk result (IsPriceOrNone query.entry.inst.now (forbids query.entry.restriction.now) query.entry.prices.now query.entry.demand.0) }
{
    let found = find(trees, query, known)?;
    match &*found {
        Priced::Path {
            path: _path,
            length,
            potentials: _potentials,
        } => Ok(Some(*length)),
        Priced::NoPath { reached: _reached } => Ok(None),
    }
}

/// What is known of a demand, if anything is.
fn known_of(known: Option<&Known>, demand: DemandId) -> Option<&Arc<Priced>> {
    match known {
        Some(known) => known.of(demand),
        None => None,
    }
}

/// The bound that prices and rates give to a region, in cost grains; none where a demand has no permitted path.
fn bound_at(
    alloc: Global,
    inst: &Instance,
    table: &CutTable,
    prices: &Prices,
    restriction: &Restriction,
    ranges: &Ranges,
    known: Option<&Known>,
) -> Result<Option<i128>, AllocError>
    requires table { table.now.problem ≡ inst.now }
    requires numbers { AreNumbers inst.now table.now.cuts prices.now }
    requires ranges { AreRanges inst.now ranges.now }
    ensures { IfOk result (IsBoundOrNone inst.now table.now.cuts (region_in (record { rows = restriction.now; ranges = ranges.now })) prices.now) }
{
    let demands = inst.demands();
    let mut trees = Trees::none(alloc);
    let mut round = Round::new(alloc, demands, inst.places() + table.count())?;
    round.restart(BranchId(0), 0, prices);
    for number in 0..demands {
        let demand = DemandId(number);
        let query = Query {
            inst,
            prices,
            demand,
            restriction,
        };
        let Some(length) = least_price(&mut trees, query, known_of(known, demand))? else {
            return Ok(None);
        };
        round.put(demand, length);
    }
    Ok(round.bound(inst, table, ranges))
}

/// A cost as a bound.
fn signed(cost: u128) -> i128
    requires { cost < 2 ^ 127 }
    ensures { result ≡ pos cost }
{
    cost as i128
}

/// The cost of the best design, in cost grains.
fn signed_cost(state: &SearchState) -> Option<i128>
    requires { IsReachable (machine_state state.now) }
    ensures { result ≡ option_map (λ cost. pos cost) (cutoff_of (machine_state state.now)) }
{
    match &state.incumbent {
        Some(held) => Some(signed(held.cost)),
        None => None,
    }
}

/// The bound of an open leaf at its kept prices, in cost grains: what is recorded, or the bound at its first
/// prices where no version was complete. None for another node, and where a demand has no permitted path.
fn leaf_bound(
    state: &SearchState,
    known: &KnownAbove,
    number: usize,
) -> Result<Option<i128>, AllocError>
    requires assembled { IsAssembled state.now }
    requires number { number < length state.now.nodes.items }
    ensures { IfOk result (IsLeafBoundOrNone (machine_state state.now) number) }
{
    let Some(plot) = state.grounds[number].plot() else {
        return Ok(None);
    };
    let leaf = &state.nodes[number];
    if let Some(bound) = leaf.bound() {
        return Ok(Some(bound));
    }
    bound_at(
        state.alloc,
        &*state.problem,
        &*state.table,
        leaf.first_prices(),
        &**plot.rows(),
        &**plot.ranges(),
        known.of(number),
    )
}

/// What is recorded of an open leaf, in cost grains. None for another node, and where nothing is.
fn recorded_bound(state: &SearchState, number: usize) -> Option<i128>
    requires assembled { IsAssembled state.now }
    requires number { number < length state.now.nodes.items }
    ensures { IfSome result (IsLeafBound (machine_state state.now) number) }
{
    let _plot = state.grounds[number].plot()?;
    state.nodes[number].bound()
}

/// The least of what is recorded of open leaves and the cost of the best design, in cost grains.
fn least_recorded(state: &SearchState) -> Option<i128>
    requires { IsAssembled state.now }
    ensures { IsBegun (machine_state state.now) result }
{
    let mut least = signed_cost(state);
    for number in 0..state.nodes.as_slice().len() {
        least = lesser(least, recorded_bound(state, number));
    }
    least
}

/// Whether a leaf need not be priced: its lower bound is not below the least bound so far.
fn is_needless(low: Option<i128>, least: Option<i128>) -> bool
    ensures { IsTrue result ↔ IsNeedless low least }
{
    match (low, least) {
        (Some(low), Some(least)) => low >= least,
        _ => false,
    }
}

/// The lesser of the least bound so far and the bound of an open leaf, in cost grains. The leaf is priced only where its
/// lower bound is below the least one so far.
fn least_with(
    state: &SearchState,
    known: &KnownAbove,
    number: usize,
    low: Option<i128>,
    least: Option<i128>,
) -> Result<Option<i128>, AllocError>
    requires assembled { IsAssembled state.now }
    requires number { number < length state.now.nodes.items }
    requires low { IsLow (machine_state state.now) number low }
    requires limit { IsLimitOrNone (machine_state state.now) least }
    ensures { IfOk result (IsLesserOver (machine_state state.now) number (number + 1) least) }
{
    if is_needless(low, least) {
        return Ok(least);
    }
    Ok(lesser(least, leaf_bound(state, known, number)?))
}

/// The lesser of the least bound so far and the bounds of the open leaves from one number up to another, in cost grains.
fn least_over(
    state: &SearchState,
    known: &KnownAbove,
    lows: &[Option<i128>],
    from: usize,
    to: usize,
    so_far: Option<i128>,
) -> Result<Option<i128>, AllocError>
    requires assembled { IsAssembled state.now }
    requires lows { AreLows (machine_state state.now) lows.now }
    requires to { to ≤ length state.now.nodes.items }
    requires limit { IsLimitOrNone (machine_state state.now) so_far }
    ensures { IfOk result (IsLesserOver (machine_state state.now) from to so_far) }
{
    let mut least = so_far;
    for number in from..to {
        least = least_with(state, known, number, lows[number], least)?;
    }
    Ok(least)
}

/// The least of the bounds of the open leaves and the cost of the best design, in cost grains; none where there
/// is neither.
///
/// - Time: linear in the nodes, beside the leaves that are priced: that with the least lower bound first, and each other one
///   only where its own is below the least bound so far.
pub(crate) fn least_bound(
    state: &SearchState,
    known: &KnownAbove,
) -> Result<Option<i128>, AllocError>
    requires { IsAssembled state.now }
    ensures { IfOk result (IsLeastOrNone (machine_state state.now) (length state.now.nodes.items)) }
{
    let all = lows_of(state)?;
    let lows = all.as_slice();
    let first = lowest_leaf(state, lows);
    let recorded = least_recorded(state);
    let of_first = least_over(state, known, lows, first, first + 1, recorded)?;
    let before = least_over(state, known, lows, 0, first, of_first)?;
    least_over(state, known, lows, first + 1, lows.len(), before)
}
